// The lines of events, by their words.

ghost use Rattle.std.specs.Prelude.{◌≡◌, map};
ghost use Rattle.report_lines.specs.Lines as spec;

use inode_meta::Who;
use report_words::{
    Deed, Event, Outcome, Span, after, deed_in, is_whole, number_in, outcome_of, who_in,
};

fn birth_of(line: Span, words: &[&[u8]]) -> Option<Event>
    ensures { result ≡ spec.birth_of line (map (λ w. w.now) words.now) }
{
    if !is_whole(after(b"birth", words)) {
        return None;
    }
    Some(Event {
        line,
        who: Who {
            task: 0,
            call: 0,
            step: 0,
        },
        deed: Deed::Birth,
        outcome: Outcome::Born,
    })
}

// `TASK.CALL.STEP DEED = OUTCOME`.
fn step_of(line: Span, words: &[&[u8]]) -> Option<Event>
    ensures { result ≡ spec.step_of line (map (λ w. w.now) words.now) }
{
    let (who, rest) = who_in(words)?;
    let (deed, rest) = deed_in(rest)?;
    let rest = after(b"=", rest)?;
    let outcome = outcome_of(deed, rest)?;
    Some(Event {
        line,
        who,
        deed,
        outcome,
    })
}

/// The event of this place: the first is the birth.
#[tactic(auto, unfolding(crate::specs::Lines::event_of))]
pub fn event_of(place: usize, line: Span, words: &[&[u8]]) -> Option<Event>
    ensures { result ≡ spec.event_of place line (map (λ w. w.now) words.now) }
{
    let (number, rest) = number_in(words)?;
    if number as usize != place {
        return None;
    }
    if place == 0 {
        birth_of(line, rest)
    } else {
        step_of(line, rest)
    }
}
