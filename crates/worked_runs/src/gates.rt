// The gate of a case: one that fixes the order of some steps, one that sees which steps pass it, or
// one at which two tasks, or two callers, wait for each other.
use crate::numbers::number;
use ima_io::{Gate, Who};
use std::hint;
use std::sync::atomic::{AtomicBool, AtomicUsize, Ordering};
use worked_calls::cut;

/// How often a task looks for another at most. That takes about a second, in which one on another
/// thread comes; so the tasks that must not meet wait as long as those that must.
const MOST_LOOKS: u64 = 100_000_000;

// The step of a word TASK.CALL.STEP. A word of another form has a number that no step has.
fn step_of(word: &str) -> Who {
    let (task, rest) = cut(word, ".");
    let (call, step) = cut(rest, ".");
    Who {
        task: number(task),
        call: number(call),
        step: number(step),
    }
}

// Whether each of the words has the form of a step.
fn are_steps(words: &str) -> bool {
    for word in words.split_whitespace() {
        let step = step_of(word);
        if step.task == u32::MAX || step.call == u32::MAX || step.step == u32::MAX {
            return false;
        }
    }
    true
}

// Whether the step is of the same task as the other, and after it.
fn is_later(step: Who, other: Who) -> bool {
    step.task == other.task
        && (step.call > other.call || (step.call == other.call && step.step > other.step))
}

// The step at this place among the words.
fn step_at(words: &str, at: usize) -> Option<Who> {
    match words.split_whitespace().nth(at) {
        Some(word) => Some(step_of(word)),
        None => None,
    }
}

// The place of the step among the words.
fn place_of(words: &str, step: Who) -> Option<usize> {
    let mut place = 0usize;
    for word in words.split_whitespace() {
        if step_of(word) == step {
            return Some(place);
        }
        place = place.saturating_add(1);
    }
    None
}

/// Whether the flag is set before the last look at it.
pub fn sees(flag: &AtomicBool) -> bool {
    for _ in 0..MOST_LOOKS {
        if flag.load(Ordering::SeqCst) {
            return true;
        }
        hint::spin_loop();
    }
    false
}

// What a gate is for.
#[derive(Clone, Copy)]
enum Kind {
    // Nothing: each step passes.
    Free,
    // Each of the steps is held until the one before it is done, which shows by that one's task
    // coming back to the gate. So a step of one task waits at the gate for a step of another: if a
    // lock were held there that the other needs, the wait would be in vain.
    Order,
    // The steps that pass are just these, in this order.
    Exactly,
    // The first step of each of two tasks waits for that of the other, and both come.
    Meet,
    // The same, but one of them waits in vain.
    Apart,
}

/// The gate of a run.
#[derive(Drop)]
pub struct CaseGate<'a> {
    kind: Kind,
    // The words of its steps.
    steps: &'a str,
    // How many of them are done.
    done: AtomicUsize,
    // Whether the first of two tasks came, and the second.
    first: AtomicBool,
    second: AtomicBool,
    // A step was held in vain, isn't the one that is due, or has no form. From then on none is
    // held.
    missed: AtomicBool,
}

impl<'a> CaseGate<'a> {
    /// The gate that the first line of an input names.
    pub fn of(input: &'a str) -> CaseGate<'a> {
        let (line, _) = cut(input, "\n");
        let (mark, steps) = cut(line.strip_prefix("# ").unwrap_or(""), " ");
        let kind = match mark {
            "order" => Kind::Order,
            "exactly" => Kind::Exactly,
            "meet" => Kind::Meet,
            "apart" => Kind::Apart,
            _ => Kind::Free,
        };
        CaseGate {
            kind,
            steps,
            done: AtomicUsize::new(0),
            first: AtomicBool::new(false),
            second: AtomicBool::new(false),
            missed: AtomicBool::new(!are_steps(steps)),
        }
    }

    /// Whether the steps came as the gate wants it.
    pub fn is_well(&self) -> bool {
        let missed = self.missed.load(Ordering::SeqCst);
        match self.kind {
            Kind::Free => true,
            Kind::Order | Kind::Exactly => self.are_done() && !missed,
            Kind::Meet => self.both_came() && !missed,
            Kind::Apart => self.both_came() && missed,
        }
    }

    // Whether all the steps are done.
    fn are_done(&self) -> bool {
        self.done.load(Ordering::SeqCst) == self.steps.split_whitespace().count()
    }

    // Whether each of two tasks came.
    fn both_came(&self) -> bool {
        self.first.load(Ordering::SeqCst) && self.second.load(Ordering::SeqCst)
    }

    // Notes that something isn't as it is wanted.
    fn miss(&self) {
        self.missed.store(true, Ordering::SeqCst);
    }

    // Takes the step as the due one, or notes that it is another.
    fn take(&self, step: Who) {
        let at = self.done.fetch_add(1, Ordering::SeqCst);
        if step_at(self.steps, at) != Some(step) {
            self.miss();
        }
    }

    // Sets the one flag, and waits for the other.
    fn meet(&self, own: &AtomicBool, other: &AtomicBool) {
        own.store(true, Ordering::SeqCst);
        if !sees(other) {
            self.miss();
        }
    }

    // Lets the first step of each of two tasks wait for that of the other.
    fn pair(&self, step: Who) {
        match (step.task, step.call, step.step) {
            (0, 0, 0) => self.meet(&self.first, &self.second),
            (1, 0, 0) => self.meet(&self.second, &self.first),
            _ => (),
        }
    }

    // Notes that the due step is done if its task comes with a later one.
    fn note(&self, step: Who) {
        let done = self.done.load(Ordering::SeqCst);
        if let Some(due) = step_at(self.steps, done)
            && is_later(step, due)
        {
            self.done.fetch_add(1, Ordering::SeqCst);
        }
    }

    // Waits until so many steps are done. Answers whether they are.
    fn comes_to(&self, place: usize) -> bool {
        for _ in 0..MOST_LOOKS {
            if self.done.load(Ordering::SeqCst) == place {
                return true;
            }
            hint::spin_loop();
        }
        false
    }

    // Holds the step until the one before it is done.
    fn hold(&self, step: Who) {
        self.note(step);
        if let Some(place) = place_of(self.steps, step)
            && !self.missed.load(Ordering::SeqCst)
            && !self.comes_to(place)
        {
            self.miss();
        }
    }
}

impl Gate for CaseGate<'_> {
    fn pass(&self, who: Who) {
        match self.kind {
            Kind::Free => (),
            Kind::Order => self.hold(who),
            Kind::Exactly => self.take(who),
            Kind::Meet | Kind::Apart => self.pair(who),
        }
    }
}
