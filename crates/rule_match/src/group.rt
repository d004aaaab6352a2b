ghost use Rattle.std.specs.Prelude.{◌≡◌};
ghost use Rattle.rule_match.specs.Group.{group_writes};
ghost use Rattle.rule_match.specs.Groups.{group_of, earlier_of, earliest_of, lines_after};
ghost use Rattle.rule_match.specs.SameGroup.{same_group-hashed};

use policy_rules::{Func, Rule};
use std::hash::{Hash, Hasher};

/// The `func=` and the `fsmagic=` of a rule, either of which may be absent. Rules that agree in
/// both form a group.
#[derive(Clone, Copy, PartialEq, Eq)]
pub struct Group {
    pub func: Option<Func>,
    pub magic: Option<u64>,
}

impl Group {
    /// The group to which a rule belongs.
    pub fn of(r: &Rule) -> Group
        ensures { result ≡ group_of r.now }
    {
        Group {
            func: r.func,
            magic: r.fsmagic,
        }
    }
}

/// Hashes the function by its number, and then the magic number.
impl Hash for Group {
    ghost hash_input = { group_writes };

    ghost respects_eq = { same_group-hashed };

    fn hash<H: Hasher>(&self, state: &mut H) {
        self.func.map(|func| func as u8).hash(state);
        self.magic.hash(state);
    }
}

/// The lines that a walk from the first line to the last still has to visit: for each group whose
/// rules can match the access, its lines that the walk hasn't passed.
#[derive(Clone, Copy)]
pub struct Candidates<'a> {
    /// The lines of rules with the access's function and magic number.
    pub both: &'a [usize],
    /// The lines of rules with the access's function and no `fsmagic=`.
    pub func: &'a [usize],
    /// The lines of rules with the access's magic number and no `func=`.
    pub magic: &'a [usize],
    /// The lines of rules with neither `func=` nor `fsmagic=`.
    pub neither: &'a [usize],
}

impl<'a> Candidates<'a> {
    /// The first line that remains, if there is one.
    pub fn earliest(self) -> Option<usize>
        ensures { result ≡ earliest_of self.entry }
    {
        let by_func = earlier(self.both.first().copied(), self.func.first().copied());
        let by_none = earlier(self.magic.first().copied(), self.neither.first().copied());
        earlier(by_func, by_none)
    }

    /// The lines that remain after `line`.
    pub fn after(self, line: usize) -> Candidates<'a>
        ensures both { result.both.now ≡ lines_after line self.entry.both.now }
        ensures func { result.func.now ≡ lines_after line self.entry.func.now }
        ensures magic { result.magic.now ≡ lines_after line self.entry.magic.now }
        ensures neither { result.neither.now ≡ lines_after line self.entry.neither.now }
    {
        Candidates {
            both: after(self.both, line),
            func: after(self.func, line),
            magic: after(self.magic, line),
            neither: after(self.neither, line),
        }
    }
}

fn after(lines: &[usize], line: usize) -> &[usize]
    ensures { result.now ≡ lines_after line lines.now }
{
    match lines.first() {
        Some(first) if *first == line => &lines[1..],
        _ => lines,
    }
}

fn earlier(m: Option<usize>, n: Option<usize>) -> Option<usize>
    ensures { result ≡ earlier_of m n }
{
    match (m, n) {
        (Some(m), Some(n)) => Some(if n < m { n } else { m }),
        (Some(m), None) => Some(m),
        (None, n) => n,
    }
}
