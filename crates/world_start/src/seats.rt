// What each inode needs of a world's other lists: its passes and the number of its file system.
ghost use Rattle.std.specs.Prelude.{◌≡◌, ◌<◌, ◌∷◌, length};

use grow_list::Pass;
use ima_templates::Entry;
use policy_cell::RuleEntry;
use std::collections::VecDeque;
use std::marker::Model;

// For the inodes that are yet to be started: the numbers of their file systems, and their passes of
// the measurement list and of the appended rules.
#[derive(Drop)]
pub(crate) struct Seats {
    places: VecDeque<u32>,
    list_passes: VecDeque<Pass<Entry>>,
    rule_passes: VecDeque<Pass<RuleEntry>>,
}

impl Model for Seats {
    ghost use Rattle.world_start.specs.Started.{SeatsValue};

    ghost Value = { SeatsValue };

    ghost view = { λ s. record {
      places = s.places.items;
      list_passes = s.list_passes.items;
      rule_passes = s.rule_passes.items;
    } };
}

// For one inode: the number of its file system, and its passes of the other lists.
#[derive(Drop)]
pub(crate) struct Seat {
    pub(crate) place: u32,
    pub(crate) listed: Pass<Entry>,
    pub(crate) counted: Pass<RuleEntry>,
}

impl Seats {
    pub(crate) fn new(
        places: Vec<u32>,
        list_passes: Vec<Pass<Entry>>,
        rule_passes: Vec<Pass<RuleEntry>>,
    ) -> Seats
        ensures places { result.places ≡ places.items }
        ensures list_passes { result.list_passes ≡ list_passes.items }
        ensures rule_passes { result.rule_passes ≡ rule_passes.items }
    {
        Seats {
            places: VecDeque::from(places),
            list_passes: VecDeque::from(list_passes),
            rule_passes: VecDeque::from(rule_passes),
        }
    }

    // Takes the seat of the next inode.
    pub(crate) fn next(&mut self) -> Seat
        requires places { 0 < length self.old.places }
        requires list_passes { 0 < length self.old.list_passes }
        requires rule_passes { 0 < length self.old.rule_passes }
        ensures places { self.old.places ≡ result.place ∷ self.new.places }
        ensures list_passes { self.old.list_passes ≡ result.listed ∷ self.new.list_passes }
        ensures rule_passes { self.old.rule_passes ≡ result.counted ∷ self.new.rule_passes }
    {
        let Some(place) = self.places.pop_front() else {
            unreachable!()
        };
        let Some(listed) = self.list_passes.pop_front() else {
            unreachable!()
        };
        let Some(counted) = self.rule_passes.pop_front() else {
            unreachable!()
        };
        Seat {
            place,
            listed,
            counted,
        }
    }
}
