use grow_list::Pass;
use inode_events::Event;
use inode_events::templates::Entry;
use policy_cell::RuleEntry;
use std::marker::Model;

/// The passes of one task. Contracts see a record of the fields, with the vector as a list.
#[derive(Drop)]
pub struct Passes {
    /// One pass for each inode's journal, in the order of the inodes.
    pub inodes: Vec<Pass<Event>>,
    /// The pass of the journal of the semaphores.
    pub sems: Pass<Event>,
    /// The pass of the measurement list. The task adds nothing through it.
    pub book: Pass<Entry>,
    /// The pass of the appended rules.
    pub rules: Pass<RuleEntry>,
}

impl Model for Passes {
    ghost use Rattle.world_model.specs.Tasks.{PassesValue};

    ghost Value = { PassesValue };

    ghost view = { λ p. record {
      inodes = p.inodes.items;
      sems = p.sems;
      book = p.book;
      rules = p.rules;
    } };
}
