use call_steps::Reply;
use call_steps::events::EndedInode;
use call_steps::events::templates::Entry;
use inode_meta::Template;
use measure_book::registers::Banks;
use policy_cell::RuleEntry;
use std::marker::Model;

/// A task at the end of a run. Contracts see its fields, with the replies as a list.
#[derive(Drop)]
pub struct EndedTask {
    /// Whether all of its calls are answered.
    pub done: bool,
    /// The replies of the answered calls, in order.
    pub replies: Vec<Reply>,
}

impl Model for EndedTask {
    ghost use Rattle.run_model.specs.EndedValue.{EndedTaskValue};

    ghost Value = { EndedTaskValue };

    ghost view = { λ t. record { done = t.done; replies = t.replies.items } };
}

/// The final state of a run. Contracts see its fields, with each vector as a list.
#[derive(Drop)]
pub struct Ended {
    /// The inodes with their journals, in the order of the script.
    pub inodes: Vec<EndedInode>,
    /// The entries of the measurement list, oldest first.
    pub list: Vec<Entry>,
    /// The PCRs, which are the replay of the measurement list.
    pub banks: Banks,
    /// The tasks, in the order of their numbers.
    pub tasks: Vec<EndedTask>,
    /// Whether some task isn't done, and every such task waits for a semaphore that is at 0.
    pub stuck: bool,
    /// The template that the script sets.
    pub template: Template,
    /// The rules that tasks appended, in order.
    pub rules: Vec<RuleEntry>,
    /// The number of the script's own rules.
    pub base: u64,
    /// Whether some task's program can append rules.
    pub grows: bool,
}

impl Model for Ended {
    ghost use Rattle.run_model.specs.EndedValue.{EndedValue};

    ghost Value = { EndedValue };

    ghost view = { λ e. record {
      inodes = e.inodes.items;
      list = e.list.items;
      banks = e.banks;
      tasks = e.tasks.items;
      stuck = e.stuck;
      template = e.template;
      rules = e.rules.items;
      base = e.base;
      grows = e.grows;
    } };
}
