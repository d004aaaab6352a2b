use grow_list::Pass;
use inode_events::Settings;
use measure_book::Book;
use policy_cell::{PolicyCell, RuleEntry};
use policy_rules::Super;
use semaphore_cell::SemaphoreCell;
use std::alloc::Global;
use world_model::WorldInode;

/// What the tasks of a world share: its lists and its constants. It is handed from the start of a
/// world through its steps, on one thread or under locks, to its close.
#[derive(Drop)]
pub struct Parts {
    /// The inodes, in order.
    pub world_inodes: Vec<WorldInode>,
    /// The measurement list.
    pub book: Book,
    /// The semaphores and their journal.
    pub sems: SemaphoreCell,
    /// The rules of the script and the appended ones.
    pub rules: PolicyCell,
    /// The spare passes of the rules, which belong to no task and no inode.
    pub spares: Vec<Pass<RuleEntry>>,
    /// The file systems, in order.
    pub supers: Vec<Super>,
    /// The settings that all inodes share.
    pub settings: Settings,
    /// The number of tasks.
    pub tasks: u32,
    /// The allocator of the world's memory.
    pub alloc: Global,
}
