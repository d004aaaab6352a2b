// A number by which sights are sorted before they are compared.

use crate::sight::Sight;
use inode_cell::InodeCell;
use inode_events::templates::Entry;
use task_core::Task;
use task_state::TaskState;

const FIRST: u64 = 0xcbf2_9ce4_8422_2325;

// The mark with one number more (FNV-1a).
fn mixed(mark: u64, number: u64) -> u64 {
    (mark ^ number).wrapping_mul(0x100_0000_01b3)
}

fn with_bytes(mark: u64, bytes: &[u8]) -> u64 {
    let mut mark = mark;
    for byte in bytes {
        mark = mixed(mark, u64::from(*byte));
    }
    mark
}

// One of 64 bits, by the entry. Such bits together don't depend on the order of the entries.
fn bit_of(entry: &Entry) -> u64 {
    let mark = mixed(FIRST, u64::from(entry.violation));
    let mark = with_bytes(mark, entry.digest.as_slice());
    let mark = with_bytes(mark, entry.name.as_slice());
    1 << (mark >> 32) % 64
}

fn bits_of(list: &[Entry]) -> u64 {
    let mut bits = 0;
    for entry in list {
        bits |= bit_of(entry);
    }
    bits
}

fn with_task_state(mark: u64, task_state: &TaskState) -> u64 {
    let step = match task_state.progress() {
        Some(progress) => u64::from(progress.step) + 1,
        None => 0,
    };
    let mark = mixed(mark, u64::from(task_state.at()));
    let mark = mixed(mark, step);
    mixed(mark, task_state.handles().len() as u64)
}

fn with_tasks(mark: u64, tasks: &[Task]) -> u64 {
    let mut mark = mark;
    for task in tasks {
        mark = with_task_state(mark, task.task_state());
    }
    mark
}

fn with_inode(mark: u64, cell: &InodeCell) -> u64 {
    let state = cell.state();
    let pieces = match &state.collecting {
        Some(collecting) => collecting.pieces.saturating_add(1),
        None => 0,
    };
    let mark = mixed(mark, state.counts.writers);
    let mark = mixed(mark, state.counts.readers);
    let mark = mixed(mark, u64::from(state.marks.must_measure));
    let mark = mixed(mark, u64::from(state.in_force.is_some()));
    let mark = mixed(mark, pieces);
    mixed(mark, cell.content().len())
}

impl Sight {
    /// A number that is the same for most sights that are alike, and differs for most others.
    pub fn mark(&self) -> u64 {
        let mark = mixed(FIRST, bits_of(self.ended.list.as_slice()));
        let mut mark = with_tasks(mark, self.tasks.as_slice());
        for i in 0..self.ended.inodes.len() {
            if let Some(cell) = self.world.inode(i) {
                mark = with_inode(mark, cell);
            }
        }
        mark
    }
}
