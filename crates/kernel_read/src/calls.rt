// The calls by which the kernel reads a file, and the grants of calls.

ghost use Rattle.std.specs.Prelude.{◌≡◌, option_map};
ghost use Rattle.kernel_read.specs.Places.{calls_in, reads};
ghost use Rattle.kernel_read.specs.Table.{func_raised};
ghost use Rattle.run_laws.specs.kernel_reads.Reads.{placed_by, read_by};

use inode_events::templates::Placed;
use inode_events::{Deed, Event, Told};
use policy_text::Func;
use run_model::steps::Call;
use script_text::TaskBlock;

// The hook that the call raises and the inode that the kernel reads by it.
pub fn read_of(call: &Call) -> Option<(Func, u32)>
    ensures { result ≡ option_map (λ i. (func_raised call.now, i)) (read_by call.now) }
{
    match call {
        Call::Module { inode } => Some((Func::ModuleCheck, *inode)),
        Call::Firmware { inode } => Some((Func::FirmwareCheck, *inode)),
        _ => None,
    }
}

// Whether the kernel reads the inode by this call of the task.
pub fn is_read(tasks: &[TaskBlock], task: usize, call: usize, inode: usize) -> bool
    ensures { result ≡ reads (calls_in tasks.now) task call inode }
{
    let Some(block) = tasks.get(task) else {
        return false;
    };
    let Some(call) = block.calls.as_slice().get(call) else {
        return false;
    };
    match read_of(call) {
        Some((_, read)) => read as usize == inode,
        None => false,
    }
}

// The place in the list that the event's grant names.
pub fn placed_by(event: &Event) -> Option<Placed>
    ensures { result ≡ placed_by event.now.deed event.now.told }
{
    match (&event.deed, &event.told) {
        (Deed::Take { .. }, Told::Grant(grant)) => grant.placed,
        (Deed::Finish { .. }, Told::Grant(grant)) => grant.placed,
        _ => None,
    }
}
