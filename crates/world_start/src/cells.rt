// The lists of a world other than the journals of its inodes, and their passes.
ghost use Rattle.std.specs.Prelude.{◌≡◌, ℕ, ◌+◌, ◌-◌, ◌<◌, ◌^◌, [], ◌∷◌, IfOk, max};
ghost use Rattle.world_start.specs.Started.{AreFresh};

use grow_list::Pass;
use ima_templates::Entry;
use inode_events::Event;
use measure_book::Book;
use policy_cell::{PolicyCell, RuleEntry};
use policy_rules::Policy;
use std::alloc::{AllocError as OutOfMemory, Global};
use world_close::semaphores::SemaphoreCell;

// The lists of a new world, with the passes of the inodes and of the tasks.
#[derive(Drop)]
pub(crate) struct Cells {
    pub(crate) book: Book,
    pub(crate) sems: SemaphoreCell,
    pub(crate) rules: PolicyCell,
    // The passes of the inodes: of the measurement list, and of the rules
    pub(crate) list_passes: Vec<Pass<Entry>>,
    pub(crate) rule_passes: Vec<Pass<RuleEntry>>,
    // The passes of the tasks: of the semaphores, of the measurement list, and of the rules
    pub(crate) task_signal_passes: Vec<Pass<Event>>,
    pub(crate) task_list_passes: Vec<Pass<Entry>>,
    pub(crate) task_appenders: Vec<Pass<RuleEntry>>,
    // The spare pass of the rules: one if there is neither a task nor an inode, else none
    pub(crate) spares: Vec<Pass<RuleEntry>>,
}

// The number of callers of the rules: the tasks and the inodes, or one spare caller if there are
// none.
fn appenders_of(tasks: u32, count: u32) -> u32
    requires { count + tasks + 1 < 2 ^ 32 }
    ensures { result ≡ max 1 (tasks + count) }
{
    if tasks + count == 0 { 1 } else { tasks + count }
}

// The measurement list of a new world, with its passes of the inodes and of the tasks.
#[derive(Drop)]
struct Listed {
    book: Book,
    list_passes: Vec<Pass<Entry>>,
    task_list_passes: Vec<Pass<Entry>>,
}

// Starts the measurement list for this many inodes and tasks.
fn start_book(alloc: Global, boot: Entry, count: u32, tasks: u32) -> Result<Listed, OutOfMemory>
    requires { count + tasks + 1 < 2 ^ 32 }
    ensures book { IfOk result (λ c. c.book.list ≡ boot ∷ []) }
    ensures listed { IfOk result (λ c. c.book.callers ≡ 1 + count + tasks) }
    ensures list_passes { IfOk result (λ c. AreFresh c.book.name (λ k. k + 1) count
        c.list_passes.items) }
    ensures task_list_passes { IfOk result (λ c. AreFresh c.book.name (λ k. count + k + 1) tasks
        c.task_list_passes.items) }
{
    let (book, mut list_passes) = Book::start(alloc, 1 + count + tasks, boot)?;
    let task_list_passes = list_passes.split_off(count as usize)?;
    Ok(Listed {
        book,
        list_passes,
        task_list_passes,
    })
}

// The rules of a new world, with the passes of the inodes and of the tasks, and the spare one.
#[derive(Drop)]
struct Ruled {
    rules: PolicyCell,
    rule_passes: Vec<Pass<RuleEntry>>,
    task_appenders: Vec<Pass<RuleEntry>>,
    spares: Vec<Pass<RuleEntry>>,
}

// Starts the rules for this many inodes and tasks.
fn start_rules(alloc: Global, rules: Policy, count: u32, tasks: u32) -> Result<Ruled, OutOfMemory>
    requires { count + tasks + 1 < 2 ^ 32 }
    ensures base { IfOk result (λ c. c.rules.base ≡ rules) }
    ensures added { IfOk result (λ c. c.rules.appended.list ≡ []) }
    ensures numbers { IfOk result (λ c. c.rules.appended.numbers ≡ []) }
    ensures appended { IfOk result (λ c. c.rules.appended.callers ≡ max 1 (tasks + count)) }
    ensures rule_passes { IfOk result (λ c. AreFresh c.rules.appended.name (λ k. tasks + k) count
        c.rule_passes.items) }
    ensures task_appenders { IfOk result (λ c. AreFresh c.rules.appended.name (λ k. k) tasks
        c.task_appenders.items) }
    ensures spares { IfOk result (λ c. AreFresh c.rules.appended.name (λ k. tasks + count + k)
        (max 1 (tasks + count) - (tasks + count)) c.spares.items) }
{
    let appenders = appenders_of(tasks, count);
    let (rules, mut task_appenders) = PolicyCell::start(alloc, rules, appenders)?;
    let mut rule_passes = task_appenders.split_off(tasks as usize)?;
    let spares = rule_passes.split_off(count as usize)?;
    Ok(Ruled {
        rules,
        rule_passes,
        task_appenders,
        spares,
    })
}

// Starts the lists for this many inodes and tasks.
pub(crate) fn start_cells(
    alloc: Global,
    boot: Entry,
    rules: Policy,
    count: u32,
    tasks: u32,
) -> Result<Cells, OutOfMemory>
    requires { count + tasks + 1 < 2 ^ 32 }
    ensures book { IfOk result (λ c. c.book.list ≡ boot ∷ []) }
    ensures listed { IfOk result (λ c. c.book.callers ≡ 1 + count + tasks) }
    ensures sems { IfOk result (λ c. c.sems.list ≡ []) }
    ensures signalled { IfOk result (λ c. c.sems.callers ≡ tasks + 1) }
    ensures base { IfOk result (λ c. c.rules.base ≡ rules) }
    ensures added { IfOk result (λ c. c.rules.appended.list ≡ []) }
    ensures numbers { IfOk result (λ c. c.rules.appended.numbers ≡ []) }
    ensures appended { IfOk result (λ c. c.rules.appended.callers ≡ max 1 (tasks + count)) }
    ensures list_passes { IfOk result (λ c. AreFresh c.book.name (λ k. k + 1) count
        c.list_passes.items) }
    ensures rule_passes { IfOk result (λ c. AreFresh c.rules.appended.name (λ k. tasks + k) count
        c.rule_passes.items) }
    ensures task_signal_passes { IfOk result (λ c. AreFresh c.sems.name (λ k. k + 1) tasks
        c.task_signal_passes.items) }
    ensures task_list_passes { IfOk result (λ c. AreFresh c.book.name (λ k. count + k + 1) tasks
        c.task_list_passes.items) }
    ensures task_appenders { IfOk result (λ c. AreFresh c.rules.appended.name (λ k. k) tasks
        c.task_appenders.items) }
    ensures spares { IfOk result (λ c. AreFresh c.rules.appended.name (λ k. tasks + count + k)
        (max 1 (tasks + count) - (tasks + count)) c.spares.items) }
{
    let listed = start_book(alloc, boot, count, tasks)?;
    let (sems, task_signal_passes) = SemaphoreCell::start(alloc, tasks + 1)?;
    let ruled = start_rules(alloc, rules, count, tasks)?;
    Ok(Cells {
        book: listed.book,
        sems,
        rules: ruled.rules,
        list_passes: listed.list_passes,
        rule_passes: ruled.rule_passes,
        task_signal_passes,
        task_list_passes: listed.task_list_passes,
        task_appenders: ruled.task_appenders,
        spares: ruled.spares,
    })
}
