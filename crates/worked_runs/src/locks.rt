// Steps of two tasks on threads, while a third thread holds the file of one of them.
ghost use Rattle.std.specs.Prelude.{◌≡◌, ◌<◌, true, All, IfOk, length};
ghost use Rattle.std.specs.Thread.{IsSync};
ghost use Rattle.ima_top.specs.worlds.Tasks.{IsTask};

use crate::gates::sees;
use ima_top::{Live, Name, Task, Turn, World, started};
use script_text::{ScriptErr, parse};
use std::alloc::Global;
use std::marker::Brand;
use std::sync::Wait;
use std::sync::atomic::{AtomicBool, Ordering};
use std::thread;
use std::thread::{Threads, join};

// Two tasks, each of which opens the file of its own number.
const OPENS: &str = "imakern 1\n\
    fs magic=0xef53 uuid=00000000-0000-0000-0000-000000000001 name=ext4 versions\n\
    file /a fs=0 ino=12 gen=1 uid=0 gid=0 mode=100644 content=txt:abc\n\
    file /b fs=0 ino=13 gen=1 uid=0 gid=0 mode=100644 content=txt:de\n\
    task uid=0 euid=0 gid=0 egid=0\nopen 0 /a r\n\
    task uid=0 euid=0 gid=0 egid=0\nopen 0 /b r\n\
    threads 2\n";

// What the threads tell each other.
#[derive(Drop)]
struct Flags {
    // The file is held.
    held: AtomicBool,
    // The task that opens the held file has made a step.
    waiting: AtomicBool,
    // The other task has made its steps.
    free: AtomicBool,
    // While the file was held, the other task made its steps, and the task that opens it none.
    apart: AtomicBool,
}

// Holds the file of this number till the task that opens the other has made its steps.
fn hold<N: Name, R: Wait>(rt: &R, live: &Live<N>, flags: &Flags, inode: u32)
    requires { inode < length N.consts.each_inode }
{
    live.hold(rt, inode, || {
        flags.held.store(true, Ordering::SeqCst);
        let free = sees(&flags.free);
        let waiting = flags.waiting.load(Ordering::SeqCst);
        flags.apart.store(free && !waiting, Ordering::SeqCst);
    });
}

// One step of the task. Answers whether it moved.
fn step<N: Name, R: Wait>(rt: &R, live: &Live<N>, task: &mut Task) -> bool
    requires { IsTask N.consts task.old }
    ensures { IsTask N.consts task.new }
{
    match task.step_shared(rt, live) {
        Ok(Turn::Moved) => true,
        _ => false,
    }
}

// Once the file of this number is held: one step of the task that opens it, or both of the other.
// Answers whether they moved.
fn step_while_held<N: Name, R: Wait>(
    rt: &R,
    live: &Live<N>,
    flags: &Flags,
    inode: u32,
    task: &mut Task,
) -> bool
    requires { IsTask N.consts task.old }
{
    let held = sees(&flags.held);
    let waits = matches!(task.who(), Some(who) if who.task == inode);
    let begun = step(rt, live, task);
    if waits {
        flags.waiting.store(true, Ordering::SeqCst);
        return held && begun;
    }
    let done = step(rt, live, task);
    flags.free.store(true, Ordering::SeqCst);
    held && begun && done
}

// Whether each of these is true.
fn are_set(flags: &[bool]) -> bool {
    for flag in flags {
        if !*flag {
            return false;
        }
    }
    true
}

// Each task in a thread of its own. Answers whether all their steps moved.
fn step_all<N: Name, R: Threads + Wait + Sync>(
    rt: &R,
    live: &Live<N>,
    flags: &Flags,
    inode: u32,
    tasks: Vec<Task>,
) -> bool
    requires { All (IsTask N.consts) tasks.items }
{
    let moved = thread::map_vec(
        rt,
        tasks,
        &|task: Task| -> bool
            requires { IsTask N.consts task }
        {
            let mut task = task;
            step_while_held(rt, live, flags, inode, &mut task)
        },
    );
    match moved {
        Ok(moved) => are_set(&moved),
        Err(_) => false,
    }
}

// Whether, while the file of this number was held, the task that opens the other made its steps,
// and the task that opens it none.
fn were_apart<N: Name, R: Threads + Wait + Sync>(
    rt: &R,
    live: &Live<N>,
    inode: u32,
    tasks: Vec<Task>,
) -> bool
    requires inode { inode < length N.consts.each_inode }
    requires tasks { All (IsTask N.consts) tasks.items }
{
    let flags = Flags {
        held: AtomicBool::new(false),
        waiting: AtomicBool::new(false),
        free: AtomicBool::new(false),
        apart: AtomicBool::new(false),
    };
    let told = &flags;
    let (_, moved) = join(
        rt,
        ||
            requires { inode < length N.consts.each_inode }
        { hold(rt, live, told, inode) },
        move || -> bool
            requires { IsSync R.row × All (IsTask N.consts) tasks.items }
        { step_all(rt, live, told, inode, tasks) },
    );
    moved && flags.apart.load(Ordering::SeqCst)
}

// The same of the tasks of this world.
fn are_apart<N: Name, R: Threads + Wait + Sync>(
    rt: &R,
    world: World,
    inode: u32,
    tasks: Vec<Task>,
) -> bool
    requires consts { world.consts ≡ N.consts }
    requires inode { inode < length N.consts.each_inode }
    requires tasks { All (IsTask N.consts) tasks.items }
{
    match world.share::<N>() {
        Ok(live) => were_apart(rt, &live, inode, tasks),
        Err(_) => false,
    }
}

// The world of the script and its tasks before their first turn.
fn opened(alloc: Global) -> Result<(World, Vec<Task>), ScriptErr>
    ensures { IfOk result (λ r. All (IsTask r.0.consts) r.1.items) }
{
    let script = parse(alloc, OPENS.as_bytes())?;
    let (world, tasks, _ending) = started(alloc, script)?;
    Ok((world, tasks))
}

// Whether the world has an inode of this number.
fn has_inode(world: &World, inode: u32) -> bool
    ensures { result ≡ true → inode < length world.now.consts.each_inode }
{
    match world.inode(inode as usize) {
        Some(_) => true,
        None => false,
    }
}

// The same of a run of its own of the script.
fn is_apart<R: Threads + Wait + Sync>(rt: &R, alloc: Global, inode: u32) -> bool {
    match opened(alloc) {
        Ok((world, tasks)) => {
            has_inode(&world, inode) && are_apart::<Brand, R>(rt, world, inode, tasks)
        }
        Err(_) => false,
    }
}

/// Whether each inode is under a lock of its own: while a thread holds one, a task makes its steps
/// on the other, and one that opens the held one waits. It is not if memory runs out.
pub fn inodes_are_apart<R: Threads + Wait + Sync>(rt: &R, alloc: Global) -> bool {
    is_apart(rt, alloc, 0) && is_apart(rt, alloc, 1)
}
