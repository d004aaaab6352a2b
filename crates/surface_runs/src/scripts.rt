// Texts of scripts and lists, reports, generated scripts, and the top call.

ghost use Rattle.std.specs.Prelude.{◌-◌, ◌<◌, ◌^◌, length};

use std::alloc::Global;
use std::sync::Wait;
use std::thread::Threads;

// ---- script_text

pub fn script_fields(script: &script_text::Script) {
    let _: hash_algos::Algo = script.hash;
    let _: inode_meta::Template = script.template;
    let _: inode_meta::Mode = script.mode;
    let _: hash_algos::Digest = script.boot;
    let _: Option<xattr_store::Bytes> = script.key;
    let _: Vec<xattr_store::Bytes> = script.added;
    let _: bool = script.locked;
    let _: u8 = script.format;
    let _: Vec<policy_text::Super> = script.supers;
    let _: Vec<script_text::FileBlock> = script.files;
    let _: policy_text::Policy = script.rules;
    let _: Vec<script_text::TaskBlock> = script.tasks;
    let _: script_text::Ending = script.ending;
}

pub fn blocks(
    file: &script_text::FileBlock,
    list: &script_text::ListText,
    ending: &script_text::Ending,
) {
    let _: xattr_store::Bytes = file.path;
    let _: u32 = file.fs;
    let _: inode_events::Image = file.image;
    let _: Vec<(xattr_store::Bytes, xattr_store::Bytes)> = list.files;
    match ending {
        script_text::Ending::Schedule(_)
        | script_text::Ending::Rounds
        | script_text::Ending::Threads(_) => {}
    }
}

pub fn errors(e: script_text::ScriptErr, fault: script_text::Fault) {
    let _: u32 = fault.line;
    match e {
        script_text::ScriptErr::Refused(_) | script_text::ScriptErr::OutOfMemory => {}
    }
    match fault.cause {
        script_text::LineCause::BadRule(_)
        | script_text::LineCause::BadWord
        | script_text::LineCause::OutOfPlace
        | script_text::LineCause::BadField
        | script_text::LineCause::Unknown
        | script_text::LineCause::Twice
        | script_text::LineCause::TooMany
        | script_text::LineCause::TooLarge
        | script_text::LineCause::NoEnd
        | script_text::LineCause::Locked => {}
    }
}

pub fn parse(alloc: Global, b: &[u8]) -> Result<script_text::Script, script_text::ScriptErr>
    requires { length b.now < 2 ^ 32 - 1 }
{
    script_text::parse(alloc, b)
}

pub fn parse_list(alloc: Global, b: &[u8]) -> Result<script_text::ListText, script_text::ScriptErr>
    requires { length b.now < 2 ^ 32 - 1 }
{
    script_text::parse_list(alloc, b)
}

// "The turns of a schedule and the calls of a task are small types over a vector"
pub fn task_block(cred: inode_meta::Cred, calls: Vec<call_steps::Call>) -> script_text::TaskBlock {
    let calls = script_text::Calls::from_vec(calls);
    script_text::TaskBlock { cred, calls }
}

// "The turns of a schedule and the calls of a task are small types over a vector"
pub fn schedule(turns: Vec<u32>) -> script_text::Ending {
    script_text::Ending::Schedule(call_steps::Turns::from_vec(turns))
}

// ---- script_print

// "The canonical text of a script is printed by a crate of its own, `script_print`, above the
// reader"
pub fn print(alloc: Global, s: &script_text::Script) -> Result<Vec<u8>, script_print::OutOfMemory> {
    script_print::print(alloc, s)
}

// ---- report_text

pub fn reports(
    alloc: Global,
    number: u32,
    script: usize,
    e: &task_core::Ended,
) -> [Result<Vec<u8>, report_text::OutOfMemory>; 2] {
    [
        report_text::report(alloc, e),
        report_text::summary(alloc, number, script, e),
    ]
}

// ---- load_gen

// "`load_gen::script` and `summarize` of `ima_top` take every number"
pub fn generated(alloc: Global, number: u32) -> Result<Vec<u8>, load_gen::OutOfMemory> {
    load_gen::script(alloc, number)
}

// ---- ima_top

// "Only calls that take a lock or start threads take the runtime, before the allocator"
pub fn serve<
    S: ima_io::Source,
    K: ima_io::Sink,
    N: ima_io::Sink,
    G: ima_io::Gate + Sync,
    R: Threads + Wait + Sync,
>(
    rt: &R,
    alloc: Global,
    words: &[String],
    script: &mut S,
    out: &mut K,
    note: &mut N,
    gate: &G,
) -> u8 {
    ima_top::serve(rt, alloc, words, script, out, note, gate)
}
