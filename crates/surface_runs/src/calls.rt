// Calls of tasks, their steps and their replies.

// ---- call_steps

// Bytes, names and values are boxed, and so is an appended rule: "Large and rare parts of an event
// or a call are in memory of their own".
pub fn calls(call: &call_steps::Call) {
    match call {
        call_steps::Call::Open {
            fd: _,
            inode: _,
            how: _,
            trunc: _,
        }
        | call_steps::Call::Read {
            fd: _,
            from: _,
            len: _,
        }
        | call_steps::Call::Write {
            fd: _,
            from: _,
            bytes: _,
        }
        | call_steps::Call::Ftruncate { fd: _, len: _ }
        | call_steps::Call::Close { fd: _ }
        | call_steps::Call::Mmap {
            map: _,
            fd: _,
            exec: _,
        }
        | call_steps::Call::Mread {
            map: _,
            from: _,
            len: _,
        }
        | call_steps::Call::Munmap { map: _ }
        | call_steps::Call::Exec { run: _, inode: _ }
        | call_steps::Call::Endexec { run: _ }
        | call_steps::Call::SetAttr {
            inode: _,
            name: _,
            value: _,
        }
        | call_steps::Call::SetMeta {
            inode: _,
            change: _,
        }
        | call_steps::Call::Post { sem: _ }
        | call_steps::Call::Wait { sem: _ }
        | call_steps::Call::AddRule { rule: _ }
        | call_steps::Call::Module { inode: _ }
        | call_steps::Call::Firmware { inode: _ } => {}
    }
}

// "The outcome of a read, and its reply, has room for SHA-256 and no longer digest, and counts
// bytes in 32 bits"
pub fn reply(reply: &call_steps::Reply) {
    match reply {
        call_steps::Reply::Done
        | call_steps::Reply::Bytes { n: _, digest: _ }
        | call_steps::Reply::NotFound
        | call_steps::Reply::BadFile
        | call_steps::Reply::TextBusy
        | call_steps::Reply::TooBig
        | call_steps::Reply::TooLong
        | call_steps::Reply::NoData
        | call_steps::Reply::Invalid
        | call_steps::Reply::EvmName
        | call_steps::Reply::NotAdmin
        | call_steps::Reply::Status(_)
        | call_steps::Reply::Denied(_) => {}
    }
}

pub fn step(ask: call_steps::Ask, hand: &call_steps::Hand, held: &call_steps::Held) {
    match ask {
        call_steps::Ask::Count
        | call_steps::Ask::Check { func: _, mask: _ }
        | call_steps::Ask::Take { slot: _ }
        | call_steps::Ask::Chunk
        | call_steps::Ask::Finish
        | call_steps::Ask::Read { from: _, len: _ }
        | call_steps::Ask::Write
        | call_steps::Ask::Trunc { len: _ }
        | call_steps::Ask::SetAttr
        | call_steps::Ask::SetMeta
        | call_steps::Ask::Close
        | call_steps::Ask::CloseTake
        | call_steps::Ask::CloseChunk
        | call_steps::Ask::CloseFinish
        | call_steps::Ask::Plain => {}
    }
    let _: Option<call_steps::Held> = hand.held;
    let _: bool = hand.free;
    let _: bool = hand.admin;
    let _: u32 = held.inode;
    let _: u64 = held.file;
    let _: inode_events::How = held.how;
    let _: bool = held.last;
}

pub fn plan(
    call: &call_steps::Call,
    hand: call_steps::Hand,
    mode: inode_meta::Mode,
    begun: &mut call_steps::Plan,
    t: &inode_events::Told,
    action: Option<&policy_text::Action>,
) -> (call_steps::Plan, call_steps::Ask, Option<call_steps::Reply>) {
    let ask = call_steps::Plan::next(begun);
    let reply = call_steps::Plan::told(begun, t, action);
    (call_steps::Plan::start(call, hand, mode), ask, reply)
}
