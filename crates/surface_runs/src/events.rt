// Events of inodes, and the answers of the calls that add them.

ghost use Rattle.std.specs.Prelude.{IsTrue};
ghost use Rattle.policy_text.specs.rules.RuleValue.{is_named_template};

// ---- inode_events

pub fn parts(how: inode_events::How, change: inode_events::Change) {
    match how {
        inode_events::How::Read { create: _ }
        | inode_events::How::Write { read: _, create: _ }
        | inode_events::How::Exec => {}
    }
    match change {
        inode_events::Change::Mode(_) | inode_events::Change::Owner { uid: _, gid: _ } => {}
    }
}

// "The content that a script gives a file is kept in pages as soon as it is read"
pub fn records(
    e: &inode_events::Event,
    grant: &inode_events::Grant,
    image: &inode_events::Image,
    ended: &inode_cell::EndedInode,
) {
    let _: inode_meta::Who = e.who;
    let _: inode_events::Deed = e.deed;
    let _: inode_events::Told = e.told;
    let _: Option<ima_templates::Placed> = grant.placed;
    let _: Option<label_values::Verdict> = grant.verdict;
    let _: bool = grant.admitted;
    let _: bool = grant.labelled;
    let _: bool = image.present;
    let _: inode_meta::Meta = image.meta;
    let _: bool = image.versions;
    let _: inode_pages::Content = image.content;
    let _: xattr_store::Attrs = image.attrs;
    let _: xattr_store::Bytes = ended.path;
    let _: Vec<inode_events::Event> = ended.journal;
    let _: Option<hash_algos::Digest> = ended.force;
    let _: xattr_store::Attrs = ended.attrs;
    let _: u64 = ended.writers;
    let _: u64 = ended.readers;
    let _: u64 = ended.execs;
}

// Names, values and bytes are boxed: "Large and rare parts of an event or a call are in memory of
// their own".
pub fn deed(deed: &inode_events::Deed) {
    match deed {
        inode_events::Deed::Birth
        | inode_events::Deed::Count { how: _ }
        | inode_events::Deed::Check {
            file: _,
            func: _,
            action: _,
            rules: _,
        }
        | inode_events::Deed::Take { file: _ }
        | inode_events::Deed::Chunk { file: _ }
        | inode_events::Deed::Finish { file: _ }
        | inode_events::Deed::Read {
            file: _,
            from: _,
            len: _,
        }
        | inode_events::Deed::Write {
            file: _,
            from: _,
            bytes: _,
        }
        | inode_events::Deed::Trunc { file: _, len: _ }
        | inode_events::Deed::SetAttr {
            name: _,
            value: _,
            admin: _,
        }
        | inode_events::Deed::SetMeta { change: _ }
        | inode_events::Deed::Close { file: _ }
        | inode_events::Deed::CloseTake { file: _ }
        | inode_events::Deed::CloseChunk { file: _ }
        | inode_events::Deed::CloseFinish { file: _ }
        | inode_events::Deed::Post(_)
        | inode_events::Deed::Wait(_) => {}
    }
}

// The image is boxed: "Large and rare parts of an event or a call are in memory of their own".
pub fn told(told: &inode_events::Told) {
    match told {
        inode_events::Told::Image(_)
        | inode_events::Told::Held
        | inode_events::Told::NotFound
        | inode_events::Told::TextBusy
        | inode_events::Told::Quiet
        | inode_events::Told::OpenWriters(_)
        | inode_events::Told::ToMToU(_)
        | inode_events::Told::Begun
        | inode_events::Told::Grant(_)
        | inode_events::Told::More
        | inode_events::Told::Last
        | inode_events::Told::Read { n: _, digest: _ }
        | inode_events::Told::Done
        | inode_events::Told::TooBig
        | inode_events::Told::EvmName
        | inode_events::Told::NotAdmin
        | inode_events::Told::TooLong
        | inode_events::Told::Invalid
        | inode_events::Told::NoData
        | inode_events::Told::Status(_)
        | inode_events::Told::Dropped
        | inode_events::Told::LabelledDropped
        | inode_events::Told::Nothing => {}
    }
}

pub fn settings(
    hash: hash_algos::Algo,
    template: inode_meta::Template,
    mode: inode_meta::Mode,
    evm: evm_verify::Evm,
) -> inode_events::Settings
    requires { IsTrue (is_named_template template) }
{
    inode_events::Settings {
        hash,
        template,
        mode,
        evm,
    }
}

pub fn settings_copy(
    settings: &inode_events::Settings,
) -> Result<inode_events::Settings, inode_events::OutOfMemory> {
    inode_events::Settings::copy(settings)
}

// ---- inode_cell

// "The outcome of a read, and its reply, has room for SHA-256 and no longer digest, and counts
// bytes in 32 bits"
pub fn answers(checked: &inode_cell::Checked, got: &inode_cell::Got) {
    let _: policy_text::Action = checked.action;
    let _: inode_cell::Found = checked.found;
    let _: u32 = got.n;
    let _: hash_algos::Sha256Digest = got.digest;
    match checked.found {
        inode_cell::Found::Quiet
        | inode_cell::Found::OpenWriters(_)
        | inode_cell::Found::ToMToU(_) => {}
    }
}

pub fn file_answers(
    counted: inode_cell::Counted,
    taken: inode_cell::Taken,
    piece: inode_cell::Piece,
    closed: inode_cell::CloseTaken,
    wrote: inode_cell::Wrote,
    set: inode_cell::Set,
) {
    match counted {
        inode_cell::Counted::Held(_)
        | inode_cell::Counted::NotFound
        | inode_cell::Counted::TextBusy => {}
    }
    match taken {
        inode_cell::Taken::Begun(_) | inode_cell::Taken::Answer(_) | inode_cell::Taken::Blocked =>
            {}
    }
    match piece {
        inode_cell::Piece::More | inode_cell::Piece::Last => {}
    }
    match closed {
        inode_cell::CloseTaken::Begun(_)
        | inode_cell::CloseTaken::Dropped
        | inode_cell::CloseTaken::Blocked => {}
    }
    match wrote {
        inode_cell::Wrote::Done | inode_cell::Wrote::TooBig => {}
    }
    match set {
        inode_cell::Set::Status(_)
        | inode_cell::Set::Done
        | inode_cell::Set::Blocked
        | inode_cell::Set::NotFound
        | inode_cell::Set::EvmName
        | inode_cell::Set::NotAdmin
        | inode_cell::Set::TooLong
        | inode_cell::Set::Invalid
        | inode_cell::Set::NoData => {}
    }
}
