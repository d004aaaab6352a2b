// Events, collections, and the calls on one inode.
//
// On the number of the pass: "Each event call of an inode requires that `who` names the task whose
// pass it is lent".

ghost use Rattle.std.specs.Prelude.{◌≡◌, ◌+◌, ◌-◌, ◌<◌, ◌≤◌, ◌^◌, [], Some, false, true, length};
ghost use Rattle.inode_events.specs.Checks.{last_check, slot_of};
ghost use Rattle.inode_events.specs.Files.{can_read, held, holds, is_writer};
ghost use Rattle.inode_events.specs.NewestFirst.{newest_first};
ghost use Rattle.inode_events.specs.Stage.{Asked, CloseCollected, CloseCollecting, Collected, Collecting, Settled, may_check, stage};
ghost use Rattle.inode_events.specs.meta.declared.measurement.Template.TheVariants.{Ima};
ghost use Rattle.inode_events.specs.pages.Content.{most_bytes};
ghost use Rattle.inode_events.specs.templates.Path.{IsMeasuredPath};
ghost use Rattle.inode_cell.specs.Ending.{HasPasses};
ghost use Rattle.inode_cell.specs.Sums.{HasSums};
ghost use Rattle.inode_cell.specs.laws_of_journals.Own.{counter};

use std::alloc::Global;

pub type EventPass = grow_list::Pass<inode_events::Event>;

pub type EntryPass = grow_list::Pass<ima_templates::Entry>;

// ---- inode_hashing

pub fn hashing(
    a: hash_algos::Algo,
    ended: inode_hashing::Hashing,
) -> (
    inode_hashing::Hashing,
    (hash_algos::Digest, hash_algos::Digest),
) {
    (
        inode_hashing::Hashing::begin(a),
        inode_hashing::Hashing::finish(ended),
    )
}

pub fn hashing_next(hashing: &mut inode_hashing::Hashing, b: &[u8]) {
    inode_hashing::Hashing::next(hashing, b)
}

pub fn hashing_next_page(hashing: &mut inode_hashing::Hashing, p: &inode_pages::Page) {
    inode_hashing::Hashing::next_page(hashing, p)
}

// ---- inode_cell

pub fn start(
    alloc: Global,
    path: &[u8],
    image: inode_events::Image,
    settings: inode_events::Settings,
    tasks: u32,
    book: EntryPass,
) -> Result<(inode_cell::InodeCell, Vec<EventPass>), inode_cell::OutOfMemory>
    requires path { IsMeasuredPath Ima path.now }
    requires content { length image.content ≤ most_bytes }
    requires tasks { tasks < 2 ^ 32 - 1 }
    requires book { book.mine ≡ [] }
{
    inode_cell::InodeCell::start(alloc, path, image, settings, tasks, book)
}

pub fn look(cell: &mut inode_cell::InodeCell, pass: &mut EventPass)
    requires { pass.old.name ≡ cell.old.journal }
{
    inode_cell::InodeCell::look(cell, pass)
}

pub fn count(
    cell: &mut inode_cell::InodeCell,
    pass: &mut EventPass,
    who: inode_meta::Who,
    how: inode_events::How,
) -> Result<inode_cell::Counted, inode_cell::OutOfMemory>
    requires name { pass.old.name ≡ cell.old.journal }
    requires number { pass.old.number ≡ who.task + 1 }
{
    inode_cell::InodeCell::count(cell, pass, who, how)
}

pub fn check(
    cell: &mut inode_cell::InodeCell,
    pass: &mut EventPass,
    who: inode_meta::Who,
    file: u64,
    rules: &rule_match::Index,
    cred: &inode_meta::Cred,
    place: &policy_text::Super,
    func: policy_text::Func,
    mask: u8,
    book: &mut measure_book::Book,
) -> Result<inode_cell::Checked, inode_cell::OutOfMemory>
    requires name { pass.old.name ≡ cell.old.journal }
    requires number { pass.old.number ≡ who.task + 1 }
    requires book { cell.old.book ≡ book.old.name }
    requires counted { counter file (newest_first cell.old.list) ≡ Some pass.old.number }
    requires due { may_check (stage cell.old.inode file (newest_first cell.old.list)) ≡ true }
{
    inode_cell::InodeCell::check(cell, pass, who, file, rules, cred, place, func, mask, book)
}

pub fn take(
    cell: &mut inode_cell::InodeCell,
    pass: &mut EventPass,
    who: inode_meta::Who,
    file: u64,
    slot: inode_meta::Slot,
    action: &policy_text::Action,
    book: &mut measure_book::Book,
) -> Result<inode_cell::Taken, inode_cell::OutOfMemory>
    requires name { pass.old.name ≡ cell.old.journal }
    requires number { pass.old.number ≡ who.task + 1 }
    requires book { cell.old.book ≡ book.old.name }
    requires counted { counter file (newest_first cell.old.list) ≡ Some pass.old.number }
    requires asked { stage cell.old.inode file (newest_first cell.old.list) ≡ Asked }
    requires slot { slot ≡ slot_of (last_check file (newest_first cell.old.list)).func }
    requires action { action.now ≡ (last_check file (newest_first cell.old.list)).action }
{
    inode_cell::InodeCell::take(cell, pass, who, file, slot, action, book)
}

pub fn chunk(
    cell: &mut inode_cell::InodeCell,
    pass: &mut EventPass,
    who: inode_meta::Who,
    file: u64,
) -> Result<(inode_cell::Piece, inode_pages::Page), inode_cell::OutOfMemory>
    requires name { pass.old.name ≡ cell.old.journal }
    requires number { pass.old.number ≡ who.task + 1 }
    requires counted { counter file (newest_first cell.old.list) ≡ Some pass.old.number }
    requires collecting { stage cell.old.inode file (newest_first cell.old.list) ≡ Collecting }
{
    inode_cell::InodeCell::chunk(cell, pass, who, file)
}

pub fn finish(
    cell: &mut inode_cell::InodeCell,
    pass: &mut EventPass,
    who: inode_meta::Who,
    file: u64,
    sums: (hash_algos::Digest, hash_algos::Digest),
    book: &mut measure_book::Book,
) -> Result<inode_events::Grant, inode_cell::OutOfMemory>
    requires name { pass.old.name ≡ cell.old.journal }
    requires number { pass.old.number ≡ who.task + 1 }
    requires book { cell.old.book ≡ book.old.name }
    requires counted { counter file (newest_first cell.old.list) ≡ Some pass.old.number }
    requires collected { stage cell.old.inode file (newest_first cell.old.list) ≡ Collected }
    requires sums { HasSums cell.old.inode (newest_first cell.old.list) sums }
{
    inode_cell::InodeCell::finish(cell, pass, who, file, sums, book)
}

pub fn read(
    cell: &mut inode_cell::InodeCell,
    pass: &mut EventPass,
    who: inode_meta::Who,
    file: u64,
    from: u64,
    len: u64,
) -> Result<inode_cell::Got, inode_cell::OutOfMemory>
    requires name { pass.old.name ≡ cell.old.journal }
    requires number { pass.old.number ≡ who.task + 1 }
    requires counted { counter file (newest_first cell.old.list) ≡ Some pass.old.number }
    requires settled { stage cell.old.inode file (newest_first cell.old.list) ≡ Settled }
    requires how { holds can_read (held file (newest_first cell.old.list)) ≡ true }
{
    inode_cell::InodeCell::read(cell, pass, who, file, from, len)
}

pub fn write(
    cell: &mut inode_cell::InodeCell,
    pass: &mut EventPass,
    who: inode_meta::Who,
    file: u64,
    from: u64,
    b: &[u8],
) -> Result<inode_cell::Wrote, inode_cell::OutOfMemory>
    requires name { pass.old.name ≡ cell.old.journal }
    requires number { pass.old.number ≡ who.task + 1 }
    requires counted { counter file (newest_first cell.old.list) ≡ Some pass.old.number }
    requires settled { stage cell.old.inode file (newest_first cell.old.list) ≡ Settled }
    requires how { holds is_writer (held file (newest_first cell.old.list)) ≡ true }
    requires bytes { 0 < length b.now }
{
    inode_cell::InodeCell::write(cell, pass, who, file, from, b)
}

pub fn trunc(
    cell: &mut inode_cell::InodeCell,
    pass: &mut EventPass,
    who: inode_meta::Who,
    file: u64,
    len: u64,
) -> Result<inode_cell::Wrote, inode_cell::OutOfMemory>
    requires name { pass.old.name ≡ cell.old.journal }
    requires number { pass.old.number ≡ who.task + 1 }
    requires counted { counter file (newest_first cell.old.list) ≡ Some pass.old.number }
    requires settled { stage cell.old.inode file (newest_first cell.old.list) ≡ Settled }
    requires how { holds is_writer (held file (newest_first cell.old.list)) ≡ true }
{
    inode_cell::InodeCell::trunc(cell, pass, who, file, len)
}

pub fn set_attr(
    cell: &mut inode_cell::InodeCell,
    pass: &mut EventPass,
    who: inode_meta::Who,
    cred: &inode_meta::Cred,
    name: &[u8],
    value: Option<&[u8]>,
) -> Result<inode_cell::Set, inode_cell::OutOfMemory>
    requires name { pass.old.name ≡ cell.old.journal }
    requires number { pass.old.number ≡ who.task + 1 }
{
    inode_cell::InodeCell::set_attr(cell, pass, who, cred, name, value)
}

pub fn set_meta(
    cell: &mut inode_cell::InodeCell,
    pass: &mut EventPass,
    who: inode_meta::Who,
    change: inode_events::Change,
) -> Result<inode_cell::Set, inode_cell::OutOfMemory>
    requires name { pass.old.name ≡ cell.old.journal }
    requires number { pass.old.number ≡ who.task + 1 }
{
    inode_cell::InodeCell::set_meta(cell, pass, who, change)
}

pub fn close_read(
    cell: &mut inode_cell::InodeCell,
    pass: &mut EventPass,
    who: inode_meta::Who,
    file: u64,
) -> Result<(), inode_cell::OutOfMemory>
    requires name { pass.old.name ≡ cell.old.journal }
    requires number { pass.old.number ≡ who.task + 1 }
    requires counted { counter file (newest_first cell.old.list) ≡ Some pass.old.number }
    requires settled { stage cell.old.inode file (newest_first cell.old.list) ≡ Settled }
    requires how { holds is_writer (held file (newest_first cell.old.list)) ≡ false }
{
    inode_cell::InodeCell::close_read(cell, pass, who, file)
}

pub fn close_take(
    cell: &mut inode_cell::InodeCell,
    pass: &mut EventPass,
    who: inode_meta::Who,
    file: u64,
) -> Result<inode_cell::CloseTaken, inode_cell::OutOfMemory>
    requires name { pass.old.name ≡ cell.old.journal }
    requires number { pass.old.number ≡ who.task + 1 }
    requires counted { counter file (newest_first cell.old.list) ≡ Some pass.old.number }
    requires settled { stage cell.old.inode file (newest_first cell.old.list) ≡ Settled }
    requires how { holds is_writer (held file (newest_first cell.old.list)) ≡ true }
{
    inode_cell::InodeCell::close_take(cell, pass, who, file)
}

pub fn close_chunk(
    cell: &mut inode_cell::InodeCell,
    pass: &mut EventPass,
    who: inode_meta::Who,
    file: u64,
) -> Result<(inode_cell::Piece, inode_pages::Page), inode_cell::OutOfMemory>
    requires name { pass.old.name ≡ cell.old.journal }
    requires number { pass.old.number ≡ who.task + 1 }
    requires counted { counter file (newest_first cell.old.list) ≡ Some pass.old.number }
    requires collecting { stage cell.old.inode file (newest_first cell.old.list) ≡ CloseCollecting }
{
    inode_cell::InodeCell::close_chunk(cell, pass, who, file)
}

pub fn close_finish(
    cell: &mut inode_cell::InodeCell,
    pass: &mut EventPass,
    who: inode_meta::Who,
    file: u64,
    sums: (hash_algos::Digest, hash_algos::Digest),
) -> Result<bool, inode_cell::OutOfMemory>
    requires name { pass.old.name ≡ cell.old.journal }
    requires number { pass.old.number ≡ who.task + 1 }
    requires counted { counter file (newest_first cell.old.list) ≡ Some pass.old.number }
    requires collected { stage cell.old.inode file (newest_first cell.old.list) ≡ CloseCollected }
    requires sums { HasSums cell.old.inode (newest_first cell.old.list) sums }
{
    inode_cell::InodeCell::close_finish(cell, pass, who, file, sums)
}

pub fn close(
    cell: inode_cell::InodeCell,
    passes: Vec<EventPass>,
) -> (inode_cell::EndedInode, EntryPass)
    requires { HasPasses cell passes.items }
{
    inode_cell::InodeCell::close(cell, passes)
}
