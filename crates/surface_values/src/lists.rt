// Lists that callers share, registers, entries and their forms, and the measurement list.

ghost use Rattle.std.specs.Prelude.{◌≡◌, ◌≢◌, ◌<◌, ◌≤◌, length};
ghost use Rattle.grow_list.specs.Others.{HasOthers};
ghost use Rattle.grow_list.specs.Shown.{HasEach};
ghost use Rattle.hash_algos.specs.declared.algo.Algo.TheVariants.{Sha1};
ghost use Rattle.ima_templates.specs.Path.{IsMeasuredPath};
ghost use Rattle.inode_meta.specs.declared.measurement.Template.TheVariants.{ImaBuf};
ghost use Rattle.xattr_store.specs.Attrs.{most_value};

use std::alloc::Global;

pub type EntryPass = grow_list::Pass<ima_templates::Entry>;

// ---- grow_list

pub fn grow_start<E>(
    alloc: Global,
    callers: u32,
) -> Result<(grow_list::Grow<E>, Vec<grow_list::Pass<E>>), grow_list::OutOfMemory>
    requires { 1 ≤ callers }
{
    grow_list::Grow::start(alloc, callers)
}

pub fn grow_reserve<E>(
    list: &mut grow_list::Grow<E>,
    more: usize,
) -> Result<(), grow_list::OutOfMemory> {
    grow_list::Grow::reserve(list, more)
}

pub fn grow_push<E>(list: &mut grow_list::Grow<E>, pass: &mut grow_list::Pass<E>, e: E) -> u64
    requires room { 1 ≤ list.old.spare }
    requires name { pass.old.name ≡ list.old.name }
{
    grow_list::Grow::push(list, pass, e)
}

pub fn grow_look<E>(list: &mut grow_list::Grow<E>, pass: &mut grow_list::Pass<E>)
    requires { pass.old.name ≡ list.old.name }
{
    grow_list::Grow::look(list, pass)
}

pub fn grow_read<E>(list: &grow_list::Grow<E>, place: u64) -> (u64, Option<&E>) {
    (grow_list::Grow::len(list), grow_list::Grow::at(list, place))
}

pub fn grow_close<E>(list: grow_list::Grow<E>, passes: Vec<grow_list::Pass<E>>) -> Vec<E>
    requires { HasEach list passes.items }
{
    grow_list::Grow::close(list, passes)
}

pub fn pass_number<E>(pass: &grow_list::Pass<E>) -> u32 {
    grow_list::Pass::number(pass)
}

// ---- pcr_bank

pub fn banks(
    banks: &mut pcr_bank::Banks,
    pcr: u8,
    sha1: &[u8; 20],
    sha256: &[u8; 32],
) -> pcr_bank::Banks
    requires { pcr < 24 }
{
    pcr_bank::Banks::extend(banks, pcr, sha1, sha256);
    pcr_bank::Banks::new()
}

pub fn banks_value(banks: &pcr_bank::Banks, bank: pcr_bank::Bank, pcr: u8) -> &[u8]
    requires { pcr < 24 }
{
    pcr_bank::Banks::value(banks, bank, pcr)
}

// ---- ima_templates

// "An entry holds its two template digests": it is read by its fields, and built by a call.
pub fn types(e: &ima_templates::Entry, placed: ima_templates::Placed) {
    let _: u8 = e.pcr;
    let _: inode_meta::Template = e.template;
    let _: bool = e.violation;
    let _: hash_algos::Digest = e.digest;
    let _: xattr_store::Bytes = e.name;
    let _: xattr_store::Bytes = e.sig;
    match placed {
        ima_templates::Placed::Added(_) | ima_templates::Placed::Already(_) => {}
    }
}

pub fn entry_build(
    alloc: Global,
    pcr: u8,
    template: inode_meta::Template,
    file: &hash_algos::Digest,
    sha1: &hash_algos::Digest,
    path: &[u8],
    sig: &[u8],
) -> Result<ima_templates::Entry, ima_templates::OutOfMemory>
    requires pcr { pcr < 24 }
    requires sha1 { sha1.now.algo ≡ Sha1 }
    requires path { IsMeasuredPath template path.now }
    requires sig { length sig.now ≤ most_value }
{
    ima_templates::build(alloc, pcr, template, file, sha1, path, sig)
}

pub fn entry_violation(
    alloc: Global,
    template: inode_meta::Template,
    default: hash_algos::Algo,
    path: &[u8],
) -> Result<ima_templates::Entry, ima_templates::OutOfMemory>
    requires template { template ≢ ImaBuf }
    requires path { IsMeasuredPath template path.now }
{
    ima_templates::violation(alloc, template, default, path)
}

pub fn entry_read(
    e: &ima_templates::Entry,
    bank: inode_meta::Bank,
    other: &ima_templates::Entry,
) -> (hash_algos::Digest, bool) {
    (
        ima_templates::Entry::sum(e, bank),
        ima_templates::Entry::same(e, other),
    )
}

// ---- list_format

pub fn ascii(e: &ima_templates::Entry, out: &mut Vec<u8>) -> Result<(), list_format::OutOfMemory> {
    list_format::ascii(e, out)
}

pub fn binary(e: &ima_templates::Entry, out: &mut Vec<u8>) -> Result<(), list_format::OutOfMemory> {
    list_format::binary(e, out)
}

pub fn violations(list: &[ima_templates::Entry]) -> u64 {
    list_format::violations(list)
}

// ---- measure_book

pub fn book_start(
    alloc: Global,
    callers: u32,
    boot: ima_templates::Entry,
) -> Result<(measure_book::Book, Vec<EntryPass>), measure_book::OutOfMemory>
    requires { 1 ≤ callers }
{
    measure_book::Book::start(alloc, callers, boot)
}

pub fn book_reserve(book: &mut measure_book::Book) -> Result<(), measure_book::OutOfMemory> {
    measure_book::Book::reserve(book)
}

pub fn book_add(
    book: &mut measure_book::Book,
    pass: &mut EntryPass,
    e: ima_templates::Entry,
) -> ima_templates::Placed
    requires room { 1 ≤ book.old.spare }
    requires name { pass.old.name ≡ book.old.name }
{
    measure_book::Book::add(book, pass, e)
}

pub fn book_value(book: &measure_book::Book, bank: inode_meta::Bank, pcr: u8) -> &[u8]
    requires { pcr < 24 }
{
    measure_book::Book::value(book, bank, pcr)
}

pub fn book_look(book: &mut measure_book::Book, pass: &mut EntryPass)
    requires { pass.old.name ≡ book.old.name }
{
    measure_book::Book::look(book, pass)
}

pub fn book_close(
    book: measure_book::Book,
    passes: Vec<EntryPass>,
) -> (Vec<ima_templates::Entry>, pcr_bank::Banks)
    requires { HasOthers book passes.items }
{
    measure_book::Book::close(book, passes)
}
