// Attributes, plain values, hashes, HMACs and contents.
//
// In every crate `OutOfMemory` is one type: "Out of memory is std's `AllocError`".

ghost use Rattle.std.specs.Prelude.{◌≤◌, length};

use std::alloc::Global;

// ---- xattr_store

pub fn errors(set: xattr_store::SetErr, page: inode_pages::PageErr) {
    match set {
        xattr_store::SetErr::TooLong | xattr_store::SetErr::OutOfMemory => {}
    }
    match page {
        inode_pages::PageErr::TooBig | inode_pages::PageErr::OutOfMemory => {}
    }
}

pub fn bytes_from_slice(
    alloc: Global,
    b: &[u8],
) -> Result<xattr_store::Bytes, xattr_store::OutOfMemory> {
    xattr_store::Bytes::from_slice(alloc, b)
}

pub fn bytes_as_slice(bytes: &xattr_store::Bytes) -> &[u8] {
    xattr_store::Bytes::as_slice(bytes)
}

// "`Attrs::new`, `Content::new` and `Policy::new` take the allocator although they take no memory"
pub fn attrs_new(alloc: Global) -> xattr_store::Attrs {
    xattr_store::Attrs::new(alloc)
}

pub fn attrs_read<'a>(
    attrs: &'a xattr_store::Attrs,
    name: &[u8],
    k: usize,
) -> (Option<&'a [u8]>, Option<(&'a [u8], &'a [u8])>) {
    (
        xattr_store::Attrs::get(attrs, name),
        xattr_store::Attrs::at(attrs, k),
    )
}

pub fn attrs_set(
    attrs: &mut xattr_store::Attrs,
    name: &[u8],
    value: &[u8],
) -> Result<(), xattr_store::SetErr> {
    xattr_store::Attrs::set(attrs, name, value)
}

pub fn attrs_remove(
    attrs: &mut xattr_store::Attrs,
    name: &[u8],
) -> Result<(), xattr_store::NoData> {
    xattr_store::Attrs::remove(attrs, name)
}

pub fn attrs_copy(
    attrs: &xattr_store::Attrs,
) -> Result<xattr_store::Attrs, xattr_store::OutOfMemory> {
    xattr_store::Attrs::copy(attrs)
}

// ---- inode_meta

pub fn records(meta: &inode_meta::Meta, cred: &inode_meta::Cred, who: &inode_meta::Who) {
    let _: u64 = meta.ino;
    let _: u32 = meta.generation;
    let _: u32 = meta.uid;
    let _: u32 = meta.gid;
    let _: u16 = meta.mode;
    let _: u128 = meta.place;
    let _: u32 = cred.uid;
    let _: u32 = cred.euid;
    let _: u32 = cred.gid;
    let _: u32 = cred.egid;
    let _: bool = cred.admin;
    let _: u32 = who.task;
    let _: u32 = who.call;
    let _: u32 = who.step;
}

pub fn states(
    status: inode_meta::EvmStatus,
    need: inode_meta::Need,
    mode: inode_meta::Mode,
    slot: inode_meta::Slot,
) {
    match status {
        inode_meta::EvmStatus::Pass
        | inode_meta::EvmStatus::NoXattrs
        | inode_meta::EvmStatus::NoLabel
        | inode_meta::EvmStatus::Fail
        | inode_meta::EvmStatus::Old
        | inode_meta::EvmStatus::Unknown => {}
    }
    match need {
        inode_meta::Need::Any | inode_meta::Need::Signature => {}
    }
    match mode {
        inode_meta::Mode::Enforce
        | inode_meta::Mode::Log
        | inode_meta::Mode::Fix
        | inode_meta::Mode::Off => {}
    }
    match slot {
        inode_meta::Slot::File | inode_meta::Slot::Mmap | inode_meta::Slot::Bprm => {}
    }
}

pub fn measures(template: inode_meta::Template, bank: inode_meta::Bank, algo: hash_algos::Algo) {
    match template {
        inode_meta::Template::Ima
        | inode_meta::Template::ImaNg
        | inode_meta::Template::ImaSig
        | inode_meta::Template::ImaBuf => {}
    }
    match bank {
        inode_meta::Bank::Sha1 | inode_meta::Bank::Sha256 => {}
    }
    match algo {
        hash_algos::Algo::Md5
        | hash_algos::Algo::Sha1
        | hash_algos::Algo::Sha256
        | hash_algos::Algo::Sha384
        | hash_algos::Algo::Sha512
        | hash_algos::Algo::Sha224 => {}
    }
}

pub fn words(
    status: inode_meta::EvmStatus,
    mode: inode_meta::Mode,
    template: inode_meta::Template,
    bank: inode_meta::Bank,
) -> [&'static str; 4] {
    [
        inode_meta::EvmStatus::word(status),
        inode_meta::Mode::word(mode),
        inode_meta::Template::word(template),
        inode_meta::Bank::word(bank),
    ]
}

// ---- hash_algos

pub fn algo_read(algo: hash_algos::Algo) -> (u8, &'static str, usize) {
    (
        hash_algos::Algo::id(algo),
        hash_algos::Algo::name(algo),
        hash_algos::Algo::size(algo),
    )
}

pub fn algo_by_name(name: &[u8]) -> Option<hash_algos::Algo> {
    hash_algos::by_name(name)
}

pub fn algo_by_id(id: u8) -> Option<hash_algos::Algo> {
    hash_algos::by_id(id)
}

pub fn algo_set(
    algos: &mut hash_algos::AlgoSet,
    a: hash_algos::Algo,
) -> (hash_algos::AlgoSet, bool) {
    let has = hash_algos::AlgoSet::has(algos, a);
    hash_algos::AlgoSet::add(algos, a);
    (hash_algos::AlgoSet::new(), has)
}

pub fn digest_from_slice(a: hash_algos::Algo, b: &[u8]) -> Option<hash_algos::Digest> {
    hash_algos::Digest::from_slice(a, b)
}

pub fn digest_read(digest: &hash_algos::Digest) -> (hash_algos::Algo, &[u8]) {
    (
        hash_algos::Digest::algo(digest),
        hash_algos::Digest::as_slice(digest),
    )
}

pub fn running(
    a: hash_algos::Algo,
    fed: &mut hash_algos::Running,
    b: &[u8],
    ended: hash_algos::Running,
) -> (hash_algos::Running, hash_algos::Digest) {
    hash_algos::Running::feed(fed, b);
    (
        hash_algos::Running::new(a),
        hash_algos::Running::finish(ended),
    )
}

// ---- hmac_core

pub fn hmac(
    key: &[u8],
    fed: &mut hmac_core::HmacSha1,
    b: &[u8],
    ended: hmac_core::HmacSha1,
) -> (hmac_core::HmacSha1, [u8; 20]) {
    hmac_core::HmacSha1::feed(fed, b);
    (
        hmac_core::HmacSha1::new(key),
        hmac_core::HmacSha1::finish(ended),
    )
}

// ---- inode_pages

// "`Attrs::new`, `Content::new` and `Policy::new` take the allocator although they take no memory"
pub fn content_new(alloc: Global) -> inode_pages::Content {
    inode_pages::Content::new(alloc)
}

pub fn content_from_slice(
    alloc: Global,
    b: &[u8],
) -> Result<inode_pages::Content, inode_pages::PageErr> {
    inode_pages::Content::from_slice(alloc, b)
}

pub fn content_pages(content: &inode_pages::Content, k: u32) -> (u64, &[u8]) {
    (
        inode_pages::Content::len(content),
        inode_pages::Content::chunk(content, k),
    )
}

pub fn content_read(content: &inode_pages::Content, from: u64, buf: &mut [u8]) -> usize {
    inode_pages::Content::read(content, from, buf)
}

pub fn content_write(
    content: &mut inode_pages::Content,
    alloc: Global,
    from: u64,
    b: &[u8],
) -> Result<(), inode_pages::PageErr>
    requires { 1 ≤ length b.now }
{
    inode_pages::Content::write(content, alloc, from, b)
}

pub fn content_resize(
    content: &mut inode_pages::Content,
    alloc: Global,
    len: u64,
) -> Result<(), inode_pages::PageErr> {
    inode_pages::Content::resize(content, alloc, len)
}

pub fn content_page(
    content: &inode_pages::Content,
    alloc: Global,
    k: u32,
) -> Result<inode_pages::Page, inode_pages::OutOfMemory> {
    inode_pages::Content::page(content, alloc, k)
}

pub fn page_as_slice(page: &inode_pages::Page) -> &[u8] {
    inode_pages::Page::as_slice(page)
}
