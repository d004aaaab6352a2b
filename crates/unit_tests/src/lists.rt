// Two lists whose records were written out by hand, with digests of `sha1sum` and `sha256sum`. No
// command prints records, and no call makes an entry of `ima-buf`.
//
// Debian's `evmctl ima_measurement` (ima-evm-utils 1.4) accepts both against their registers: one
// list has the template `ima`, which it takes in no list with others, and the other list has the
// rest. The registers of the one are in a case of `worked_runs`.

use crate::cases::Cases;
use crate::checks::is_hex;
use crate::entries::{entry, violation_of_a};
use crate::registers;
use ima_templates::Entry;
use inode_meta::{Bank, Template};
use list_format::{ascii, binary};
use measure_book::extend;
use measure_book::registers::Banks;
use std::alloc::{AllocError as OutOfMemory, Global};

const IMA_RECORDS: &str =
    "0a000000719de8e521439498e9b77f6ed41e230b9821111e03000000696d610000000000000000000000000000000000\
    0000000e000000626f6f745f6167677265676174650a00000093444aee429a48c9744a421e8f59a007d88bb927030000\
    00696d61a9993e364706816aba3e25717850c26c9cd0d89d020000002f610a0000000000000000000000000000000000\
    00000000000003000000696d610000000000000000000000000000000000000000020000002f61";

const OTHER_RECORDS: &str =
    "0a0000000adefe762c149c7cec19da62f0da1297fcfbffff06000000696d612d6e673f00000028000000736861323536\
    3a0000000000000000000000000000000000000000000000000000000000000000000f000000626f6f745f6167677265\
    67617465000a000000760e8bce1babb2102a26353db8318441da8a08df06000000696d612d6e67330000002800000073\
    68613235363a00ba7816bf8f01cfea414140de5dae2223b00361a396177a9cb410ff61f20015ad030000002f61000a00\
    00006fc38961409baff8a0dc8942ba8fc79e60e756cf07000000696d612d7369673e000000280000007368613235363a\
    00ba7816bf8f01cfea414140de5dae2223b00361a396177a9cb410ff61f20015ad030000002f610007000000030204aa\
    bbccdd09000000736f2f91d5209cc03cf285370463fcf0de9993ce07000000696d612d73696737000000280000007368\
    613235363a00ba7816bf8f01cfea414140de5dae2223b00361a396177a9cb410ff61f20015ad030000002f6100000000\
    000a000000f4084bc3aa1f6231b7de540b9c47cf2d653350c907000000696d612d6275663e0000002800000073686132\
    35363a00ba7816bf8f01cfea414140de5dae2223b00361a396177a9cb410ff61f20015ad070000006b65726e656c0003\
    0000006162630a000000000000000000000000000000000000000000000006000000696d612d6e673300000028000000\
    7368613235363a000000000000000000000000000000000000000000000000000000000000000000030000002f61000a\
    000000000000000000000000000000000000000000000007000000696d612d7369673700000028000000736861323536\
    3a000000000000000000000000000000000000000000000000000000000000000000030000002f610000000000";

const BUF_LINE: &str = "10 f4084bc3aa1f6231b7de540b9c47cf2d653350c9 ima-buf \
    sha256:ba7816bf8f01cfea414140de5dae2223b00361a396177a9cb410ff61f20015ad kernel 616263\n";

// What the registers hold after the other list, in both banks.
static OTHER_REGISTERS: [(Bank, u8, &str); 4] = [
    (Bank::Sha1, 10, "e06a45f1e9384347ee3dc7af82c08bd639d95c25"),
    (
        Bank::Sha256,
        10,
        "68278c4d6d2dd13a7b7b313299dd91fdc407a2f31ac27932cde53d8496a14c20",
    ),
    (Bank::Sha1, 9, "1f5f11ad0cde5f68ecedd801f55b751697ba7bc0"),
    (
        Bank::Sha256,
        9,
        "519c38d309353c7f1f24ac8095eaf9cd713e0b0504d7e3743c90eb984ff4439a",
    ),
];

// An entry of a list: its register, template, content, path and label; or a violation of `/a`.
enum Line {
    File(u8, Template, &'static [u8], &'static [u8], &'static [u8]),
    Violation(Template),
}

use Line::{File, Violation};

static IMA_LIST: [Line; 3] = [
    File(10, Template::Ima, b"", b"boot_aggregate", b""),
    File(10, Template::Ima, b"abc", b"/a", b"\x03\x02"),
    Violation(Template::Ima),
];

const LABEL: &[u8] = b"\x03\x02\x04\xaa\xbb\xcc\xdd";

// The line of the one of these that is a buffer is `BUF_LINE`.
static OTHER_LIST: [Line; 7] = [
    File(10, Template::ImaNg, b"", b"boot_aggregate", b""),
    File(10, Template::ImaNg, b"abc", b"/a", LABEL),
    File(10, Template::ImaSig, b"abc", b"/a", LABEL),
    File(9, Template::ImaSig, b"abc", b"/a", b""),
    File(10, Template::ImaBuf, b"abc", b"kernel", b"abc"),
    Violation(Template::ImaNg),
    Violation(Template::ImaSig),
];

// The entry of a line.
fn entry_of(alloc: Global, line: &Line) -> Result<Option<Entry>, OutOfMemory> {
    match line {
        File(pcr, template, content, path, sig) => {
            entry(alloc, *pcr, *template, content, path, sig)
        }
        Violation(template) => violation_of_a(alloc, *template),
    }
}

// Appends the entries of these lines.
fn push_entries(alloc: Global, list: &mut Vec<Entry>, lines: &[Line]) -> Result<(), OutOfMemory> {
    for line in lines {
        if let Some(entry) = entry_of(alloc, line)? {
            list.push(entry)?;
        }
    }
    Ok(())
}

// Appends the records of the list.
fn push_records(bytes: &mut Vec<u8>, list: &[Entry]) -> Result<(), OutOfMemory> {
    for e in list {
        binary(e, bytes)?;
    }
    Ok(())
}

// Whether the list's records are these.
fn has_records(alloc: Global, list: &[Entry], records: &str) -> bool {
    let mut bytes = Vec::new(alloc);
    push_records(&mut bytes, list).is_ok() && is_hex(alloc, &bytes, records)
}

// Whether the entry's line is this.
fn has_line(alloc: Global, entry: &Entry, wanted: &str) -> bool {
    let mut line = Vec::new(alloc);
    ascii(entry, &mut line).is_ok() && line.as_slice() == wanted.as_bytes()
}

// Whether the fifth entry's line is that of the buffer.
fn has_buf_line(alloc: Global, list: &[Entry]) -> bool {
    match list.get(4) {
        Some(entry) => has_line(alloc, entry, BUF_LINE),
        None => false,
    }
}

// The registers after the list.
fn banks_of(list: &[Entry]) -> Banks {
    let mut banks = Banks::new();
    for e in list {
        extend(&mut banks, &e);
    }
    banks
}

// Whether the records of the list of `ima` are those that were written out.
fn is_ima_list(alloc: Global) -> bool {
    let mut list = Vec::new(alloc);
    push_entries(alloc, &mut list, &IMA_LIST).is_ok() && has_records(alloc, &list, IMA_RECORDS)
}

// Whether the other list's records are, its line of a buffer, and its registers.
fn is_other(alloc: Global, list: &[Entry]) -> bool {
    has_records(alloc, list, OTHER_RECORDS)
        && has_buf_line(alloc, list)
        && registers::all_hold(alloc, &banks_of(list), &OTHER_REGISTERS)
}

fn is_other_list(alloc: Global) -> bool {
    let mut list = Vec::new(alloc);
    push_entries(alloc, &mut list, &OTHER_LIST).is_ok() && is_other(alloc, &list)
}

/// Compares both lists. They differ if memory runs out.
pub fn try_all(alloc: Global, cases: &mut Cases) {
    cases.add("a list of evmctl", "ima", is_ima_list(alloc));
    cases.add("a list of evmctl", "the others", is_other_list(alloc));
}
