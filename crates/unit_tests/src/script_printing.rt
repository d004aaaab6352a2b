// What no contract says: a text and the canonical text of its script, which is its own canonical
// text.

use crate::cases::Cases;
use script_print::print;
use script_text::parse;
use std::alloc::Global;

static ROWS: [(&str, &str, &str); 3] = [
    (
        "the shortest",
        "imakern 1\nrounds\n",
        "imakern 1\nhash sha256\ntemplate ima-ng\n\
            boot hex:0000000000000000000000000000000000000000000000000000000000000000\n\
            appraise off\nevm_format 1\nrounds\n",
    ),
    (
        "each kind of line",
        "imakern 1\n# c\nhash sha1\ntemplate ima\nappraise fix\nevm_xattrs security.x\n\
            evm_xattrs .\nevm_format 2\n\
            fs magic=EF53 uuid=00000000-0000-0000-0000-00000000000A name=ext4 noversions\n\
            file /a fs=0 ino=12 gen=1 uid=0 gid=4294967295 mode=100644 content=txt:abc\n\
            attr user.b txt:\nattr user.a fill:2:0a\n\
            absent /b/c fs=0 ino=13 gen=0 uid=7 gid=8 mode=0\n\
            rule measure uid=0  func=PATH_CHECK\n\
            task uid=0 euid=1 gid=2 egid=3 admin\n\
            open 0 /a rw create trunc\nwrite 0 5 txt:x\nsetxattr /b/c user.a txt:\n\
            removexattr /a user.a\nchmod /a 644\nchown /a 1 2\naddrule audit mask=MAY_READ\n\
            task uid=0 euid=0 gid=0 egid=0\nexec 63 /a\nmread 1 2 3\nschedule 1 0 1\n",
        "imakern 1\nhash sha1\ntemplate ima\n\
            boot hex:0000000000000000000000000000000000000000\n\
            appraise fix\nevm_xattrs security.x\nevm_xattrs .\nevm_format 2\n\
            fs magic=0xef53 uuid=00000000-0000-0000-0000-00000000000a name=ext4 noversions\n\
            file /a fs=0 ino=12 gen=1 uid=0 gid=4294967295 mode=100644 content=hex:616263\n\
            attr user.a hex:0a0a\nattr user.b hex:\n\
            absent /b/c fs=0 ino=13 gen=0 uid=7 gid=8 mode=0\n\
            rule measure func=FILE_CHECK uid=0\n\
            task uid=0 euid=1 gid=2 egid=3 admin\n\
            open 0 /a rw create trunc\nwrite 0 5 hex:78\nsetxattr /b/c user.a hex:\n\
            removexattr /a user.a\nchmod /a 644\nchown /a 1 2\naddrule audit mask=MAY_READ\n\
            task uid=0 euid=0 gid=0 egid=0\nexec 63 /a\nmread 1 2 3\nschedule 1 0 1\n",
    ),
    // The values that a seal writes are printed among the attributes.
    (
        "a seal",
        "imakern 1\n\
            fs magic=0xef53 uuid=00000000-0000-0000-0000-000000000001 name=ext4 versions\n\
            file /a fs=0 ino=12 gen=1 uid=0 gid=0 mode=100644 content=txt:abc\n\
            attr user.a hex:00\nseal\nthreads 2\n",
        "imakern 1\nhash sha256\ntemplate ima-ng\n\
            boot hex:0000000000000000000000000000000000000000000000000000000000000000\n\
            appraise off\nevm_format 1\n\
            fs magic=0xef53 uuid=00000000-0000-0000-0000-000000000001 name=ext4 versions\n\
            file /a fs=0 ino=12 gen=1 uid=0 gid=0 mode=100644 content=hex:616263\n\
            attr security.ima hex:0404\
            ba7816bf8f01cfea414140de5dae2223b00361a396177a9cb410ff61f20015ad\n\
            attr user.a hex:00\nthreads 2\n",
    ),
];

// Whether the text is a script whose canonical text is this. It is not if memory runs out.
fn is_printed(alloc: Global, text: &str, canonical: &str) -> bool {
    if text.len() > 1 << 20 {
        return false;
    }
    let Ok(script) = parse(alloc, text.as_bytes()) else {
        return false;
    };
    match print(alloc, &script) {
        Ok(got) => got.as_slice() == canonical.as_bytes(),
        Err(_) => false,
    }
}

/// Prints the script of each row, and that of its canonical text.
pub fn try_all(alloc: Global, cases: &mut Cases) {
    for (name, text, canonical) in &ROWS {
        let well = is_printed(alloc, text, canonical);
        let again = is_printed(alloc, canonical, canonical);
        cases.add("a printed script", name, well && again);
    }
}
