// The text of a generated script.

ghost use Rattle.std.specs.Prelude.{◌≡◌, ◌<◌, ◌≤◌, ◌++◌, IfOk, OnOk, codes, length};
ghost use Rattle.load_gen.specs.Accepted.{IsAccepted};
ghost use Rattle.load_gen.specs.Script.{file_text, files, group, groups, most_text, read_text, rules_text, script_text, settings_text, tasks, write_text};

use crate::draws::Draws;
use list_format::append_hex;
use std::alloc::{AllocError as OutOfMemory, Global};
use std::io::Write;

/// The generated script of a number from 1 to 1,000,000: 3,225 lines with 3,072 calls, and `rounds`
/// as its ending. The grammar accepts the text as a script of 64 files, 2 rules and 16 tasks, none
/// of which waits.
pub fn script(alloc: Global, number: u32) -> Result<Vec<u8>, OutOfMemory>
    ensures text { IfOk result (λ text. text.items ≡ script_text number) }
    // The grammar of scripts accepts the text.
    ensures accepted { IfOk result (λ text. IsAccepted text.items) }
    ensures short { IfOk result (λ text. length text.items ≤ most_text) }
{
    let mut out = Vec::new(alloc);
    let mut draws = Draws {
        state: u64::from(number),
    };
    out.extend_from_slice(
        b"imakern 1\nhash sha256\ntemplate ima-ng\nappraise enforce\nevm fill:32:5a\n\
            fs magic=0xef53 uuid=00000000-0000-0000-0000-000000000001 name=ext4 versions\n",
    )?;
    push_files(&mut out, &mut draws)?;
    out.extend_from_slice(
        b"rule measure func=FILE_CHECK mask=MAY_READ\nrule appraise func=FILE_CHECK fowner=0\n",
    )?;
    push_tasks(&mut out, &mut draws)?;
    out.extend_from_slice(b"rounds\n")?;
    Ok(out)
}

fn push_files(out: &mut Vec<u8>, draws: &mut Draws) -> Result<(), OutOfMemory>
    ensures text { OnOk result
        (out.new.items ≡ out.old.items ++ (files 64 0 draws.old.state).text) }
    ensures state { OnOk result (draws.new.state ≡ (files 64 0 draws.old.state).state) }
{
    for i in 0..64u8 {
        let length = draws.draw(20_000);
        push_file(out, i, length)?;
    }
    Ok(())
}

fn push_file(out: &mut Vec<u8>, i: u8, length: u64) -> Result<(), OutOfMemory>
    ensures { OnOk result (out.new.items ≡ out.old.items ++ file_text i length) }
{
    let inode = 100 + u64::from(i);
    match write!(
        out,
        "file /f{i} fs=0 ino={inode} gen=1 uid=0 gid=0 mode=100644 content=fill:{length}"
    ) {
        Ok(()) => {}
        Err(_) => return Err(OutOfMemory),
    }
    append_hex(out, b':', &[i])?;
    out.extend_from_slice(b"\nseal\n")?;
    Ok(())
}

fn push_tasks(out: &mut Vec<u8>, draws: &mut Draws) -> Result<(), OutOfMemory>
    ensures { OnOk result (out.new.items ≡ out.old.items ++ tasks 16 0 draws.old.state) }
{
    for task in 0..16u8 {
        out.extend_from_slice(b"task uid=0 euid=0 gid=0 egid=0 admin\n")?;
        push_groups(out, draws, task)?;
    }
    Ok(())
}

fn push_groups(out: &mut Vec<u8>, draws: &mut Draws, task: u8) -> Result<(), OutOfMemory>
    ensures text { OnOk result
        (out.new.items ≡ out.old.items ++ (groups 64 task draws.old.state).text) }
    ensures state { OnOk result (draws.new.state ≡ (groups 64 task draws.old.state).state) }
{
    for _k in 0..64u8 {
        push_group(out, draws, task)?;
    }
    Ok(())
}

// A group of three calls: it opens a file, reads or writes it, and closes it.
fn push_group(out: &mut Vec<u8>, draws: &mut Draws, task: u8) -> Result<(), OutOfMemory>
    ensures text { OnOk result
        (out.new.items ≡ out.old.items ++ (group task draws.old.state).text) }
    ensures state { OnOk result (draws.new.state ≡ (group task draws.old.state).state) }
{
    let file = draws.draw(64);
    if draws.draw(4) < 3 {
        push_read(out, file)
    } else {
        let from = draws.draw(1_000);
        let length = 1 + draws.draw(100);
        push_write(out, task, file, from, length)
    }
}

fn push_read(out: &mut Vec<u8>, file: u64) -> Result<(), OutOfMemory>
    ensures { OnOk result (out.new.items ≡ out.old.items ++ read_text file) }
{
    match write!(out, "open 0 /f{file} r\nread 0 0 4096\nclose 0\n") {
        Ok(()) => Ok(()),
        Err(_) => Err(OutOfMemory),
    }
}

fn push_write(
    out: &mut Vec<u8>,
    task: u8,
    file: u64,
    from: u64,
    length: u64,
) -> Result<(), OutOfMemory>
    ensures { OnOk result (out.new.items ≡ out.old.items ++ write_text task file from length) }
{
    match write!(out, "open 0 /f{file} w\nwrite 0 {from} fill:{length}") {
        Ok(()) => {}
        Err(_) => return Err(OutOfMemory),
    }
    append_hex(out, b':', &[task])?;
    out.extend_from_slice(b"\nclose 0\n")?;
    Ok(())
}
