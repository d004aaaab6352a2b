ghost use Rattle.std.specs.Prelude.{◌≡◌, map, IfOk};
ghost use Rattle.script_scene.specs.Parts.{ArePartsOf};
ghost use Rattle.script_scene.specs.Scene.{file_of, fs_of};

use crate::settings::{boot_entry, settings_of};
use ima_templates::Entry;
use inode_events::{Image, Settings};
use policy_rules::{Policy, Super};
use run_model::steps::Ending;
use script_text::{FileBlock, Script, TaskBlock};
use std::alloc::{AllocError as OutOfMemory, Global};
use xattr_store::Bytes;

/// The parts with which the world and the tasks of a script start.
#[derive(Drop)]
pub struct ScriptParts {
    /// The settings that all inodes share.
    pub settings: Settings,
    /// The first entry of the measurement list, `boot_aggregate`.
    pub boot: Entry,
    /// The path of each file, and its inode as the run begins, in order.
    pub inodes: Vec<(Bytes, Image)>,
    /// The number of each file's file system, in the order of the files.
    pub places: Vec<u32>,
    /// The file systems, in order.
    pub supers: Vec<Super>,
    /// The rules in force as the run begins.
    pub rules: Policy,
    /// The tasks, in order.
    pub tasks: Vec<TaskBlock>,
    /// How the tasks are run: by a schedule, in rounds or on threads.
    pub ending: Ending,
}

/// Takes the script apart into these parts.
pub fn parts_of(alloc: Global, script: Script) -> Result<ScriptParts, OutOfMemory>
    ensures { IfOk result (ArePartsOf script) }
{
    script.keeps();
    let settings = settings_of(alloc, &script)?;
    let boot = boot_entry(alloc, script.template, &script.boot)?;
    let Script {
        supers,
        files,
        rules,
        tasks,
        ending,
        ..
    } = script;
    let (inodes, places) = split(alloc, files)?;
    Ok(ScriptParts {
        settings,
        boot,
        inodes,
        places,
        supers,
        rules,
        tasks,
        ending,
    })
}

// Splits the files into the paths with their inodes, and the numbers of their file systems.
fn split(
    alloc: Global,
    files: Vec<FileBlock>,
) -> Result<(Vec<(Bytes, Image)>, Vec<u32>), OutOfMemory>
    ensures inodes { IfOk result (λ r. r.0.items ≡ map file_of files.items) }
    ensures places { IfOk result (λ r. r.1.items ≡ map fs_of files.items) }
{
    let mut inodes = Vec::new(alloc);
    let mut places = Vec::new(alloc);
    for file in files {
        let FileBlock { path, fs, image } = file;
        inodes.push((path, image))?;
        places.push(fs)?;
    }
    Ok((inodes, places))
}
