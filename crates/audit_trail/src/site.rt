// What the records of a journal are made of.

ghost use Rattle.std.specs.Prelude.{◌≡◌, option_map, slice_get, IfSome};
ghost use Rattle.audit_trail.specs.Sites.{ArePlaced, script_file_at, script_files_in};

use inode_events::Settings;
use policy_text::Super;
use rule_match::Index;
use script_text::{FileBlock, TaskBlock};

// What is the same for all inodes of a run.
#[derive(Clone, Copy)]
pub struct Context<'a> {
    // The settings of all inodes.
    pub settings: &'a Settings,
    // The tasks of the script.
    pub tasks: &'a [TaskBlock],
    // The files of the script, each of which is an inode.
    pub files: &'a [FileBlock],
    // The file systems of the script.
    pub supers: &'a [Super],
    // All rules of the run: the script's, followed by the appended ones.
    pub rules: &'a Index,
}

// An inode: its number, its file and the file system that it is on.
#[derive(Clone, Copy)]
pub struct Site<'a> {
    pub number: u64,
    pub file: &'a FileBlock,
    pub system: &'a Super,
}

// The inode of this number, if the script has a file for it.
pub fn site_of<'a>(context: &Context<'a>, number: usize) -> Option<Site<'a>>
    requires { ArePlaced context.now }
    ensures number { IfSome result (λ site. site.number ≡ number) }
    ensures file { option_map script_file_at result ≡ slice_get (script_files_in context.now) number }
{
    let Some(file) = context.files.get(number) else {
        return None;
    };
    let Some(system) = context.supers.get(file.fs as usize) else {
        unreachable!()
    };
    Some(Site {
        number: number as u64,
        file,
        system,
    })
}
