// The records of journals, in order.

ghost use Rattle.std.specs.Prelude.{◌≡◌, ◌+◌, ◌≤◌, [], ◌++◌, Some, length, slice_get, vec_len, IfOk, OnOk};
ghost use Rattle.world_model.specs.model.Scene.{ScriptFile as AnyScriptFile};
ghost use Rattle.world_model.specs.model.events.Legal.{Legal};
ghost use Rattle.world_model.specs.model.events.NewestFirst.{newest_first};
ghost use Rattle.world_model.specs.model.events.forms.Words.{text_of};
ghost use Rattle.audit_trail.specs.Sites.{AreLegal, ArePlaced, event_lines, inode_at, lines_from, numbered_lines, script_files_in, site_lines};
ghost use Rattle.audit_trail.specs.Trail.{inode_with};
ghost use Rattle.audit_trail.specs.Walk.{IsCached, IsWalk, StillWalks};

use crate::asked::lines_for;
use crate::records::push_records;
use crate::site::{Context, Site, site_of};
use crate::walk::Walk;
use inode_events::{Deed, EndedInode, Event};
use std::alloc::{AllocError as OutOfMemory, Global};

// Prints the records of the event, if it is a check, and returns how many. The walk has passed the
// events before it.
fn push_event(
    out: &mut Vec<u8>,
    context: &Context<'_>,
    site: &Site<'_>,
    place: u64,
    walk: &mut Walk,
    event: &Event,
) -> Result<u64, OutOfMemory>
    requires { IsCached walk.old }
    ensures text { IfOk result (λ n. out.new.items ≡ out.old.items
        ++ text_of (event_lines context.now site.now place walk.old event.now)) }
    ensures count { IfOk result (λ n. n
        ≡ length (event_lines context.now site.now place walk.old event.now)) }
    ensures grows { IfOk result (λ n. vec_len out.old + n ≤ vec_len out.new) }
    ensures walk { OnOk result (StillWalks walk.old walk.new) }
{
    let Deed::Check { func, rules, .. } = &event.deed else {
        return Ok(0);
    };
    let lines = lines_for(context, site.system, &walk.meta, event.who, *func, *rules);
    if let (None, None) = lines {
        return Ok(0);
    }
    let digest = walk.digest_now(context.settings.hash);
    push_records(out, site, place, event.who, &digest, lines)
}

// Prints the records of a journal, and returns how many. The walk has passed nothing yet.
fn push_events(
    alloc: Global,
    out: &mut Vec<u8>,
    context: &Context<'_>,
    site: &Site<'_>,
    walk: &mut Walk,
    journal: &[Event],
) -> Result<u64, OutOfMemory>
    requires walk { IsWalk (inode_at context.now site.now) [] walk.old }
    requires legal { Legal (inode_at context.now site.now) (newest_first journal.now) }
    ensures text { IfOk result (λ n. out.new.items ≡ out.old.items
        ++ text_of (site_lines context.now site.now (newest_first journal.now))) }
    ensures count { IfOk result (λ n. n
        ≡ length (site_lines context.now site.now (newest_first journal.now))) }
    ensures grows { IfOk result (λ n. vec_len out.old + n ≤ vec_len out.new) }
{
    let mut count = 0;
    for (place, event) in journal.iter().enumerate() {
        count += push_event(out, context, site, place as u64, walk, event)?;
        walk.advance(alloc, context.settings, event)?;
    }
    Ok(count)
}

// Prints the records of the inode of this number, and returns how many.
fn push_inode(
    alloc: Global,
    out: &mut Vec<u8>,
    context: &Context<'_>,
    number: usize,
    inode: &EndedInode,
) -> Result<u64, OutOfMemory>
    requires placed { ArePlaced context.now }
    requires legal { (s : AnyScriptFile) → slice_get (script_files_in context.now) number ≡ Some s
        → Legal (inode_with context.now.settings.now s) (newest_first inode.now.journal) }
    ensures text { IfOk result (λ n. out.new.items ≡ out.old.items
        ++ text_of (numbered_lines context.now number inode.now)) }
    ensures count { IfOk result (λ n. n ≡ length (numbered_lines context.now number inode.now)) }
    ensures grows { IfOk result (λ n. vec_len out.old + n ≤ vec_len out.new) }
{
    let Some(site) = site_of(context, number) else {
        return Ok(0);
    };
    let journal = inode.journal.as_slice();
    let mut walk = Walk::new(alloc);
    push_events(alloc, out, context, &site, &mut walk, journal)
}

// Prints the records of all inodes, and returns how many.
pub fn push_inodes(
    alloc: Global,
    out: &mut Vec<u8>,
    context: &Context<'_>,
    inodes: &[EndedInode],
) -> Result<u64, OutOfMemory>
    requires placed { ArePlaced context.now }
    requires legal { AreLegal context.now inodes.now }
    ensures text { IfOk result (λ n. out.new.items ≡ out.old.items
        ++ text_of (lines_from context.now 0 inodes.now)) }
    ensures count { IfOk result (λ n. n ≡ length (lines_from context.now 0 inodes.now)) }
{
    let mut count = 0;
    for (number, inode) in inodes.iter().enumerate() {
        count += push_inode(alloc, out, context, number, inode)?;
    }
    Ok(count)
}
