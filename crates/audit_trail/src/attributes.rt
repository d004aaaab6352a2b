// The attributes of an inode after an event. `inode_cell` makes the same changes as the events
// happen.

ghost use Rattle.std.specs.Prelude.{◌≡◌, option_map, OnOk};
ghost use Rattle.audit_trail.specs.Steps.{IsKeptOf, IsWellFormed, attrs_after, closed_by, mended_by, taken_digest};
ghost use Rattle.world_model.specs.inodes.answers.Changes.{fixed_on, labelled_on};

use crate::digests::digest_taken;
use crate::taken::Taken;
use evm_verify::Evm;
use hash_algos::Digest;
use inode_events::{Deed, Event, Told, changed};
use inode_meta::{EvmStatus, Meta};
use inode_pages::Content;
use std::alloc::AllocError as OutOfMemory;
use world_model::inodes::{change_on, label_on};
use xattr_store::Attrs;

// Writes the label of what a collection took.
fn label(
    evm: &Evm,
    attrs: &mut Attrs,
    meta: &Meta,
    taken: &Taken,
    content: &Content,
    kept: &mut Option<Digest>,
) -> Result<(), OutOfMemory>
    requires { IsKeptOf content.now kept.old }
    ensures attrs { OnOk result (attrs.new
        ≡ labelled_on evm.now (taken_digest taken.now) meta.now attrs.old) }
    ensures kept { IsKeptOf content.now kept.new }
{
    let digest = digest_taken(kept, taken, content);
    label_on(evm, attrs, meta, &digest)
}

// Writes the label of what a collection took, or renews the HMAC alone if it has the older form.
fn fix(
    evm: &Evm,
    attrs: &mut Attrs,
    meta: &Meta,
    taken: &Taken,
    content: &Content,
    kept: &mut Option<Digest>,
) -> Result<(), OutOfMemory>
    requires { IsKeptOf content.now kept.old }
    ensures attrs { OnOk result (attrs.new
        ≡ fixed_on evm.now (taken_digest taken.now) meta.now attrs.old) }
    ensures kept { IsKeptOf content.now kept.new }
{
    match evm.status(attrs, meta) {
        EvmStatus::Old => evm.renew(attrs, meta),
        _ => label(evm, attrs, meta, taken, content, kept),
    }
}

// What mode fix writes, if the grant says that it mends the attributes.
fn mend(
    evm: &Evm,
    attrs: &mut Attrs,
    meta: &Meta,
    mends: bool,
    finished: &Option<Taken>,
    content: &Content,
    kept: &mut Option<Digest>,
) -> Result<(), OutOfMemory>
    requires { IsKeptOf content.now kept.old }
    ensures attrs { OnOk result (attrs.new ≡ mended_by evm.now mends
        (option_map taken_digest finished.now) meta.now attrs.old) }
    ensures kept { IsKeptOf content.now kept.new }
{
    match finished {
        Some(taken) if mends => fix(evm, attrs, meta, taken, content, kept),
        _ => Ok(()),
    }
}

// The label that a close writes.
fn close(
    evm: &Evm,
    attrs: &mut Attrs,
    meta: &Meta,
    finished: &Option<Taken>,
    content: &Content,
    kept: &mut Option<Digest>,
) -> Result<(), OutOfMemory>
    requires { IsKeptOf content.now kept.old }
    ensures attrs { OnOk result (attrs.new ≡ closed_by evm.now
        (option_map taken_digest finished.now) meta.now attrs.old) }
    ensures kept { IsKeptOf content.now kept.new }
{
    match finished {
        Some(taken) => label(evm, attrs, meta, taken, content, kept),
        None => Ok(()),
    }
}

// Changes the attributes as the event did. `finished` is the collection of which the event may have
// written the label, `content` the content before the event, and `kept` a digest of it.
pub fn rewrite(
    evm: &Evm,
    attrs: &mut Attrs,
    meta: &Meta,
    event: &Event,
    finished: &Option<Taken>,
    content: &Content,
    kept: &mut Option<Digest>,
) -> Result<(), OutOfMemory>
    requires form { IsWellFormed event.now.deed event.now.told }
    requires kept { IsKeptOf content.now kept.old }
    ensures attrs { OnOk result (attrs.new ≡ attrs_after evm.now meta.now
        (option_map taken_digest finished.now) event.now.deed event.now.told attrs.old) }
    ensures kept { IsKeptOf content.now kept.new }
{
    match (&event.deed, &event.told) {
        (Deed::Birth, Told::Image(image)) => {
            *attrs = image.get().attrs.copy()?;
            Ok(())
        }
        (Deed::SetAttr { name, value, .. }, Told::Done) => {
            change_on(evm, attrs, meta, name.as_slice(), value.get())
        }
        (Deed::SetMeta { change }, Told::Done) => evm.renew(attrs, &changed(*change, *meta)),
        (Deed::Take { .. } | Deed::Finish { .. }, Told::Grant(grant)) => {
            mend(evm, attrs, meta, grant.labelled, finished, content, kept)
        }
        (Deed::CloseFinish { .. }, Told::LabelledDropped) => {
            close(evm, attrs, meta, finished, content, kept)
        }
        _ => Ok(()),
    }
}
