// The state of an inode, carried along its journal.

ghost use Rattle.std.specs.Prelude.{◌≡◌, if◌then◌else◌, option_map, IfOk, OnOk};
ghost use Rattle.world_model.specs.model.events.State.{content_after};
ghost use Rattle.audit_trail.specs.Steps.{IsWellFormed, finished_after, gathered_after, left_after, sets_content, taken_more};

use crate::attributes::rewrite;
use crate::digests::digest_by;
use crate::taken::Taken;
use hash_algos::{Algo, Digest};
use inode_events::labels::collect_algo;
use inode_events::{Deed, Event, Settings, Told};
use inode_meta::Meta;
use inode_pages::Content;
use inode_state::metadata_after;
use std::alloc::{AllocError as OutOfMemory, Global};
use xattr_store::Attrs;

// An inode as the events so far left it.
#[derive(Drop)]
pub struct Walk {
    // The content, in pages that it shares with the journal.
    pub content: Content,
    // The extended attributes.
    pub attrs: Attrs,
    // The metadata.
    pub meta: Meta,
    // The collection that is open.
    pub collecting: Option<Taken>,
    // The last collection that was finished. If a digest is in force, it is this one's.
    pub finished: Option<Taken>,
    // A digest of the content, if one was computed since the content last changed.
    pub digest: Option<Digest>,
}

// Changes the content as the event did, and returns whether it did.
fn write(alloc: Global, content: &mut Content, event: &Event) -> Result<bool, OutOfMemory>
    requires { IsWellFormed event.now.deed event.now.told }
    ensures content { OnOk result (content.new
        ≡ content_after event.now.deed event.now.told content.old) }
    ensures changed { IfOk result (λ b. b ≡ sets_content event.now.deed event.now.told) }
{
    match (&event.deed, &event.told) {
        (Deed::Birth, Told::Image(image)) => {
            *content = image.get().content.share(alloc)?;
            Ok(true)
        }
        // The errors must be memory: what was done isn't too long.
        (Deed::Write { from, bytes, .. }, Told::Done) => {
            match content.write(alloc, *from, bytes.as_slice()) {
                Ok(()) => Ok(true),
                Err(_) => Err(OutOfMemory),
            }
        }
        (Deed::Trunc { len, .. }, Told::Done) => match content.resize(alloc, *len) {
            Ok(()) => Ok(true),
            Err(_) => Err(OutOfMemory),
        },
        _ => Ok(false),
    }
}

// Takes the next piece of the content into the open collection.
fn take_piece(
    alloc: Global,
    content: &Content,
    collecting: &mut Option<Taken>,
) -> Result<(), OutOfMemory>
    ensures { OnOk result (collecting.new ≡ option_map (taken_more content.now) collecting.old) }
{
    match collecting {
        Some(taken) => taken.take_piece(alloc, content),
        None => Ok(()),
    }
}

// Begins a collection, or takes a piece into the open one, as the event did.
fn gather(
    alloc: Global,
    hash: Algo,
    event: &Event,
    content: &Content,
    attrs: &Attrs,
    collecting: &mut Option<Taken>,
) -> Result<(), OutOfMemory>
    ensures { OnOk result (collecting.new ≡ gathered_after hash event.now.deed event.now.told
        content.now attrs.now collecting.old) }
{
    match (&event.deed, &event.told) {
        (Deed::Take { .. }, Told::Begun) => {
            let algo = collect_algo(attrs.label(), hash);
            *collecting = Some(Taken::new(alloc, algo));
            Ok(())
        }
        (Deed::CloseTake { .. }, Told::Begun) => {
            *collecting = Some(Taken::new(alloc, hash));
            Ok(())
        }
        (Deed::Chunk { .. } | Deed::CloseChunk { .. }, Told::More | Told::Last) => {
            take_piece(alloc, content, collecting)
        }
        _ => Ok(()),
    }
}

// Ends the open collection, if the event did. It is kept if its digest came into force or was
// written.
fn finish(event: &Event, collecting: &mut Option<Taken>, finished: &mut Option<Taken>)
    ensures collecting { collecting.new
        ≡ left_after event.now.deed event.now.told collecting.old }
    ensures finished { finished.new
        ≡ finished_after event.now.deed event.now.told collecting.old finished.old }
{
    match (&event.deed, &event.told) {
        (Deed::Finish { .. }, Told::Grant(_)) | (Deed::CloseFinish { .. }, Told::LabelledDropped) =>
            {
                *finished = collecting.take();
            }
        (Deed::CloseFinish { .. }, Told::Dropped) => {
            *collecting = None;
        }
        _ => {}
    }
}

// The digest that is kept, unless the content changed.
fn unless(changed: bool, kept: Option<Digest>) -> Option<Digest>
    ensures { result ≡ (if changed then None else kept) }
{
    if changed { None } else { kept }
}

impl Walk {
    ghost use Rattle.std.specs.Prelude.{[]};
    ghost use Rattle.world_model.specs.model.events.Inode.{Inode as AnyInode};
    ghost use Rattle.audit_trail.specs.Walk.{GoesOn, IsCached, IsWalk, StillWalks, digest_at};

    // The inode before its first event.
    pub fn new(alloc: Global) -> Walk
        ensures { (inode : AnyInode) → IsWalk inode [] result }
    {
        let content = Content::new(alloc);
        let attrs = Attrs::new(alloc);
        let meta = Meta {
            ino: 0,
            generation: 0,
            uid: 0,
            gid: 0,
            mode: 0,
            place: 0,
        };
        Walk {
            content,
            attrs,
            meta,
            collecting: None,
            finished: None,
            digest: None,
        }
    }

    // The digest of the content, by the algorithm that the label names. It is computed at most once
    // between two changes of the content or of that algorithm.
    pub fn digest_now(&mut self, hash: Algo) -> Digest
        requires { IsCached self.old }
        ensures digest { result ≡ digest_at hash self.old }
        ensures kept { StillWalks self.old self.new }
    {
        let algo = collect_algo(self.attrs.label(), hash);
        digest_by(&mut self.digest, algo, &self.content)
    }

    // Goes on by one event.
    pub fn advance(
        &mut self,
        alloc: Global,
        settings: &Settings,
        event: &Event,
    ) -> Result<(), OutOfMemory>
        requires form { IsWellFormed event.now.deed event.now.told }
        requires cached { IsCached self.old }
        ensures { OnOk result (GoesOn settings.now event.now self.old self.new) }
    {
        let hash = settings.hash;
        gather(
            alloc,
            hash,
            event,
            &self.content,
            &self.attrs,
            &mut self.collecting,
        )?;
        finish(event, &mut self.collecting, &mut self.finished);
        rewrite(
            &settings.evm,
            &mut self.attrs,
            &self.meta,
            event,
            &self.finished,
            &self.content,
            &mut self.digest,
        )?;
        let changed = write(alloc, &mut self.content, event)?;
        self.digest = unless(changed, self.digest);
        self.meta = metadata_after(event, self.meta);
        Ok(())
    }
}
