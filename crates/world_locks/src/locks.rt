//! The locks of a world: putting its lists under locks, and taking them out again.

ghost use Rattle.std.specs.Prelude.{◌≡◌, ◌<◌, [], IfOk, OnOk, length};
ghost use Rattle.std.specs.Sync.Mutex.{mutex_guard_value};
ghost use Rattle.world_close.specs.worlds.World.{IsWorldInode};
ghost use Rattle.world_close.specs.Closed.{AreWorldInodes};
ghost use Rattle.world_close.specs.Parts.{KeepConsts, consts_of_parts};

use crate::name::Name;
use crate::order::Order;
use crate::tagged::{TaggedBook, TaggedSemaphores};
use crate::tagged_rules::TaggedRules;
use crate::world_inode::TaggedWorldInode;
use inode_events::Settings;
use inode_meta::Mode;
use policy_rules::Super;
use std::alloc::{AllocError as OutOfMemory, Global};
use std::sync::{Mutex, MutexGuard, Wait};
use world_close::Parts;
use world_close::worlds::WorldInode;

/// The lists of a world, with a lock for each inode, and one lock each for the measurement list,
/// the semaphores and the rules. They belong to the constants that `N` names.
pub struct Locks<N: Name> {
    pub(crate) world_inodes: Vec<Mutex<TaggedWorldInode<N>>>,
    book: Mutex<TaggedBook<N>>,
    sems: Mutex<TaggedSemaphores<N>>,
    rules: Mutex<TaggedRules<N>>,
    pub(crate) supers: Vec<Super>,
    settings: Settings,
    tasks: u32,
    pub(crate) alloc: Global,
    ghost count: { length world_inodes.items ≡ length N.consts.each_inode },
    ghost supers_are: { supers.items ≡ N.consts.supers },
    ghost settings_are: { settings ≡ N.consts.settings },
    ghost tasks_are: { tasks ≡ N.consts.tasks },
}

// Written out, so that the drop is proved here once, and not again in each crate above.
impl<N: Name> Drop for Locks<N> {
    fn drop(self) {
        let Locks {
            world_inodes: _,
            book: _,
            sems: _,
            rules: _,
            supers: _,
            settings: _,
            tasks: _,
            alloc: _,
        } = self;
    }
}

// Takes each inode out, and puts it under a lock.
fn lock_each<N: Name>(
    alloc: Global,
    left: &mut Vec<WorldInode>,
) -> Result<Vec<Mutex<TaggedWorldInode<N>>>, OutOfMemory>
    requires { AreWorldInodes N.consts left.old.items }
    ensures { IfOk result (λ locked. length locked.items ≡ length N.consts.each_inode) }
{
    let Ok(count) = u32::try_from(left.len()) else {
        return Err(OutOfMemory);
    };
    let mut number = count;
    let mut locked = Vec::new(alloc);
    while let Some(world_inode) = left.pop() {
        number -= 1;
        locked.push(Mutex::new(TaggedWorldInode::<N>::new(number, world_inode)))?;
    }
    locked.reverse();
    Ok(locked)
}

// Takes the inode of this place out of its lock.
fn unlock_at<N: Name>(
    place: usize,
    mutex: Mutex<TaggedWorldInode<N>>,
) -> Result<WorldInode, OutOfMemory>
    ensures { IfOk result (λ world_inode. IsWorldInode N.consts place world_inode) }
{
    let tagged = mutex.into_inner();
    // The inode is in its place, but the type of a lock doesn't say so.
    if tagged.number() as usize != place {
        return Err(OutOfMemory);
    }
    Ok(tagged.open())
}

// Takes the inodes out of their locks, in order.
fn unlock_each<N: Name>(
    locked: Vec<Mutex<TaggedWorldInode<N>>>,
    world_inodes: &mut Vec<WorldInode>,
) -> Result<(), OutOfMemory>
    requires count { length locked.items ≡ length N.consts.each_inode }
    requires none { world_inodes.old.items ≡ [] }
    ensures { OnOk result (AreWorldInodes N.consts world_inodes.new.items) }
{
    for mutex in locked {
        let world_inode = unlock_at(world_inodes.len(), mutex)?;
        world_inodes.push(world_inode)?;
    }
    Ok(())
}

impl<N: Name> Locks<N> {
    /// Puts the lists under locks. There are at most 4,294,967,295 inodes.
    pub fn new(parts: Parts) -> Result<Locks<N>, OutOfMemory>
        requires { KeepConsts N.consts parts }
    {
        let mut parts = parts;
        let world_inodes = lock_each::<N>(parts.alloc, &mut parts.world_inodes)?;
        let Parts {
            world_inodes: _,
            book,
            sems,
            rules,
            spares,
            supers,
            settings,
            tasks,
            alloc,
        } = parts;
        Ok(Locks {
            world_inodes,
            book: Mutex::new(TaggedBook::new(book)),
            sems: Mutex::new(TaggedSemaphores::new(sems)),
            rules: Mutex::new(TaggedRules::new(rules, spares)),
            supers,
            settings,
            tasks,
            alloc,
        })
    }

    /// Takes the lists out of their locks. Their constants are the same.
    pub fn into_parts(self) -> Result<Parts, OutOfMemory>
        ensures keep { IfOk result (λ parts. KeepConsts N.consts parts) }
        ensures consts { IfOk result (λ parts. consts_of_parts parts ≡ N.consts) }
    {
        let Locks {
            world_inodes,
            book,
            sems,
            rules,
            supers,
            settings,
            tasks,
            alloc,
        } = self;
        let book = book.into_inner().open();
        let sems = sems.into_inner().open();
        let (rules, spares) = rules.into_inner().open();
        let mut parts = Parts {
            world_inodes: Vec::new(alloc),
            book,
            sems,
            rules,
            spares,
            supers,
            settings,
            tasks,
            alloc,
        };
        unlock_each(world_inodes, &mut parts.world_inodes)?;
        Ok(parts)
    }

    /// The appraisal mode in the world's settings.
    pub fn mode(&self) -> Mode
        ensures { result ≡ N.consts.settings.mode }
    {
        self.settings.mode
    }

    // Takes the lock of the inode of this number. No other lock may be held.
    pub(crate) fn take<'a, R: Wait>(
        &'a self,
        rt: &R,
        order: &mut Order,
        inode: u32,
    ) -> MutexGuard<'a, TaggedWorldInode<N>>
        requires below { inode < length N.consts.each_inode }
        requires order { order.old.taken ≡ 0 }
        ensures number { (mutex_guard_value result).number ≡ inode }
        ensures order { order.new.taken ≡ 1 }
    {
        order.taken = 1;
        for _ in rt.forever() {
            let world_inode = self.world_inodes[inode as usize].lock(rt);
            if world_inode.number() == inode {
                return world_inode;
            }
        }
        unreachable!()
    }

    // Takes the lock of the rules. At most an inode's lock may be held.
    pub(crate) fn take_rules<'a, R: Wait>(
        &'a self,
        rt: &R,
        order: &mut Order,
    ) -> MutexGuard<'a, TaggedRules<N>>
        requires order { order.old.taken < 2 }
        ensures order { order.new.taken ≡ 2 }
    {
        order.taken = 2;
        self.rules.lock(rt)
    }

    // Takes the lock of the measurement list. At most an inode's lock and the rules' lock may be
    // held.
    pub(crate) fn take_book<'a, R: Wait>(
        &'a self,
        rt: &R,
        order: &mut Order,
    ) -> MutexGuard<'a, TaggedBook<N>>
        requires order { order.old.taken < 3 }
        ensures order { order.new.taken ≡ 3 }
    {
        order.taken = 3;
        self.book.lock(rt)
    }

    // Takes the lock of the semaphores. No other lock may be held.
    pub(crate) fn take_semaphores<'a, R: Wait>(
        &'a self,
        rt: &R,
        order: &mut Order,
    ) -> MutexGuard<'a, TaggedSemaphores<N>>
        requires order { order.old.taken ≡ 0 }
        ensures order { order.new.taken ≡ 3 }
    {
        order.taken = 3;
        self.sems.lock(rt)
    }

    /// Takes the lock of the inode of this number, calls `f` once, and releases the lock.
    pub fn hold<R: Wait, F: FnOnce()>(&self, rt: &R, inode: u32, f: F)
        requires below { inode < length N.consts.each_inode }
        requires call { F.IsAlwaysCallable f }
    {
        let mut order = Order::new();
        let _held = self.take(rt, &mut order, inode);
        f();
    }
}
