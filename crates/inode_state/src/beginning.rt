// The list and the passes of a new journal.
ghost use Rattle.std.specs.Prelude.{◌≡◌, ◌+◌, ◌<◌, ◌^◌, IfOk};
ghost use Rattle.inode_state.specs.Beginning.{HasBegun};
ghost use Rattle.inode_state.specs.Value.{birth_of};

use crate::showing::show;
use grow_list::{Grow, Pass};
use inode_events::{BoxedImage, Deed, Event, Image, Told};
use inode_meta::Who;
use std::alloc::{AllocError as OutOfMemory, Global};

/// A list whose only entry is the birth with this image, the own pass, which added the birth, and a
/// pass for each task, which has seen it.
pub fn begun(
    alloc: Global,
    image: Image,
    tasks: u32,
) -> Result<(Grow<Event>, Pass<Event>, Vec<Pass<Event>>), OutOfMemory>
    requires { tasks + 1 < 2 ^ 32 }
    ensures { IfOk result (λ r. HasBegun image tasks r.0 r.1 r.2.items) }
{
    let birth = born(alloc, image)?;
    let (mut journal, mut passes) = Grow::start(alloc, tasks + 1)?;
    let mut own = passes.remove(0);
    journal.reserve(1)?;
    journal.push(&mut own, birth);
    show(&mut journal, &mut passes);
    Ok((journal, own, passes))
}

// The birth of an inode with this image.
fn born(alloc: Global, image: Image) -> Result<Event, OutOfMemory>
    ensures { IfOk result (λ birth. birth ≡ birth_of image) }
{
    let image = BoxedImage::new(alloc, image)?;
    let who = Who {
        task: 0,
        call: 0,
        step: 0,
    };
    Ok(Event {
        who,
        deed: Deed::Birth,
        told: Told::Image(image),
    })
}
