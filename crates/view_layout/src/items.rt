// The list of a drawing's items.

ghost use Rattle.std.specs.Prelude.{◌≡◌, ◌++◌, [], ◌∷◌, OnOk};

use std::alloc::AllocError as OutOfMemory;
use view_journal::Item;

/// Appends an item.
pub fn push(items: &mut Vec<Item>, item: Item) -> Result<(), OutOfMemory>
    ensures { OnOk result (items.new.items ≡ items.old.items ++ item ∷ []) }
{
    items.push(item)?;
    Ok(())
}
