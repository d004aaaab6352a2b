// The index of a name in a list of pairs in ascending order of names, or the index at which to
// insert it.

ghost use Rattle.std.specs.Prelude.{◌≡◌, ◌+◌, ◌<◌, ◌≤◌, IfOk, MatchResult, if◌then◌else◌, is_ok, vec_capacity, vec_len};
ghost use Rattle.xattr_store.specs.Attrs.{IsAttrs, changed, put, value};
ghost use Rattle.std.specs.Option.{option_copied};
ghost use Rattle.xattr_store.specs.Places.{IsFoundAt, IsGapAt};

use crate::bytes::Bytes;
use std::alloc::{AllocError as OutOfMemory, Global};
use std::cmp::Ordering;

// `Ok` with the index of the name, or `Err` with the index at which it is to be inserted.
pub fn find(pairs: &[(Bytes, Bytes)], name: &[u8]) -> Result<usize, usize>
    ensures { MatchResult result (IsFoundAt name.now pairs.now) (IsGapAt name.now pairs.now) }
{
    for (place, pair) in pairs.iter().enumerate() {
        match name.cmp(&pair.0.as_slice()) {
            Ordering::Less => return Err(place),
            Ordering::Equal => return Ok(place),
            Ordering::Greater => {}
        }
    }
    Err(pairs.len())
}

// The value of the attribute `name`; `None` exactly if there is no such attribute.
pub fn value_in<'a>(pairs: &'a [(Bytes, Bytes)], name: &[u8]) -> Option<&'a [u8]>
    requires { IsAttrs pairs.now }
    ensures { option_copied result ≡ value name.now pairs.now }
{
    match find(pairs, name) {
        Ok(place) => Some(pairs[place].1.as_slice()),
        Err(_) => None,
    }
}

// Sets the attribute `name` to `value`. Both are copied first, so that the pairs don't change if
// memory runs out.
pub fn put_value(
    pairs: &mut Vec<(Bytes, Bytes)>,
    name: &[u8],
    value: &[u8],
) -> Result<(), OutOfMemory>
    ensures { pairs.new.items
        ≡ (if is_ok result then put name.now value.now pairs.old.items else pairs.old.items) }
{
    let alloc = *pairs.allocator();
    let value = Bytes::from_slice(alloc, value)?;
    match find(pairs, name) {
        Ok(place) => {
            pairs[place].1 = value;
        }
        Err(place) => {
            let name = Bytes::from_slice(alloc, name)?;
            pairs.insert(place, (name, value))?;
        }
    }
    Ok(())
}

// Sets the attribute `name` to `value` at the place that a search found, in memory that was
// reserved.
fn put_at(pairs: &mut Vec<(Bytes, Bytes)>, found: Result<usize, usize>, name: Bytes, value: Bytes)
    requires room { vec_len pairs.old < vec_capacity pairs.old }
    requires found { MatchResult found (IsFoundAt name pairs.old.items)
        (IsGapAt name pairs.old.items) }
    ensures items { pairs.new.items ≡ put name value pairs.old.items }
    ensures len { vec_len pairs.new ≤ vec_len pairs.old + 1 }
    ensures capacity { vec_capacity pairs.old ≤ vec_capacity pairs.new }
{
    match found {
        Ok(place) => {
            pairs[place].1 = value;
        }
        Err(place) => {
            // The insertion can't fail: there is room for one more pair.
            let _ = pairs.insert(place, (name, value));
        }
    }
}

// Sets or removes the attribute `name`, in memory that was reserved.
pub fn change_within(pairs: &mut Vec<(Bytes, Bytes)>, name: Bytes, value: Option<Bytes>)
    requires room { vec_len pairs.old < vec_capacity pairs.old }
    requires attrs { IsAttrs pairs.old.items }
    ensures items { pairs.new.items ≡ changed name value pairs.old.items }
    ensures len { vec_len pairs.new ≤ vec_len pairs.old + 1 }
    ensures capacity { vec_capacity pairs.old ≤ vec_capacity pairs.new }
{
    let found = find(pairs, name.as_slice());
    match value {
        Some(value) => put_at(pairs, found, name, value),
        None => {
            if let Ok(place) = found {
                let _ = pairs.remove(place);
            }
        }
    }
}

// A copy of the pair, in its own memory.
pub fn copy_of(alloc: Global, pair: &(Bytes, Bytes)) -> Result<(Bytes, Bytes), OutOfMemory>
    ensures { IfOk result (λ copy. copy ≡ pair.now) }
{
    let name = Bytes::from_slice(alloc, pair.0.as_slice())?;
    let value = Bytes::from_slice(alloc, pair.1.as_slice())?;
    Ok((name, value))
}
