// The names of the protected attributes.

ghost use Rattle.std.specs.List.{list_any};
ghost use Rattle.std.specs.Prelude.{◌≡◌, ◌++◌, IfOk, is_some};
ghost use Rattle.std.specs.Str.{bytes_eq};
ghost use Rattle.xattr_store.specs.Attrs.{value};
ghost use Rattle.evm_verify.specs.Changes.{is_protected};
ghost use Rattle.evm_verify.specs.Input.{any_present, five_names};

use std::alloc::{AllocError as OutOfMemory, Global};
use xattr_store::{After, Attrs, Bytes, IMA_NAME};

// The attributes that are always protected, in the order of the kernel's list.
const FIVE_NAMES: [&[u8]; 5] = [
    b"security.selinux",
    b"security.SMACK64",
    b"security.apparmor",
    IMA_NAME,
    b"security.capability",
];

// The five names that are always protected, as byte strings that own their memory.
fn five_names(alloc: Global) -> Result<Vec<Bytes>, OutOfMemory>
    ensures { IfOk result (λ names. names.items ≡ five_names) }
{
    let mut names = Vec::new(alloc);
    for name in FIVE_NAMES {
        names.push(Bytes::from_slice(alloc, name)?)?;
    }
    Ok(names)
}

// Appends copies of the names `more`.
fn append(alloc: Global, names: &mut Vec<Bytes>, more: &[Bytes]) -> Result<(), OutOfMemory>
    ensures { IfOk result (λ _. names.new.items ≡ names.old.items ++ more.now) }
{
    for name in more {
        names.push(Bytes::from_slice(alloc, name.as_slice())?)?;
    }
    Ok(())
}

// All protected names: the five fixed ones, and then the added ones.
pub fn protected_names(alloc: Global, added: &[Bytes]) -> Result<Vec<Bytes>, OutOfMemory>
    ensures { IfOk result (λ names. names.items ≡ five_names ++ added.now) }
{
    let mut names = five_names(alloc)?;
    append(alloc, &mut names, added)?;
    Ok(names)
}

// Whether the name is in the list.
pub fn is_among(name: &[u8], names: &[Bytes]) -> bool
    ensures { result ≡ list_any (bytes_eq name.now) names.now }
{
    for other in names {
        if name == other.as_slice() {
            return true;
        }
    }
    false
}

/// Whether the name is a protected attribute, if these names are added to the kernel's five.
pub fn is_protected(name: &[u8], added: &[Bytes]) -> bool
    ensures { result ≡ is_protected added.now name.now }
{
    is_one_of(name, &FIVE_NAMES) || is_among(name, added)
}

fn is_one_of(name: &[u8], names: &[&[u8]]) -> bool
    ensures { result ≡ list_any (λ other. bytes_eq name.now other.now) names.now }
{
    for other in names {
        if name == *other {
            return true;
        }
    }
    false
}

// Whether at least one of the names is present, or would be after a change.
pub fn any_present_after(names: &[Bytes], attrs: &After<'_>) -> bool
    ensures { result ≡ any_present names.now attrs.now }
{
    for name in names {
        if attrs.get(name.as_slice()).is_some() {
            return true;
        }
    }
    false
}

// Whether at least one of the names is present.
pub fn any_present(names: &[Bytes], attrs: &Attrs) -> bool
    ensures { result ≡ any_present names.now attrs.now }
{
    any_present_after(names, &After::none(attrs))
}
