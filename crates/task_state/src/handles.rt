//! Look-ups over the files that a task holds.

ghost use Rattle.std.specs.Prelude.{◌≡◌, suc, ◌≤◌, ◌<◌, ◌++◌, length, take, drop, option_map, MatchOption, vec_capacity, vec_len};
ghost use Rattle.std.specs.Option.{option_and_then};
ghost use Rattle.run_model.specs.steps.Handles.{hand_of, handle_of, held_by, is_free_for, name_ended, name_made, name_used, names_of, same_name, without};

use run_model::steps::{Call, Hand, Handle, Held, Name};

fn same_name(a: Name, b: Name) -> bool
    ensures { result ≡ same_name a b }
{
    match (a, b) {
        (Name::Descriptor(a), Name::Descriptor(b)) => a == b,
        (Name::Map(a), Name::Map(b)) => a == b,
        (Name::Run(a), Name::Run(b)) => a == b,
        _ => false,
    }
}

/// The handle with this name, if the task has one.
pub fn handle_of(name: Name, handles: &[Handle]) -> Option<Handle>
    ensures { result ≡ handle_of name handles.now }
{
    for handle in handles {
        if same_name(name, handle.name) {
            return Some(*handle);
        }
    }
    None
}

// The number of names that the file has.
fn names_of(inode: u32, file: u64, handles: &[Handle]) -> usize
    ensures { result ≡ names_of inode file handles.now }
{
    let mut count = 0;
    for handle in handles {
        if handle.inode == inode && handle.file == file {
            count += 1;
        }
    }
    count
}

// The index of the first handle with this name.
fn place_of(name: Name, handles: &[Handle]) -> Option<usize>
    ensures { MatchOption result (without name handles.now ≡ handles.now)
        (λ place. (place < length handles.now)
        × (without name handles.now ≡ take place handles.now ++ drop (suc place) handles.now)) }
{
    for (place, handle) in handles.iter().enumerate() {
        if same_name(name, handle.name) {
            return Some(place);
        }
    }
    None
}

/// Removes the handle with this name, if there is one.
pub fn remove(name: Name, handles: &mut Vec<Handle>)
    ensures items { handles.new.items ≡ without name handles.old.items }
    ensures len { vec_len handles.new ≤ vec_len handles.old }
    ensures capacity { vec_capacity handles.new ≡ vec_capacity handles.old }
{
    if let Some(place) = place_of(name, handles.as_slice()) {
        let _ = handles.remove(place);
    }
}

// The name whose file the call uses.
fn name_used(call: &Call) -> Option<Name>
    ensures { result ≡ name_used call.now }
{
    match call {
        Call::Read { fd, .. }
        | Call::Write { fd, .. }
        | Call::Ftruncate { fd, .. }
        | Call::Close { fd }
        | Call::Mmap { fd, .. } => Some(Name::Descriptor(*fd)),
        Call::Mread { map, .. } | Call::Munmap { map } => Some(Name::Map(*map)),
        Call::Endexec { run } => Some(Name::Run(*run)),
        _ => None,
    }
}

/// The name that the call makes if it is done.
pub fn name_made(call: &Call) -> Option<Name>
    ensures { result ≡ name_made call.now }
{
    match call {
        Call::Open { fd, .. } => Some(Name::Descriptor(*fd)),
        Call::Mmap { map, .. } => Some(Name::Map(*map)),
        Call::Exec { run, .. } => Some(Name::Run(*run)),
        _ => None,
    }
}

/// The name that the call ends if it is done.
pub fn name_ended(call: &Call) -> Option<Name>
    ensures { result ≡ name_ended call.now }
{
    match call {
        Call::Close { fd } => Some(Name::Descriptor(*fd)),
        Call::Munmap { map } => Some(Name::Map(*map)),
        Call::Endexec { run } => Some(Name::Run(*run)),
        _ => None,
    }
}

fn held_by(handles: &[Handle], handle: Handle) -> Held
    ensures { result ≡ held_by handles.now handle }
{
    Held {
        inode: handle.inode,
        file: handle.file,
        how: handle.how,
        last: names_of(handle.inode, handle.file, handles) <= 1,
    }
}

fn is_free_for(name: Option<Name>, handles: &[Handle]) -> bool
    ensures { result ≡ is_free_for name handles.now }
{
    match name {
        Some(name) => handle_of(name, handles).is_none(),
        None => true,
    }
}

// The file that the call uses, if the task has it.
fn held_for(name: Option<Name>, handles: &[Handle]) -> Option<Held>
    ensures { result ≡ option_map (held_by handles.now)
        (option_and_then (λ n. handle_of n handles.now) name) }
{
    match name {
        Some(name) => match handle_of(name, handles) {
            Some(handle) => Some(held_by(handles, handle)),
            None => None,
        },
        None => None,
    }
}

/// What the task holds, as far as the call depends on it. `admin` is the right to administer.
pub fn hand_of(admin: bool, handles: &[Handle], call: &Call) -> Hand
    ensures { result ≡ hand_of admin handles.now call.now }
{
    Hand {
        held: held_for(name_used(call), handles),
        free: is_free_for(name_made(call), handles),
        admin,
    }
}
