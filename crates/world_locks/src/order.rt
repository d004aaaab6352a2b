//! The order in which a step takes locks.

ghost use Rattle.std.specs.Prelude.{◌≡◌};

/// How far a step has come in the order of locks: an inode's is the first, the rules' the second,
/// the measurement list's the third. Each call that takes a lock requires that none of the same or
/// a later place is held, so no two steps can each hold a lock that the other waits for. The
/// semaphores' lock is never held together with another.
#[derive(Drop)]
pub(crate) struct Order {
    /// The place of the last lock taken: 0 before the first, and 3 after the semaphores'.
    pub(crate) taken: u8,
}

impl Order {
    /// The state in which no lock is held.
    pub(crate) fn new() -> Order
        ensures { result.taken ≡ 0 }
    {
        Order { taken: 0 }
    }
}
