//! Orders and their first turns, each with the number of orders for which it stands.

ghost use Rattle.std.specs.Prelude.{◌≡◌, ◌+◌, ◌^◌, ◌≤◌, ℕ, [], ◌∷◌, ◌++◌, List, IfOk, MatchOption};
ghost use Rattle.order_counts.specs.Orders.{comes_before};
ghost use Rattle.order_counts.specs.Layers.{first_of, joined, with_turn};

use std::alloc::{AllocError as OutOfMemory, Global};
use std::marker::Model;

/// An order, or its first turns: the number of a task for each turn. Contracts see the list.
#[derive(Drop)]
pub struct Order {
    turns: Vec<u32>,
}

impl Model for Order {
    ghost Value = { List ℕ };

    ghost view = { λ order. order.turns.items };
}

impl Order {
    /// No turn yet.
    pub fn new(alloc: Global) -> Order
        ensures { result ≡ [] }
    {
        Order {
            turns: Vec::new(alloc),
        }
    }

    /// The tasks of the turns.
    pub fn as_slice(&self) -> &[u32]
        ensures { result.now ≡ self.now }
    {
        self.turns.as_slice()
    }

    /// A copy of the tasks of the turns.
    pub fn copy(&self, alloc: Global) -> Result<Order, OutOfMemory>
        ensures { IfOk result (λ copy. copy ≡ self.now) }
    {
        let mut turns = Vec::new(alloc);
        turns.extend_from_slice(self.turns.as_slice())?;
        Ok(Order { turns })
    }

    /// The turns, as a vector.
    pub fn into_vec(self) -> Vec<u32>
        ensures { result.items ≡ self }
    {
        let Order { turns } = self;
        turns
    }

    /// These turns and one of the task after them.
    pub fn then(&self, alloc: Global, task: u32) -> Result<Order, OutOfMemory>
        ensures { IfOk result (λ longer. longer ≡ self.now ++ task ∷ []) }
    {
        let mut longer = self.copy(alloc)?;
        longer.turns.push(task)?;
        Ok(longer)
    }

    /// Whether these turns come before the others in lexicographic order.
    pub fn comes_before(&self, other: &Order) -> bool
        ensures { result ≡ comes_before self.now other.now }
    {
        self.turns.as_slice().cmp(other.turns.as_slice()).is_lt()
    }
}

// A copy of the turns that don't come after the others.
fn first_of(alloc: Global, a: &Order, b: &Order) -> Result<Order, OutOfMemory>
    ensures { IfOk result (λ first. first ≡ first_of a.now b.now) }
{
    if b.comes_before(a) {
        b.copy(alloc)
    } else {
        a.copy(alloc)
    }
}

/// An order, or its first turns, with a number of orders. Contracts see the record of the two.
#[derive(Drop)]
pub struct Counted {
    /// The first of the orders.
    pub order: Order,
    /// The number of the orders.
    pub count: u128,
}

impl Model for Counted {
    ghost use Rattle.order_counts.specs.Rows as rows;

    ghost Value = { rows.Counted };

    ghost view = { λ c. record { order = c.order; count = c.count } };
}

impl Counted {
    /// The turns with one of the task after them, and the same count.
    pub fn then(&self, alloc: Global, task: u32) -> Result<Counted, OutOfMemory>
        ensures { IfOk result (λ longer. longer ≡ with_turn self.now task) }
    {
        Ok(Counted {
            order: self.order.then(alloc, task)?,
            count: self.count,
        })
    }

    /// A copy of both.
    pub fn copy(&self, alloc: Global) -> Result<Counted, OutOfMemory>
        ensures { IfOk result (λ copy. copy ≡ self.now) }
    {
        Ok(Counted {
            order: self.order.copy(alloc)?,
            count: self.count,
        })
    }

    /// The first of the two orders with the sum of the counts, if the sum has at most 128 bits.
    pub fn join(&self, alloc: Global, other: &Counted) -> Result<Option<Counted>, OutOfMemory>
        ensures { IfOk result (λ o. MatchOption o (2 ^ 128 ≤ self.now.count + other.now.count)
            (λ both. both ≡ joined self.now other.now)) }
    {
        let Some(count) = self.count.checked_add(other.count) else {
            return Ok(None);
        };
        let order = first_of(alloc, &self.order, &other.order)?;
        Ok(Some(Counted { order, count }))
    }
}
