//! The views of the list that the seats of the table hold, and the rule over them: the kinds of
//! atomic steps, which exist for the proofs only.
ghost use Rattle.std.specs.Prelude.{ℕ, List, []};

use atomic_table::{Join, Play, Split, TableRule};
use std::collections::LinkedList;
use std::marker::{Brand, PhantomData};

/// A view's knowledge of the list. No value of this type is ever made.
pub struct Listed<E> {
    pub list: LinkedList<E>,
    /// For each entry, the number of the pass that added it.
    pub numbers: LinkedList<u32>,
    pub callers: u32,
    /// The number of the pass that added the last entry, if that pass hasn't yet taken the entry
    /// in.
    pub pending: Option<u32>,
}

/// A view's knowledge of a pass. No value of this type is ever made.
pub struct Held<E> {
    /// The seat that drew the number.
    pub seat: u64,
    pub number: u32,
    pub callers: u32,
    pub seen: LinkedList<E>,
    pub mine: LinkedList<(u64, E)>,
}

/// The view of a seat. No value of this type is ever made.
pub enum SeatView<E> {
    Spent,
    OfList(Listed<E>),
    OfPass(Held<E>),
    ListBeside(Listed<E>, Held<E>),
    PassBeside(Held<E>, Listed<E>),
}

/// The rule of the table. Word 0 is the length of the list, word 1 is the next number to draw, and
/// the first seat is the list's.
pub struct Growing;

impl<E> TableRule<(), SeatView<E>, u32> for Growing {
    ghost use Rattle.grow_list.specs.Rule.{HasStory};
    ghost use Rattle.grow_list.specs.Views.{newborn};

    ghost holds = { HasStory };

    ghost first = { newborn };
}

/// The step by which a second seat gets an equal view.
pub struct Copies;

impl<E> Split<SeatView<E>> for Copies {
    ghost left = { λ v. v };

    ghost right = { λ v. v };
}

/// The step that joins two seats: the one that stays gets both views, and the other is spent.
pub struct Meets;

impl<E> Join<SeatView<E>> for Meets {
    ghost use Rattle.grow_list.specs.declared.views.SeatView.TheVariants.{Spent};
    ghost use Rattle.grow_list.specs.Views.{met};

    ghost both = { met };

    ghost spent = { Spent };
}

/// The seat that draws a number, which each call chooses.
pub trait Drawing {
    ghost seat: { ℕ };
}

impl Drawing for Brand {
    ghost seat = { 0 };
}

/// A compare-exchange on word 1, by which a new seat draws the due number.
pub struct Draws<N>(PhantomData<N>);

impl<E, N: Drawing> Play<(), SeatView<E>> for Draws<N> {
    ghost use Rattle.grow_list.specs.Steps.{Drawn};

    ghost then = { Drawn N.seat };
}

/// The entry to add, as a list of one, which each call chooses.
pub trait Adding<E> {
    ghost entry: { List E };
}

impl<E> Adding<E> for Brand {
    ghost entry = { [] };
}

/// A store to word 0 by the list's seat, next to the view of a pass: the entry joins the list and
/// is marked as pending.
pub struct Adds<N>(PhantomData<N>);

impl<E, N: Adding<E>> Play<(), SeatView<E>> for Adds<N> {
    ghost use Rattle.grow_list.specs.Steps.{Added};

    ghost then = { Added N.entry };
}

/// A load by which the list's seat takes in the view of the pass next to it.
pub struct Hears;

impl<E> Play<(), SeatView<E>> for Hears {
    ghost use Rattle.grow_list.specs.Steps.{Heard};

    ghost then = { Heard };
}

/// A load by which a pass's seat takes in the view of the list next to it.
pub struct Learns;

impl<E> Play<(), SeatView<E>> for Learns {
    ghost use Rattle.grow_list.specs.Steps.{Learned};

    ghost then = { Learned };
}

/// The closing load of the list's seat, before the seats of the passes are joined to it.
pub struct Closes;

impl<E> Play<(), SeatView<E>> for Closes {
    ghost use Rattle.grow_list.specs.Steps.{Closed};

    ghost then = { Closed };
}
