//! The steps on the table: how the list's seat and a pass's seat meet, how an entry is added, and
//! how a number is drawn.
ghost use Rattle.std.specs.Prelude.{◌≡◌, ◌+◌, ◌^◌, ◌<◌, None, [], ◌∷◌, length, IfOk};
ghost use Rattle.std.specs.Bool.{OnTrue};
ghost use Rattle.grow_list.specs.declared.views.SeatView.TheVariants.{OfList, OfPass, ListBeside, PassBeside};
ghost use Rattle.grow_list.specs.Views.{listed, held, newcomer, longer, heard, learned};
ghost use Rattle.grow_list.specs.Steps.{Agrees, Owns, IsComplete};
ghost use Rattle.grow_list.specs.Meetings.{IsMoved, IsListSeat, IsPassSeat, Tallies, caught_up, grown, enlarged};

use crate::views::{
    Adding, Adds, Closes, Copies, Drawing, Draws, Growing, Hears, Learns, Meets, SeatView,
};
use atomic_table::{Seat, Shared};
use std::alloc::AllocError as OutOfMemory;
use std::marker::Brand;

/// The table and its two words, on which the seats of the list and of its passes take their steps.
pub type Board<E> = Shared<(), SeatView<E>, u32, Growing>;

/// The seat of a list or of a pass.
pub type Place<E> = Seat<(), SeatView<E>>;

// Joins a copy of the pass's seat to the list's.
fn join_pass_to_list<E>(board: &Board<E>, list: &mut Place<E>, pass: &mut Place<E>)
    requires seats { (list.old.table_id ≡ board.now.table_id)
        × (pass.old.table_id ≡ board.now.table_id) }
    requires words { board.now.table_id.words ≡ 2 }
    requires views { (list.old.me.0 ≡ OfList (listed list.old.me.0))
        × (pass.old.me.0 ≡ OfPass (held pass.old.me.0)) }
    ensures list { IsMoved list.old list.new
        (ListBeside (listed list.old.me.0) (held pass.old.me.0)) }
    ensures pass { IsMoved pass.old pass.new pass.old.me.0 }
{
    let copy = board.split_seat::<Copies>(pass);
    board.join_seat::<Meets>(list, copy);
}

// Joins a copy of the list's seat to the pass's.
fn join_list_to_pass<E>(board: &Board<E>, list: &mut Place<E>, pass: &mut Place<E>)
    requires seats { (list.old.table_id ≡ board.now.table_id)
        × (pass.old.table_id ≡ board.now.table_id) }
    requires words { board.now.table_id.words ≡ 2 }
    requires views { (list.old.me.0 ≡ OfList (listed list.old.me.0))
        × (pass.old.me.0 ≡ OfPass (held pass.old.me.0)) }
    ensures list { IsMoved list.old list.new list.old.me.0 }
    ensures pass { IsMoved pass.old pass.new
        (PassBeside (held pass.old.me.0) (listed list.old.me.0)) }
{
    let copy = board.split_seat::<Copies>(list);
    board.join_seat::<Meets>(pass, copy);
}

// The list's seat takes in the view of the pass next to it.
fn list_learns<E>(board: &Board<E>, list: &mut Place<E>)
    requires seat { (list.old.table_id ≡ board.now.table_id) × (list.old.id ≡ 0) }
    requires words { board.now.table_id.words ≡ 2 }
    requires view { list.old.me.0 ≡ ListBeside (listed list.old.me.0) (held list.old.me.0) }
    ensures list { IsMoved list.old list.new
        (OfList (heard (listed list.old.me.0) (held list.old.me.0))) }
    ensures agrees { Agrees (listed list.old.me.0) (held list.old.me.0) }
{
    board.load::<Hears>(list, 0);
}

// The pass's seat takes in the view of the list next to it.
fn pass_learns<E>(board: &Board<E>, pass: &mut Place<E>)
    requires seat { (pass.old.table_id ≡ board.now.table_id)
        × (pass.old.id ≡ (held pass.old.me.0).seat) }
    requires words { board.now.table_id.words ≡ 2 }
    requires view { pass.old.me.0 ≡ PassBeside (held pass.old.me.0) (listed pass.old.me.0) }
    ensures pass { IsMoved pass.old pass.new
        (OfPass (learned (held pass.old.me.0) (listed pass.old.me.0))) }
    ensures owns { Owns (held pass.old.me.0) (listed pass.old.me.0) }
{
    board.load::<Learns>(pass, 0);
}

// The entry joins the list, whose length becomes `new_length`, and is pending for the pass next to
// it.
fn add<E, N: Adding<E>>(board: &Board<E>, list: &mut Place<E>, entry: &E, new_length: u64)
    requires seat { (list.old.table_id ≡ board.now.table_id) × (list.old.id ≡ 0) }
    requires words { board.now.table_id.words ≡ 2 }
    requires view { list.old.me.0 ≡ ListBeside (listed list.old.me.0) (held list.old.me.0) }
    requires settled { (listed list.old.me.0).pending ≡ None }
    requires due { new_length ≡ length (listed list.old.me.0).list + 1 }
    requires entry { N.entry ≡ entry.now ∷ [] }
    ensures { IsMoved list.old list.new
        (OfList (longer (listed list.old.me.0) (held list.old.me.0).number (entry.now ∷ []))) }
{
    board.store::<Adds<N>>(list, 0, new_length);
}

// The pass takes in the pending entry, and then the mark is cleared.
fn take_in<E>(board: &Board<E>, list: &mut Place<E>, pass: &mut Place<E>)
    requires seats { (list.old.table_id ≡ board.now.table_id)
        × (pass.old.table_id ≡ board.now.table_id) }
    requires words { board.now.table_id.words ≡ 2 }
    requires list { (list.old.id ≡ 0) × (list.old.me.0 ≡ OfList (listed list.old.me.0)) }
    requires pass { IsPassSeat pass.old }
    ensures list { IsMoved list.old list.new
        (OfList (heard (listed list.old.me.0)
        (learned (held pass.old.me.0) (listed list.old.me.0)))) }
    ensures pass { IsMoved pass.old pass.new
        (OfPass (learned (held pass.old.me.0) (listed list.old.me.0))) }
{
    join_list_to_pass(board, list, pass);
    pass_learns(board, pass);
    join_pass_to_list(board, list, pass);
    list_learns(board, list);
}

/// A meeting in both directions, after which the pass has seen the list.
pub fn pass_sees_list<E>(board: &Board<E>, list: &mut Place<E>, pass: &mut Place<E>)
    requires seats { (list.old.table_id ≡ board.now.table_id)
        × (pass.old.table_id ≡ board.now.table_id) }
    requires words { board.now.table_id.words ≡ 2 }
    requires list { IsListSeat list.old }
    requires pass { IsPassSeat pass.old }
    ensures list { IsMoved list.old list.new list.old.me.0 }
    ensures pass { IsMoved pass.old pass.new
        (OfPass (caught_up (held pass.old.me.0) (listed list.old.me.0))) }
    ensures tallies { Tallies (listed list.old.me.0) (held pass.old.me.0) }
{
    join_pass_to_list(board, list, pass);
    list_learns(board, list);
    join_list_to_pass(board, list, pass);
    pass_learns(board, pass);
}

/// A meeting in both directions, after which the pass adds the entry. The length of the list
/// becomes `new_length`.
pub fn add_through_pass<E>(
    board: &Board<E>,
    list: &mut Place<E>,
    pass: &mut Place<E>,
    entry: &E,
    new_length: u64,
)
    requires seats { (list.old.table_id ≡ board.now.table_id)
        × (pass.old.table_id ≡ board.now.table_id) }
    requires words { board.now.table_id.words ≡ 2 }
    requires list { IsListSeat list.old }
    requires pass { IsPassSeat pass.old }
    requires due { new_length ≡ length (listed list.old.me.0).list + 1 }
    ensures list { IsMoved list.old list.new
        (OfList (grown (listed list.old.me.0) (held pass.old.me.0).number entry.now)) }
    ensures pass { IsMoved pass.old pass.new
        (OfPass (enlarged (held pass.old.me.0) (listed list.old.me.0) entry.now)) }
    ensures tallies { Tallies (listed list.old.me.0) (held pass.old.me.0) }
    ensures after { Tallies (listed list.new.me.0) (held pass.new.me.0) }
{
    pass_sees_list(board, list, pass);
    join_pass_to_list(board, list, pass);
    add::<E, Brand>(board, list, entry, new_length);
    take_in(board, list, pass);
}

// The seat draws the number `due`, if this is the next number. It always is.
fn draw_number<E, N: Drawing>(board: &Board<E>, seat: &mut Place<E>, due: u64) -> bool
    requires seat { seat.old.table_id ≡ board.now.table_id }
    requires words { board.now.table_id.words ≡ 2 }
    requires view { seat.old.me.0 ≡ OfList (listed seat.old.me.0) }
    requires due { due < (listed seat.old.me.0).callers }
    requires small { due < 2 ^ 32 }
    requires drawing { N.seat ≡ seat.old.id }
    ensures { OnTrue result
        (IsMoved seat.old seat.new
        (OfPass (newcomer seat.old.id due (listed seat.old.me.0).callers))) }
{
    board.compare_exchange::<Draws<N>>(seat, 1, due, due + 1) == due
}

/// A new seat with the number `due`, for a pass. There is no seat if the next number is another
/// one, which never happens.
pub fn take_number<E>(
    board: &Board<E>,
    list: &mut Place<E>,
    due: u64,
) -> Result<Place<E>, OutOfMemory>
    requires seat { list.old.table_id ≡ board.now.table_id }
    requires words { board.now.table_id.words ≡ 2 }
    requires view { list.old.me.0 ≡ OfList (listed list.old.me.0) }
    requires due { due < (listed list.old.me.0).callers }
    requires small { due < 2 ^ 32 }
    ensures list { IsMoved list.old list.new list.old.me.0 }
    ensures table { IfOk result (λ seat. seat.table_id ≡ list.old.table_id) }
    ensures drawn { IfOk result (λ seat. seat.me
        ≡ (OfPass (newcomer seat.id due (listed list.old.me.0).callers), [])) }
{
    let mut seat = board.split_seat::<Copies>(list);
    if draw_number::<E, Brand>(board, &mut seat, due) {
        Ok(seat)
    } else {
        Err(OutOfMemory)
    }
}

/// The closing load, which shows that each entry of the list belongs to one of the callers.
pub fn end<E>(board: &Board<E>, list: &mut Place<E>)
    requires seat { list.old.table_id ≡ board.now.table_id }
    requires words { board.now.table_id.words ≡ 2 }
    requires list { IsListSeat list.old }
    ensures list { IsMoved list.old list.new list.old.me.0 }
    ensures complete { IsComplete (listed list.old.me.0) }
{
    board.load::<Closes>(list, 0);
}

/// A last meeting in both directions, after which the pass's seat is joined to the list's.
pub fn end_pass<E>(board: &Board<E>, list: &mut Place<E>, mut pass: Place<E>)
    requires seats { (list.old.table_id ≡ board.now.table_id)
        × (pass.table_id ≡ board.now.table_id) }
    requires words { board.now.table_id.words ≡ 2 }
    requires list { IsListSeat list.old }
    requires pass { IsPassSeat pass × (pass.me.1 ≡ []) }
    ensures list { IsMoved list.old list.new list.old.me.0 }
    ensures tallies { Tallies (listed list.old.me.0) (held pass.me.0) }
{
    pass_sees_list(board, list, &mut pass);
    board.join_seat::<Meets>(list, pass);
    list_learns(board, list);
}
