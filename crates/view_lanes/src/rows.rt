// The rows in which events and the bars of files stand.

ghost use Rattle.std.specs.Prelude.{◌≡◌};
ghost use Rattle.view_lanes.specs.Lanes as spec;

use crate::lanes::{LANES_TOP, Lane, Seat};
use report_read::{Deed, Event};

// The birth stands above the lanes.
const BIRTH_TOP: u32 = 51;

/// The top of the row in which an event stands.
pub fn row_top(lanes: &[Lane], seats: &[Seat], place: u32, event: Event) -> u32
    ensures { result ≡ spec.row_top lanes.now seats.now place event }
{
    row_by(lanes, seats, place, event.deed, event.who.task)
}

fn row_by(lanes: &[Lane], seats: &[Seat], place: u32, deed: Deed, task: u32) -> u32
    ensures { result ≡ spec.row_by lanes.now seats.now place deed task }
{
    match deed {
        Deed::Birth => BIRTH_TOP,
        _ => match own_seat(file_of(place, deed), task, seats) {
            Some(y) => y,
            None => top_in(task, lanes),
        },
    }
}

/// The top of the row in which the bar of a file stands.
pub fn seat_of(file: Option<u32>, seats: &[Seat]) -> Option<u32>
    ensures { result ≡ spec.seat_of file seats.now }
{
    match file {
        Some(file) => seat_in(file, seats),
        None => None,
    }
}

fn seat_in(file: u32, seats: &[Seat]) -> Option<u32>
    ensures { result ≡ spec.seat_in file seats.now }
{
    for seat in seats {
        if seat.bar.file == file {
            return Some(seat.y);
        }
    }
    None
}

// The same, if the bar is one of the task.
fn own_seat(file: Option<u32>, task: u32, seats: &[Seat]) -> Option<u32>
    ensures { result ≡ spec.own_seat file task seats.now }
{
    match file {
        Some(file) => own_seat_in(file, task, seats),
        None => None,
    }
}

fn own_seat_in(file: u32, task: u32, seats: &[Seat]) -> Option<u32>
    ensures { result ≡ spec.own_seat_in file task seats.now }
{
    for seat in seats {
        if seat.bar.file == file && seat.bar.task == task {
            return Some(seat.y);
        }
    }
    None
}

fn top_in(task: u32, lanes: &[Lane]) -> u32
    ensures { result ≡ spec.top_in task lanes.now }
{
    for lane in lanes {
        if lane.task == task {
            return lane.row;
        }
    }
    LANES_TOP
}

fn file_of(place: u32, deed: Deed) -> Option<u32>
    ensures { result ≡ spec.file_of place deed }
{
    match deed {
        Deed::Count { .. } => Some(place),
        Deed::Check(file) | Deed::Take(file) | Deed::Chunk(file) | Deed::Finish(file) => Some(file),
        Deed::Read { file, .. } | Deed::Write { file, .. } | Deed::Trunc { file, .. } => Some(file),
        Deed::Close(file) | Deed::CloseTake(file) => Some(file),
        Deed::CloseChunk(file) | Deed::CloseFinish(file) => Some(file),
        Deed::Birth | Deed::SetAttr | Deed::RemoveAttr | Deed::SetMeta => None,
    }
}
