// What a drawing is made of.

use crate::kinds::{Mark, Note};
use report_read::{Event, Kind, Span};

/// The strips above the lanes.
#[derive(Clone, Copy)]
pub enum Strip {
    Readers,
    Writers,
    Execs,
    Content,
}

/// What a block stands for, which gives its colours.
#[derive(Clone, Copy)]
pub enum Look {
    Lane,
    /// Of a task with an odd number.
    OtherLane,
    /// A column that differs from the other report.
    Differs,
    /// An open file that is dropped.
    Bar(Kind),
    /// A file that is open at the end of the journal.
    StillOpen(Kind),
    Hashing,
}

/// A vertical line.
#[derive(Clone, Copy)]
pub enum Guide {
    Write,
    Violation,
    Denial,
    Added,
    /// Where two journals part.
    Parting,
}

/// A place in a drawing, in pixels from the left edge and below the top of the strips.
#[derive(Clone, Copy)]
pub struct Area {
    pub x: u64,
    pub y: u64,
    pub width: u64,
    pub height: u64,
}

/// A part of a drawing. `up` counts the pixels above the top of the strips.
#[derive(Clone, Copy)]
pub enum Item {
    Block(Look, Area),
    Guide {
        guide: Guide,
        x: u64,
        up: u64,
        down: u64,
    },
    StripName(Strip),
    /// The part of a strip that shows one number; of the content 0, 1 and 2 are not hashed, as
    /// hashed and written since.
    Segment {
        strip: Strip,
        x: u64,
        width: u64,
        shown: u64,
    },
    LaneName {
        y: u64,
        task: u32,
    },
    Mark {
        place: u32,
        x: u64,
        y: u64,
        line: Span,
        mark: Mark,
    },
    /// The place and the deed of an event below its column.
    Axis {
        x: u64,
        y: u64,
        place: u32,
        event: Event,
        mark: Mark,
    },
    /// A note of an event.
    Flag {
        x: u64,
        up: u64,
        width: u64,
        event: Event,
        note: Note,
    },
    /// Events that aren't drawn.
    Gap {
        x: u64,
        height: u64,
        events: u64,
    },
}
