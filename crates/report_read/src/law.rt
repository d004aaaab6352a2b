//! What the reader makes of the texts that `report_text` prints.

ghost use Rattle.report_read.specs.ReadBack.{EventLinesAreRead, ReportIsRead};

/// The line that a report has for an event of a legal journal is read as that event.
pub fn event_lines_are_read()
    ensures { EventLinesAreRead }
{}

/// The report of a run is accepted, and read as that run: its entries, events, counts and replies.
pub fn report_is_read()
    ensures { ReportIsRead }
{}
