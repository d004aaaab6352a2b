//! What is true of each drawing.

ghost use Rattle.view_drawing.specs.Drawing.{EachEventHasOneMark};

/// Each event that is drawn has one mark, in the order of the columns, and there are no others.
pub fn each_event_has_one_mark()
    ensures { EachEventHasOneMark }
{}
