//! Promises about drawings, over all journals.

ghost use Rattle.view_layout.specs.Promises.{EventsStandInTheirLanes, FlagsAreInOrder};

/// Each event but the birth stands in a lane of its task.
pub fn events_stand_in_their_lanes()
    ensures { EventsStandInTheirLanes }
{}

/// The flags stand in the order of their beginnings.
pub fn flags_are_in_order()
    ensures { FlagsAreInOrder }
{}
