//! Promises about pages, over all reports.

ghost use Rattle.view_pages.specs.Promises.{CallsLeadToTheirEvents, DrawnEventsAreBounded, EachInodeIsOrdered, EntriesLeadToTheirEvents, LinksLeadToDrawnEvents, OnlyOwnPartsMakeTags};

/// Of the parts of a page only the program's own have `<`, `>` and `"`, whatever the report is.
pub fn only_own_parts_make_tags()
    ensures { OnlyOwnPartsMakeTags }
{}

/// Each inode stands once in the order in which a page shows them.
pub fn each_inode_is_ordered()
    ensures { EachInodeIsOrdered }
{}

/// A page draws at most 3,000 events.
pub fn drawn_events_are_bounded()
    ensures { DrawnEventsAreBounded }
{}

/// The event that the list names for an entry is one that added it.
pub fn entries_lead_to_their_events()
    ensures { EntriesLeadToTheirEvents }
{}

/// The event that a page names for a call is one of this call.
pub fn calls_lead_to_their_events()
    ensures { CallsLeadToTheirEvents }
{}

/// Each event that has a link is in a window of its inode's drawing.
pub fn links_lead_to_drawn_events()
    ensures { LinksLeadToDrawnEvents }
{}
