//! Promises about pictures, over all journals.

ghost use Rattle.view_journal.specs.Promises.{AsHashedIsSound, BarsDontOverlap, ColumnsAreTheJournals, ColumnsDiffer, CountsAreTheJournals, EntriesAreAddedOnce, HoldersAreNamed, LanesAreInOrder, WindowsAreInOrder};

/// The counts that the strips show are those of the journal that the report prints.
pub fn counts_are_the_journals()
    ensures { CountsAreTheJournals }
{}

/// Where the strip says `as hashed`, the digest that was finished last is that of the content.
pub fn as_hashed_is_sound()
    ensures { AsHashedIsSound }
{}

/// Each entry of the list but the first is marked as added at exactly one event.
pub fn entries_are_added_once()
    ensures { EntriesAreAddedOnce }
{}

/// The sentence below a violation names exactly the files that are held there as readers (ToMToU)
/// or as writers (open writers).
pub fn holders_are_named()
    ensures { HoldersAreNamed }
{}

/// The windows of a journal come one after another.
pub fn windows_are_in_order()
    ensures { WindowsAreInOrder }
{}

/// The columns of drawn places don't overlap, and stand in the order of the places.
pub fn columns_differ()
    ensures { ColumnsDiffer }
{}

/// A column stands where the windows put its place, and has the event there and what the strips
/// show after it.
pub fn columns_are_the_journals()
    ensures { ColumnsAreTheJournals }
{}

/// The bars of a lane stand in the order of their counts.
pub fn lanes_are_in_order()
    ensures { LanesAreInOrder }
{}

/// Two bars in one row of a lane don't overlap, nor do two flags.
pub fn bars_dont_overlap()
    ensures { BarsDontOverlap }
{}
