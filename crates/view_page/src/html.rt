// The bytes of pages that are the program's own.

ghost use Rattle.std.specs.Prelude.{◌≡◌};
ghost use Rattle.view_page.specs.Html as spec;

/// The frame of a page, and its headings.
#[derive(Clone, Copy)]
pub enum Frame {
    Begin,
    Body,
    End,
    OneRun,
    TwoRuns,
    First,
    Second,
    Both,
    Beside,
    BothEnd,
    Tiles,
    TilesEnd,
    Tile,
    Hot,
    TileEnd,
    Run,
    Entries,
    Violations,
    Refused,
    Inodes,
    Tasks,
    Events,
    Done,
    Unfinished,
    Stuck,
}

// Its bytes.
pub fn frame_bytes(frame: Frame) -> &'static [u8]
    ensures { result.now ≡ spec.frame_bytes frame }
{
    match frame {
        Frame::Begin => {
            b"<!doctype html>\n\
              <html lang=\"en\"><head><meta charset=\"utf-8\">\n\
              <title>imakern report</title><style>\n"
        }
        Frame::Body => b"</style></head>\n<body>\n",
        Frame::End => b"</body></html>\n",
        Frame::OneRun => b"<h1>Report of a run</h1>\n",
        Frame::TwoRuns => {
            b"<h1>Two runs of one script</h1>\n\
              <p class=\"soft\">Yellow: an event that is told another thing in the other run. \
              Violet: where the two journals of an inode part.</p>\n"
        }
        Frame::First => b"<h2>first</h2>\n",
        Frame::Second => b"<h2>second</h2>\n",
        Frame::Both => b"<div class=\"two\"><div><h1>first</h1>\n",
        Frame::Beside => b"</div><div><h1>second</h1>\n",
        Frame::BothEnd => b"</div></div>\n",
        Frame::Tiles => b"<div class=\"tiles\">\n",
        Frame::TilesEnd => b"</div>\n",
        Frame::Tile => b"<div class=\"tile\">",
        Frame::Hot => b"<div class=\"tile hot\">",
        Frame::TileEnd => b"</b></div>\n",
        Frame::Run => b"run<b>",
        Frame::Entries => b"list entries<b>",
        Frame::Violations => b"violations<b>",
        Frame::Refused => b"refused calls<b>",
        Frame::Inodes => b"inodes<b>",
        Frame::Tasks => b"tasks<b>",
        Frame::Events => b"events<b>",
        Frame::Done => b"done",
        Frame::Unfinished => b"unfinished",
        Frame::Stuck => b"stuck",
    }
}

/// The section of an inode.
#[derive(Clone, Copy)]
pub enum Section {
    Inode,
    Path,
    Shown,
    Length,
    Event,
    Events,
    Bad,
    Violation,
    Violations,
    Denials,
    Same,
    IsFirst,
    IsSecond,
    Close,
    Birth,
    Wide,
    WideEnd,
    NotDrawn,
    NotDrawnEnd,
    AtEnd,
    Readers,
    Execs,
    Force,
    Attr,
    AttrIs,
    Code,
    More,
    MoreAttrs,
    ParaEnd,
    MoreInodes,
    MoreInodesEnd,
}

// Its bytes.
pub fn section_bytes(section: Section) -> &'static [u8]
    ensures { result.now ≡ spec.section_bytes section }
{
    match section {
        Section::Inode => b"<h2>inode ",
        Section::Path => b" <code title=\"",
        Section::Shown => b"\">",
        Section::Length => b"</code> <span class=\"soft\">",
        Section::Event => b" event</span>",
        Section::Events => b" events</span>",
        Section::Bad => b" <span class=\"bad\">",
        Section::Violation => b" violation</span>",
        Section::Violations => b" violations</span>",
        Section::Denials => b" denied or labelled</span>",
        Section::Same => b" <span class=\"soft\">the same journal in both</span>",
        Section::IsFirst => b" <span class=\"which\">first</span>",
        Section::IsSecond => b" <span class=\"which\">second</span>",
        Section::Close => b"</h2>\n",
        Section::Birth => b"<p class=\"soft\">no event but its birth</p>\n",
        Section::Wide => b"<div class=\"wide\">\n",
        Section::WideEnd => b"</div>\n",
        Section::NotDrawn => b"<p class=\"soft\">not drawn: use <code>inode ",
        Section::NotDrawnEnd => b"</code></p>\n",
        Section::AtEnd => b"<p class=\"soft\">at the end: writers ",
        Section::Readers => b", readers ",
        Section::Execs => b", execs ",
        Section::Force => b"; digest in force <code title=\"",
        Section::Attr => b"; <code title=\"",
        Section::AttrIs => b"=",
        Section::Code => b"</code>",
        Section::More => b"; and ",
        Section::MoreAttrs => b" more",
        Section::ParaEnd => b"</p>\n",
        Section::MoreInodes => b"<p class=\"soft\">and ",
        Section::MoreInodesEnd => b" more: use <code>inode I</code></p>\n",
    }
}

/// The list, the registers, the appended rules and the replies.
#[derive(Clone, Copy)]
pub enum Table {
    List,
    Row,
    Entry,
    RowIs,
    RowViolates,
    Cell,
    HexCell,
    TitleCell,
    Shown,
    Violation,
    RowEnd,
    ListEnd,
    Hidden,
    HiddenEnd,
    Boot,
    ByNone,
    Inode,
    Link,
    I,
    E,
    LinkIs,
    LinkPlace,
    LinkEnd,
    Said,
    SpanEnd,
    Registers,
    BankRow,
    TableEnd,
    Rules,
    RuleRow,
    More,
    MoreEnd,
    Replies,
    TaskRow,
    Chip,
    ChipNo,
    NoEvent,
    Reply,
    ReplyEnd,
    Wait,
    WaitEnd,
    Calls,
    CallsEnd,
}

// Its bytes.
pub fn table_bytes(table: Table) -> &'static [u8]
    ensures { result.now ≡ spec.table_bytes table }
{
    match table {
        Table::List => {
            b"<h2>Measurement list</h2>\n\
              <div class=\"wide\"><table><tr><th>#</th><th>PCR</th><th>template</th>\
              <th>file digest</th><th>name</th><th>added by</th></tr>\n"
        }
        Table::Row => b"<tr id=\"",
        Table::Entry => b"entry",
        Table::RowIs => b"\"><td>",
        Table::RowViolates => b"\" class=\"viol\"><td>",
        Table::Cell => b"</td><td>",
        Table::HexCell => b"</td><td class=\"h\">",
        Table::TitleCell => b"</td><td class=\"h\" title=\"",
        Table::Shown => b"\">",
        Table::Violation => b"</td><td class=\"h\"><span class=\"bad\">violation</span>",
        Table::RowEnd => b"</td></tr>\n",
        Table::ListEnd => b"</table></div>\n",
        Table::Hidden => b"<p class=\"soft\">Of ",
        Table::HiddenEnd => b" entries the first 50 and the first 150 violations are shown.</p>\n",
        Table::Boot => b"boot",
        Table::ByNone => b"-",
        Table::Inode => b"inode ",
        Table::Link => b"<a href=\"#",
        Table::I => b"i",
        Table::E => b"-e",
        Table::LinkIs => b"\">inode ",
        Table::LinkPlace => b" event ",
        Table::LinkEnd => b"</a>",
        Table::Said => b" <span class=\"soft\">",
        Table::SpanEnd => b"</span>",
        Table::Registers => b"<table><tr><th>bank</th><th>PCR</th><th>value</th></tr>\n",
        Table::BankRow => b"<tr><td>",
        Table::TableEnd => b"</table>\n",
        Table::Rules => b"<h2>Rules appended during the run</h2>\n<table>\n",
        Table::RuleRow => b"<tr><td class=\"h\">",
        Table::More => b"<p class=\"soft\">and ",
        Table::MoreEnd => b" more</p>\n",
        Table::Replies => b"<h2>Calls and replies</h2>\n<table>\n",
        Table::TaskRow => b"<tr><td>task&nbsp;",
        Table::Chip => b"<span class=\"chip\">",
        Table::ChipNo => b"<span class=\"chip no\">",
        Table::NoEvent => b" <span class=\"soft\">no event</span>",
        Table::Reply => b" <b title=\"",
        Table::ReplyEnd => b"</b></span>",
        Table::Wait => b"<span class=\"chip wait\">",
        Table::WaitEnd => b" stands here at the end</span>",
        Table::Calls => b"<span class=\"chip\">of ",
        Table::CallsEnd => b" calls the first 50 and the first 50 refused are shown</span>",
    }
}
