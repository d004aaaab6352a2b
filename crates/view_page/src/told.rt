// The program's own bytes of sentences and of overviews.

ghost use Rattle.std.specs.Prelude.{◌≡◌};
ghost use Rattle.view_page.specs.Told as spec;

/// The sentences below a drawing.
#[derive(Clone, Copy)]
pub enum Told {
    List,
    Plain,
    Bad,
    Stale,
    Event,
    Is,
    Task,
    OpenedFor,
    Measured,
    OpenedToMeasure,
    HeldBy,
    EntryIs,
    ToMToU,
    OpenWriters,
    Reading,
    Writing,
    ReadingAndWriting,
    Execution,
    Use,
    Holds,
    Since,
    HoldsEnd,
    Comma,
    And,
    More,
    Call,
    WasTold,
    CodeEnd,
    Labelled,
    OfTask,
    NotAsHashed,
    Writer,
    Wrote,
    ItemEnd,
    MoreItems,
    MoreItemsEnd,
    ListEnd,
}

// Its bytes.
pub fn told_bytes(told: Told) -> &'static [u8]
    ensures { result.now ≡ spec.told_bytes told }
{
    match told {
        Told::List => b"<ul>\n",
        Told::Plain => b"<li>",
        Told::Bad => b"<li class=\"bad\">",
        Told::Stale => b"<li class=\"stale\">",
        Told::Event => b"event ",
        Told::Is => b": ",
        Told::Task => b"task ",
        Told::OpenedFor => b" opened it for ",
        Told::Measured => b" while it was measured and held by ",
        Told::OpenedToMeasure => b" opened it to be measured (",
        Told::HeldBy => b") while it was held by ",
        Told::EntryIs => b": entry ",
        Told::ToMToU => b" is a ToMToU violation",
        Told::OpenWriters => b" is an open-writers violation",
        Told::Reading => b"reading",
        Told::Writing => b"writing",
        Told::ReadingAndWriting => b"reading and writing",
        Told::Execution => b"execution",
        Told::Use => b"use",
        Told::Holds => b" (",
        Told::Since => b" since event ",
        Told::HoldsEnd => b")",
        Told::Comma => b", ",
        Told::And => b" and ",
        Told::More => b" more",
        Told::Call => b", call ",
        Told::WasTold => b" was told <code>",
        Told::CodeEnd => b"</code>",
        Told::Labelled => b"the label was written, in call ",
        Told::OfTask => b" of task ",
        Told::NotAsHashed => b" read content that isn't as hashed",
        Told::Writer => b": task ",
        Told::Wrote => b" wrote at event ",
        Told::ItemEnd => b"</li>\n",
        Told::MoreItems => b"<li>and ",
        Told::MoreItemsEnd => b" more</li>\n",
        Told::ListEnd => b"</ul>\n",
    }
}

/// The overview of a long journal.
#[derive(Clone, Copy)]
pub enum Overview {
    Begin,
    Names,
    MoreNames,
    NamesEnd,
    Readers,
    ReadersEnd,
    Writers,
    WritersEnd,
    Up,
    Along,
    Bad,
    Label,
    Entry,
    At,
    Violated,
    Denied,
    Labelled,
    Added,
    Windows,
    Window,
    Back,
    Close,
    PathEnd,
    End,
}

// Its bytes.
pub fn overview_bytes(overview: Overview) -> &'static [u8]
    ensures { result.now ≡ spec.overview_bytes overview }
{
    match overview {
        Overview::Begin => {
            b"<div class=\"wide\"><svg width=\"1008\" height=\"64\" \
              font-size=\"10\" role=\"img\">\n"
        }
        Overview::Names => {
            b"<g text-anchor=\"end\" fill=\"#5f6b7a\"><text \
              x=\"88\" y=\"14\">readers</text>\n"
        }
        Overview::MoreNames => {
            b"<text x=\"88\" y=\"30\">writers</text><text \
              x=\"88\" y=\"46\">marks</text>\n"
        }
        Overview::NamesEnd => b"<text x=\"88\" y=\"58\">drawn below</text></g>\n",
        Overview::Readers => b"<path fill=\"#9cc9e6\" d=\"M96 16",
        Overview::ReadersEnd => b"V16z\"/>\n",
        Overview::Writers => b"<path fill=\"#f2b48a\" d=\"M96 32",
        Overview::WritersEnd => b"V32z\"/>\n",
        Overview::Up => b"V",
        Overview::Along => b"h",
        Overview::Bad => b"<path fill=\"#b00020\" d=\"",
        Overview::Label => b"<path fill=\"#c9a400\" d=\"",
        Overview::Entry => b"<path fill=\"#007a5a\" d=\"",
        Overview::At => b"M",
        Overview::Violated => b" 36h2v12h-2z",
        Overview::Denied => b" 36h2v5h-2zm0 7h2v5h-2z",
        Overview::Labelled => b" 42h2v6h-2z",
        Overview::Added => b" 36h1v12h-1z",
        Overview::Windows => b"<path fill=\"#3c4652\" d=\"",
        Overview::Window => b" 52h",
        Overview::Back => b"v4h-",
        Overview::Close => b"z",
        Overview::PathEnd => b"\"/>\n",
        Overview::End => b"</svg></div>\n",
    }
}
