// The shapes of marks.

ghost use Rattle.std.specs.Prelude.{◌≡◌};
ghost use Rattle.view_page.specs.Own as spec;

use view_journal::Mark;

/// The shape of a mark, around the point 0,0.
pub fn shape(mark: Mark) -> &'static [u8]
    ensures { result.now ≡ spec.shape mark }
{
    match mark {
        Mark::Birth => b"<circle r=\"3\" fill=\"#8a94a0\"/>",
        Mark::Opened | Mark::Closed => b"<path d=\"M-2 -8H2V8H-2Z\" fill=\"#3c4652\"/>",
        Mark::NotOpened =>
            b"<path d=\"M-5 -5L5 5M5 -5L-5 5\" stroke=\"#b00020\" stroke-width=\"3\"/>",
        Mark::Checked => b"<path d=\"M0 -7L7 0L0 7L-7 0Z\" fill=\"#fff\" stroke=\"#3c4652\"/>",
        Mark::Violated => b"<path d=\"M0 -7L7 0L0 7L-7 0Z\" fill=\"#b00020\"/>",
        Mark::Begun =>
            b"<path d=\"M4 -7H-3V7H4\" fill=\"none\" stroke=\"#04573f\" stroke-width=\"2\"/>",
        Mark::Chunk => b"<path d=\"M0 -6V6\" stroke=\"#04573f\" stroke-width=\"2\"/>",
        Mark::Granted => b"<circle r=\"7\" fill=\"#007a5a\"/>",
        Mark::Refused => {
            b"<circle r=\"7\" fill=\"#b00020\"/>\
              <path d=\"M-3 -3L3 3M3 -3L-3 3\" stroke=\"#fff\" stroke-width=\"2\"/>"
        }
        Mark::Read => {
            b"<path d=\"M-7 -7H7V7H-7Z\" fill=\"#0072b2\"/>\
              <text y=\"4\" fill=\"#fff\" text-anchor=\"middle\">R</text>"
        }
        Mark::Write => {
            b"<path d=\"M-7 -7H7V7H-7Z\" fill=\"#d55e00\"/>\
              <text y=\"4\" fill=\"#fff\" text-anchor=\"middle\">W</text>"
        }
        Mark::Trunc => {
            b"<path d=\"M-7 -7H7V7H-7Z\" fill=\"#d55e00\"/>\
              <text y=\"4\" fill=\"#fff\" text-anchor=\"middle\">T</text>"
        }
        Mark::SetAttr => {
            b"<path d=\"M-7 -7H7V7H-7Z\" fill=\"#6b5b95\"/>\
              <text y=\"4\" fill=\"#fff\" text-anchor=\"middle\">A</text>"
        }
        Mark::SetMeta => {
            b"<path d=\"M-7 -7H7V7H-7Z\" fill=\"#6b5b95\"/>\
              <text y=\"4\" fill=\"#fff\" text-anchor=\"middle\">M</text>"
        }
        Mark::NotDone => {
            b"<path d=\"M-7 -7H7V7H-7Z\" fill=\"#8a94a0\"/>\
              <path d=\"M-4 4L4 -4\" stroke=\"#fff\"/>"
        }
        Mark::Finished =>
            b"<path d=\"M-4 -7H3V7H-4\" fill=\"none\" stroke=\"#04573f\" stroke-width=\"2\"/>",
    }
}
