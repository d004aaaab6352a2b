// How pages look: their style, and the legend.

ghost use Rattle.std.specs.Prelude.{◌≡◌, ◌++◌, OnOk};
ghost use Rattle.view_page.specs.Look.{legend, lines_of, style};

use crate::escape::push_all;
use std::alloc::AllocError as OutOfMemory;

// The rules of the classes of a page.
const STYLE: [&[u8]; 23] = [
    b":root{--bad:#b00020;--warn:#b26a00;--ink:#1b1f24;--soft:#5f6b7a}\n",
    b"body{font:14px/1.45 system-ui,sans-serif;color:var(--ink);margin:24px;background:#fff}\n",
    b"h1{font-size:20px;margin:0 0 4px}h2{font-size:15px;margin:26px 0 4px;font-weight:600}\n",
    b"h2 code{font-size:15px}p{margin:4px 0}ul{margin:4px 0 4px 18px;padding:0}\n",
    b"li.bad{font-weight:400}li.stale{color:#8a3b00}.soft{color:var(--soft)}\n",
    b".bad{color:var(--bad);font-weight:600}\n",
    b"table{border-collapse:collapse;margin:8px 0;font-size:13px}\n",
    b"td,th{padding:3px 10px 3px 0;text-align:left;vertical-align:top}\n",
    b"td,th{border-bottom:1px solid #e4e7eb}th{color:var(--soft);font-weight:500}\n",
    b"code,td.h{font-family:ui-monospace,monospace;font-size:12px}\n",
    b"td.h[title]::after{content:\"\\2026\"}\n",
    b"tr.viol td{background:#fdecee}tr:target td{background:#fff3bf}\n",
    b".tiles{display:flex;gap:10px;margin:12px 0;flex-wrap:wrap}\n",
    b".tile{border:1px solid #d9dde3;border-radius:6px;padding:6px 14px;min-width:74px}\n",
    b".tile b{display:block;font-size:18px}\n",
    b".tile.hot{border-color:var(--bad);background:#fdecee}.tile.hot b{color:var(--bad)}\n",
    b".wide{overflow-x:auto}.two{display:flex;gap:40px;flex-wrap:wrap;margin-top:26px}\n",
    b".which{background:#e9e4ff;color:#3d28a8;border-radius:4px;padding:1px 8px;font-size:12px}\n",
    b".chip{display:inline-block;border:1px solid #c9d0d8;border-radius:4px;padding:0 6px}\n",
    b".chip{margin:2px 4px 2px 0;font-size:12px;white-space:nowrap}\n",
    b".chip.no{border-color:var(--bad);color:var(--bad);background:#fdecee}\n",
    b".chip.wait{border-style:dashed;color:var(--warn)}\n",
    b"@media print{.wide{overflow:visible}}\n",
];

// The legend, a drawing.
const LEGEND: [&[u8]; 39] = [
    b"<svg width=\"930\" height=\"66\" font-size=\"10\" role=\"img\" aria-label=\"legend\">\n",
    b"<path d=\"M2 5h34v14h-34z\" fill=\"#cfe4f2\" stroke=\"#0072b2\"/>\n",
    b"<text x=\"42\" y=\"16\">open for reading</text>\n",
    b"<path d=\"M142 5h34v14h-34z\" fill=\"#fbdcc6\" stroke=\"#d55e00\"/>\n",
    b"<text x=\"182\" y=\"16\">open for writing</text>\n",
    b"<path d=\"M282 5h34v14h-34z\" fill=\"#e4d9ee\" stroke=\"#8e6aa8\"/>\n",
    b"<text x=\"322\" y=\"16\">executed</text>\n",
    b"<path d=\"M392 7h34v10h-34z\" fill=\"#8fd0b6\" stroke=\"#007a5a\"/>\n",
    b"<text x=\"432\" y=\"16\">being hashed</text>\n",
    b"<path d=\"M522 5h34v14h-34z\" fill=\"#cfe4f2\" stroke=\"#0072b2\"\n",
    b"stroke-dasharray=\"2 2\"/>\n",
    b"<text x=\"562\" y=\"16\">open at the end</text>\n",
    b"<path d=\"M662 6h34v12h-34z\" fill=\"#a9dcc6\"/>\n",
    b"<text x=\"702\" y=\"16\">content as hashed</text>\n",
    b"<path d=\"M802 6h34v12h-34z\" fill=\"#f3a6ad\"/>\n",
    b"<text x=\"842\" y=\"16\">written since</text>\n",
    b"<path d=\"M10 28l7 7l-7 7l-7 -7z\" fill=\"#fff\" stroke=\"#3c4652\"/>\n",
    b"<text x=\"24\" y=\"39\">check</text>\n",
    b"<path d=\"M80 28l7 7l-7 7l-7 -7z\" fill=\"#b00020\"/>\n",
    b"<text x=\"94\" y=\"39\">check that found a violation</text>\n",
    b"<path d=\"M262 28h14v14h-14z\" fill=\"#d55e00\"/>\n",
    b"<text x=\"269\" y=\"39\" text-anchor=\"middle\" fill=\"#fff\">W</text>\n",
    b"<text x=\"282\" y=\"39\">write (T cut)</text>\n",
    b"<path d=\"M372 28h14v14h-14z\" fill=\"#0072b2\"/>\n",
    b"<text x=\"379\" y=\"39\" text-anchor=\"middle\" fill=\"#fff\">R</text>\n",
    b"<text x=\"392\" y=\"39\">read</text>\n",
    b"<path d=\"M442 28h14v14h-14z\" fill=\"#6b5b95\"/>\n",
    b"<text x=\"449\" y=\"39\" text-anchor=\"middle\" fill=\"#fff\">A</text>\n",
    b"<text x=\"462\" y=\"39\">attribute (M mode, owner)</text>\n",
    b"<circle cx=\"628\" cy=\"35\" r=\"6\" fill=\"#007a5a\"/>\n",
    b"<text x=\"640\" y=\"39\">grant</text>\n",
    b"<circle cx=\"692\" cy=\"35\" r=\"6\" fill=\"#b00020\"/>\n",
    b"<path d=\"M689 32l6 6m0 -6l-6 6\" stroke=\"#fff\" stroke-width=\"2\"/>\n",
    b"<text x=\"704\" y=\"39\">not admitted</text>\n",
    b"<path d=\"M786 30l10 10m0 -10l-10 10\" stroke=\"#b00020\" stroke-width=\"3\"/>\n",
    b"<text x=\"802\" y=\"39\">not opened</text>\n",
    b"<text x=\"2\" y=\"60\">Events stand in the order of the inode's journal.\n",
    b"Between two inodes only the order of the list and each task's own order are known.\n",
    b"</text></svg>\n",
];

/// Appends the rules of the classes of a page.
pub fn push_style(out: &mut Vec<u8>) -> Result<(), OutOfMemory>
    ensures { OnOk result (out.new.items ≡ out.old.items ++ style) }
{
    push_lines(out, &STYLE)
}

/// Appends the legend.
pub fn push_legend(out: &mut Vec<u8>) -> Result<(), OutOfMemory>
    ensures { OnOk result (out.new.items ≡ out.old.items ++ legend) }
{
    push_lines(out, &LEGEND)
}

// Appends lines of the program.
pub fn push_lines(out: &mut Vec<u8>, lines: &[&[u8]]) -> Result<(), OutOfMemory>
    ensures { OnOk result (out.new.items ≡ out.old.items ++ lines_of lines.now) }
{
    for line in lines {
        push_all(out, line)?;
    }
    Ok(())
}
