// The rules of the classes of a drawing.

ghost use Rattle.std.specs.Prelude.{◌≡◌, ◌++◌, OnOk};
ghost use Rattle.view_page.specs.Rules.{rules};

use crate::look::push_lines;
use std::alloc::AllocError as OutOfMemory;

const RULES: [&[u8]; 21] = [
    b"svg.tl{font:10px sans-serif;display:block;background:#fff}",
    b"text.lane{text-anchor:end;font-size:12px}",
    b".strip,.gap,.place{fill:#5f6b7a}.gap,.place{text-anchor:middle}",
    b".strip{text-anchor:end}.in,.place{font-size:9px}.deed{text-anchor:end;fill:#3c4652}",
    b".deed.red{fill:#b00020;font-weight:bold}.l0{fill:#f5f7f9}.l1{fill:#eef1f4}",
    b".differs{fill:#ffe58a}.n-r{fill:#9cc9e6}.n-w{fill:#f2b48a}.n-x{fill:#cdb9dc}",
    b".zero{fill:#cfd6dd}.c-n{fill:#eceff2}.c-h{fill:#a9dcc6}.c-w{fill:#f3a6ad}",
    b".b-r{fill:#cfe4f2;stroke:#0072b2}.b-w{fill:#fbdcc6;stroke:#d55e00}",
    b".b-rw{fill:#f3dfd6;stroke:#d55e00;stroke-dasharray:5 2}",
    b".b-x{fill:#e4d9ee;stroke:#8e6aa8}.still{stroke-dasharray:2 2}",
    b".hash{fill:#8fd0b6;stroke:#007a5a}.g-w{stroke:#d55e00;stroke-dasharray:2 3}",
    b".g-v{stroke:#b00020;stroke-width:2}.g-d{stroke:#b00020;stroke-dasharray:6 3}",
    b".g-a{stroke:#007a5a;stroke-dasharray:1 3}.g-p{stroke:#7a5cff;stroke-width:2}",
    b".parts{fill:#7a5cff;font-weight:bold}",
    b"rect.gap{fill:#fff;stroke:#9aa5b1;stroke-dasharray:3 4}rect.f-v{fill:#b00020}",
    b"rect.f-d{fill:#fff;stroke:#b00020}rect.f-a{fill:#007a5a}",
    b"rect.f-o{fill:#fff;stroke:#007a5a}rect.f-p{fill:#fff;stroke:#9aa5b1}",
    b"rect.f-l{fill:#fff3bf;stroke:#c9a400}text.f-v,text.f-a{fill:#fff;font-weight:bold}",
    b"text.f-d{fill:#b00020;font-weight:bold}text.f-o{fill:#007a5a}",
    b"g.e text{fill:#fff;text-anchor:middle;font-weight:bold}",
    b"g.e:target *{stroke:#000;stroke-width:2}",
];

/// Appends the rules of the classes of a drawing, which a page has once in its `style`.
pub fn push_rules(out: &mut Vec<u8>) -> Result<(), OutOfMemory>
    ensures { OnOk result (out.new.items ≡ out.old.items ++ rules) }
{
    push_lines(out, &RULES)
}
