//! What a text of a report can't do to a page.

ghost use Rattle.std.specs.Prelude.{◌≡◌, ℕ, List, IsTrue, false};
ghost use Rattle.std.specs.List.{list_all};
ghost use Rattle.view_page.specs.Escape.{escaped, is_safe};
ghost use Rattle.view_page.specs.Pieces.{bytes_of, is_own};
ghost use Rattle.view_page.specs.declared.pieces.Piece.{Piece};

/// A text as the page shows it has neither `<`, `>` nor `"`, whatever its bytes are: it begins and
/// ends no tag, and ends no attribute.
pub fn texts_stay_texts()
    ensures { (text : List ℕ) → IsTrue (list_all is_safe (escaped text)) }
{}

/// Of the pieces of a page only the program's own have `<`, `>` and `"`, whatever the report is.
pub fn only_own_pieces_make_tags()
    ensures { (text : List ℕ) (piece : Piece) → is_own piece ≡ false
        → IsTrue (list_all is_safe (bytes_of text piece)) }
{}
