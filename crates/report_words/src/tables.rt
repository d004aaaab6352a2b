// Tables of words.

ghost use Rattle.std.specs.Prelude.{◌≡◌, map, option_map};
ghost use Rattle.report_words.specs.Forms.{after_by, is_among};

/// Whether the word is one of the table's.
pub fn is_among(mut table: &[&[u8]], word: &[u8]) -> bool
    ensures { result ≡ is_among (map (λ w. w.now) table.entry.now) word.now }
{
    while let [first, rest @ ..] = table {
        if word == *first {
            return true;
        }
        table = rest;
    }
    false
}

/// The words after the first, if it is one of the table's.
pub(crate) fn after_one_of<'w>(table: &[&[u8]], words: &'w [&'w [u8]]) -> Option<&'w [&'w [u8]]>
    ensures { option_map (λ r. map (λ w. w.now) r.now) result
        ≡ after_by (λ w. is_among (map (λ t. t.now) table.now) w) (map (λ w. w.now) words.now) }
{
    match words {
        [] => None,
        [first, rest @ ..] => if is_among(table, first) {
            Some(rest)
        } else {
            None
        },
    }
}
