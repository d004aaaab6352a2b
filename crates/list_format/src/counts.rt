// Counts over a measurement list.

ghost use Rattle.std.specs.Prelude.{◌≡◌};
ghost use Rattle.std.specs.List.{count_by};

use ima_templates::Entry;

/// The number of violations in the list.
pub fn violations(list: &[Entry]) -> u64
    ensures { result ≡ count_by (λ e. e.violation) list.now }
{
    list.iter()
        .filter(|e| {
            let entry: &Entry = e;
            entry.violation
        })
        .count() as u64
}
