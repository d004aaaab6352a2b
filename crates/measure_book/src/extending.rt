// The effect of an entry on the registers.

ghost use Rattle.std.specs.Prelude.{◌≡◌};
ghost use Rattle.measure_book.specs.Replay.{extended_by};

use ima_templates::Entry;
use pcr_bank::Banks;

/// Extends the entry's register in each bank by the bank's template digest, or by 0xff bytes for a
/// violation.
pub fn extend(banks: &mut Banks, entry: &Entry)
    ensures { banks.new ≡ extended_by banks.old entry.now }
{
    let (sha1, sha256) = entry.extension();
    banks.extend(entry.pcr, &sha1, &sha256);
}
