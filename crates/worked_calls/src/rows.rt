// The lines that are printed for cases.
use std::io;

/// Prints a line, and returns whether the case holds.
pub fn row(rt: &impl Print, family: &str, name: &str, holds: bool) -> io::Result<bool> {
    println!(rt; "{family}: {name}{}", if holds { "" } else { ": DIFFERS" })?;
    Ok(holds)
}

/// Prints a line for each of these, and returns whether all hold.
pub fn all_hold(rt: &impl Print, family: &str, tried: &[(&str, bool)]) -> io::Result<bool> {
    let mut all = true;
    for (name, holds) in tried {
        all &= row(rt, family, name, *holds)?;
    }
    Ok(all)
}
