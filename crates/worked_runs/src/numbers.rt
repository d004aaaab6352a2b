// Numbers of cases.

/// The number with these digits, or the greatest one, if they are no number.
pub fn number(digits: &str) -> u32 {
    digits.parse().unwrap_or(u32::MAX)
}
