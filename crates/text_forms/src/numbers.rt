ghost use Rattle.std.specs.Prelude.{◌≡◌, ◌≤◌};
ghost use Rattle.std.specs.Char.{is_digit};
ghost use Rattle.std.specs.List.{list_all};
ghost use Rattle.text_forms.specs.Numbers.{is_short_numeral, number_of, short_number_of};

/// The value of the digits in the radix; letters may be in either case.
///
/// Leading zeros are allowed, and there may be hundreds of digits: only the value matters. `None`
/// if the text is empty, has a byte that isn't a digit, or has a value above `most`.
pub fn number_of(digits: &[u8], radix: u32, most: u64) -> Option<u64>
    requires lowest { 2 ≤ radix }
    requires highest { radix ≤ 36 }
    ensures { result ≡ number_of radix most digits.now }
{
    if digits.is_empty() {
        return None;
    }
    let mut value = 0u64;
    for digit in digits {
        let digit = char::from(*digit).to_digit(radix)?;
        value = value.checked_mul(u64::from(radix))?;
        value = value.checked_add(u64::from(digit))?;
    }
    (value <= most).then_some(value)
}

/// The value of the digits as [`number_of`] reads them, except that leading zeros are refused.
pub fn short_number_of(digits: &[u8], radix: u32, most: u64) -> Option<u64>
    requires lowest { 2 ≤ radix }
    requires highest { radix ≤ 36 }
    ensures { result ≡ short_number_of radix most digits.now }
{
    match digits {
        [b'0', _, ..] => None,
        _ => number_of(digits, radix, most),
    }
}

/// Whether the text has the form that [`short_number_of`] reads, however large its value: at least
/// one digit, and no leading zero before another digit.
pub fn is_short_numeral(text: &[u8], radix: u32) -> bool
    requires lowest { 2 ≤ radix }
    requires highest { radix ≤ 36 }
    ensures { result ≡ is_short_numeral radix text.now }
{
    match text {
        [] | [b'0', _, ..] => false,
        _ => is_all_digits(text, radix),
    }
}

fn is_all_digits(text: &[u8], radix: u32) -> bool
    requires lowest { 2 ≤ radix }
    requires highest { radix ≤ 36 }
    ensures { result ≡ list_all (λ c. is_digit c radix) text.now }
{
    text.iter().all(|b| char::from(*b).is_digit(radix))
}
