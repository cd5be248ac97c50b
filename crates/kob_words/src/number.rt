//! How a number is read: decimal digits without a sign, of at most 64 bits.

ghost use Rattle.std.specs.Char.{digit_value, is_ascii_digit};
ghost use Rattle.std.specs.Prelude.{◌≡◌, ◌≤◌, ◌+◌, ◌*◌, ◌^◌, true, MatchOption};
ghost use Rattle.kob_words.specs.Words.{decimal_in};

/// The number that bytes write. None if one of them is no decimal digit, if there are none, or if
/// the number has more than 64 bits.
pub fn decimal_in(digits: &[u8]) -> Option<u64>
    ensures { result ≡ decimal_in digits.now }
{
    let mut number: u64 = 0;
    for digit in digits {
        match with_digit(number, *digit) {
            Some(longer) => number = longer,
            None => return None,
        }
    }
    if digits.is_empty() {
        return None;
    }
    Some(number)
}

/// A number with a decimal digit more, if it is of 64 bits.
pub fn with_digit(number: u64, digit: u8) -> Option<u64>
    ensures { MatchOption result
        (is_ascii_digit digit ≡ true → 2 ^ 64 ≤ number * 10 + digit_value digit) (λ longer.
        (is_ascii_digit digit ≡ true) × (longer ≡ number * 10 + digit_value digit)) }
{
    if !digit.is_ascii_digit() {
        return None;
    }
    let tens = number.checked_mul(10)?;
    tens.checked_add((digit - b'0') as u64)
}
