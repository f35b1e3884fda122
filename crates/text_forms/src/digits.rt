//! Decimal digits, read.

ghost use Rattle.std.specs.Prelude.{◌≡◌, ◌≤◌, ◌<◌, ◌^◌, length, true, IfSome, OnSome};
ghost use Rattle.std.specs.List.{list_all};
ghost use Rattle.text_forms.specs.Digits.{decimal_value, digits_at_most, is_digit};

/// Whether an octet is a decimal digit in ASCII.
pub fn is_digit(octet: u8) -> bool
    ensures { result ≡ is_digit octet }
{
    octet.is_ascii_digit()
}

/// Whether each octet is a decimal digit in ASCII.
fn are_digits(text: &[u8]) -> bool
    ensures { result ≡ list_all is_digit text.now }
{
    text.iter().all(|octet| is_digit(*octet))
}

/// The number that at most 20 digits spell.
pub fn decimal_value(digits: &[u8]) -> u128
    requires few { length digits.now ≤ 20 }
    requires digits { list_all is_digit digits.now ≡ true }
    ensures value { result ≡ decimal_value digits.now }
    ensures bound { result < 10 ^ length digits.now }
{
    let mut value: u128 = 0;
    for digit in digits {
        value = 10 * value + u128::from(*digit - b'0');
    }
    value
}

/// The number that 1 to `most` digits spell.
pub fn digits_at_most(most: usize, text: &[u8]) -> Option<u128>
    requires { most ≤ 20 }
    ensures value { result ≡ digits_at_most most text.now }
    ensures small { IfSome result (λ n. n < 10 ^ length text.now) }
    ensures short { OnSome result (length text.now ≤ most) }
{
    if !text.is_empty() && text.len() <= most && are_digits(text) {
        Some(decimal_value(text))
    } else {
        None
    }
}

/// The number that 1 to `most` digits spell.
pub fn number_of(most: usize, text: &[u8]) -> Option<u64>
    requires { most ≤ 19 }
    ensures value { result ≡ digits_at_most most text.now }
    ensures small { IfSome result (λ n. n < 10 ^ length text.now) }
    ensures short { OnSome result (length text.now ≤ most) }
{
    Some(digits_at_most(most, text)? as u64)
}
