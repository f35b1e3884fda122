//! How long the longest word and the longest number at a front are.

ghost use Rattle.std.specs.Prelude.{◌≡◌, ◌≤◌, length, take_while, IfSome};
ghost use Rattle.text_forms.specs.Digits.{is_digit};
ghost use Rattle.ssql_tokens.specs.Lengths as spec;
ghost use Rattle.ssql_tokens.specs.TokenTexts.{is_word_octet};

use crate::octet_kinds::is_word_octet;
use text_forms::is_digit;

/// The most octets of a word.
const MOST_WORD_OCTETS: usize = 64;

/// The most digits of a number.
const MOST_DIGITS: usize = 20;

/// How many octets at the front may stand in a word.
fn leading_word_octets(text: &[u8]) -> usize
    ensures value { result ≡ length (take_while is_word_octet text.now) }
    ensures within { result ≤ length text.now }
{
    text.iter()
        .take_while(|octet| is_word_octet(**octet))
        .count()
}

/// How many digits stand at the front.
fn leading_digits(text: &[u8]) -> usize
    ensures value { result ≡ length (take_while is_digit text.now) }
    ensures within { result ≤ length text.now }
{
    text.iter().take_while(|octet| is_digit(**octet)).count()
}

/// How many octets at the front may stand in a word, at most 64. No more of them are looked at.
pub(crate) fn word_len(text: &[u8]) -> usize
    ensures value { result ≡ spec.word_len text.now }
    ensures within { result ≤ length text.now }
{
    leading_word_octets(&text[..text.len().min(MOST_WORD_OCTETS)])
}

/// How many digits stand at the front, at most 20. No more octets are looked at.
fn bounded_digits(text: &[u8]) -> usize
    ensures value { result ≡ spec.leading_len is_digit 20 text.now }
    ensures within { result ≤ length text.now }
{
    leading_digits(&text[..text.len().min(MOST_DIGITS)])
}

/// How many digits stand at the front, at most 20, where there is one.
fn digits_len(text: &[u8]) -> Option<usize>
    ensures value { result ≡ spec.digits_len text.now }
    ensures within { IfSome result (λ len. len ≤ length text.now) }
{
    let len = bounded_digits(text);
    if len == 0 { None } else { Some(len) }
}

/// How many octets the longest number at the front has, where there is one.
pub(crate) fn number_len(text: &[u8]) -> Option<usize>
    ensures value { result ≡ spec.number_len text.now }
    ensures within { IfSome result (λ len. len ≤ length text.now) }
{
    match text {
        [b'-', rest @ ..] => Some(digits_len(rest)? + 1),
        _ => digits_len(text),
    }
}
