//! Which octets may stand where.

ghost use Rattle.std.specs.Prelude.{◌≡◌};
ghost use Rattle.ssql_tokens.specs.TokenTexts as spec;

use text_forms::is_digit;

/// The octet that opens and closes a string.
pub const QUOTE: u8 = b'\'';

/// Whether an octet is a space, a tab, a carriage return or a line feed.
pub(crate) fn is_blank(octet: u8) -> bool
    ensures { result ≡ spec.is_blank octet }
{
    matches!(octet, b' ' | b'\t' | b'\r' | b'\n')
}

/// Whether an octet is a letter or `_`.
pub(crate) fn is_letter(octet: u8) -> bool
    ensures { result ≡ spec.is_letter octet }
{
    matches!(octet, b'A'..=b'Z' | b'a'..=b'z' | b'_')
}

/// Whether an octet is a letter, a digit or `_`.
pub(crate) fn is_word_octet(octet: u8) -> bool
    ensures { result ≡ spec.is_word_octet octet }
{
    is_letter(octet) || is_digit(octet)
}

/// Whether an octet may stand in a string.
pub(crate) fn is_string_octet(octet: u8) -> bool
    ensures { result ≡ spec.is_string_octet octet }
{
    matches!(octet, 32..=126)
}
