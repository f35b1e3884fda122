//! Blanks and comments.

ghost use Rattle.std.specs.Prelude.{◌≡◌, ◌≤◌, length};
ghost use Rattle.ssql_tokens.specs.Blanks as spec;

use crate::octet_kinds::is_blank;

/// A `-` comes next.
fn begins_with_minus(text: &[u8]) -> bool
    ensures { result ≡ spec.begins_with_minus text.now }
{
    match text {
        [] => false,
        [first, ..] => *first == b'-',
    }
}

/// The text from its first octet that stands neither in a blank nor in a comment.
fn skip_blanks(text: &[u8]) -> &[u8]
    ensures value { result.now ≡ spec.skip_blanks text.now }
    ensures within { length result.now ≤ length text.now }
{
    let mut rest = text;
    let mut in_comment = false;
    'octets: loop {
        let [octet, later @ ..] = rest else {
            return rest;
        };
        if in_comment {
            in_comment = *octet != b'\n';
        } else if *octet == b'-' && begins_with_minus(later) {
            in_comment = true;
        } else if !is_blank(*octet) {
            return rest;
        }
        rest = later;
    }
}

/// The first octet from a place on that stands neither in a blank nor in a comment, or the text's length where there is
/// none.
pub(crate) fn next_at(text: &[u8], from: usize) -> usize
    requires { from ≤ length text.now }
    ensures value { result ≡ spec.next_at text.now from }
    ensures behind { from ≤ result }
    ensures within { result ≤ length text.now }
{
    text.len() - skip_blanks(&text[from..]).len()
}
