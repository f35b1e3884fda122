//! Strings, behind their first quote.

ghost use Rattle.std.specs.Prelude.{◌≡◌, ◌≤◌, length, IfOk, IfSome};
ghost use Rattle.ssql_tokens.specs.Lengths as lengths;
ghost use Rattle.ssql_tokens.specs.TokenTexts as spec;

use crate::octet_kinds::{QUOTE, is_string_octet};
use arch_types::octets::Octets;
use std::alloc::{AllocError, Global};

/// How many octets the longest string has behind its first quote, its last quote included, where there is one. A string that
/// may go on behind a doubled quote ends at the last place where it could, if it comes to no end.
pub(crate) fn string_len(text: &[u8]) -> Option<usize>
    ensures value { result ≡ lengths.string_len text.now }
    ensures within { IfSome result (λ len. len ≤ length text.now) }
{
    let mut at = 0;
    let mut last = None;
    'octets: while at < text.len() {
        let octet = text[at];
        if octet == QUOTE {
            if at + 1 < text.len() && text[at + 1] == QUOTE {
                last = Some(at + 1);
                at += 2;
            } else {
                return Some(at + 1);
            }
        } else if is_string_octet(octet) {
            at += 1;
        } else {
            return last;
        }
    }
    last
}

/// What stands in a string, with one quote for two: of the octets behind its first quote, the last quote included.
pub(crate) fn unquoted(alloc: Global, text: &[u8]) -> Result<Octets, AllocError>
    ensures { IfOk result (λ octets. octets ≡ spec.unquoted text.now) }
{
    let mut octets = Vec::new(alloc);
    let mut at = 0;
    let mut behind_quote = false;
    'octets: while at < text.len() {
        let octet = text[at];
        at += 1;
        if behind_quote {
            octets.push(QUOTE)?;
            behind_quote = false;
        } else if octet == QUOTE {
            behind_quote = true;
        } else {
            octets.push(octet)?;
        }
    }
    Octets::from_vec(alloc, octets)
}
