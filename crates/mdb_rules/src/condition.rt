//! The text of a condition.

ghost use Rattle.std.specs.Prelude.{◌≡◌, ◌≤◌, ◌<◌, ◌==◌, ◌∷◌, not, length, drop, option_copied, IfOk, IfSome};
ghost use Rattle.std.specs.List.{list_all};
ghost use Rattle.mdb_items.specs.Conditions.{after, comparison, comparison_named, comparison_of, comparison_with, condition, front, front_len, is_no_semicolon, is_no_space, is_operator_octet, is_space, operator_of, pieces, pieces_after};
ghost use Rattle.text_forms.specs.Names.{is_name_octet};

use crate::name_index::NameIndex;
use item_list::items::Items;
use mdb_items::container::{Comparison, Operator};
use mdb_items::texts::whole_number;
use std::alloc::{AllocError, Global};
use text_forms::is_name_octet;

fn is_space(octet: u8) -> bool
    ensures { result ≡ is_space octet }
{
    octet == b' '
}

fn is_operator_octet(octet: u8) -> bool
    ensures { result ≡ is_operator_octet octet }
{
    matches!(octet, b'!' | b'<' | b'=' | b'>')
}

fn spaces_len(text: &[u8]) -> usize
    ensures value { result ≡ front_len is_space text.now }
    ensures within { result ≤ length text.now }
{
    text.iter().take_while(|b| is_space(**b)).count()
}

fn name_len(text: &[u8]) -> usize
    ensures value { result ≡ front_len is_name_octet text.now }
    ensures within { result ≤ length text.now }
{
    text.iter().take_while(|b| is_name_octet(**b)).count()
}

fn operator_len(text: &[u8]) -> usize
    ensures value { result ≡ front_len is_operator_octet text.now }
    ensures within { result ≤ length text.now }
{
    text.iter().take_while(|b| is_operator_octet(**b)).count()
}

fn word_len(text: &[u8]) -> usize
    ensures value { result ≡ front_len is_no_space text.now }
    ensures within { result ≤ length text.now }
{
    text.iter().take_while(|b| !is_space(**b)).count()
}

fn piece_len(text: &[u8]) -> usize
    ensures value { result ≡ front_len is_no_semicolon text.now }
    ensures within { result ≤ length text.now }
{
    text.iter().take_while(|b| **b != b';').count()
}

fn are_spaces(text: &[u8]) -> bool
    ensures { result ≡ list_all is_space text.now }
{
    text.iter().all(|b| is_space(*b))
}

fn after_spaces(text: &[u8]) -> &[u8]
    ensures { result.now ≡ after is_space text.now }
{
    let len = spaces_len(text);
    &text[len..]
}

fn operator_of(text: &[u8]) -> Option<Operator>
    ensures { result ≡ operator_of text.now }
{
    if text == b"==".as_slice() {
        Some(Operator::Equal)
    } else if text == b"!=".as_slice() {
        Some(Operator::NotEqual)
    } else if text == b"<".as_slice() {
        Some(Operator::Less)
    } else if text == b"<=".as_slice() {
        Some(Operator::LessOrEqual)
    } else if text == b">".as_slice() {
        Some(Operator::Greater)
    } else if text == b">=".as_slice() {
        Some(Operator::GreaterOrEqual)
    } else {
        None
    }
}

/// A number, and then spaces alone.
fn comparison_with(
    parameter: Option<usize>,
    operator: Option<Operator>,
    text: &[u8],
) -> Option<Comparison>
    ensures { result ≡ comparison_with parameter operator text.now }
{
    let Some(parameter) = parameter else {
        return None;
    };
    let Some(operator) = operator else {
        return None;
    };
    let len = word_len(text);
    let Some(number) = whole_number(&text[..len]) else {
        return None;
    };
    if are_spaces(&text[len..]) {
        Some(Comparison {
            parameter,
            operator,
            number,
        })
    } else {
        None
    }
}

/// An operator, and then a number, with spaces around each.
fn comparison_of(parameter: Option<usize>, text: &[u8]) -> Option<Comparison>
    ensures { result ≡ comparison_of parameter text.now }
{
    let len = operator_len(text);
    comparison_with(
        parameter,
        operator_of(&text[..len]),
        after_spaces(&text[len..]),
    )
}

fn name_front(text: &[u8]) -> &[u8]
    ensures { result.now ≡ front is_name_octet text.now }
{
    let len = name_len(text);
    &text[..len]
}

fn after_name(text: &[u8]) -> &[u8]
    ensures { result.now ≡ after is_name_octet text.now }
{
    let len = name_len(text);
    &text[len..]
}

/// A parameter's name, and then an operator and a number, with spaces around each.
fn comparison_named(parameters: &NameIndex, text: &[u8]) -> Option<Comparison>
    ensures { result ≡ comparison_named parameters.now text.now }
{
    comparison_of(
        parameters.number(name_front(text)),
        after_spaces(after_name(text)),
    )
}

/// A parameter's name, an operator and a whole number, with spaces around each.
fn comparison(parameters: &NameIndex, text: &[u8]) -> Option<Comparison>
    ensures { result ≡ comparison parameters.now text.now }
{
    comparison_named(parameters, after_spaces(text))
}

/// The octets from a place on.
fn from_place(text: &[u8], start: usize) -> &[u8]
    requires { start ≤ length text.now }
    ensures { result.now ≡ drop start text.now }
{
    &text[start..]
}

/// The piece before the first `;`, and what comes after that.
fn cut(text: &[u8]) -> (&[u8], Option<&[u8]>)
    ensures cut { pieces text.now ≡ result.0.now ∷ pieces_after (option_copied result.1) }
    ensures shorter { IfSome result.1 (λ rest. length rest.now < length text.now) }
{
    let len = piece_len(text);
    if len == text.len() {
        return (text, None);
    }
    (&text[..len], Some(from_place(text, len + 1)))
}

/// Comparisons joined by `;`, and none where the text is empty.
pub fn condition(
    alloc: Global,
    parameters: &NameIndex,
    text: &[u8],
) -> Result<Option<Items<Comparison>>, AllocError>
    ensures { IfOk result (λ c. c ≡ condition parameters.now text.now) }
{
    let mut comparisons = Items::new(alloc);
    if text.is_empty() {
        return Ok(Some(comparisons));
    }
    let mut rest = text;
    'pieces: loop {
        let (piece, later) = cut(rest);
        let Some(comparison) = comparison(parameters, piece) else {
            return Ok(None);
        };
        comparisons.push(comparison)?;
        let Some(next) = later else {
            return Ok(Some(comparisons));
        };
        rest = next;
    }
}
