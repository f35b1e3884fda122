//! The token at a place of a script.

ghost use Rattle.std.specs.Prelude.{◌≡◌, ◌<◌, drop, length, true, IfOk};
ghost use Rattle.ssql_tokens.specs.TokenTexts as texts;
ghost use Rattle.ssql_tokens.specs.Tokenizing as spec;

use crate::lengths::{number_len, word_len};
use crate::octet_kinds::{QUOTE, is_letter};
use crate::strings::{string_len, unquoted};
use crate::symbols::{read_column, read_keyword, read_operator, read_punctuation};
use crate::token::Token;
use arch_types::name::Name;
use arch_types::octets::Octets;
use std::alloc::{AllocError, Global};
use text_forms::is_digit;

/// The keyword or the column that octets are, or else the name.
fn word_of(octets: Octets) -> Option<Token>
    ensures { result ≡ texts.word_of octets }
{
    if let Some(keyword) = read_keyword(octets.as_slice()) {
        return Some(Token::Symbol(keyword));
    }
    if let Some(column) = read_column(octets.as_slice()) {
        return Some(Token::Column(column));
    }
    Some(Token::Name(Name::of(octets)?))
}

/// The word at a place where a letter stands, and its length.
fn word_at(script: &Octets, at: usize) -> Result<Option<(Token, usize)>, AllocError>
    requires within { at < length script.now }
    requires letter { spec.begins_with texts.is_letter (drop at script.now) ≡ true }
    ensures { IfOk result (spec.IsFoundFirst (drop at script.now)) }
{
    let len = word_len(&script.as_slice()[at..]);
    let octets = script.slice(at, at + len)?;
    match word_of(octets) {
        None => Ok(None),
        Some(token) => Ok(Some((token, len))),
    }
}

/// The number at a place where a digit or `-` stands, and its length.
fn number_at(script: &Octets, at: usize) -> Result<Option<(Token, usize)>, AllocError>
    requires within { at < length script.now }
    requires number { spec.begins_with spec.begins_number (drop at script.now) ≡ true }
    ensures { IfOk result (spec.IsFoundFirst (drop at script.now)) }
{
    let Some(len) = number_len(&script.as_slice()[at..]) else {
        return Ok(None);
    };
    let octets = script.slice(at, at + len)?;
    Ok(Some((Token::Number(octets), len)))
}

/// The string at a place where a quote stands, and its length.
fn string_at(
    alloc: Global,
    script: &Octets,
    at: usize,
) -> Result<Option<(Token, usize)>, AllocError>
    requires within { at < length script.now }
    requires quote { spec.begins_with spec.begins_string (drop at script.now) ≡ true }
    ensures { IfOk result (spec.IsFoundFirst (drop at script.now)) }
{
    let Some(len) = string_len(&script.as_slice()[at + 1..]) else {
        return Ok(None);
    };
    let octets = unquoted(alloc, &script.as_slice()[at + 1..at + 1 + len])?;
    Ok(Some((Token::Quoted(octets), len + 1)))
}

/// The punctuation or the operator that octets are.
fn punctuation_token(octets: &[u8]) -> Option<Token>
    ensures { result ≡ texts.punctuation_token octets.now }
{
    if let Some(symbol) = read_punctuation(octets) {
        return Some(Token::Symbol(symbol));
    }
    Some(Token::Operator(read_operator(octets)?))
}

/// The punctuation or the operator that the first two octets of a text are.
fn pair_token(text: &[u8]) -> Option<Token>
    ensures { result ≡ spec.pair_token text.now }
{
    if text.len() > 1 {
        punctuation_token(&text[..2])
    } else {
        None
    }
}

/// The punctuation or the operator at the front of a text, and its length.
fn punctuation_at(text: &[u8]) -> Option<(Token, usize)>
    requires some { 0 < length text.now }
    requires punctuation { spec.begins_with spec.begins_punctuation text.now ≡ true }
    ensures { spec.IsFoundFirst text.now result }
{
    if let Some(token) = pair_token(text) {
        return Some((token, 2));
    }
    match punctuation_token(&text[..1]) {
        None => None,
        Some(token) => Some((token, 1)),
    }
}

/// The longest token that begins at a place of a script, and its length, or nothing where none begins there.
pub(crate) fn token_at(
    alloc: Global,
    script: &Octets,
    at: usize,
) -> Result<Option<(Token, usize)>, AllocError>
    requires { at < length script.now }
    ensures { IfOk result (spec.IsFoundFirst (drop at script.now)) }
{
    let octet = script.as_slice()[at];
    if is_letter(octet) {
        word_at(script, at)
    } else if octet == QUOTE {
        string_at(alloc, script, at)
    } else if is_digit(octet) || octet == b'-' {
        number_at(script, at)
    } else {
        Ok(punctuation_at(&script.as_slice()[at..]))
    }
}
