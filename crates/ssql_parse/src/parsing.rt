//! Scripts, from their text.

ghost use Rattle.std.specs.Prelude.{◌≡◌, ◌≤◌, length, IfOk, IfErr};
ghost use Rattle.ssql_tokens.specs.Tokens.{AreTokens};
ghost use Rattle.ssql_parse.specs.Grammar.{Spells};
ghost use Rattle.ssql_parse.specs.Limits.{script_limit};
ghost use Rattle.ssql_parse.specs.Parsing.{IsNotAScript, IsScript, IsScriptOf, first_passed, octet_of_left};

use crate::depth::script_depth;
use crate::limits::ScriptQuantity;
use crate::not_a_script::NotAScript;
use crate::reading::Stop;
use crate::script::script;
use crate::statement::Statement;
use arch_types::octets::Octets;
use item_list::Items;
use ssql_tokens::{NotTokens, ScriptTokens, tokens_of};
use std::alloc::{AllocError, Global};
use std::marker::Model;

/// A script as it is written, with the octet at which each of its tokens began. It is within the limits on statements and on depth.
#[derive(Debug, Drop)]
pub struct Script {
    statements: Items<Statement>,
    /// One for each token, the last `;` included where it is written.
    places: Items<u32>,
}

impl Model for Script {
    ghost use Rattle.ssql_parse.specs.Parsing.{IsScript, WrittenScript};

    ghost Value = { WrittenScript };

    ghost view = { λ s. record { statements = s.statements; places = s.places } };

    ghost invariant = { λ s. IsScript s.statements s.places };
}

impl Script {
    /// The statements in their order. Here a caller sees what every script keeps.
    pub fn statements(&self) -> &[Statement]
        ensures value { result.now ≡ self.now.statements }
        ensures script { IsScript self.now.statements self.now.places }
    {
        self.statements.as_slice()
    }

    /// The octet at which each token began, the last `;` included where it is written.
    pub fn places(&self) -> &[u32]
        ensures { result.now ≡ self.now.places }
    {
        self.places.as_slice()
    }
}

/// The octet of the token with so many tokens left, or the text's length where none is left.
fn octet_of_left(text: &[u8], places: &[u32], left: usize) -> u64
    ensures { result ≡ octet_of_left text.now places.now left }
{
    match places.get(places.len().saturating_sub(left)) {
        Some(place) => u64::from(*place),
        None => text.len() as u64,
    }
}

/// The tokens of a text, or where it stops being tokens.
fn text_tokens(alloc: Global, text: &[u8]) -> Result<ScriptTokens, NotAScript>
    requires { length text.now ≤ script_limit ScriptQuantity.Octets }
    ensures found { IfOk result (λ found. AreTokens text.now found.tokens found.places) }
    ensures refused { IfErr result (IsNotAScript text.now) }
{
    let octets = Octets::from_slice(alloc, text)?;
    match tokens_of(alloc, &octets) {
        Ok(read) => Ok(read),
        Err(NotTokens::OutOfMemory) => Err(NotAScript::OutOfMemory),
        Err(NotTokens::NoToken(at)) => Err(NotAScript::BadSql {
            at: u64::from(at),
            rule: 1,
        }),
    }
}

/// The statements that the tokens of a text spell, or the first token with which no script goes on.
fn text_statements(
    alloc: Global,
    text: &[u8],
    read: &ScriptTokens,
) -> Result<Items<Statement>, NotAScript>
    requires short { length text.now ≤ script_limit ScriptQuantity.Octets }
    requires tokens { AreTokens text.now read.now.tokens read.now.places }
    ensures found { IfOk result (λ found. Spells found read.now.tokens) }
    ensures refused { IfErr result (IsNotAScript text.now) }
{
    match script(alloc, read.tokens.as_slice()) {
        Ok(statements) => Ok(statements),
        Err(Stop::Memory) => Err(NotAScript::OutOfMemory),
        Err(Stop::Wrong(left)) => Err(NotAScript::BadSql {
            at: octet_of_left(text, read.places.as_slice(), left),
            rule: 2,
        }),
    }
}

/// The first limit that statements pass.
fn passed_limit(
    alloc: Global,
    statements: &[Statement],
) -> Result<Option<ScriptQuantity>, AllocError>
    ensures { IfOk result (λ passed. passed ≡ first_passed statements.now) }
{
    if statements.len() as u64 > ScriptQuantity::Statements.limit() {
        return Ok(Some(ScriptQuantity::Statements));
    }
    if script_depth(alloc, statements)? as u64 > ScriptQuantity::Depth.limit() {
        return Ok(Some(ScriptQuantity::Depth));
    }
    Ok(None)
}

/// The script that a text spells, or the first of these: it is too long; at an octet no token begins; with a token no statement goes on, or
/// the text ends too early; its statements are too many; one of them nests too deep.
pub fn parse(alloc: Global, text: &[u8]) -> Result<Script, NotAScript>
    ensures found { IfOk result (IsScriptOf text.now) }
    ensures refused { IfErr result (IsNotAScript text.now) }
{
    if text.len() as u64 > ScriptQuantity::Octets.limit() {
        return Err(NotAScript::Limit(ScriptQuantity::Octets));
    }
    let read = text_tokens(alloc, text)?;
    let statements = text_statements(alloc, text, &read)?;
    match passed_limit(alloc, statements.as_slice())? {
        Some(quantity) => Err(NotAScript::Limit(quantity)),
        None => Ok(Script {
            statements,
            places: read.places,
        }),
    }
}
