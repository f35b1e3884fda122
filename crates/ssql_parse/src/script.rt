//! Scripts of statements.

ghost use Rattle.std.specs.Prelude.{◌≡◌, IfOk, IfErr};
ghost use Rattle.ssql_parse.specs.Grammar.{Spells};
ghost use Rattle.ssql_parse.specs.Scripts.{IsStop, GivesScript};

use crate::reading::{Stop, begins};
use crate::statement::{Statement, statement_at};
use item_list::Items;
use ssql_tokens::{Symbol, Token};
use std::alloc::Global;

/// The statements that tokens spell, all of the tokens.
pub(crate) fn script(alloc: Global, tokens: &[Token]) -> Result<Items<Statement>, Stop>
    ensures found { IfOk result (λ statements. Spells statements tokens.now) }
    ensures wrong { IfErr result (IsStop tokens.now) }
{
    script_at(alloc, tokens)
}

/// What the reader of scripts gives.
fn script_at(alloc: Global, tokens: &[Token]) -> Result<Items<Statement>, Stop>
    ensures { GivesScript result tokens.now }
{
    let mut statements = Items::new(alloc);
    let mut rest = tokens;
    'statements: loop {
        if rest.is_empty() {
            return Ok(statements);
        }
        let (statement, later) = statement_at(alloc, rest)?;
        statements.push(statement)?;
        if later.is_empty() {
            return Ok(statements);
        }
        if !begins(Symbol::Semicolon, later) {
            return Err(Stop::Wrong(later.len()));
        }
        rest = &later[1..];
    }
}
