//! Scripts that a command takes: what their text stands for.

ghost use Rattle.std.specs.Prelude.{◌≡◌, ◌≤◌, ◌^◌, length};
ghost use Rattle.script_answers.specs.Scripts.{IsScriptAnswer, OrNoMemory, limit_of_script, refusal_of_text, refusal_of_typing};

use arch_types::name::Names;
use refusals::{Refusal, Which};
use ssql_parse::{NotAScript, ScriptQuantity, parse};
use ssql_types::not_typed::NotTyped;
use ssql_types::place::ScriptPlace;
use ssql_types::script::{TypedScript, typed};
use std::alloc::Global;

/// The limit of the archive on a quantity of a script.
fn limit_of_script(quantity: ScriptQuantity) -> Which
    ensures { result ≡ limit_of_script quantity }
{
    match quantity {
        ScriptQuantity::Octets => Which::ScriptOctets,
        ScriptQuantity::Statements => Which::Statements,
        ScriptQuantity::Depth => Which::SqlDepth,
    }
}

/// The refusal of a text that is no script.
fn refusal_of_text(fault: NotAScript) -> Refusal
    ensures { result ≡ refusal_of_text fault }
{
    match fault {
        NotAScript::Limit(quantity) => {
            let which = limit_of_script(quantity);
            Refusal::Limit {
                which,
                number: which.limit(),
            }
        }
        NotAScript::BadSql { at, rule } => Refusal::BadSql { at, rule },
        NotAScript::OutOfMemory => Refusal::OutOfMemory,
    }
}

/// The refusal of a script with a token with which something is wrong.
fn refusal_of_typing(fault: NotTyped) -> Refusal
    ensures { result ≡ refusal_of_typing fault }
{
    match fault {
        NotTyped::BadSql { at, rule } => Refusal::BadSql { at, rule },
        NotTyped::UnknownTable { name } => Refusal::UnknownTable { name },
        NotTyped::OutOfMemory => Refusal::OutOfMemory,
    }
}

/// The statements of a text as a script in a place, beside tables and packet names, or why it is refused: by `BadSql` of rule 1 or 2; by `Limit`
/// Statements or SqlDepth; at the first token with which something is wrong by `BadSql` of rule 3 to 8 or by `UnknownTable`. `OutOfMemory` may come
/// in place of any answer.
pub fn typed_text(
    alloc: Global,
    text: &[u8],
    place: ScriptPlace,
    tables: &Names,
    names: &Names,
) -> Result<TypedScript, Refusal>
    requires tables { length tables.now ≤ 16 }
    requires names { length names.now ≤ 2 ^ 16 }
    ensures { OrNoMemory (IsScriptAnswer place tables.now names.now text.now) result }
{
    match parse(alloc, text) {
        Ok(script) => match typed(alloc, &script, place, tables, names) {
            Ok(statements) => Ok(statements),
            Err(fault) => Err(refusal_of_typing(fault)),
        },
        Err(fault) => Err(refusal_of_text(fault)),
    }
}
