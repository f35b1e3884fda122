//! Scripts with their types.

ghost use Rattle.std.specs.Prelude.{◌≡◌, ◌≤◌, ◌^◌, [], length, None, IfOk, IfErr};
ghost use Rattle.ssql_types.specs.Typed as spec;
ghost use Rattle.ssql_types.specs.Typing.{IsNotTyped, typing_fault};

use crate::names::add_created;
use crate::not_typed::NotTyped;
use crate::place::ScriptPlace;
use crate::rules::behind;
use crate::statement::{TypedStatement, typed_statement};
use arch_types::name::Names;
use item_list::Items;
use ssql_parse::Script;
use std::alloc::Global;

/// The statements of a script, in their order.
pub type TypedScript = Items<TypedStatement>;

/// What a script stands for in a place, or the fault of the first token with which something is wrong.
///
/// `tables` are the tables that there are, `tm` the first: that one alone for the script of `create`. `names` are the
/// packet names in the order of their numbers. Any other name in a condition is the name of no packet. There are at most
/// 16 tables and 65,536 names.
///
/// It fails by `UnknownTable`, `BadSql` by rule 3 to 8, or `OutOfMemory`.
pub fn typed(
    alloc: Global,
    script: &Script,
    place: ScriptPlace,
    tables: &Names,
    names: &Names,
) -> Result<TypedScript, NotTyped>
    requires tables { length tables.now ≤ 16 }
    requires names { length names.now ≤ 2 ^ 16 }
    ensures sound { IfOk result (λ _. typing_fault place tables.now script.now ≡ None) }
    ensures typed { IfOk result (λ typed. typed ≡ spec.typed_script tables.now names.now [] script.now.statements) }
    ensures refused { IfErr result (IsNotTyped place tables.now script.now) }
{
    let mut typed = Items::new(alloc);
    let mut created = Names::new(alloc);
    let mut places = script.places();
    for statement in script.statements() {
        let (found, rest) = typed_statement(
            alloc, place, tables, &created, names, statement, places,
        )?;
        typed.push(found)?;
        add_created(&mut created, statement)?;
        // the `;` behind the statement
        places = behind(rest);
    }
    Ok(typed)
}
