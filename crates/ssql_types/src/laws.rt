//! Laws of the definitions, carried by functions that do nothing.

ghost use Rattle.ssql_types.specs.CreatedTables.{CreatedTablesAreDistinct};
ghost use Rattle.ssql_types.specs.Laws.{ConditionIsFormula, EachTokenIsAsked, TypedNamesTables};

/// There is a fault or none for each token of a script.
pub fn each_token_is_asked()
    ensures { EachTokenIsAsked }
{}

/// The formula of a condition's pieces is the one by cases on the grammar.
pub fn condition_is_formula()
    ensures { ConditionIsFormula }
{}

/// Where nothing is wrong with a script of `create`, no two of its tables have one name, and none has that of a table
/// that there is.
pub fn created_tables_are_distinct()
    ensures { CreatedTablesAreDistinct }
{}

/// Where nothing is wrong with a script, its tables are among those that there are.
pub fn typed_names_tables()
    ensures { TypedNamesTables }
{}
