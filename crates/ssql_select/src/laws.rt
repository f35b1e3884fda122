//! A law of the definitions, carried by a function that does nothing.

ghost use Rattle.ssql_select.specs.Laws.{PrunedHoldsSelected};

/// Partitions that were pruned to the bounds of a condition, for each source, hold all that is selected of rows whose generation
/// times are the clock's.
pub fn pruned_holds_selected()
    ensures { PrunedHoldsSelected }
{}
