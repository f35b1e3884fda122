//! A law of the definitions, carried by a function that does nothing.

ghost use Rattle.ssql_conditions.specs.Laws.{BoundsHold};

/// A row that has its generation time in the clock's range and meets a condition lies in the condition's bounds.
pub fn bounds_hold()
    ensures { BoundsHold }
{}
