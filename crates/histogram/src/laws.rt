//! Laws of the definitions, carried by functions that do nothing.

ghost use Rattle.std.specs.Prelude.{ℤ, List, int_lt, IsPermutation};
ghost use Rattle.arch_types.specs.Order.{order_by};
ghost use Rattle.histogram.specs.Times.{AreSorted};

/// Times put in order are sorted, and are the same times: so `spans_of_times` cuts each time between its neighbours.
pub fn times_are_sorted()
    ensures sorted { (times : List ℤ) → AreSorted (order_by int_lt times) }
    ensures same { (times : List ℤ) → IsPermutation times (order_by int_lt times) }
{}
