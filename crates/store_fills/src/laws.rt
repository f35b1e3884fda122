//! Laws of sound fills, carried by functions that do nothing.

ghost use Rattle.store_fills.specs.Laws.{RowsLeaveSound, FillLeavesSound, RightFillStays, WholeFillIsRight};

/// Fills that are sound are so when rows come.
pub fn rows_leave_sound()
    ensures { RowsLeaveSound }
{}

/// Fills that are sound are so when a fill comes that is right for the history.
pub fn fill_leaves_sound()
    ensures { FillLeavesSound }
{}

/// What is built of a late interval's rows over the whole history is right for it.
pub fn whole_fill_is_right()
    ensures { WholeFillIsRight }
{}

/// A fill that is right for a history is right for each that goes on from it.
pub fn right_fill_stays()
    ensures { RightFillStays }
{}
