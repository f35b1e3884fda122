//! Laws of the definitions, carried by functions that do nothing.

ghost use Rattle.interval_fills.specs.Laws.{RangeIsInterval, RowsAreThoseBelow, DatabaseIsThatBelow, FilledRowsStay};
ghost use Rattle.interval_fills.specs.Laws.{StepsKeepInvariant, InstallHasOneOutcome, InstalledIsNotLate};
ghost use Rattle.interval_fills.specs.Laws.{FreedIsFree, FreedLeavesRest, AllFreedLeavesBases, NoneIsInFlight};

/// The rows in an interval's range of times are those whose time is in the interval.
pub fn range_is_interval()
    ensures { RangeIsInterval }
{}

/// Where nothing that changes an interval stands at or after a front, its rows are those below the front.
pub fn rows_are_those_below()
    ensures { RowsAreThoseBelow }
{}

/// And the database in force is the one below it.
pub fn database_is_that_below()
    ensures { DatabaseIsThatBelow }
{}

/// An interval that was filled and isn't late has the rows that its last fill had.
pub fn filled_rows_stay()
    ensures { FilledRowsStay }
{}

/// Each step keeps what holds of every state.
pub fn steps_keep_invariant()
    ensures { StepsKeepInvariant }
{}

/// A fill has one outcome.
pub fn install_has_one_outcome()
    ensures { InstallHasOneOutcome }
{}

/// An interval whose fill was installed is neither late nor in flight, and has the fill's base.
pub fn installed_is_not_late()
    ensures { InstalledIsNotLate }
{}

/// A flight that ended is none.
pub fn freed_is_free()
    ensures { FreedIsFree }
{}

/// A flight that ended without a fill leaves each base, and the flights of other intervals.
pub fn freed_leaves_rest()
    ensures { FreedLeavesRest }
{}

/// The end of all flights leaves each base.
pub fn all_freed_leaves_bases()
    ensures { AllFreedLeavesBases }
{}

/// Once each flight ended no interval is in flight.
pub fn none_is_in_flight()
    ensures { NoneIsInFlight }
{}
