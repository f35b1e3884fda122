//! Laws of the definitions, carried by functions that do nothing.

ghost use Rattle.interval_walks.specs.Laws.{FillsLeaveOneLess, IntervalsHaveRows, NoneLateIsNone};
ghost use Rattle.interval_walks.specs.Laws.{RangesAreIntervals, RowsInTurnAreFew, SameIntervalsAreAsMany};

/// Of the rows of the intervals that meet a range, those in the range are the range's.
pub fn ranges_are_intervals()
    ensures { RangesAreIntervals }
{}

/// The rows of intervals that pass a test are at most the rows whose intervals pass it.
pub fn rows_in_turn_are_few()
    ensures { RowsInTurnAreFew }
{}

/// Each interval that has rows is counted, and once.
pub fn intervals_have_rows()
    ensures { IntervalsHaveRows }
{}

/// A fill leaves one late interval less.
pub fn fills_leave_one_less()
    ensures { FillsLeaveOneLess }
{}

/// Where no interval is late, none is counted.
pub fn none_late_is_none()
    ensures { NoneLateIsNone }
{}

/// Two lists of the same intervals, each once, are of one length.
pub fn same_intervals_are_as_many()
    ensures { SameIntervalsAreAsMany }
{}
