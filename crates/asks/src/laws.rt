//! Laws of the definitions, carried by functions that do nothing.

ghost use Rattle.asks.specs.Laws.{BadReplayRangeExactly, BadRequestRangeExactly, ReplayHasRowsExactly, RequestHasAnswerExactly, UnknownParameterExactly, UnknownTableExactly};

/// A request is refused with UnknownParameter exactly where no parameter has its name.
pub fn unknown_parameter_exactly()
    ensures { UnknownParameterExactly }
{}

/// It is refused with BadRange exactly where a parameter has its name and its range ends before it begins.
pub fn bad_request_range_exactly()
    ensures { BadRequestRangeExactly }
{}

/// It isn't refused at all exactly where a parameter has its name and its range doesn't end before it begins.
pub fn request_has_answer_exactly()
    ensures { RequestHasAnswerExactly }
{}

/// A replay is refused with UnknownTable exactly where no table has its name.
pub fn unknown_table_exactly()
    ensures { UnknownTableExactly }
{}

/// It is refused with BadRange exactly where a table has its name and its range ends before it begins.
pub fn bad_replay_range_exactly()
    ensures { BadReplayRangeExactly }
{}

/// It isn't refused at all exactly where a table has its name and its range doesn't end before it begins.
pub fn replay_has_rows_exactly()
    ensures { ReplayHasRowsExactly }
{}
