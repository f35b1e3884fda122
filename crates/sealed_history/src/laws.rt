//! Laws of the definitions, carried by functions that do nothing.

ghost use Rattle.sealed_history.specs.Laws.{CountedPartitionsAreItems, CountedSpansAreItems, PlainIsWhole, WholeIsWithin};

/// Limits of rows in runs and in a log are the limits of the history that they are.
pub fn whole_is_within()
    ensures { WholeIsWithin }
{}

/// Where runs and log are a whole history, the rows that are counted are its rows.
pub fn counted_are_items()
    ensures partitions { CountedPartitionsAreItems }
    ensures spans { CountedSpansAreItems }
{}

/// A log without runs is a whole history.
pub fn plain_is_whole()
    ensures { PlainIsWhole }
{}
