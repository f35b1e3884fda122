//! Laws of tables whose stored rows are those of a history at their positions, carried by functions that do nothing.

ghost use Rattle.yarch_table.specs.Laws.{SeenIsTable, SeenIsRange, WalkHasEach, WalkIsTable, InsertIngests, IngestKeepsOthers, FromFirstIsAll, SeenFromIsTable, InsertFromIngests, IngestFromKeepsOthers, NewComesLast, DuplicateIsKnown};

/// What is seen at a front is the table of the history's prefix.
pub fn seen_is_table()
    ensures { SeenIsTable }
{}

/// What is seen at a front in a range of times is the range of the history's prefix.
pub fn seen_is_range()
    ensures { SeenIsRange }
{}

/// The rows in the order of their keys are the stored rows, each once, with its position.
pub fn walk_has_each()
    ensures { WalkHasEach }
{}

/// Without their positions they are the table of the history from a place on.
pub fn walk_is_table()
    ensures { WalkIsTable }
{}

/// An insert at the history's end ingests the row.
pub fn insert_ingests()
    ensures { InsertIngests }
{}

/// A row that is ingested leaves the other tables.
pub fn ingest_keeps_others()
    ensures { IngestKeepsOthers }
{}

/// A table of the rows from the first place on has all.
pub fn from_first_is_all()
    ensures { FromFirstIsAll }
{}

/// What is seen at a front of a table of the rows from a place on is the table of those between the two.
pub fn seen_from_is_table()
    ensures { SeenFromIsTable }
{}

/// An insert into it at the history's end ingests the row, where none before the place has its table and key.
pub fn insert_from_ingests()
    ensures { InsertFromIngests }
{}

/// A row that is ingested leaves the other tables of the rows from a place on.
pub fn ingest_from_keeps_others()
    ensures { IngestFromKeepsOthers }
{}

/// A new row comes to the history's end.
pub fn new_comes_last()
    ensures { NewComesLast }
{}

/// A duplicate leaves the history, in which the row at the position told has its table and key.
pub fn duplicate_is_known()
    ensures { DuplicateIsKnown }
{}
