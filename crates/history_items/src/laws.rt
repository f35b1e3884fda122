//! Laws of the definitions, carried by functions that do nothing.

ghost use Rattle.history_items.specs.Laws.{PartsHaveTheirOwn, RowsAreRows, RowsComeToRows, PlacesGoOn, RowsBelowFront, RowsKeepDatabase, NamesKeepPlaces, EachNameHasPlace};
ghost use Rattle.history_items.specs.Laws.{OneOutcomePerRow, OutcomesSay, FreshRowsAreAdded, IngestAddsRowsInOrder, FreshRowsAreNew, NewInTurn};
ghost use Rattle.history_items.specs.Laws.{LastIsGreatest, LastAfterRow, LastAfterDatabase, LateByLast};
ghost use Rattle.history_items.specs.Laws.{BaseIsOfLastDone, FlightIsBegunLast, FlightsAreInFlight, BasesAfterItem, FaultsAfterItems, CountsGoOn, ReopenSettles};

/// The rows and databases of items in two parts are those of the parts.
pub fn parts_have_their_own()
    ensures { PartsHaveTheirOwn }
{}

/// Items of rows are these rows, and no database.
pub fn rows_are_rows()
    ensures { RowsAreRows }
{}

/// Rows that come to a history come to its rows.
pub fn rows_come_to_rows()
    ensures { RowsComeToRows }
{}

/// The placed rows of items in two parts are those of the parts.
pub fn places_go_on()
    ensures { PlacesGoOn }
{}

/// The rows below a front are those of the first items.
pub fn rows_below_front()
    ensures { RowsBelowFront }
{}

/// Rows change neither the database in force nor the packet names.
pub fn rows_keep_database()
    ensures { RowsKeepDatabase }
{}

/// The packet names that are there keep their places.
pub fn names_keep_places()
    ensures { NamesKeepPlaces }
{}

/// Each name of the database in force has a place.
pub fn each_name_has_place()
    ensures { EachNameHasPlace }
{}

/// A batch has one outcome per row.
pub fn one_outcome_per_row()
    ensures { OneOutcomePerRow }
{}

/// New is answered exactly where the row is appended at that position, and Duplicate exactly where the row at that
/// position has its table and key.
pub fn outcomes_say()
    ensures { OutcomesSay }
{}

/// An ingest puts the rows that are new behind the history.
pub fn fresh_rows_are_added()
    ensures { FreshRowsAreAdded }
{}

/// What an ingest puts behind the history are rows of the batch, in its order.
pub fn ingest_adds_rows_in_order()
    ensures { IngestAddsRowsInOrder }
{}

/// The rows that are new are a batch of which each is new.
pub fn fresh_rows_are_new()
    ensures { FreshRowsAreNew }
{}

/// Rows are all new exactly where each is, in turn.
pub fn new_in_turn()
    ensures { NewInTurn }
{}

/// The last change of an interval has the greatest position.
pub fn last_is_greatest()
    ensures { LastIsGreatest }
{}

/// The last change of an interval after one more row.
pub fn last_after_row()
    ensures { LastAfterRow }
{}

/// The last change of an interval after one more database.
pub fn last_after_database()
    ensures { LastAfterDatabase }
{}

/// The last change of an interval decides whether it is late.
pub fn late_by_last()
    ensures { LateByLast }
{}

/// The base of an interval is that of its last Done.
pub fn base_is_of_last_done()
    ensures { BaseIsOfLastDone }
{}

/// An interval is in flight exactly where a Begun of it is the last that is said of its flight.
pub fn flight_is_begun_last()
    ensures { FlightIsBegunLast }
{}

/// The list of flights has the intervals that are in flight.
pub fn flights_are_in_flight()
    ensures { FlightsAreInFlight }
{}

/// Bases and flights after one more item.
pub fn bases_after_item()
    ensures { BasesAfterItem }
{}

/// What is held and what stands after more items.
pub fn faults_after_items()
    ensures { FaultsAfterItems }
{}

/// Counts of faults go on rising.
pub fn counts_go_on()
    ensures { CountsGoOn }
{}

/// A reopen takes away the pending fault, and nothing else.
pub fn reopen_clears()
    ensures { ReopenSettles }
{}
