//! Laws of the definitions, carried by functions that do nothing.

ghost use Rattle.shared_history.specs.Laws.{TurnPutsMore, PutStays, BatchIsSent, SentStays};
ghost use Rattle.shared_history.specs.Laws.{EachRowIsOfALink, RowsOfALink, OneLinkIngests};

/// What a turn of a link puts stands behind what it had put.
pub fn turn_puts_more()
    ensures { TurnPutsMore }
{}

/// What was put stays as the history goes on.
pub fn put_stays()
    ensures { PutStays }
{}

/// A batch that is ingested in a turn is sent, whatever others put before it.
pub fn batch_is_sent()
    ensures { BatchIsSent }
{}

/// What was sent stays so as the history goes on.
pub fn sent_stays()
    ensures { SentStays }
{}

/// Each item behind the old ones is a row that a link put.
pub fn each_row_is_of_a_link()
    ensures { EachRowIsOfALink }
{}

/// The rows behind the old ones that have a link's number are what it put, in its order.
pub fn rows_of_a_link()
    ensures { RowsOfALink }
{}

/// Where one link put all, the history is the old one followed by its arrivals.
pub fn one_link_ingests()
    ensures { OneLinkIngests }
{}
