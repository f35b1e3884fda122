//! The items of a history.

use arch_types::row::Row;
use mdb_model::Mdb;

/// An item of a history. None is made while the program runs: a history in memory keeps its rows, and contracts speak
/// of the items.
#[derive(Drop)]
pub enum Item {
    /// A row.
    Row(Row),
    /// A mission database, in force from here on. Nothing adds one yet.
    Mdb(Mdb),
}
