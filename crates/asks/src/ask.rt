//! What is asked of an archive, and the answer.

use arch_types::direction::Direction;
use arch_types::name::{Name, Names};
use item_list::Items;
use packed_cells::PackedCells;

/// The values of a parameter with `from <= time < to`, in milliseconds.
#[derive(Debug, Drop)]
pub struct Request {
    pub parameter: Name,
    pub from: i64,
    pub to: i64,
    pub direction: Direction,
    /// At most so many, all where it is `None`.
    pub limit: Option<u64>,
}

/// The rows of a table with `from <= time < to`, in milliseconds.
#[derive(Debug, Drop)]
pub struct ReplayRequest {
    pub table: Name,
    pub from: i64,
    pub to: i64,
    /// Those of these packet names, all where it is `None`.
    pub names: Option<Names>,
    /// At most so many, all where it is `None`.
    pub limit: Option<u64>,
}

/// The values over the first `front` rows of a history.
#[derive(Debug, Drop)]
pub struct Answer {
    pub front: u64,
    pub cells: PackedCells,
}

/// One line of a sheet of asks.
#[derive(Debug, Drop)]
pub enum Ask {
    Values(Request),
    Replay(ReplayRequest),
}

/// Asks in the order of their sheet.
pub type Asks = Items<Ask>;
