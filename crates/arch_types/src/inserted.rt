//! What became of rows, and of fills.

use item_list::Items;

/// What became of a row, with a position in the history.
#[derive(Clone, Copy, Debug, PartialEq, Eq)]
pub enum Inserted {
    /// It is new, and stands at this position.
    New(u64),
    /// The row at this position has its table and key, and stays as it is.
    Duplicate(u64),
}

/// What became of a fill.
#[derive(Clone, Copy, Debug, PartialEq, Eq)]
pub enum Installed {
    /// The interval has the fill's segments.
    Done,
    /// A row of the interval stands at or after the fill's base, the last of them at this position.
    Stale { position: u64 },
}

/// What became of rows, in their order.
pub type Outcomes = Items<Inserted>;
