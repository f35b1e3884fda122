//! Which cells of a parameter are asked of a set.

use arch_types::direction::Direction;

/// Those with `from <= time < to`, in milliseconds.
#[derive(Clone, Copy, Debug)]
pub struct CellRange {
    pub from: i64,
    pub to: i64,
    pub direction: Direction,
    /// At most so many, all where it is `None`.
    pub limit: Option<u64>,
}
