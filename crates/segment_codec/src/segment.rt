//! What a segment holds.

use arch_types::key::Key;
use item_list::Items;

/// The number of rows that a segment has at most.
pub const MOST_ROWS: u16 = 4096;

/// Numbers of parameters, in the order of extraction.
pub type ParameterList = Items<u16>;

/// Keys in rising order.
pub type KeyList = Items<Key>;

/// One parameter's raw values, one a row.
pub type RawColumn = Items<i128>;

/// Raw columns, one a parameter.
pub type ColumnList = Items<RawColumn>;

/// The raw values of some parameters in the same rows. Which there are is `IsSegment` of specs/Segment.antt.
#[derive(Debug, Drop)]
pub struct Segment {
    /// Which parameters.
    pub parameters: ParameterList,
    /// The key of each row.
    pub keys: KeyList,
    /// A column for each parameter, in their order, with a value for each row.
    pub columns: ColumnList,
}
