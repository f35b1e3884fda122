//! Values of parameters.

use crate::key::Key;
use item_list::Items;

/// A calibrated value.
#[derive(Clone, Copy, Debug, PartialEq, Eq)]
pub enum Eng {
    /// The raw value itself.
    Whole,
    /// So many millionths.
    Fixed(i64),
    /// The label at this row of an enumeration, counted from 0.
    Label(u16),
    /// The enumeration has no label for the raw value.
    Undef,
}

/// A parameter's value in one packet.
#[derive(Clone, Copy, Debug, PartialEq, Eq)]
pub struct Cell {
    pub key: Key,
    pub raw: i128,
    pub eng: Eng,
}

/// Cells in some order.
pub type Cells = Items<Cell>;
