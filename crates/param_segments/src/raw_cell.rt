//! A parameter's raw values in rows.

use arch_types::key::Key;
use item_list::Items;

/// A raw number at its row's key. The order is that of the keys.
#[derive(Clone, Copy, Debug, PartialEq, Eq, PartialOrd, Ord)]
pub struct RawCell {
    pub key: Key,
    pub raw: i128,
}

/// Raw cells in the order of their keys.
pub type RawCells = Items<RawCell>;
