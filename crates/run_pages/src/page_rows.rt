//! The rows of a page in memory.

ghost use Rattle.std.specs.Prelude.{◌≡◌, length};

use arch_types::row::Rows;
use item_list::Items;

/// Places in a history.
pub type Positions = Items<u64>;

/// The rows of a page in the order of their keys, and the position of each.
#[derive(Drop)]
pub struct PageRows {
    pub rows: Rows,
    pub positions: Positions,
    ghost beside: { length positions ≡ length rows },
}
