//! Lists of containers.

use item_list::Items;

/// The numbers of containers, from the root on.
pub type Chain = Items<u16>;
