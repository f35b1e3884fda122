//! Where a number belongs.

ghost use Rattle.std.specs.Prelude.{◌≤◌, ◌<◌, length, take, drop, map};
ghost use Rattle.std.specs.Arc.{arc_value};
ghost use Rattle.shared_items.specs.Blocks.{AreBlocks, IsBlockFor};
ghost use Rattle.shared_items.specs.Order.{AllBelow, AllFrom, RiseBy};

use crate::block::Block;
use crate::numbered::Numbered;
use std::alloc::Global;
use std::sync::Arc;

/// How many items have numbers below this one.
pub(crate) fn place_of<T: Numbered>(items: &[Arc<T, Global>], number: i64) -> usize
    requires { RiseBy T.number_of (map arc_value items.now) }
    ensures within { result ≤ length items.now }
    ensures below { AllBelow T.number_of number (map arc_value (take result items.now)) }
    ensures from { AllFrom T.number_of number (map arc_value (drop result items.now)) }
{
    let mut low = 0;
    let mut high = items.len();
    while low < high {
        let middle = low + (high - low) / 2;
        if items[middle].number() < number {
            low = middle + 1;
        } else {
            high = middle;
        }
    }
    low
}

/// The block that a number belongs in: the last that begins at or below it, or the first.
pub(crate) fn block_for<T: Numbered>(blocks: &[Arc<Block<T>, Global>], number: i64) -> usize
    requires some { 0 < length blocks.now }
    requires blocks { AreBlocks T.number_of (map arc_value blocks.now) }
    ensures { IsBlockFor T.number_of number (map arc_value blocks.now) result }
{
    let mut low = 0;
    let mut high = blocks.len();
    while high - low > 1 {
        let middle = low + (high - low) / 2;
        if blocks[middle].begins_above(number) {
            high = middle;
        } else {
            low = middle;
        }
    }
    low
}
