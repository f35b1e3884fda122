//! Passes that are split off and joined.

ghost use Rattle.std.specs.Prelude.{◌≤◌, ◌+◌, ◌^◌, [], vec_len, vec_capacity};
ghost use Rattle.std.specs.List.{AllByRecursion};
ghost use Rattle.turn_cell.specs.Pass.{IsFree};
ghost use Rattle.turn_passes.specs.Passes.{AreSplitOff, Joins};

use turn_cell::{Growing, Pass, TurnCell};

/// Splits off so many passes, behind those that are there. There's room for them, and the share lasts.
pub fn split_off<T: Growing>(
    cell: &TurnCell<T>,
    pass: &mut Pass<T>,
    passes: &mut Vec<Pass<T>>,
    count: u64,
)
    requires free { IsFree cell.now pass.old }
    requires others { AllByRecursion (IsFree cell.now) passes.old.items }
    requires room { vec_len passes.old + count ≤ vec_capacity passes.old }
    requires share { 2 ^ count ≤ pass.old.share }
    ensures free { IsFree cell.now pass.new }
    ensures others { AllByRecursion (IsFree cell.now) passes.new.items }
    ensures split { AreSplitOff pass.old pass.new passes.old.items passes.new.items count }
{
    let mut left = count;
    'splits: while left > 0 {
        let other = cell.split(pass);
        passes.push_reserved(other);
        left -= 1;
    }
}

/// Joins passes whose callers have ended.
pub fn join_all<T: Growing>(cell: &TurnCell<T>, pass: &mut Pass<T>, mut passes: Vec<Pass<T>>)
    requires free { IsFree cell.now pass.old }
    requires others { AllByRecursion (IsFree cell.now) passes.items }
    ensures free { IsFree cell.now pass.new }
    ensures joined { Joins passes.items pass.old pass.new [] }
{
    while let Some(other) = passes.pop() {
        cell.join(pass, other);
    }
    // What a pass is of need not be such that it may be dropped, so neither is a list of passes, not even an empty one.
    passes.destroy_empty();
}
