//! The marks of rows at positions.

ghost use Rattle.std.specs.Prelude.{◌≡◌, ℕ, ◌<◌, ◌++◌, List, length, OnOk};
ghost use Rattle.std.specs.List.{zip};
ghost use Rattle.arch_types.specs.declared.row.Row.{Row as ARow};
ghost use Rattle.fill_tracker.specs.Placed.{AreMarksOfPlaced};
ghost use Rattle.late_marks.specs.Mark.{IsLast};
ghost use Rattle.sealed_sums.specs.Stretch.{IsStretchOf};

use crate::stretch::Stretch;
use archive_history::history::TM;
use fill_tracker::FillTracker;
use std::alloc::AllocError;

/// The greatest of some positions.
fn greatest(positions: &[u64]) -> u64
    requires { 0 < length positions.now }
    ensures { IsLast positions.now result }
{
    let mut last = positions[0];
    for position in positions {
        last = last.max(*position);
    }
    last
}

/// Notes rows that go together, each at the position that stands beside it. The one error is want of memory.
pub(crate) fn mark_stretch(
    tracker: &mut FillTracker,
    stretch: &Stretch,
    positions: &[u64],
) -> Result<(), AllocError>
    requires beside { length positions.now ≡ stretch.now.len }
    requires some { 0 < stretch.now.len }
    ensures marks { OnOk result ((exponent : ℕ) (rows : List ARow) (placed : List (ℕ × ARow)) →
        IsStretchOf exponent stretch.now rows →
        AreMarksOfPlaced exponent placed tracker.old.fills tracker.old.marks →
        AreMarksOfPlaced exponent (placed ++ zip positions.now rows) tracker.new.fills tracker.new.marks) }
    ensures fills { tracker.new.fills ≡ tracker.old.fills }
{
    if stretch.table == TM {
        tracker.reserve_rows(1)?;
        tracker.touch_placed(stretch.interval, greatest(positions));
    }
    Ok(())
}
