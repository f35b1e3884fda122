//! The sets of intervals that aren't late.

ghost use Rattle.std.specs.Prelude.{◌≡◌, ◌⊎◌, ℕ, List, Some, None, IfOk, IfSome, IfNone, IsTrue};
ghost use Rattle.std.specs.Arc.{arc_value};
ghost use Rattle.history_items.specs.declared.items.Item.{Item};
ghost use Rattle.history_items.specs.Databases.{database_in};
ghost use Rattle.history_items.specs.Late.{IsLate};
ghost use Rattle.fill_tracker.specs.FillTracker.{AreMarksOf};
ghost use Rattle.interval_fills.specs.Intervals.{rows_of_interval};
ghost use Rattle.store_fills.specs.Filled.{HoldsRows};
ghost use Rattle.store_fills.specs.LastFills.{fillings_in, filling_of};
ghost use Rattle.archive_store.specs.CurrentSets.{IsCurrentSet};
ghost use Rattle.archive_images.specs.Stands.{IsSoundImage};

use crate::store::Store;
use arch_disk::Disk;
use fill_tracker::FillTracker;
use intervals::Interval;
use param_segments::SegSet;
use std::alloc::{AllocError, Global};
use std::sync::Arc;
use store_fills::{LastFill, LastFills};

/// The last fill of an interval that isn't late, where it was filled.
pub(crate) fn current_fill<'a>(
    tracker: &FillTracker,
    sets: &'a LastFills,
    interval: Interval,
) -> Option<&'a LastFill>
    ensures filled { IfSome result (λ fill. fillings_in sets.now.filled interval ≡ Some (filling_of fill.now)) }
    ensures current { IfSome result (λ fill. (exponent : ℕ) (history : List Item) →
        AreMarksOf exponent history tracker.now.fills tracker.now.marks →
        IsLate exponent interval history tracker.now.fills → ⊥) }
    ensures none { IfNone result ((exponent : ℕ) (history : List Item) →
        AreMarksOf exponent history tracker.now.fills tracker.now.marks →
        IsLate exponent interval history tracker.now.fills ⊎ (fillings_in sets.now.filled interval ≡ None)) }
{
    if tracker.is_late(interval) {
        return None;
    }
    sets.get(interval)
}

/// The set of a fill, shared. The one error is want of memory.
pub(crate) fn shared_set(fill: &LastFill) -> Result<Arc<SegSet, Global>, AllocError>
    ensures { IfOk result (λ set. arc_value set ≡ arc_value fill.now.set) }
{
    Arc::try_clone(&fill.set)
}

impl<D: Disk> Store<D> {
    /// The set of an interval's last fill, where it has one and isn't late. The one error is want of memory.
    pub fn segments(&self, interval: Interval) -> Result<Option<Arc<SegSet, Global>>, AllocError>
        ensures some { IfOk result (λ o. IfSome o (λ set. IsCurrentSet self.now interval (arc_value set))) }
        ensures none { IfOk result (λ o. IfNone o (IsLate self.now.exponent interval self.now.history self.now.fills
            ⊎ (fillings_in self.now.filled interval ≡ None))) }

        // Where the fills of the disk were sound when it was opened, the set holds what the interval's rows give.
        ensures holds { IsTrue D.device.is_transparent → IsSoundImage (D.device.reads self.now.opened) →
            IfOk result (λ o. IfSome o (λ set.
            HoldsRows (database_in self.now.head.mdb self.now.history) (arc_value set)
            (rows_of_interval self.now.exponent interval self.now.history))) }
    {
        let Some(fill) = current_fill(&self.tracker, &self.sets, interval) else {
            return Ok(None);
        };
        let set = shared_set(fill)?;
        Ok(Some(set))
    }
}
