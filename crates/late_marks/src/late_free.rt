//! The intervals that are late and that nobody has taken.

ghost use Rattle.std.specs.Prelude.{◌≡◌, ◌+◌, ◌<◌, true, false};
ghost use Rattle.std.specs.BTreeMap.{is_at};
ghost use Rattle.intervals.specs.declared.interval.Interval.{Interval as IntervalValue};
ghost use Rattle.block_map.specs.Rising.{IsRising};
ghost use Rattle.intervals.specs.Interval.{interval_cmp};
ghost use Rattle.late_marks.specs.Marks.{one_if};
ghost use Rattle.late_marks.specs.MarkIndexes.{found_in, some_if};

use block_map::index::Index;
use intervals::Interval;

/// Puts an interval among those that are late and free, or takes it out.
pub(crate) fn update_late_free(
    late_free: &mut Index<Interval, ()>,
    interval: Interval,
    was: bool,
    is: bool,
)
    requires was { found_in late_free.old.entries interval ≡ some_if was }
    requires rising { IsRising interval_cmp late_free.old.entries }
    requires room { was ≡ false → is ≡ true → 0 < late_free.old.room }
    ensures set { found_in late_free.new.entries interval ≡ some_if is }
    ensures others { (other : IntervalValue) → is_at (interval_cmp interval) other ≡ false
        → found_in late_free.new.entries other ≡ found_in late_free.old.entries other }
    ensures rising { IsRising interval_cmp late_free.new.entries }
    ensures room { late_free.new.room + one_if is ≡ late_free.old.room + one_if was }
{
    if was == is {
        return;
    }
    if is {
        late_free.insert(interval, ());
    } else {
        late_free.remove(interval);
    }
}
