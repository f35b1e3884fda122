//! Fills that may follow what was read.

ghost use Rattle.std.specs.Prelude.{◌≡◌, ◌↔◌, ◌++◌, [], ◌∷◌, Some, IsTrue, true, false, OnOk, IfOk};
ghost use Rattle.history_items.specs.declared.fills.Fill.TheVariants as noted;
ghost use Rattle.late_marks.specs.Marks.{has_rows};
ghost use Rattle.fill_tracker.specs.FillTracker.{KeepsMarks};
ghost use Rattle.interval_fills.specs.Steps.{IsStoredBase};
ghost use Rattle.store_fills.specs.LastFills.{filling_of, fillings_in};
ghost use Rattle.store_fills.specs.Sound.{with_filling};
ghost use Rattle.field_codec.specs.declared.entry.Entry.TheVariants as entries;
ghost use Rattle.field_codec.specs.Entries.{IsArchiveEntry};
ghost use Rattle.archive_images.specs.Entries.{Applies, FilledArchive, IsFillable};
ghost use Rattle.archive_reading.specs.PartialArchive.{archive_made, fills_made, filled_made, IsSetRead, HasMarks, IsReadHistory};

use crate::partial::PartialArchive;
use arch_types::octets::Octets;
use intervals::{Exponent, Interval};
use mdb_model::Mdb;
use param_segments::{NotASegment, SegSet};
use std::alloc::{AllocError, Global};
use std::sync::Arc;
use store_fills::LastFill;

/// Whether a fill of an interval over the first `base` items may be there: the history has these, and the interval a
/// row.
fn may_fill(made: &PartialArchive, interval: Interval, base: u64) -> bool
    requires { HasMarks (Some made.now) }
    ensures based { IsTrue result ↔ IsStoredBase made.now.history.exponent interval base made.now.history.items }
    ensures rows { IsTrue result → IsTrue (has_rows made.now.tracker.marks interval) }
{
    let count = made.history.len() as u64;
    if base > count {
        return false;
    }
    made.tracker.last(interval).is_some()
}

/// Notes a fill, where there is memory for it.
fn note_fill(
    made: &mut PartialArchive,
    interval: Interval,
    fill: LastFill,
) -> Result<(), AllocError>
    requires { has_rows made.old.tracker.marks interval ≡ true }
    ensures fills { OnOk result
        (made.new.tracker.fills ≡ made.old.tracker.fills ++ noted.Done interval fill.base ∷ []) }
    ensures marks { OnOk result (KeepsMarks made.old.tracker made.new.tracker) }
    ensures sets { OnOk result (fillings_in made.new.sets.filled
        ≡ with_filling (fillings_in made.old.sets.filled) interval (filling_of fill)) }
    ensures rest { (made.new.head ≡ made.old.head) × (made.new.history ≡ made.old.history) }
{
    made.tracker.reserve()?;
    made.sets.reserve()?;
    made.tracker.finish(interval, fill.base);
    made.sets.put(interval, fill);
    Ok(())
}

/// The set of a fill, or none where its octets are no set of the interval and of a database. The one error is want of memory.
pub fn read_set(
    alloc: Global,
    interval: Interval,
    exponent: Exponent,
    octets: Octets,
    mdb: &Mdb,
) -> Result<Option<SegSet>, AllocError>
    ensures { IfOk result (IsSetRead mdb.now exponent interval octets) }
{
    match SegSet::from_octets(alloc, interval, exponent, octets, mdb) {
        Ok(set) => Ok(Some(set)),
        Err(NotASegment::Malformed) => Ok(None),
        Err(NotASegment::OutOfMemory) => Err(AllocError),
    }
}

/// Whether a fill may follow; then it does.
fn admit_fill(
    alloc: Global,
    made: &mut PartialArchive,
    interval: Interval,
    base: u64,
    octets: Octets,
) -> Result<bool, AllocError>
    requires entry { IsArchiveEntry (entries.Fill interval base octets) }
    requires marks { HasMarks (Some made.old) }
    ensures yes { IfOk result (λ ok. ok ≡ true →
        Applies (Some (filled_made made.old)) (entries.Fill interval base octets) (filled_made made.new)
        × (made.new.tracker.fills ≡ made.old.tracker.fills ++ noted.Done interval base ∷ [])) }
    ensures no { IfOk result (λ ok. ok ≡ false → IsFillable (filled_made made.old) interval base octets → ⊥) }
    ensures rest { (made.new.head ≡ made.old.head) × (made.new.history ≡ made.old.history) }
    ensures marks { IfOk result (λ ok. ok ≡ true → HasMarks (Some made.new)) }
{
    if !may_fill(made, interval, base) {
        return Ok(false);
    }
    let found = read_set(
        alloc,
        interval,
        made.history.exponent(),
        octets,
        &made.head.mdb,
    )?;
    let Some(set) = found else {
        return Ok(false);
    };
    let shared = Arc::new(alloc, set)?;
    let fill = LastFill { base, set: shared };
    note_fill(made, interval, fill)?;
    Ok(true)
}

/// Whether a fill may follow what entries have made; then it does.
pub(crate) fn take_fill(
    alloc: Global,
    made: &mut Option<PartialArchive>,
    interval: Interval,
    base: u64,
    octets: Octets,
) -> Result<bool, AllocError>
    requires entry { IsArchiveEntry (entries.Fill interval base octets) }
    requires tables { IsReadHistory made.old }
    requires marks { HasMarks made.old }
    ensures yes { IfOk result (λ ok. ok ≡ true → (after : FilledArchive) × (archive_made made.new ≡ Some after)
        × Applies (archive_made made.old) (entries.Fill interval base octets) after
        × (fills_made made.new ≡ fills_made made.old ++ noted.Done interval base ∷ [])) }
    ensures no { IfOk result (λ ok. ok ≡ false → (after : FilledArchive) →
        Applies (archive_made made.old) (entries.Fill interval base octets) after → ⊥) }
    ensures tables { IsReadHistory made.new }
    ensures marks { IfOk result (λ ok. ok ≡ true → HasMarks made.new) }
{
    match made {
        Some(made) => admit_fill(alloc, made, interval, base, octets),
        None => Ok(false),
    }
}
