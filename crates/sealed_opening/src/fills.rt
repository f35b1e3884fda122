//! The fills of a fill file, one after the other.

ghost use Rattle.std.specs.Prelude.{◌≡◌, ◌↔◌, ◌≤◌, ◌++◌, [], ◌∷◌, true, IfErr, IfNone, IfOk, IfSome, IsTrue, OnOk};
ghost use Rattle.arch_disk.specs.Disk.{NoFault, OnlyReads};
ghost use Rattle.archive_images.specs.SealFiles.{fill_entry, fill_record};
ghost use Rattle.field_codec.specs.Entries.{IsArchiveEntry};
ghost use Rattle.fill_tracker.specs.Placed.{KeepsMarksOfPlaced};
ghost use Rattle.history_items.specs.declared.fills.Fill.TheVariants as noted;
ghost use Rattle.late_marks.specs.Marks.{has_rows};
ghost use Rattle.store_fills.specs.LastFills.{filling_of, fillings_in};
ghost use Rattle.store_fills.specs.Sound.{with_filling};
ghost use Rattle.sealed_opening.specs.Fills.{AreFillsNoted, IsFillTaken, IsInFillFile, IsSealedFillBy, MayBeFill, NothingIsKept, stored_fill};
ghost use Rattle.sealed_opening.specs.ReadRefusals.{IsReadRefusal};

use crate::log_head::begin_behind_head;
use crate::records::{RecordRules, read_records};
use crate::so_far::SealedSoFar;
use arch_disk::Disk;
use arch_types::octets::Octets;
use archive_images::Head;
use archive_reading::read_set;
use field_codec::{Entry, NotAnEntry, read_shared};
use fill_tracker::FillTracker;
use intervals::{Exponent, Interval};
use refusals::Refusal;
use seal_codec::Seal;
use std::alloc::{AllocError, Global};
use std::sync::Arc;
use store_fills::{LastFill, LastFills};

/// What the fills of a fill file leave so far, over the rows of runs.
#[derive(Drop)]
pub(crate) struct FillRecords<'a> {
    head: &'a Head,
    exponent: Exponent,
    /// How many rows the seal seals.
    rows: u64,
    /// The marks of the rows of runs so far.
    tracker: FillTracker,
    sets: LastFills,
}

impl<'a> FillRecords<'a> {
    /// Whether a fill of an interval over so many rows may be there, but for its octets.
    fn may_fill(&self, interval: Interval, base: u64) -> bool
        ensures { IsTrue result ↔ ((base ≤ self.now.rows) × (has_rows self.now.tracker.marks interval ≡ true)) }
    {
        if base > self.rows {
            return false;
        }
        self.tracker.last(interval).is_some()
    }

    /// Notes a fill, where there is memory for it.
    fn note_fill(&mut self, interval: Interval, fill: LastFill) -> Result<(), AllocError>
        requires { has_rows self.old.tracker.marks interval ≡ true }
        ensures fills { OnOk result
            (self.new.tracker.fills ≡ self.old.tracker.fills ++ noted.Done interval fill.base ∷ []) }
        ensures marks { OnOk result (KeepsMarksOfPlaced self.old.tracker self.new.tracker) }
        ensures sets { OnOk result (fillings_in self.new.sets.filled
            ≡ with_filling (fillings_in self.old.sets.filled) interval (filling_of fill)) }
        ensures rest { (self.new.head.now ≡ self.old.head.now) × (self.new.exponent ≡ self.old.exponent)
            × (self.new.rows ≡ self.old.rows) }
    {
        self.tracker.reserve()?;
        self.sets.reserve()?;
        self.tracker.finish(interval, fill.base);
        self.sets.put(interval, fill);
        Ok(())
    }

    /// With a fill more, where it may stand there; else none. The one error is want of memory.
    fn with_fill(
        self,
        alloc: Global,
        interval: Interval,
        base: u64,
        octets: Octets,
    ) -> Result<Option<Self>, AllocError>
        requires { IsArchiveEntry (fill_entry (stored_fill interval base octets)) }
        ensures taken { IfOk result (λ next. IfSome next
            (IsFillTaken self.entry (fill_record (stored_fill interval base octets)))) }
        ensures none { IfOk result (λ next. IfNone next
            (IsSealedFillBy self.entry (stored_fill interval base octets) → ⊥)) }
    {
        if !self.may_fill(interval, base) {
            return Ok(None);
        }
        let found = read_set(alloc, interval, self.exponent, octets, &self.head.mdb)?;
        let Some(set) = found else {
            return Ok(None);
        };
        let shared = Arc::new(alloc, set)?;
        let fill = LastFill { base, set: shared };
        let mut noted = self;
        noted.note_fill(interval, fill)?;
        Ok(Some(noted))
    }
}

impl<'a> RecordRules for FillRecords<'a> {
    ghost is_kept = { NothingIsKept };

    ghost may_follow = { MayBeFill };

    ghost follows = { IsFillTaken };

    fn take(self, alloc: Global, body: &Octets) -> Result<Option<Self>, AllocError> {
        let entry = match read_shared(alloc, body) {
            Ok(entry) => entry,
            Err(NotAnEntry::Malformed) => return Ok(None),
            Err(NotAnEntry::OutOfMemory) => return Err(AllocError),
        };
        match entry {
            Entry::Fill {
                interval,
                base,
                set,
            } => self.with_fill(alloc, interval, base, set),
            _ => Ok(None),
        }
    }
}

/// Reads the fill file of a seal whose runs were read: its head, and then its fills to the closed gate that ends them.
pub(crate) fn read_fill_file<D: Disk>(
    alloc: Global,
    disk: &mut D,
    head: &Head,
    seal: &Seal,
    so_far: SealedSoFar,
) -> Result<SealedSoFar, Refusal>
    // Ok: the file has fills that may stand over the rows of runs so far, and each was noted.
    ensures read { IfOk result (AreFillsNoted D.device disk.old head.now seal.now so_far) }

    // Refused: at octet 0 where the file has no head of the seal's number of rows, else at the first record that passes the
    // file's end or is no fill that may stand there; a read failed; or memory is wanting.
    ensures refused { IfErr result (IsReadRefusal (IsInFillFile (D.device.reads disk.old) head.now seal.now so_far)
        D.device disk.old disk.new) }
    ensures looked { OnlyReads D.device disk.old disk.new }
    ensures no_fault { OnOk result (NoFault D.device disk.old disk.new) }
{
    let opening = begin_behind_head(alloc, disk, seal.fills, seal.rows)?;
    let SealedSoFar {
        sums,
        tracker,
        sets,
        runs,
        told,
        positions,
        are_placed,
    } = so_far;
    let none = FillRecords {
        head,
        exponent: sums.exponent(),
        rows: seal.rows,
        tracker,
        sets,
    };
    let read = read_records(alloc, disk, opening, none)?;
    let (_, fills) = read;
    Ok(SealedSoFar {
        sums,
        tracker: fills.tracker,
        sets: fills.sets,
        runs,
        told,
        positions,
        are_placed,
    })
}
