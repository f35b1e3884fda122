//! Batches, and what is done after a write that failed.

ghost use Rattle.std.specs.Prelude.{◌≡◌, ◌<◌, ◌≤◌, ◌++◌, None, length, OnOk, IfOk, IfErr, IfSome, IfNone};
ghost use Rattle.history_items.specs.Fills.{pending_fault_of};
ghost use Rattle.disk_journal.specs.State.{HasRoom, IsSame};
ghost use Rattle.field_codec.specs.declared.entry.Entry.TheVariants as entries;
ghost use Rattle.field_codec.specs.Entries.{IsArchiveEntry};
ghost use Rattle.field_codec.specs.Spelling.{entry_octets};
ghost use Rattle.fill_tracker.specs.FillTracker.{KeepsMarks};
ghost use Rattle.archive_store.specs.Batches.{batch_rows, IsBatch};
ghost use Rattle.archive_images.specs.Entries.{AreAdmitted};
ghost use Rattle.refusals.specs.Limits.{limit_of};
ghost use Rattle.refusals.specs.declared.refusal.Which.TheVariants as limits;
ghost use Rattle.history_items.specs.Items.{items_of, rows_in};
ghost use Rattle.archive_history.specs.Limits.{IsWithin};
ghost use Rattle.archive_store.specs.Limits.{IsLimit, limit_of_history};

use crate::appending::append_entry;
use crate::batch::{Batch, Ingested};
use crate::classifying::{ClassifiedBatch, classify};
use crate::store::Store;
use arch_disk::Disk;
use arch_types::row::{Row, Rows};
use archive_history::history::History;
use archive_history::row_limit::RowLimit;
use disk_journal::{Frame, Journal};
use field_codec::{put_rows, rows_entry_len};
use fill_tracker::FillTracker;
use refusals::{Refusal, Which};
use std::alloc::{AllocError, Global};

/// A record with these rows.
fn rows_frame(alloc: Global, rows: &[Row]) -> Result<Frame, AllocError>
    requires { IsArchiveEntry (entries.Rows rows.now) }
    ensures { IfOk result (λ frame. frame ≡ entry_octets (entries.Rows rows.now)) }
{
    let mut octets = Frame::begin(alloc, rows_entry_len(rows))?;
    put_rows(&mut octets, rows)?;
    Frame::finish(octets)
}

/// A limit of a history among those of the archive.
fn limit_of_history(limit: RowLimit) -> Which
    ensures { result ≡ limit_of_history limit }
{
    match limit {
        RowLimit::Rows => Which::Rows,
        RowLimit::HistoryOctets => Which::HistoryOctets,
        RowLimit::IntervalRows => Which::IntervalRows,
    }
}

/// Takes all memory that an ingest of these rows needs.
#[tactic(auto, using(archive_reading::proofs::KeptMarks::keeps_roomy, archive_reading::proofs::KeptMarks::keeps_roomier))]
fn prepare(
    alloc: Global,
    journal: &mut Journal,
    history: &mut History,
    tracker: &mut FillTracker,
    fresh: &[Row],
) -> Result<Frame, AllocError>
    requires { IsArchiveEntry (entries.Rows fresh.now) }
    ensures frame { IfOk result (λ frame. frame ≡ entry_octets (entries.Rows fresh.now)) }
    ensures room { OnOk result (HasRoom journal.new × (length fresh.now ≤ history.new.room) ×
        (1 ≤ tracker.new.room) × (length fresh.now ≤ tracker.new.marks.room)) }
    ensures journal { IsSame journal.old journal.new }
    ensures history { (history.new.items ≡ history.old.items) × (history.new.tables ≡ history.old.tables)
        × (history.new.exponent ≡ history.old.exponent) }
    ensures fills { tracker.new.fills ≡ tracker.old.fills }
    ensures marks { KeepsMarks tracker.old tracker.new }
{
    tracker.reserve()?;
    tracker.reserve_rows(fresh.len() as u64)?;
    history.reserve(fresh.len())?;
    journal.reserve()?;
    rows_frame(alloc, fresh)
}

impl<D: Disk> Store<D> {
    ghost use Rattle.archive_images.specs.Unacknowledged.{with_rows};
    ghost use Rattle.archive_store.specs.StoreView.{archive_of, filled_of, OnlyAppends};
    ghost use Rattle.disk_journal.specs.Calls.{CountsNeverFall};
    ghost use Rattle.archive_store.specs.Calls.{AreAppended, AreIngested, CrashLeavesEither, CrashLeavesNow, IsIngestRefusal, IsRowsRefusal, IsStoreReopened, IsStoreReopenRefusal, archive_with};

    /// The first limit that is passed with these rows and their record.
    fn limit_passed(&self, fresh: &[Row]) -> Option<Which>
        ensures none { IfNone result (IsWithin self.now.exponent (rows_in self.now.history ++ fresh.now) ×
            (self.now.records < limit_of limits.Records)) }
        ensures first { IfSome result (λ which.
            IsLimit self.now.exponent which self.now.records (self.now.history ++ items_of fresh.now)) }
    {
        if let Some(limit) = self.history.limit_passed(fresh) {
            return Some(limit_of_history(limit));
        }
        if self.journal.count() >= Which::Records.limit() {
            return Some(Which::Records);
        }
        None
    }

    /// Appends new rows to the disk and then to the history. All memory is taken before the first device call.
    fn append(&mut self, alloc: Global, fresh: Rows) -> Result<(), Refusal>
        requires healed { pending_fault_of self.old.fills ≡ None }
        requires admitted { AreAdmitted (archive_of self.old) fresh }
        requires records { self.old.records < limit_of limits.Records }
        ensures appended { OnOk result (AreAppended D.device self.old self.new fresh) }
        ensures refused { IfErr result (IsRowsRefusal D.device self.old self.new fresh) }
        ensures crash { CrashLeavesEither D.device self.old.disk self.new.disk (filled_of self.old)
            (with_rows (filled_of self.old) (items_of fresh)) }
        ensures grows { OnlyAppends self.old self.new }
        ensures counts { CountsNeverFall D.device self.old.disk self.new.disk }
    {
        let prepared = prepare(
            alloc,
            &mut self.journal,
            &mut self.history,
            &mut self.tracker,
            fresh.as_slice(),
        );
        let Ok(frame) = prepared else {
            return Err(Refusal::OutOfMemory);
        };
        match append_entry(
            &mut self.disk,
            &mut self.journal,
            &mut self.tracker,
            &frame,
            fresh,
        ) {
            Ok(fresh) => {
                let first = self.history.len() as u64;
                self.tracker
                    .touch(fresh.as_slice(), first, self.history.exponent());
                let _ = self.history.add_all(fresh);
                Ok(())
            }
            Err(count) => {
                self.pending_fault = Some(count);
                Err(Refusal::DiskFault)
            }
        }
    }

    /// Adds the rows of a batch whose keys aren't yet in their tables. A batch without such rows makes no device call.
    pub fn ingest(&mut self, alloc: Global, batch: &Batch) -> Result<Ingested, Refusal>
        requires { IsBatch self.old.head self.old.history batch.now }

        // Ok: the rows whose key their table lacked stand behind the history, in one record, if any is new.
        ensures ingested { IfOk result (λ ingest.
            AreIngested D.device self.old self.new (batch_rows batch.now) ingest.outcomes) }

        // NeedsReopen comes exactly where a failed write is pending, then rows that aren't read, then the first limit that
        // is passed where rows are new, then a failed write, which leaves the new rows in a fault; else all is as it was,
        // but for pages that were read. Want of memory comes before any write.
        ensures refused { IfErr result (IsIngestRefusal D.device self.old self.new (batch_rows batch.now)) }

        // Power lost at any moment of the call leaves the archive from before it, or the one with the batch, and the
        // fills stay.
        ensures crash { pending_fault_of self.old.fills ≡ None →
            CrashLeavesEither D.device self.old.disk self.new.disk (filled_of self.old)
            (archive_with self.old (batch_rows batch.now)) }

        // History and fill list begin with the old ones, whatever the call answers.
        ensures grows { OnlyAppends self.old self.new }
        ensures counts { CountsNeverFall D.device self.old.disk self.new.disk }
    {
        match self.pending_fault {
            Some(faults) => return Err(Refusal::NeedsReopen { faults }),
            None => {}
        }
        self.is_kept();
        let known = self.history.len() as u64;
        let mut source = self.source();
        let classified = classify(alloc, &mut source, batch, known)?;
        let ClassifiedBatch {
            outcomes,
            fresh,
            last: _,
        } = classified;
        if fresh.len() == 0 {
            return Ok(Ingested { outcomes });
        }
        if let Some(which) = self.limit_passed(fresh.as_slice()) {
            return Err(Refusal::Limit {
                which,
                number: which.limit(),
            });
        }
        self.append(alloc, fresh)?;
        Ok(Ingested { outcomes })
    }

    /// Makes a write that failed as if it had never been made, so that batches are taken again. Takes no memory.
    pub fn reopen(&mut self) -> Result<(), Refusal>
        // Ok: no failed write is pending, and every image stands for the history with its fills.
        ensures reopened { OnOk result (IsStoreReopened D.device self.old self.new) }

        // Refused, for a fault of the disk alone, all but the disk is as it was.
        ensures refused { IfErr result (IsStoreReopenRefusal D.device self.old self.new) }

        // Power lost at any moment of the call leaves the archive with its fills, or what the failed write may have made
        // of it.
        ensures crash { CrashLeavesNow D.device self.old self.new.disk }
        ensures counts { CountsNeverFall D.device self.old.disk self.new.disk }
    {
        match self.journal.heal(&mut self.disk) {
            Ok(()) => {
                self.tracker.clear_failed_writes();
                self.pending_fault = None;
                Ok(())
            }
            Err(_) => Err(Refusal::DiskFault),
        }
    }
}
