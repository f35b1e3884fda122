//! A log in memory, over rows that stand in runs.

ghost use Rattle.std.specs.Prelude.{◌≡◌, ◌+◌, [], length, max, IfOk, OnOk, OnErr};
ghost use Rattle.arch_types.specs.History.{IsHistory};
ghost use Rattle.archive_history.specs.Limits.{IsWithin};
ghost use Rattle.run_pages.specs.Placed.{rows_of_placed};
ghost use Rattle.sealed_sums.specs.Sums.{AreSumsOf};
ghost use Rattle.sealed_history.specs.SealedHistory.{IsWholeHistory, empty_log_over, items_over, rows_told};

use archive_history::history::History;
use intervals::Exponent;
use run_files::Run;
use run_pages::PageRows;
use sealed_sums::sums::SealedSums;
use std::alloc::{AllocError, Global};
use std::marker::Model;
use std::snapshot::Snapshot;

/// The rows of an archive: those of the log in memory, and of the others where they stand and what they come to.
#[derive(Drop)]
pub struct SealedHistory {
    /// Where the rows before the log stand, in the order of the seals.
    pub(crate) runs: Vec<Run>,
    /// Their pages as they were told, for contracts alone: a snapshot takes no memory.
    pub(crate) told: Vec<Snapshot<PageRows>>,
    /// What their rows come to.
    pub(crate) sums: SealedSums,
    /// The position of the log's first row.
    pub(crate) base: u64,
    /// The rows of the log, each at its place behind that position.
    pub(crate) log: History,
}

impl Model for SealedHistory {
    ghost use Rattle.sealed_history.specs.Inside.{AreTogether, view_over};
    ghost use Rattle.sealed_history.specs.SealedHistory.{SealedHistoryView, rows_told};

    ghost Value = { SealedHistoryView };

    ghost view = { λ h. view_over h.runs.items h.told.items h.base h.log };

    ghost invariant = { λ h. AreTogether (rows_told h.told.items) h.base h.sums h.log };
}

impl SealedHistory {
    /// No run, and a log without rows, of so many tables, with intervals of this exponent. The one error is want of
    /// memory.
    pub fn new(alloc: Global, tables: usize, exponent: Exponent) -> Result<Self, AllocError>
        ensures { IfOk result (λ h. h ≡ empty_log_over [] [] 0 tables exponent) }
    {
        Ok(SealedHistory {
            runs: Vec::new(alloc),
            told: Vec::new(alloc),
            sums: SealedSums::new(alloc, tables, exponent)?,
            base: 0,
            log: History::new(alloc, tables, exponent)?,
        })
    }

    /// These runs, whose pages were told, and a log without rows that begins at a position. The one error is want of
    /// memory.
    pub fn over(
        alloc: Global,
        runs: Vec<Run>,
        told: Vec<Snapshot<PageRows>>,
        sums: SealedSums,
        base: u64,
    ) -> Result<Self, AllocError>
        requires { AreSumsOf (rows_of_placed (rows_told told.items)) sums }
        ensures { IfOk result (λ h. h
            ≡ empty_log_over runs.items (rows_told told.items) base (length sums.tables) sums.exponent) }
    {
        let log = History::new(alloc, sums.tables().len(), sums.exponent())?;
        Ok(SealedHistory {
            runs,
            told,
            sums,
            base,
            log,
        })
    }

    /// The position behind the last row.
    pub fn len(&self) -> u64
        ensures len { result ≡ self.now.base + length self.now.log }
        ensures whole { IsWholeHistory self.now → result ≡ length self.now.items }
    {
        self.base + self.log.len() as u64
    }

    /// How many rows the log has.
    pub fn log_len(&self) -> u64
        ensures { result ≡ length self.now.log }
    {
        self.log.len() as u64
    }

    /// The position of the log's first row.
    pub fn base(&self) -> u64
        ensures { result ≡ self.now.base }
    {
        self.base
    }

    /// Where the rows before the log stand, in the order of the seals.
    pub fn runs(&self) -> &[Run]
        ensures { result.now ≡ self.now.runs }
    {
        self.runs.as_slice()
    }

    /// The exponent of its intervals.
    pub fn exponent(&self) -> Exponent
        ensures { result ≡ self.now.exponent }
    {
        self.log.exponent()
    }

    /// The log's rows are a history within the limits, and with those of the runs they are all items. This only tells a
    /// proof so.
    pub fn is_kept(&self)
        ensures history { IsHistory self.now.log }
        ensures within { IsWithin self.now.exponent self.now.log }
        ensures items { self.now.items ≡ items_over self.now.placed self.now.log }
    {
        self.log.is_kept();
    }
}
