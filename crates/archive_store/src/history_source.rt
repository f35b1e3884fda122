//! The rows of a store as a source of replays.

ghost use Rattle.std.specs.Prelude.{◌≡◌, IfOk};
ghost use Rattle.archive_store.specs.Replays.{IsStoredHistory};

use crate::store::Store;
use arch_disk::Disk;
use arch_types::key::Key;
use arch_types::row::Rows;
use arch_types::row_fault::RowFault;
use archive_history::history::{History, TM};
use archive_images::Head;
use intervals::Interval;
use partitions::partition::Partition;
use replay_merge::row_source::RowSource;
use std::alloc::{AllocError, Global};
use std::marker::Model;
use yarch_table::rows::TableRows;

/// The rows of a history in memory. It only borrows them, so that whoever reads them changes nothing of their store.
#[derive(Drop)]
pub struct HistorySource<'a> {
    head: &'a Head,
    history: &'a History,
}

impl<'a> Model for HistorySource<'a> {
    ghost use Rattle.std.specs.Prelude.{List};
    ghost use Rattle.history_items.specs.declared.items.Item.{Item};
    ghost use Rattle.archive_store.specs.Replays.{IsStoredHistory};

    ghost Value = { List Item };

    ghost view = { λ s. s.history.now.items };

    ghost invariant = { λ s. IsStoredHistory s.head.now s.history.now };
}

/// Copies of rows, which share their packets. There is room for so many from the first on.
fn copies_of(alloc: Global, rows: TableRows<'_>, room: usize) -> Result<Rows, AllocError>
    ensures { IfOk result (λ copies. copies ≡ rows.entry) }
{
    let mut copies = Vec::with_capacity(alloc, room)?;
    for row in rows {
        copies.push(row.copy()?)?;
    }
    Ok(Rows::from_vec(copies))
}

/// How many rows are expected of a table with `from <= time < to`, where that is an interval, as for a fill: those of
/// the interval. Of less than an interval none is.
fn expected_rows(history: &History, table: u8, from: i64, to: i64) -> usize {
    let first = Interval::at(from, history.exponent());
    if table != TM || first == Interval::at(to, history.exponent()) {
        return 0;
    }
    history.interval_len(first) as usize
}

impl<'a> HistorySource<'a> {
    /// The rows of a history with a table for each name of the head.
    pub(crate) fn of(head: &'a Head, history: &'a History) -> Self
        requires { IsStoredHistory head.now history.now }
        ensures { result ≡ history.now.items }
    {
        HistorySource { head, history }
    }
}

impl<'a> RowSource for HistorySource<'a> {
    ghost use Rattle.std.proofs.Common.{◌≡◌, ◌∙◌, refl};
    ghost use Rattle.archive_store.specs.Replays.{memory_state};

    ghost state = { λ history. memory_state history };

    ghost leaves = { λ old new. new ≡ old };

    ghost none_left = { λ source. refl };

    ghost both_left = { λ first between last one two. two ∙ one };

    /// No rows of a table that the head doesn't have. Refused for want of memory alone.
    fn rows(
        &mut self,
        alloc: Global,
        table: u8,
        partition: &Partition,
        front: u64,
    ) -> Result<Rows, RowFault> {
        self.history.is_kept();
        if table as usize >= self.head.tables.as_slice().len() {
            return Ok(Rows::new(alloc));
        }
        Ok(self.history.partition_rows(alloc, table, partition, front)?)
    }

    /// Likewise, by the index of keys where that costs less than the rows of the partitions.
    fn rows_between(
        &mut self,
        alloc: Global,
        table: u8,
        parts: &[Partition],
        from: i64,
        to: i64,
        front: u64,
    ) -> Result<Rows, RowFault> {
        self.history.is_kept();
        if table as usize >= self.head.tables.as_slice().len() {
            return Ok(Rows::new(alloc));
        }
        Ok(
            self.history
                .rows_between(alloc, table, parts, from, to, front)?,
        )
    }

    /// Likewise, by the index of keys.
    fn range(
        &mut self,
        alloc: Global,
        table: u8,
        from: i64,
        to: i64,
        front: u64,
    ) -> Result<Rows, RowFault> {
        self.history.is_kept();
        if table as usize >= self.head.tables.as_slice().len() {
            return Ok(Rows::new(alloc));
        }
        let room = expected_rows(self.history, table, from, to);
        Ok(copies_of(alloc, self.history.range_at(table, front, from, to), room)?)
    }

    /// None of a table that the head doesn't have. Never refused.
    fn position(&mut self, _alloc: Global, table: u8, key: Key) -> Result<Option<u64>, RowFault> {
        self.history.is_kept();
        if table as usize >= self.head.tables.as_slice().len() {
            return Ok(None);
        }
        Ok(self.history.position(table, key))
    }
}

impl<D: Disk> Store<D> {
    /// The rows in memory, as a source: to read them changes nothing, makes no fault of the disk, and is refused for
    /// want of memory alone.
    pub(crate) fn source(&self) -> HistorySource<'_>
        ensures { result ≡ self.now.history }
    {
        HistorySource::of(&self.head, &self.history)
    }

    /// No row stands in a run yet. This only tells a proof so.
    fn all_in_memory(&self)
        ensures { self.now.sealed ≡ 0 }
    {
        let _ = &self.history;
    }
}

impl<D: Disk> RowSource for Store<D> {
    ghost use Rattle.archive_store.specs.Replays.{source_state};
    ghost use Rattle.archive_store.specs.UnreadRows.{IsReadOn};
    ghost use Rattle.archive_store.specs.ReadOn.{read_more, read_none};

    ghost state = { λ s. source_state D.device s };

    ghost leaves = { λ old new. IsReadOn D.device old new };

    ghost none_left = { λ store. read_none D.device store };

    ghost both_left = { λ first between last one two. read_more D.device first between last one two };

    /// No rows of a table that the head doesn't have. Refused for want of memory alone.
    fn rows(
        &mut self,
        alloc: Global,
        table: u8,
        partition: &Partition,
        front: u64,
    ) -> Result<Rows, RowFault> {
        self.is_kept();
        self.all_in_memory();
        let mut source = self.source();
        source.rows(alloc, table, partition, front)
    }

    /// Likewise.
    fn rows_between(
        &mut self,
        alloc: Global,
        table: u8,
        parts: &[Partition],
        from: i64,
        to: i64,
        front: u64,
    ) -> Result<Rows, RowFault> {
        self.is_kept();
        self.all_in_memory();
        let mut source = self.source();
        source.rows_between(alloc, table, parts, from, to, front)
    }

    /// Likewise.
    fn range(
        &mut self,
        alloc: Global,
        table: u8,
        from: i64,
        to: i64,
        front: u64,
    ) -> Result<Rows, RowFault> {
        self.is_kept();
        self.all_in_memory();
        let mut source = self.source();
        source.range(alloc, table, from, to, front)
    }

    /// Likewise.
    fn position(&mut self, alloc: Global, table: u8, key: Key) -> Result<Option<u64>, RowFault> {
        self.all_in_memory();
        let mut source = self.source();
        source.position(alloc, table, key)
    }
}
