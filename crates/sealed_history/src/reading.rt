//! Rows of the log, at the positions that they have in the whole.

ghost use Rattle.std.specs.Prelude.{◌≡◌, ◌<◌, false, IfOk, IfNone, IfSome};
ghost use Rattle.arch_types.specs.Table.{range_of};
ghost use Rattle.partitions.specs.Partitions.{AreRising};
ghost use Rattle.replay_merge.specs.RowSource.{has_row_at, range_of_parts, rows_of_partition};
ghost use Rattle.sealed_history.specs.SealedHistory.{IsRowAt, log_below};

use crate::history::SealedHistory;
use arch_types::key::Key;
use arch_types::row::Rows;
use partitions::partition::Partition;
use std::alloc::{AllocError, Global};
use yarch_table::rows::TableRows;

impl SealedHistory {
    /// The position of the log's row that has a key in a table.
    pub fn position(&self, table: u8, key: Key) -> Option<u64>
        requires { table < self.now.tables }
        ensures some { IfSome result (IsRowAt self.now table key) }
        ensures none { IfNone result (has_row_at table key self.now.log ≡ false) }
    {
        let place = self.log.position(table, key)?;
        Some(self.base + place)
    }

    /// The log's rows of a table at a front with `from <= time < to`, in the order of their keys. Times are in
    /// milliseconds.
    pub fn range_at(&self, table: u8, front: u64, from: i64, to: i64) -> TableRows<'_>
        requires { table < self.now.tables }
        ensures { result ≡ range_of table from to (log_below front self.now) }
    {
        let front = front.saturating_sub(self.base);
        self.log.range_at(table, front, from, to)
    }

    /// The log's rows of a partition of a table at a front, in the order of their keys. The one error is want of
    /// memory.
    pub fn partition_rows(
        &self,
        alloc: Global,
        table: u8,
        partition: &Partition,
        front: u64,
    ) -> Result<Rows, AllocError>
        requires { table < self.now.tables }
        ensures { IfOk result (λ rows. rows ≡ rows_of_partition table partition.now (log_below front self.now)) }
    {
        let front = front.saturating_sub(self.base);
        self.log.partition_rows(alloc, table, partition, front)
    }

    /// The log's rows of some partitions of a table at a front, which rise, with `from <= time < to`, in the order of their
    /// keys. The one error is want of memory.
    pub fn rows_between(
        &self,
        alloc: Global,
        table: u8,
        parts: &[Partition],
        from: i64,
        to: i64,
        front: u64,
    ) -> Result<Rows, AllocError>
        requires table { table < self.now.tables }
        requires rising { AreRising parts.now }
        ensures { IfOk result (λ rows. rows ≡ range_of_parts table parts.now from to (log_below front self.now)) }
    {
        let front = front.saturating_sub(self.base);
        self.log.rows_between(alloc, table, parts, from, to, front)
    }
}
