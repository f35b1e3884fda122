//! A history in memory, within its limits.

ghost use Rattle.std.specs.Prelude.{◌≡◌, ◌+◌, ◌*◌, ◌<◌, ◌≤◌, ◌^◌, ◌++◌, [], ◌∷◌, true, false, length, max, IfOk, IfSome, IfNone, OnOk, OnErr, slice_get, Some, ◌↔◌, Contains, IsTrue};
ghost use Rattle.std.specs.List.{list_any, AllByRecursion};
ghost use mathlib.Core.List.{IsPrefix};
ghost use Rattle.intervals.specs.declared.interval.Interval.{Interval as AnInterval};
ghost use Rattle.arch_types.specs.History.{IsHistory};
ghost use Rattle.intervals.specs.Interval.{interval_of};
ghost use Rattle.arch_types.specs.Table.{range_of};
ghost use Rattle.history_items.specs.declared.items.Item.{Item};
ghost use Rattle.history_items.specs.Items.{after_row, after_rows, items_of, prefix, row_item, rows_in};
ghost use Rattle.archive_history.specs.PartitionedTable.{named_times_of};
ghost use Rattle.archive_history.specs.History.{is_at_key, rows_in_partition, rows_in_parts, rows_in_table};
ghost use Rattle.histogram.specs.Times.{spans_of_times, times_of};
ghost use Rattle.partitions.specs.declared.partition.Partition.{Partition as APartition};
ghost use Rattle.partitions.specs.Bounds.{MayHold};
ghost use Rattle.partitions.specs.Partitions.{AreRising};
ghost use Rattle.partitions.specs.Rows.{partitions_of};
ghost use Rattle.archive_history.specs.RowLimits.{row_limit};
ghost use Rattle.archive_history.specs.declared.row_limit.RowLimit.TheVariants as limits;
ghost use Rattle.archive_history.specs.Limits.{octets_of, interval_rows, IsWithin, PassesFirst};
ghost use Rattle.archive_history.specs.LimitCounts.{interval_row_count};

use crate::limit_counts::LimitCounts;
use crate::partitioned_table::PartitionedTable;
use crate::row_limit::RowLimit;
use crate::tables::{empty_tables, insert_row, reserve_tables};
use arch_types::key::Key;
use arch_types::row::{Row, Rows};
use arch_types::spans::Spans;
use intervals::{Exponent, Interval};
use partitions::bounds::Bounds;
use partitions::lists::PartList;
use partitions::partition::Partition;
use std::alloc::{AllocError, Global};
use std::marker::Model;
use std::snapshot::Snapshot;
use yarch_table::rows::TableRows;

/// The number of table `tm`.
pub const TM: u8 = 0;

/// The rows of a history, and what its limits count.
#[derive(Drop)]
pub struct History {
    /// The rows of each table, each with its position in the history.
    tables: Vec<PartitionedTable>,
    /// Each row in the order of the history, for contracts alone: a snapshot takes no memory.
    order: Vec<Snapshot<Row>>,
    /// How many more rows come without memory.
    room: usize,
    /// Of its intervals.
    exponent: Exponent,
    limit_counts: LimitCounts,
}

impl Model for History {
    ghost use Rattle.std.specs.Prelude.{length};
    ghost use Rattle.archive_history.specs.History.{HistoryInvariant, HistoryView};
    ghost use Rattle.archive_history.specs.Tables.{items_in};

    ghost Value = { HistoryView };

    ghost view = { λ h. record { items = items_in h.order.items; tables = length h.tables.items; room = h.room; exponent = h.exponent } };

    ghost invariant = { λ h. HistoryInvariant h.tables.items h.order h.room h.exponent h.limit_counts };
}

/// The interval of a row's time.
pub fn interval_of_row(row: &Row, exponent: Exponent) -> Interval
    ensures { result.0 ≡ interval_of exponent row.now.key.time }
{
    Interval::at(row.key.time, exponent)
}

/// All octets of the packets of rows.
pub fn octets_in(rows: &[Row]) -> u64
    requires { length rows.now ≤ row_limit limits.Rows }
    ensures { result ≡ octets_of rows.now }
{
    let mut octets = 0;
    for row in rows {
        octets += row.packet.len() as u64;
    }
    octets
}

/// How many rows of table `tm` have their time in the interval.
pub fn interval_rows_in(rows: &[Row], exponent: Exponent, interval: Interval) -> u64
    ensures { result ≡ interval_rows exponent interval rows.now }
{
    let mut count = 0;
    for row in rows {
        if row.table == TM && Interval::at(row.key.time, exponent) == interval {
            count += 1;
        }
    }
    count
}

/// Whether an interval would have too many rows with these. They are counted only where it comes that close to the limit.
fn are_too_many(
    limit_counts: &LimitCounts,
    exponent: Exponent,
    interval: Interval,
    rows: &[Row],
) -> bool
    requires few { length rows.now ≤ row_limit limits.Rows }
    requires counted { interval_row_count limit_counts.now.rows interval ≤ row_limit limits.IntervalRows }
    ensures { IsTrue result ↔ (row_limit limits.IntervalRows <
        interval_row_count limit_counts.now.rows interval + interval_rows exponent interval rows.now) }
{
    let known = limit_counts.rows_of(interval);
    if known + rows.len() as u64 <= RowLimit::IntervalRows.limit() {
        return false;
    }
    known + interval_rows_in(rows, exponent, interval) > RowLimit::IntervalRows.limit()
}

impl History {
    /// So many tables without rows, and no room, with intervals of this exponent. The one error is want of memory.
    pub fn new(alloc: Global, tables: usize, exponent: Exponent) -> Result<Self, AllocError>
        ensures { IfOk result (λ h. h ≡ record { items = []; tables = tables; room = 0; exponent = exponent }) }
    {
        Ok(History {
            tables: empty_tables(alloc, tables)?,
            order: Vec::new(alloc),
            room: 0,
            exponent,
            limit_counts: LimitCounts::new(alloc)?,
        })
    }

    /// The length of the history, which has rows alone.
    pub fn len(&self) -> usize
        ensures len { result ≡ length self.now.items }
        ensures rows { result ≡ length (rows_in self.now.items) }
        ensures within { IsWithin self.now.exponent (rows_in self.now.items) }
        ensures history { IsHistory (rows_in self.now.items) }
    {
        self.order.len()
    }

    /// Its rows are a history within the limits. This does nothing but tell a proof so.
    pub fn is_kept(&self)
        ensures within { IsWithin self.now.exponent (rows_in self.now.items) }
        ensures history { IsHistory (rows_in self.now.items) }
    {
        let _ = &self.order;
    }

    /// The exponent of its intervals.
    pub fn exponent(&self) -> Exponent
        ensures { result ≡ self.now.exponent }
    {
        self.exponent
    }

    /// Makes the room at least `rows`. The one error is want of memory, and then all is as before.
    pub fn reserve(&mut self, rows: usize) -> Result<(), AllocError>
        ensures ok { OnOk result (self.new ≡ record {
          items = self.old.items;
          tables = self.old.tables;
          room = max
              self.old.room rows;
          exponent = self.old.exponent;
        }) }
        ensures err { OnErr result (self.new ≡ self.old) }
    {
        if rows <= self.room {
            return Ok(());
        }
        self.limit_counts.reserve(rows)?;
        self.order.reserve(rows)?;
        reserve_tables(&mut self.tables, rows)?;
        self.room = rows;
        Ok(())
    }

    /// The position of the row that has a key in a table.
    pub fn position(&self, table: u8, key: Key) -> Option<u64>
        requires { table < self.now.tables }
        ensures some { IfSome result (λ p. (there : Item) × (slice_get self.now.items p ≡ Some there) ×
            (is_at_key table key there ≡ true)) }
        ensures none { IfNone result (list_any (is_at_key table key) self.now.items ≡ false) }
    {
        self.tables[table as usize].position(key)
    }

    /// How many rows of table `tm` have their time in an interval.
    pub fn interval_len(&self, interval: Interval) -> u64
        ensures { result ≡ interval_rows self.now.exponent interval (rows_in self.now.items) }
    {
        self.limit_counts.rows_of(interval)
    }

    /// What its limits count.
    pub fn limit_counts(&self) -> &LimitCounts
        ensures octets { result.now.octets ≡ octets_of (rows_in self.now.items) }
        ensures rows { (i : AnInterval) → interval_row_count result.now.rows i ≡
            interval_rows self.now.exponent i (rows_in self.now.items) }
    {
        &self.limit_counts
    }

    /// Whether an interval would have too many rows with these.
    fn passes_interval(&self, rows: &[Row]) -> bool
        requires { length rows.now ≤ row_limit limits.Rows }
        ensures { IsTrue result ↔ ((i : AnInterval) × (row_limit limits.IntervalRows <
            interval_rows self.now.exponent i (rows_in self.now.items ++ rows.now))) }
    {
        let limit_counts = &self.limit_counts;
        let exponent = self.exponent;
        let limit = RowLimit::IntervalRows.limit();
        let added = rows.len() as u64;
        if added <= limit && limit_counts.most_rows() <= limit - added {
            return false;
        }
        for row in rows {
            if row.table == TM {
                let interval = interval_of_row(row, exponent);
                if are_too_many(limit_counts, exponent, interval, rows) {
                    return true;
                }
            }
        }
        false
    }

    /// The first limit that the history would pass with these rows.
    pub fn limit_passed(&self, rows: &[Row]) -> Option<RowLimit>
        ensures none { IfNone result (IsWithin self.now.exponent (rows_in self.now.items ++ rows.now)) }
        ensures first { IfSome result (λ limit. PassesFirst self.now.exponent limit (rows_in self.now.items ++ rows.now)) }
    {
        if rows.len() as u64 > RowLimit::Rows.limit() - self.len() as u64 {
            return Some(RowLimit::Rows);
        }
        if octets_in(rows) > RowLimit::HistoryOctets.limit() - self.limit_counts.octets() {
            return Some(RowLimit::HistoryOctets);
        }
        if self.passes_interval(rows) {
            return Some(RowLimit::IntervalRows);
        }
        None
    }

    /// Adds a row at the end, where its table has no row of its key. Takes no memory.
    fn add(&mut self, row: Row) -> bool
        requires room { 0 < self.old.room }
        requires table { row.table < self.old.tables }
        requires within { IsWithin self.old.exponent (rows_in self.old.items ++ row ∷ []) }
        ensures items { self.new.items ≡ after_row self.old.items row }
        ensures fresh { result ≡ true → self.new.items ≡ self.old.items ++ row_item row ∷ [] }
        ensures known { result ≡ false → self.new.items ≡ self.old.items }
        ensures tables { self.new.tables ≡ self.old.tables }
        ensures exponent { self.new.exponent ≡ self.old.exponent }
        ensures room { self.old.room ≡ self.new.room + 1 }
    {
        let octets = row.packet.len();
        let table = row.table;
        let interval = interval_of_row(&row, self.exponent);
        self.room -= 1;
        if !insert_row(&mut self.tables, &mut self.order, row) {
            return false;
        }
        self.limit_counts.add_octets(octets);
        if table == TM {
            self.limit_counts.add_row(interval);
        }
        true
    }

    /// Adds rows at the end, up to the first whose table has a row of its key. Tells whether all were added. Takes no memory.
    pub fn add_all(&mut self, rows: Rows) -> bool
        requires room { length rows ≤ self.old.room }
        requires tables { AllByRecursion (λ row. row.table < self.old.tables) rows }
        requires within { IsWithin self.old.exponent (rows_in self.old.items ++ rows) }
        ensures all { IsTrue result ↔ (after_rows self.old.items rows ≡ self.old.items ++ items_of rows) }
        ensures items { IsTrue result → self.new.items ≡ self.old.items ++ items_of rows }
        ensures no_others { IsPrefix self.new.items (self.old.items ++ items_of rows) }
        ensures tables { self.new.tables ≡ self.old.tables }
        ensures exponent { self.new.exponent ≡ self.old.exponent }
    {
        for row in rows.into_vec() {
            if !self.add(row) {
                return false;
            }
        }
        true
    }

    /// The rows of a table at a front with `from <= time < to`, in the order of their keys. Times are in milliseconds.
    pub fn range_at(&self, table: u8, front: u64, from: i64, to: i64) -> TableRows<'_>
        requires { table < self.now.tables }
        ensures { result ≡ range_of table from to (rows_in (prefix front self.now.items)) }
    {
        self.tables[table as usize].range_at(front, from, to)
    }

    /// The rows of a partition of a table at a front, in the order of their keys. The one error is want of memory.
    pub fn partition_rows(
        &self,
        alloc: Global,
        table: u8,
        partition: &Partition,
        front: u64,
    ) -> Result<Rows, AllocError>
        requires { table < self.now.tables }
        ensures { IfOk result (λ rows. rows ≡ rows_in_partition table partition.now (prefix front self.now.items)) }
    {
        self.tables[table as usize].partition_rows(alloc, partition, front)
    }

    /// The rows of some partitions of a table at a front, which rise, with `from <= time < to`, in the order of their
    /// keys. The one error is want of memory.
    pub fn rows_between(
        &self,
        alloc: Global,
        table: u8,
        parts: &[Partition],
        from: i64,
        to: i64,
        front: u64,
    ) -> Result<Rows, AllocError>
        requires table { table < self.now.tables }
        requires rising { AreRising parts.now }
        ensures { IfOk result (λ rows. rows ≡ rows_in_parts table parts.now from to (prefix front self.now.items)) }
    {
        self.tables[table as usize].rows_between(alloc, parts, from, to, front)
    }

    /// The partitions of a table that hold a row and may hold one in the bounds, by day and then by the packet name's
    /// number. The one error is want of memory.
    pub fn pruned(&self, table: u8, bounds: &Bounds) -> Result<PartList, AllocError>
        requires { table < self.now.tables }
        ensures exactly { IfOk result (λ parts. (p : APartition) → Contains parts p
            ↔ (Contains (partitions_of (rows_in_table table self.now.items)) p × MayHold bounds.now p)) }
        ensures rising { IfOk result (λ parts. AreRising parts) }
    {
        self.tables[table as usize].pruned(bounds)
    }

    /// The spans of time in which a packet name has rows in a table. The one error is want of memory.
    pub fn spans(&self, table: u8, pname: u16) -> Result<Spans, AllocError>
        requires { table < self.now.tables }
        ensures { IfOk result (λ spans. spans
            ≡ spans_of_times (times_of pname (named_times_of (rows_in_table table self.now.items)))) }
    {
        self.tables[table as usize].spans(pname)
    }
}
