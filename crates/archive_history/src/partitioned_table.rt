//! A table with its partitions.

ghost use Rattle.std.specs.Prelude.{◌≡◌, ℕ, ◌+◌, ◌<◌, ◌≤◌, ◌↔◌, [], max, false, filter, length, Contains, IfOk, OnOk, OnErr, IfSome, IfNone, IsPermutation, IsSortedByKey};
ghost use Rattle.std.specs.List.{list_any, AllByRecursion};
ghost use Rattle.arch_types.specs.History.{has_key};
ghost use Rattle.arch_types.specs.Order.{key_cmp};
ghost use Rattle.histogram.specs.Times.{spans_of_times, times_of};
ghost use Rattle.partitions.specs.declared.partition.Partition.{Partition as APartition};
ghost use Rattle.partitions.specs.Bounds.{MayHold};
ghost use Rattle.partitions.specs.Partitions.{AreRising};
ghost use Rattle.partitions.specs.Rows.{is_of_partition, is_of_parts, partitions_of};
ghost use Rattle.yarch_table.specs.Stored.{seen_at, seen_between, rows_of, IsInserted, IsKeptAt};
ghost use Rattle.archive_history.specs.PartitionedTable.{named_times_of, rows_at_places, HaveOwnKeys, IsHistogramWith};

use crate::ranged::{rows_all_of_parts, rows_in_steps};
use arch_types::inserted::Inserted;
use arch_types::key::Key;
use arch_types::row::{Row, Rows};
use arch_types::spans::Spans;
use histogram::histogram::Histogram;
use partitions::bounds::Bounds;
use partitions::lists::PartList;
use partitions::partition::Partition;
use partitions::partitions::Partitions;
use partitions::places::Places;
use partitions::rows::{append_between, are_whole_days, merged_by_key};
use std::alloc::{AllocError, Global};
use std::marker::Model;
use yarch_table::rows::TableRows;
use yarch_table::table::{Stored, Table};

/// The rows of one table, and which of them each partition has.
#[derive(Drop)]
pub struct PartitionedTable {
    table: Table,
    /// The partition of each row, noted in the order of the rows.
    partitions: Partitions,
    /// The records of rows that are in memory no longer, of which there are none yet.
    gone: Histogram,
}

impl Model for PartitionedTable {
    ghost use Rattle.std.specs.Prelude.{[]};
    ghost use Rattle.yarch_table.specs.Stored.{TableView};
    ghost use Rattle.archive_history.specs.PartitionedTable.{IsPartitioned};

    ghost Value = { TableView };

    ghost view = { λ t. t.table };

    ghost invariant = { λ t. IsPartitioned [] t.table t.partitions t.gone };
}

/// The rows at places with a position below a front, in the order of the places: so many at most are expected.
fn rows_of_places(
    alloc: Global,
    table: &Table,
    mut places: Places<'_>,
    count: usize,
    front: u64,
) -> Result<Vec<Row>, AllocError>
    requires { AllByRecursion (λ place. place < length table.now.stored) places }
    ensures { IfOk result (λ rows. rows.items ≡ rows_at_places table.now.stored front places.entry) }
{
    let mut rows = Vec::with_capacity(alloc, count)?;
    while let Some(place) = places.next() {
        let stored = table.row_at(place);
        if stored.position < front {
            rows.push(stored.row.copy()?)?;
        }
    }
    Ok(rows)
}

/// The records of a packet name among those of rows that are in memory no longer, with the times of those rows that are there and
/// have it. The one error is want of memory.
fn histogram_of_name(
    gone: &Histogram,
    stored: &[Stored],
    pname: u16,
) -> Result<Histogram, AllocError>
    ensures { IfOk result (λ histogram.
        IsHistogramWith gone.now pname histogram (named_times_of (rows_of stored.now))) }
{
    let mut histogram = gone.of_name(pname)?;
    for kept in stored {
        if kept.row.pname == pname {
            histogram.reserve(1)?;
            histogram.add(pname, kept.row.key.time);
        }
    }
    Ok(histogram)
}

/// The rows in the order of their keys.
fn in_key_order(mut rows: Vec<Row>) -> Rows
    ensures same { IsPermutation rows.items result }
    ensures sorted { IsSortedByKey (λ row. row.key) key_cmp result }
{
    rows.sort_unstable_by_key(|row| row.key);
    Rows::from_vec(rows)
}

impl PartitionedTable {
    /// A table without rows or room. The one error is want of memory.
    pub fn new(alloc: Global) -> Result<Self, AllocError>
        ensures { IfOk result (λ t. t ≡ record { stored = []; room = 0 }) }
    {
        Ok(PartitionedTable {
            table: Table::new(alloc)?,
            partitions: Partitions::new(alloc),
            gone: Histogram::new(alloc),
        })
    }

    /// Makes room for at least so many more rows. The one error is want of memory, or of places of 32 bits, and then
    /// all is as before.
    pub fn reserve(&mut self, rows: u64) -> Result<(), AllocError>
        ensures ok { OnOk result (self.new ≡ record { stored = self.old.stored; room = max self.old.room rows }) }
        ensures err { OnErr result (self.new ≡ self.old) }
    {
        // The table comes last, since its room is the one that callers see.
        self.partitions.reserve(rows)?;
        self.table.reserve(rows)
    }

    /// Adds a row with its position in the history. Where a row of its key is there, that one stays, and the answer is
    /// its position. Takes no memory.
    pub fn insert(&mut self, row: Row, position: u64) -> Inserted
        requires { 0 < self.old.room }
        ensures inserted { IsInserted self.old self.new row position result }
        ensures left { self.old.room ≤ self.new.room + 1 }
    {
        let Key { time, .. } = row.key;
        let pname = row.pname;
        match self.table.insert(row, position) {
            Inserted::New(position) => {
                self.partitions.add(time, pname);
                Inserted::New(position)
            }
            Inserted::Duplicate(position) => Inserted::Duplicate(position),
        }
    }

    /// The position of the row that has a key.
    pub fn position(&self, key: Key) -> Option<u64>
        ensures some { IfSome result (IsKeptAt self.now.stored key) }
        ensures none { IfNone result (list_any (has_key key) (rows_of self.now.stored) ≡ false) }
    {
        self.table.position(key)
    }

    /// The rows with a position below the front and `from <= time < to`, in the order of their keys. Times are in
    /// milliseconds.
    pub fn range_at(&self, front: u64, from: i64, to: i64) -> TableRows<'_>
        ensures { result ≡ seen_between front from to self.now.stored }
    {
        self.table.range_at(front, from, to)
    }

    /// The rows of a partition with a position below the front, in the order of their keys. The one error is want of
    /// memory.
    pub fn partition_rows(
        &self,
        alloc: Global,
        partition: &Partition,
        front: u64,
    ) -> Result<Rows, AllocError>
        ensures { IfOk result (λ rows. rows ≡ filter (is_of_partition partition.now) (seen_at front self.now.stored)) }
    {
        let places = self.partitions.places_of(*partition);
        // No more rows than the front have a position below it.
        let count = self.partitions.row_count(*partition).min(front as usize);
        let rows = rows_of_places(alloc, &self.table, places, count, front)?;
        Ok(in_key_order(rows))
    }

    /// The rows of some partitions with a position below the front and `from <= time < to`, in the order of their keys. The rows of
    /// the range are looked at, of whole days as long as they are of the partitions, else as many as the partitions have, and those
    /// behind the front passed over uncounted; only where the range has others, or more, the partitions are read too. The one error
    /// is want of memory.
    pub fn rows_between(
        &self,
        alloc: Global,
        parts: &[Partition],
        from: i64,
        to: i64,
        front: u64,
    ) -> Result<Rows, AllocError>
        requires { AreRising parts.now }
        ensures { IfOk result (λ rows. rows
            ≡ filter (is_of_parts parts.now) (seen_between front from to self.now.stored)) }
    {
        match self.rows_by_keys(alloc, parts, from, to, front)? {
            Some(rows) => Ok(rows),
            None => self.rows_by_partitions(alloc, parts, from, to, front),
        }
    }

    /// The same by the index of keys, unless the range has rows of other partitions in whole days, or more rows than the
    /// partitions.
    fn rows_by_keys(
        &self,
        alloc: Global,
        parts: &[Partition],
        from: i64,
        to: i64,
        front: u64,
    ) -> Result<Option<Rows>, AllocError>
        requires { AreRising parts.now }
        ensures { IfOk result (λ found. IfSome found (λ rows. rows
            ≡ filter (is_of_parts parts.now) (seen_between front from to self.now.stored))) }
    {
        let range = self.table.range_at(front, from, to);
        // Among the rows of whole days are all of the partitions: the index serves where there are no others.
        if are_whole_days(parts, from, to) {
            return rows_all_of_parts(alloc, range, parts);
        }
        rows_in_steps(alloc, range, parts, self.partitions.steps_of(parts))
    }

    /// Each row has a key of its own. This does nothing but tell a proof so.
    fn has_own_keys(&self)
        ensures { HaveOwnKeys (rows_of self.now.stored) }
    {
        let _ = &self.table;
    }

    /// The same by the places of the partitions.
    fn rows_by_partitions(
        &self,
        alloc: Global,
        parts: &[Partition],
        from: i64,
        to: i64,
        front: u64,
    ) -> Result<Rows, AllocError>
        requires { AreRising parts.now }
        ensures { IfOk result (λ rows. rows
            ≡ filter (is_of_parts parts.now) (seen_between front from to self.now.stored)) }
    {
        self.has_own_keys();
        let mut rows = Vec::new(alloc);
        for partition in parts {
            let part_rows = self.partition_rows(alloc, partition, front)?;
            rows = append_between(rows, part_rows, from, to)?;
        }
        merged_by_key(rows)
    }

    /// The partitions that hold a row and may hold one in the bounds, by day and then by the packet name's number.
    /// The one error is want of memory.
    pub fn pruned(&self, bounds: &Bounds) -> Result<PartList, AllocError>
        ensures exactly { IfOk result (λ parts. (p : APartition) → Contains parts p
            ↔ (Contains (partitions_of (rows_of self.now.stored)) p × MayHold bounds.now p)) }
        ensures rising { IfOk result (λ parts. AreRising parts) }
    {
        self.partitions.pruned(bounds)
    }

    /// The spans of time in which a packet name has rows, counted in one pass over all rows in memory, behind what is kept
    /// of the others. The one error is want of memory.
    pub fn spans(&self, pname: u16) -> Result<Spans, AllocError>
        ensures { IfOk result (λ spans. spans
            ≡ spans_of_times (times_of pname (named_times_of (rows_of self.now.stored)))) }
    {
        let histogram = histogram_of_name(&self.gone, self.table.stored(), pname)?;
        histogram.records(pname)
    }
}
