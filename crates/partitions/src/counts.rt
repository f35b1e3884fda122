//! How many rows each partition has, where their places aren't known.

ghost use Rattle.std.specs.Prelude.{◌≡◌, ◌+◌, ◌^◌, ◌<◌, ◌≤◌, ◌↔◌, [], ◌++◌, List, true, max, filter, nat_eq, replicate, IfOk, OnOk, OnErr, Contains};
ghost use Rattle.std.specs.BTreeMap.{insert_entry};
ghost use Rattle.std.specs.List.{list_any};
ghost use Rattle.block_map.specs.Rising.{IsRising};
ghost use Rattle.partitions.specs.declared.partition.Partition.{Partition as APartition};
ghost use Rattle.partitions.specs.Partition.{partition_cmp};
ghost use Rattle.partitions.specs.Bounds.{MayHold};
ghost use Rattle.partitions.specs.Counts.{rows_counted, AreCountsOf};
ghost use Rattle.partitions.specs.NameDayFilter.{is_on};
ghost use Rattle.partitions.specs.Partitions.{AreRising};

use crate::bounds::Bounds;
use crate::days::Days;
use crate::indexes::on_days;
use crate::lists::PartList;
use crate::partition::Partition;
use block_map::growing_index::GrowingIndex;
use std::alloc::{AllocError, Global};
use std::marker::Model;

/// How many rows of a table each partition has. Their places aren't known.
#[derive(Drop)]
pub struct PartitionCounts {
    alloc: Global,
    /// The number of rows of each partition that has any.
    counts: GrowingIndex<Partition, u32>,
}

impl Model for PartitionCounts {
    ghost use Rattle.partitions.specs.Counts.{HoldRows, PartitionCountsView};

    ghost Value = { PartitionCountsView };

    ghost view = { λ c. record { counts = c.counts.entries; room = c.counts.room } };

    ghost invariant = { λ c. HoldRows c.counts.entries };
}

impl PartitionCounts {
    /// No row, and no room. Takes no memory.
    pub fn new(alloc: Global) -> Self
        ensures { result ≡ record { counts = []; room = 0 } }
    {
        PartitionCounts {
            alloc,
            counts: GrowingIndex::new(alloc),
        }
    }

    /// Makes room for at least so many more partitions. The one error is want of memory, and then all is as before.
    pub fn reserve(&mut self, partitions: usize) -> Result<(), AllocError>
        ensures ok { OnOk result (self.new ≡ record { counts = self.old.counts; room = max self.old.room partitions }) }
        ensures err { OnErr result (self.new ≡ self.old) }
    {
        self.counts.reserve(partitions)
    }

    /// How many rows a partition has.
    pub fn row_count(&self, partition: Partition) -> u32
        ensures { result ≡ rows_counted self.now.counts partition }
    {
        match self.counts.get(partition) {
            Some(count) => count,
            None => 0,
        }
    }

    /// Counts so many more rows of a partition. Takes no memory.
    pub fn add_rows(&mut self, partition: Partition, count: u32)
        requires room { 0 < self.old.room }
        requires some { 0 < count }
        requires small { rows_counted self.old.counts partition + count < 2 ^ 32 }
        ensures rows { (noted : List APartition) → AreCountsOf self.old noted →
            AreCountsOf self.new (noted ++ replicate count partition) }
        ensures left { self.old.room ≤ self.new.room + 1 }
    {
        let rows = self.row_count(partition) + count;
        put_count(&mut self.counts, partition, rows);
    }

    /// The partitions that hold a row and may hold one in the bounds, by day and then by the packet name's number. The days of
    /// the bounds are walked, whatever their names. The one error is want of memory.
    pub fn pruned(&self, bounds: &Bounds) -> Result<PartList, AllocError>
        ensures exactly { IfOk result (λ parts. (noted : List APartition) → AreCountsOf self.now noted → (p : APartition) →
            Contains parts p ↔ (Contains noted p × MayHold bounds.now p)) }
        ensures rising { IfOk result (λ parts. AreRising parts) }
    {
        if bounds.to <= bounds.from {
            return Ok(PartList::new(self.alloc));
        }
        let parts = self.on_days(&Days::of(bounds))?;
        match &bounds.names {
            Some(names) => Ok(named(parts, names.as_slice())),
            None => Ok(parts),
        }
    }

    /// The partitions that hold a row on some days.
    fn on_days(&self, days: &Days) -> Result<PartList, AllocError>
        ensures exactly { IfOk result (λ parts. (noted : List APartition) → AreCountsOf self.now noted → (p : APartition) →
            Contains parts p ↔ (Contains noted p × (is_on days.now p.day ≡ true))) }
        ensures rising { IfOk result (λ parts. AreRising parts) }
    {
        on_days(self.alloc, &self.counts, days)
    }
}

/// Gives a partition this count. Takes no memory.
fn put_count(counts: &mut GrowingIndex<Partition, u32>, partition: Partition, count: u32)
    requires { 0 < counts.old.room }
    ensures entries { counts.new.entries ≡ insert_entry partition_cmp counts.old.entries partition count }
    ensures rising { IsRising partition_cmp counts.new.entries }
    ensures left { counts.old.room ≤ counts.new.room + 1 }
{
    if counts.replace(partition, count).is_none() {
        counts.insert(partition, count);
    }
}

/// Whether a partition has one of these packet names.
fn is_named(part: &Partition, names: &[u16]) -> bool
    ensures { result ≡ list_any (nat_eq part.now.pname) names.now }
{
    names.contains(&part.pname)
}

/// Takes out the partitions that have none of these packet names.
fn keep_named(parts: &mut Vec<Partition>, names: &[u16])
    ensures { parts.new.items ≡ filter (λ p. list_any (nat_eq p.pname) names.now) parts.old.items }
{
    parts.retain(|part| is_named(part, names));
}

/// Those of some partitions that have one of these packet names.
fn named(parts: PartList, names: &[u16]) -> PartList
    ensures { result ≡ filter (λ p. list_any (nat_eq p.pname) names.now) parts }
{
    let mut parts = parts.into_vec();
    keep_named(&mut parts, names);
    PartList::from_vec(parts)
}
