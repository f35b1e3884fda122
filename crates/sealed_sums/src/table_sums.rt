//! What the rows of one table come to.

ghost use Rattle.std.specs.Prelude.{◌≡◌, ℕ, ◌+◌, ◌<◌, ◌^◌, List, [], ◌++◌, OnOk, OnErr};
ghost use Rattle.arch_types.specs.declared.row.Row.{Row as ARow};
ghost use Rattle.partitions.specs.declared.partition.Partition.{Partition as APartition};
ghost use Rattle.partitions.specs.Counts.{rows_counted};
ghost use Rattle.sealed_sums.specs.Stretch.{IsStretchOf};
ghost use Rattle.sealed_sums.specs.TableSums.{AreTableSumsOf};

use crate::stretch::Stretch;
use histogram::histogram::Histogram;
use partitions::counts::PartitionCounts;
use std::alloc::{AllocError, Global};
use std::marker::Model;

/// How many rows each partition of a table has, and the records of its packet names.
#[derive(Drop)]
pub struct TableSums {
    partitions: PartitionCounts,
    spans: Histogram,
}

impl Model for TableSums {
    ghost use Rattle.sealed_sums.specs.TableSums.{TableSumsView};

    ghost Value = { TableSumsView };

    ghost view = { λ s. record { partitions = s.partitions; spans = s.spans } };
}

impl TableSums {
    /// No row. Takes no memory.
    pub fn new(alloc: Global) -> Self
        ensures { AreTableSumsOf [] result }
    {
        TableSums {
            partitions: PartitionCounts::new(alloc),
            spans: Histogram::new(alloc),
        }
    }

    /// How many rows each partition has.
    pub fn partitions(&self) -> &PartitionCounts
        ensures { result.now ≡ self.now.partitions }
    {
        &self.partitions
    }

    /// The records of each packet name.
    pub fn spans(&self) -> &Histogram
        ensures { result.now ≡ self.now.spans }
    {
        &self.spans
    }

    /// Adds rows that go together. The one error is want of memory, and then they are as if not told.
    pub(crate) fn add_stretch(&mut self, stretch: &Stretch) -> Result<(), AllocError>
        requires stretch { (exponent : ℕ) × (rows : List ARow) × IsStretchOf exponent stretch.now rows }
        requires small { (p : APartition) → rows_counted self.old.partitions.counts p + stretch.now.len < 2 ^ 32 }
        ensures sums { OnOk result ((exponent : ℕ) (before rows : List ARow) → IsStretchOf exponent stretch.now rows →
            AreTableSumsOf before self.old → AreTableSumsOf (before ++ rows) self.new) }
        ensures kept { OnErr result ((before : List ARow) → AreTableSumsOf before self.old →
            AreTableSumsOf before self.new) }
    {
        self.partitions.reserve(1)?;
        self.spans.add_span(stretch.partition.pname, stretch.span)?;
        self.partitions
            .add_rows(stretch.partition, stretch.len as u32);
        Ok(())
    }
}
