//! Partitions and spans of all rows: those in runs, by their sums, and those of the log.

ghost use Rattle.std.specs.Prelude.{◌≡◌, ◌↔◌, ◌<◌, Contains, IfOk};
ghost use Rattle.archive_history.specs.PartitionedTable.{named_times_of};
ghost use Rattle.histogram.specs.Times.{spans_of_times, times_of};
ghost use Rattle.partitions.specs.declared.partition.Partition.{Partition as APartition};
ghost use Rattle.partitions.specs.Bounds.{MayHold};
ghost use Rattle.partitions.specs.Partitions.{AreRising};
ghost use Rattle.partitions.specs.Rows.{partitions_of};
ghost use Rattle.sealed_history.specs.SealedHistory.{counted_in_table};

use crate::history::SealedHistory;
use arch_types::spans::Spans;
use partitions::bounds::Bounds;
use partitions::lists::{PartList, merged_parts};
use std::alloc::AllocError;

impl SealedHistory {
    /// The partitions of a table that hold a row and may hold one in the bounds, by day and then by the packet name's
    /// number. The one error is want of memory.
    pub fn pruned(&self, table: u8, bounds: &Bounds) -> Result<PartList, AllocError>
        requires { table < self.now.tables }
        ensures exactly { IfOk result (λ parts. (p : APartition) → Contains parts p
            ↔ (Contains (partitions_of (counted_in_table table self.now)) p × MayHold bounds.now p)) }
        ensures rising { IfOk result (λ parts. AreRising parts) }
    {
        let of_log = self.log.pruned(table, bounds)?;
        if self.sums.count() == 0 {
            return Ok(of_log);
        }
        let of_runs = self.sums.tables()[table as usize]
            .partitions()
            .pruned(bounds)?;
        merged_parts(of_runs, of_log)
    }

    /// The spans of time in which a packet name has rows in a table. The one error is want of memory.
    pub fn spans(&self, table: u8, pname: u16) -> Result<Spans, AllocError>
        requires { table < self.now.tables }
        ensures { IfOk result (λ spans. spans
            ≡ spans_of_times (times_of pname (named_times_of (counted_in_table table self.now)))) }
    {
        let of_log = self.log.spans(table, pname)?;
        if self.sums.count() == 0 {
            return Ok(of_log);
        }
        let mut histogram = self.sums.tables()[table as usize].spans().of_name(pname)?;
        for span in of_log.as_slice() {
            histogram.add_span(pname, *span)?;
        }
        histogram.records(pname)
    }
}
