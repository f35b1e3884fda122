//! Sources of rows.

ghost use Rattle.std.specs.Prelude.{◌≡◌, IfOk, IfErr, IfSome, OnOk};
ghost use Rattle.std.specs.List.{AllByRecursion};
ghost use Rattle.arch_types.specs.Table.{range_of};
ghost use Rattle.partitions.specs.Partitions.{AreRising};
ghost use Rattle.replay_merge.specs.RowSource.{RowSourceState, AreRowSourceHistories, AreRowsIn, AreRowsOf, IsPositionOf, IsRowBetween, AreInKeyOrder, IsRowFault, UsedRowSource, range_of_parts, rows_of_partition};

use arch_types::key::Key;
use arch_types::row::Rows;
use arch_types::row_fault::RowFault;
use partitions::partition::Partition;
use partitions::rows::{append_between, merged_by_key};
use std::alloc::Global;

/// What has the rows of tables.
pub trait RowSource {
    /// The history that it tells, the rows that it may give, and how often it has failed.
    ghost state: { Self → RowSourceState };

    /// What reading leaves of it.
    ghost leaves: { Self → Self → Type 0 };

    /// The rows of a partition of a table with a position below the front, in the order of their keys. Refused with `DiskFault`,
    /// `Damaged` or `OutOfMemory`, and the same call may be made again.
    fn rows(
        &mut self,
        alloc: Global,
        table: u8,
        partition: &Partition,
        front: u64,
    ) -> Result<Rows, RowFault>
        ensures told { IfOk result (λ rows. IfSome (state self.old).history (λ history.
            rows ≡ rows_of_partition table partition.now (history front))) }
        ensures given { IfOk result (AllByRecursion (state self.old).may_give) }
        ensures each { IfOk result (AreRowsOf table partition.now) }
        ensures history { IfSome (state self.old).history AreRowSourceHistories }
        ensures refused { IfErr result (IsRowFault (state self.old) (state self.new)) }
        ensures no_fault { OnOk result ((state self.new).faults ≡ (state self.old).faults) }
        ensures source { UsedRowSource (state self.old) (state self.new) }
        ensures left { leaves self.old self.new };

    /// The rows of some partitions of a table, which rise, with `from <= time < to` and a position below the front, in the order of
    /// their keys. Refused as `rows`, and the same call may be made again.
    ///
    /// What stands here reads each partition whole, and puts the rows in order once: a source that finds a range by itself says how (D-156).
    fn rows_between(
        &mut self,
        alloc: Global,
        table: u8,
        parts: &[Partition],
        from: i64,
        to: i64,
        front: u64,
    ) -> Result<Rows, RowFault>
        requires { AreRising parts.now }
        ensures told { IfOk result (λ rows. IfSome (state self.old).history (λ history.
            rows ≡ range_of_parts table parts.now from to (history front))) }
        ensures given { IfOk result (AllByRecursion (state self.old).may_give) }
        ensures each { IfOk result (AllByRecursion (IsRowBetween table parts.now from to)) }
        ensures in_key_order { IfOk result AreInKeyOrder }
        ensures refused { IfErr result (IsRowFault (state self.old) (state self.new)) }
        ensures no_fault { OnOk result ((state self.new).faults ≡ (state self.old).faults) }
        ensures source { UsedRowSource (state self.old) (state self.new) }
        ensures left { leaves self.old self.new }
    {
        let mut rows = Vec::new(alloc);
        for partition in parts {
            let part_rows = self.rows(alloc, table, partition, front)?;
            rows = append_between(rows, part_rows, from, to)?;
        }
        Ok(merged_by_key(rows)?)
    }

    /// The rows of a table with `from <= time < to` and a position below the front, in the order of their keys, no key twice. Refused as
    /// `rows`, and the same call may be made again.
    fn range(
        &mut self,
        alloc: Global,
        table: u8,
        from: i64,
        to: i64,
        front: u64,
    ) -> Result<Rows, RowFault>
        ensures told { IfOk result (λ rows. IfSome (state self.old).history (λ history.
            rows ≡ range_of table from to (history front))) }
        ensures given { IfOk result (AllByRecursion (state self.old).may_give) }
        ensures each { IfOk result (AreRowsIn table from to) }
        ensures history { IfSome (state self.old).history AreRowSourceHistories }
        ensures refused { IfErr result (IsRowFault (state self.old) (state self.new)) }
        ensures no_fault { OnOk result ((state self.new).faults ≡ (state self.old).faults) }
        ensures source { UsedRowSource (state self.old) (state self.new) }
        ensures left { leaves self.old self.new };

    /// The position of the row that has a key in a table: one of the whole history, of which fronts are lengths. Refused as `rows`, and
    /// the same call may be made again.
    fn position(&mut self, alloc: Global, table: u8, key: Key) -> Result<Option<u64>, RowFault>
        ensures told { IfOk result (λ found. IfSome (state self.old).history (λ history.
            IsPositionOf history table key found)) }
        ensures history { IfSome (state self.old).history AreRowSourceHistories }
        ensures refused { IfErr result (IsRowFault (state self.old) (state self.new)) }
        ensures no_fault { OnOk result ((state self.new).faults ≡ (state self.old).faults) }
        ensures source { UsedRowSource (state self.old) (state self.new) }
        ensures left { leaves self.old self.new };

    /// It is left as it was, where nothing is read.
    ghost none_left: { (source : Self) → leaves source source };

    /// What reading leaves of what reading left is what reading leaves.
    ghost both_left: { (first between last : Self) → leaves first between → leaves between last → leaves first last };
}
