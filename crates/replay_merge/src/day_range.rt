//! Ranges of times within days.

ghost use Rattle.std.specs.Prelude.{◌≡◌, ℤ, ◌<ℤ◌, ◌≤ℤ◌, true, IfOk, IfErr, IfSome, OnOk};
ghost use Rattle.std.specs.List.{AllByRecursion};
ghost use Rattle.arch_types.specs.declared.row.Row.{Row as ARow};
ghost use Rattle.arch_types.specs.Table.{is_in_time_range};
ghost use Rattle.partitions.specs.Partitions.{AreRising};
ghost use Rattle.partitions.specs.Rows.{is_of_parts};
ghost use Rattle.replay_merge.specs.RowSource.{AreInKeyOrder, IsRowBetween, IsRowFault, UsedRowSource, range_of_parts};

use crate::row_source::RowSource;
use arch_types::row::Rows;
use arch_types::row_fault::RowFault;
use partitions::partition::Partition;
use std::alloc::Global;

const MILLIS_PER_DAY: i64 = 86_400_000;

/// Days up to so far from 1970 have times of 64 bits.
const FAR: i64 = 100_000_000_000;

fn later(a: i64, b: i64) -> i64
    ensures not_below { (a ≤ℤ result) × (b ≤ℤ result) }
    ensures least { (time : ℤ) → a ≤ℤ time → b ≤ℤ time → result ≤ℤ time }
{
    if a < b { b } else { a }
}

fn earlier(a: i64, b: i64) -> i64
    ensures not_above { (result ≤ℤ a) × (result ≤ℤ b) }
    ensures greatest { (time : ℤ) → time <ℤ a → time <ℤ b → time <ℤ result }
{
    if a < b { a } else { b }
}

/// The part of a range that lies in the days of some partitions, which rise. That of far days isn't cut.
fn cut_to_days(parts: &[Partition], from: i64, to: i64) -> (i64, i64)
    requires { AreRising parts.now }
    ensures { (row : ARow) → is_of_parts parts.now row ≡ true
        → is_in_time_range result.0 result.1 row ≡ is_in_time_range from to row }
{
    if parts.is_empty() {
        return (from, to);
    }
    let first = parts[0].day;
    let last = parts[parts.len() - 1].day;
    if first < -FAR || FAR < first || last < -FAR || FAR < last {
        return (from, to);
    }
    let start = first * MILLIS_PER_DAY;
    let end = (last + 1) * MILLIS_PER_DAY;
    (later(from, start), earlier(to, end))
}

/// The rows of some partitions that a source gives of a range (`RowSource::rows_between`), asked for the part of it that lies in the
/// partitions' days: so a source that finds a range by keys meets no rows of other days.
pub fn rows_on_days<R: RowSource>(
    alloc: Global,
    source: &mut R,
    table: u8,
    parts: &[Partition],
    from: i64,
    to: i64,
    front: u64,
) -> Result<Rows, RowFault>
    requires { AreRising parts.now }
    ensures told { IfOk result (λ rows. IfSome (R.state source.old).history (λ history.
        rows ≡ range_of_parts table parts.now from to (history front))) }
    ensures given { IfOk result (AllByRecursion (R.state source.old).may_give) }
    ensures each { IfOk result (AllByRecursion (IsRowBetween table parts.now from to)) }
    ensures in_key_order { IfOk result AreInKeyOrder }
    ensures refused { IfErr result (IsRowFault (R.state source.old) (R.state source.new)) }
    ensures no_fault { OnOk result ((R.state source.new).faults ≡ (R.state source.old).faults) }
    ensures source { UsedRowSource (R.state source.old) (R.state source.new) }
    ensures left { R.leaves source.old source.new }
{
    let (start, end) = cut_to_days(parts, from, to);
    source.rows_between(alloc, table, parts, start, end, front)
}
