//! The next rows of a replay, read of a source.

ghost use Rattle.std.specs.Prelude.{◌≡◌, ◌<◌, ◌≤◌, ◌++◌, [], length, drop, filter, IfOk, IfErr, IfSome, OnOk};
ghost use Rattle.std.specs.List.{AllByRecursion};
ghost use Rattle.partitions.specs.Partitions.{AreRising};
ghost use Rattle.replay_merge.specs.Replay.{is_listed_name};
ghost use Rattle.replay_merge.specs.RowSource.{AreInKeyOrder, IsRowFault, UsedRowSource};
ghost use Rattle.replay_merge.specs.Fetch.{wanted_in, IsWanted, EndsDay};

use crate::day_range::rows_on_days;
use crate::row_source::RowSource;
use crate::wanted::Wanted;
use arch_types::row::Rows;
use arch_types::row_fault::RowFault;
use partitions::partition::Partition;
use std::alloc::{AllocError, Global};

/// Those of some partitions whose packet names are wanted. The one error is want of memory.
fn listed_parts(
    alloc: Global,
    wanted: &Wanted,
    parts: &[Partition],
) -> Result<Vec<Partition>, AllocError>
    ensures { IfOk result (λ listed. listed.items
        ≡ filter (λ partition. is_listed_name wanted.now.names partition.pname) parts.now) }
{
    let mut listed = Vec::with_capacity(alloc, parts.len())?;
    for partition in parts {
        if wanted.has_name(partition.pname) {
            listed.push(*partition)?;
        }
    }
    Ok(listed)
}

/// How many of some partitions, which rise, are of the first one's day.
fn first_day(parts: &[Partition]) -> usize
    requires rising { AreRising parts.now }
    requires some { 0 < length parts.now }
    ensures within { result ≤ length parts.now }
    ensures some { 0 < result }
    ensures day { EndsDay parts.now result }
{
    let day = parts[0].day;
    parts.partition_point(|partition| partition.day <= day)
}

/// The wanted rows of the first day of some partitions, in the order of their keys, and how many partitions were read for them.
fn read_day<R: RowSource>(
    alloc: Global,
    source: &mut R,
    wanted: &Wanted,
    parts: &[Partition],
) -> Result<(usize, Rows), RowFault>
    requires rising { AreRising parts.now }
    requires some { 0 < length parts.now }
    ensures within { IfOk result (λ day. day.0 ≤ length parts.now) }
    ensures some { IfOk result (λ day. 0 < day.0) }
    ensures in_order { IfOk result (λ day. AreInKeyOrder day.1) }
    ensures rows { IfOk result (λ day. IfSome (R.state source.old).history (λ history.
        wanted_in wanted.now parts.now history ≡ day.1 ++ wanted_in wanted.now (drop day.0 parts.now) history)) }
    ensures given { IfOk result (λ day. AllByRecursion (R.state source.old).may_give day.1) }
    ensures each { IfOk result (λ day. AllByRecursion (IsWanted wanted.now) day.1) }
    ensures refused { IfErr result (IsRowFault (R.state source.old) (R.state source.new)) }
    ensures no_fault { OnOk result ((R.state source.new).faults ≡ (R.state source.old).faults) }
    ensures source { UsedRowSource (R.state source.old) (R.state source.new) }
    ensures left { R.leaves source.old source.new }
{
    let count = first_day(parts);
    let listed = listed_parts(alloc, wanted, &parts[..count])?;
    let rows = rows_on_days(
        alloc,
        source,
        wanted.table,
        listed.as_slice(),
        wanted.from,
        wanted.to,
        wanted.front,
    )?;
    Ok((count, rows))
}

/// The wanted rows of the first day of some partitions that has any, in the order of their keys, and how many partitions were read
/// for them: no rows where no day has any, and then all were read.
pub(crate) fn fetch<R: RowSource>(
    alloc: Global,
    source: &mut R,
    wanted: &Wanted,
    parts: &[Partition],
) -> Result<(usize, Rows), RowFault>
    requires { AreRising parts.now }
    ensures within { IfOk result (λ day. day.0 ≤ length parts.now) }
    ensures rows { IfOk result (λ day. IfSome (R.state source.old).history (λ history.
        wanted_in wanted.now parts.now history ≡ day.1 ++ wanted_in wanted.now (drop day.0 parts.now) history)) }
    ensures end { IfOk result (λ day. day.1 ≡ [] → day.0 ≡ length parts.now) }
    ensures none { IfOk result (λ day. parts.now ≡ [] → day.1 ≡ []) }
    ensures read { IfOk result (λ day. (day.1 ≡ [] → ⊥) → 0 < day.0) }
    ensures in_order { IfOk result (λ day. AreInKeyOrder day.1) }
    ensures given { IfOk result (λ day. AllByRecursion (R.state source.old).may_give day.1) }
    ensures each { IfOk result (λ day. AllByRecursion (IsWanted wanted.now) day.1) }
    ensures refused { IfErr result (IsRowFault (R.state source.old) (R.state source.new)) }
    ensures no_fault { OnOk result ((R.state source.new).faults ≡ (R.state source.old).faults) }
    ensures source { UsedRowSource (R.state source.old) (R.state source.new) }
    ensures left { R.leaves source.old source.new }
{
    let mut read = 0;
    while read < parts.len() {
        let (count, rows) = read_day(alloc, source, wanted, &parts[read..])?;
        read += count;
        if rows.len() > 0 {
            return Ok((read, rows));
        }
    }
    Ok((read, Rows::new(alloc)))
}
