//! Partitions, day by day.

ghost use Rattle.std.specs.Prelude.{◌≡◌, ◌↔◌, ◌<◌, ◌≤◌, ◌++◌, List, length, filter, Contains, IfOk};
ghost use Rattle.arch_types.specs.declared.row.Row.{Row as ARow};
ghost use Rattle.partitions.specs.declared.partition.Partition.{Partition as APartition};
ghost use Rattle.partitions.specs.Partitions.{AreRising};
ghost use Rattle.partitions.specs.Rows.{is_of_parts};
ghost use Rattle.replay_merge.specs.Fetch.{EndsDay};
ghost use Rattle.replay_merge.specs.RowSource.{AreInKeyOrder};
ghost use Rattle.arch_types.specs.Directions.{in_direction};

use arch_types::direction::Direction;
use partitions::lists::PartList;
use partitions::partition::Partition;
use std::alloc::{AllocError, Global};

/// Partitions in their order, each once. The one error is want of memory.
pub(crate) fn rising_once(alloc: Global, parts: &PartList) -> Result<Vec<Partition>, AllocError>
    ensures same { IfOk result (λ rising. (partition : APartition) → Contains rising.items partition ↔ Contains parts.now partition) }
    ensures rising { IfOk result (λ rising. AreRising rising.items) }
{
    let copy = parts.copy(alloc)?;
    let mut rising = copy.into_vec();
    rising.sort_unstable();
    rising.dedup();
    Ok(rising)
}

/// How many of some partitions are of the first one's day.
fn first_day(parts: &[Partition]) -> usize
    requires rising { AreRising parts.now }
    requires some { 0 < length parts.now }
    ensures within { result ≤ length parts.now }
    ensures some { 0 < result }
    ensures day { EndsDay parts.now result }
{
    let day = parts[0].day;
    parts.partition_point(|partition| partition.day <= day)
}

/// How many of some partitions are of a day before the last one's.
fn before_last_day(parts: &[Partition]) -> usize
    requires rising { AreRising parts.now }
    requires some { 0 < length parts.now }
    ensures some { result < length parts.now }
    ensures day { EndsDay parts.now result }
{
    let day = parts[parts.len() - 1].day;
    parts.partition_point(|partition| partition.day < day)
}

/// The partitions of the day that comes first in a direction, and those of the days behind it.
pub(crate) fn split_day(parts: &[Partition], direction: Direction) -> (&[Partition], &[Partition])
    requires rising { AreRising parts.now }
    requires some { 0 < length parts.now }
    ensures day { AreRising result.0.now }
    ensures rest { AreRising result.1.now }
    ensures nearer { length result.1.now < length parts.now }
    ensures rows { (rows : List ARow) → AreInKeyOrder rows → in_direction direction (filter (is_of_parts parts.now) rows)
        ≡ in_direction direction (filter (is_of_parts result.0.now) rows)
        ++ in_direction direction (filter (is_of_parts result.1.now) rows) }
{
    match direction {
        Direction::Ascending => parts.split_at(first_day(parts)),
        Direction::Descending => {
            let (before, last) = parts.split_at(before_last_day(parts));
            (last, before)
        }
    }
}
