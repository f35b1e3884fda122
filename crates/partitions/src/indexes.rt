//! The indexes of partitions.

ghost use Rattle.std.specs.Prelude.{◌≡◌, ◌+◌, ◌<◌, ◌≤◌, ◌≤ℤ◌, List, [], ◌∷◌, ◌++◌, length, filter, map, IfOk};
ghost use Rattle.std.specs.Map.{keys_of, lookup};
ghost use Rattle.std.specs.BTreeMap.{is_at};
ghost use Rattle.block_map.specs.Rising.{IsRising};
ghost use Rattle.partitions.specs.declared.partition.Partition.{Partition as APartition};
ghost use Rattle.partitions.specs.Partition.{partition_cmp};
ghost use Rattle.partitions.specs.NameDay.{name_day};
ghost use Rattle.partitions.specs.NameDayFilter.{is_on_days, passes_filter};
ghost use Rattle.partitions.specs.Partitions.{AreIndexed};

use crate::days::Days;
use crate::lists::PartList;
use crate::name_day::NameDay;
use crate::name_day_filter::NameDayFilter;
use crate::partition::Partition;
use block_map::growing_index::GrowingIndex;
use std::alloc::{AllocError, Global};

/// Makes a place the last of a partition, and answers the one that was the last before. Takes no memory.
pub(crate) fn put_last(
    by_day: &mut GrowingIndex<Partition, u32>,
    by_name: &mut GrowingIndex<NameDay, ()>,
    partition: Partition,
    place: u32,
) -> Option<u32>
    requires room_by_day { 0 < by_day.old.room }
    requires room_by_name { 0 < by_name.old.room }
    ensures before { result ≡ lookup (is_at (partition_cmp partition)) by_day.old.entries }
    ensures indexed { (noted : List APartition) → AreIndexed by_day.old by_name.old noted → place ≡ length noted →
        AreIndexed by_day.new by_name.new (noted ++ partition ∷ []) }
    ensures left_by_day { by_day.old.room ≤ by_day.new.room + 1 }
    ensures left_by_name { by_name.old.room ≤ by_name.new.room + 1 }
{
    match by_day.replace(partition, place) {
        Some(before) => Some(before),
        None => {
            let _ = by_day.insert(partition, place);
            let _ = by_name.insert(NameDay::of(partition), ());
            None
        }
    }
}

/// The partitions of an index on some days.
pub(crate) fn on_days(
    alloc: Global,
    index: &GrowingIndex<Partition, u32>,
    days: &Days,
) -> Result<PartList, AllocError>
    requires { IsRising partition_cmp index.now.entries }
    ensures { IfOk result (λ parts. parts ≡ filter (is_on_days days.now) (keys_of index.now.entries)) }
{
    let mut parts = PartList::new(alloc);
    let mut entries = index.from_key(Partition {
        day: days.first,
        pname: 0,
    });
    while let Some(&(partition, _)) = entries.next() {
        if partition.day > days.last {
            break;
        }
        parts.push(partition)?;
    }
    Ok(parts)
}

/// The partitions of an index that are wanted, in its order. Where an entry isn't, the next one looked at is the first that may be.
pub(crate) fn of_names(
    alloc: Global,
    index: &GrowingIndex<NameDay, ()>,
    name_day_filter: &NameDayFilter,
) -> Result<PartList, AllocError>
    requires { name_day_filter.now.days.first ≤ℤ name_day_filter.now.days.last }
    ensures { IfOk result (λ parts. map name_day parts
        ≡ filter (passes_filter name_day_filter.now) (keys_of index.now.entries)) }
{
    let mut parts = PartList::new(alloc);
    let mut entries = index.iter();
    while let Some(&(at, ())) = entries.next() {
        match name_day_filter.first_from(at) {
            Some(next) if next == at => parts.push(at.partition())?,
            Some(next) => entries = index.from_key(next),
            None => break,
        }
    }
    Ok(parts)
}
