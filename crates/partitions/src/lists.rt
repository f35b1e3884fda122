//! Lists of packet names and of partitions.

ghost use Rattle.std.specs.Prelude.{◌⊎◌, ◌↔◌, Contains, IfOk};
ghost use Rattle.std.specs.List.Sorted.{IsPermutation, IsSorted};
ghost use Rattle.partitions.specs.declared.partition.Partition.{Partition as APartition};
ghost use Rattle.partitions.specs.Partition.{partition_cmp};
ghost use Rattle.partitions.specs.Partitions.{AreRising};

use crate::partition::Partition;
use item_list::Items;
use std::alloc::AllocError;

/// Numbers of packet names.
pub type PnameList = Items<u16>;

/// Partitions in some order.
pub type PartList = Items<Partition>;

/// The partitions in their order.
pub(crate) fn in_order(parts: PartList) -> PartList
    ensures same { IsPermutation parts result }
    ensures sorted { IsSorted partition_cmp result }
{
    let mut parts = parts.into_vec();
    parts.sort_unstable();
    PartList::from_vec(parts)
}

/// The partitions in their order, each once. Takes no memory.
pub fn rising_once(parts: PartList) -> PartList
    ensures same { (p : APartition) → Contains result p ↔ Contains parts p }
    ensures rising { AreRising result }
{
    let mut parts = parts.into_vec();
    parts.sort_unstable();
    parts.dedup();
    PartList::from_vec(parts)
}

/// The partitions of two lists in their order, each once. The one error is want of memory.
pub fn merged_parts(first: PartList, second: PartList) -> Result<PartList, AllocError>
    ensures both { IfOk result (λ parts. (p : APartition) → Contains parts p ↔ (Contains first p ⊎ Contains second p)) }
    ensures rising { IfOk result (λ parts. AreRising parts) }
{
    let mut parts = first.into_vec();
    let mut more = second.into_vec();
    parts.append(&mut more)?;
    Ok(rising_once(PartList::from_vec(parts)))
}
