//! Worked rows, and that each public call succeeds where memory is ample.

ghost use Rattle.partitions.specs.Partitions.{AreRising};

use crate::parts::none_other;
use partitions::bounds::Bounds;
use partitions::chain_steps::ChainSteps;
use partitions::counts::PartitionCounts;
use partitions::lists::{PartList, PnameList, merged_parts};
use partitions::partition::{Partition, partition_of};
use partitions::partitions::Partitions;
use partitions::rows::are_whole_days;
use std::alloc::{AllocError, Global};
use std::test::Fail;

fn listed(alloc: Global, names: &[u16]) -> Result<PnameList, AllocError> {
    let mut list = PnameList::new(alloc);
    for name in names {
        list.push(*name)?;
    }
    list.copy(alloc)
}

/// Times of rows, and their packet names. A day has 86,400,000 milliseconds.
const ROWS: &[(i64, u16)] = &[
    (432_000_007, 5),
    (-1, 3),
    (i64::MAX, 9),
    (0, 3),
    (86_399_999, 3),
    (86_400_000, 5),
    (86_400_000, 3),
    (0, 3),
    (i64::MIN, 9),
];

/// It is a function, as each table below is, so that it stands in no goal of its callers.
fn rows() -> &'static [(i64, u16)] {
    ROWS
}

fn held(alloc: Global, rows: &[(i64, u16)]) -> Result<Partitions, AllocError> {
    let mut held = Partitions::new(alloc);
    for (time, pname) in rows {
        held.reserve(1)?;
        held.add(*time, *pname);
    }
    Ok(held)
}

/// A range, names, and the partitions left of those of the rows.
type Ask = (i64, i64, Option<&'static [u16]>, &'static [(i64, u16)]);

const ASKS: &[Ask] = &[
    (
        i64::MIN,
        i64::MAX,
        None,
        &[
            (-106_751_991_168, 9),
            (-1, 3),
            (0, 3),
            (1, 3),
            (1, 5),
            (5, 5),
            (106_751_991_167, 9),
        ],
    ),
    (i64::MIN, i64::MIN + 1, None, &[(-106_751_991_168, 9)]),
    (0, 86_400_000, None, &[(0, 3)]),
    (0, 86_400_001, None, &[(0, 3), (1, 3), (1, 5)]),
    (-1, 0, None, &[(-1, 3)]),
    (0, 0, None, &[]),
    (172_800_000, 432_000_000, None, &[]),
    (0, 518_400_000, Some(&[5]), &[(1, 5), (5, 5)]),
    (
        0,
        518_400_000,
        Some(&[9, 5, 3, 5]),
        &[(0, 3), (1, 3), (1, 5), (5, 5)],
    ),
    (0, 518_400_000, Some(&[]), &[]),
];

fn asks() -> &'static [Ask] {
    ASKS
}

fn bounds(alloc: Global, from: i64, to: i64, names: Option<&[u16]>) -> Result<Bounds, AllocError> {
    let names = match names {
        Some(names) => Some(listed(alloc, names)?),
        None => None,
    };
    Ok(Bounds { from, to, names })
}

/// Whether these are the partitions, by their days and packet names.
fn are_parts(parts: &[Partition], want: &[(i64, u16)]) -> bool {
    for (partition, want) in parts.iter().zip(want) {
        if (partition.day, partition.pname) != *want {
            return false;
        }
    }
    parts.len() == want.len()
}

/// A copy of the partitions that are left.
fn left(alloc: Global, held: &Partitions, bounds: &Bounds) -> Result<PartList, AllocError> {
    let parts = held.pruned(bounds)?;
    parts.copy(alloc)
}

fn prunes(
    alloc: Global,
    held: &Partitions,
    bounds: &Bounds,
    want: &[(i64, u16)],
) -> Result<bool, AllocError> {
    let parts = left(alloc, held, bounds)?;
    Ok(are_parts(parts.as_slice(), want))
}

/// The place of the first range of which others are left.
fn other_pruned(
    alloc: Global,
    held: &Partitions,
    asks: &[Ask],
) -> Result<Option<usize>, AllocError> {
    let mut place = 0usize;
    for (from, to, names, want) in asks {
        if !prunes(alloc, held, &bounds(alloc, *from, *to, *names)?, want)? {
            return Ok(Some(place));
        }
        place = place.saturating_add(1);
    }
    Ok(None)
}

/// Two rows of each of these times and packet names, as counts alone.
fn counted(alloc: Global, rows: &[(i64, u16)]) -> Result<PartitionCounts, AllocError> {
    let mut counts = PartitionCounts::new(alloc);
    for (time, pname) in rows {
        let partition = partition_of(*time, *pname);
        counts.reserve(1)?;
        if counts.row_count(partition) < 1_000 {
            counts.add_rows(partition, 2);
        }
    }
    Ok(counts)
}

/// The place of the first range of which counts leave others.
fn other_pruned_by_counts(
    alloc: Global,
    counts: &PartitionCounts,
    asks: &[Ask],
) -> Result<Option<usize>, AllocError> {
    let mut place = 0usize;
    for (from, to, names, want) in asks {
        let parts = counts.pruned(&bounds(alloc, *from, *to, *names)?)?;
        if !are_parts(parts.as_slice(), want) {
            return Ok(Some(place));
        }
        place = place.saturating_add(1);
    }
    Ok(None)
}

/// A partition, and the places of its rows, the last first.
type PartitionPlaces = (i64, u16, &'static [usize]);

const PLACES: &[PartitionPlaces] = &[
    (-106_751_991_168, 9, &[8]),
    (-1, 3, &[1]),
    (0, 3, &[7, 4, 3]),
    (1, 3, &[6]),
    (1, 5, &[5]),
    (5, 5, &[0]),
    (106_751_991_167, 9, &[2]),
    (0, 5, &[]),
];

fn partition_places() -> &'static [PartitionPlaces] {
    PLACES
}

/// Whether a partition has these rows.
fn has_places(held: &Partitions, partition: Partition, want: &[usize]) -> bool {
    let mut at = 0usize;
    for place in held.places_of(partition) {
        if at >= want.len() || want[at] != place {
            return false;
        }
        at = at.saturating_add(1);
    }
    at == want.len()
}

/// The place of the first partition that has other rows.
fn other_places(held: &Partitions, all: &[PartitionPlaces]) -> Option<usize> {
    let mut place = 0usize;
    for (day, pname, want) in all {
        let partition = Partition {
            day: *day,
            pname: *pname,
        };
        if !has_places(held, partition, want) || held.row_count(partition) != want.len() {
            return Some(place);
        }
        place = place.saturating_add(1);
    }
    None
}

/// The place of the first partition that hasn't twice so many rows by counts.
fn other_counted(counts: &PartitionCounts, all: &[PartitionPlaces]) -> Option<usize> {
    let mut place = 0usize;
    for (day, pname, want) in all {
        let partition = Partition {
            day: *day,
            pname: *pname,
        };
        let rows = counts.row_count(partition) as usize;
        if rows != want.len().saturating_mul(2) {
            return Some(place);
        }
        place = place.saturating_add(1);
    }
    None
}

/// The steps that are taken, at most 20.
fn taken(mut steps: ChainSteps<'_>) -> usize {
    for taken in 0..20 {
        if !steps.take_one() {
            return taken;
        }
    }
    20
}

/// Whether three rows, none, and one take seven steps, and no partitions none.
fn takes_steps(held: &Partitions) -> bool {
    let parts = [
        Partition { day: 0, pname: 3 },
        Partition { day: 0, pname: 5 },
        Partition { day: 1, pname: 5 },
    ];
    taken(held.steps_of(&parts)) == 7 && taken(held.steps_of(&[])) == 0
}

/// Ranges, and whether they have all times of the days from 0 to 1.
const WHOLE_DAYS: &[(i64, i64, bool)] = &[
    (0, 172_800_000, true),
    (-5, i64::MAX, true),
    (1, 172_800_000, false),
    (0, 172_799_999, false),
    (86_400_000, 172_800_000, false),
    // from the least time on it isn't told
    (i64::MIN, i64::MAX, false),
];

fn whole_days() -> &'static [(i64, i64, bool)] {
    WHOLE_DAYS
}

/// The place of the first range of which it is told otherwise.
fn other_whole_days(parts: &[Partition], ranges: &[(i64, i64, bool)]) -> Option<usize>
    requires { AreRising parts.now }
{
    let mut place = 0usize;
    for (from, to, want) in ranges {
        if are_whole_days(parts, *from, *to) != *want {
            return Some(place);
        }
        place = place.saturating_add(1);
    }
    None
}

/// The same of the partitions that two days hold.
fn other_of_two_days(alloc: Global, held: &Partitions) -> Result<Option<usize>, AllocError> {
    let parts = held.pruned(&bounds(alloc, 0, 172_800_000, None)?)?;
    Ok(other_whole_days(parts.as_slice(), whole_days()))
}

/// Two lists of partitions, and both as one.
type Merged = (
    &'static [(i64, u16)],
    &'static [(i64, u16)],
    &'static [(i64, u16)],
);

const MERGED: &[Merged] = &[
    (&[], &[], &[]),
    (&[(1, 5), (0, 3), (1, 5)], &[], &[(0, 3), (1, 5)]),
    (
        &[(1, 5), (0, 3)],
        &[(0, 3), (1, 4), (-1, 9)],
        &[(-1, 9), (0, 3), (1, 4), (1, 5)],
    ),
    (
        &[(i64::MAX, 0)],
        &[(i64::MIN, u16::MAX)],
        &[(i64::MIN, u16::MAX), (i64::MAX, 0)],
    ),
];

fn merged() -> &'static [Merged] {
    MERGED
}

fn parts_of(alloc: Global, parts: &[(i64, u16)]) -> Result<PartList, AllocError> {
    let mut list = PartList::new(alloc);
    for (day, pname) in parts {
        list.push(Partition {
            day: *day,
            pname: *pname,
        })?;
    }
    Ok(list)
}

/// The place of the first lists that are merged otherwise.
fn other_merged(alloc: Global, all: &[Merged]) -> Result<Option<usize>, AllocError> {
    let mut place = 0usize;
    for (first, second, want) in all {
        let parts = merged_parts(parts_of(alloc, first)?, parts_of(alloc, second)?)?;
        if !are_parts(parts.as_slice(), want) {
            return Ok(Some(place));
        }
        place = place.saturating_add(1);
    }
    Ok(None)
}

fn other(alloc: Global, held: &Partitions) -> Result<Option<(&'static str, usize)>, AllocError> {
    if let Some(place) = other_pruned(alloc, held, asks())? {
        return Ok(Some(("partitions left", place)));
    }
    if let Some(place) = other_places(held, partition_places()) {
        return Ok(Some(("places of one partition", place)));
    }
    if !takes_steps(held) {
        return Ok(Some(("steps along chains", 0)));
    }
    if let Some(place) = other_of_two_days(alloc, held)? {
        return Ok(Some(("ranges of whole days", place)));
    }
    match other_merged(alloc, merged())? {
        Some(place) => Ok(Some(("partitions of two lists", place))),
        None => Ok(None),
    }
}

#[test]
fn partitions_of_rows(rt: HostRuntime) -> Result<(), Fail> {
    let held = held(rt.alloc(), rows())?;
    none_other(other(rt.alloc(), &held)?)
}

fn other_by_counts(
    alloc: Global,
    counts: &PartitionCounts,
) -> Result<Option<(&'static str, usize)>, AllocError> {
    if let Some(place) = other_pruned_by_counts(alloc, counts, asks())? {
        return Ok(Some(("partitions left by counts", place)));
    }
    match other_counted(counts, partition_places()) {
        Some(place) => Ok(Some(("rows of one partition", place))),
        None => Ok(None),
    }
}

#[test]
fn partitions_by_counts(rt: HostRuntime) -> Result<(), Fail> {
    let counts = counted(rt.alloc(), rows())?;
    none_other(other_by_counts(rt.alloc(), &counts)?)
}

#[test]
fn partition_before_1970(rt: HostRuntime) {
    assert!(rt; partition_of(-1, 7) == Partition { day: -1, pname: 7 });
}
