// Fills of intervals without a store, one in place of another, among fills of other intervals.
use crate::parts::none_other;
use intervals::Interval;
use param_segments::SetBuilder;
use std::alloc::{AllocError, Global};
use std::sync::Arc;
use std::test::Fail;
use store_fills::{LastFill, LastFills};

/// Fills that are put one after the other: the interval, and the base.
const FILLS: &[(i64, u64)] = &[(3, 5), (-1, 6), (3, 9), (0, 9), (-1, 12)];

/// Intervals, and the base of the fill that each has then.
const BASES: &[(i64, Option<u64>)] = &[
    (-1, Some(12)),
    (0, Some(9)),
    (1, None),
    (3, Some(9)),
    (4, None),
];

/// They are functions, so that they stand in no goal of their callers.
fn fills() -> &'static [(i64, u64)] {
    FILLS
}

fn bases() -> &'static [(i64, Option<u64>)] {
    BASES
}

/// Puts a fill with a set of no rows.
fn put(alloc: Global, sets: &mut LastFills, interval: i64, base: u64) -> Result<(), AllocError> {
    let set = SetBuilder::new(alloc).set(alloc)?;
    let shared = Arc::new(alloc, set)?;
    sets.reserve()?;
    sets.put(Interval(interval), LastFill { base, set: shared });
    Ok(())
}

fn put_all(alloc: Global, sets: &mut LastFills, fills: &[(i64, u64)]) -> Result<(), AllocError> {
    for (interval, base) in fills {
        put(alloc, sets, *interval, *base)?;
    }
    Ok(())
}

/// The base of the fill of an interval.
fn base_of(sets: &LastFills, interval: i64) -> Option<u64> {
    match sets.get(Interval(interval)) {
        Some(fill) => Some(fill.base),
        None => None,
    }
}

/// The first of the intervals whose fill has another base.
fn other(sets: &LastFills, bases: &[(i64, Option<u64>)]) -> Option<i64> {
    for (interval, base) in bases {
        if base_of(sets, *interval) != *base {
            return Some(*interval);
        }
    }
    None
}

/// The same once these fills are put. Where memory is wanting for one the last isn't put, so that its interval has another.
fn other_behind(alloc: Global, fills: &[(i64, u64)], bases: &[(i64, Option<u64>)]) -> Option<i64> {
    let mut sets = LastFills::new(alloc);
    let _ = put_all(alloc, &mut sets, fills);
    other(&sets, bases)
}

#[test]
fn a_fill_takes_the_place_of_the_one_before(rt: HostRuntime) -> Result<(), Fail> {
    none_other(other_behind(rt.alloc(), fills(), bases()))
}
