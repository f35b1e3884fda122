//! What no clause says: that calls succeed where memory is ample, and that an index may be shared between threads.
//!
//! Only two functions own an index: they make it and hand it to what is looked at.

use crate::ends::{none_other, other};
use block_map::growing_index::GrowingIndex;
use block_map::index::Index;
use std::alloc::{AllocError, Global};
use std::test::Fail;

fn is_shared<T: Send + Sync>(_index: &T) {}

/// What an insertion answers, where there is room for it.
fn inserted(index: &mut Index<u64, u64>, key: u64, value: u64) -> Option<Option<u64>> {
    if index.room() == 0 {
        return None;
    }
    Some(index.insert(key, value))
}

/// The key of a value: its inverse is the value modulo 601 times 7, so that keys come in no order.
fn key_of(value: u64) -> u64 {
    value.wrapping_mul(7) % 601
}

/// Puts in the keys 1 to 600, and says how many of them were new.
fn put_six_hundred(index: &mut Index<u64, u64>) -> usize {
    let mut new: usize = 0;
    for value in 1..601 {
        if matches!(inserted(index, key_of(value), value), Some(None)) {
            new = new.saturating_add(1);
        }
    }
    new
}

/// Puts in the keys 1 to 1,500, which two blocks hold.
fn put_in_two_blocks(index: &mut Index<u64, u64>) {
    for key in 1..1501 {
        let _ = inserted(index, key, key);
    }
}

/// What is looked at in an index of the keys 1 to 600 with room for one more, but for the last: in one of the keys 1 to 1,500.
enum Look {
    Listed,
    Kept,
    Replaced,
    Removed,
    TakenOut,
    TakenAgain,
    RemovedFromAbove,
}

/// Whether the keys stand in their order, from 1 to 600.
fn is_in_order(index: &Index<u64, u64>) -> bool {
    let mut last: u64 = 0;
    for (key, _) in index.iter() {
        if *key != last.wrapping_add(1) {
            return false;
        }
        last = *key;
    }
    last == 600
}

/// Whether the last two keys are listed from one of them on.
fn are_last_two(index: &Index<u64, u64>) -> bool {
    let mut above = index.from_key(599);
    matches!(above.next(), Some((599, 429)))
        && matches!(above.next(), Some((600, 515)))
        && above.next().is_none()
}

fn lists(index: &Index<u64, u64>) -> bool {
    index.len() == 600
        && index.room() == 1
        && matches!(index.first(), Some((1, 86)))
        && is_in_order(index)
        && are_last_two(index)
}

fn keeps_values(index: &mut Index<u64, u64>) -> bool {
    matches!(inserted(index, 7, 9), Some(Some(1)))
        && matches!(index.get(7), Some(1))
        && index.room() == 1
}

fn replaces_values(index: &mut Index<u64, u64>) -> bool {
    matches!(index.replace(14, 99), Some(2))
        && matches!(index.get(14), Some(99))
        && index.replace(601, 0).is_none()
        && index.get(601).is_none()
}

/// Of the keys 1 to 499, how many were taken out.
fn removed(index: &mut Index<u64, u64>) -> usize {
    let mut removed: usize = 0;
    for key in 1..500 {
        if index.remove(key).is_some() {
            removed = removed.saturating_add(1);
        }
    }
    removed
}

fn removes_keys(index: &mut Index<u64, u64>) -> bool {
    removed(index) == 499
        && index.remove(1).is_none()
        && index.get(1).is_none()
        && index.len() == 101
        && index.room() == 500
        && matches!(index.first(), Some((500, 329)))
}

/// A key that no block begins with is taken out, and a list begins where it stood.
fn removes_from_the_middle(index: &mut Index<u64, u64>) -> bool {
    matches!(index.remove(301), Some(43))
        && matches!(index.get(300), Some(558))
        && index.get(301).is_none()
        && matches!(index.from_key(301).next(), Some((302, 129)))
}

/// Of the keys 1 to 499, how many were put in anew.
fn put_again(index: &mut Index<u64, u64>) -> usize {
    let mut new: usize = 0;
    for key in 1..500 {
        if matches!(inserted(index, key, key), Some(None)) {
            new = new.saturating_add(1);
        }
    }
    new
}

fn takes_keys_again(index: &mut Index<u64, u64>) -> bool {
    removed(index) == 499
        && put_again(index) == 499
        && matches!(index.get(86), Some(86))
        && matches!(index.get(600), Some(515))
}

/// Of the keys 1,500 down to 501, how many were taken out.
fn removed_from_above(index: &mut Index<u64, u64>) -> usize {
    let mut removed: usize = 0;
    for above in 0..1000u64 {
        if index.remove(1500u64.saturating_sub(above)).is_some() {
            removed = removed.saturating_add(1);
        }
    }
    removed
}

/// The second block lacks entries then, and is joined with the first.
fn removes_from_above(index: &mut Index<u64, u64>) -> bool {
    put_in_two_blocks(index);
    removed_from_above(index) == 1000 && index.len() == 500 && matches!(index.get(500), Some(500))
}

fn is_so(index: &mut Index<u64, u64>, look: &Look) -> bool {
    if let Look::RemovedFromAbove = look {
        return removes_from_above(index);
    }
    put_six_hundred(index) == 600
        && match look {
            Look::Listed => lists(index),
            Look::Kept => keeps_values(index),
            Look::Replaced => replaces_values(index),
            Look::Removed => removes_keys(index),
            Look::TakenOut => removes_from_the_middle(index),
            Look::TakenAgain => takes_keys_again(index),
            Look::RemovedFromAbove => true,
        }
}

/// Whether it is so in a new index with room for so many keys.
fn is_so_with(alloc: Global, room: usize, look: &Look) -> bool {
    let mut index = Index::new(alloc);
    is_shared(&index);
    let is_empty = index.len() == 0 && index.room() == 0 && index.first().is_none();
    is_empty && index.reserve(room).is_ok() && is_so(&mut index, look)
}

type Case = (&'static str, usize, Look);

const CASES: &[Case] = &[
    ("lists in order", 601, Look::Listed),
    ("keeps values", 601, Look::Kept),
    ("replaces values", 601, Look::Replaced),
    ("removes keys", 601, Look::Removed),
    ("removes from the middle", 601, Look::TakenOut),
    ("takes keys again", 601, Look::TakenAgain),
    ("removes keys from above", 1500, Look::RemovedFromAbove),
];

/// A function, so that the table stands in no goal of its caller.
fn cases() -> &'static [Case] {
    CASES
}

fn other_case(alloc: Global, cases: &[Case]) -> Option<&'static str> {
    for (name, room, look) in cases {
        if !is_so_with(alloc, *room, look) {
            return Some(*name);
        }
    }
    None
}

#[test]
fn an_index(rt: HostRuntime) -> Result<(), Fail> {
    none_other(other_case(rt.alloc(), cases()))
}

/// Keys of which 1,501 come in order and then 1,500 between them, so that blocks are split at their ends and in halves.
fn put_two_runs(index: &mut GrowingIndex<u64, u64>) -> Result<(), AllocError> {
    for value in 0..3001 {
        index.reserve(1)?;
        let key = if value <= 1500 {
            value * 2
        } else {
            (value - 1501) * 2 + 1
        };
        if index.room() > 0 {
            index.insert(key, value);
        }
    }
    Ok(())
}

/// Whether the keys stand in their order, from 0 to 3,000.
fn is_growing_in_order(index: &GrowingIndex<u64, u64>) -> bool {
    let mut next: u64 = 0;
    for (key, _) in index.iter() {
        if *key != next {
            return false;
        }
        next = next.wrapping_add(1);
    }
    next == 3001
}

fn are_last_of_two_runs(index: &GrowingIndex<u64, u64>) -> bool {
    let mut above = index.from_key(2999);
    matches!(above.next(), Some((2999, 3000)))
        && matches!(above.next(), Some((3000, 1500)))
        && above.next().is_none()
}

fn are_two_runs(index: &mut GrowingIndex<u64, u64>) -> bool {
    index.len() == 3001
        && index.room() == 0
        && matches!(index.get(2999), Some(3000))
        && index.get(3001).is_none()
        && matches!(index.replace(7, 0), Some(1504))
        && matches!(index.get(7), Some(0))
}

/// What a count comes to, where there is room for it.
fn counted(index: &mut GrowingIndex<u64, u64>, key: u64) -> Option<u64> {
    if index.room() == 0 || index.get(key) == Some(u64::MAX) {
        return None;
    }
    Some(index.add_one(key))
}

fn counts(index: &mut GrowingIndex<u64, u64>) -> bool {
    index.reserve(3).is_ok()
        && matches!(counted(index, 8), Some(1))
        && matches!(counted(index, 3), Some(1))
        && matches!(counted(index, 8), Some(2))
        && matches!(counted(index, 8), Some(3))
        && index.len() == 2
        && index.room() == 1
}

fn grows(index: &mut GrowingIndex<u64, u64>) -> bool {
    put_two_runs(index).is_ok()
        && are_two_runs(index)
        && are_last_of_two_runs(index)
        && is_growing_in_order(index)
}

/// Whether a new index counts, or grows.
fn is_growing(alloc: Global, is_to_count: bool) -> bool {
    let mut index = GrowingIndex::new(alloc);
    is_shared(&index);
    if is_to_count {
        counts(&mut index)
    } else {
        grows(&mut index)
    }
}

#[test]
fn a_growing_index(rt: HostRuntime) -> Result<(), Fail> {
    none_other(other(&[
        ("counts", is_growing(rt.alloc(), true)),
        ("grows", is_growing(rt.alloc(), false)),
    ]))
}
