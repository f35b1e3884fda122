//! What no clause says of lists in blocks: that calls succeed where memory is ample, that items which come in order fill
//! their blocks, and that an item which is put makes one block anew, while all others stay shared.

use crate::ends::{Check, none_other, other};
use shared_items::{Numbered, SharedItems};
use std::alloc::{AllocError, Global};
use std::sync::Arc;
use std::test::Fail;

/// A number with a value.
#[derive(Drop)]
struct Word {
    number: i64,
    value: i64,
}

impl Numbered for Word {
    ghost number_of = { λ word. word.number };

    fn number(&self) -> i64 {
        self.number
    }
}

/// The numbers 0 to 600, one step behind the other. Each has the step at which it came as its value.
fn in_steps_of(alloc: Global, step: i64) -> Result<SharedItems<Word>, AllocError> {
    let mut list = SharedItems::new(alloc);
    for value in 0..601i64 {
        let number = value.wrapping_mul(step).rem_euclid(601);
        list.put(alloc, Word { number, value })?;
    }
    Ok(list)
}

/// The number behind the last of these, where they go on from a first one without a gap.
fn behind(items: &[Arc<Word, Global>], first: i64) -> Option<i64> {
    let mut next = first;
    for item in items {
        if item.number != next {
            return None;
        }
        next = next.wrapping_add(1);
    }
    Some(next)
}

/// How many numbers a list has, from 0 on without a gap.
fn count(list: &SharedItems<Word>) -> Option<i64> {
    let mut next = 0;
    for block in list.blocks() {
        next = behind(block.items(), next)?;
    }
    Some(next)
}

/// How many blocks a list shares with others.
fn shared(list: &SharedItems<Word>) -> usize {
    let mut shared = 0usize;
    for block in list.blocks() {
        if Arc::strong_count(block) > 1 {
            shared = shared.saturating_add(1);
        }
    }
    shared
}

/// The value of the first item.
fn first_value(list: &SharedItems<Word>) -> Option<i64> {
    let block = list.blocks().first()?;
    let item = block.items().first()?;
    Some(item.value)
}

/// What is looked at, of numbers that come in their order and of some that don't.
fn other_of(alloc: Global) -> Result<Option<&'static str>, AllocError> {
    let ordered = in_steps_of(alloc, 1)?;
    let mixed = in_steps_of(alloc, 7)?;
    let mut copy = ordered.share(alloc)?;
    let before = shared(&ordered);
    let new = Word {
        number: 0,
        value: 9,
    };
    copy.put(alloc, new)?;
    let checks: &[Check] = &[
        ("in order", count(&ordered) == Some(601)),
        ("in no order", count(&mixed) == Some(601)),
        ("blocks are full", ordered.blocks().len() == 5),
        ("a copy shares each", before == 5),
        (
            "one is made anew",
            shared(&ordered) == 4 && copy.blocks().len() == 5,
        ),
        ("the copy has it", first_value(&copy) == Some(9)),
        ("the first has it not", first_value(&ordered) == Some(0)),
    ];
    Ok(other(checks))
}

#[test]
fn blocks_are_shared(rt: HostRuntime) -> Result<(), Fail> {
    let Ok(other) = other_of(rt.alloc()) else {
        return Err(Fail::new("memory"));
    };
    none_other(other)
}
