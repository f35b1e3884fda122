//! The key column, both ways.

ghost use Rattle.std.specs.Prelude.{◌≡◌, ◌≤◌, ◌++◌, length, true, IfOk, IfSome, OnOk, Some};
ghost use Rattle.octet_fields.specs.Answers.{Answers, Gives};
ghost use Rattle.segment_codec.specs.KeyColumn.{first_key_at, is_gap, key_after, key_after_at, key_column, key_gap, key_gaps, keys_at};
ghost use Rattle.segment_codec.specs.Outline.{key_ends};
ghost use Rattle.varints.specs.Varint.{varint};

use crate::segment::KeyList;
use arch_types::key::Key;
use octet_fields::{DecodeError, Short, i64_at, put_i64, put_u32, room_for, u32_at};
use std::alloc::{AllocError, Global};
use varints::{Spelling, put_varint, put_word, varint_at};

/// The first key, and the octets after it.
#[tactic(auto, unfolding(crate::specs::KeyColumn::first_key_at))]
pub(crate) fn first_key_at(octets: &[u8]) -> Result<(Key, &[u8]), Short>
    ensures { Answers (λ x. (x.0, x.1.now)) result (first_key_at octets.now) }
{
    let (time, rest) = i64_at(octets)?;
    let (seq, rest) = u32_at(rest)?;
    Ok((Key { time, seq }, rest))
}

/// The key that lies so far behind another, where it's found in 64 bits.
#[inline(always)]
#[tactic(auto, unfolding(crate::specs::KeyColumn::is_gap))]
fn near_key(last: Key, gap: u64) -> Option<Key>
    ensures key { IfSome result (λ key. key ≡ key_after last gap) }
    ensures gap { IfSome result (λ _. is_gap last gap ≡ true) }
{
    if gap == 0 {
        return None;
    }
    let sum = u64::from(last.seq).checked_add(gap)?;
    let time = last.time.checked_add((sum / 0x1_0000_0000) as i64)?;
    let seq = (sum % 0x1_0000_0000) as u32;
    Some(Key { time, seq })
}

/// The key behind another, and the octets after its gap, where it's found in 64 bits.
#[inline(always)]
#[tactic(auto, unfolding(crate::specs::KeyColumn::key_after_at))]
fn near_key_at<'a>(
    last: Key,
    gap: &mut Spelling,
    octets: &'a [u8],
) -> Result<(Key, &'a [u8]), Short>
    ensures { IfOk result (λ x. key_after_at last octets.now ≡ Some (x.0, x.1.now)) }
{
    let (found, rest) = gap.next_at(octets)?;
    *gap = found;
    match near_key(last, found.number) {
        Some(key) => Ok((key, rest)),
        None => Err(Short),
    }
}

/// The same for any gap.
#[inline(never)]
#[tactic(auto, unfolding(crate::specs::KeyColumn::key_after_at, crate::specs::KeyColumn::is_gap))]
fn wide_key_after_at(last: Key, octets: &[u8]) -> Result<(Key, &[u8]), Short>
    ensures { Answers (λ x. (x.0, x.1.now)) result (key_after_at last octets.now) }
{
    let (gap, rest) = varint_at(octets)?;
    let sum = u128::from(last.seq) + gap;
    let time = i128::from(last.time) + (sum / 0x1_0000_0000) as i128;
    if gap == 0 || time > i128::from(i64::MAX) {
        return Err(Short);
    }
    let time = time as i64;
    let seq = (sum % 0x1_0000_0000) as u32;
    Ok((Key { time, seq }, rest))
}

/// The key behind another, and the octets after its gap: one within weeks is found in 64 bits, where it takes half the
/// time, and isn't decoded where it's spelled as the gap before, which it takes the place of.
#[inline(always)]
pub(crate) fn key_after_at<'a>(
    last: Key,
    gap: &mut Spelling,
    octets: &'a [u8],
) -> Result<(Key, &'a [u8]), Short>
    ensures { Answers (λ x. (x.0, x.1.now)) result (key_after_at last octets.now) }
{
    match near_key_at(last, gap, octets) {
        Ok(found) => Ok(found),
        Err(_) => wide_key_after_at(last, octets),
    }
}

/// So many keys, and the octets after them.
#[tactic(auto, unfolding(crate::specs::KeyColumn::keys_at))]
pub(crate) fn keys_at(
    alloc: Global,
    count: u16,
    octets: &[u8],
) -> Result<(KeyList, &[u8]), DecodeError>
    requires { 1 ≤ count }
    ensures { Gives (λ x. (x.0, x.1.now)) result (keys_at count octets.now) }
{
    let (first, after_first) = first_key_at(octets)?;
    // each key takes an octet at least
    let room = room_for(count as usize, octets, 1);
    let mut keys = KeyList::from_vec(Vec::with_capacity(alloc, room)?);
    keys.push(first)?;
    let mut last = first;
    let mut gap = Spelling::of_zero();
    let mut rest = after_first;
    for _ in 1..count {
        let (key, after) = key_after_at(last, &mut gap, rest)?;
        keys.push(key)?;
        last = key;
        rest = after;
    }
    Ok((keys, rest))
}

/// The first and the last of keys.
#[derive(Clone, Copy, Debug)]
pub(crate) struct KeyEnds {
    pub(crate) first: Key,
    pub(crate) last: Key,
}

/// The ends of some keys.
pub(crate) fn key_ends(keys: &[Key]) -> KeyEnds
    requires { 1 ≤ length keys.now }
    ensures { result ≡ key_ends keys.now }
{
    let first = keys[0];
    let last = keys[keys.len() - 1];
    KeyEnds { first, last }
}

/// How far a key lies behind another.
#[tactic(auto, unfolding(crate::specs::KeyColumn::key_gap))]
fn key_gap(last: Key, key: Key) -> u128
    ensures { result ≡ key_gap last key }
{
    let before = i128::from(last.time) * 0x1_0000_0000 + i128::from(last.seq);
    let after = i128::from(key.time) * 0x1_0000_0000 + i128::from(key.seq);
    after.abs_diff(before)
}

/// How far a key lies behind another, where that's in order and the times are less than 2^31 apart.
#[tactic(auto, unfolding(crate::specs::KeyColumn::key_gap))]
fn short_gap(last: Key, key: Key) -> Option<u64>
    ensures { IfSome result (λ gap. gap ≡ key_gap last key) }
{
    let apart = key.time.abs_diff(last.time);
    if key.time < last.time || apart >= 0x8000_0000 {
        return None;
    }
    let before = u64::from(last.seq);
    let after = apart * 0x1_0000_0000 + u64::from(key.seq);
    if after < before {
        return None;
    }
    Some(after - before)
}

/// Writes the gap before a key: in 64 bits within weeks, where it takes half the time.
fn put_key_gap(out: &mut Vec<u8>, last: Key, key: Key) -> Result<(), AllocError>
    ensures { OnOk result (out.new.items ≡ out.old.items ++ varint (key_gap last key)) }
{
    match short_gap(last, key) {
        Some(gap) => put_word(out, gap),
        None => put_varint(out, key_gap(last, key)),
    }
}

/// Writes the gap before each key.
fn put_gaps(out: &mut Vec<u8>, first: Key, keys: &[Key]) -> Result<(), AllocError>
    ensures { OnOk result (out.new.items ≡ out.old.items ++ key_gaps first keys.now) }
{
    let mut last = first;
    for key in keys {
        put_key_gap(out, last, *key)?;
        last = *key;
    }
    Ok(())
}

/// Writes the key column.
pub(crate) fn put_keys(out: &mut Vec<u8>, keys: &[Key]) -> Result<(), AllocError>
    requires { 1 ≤ length keys.now }
    ensures { OnOk result (out.new.items ≡ out.old.items ++ key_column keys.now) }
{
    let (_, others) = keys.split_at(1);
    let first = keys[0];
    put_i64(out, first.time)?;
    put_u32(out, first.seq)?;
    put_gaps(out, first, others)
}
