//! Reads what a segment has of a parameter in a range of times. Of its keys those in the range are made, those before it
//! and behind it are passed over, and no value of a row outside, or behind the limit, is unpacked.

ghost use Rattle.std.specs.Prelude.{◌≡◌, ◌+◌, ◌-◌, ◌^◌, ◌<◌, ◌≤◌, ◌++◌, ◌∷◌, [], List, ℕ, length, option_map, take, drop, Option, Some, IfOk, IfSome, OnOk};
ghost use Rattle.arch_types.specs.declared.key.Key.{Key as AKey};
ghost use Rattle.segment_codec.specs.KeyColumn.{keys_after_at, keys_at};
ghost use Rattle.segment_codec.specs.OneColumn.{column_at_place, column_of};
ghost use Rattle.segment_codec.specs.RangeColumn.{AreKeysUpTo, ArePassed, IsGapTo, IsSpanOf, asked_column, asked_rows, count_in, start_in};
ghost use Rattle.segment_codec.specs.Segment.{HasSegmentAt, most_rows};
ghost use Rattle.segment_codec.specs.declared.one_column.ParameterColumn.{ParameterColumn as AColumn};
ghost use Rattle.segment_codec.specs.declared.segment.Segment.{Segment};

use crate::key_column::{first_key_at, key_after_at};
use crate::one_column::{ParameterColumn, columns_end, place_of};
use crate::parameters::counted_parameters_at;
use crate::raw_column::values_in_rows;
use crate::reading::row_count_at;
use crate::segment::{KeyList, RawColumn};
use crate::varint_ends::varints_end;
use arch_types::direction::Direction;
use arch_types::key::Key;
use octet_fields::{DecodeError, Short};
use std::alloc::{AllocError, Global};
use varints::Spelling;

/// Which rows of a segment are asked: those with `from <= time < to`, in milliseconds.
#[derive(Clone, Copy, Debug)]
pub struct RowRange {
    pub from: i64,
    pub to: i64,
    pub direction: Direction,
    /// At most so many, the first in the direction; all where it is `None`.
    pub limit: Option<u64>,
}

/// The keys of a segment in a range of times.
#[derive(Drop)]
pub(crate) struct KeysInRange {
    /// How many keys of the segment are before the range.
    pub(crate) before: u16,
    /// Those in it.
    pub(crate) keys: KeyList,
}

impl KeysInRange {
    /// Takes the next key of the segment.
    fn take(&mut self, from: i64, to: i64, key: Key) -> Result<(), AllocError>
        requires { self.old.before < 65535 }
        ensures { OnOk result ((keys : List AKey) → IsSpanOf from to keys self.old →
            IsSpanOf from to (keys ++ key ∷ []) self.new) }
    {
        if key.time < from {
            self.before += 1;
            return Ok(());
        }
        if key.time >= to {
            return Ok(());
        }
        self.keys.push(key)
    }
}

/// Keys that were passed over.
#[derive(Clone, Copy, Debug)]
struct PassedKeys<'a> {
    /// How many they are.
    count: u16,
    /// The last of them; where there's none, the key that they were to stand behind.
    last: Key,
    /// The octets behind its gap.
    rest: &'a [u8],
}

/// How far behind a key a time begins, where it's found in 64 bits: up to seven weeks behind it.
fn gap_to(from: i64, key: Key) -> Option<u64>
    ensures gap { IfSome result (λ gap. IsGapTo from key gap) }
    ensures near { IfSome result (λ gap. key.seq + gap < 2 ^ 64) }
{
    let apart = from.abs_diff(key.time);
    if from <= key.time || apart >= 0x1_0000_0000 {
        return None;
    }
    Some(apart * 0x1_0000_0000 - u64::from(key.seq))
}

/// Passes over keys before a time, among so many that stand behind one: their gaps are summed, and none of them is made.
/// It ends before the first key whose gap isn't found in 64 bits.
fn passed_keys(count: u16, first: Key, from: i64, octets: &[u8]) -> PassedKeys
    ensures few { result.count ≤ count }
    ensures passed { ArePassed from result.count (keys_after_at count first octets.now)
        (keys_after_at (count - result.count) result.last result.rest.now) }
{
    let Some(far) = gap_to(from, first) else {
        return PassedKeys {
            count: 0,
            last: first,
            rest: octets,
        };
    };
    let mut left = far;
    let mut passed = 0;
    let mut last = Spelling::of_zero();
    let mut rest = octets;
    while passed < count {
        // packets of a kind mostly come at a steady pace, so a gap is mostly spelled as the one before
        let Ok((gap, after)) = last.next_at(rest) else {
            break;
        };
        // without a gap there's no key, and one as far as the time begins isn't before it
        if gap.number == 0 || gap.number >= left {
            break;
        }
        left -= gap.number;
        passed += 1;
        last = gap;
        rest = after;
    }
    let sum = u64::from(first.seq) + (far - left);
    let time = first.time + (sum / 0x1_0000_0000) as i64;
    let seq = (sum % 0x1_0000_0000) as u32;
    PassedKeys {
        count: passed,
        last: Key { time, seq },
        rest,
    }
}

/// The keys of a range among so many that stand at the front; how many behind its end were not read; and the octets
/// where these stand.
fn walked_keys(
    alloc: Global,
    count: u16,
    from: i64,
    to: i64,
    octets: &[u8],
) -> Result<(KeysInRange, u16, &[u8]), DecodeError>
    requires { 1 ≤ count }
    ensures within { IfOk result (λ x. x.0.before + length x.0.keys ≤ count) }
    ensures span { (keys : List AKey) (after : List ℕ) → keys_at count octets.now ≡ Some (keys, after) →
        IfOk result (λ x. IsSpanOf from to keys x.0) }
    ensures unread { (keys : List AKey) (after : List ℕ) → keys_at count octets.now ≡ Some (keys, after) →
        IfOk result (λ x. AreKeysUpTo x.1 x.2.now after) }
{
    let (first, after_first) = first_key_at(octets)?;
    let mut span = KeysInRange {
        before: 0,
        keys: KeyList::new(alloc),
    };
    span.take(from, to, first)?;
    let passed = passed_keys(count - 1, first, from, after_first);
    span.before += passed.count;
    let mut last = passed.last;
    let mut gap = Spelling::of_zero();
    let mut rest = passed.rest;
    for read in 1 + passed.count..count {
        // keys rise, so none behind is in the range, and none is before it
        if last.time >= from && last.time >= to {
            return Ok((span, count - read, rest));
        }
        let (key, after) = key_after_at(last, &mut gap, rest)?;
        span.take(from, to, key)?;
        last = key;
        rest = after;
    }
    Ok((span, 0, rest))
}

/// The octets behind so many keys, each behind the one before. None is decoded.
fn gaps_end(count: u16, octets: &[u8]) -> Result<&[u8], Short>
    ensures { (after : List ℕ) → AreKeysUpTo count octets.now after → IfOk result (λ rest. rest.now ≡ after) }
{
    varints_end(count, octets)
}

/// Which of rows in a range are read.
#[derive(Clone, Copy, Debug)]
struct AskedRows {
    /// How many rows of the range stand before them.
    first: usize,
    /// How many they are.
    count: usize,
}

/// Of so many rows, how many a limit leaves.
fn count_in(limit: Option<u64>, rows: usize) -> usize
    ensures { result ≡ count_in limit rows }
{
    match limit {
        None => rows,
        Some(limit) => limit.min(rows as u64) as usize,
    }
}

/// How many of so many rows stand before the first so many in a direction.
fn start_in(direction: Direction, rows: usize, count: usize) -> usize
    requires { count ≤ rows }
    ensures { result ≡ start_in direction rows count }
{
    match direction {
        Direction::Ascending => 0,
        Direction::Descending => rows - count,
    }
}

/// Of so many rows the first in a direction, up to a limit.
fn rows_asked(rows: usize, direction: Direction, limit: Option<u64>) -> AskedRows
    ensures within { result.first + result.count ≤ rows }
    ensures count { result.count ≡ count_in limit rows }
    ensures first { result.first ≡ start_in direction rows result.count }
{
    let count = count_in(limit, rows);
    let first = start_in(direction, rows, count);
    AskedRows { first, count }
}

/// So many keys from one on.
fn part_of_keys(alloc: Global, keys: KeyList, asked: AskedRows) -> Result<KeyList, AllocError>
    requires { asked.first + asked.count ≤ length keys }
    ensures { IfOk result (λ part. part ≡ take asked.count (drop asked.first keys)) }
{
    if asked.count == keys.len() {
        return Ok(keys);
    }
    let (_, behind) = keys.as_slice().split_at(asked.first);
    let (part, _) = behind.split_at(asked.count);
    let list = Vec::from_slice(alloc, part)?;
    Ok(KeyList::from_vec(list))
}

/// The rows of a range of times of the column at a place, the first of them in a direction up to a limit, where so many
/// keys stand at the front, and the columns behind.
fn column_rows(
    alloc: Global,
    rows: u16,
    place: usize,
    range: RowRange,
    octets: &[u8],
) -> Result<ParameterColumn, DecodeError>
    requires some { 1 ≤ rows }
    requires few { rows ≤ most_rows }
    ensures { (column : AColumn) → column_at_place rows (Some place) octets.now ≡ Some (Some column) →
        IfOk result (λ found. found ≡ asked_rows range.from range.to range.direction range.limit column) }
{
    let (span, unread, rest) = walked_keys(alloc, rows, range.from, range.to, octets)?;
    let KeysInRange { before, keys } = span;
    let asked = rows_asked(keys.len(), range.direction, range.limit);
    let keys = part_of_keys(alloc, keys, asked)?;
    if asked.count == 0 {
        let values = RawColumn::new(alloc);
        return Ok(ParameterColumn { keys, values });
    }
    let rest = gaps_end(unread, rest)?;
    let rest = columns_end(place, rows, rest)?;
    let first = usize::from(before) + asked.first;
    let values = values_in_rows(alloc, rows, first, asked.count, rest)?;
    Ok(ParameterColumn { keys, values })
}

/// The rows of a range of times of the column of a parameter in the segment that stands at the front, the first of them
/// in a direction up to a limit.
fn range_column(
    alloc: Global,
    octets: &[u8],
    parameter: u16,
    range: RowRange,
) -> Result<Option<ParameterColumn>, DecodeError>
    ensures { (column : Option AColumn) → column_of parameter octets.now ≡ Some column → IfOk result (λ found.
        found ≡ option_map (asked_rows range.from range.to range.direction range.limit) column) }
{
    let (parameters, rest) = counted_parameters_at(alloc, octets)?;
    let (rows, rest) = row_count_at(rest)?;
    match place_of(parameters.as_slice(), parameter) {
        None => Ok(None),
        Some(place) => {
            let column = column_rows(alloc, rows, place, range, rest)?;
            Ok(Some(column))
        }
    }
}

/// The keys and the raw values of a parameter in the rows that a range asks, in the segment whose spelling stands in
/// octets from a place on, or nothing where the segment hasn't the parameter. No other value is unpacked.
pub fn read_column_in_range(
    alloc: Global,
    octets: &[u8],
    at: usize,
    parameter: u16,
    range: RowRange,
) -> Result<Option<ParameterColumn>, AllocError>
    requires { (s : Segment) × HasSegmentAt octets.now at s }
    ensures { (s : Segment) → HasSegmentAt octets.now at s → IfOk result (λ c.
        c ≡ asked_column parameter range.from range.to range.direction range.limit s) }
{
    let (_, front) = octets.split_at(at);
    match range_column(alloc, front, parameter, range) {
        Ok(column) => Ok(column),
        // a segment stands there, so nothing but memory can have been wanting
        Err(_) => Err(AllocError),
    }
}
