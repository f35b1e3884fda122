//! Raw columns, both ways.

ghost use Rattle.std.specs.Prelude.{◌≡◌, ◌+◌, ◌≤◌, ◌++◌, ◌∷◌, ℕ, ℤ, List, length, take, drop, pos, Some, IfOk, IfSome, OnOk, fold};
ghost use Rattle.std.specs.Int.{w128, int_max, int_min};
ghost use Rattle.octet_fields.specs.Answers.{Gives};
ghost use Rattle.octet_fields.specs.Reading.{mapped_at};
ghost use Rattle.octet_fields.specs.Spelling.{signed};
ghost use Rattle.segment_codec.specs.RawColumn.{column_parts_at, greatest, offsets_from, packed_column, raw_column, raw_column_at, same_at, values_of_parts};
ghost use Rattle.segment_codec.specs.Segment.{most_rows};

use crate::bits::pack;
use crate::segment::RawColumn;
use crate::unpack::{unpacked_at, unpacked_rows};
use octet_fields::{DecodeError, i128_at, put_i128, u8_at};
use std::alloc::{AllocError, Global};

/// A column of form 0 behind its form, and the octets after it.
#[tactic(auto, unfolding(crate::specs::RawColumn::same_at))]
fn same_at(alloc: Global, rows: u16, octets: &[u8]) -> Result<(RawColumn, &[u8]), DecodeError>
    ensures { Gives (λ x. (x.0, x.1.now)) result (same_at rows octets.now) }
{
    let (value, rest) = i128_at(octets)?;
    let values = Vec::from_elem(alloc, value, rows as usize)?;
    Ok((RawColumn::from_vec(values), rest))
}

/// A column of form 1 behind its form, and the octets after it.
#[tactic(auto, unfolding(crate::specs::RawColumn::column_parts_at, crate::specs::RawColumn::bit_len))]
fn varied_at(alloc: Global, rows: u16, octets: &[u8]) -> Result<(RawColumn, &[u8]), DecodeError>
    requires { rows ≤ most_rows }
    ensures { Gives (λ x. (x.0, x.1.now)) result (mapped_at values_of_parts (column_parts_at rows) octets.now) }
{
    let (low, rest) = i128_at(octets)?;
    let (width, rest) = u8_at(rest)?;
    if width < 1 || width > 128 {
        return Err(DecodeError::Malformed);
    }
    let (kept, rest) = unpacked_at(alloc, rest, low, u32::from(width), rows as usize)?;
    // another least value, another width, or a value beyond i128 would be a second spelling, or none
    if !kept.has_zero
        || 128 - kept.top.leading_zeros() != u32::from(width)
        || kept.top > i128::MAX.abs_diff(low)
    {
        return Err(DecodeError::Malformed);
    }
    Ok((kept.values, rest))
}

/// A raw column of so many rows, and the octets after it.
#[tactic(auto, unfolding(crate::specs::RawColumn::raw_column_at))]
pub(crate) fn raw_column_at(
    alloc: Global,
    rows: u16,
    octets: &[u8],
) -> Result<(RawColumn, &[u8]), DecodeError>
    requires { rows ≤ most_rows }
    ensures { Gives (λ x. (x.0, x.1.now)) result (raw_column_at rows octets.now) }
{
    let (form, rest) = u8_at(octets)?;
    match form {
        0 => same_at(alloc, rows, rest),
        1 => varied_at(alloc, rows, rest),
        _ => Err(DecodeError::Malformed),
    }
}

/// The values of so many rows from a row on, where a raw column of so many rows stands at the front. No other is
/// unpacked.
pub(crate) fn values_in_rows(
    alloc: Global,
    rows: u16,
    first: usize,
    count: usize,
    octets: &[u8],
) -> Result<RawColumn, DecodeError>
    requires some { 1 ≤ count }
    requires within { first + count ≤ rows }
    requires few { rows ≤ most_rows }
    ensures { (values : List ℤ) (after : List ℕ) → raw_column_at rows octets.now ≡ Some (values, after) →
        IfOk result (λ found. found ≡ take count (drop first values)) }
{
    let (form, rest) = u8_at(octets)?;
    let (low, rest) = i128_at(rest)?;
    if form == 0 {
        let values = Vec::from_elem(alloc, low, count)?;
        return Ok(RawColumn::from_vec(values));
    }
    let (width, rest) = u8_at(rest)?;
    if width < 1 || width > 128 {
        return Err(DecodeError::Malformed);
    }
    let rows = usize::from(rows);
    unpacked_rows(alloc, rest, low, u32::from(width), rows, first, count)
}

/// A value as a number of 64 bits, where it's one.
fn word_value(value: i128) -> Option<u64>
    ensures { IfSome result (λ word. pos word ≡ value) }
{
    let Ok(word) = u64::try_from(value) else {
        return None;
    };
    Some(word)
}

/// The lesser of two numbers.
#[tactic(auto, using(crate::proofs::Ranges::lesser_first, crate::proofs::Ranges::lesser_second))]
fn lesser(a: u64, b: u64) -> u64
    ensures { pos result ≡ int_min (pos a) (pos b) }
{
    if b < a {
        return b;
    }
    a
}

/// The greater of two numbers.
#[tactic(auto, using(crate::proofs::Ranges::greater_first, crate::proofs::Ranges::greater_second))]
fn greater(a: u64, b: u64) -> u64
    ensures { pos result ≡ int_max (pos a) (pos b) }
{
    if b < a {
        return a;
    }
    b
}

/// The least of values and the greatest, where all are numbers of 64 bits: such are compared in half the time.
fn word_range(first: i128, others: &[i128]) -> Option<(u64, u64)>
    ensures low { IfSome result (λ range. pos range.0 ≡ fold int_min first others.now) }
    ensures high { IfSome result (λ range. pos range.1 ≡ fold int_max first others.now) }
{
    let Some(start) = word_value(first) else {
        return None;
    };
    let mut low = start;
    let mut high = start;
    for value in others {
        let Some(number) = word_value(*value) else {
            return None;
        };
        low = lesser(low, number);
        high = greater(high, number);
    }
    Some((low, high))
}

/// The least of values, and the greatest.
fn least_and_greatest(first: i128, others: &[i128]) -> (i128, i128)
    ensures low { result.0 ≡ fold int_min first others.now }
    ensures high { result.1 ≡ fold int_max first others.now }
{
    match word_range(first, others) {
        Some((low, high)) => (i128::from(low), i128::from(high)),
        None => wide_range(first, others),
    }
}

/// The least of values and the greatest, whichever they are.
#[inline(never)]
fn wide_range(first: i128, others: &[i128]) -> (i128, i128)
    ensures low { result.0 ≡ fold int_min first others.now }
    ensures high { result.1 ≡ fold int_max first others.now }
{
    let mut low = first;
    let mut high = first;
    for value in others {
        low = low.min(*value);
        high = high.max(*value);
    }
    (low, high)
}

/// Writes a column whose values are all equal.
fn put_same(out: &mut Vec<u8>, value: i128) -> Result<(), AllocError>
    ensures { OnOk result (out.new.items ≡ out.old.items ++ (0 ∷ signed w128 value)) }
{
    out.push(0)?;
    put_i128(out, value)
}

/// Writes a column by the differences from its least value, of which `top` is the greatest.
#[tactic(auto, unfolding(crate::specs::RawColumn::bit_len))]
fn put_varied(
    alloc: Global,
    out: &mut Vec<u8>,
    low: i128,
    top: u128,
    values: &[i128],
) -> Result<(), AllocError>
    requires { top ≡ greatest (offsets_from low values.now) }
    ensures { OnOk result (out.new.items ≡ out.old.items ++ packed_column low (offsets_from low values.now)) }
{
    let width = 128 - top.leading_zeros();
    out.push(1)?;
    put_i128(out, low)?;
    out.push(width as u8)?;
    let octets = pack(alloc, low, width, values)?;
    out.extend_from_slice(&octets)
}

/// Writes a raw column.
pub(crate) fn put_raw_column(
    alloc: Global,
    out: &mut Vec<u8>,
    values: &[i128],
) -> Result<(), AllocError>
    requires { 1 ≤ length values.now }
    ensures { OnOk result (out.new.items ≡ out.old.items ++ raw_column values.now) }
{
    let (_, others) = values.split_at(1);
    let first = values[0];
    let (low, high) = least_and_greatest(first, others);
    let top = high.abs_diff(low);
    if top == 0 {
        return put_same(out, first);
    }
    put_varied(alloc, out, low, top, values)
}
