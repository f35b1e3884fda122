//! Reads how far the values of a raw column reach. No value is kept.

ghost use Rattle.std.specs.Prelude.{◌≡◌, ◌*◌, ◌≤◌, [], length};
ghost use Rattle.octet_fields.specs.Answers.{Gives};
ghost use Rattle.octet_fields.specs.Reading.{mapped_at};
ghost use Rattle.segment_codec.specs.Bits.{octet_count, packed_at};
ghost use Rattle.segment_codec.specs.Outline.{range_at, scanned, varied_range_at};
ghost use Rattle.segment_codec.specs.Segment.{most_rows};

use crate::bits::Pending;
use crate::unpack::{take, take_wide};
use octet_fields::{DecodeError, i128_at, u8_at};

/// How far the values of a raw column reach.
#[derive(Clone, Copy, Debug)]
pub struct ColumnRange {
    pub least: i128,
    pub greatest: i128,
}

/// What is kept of numbers that are gone through.
#[derive(Clone, Copy)]
pub(crate) struct Scanned {
    /// The greatest of the numbers, or 0.
    pub(crate) top: u128,
    /// Whether one of the numbers is 0.
    pub(crate) has_zero: bool,
}

/// What is kept of so many numbers of up to 64 bits that octets are: each is looked at in a word, which takes half the
/// time.
fn scanned_words(octets: &[u8], width: u32, count: usize) -> Result<Scanned, DecodeError>
    requires width { width ≤ 64 }
    requires len { length octets.now ≡ octet_count (width * count) }
    ensures { Gives (λ x. (x, [])) result (mapped_at scanned (packed_at width count) octets.now) }
{
    let mut top: u64 = 0;
    let mut has_zero = false;
    let mut pending = Pending { bits: 0, count: 0 };
    let mut rest = octets;
    for _ in 0..count {
        let (number, next, behind) = take(rest, pending, width);
        top = top.max(number);
        has_zero |= number == 0;
        pending = next;
        rest = behind;
    }
    if pending.bits != 0 {
        return Err(DecodeError::Malformed);
    }
    let top = u128::from(top);
    Ok(Scanned { top, has_zero })
}

/// The same of numbers of up to 128 bits.
#[inline(never)]
fn scanned_wide(octets: &[u8], width: u32, count: usize) -> Result<Scanned, DecodeError>
    requires width { width ≤ 128 }
    requires len { length octets.now ≡ octet_count (width * count) }
    ensures { Gives (λ x. (x, [])) result (mapped_at scanned (packed_at width count) octets.now) }
{
    let mut top = 0;
    let mut has_zero = false;
    let mut pending = Pending { bits: 0, count: 0 };
    let mut rest = octets;
    for _ in 0..count {
        let (number, next, behind) = take_wide(rest, pending, width);
        top = top.max(number);
        has_zero |= number == 0;
        pending = next;
        rest = behind;
    }
    if pending.bits != 0 {
        return Err(DecodeError::Malformed);
    }
    Ok(Scanned { top, has_zero })
}

/// What is kept of so many numbers that octets are.
fn scan(octets: &[u8], width: u32, count: usize) -> Result<Scanned, DecodeError>
    requires width { width ≤ 128 }
    requires len { length octets.now ≡ octet_count (width * count) }
    ensures { Gives (λ x. (x, [])) result (mapped_at scanned (packed_at width count) octets.now) }
{
    if width <= 64 {
        return scanned_words(octets, width, count);
    }
    scanned_wide(octets, width, count)
}

/// What is kept of so many numbers of a width, and the octets after them.
fn scanned_at(octets: &[u8], width: u32, count: usize) -> Result<(Scanned, &[u8]), DecodeError>
    requires width { width ≤ 128 }
    requires count { count ≤ most_rows }
    ensures { Gives (λ x. (x.0, x.1.now)) result (mapped_at scanned (packed_at width count) octets.now) }
{
    let octet_len = (width as usize * count + 7) / 8;
    if octets.len() < octet_len {
        return Err(DecodeError::Malformed);
    }
    let (front, after) = octets.split_at(octet_len);
    let kept = scan(front, width, count)?;
    Ok((kept, after))
}

/// The range of a column of form 1 behind its least value, and the octets after it.
#[tactic(auto, unfolding(crate::specs::Outline::varied_range_at, crate::specs::RawColumn::bit_len))]
fn varied_range_at(rows: u16, low: i128, octets: &[u8]) -> Result<(ColumnRange, &[u8]), DecodeError>
    requires { rows ≤ most_rows }
    ensures { Gives (λ x. (x.0, x.1.now)) result (varied_range_at rows low octets.now) }
{
    let (width, rest) = u8_at(octets)?;
    if width < 1 || width > 128 {
        return Err(DecodeError::Malformed);
    }
    let (kept, rest) = scanned_at(rest, u32::from(width), usize::from(rows))?;
    // another least value, another width, or a value beyond i128 would be a second spelling, or none
    if !kept.has_zero
        || 128 - kept.top.leading_zeros() != u32::from(width)
        || kept.top > i128::MAX.abs_diff(low)
    {
        return Err(DecodeError::Malformed);
    }
    let greatest = low.wrapping_add_unsigned(kept.top);
    Ok((
        ColumnRange {
            least: low,
            greatest,
        },
        rest,
    ))
}

/// The range of the raw column of so many rows at the front, and the octets after it.
#[tactic(auto, unfolding(crate::specs::Outline::range_at, crate::specs::RawColumn::raw_column_at))]
pub(crate) fn range_at(rows: u16, octets: &[u8]) -> Result<(ColumnRange, &[u8]), DecodeError>
    requires some { 1 ≤ rows }
    requires few { rows ≤ most_rows }
    ensures { Gives (λ x. (x.0, x.1.now)) result (range_at rows octets.now) }
{
    let (form, rest) = u8_at(octets)?;
    let (low, rest) = i128_at(rest)?;
    match form {
        0 => {
            let range = ColumnRange {
                least: low,
                greatest: low,
            };
            Ok((range, rest))
        }
        1 => varied_range_at(rows, low, rest),
        _ => Err(DecodeError::Malformed),
    }
}
