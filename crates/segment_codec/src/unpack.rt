//! Reads numbers of one width, one after the other, without gaps, as values above a least one. 64 bits come in at once.

ghost use Rattle.std.specs.Prelude.{◌≡◌, ◌+◌, ◌*◌, ◌/◌, ◌%◌, ◌^◌, ◌<◌, ◌≤◌, ℕ, List, length, map, take, drop, Some, IfOk};
ghost use Rattle.octet_fields.specs.Answers.{Gives};
ghost use Rattle.octet_fields.specs.Exact.{IsOctets};
ghost use Rattle.octet_fields.specs.Reading.{mapped_at};
ghost use Rattle.segment_codec.specs.Bits.{number_from_digits, packed_at};
ghost use Rattle.segment_codec.specs.Pending.{HasUnpacked, IsPending, IsBehind, unread_bits, unread_number};
ghost use Rattle.segment_codec.specs.RawColumn.{unpacked, value_above};
ghost use Rattle.segment_codec.specs.Segment.{most_rows};

use crate::bits::Pending;
use crate::segment::RawColumn;
use octet_fields::DecodeError;
use std::alloc::Global;

/// The last octets behind the bits.
fn gather(bits: u128, rest: &[u8]) -> u128
    requires bits { bits < 2 ^ 64 }
    requires len { length rest.now ≤ 7 }
    ensures { result ≡ bits * 2 ^ (8 * length rest.now) + number_from_digits 8 rest.now }
{
    let mut all = bits;
    for octet in rest {
        all = all * 256 + u128::from(*octet);
    }
    all
}

/// At least so many bits, and the octets after them.
fn refill(rest: &[u8], pending: Pending, width: u32) -> (Pending, &[u8])
    requires pending { IsPending pending }
    requires width { width ≤ 64 }
    requires enough { width ≤ unread_bits pending rest.now }
    ensures low { width ≤ result.0.count }
    ensures high { result.0.count < 64 + width }
    ensures bits { result.0.bits < 2 ^ result.0.count }
    ensures len { unread_bits result.0 result.1.now ≡ unread_bits pending rest.now }
    ensures same { unread_number result.0 result.1.now ≡ unread_number pending rest.now }
    ensures octets { IsOctets result.1.now }
{
    if width <= pending.count {
        return (pending, rest);
    }
    if rest.len() < 8 {
        let bits = gather(pending.bits, rest);
        let count = pending.count + 8 * rest.len() as u32;
        let (_, after) = rest.split_at(rest.len());
        return (Pending { bits, count }, after);
    }
    let (front, after) = rest.split_at(8);
    let word = u64::from_be_bytes([
        front[0], front[1], front[2], front[3], front[4], front[5], front[6], front[7],
    ]);
    let bits = (pending.bits << 64u32) + u128::from(word);
    let count = pending.count + 64;
    (Pending { bits, count }, after)
}

/// The next number, where the bits have it: most numbers are taken so, in a word.
#[inline(always)]
fn take_at_hand(pending: Pending, width: u32) -> (u64, Pending)
    requires pending { IsPending pending }
    requires enough { width ≤ pending.count }
    ensures pending { IsPending result.1 }
    ensures number { result.0 < 2 ^ width }
    ensures len { result.1.count + width ≡ pending.count }
    ensures high { result.0 ≡ pending.bits / 2 ^ result.1.count }
    ensures low { result.1.bits ≡ pending.bits % 2 ^ result.1.count }
{
    let count = pending.count - width;
    let word = pending.bits as u64;
    let bits = u128::from(word & ((1u64 << count) - 1));
    (word >> count, Pending { bits, count })
}

/// The next number of up to 64 bits.
#[inline(always)]
pub(crate) fn take(rest: &[u8], pending: Pending, width: u32) -> (u64, Pending, &[u8])
    requires pending { IsPending pending }
    requires width { width ≤ 64 }
    requires enough { width ≤ unread_bits pending rest.now }
    ensures pending { IsPending result.1 }
    ensures number { result.0 < 2 ^ width }
    ensures len { unread_bits result.1 result.2.now + width ≡ unread_bits pending rest.now }
    ensures same { HasUnpacked result.0 pending rest.now result.1 result.2.now }
    ensures octets { IsOctets result.2.now }
{
    if width <= pending.count {
        let (number, behind) = take_at_hand(pending, width);
        return (number, behind, rest);
    }
    let (ahead, after) = refill(rest, pending, width);
    let spare = ahead.count - width;
    let number = ahead.bits >> spare;
    // a mask of the count alone, so that the next bits needn't wait for the number
    let bits = ahead.bits & ((1u128 << spare) - 1);
    (number as u64, Pending { bits, count: spare }, after)
}

/// The next number of up to 128 bits.
#[inline(always)]
pub(crate) fn take_wide(rest: &[u8], pending: Pending, width: u32) -> (u128, Pending, &[u8])
    requires pending { IsPending pending }
    requires width { width ≤ 128 }
    requires enough { width ≤ unread_bits pending rest.now }
    ensures pending { IsPending result.1 }
    ensures number { result.0 < 2 ^ width }
    ensures len { unread_bits result.1 result.2.now + width ≡ unread_bits pending rest.now }
    ensures same { HasUnpacked result.0 pending rest.now result.1 result.2.now }
    ensures octets { IsOctets result.2.now }
{
    if width <= 64 {
        let (number, after, behind) = take(rest, pending, width);
        return (u128::from(number), after, behind);
    }
    let (high, middle, between) = take(rest, pending, width - 64);
    let (low, after, behind) = take(between, middle, 64);
    let number = u128::from(high) * 0x1_0000_0000_0000_0000 + u128::from(low);
    (number, after, behind)
}

/// What is kept of numbers while they are read.
#[derive(Drop)]
pub(crate) struct Unpacked {
    /// The value that lies so far above the least, for each. Beyond i128 they wrap round.
    pub(crate) values: RawColumn,
    /// The greatest of the numbers, or 0.
    pub(crate) top: u128,
    /// Whether one of the numbers is 0.
    pub(crate) has_zero: bool,
}

/// So many numbers of a width, unpacked, and the octets after them. No room is made before their octets are found.
pub(crate) fn unpacked_at(
    alloc: Global,
    octets: &[u8],
    low: i128,
    width: u32,
    count: usize,
) -> Result<(Unpacked, &[u8]), DecodeError>
    requires width { width ≤ 128 }
    requires count { count ≤ most_rows }
    ensures { Gives (λ x. (x.0, x.1.now)) result (mapped_at (unpacked low) (packed_at width count) octets.now) }
{
    let octet_len = (width as usize * count + 7) / 8;
    if octets.len() < octet_len {
        return Err(DecodeError::Malformed);
    }
    let (front, after) = octets.split_at(octet_len);
    let mut values = Vec::with_capacity(alloc, count)?;
    let mut top = 0;
    let mut has_zero = false;
    let mut pending = Pending { bits: 0, count: 0 };
    let mut rest = front;
    for _ in 0..count {
        let (number, next, behind) = take_wide(rest, pending, width);
        values.push(low.wrapping_add_unsigned(number))?;
        top = top.max(number);
        has_zero |= number == 0;
        pending = next;
        rest = behind;
    }
    if pending.bits != 0 {
        return Err(DecodeError::Malformed);
    }
    let values = RawColumn::from_vec(values);
    let kept = Unpacked {
        values,
        top,
        has_zero,
    };
    Ok((kept, after))
}

/// What of octets stands behind so many bits.
fn behind_bits(octets: &[u8], bits: usize) -> (Pending, &[u8])
    requires { bits < 8 * length octets.now }
    ensures pending { IsPending result.0 }
    ensures len { unread_bits result.0 result.1.now + bits ≡ 8 * length octets.now }
    ensures same { IsBehind octets.now result.0 result.1.now }
    ensures octets { IsOctets result.1.now }
{
    let (_, rest) = octets.split_at(bits / 8);
    let count = 8 - (bits % 8) as u32;
    let bits = u128::from(rest[0]) & ((1u128 << count) - 1);
    let (_, after) = rest.split_at(1);
    (Pending { bits, count }, after)
}

/// The values of so many rows from a row on, where the numbers of so many rows stand at the front, of a width each. No
/// other number is unpacked.
pub(crate) fn unpacked_rows(
    alloc: Global,
    octets: &[u8],
    low: i128,
    width: u32,
    rows: usize,
    first: usize,
    count: usize,
) -> Result<RawColumn, DecodeError>
    requires thin { width ≤ 128 }
    requires wide { 1 ≤ width }
    requires some { 1 ≤ count }
    requires within { first + count ≤ rows }
    requires few { rows ≤ most_rows }
    ensures { (numbers : List ℕ) (after : List ℕ) → packed_at width rows octets.now ≡ Some (numbers, after) →
        IfOk result (λ values. values ≡ map (value_above low) (take count (drop first numbers))) }
{
    let octet_len = (width as usize * rows + 7) / 8;
    if octets.len() < octet_len {
        return Err(DecodeError::Malformed);
    }
    let (front, _) = octets.split_at(octet_len);
    let (start, behind_start) = behind_bits(front, width as usize * first);
    let mut values = Vec::with_capacity(alloc, count)?;
    let mut pending = start;
    let mut rest = behind_start;
    for _ in 0..count {
        let (number, next, behind) = take_wide(rest, pending, width);
        values.push(low.wrapping_add_unsigned(number))?;
        pending = next;
        rest = behind;
    }
    Ok(RawColumn::from_vec(values))
}
