//! Cells at the front of octets.

ghost use Rattle.std.specs.Prelude.{◌≡◌, IfOk, pos, Some};
ghost use Rattle.octet_fields.specs.Answers.{Answers};
ghost use Rattle.packed_cells.specs.Packed.{packed_after, packed_cell_at, eng_of_kind, is_of_32, is_of_64, is_of_128, key_at, origin, packed_raw_at, step_at, sum_at, value_at};

use crate::zigzag::{unzigzag, unzigzag_word};
use arch_types::cell::{Cell, Eng};
use arch_types::key::Key;
use octet_fields::{Short, i128_at, u8_at};
use varints::{varint_at, word_at};

/// What a cell is spelled by: what the ones before it had last.
#[derive(Clone, Copy, Debug)]
pub(crate) struct Before {
    pub(crate) time: i64,
    pub(crate) seq: u32,
    pub(crate) raw: i128,
    /// The millionths of the last engineering value that had some.
    pub(crate) fixed: i64,
}

impl Before {
    /// Before any.
    pub(crate) fn origin() -> Before
        ensures { result ≡ origin }
    {
        Before {
            time: 0,
            seq: 0,
            raw: 0,
            fixed: 0,
        }
    }

    /// Before the next of a cell.
    pub(crate) fn after(&self, cell: &Cell) -> Before
        ensures { result ≡ packed_after self.now cell.now }
    {
        let fixed = match cell.eng {
            Eng::Fixed(millionths) => millionths,
            Eng::Whole | Eng::Label(_) | Eng::Undef => self.fixed,
        };
        Before {
            time: cell.key.time,
            seq: cell.key.seq,
            raw: cell.raw,
            fixed,
        }
    }
}

/// The sum of a number and what is spelled as the difference to it, where both have 64 bits.
#[inline(always)]
fn near_sum_at(octets: &[u8], before: i64) -> Result<(i64, &[u8]), Short>
    ensures { IfOk result (λ x. sum_at before octets.now ≡ Some (x.0, x.1.now)) }
{
    let (n, rest) = word_at(octets)?;
    match before.checked_add(unzigzag_word(n)) {
        Some(x) => Ok((x, rest)),
        None => Err(Short),
    }
}

/// The same of any difference, of which no sum has more than 128 bits.
#[inline(never)]
fn wide_sum_at(octets: &[u8], before: i128) -> Result<(i128, &[u8]), Short>
    ensures { Answers (λ x. (x.0, x.1.now)) result (step_at is_of_128 before octets.now) }
{
    let (n, rest) = varint_at(octets)?;
    match before.checked_add(unzigzag(n)) {
        Some(x) => Ok((x, rest)),
        None => Err(Short),
    }
}

/// A number of 64 bits by its difference to one before.
#[inline(always)]
fn i64_step_at(octets: &[u8], before: i64) -> Result<(i64, &[u8]), Short>
    ensures { Answers (λ x. (x.0, x.1.now)) result (step_at is_of_64 before octets.now) }
{
    if let Ok(found) = near_sum_at(octets, before) {
        return Ok(found);
    }
    let (x, rest) = wide_sum_at(octets, i128::from(before))?;
    match i64::try_from(x) {
        Ok(x) => Ok((x, rest)),
        Err(_) => Err(Short),
    }
}

/// The same of 32 bits without a sign.
fn u32_step_at(octets: &[u8], before: u32) -> Result<(u32, &[u8]), Short>
    ensures { Answers (λ x. (pos x.0, x.1.now)) result (step_at is_of_32 (pos before) octets.now) }
{
    let (x, rest) = i64_step_at(octets, i64::from(before))?;
    match u32::try_from(x) {
        Ok(x) => Ok((x, rest)),
        Err(_) => Err(Short),
    }
}

/// A number of 128 bits by its difference to one before.
fn i128_step_at(octets: &[u8], before: i128) -> Result<(i128, &[u8]), Short>
    ensures { Answers (λ x. (x.0, x.1.now)) result (step_at is_of_128 before octets.now) }
{
    if let Ok(before) = i64::try_from(before) {
        if let Ok((x, rest)) = near_sum_at(octets, before) {
            return Ok((i128::from(x), rest));
        }
    }
    wide_sum_at(octets, before)
}

/// A raw number of a cell of a kind.
fn raw_at<'a>(octets: &'a [u8], before: &Before, kind: u8) -> Result<(i128, &'a [u8]), Short>
    ensures { Answers (λ x. (x.0, x.1.now)) result (packed_raw_at before.now.raw kind octets.now) }
{
    if kind >= 4 {
        i128_at(octets)
    } else {
        i128_step_at(octets, before.raw)
    }
}

/// An engineering value of a kind.
fn eng_at(octets: &[u8], before: i64, kind: u8) -> Result<(Eng, &[u8]), Short>
    ensures { Answers (λ x. (x.0, x.1.now)) result (eng_of_kind before kind octets.now) }
{
    match kind {
        0 => Ok((Eng::Whole, octets)),
        1 => Ok((Eng::Undef, octets)),
        2 => {
            let (millionths, rest) = i64_step_at(octets, before)?;
            Ok((Eng::Fixed(millionths), rest))
        }
        _ => {
            let (row, rest) = varint_at(octets)?;
            if row > u128::from(u16::MAX) {
                return Err(Short);
            }
            Ok((Eng::Label(row as u16), rest))
        }
    }
}

/// The key of a cell.
fn key_at<'a>(octets: &'a [u8], before: &Before) -> Result<(Key, &'a [u8]), Short>
    ensures { Answers (λ x. ((x.0.time, pos x.0.seq), x.1.now)) result (key_at before.now octets.now) }
{
    let (time, rest) = i64_step_at(octets, before.time)?;
    let (seq, rest) = u32_step_at(rest, before.seq)?;
    Ok((Key { time, seq }, rest))
}

/// The values of a cell of a kind.
fn value_at<'a>(
    octets: &'a [u8],
    before: &Before,
    kind: u8,
) -> Result<((i128, Eng), &'a [u8]), Short>
    ensures { Answers (λ x. (x.0, x.1.now)) result (value_at before.now kind octets.now) }
{
    let (raw, rest) = raw_at(octets, before, kind)?;
    let (eng, rest) = eng_at(rest, before.fixed, kind % 4)?;
    Ok(((raw, eng), rest))
}

/// The cell at the front, behind what stands before it, and the octets after it.
#[tactic(auto, unfolding(crate::specs::Packed::packed_cell_at))]
pub(crate) fn cell_at<'a>(octets: &'a [u8], before: &Before) -> Result<(Cell, &'a [u8]), Short>
    ensures { Answers (λ x. (x.0, x.1.now)) result (packed_cell_at before.now octets.now) }
{
    let (kind, rest) = u8_at(octets)?;
    let (key, rest) = key_at(rest, before)?;
    let ((raw, eng), rest) = value_at(rest, before, kind)?;
    Ok((Cell { key, raw, eng }, rest))
}
