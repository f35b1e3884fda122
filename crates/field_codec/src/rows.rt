//! Entries of rows as octets, both ways.

ghost use Rattle.std.specs.Prelude.{◌≡◌, ◌*◌, ◌<◌, ◌≤◌, ◌^◌, ◌++◌, length, IfOk, OnOk};
ghost use Rattle.std.specs.Int.{w8};
ghost use Rattle.std.specs.List.{AllByRecursion, flat_map};
ghost use Rattle.octet_fields.specs.declared.fault.DecodeError.TheVariants.{OutOfMemory};
ghost use Rattle.octet_fields.specs.Answers.{Gives, ReadsEach, ReadsOnly};
ghost use Rattle.octet_fields.specs.Reading.{times_at, whole};
ghost use Rattle.octet_fields.specs.Spelling.{number};
ghost use Rattle.row_codec.specs.Block.{IsEndOf};
ghost use Rattle.row_codec.specs.Rows.{IsStored};
ghost use Rattle.row_codec.specs.Spelling.{row_octets};
ghost use Rattle.row_codec.specs.Reading.{row_at};
ghost use Rattle.field_codec.specs.Entries.{AreStored};
ghost use Rattle.field_codec.specs.Spelling.{rows_octets};
ghost use Rattle.field_codec.specs.Reading.{rows_at};

use arch_types::octets::Octets;
use arch_types::row::{Row, Rows};
use octet_fields::{DecodeError, Encode, put_each, put_u8, put_u16, u16_at};
use row_codec::{put_row, read_row, row_len};
use std::alloc::{AllocError, Global};

/// The number of rows that an entry holds at most.
const MOST_ROWS: u16 = 1024;

/// So many rows at the front of an end of a block.
fn some_rows_at<'a>(
    alloc: Global,
    block: &Octets,
    count: u16,
    octets: &'a [u8],
) -> Result<(Rows, &'a [u8]), DecodeError>
    requires { IsEndOf octets.now block.now }
    ensures { Gives (λ x. (x.0, x.1.now)) result (times_at row_at count octets.now) }
{
    let mut rows = Rows::from_vec(Vec::with_capacity(alloc, count as usize)?);
    let mut rest = octets;
    for _ in 0..count {
        let (row, after) = read_row(block, rest)?;
        rows.push(row)?;
        rest = after;
    }
    Ok((rows, rest))
}

/// The counted rows that an end of a block is.
#[tactic(auto, unfolding(crate::specs::Reading::rows_at))]
fn whole_rows(alloc: Global, block: &Octets, octets: &[u8]) -> Result<Rows, DecodeError>
    requires { IsEndOf octets.now block.now }
    ensures { Gives (λ rows. rows) result (whole rows_at octets.now) }
{
    let (count, rest) = u16_at(octets)?;
    if count < 1 || count > MOST_ROWS {
        return Err(DecodeError::Malformed);
    }
    let (rows, rest) = some_rows_at(alloc, block, count, rest)?;
    if !rest.is_empty() {
        return Err(DecodeError::Malformed);
    }
    Ok(rows)
}

/// The rows that an end of a block spells. Their packets are slices of the block.
pub(crate) fn read_rows(alloc: Global, block: &Octets, octets: &[u8]) -> Result<Rows, DecodeError>
    requires { IsEndOf octets.now block.now }
    ensures spelled { ReadsOnly AreStored rows_octets (λ rows. rows) octets.now result }
    ensures each { ReadsEach AreStored rows_octets (λ rows. rows) (λ e. e ≡ OutOfMemory) octets.now result }
{
    whole_rows(alloc, block, octets)
}

/// How a row is spelled. It is read beside its block, by `read_row`.
struct RowCodec;

impl Encode for RowCodec {
    type Value = Row;

    ghost fits = { IsStored };

    ghost spell = { row_octets };

    fn put(out: &mut Vec<u8>, row: &Row) -> Result<(), AllocError> {
        put_row(out, row)
    }
}

/// How many octets rows are spelled in.
fn rows_size(rows: &[Row]) -> usize
    requires few { length rows.now ≤ 1024 }
    requires stored { AllByRecursion IsStored rows.now }
    ensures size { result ≡ length (flat_map row_octets rows.now) }
    ensures small { result ≤ 1024 * 65554 }
{
    let mut size = 0usize;
    for row in rows {
        size += row_len(row);
    }
    size
}

/// How many octets an entry of rows has.
pub fn rows_entry_len(rows: &[Row]) -> u32
    requires { AreStored rows.now }
    ensures len { result ≡ length (number w8 2 ++ rows_octets rows.now) }
    ensures short { result < 2 ^ 30 }
{
    (3 + rows_size(rows)) as u32
}

/// Adds the octets of an entry of rows to a buffer.
#[tactic(auto, unfolding(octet_fields::specs::Spelling::counted))]
pub fn put_rows(out: &mut Vec<u8>, rows: &[Row]) -> Result<(), AllocError>
    requires { AreStored rows.now }
    ensures { OnOk result (out.new.items ≡ out.old.items ++ (number w8 2 ++ rows_octets rows.now)) }
{
    put_u8(out, 2)?;
    put_u16(out, rows.len() as u16)?;
    put_each::<RowCodec>(out, rows)
}

/// The octets of an entry of rows.
pub(crate) fn write_rows(alloc: Global, rows: &[Row]) -> Result<Vec<u8>, AllocError>
    requires { AreStored rows.now }
    ensures octets { IfOk result (λ out. out.items ≡ number w8 2 ++ rows_octets rows.now) }
    ensures short { IfOk result (λ out. length out.items < 2 ^ 30) }
{
    let mut out = Vec::with_capacity(alloc, rows_entry_len(rows) as usize)?;
    put_rows(&mut out, rows)?;
    Ok(out)
}
