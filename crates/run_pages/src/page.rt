//! Pages as octets, both ways.

ghost use Rattle.std.specs.Prelude.{◌≡◌, ◌++◌, ◌≤◌, ℕ, List, length, OnOk, IfOk};
ghost use Rattle.std.specs.List.{AllByRecursion, flat_map};
ghost use Rattle.octet_fields.specs.declared.fault.DecodeError.TheVariants.{OutOfMemory};
ghost use Rattle.octet_fields.specs.Answers.{Gives, ReadsEach, ReadsOnly};
ghost use Rattle.octet_fields.specs.Reading.{times_at, whole};
ghost use Rattle.row_codec.specs.Block.{IsEndOf};
ghost use Rattle.row_codec.specs.Rows.{IsStored};
ghost use Rattle.run_pages.specs.Placed.{row_placed, placed_rows};
ghost use Rattle.run_pages.specs.Pages.{FitsPage, IsPage, page_at, page_octets, placed_at, placed_octets, rows_of_page};

use crate::page_rows::{PageRows, Positions};
use arch_types::octets::Octets;
use arch_types::row::{Row, Rows};
use octet_fields::{DecodeError, put_u16, put_u64, u16_at, u64_at};
use row_codec::{put_row, read_row, row_len};
use std::alloc::{AllocError, Global};

/// The most rows that a page has.
pub const PAGE_ROWS: usize = 64;

/// The octets of a page's count.
const COUNT_SIZE: usize = 2;

/// The octets of a position.
const POSITION_SIZE: usize = 8;

/// A row behind its position, at the front of an end of a block.
#[tactic(auto, unfolding(crate::specs::Pages::placed_at))]
fn placed_at<'a>(block: &Octets, octets: &'a [u8]) -> Result<(u64, Row, &'a [u8]), DecodeError>
    requires { IsEndOf octets.now block.now }
    ensures gives { Gives (λ x. (row_placed x.0 x.1, x.2.now)) result (placed_at octets.now) }
    ensures rest { IfOk result (λ x. IsEndOf x.2.now block.now) }
{
    let (position, rest) = u64_at(octets)?;
    let (row, rest) = read_row(block, rest)?;
    Ok((position, row, rest))
}

/// So many rows, each behind its position, at the front of an end of a block.
fn some_placed_at<'a>(
    alloc: Global,
    block: &Octets,
    count: u16,
    octets: &'a [u8],
) -> Result<(PageRows, &'a [u8]), DecodeError>
    requires { IsEndOf octets.now block.now }
    ensures { Gives (λ x. (rows_of_page x.0, x.1.now)) result (times_at placed_at count octets.now) }
{
    let mut rows = Rows::from_vec(Vec::with_capacity(alloc, count as usize)?);
    let mut positions = Positions::from_vec(Vec::with_capacity(alloc, count as usize)?);
    let mut rest = octets;
    for _ in 0..count {
        let (position, row, after) = placed_at(block, rest)?;
        positions.push(position)?;
        rows.push(row)?;
        rest = after;
    }
    Ok((PageRows { rows, positions }, rest))
}

/// The counted rows that an end of a block is.
#[tactic(auto, unfolding(crate::specs::Pages::page_at))]
fn whole_page(alloc: Global, block: &Octets, octets: &[u8]) -> Result<PageRows, DecodeError>
    requires { IsEndOf octets.now block.now }
    ensures { Gives (λ page. rows_of_page page) result (whole page_at octets.now) }
{
    let (count, rest) = u16_at(octets)?;
    if count < 1 || usize::from(count) > PAGE_ROWS {
        return Err(DecodeError::Malformed);
    }
    let (page, rest) = some_placed_at(alloc, block, count, rest)?;
    if !rest.is_empty() {
        return Err(DecodeError::Malformed);
    }
    Ok(page)
}

/// The page that the octets of a block spell.
fn spelled_page(alloc: Global, block: &Octets, octets: &[u8]) -> Result<PageRows, DecodeError>
    requires { octets.now ≡ block.now }
    ensures spelled { ReadsOnly IsPage page_octets (λ page. rows_of_page page) octets.now result }
    ensures each { ReadsEach IsPage page_octets (λ page. rows_of_page page) (λ e. e ≡ OutOfMemory) octets.now result }
{
    whole_page(alloc, block, octets)
}

/// The page that octets spell. Its packets are slices of their block.
pub fn read_page(alloc: Global, octets: &Octets) -> Result<PageRows, DecodeError>
    // Ok: the octets are the one spelling of these rows at these positions.
    ensures spelled { ReadsOnly IsPage page_octets (λ page. rows_of_page page) octets.now result }

    // Octets that spell a page give it, unless memory is wanting.
    ensures each { ReadsEach IsPage page_octets (λ page. rows_of_page page) (λ e. e ≡ OutOfMemory) octets.now result }
{
    spelled_page(alloc, octets, octets.as_slice())
}

/// Adds the octets of a row behind its position to a buffer.
#[tactic(auto, unfolding(crate::specs::Pages::placed_octets))]
fn put_placed(out: &mut Vec<u8>, position: u64, row: &Row) -> Result<(), AllocError>
    requires { FitsPage (row_placed position row.now) }
    ensures { OnOk result (out.new.items ≡ out.old.items ++ placed_octets (row_placed position row.now)) }
{
    put_u64(out, position)?;
    put_row(out, row)
}

/// Adds the octets of some rows to a buffer, each behind its position.
fn put_placed_rows(out: &mut Vec<u8>, rows: &[Row], positions: &[u64]) -> Result<(), AllocError>
    requires beside { length positions.now ≡ length rows.now }
    requires each { AllByRecursion FitsPage (placed_rows positions.now rows.now) }
    ensures { OnOk result (out.new.items
        ≡ out.old.items ++ flat_map placed_octets (placed_rows positions.now rows.now)) }
{
    for i in 0..rows.len() {
        put_placed(out, positions[i], &rows[i])?;
    }
    Ok(())
}

/// How many octets a page is spelled in, whatever its positions are: at most 4,195,970.
pub fn page_len(rows: &[Row]) -> usize
    requires few { length rows.now ≤ 64 }
    requires each { AllByRecursion IsStored rows.now }
    ensures value { (positions : List ℕ) → length positions ≡ length rows.now →
        result ≡ length (page_octets (placed_rows positions rows.now)) }
    ensures bound { result ≤ 4195970 }
{
    let mut len = COUNT_SIZE;
    for row in rows {
        len += POSITION_SIZE + row_len(row);
    }
    len
}

/// Adds the one spelling of a page to a buffer: 1 to 64 rows, each at the position that stands beside it.
#[tactic(auto, unfolding(octet_fields::specs::Spelling::counted))]
pub fn put_page(out: &mut Vec<u8>, rows: &[Row], positions: &[u64]) -> Result<(), AllocError>
    requires beside { length positions.now ≡ length rows.now }
    requires page { IsPage (placed_rows positions.now rows.now) }
    ensures { OnOk result (out.new.items ≡ out.old.items ++ page_octets (placed_rows positions.now rows.now)) }
{
    put_u16(out, rows.len() as u16)?;
    put_placed_rows(out, rows, positions)
}
