//! Cells of each kind and at the extremes of each number, one behind the other and back, and the octets of varints.

use crate::ends::{Check, none_other, other};
use arch_types::cell::{Cell, Eng};
use arch_types::key::Key;
use packed_cells::PackedCells;
use std::alloc::{AllocError, Global};
use std::test::Fail;
use varints::{put_varint, varint_at, word_at};

fn cell(time: i64, seq: u32, raw: i128, eng: Eng) -> Cell {
    Cell {
        key: Key { time, seq },
        raw,
        eng,
    }
}

/// The bound below which a raw number is spelled by its difference.
const SMALL: i128 = 1 << 96;

/// Each kind of value, next to each other and next to itself.
fn kinds() -> [Cell; 8] {
    [
        cell(1, 1, 7, Eng::Whole),
        cell(1, 2, 7, Eng::Undef),
        cell(2, 2, 8, Eng::Label(3)),
        cell(2, 3, 8, Eng::Fixed(-1)),
        cell(3, 3, 9, Eng::Fixed(542_950_000)),
        cell(4, 3, 9, Eng::Label(u16::MAX)),
        cell(5, 3, 9, Eng::Undef),
        cell(6, 3, 9, Eng::Whole),
    ]
}

/// Keys and engineering values from one extreme to the other.
fn ends_of_keys() -> [Cell; 4] {
    [
        cell(i64::MIN, 0, 0, Eng::Fixed(i64::MAX)),
        cell(i64::MAX, u32::MAX, 0, Eng::Fixed(i64::MIN)),
        cell(i64::MIN, u32::MAX, 0, Eng::Label(0)),
        cell(0, 0, 0, Eng::Fixed(i64::MAX)),
    ]
}

/// Raw numbers at the ends of 64 bits, of what a difference spells, and of 128 bits.
fn ends_of_raws() -> [Cell; 8] {
    [
        cell(0, 0, i128::from(i64::MAX), Eng::Whole),
        cell(0, 1, i128::from(i64::MIN), Eng::Whole),
        cell(0, 2, SMALL - 1, Eng::Undef),
        cell(0, 3, -SMALL, Eng::Whole),
        cell(0, 4, SMALL, Eng::Whole),
        cell(0, 5, i128::MAX, Eng::Fixed(1)),
        cell(0, 6, i128::MIN, Eng::Whole),
        cell(0, 7, 0, Eng::Whole),
    ]
}

/// Whether cells are read as they were added.
fn are_kept(alloc: Global, cells: &[Cell]) -> Result<bool, AllocError> {
    let mut packed = PackedCells::new(alloc);
    packed.extend_from_slice(cells)?;
    let mut left = packed.iter();
    for cell in cells {
        if left.next() != Some(*cell) {
            return Ok(false);
        }
    }
    Ok(left.next().is_none() && packed.len() == cells.len())
}

/// Whether a number has this varint, which is read from the end of octets and from before others.
fn is_varint(alloc: Global, n: u128, octets: &[u8]) -> Result<bool, AllocError> {
    let mut out = Vec::new(alloc);
    put_varint(&mut out, n)?;
    let is_alone = matches!(varint_at(&out), Ok((m, [])) if m == n);
    let is_spelled = out.as_slice() == octets;
    out.extend_from_slice(&[9; 8])?;
    let is_first = matches!(varint_at(&out), Ok((m, rest)) if m == n && rest.len() == 8);
    Ok(is_alone && is_spelled && is_first)
}

/// The same of the numbers at which one octet more is taken.
fn are_varints(alloc: Global) -> Result<bool, AllocError> {
    Ok(
        is_varint(alloc, 0, &[0])?
            && is_varint(alloc, 127, &[127])?
            && is_varint(alloc, 128, &[128, 1])?
            && is_varint(alloc, 300, &[172, 2])?
            && is_varint(
                alloc,
                (1 << 56) - 1,
                &[255, 255, 255, 255, 255, 255, 255, 127],
            )?
            && is_varint(alloc, 1 << 56, &[128, 128, 128, 128, 128, 128, 128, 128, 1])?,
    )
}

/// What is looked at of cells.
fn other_cells(alloc: Global) -> Result<Option<&'static str>, AllocError> {
    let checks: &[Check] = &[
        ("none", are_kept(alloc, &[])?),
        ("kinds", are_kept(alloc, &kinds())?),
        ("keys", are_kept(alloc, &ends_of_keys())?),
        ("raw numbers", are_kept(alloc, &ends_of_raws())?),
    ];
    Ok(other(checks))
}

/// What is looked at of varints.
fn other_varints(alloc: Global) -> Result<Option<&'static str>, AllocError> {
    let checks: &[Check] = &[
        ("varints", are_varints(alloc)?),
        ("no octets", varint_at(&[]).is_err()),
        ("no end", varint_at(&[128; 20]).is_err()),
        (
            "a zero at the end",
            varint_at(&[128, 0, 1, 1, 1, 1, 1, 1, 1]).is_err(),
        ),
        (
            "15 octets",
            varint_at(&[
                128, 128, 128, 128, 128, 128, 128, 128, 128, 128, 128, 128, 128, 128, 1,
            ])
            .is_err(),
        ),
        ("few octets", word_at(&[1; 7]).is_err()),
    ];
    Ok(other(checks))
}

#[test]
fn cells_and_varints(rt: HostRuntime) -> Result<(), Fail> {
    let (Ok(cells), Ok(varints)) = (other_cells(rt.alloc()), other_varints(rt.alloc())) else {
        return Err(Fail::new("memory"));
    };
    none_other(cells.or(varints))
}
