//! The cells of a parameter in the segments of a set.

ghost use Rattle.std.specs.Prelude.{◌≡◌, ◌<◌, ◌++◌, flat_map, length, map, true, IfOk, OnOk};
ghost use Rattle.std.specs.List.{AllByRecursion, filter_map};
ghost use Rattle.std.specs.List.Sorted.{IsSortedBy};
ghost use Rattle.container_extract.specs.Values.{IsRawValue};
ghost use Rattle.param_segments.specs.Cells.{cells_from, is_cell_earlier, raw_cell_of, raw_value_of_cell, segment_cells, with_eng};
ghost use Rattle.segment_codec.specs.Segment.{HasSegmentAt};
ghost use Rattle.segment_codec.specs.declared.segment.Segment.{Segment};
ghost use Rattle.param_segments.specs.Groups.{set_of};
ghost use Rattle.param_segments.specs.Octets.{IsSpelledSet, rows_of_numbered_segment, rows_in_octets};

use crate::raw_cell::RawCell;
use arch_types::cell::{Cell, Cells};
use arch_types::key::Key;
use container_extract::eng_of;
use container_extract::values::RawValue;
use mdb_model::Mdb;
use segment_codec::read_column;
use std::alloc::{AllocError, Global};

/// Adds the raw cells of a column.
pub(crate) fn put_column(
    cells: &mut Vec<RawCell>,
    keys: &[Key],
    raws: &[i128],
) -> Result<(), AllocError>
    requires { length raws.now ≡ length keys.now }
    ensures { OnOk result (cells.new.items ≡ cells.old.items ++ cells_from keys.now raws.now) }
{
    cells.reserve(keys.len())?;
    for i in 0..keys.len() {
        cells.push(RawCell {
            key: keys[i],
            raw: raws[i],
        })?;
    }
    Ok(())
}

/// Adds the raw cells of a parameter in the segment that stands in octets from a place on.
fn put_segment_cells(
    alloc: Global,
    cells: &mut Vec<RawCell>,
    octets: &[u8],
    at: usize,
    parameter: u16,
) -> Result<(), AllocError>
    requires { (s : Segment) × HasSegmentAt octets.now at s }
    ensures { (s : Segment) → HasSegmentAt octets.now at s → OnOk result
        (cells.new.items ≡ cells.old.items ++ segment_cells parameter s) }
{
    match read_column(alloc, octets, at, parameter)? {
        None => Ok(()),
        Some(column) => put_column(cells, column.keys.as_slice(), column.values.as_slice()),
    }
}

/// The raw cells of a parameter, segment by segment.
fn gathered_cells(
    alloc: Global,
    octets: &[u8],
    starts: &[u32],
    parameter: u16,
) -> Result<Vec<RawCell>, AllocError>
    requires { IsSpelledSet octets.now starts.now }
    ensures { IfOk result (λ cells. cells.items ≡ flat_map (segment_cells parameter)
        (set_of (rows_in_octets octets.now))) }
{
    let mut cells = Vec::new(alloc);
    for start in starts {
        put_segment_cells(alloc, &mut cells, octets, *start as usize, parameter)?;
    }
    Ok(cells)
}

/// The raw cells of a parameter in one segment.
pub(crate) fn raw_cells_in_segment(
    alloc: Global,
    octets: &[u8],
    starts: &[u32],
    segment: usize,
    parameter: u16,
) -> Result<Vec<RawCell>, AllocError>
    requires spelled { IsSpelledSet octets.now starts.now }
    requires segment { segment < length starts.now }
    ensures { IfOk result (λ cells. cells.items ≡ filter_map (raw_cell_of parameter)
        (rows_of_numbered_segment (rows_in_octets octets.now) segment)) }
{
    let mut cells = Vec::new(alloc);
    put_segment_cells(
        alloc,
        &mut cells,
        octets,
        starts[segment] as usize,
        parameter,
    )?;
    Ok(cells)
}

/// No key is below the one before it.
pub(crate) fn are_sorted(cells: &[RawCell]) -> bool
    ensures { result ≡ true → IsSortedBy is_cell_earlier cells.now }
{
    for i in 1..cells.len() {
        if cells[i].key < cells[i - 1].key {
            return false;
        }
    }
    true
}

/// The raw cells of a parameter, in the order of their keys. One group alone has most parameters: its keys rise already.
pub(crate) fn raw_cells(
    alloc: Global,
    octets: &[u8],
    starts: &[u32],
    parameter: u16,
) -> Result<Vec<RawCell>, AllocError>
    requires { IsSpelledSet octets.now starts.now }
    ensures { IfOk result (λ cells. cells.items ≡ filter_map (raw_cell_of parameter) (rows_in_octets octets.now)) }
{
    let mut cells = gathered_cells(alloc, octets, starts, parameter)?;
    if are_sorted(&cells) {
        return Ok(cells);
    }
    cells.sort()?;
    Ok(cells)
}

/// The raw cell of a parameter of the database, with its engineering value.
fn with_eng(mdb: &Mdb, parameter: u16, cell: RawCell) -> Cell
    requires { IsRawValue mdb.now (raw_value_of_cell parameter cell) }
    ensures { result ≡ with_eng mdb.now parameter cell }
{
    let value = RawValue {
        parameter,
        raw: cell.raw,
    };
    Cell {
        key: cell.key,
        raw: cell.raw,
        eng: eng_of(mdb, value),
    }
}

/// Raw cells of a parameter of the database, each with its engineering value.
pub(crate) fn calibrated_cells(
    alloc: Global,
    mdb: &Mdb,
    parameter: u16,
    raw: &[RawCell],
) -> Result<Cells, AllocError>
    requires { AllByRecursion (λ cell. IsRawValue mdb.now (raw_value_of_cell parameter cell)) raw.now }
    ensures { IfOk result (λ cells. cells ≡ map (with_eng mdb.now parameter) raw.now) }
{
    let mut cells = Vec::with_capacity(alloc, raw.len())?;
    for cell in raw {
        cells.push(with_eng(mdb, parameter, *cell))?;
    }
    Ok(Cells::from_vec(cells))
}
