//! The cells that the parts of a plan have of a parameter, in the order and up to the limit that are asked.

ghost use Rattle.std.specs.Prelude.{◌≡◌, ◌+◌, ◌≤◌, ◌++◌, ◌∷◌, [], OnOk, IfOk, filter, flat_map, length, reverse};
ghost use Rattle.std.specs.List.{AllByRecursion, filter_map};
ghost use Rattle.arch_types.specs.Table.{is_in_time_range};
ghost use Rattle.arch_types.specs.Directions.{in_direction, truncated};
ghost use Rattle.param_segments.specs.CellRange.{is_cell_in_range};
ghost use Rattle.param_segments.specs.Cells.{AreValuesOf, set_cells};
ghost use Rattle.param_segments.specs.Plans.{HasValuesOf, rows_of_part, rows_of_parts};
ghost use Rattle.container_extract.specs.Answer.{as_asked};
ghost use Rattle.part_answers.specs.PartCells.{cell_in_range, cell_list, cells_of_part, limit_left};

use crate::cells::{add_cell, is_full};
use arch_types::direction::Direction;
use arch_types::row::Row;
use arch_types::steps::Steps;
use asks::Request;
use container_extract::Extractor;
use mdb_model::Mdb;
use packed_cells::PackedCells;
use param_segments::{CellRange, Part, SegSet};
use std::alloc::{AllocError, Global};
use std::sync::ledger::Ledger;

/// The cells that a request asks of parts, of the parameter with this number.
pub(crate) fn cells_over_parts<L: Ledger>(
    alloc: Global,
    mdb: &Mdb,
    number: u16,
    request: &Request,
    parts: &[Part],
    steps: &mut Steps<L>,
) -> Result<PackedCells, AllocError>
    requires { AllByRecursion (HasValuesOf mdb.now) parts.now }
    ensures cells { IfOk result (λ cells. cells ≡ as_asked request.now
        (flat_map (cells_of_part mdb.now number request.now.from request.now.to) parts.now)) }
    ensures steps { steps.new ≤ steps.old + length (filter (is_in_time_range request.now.from request.now.to)
        (rows_of_parts parts.now)) }
{
    match request.direction {
        Direction::Ascending => first_part_cells(alloc, mdb, number, request, parts, steps),
        Direction::Descending => last_part_cells(alloc, mdb, number, request, parts, steps),
    }
}

/// The first cells of parts. None behind the limit is read.
fn first_part_cells<L: Ledger>(
    alloc: Global,
    mdb: &Mdb,
    number: u16,
    request: &Request,
    parts: &[Part],
    steps: &mut Steps<L>,
) -> Result<PackedCells, AllocError>
    requires { AllByRecursion (HasValuesOf mdb.now) parts.now }
    ensures cells { IfOk result (λ cells. cells ≡ truncated request.now.limit
        (flat_map (cells_of_part mdb.now number request.now.from request.now.to) parts.now)) }
    ensures steps { steps.new ≤ steps.old + length (filter (is_in_time_range request.now.from request.now.to)
        (rows_of_parts parts.now)) }
{
    let mut cells = PackedCells::new(alloc);
    for part in parts {
        if is_full(&cells, request.limit) {
            return Ok(cells);
        }
        add_part_cells(alloc, mdb, number, request, part, &mut cells, steps)?;
    }
    Ok(cells)
}

/// The first cells of parts in the opposite order. The last part is read first, and none behind the limit.
fn last_part_cells<L: Ledger>(
    alloc: Global,
    mdb: &Mdb,
    number: u16,
    request: &Request,
    parts: &[Part],
    steps: &mut Steps<L>,
) -> Result<PackedCells, AllocError>
    requires { AllByRecursion (HasValuesOf mdb.now) parts.now }
    ensures cells { IfOk result (λ cells. cells ≡ truncated request.now.limit
        (reverse (flat_map (cells_of_part mdb.now number request.now.from request.now.to) parts.now))) }
    ensures steps { steps.new ≤ steps.old + length (filter (is_in_time_range request.now.from request.now.to)
        (rows_of_parts parts.now)) }
{
    let mut cells = PackedCells::new(alloc);
    for part in parts.iter().rev() {
        if is_full(&cells, request.limit) {
            return Ok(cells);
        }
        add_last_part_cells(alloc, mdb, number, request, part, &mut cells, steps)?;
    }
    Ok(cells)
}

/// The range of a request in a direction, up to so many cells as its limit has room for beside some.
fn range_left(request: &Request, direction: Direction, cells: &PackedCells) -> CellRange
    ensures from { result.from ≡ request.now.from }
    ensures to { result.to ≡ request.now.to }
    ensures direction { result.direction ≡ direction }
    ensures limit { result.limit ≡ limit_left request.now.limit cells.now }
{
    let limit = match request.limit {
        None => None,
        Some(limit) => Some(limit.saturating_sub(cells.len() as u64)),
    };
    CellRange {
        from: request.from,
        to: request.to,
        direction,
        limit,
    }
}

/// Adds the cells of a set in a direction, up to a limit of all. The set reads none outside the range or behind the
/// limit.
fn add_set_cells(
    alloc: Global,
    mdb: &Mdb,
    number: u16,
    request: &Request,
    direction: Direction,
    set: &SegSet,
    cells: &mut PackedCells,
) -> Result<(), AllocError>
    requires values { AreValuesOf mdb.now set.now }
    requires within { truncated request.now.limit cells.old ≡ cells.old }
    ensures { OnOk result (cells.new ≡ truncated request.now.limit (cells.old ++
        in_direction direction (filter (is_cell_in_range request.now.from request.now.to)
        (set_cells mdb.now number set.now)))) }
{
    let range = range_left(request, direction, cells);
    let found = set.cells_in_range(alloc, mdb, number, range)?;
    cells.extend_from_slice(found.as_slice())?;
    Ok(())
}

/// Adds the cells of a part, up to a limit of all.
#[tactic(auto, using(crate::proofs::Timely::rows_in_range))]
fn add_part_cells<L: Ledger>(
    alloc: Global,
    mdb: &Mdb,
    number: u16,
    request: &Request,
    part: &Part,
    cells: &mut PackedCells,
    steps: &mut Steps<L>,
) -> Result<(), AllocError>
    requires values { HasValuesOf mdb.now part.now }
    requires within { truncated request.now.limit cells.old ≡ cells.old }
    ensures cells { OnOk result (cells.new ≡ truncated request.now.limit (cells.old ++
        cells_of_part mdb.now number request.now.from request.now.to part.now)) }
    ensures steps { steps.new ≤ steps.old + length (filter (is_in_time_range request.now.from request.now.to)
        (rows_of_part part.now)) }
{
    match part {
        Part::Set { set, .. } => {
            let order = Direction::Ascending;
            add_set_cells(alloc, mdb, number, request, order, set, cells)
        }
        Part::Rows { rows, .. } => {
            add_row_cells(alloc, mdb, number, request, rows.as_slice(), cells, steps)
        }
    }
}

/// Adds the cells of a part, the last first, up to a limit of all.
#[tactic(auto, using(crate::proofs::Timely::rows_in_range_back))]
fn add_last_part_cells<L: Ledger>(
    alloc: Global,
    mdb: &Mdb,
    number: u16,
    request: &Request,
    part: &Part,
    cells: &mut PackedCells,
    steps: &mut Steps<L>,
) -> Result<(), AllocError>
    requires values { HasValuesOf mdb.now part.now }
    requires within { truncated request.now.limit cells.old ≡ cells.old }
    ensures cells { OnOk result (cells.new ≡ truncated request.now.limit (cells.old ++
        reverse (cells_of_part mdb.now number request.now.from request.now.to part.now))) }
    ensures steps { steps.new ≤ steps.old + length (filter (is_in_time_range request.now.from request.now.to)
        (rows_of_part part.now)) }
{
    match part {
        Part::Set { set, .. } => {
            let order = Direction::Descending;
            add_set_cells(alloc, mdb, number, request, order, set, cells)
        }
        Part::Rows { rows, .. } => {
            add_last_row_cells(alloc, mdb, number, request, rows.as_slice(), cells, steps)
        }
    }
}

/// Adds the cells of the rows whose time lies in the range of a request, up to its limit. No row behind that is
/// extracted.
fn add_row_cells<L: Ledger>(
    alloc: Global,
    mdb: &Mdb,
    number: u16,
    request: &Request,
    rows: &[Row],
    cells: &mut PackedCells,
    steps: &mut Steps<L>,
) -> Result<(), AllocError>
    requires { truncated request.now.limit cells.old ≡ cells.old }
    ensures cells { OnOk result (cells.new ≡ truncated request.now.limit (cells.old ++
        filter_map (cell_in_range mdb.now number request.now.from request.now.to) rows.now)) }
    ensures steps { steps.new ≤ steps.old + length (filter (is_in_time_range request.now.from request.now.to)
        rows.now) }
{
    let mut extractor = Extractor::new(alloc)?;
    for row in rows {
        if is_full(cells, request.limit) {
            return Ok(());
        }
        add_row_cell(&mut extractor, mdb, number, request, row, cells, steps)?;
    }
    Ok(())
}

/// Adds these cells, those of the last row first, up to the limit. No row before that is extracted.
fn add_last_row_cells<L: Ledger>(
    alloc: Global,
    mdb: &Mdb,
    number: u16,
    request: &Request,
    rows: &[Row],
    cells: &mut PackedCells,
    steps: &mut Steps<L>,
) -> Result<(), AllocError>
    requires { truncated request.now.limit cells.old ≡ cells.old }
    ensures cells { OnOk result (cells.new ≡ truncated request.now.limit (cells.old ++
        filter_map (cell_in_range mdb.now number request.now.from request.now.to) (reverse rows.now))) }
    ensures steps { steps.new ≤ steps.old + length (filter (is_in_time_range request.now.from request.now.to)
        rows.now) }
{
    let mut extractor = Extractor::new(alloc)?;
    for row in rows.iter().rev() {
        if is_full(cells, request.limit) {
            return Ok(());
        }
        add_row_cell(&mut extractor, mdb, number, request, row, cells, steps)?;
    }
    Ok(())
}

/// Adds the cell of a row whose time lies in the range of a request, where it has one.
fn add_row_cell<L: Ledger>(
    extractor: &mut Extractor,
    mdb: &Mdb,
    number: u16,
    request: &Request,
    row: &Row,
    cells: &mut PackedCells,
    steps: &mut Steps<L>,
) -> Result<(), AllocError>
    ensures cell { OnOk result (cells.new ≡ cells.old ++
        cell_list (cell_in_range mdb.now number request.now.from request.now.to row.now)) }
    ensures steps { steps.new ≤ steps.old + length (filter (is_in_time_range request.now.from request.now.to)
        (row.now ∷ [])) }
{
    if !is_in_range(request, row) {
        return Ok(());
    }
    add_cell(extractor, mdb, number, row, cells, steps)
}

/// Whether a row's time lies in the range of a request.
fn is_in_range(request: &Request, row: &Row) -> bool
    ensures { result ≡ is_in_time_range request.now.from request.now.to row.now }
{
    row.key.time >= request.from && row.key.time < request.to
}
