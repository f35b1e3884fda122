//! Values of a parameter.

ghost use Rattle.std.specs.Prelude.{◌≡◌, ◌+◌, ◌<◌, length, IfOk};
ghost use Rattle.std.specs.List.{filter_map};
ghost use Rattle.arch_types.specs.Directions.{in_direction, truncated};
ghost use Rattle.container_extract.specs.Extraction.{cell_of};
ghost use Rattle.container_extract.specs.Answer.{answer_of};
ghost use Rattle.archive_core.specs.Replies.{RepliesToRequest};

use crate::ordered::{TM, range_of};
use crate::reply::Reply;
use arch_types::cell::Cell;
use arch_types::direction::Direction;
use arch_types::row::Row;
use arch_types::steps::Steps;
use asks::{Answer, AskRefusal, Request, range_refusal};
use container_extract::{Extractor, eng_of};
use mdb_model::Mdb;
use packed_cells::PackedCells;
use std::alloc::{AllocError, Global};
use std::marker::Brand;
use std::sync::ledger::{Blank, Ledger};

/// The cell of a parameter in the packet of a row, where there is one.
fn cell_of<L: Ledger>(
    extractor: &mut Extractor,
    mdb: &Mdb,
    number: u16,
    row: &Row,
    steps: &mut Steps<L>,
) -> Option<Cell>
    ensures { result ≡ cell_of mdb.now number row.now }
{
    mdb.is_sound();
    let extracted = extractor.extract(mdb, row.packet.as_slice(), steps);
    match extracted.value(number) {
        None => None,
        Some(value) => Some(Cell {
            key: row.key,
            raw: value.raw,
            eng: eng_of(mdb, *value),
        }),
    }
}

/// The cells of a parameter in the packets of rows, in their order.
fn cells_in<L: Ledger>(
    alloc: Global,
    blank: Blank,
    mdb: &Mdb,
    number: u16,
    rows: &[Row],
) -> Result<Vec<Cell>, AllocError>
    requires { (blank.name ≡ L.name) × (blank.parts ≡ L.parts) × (0 < blank.parts) }
    ensures { IfOk result (λ cells. cells.items ≡ filter_map (cell_of mdb.now number) rows.now) }
{
    let (book, share) = blank.open::<L>();
    let mut steps = Steps::new(book, share);
    let mut extractor = Extractor::new(alloc)?;
    let mut cells = Vec::new(alloc);
    for row in rows {
        if let Some(cell) = cell_of(&mut extractor, mdb, number, row, &mut steps) {
            cells.push(cell)?;
        }
    }
    Ok(cells)
}

/// Turns cells, where the last are to come first.
fn turn(cells: &mut Vec<Cell>, direction: Direction)
    ensures { cells.new.items ≡ in_direction direction cells.old.items }
{
    match direction {
        Direction::Ascending => {}
        Direction::Descending => cells.as_mut_slice().reverse(),
    }
}

/// Leaves the first so many cells, or all.
fn keep_first(cells: &mut Vec<Cell>, limit: Option<u64>)
    ensures { cells.new.items ≡ truncated limit cells.old.items }
{
    match limit {
        None => {}
        Some(limit) => cells.truncate(limit as usize),
    }
}

/// The cells of a parameter that a request asks.
fn cells_asked(
    alloc: Global,
    mdb: &Mdb,
    number: u16,
    rows: &[Row],
    request: &Request,
) -> Result<PackedCells, AllocError>
    ensures { IfOk result (λ cells. cells ≡ answer_of mdb.now number request.now rows.now) }
{
    let in_range = range_of(alloc, rows, TM as usize, request.from, request.to)?;
    let mut cells = cells_in::<Brand>(alloc, Blank::new(1), mdb, number, in_range.as_slice())?;
    turn(&mut cells, request.direction);
    keep_first(&mut cells, request.limit);
    let mut asked = PackedCells::new(alloc);
    asked.extend_from_slice(&cells)?;
    Ok(asked)
}

/// The reply to a request over a history. The one error is want of memory.
pub(crate) fn answered(
    alloc: Global,
    mdb: &Mdb,
    rows: &[Row],
    request: &Request,
) -> Result<Reply, AllocError>
    ensures { IfOk result (RepliesToRequest mdb.now (length rows.now) rows.now request.now) }
{
    let Some(number) = mdb.parameter_number(request.parameter.as_str()) else {
        return Ok(Reply::Refused(AskRefusal::UnknownParameter));
    };
    if let Some(refusal) = range_refusal(request.from, request.to) {
        return Ok(Reply::Refused(refusal));
    }
    Ok(Reply::Answered(Answer {
        front: rows.len() as u64,
        cells: cells_asked(alloc, mdb, number, rows, request)?,
    }))
}
