//! The cells of a parameter.

ghost use Rattle.std.specs.Prelude.{◌≡◌, ◌+◌, ◌++◌, OnOk};
ghost use Rattle.container_extract.specs.Extraction.{cell_of};
ghost use Rattle.part_answers.specs.PartCells.{cell_list, is_full};

use arch_types::cell::Cell;
use arch_types::row::Row;
use arch_types::steps::Steps;
use container_extract::{Extractor, eng_of};
use mdb_model::Mdb;
use packed_cells::PackedCells;
use std::alloc::AllocError;
use std::sync::ledger::Ledger;

/// The cell of a parameter in the packet of a row, where there is one, in one step. No other value of the packet is calibrated.
pub fn cell_of<L: Ledger>(
    extractor: &mut Extractor,
    mdb: &Mdb,
    number: u16,
    row: &Row,
    steps: &mut Steps<L>,
) -> Option<Cell>
    ensures cell { result ≡ cell_of mdb.now number row.now }
    ensures step { steps.new ≡ steps.old + 1 }
{
    mdb.is_sound();
    let extracted = extractor.extract(mdb, row.packet.as_slice(), steps);
    match extracted.value(number) {
        None => None,
        Some(value) => Some(Cell {
            key: row.key,
            raw: value.raw,
            eng: eng_of(mdb, *value),
        }),
    }
}

/// Adds the cell of a row, where there is one.
pub(crate) fn add_cell<L: Ledger>(
    extractor: &mut Extractor,
    mdb: &Mdb,
    number: u16,
    row: &Row,
    cells: &mut PackedCells,
    steps: &mut Steps<L>,
) -> Result<(), AllocError>
    ensures cell { OnOk result (cells.new ≡ cells.old ++ cell_list (cell_of mdb.now number row.now)) }
    ensures step { steps.new ≡ steps.old + 1 }
{
    match cell_of(extractor, mdb, number, row, steps) {
        None => Ok(()),
        Some(cell) => {
            cells.push(cell)?;
            Ok(())
        }
    }
}

/// Whether there are as many cells as the limit says.
pub(crate) fn is_full(cells: &PackedCells, limit: Option<u64>) -> bool
    ensures { result ≡ is_full limit cells.now }
{
    match limit {
        None => false,
        Some(limit) => cells.len() as u64 >= limit,
    }
}
