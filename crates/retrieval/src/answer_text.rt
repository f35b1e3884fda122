//! The lines of an answer.

ghost use Rattle.std.specs.Prelude.{◌≡◌, ◌<◌, ◌++◌, IfOk, flat_map, length, option_copied};
ghost use Rattle.std.specs.Arc.{arc_value};
ghost use Rattle.retrieval.specs.AnswerText.{answer_lines, end_line, front_line};
ghost use Rattle.retrieval.specs.CellText.{HasShortLabels, cell_line};
ghost use Rattle.retrieval.specs.ValuesText.{cell_lines};
ghost use Rattle.line_buffer.specs.Printed.{BuffersText};
ghost use Rattle.line_buffer.specs.LineRoom.{HasLineRoom};

use crate::cell_text::put_cell;
use crate::cells::calibration_of;
use arch_types::octets::Octets;
use archive_store::FoundRequest;
use asks::Answer;
use line_buffer::LineBuffer;
use mdb_model::{Calibration, Mdb};
use outer_traits::fault::Failed;
use outer_traits::sink::Sink;
use packed_cells::PackedCells;
use std::alloc::{AllocError, Global};

/// The lines of the cells of an answer over a parameter of the database. A label that the parameter's calibration
/// doesn't have is `UNDEF`.
pub fn answer_text(
    alloc: Global,
    answer: &Answer,
    mdb: &Mdb,
    parameter: u16,
) -> Result<Octets, AllocError>
    requires { parameter < length mdb.now.parameters }
    ensures { IfOk result (λ text. text ≡ cell_lines mdb.now parameter answer.now.cells) }
{
    let calibration = calibration_of(mdb, parameter);
    let text = cells_text(alloc, &answer.cells, calibration)?;
    Octets::from_vec(alloc, text)
}

/// The lines of cells of a parameter with this calibration.
fn cells_text(
    alloc: Global,
    cells: &PackedCells,
    calibration: Option<&Calibration>,
) -> Result<Vec<u8>, AllocError>
    requires { HasShortLabels (option_copied calibration) }
    ensures { IfOk result (λ text. text.items ≡ flat_map (cell_line (option_copied calibration.entry)) cells.now) }
{
    let mut line_buffer = LineBuffer::new(alloc)?;
    let mut text = Vec::new(alloc);
    for cell in cells.iter() {
        put_cell(&mut line_buffer, cell, calibration);
        line_buffer.append_to(&mut text)?;
    }
    Ok(text)
}

/// Prints the answer to a request that was found, of which the end may still be buffered.
pub fn print_found<K: Sink>(
    k: u64,
    found: &FoundRequest,
    answer: &Answer,
    line_buffer: &mut LineBuffer,
    sink: &mut K,
) -> Result<(), Failed>
    requires room { HasLineRoom line_buffer.old }
    requires number { found.now.number < length (arc_value found.now.mdb).parameters }
    ensures { BuffersText result (K.state sink.old) (K.state sink.new)
        (line_buffer.old ++ answer_lines k answer.now.front (arc_value found.now.mdb) found.now.number
        answer.now.cells) line_buffer.new }
{
    let calibration = calibration_of(&found.mdb, found.number);
    put_front(line_buffer, k, answer.front);
    line_buffer.flush_if_full(sink)?;
    print_cells(&answer.cells, calibration, line_buffer, sink)?;
    put_end(line_buffer, answer.cells.len());
    line_buffer.flush_if_full(sink)
}

/// Prints the lines of cells of a parameter with this calibration, of which the last may still be buffered.
fn print_cells<K: Sink>(
    cells: &PackedCells,
    calibration: Option<&Calibration>,
    line_buffer: &mut LineBuffer,
    sink: &mut K,
) -> Result<(), Failed>
    requires room { HasLineRoom line_buffer.old }
    requires labels { HasShortLabels (option_copied calibration) }
    ensures { BuffersText result (K.state sink.old) (K.state sink.new)
        (line_buffer.old ++ flat_map (cell_line (option_copied calibration.entry)) cells.now) line_buffer.new }
{
    for cell in cells.iter() {
        put_cell(line_buffer, cell, calibration);
        line_buffer.flush_if_full(sink)?;
    }
    Ok(())
}

/// Adds the first line: the number of the ask, and the front.
pub(crate) fn put_front(line_buffer: &mut LineBuffer, k: u64, front: u64)
    requires { HasLineRoom line_buffer.old }
    ensures { line_buffer.new ≡ line_buffer.old ++ front_line k front }
{
    line_buffer.put_number(b"ask ", k);
    line_buffer.put_number(b" front ", front);
    line_buffer.put(b"\n");
}

/// Adds the last line: how many cells or rows there are.
pub(crate) fn put_end(line_buffer: &mut LineBuffer, count: usize)
    requires { HasLineRoom line_buffer.old }
    ensures { line_buffer.new ≡ line_buffer.old ++ end_line count }
{
    line_buffer.put_number(b"end ", count);
    line_buffer.put(b"\n");
}
