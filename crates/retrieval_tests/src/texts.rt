//! The worked row, as a set and as rows, and texts of answers.
ghost use Rattle.std.specs.Prelude.{IfOk, IfSome};
ghost use Rattle.std.specs.List.{AllByRecursion};
ghost use Rattle.param_segments.specs.Plans.{HasValuesOf};

use crate::mixes::put_part;
use crate::parts::{Other, answer_over, none_other, part, put_row};
use arch_types::cell::{Cell, Eng};
use arch_types::direction::Direction;
use arch_types::key::Key;
use arch_types::row::Rows;
use asks::Answer;
use intervals::Interval;
use mdb_model::Mdb;
use packed_cells::PackedCells;
use param_segments::{Part, Parts};
use retrieval::answer_text::answer_text;
use std::alloc::{AllocError, Global};
use std::test::*;

/// A packet of process 100 with 42 and -2, and one of process 101 with 7, both of time 1,500 ms.
const WORKED: &[&[u8]] = &[
    b"\x08\x64\xC0\x00\x00\x07\x00\x00\x00\x01\x80\x00\x2A\xFE",
    b"\x08\x65\xC0\x00\x00\x06\x00\x00\x00\x01\x80\x00\x07",
];

/// The lines of the values of `v` below 2,000 ms, over the set and over the rows.
const WORKED_LINES: &str = "cell 1500 140820480 42 42\ncell 1500 140886016 7 7\n";

/// The database of a parameter with a label at 1, and one without calibration.
const LABELLED: &[u8] = &[
    0, 2, 1, b'e', 0, 8, 0, 1, // e, uint, 8 bits, the first calibration
    1, b'v', 0, 8, 0, 0, // v, uint, 8 bits
    0, 1, 6, b's', b'w', b'i', b't', b'c', b'h', 2, 0, 0, 0, 1, // switch, enum, one row
    0, 0, 0, 0, 0, 0, 0, 0, 0, 0, 0, 0, 0, 0, 0, 1, 2, b'O', b'N', // 1 is ON
    0, 1, 1, b'R', 0, 0, 0, 0, // R, not archived
    0, 2, 0, 0, 0, 0, 0, 0, 0, 1, 0, 0, 0, 8, // e at bit 0, v at bit 8
];

/// Engineering values, the parameter, and the lines of cells with them at one key.
type Labels = (&'static [Eng], u16, &'static str);

/// A label that the calibration doesn't have, or for which there's no calibration, is UNDEF. No cell, no line.
const LABELS: &[Labels] = &[
    (
        &[Eng::Label(0), Eng::Label(1), Eng::Whole],
        0,
        "cell -5 6 1 ON\ncell -5 6 1 UNDEF\ncell -5 6 1 1\n",
    ),
    (
        &[Eng::Label(0), Eng::Label(1), Eng::Whole],
        1,
        "cell -5 6 1 UNDEF\ncell -5 6 1 UNDEF\ncell -5 6 1 1\n",
    ),
    (&[], 1, ""),
];

/// They are functions, so that they stand in no goal of their callers.
fn worked() -> &'static [&'static [u8]] {
    WORKED
}

fn worked_lines() -> &'static [u8] {
    WORKED_LINES.as_bytes()
}

fn labelled() -> &'static [u8] {
    LABELLED
}

fn labels() -> &'static [Labels] {
    LABELS
}

/// The rows of packets at one time.
fn rows_at(alloc: Global, time: i64, packets: &[&[u8]]) -> Result<Rows, AllocError> {
    let mut rows = Rows::new(alloc);
    for packet in packets {
        put_row(alloc, &mut rows, time, packet)?;
    }
    Ok(rows)
}

/// The part of the worked rows, as a set or as rows.
fn worked_part(alloc: Global, mdb: &Mdb, as_set: bool) -> Option<Part>
    ensures { IfSome result (HasValuesOf mdb.now) }
{
    match rows_at(alloc, 1_500, worked()) {
        Ok(rows) => part(alloc, mdb, Interval(0), rows, as_set),
        Err(_) => None,
    }
}

/// It alone.
fn worked_parts(alloc: Global, mdb: &Mdb, as_set: bool) -> Result<Parts, AllocError>
    ensures { IfOk result (AllByRecursion (HasValuesOf mdb.now)) }
{
    let mut parts = Parts::new(alloc);
    put_part(&mut parts, worked_part(alloc, mdb, as_set), mdb)?;
    Ok(parts)
}

/// The worked answer, over a set or over rows.
fn worked_answer(alloc: Global, mdb: &Mdb, as_set: bool) -> Option<Answer> {
    match worked_parts(alloc, mdb, as_set) {
        Ok(parts) => answer_over(
            alloc,
            parts,
            mdb,
            &(b"v", 0, 2_000, Direction::Ascending, None),
        ),
        Err(_) => None,
    }
}

/// Whether an answer over the parameter with this number has these lines.
fn has_lines(alloc: Global, answer: &Answer, mdb: &Mdb, number: u16, lines: &[u8]) -> bool {
    if number >= mdb.parameters() {
        return false;
    }
    match answer_text(alloc, answer, mdb, number) {
        Ok(text) => text.as_slice() == lines,
        Err(_) => false,
    }
}

/// Whether the worked answer has its lines.
pub(crate) fn is_worked(alloc: Global, mdb: &Mdb, as_set: bool) -> bool {
    match worked_answer(alloc, mdb, as_set) {
        Some(answer) => has_lines(alloc, &answer, mdb, 1, worked_lines()),
        None => false,
    }
}

/// Cells at one key, with the raw number 1.
fn cells_of(alloc: Global, engs: &[Eng]) -> Result<PackedCells, AllocError> {
    let mut cells = PackedCells::new(alloc);
    for eng in engs {
        cells.push(Cell {
            key: Key { time: -5, seq: 6 },
            raw: 1,
            eng: *eng,
        })?;
    }
    Ok(cells)
}

/// Whether cells have these lines.
fn are_lines(alloc: Global, cells: PackedCells, mdb: &Mdb, number: u16, lines: &[u8]) -> bool {
    let answer = Answer { front: 0, cells };
    has_lines(alloc, &answer, mdb, number, lines)
}

fn are_labelled(alloc: Global, mdb: &Mdb, labels: &Labels) -> bool {
    let (engs, number, lines) = *labels;
    match cells_of(alloc, engs) {
        Ok(cells) => are_lines(alloc, cells, mdb, number, lines.as_bytes()),
        Err(_) => false,
    }
}

/// How many cells there are in a long answer, and how long the line of each is.
const MANY: usize = 100_000;

const LINE: usize = 14;

/// Whether a long answer has a line for each cell.
fn has_each_line(alloc: Global, answer: &Answer, mdb: &Mdb) -> bool {
    if mdb.parameters() == 0 {
        return false;
    }
    match answer_text(alloc, answer, mdb, 0) {
        Ok(text) => text.len() == MANY * LINE,
        Err(_) => false,
    }
}

/// The cells of a long answer.
fn many_cells(alloc: Global) -> Result<PackedCells, AllocError> {
    let engs = Vec::from_elem(alloc, Eng::Whole, MANY)?;
    cells_of(alloc, engs.as_slice())
}

fn is_long(alloc: Global, mdb: &Mdb) -> bool {
    match many_cells(alloc) {
        Ok(cells) => has_each_line(alloc, &Answer { front: 0, cells }, mdb),
        Err(_) => false,
    }
}

/// The first row of a table whose lines are other ones.
fn other_lines(alloc: Global, mdb: &Mdb, table: &[Labels]) -> Option<Other> {
    for i in 0..table.len() {
        if !are_labelled(alloc, mdb, &table[i]) {
            return Some(("labels", i));
        }
    }
    None
}

fn other(alloc: Global) -> Option<Other> {
    match Mdb::from_bytes(alloc, labelled()) {
        Ok(mdb) => {
            if is_long(alloc, &mdb) {
                other_lines(alloc, &mdb, labels())
            } else {
                Some(("a long answer", 0))
            }
        }
        Err(_) => Some(("a database", 0)),
    }
}

#[test]
fn labels_of_answers(rt: HostRuntime) -> Result<(), Fail> {
    none_other(other(rt.alloc()))
}
