//! The lines of cells.

ghost use Rattle.std.specs.Prelude.{◌≡◌, ◌+◌, ◌<◌, ◌≤◌, ◌++◌, length, codes, slice_get, option_copied};
ghost use Rattle.std.specs.List.{AllByRecursion};
ghost use Rattle.retrieval.specs.CellText.{cell_line, eng_text, fixed_text, label_text, labels_of, longest_eng, sign_text, six_digits, HasShortLabels};
ghost use Rattle.retrieval.specs.ValuesText.{values_line};
ghost use Rattle.line_buffer.specs.LineRoom.{HasLineRoom, HasRoomFor, longest_number};

use arch_types::cell::{Cell, Eng};
use itoa::Buffer;
use line_buffer::LineBuffer;
use mdb_model::{Calibration, Calibrator, EnumRow};

/// Adds the line of a cell of a parameter with this calibration.
pub fn put_cell(line_buffer: &mut LineBuffer, cell: Cell, calibration: Option<&Calibration>)
    requires room { HasLineRoom line_buffer.old }
    requires labels { HasShortLabels (option_copied calibration) }
    ensures { line_buffer.new ≡ line_buffer.old ++ cell_line (option_copied calibration.entry) cell }
{
    line_buffer.put_number(b"cell ", cell.key.time);
    line_buffer.put_field(cell.key.seq);
    line_buffer.put_field(cell.raw);
    line_buffer.put_octet(b' ');
    put_eng(line_buffer, cell, calibration);
    line_buffer.put_octet(b'\n');
}

/// Adds an engineering value.
fn put_eng(line_buffer: &mut LineBuffer, cell: Cell, calibration: Option<&Calibration>)
    requires room { HasRoomFor longest_eng line_buffer.old }
    requires labels { HasShortLabels (option_copied calibration) }
    ensures text { line_buffer.new ≡ line_buffer.old ++ eng_text (option_copied calibration.entry) cell.raw cell.eng }
    ensures short { length line_buffer.new ≤ length line_buffer.old + longest_eng }
{
    match cell.eng {
        Eng::Whole => line_buffer.put_digits(cell.raw),
        Eng::Fixed(millionths) => put_fixed(line_buffer, millionths),
        Eng::Label(row) => line_buffer.put(label_of(calibration, row)),
        Eng::Undef => line_buffer.put(b"UNDEF"),
    }
}

/// Adds millionths as a decimal.
fn put_fixed(line_buffer: &mut LineBuffer, millionths: i64)
    requires { HasRoomFor longest_eng line_buffer.old }
    ensures text { line_buffer.new ≡ line_buffer.old ++ fixed_text millionths }
    ensures short { length line_buffer.new ≤ length line_buffer.old + longest_eng }
{
    let size = millionths.unsigned_abs();
    line_buffer.put(sign(millionths));
    line_buffer.put_digits(size / 1_000_000);
    put_fraction(line_buffer, size % 1_000_000);
}

/// Adds a point and the six digits of a number.
#[tactic(auto, using(std::proofs::lemmas::Fmt::decimal_nonempty))]
fn put_fraction(line_buffer: &mut LineBuffer, number: u64)
    requires room { HasRoomFor longest_number line_buffer.old }
    requires below { number < 1000000 }
    ensures text { line_buffer.new ≡ line_buffer.old ++ codes "." ++ six_digits number }
    ensures short { length line_buffer.new ≤ length line_buffer.old + longest_number }
{
    let mut buffer = Buffer::new();
    let digits = buffer.format(1_000_000 + number).as_bytes();
    let (_, six) = digits.split_at(1);
    line_buffer.put_octet(b'.');
    line_buffer.put(six);
}

/// Adds the last line.
pub fn put_values(line_buffer: &mut LineBuffer, count: u64)
    requires { HasLineRoom line_buffer.old }
    ensures { line_buffer.new ≡ line_buffer.old ++ values_line count }
{
    line_buffer.put_number(b"values ", count);
    line_buffer.put(b"\n");
}

/// The sign of a number.
fn sign(number: i64) -> &'static [u8]
    ensures text { result.now ≡ sign_text number }
    ensures short { length result.now ≤ 1 }
{
    if number < 0 { b"-" } else { b"" }
}

/// The label of a row of an enumeration.
fn label_of(calibration: Option<&Calibration>, row: u16) -> &[u8]
    requires { HasShortLabels (option_copied calibration) }
    ensures text { result.now ≡ label_text (slice_get (labels_of (option_copied calibration.entry)) row) }
    ensures short { length result.now ≤ 64 }
{
    let Some(calibration) = calibration else {
        return b"UNDEF";
    };
    match &calibration.calibrator {
        Calibrator::Enum(rows) => label_at(rows.as_slice(), row),
        Calibrator::Poly(_) | Calibrator::Points(_) => b"UNDEF",
    }
}

/// The label at a place.
fn label_at(rows: &[EnumRow], row: u16) -> &[u8]
    requires { AllByRecursion (λ row. length row.label ≤ 64) rows.now }
    ensures text { result.now ≡ label_text (slice_get rows.now row) }
    ensures short { length result.now ≤ 64 }
{
    match rows.get(row as usize) {
        None => b"UNDEF",
        Some(row) => row.label.as_bytes(),
    }
}
