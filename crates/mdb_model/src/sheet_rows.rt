//! What the texts of a sheet's records say.

ghost use Rattle.std.specs.Prelude.{◌≡◌, ◌||◌, not, map, length, option_map, ◌+◌, ◌<◌, ◌^◌, IfOk};
ghost use Rattle.mdb_items.specs.ContainerRows.{is_nothing};
ghost use Rattle.mdb_items.specs.Lists.{is_empty};
ghost use Rattle.mdb_model.specs.Sheets.{are_texts, is_calibration_header, is_container_header, is_parameter_header, position_from, read_archive, read_calibration, read_row_values, read_coding, read_columns, read_parameter, read_position, read_reference, reference_from};
ghost use Rattle.mdb_items.specs.Texts.{field, offset};
ghost use Rattle.text_forms.specs.Digits.{digits_at_most};

use mdb_items::name::MdbName;
use mdb_items::parameter::Coding;
use mdb_items::rows::{
    ContainerColumns, EntryPosition, NewContainer, ParameterRow, Reference, RowValues,
};
use mdb_items::sheet::SheetRecord;
use mdb_items::texts::{decimal_number, offset, small_number, whole_number};
use mdb_rules::condition::condition;
use mdb_rules::name_index::NameIndex;
use std::alloc::{AllocError, Global};
use text_forms::digits_at_most;

/// What the columns kind, x and y of a calibration say.
pub(crate) fn read_row_values(
    alloc: Global,
    kind: &[u8],
    x: &[u8],
    y: &[u8],
) -> Result<RowValues, AllocError>
    ensures { IfOk result (λ row_values. row_values ≡ read_row_values kind.now x.now y.now) }
{
    if kind == b"poly".as_slice() {
        Ok(RowValues::Coefficient(small_number(0, 3, x), decimal_number(y)))
    } else if kind == b"points".as_slice() {
        Ok(RowValues::Point(whole_number(x), decimal_number(y)))
    } else if kind == b"enum".as_slice() {
        Ok(RowValues::Label(whole_number(x), MdbName::from_slice(alloc, y)?))
    } else {
        Ok(RowValues::Unread)
    }
}

fn read_coding(text: &[u8]) -> Option<Coding>
    ensures { result ≡ read_coding text.now }
{
    if text == b"uint".as_slice() {
        Some(Coding::Uint)
    } else if text == b"int".as_slice() {
        Some(Coding::Int)
    } else if text == b"uintLE".as_slice() {
        Some(Coding::UintLe)
    } else if text == b"intLE".as_slice() {
        Some(Coding::IntLe)
    } else {
        None
    }
}

fn reference_from(number: Option<usize>) -> Reference
    ensures { result ≡ reference_from number }
{
    match number {
        None => Reference::Unknown,
        Some(number) => Reference::Known(number),
    }
}

/// The item that a text names.
pub(crate) fn read_reference(names: &NameIndex, text: &[u8]) -> Reference
    ensures { result ≡ read_reference names.now text.now }
{
    if text.is_empty() {
        return Reference::Nothing;
    }
    reference_from(names.number(text))
}

/// A row of the parameters sheet.
pub(crate) fn read_parameter(
    alloc: Global,
    calibrations: &NameIndex,
    fields: &SheetRecord<'_>,
) -> Result<ParameterRow, AllocError>
    ensures { IfOk result (λ row. row ≡ read_parameter calibrations.now fields.now) }
{
    let name = MdbName::from_slice(alloc, fields.field(0))?;
    Ok(ParameterRow {
        fields: fields.len(),
        name,
        coding: read_coding(fields.field(1)),
        bits: small_number(1, 64, fields.field(2)),
        calibration: read_reference(calibrations, fields.field(3)),
    })
}

fn read_archive(text: &[u8]) -> Option<bool>
    ensures { result ≡ read_archive text.now }
{
    if text.is_empty() {
        Some(false)
    } else if text == b"yes".as_slice() {
        Some(true)
    } else if text == b"no".as_slice() {
        Some(false)
    } else {
        None
    }
}

/// The columns container, parent, condition and archive, below the containers above.
pub(crate) fn read_columns(
    alloc: Global,
    parameters: &NameIndex,
    above: &NameIndex,
    fields: &SheetRecord<'_>,
) -> Result<ContainerColumns, AllocError>
    ensures { IfOk result (λ columns. columns ≡ read_columns parameters.now above.now (field fields.now 0)
        (field fields.now 1) (field fields.now 2) (field fields.now 3)) }
{
    let name = fields.field(0);
    let parent = fields.field(1);
    let text = fields.field(2);
    let archive = fields.field(3);
    if name.is_empty() {
        return Ok(ContainerColumns::Continues(
            !parent.is_empty() || !text.is_empty() || !archive.is_empty(),
        ));
    }
    Ok(ContainerColumns::Begins(NewContainer {
        name: MdbName::from_slice(alloc, name)?,
        parent: read_reference(above, parent),
        condition: condition(alloc, parameters, text)?,
        archive: read_archive(archive),
    }))
}

fn position_from(at: Option<u64>) -> EntryPosition
    ensures { result ≡ position_from at }
{
    match at {
        None => EntryPosition::Unknown,
        Some(at) => EntryPosition::At(at),
    }
}

/// `+` and digits after the previous entry's end.
fn position_after(end: u32, digits: &[u8]) -> Option<u64>
    ensures { result ≡ option_map (λ n. end + n) (offset digits.now) }
{
    match offset(digits) {
        None => None,
        Some(bits) => Some(end as u64 + bits as u64),
    }
}

fn absolute_position(text: &[u8]) -> Option<u64>
    ensures { result ≡ digits_at_most 6 text.now }
{
    match digits_at_most(6, text) {
        None => None,
        Some(at) => Some(at as u64),
    }
}

/// A position, the previous entry ending before the bit `end`.
pub(crate) fn read_position(end: u32, entry: Reference, text: &[u8]) -> EntryPosition
    ensures { result ≡ read_position end entry text.now }
{
    match text {
        [] => match entry {
            Reference::Nothing => EntryPosition::Nothing,
            Reference::Unknown => EntryPosition::At(end as u64),
            Reference::Known(_) => EntryPosition::At(end as u64),
        },
        [first, digits @ ..] => {
            if *first == b'+' {
                position_from(position_after(end, digits))
            } else {
                position_from(absolute_position(text))
            }
        }
    }
}

/// Two neighbouring fields are these texts.
fn are_texts(fields: &SheetRecord<'_>, place: usize, first: &[u8], second: &[u8]) -> bool
    requires { place < 2 ^ 32 }
    ensures { result ≡ are_texts fields.now place first.now second.now }
{
    fields.field(place) == first && fields.field(place + 1) == second
}

pub(crate) fn is_calibration_header(fields: &SheetRecord<'_>) -> bool
    ensures { result ≡ is_calibration_header fields.now }
{
    fields.len() == 4
        && (are_texts(fields, 0, b"name", b"kind") && are_texts(fields, 2, b"x", b"y"))
}

pub(crate) fn is_parameter_header(fields: &SheetRecord<'_>) -> bool
    ensures { result ≡ is_parameter_header fields.now }
{
    fields.len() == 4
        && (are_texts(fields, 0, b"name", b"coding")
            && are_texts(fields, 2, b"bits", b"calibration"))
}

pub(crate) fn is_container_header(fields: &SheetRecord<'_>) -> bool
    ensures { result ≡ is_container_header fields.now }
{
    fields.len() == 6
        && (are_texts(fields, 0, b"container", b"parent")
            && (are_texts(fields, 2, b"condition", b"archive")
                && are_texts(fields, 4, b"entry", b"position")))
}
