//! What is written of a row.

ghost use Rattle.std.specs.Prelude.{◌≡◌, ◌<◌, ◌++◌, ℕ, ◌∷◌, [], flat_map, slice_index, OnOk};
ghost use Rattle.hex.specs.Hex.{encode_lower};
ghost use Rattle.arch_types.specs.GenerationTime.{generation_time};
ghost use Rattle.arch_types.specs.Packet.{IsPacket, apid_of};
ghost use Rattle.replay_merge.specs.RowSource.{IsKeyedRow};
ghost use Rattle.text_forms.specs.ClockTime.{IsClockTime};
ghost use Rattle.ssql_select.specs.SelectionText as spec;

use arch_types::name::Names;
use arch_types::row::Row;
use itoa::{Buffer, Integer};
use ssql_tokens::Column;
use std::alloc::AllocError;
use time_text::time_octets;

/// The digits of hex.
const DIGITS: [u8; 16] = *b"0123456789abcdef";

/// Adds octets. The one error is want of memory.
pub(crate) fn put(line: &mut Vec<u8>, octets: &[u8]) -> Result<(), AllocError>
    ensures { OnOk result (line.new.items ≡ line.old.items ++ octets.now) }
{
    line.extend_from_slice(octets)?;
    Ok(())
}

/// Adds the digits of a number, behind a minus where it is negative.
pub(crate) fn put_digits<I: Integer>(line: &mut Vec<u8>, number: I) -> Result<(), AllocError>
    ensures { OnOk result (line.new.items ≡ line.old.items ++ I.text number) }
{
    put(line, Buffer::new().format(number).as_bytes())
}

/// An octet in hex.
#[tactic(auto, unfolding(hex::specs::Hex::encode_with))]
fn hex_of(octet: u8) -> [u8; 2]
    ensures { result ≡ encode_lower (octet ∷ []) }
{
    [DIGITS[(octet / 16) as usize], DIGITS[(octet % 16) as usize]]
}

/// Adds octets in hex.
fn put_hex(line: &mut Vec<u8>, octets: &[u8]) -> Result<(), AllocError>
    ensures { OnOk result (line.new.items ≡ line.old.items ++ encode_lower octets.now) }
{
    for octet in octets {
        put(line, &hex_of(*octet))?;
    }
    Ok(())
}

/// A generation time, which the clock has.
fn clock_time(packet: &[u8], rectime: i64, time: i64) -> i64
    requires clock { IsClockTime rectime }
    requires time { time ≡ generation_time packet.now rectime }
    ensures time { result ≡ time }
    ensures clock { IsClockTime result }
{
    time
}

/// The generation time of a row.
pub(crate) fn gentime(row: &Row) -> i64
    requires { IsKeyedRow row.now }
    ensures time { result ≡ row.now.key.time }
    ensures clock { IsClockTime result }
{
    clock_time(row.packet.as_slice(), row.rectime, row.key.time)
}

fn apid(packet: &[u8]) -> u16
    requires { IsPacket packet.now }
    ensures { result ≡ apid_of packet.now }
{
    256 * u16::from(packet[0] % 8) + u16::from(packet[1])
}

/// The packet name with a number. A number that none has stands for none.
pub(crate) fn pname_of(names: &Names, number: u16) -> &[u8]
    ensures { result.now ≡ spec.pname_of names.now number }
{
    match names.as_slice().get(number as usize) {
        None => b"",
        Some(name) => name.as_slice(),
    }
}

/// Adds what is written of a row in a column.
fn put_value(line: &mut Vec<u8>, names: &Names, row: &Row, column: Column) -> Result<(), AllocError>
    requires { IsKeyedRow row.now }
    ensures { OnOk result (line.new.items ≡ line.old.items ++ spec.written_value names.now row.now column) }
{
    match column {
        Column::Gentime => put(line, &time_octets(gentime(row))),
        Column::SeqNum => put_digits(line, row.key.seq),
        Column::Rectime => put(line, &time_octets(row.rectime)),
        Column::Link => put_digits(line, row.link),
        Column::Pname => put(line, pname_of(names, row.pname)),
        Column::Apid => put_digits(line, apid(row.packet.as_slice())),
        Column::Length => put_digits(line, row.packet.len()),
        Column::Packet => put_hex(line, row.packet.as_slice()),
    }
}

/// Adds what is written of a row in a column, behind a space.
fn put_spaced_value(
    line: &mut Vec<u8>,
    names: &Names,
    row: &Row,
    column: Column,
) -> Result<(), AllocError>
    requires { IsKeyedRow row.now }
    ensures { OnOk result (line.new.items ≡ line.old.items ++ spec.spaced_value names.now row.now column) }
{
    line.push(b' ')?;
    put_value(line, names, row, column)
}

/// Adds what is written of a row in some columns, each behind a space.
fn put_spaced(
    line: &mut Vec<u8>,
    names: &Names,
    row: &Row,
    columns: &[Column],
) -> Result<(), AllocError>
    requires { IsKeyedRow row.now }
    ensures { OnOk result (line.new.items
        ≡ line.old.items ++ flat_map (spec.spaced_value names.now row.now) columns.now) }
{
    for column in columns {
        put_spaced_value(line, names, row, *column)?;
    }
    Ok(())
}

/// Adds what is written of a row in some columns.
fn put_values(
    line: &mut Vec<u8>,
    names: &Names,
    row: &Row,
    columns: &[Column],
) -> Result<(), AllocError>
    requires { IsKeyedRow row.now }
    ensures { OnOk result (line.new.items ≡ line.old.items ++ spec.written_values names.now row.now columns.now) }
{
    let [column, others @ ..] = columns else {
        return Ok(());
    };
    put_value(line, names, row, *column)?;
    put_spaced(line, names, row, others)
}

/// Adds the line of a row.
pub(crate) fn put_selected(
    line: &mut Vec<u8>,
    names: &Names,
    columns: &[Column],
    row: &Row,
) -> Result<(), AllocError>
    requires { IsKeyedRow row.now }
    ensures { OnOk result (line.new.items ≡ line.old.items ++ spec.selected_line names.now columns.now row.now) }
{
    put_values(line, names, row, columns)?;
    put(line, b"\n")
}

/// Adds the last line of a selection.
pub(crate) fn put_select_line(line: &mut Vec<u8>, count: usize) -> Result<(), AllocError>
    ensures { OnOk result (line.new.items ≡ line.old.items ++ spec.select_line count) }
{
    put(line, b"select ")?;
    put_digits(line, count)?;
    put(line, b"\n")
}
