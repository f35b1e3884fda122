//! A row as octets, both ways.

ghost use Rattle.std.specs.Prelude.{◌≡◌, ◌≤◌, ◌++◌, length, IfOk, OnOk};
ghost use Rattle.arch_types.specs.Packet.{IsPacket};
ghost use Rattle.octet_fields.specs.declared.fault.DecodeError.TheVariants.{OutOfMemory};
ghost use Rattle.octet_fields.specs.Answers.{Answers, Gives, ReadsEachFirst, ReadsOnlyFirst};
ghost use Rattle.row_codec.specs.Block.{IsEndOf};
ghost use Rattle.row_codec.specs.Rows.{IsStored};
ghost use Rattle.row_codec.specs.Spelling.{row_octets};
ghost use Rattle.row_codec.specs.Reading.{fields_at, packet_at, row_at, fields_of_row};

use crate::block::part_before;
use arch_types::octets::Octets;
use arch_types::row::Row;
use octet_fields::{DecodeError, Short, i64_at, u8_at, u16_at};
use space_packet::dump::first_packet;
use space_packet::header::is_idle_packet;
use space_packet::key::key_of;
use std::alloc::AllocError;
use text_forms::is_clock_time;

/// The octets of a row before its packet.
const FIELDS_SIZE: usize = 12;

/// The fields of a row before its packet.
#[derive(Clone, Copy)]
struct Fields {
    table: u8,
    rectime: i64,
    link: u8,
    pname: u16,
}

/// The packet that stands at the front.
fn packet_at(octets: &[u8]) -> Result<(&[u8], &[u8]), Short>
    ensures gives { Answers (λ x. (x.0.now, x.1.now)) result (packet_at octets.now) }
    ensures packet { IfOk result (λ x. IsPacket x.0.now) }
{
    match first_packet(octets) {
        Ok(length) => Ok(octets.split_at(length)),
        Err(_) => Err(Short),
    }
}

/// The fields of a row, its packet, and the octets after it.
#[tactic(auto, unfolding(crate::specs::Reading::fields_at))]
fn fields_at(octets: &[u8]) -> Result<(Fields, &[u8], &[u8]), Short>
    ensures gives { Answers (λ x. (fields_of_row x.0 x.1.now, x.2.now)) result (fields_at octets.now) }
    ensures packet { IfOk result (λ x. IsPacket x.1.now) }
{
    let (table, rest) = u8_at(octets)?;
    let (rectime, rest) = i64_at(rest)?;
    let (link, rest) = u8_at(rest)?;
    let (pname, rest) = u16_at(rest)?;
    let (packet, rest) = packet_at(rest)?;
    let fields = Fields {
        table,
        rectime,
        link,
        pname,
    };
    Ok((fields, packet, rest))
}

/// The row at the front of an end of a block. Its packet is a slice of the block.
#[tactic(auto, unfolding(crate::specs::Reading::row_at))]
fn row_at<'a>(block: &Octets, octets: &'a [u8]) -> Result<(Row, &'a [u8]), DecodeError>
    requires { IsEndOf octets.now block.now }
    ensures gives { Gives (λ x. (x.0, x.1.now)) result (row_at octets.now) }
    ensures rest { IfOk result (λ x. IsEndOf x.1.now block.now) }
{
    let (fields, packet, rest) = fields_at(octets)?;
    if fields.link < 1 || !is_clock_time(fields.rectime) || is_idle_packet(packet) {
        return Err(DecodeError::Malformed);
    }
    let row = Row {
        key: key_of(packet, fields.rectime),
        rectime: fields.rectime,
        packet: part_before(block, packet, rest)?,
        link: u16::from(fields.link),
        pname: fields.pname,
        table: fields.table,
    };
    Ok((row, rest))
}

/// The row at the front of an end of a block, and what is left behind it. Its packet is a slice of the block.
pub fn read_row<'a>(block: &Octets, octets: &'a [u8]) -> Result<(Row, &'a [u8]), DecodeError>
    requires { IsEndOf octets.now block.now }

    // The answer is what `row_at` reads on lists, which readers of several rows are made of.
    ensures gives { Gives (λ x. (x.0, x.1.now)) result (row_at octets.now) }

    // Ok: the octets begin with the spelling of this row, which the format admits, and go on with what is left.
    ensures spelled { ReadsOnlyFirst IsStored row_octets (λ x. (x.0, x.1.now)) octets.now result }

    // Octets that begin with the spelling of a row give that row, whatever follows, unless memory is wanting.
    ensures each { ReadsEachFirst IsStored row_octets (λ x. (x.0, x.1.now)) (λ e. e ≡ OutOfMemory) octets.now result }

    // What is left is an end of the block too, so that the next row is read from it.
    ensures rest { IfOk result (λ x. IsEndOf x.1.now block.now) }
{
    row_at(block, octets)
}

/// The octets of a row before its packet: they go into a buffer at once, which takes a third of the time.
fn front_octets(row: &Row) -> [u8; FIELDS_SIZE]
    requires { IsStored row.now }
    ensures { result ++ row.now.packet ≡ row_octets row.now }
{
    let time = row.rectime.to_be_bytes();
    let name = row.pname.to_be_bytes();
    [
        row.table,
        time[0],
        time[1],
        time[2],
        time[3],
        time[4],
        time[5],
        time[6],
        time[7],
        row.link as u8,
        name[0],
        name[1],
    ]
}

/// Adds the one spelling of a row that the format admits to a buffer. `read_row` reads it back, whatever follows it.
pub fn put_row(out: &mut Vec<u8>, row: &Row) -> Result<(), AllocError>
    requires { IsStored row.now }
    ensures { OnOk result (out.new.items ≡ out.old.items ++ row_octets row.now) }
{
    out.extend_from_slice(&front_octets(row))?;
    out.extend_from_slice(row.packet.as_slice())
}

/// How many octets a packet has, which is at most 65,542.
fn packet_size(packet: &[u8]) -> usize
    requires { IsPacket packet.now }
    ensures size { result ≡ length packet.now }
    ensures small { result ≤ 65542 }
{
    packet.len()
}

/// How many octets a row is spelled in, at most 65,554.
pub fn row_len(row: &Row) -> usize
    requires { IsStored row.now }
    ensures value { result ≡ length (row_octets row.now) }
    ensures bound { result ≤ 65554 }
{
    FIELDS_SIZE + packet_size(row.packet.as_slice())
}
