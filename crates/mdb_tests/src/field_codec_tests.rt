//! Worked octets of a head, of rows, of a seal and of a log head, both ways, and each octet of them left out or changed.

ghost use Rattle.row_codec.specs.Rows.{IsStored};
ghost use Rattle.field_codec.specs.Entries.{IsArchiveEntry};

use crate::given::none_other;
use arch_types::octets::Octets;
use arch_types::row::Row;
use field_codec::{Entry, NotAnEntry, read_entry, read_shared, write_entry};
use row_codec::{put_row, read_row, row_len};
use seal_codec::SealedRun;
use std::alloc::{AllocError, Global};
use std::test::*;

/// Tables `tm` and `copy`, and a database of the parameter `apid` (uint of 11 bits) in the container `A`, from bit 5 on.
const HEAD: [u8; 41] = [
    1, 1, 22, 2, // kind, format, interval exponent, count of tables
    2, 0x74, 0x6D, 4, 0x63, 0x6F, 0x70, 0x79, // tm, copy
    0, 1, 4, 0x61, 0x70, 0x69, 0x64, 0, 11, 0, 0, // one parameter: name, coding, bits, no calibration
    0, 0, // no calibration
    0, 1, 1, 0x41, 0, 0, 1, 0, // one container: name, no parent, archive flag, no comparison
    0, 1, 0, 0, 0, 0, 0, 5, // one entry: parameter, bit position
];

/// Two rows received at 9,000 ms: by link 1 into table 0 with the packet name 2, and by link 255 into table 1 with the name 258. The first
/// packet tells the time 1,500 ms, the second has no secondary header.
const ROWS: [u8; 47] = [
    2, 0, 2, // kind, count
    0, 0, 0, 0, 0, 0, 0, 0x23, 0x28, 1, 0, 2, // table, reception time, link, packet name
    0x08, 0x64, 0xC0, 0, 0, 6, 0, 0, 0, 1, 0x80, 0, 0x2A, // a packet
    1, 0, 0, 0, 0, 0, 0, 0x23, 0x28, 255, 1, 2, // table, reception time, link, packet name
    0x00, 0x65, 0xC0, 1, 0, 0, 7, // a packet
];

/// The first two rows, all of table 0, stand in file 1; their fills are in file 2, and the log goes on in file 3.
const SEAL: [u8; 23] = [
    4, 0, 0, 0, 0, 0, 0, 0, 2, // kind, rows
    0, 0, 0, 3, 0, 0, 0, 2, // the log, the fills
    1, 0, 0, 0, 0, 1, // count of runs; a table and its file
];

/// The first entry of that log, and of that fill file.
const LOG_HEAD: [u8; 9] = [5, 0, 0, 0, 0, 0, 0, 0, 2];

/// They are functions, as each table below is, so that no octets stand in a goal of their callers.
fn head() -> &'static [u8] {
    &HEAD
}

/// The head behind its tables.
fn behind_tables() -> &'static [u8] {
    &HEAD[12..]
}

fn two_rows() -> &'static [u8] {
    &ROWS
}

fn seal() -> &'static [u8] {
    &SEAL
}

fn log_head() -> &'static [u8] {
    &LOG_HEAD
}

/// The rows behind their count.
fn counted_rows() -> &'static [u8] {
    &ROWS[3..]
}

fn first_row() -> &'static [u8] {
    &ROWS[3..28]
}

/// The packet of the last row.
fn last_packet() -> &'static [u8] {
    &ROWS[40..]
}

/// Whether a read gave the worked head.
fn is_worked_head(read: Result<Entry, NotAnEntry>) -> bool {
    match &read {
        Ok(Entry::Head { tables, mdb }) => match tables.as_slice() {
            [_, copy] => copy.as_slice() == b"copy".as_slice() && mdb.containers() == 1,
            _ => false,
        },
        _ => false,
    }
}

#[test]
fn worked_head(rt: HostRuntime) {
    assert!(rt; is_worked_head(read_entry(rt.alloc(), head())));
}

fn is_first_row(row: &Row) -> bool {
    (row.key.time, row.key.seq) == (1500, 140_820_480)
}

fn is_last_row(row: &Row) -> bool {
    (row.key.time, row.key.seq) == (9000, 6_668_289)
        && (row.table, row.rectime) == (1, 9000)
        && (row.link, row.pname) == (255, 258)
        && row.packet.as_slice() == last_packet()
}

/// Whether a read gave the worked rows.
fn are_worked_rows(read: Result<Entry, NotAnEntry>) -> bool {
    match &read {
        Ok(Entry::Rows(rows)) => match rows.as_slice() {
            [first, last] => is_first_row(first) && is_last_row(last),
            _ => false,
        },
        _ => false,
    }
}

#[test]
fn worked_rows(rt: HostRuntime) -> Result<(), Fail> {
    let octets = Octets::from_slice(rt.alloc(), two_rows())?;
    assert!(rt; are_worked_rows(read_shared(rt.alloc(), &octets)));
    Ok(())
}

/// Whether a read gave the worked seal.
fn is_worked_seal(read: Result<Entry, NotAnEntry>) -> bool {
    match &read {
        Ok(Entry::Seal(seal)) => {
            (seal.rows, seal.log, seal.fills) == (2, 3, 2)
                && seal.runs.as_slice() == [SealedRun { table: 0, file: 1 }].as_slice()
        }
        _ => false,
    }
}

/// Whether a read gave the worked log head.
fn is_worked_log_head(read: Result<Entry, NotAnEntry>) -> bool {
    matches!(&read, Ok(Entry::LogHead { rows: 2 }))
}

#[test]
fn worked_seal_and_log_head(rt: HostRuntime) {
    assert!(rt; is_worked_seal(read_entry(rt.alloc(), seal())));
    assert!(rt; is_worked_log_head(read_entry(rt.alloc(), log_head())));
}

/// Whether a row by itself is written so.
fn is_row_written(alloc: Global, row: &Row, octets: &[u8]) -> bool
    requires { IsStored row.now }
{
    let mut out = Vec::new(alloc);
    match put_row(&mut out, row) {
        Ok(()) => out.as_slice() == octets && row_len(row) == octets.len(),
        Err(_) => false,
    }
}

/// Whether the octets of a block begin with a row that is written so again, and go on with so many.
fn begins_with_row(alloc: Global, block: &Octets, octets: &[u8], left: usize) -> bool {
    match read_row(block, block.as_slice()) {
        Ok((row, rest)) => rest.len() == left && is_row_written(alloc, &row, octets),
        Err(_) => false,
    }
}

#[test]
fn row_before_another(rt: HostRuntime) -> Result<(), Fail> {
    let block = Octets::from_slice(rt.alloc(), counted_rows())?;
    assert!(rt; begins_with_row(rt.alloc(), &block, first_row(), 19));
    Ok(())
}

/// Whether an entry is written so.
fn is_written(alloc: Global, entry: &Entry, octets: &[u8]) -> bool
    requires { IsArchiveEntry entry.now }
{
    match write_entry(alloc, entry) {
        Ok(own) => own.as_slice() == octets,
        Err(_) => false,
    }
}

/// Octets are refused, or spell an entry that is written so again.
fn is_exact(alloc: Global, octets: &[u8]) -> bool {
    match read_entry(alloc, octets) {
        Ok(entry) => is_written(alloc, &entry, octets),
        Err(fault) => fault == NotAnEntry::Malformed,
    }
}

/// Whether octets are an entry.
fn is_entry(alloc: Global, octets: &[u8]) -> bool {
    read_entry(alloc, octets).is_ok()
}

/// Whether octets are exact where the one at a place is changed. Afterwards it is as before.
fn is_exact_at(alloc: Global, octets: &mut [u8], place: usize) -> bool {
    if place >= octets.len() {
        return false;
    }
    octets[place] ^= 1;
    let is_exact = is_exact(alloc, octets);
    octets[place] ^= 1;
    is_exact
}

/// The first place whose octet has a change that isn't exact, or before which an entry ends; the length, where the octets themselves aren't exact.
fn other_place(alloc: Global, octets: &mut [u8]) -> Option<usize> {
    for place in 0..octets.len() {
        if !is_exact_at(alloc, octets, place) || is_entry(alloc, &octets[..place]) {
            return Some(place);
        }
    }
    if is_exact(alloc, octets) {
        None
    } else {
        Some(octets.len())
    }
}

/// The same of octets that are lent.
fn other_in(alloc: Global, octets: &[u8]) -> Option<usize> {
    match Vec::from_slice(alloc, octets) {
        Ok(mut own) => other_place(alloc, own.as_mut_slice()),
        Err(_) => Some(0),
    }
}

#[test]
fn each_octet_counts(rt: HostRuntime) -> Result<(), Fail> {
    none_other(
        other_in(rt.alloc(), head())
            .or(other_in(rt.alloc(), two_rows()))
            .or(other_in(rt.alloc(), seal()))
            .or(other_in(rt.alloc(), log_head())),
    )
}

/// The octets of three parts, one behind the other.
fn joined(alloc: Global, front: &[u8], part: &[u8], rest: &[u8]) -> Result<Vec<u8>, AllocError> {
    let mut octets = Vec::from_slice(alloc, front)?;
    octets.extend_from_slice(part)?;
    octets.extend_from_slice(rest)?;
    Ok(octets)
}

/// Whether those are an entry or none, as is said.
fn is_read_so(alloc: Global, front: &[u8], part: &[u8], rest: &[u8], is_read: bool) -> bool {
    match joined(alloc, front, part, rest) {
        Ok(octets) => is_entry(alloc, octets.as_slice()) == is_read,
        Err(_) => false,
    }
}

/// The middle part of an entry, and whether it may be that.
type Part = (&'static [u8], bool);

/// The place of the first part of which the other is so.
fn other_part(alloc: Global, front: &[u8], rest: &[u8], all: &[Part]) -> Option<usize> {
    let mut place = 0usize;
    for (part, is_read) in all {
        if !is_read_so(alloc, front, part, rest, *is_read) {
            return Some(place);
        }
        place = place.saturating_add(1);
    }
    None
}

/// The octets of a head before its tables.
const OPENING: &[u8] = &[1, 1, 22, 2];

fn opening() -> &'static [u8] {
    OPENING
}

/// Two tables, each behind its length, and whether a head may have them.
const TABLES: &[Part] = &[
    (b"\x02tm\x02hk", true),
    (b"\x02hk\x02tm", false),
    (b"\x02um\x02hk", false),
    (b"\x02tm\x02tm", false),
];

fn tables() -> &'static [Part] {
    TABLES
}

#[test]
fn first_table_is_tm_and_none_comes_twice(rt: HostRuntime) -> Result<(), Fail> {
    none_other(other_part(rt.alloc(), opening(), behind_tables(), tables()))
}

/// One row of table 0, of the link 1 and the packet name 2, up to its packet.
const FIELDS: &[u8] = &[2, 0, 1, 0, 0, 0, 0, 0, 0, 0, 0x23, 0x28, 1, 0, 2];

fn fields() -> &'static [u8] {
    FIELDS
}

/// What stands behind the fields of a row, and whether a row ends so: a packet, an idle one, and an octet too many.
const PACKETS: &[Part] = &[
    (&[0x00, 0x65, 0xC0, 1, 0, 0, 7], true),
    (&[0x07, 0xFF, 0xC0, 1, 0, 0, 7], false),
    (&[0x00, 0x65, 0xC0, 1, 0, 0, 7, 0], false),
];

fn packets() -> &'static [Part] {
    PACKETS
}

#[test]
fn rows_end_with_packets_that_are_not_idle(rt: HostRuntime) -> Result<(), Fail> {
    none_other(other_part(rt.alloc(), fields(), b"", packets()))
}

/// Kinds of an entry whose one field is that of a log head, and whether it is one.
const KINDS: &[Part] = &[(&[5], true), (&[0], false), (&[6], false), (&[255], false)];

fn kinds() -> &'static [Part] {
    KINDS
}

/// The log head behind its kind.
fn sealed_rows() -> &'static [u8] {
    &LOG_HEAD[1..]
}

#[test]
fn kinds_are_1_to_5(rt: HostRuntime) -> Result<(), Fail> {
    none_other(other_part(rt.alloc(), b"", sealed_rows(), kinds()))
}
