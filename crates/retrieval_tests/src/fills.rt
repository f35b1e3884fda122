//! Answers over an archive with fills: one interval whose set stands for it, and one that is late.
ghost use Rattle.std.specs.Prelude.{◌≡◌, ◌<◌};

use crate::parts::{
    AskedValues, Other, Packet, are_raws, flight, none_other, packet_of, request, rows_of, set_of,
};
use arch_disk::{Disk, MemDisk};
use arch_types::direction::Direction;
use arch_types::steps::Steps;
use archive_store::Store;
use asks::Request;
use intervals::Interval;
use mdb_model::Mdb;
use param_segments::SegSet;
use retrieval::answer::answer_request;
use std::alloc::{AllocError, Global};
use std::marker::Brand;
use std::sync::ledger::{Blank, Ledger};
use std::test::*;

/// The body of a record.
enum Body {
    Head,
    /// Packets of table `tm`.
    Rows(&'static [Packet]),
    /// A fill of an interval over so many items, and the packets of its set.
    Fill(i64, u64, &'static [Packet]),
}

/// The set of interval 0 has 43 where its packet has 42, so that a cell tells where it was read. Interval 1 has a packet
/// since its fill.
const FILLED: &[Body] = &[
    Body::Head,
    Body::Rows(&[(1_500, 100, 42), (3_000, 101, 7), (4_194_304, 100, 9)]),
    Body::Fill(0, 3, &[(1_500, 100, 43), (3_000, 101, 7)]),
    Body::Fill(1, 3, &[(4_194_304, 100, 9)]),
    Body::Rows(&[(8_388_607, 101, 8)]),
];

/// What is asked of it. Ranges cut the set, the rows, and both; limits end in each of them, from either end.
const ASKS: &[AskedValues] = &[
    (
        (b"v", 0, 10_000_000, Direction::Ascending, None),
        &[43, 7, 9, 8],
    ),
    (
        (b"v", 0, 10_000_000, Direction::Descending, None),
        &[8, 9, 7, 43],
    ),
    (
        (b"apid", 0, 10_000_000, Direction::Ascending, None),
        &[100, 101, 100, 101],
    ),
    ((b"w", 0, 10_000_000, Direction::Ascending, None), &[]),
    ((b"v", 0, 4_194_304, Direction::Ascending, None), &[43, 7]),
    (
        (b"v", 4_194_304, 8_388_608, Direction::Ascending, None),
        &[9, 8],
    ),
    (
        (b"v", 1_501, 8_388_607, Direction::Ascending, None),
        &[7, 9],
    ),
    ((b"v", 3_000, 4_194_304, Direction::Descending, None), &[7]),
    ((b"v", 3_001, 4_194_304, Direction::Ascending, None), &[]),
    ((b"v", 1_500, 1_500, Direction::Ascending, None), &[]),
    (
        (b"v", 8_388_608, 10_000_000, Direction::Descending, None),
        &[],
    ),
    ((b"v", 0, 10_000_000, Direction::Ascending, Some(1)), &[43]),
    (
        (b"v", 0, 10_000_000, Direction::Ascending, Some(3)),
        &[43, 7, 9],
    ),
    ((b"v", 0, 10_000_000, Direction::Descending, Some(1)), &[8]),
    (
        (b"v", 0, 8_388_607, Direction::Descending, Some(2)),
        &[9, 7],
    ),
];

/// They are functions, so that they stand in no goal of their callers.
fn filled() -> &'static [Body] {
    FILLED
}

fn asks() -> &'static [AskedValues] {
    ASKS
}

/// A head: the version, the exponent of intervals, the table `tm` and the database.
fn put_head(out: &mut Vec<u8>) -> Result<(), AllocError> {
    out.extend_from_slice(b"\x01\x01\x16\x01\x02tm")?;
    out.extend_from_slice(flight())
}

/// Adds a row of table 0 and link 1, and of the first packet name.
fn put_packet(out: &mut Vec<u8>, time: i64, packet: &[u8]) -> Result<(), AllocError> {
    out.push(0)?;
    out.extend_from_slice(&time.to_be_bytes())?;
    out.extend_from_slice(&[1, 0, 0])?;
    out.extend_from_slice(packet)
}

/// Rows of packets.
fn put_rows(out: &mut Vec<u8>, packets: &[Packet]) -> Result<(), AllocError> {
    let count = (packets.len() as u64).to_be_bytes();
    out.extend_from_slice(&[2, count[6], count[7]])?;
    for (time, process, value) in packets {
        put_packet(out, *time, &packet_of(*process, *value))?;
    }
    Ok(())
}

/// The set of packets of an interval.
fn set_of_packets(alloc: Global, mdb: &Mdb, interval: i64, packets: &[Packet]) -> Option<SegSet> {
    match rows_of(alloc, packets) {
        Ok(rows) => set_of(alloc, mdb, Interval(interval), &rows),
        Err(_) => None,
    }
}

/// Adds the octets of a set.
fn put_set(out: &mut Vec<u8>, set: Option<SegSet>) -> Result<(), AllocError> {
    match set {
        Some(set) => out.extend_from_slice(set.to_bytes()?.as_slice()),
        None => Err(AllocError),
    }
}

/// A fill with the set of packets.
fn put_fill(
    alloc: Global,
    mdb: &Mdb,
    out: &mut Vec<u8>,
    interval: i64,
    base: u64,
    packets: &[Packet],
) -> Result<(), AllocError> {
    out.push(3)?;
    out.extend_from_slice(&interval.to_be_bytes())?;
    out.extend_from_slice(&base.to_be_bytes())?;
    put_set(out, set_of_packets(alloc, mdb, interval, packets))
}

fn put_body(alloc: Global, mdb: &Mdb, out: &mut Vec<u8>, body: &Body) -> Result<(), AllocError> {
    match body {
        Body::Head => put_head(out),
        Body::Rows(packets) => put_rows(out, packets),
        Body::Fill(interval, base, packets) => {
            put_fill(alloc, mdb, out, *interval, *base, packets)
        }
    }
}

/// Adds a record: its open gate, its length and its body.
fn put_octets(journal: &mut Vec<u8>, body: &[u8]) -> Result<(), AllocError> {
    journal.push(1)?;
    journal.extend_from_slice(&(body.len() as u64).to_be_bytes()[4..])?;
    journal.extend_from_slice(body)
}

/// Adds the record with a body.
fn put_record(
    alloc: Global,
    mdb: &Mdb,
    journal: &mut Vec<u8>,
    body: &Body,
) -> Result<(), AllocError> {
    let mut octets = Vec::new(alloc);
    match put_body(alloc, mdb, &mut octets, body) {
        Ok(()) => put_octets(journal, &octets),
        Err(_) => Err(AllocError),
    }
}

/// Adds the records with these bodies, and a closed gate.
fn put_records(
    alloc: Global,
    mdb: &Mdb,
    journal: &mut Vec<u8>,
    bodies: &[Body],
) -> Result<(), AllocError> {
    for body in bodies {
        put_record(alloc, mdb, journal, body)?;
    }
    journal.push(0)?;
    Ok(())
}

/// Adds the journal of the archive of these tests.
fn put_journal(alloc: Global, journal: &mut Vec<u8>) -> Result<(), AllocError> {
    match Mdb::from_bytes(alloc, flight()) {
        Ok(mdb) => put_records(alloc, &mdb, journal, filled()),
        Err(_) => Err(AllocError),
    }
}

/// Writes it to a disk, where memory isn't wanting.
fn write_journal<D: Disk>(alloc: Global, disk: &mut D) -> bool {
    let mut journal = Vec::new(alloc);
    put_journal(alloc, &mut journal).is_ok() && disk.write_at(0, 0, &journal).is_ok()
}

/// Whether a store answers a request at front 4 by these raw values.
fn is_answered<D: Disk, L: Ledger>(
    alloc: Global,
    store: &mut Store<D>,
    request: Request,
    raws: &[i64],
    steps: &mut Steps<L>,
) -> bool {
    let Ok(found) = store.find(request) else {
        return false;
    };
    match answer_request(alloc, store, &found, steps) {
        Ok(answer) => answer.front == 4 && are_raws(&answer.cells, raws),
        Err(_) => false,
    }
}

/// The same of an ask.
fn gives<D: Disk, L: Ledger>(
    alloc: Global,
    store: &mut Store<D>,
    asked: &AskedValues,
    steps: &mut Steps<L>,
) -> bool {
    match request(alloc, &asked.0) {
        Some(request) => is_answered(alloc, store, request, asked.1, steps),
        None => false,
    }
}

/// The first ask that is answered otherwise.
fn other_answer<D: Disk, L: Ledger>(
    alloc: Global,
    store: &mut Store<D>,
    asks: &[AskedValues],
    steps: &mut Steps<L>,
) -> Option<Other> {
    for i in 0..asks.len() {
        if !gives(alloc, store, &asks[i], steps) {
            return Some(("an archive with fills", i));
        }
    }
    None
}

/// The same of a store that is given up, and its disk.
fn other_in<D: Disk, L: Ledger>(alloc: Global, blank: Blank, store: Store<D>) -> (Option<Other>, D)
    requires name { blank.name ≡ L.name }
    requires count { blank.parts ≡ L.parts }
    requires some { 0 < blank.parts }
{
    let (book, share) = blank.open::<L>();
    let mut steps = Steps::new(book, share);
    let mut store = store;
    let other = other_answer(alloc, &mut store, asks(), &mut steps);
    (other, store.into_disk())
}

/// The same of the archive of a disk.
fn other_on<D: Disk>(alloc: Global, disk: D) -> (Option<Other>, D) {
    match Store::open(alloc, disk) {
        Ok(store) => other_in::<D, Brand>(alloc, Blank::new(1), store),
        Err((disk, _)) => (Some(("an archive", 0)), disk),
    }
}

/// The same of a disk on which nothing is yet.
fn other<D: Disk + Drop>(alloc: Global, disk: D) -> Option<Other> {
    let mut disk = disk;
    if !write_journal(alloc, &mut disk) {
        return Some(("a journal", 0));
    }
    let (other, _disk) = other_on(alloc, disk);
    other
}

#[test]
fn answers_over_fills(rt: HostRuntime) -> Result<(), Fail> {
    none_other(other(rt.alloc(), MemDisk::new(rt.alloc())))
}
