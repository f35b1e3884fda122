//! What the tests are made of: a database, rows, parts, requests and answers.
ghost use Rattle.std.specs.Prelude.{◌≡◌, ◌<◌, IfSome, true};
ghost use Rattle.std.specs.Arc.{arc_value};
ghost use Rattle.std.specs.List.{AllByRecursion};
ghost use Rattle.param_segments.specs.Cells.{AreValuesOf};
ghost use Rattle.param_segments.specs.Plans.{HasValuesOf};

use crate::ordered::built;
use arch_types::direction::Direction;
use arch_types::key::Key;
use arch_types::name::Name;
use arch_types::octets::Octets;
use arch_types::row::{Row, Rows};
use arch_types::steps::Steps;
use archive_store::FoundRequest;
use asks::{Answer, Request};
use intervals::{Exponent, Interval};
use mdb_model::Mdb;
use packed_cells::PackedCells;
use param_segments::{Part, Parts, Plan, SegSet};
use part_answers::answer::answer;
use std::alloc::{AllocError, Global};
use std::marker::Brand;
use std::sync::Arc;
use std::sync::ledger::{Blank, Ledger};
use std::test::Fail;

/// The database of these tests. Packets of the process 100 have `v`, and `w` where it doesn't pass their end, those of 101
/// have `v`, and others `apid` alone.
const FLIGHT: &[u8] = &[
    0, 3, 4, b'a', b'p', b'i', b'd', 0, 11, 0, 0, // apid, uint, 11 bits
    1, b'v', 0, 8, 0, 0, // v, uint, 8 bits
    1, b'w', 1, 8, 0, 0, // w, int, 8 bits
    0, 0, // no calibration
    0, 3, 3, b'H', b'D', b'R', 0, 0, 0, 0, // HDR, not archived
    0, 1, 0, 0, 0, 0, 0, 5, // apid at bit 5
    1, b'A', 0, 1, 1, 1, 0, 0, 0, // A, below HDR, archived: apid ==
    0, 0, 0, 0, 0, 0, 0, 0, 0, 0, 0, 0, 0, 0, 0, 100, // 100
    0, 2, 0, 1, 0, 0, 0, 96, 0, 2, 0, 0, 0, 104, // v at bit 96, w at bit 104
    1, b'B', 0, 1, 1, 1, 0, 0, 0, // B, below HDR, archived: apid ==
    0, 0, 0, 0, 0, 0, 0, 0, 0, 0, 0, 0, 0, 0, 0, 101, // 101
    0, 1, 0, 1, 0, 0, 0, 96, // v at bit 96
];

/// It is a function, so that it stands in no goal of its callers.
pub(crate) fn flight() -> &'static [u8] {
    FLIGHT
}

/// A table of asks, and the place of the one in it that is answered otherwise.
pub(crate) type Other = (&'static str, usize);

/// Ends a test: with a failure where a row of its tables goes otherwise.
pub(crate) fn none_other(other: Option<Other>) -> Result<(), Fail> {
    match other {
        None => Ok(()),
        Some((name, place)) => Err(Fail::new(format_args!("{name}: row {place}"))),
    }
}

/// The number of a packet's key: its first four octets.
fn seq_of(packet: &[u8]) -> u32 {
    match packet.first_chunk::<4>() {
        Some(first) => u32::from_be_bytes(*first),
        None => 0,
    }
}

/// Adds the row of a packet at a time.
pub(crate) fn put_row(
    alloc: Global,
    rows: &mut Rows,
    time: i64,
    packet: &[u8],
) -> Result<(), AllocError> {
    let seq = seq_of(packet);
    let packet = Octets::from_slice(alloc, packet)?;
    rows.push(Row {
        key: Key { time, seq },
        rectime: 9_000,
        packet,
        link: 1,
        pname: 0,
        table: 0,
    })
}

/// When a packet came, its process, and its value.
pub(crate) type Packet = (i64, u8, u8);

/// The rows of packets without a time of their own, so that the time of reception is their time.
pub(crate) fn rows_of(alloc: Global, packets: &[Packet]) -> Result<Rows, AllocError> {
    let mut rows = Rows::new(alloc);
    for (time, process, value) in packets {
        put_row(alloc, &mut rows, *time, &packet_of(*process, *value))?;
    }
    Ok(rows)
}

/// The packet of a process with a value.
pub(crate) fn packet_of(process: u8, value: u8) -> [u8; 13] {
    [0, process, 0xC0, 0, 0, 6, 0, 0, 0, 0, 0, 0, value]
}

/// The set of rows of an interval.
pub(crate) fn set_of(alloc: Global, mdb: &Mdb, interval: Interval, rows: &Rows) -> Option<SegSet>
    ensures { IfSome result (AreValuesOf mdb.now) }
{
    match built(alloc, interval, rows, mdb) {
        Ok(set) => set,
        Err(_) => None,
    }
}

/// The part that has a set of an interval.
fn part_of(alloc: Global, mdb: &Mdb, interval: Interval, set: SegSet) -> Option<Part>
    requires { AreValuesOf mdb.now set }
    ensures { IfSome result (HasValuesOf mdb.now) }
{
    match Arc::new(alloc, set) {
        Ok(set) => Some(Part::Set { interval, set }),
        Err(_) => None,
    }
}

/// The part that has rows of an interval, or the set of these rows.
pub(crate) fn part(
    alloc: Global,
    mdb: &Mdb,
    interval: Interval,
    rows: Rows,
    as_set: bool,
) -> Option<Part>
    ensures { IfSome result (HasValuesOf mdb.now) }
{
    if !as_set {
        return Some(Part::Rows { interval, rows });
    }
    match set_of(alloc, mdb, interval, &rows) {
        Some(set) => part_of(alloc, mdb, interval, set),
        None => None,
    }
}

/// What is asked of a plan: the values of a parameter with `from <= time < to`, in which direction, and how many at most.
pub(crate) type Asked = (&'static [u8], i64, i64, Direction, Option<u64>);

/// What is asked, and the raw values of the answer.
pub(crate) type AskedValues = (Asked, &'static [i64]);

fn name_of(alloc: Global, name: &[u8]) -> Option<Name> {
    match Octets::from_slice(alloc, name) {
        Ok(octets) => Name::of(octets),
        Err(_) => None,
    }
}

/// The request for it.
pub(crate) fn request(alloc: Global, asked: &Asked) -> Option<Request> {
    let (name, from, to, direction, limit) = *asked;
    match name_of(alloc, name) {
        Some(parameter) => Some(Request {
            parameter,
            from,
            to,
            direction,
            limit,
        }),
        None => None,
    }
}

/// The plan of parts, at front 7.
fn plan_of(alloc: Global, parts: Parts, mdb: &Mdb) -> Option<Plan>
    ensures parts { IfSome result (λ plan. plan.parts ≡ parts) }
    ensures mdb { IfSome result (λ plan. arc_value plan.mdb ≡ mdb.now) }
{
    match mdb.copy() {
        Ok(mdb) => match Arc::new(alloc, mdb) {
            Ok(mdb) => Some(Plan {
                front: 7,
                exponent: Exponent::of_format_1(),
                mdb,
                parts,
            }),
            Err(_) => None,
        },
        Err(_) => None,
    }
}

/// A request that is found in the database of a plan.
fn found(plan: &Plan, request: Request) -> Option<FoundRequest> {
    match FoundRequest::of(&plan.mdb, request) {
        Ok(found) => Some(found),
        Err(_) => None,
    }
}

/// The answer to a request over a plan, where the database has the parameter.
fn answered<L: Ledger>(alloc: Global, blank: Blank, plan: Plan, request: Request) -> Option<Answer>
    requires name { blank.name ≡ L.name }
    requires count { blank.parts ≡ L.parts }
    requires some { 0 < blank.parts }
    requires values { AllByRecursion (HasValuesOf (arc_value plan.mdb)) plan.parts }
{
    let (book, share) = blank.open::<L>();
    let mut steps = Steps::new(book, share);
    let found = found(&plan, request)?;
    answer(alloc, plan, found.number, &found.request, &mut steps).ok()
}

/// The answer to an ask over a plan.
fn answer_by(alloc: Global, plan: Plan, asked: &Asked) -> Option<Answer>
    requires values { AllByRecursion (HasValuesOf (arc_value plan.mdb)) plan.parts }
{
    match request(alloc, asked) {
        Some(request) => answered::<Brand>(alloc, Blank::new(1), plan, request),
        None => None,
    }
}

/// The answer to an ask over parts.
pub(crate) fn answer_over(alloc: Global, parts: Parts, mdb: &Mdb, asked: &Asked) -> Option<Answer>
    requires values { AllByRecursion (HasValuesOf mdb.now) parts }
{
    match plan_of(alloc, parts, mdb) {
        Some(plan) => answer_by(alloc, plan, asked),
        None => None,
    }
}

/// Whether cells have these raw values.
pub(crate) fn are_raws(cells: &PackedCells, raws: &[i64]) -> bool {
    for (cell, raw) in cells.iter().zip(raws) {
        if cell.raw != i128::from(*raw) {
            return false;
        }
    }
    cells.len() == raws.len()
}
