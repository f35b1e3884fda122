// What openings answer: each rule of a record is broken once, and the archive is damaged at the gate of that record.
use crate::journals::{holding, holding_journal, put_record, put_row};
use crate::parts::{failing_at, head_octets, none_other, opened, timed};
use arch_disk::{Disk, MemDisk};
use archive_store::Store;
use refusals::Refusal;
use std::alloc::{AllocError, Global};
use std::test::Fail;

/// The body of a record.
pub(crate) enum Body {
    Head,
    /// Rows in tables and with packet names, each the packet 0 of link 1, behind this kind and before so many octets more.
    Rows(u8, &'static [(u8, u8)], usize),
    /// A fill of an interval over so many items, whose set is spelled by so many octets 0: four are a set of no segments.
    Fill(i64, u64, usize),
    Nothing,
}

/// What the records are, their bodies, and the gate at which an opening finds damage: none where it finds an archive.
type Records = (&'static str, &'static [Body], Option<u64>);

// A head is 53 octets long, a row 25 and what stands before it 3, a fill 17 and its set, and a record has 5 more. The packet has its time in interval 0.

const HEADS: &[Records] = &[
    ("no head", &[Body::Rows(2, &[(0, 0)], 0)], Some(0)),
    (
        "a head behind rows",
        &[Body::Rows(2, &[(0, 0)], 0), Body::Head],
        Some(0),
    ),
    ("a fill before a head", &[Body::Fill(0, 0, 4)], Some(0)),
    ("a second head", &[Body::Head, Body::Head], Some(58)),
];

const ROWS: &[Records] = &[
    (
        "an unknown kind",
        &[Body::Head, Body::Rows(9, &[(0, 0)], 0)],
        Some(58),
    ),
    (
        "no such table",
        &[Body::Head, Body::Rows(2, &[(2, 0)], 0)],
        Some(58),
    ),
    (
        "no such name",
        &[Body::Head, Body::Rows(2, &[(0, 1)], 0)],
        Some(58),
    ),
    (
        "a key twice in a record",
        &[Body::Head, Body::Rows(2, &[(0, 0), (1, 0), (0, 0)], 0)],
        Some(58),
    ),
    (
        "octets behind a row",
        &[Body::Head, Body::Rows(2, &[(0, 0)], 1)],
        Some(58),
    ),
    ("no rows", &[Body::Head, Body::Rows(2, &[], 0)], Some(58)),
];

const SECOND_ROWS: &[Records] = &[
    (
        "a key twice in two records",
        &[
            Body::Head,
            Body::Rows(2, &[(0, 0)], 0),
            Body::Rows(2, &[(0, 0)], 0),
        ],
        Some(91),
    ),
    (
        "a key in each of two tables",
        &[
            Body::Head,
            Body::Rows(2, &[(0, 0)], 0),
            Body::Rows(2, &[(1, 0)], 0),
        ],
        None,
    ),
    (
        "no octets",
        &[Body::Head, Body::Rows(2, &[(0, 0)], 0), Body::Nothing],
        Some(91),
    ),
];

const FILLS: &[Records] = &[
    (
        "an interval without rows",
        &[Body::Head, Body::Rows(2, &[(0, 0)], 0), Body::Fill(1, 1, 4)],
        Some(91),
    ),
    (
        "an interval of another table",
        &[Body::Head, Body::Rows(2, &[(1, 0)], 0), Body::Fill(0, 1, 4)],
        Some(91),
    ),
    (
        "a base behind the history",
        &[Body::Head, Body::Rows(2, &[(0, 0)], 0), Body::Fill(0, 2, 4)],
        Some(91),
    ),
    (
        "no set",
        &[Body::Head, Body::Rows(2, &[(0, 0)], 0), Body::Fill(0, 1, 3)],
        Some(91),
    ),
    (
        "octets behind a set",
        &[Body::Head, Body::Rows(2, &[(0, 0)], 0), Body::Fill(0, 1, 5)],
        Some(91),
    ),
    (
        "the rows of its interval",
        &[Body::Head, Body::Rows(2, &[(0, 0)], 0), Body::Fill(0, 1, 4)],
        None,
    ),
    (
        "none of its interval's rows, and another",
        &[
            Body::Head,
            Body::Rows(2, &[(0, 0)], 0),
            Body::Fill(0, 0, 4),
            Body::Fill(0, 0, 4),
        ],
        None,
    ),
];

/// They are functions, so that they stand in no goal of their callers.
fn heads() -> &'static [Records] {
    HEADS
}

fn rows() -> &'static [Records] {
    ROWS
}

fn second_rows() -> &'static [Records] {
    SECOND_ROWS
}

fn fills() -> &'static [Records] {
    FILLS
}

fn tables() -> [&'static [Records]; 4] {
    [heads(), rows(), second_rows(), fills()]
}

/// Adds an octet 0 so many times, at most eight.
fn put_zeros(out: &mut Vec<u8>, count: usize) -> Result<(), AllocError> {
    out.extend_from_slice(&[0; 8][..count.min(8)])
}

fn put_rows(
    out: &mut Vec<u8>,
    kind: u8,
    rows: &[(u8, u8)],
    behind: usize,
) -> Result<(), AllocError> {
    let count = (rows.len() as u64).to_be_bytes();
    out.extend_from_slice(&[kind, count[6], count[7]])?;
    for (table, name) in rows {
        put_row(out, *table, *name, timed(0))?;
    }
    put_zeros(out, behind)
}

fn put_fill(out: &mut Vec<u8>, interval: i64, base: u64, set: usize) -> Result<(), AllocError> {
    out.push(3)?;
    out.extend_from_slice(&interval.to_be_bytes())?;
    out.extend_from_slice(&base.to_be_bytes())?;
    put_zeros(out, set)
}

fn put_body(out: &mut Vec<u8>, body: &Body) -> Result<(), AllocError> {
    match body {
        Body::Head => out.extend_from_slice(head_octets()),
        Body::Rows(kind, rows, behind) => put_rows(out, *kind, rows, *behind),
        Body::Fill(interval, base, set) => put_fill(out, *interval, *base, *set),
        Body::Nothing => Ok(()),
    }
}

/// Adds the record of a body.
fn put(alloc: Global, out: &mut Vec<u8>, body: &Body) -> Result<(), AllocError> {
    let mut octets = Vec::new(alloc);
    put_body(&mut octets, body)?;
    put_record(out, octets.as_slice())
}

/// Adds records and a closed gate.
fn put_all(alloc: Global, out: &mut Vec<u8>, bodies: &[Body]) -> Result<(), AllocError> {
    for body in bodies {
        put(alloc, out, body)?;
    }
    out.push(0)?;
    Ok(())
}

/// A journal of records with these bodies.
pub(crate) fn journal_of(alloc: Global, bodies: &[Body]) -> Result<Vec<u8>, AllocError> {
    let mut journal = Vec::new(alloc);
    put_all(alloc, &mut journal, bodies)?;
    Ok(journal)
}

/// The gate of file 0 at which a refusal finds damage, and no gate at all where it finds none.
fn gate_of(refusal: &Refusal) -> u64 {
    match refusal {
        Refusal::Damaged { file: 0, at } => *at,
        _ => u64::MAX,
    }
}

/// The gate at which the opening of a disk is refused, and the disk.
fn refused_at<D: Disk>(alloc: Global, disk: D) -> (Option<u64>, D) {
    match Store::open(alloc, disk) {
        Ok(store) => (None, store.into_disk()),
        Err((disk, refusal)) => (Some(gate_of(&refusal)), disk),
    }
}

/// The same, and the disk is given up.
pub(crate) fn damage_of<D: Disk + Drop>(alloc: Global, disk: D) -> Option<u64> {
    let (gate, _disk) = refused_at(alloc, disk);
    gate
}

/// The gate at which the opening of an archive of these records is refused.
fn damage_in<D: Disk + Drop>(alloc: Global, disk: D, bodies: &[Body]) -> Option<u64> {
    damage_of(alloc, holding_journal(disk, &journal_of(alloc, bodies)))
}

/// The first of these that is opened otherwise.
fn other_records(alloc: Global, all: &[Records]) -> Option<&'static str> {
    for (rule, bodies, gate) in all {
        if damage_in(alloc, MemDisk::new(alloc), bodies) != *gate {
            return Some(*rule);
        }
    }
    None
}

/// The same of some tables.
fn other_of(alloc: Global, tables: &[&'static [Records]]) -> Option<&'static str> {
    for all in tables {
        if let Some(rule) = other_records(alloc, all) {
            return Some(rule);
        }
    }
    None
}

#[test]
fn records_and_the_rules_that_they_break(rt: HostRuntime) -> Result<(), Fail> {
    none_other(other_of(rt.alloc(), &tables()))
}

/// Which calls of a disk fail, the octets that the first of them writes, and what the opening answers: a record that ends early behind an open gate, that
/// gate alone, and a disk whose opening's first call fails.
type Disks = (&'static [u64], &'static [u8], &'static str);

const DISKS: &[Disks] = &[
    (&[], b"\x01\x00\x00\x00\x09\x01\x00", "damaged 0 0"),
    (&[], b"\x01", "no archive"),
    (&[2], b"", "disk fault"),
];

/// A function, as above.
fn disks() -> &'static [Disks] {
    DISKS
}

/// What the opening of a disk answers, and the disk.
fn answer_of<D: Disk>(alloc: Global, disk: D) -> (&'static str, D) {
    match opened(alloc, disk) {
        Ok(store) => ("an archive", store.into_disk()),
        Err((disk, refusal)) => (refusal, disk),
    }
}

/// The same of a disk that is to hold octets, and is given up.
fn answer_to<D: Disk + Drop>(alloc: Global, disk: D, octets: &[u8]) -> &'static str {
    let (answer, _disk) = answer_of(alloc, holding(disk, octets));
    answer
}

/// The same of a disk whose calls of these numbers fail.
fn answer_on(alloc: Global, calls: &[u64], octets: &[u8]) -> &'static str {
    match failing_at(alloc, calls) {
        Some(disk) => answer_to(alloc, disk, octets),
        None => "no memory",
    }
}

/// The answer of the first of these that is another.
fn other_answer(alloc: Global, disks: &[Disks]) -> Option<&'static str> {
    for (calls, octets, expected) in disks {
        let answer = answer_on(alloc, calls, octets);
        if answer != *expected {
            return Some(answer);
        }
    }
    None
}

#[test]
fn disks_that_are_not_opened(rt: HostRuntime) -> Result<(), Fail> {
    none_other(other_answer(rt.alloc(), disks()))
}
