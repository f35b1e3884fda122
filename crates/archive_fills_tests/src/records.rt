// Each rule of a fill's record, broken once: the archive is damaged at the gate of that record. And fills that were spelled by hand, which are read.
use crate::calls::Call;
use crate::journals::{holding, put_fill_front, put_frame, put_row};
use crate::parts::{head_octets, none_other};
use crate::plans::Over;
use crate::steps::{Step, other_of_opened};
use arch_disk::{Disk, MemDisk};
use archive_store::Store;
use refusals::Refusal;
use std::alloc::{AllocError, Global};
use std::test::Fail;

/// The body of a record.
enum Body {
    Head,
    /// A packet in a table.
    Row(usize, u8),
    /// A fill of an interval over so many items, and the pieces of its set's octets.
    Fill(i64, u64, &'static [&'static [u8]]),
    Octets(&'static [u8]),
}

/// A set of no segments.
const NO_SEGMENTS: &[u8] = &[0, 0, 0, 0];

const ONE_SEGMENT: &[u8] = &[0, 0, 0, 1];

const TWO_SEGMENTS: &[u8] = &[0, 0, 0, 2];

/// The parameters `apid` and `v`, in one row.
const BOTH: &[u8] = &[0, 2, 0, 0, 0, 1, 0, 1];

/// The same in two rows.
const BOTH_TWICE: &[u8] = &[0, 2, 0, 0, 0, 1, 0, 2];

/// The same in none.
const BOTH_IN_NONE: &[u8] = &[0, 2, 0, 0, 0, 1, 0, 0];

/// `v` and then `apid`.
const TURNED: &[u8] = &[0, 2, 0, 1, 0, 0, 0, 1];

/// `v` alone, in one row.
const V: &[u8] = &[0, 1, 0, 1, 0, 1];

/// `v` twice.
const V_TWICE: &[u8] = &[0, 2, 0, 1, 0, 1, 0, 1];

/// A parameter that the database lacks.
const LACKED: &[u8] = &[0, 1, 0, 2, 0, 1];

/// No parameter.
const NO_PARAMETER: &[u8] = &[0, 0, 0, 1];

/// The key of packet 0: 1,500 ms, APID 100.
const KEY: &[u8] = &[0, 0, 0, 0, 0, 0, 0x05, 0xDC, 8, 0x64, 0xC0, 0];

/// The key of packet 1: 1,500 ms, APID 101.
const NEXT_KEY: &[u8] = &[0, 0, 0, 0, 0, 0, 0x05, 0xDC, 8, 0x65, 0xC0, 0];

/// How far that lies behind the first: 65,536.
const GAP: &[u8] = &[0x80, 0x80, 4];

/// The same with a needless octet.
const LONG_GAP: &[u8] = &[0x80, 0x80, 0x84, 0];

/// No way at all.
const NO_GAP: &[u8] = &[0];

/// The key of packet 7: 5,000,000 ms, which is in interval 1.
const KEY_IN_1: &[u8] = &[0, 0, 0, 0, 0, 0x4C, 0x4B, 0x40, 8, 0x64, 0xC0, 0];

/// The last moment of interval 0, and the first of interval 1.
const LAST_KEY: &[u8] = &[0, 0, 0, 0, 0, 0x3F, 0xFF, 0xFF, 8, 0x64, 0xC0, 0];

const FIRST_KEY_IN_1: &[u8] = &[0, 0, 0, 0, 0, 0x40, 0, 0, 8, 0x64, 0xC0, 0];

/// Columns of one value.
const V100: &[u8] = &[0, 0, 0, 0, 0, 0, 0, 0, 0, 0, 0, 0, 0, 0, 0, 0, 100];

const V42: &[u8] = &[0, 0, 0, 0, 0, 0, 0, 0, 0, 0, 0, 0, 0, 0, 0, 0, 42];

const V255: &[u8] = &[0, 0, 0, 0, 0, 0, 0, 0, 0, 0, 0, 0, 0, 0, 0, 0, 255];

/// One more than `v` may be.
const V256: &[u8] = &[0, 0, 0, 0, 0, 0, 0, 0, 0, 0, 0, 0, 0, 0, 0, 1, 0];

/// The greatest value of `apid`, and one more.
const V2047: &[u8] = &[0, 0, 0, 0, 0, 0, 0, 0, 0, 0, 0, 0, 0, 0, 0, 7, 255];

const V2048: &[u8] = &[0, 0, 0, 0, 0, 0, 0, 0, 0, 0, 0, 0, 0, 0, 0, 8, 0];

/// -1.
const MINUS_ONE: &[u8] = &[
    0, 255, 255, 255, 255, 255, 255, 255, 255, 255, 255, 255, 255, 255, 255, 255, 255,
];

/// A form that there isn't.
const FORM_2: &[u8] = &[2, 0, 0, 0, 0, 0, 0, 0, 0, 0, 0, 0, 0, 0, 0, 0, 42];

/// Columns of two values: 100 and 101 in one bit each, 42 and 7 in six.
const V100_AND_101: &[u8] = &[1, 0, 0, 0, 0, 0, 0, 0, 0, 0, 0, 0, 0, 0, 0, 0, 100, 1, 0x40];

const V42_AND_7: &[u8] = &[
    1, 0, 0, 0, 0, 0, 0, 0, 0, 0, 0, 0, 0, 0, 0, 0, 7, 6, 0x8C, 0,
];

/// 42 and 7 in seven bits each, one more than they need; and one with a bit behind the values.
const V42_AND_7_IN_7: &[u8] = &[
    1, 0, 0, 0, 0, 0, 0, 0, 0, 0, 0, 0, 0, 0, 0, 0, 7, 7, 0x46, 0,
];

const V42_AND_7_AND_A_BIT: &[u8] = &[
    1, 0, 0, 0, 0, 0, 0, 0, 0, 0, 0, 0, 0, 0, 0, 0, 7, 6, 0x8C, 1,
];

/// 42 twice, which form 0 says.
const V42_TWICE: &[u8] = &[1, 0, 0, 0, 0, 0, 0, 0, 0, 0, 0, 0, 0, 0, 0, 0, 42, 0];

/// The segment of packet 0.
const RIGHT: &[&[u8]] = &[ONE_SEGMENT, BOTH, KEY, V100, V42];

/// The segment of the packets 0 and 1.
const RIGHT_OF_TWO: &[&[u8]] = &[ONE_SEGMENT, BOTH_TWICE, KEY, GAP, V100_AND_101, V42_AND_7];

/// A fill's octets, behind a head, a row of interval 0 and one of interval 1: the record's gate stands at octet 124.
type Broken = (&'static str, Body);

/// Of what stands before the segments.
const BROKEN_FRONTS: &[Broken] = &[
    ("its kind alone", Body::Octets(&[3])),
    (
        "an octet less than interval and base",
        Body::Octets(&[3, 0, 0, 0, 0, 0, 0, 0, 0, 0, 0, 0, 0, 0, 0, 0]),
    ),
    (
        "no set",
        Body::Octets(&[3, 0, 0, 0, 0, 0, 0, 0, 0, 0, 0, 0, 0, 0, 0, 0, 1]),
    ),
    ("a set cut in its count", Body::Fill(0, 1, &[&[0, 0, 0]])),
    (
        "octets behind no segment",
        Body::Fill(0, 1, &[NO_SEGMENTS, &[0]]),
    ),
    ("a base over the items", Body::Fill(0, 3, RIGHT)),
    ("the greatest base", Body::Fill(0, u64::MAX, RIGHT)),
    ("an interval without rows", Body::Fill(2, 1, &[NO_SEGMENTS])),
    ("an interval before all", Body::Fill(-1, 1, &[NO_SEGMENTS])),
];

/// Of intervals and keys, and of where a set ends.
const BROKEN_PLACES: &[Broken] = &[
    (
        "the least interval",
        Body::Fill(i64::MIN, 1, &[NO_SEGMENTS]),
    ),
    (
        "the greatest interval",
        Body::Fill(i64::MAX, 1, &[NO_SEGMENTS]),
    ),
    ("the set of another interval", Body::Fill(1, 2, RIGHT)),
    (
        "the set of a later interval",
        Body::Fill(0, 2, &[ONE_SEGMENT, BOTH, KEY_IN_1, V100, V42]),
    ),
    (
        "a key behind the last moment",
        Body::Fill(0, 2, &[ONE_SEGMENT, BOTH, FIRST_KEY_IN_1, V100, V42]),
    ),
    (
        "a key before the first moment",
        Body::Fill(1, 2, &[ONE_SEGMENT, BOTH, LAST_KEY, V100, V42]),
    ),
    (
        "a set cut in its last column",
        Body::Fill(0, 1, &[ONE_SEGMENT, BOTH, KEY, V100, &[0, 0, 0]]),
    ),
    (
        "an octet behind a segment",
        Body::Fill(0, 1, &[ONE_SEGMENT, BOTH, KEY, V100, V42, &[0]]),
    ),
    (
        "a segment more than are there",
        Body::Fill(0, 1, &[TWO_SEGMENTS, BOTH, KEY, V100, V42]),
    ),
];

/// Of segments, values and parameters.
const BROKEN_VALUES: &[Broken] = &[
    (
        "a segment behind none",
        Body::Fill(0, 1, &[NO_SEGMENTS, BOTH, KEY, V100, V42]),
    ),
    (
        "a value above its parameter's width",
        Body::Fill(0, 1, &[ONE_SEGMENT, BOTH, KEY, V100, V256]),
    ),
    (
        "another such value",
        Body::Fill(0, 1, &[ONE_SEGMENT, BOTH, KEY, V2048, V42]),
    ),
    (
        "a value below 0",
        Body::Fill(0, 1, &[ONE_SEGMENT, BOTH, KEY, V100, MINUS_ONE]),
    ),
    (
        "a form that there isn't",
        Body::Fill(0, 1, &[ONE_SEGMENT, BOTH, KEY, V100, FORM_2]),
    ),
    (
        "a parameter that there isn't",
        Body::Fill(0, 1, &[ONE_SEGMENT, LACKED, KEY, V42]),
    ),
    (
        "a parameter twice",
        Body::Fill(0, 1, &[ONE_SEGMENT, V_TWICE, KEY, V42, V42]),
    ),
    (
        "no parameter",
        Body::Fill(0, 1, &[ONE_SEGMENT, NO_PARAMETER, KEY]),
    ),
    (
        "no row",
        Body::Fill(0, 1, &[ONE_SEGMENT, BOTH_IN_NONE, KEY, V100, V42]),
    ),
];

/// Of rows, columns and groups.
const BROKEN_COLUMNS: &[Broken] = &[
    (
        "a key twice",
        Body::Fill(
            0,
            1,
            &[
                ONE_SEGMENT,
                BOTH_TWICE,
                KEY,
                NO_GAP,
                V100_AND_101,
                V42_AND_7,
            ],
        ),
    ),
    (
        "a gap with a needless octet",
        Body::Fill(
            0,
            1,
            &[
                ONE_SEGMENT,
                BOTH_TWICE,
                KEY,
                LONG_GAP,
                V100_AND_101,
                V42_AND_7,
            ],
        ),
    ),
    (
        "equal values in form 1",
        Body::Fill(
            0,
            1,
            &[ONE_SEGMENT, BOTH_TWICE, KEY, GAP, V100_AND_101, V42_TWICE],
        ),
    ),
    (
        "values in a bit more than they need",
        Body::Fill(
            0,
            1,
            &[
                ONE_SEGMENT,
                BOTH_TWICE,
                KEY,
                GAP,
                V100_AND_101,
                V42_AND_7_IN_7,
            ],
        ),
    ),
    (
        "a bit behind the values",
        Body::Fill(
            0,
            1,
            &[
                ONE_SEGMENT,
                BOTH_TWICE,
                KEY,
                GAP,
                V100_AND_101,
                V42_AND_7_AND_A_BIT,
            ],
        ),
    ),
    (
        "rows of one group in two segments",
        Body::Fill(
            0,
            1,
            &[
                TWO_SEGMENTS,
                BOTH,
                KEY,
                V100,
                V42,
                BOTH,
                NEXT_KEY,
                V100,
                V42,
            ],
        ),
    ),
    (
        "groups that aren't in the order of their keys",
        Body::Fill(
            0,
            1,
            &[TWO_SEGMENTS, V, NEXT_KEY, V42, BOTH, KEY, V100, V42],
        ),
    ),
    (
        "a key in two segments",
        Body::Fill(0, 1, &[TWO_SEGMENTS, BOTH, KEY, V100, V42, V, KEY, V42]),
    ),
];

/// Fills that stand in an archive of the same rows, and what is seen of interval 0.
type Read = (&'static str, Body, &'static [Step]);

const READ: &[Read] = &[
    (
        "the fill of the interval",
        Body::Fill(0, 1, RIGHT),
        &[Step::Calls(&[
            Call::Late(0, false),
            Call::Set(0, 0, &[100]),
            Call::Set(0, 1, &[42]),
            Call::Plan(0, 9_000_000, 2, &[Over::Set(0), Over::Rows(1, &[7])]),
        ])],
    ),
    (
        "a set of none of the interval's rows",
        Body::Fill(0, 1, &[NO_SEGMENTS]),
        &[Step::Calls(&[
            Call::Late(0, false),
            Call::Set(0, 0, &[]),
            Call::Set(0, 1, &[]),
            Call::Plan(0, 9_000, 2, &[Over::Set(0)]),
            Call::Late(1, true),
            Call::NoSet(1),
            Call::Late(2, false),
        ])],
    ),
    (
        "the greatest values, and the parameters in another order",
        Body::Fill(0, 2, &[ONE_SEGMENT, TURNED, KEY, V255, V2047]),
        &[Step::Calls(&[
            Call::Late(0, false),
            Call::Set(0, 0, &[2047]),
            Call::Set(0, 1, &[255]),
        ])],
    ),
    (
        "rows that the archive hasn't",
        Body::Fill(0, 1, RIGHT_OF_TWO),
        &[Step::Calls(&[
            Call::Late(0, false),
            Call::Set(0, 0, &[100, 101]),
            Call::Set(0, 1, &[42, 7]),
        ])],
    ),
    (
        "a base before the interval's rows",
        Body::Fill(0, 0, RIGHT),
        &[Step::Calls(&[Call::Late(0, true), Call::NoSet(0)])],
    ),
    (
        "two groups",
        Body::Fill(
            0,
            2,
            &[TWO_SEGMENTS, BOTH, KEY, V100, V42, V, NEXT_KEY, V255],
        ),
        &[Step::Calls(&[
            Call::Late(0, false),
            Call::Set(0, 0, &[100]),
            Call::Set(0, 1, &[42, 255]),
        ])],
    ),
];

/// They are functions, so that they stand in no goal of their callers; in one they cost much more to prove.
fn broken_fronts() -> &'static [Broken] {
    BROKEN_FRONTS
}

fn broken_places() -> &'static [Broken] {
    BROKEN_PLACES
}

fn broken_values() -> &'static [Broken] {
    BROKEN_VALUES
}

fn broken_columns() -> &'static [Broken] {
    BROKEN_COLUMNS
}

fn broken() -> [&'static [Broken]; 4] {
    [
        broken_fronts(),
        broken_places(),
        broken_values(),
        broken_columns(),
    ]
}

fn read() -> &'static [Read] {
    READ
}

fn put_pieces(out: &mut Vec<u8>, pieces: &[&[u8]]) -> Result<(), AllocError> {
    for piece in pieces {
        out.extend_from_slice(piece)?;
    }
    Ok(())
}

fn put_fill(
    out: &mut Vec<u8>,
    interval: i64,
    base: u64,
    pieces: &[&[u8]],
) -> Result<(), AllocError> {
    put_fill_front(out, interval, base)?;
    put_pieces(out, pieces)
}

fn put_body(out: &mut Vec<u8>, body: &Body) -> Result<(), AllocError> {
    match body {
        Body::Head => Ok(out.extend_from_slice(head_octets())?),
        Body::Row(packet, table) => put_row(out, 9_000, *packet, *table),
        Body::Fill(interval, base, pieces) => put_fill(out, *interval, *base, pieces),
        Body::Octets(given) => Ok(out.extend_from_slice(given)?),
    }
}

/// Adds an open gate and a record.
fn put_record(alloc: Global, out: &mut Vec<u8>, body: &Body) -> Result<(), AllocError> {
    let mut octets = Vec::new(alloc);
    put_body(&mut octets, body)?;
    put_frame(out, octets.as_slice())
}

/// What stands before a fill: a head, and a row of each of two intervals.
const BEFORE: &[Body] = &[Body::Head, Body::Row(0, 0), Body::Row(7, 0)];

/// A function, as above.
fn before() -> &'static [Body] {
    BEFORE
}

/// Such records and a fill behind them, and a closed gate.
fn put_records(alloc: Global, out: &mut Vec<u8>, fill: &Body) -> Result<(), AllocError> {
    for body in before() {
        put_record(alloc, out, body)?;
    }
    put_record(alloc, out, fill)?;
    out.push(0)?;
    Ok(())
}

/// The octets of these.
fn journal_with(alloc: Global, fill: &Body) -> Result<Vec<u8>, AllocError> {
    let mut journal = Vec::new(alloc);
    put_records(alloc, &mut journal, fill)?;
    Ok(journal)
}

/// The gate of file 0 at which a refusal finds damage.
fn damaged_gate(refusal: &Refusal) -> Option<u64> {
    match refusal {
        Refusal::Damaged { file: 0, at } => Some(*at),
        _ => None,
    }
}

/// The gate of file 0 at which the opening of a disk finds damage, and the disk.
fn damage_of<D: Disk>(alloc: Global, disk: D) -> (Option<u64>, D) {
    match Store::open(alloc, disk) {
        Ok(store) => (None, store.into_disk()),
        Err((disk, refusal)) => (damaged_gate(&refusal), disk),
    }
}

/// Whether the opening of a disk with such a fill finds damage at the fill's gate. A head is 53 octets long and a row 28, and a record has 5 more.
fn is_damage<D: Disk + Drop>(alloc: Global, disk: D, fill: &Body) -> bool {
    let (gate, _disk) = damage_of(alloc, holding(disk, journal_with(alloc, fill)));
    gate == Some(124)
}

/// The rule of the first of these fills that is no damage.
fn other_rule(alloc: Global, fills: &[Broken]) -> Option<&'static str> {
    for (rule, fill) in fills {
        if !is_damage(alloc, MemDisk::new(alloc), fill) {
            return Some(*rule);
        }
    }
    None
}

/// The same of some tables.
fn other_of(alloc: Global, tables: &[&'static [Broken]]) -> Option<&'static str> {
    for fills in tables {
        if let Some(rule) = other_rule(alloc, fills) {
            return Some(rule);
        }
    }
    None
}

#[test]
fn fills_that_are_damage(rt: HostRuntime) -> Result<(), Fail> {
    none_other(other_of(rt.alloc(), &broken()))
}

/// The name of the first of these fills that is read otherwise.
fn other_read(alloc: Global, fills: &[Read]) -> Option<&'static str> {
    for (name, fill, steps) in fills {
        let disk = holding(MemDisk::new(alloc), journal_with(alloc, fill));
        if other_of_opened(alloc, disk, steps).is_some() {
            return Some(*name);
        }
    }
    None
}

#[test]
fn fills_that_are_read(rt: HostRuntime) -> Result<(), Fail> {
    none_other(other_read(rt.alloc(), read()))
}
