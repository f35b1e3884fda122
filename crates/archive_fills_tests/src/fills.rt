// Fills from their beginning to their end, while other calls come between; and in archives that are opened again.
use crate::calls::Call;
use crate::parts::none_other;
use crate::plans::Over;
use crate::steps::{Step, of_new, of_opened, other_of_new};
use arch_disk::{Disk, MemDisk};
use arch_types::inserted::{Inserted, Installed};
use std::alloc::Global;
use std::test::Fail;

/// The last moment of an interval and the first of the next are apart, in ranges and in fills. Neither packet has a `v`.
const BORDER: &[Step] = &[Step::Calls(&[
    Call::Ingest((5, 0), Inserted::New(0)),
    Call::Ingest((6, 0), Inserted::New(1)),
    Call::Late(0, true),
    Call::Late(1, true),
    Call::Plan(4_194_303, 4_194_304, 2, &[Over::Rows(0, &[5])]),
    Call::Plan(4_194_304, 4_194_305, 2, &[Over::Rows(1, &[6])]),
    Call::Fill((0, 2, &[5]), Ok(Installed::Done)),
    Call::Late(0, false),
    Call::Late(1, true),
    Call::Plan(4_194_303, 4_194_304, 2, &[Over::Set(0)]),
    Call::Plan(
        4_194_303,
        4_194_305,
        2,
        &[Over::Set(0), Over::Rows(1, &[6])],
    ),
    Call::Set(0, 0, &[100]),
    Call::Set(0, 1, &[]),
    Call::NoSet(1),
    Call::Fill((1, 2, &[6]), Ok(Installed::Done)),
    Call::Plan(0, 9_000_000, 2, &[Over::Set(0), Over::Set(1)]),
    Call::Set(1, 0, &[100]),
    Call::Late(2, false),
    Call::NoSet(2),
    Call::Late(-1, false),
])];

/// A packet that comes while its interval is in flight makes the fill stale. The next fill has both packets.
const STALE: &[Step] = &[
    Step::Calls(&[
        Call::Ingest((4, 0), Inserted::New(0)),
        Call::Late(0, true),
        Call::NoSet(0),
    ]),
    Step::Fill(
        (0, 1, &[4]),
        &[
            Call::Begin(None),
            Call::Ingest((1, 0), Inserted::New(1)),
            Call::Begin(None),
        ],
        Ok(Installed::Stale { position: 1 }),
    ),
    Step::Calls(&[
        Call::Late(0, true),
        Call::NoSet(0),
        Call::Fill((0, 2, &[4, 1]), Ok(Installed::Done)),
        Call::Late(0, false),
        Call::Set(0, 0, &[100, 101]),
        Call::Set(0, 1, &[42, 7]),
        Call::Plan(0, 2_000, 2, &[Over::Set(0)]),
        Call::Begin(None),
    ]),
];

/// A packet that is there already, or another of its key, doesn't.
const DUPLICATES: &[Step] = &[
    Step::Calls(&[Call::Ingest((4, 0), Inserted::New(0))]),
    Step::Fill(
        (0, 1, &[4]),
        &[
            Call::Ingest((4, 0), Inserted::Duplicate(0)),
            Call::Ingest((0, 0), Inserted::Duplicate(0)),
        ],
        Ok(Installed::Done),
    ),
    Step::Calls(&[
        Call::Late(0, false),
        Call::Set(0, 1, &[42]),
        Call::Ingest((4, 0), Inserted::Duplicate(0)),
        Call::Late(0, false),
    ]),
];

/// Neither does one of another interval or of another table. A fill is stale by the last packet of its own.
const OTHER_PACKETS: &[Step] = &[
    Step::Calls(&[Call::Ingest((0, 0), Inserted::New(0))]),
    Step::Fill(
        (0, 1, &[0]),
        &[
            Call::Ingest((7, 0), Inserted::New(1)),
            Call::Ingest((1, 1), Inserted::New(2)),
        ],
        Ok(Installed::Done),
    ),
    Step::Calls(&[
        Call::Late(0, false),
        Call::Late(1, true),
        Call::Set(0, 1, &[42]),
        Call::Ingest((1, 0), Inserted::New(3)),
        Call::Late(0, true),
        Call::NoSet(0),
    ]),
    Step::Fill(
        (0, 4, &[0, 1]),
        &[
            Call::Ingest((2, 0), Inserted::New(4)),
            Call::Ingest((3, 0), Inserted::New(5)),
            Call::Ingest((8, 0), Inserted::New(6)),
            Call::Ingest((3, 1), Inserted::New(7)),
        ],
        Ok(Installed::Stale { position: 5 }),
    ),
];

/// The least late interval that is free begins; one with packets of the second table alone isn't late. Others stay in flight while one ends, and are free
/// once all flights end. The last publication changes none of it.
const FLIGHTS: &[Step] = &[Step::Calls(&[
    Call::Late(0, false),
    Call::Begin(None),
    Call::Ingest((0, 1), Inserted::New(0)),
    Call::Late(0, false),
    Call::Begin(None),
    Call::Ingest((9, 0), Inserted::New(1)),
    Call::Late(0, false),
    Call::Late(2, true),
    Call::Ingest((7, 0), Inserted::New(2)),
    Call::Ingest((0, 0), Inserted::New(3)),
    Call::Begin(Some((0, 4, &[0]))),
    Call::Fill((1, 4, &[7]), Ok(Installed::Done)),
    Call::GiveUp((2, 4, &[9])),
    Call::Ingest((1, 0), Inserted::New(4)),
    Call::Begin(Some((2, 5, &[9]))),
    Call::Begin(None),
    Call::Settle,
    Call::Late(0, true),
    Call::Late(1, false),
    Call::Late(2, true),
    Call::Begin(Some((0, 5, &[0, 1]))),
    Call::Close,
    Call::Late(0, true),
    Call::Fill((2, 5, &[9]), Ok(Installed::Done)),
    Call::Begin(None),
    Call::Settle,
    Call::Fill((0, 5, &[0, 1]), Ok(Installed::Done)),
    Call::Begin(None),
    Call::Plan(
        0,
        10_000_000,
        5,
        &[Over::Set(0), Over::Set(1), Over::Set(2)],
    ),
])];

/// A fill whose flight has ended is installed too, also one that another took the place of: it is stale where a packet
/// came since it began, whatever other fill has that packet.
const WITHOUT_FLIGHT: &[Step] = &[
    Step::Calls(&[Call::Ingest((0, 0), Inserted::New(0))]),
    Step::Fill((0, 1, &[0]), &[Call::Settle], Ok(Installed::Done)),
    Step::Calls(&[Call::Late(0, false), Call::Ingest((1, 0), Inserted::New(1))]),
    Step::Fill(
        (0, 2, &[0, 1]),
        &[
            Call::Settle,
            Call::Fill((0, 2, &[0, 1]), Ok(Installed::Done)),
            Call::Late(0, false),
        ],
        Ok(Installed::Done),
    ),
    Step::Calls(&[
        Call::Late(0, false),
        Call::Set(0, 1, &[42, 7]),
        Call::Ingest((2, 0), Inserted::New(2)),
    ]),
    Step::Fill(
        (0, 3, &[0, 1, 2]),
        &[
            Call::Settle,
            Call::Ingest((3, 0), Inserted::New(3)),
            Call::Fill((0, 4, &[0, 1, 2, 3]), Ok(Installed::Done)),
        ],
        Ok(Installed::Stale { position: 3 }),
    ),
    Step::Calls(&[Call::Late(0, false), Call::Set(0, 1, &[42, 7, 8, 9])]),
];

/// The tables, by name.
type Named = (&'static str, &'static [Step]);

/// Each is a function, so that they stand in no goal of its callers; in one they cost much more to prove.
fn border() -> &'static [Step] {
    BORDER
}

fn stale() -> &'static [Step] {
    STALE
}

fn duplicates() -> &'static [Step] {
    DUPLICATES
}

fn other_packets() -> &'static [Step] {
    OTHER_PACKETS
}

fn flights() -> &'static [Step] {
    FLIGHTS
}

fn without_flight() -> &'static [Step] {
    WITHOUT_FLIGHT
}

fn fills() -> [Named; 6] {
    [
        ("border", border()),
        ("stale", stale()),
        ("duplicates", duplicates()),
        ("other packets", other_packets()),
        ("flights", flights()),
        ("without flight", without_flight()),
    ]
}

/// The first of these whose steps go otherwise in a new archive.
fn other_fills(alloc: Global, all: &[Named]) -> Option<&'static str> {
    for (name, steps) in all {
        if other_of_new(alloc, MemDisk::new(alloc), steps).is_some() {
            return Some(*name);
        }
    }
    None
}

#[test]
fn fills_of_intervals(rt: HostRuntime) -> Result<(), Fail> {
    none_other(other_fills(rt.alloc(), &fills()))
}

/// An archive whose two intervals are filled.
const FILLED: &[Step] = &[Step::Calls(&[
    Call::Ingest((0, 0), Inserted::New(0)),
    Call::Ingest((7, 0), Inserted::New(1)),
    Call::Plan(0, 9_000_000, 2, &[Over::Rows(0, &[0]), Over::Rows(1, &[7])]),
    Call::Fill((0, 2, &[0]), Ok(Installed::Done)),
    Call::Fill((1, 2, &[7]), Ok(Installed::Done)),
    Call::Plan(0, 9_000_000, 2, &[Over::Set(0), Over::Set(1)]),
    Call::Marks(&[(0, 0, Some(2)), (1, 1, Some(2))]),
])];

/// Opened again it has the fills, until a late packet comes to one of the intervals.
const LATE_PACKET: &[Step] = &[Step::Calls(&[
    Call::Late(0, false),
    Call::Late(1, false),
    Call::Begin(None),
    Call::Plan(0, 9_000_000, 2, &[Over::Set(0), Over::Set(1)]),
    Call::Set(0, 1, &[42]),
    Call::Set(1, 1, &[5]),
    Call::Ingest((7, 0), Inserted::Duplicate(1)),
    Call::Late(1, false),
    Call::Ingest((1, 0), Inserted::New(2)),
    Call::Late(0, true),
    Call::Late(1, false),
    Call::NoSet(0),
    Call::Plan(0, 9_000_000, 3, &[Over::Rows(0, &[0, 1]), Over::Set(1)]),
])];

/// The interval is late again in the archive that is opened then, and is filled anew.
const FILLED_ANEW: &[Step] = &[Step::Calls(&[
    Call::Late(0, true),
    Call::Late(1, false),
    Call::NoSet(0),
    Call::Set(1, 1, &[5]),
    Call::Plan(0, 9_000_000, 3, &[Over::Rows(0, &[0, 1]), Over::Set(1)]),
    Call::Fill((0, 3, &[0, 1]), Ok(Installed::Done)),
    Call::Plan(0, 9_000_000, 3, &[Over::Set(0), Over::Set(1)]),
    Call::Set(0, 1, &[42, 7]),
])];

/// And stays so. An interval that had no packet is late once one comes.
const KEPT: &[Step] = &[Step::Calls(&[
    Call::Late(0, false),
    Call::Late(1, false),
    Call::Begin(None),
    Call::Plan(0, 9_000_000, 3, &[Over::Set(0), Over::Set(1)]),
    Call::Set(0, 0, &[100, 101]),
    Call::Set(0, 1, &[42, 7]),
    Call::Set(1, 1, &[5]),
    Call::Late(2, false),
    Call::Plan(9_000_000, 10_000_000, 3, &[]),
    Call::Ingest((9, 0), Inserted::New(3)),
    Call::Late(2, true),
    Call::Late(1, false),
    Call::Plan(9_000_000, 10_000_000, 4, &[Over::Rows(2, &[9])]),
    Call::Marks(&[(0, 2, Some(3)), (1, 1, Some(2)), (2, 3, None)]),
])];

/// What is done with the new archive. A function, as that of the openings.
fn filled() -> &'static [Step] {
    FILLED
}

fn late_packet() -> &'static [Step] {
    LATE_PACKET
}

fn filled_anew() -> &'static [Step] {
    FILLED_ANEW
}

fn kept() -> &'static [Step] {
    KEPT
}

/// What is done with it once it is opened again, and again.
fn openings() -> [&'static [Step]; 3] {
    [late_packet(), filled_anew(), kept()]
}

/// The place of the first opening of an archive in which a step goes otherwise.
fn other_opening<D: Disk + Drop>(
    alloc: Global,
    disk: D,
    openings: &[&'static [Step]],
) -> Option<usize> {
    let mut disk = disk;
    let mut place = 0usize;
    for steps in openings {
        let (other, left) = of_opened(alloc, disk, steps);
        disk = left;
        if other.is_some() {
            return Some(place);
        }
        place = place.saturating_add(1);
    }
    None
}

/// The same of a new archive in which these steps are made first.
fn other_behind<D: Disk + Drop>(
    alloc: Global,
    disk: D,
    new: &[Step],
    openings: &[&'static [Step]],
) -> Option<usize> {
    let (other, disk) = of_new(alloc, disk, new);
    let opening = other_opening(alloc, disk, openings);
    other.or(opening)
}

#[test]
fn a_filled_archive_is_opened_again(rt: HostRuntime) -> Result<(), Fail> {
    let disk = MemDisk::new(rt.alloc());
    none_other(other_behind(rt.alloc(), disk, filled(), &openings()))
}
