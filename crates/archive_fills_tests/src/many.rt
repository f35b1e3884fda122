// Many intervals in flight at once, and intervals that are filled over and over: nothing but want of memory ends it.
use crate::calls::{Call, fills, is_ingested};
use crate::parts::{IN_TURN, created, none_other, opened};
use crate::plans::Over;
use crate::steps::{Step, of_new, of_opened};
use crate::verify_cases::Answer;
use crate::verify_tests::answer_of;
use arch_disk::{Disk, MemDisk};
use arch_types::inserted::{Inserted, Installed};
use archive_store::Store;
use std::alloc::Global;
use std::test::Fail;

/// Packets of nine intervals, and nine flights. All intervals are late still once the flights end, and each is filled.
const NINE: &[Step] = &[Step::Calls(&[
    Call::Ingest((0, 0), Inserted::New(0)),
    Call::Ingest((7, 0), Inserted::New(1)),
    Call::Ingest((9, 0), Inserted::New(2)),
    Call::Ingest((11, 0), Inserted::New(3)),
    Call::Ingest((12, 0), Inserted::New(4)),
    Call::Ingest((13, 0), Inserted::New(5)),
    Call::Ingest((14, 0), Inserted::New(6)),
    Call::Ingest((15, 0), Inserted::New(7)),
    Call::Ingest((16, 0), Inserted::New(8)),
    Call::Begin(Some((0, 9, &[0]))),
    Call::Begin(Some((1, 9, &[7]))),
    Call::Begin(Some((2, 9, &[9]))),
    Call::Begin(Some((3, 9, &[11]))),
    Call::Begin(Some((4, 9, &[12]))),
    Call::Begin(Some((5, 9, &[13]))),
    Call::Begin(Some((6, 9, &[14]))),
    Call::Begin(Some((7, 9, &[15]))),
    Call::Begin(Some((8, 9, &[16]))),
    Call::Begin(None),
    Call::Settle,
    Call::Plan(
        0,
        38_000_000,
        9,
        &[
            Over::Rows(0, &[0]),
            Over::Rows(1, &[7]),
            Over::Rows(2, &[9]),
            Over::Rows(3, &[11]),
            Over::Rows(4, &[12]),
            Over::Rows(5, &[13]),
            Over::Rows(6, &[14]),
            Over::Rows(7, &[15]),
            Over::Rows(8, &[16]),
        ],
    ),
    Call::Fill((0, 9, &[0]), Ok(Installed::Done)),
    Call::Fill((1, 9, &[7]), Ok(Installed::Done)),
    Call::Fill((2, 9, &[9]), Ok(Installed::Done)),
    Call::Fill((3, 9, &[11]), Ok(Installed::Done)),
    Call::Fill((4, 9, &[12]), Ok(Installed::Done)),
    Call::Fill((5, 9, &[13]), Ok(Installed::Done)),
    Call::Fill((6, 9, &[14]), Ok(Installed::Done)),
    Call::Fill((7, 9, &[15]), Ok(Installed::Done)),
    Call::Fill((8, 9, &[16]), Ok(Installed::Done)),
    Call::Begin(None),
])];

/// The same archive, opened again.
const NINE_FILLED: &[Step] = &[Step::Calls(&[
    Call::Begin(None),
    Call::Plan(
        0,
        38_000_000,
        9,
        &[
            Over::Set(0),
            Over::Set(1),
            Over::Set(2),
            Over::Set(3),
            Over::Set(4),
            Over::Set(5),
            Over::Set(6),
            Over::Set(7),
            Over::Set(8),
        ],
    ),
    Call::Set(0, 1, &[42]),
    Call::Set(1, 1, &[5]),
    Call::Set(2, 1, &[3]),
    Call::Set(3, 1, &[11]),
    Call::Set(4, 1, &[12]),
    Call::Set(5, 1, &[13]),
    Call::Set(6, 1, &[14]),
    Call::Set(7, 1, &[15]),
    Call::Set(8, 1, &[16]),
])];

/// They are functions, so that they stand in no goal of their callers.
fn nine() -> &'static [Step] {
    NINE
}

fn nine_filled() -> &'static [Step] {
    NINE_FILLED
}

/// What goes otherwise with the archive of a disk that is opened again, and again to be verified.
fn other_behind<D: Disk + Drop>(
    alloc: Global,
    disk: D,
    steps: &[Step],
    sound: Answer,
) -> Option<&'static str> {
    let (other, disk) = of_opened(alloc, disk, steps);
    let (answer, _disk) = answer_of(alloc, opened(alloc, disk));
    if other.is_some() {
        Some("the archive that is opened again")
    } else if answer != sound {
        Some("its verifying")
    } else {
        None
    }
}

/// What goes otherwise with nine intervals.
fn other_of_nine<D: Disk + Drop>(alloc: Global, disk: D) -> Option<&'static str> {
    let (other, disk) = of_new(alloc, disk, nine());
    let behind = other_behind(alloc, disk, nine_filled(), Answer::Sound(9, 9, 0));
    if other.is_some() {
        Some("nine flights")
    } else {
        behind
    }
}

#[test]
fn nine_intervals_in_flight(rt: HostRuntime) -> Result<(), Fail> {
    none_other(other_of_nine(rt.alloc(), MemDisk::new(rt.alloc())))
}

/// How many fills there are of thirty intervals, each of which gets late by one packet more.
const FILLS: u64 = 3_000;

const NONE_LATE: &[Step] = &[Step::Calls(&[Call::Begin(None)])];

/// A function, as above.
fn none_late() -> &'static [Step] {
    NONE_LATE
}

/// Whether the next packet is new, and its interval is filled with it.
fn is_filled_with<D: Disk>(alloc: Global, store: &mut Store<D>, front: u64) -> bool {
    let number = IN_TURN.saturating_add(front as usize);
    is_ingested(alloc, store, (number, 0), Ok(Inserted::New(front)))
        && fills(alloc, store, &None, Ok(Installed::Done))
}

/// The place of the first packet with which it isn't so.
fn other_fill<D: Disk>(alloc: Global, store: &mut Store<D>) -> Option<u64> {
    for front in 0..FILLS {
        if !is_filled_with(alloc, store, front) {
            return Some(front);
        }
    }
    None
}

/// The same of a new archive, and its disk.
fn filled_over_and_over<D: Disk>(alloc: Global, disk: D) -> (Option<u64>, D) {
    match created(alloc, disk) {
        Ok(mut store) => {
            let other = other_fill(alloc, &mut store);
            (other, store.into_disk())
        }
        Err(disk) => (Some(0), disk),
    }
}

/// What goes otherwise with so many fills.
fn other_of_fills<D: Disk + Drop>(alloc: Global, disk: D) -> Option<&'static str> {
    let (other, disk) = filled_over_and_over(alloc, disk);
    let behind = other_behind(alloc, disk, none_late(), Answer::Sound(FILLS, 30, 0));
    if other.is_some() {
        Some("a fill")
    } else {
        behind
    }
}

#[test]
fn intervals_filled_over_and_over(rt: HostRuntime) -> Result<(), Fail> {
    none_other(other_of_fills(rt.alloc(), MemDisk::new(rt.alloc())))
}
