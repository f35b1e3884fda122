// What an install answers on a disk that fails at one of its calls, and what it leaves: the interval late and free again, until the archive is reopened
// and the fill begins anew.
use crate::calls::Call;
use crate::parts::{InMemory, none_other};
use crate::plans::Over;
use crate::steps::{Step, of_new, other_of_opened};
use arch_disk::{Disk, MemDisk};
use arch_types::inserted::{Inserted, Installed};
use std::alloc::{AllocError, Global};
use std::test::Fail;

/// What stands in an archive before a disk fails: a packet in each of two intervals.
const BEFORE: &[Step] = &[Step::Calls(&[
    Call::Ingest((0, 0), Inserted::New(0)),
    Call::Ingest((7, 0), Inserted::New(1)),
])];

/// A fill that fails while that of the other interval is in flight, whose flight stays. Plans go on; nothing else is
/// written before a reopen.
const FAILED: &[Step] = &[Step::Calls(&[
    Call::Ingest((0, 0), Inserted::New(0)),
    Call::Ingest((7, 0), Inserted::New(1)),
    Call::Begin(Some((0, 2, &[0]))),
    Call::Fill((1, 2, &[7]), Err("disk fault")),
    Call::Late(1, true),
    Call::NoSet(1),
    Call::Fill((1, 2, &[7]), Err("needs reopen 1")),
    Call::Begin(Some((1, 2, &[7]))),
    Call::Begin(None),
    Call::Settle,
    Call::Fill((0, 2, &[0]), Err("needs reopen 1")),
    Call::Refused((1, 0), "needs reopen 1"),
    Call::Plan(0, 9_000_000, 2, &[Over::Rows(0, &[0]), Over::Rows(1, &[7])]),
    Call::Reopen,
    Call::Late(1, true),
    Call::Fill((0, 2, &[0]), Ok(Installed::Done)),
    Call::Fill((1, 2, &[7]), Ok(Installed::Done)),
    Call::Late(1, false),
    Call::Set(1, 1, &[5]),
])];

/// The same where the reopen fails first. The count in the refusal stays that of the failed install.
const FAILED_TWICE: &[Step] = &[Step::Calls(&[
    Call::Ingest((0, 0), Inserted::New(0)),
    Call::Ingest((7, 0), Inserted::New(1)),
    Call::Fill((0, 2, &[0]), Err("disk fault")),
    Call::NoReopen,
    Call::Late(0, true),
    Call::Fill((0, 2, &[0]), Err("needs reopen 1")),
    Call::Refused((1, 0), "needs reopen 1"),
    Call::Plan(0, 9_000_000, 2, &[Over::Rows(0, &[0]), Over::Rows(1, &[7])]),
    Call::Reopen,
    Call::Fill((0, 2, &[0]), Ok(Installed::Done)),
    Call::Fill((1, 2, &[7]), Ok(Installed::Done)),
])];

/// A batch that fails. Plans go on without its rows, before a reopen and behind it.
const REFUSED: &[Step] = &[Step::Calls(&[
    Call::Ingest((0, 0), Inserted::New(0)),
    Call::Ingest((7, 0), Inserted::New(1)),
    Call::Refused((1, 0), "disk fault"),
    Call::Plan(0, 9_000_000, 2, &[Over::Rows(0, &[0]), Over::Rows(1, &[7])]),
    Call::Reopen,
    Call::Plan(0, 9_000_000, 2, &[Over::Rows(0, &[0]), Over::Rows(1, &[7])]),
    Call::Fill((0, 2, &[0]), Ok(Installed::Done)),
    Call::Fill((1, 2, &[7]), Ok(Installed::Done)),
])];

/// A fill that is stale makes no call of the disk, and neither does one that comes before a reopen.
const STALE_FIRST: &[Step] = &[
    Step::Calls(&[
        Call::Ingest((0, 0), Inserted::New(0)),
        Call::Ingest((7, 0), Inserted::New(1)),
    ]),
    Step::Fill(
        (0, 2, &[0]),
        &[
            Call::Fill((1, 2, &[7]), Err("disk fault")),
            Call::Reopen,
            Call::Ingest((1, 0), Inserted::New(2)),
        ],
        Ok(Installed::Stale { position: 2 }),
    ),
    Step::Fill(
        (0, 3, &[0, 1]),
        &[Call::Fill((1, 3, &[7]), Ok(Installed::Done))],
        Ok(Installed::Done),
    ),
];

/// A failing fill before one that is stale: the failed write is answered first.
const PENDING_FIRST: &[Step] = &[
    Step::Calls(&[
        Call::Ingest((0, 0), Inserted::New(0)),
        Call::Ingest((7, 0), Inserted::New(1)),
    ]),
    Step::Fill(
        (0, 2, &[0]),
        &[Call::Fill((1, 2, &[7]), Err("disk fault"))],
        Err("needs reopen 1"),
    ),
    Step::Calls(&[
        Call::Late(0, true),
        Call::Reopen,
        Call::Fill((0, 2, &[0]), Ok(Installed::Done)),
        Call::Fill((1, 2, &[7]), Ok(Installed::Done)),
    ]),
];

/// Behind each: the archive has both fills.
const BOTH_FILLED: &[Step] = &[Step::Calls(&[
    Call::Begin(None),
    Call::Set(0, 1, &[42]),
    Call::Set(1, 1, &[5]),
])];

/// Where the archive got a packet more.
const BOTH_FILLED_LATER: &[Step] = &[Step::Calls(&[
    Call::Begin(None),
    Call::Set(0, 1, &[42, 7]),
    Call::Set(1, 1, &[5]),
])];

/// Steps, those behind them, and which calls fail, counted from the first of an install: each row on a disk of its own. An append makes four calls: the
/// record, a sync, its gate, a sync. A reopen makes the last two, or a sync alone where the gate wasn't written.
type Faults = (&'static [Step], &'static [Step], &'static [&'static [u64]]);

/// They are functions, so that they stand in no goal of their callers.
fn before() -> &'static [Step] {
    BEFORE
}

fn failed() -> &'static [Step] {
    FAILED
}

fn failed_twice() -> &'static [Step] {
    FAILED_TWICE
}

fn refused() -> &'static [Step] {
    REFUSED
}

fn stale_first() -> &'static [Step] {
    STALE_FIRST
}

fn pending_first() -> &'static [Step] {
    PENDING_FIRST
}

fn both_filled() -> &'static [Step] {
    BOTH_FILLED
}

fn both_filled_later() -> &'static [Step] {
    BOTH_FILLED_LATER
}

const ONE_CALL: &[&[u64]] = &[&[1], &[2], &[3], &[4]];

const TWO_CALLS: &[&[u64]] = &[&[1, 2], &[2, 3], &[3, 4], &[3, 5], &[4, 5], &[4, 6]];

const RECORD_OR_LAST_SYNC: &[&[u64]] = &[&[1], &[4]];

const SYNC_OR_GATE: &[&[u64]] = &[&[2], &[3]];

fn faults() -> [Faults; 5] {
    [
        (failed(), both_filled(), ONE_CALL),
        (failed_twice(), both_filled(), TWO_CALLS),
        (refused(), both_filled(), ONE_CALL),
        (stale_first(), both_filled_later(), RECORD_OR_LAST_SYNC),
        (pending_first(), both_filled(), SYNC_OR_GATE),
    ]
}

/// How many calls a disk has behind these steps of an archive on it.
fn calls_behind<D: InMemory>(alloc: Global, disk: D, before: &[Step]) -> u64 {
    let (_, disk) = of_new(alloc, disk, before);
    disk.calls()
}

/// Numbers that are counted from behind others.
fn numbers_behind(alloc: Global, made: u64, calls: &[u64]) -> Result<Vec<u64>, AllocError> {
    let mut numbers = Vec::new(alloc);
    for call in calls {
        numbers.push(made.saturating_add(*call))?;
    }
    Ok(numbers)
}

/// A disk whose calls of these numbers fail, counted from what is done with an archive on it.
pub(crate) fn failing_behind(alloc: Global, before: &[Step], calls: &[u64]) -> Option<MemDisk> {
    let made = calls_behind(alloc, MemDisk::new(alloc), before);
    match numbers_behind(alloc, made, calls) {
        Ok(numbers) => Some(MemDisk::failing(alloc, numbers)),
        Err(_) => None,
    }
}

/// Whether these steps go as they are to in a new archive, and those behind them once it is opened again.
fn goes_so<D: Disk + Drop>(alloc: Global, disk: D, steps: &[Step], after: &[Step]) -> bool {
    let (other, disk) = of_new(alloc, disk, steps);
    other_of_opened(alloc, disk, after).is_none() && other.is_none()
}

/// Whether it is so on a disk whose calls of these numbers fail.
fn is_so(alloc: Global, calls: &[u64], steps: &[Step], after: &[Step]) -> bool {
    match failing_behind(alloc, before(), calls) {
        Some(disk) => goes_so(alloc, disk, steps, after),
        None => false,
    }
}

/// The place of the first of the calls of a row with which it isn't so.
fn other_calls(alloc: Global, row: &Faults) -> Option<usize> {
    let (steps, after, all) = *row;
    let mut place = 0usize;
    for calls in all {
        if !is_so(alloc, calls, steps, after) {
            return Some(place);
        }
        place = place.saturating_add(1);
    }
    None
}

/// The first row of which it isn't so, as ten times its place and that of the calls.
fn other_faults(alloc: Global, rows: &[Faults]) -> Option<usize> {
    let mut place = 0usize;
    for row in rows {
        if let Some(calls) = other_calls(alloc, row) {
            return Some(place.saturating_add(calls));
        }
        place = place.saturating_add(10);
    }
    None
}

#[test]
fn installs_on_a_failing_disk(rt: HostRuntime) -> Result<(), Fail> {
    none_other(other_faults(rt.alloc(), &faults()))
}
