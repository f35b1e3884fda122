//! Each call once where memory is ample; an interval to which a row comes while it is in flight.

use crate::parts::{Told, are_told, none_other, touch};
use fill_tracker::FillTracker;
use history_items::fills::Addition;
use intervals::Interval;
use std::alloc::{AllocError, Global};
use std::test::Fail;

/// What is noted.
enum Deed {
    /// Rows of these tables and times, the first of them at this position.
    Rows(&'static [(u8, i64)], u32),
    /// Rows of an interval stand at positions of which this is the greatest.
    Placed(i64, u64),
    /// A fill of the next interval begins.
    Begin(u64),
    /// A fill of an interval is there.
    Finish(i64, u64),
    /// A fill of an interval is given up.
    Free(i64),
    /// All fills are given up.
    Settle,
    /// A call answers that the disk failed.
    Fault,
    /// A reopen succeeds.
    Reopen,
    /// The archive is published for the last time.
    Close,
}

/// What is seen behind it.
enum Seen {
    /// Of an interval: the position of its last row, whether it is late, and the first interval with rows from it on.
    State(i64, Option<u64>, bool, Option<i64>),
    /// How many intervals are late.
    Late(u64),
    /// The fill list.
    Fills(&'static [Told]),
}

/// A deed, and the interval that is next to fill after it. An interval has 4,194,304 milliseconds.
type Step = (Deed, Option<i64>);

const COURSE: &[Step] = &[
    (Deed::Begin(0), None),
    (Deed::Rows(&[(0, 5_000_000), (0, 5_000_000)], 0), Some(1)),
    (Deed::Rows(&[(0, 1500), (0, 1500)], 2), Some(0)),
    (Deed::Begin(4), Some(1)),
    (Deed::Begin(4), None),
    (Deed::Rows(&[(0, 1600), (0, 1600)], 4), None),
    // an interval that isn't in flight
    (Deed::Free(-1), None),
    (Deed::Finish(1, 4), None),
    (Deed::Free(0), Some(0)),
    (Deed::Begin(6), None),
    (Deed::Settle, Some(0)),
];

/// A function, as each of these below is, so that they stand in no goal of its callers.
fn course() -> &'static [Step] {
    COURSE
}

const COURSE_SEEN: &[Seen] = &[
    Seen::State(-1, None, false, Some(0)),
    Seen::State(0, Some(5), true, Some(0)),
    Seen::State(1, Some(1), false, Some(1)),
    Seen::State(2, None, false, None),
    Seen::Late(1),
    Seen::Fills(&[
        ("begun", 0, 4, false),
        ("begun", 1, 4, false),
        ("done", 1, 4, false),
        ("freed", 0, 0, false),
        ("begun", 0, 6, false),
        ("freed", 0, 0, false),
    ]),
];

fn course_seen() -> &'static [Seen] {
    COURSE_SEEN
}

/// Rows that come at once: two runs of one interval, another interval, and a second table between.
const MIXED: &[Step] = &[(
    Deed::Rows(
        &[
            (0, 1500),
            (0, 1600),
            (1, 1700),
            (0, 1800),
            (0, 5_000_000),
            (1, 9_000_000),
            (0, 1900),
        ],
        10,
    ),
    Some(0),
)];

fn mixed() -> &'static [Step] {
    MIXED
}

const MIXED_SEEN: &[Seen] = &[
    Seen::State(-1, None, false, Some(0)),
    Seen::State(0, Some(16), true, Some(0)),
    Seen::State(1, Some(14), true, Some(1)),
    Seen::State(2, None, false, None),
];

fn mixed_seen() -> &'static [Seen] {
    MIXED_SEEN
}

/// Two flights behind a fault, and their ends.
const BEHIND_A_FAULT: &[Step] = &[
    (Deed::Rows(&[(0, 5_000_000), (0, 5_000_000)], 0), Some(1)),
    (Deed::Rows(&[(0, 1500), (0, 1500)], 2), Some(0)),
    (Deed::Fault, Some(0)),
    (Deed::Begin(4), Some(1)),
    (Deed::Begin(4), None),
    (Deed::Settle, Some(0)),
];

fn behind_a_fault() -> &'static [Step] {
    BEHIND_A_FAULT
}

const SEEN_BEHIND_A_FAULT: &[Seen] = &[Seen::Fills(&[
    ("fault", 0, 7, true),
    ("begun", 0, 4, false),
    ("begun", 1, 4, false),
    ("freed", 0, 0, false),
    ("freed", 1, 0, false),
])];

fn seen_behind_a_fault() -> &'static [Seen] {
    SEEN_BEHIND_A_FAULT
}

/// Rows by their intervals, as the runs of an archive have them, and a fill of one of them.
const PLACED: &[Step] = &[
    (Deed::Placed(3, 7), Some(3)),
    (Deed::Placed(1, 5), Some(1)),
    (Deed::Placed(3, 2), Some(1)),
    (Deed::Begin(6), Some(3)),
    (Deed::Finish(1, 6), Some(3)),
    (Deed::Placed(1, 9), Some(1)),
];

fn placed() -> &'static [Step] {
    PLACED
}

const PLACED_SEEN: &[Seen] = &[
    Seen::State(1, Some(9), true, Some(1)),
    Seen::State(2, None, false, Some(3)),
    Seen::State(3, Some(7), true, Some(3)),
    Seen::Late(2),
];

fn placed_seen() -> &'static [Seen] {
    PLACED_SEEN
}

/// A fault, and whether its failed write is noted.
const FAULT: &[Step] = &[(Deed::Fault, None)];

fn fault() -> &'static [Step] {
    FAULT
}

const NOTED: &[Seen] = &[Seen::Fills(&[("fault", 0, 7, true)])];

fn noted() -> &'static [Seen] {
    NOTED
}

/// A reopen behind it.
const REOPEN: &[Step] = &[(Deed::Fault, None), (Deed::Reopen, None)];

fn reopen() -> &'static [Step] {
    REOPEN
}

const CLEARED: &[Seen] = &[Seen::Fills(&[("fault", 0, 7, false)])];

fn cleared() -> &'static [Seen] {
    CLEARED
}

/// The last publication beside an interval in flight and a late one, the flight's end, and a row behind both.
const CLOSING: &[Step] = &[
    (Deed::Rows(&[(0, 5_000_000), (0, 1500)], 0), Some(0)),
    (Deed::Begin(2), Some(1)),
    (Deed::Close, Some(1)),
    (Deed::Finish(0, 2), Some(1)),
    (Deed::Rows(&[(0, 1600)], 2), Some(0)),
];

fn closing() -> &'static [Step] {
    CLOSING
}

const CLOSING_SEEN: &[Seen] = &[
    Seen::State(0, Some(2), true, Some(0)),
    Seen::State(1, Some(0), true, Some(1)),
    Seen::Late(2),
    Seen::Fills(&[
        ("begun", 0, 2, false),
        ("closed", 0, 0, false),
        ("done", 0, 2, false),
    ]),
];

fn closing_seen() -> &'static [Seen] {
    CLOSING_SEEN
}

/// A name, what is noted, and what is seen then.
type Case = (&'static str, &'static [Step], &'static [Seen]);

fn cases() -> [Case; 7] {
    [
        ("a row comes to a flight", course(), course_seen()),
        ("rows of two tables come at once", mixed(), mixed_seen()),
        ("rows by their intervals", placed(), placed_seen()),
        (
            "flights behind a fault end",
            behind_a_fault(),
            seen_behind_a_fault(),
        ),
        ("a fault is noted", fault(), noted()),
        ("a fault is cleared", reopen(), cleared()),
        ("the last publication", closing(), closing_seen()),
    ]
}

/// Begins a fill of the next interval, where there is one.
fn begin(tracker: &mut FillTracker, base: u64) -> Result<(), AllocError> {
    tracker.reserve_flight()?;
    if let Some(interval) = tracker.next() {
        tracker.begin(interval, base);
    }
    Ok(())
}

/// Notes that a fill is there, where its interval has rows.
fn finish(tracker: &mut FillTracker, interval: Interval, base: u64) -> Result<(), AllocError> {
    tracker.reserve()?;
    if tracker.last(interval).is_some() {
        tracker.finish(interval, base);
    }
    Ok(())
}

/// Notes rows of an interval by the greatest of their positions.
fn touch_placed(
    tracker: &mut FillTracker,
    interval: Interval,
    last: u64,
) -> Result<(), AllocError> {
    tracker.reserve_rows(1)?;
    tracker.touch_placed(interval, last);
    Ok(())
}

/// Notes a fault of a write that would have added nothing.
fn fail(tracker: &mut FillTracker) -> Result<(), AllocError> {
    tracker.reserve()?;
    tracker.note_fault(7, true, Addition::Nothing);
    Ok(())
}

/// Notes the last publication.
fn close(tracker: &mut FillTracker) -> Result<(), AllocError> {
    tracker.reserve()?;
    tracker.note_closed();
    Ok(())
}

fn play(alloc: Global, tracker: &mut FillTracker, deed: &Deed) -> Result<(), AllocError> {
    match deed {
        Deed::Rows(rows, position) => return touch(alloc, tracker, rows, *position),
        Deed::Placed(interval, last) => return touch_placed(tracker, Interval(*interval), *last),
        Deed::Begin(base) => return begin(tracker, *base),
        Deed::Finish(interval, base) => return finish(tracker, Interval(*interval), *base),
        Deed::Fault => return fail(tracker),
        Deed::Close => return close(tracker),
        Deed::Free(interval) => tracker.free(Interval(*interval)),
        Deed::Settle => tracker.settle(),
        Deed::Reopen => tracker.clear_failed_writes(),
    }
    Ok(())
}

/// The number of an interval.
fn number(interval: Option<Interval>) -> Option<i64> {
    match interval {
        Some(interval) => Some(interval.0),
        None => None,
    }
}

/// The place of the first step behind which another interval is next.
fn other_next(
    alloc: Global,
    tracker: &mut FillTracker,
    steps: &[Step],
) -> Result<Option<usize>, AllocError> {
    let mut place = 0usize;
    for (deed, next) in steps {
        play(alloc, tracker, deed)?;
        if number(tracker.next()) != *next {
            return Ok(Some(place));
        }
        place = place.saturating_add(1);
    }
    Ok(None)
}

fn is_state(
    tracker: &FillTracker,
    interval: Interval,
    last: Option<u64>,
    late: bool,
    next: Option<i64>,
) -> bool {
    tracker.last(interval) == last
        && tracker.is_late(interval) == late
        && number(tracker.next_touched(interval)) == next
}

fn is_seen(tracker: &FillTracker, seen: &Seen) -> bool {
    match seen {
        Seen::State(interval, last, late, next) => {
            is_state(tracker, Interval(*interval), *last, *late, *next)
        }
        Seen::Late(count) => tracker.late() == *count,
        Seen::Fills(want) => are_told(tracker.as_slice(), want),
    }
}

/// The place of the first of these that isn't seen.
fn other_seen(tracker: &FillTracker, all: &[Seen]) -> Option<usize> {
    let mut place = 0usize;
    for seen in all {
        if !is_seen(tracker, seen) {
            return Some(place);
        }
        place = place.saturating_add(1);
    }
    None
}

/// The place of the first step behind which another interval is next; past the steps it is that of something not seen.
fn other_behind(
    alloc: Global,
    tracker: &mut FillTracker,
    steps: &[Step],
    seen: &[Seen],
) -> Result<Option<usize>, AllocError> {
    if let Some(place) = other_next(alloc, tracker, steps)? {
        return Ok(Some(place));
    }
    match other_seen(tracker, seen) {
        Some(place) => Ok(Some(steps.len().saturating_add(place))),
        None => Ok(None),
    }
}

/// The same of a new tracker.
fn other_of(alloc: Global, steps: &[Step], seen: &[Seen]) -> Result<Option<usize>, AllocError> {
    let mut tracker = FillTracker::new(alloc);
    other_behind(alloc, &mut tracker, steps, seen)
}

fn other_case(alloc: Global, cases: &[Case]) -> Result<Option<(&'static str, usize)>, AllocError> {
    for (name, steps, seen) in cases {
        if let Some(place) = other_of(alloc, steps, seen)? {
            return Ok(Some((*name, place)));
        }
    }
    Ok(None)
}

#[test]
fn rows_flights_and_faults(rt: HostRuntime) -> Result<(), Fail> {
    none_other(other_case(rt.alloc(), &cases())?)
}
