//! What no clause says: that calls succeed where memory is ample, and a worked course of rows and fills.

use crate::parts::none_other;
use intervals::Interval;
use late_marks::marks::LateMarks;
use std::test::Fail;

/// What is noted, or asked with its answer. Intervals by their numbers.
enum Step {
    /// A row of an interval, at a position.
    Row(i64, u64),
    /// Rows of an interval, with the greatest of their positions.
    Placed(i64, u64),
    /// A fill from a base on, and the interval that it is of.
    Fill(u64, Option<i64>),
    /// The interval that would be filled next.
    LeastFree(Option<i64>),
    /// Of an interval: the last row, the base, and whether it is late.
    Mark(i64, Option<u64>, Option<u64>, bool),
    /// The first interval with rows from one on.
    NextTouched(i64, Option<i64>),
    /// How many intervals are late.
    Late(u64),
    /// The intervals with rows.
    Intervals(&'static [i64]),
}

const ROWS: &[Step] = &[
    Step::LeastFree(None),
    Step::NextTouched(-9, None),
    Step::Row(0, 0),
    Step::Row(7, 1),
    Step::Row(-3, 2),
    Step::Row(7, 4),
    Step::Row(7, 3),
    Step::Mark(7, Some(4), None, true),
    Step::Mark(1, None, None, false),
    Step::NextTouched(1, Some(7)),
    Step::NextTouched(-3, Some(-3)),
    Step::Late(3),
];

/// A function, as that below is, so that they stand in no goal of its callers.
fn rows() -> &'static [Step] {
    ROWS
}

/// Fills behind those rows, and a row behind the first of them.
const FILLS: &[Step] = &[
    Step::Fill(5, Some(-3)),
    Step::Mark(-3, Some(2), Some(5), false),
    Step::Late(2),
    Step::Intervals(&[-3, 0, 7]),
    Step::Row(-3, 5),
    Step::Mark(-3, Some(5), Some(5), true),
    Step::LeastFree(Some(-3)),
    Step::Fill(6, Some(-3)),
    Step::Fill(6, Some(0)),
    Step::Fill(6, Some(7)),
    Step::Fill(6, None),
];

fn fills() -> &'static [Step] {
    FILLS
}

/// Many rows at once: of an interval without any, of one with later rows, and of one that was filled.
const PLACED: &[Step] = &[
    Step::Placed(5, 30),
    Step::Placed(5, 20),
    Step::Placed(-3, 40),
    Step::Mark(5, Some(30), None, true),
    Step::Mark(-3, Some(40), Some(6), true),
    Step::Late(2),
    Step::LeastFree(Some(-3)),
];

fn placed() -> &'static [Step] {
    PLACED
}

/// Notes a row, with room made for it.
fn touch(marks: &mut LateMarks, interval: i64, position: u64) -> bool {
    if marks.reserve(1).is_err() {
        return false;
    }
    marks.touch(Interval(interval), position);
    true
}

/// Notes rows, with room made for their interval.
fn touch_placed(marks: &mut LateMarks, interval: i64, last: u64) -> bool {
    if marks.reserve(1).is_err() {
        return false;
    }
    marks.touch_placed(Interval(interval), last);
    true
}

/// Fills the least interval that is late and free.
fn fill(marks: &mut LateMarks, base: u64) -> Option<i64> {
    let interval = marks.least_late_free()?;
    marks.take(interval);
    marks.filled(interval, base);
    marks.free(interval);
    Some(interval.0)
}

/// The last row, the base, and whether it is late.
fn mark(marks: &LateMarks, interval: Interval) -> (Option<u64>, Option<u64>, bool) {
    (
        marks.last(interval),
        marks.base(interval),
        marks.is_late(interval),
    )
}

/// The number of an interval.
fn number(interval: Option<Interval>) -> Option<i64> {
    match interval {
        Some(interval) => Some(interval.0),
        None => None,
    }
}

fn are_intervals(marks: &LateMarks, want: &[i64]) -> bool {
    let mut entries = marks.iter();
    for want in want {
        match entries.next() {
            Some(entry) if entry.0.0 == *want => {}
            _ => return false,
        }
    }
    entries.next().is_none()
}

/// Whether a step goes as it says.
fn holds(marks: &mut LateMarks, step: &Step) -> bool {
    match step {
        Step::Row(interval, position) => touch(marks, *interval, *position),
        Step::Placed(interval, last) => touch_placed(marks, *interval, *last),
        Step::Fill(base, want) => fill(marks, *base) == *want,
        Step::LeastFree(want) => number(marks.least_late_free()) == *want,
        Step::Mark(interval, last, base, late) => {
            mark(marks, Interval(*interval)) == (*last, *base, *late)
        }
        Step::NextTouched(from, want) => number(marks.next_touched(Interval(*from))) == *want,
        Step::Late(count) => marks.late() == *count,
        Step::Intervals(want) => are_intervals(marks, want),
    }
}

/// The place of the first step that goes otherwise.
fn other_step(marks: &mut LateMarks, steps: &[Step]) -> Option<usize> {
    let mut place = 0usize;
    for step in steps {
        if !holds(marks, step) {
            return Some(place);
        }
        place = place.saturating_add(1);
    }
    None
}

fn other_of(marks: &mut LateMarks) -> Option<(&'static str, usize)> {
    if let Some(place) = other_step(marks, rows()) {
        return Some(("rows", place));
    }
    if let Some(place) = other_step(marks, fills()) {
        return Some(("fills", place));
    }
    match other_step(marks, placed()) {
        Some(place) => Some(("many rows at once", place)),
        None => None,
    }
}

#[test]
fn rows_and_fills(rt: HostRuntime) -> Result<(), Fail> {
    let mut marks = LateMarks::new(rt.alloc());
    none_other(other_of(&mut marks))
}
