//! Replays over a source in memory, at their edges. A day has 86,400,000 ms, and the last of the packets is of the fourth day.

use crate::ends::none_other;
use crate::mem_source::MemSource;
use crate::packets::{Packet, source_of};
use arch_types::name::Name;
use arch_types::octets::Octets;
use arch_types::row::{Row, Rows};
use arch_types::row_fault::RowFault;
use asks::ReplayRequest;
use partitions::lists::{PartList, PnameList};
use partitions::partition::Partition;
use replay_merge::cursor::Cursor;
use std::alloc::{AllocError, Global};
use std::test::Fail;

const PACKETS: &[Packet] = &[
    (0, 5, 1, 1),
    (0, 86_399_999, 2, 2),
    (0, 86_400_000, 1, 3),
    (0, 86_400_007, 2, 4),
    // the key of the first row, in another table
    (1, 5, 1, 1),
    (0, 259_200_000, 3, 6),
    (0, 86_400_002, 2, 7),
    (0, 2, 2, 8),
    (0, 86_400_007, 1, 9),
];

/// All partitions of table 0, not in order, one of them twice, and one that has no row.
const PARTS: &[(i64, u16)] = &[
    (3, 3),
    (0, 1),
    (1, 2),
    (1, 2),
    (0, 2),
    (1, 1),
    (2, 1),
    (5, 1),
];

// They stand behind functions, as the asks below, so that they stand in no goal of their callers.
fn packets() -> &'static [Packet] {
    PACKETS
}

fn days_and_names() -> &'static [(i64, u16)] {
    PARTS
}

fn parts(alloc: Global) -> Result<PartList, AllocError> {
    let mut parts = PartList::new(alloc);
    for (day, pname) in days_and_names() {
        parts.push(Partition {
            day: *day,
            pname: *pname,
        })?;
    }
    Ok(parts)
}

/// What is asked: a range, packet names, a limit, a front.
type Ask = (i64, i64, Option<&'static [u16]>, Option<u64>, u64);

/// The request of a range and a limit.
fn request(alloc: Global, from: i64, to: i64, limit: Option<u64>) -> Option<ReplayRequest> {
    let Ok(name) = Octets::from_slice(alloc, b"tm") else {
        return None;
    };
    match Name::of(name) {
        Some(table) => Some(ReplayRequest {
            table,
            from,
            to,
            names: None,
            limit,
        }),
        None => None,
    }
}

fn pnames(alloc: Global, names: Option<&'static [u16]>) -> Result<Option<PnameList>, AllocError> {
    match names {
        Some(names) => Ok(Some(PnameList::from_vec(Vec::from_slice(alloc, names)?))),
        None => Ok(None),
    }
}

/// The replay of a request.
fn opened_for(
    alloc: Global,
    request: &ReplayRequest,
    names: Option<&'static [u16]>,
    front: u64,
) -> Result<Cursor, AllocError> {
    let names = pnames(alloc, names)?;
    let parts = parts(alloc)?;
    Ok(Cursor::open(request, 0, front, parts, names))
}

/// The replay that is asked for.
fn opened(alloc: Global, ask: &Ask) -> Option<Cursor> {
    let (from, to, names, limit, front) = *ask;
    match request(alloc, from, to, limit) {
        Some(request) => opened_for(alloc, &request, names, front).ok(),
        None => None,
    }
}

/// A step of a replay. Each is made here, so that its clauses stand in no other goal.
fn step(
    alloc: Global,
    cursor: &mut Cursor,
    source: &mut MemSource,
    limit: u64,
) -> Result<Rows, RowFault> {
    cursor.next(alloc, source, limit)
}

/// Adds the counts of the packets of rows.
fn add_counts(counts: &mut Vec<u8>, rows: &[Row]) -> Result<(), AllocError> {
    for row in rows {
        counts.push((row.key.seq & 0xff) as u8)?;
    }
    Ok(())
}

/// Adds the counts of the packets that a step gives; tells whether there were any.
fn add_step(
    alloc: Global,
    counts: &mut Vec<u8>,
    cursor: &mut Cursor,
    source: &mut MemSource,
    limit: u64,
) -> Result<bool, RowFault> {
    let rows = step(alloc, cursor, source, limit)?;
    add_counts(counts, rows.as_slice())?;
    Ok(rows.len() > 0)
}

/// Adds the counts of the packets that steps with a limit give, until one gives none. Whether none was refused.
fn add_steps(
    alloc: Global,
    counts: &mut Vec<u8>,
    cursor: &mut Cursor,
    source: &mut MemSource,
    limit: u64,
) -> bool {
    for _ in 0..20 {
        match add_step(alloc, counts, cursor, source, limit) {
            Ok(true) => {}
            Ok(false) => return true,
            Err(_) => return false,
        }
    }
    true
}

/// Whether the packets that steps with a limit give have these counts.
fn replays(
    alloc: Global,
    cursor: &mut Cursor,
    source: &mut MemSource,
    limit: u64,
    want: &[u8],
) -> bool {
    let mut counts = Vec::new(alloc);
    add_steps(alloc, &mut counts, cursor, source, limit) && counts.as_slice() == want
}

/// Asks, and the counts of the packets of their replays.
const ASKS: &[(Ask, &[u8])] = &[
    ((0, 777_600_000, None, None, 9), &[8, 1, 2, 3, 7, 4, 9, 6]),
    (
        (i64::MIN, i64::MAX, None, None, 9),
        &[8, 1, 2, 3, 7, 4, 9, 6],
    ),
    ((i64::MIN, i64::MIN, None, None, 9), &[]),
    // a range that ends on a day's first millisecond, and one millisecond later
    ((0, 86_400_000, None, None, 9), &[8, 1, 2]),
    ((0, 86_400_001, None, None, 9), &[8, 1, 2, 3]),
    // from inside a day, and to inside one
    ((5, 86_400_003, None, None, 9), &[1, 2, 3, 7]),
    ((86_400_000, 86_400_000, None, None, 9), &[]),
    // inside a day of two names: both, one, and the other below a front in the middle
    ((86_400_000, 86_400_007, None, None, 9), &[3, 7]),
    ((86_400_000, 86_400_008, Some(&[1]), None, 9), &[3, 9]),
    ((86_400_000, 86_400_008, Some(&[2]), None, 6), &[4]),
    // names given twice, unknown, none, and one with rows on one day only
    (
        (0, 777_600_000, Some(&[2, 1, 2]), None, 9),
        &[8, 1, 2, 3, 7, 4, 9],
    ),
    ((0, 777_600_000, Some(&[77]), None, 9), &[]),
    ((0, 777_600_000, Some(&[]), None, 9), &[]),
    ((0, 777_600_000, Some(&[77, 3]), None, 9), &[6]),
    // a limit, inside a day and behind all
    ((0, 777_600_000, None, Some(0), 9), &[]),
    ((0, 777_600_000, None, Some(5), 9), &[8, 1, 2, 3, 7]),
    (
        (0, 777_600_000, None, Some(100), 9),
        &[8, 1, 2, 3, 7, 4, 9, 6],
    ),
    // a front in the middle, and before the first row
    ((0, 777_600_000, None, None, 7), &[1, 2, 3, 7, 4, 6]),
    ((0, 777_600_000, None, None, 0), &[]),
];

fn asks() -> &'static [(Ask, &'static [u8])] {
    ASKS
}

/// Whether a replay by steps of at most so many rows gives these packets.
fn gives(alloc: Global, source: &mut MemSource, ask: &Ask, limit: u64, want: &[u8]) -> bool {
    match opened(alloc, ask) {
        Some(mut cursor) => replays(alloc, &mut cursor, source, limit, want),
        None => false,
    }
}

/// Whether replays by steps of 1, 2, 3 and 100 rows give these packets.
fn all_give(alloc: Global, source: &mut MemSource, ask: &Ask, want: &[u8]) -> bool {
    for limit in [1, 2, 3, 100] {
        if !gives(alloc, source, ask, limit, want) {
            return false;
        }
    }
    true
}

/// The place of the first ask whose replays give others.
fn other_ask(alloc: Global, source: &mut MemSource, asks: &[(Ask, &[u8])]) -> Option<usize> {
    let mut place = 0usize;
    for (ask, want) in asks {
        if !all_give(alloc, source, ask, want) {
            return Some(place);
        }
        place = place.saturating_add(1);
    }
    None
}

/// The same over a source of the packets.
fn other_replay(alloc: Global) -> Option<usize> {
    match source_of(alloc, true, packets()) {
        Some(mut source) => other_ask(alloc, &mut source, asks()),
        None => Some(0),
    }
}

#[test]
fn replays_are_what_was_asked(rt: HostRuntime) -> Result<(), Fail> {
    none_other(other_replay(rt.alloc()))
}

/// Whether a step gives so many rows.
fn gives_rows(
    alloc: Global,
    cursor: &mut Cursor,
    source: &mut MemSource,
    limit: u64,
    want: usize,
) -> bool {
    match step(alloc, cursor, source, limit) {
        Ok(rows) => rows.len() == want,
        Err(_) => false,
    }
}

/// Whether a step is refused as a source is that tells its rows, or as one that doesn't.
fn is_refused(alloc: Global, cursor: &mut Cursor, source: &mut MemSource, is_known: bool) -> bool {
    match step(alloc, cursor, source, 100) {
        Err(RowFault::DiskFault) => is_known,
        Err(RowFault::Damaged { file: 0, at: 0 }) => !is_known,
        _ => false,
    }
}

/// A limit of 0 moves nothing, and so asks nothing of a source that would fail.
fn moves_nothing(alloc: Global, cursor: &mut Cursor, source: &mut MemSource) -> bool {
    source.fail_after(0);
    let is_none = gives_rows(alloc, cursor, source, 0, 0);
    source.fail_after(100);
    is_none && replays(alloc, cursor, source, 3, &[8, 1, 2, 3, 7, 4, 9, 6])
}

/// A step whose second partition can't be read is refused, and the same step made again gives the packets behind the first day's.
fn is_made_again(
    alloc: Global,
    cursor: &mut Cursor,
    source: &mut MemSource,
    is_known: bool,
) -> bool {
    let is_day = gives_rows(alloc, cursor, source, 100, 3);
    source.fail_after(1);
    let is_refused = is_refused(alloc, cursor, source, is_known);
    is_day && is_refused && replays(alloc, cursor, source, 2, &[3, 7, 4, 9, 6])
}

/// Whether a packet of this count is a new row, or is none.
fn is_new(alloc: Global, source: &mut MemSource, time: i64, count: u8, want: bool) -> bool {
    match source.add(alloc, 0, 1, time, &[0, 1, 0xc0, count, 0, 0, 0]) {
        Ok(found) => found == want,
        Err(_) => false,
    }
}

/// Rows that come while a replay goes on aren't given, nor those that come once it is at its end.
fn gives_no_later(alloc: Global, cursor: &mut Cursor, source: &mut MemSource) -> bool {
    let is_one = gives_rows(alloc, cursor, source, 1, 1);
    let is_later = is_new(alloc, source, 259_200_001, 10, true);
    let is_again = is_new(alloc, source, 5, 1, false);
    let is_rest = replays(alloc, cursor, source, 100, &[1, 2, 3, 7, 4, 9, 6]);
    let is_last = is_new(alloc, source, 345_600_000, 11, true);
    let is_end = gives_rows(alloc, cursor, source, 100, 0);
    is_one && is_later && is_again && is_rest && is_last && is_end
}

/// What a replay of everything goes through.
enum Course {
    LimitOf0,
    RefusedStep,
    LaterRows,
}

/// A course by its name, and whether the source tells its rows.
type CourseCase = (&'static str, bool, Course);

const COURSES: &[CourseCase] = &[
    ("a limit of 0 moves nothing", false, Course::LimitOf0),
    (
        "a refused step is made again over a source that tells its rows",
        true,
        Course::RefusedStep,
    ),
    (
        "a refused step is made again over a source that doesn't",
        false,
        Course::RefusedStep,
    ),
    (
        "rows that come later are not given",
        true,
        Course::LaterRows,
    ),
];

fn courses() -> &'static [CourseCase] {
    COURSES
}

/// Whether a replay goes so.
fn goes(
    alloc: Global,
    cursor: &mut Cursor,
    source: &mut MemSource,
    is_known: bool,
    course: &Course,
) -> bool {
    match course {
        Course::LimitOf0 => moves_nothing(alloc, cursor, source),
        Course::RefusedStep => is_made_again(alloc, cursor, source, is_known),
        Course::LaterRows => gives_no_later(alloc, cursor, source),
    }
}

/// Whether a replay of everything goes so.
fn all_goes(alloc: Global, source: &mut MemSource, is_known: bool, course: &Course) -> bool {
    match opened(alloc, &(0, 777_600_000, None, None, 9)) {
        Some(mut cursor) => goes(alloc, &mut cursor, source, is_known, course),
        None => false,
    }
}

/// The same over a source of the packets.
fn is_so(alloc: Global, is_known: bool, course: &Course) -> bool {
    match source_of(alloc, is_known, packets()) {
        Some(mut source) => all_goes(alloc, &mut source, is_known, course),
        None => false,
    }
}

/// The first course that goes otherwise.
fn other_course(alloc: Global, courses: &[CourseCase]) -> Option<&'static str> {
    for (name, is_known, course) in courses {
        if !is_so(alloc, *is_known, course) {
            return Some(*name);
        }
    }
    None
}

#[test]
fn courses_of_replays(rt: HostRuntime) -> Result<(), Fail> {
    none_other(other_course(rt.alloc(), courses()))
}
