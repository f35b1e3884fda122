//! One run of all events.

use crate::archive_core_texts::reply_text;
use crate::given::none_other;
use arch_types::direction::Direction;
use arch_types::key::Key;
use arch_types::name::{Name, Names};
use arch_types::octets::Octets;
use arch_types::row::{Row, Rows};
use archive_core::{Core, Event, Reply};
use asks::{ReplayRequest, Request};
use intervals::{Exponent, Interval};
use mdb_model::Mdb;
use std::alloc::{AllocError, Global};
use std::test::*;

/// The parameters `apid` (uint of 11 bits) and `v` (uint of 8 bits), and the container `HDR`, which has them at the bits 5 and 96.
const MDB: &[u8] =
    b"\x00\x02\x04apid\x00\x0B\x00\x00\x01v\x00\x08\x00\x00\x00\x00\x00\x01\x03HDR\x00\x00\x00\x00\x00\x02\x00\x00\x00\x00\x00\x05\x00\x01\x00\x00\x00\x60";

/// A row: its table, its time in milliseconds, its number, its value of `v`, and its packet name.
type RowFields = (u8, i64, u32, u8, u16);

/// What a caller does.
#[derive(Clone, Copy, Drop)]
enum Deed {
    Ingest(&'static [RowFields]),
    Begin,
    Install(i64, u64),
    Abandon(i64),
    /// The values of a parameter with `from <= time < to`, in a direction, and at most so many.
    Values(&'static [u8], i64, i64, Direction, Option<u64>),
    /// The rows of a table with `from <= time < to`, of a packet name or of all, and at most so many.
    Replay(&'static [u8], i64, i64, Option<&'static [u8]>, Option<u64>),
}

/// A deed and its reply.
type Turn = (Deed, &'static str);

/// One run. An interval has 4,194,304 milliseconds. The rows were all received much later than their times.
const RUN: &[Turn] = &[
    (Deed::Begin, "no task"),
    (
        Deed::Values(b"v", 0, 2000, Direction::Ascending, None),
        "values 0:",
    ),
    (Deed::Ingest(&[(0, 1500, 10, 42, 0)]), "ingested +0"),
    // a key that is there, the same key in another table, and a key that comes twice in one batch
    (
        Deed::Ingest(&[
            (0, 1500, 10, 43, 0),
            (1, 1500, 10, 44, 0),
            (0, 1500, 11, 7, 1),
            (0, 1500, 11, 8, 0),
        ]),
        "ingested 0 +1 +2 2",
    ),
    (Deed::Ingest(&[]), "ingested"),
    (
        Deed::Values(b"v", 0, 2000, Direction::Ascending, None),
        "values 3: 42 7",
    ),
    (
        Deed::Values(b"v", 0, 2000, Direction::Descending, Some(1)),
        "values 3: 7",
    ),
    (
        Deed::Values(b"v", 0, 1500, Direction::Ascending, None),
        "values 3:",
    ),
    (Deed::Begin, "task 0 3: 1500/10 1500/11"),
    (Deed::Begin, "no task"),
    // a row comes to the interval in flight, and one to another
    (
        Deed::Ingest(&[(0, 5_000_000, 1, 9, 0), (0, 1400, 12, 5, 0)]),
        "ingested +3 +4",
    ),
    (Deed::Install(0, 3), "stale 4"),
    (Deed::Begin, "task 0 5: 1400/12 1500/10 1500/11"),
    (Deed::Begin, "task 1 5: 5000000/1"),
    (Deed::Begin, "no task"),
    (Deed::Abandon(1), "abandoned"),
    (Deed::Install(0, 5), "done"),
    (Deed::Begin, "task 1 5: 5000000/1"),
    // bases that no fill of interval 1 may have: no row stands below one, the other is above the length
    (Deed::Install(1, 3), "void"),
    (Deed::Install(1, 6), "void"),
    (Deed::Install(1, 4), "done"),
    (Deed::Begin, "no task"),
    (Deed::Abandon(7), "abandoned"),
    (
        Deed::Values(b"v", 0, 9_000_000, Direction::Descending, None),
        "values 5: 9 7 42 5",
    ),
    (
        Deed::Replay(b"tm", 0, 2000, None, None),
        "rows 5: 1400/12 1500/10 1500/11",
    ),
    (
        Deed::Replay(b"tm", 0, 2000, Some(b"HDR"), Some(1)),
        "rows 5: 1400/12",
    ),
    (Deed::Replay(b"tm", 0, 2000, Some(b"zz"), None), "rows 5:"),
    (Deed::Replay(b"hk", 0, 2000, None, None), "rows 5: 1500/10"),
    (Deed::Replay(b"zz", 5, 4, None, None), "unknown table"),
    (Deed::Replay(b"hk", 5, 4, None, None), "bad range 5 4"),
    (
        Deed::Values(b"zz", 5, 4, Direction::Ascending, None),
        "unknown parameter",
    ),
    (
        Deed::Values(b"v", 5, 4, Direction::Ascending, None),
        "bad range 5 4",
    ),
    // the first row behind the base of an interval's last fill
    (Deed::Ingest(&[(0, 1300, 13, 6, 0)]), "ingested +5"),
    (Deed::Begin, "task 0 6: 1300/13 1400/12 1500/10 1500/11"),
];

/// A function, so that the run stands in no goal of its callers.
fn run_of_all_events() -> &'static [Turn] {
    RUN
}

fn name(alloc: Global, octets: &[u8]) -> Option<Name> {
    match Octets::from_slice(alloc, octets) {
        Ok(octets) => Name::of(octets),
        Err(_) => None,
    }
}

fn row(alloc: Global, fields: &RowFields) -> Result<Row, AllocError> {
    let (table, time, seq, value, pname) = *fields;
    Ok(Row {
        key: Key { time, seq },
        rectime: 9_000_000_000,
        packet: Octets::from_slice(alloc, &[8, 100, 192, 0, 0, 6, 0, 0, 0, 1, 128, 0, value])?,
        link: 1,
        pname,
        table,
    })
}

fn rows(alloc: Global, fields: &[RowFields]) -> Result<Rows, AllocError> {
    let mut rows = Rows::new(alloc);
    for one in fields {
        rows.push(row(alloc, one)?)?;
    }
    Ok(rows)
}

fn names(alloc: Global, all: &[&[u8]]) -> Option<Names> {
    let mut names = Names::new(alloc);
    for octets in all {
        names.push(name(alloc, octets)?).ok()?;
    }
    Some(names)
}

fn ingest(alloc: Global, caller: u32, fields: &[RowFields]) -> Option<Event> {
    match rows(alloc, fields) {
        Ok(rows) => Some(Event::Ingest { caller, rows }),
        Err(_) => None,
    }
}

/// A question for the values of a parameter, but for the parameter.
type Bounds = (i64, i64, Direction, Option<u64>);

fn retrieve(alloc: Global, caller: u32, parameter: &[u8], bounds: Bounds) -> Option<Event> {
    let parameter = name(alloc, parameter)?;
    let (from, to, direction, limit) = bounds;
    let request = Request {
        parameter,
        from,
        to,
        direction,
        limit,
    };
    Some(Event::Retrieve { caller, request })
}

/// The names that a replay asks for, where it asks for some.
fn asked(alloc: Global, pname: Option<&[u8]>) -> Option<Option<Names>> {
    match pname {
        None => Some(None),
        Some(pname) => match names(alloc, &[pname]) {
            Some(names) => Some(Some(names)),
            None => None,
        },
    }
}

fn replay(
    alloc: Global,
    caller: u32,
    table: &[u8],
    range: (i64, i64),
    pname: Option<&[u8]>,
    limit: Option<u64>,
) -> Option<Event> {
    let table = name(alloc, table)?;
    let names = asked(alloc, pname)?;
    let (from, to) = range;
    let request = ReplayRequest {
        table,
        from,
        to,
        names,
        limit,
    };
    Some(Event::Replay { caller, request })
}

/// The event of a deed, where memory is left for it.
fn event(alloc: Global, caller: u32, deed: &Deed) -> Option<Event> {
    match *deed {
        Deed::Ingest(fields) => ingest(alloc, caller, fields),
        Deed::Begin => Some(Event::Begin { caller }),
        Deed::Install(interval, base) => Some(Event::Install {
            caller,
            interval: Interval(interval),
            base,
        }),
        Deed::Abandon(interval) => Some(Event::Abandon {
            caller,
            interval: Interval(interval),
        }),
        Deed::Values(parameter, from, to, direction, limit) => {
            retrieve(alloc, caller, parameter, (from, to, direction, limit))
        }
        Deed::Replay(table, from, to, pname, limit) => {
            replay(alloc, caller, table, (from, to), pname, limit)
        }
    }
}

/// A machine with the tables `tm` and `hk`.
fn machine(alloc: Global) -> Option<Core> {
    let tables = names(alloc, &[b"tm", b"hk"])?;
    match Mdb::from_bytes(alloc, MDB) {
        Ok(mdb) => Some(Core::new(alloc, tables, mdb, Exponent::of_format_1())),
        Err(_) => None,
    }
}

/// Whether a reply is so in words.
fn is_reply(alloc: Global, reply: &Reply, wanted: &str) -> bool {
    match reply_text(alloc, reply) {
        Ok(text) => text.as_str() == wanted,
        Err(_) => false,
    }
}

/// Whether a machine gives an event this reply.
fn replies(alloc: Global, core: &mut Core, event: &Event, wanted: &str) -> bool {
    match core.step(alloc, event) {
        Ok(reply) => is_reply(alloc, &reply, wanted),
        Err(_) => false,
    }
}

/// Whether a machine gives the event of a deed its reply.
fn is_turn(alloc: Global, core: &mut Core, caller: u32, turn: &Turn) -> bool {
    let (deed, wanted) = turn;
    match event(alloc, caller, deed) {
        Some(event) => replies(alloc, core, &event, wanted),
        None => false,
    }
}

/// The place of the first turn with another reply, step by step.
fn other_turn(alloc: Global, core: &mut Core, run: &[Turn]) -> Option<u32> {
    let mut place = 0u32;
    for turn in run {
        if !is_turn(alloc, core, place, turn) {
            return Some(place);
        }
        place = place.saturating_add(1);
    }
    None
}

/// The same, and the numbers of rows and of fills afterwards.
fn steps_of(alloc: Global, core: &mut Core) -> (Option<u32>, (usize, usize)) {
    let other = other_turn(alloc, core, run_of_all_events());
    (other, (core.rows().len(), core.fills().len()))
}

fn step_by_step(alloc: Global, machine: Option<Core>) -> (Option<u32>, (usize, usize)) {
    match machine {
        Some(mut core) => steps_of(alloc, &mut core),
        None => (Some(0), (0, 0)),
    }
}

#[test]
fn each_event_has_its_reply(rt: HostRuntime) -> Result<(), Fail> {
    let (other, lengths) = step_by_step(rt.alloc(), machine(rt.alloc()));
    assert!(rt; lengths == (6, 9));
    none_other(other)
}

/// The events of turns.
fn events_of(alloc: Global, run: &[Turn]) -> Option<Vec<Event>> {
    let mut events = Vec::new(alloc);
    for (deed, _) in run {
        events.push(event(alloc, 0, deed)?).ok()?;
    }
    Some(events)
}

/// The place of the first of some replies that isn't the turn's; or their number, where that is another than the turns'.
fn other_reply(alloc: Global, replies: &[Reply], run: &[Turn]) -> Option<usize> {
    let mut place = 0usize;
    for (reply, (_, wanted)) in replies.iter().zip(run) {
        if !is_reply(alloc, reply, wanted) {
            return Some(place);
        }
        place = place.saturating_add(1);
    }
    if replies.len() == run.len() {
        None
    } else {
        Some(replies.len())
    }
}

/// The place of the first turn with another reply, where a machine takes all events at once.
fn at_once(alloc: Global, core: &mut Core, events: &[Event]) -> Option<usize> {
    match core.run(alloc, events) {
        Ok(replies) => other_reply(alloc, replies.as_slice(), run_of_all_events()),
        Err(_) => Some(0),
    }
}

fn all_at_once(alloc: Global, machine: Option<Core>, events: Option<Vec<Event>>) -> Option<usize> {
    match (machine, events) {
        (Some(mut core), Some(events)) => at_once(alloc, &mut core, events.as_slice()),
        _ => Some(0),
    }
}

#[test]
fn a_run_has_the_same_replies(rt: HostRuntime) -> Result<(), Fail> {
    let events = events_of(rt.alloc(), run_of_all_events());
    none_other(all_at_once(rt.alloc(), machine(rt.alloc()), events))
}
