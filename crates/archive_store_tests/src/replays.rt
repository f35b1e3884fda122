// What replays give: packets of a table in a range, in the order of their keys, as they stood when the replay was opened.
use crate::parts::{Incoming, name, text_of};
use crate::steps::{Step, are_first, becomes};
use arch_disk::Disk;
use arch_types::inserted::Inserted;
use arch_types::name::Names;
use archive_store::{Store, refusal_of_ask};
use asks::ReplayRequest;
use partitions::bounds::Bounds;
use replay_merge::cursor::Cursor;
use std::alloc::Global;

/// A table, a range, packet names where not all are asked for, and how many rows at most.
pub type Asked = (
    &'static [u8],
    i64,
    i64,
    Option<&'static [&'static [u8]]>,
    Option<u64>,
);

/// The names of these octets.
fn names_of(alloc: Global, octets: &[&[u8]]) -> Option<Names> {
    let mut names = Names::new(alloc);
    for one in octets {
        let Ok(()) = names.push(name(alloc, one)?) else {
            return None;
        };
    }
    Some(names)
}

fn replay_request(alloc: Global, asked: &Asked) -> Option<ReplayRequest> {
    let (table, from, to, names, limit) = *asked;
    let names = match names {
        Some(names) => Some(names_of(alloc, names)?),
        None => None,
    };
    Some(ReplayRequest {
        table: name(alloc, table)?,
        from,
        to,
        names,
        limit,
    })
}

/// The cursor of a replay, or why there is none.
fn opened_replay<D: Disk>(
    alloc: Global,
    store: &mut Store<D>,
    asked: &Asked,
) -> Result<Cursor, &'static str> {
    let Some(request) = replay_request(alloc, asked) else {
        return Err("no request");
    };
    let found = match store.find_replay(request) {
        Ok(found) => found,
        Err(refusal) => return Err(text_of(&refusal_of_ask(refusal))),
    };
    match store.replay_open(alloc, &found) {
        Ok(cursor) => Ok(cursor),
        Err(_) => Err("no memory"),
    }
}

/// What the opening of a replay answers.
pub(crate) fn replay_answer<D: Disk>(
    alloc: Global,
    store: &mut Store<D>,
    asked: &Asked,
) -> &'static str {
    match opened_replay(alloc, store, asked) {
        Ok(_cursor) => "a replay",
        Err(why) => why,
    }
}

/// How many rows a step of at most so many gives, where they are the first of these packets.
fn step_of<D: Disk>(
    alloc: Global,
    store: &mut Store<D>,
    cursor: &mut Cursor,
    limit: u64,
    packets: &[u64],
) -> Option<usize> {
    match store.replay_step(alloc, cursor, limit) {
        Ok(rows) => {
            if are_first(rows.as_slice(), packets) {
                Some(rows.len())
            } else {
                None
            }
        }
        Err(_) => None,
    }
}

/// Whether steps of at most so many give these packets, until one gives none.
fn gives_rest<D: Disk>(
    alloc: Global,
    store: &mut Store<D>,
    cursor: &mut Cursor,
    limit: u64,
    packets: &[u64],
) -> bool {
    let mut left = packets;
    for _ in 0..20 {
        match step_of(alloc, store, cursor, limit, left) {
            None => return false,
            Some(0) => break,
            Some(count) => left = left.get(count..).unwrap_or(&[]),
        }
    }
    left.is_empty()
}

/// Whether a replay gives these packets.
pub(crate) fn gives<D: Disk>(
    alloc: Global,
    store: &mut Store<D>,
    asked: &Asked,
    limit: u64,
    packets: &[u64],
) -> bool {
    match opened_replay(alloc, store, asked) {
        Ok(mut cursor) => gives_rest(alloc, store, &mut cursor, limit, packets),
        Err(_) => false,
    }
}

/// Whether a step of at most two rows gives some packets, and the steps after packets came the others.
fn goes_on_across<D: Disk>(
    alloc: Global,
    store: &mut Store<D>,
    cursor: &mut Cursor,
    first: &[u64],
    incoming: &Incoming,
    outcomes: &[Inserted],
    others: &[u64],
) -> bool {
    step_of(alloc, store, cursor, 2, first) == Some(first.len())
        && becomes(alloc, store, incoming, outcomes)
        && gives_rest(alloc, store, cursor, 2, others)
}

/// The same of a replay that is opened.
pub(crate) fn gives_across<D: Disk>(
    alloc: Global,
    store: &mut Store<D>,
    asked: &Asked,
    first: &[u64],
    incoming: &Incoming,
    outcomes: &[Inserted],
    others: &[u64],
) -> bool {
    match opened_replay(alloc, store, asked) {
        Ok(mut cursor) => goes_on_across(
            alloc,
            store,
            &mut cursor,
            first,
            incoming,
            outcomes,
            others,
        ),
        Err(_) => false,
    }
}

/// How many partitions in a range a table has, where there is such a table.
fn part_count<D: Disk>(store: &Store<D>, table: u8, bounds: &Bounds) -> Option<usize> {
    if table as usize >= store.head().tables.as_slice().len() {
        return None;
    }
    match store.parts(table, bounds) {
        Ok(parts) => Some(parts.len()),
        Err(_) => None,
    }
}

/// How many spans of time the packet name has in a table.
fn span_count<D: Disk>(store: &Store<D>, table: u8) -> Option<usize> {
    if table as usize >= store.head().tables.as_slice().len() {
        return None;
    }
    match store.histogram(table, 0) {
        Ok(spans) => Some(spans.len()),
        Err(_) => None,
    }
}

/// Whether a table has so many partitions in a range, and the packet name so many spans of time in the table.
pub(crate) fn has_parts<D: Disk>(
    store: &Store<D>,
    table: u8,
    from: i64,
    to: i64,
    parts: usize,
    spans: usize,
) -> bool {
    let bounds = Bounds {
        from,
        to,
        names: None,
    };
    part_count(store, table, &bounds) == Some(parts) && span_count(store, table) == Some(spans)
}

const DAY: i64 = 86_400_000;

/// All packets of `tm`.
const ALL: Asked = (b"tm", 0, 9 * DAY, None, None);

/// A function, so that it stands in no goal of its callers.
pub(crate) fn all_of() -> Asked {
    ALL
}

/// Packets of two days, in two tables: those from 5 on have the time of their reception.
const REPLAYS: &[Step] = &[
    Step::Replay(ALL, 5, &[]),
    Step::Ingest(
        (86_400_000, &[6], &[0, 1]),
        &[Inserted::New(0), Inserted::New(1)],
    ),
    // the interval of its time of reception, and no other
    Step::Late(20, true),
    Step::Late(0, false),
    Step::Ingest((86_399_999, &[7], &[0]), &[Inserted::New(2)]),
    Step::Ingest(
        (9_000, &[1, 0], &[0]),
        &[Inserted::New(3), Inserted::New(4)],
    ),
    Step::Ingest((86_400_001, &[8], &[0]), &[Inserted::New(5)]),
    Step::Replay(ALL, 20, &[0, 1, 7, 6, 8]),
    Step::Replay(ALL, 1, &[0, 1, 7, 6, 8]),
    Step::Replay(ALL, 0, &[]),
    // a range that ends on a day's first millisecond, and one millisecond later
    Step::Replay((b"tm", 0, DAY, None, None), 2, &[0, 1, 7]),
    Step::Replay((b"tm", 0, DAY + 1, None, None), 2, &[0, 1, 7, 6]),
    // a minute inside a day, and one over its end
    Step::Replay((b"tm", 0, 60_000, None, None), 2, &[0, 1]),
    Step::Replay((b"tm", DAY - 1, DAY + 1, None, None), 2, &[7, 6]),
    Step::Replay((b"tm", 1_501, 1_501, None, None), 2, &[]),
    // the other table
    Step::Replay((b"hk", 0, 9 * DAY, None, None), 2, &[6]),
    // packet names: given twice, unknown, none
    Step::Replay(
        (b"tm", 0, DAY, Some(&[b"HDR", b"HDR"]), None),
        2,
        &[0, 1, 7],
    ),
    Step::Replay((b"tm", 0, DAY, Some(&[b"hdr"]), None), 2, &[]),
    Step::Replay(
        (b"tm", 0, DAY, Some(&[b"hdr", b"HDR"]), None),
        2,
        &[0, 1, 7],
    ),
    Step::Replay((b"tm", 0, DAY, Some(&[]), None), 2, &[]),
    // a limit
    Step::Replay((b"tm", 0, 9 * DAY, None, Some(0)), 2, &[]),
    Step::Replay((b"tm", 0, 9 * DAY, None, Some(4)), 3, &[0, 1, 7, 6]),
    Step::Parts(0, 0, DAY, 1, 2),
    Step::Parts(0, 0, DAY + 1, 2, 2),
    Step::Parts(1, 0, DAY, 0, 1),
    // packets that come in the middle of a replay are none of its, wherever their keys stand
    Step::ReplayAcross(
        ALL,
        &[0, 1],
        (86_399_000, &[2, 9], &[0]),
        &[Inserted::New(6), Inserted::New(7)],
        &[7, 6, 8],
    ),
    Step::Replay(ALL, 3, &[0, 1, 2, 9, 7, 6, 8]),
    // nor do those of a day that isn't reached yet
    Step::ReplayAcross(
        ALL,
        &[0, 1],
        (86_400_002, &[10], &[0]),
        &[Inserted::New(8)],
        &[2, 9, 7, 6, 8],
    ),
    Step::NoReplay((b"TM", 5, 4, None, None), "unknown table"),
    Step::NoReplay((b"tm", 5, 4, None, None), "bad range 5 4"),
    Step::NoReplay((b"tm", 4, 4, None, None), "a replay"),
];

/// They are a function, so that they stand in no goal of its callers.
pub(crate) fn replays() -> &'static [Step] {
    REPLAYS
}
