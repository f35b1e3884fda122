// Calls of a store in a row, each with its answer.
use crate::parts::{Incoming, batch, created, is_packet, mdb_octets, opened, text_of};
use crate::replays::{Asked, all_of, gives, gives_across, has_parts, replay_answer};
use arch_disk::Disk;
use arch_types::inserted::Inserted;
use arch_types::name::Names;
use arch_types::row::Row;
use archive_store::{Head, Ingested, Store};
use intervals::Interval;
use refusals::Refusal;
use std::alloc::Global;

/// A call of a store, and what it answers.
pub enum Step {
    /// What becomes of packets.
    Ingest(Incoming, &'static [Inserted]),
    /// Why packets are refused.
    Refused(Incoming, &'static str),
    /// A reopen that succeeds.
    Reopen,
    /// A reopen that is refused by a fault of the disk.
    NoReopen,
    /// The head of the tests, the front, and all packets of `tm`.
    Holds(u64, &'static [u64]),
    /// Whether an interval is late.
    Late(i64, bool),
    /// The name of the one container.
    Name(&'static [u8]),
    /// A replay by steps of at most so many rows, and its packets.
    Replay(Asked, u64, &'static [u64]),
    /// Why there is no replay.
    NoReplay(Asked, &'static str),
    /// The packets that a replay gives in its first step, of two rows, and in those after packets came, which become this.
    ReplayAcross(Asked, &'static [u64], Incoming, &'static [Inserted], &'static [u64]),
    /// How many partitions with `from <= time < to` a table has, and how many spans of time the packet name has in it.
    Parts(u8, i64, i64, usize, usize),
}

/// What an ingest answers.
fn words_of(answer: &Result<Ingested, Refusal>, outcomes: &[Inserted]) -> &'static str {
    match answer {
        Ok(ingested) if ingested.outcomes.as_slice() == outcomes => "these",
        Ok(_) => "others",
        Err(refusal) => text_of(refusal),
    }
}

/// What becomes of packets: "these" outcomes or "others", or why they are refused. The call is made here alone, since its clauses stand in the goals of
/// each that makes it.
fn ingest_answer<D: Disk>(
    alloc: Global,
    store: &mut Store<D>,
    incoming: &Incoming,
    outcomes: &[Inserted],
) -> &'static str {
    match batch(alloc, store.head(), incoming) {
        Some(batch) => words_of(&store.ingest(alloc, &batch), outcomes),
        None => "no batch",
    }
}

/// Whether packets become this.
pub(crate) fn becomes<D: Disk>(
    alloc: Global,
    store: &mut Store<D>,
    incoming: &Incoming,
    outcomes: &[Inserted],
) -> bool {
    ingest_answer(alloc, store, incoming, outcomes) == "these"
}

/// Whether a reopen succeeds.
pub(crate) fn is_reopened<D: Disk>(store: &mut Store<D>) -> bool {
    store.reopen().is_ok()
}

/// Whether names are this one.
fn are_name(names: &Names, name: &[u8]) -> bool {
    match names.as_slice() {
        [one] => one.as_slice() == name,
        _ => false,
    }
}

/// Whether the packet names are this one.
fn is_name<D: Disk>(alloc: Global, store: &Store<D>, name: &[u8]) -> bool {
    match store.names(alloc) {
        Ok(names) => are_name(&names, name),
        Err(_) => false,
    }
}

/// Whether names are those of the tables of the tests.
fn are_tables(names: &Names) -> bool {
    match names.as_slice() {
        [tm, hk] => tm.as_slice() == b"tm".as_slice() && hk.as_slice() == b"hk".as_slice(),
        _ => false,
    }
}

/// Whether a head is that of the tests.
fn is_head(alloc: Global, head: &Head) -> bool {
    match head.mdb.to_bytes(alloc) {
        Ok(mdb) => mdb.as_slice() == mdb_octets() && are_tables(&head.tables),
        Err(_) => false,
    }
}

/// Whether rows are the first of these packets.
pub(crate) fn are_first(rows: &[Row], numbers: &[u64]) -> bool {
    for (row, number) in rows.iter().zip(numbers) {
        if !is_packet(row.packet.as_slice(), *number) {
            return false;
        }
    }
    rows.len() <= numbers.len()
}

/// Whether a store has the head of the tests, this front, and these packets of `tm`.
pub(crate) fn holds<D: Disk>(
    alloc: Global,
    store: &mut Store<D>,
    front: u64,
    packets: &[u64],
) -> bool {
    is_head(alloc, store.head())
        && store.front() == front
        && gives(alloc, store, &all_of(), 20, packets)
}

/// Whether a call is answered as it is to be.
fn is_answered<D: Disk>(alloc: Global, store: &mut Store<D>, step: &Step) -> bool {
    match step {
        Step::Ingest(incoming, outcomes) => becomes(alloc, store, incoming, outcomes),
        Step::Refused(incoming, why) => ingest_answer(alloc, store, incoming, &[]) == *why,
        Step::Reopen => is_reopened(store),
        Step::NoReopen => !is_reopened(store),
        Step::Holds(front, packets) => holds(alloc, store, *front, packets),
        Step::Late(interval, late) => store.is_late(Interval(*interval)) == *late,
        Step::Name(name) => is_name(alloc, store, name),
        Step::Replay(asked, limit, packets) => gives(alloc, store, asked, *limit, packets),
        Step::NoReplay(asked, why) => replay_answer(alloc, store, asked) == *why,
        Step::ReplayAcross(asked, first, incoming, outcomes, rest) => {
            gives_across(alloc, store, asked, first, incoming, outcomes, rest)
        }
        Step::Parts(table, from, to, parts, spans) => {
            has_parts(store, *table, *from, *to, *parts, *spans)
        }
    }
}

/// The place of the first of these calls that is answered otherwise.
pub(crate) fn other_answer<D: Disk>(
    alloc: Global,
    store: &mut Store<D>,
    steps: &[Step],
) -> Option<usize> {
    let mut place = 0usize;
    for step in steps {
        if !is_answered(alloc, store, step) {
            return Some(place);
        }
        place = place.saturating_add(1);
    }
    None
}

/// The same of a store that is given up, and its disk. Without a store it is the first.
fn of_store<D: Disk>(
    alloc: Global,
    store: Result<Store<D>, (D, &'static str)>,
    steps: &[Step],
) -> (Option<usize>, D) {
    match store {
        Ok(mut store) => {
            let other = other_answer(alloc, &mut store, steps);
            (other, store.into_disk())
        }
        Err((disk, _)) => (Some(0), disk),
    }
}

/// The same of a new archive.
pub(crate) fn of_new<D: Disk>(alloc: Global, disk: D, steps: &[Step]) -> (Option<usize>, D) {
    of_store(alloc, created(alloc, disk), steps)
}

/// The same, and the disk is given up too.
pub(crate) fn other_of_new<D: Disk + Drop>(
    alloc: Global,
    disk: D,
    steps: &[Step],
) -> Option<usize> {
    let (other, _disk) = of_new(alloc, disk, steps);
    other
}

/// The same of the archive of a disk.
pub(crate) fn of_opened<D: Disk>(alloc: Global, disk: D, steps: &[Step]) -> (Option<usize>, D) {
    of_store(alloc, opened(alloc, disk), steps)
}
