// Single calls of a store, each with its answer. Each is made in one function, since its clauses stand in the goals of each that makes it.
ghost use Rattle.std.specs.Prelude.{IfSome, IsTrue};
ghost use Rattle.archive_fills_tests.specs.Growth.{GoesOnFrom};
ghost use Rattle.archive_store.specs.Installs.{IsRightFor};

use crate::parts::{Incoming, batch, packet_octets, text_of};
use crate::plans::{Over, shows};
use arch_disk::Disk;
use arch_types::cell::Cell;
use arch_types::inserted::{Inserted, Installed};
use arch_types::row::Row;
use archive_store::{FillTask, Filled, Ingested, Store};
use intervals::Interval;
use refusals::Refusal;
use std::alloc::Global;

/// The interval, the base and the packets of a fill that begins.
pub type Task = (i64, u64, &'static [usize]);

/// What becomes of a fill that is installed, or why it is refused.
pub type Outcome = Result<Installed, &'static str>;

/// A call of a store, and what it answers.
pub enum Call {
    /// What becomes of a packet.
    Ingest(Incoming, Inserted),
    /// Why a packet is refused.
    Refused(Incoming, &'static str),
    /// A fill that begins, where there is one.
    Begin(Option<Task>),
    /// A fill that begins and is given up.
    GiveUp(Task),
    /// A fill that begins and is installed.
    Fill(Task, Outcome),
    /// Each flight ends.
    Settle,
    /// The last publication is noted.
    Close,
    /// A reopen that succeeds.
    Reopen,
    /// A reopen that is refused.
    NoReopen,
    /// Whether an interval is late.
    Late(i64, bool),
    /// The values of a parameter in the set that stands for an interval.
    Set(i64, u16, &'static [i128]),
    /// An interval for which no set stands.
    NoSet(i64),
    /// The intervals that have rows, each with the greatest position of its rows and the base of its last fill.
    Marks(&'static [(i64, u64, Option<u64>)]),
    /// The front, and what a plan over a range has of each interval that the range meets.
    Plan(i64, i64, u64, &'static [Over]),
}

/// The outcome of a batch of one packet.
fn outcome_of(ingested: &Ingested) -> Result<Inserted, &'static str> {
    match ingested.outcomes.as_slice() {
        [outcome] => Ok(*outcome),
        _ => Err("no outcome"),
    }
}

/// What becomes of a packet, or why it is refused.
fn ingested<D: Disk>(
    alloc: Global,
    store: &mut Store<D>,
    incoming: Incoming,
) -> Result<Inserted, &'static str>
    ensures { GoesOnFrom store.old store.new }
{
    let Some(batch) = batch(alloc, store.head(), incoming) else {
        return Err(text_of(&Refusal::OutOfMemory));
    };
    match store.ingest(alloc, &batch) {
        Ok(ingested) => outcome_of(&ingested),
        Err(refusal) => Err(text_of(&refusal)),
    }
}

/// Whether a packet is answered so.
pub(crate) fn is_ingested<D: Disk>(
    alloc: Global,
    store: &mut Store<D>,
    incoming: Incoming,
    answer: Result<Inserted, &'static str>,
) -> bool
    ensures { GoesOnFrom store.old store.new }
{
    ingested(alloc, store, incoming) == answer
}

/// Whether a reopen succeeds.
fn is_reopened<D: Disk>(store: &mut Store<D>) -> bool
    ensures { GoesOnFrom store.old store.new }
{
    store.reopen().is_ok()
}

/// Whether the intervals that have rows have these marks.
fn has_marks<D: Disk>(
    alloc: Global,
    store: &Store<D>,
    expected: &[(i64, u64, Option<u64>)],
) -> bool {
    let Ok(marks) = store.marks(alloc) else {
        return false;
    };
    for (mark, (interval, last, base)) in marks.as_slice().iter().zip(expected) {
        if mark.interval.0 != *interval || mark.last != *last || mark.base != *base {
            return false;
        }
    }
    marks.len() == expected.len()
}

/// Whether rows are the packets of these numbers.
pub(crate) fn are_packets(rows: &[Row], numbers: &[usize]) -> bool {
    for (row, number) in rows.iter().zip(numbers) {
        if row.packet.as_slice() != packet_octets(*number) {
            return false;
        }
    }
    rows.len() == numbers.len()
}

/// Whether a fill is this one.
fn is_task(task: &FillTask, expected: &Task) -> bool {
    let (interval, base, packets) = *expected;
    task.interval.0 == interval && task.base == base && are_packets(task.rows.as_slice(), packets)
}

/// Whether it is this one, or none is there.
fn is_begun(begun: &Option<FillTask>, expected: &Option<Task>) -> bool {
    match (begun, expected) {
        (Some(task), Some(expected)) => is_task(task, expected),
        (begun, expected) => begun.is_none() && expected.is_none(),
    }
}

/// Whether this fill begins, or none. It stays in flight.
fn begins<D: Disk>(alloc: Global, store: &mut Store<D>, expected: &Option<Task>) -> bool
    ensures { GoesOnFrom store.old store.new }
{
    match store.begin(alloc) {
        Ok(begun) => is_begun(&begun, expected),
        Err(_) => false,
    }
}

/// Whether this fill begins. It is given up.
fn gives_up<D: Disk>(alloc: Global, store: &mut Store<D>, expected: &Task) -> bool
    ensures { GoesOnFrom store.old store.new }
{
    match store.begin(alloc) {
        Ok(Some(task)) => {
            let is_expected = is_task(&task, expected);
            store.abandon(task);
            is_expected
        }
        _ => false,
    }
}

/// Whether it is this one; any is where none is expected.
fn is_expected(task: &FillTask, expected: &Option<Task>) -> bool {
    match expected {
        Some(expected) => is_task(task, expected),
        None => true,
    }
}

/// The fill of a task that begins, where it is this one.
pub(crate) fn built<D: Disk>(
    alloc: Global,
    store: &mut Store<D>,
    expected: &Option<Task>,
) -> Option<Filled>
    ensures right { IsTrue D.device.is_transparent → IfSome result (IsRightFor store.new) }
    ensures goes_on { GoesOnFrom store.old store.new }
{
    let Ok(begun) = store.begin(alloc) else {
        return None;
    };
    let Some(task) = begun else {
        return None;
    };
    if !is_expected(&task, expected) {
        store.abandon(task);
        return None;
    }
    match Filled::of(alloc, task, store.mdb()) {
        Ok(filled) => Some(filled),
        Err((task, _)) => {
            store.abandon(task);
            None
        }
    }
}

/// Whether the installing of a fill is answered so.
pub(crate) fn is_installed<D: Disk>(store: &mut Store<D>, filled: Filled, outcome: Outcome) -> bool
    requires { IsTrue D.device.is_transparent → IsRightFor store.old filled }
    ensures { GoesOnFrom store.old store.new }
{
    match store.install(filled) {
        Ok(installed) => outcome == Ok(installed),
        Err(refusal) => outcome == Err(text_of(&refusal)),
    }
}

/// Whether this fill begins, and its installing is answered so.
pub(crate) fn fills<D: Disk>(
    alloc: Global,
    store: &mut Store<D>,
    expected: &Option<Task>,
    outcome: Outcome,
) -> bool
    ensures { GoesOnFrom store.old store.new }
{
    match built(alloc, store, expected) {
        Some(filled) => is_installed(store, filled, outcome),
        None => false,
    }
}

/// Whether cells have these raw values.
fn are_raws(cells: &[Cell], raws: &[i128]) -> bool {
    cells.len() == raws.len() && cells.iter().zip(raws).all(|(cell, raw)| cell.raw == *raw)
}

/// Whether the set that stands for an interval has these values of a parameter.
fn has_values<D: Disk>(
    alloc: Global,
    store: &Store<D>,
    interval: i64,
    parameter: u16,
    raws: &[i128],
) -> bool {
    match store.segments(Interval(interval)) {
        Ok(Some(set)) => match set.cells(alloc, store.mdb(), parameter) {
            Ok(cells) => are_raws(cells.as_slice(), raws),
            Err(_) => false,
        },
        _ => false,
    }
}

/// Whether no set stands for an interval.
fn has_none<D: Disk>(store: &Store<D>, interval: i64) -> bool {
    match store.segments(Interval(interval)) {
        Ok(set) => set.is_none(),
        Err(_) => false,
    }
}

/// Whether a call is answered as it is to be.
fn is_answered<D: Disk>(alloc: Global, store: &mut Store<D>, call: &Call) -> bool
    ensures { GoesOnFrom store.old store.new }
{
    match call {
        Call::Ingest(incoming, outcome) => is_ingested(alloc, store, *incoming, Ok(*outcome)),
        Call::Refused(incoming, why) => is_ingested(alloc, store, *incoming, Err(*why)),
        Call::Begin(task) => begins(alloc, store, task),
        Call::GiveUp(task) => gives_up(alloc, store, task),
        Call::Fill(task, outcome) => fills(alloc, store, &Some(*task), *outcome),
        Call::Settle => {
            store.settle();
            true
        }
        Call::Close => store.note_closed().is_ok(),
        Call::Reopen => is_reopened(store),
        Call::NoReopen => !is_reopened(store),
        Call::Late(interval, late) => store.is_late(Interval(*interval)) == *late,
        Call::Set(interval, parameter, raws) => {
            has_values(alloc, store, *interval, *parameter, raws)
        }
        Call::NoSet(interval) => has_none(store, *interval),
        Call::Marks(expected) => has_marks(alloc, store, expected),
        Call::Plan(from, to, front, parts) => shows(alloc, store, *from, *to, *front, parts),
    }
}

/// Whether each of these calls is answered as it is to be.
#[tactic(auto, using(crate::proofs::Growth::stays, crate::proofs::Growth::goes_on))]
pub(crate) fn are_answered<D: Disk>(alloc: Global, store: &mut Store<D>, calls: &[Call]) -> bool
    ensures { GoesOnFrom store.old store.new }
{
    for call in calls {
        if !is_answered(alloc, store, call) {
            return false;
        }
    }
    true
}
