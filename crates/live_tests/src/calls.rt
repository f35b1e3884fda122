// Single calls of an archive in turns. Each is made in one function, since its clauses stand in the goals of each that
// makes it.
ghost use Rattle.std.specs.Prelude.{◌≡◌, ◌<◌, IfOk, IfSome, IsTrue};
ghost use Rattle.std.specs.Arc.{arc_value};
ghost use Rattle.archive_store.specs.Installs.{IsRightFor};
ghost use Rattle.store_fills.specs.Built.{IsTaskRows};
ghost use Rattle.turn_cell.specs.Pass.{IsFree};
ghost use Rattle.live_archive.specs.Laws.{IsBuiltOf};
ghost use Rattle.live_archive.specs.Turns.{as_seen};
ghost use Rattle.live_tests.specs.Heads.{HasNames};

use crate::parts::batch;
use arch_disk::Disk;
use arch_types::direction::Direction;
use arch_types::inserted::{Inserted, Installed};
use arch_types::name::Name;
use arch_types::steps::Steps;
use archive_store::{FillTask, Filled, Ingested};
use asks::{Answer, Request};
use live_archive::{Live, LivePass};
use mdb_model::Mdb;
use std::alloc::Global;
use std::marker::Brand;
use std::sync::ledger::{Blank, Ledger};
use std::sync::{Arc, Wait};

/// The outcome of a batch of one packet.
fn outcome_of(ingested: &Ingested) -> Option<Inserted> {
    match ingested.outcomes.as_slice() {
        [outcome] => Some(*outcome),
        _ => None,
    }
}

/// What becomes of the packet that octets begin with.
pub(crate) fn ingested<D: Disk, R: Wait>(
    rt: &R,
    alloc: Global,
    live: &Live<D>,
    pass: &mut LivePass<D>,
    octets: &[u8],
) -> Option<Inserted>
    requires free { IsFree live.now.cell pass.old }
    requires names { HasNames live.now.cell.first.store.head }
    ensures free { IsFree live.now.cell pass.new }
    ensures share { pass.new.share ≡ pass.old.share }
{
    let batch = batch(alloc, octets)?;
    match live.ingest(rt, alloc, pass, &batch) {
        Ok(ingested) => outcome_of(&ingested),
        Err(_) => None,
    }
}

/// What is built of a task under its database, or the task.
fn built_under(alloc: Global, task: FillTask, mdb: &Mdb) -> Result<Filled, FillTask>
    requires rows { IsTaskRows task.exponent task.interval task.rows }
    requires mdb { mdb.now ≡ arc_value task.mdb }
    ensures { IfOk result (IsBuiltOf task) }
{
    match Filled::of(alloc, task, mdb) {
        Ok(filled) => Ok(filled),
        Err((task, _)) => Err(task),
    }
}

/// The same of a task alone.
fn fill_of(alloc: Global, task: FillTask) -> Result<Filled, FillTask>
    requires { IsTaskRows task.exponent task.interval task.rows }
    ensures { IfOk result (IsBuiltOf task) }
{
    let Ok(mdb) = Arc::try_clone(&task.mdb) else {
        return Err(task);
    };
    built_under(alloc, task, &mdb)
}

/// The fill that is next, built and in flight.
pub(crate) fn built<D: Disk, R: Wait>(
    rt: &R,
    alloc: Global,
    live: &Live<D>,
    pass: &mut LivePass<D>,
) -> Option<Filled>
    requires free { IsFree live.now.cell pass.old }
    ensures free { IsFree live.now.cell pass.new }
    ensures share { pass.new.share ≡ pass.old.share }
    ensures right { IfSome result (λ filled. IsTrue D.device.is_transparent →
        IsRightFor (as_seen live.now.cell.first.store pass.new) filled) }
{
    let Ok(Some(task)) = live.begin_fill(rt, alloc, pass) else {
        return None;
    };
    match fill_of(alloc, task) {
        Ok(filled) => Some(filled),
        Err(task) => {
            live.abandon(rt, pass, task);
            None
        }
    }
}

/// What becomes of a fill.
pub(crate) fn installed<D: Disk, R: Wait>(
    rt: &R,
    alloc: Global,
    live: &Live<D>,
    pass: &mut LivePass<D>,
    filled: Filled,
) -> Option<Installed>
    requires free { IsFree live.now.cell pass.old }
    requires right { IsTrue D.device.is_transparent →
        IsRightFor (as_seen live.now.cell.first.store pass.old) filled }
    ensures free { IsFree live.now.cell pass.new }
    ensures share { pass.new.share ≡ pass.old.share }
{
    match live.install(rt, alloc, pass, filled) {
        Ok(installed) => Some(installed),
        Err(_) => None,
    }
}

/// What becomes of the next fill, where a packet comes while it is in flight; and of the packet.
pub(crate) fn fill_across<D: Disk, R: Wait>(
    rt: &R,
    alloc: Global,
    live: &Live<D>,
    filler: &mut LivePass<D>,
    link: &mut LivePass<D>,
    octets: &[u8],
) -> (Option<Inserted>, Option<Installed>)
    requires free { IsFree live.now.cell filler.old × IsFree live.now.cell link.old }
    requires names { HasNames live.now.cell.first.store.head }
    ensures free { IsFree live.now.cell filler.new × IsFree live.now.cell link.new }
    ensures share { (filler.new.share ≡ filler.old.share) × (link.new.share ≡ link.old.share) }
{
    let Some(filled) = built(rt, alloc, live, filler) else {
        return (None, None);
    };
    let outcome = ingested(rt, alloc, live, link, octets);
    (outcome, installed(rt, alloc, live, filler, filled))
}

/// Begins the next fill, builds it and installs it.
pub(crate) fn fill<D: Disk, R: Wait>(
    rt: &R,
    alloc: Global,
    live: &Live<D>,
    pass: &mut LivePass<D>,
) -> Option<Installed>
    requires free { IsFree live.now.cell pass.old }
    ensures free { IsFree live.now.cell pass.new }
    ensures share { pass.new.share ≡ pass.old.share }
{
    let filled = built(rt, alloc, live, pass)?;
    installed(rt, alloc, live, pass, filled)
}

/// Whether a fill begins. It is given up.
pub(crate) fn gives_up<D: Disk, R: Wait>(
    rt: &R,
    alloc: Global,
    live: &Live<D>,
    pass: &mut LivePass<D>,
) -> bool
    requires free { IsFree live.now.cell pass.old }
    ensures free { IsFree live.now.cell pass.new }
    ensures share { pass.new.share ≡ pass.old.share }
{
    match live.begin_fill(rt, alloc, pass) {
        Ok(Some(task)) => {
            live.abandon(rt, pass, task);
            true
        }
        _ => false,
    }
}

/// The values of `v` in the first thousand seconds.
pub(crate) fn request(alloc: Global) -> Option<Request> {
    match Name::copy_of(alloc, b"v") {
        Ok(parameter) => Some(Request {
            parameter,
            from: 0,
            to: 1_000_000,
            direction: Direction::Ascending,
            limit: None,
        }),
        Err(_) => None,
    }
}

/// How many values an answer has, and over how many items.
fn counts(answer: &Answer) -> (u64, usize) {
    (answer.front, answer.cells.len())
}

/// The front of an answer to that request, and how many values it has, with the steps of a ledger.
fn answered_with<D: Disk, R: Wait, L: Ledger>(
    rt: &R,
    alloc: Global,
    live: &Live<D>,
    pass: &mut LivePass<D>,
    blank: Blank,
) -> Option<(u64, usize)>
    requires name { blank.name ≡ L.name }
    requires count { blank.parts ≡ L.parts }
    requires some { 0 < blank.parts }
    requires free { IsFree live.now.cell pass.old }
    ensures free { IsFree live.now.cell pass.new }
    ensures share { pass.new.share ≡ pass.old.share }
{
    let request = request(alloc)?;
    let (book, share) = blank.open::<L>();
    let mut steps = Steps::new(book, share);
    match live.retrieve(rt, alloc, pass, request, &mut steps) {
        Ok(answer) => Some(counts(&answer)),
        Err(_) => None,
    }
}

/// The same with a ledger of its own.
pub(crate) fn answered<D: Disk, R: Wait>(
    rt: &R,
    alloc: Global,
    live: &Live<D>,
    pass: &mut LivePass<D>,
) -> Option<(u64, usize)>
    requires free { IsFree live.now.cell pass.old }
    ensures free { IsFree live.now.cell pass.new }
    ensures share { pass.new.share ≡ pass.old.share }
{
    answered_with::<D, R, Brand>(rt, alloc, live, pass, Blank::new(1))
}
