// What a store answers where its disk fails, and that a reopen heals it.
ghost use Rattle.std.specs.Prelude.{◌≡◌, ◌<◌, None, IsTrue};
ghost use Rattle.arch_disk.specs.Image.{Image};
ghost use Rattle.arch_disk.specs.Disk.{raised};
ghost use Rattle.history_items.specs.Fills.{pending_fault_of};
ghost use Rattle.archive_store.specs.Batches.{IsBatch};
ghost use Rattle.archive_store.specs.StoreView.{filled_of};
ghost use Rattle.archive_store.specs.Stands.{StandsFilled};

use crate::parts::{InMemory, batch, created, failing_at, none_other};
use crate::steps::{Step, of_new, other_answer, other_of_new};
use arch_disk::{Disk, MemDisk};
use arch_types::inserted::Inserted;
use archive_store::{Batch, Store};
use std::alloc::Global;
use std::test::Fail;

/// An ingest, and a reopen where it is refused. With fewer than two faults every image stands for the history that is
/// reached, with its fills.
fn ingest_and_reopen<D: Disk>(alloc: Global, store: &mut Store<D>, batch: &Batch)
    requires batch { IsBatch store.old.head store.old.history batch.now }
    requires healed { pending_fault_of store.old.fills ≡ None }
    ensures { IsTrue D.device.is_transparent
        → D.device.fault_count store.new.disk < raised (raised (D.device.fault_count store.old.disk))
        → (c : Image) → D.device.images store.new.disk c → StandsFilled c (filled_of store.new) }
{
    match store.ingest(alloc, batch) {
        Ok(_ingested) => store.is_kept(),
        Err(_) => {
            let _ = store.reopen();
        }
    }
}

/// An ingest and a reopen in one, and then these calls: the place of the first that is answered otherwise.
fn other_after<D: Disk>(alloc: Global, store: &mut Store<D>, steps: &[Step]) -> Option<usize>
    requires { pending_fault_of store.old.fills ≡ None }
{
    let Some(batch) = batch(alloc, store.head(), &(9_000, &[0], &[0, 1])) else {
        return Some(0);
    };
    ingest_and_reopen(alloc, store, &batch);
    other_answer(alloc, store, steps)
}

/// The same of a new archive on a disk, and the disk.
fn of_healed<D: Disk>(alloc: Global, disk: D, steps: &[Step]) -> (Option<usize>, D) {
    match created(alloc, disk) {
        Ok(mut store) => {
            let other = other_after(alloc, &mut store, steps);
            (other, store.into_disk())
        }
        Err((disk, _)) => (Some(0), disk),
    }
}

/// The same, and the disk is given up too.
fn other_of_healed<D: Disk + Drop>(alloc: Global, disk: D, steps: &[Step]) -> Option<usize> {
    let (other, _disk) = of_healed(alloc, disk, steps);
    other
}

/// How many calls a disk has behind the making of an archive on it.
fn calls_of_making<D: InMemory>(alloc: Global, disk: D) -> u64 {
    let (_, disk) = of_new(alloc, disk, &[]);
    disk.calls()
}

/// A disk two of whose calls fail, counted from the making of an archive on it.
fn failing_after_making(alloc: Global, first: u64, second: u64) -> Option<MemDisk> {
    let made = calls_of_making(alloc, MemDisk::new(alloc));
    failing_at(
        alloc,
        &[made.saturating_add(first), made.saturating_add(second)],
    )
}

const TAKEN_BACK: &[Step] = &[
    Step::Holds(0, &[]),
    Step::Ingest(
        (9_000, &[0], &[1, 0]),
        &[Inserted::New(0), Inserted::New(1)],
    ),
];

/// A function, so that they stand in no goal of its callers.
fn taken_back() -> &'static [Step] {
    TAKEN_BACK
}

/// The first call that is answered otherwise behind an ingest whose third call fails, which opens the gate, and a reopen.
fn other_taken_back(alloc: Global) -> Option<usize> {
    match failing_after_making(alloc, 3, 3) {
        Some(disk) => other_of_healed(alloc, disk, taken_back()),
        None => Some(0),
    }
}

#[test]
fn a_batch_that_failed_is_taken_back(rt: HostRuntime) -> Result<(), Fail> {
    none_other(other_taken_back(rt.alloc()))
}

/// The first call that heals fails too. The count in the refusal stays that of the failed write.
const GATE_FAILS: &[Step] = &[
    Step::Refused((9_000, &[0], &[0, 1]), "disk fault"),
    Step::Holds(0, &[]),
    Step::Refused((9_000, &[0], &[0, 1]), "needs reopen 1"),
    Step::NoReopen,
    Step::Refused((9_000, &[1], &[1]), "needs reopen 1"),
    Step::Reopen,
    Step::Ingest(
        (9_000, &[0], &[0, 1]),
        &[Inserted::New(0), Inserted::New(1)],
    ),
    Step::Holds(2, &[0]),
];

/// A function, as above.
fn gate_fails() -> &'static [Step] {
    GATE_FAILS
}

/// The first of those that is answered otherwise.
fn other_gate_fails(alloc: Global) -> Option<usize> {
    match failing_after_making(alloc, 3, 4) {
        Some(disk) => other_of_new(alloc, disk, gate_fails()),
        None => Some(0),
    }
}

#[test]
fn a_gate_and_a_reopen_fail(rt: HostRuntime) -> Result<(), Fail> {
    none_other(other_gate_fails(rt.alloc()))
}
