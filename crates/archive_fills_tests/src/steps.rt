// Calls of a store in a row, and fills between whose beginning and installing other calls come.
ghost use Rattle.archive_fills_tests.specs.Growth.{GoesOnFrom};

use crate::calls::{Call, Outcome, Task, are_answered, built, is_installed};
use crate::parts::{created, opened};
use arch_disk::Disk;
use archive_store::Store;
use std::alloc::Global;

/// What is done with a store.
pub enum Step {
    Calls(&'static [Call]),
    /// A fill that begins and is built; then calls are made, and it is installed.
    Fill(Task, &'static [Call], Outcome),
}

/// Whether this fill begins, and calls and then its installing are answered as they are to be.
#[tactic(auto, using(crate::proofs::Growth::stays_right))]
fn fills_across<D: Disk>(
    alloc: Global,
    store: &mut Store<D>,
    task: &Option<Task>,
    calls: &[Call],
    outcome: Outcome,
) -> bool {
    let Some(filled) = built(alloc, store, task) else {
        return false;
    };
    let are_answered = are_answered(alloc, store, calls);
    is_installed(store, filled, outcome) && are_answered
}

/// Whether a step goes as it is to.
fn is_made<D: Disk>(alloc: Global, store: &mut Store<D>, step: &Step) -> bool {
    match step {
        Step::Calls(calls) => are_answered(alloc, store, calls),
        Step::Fill(task, calls, outcome) => {
            fills_across(alloc, store, &Some(*task), calls, *outcome)
        }
    }
}

/// The place of the first of these steps that goes otherwise.
pub(crate) fn other_step<D: Disk>(
    alloc: Global,
    store: &mut Store<D>,
    steps: &[Step],
) -> Option<usize> {
    let mut place = 0usize;
    for step in steps {
        if !is_made(alloc, store, step) {
            return Some(place);
        }
        place = place.saturating_add(1);
    }
    None
}

/// The same of a store that is given up, and its disk. Without a store it is the first.
fn of_store<D: Disk>(
    alloc: Global,
    store: Result<Store<D>, D>,
    steps: &[Step],
) -> (Option<usize>, D) {
    match store {
        Ok(mut store) => {
            let other = other_step(alloc, &mut store, steps);
            (other, store.into_disk())
        }
        Err(disk) => (Some(0), disk),
    }
}

/// The same of a new archive.
pub(crate) fn of_new<D: Disk>(alloc: Global, disk: D, steps: &[Step]) -> (Option<usize>, D) {
    of_store(alloc, created(alloc, disk), steps)
}

/// The same, and the disk is given up too.
pub(crate) fn other_of_new<D: Disk + Drop>(
    alloc: Global,
    disk: D,
    steps: &[Step],
) -> Option<usize> {
    let (other, _disk) = of_new(alloc, disk, steps);
    other
}

/// The place of the first of these steps of the archive of a disk that goes otherwise, and the disk.
pub(crate) fn of_opened<D: Disk>(alloc: Global, disk: D, steps: &[Step]) -> (Option<usize>, D) {
    of_store(alloc, opened(alloc, disk), steps)
}

/// The same, and the disk is given up too.
pub(crate) fn other_of_opened<D: Disk + Drop>(
    alloc: Global,
    disk: D,
    steps: &[Step],
) -> Option<usize> {
    let (other, _disk) = of_opened(alloc, disk, steps);
    other
}
