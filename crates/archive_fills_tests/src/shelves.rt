// What a reader sees of a store that is published.
ghost use Rattle.archive_store.specs.StoreView.{OnlyAppends};

use crate::calls::Call;
use crate::parts::{batch, created, none_other};
use crate::steps::{Step, other_step};
use arch_disk::{Disk, MemDisk};
use arch_types::inserted::{Inserted, Installed};
use archive_store::Store;
use glance_board::{Contents, PublishedMark};
use std::alloc::Global;
use std::sync::{Arc, Wait};
use std::test::Fail;
use store_shelf::{ShelvedStore, StoreReader};

/// Two intervals have rows. The first is filled.
const FILLED: &[Step] = &[Step::Calls(&[
    Call::Ingest((0, 0), Inserted::New(0)),
    Call::Ingest((7, 0), Inserted::New(1)),
    Call::Fill((0, 2, &[0]), Ok(Installed::Done)),
])];

/// A function, so that they stand in no goal of its callers.
fn filled() -> &'static [Step] {
    FILLED
}

/// What is done with a store and its shelf.
enum Act {
    Nothing,
    /// A packet comes, which isn't published.
    Ingest(usize),
    Publish,
    PublishLast,
}

/// The front, and each interval that has rows with whether it has a set.
type Seen = (u64, &'static [(i64, bool)]);

/// What a reader sees behind each act.
const ACTS: &[(Act, Seen)] = &[
    (Act::Nothing, (2, &[(0, true), (1, false)])),
    (Act::Ingest(9), (2, &[(0, true), (1, false)])),
    (Act::Publish, (3, &[(0, true), (1, false), (2, false)])),
    (Act::Ingest(1), (3, &[(0, true), (1, false), (2, false)])),
    (Act::PublishLast, (4, &[(0, false), (1, false), (2, false)])),
    (Act::Ingest(8), (4, &[(0, false), (1, false), (2, false)])),
    (Act::Publish, (4, &[(0, false), (1, false), (2, false)])),
    (Act::PublishLast, (4, &[(0, false), (1, false), (2, false)])),
];

/// A function, as above.
fn acts() -> &'static [(Act, Seen)] {
    ACTS
}

/// A packet comes into a store.
fn take_in<D: Disk>(alloc: Global, store: &mut Store<D>, number: usize)
    ensures { OnlyAppends store.old store.new }
{
    let Some(batch) = batch(alloc, store.head(), (number, 0)) else {
        return;
    };
    let _ = store.ingest(alloc, &batch);
}

/// A packet comes into a store that has a shelf.
fn ingested<D: Disk>(alloc: Global, shelved: ShelvedStore<D>, number: usize) -> ShelvedStore<D> {
    let (mut store, shelf) = shelved.into_parts();
    take_in(alloc, &mut store, number);
    ShelvedStore::beside(store, shelf)
}

/// The store and its shelf behind an act.
fn acted<D: Disk, R: Wait>(
    rt: &R,
    alloc: Global,
    shelved: ShelvedStore<D>,
    act: &Act,
) -> ShelvedStore<D> {
    match act {
        Act::Nothing => shelved,
        Act::Ingest(number) => ingested(alloc, shelved, *number),
        Act::Publish => shelved.publish(rt, alloc).0,
        Act::PublishLast => shelved.publish_last(rt, alloc).0,
    }
}

/// Whether marks are of these intervals, and have sets where they are to.
fn are_marks(marks: &[Arc<PublishedMark, Global>], expected: &[(i64, bool)]) -> bool {
    for (mark, (interval, has_set)) in marks.iter().zip(expected) {
        if mark.interval.0 != *interval || mark.set.is_some() != *has_set {
            return false;
        }
    }
    marks.len() == expected.len()
}

/// Whether contents are these. So few marks stand in one block.
fn is_seen(contents: &Contents, seen: &Seen) -> bool {
    let (front, expected) = *seen;
    match contents.marks.blocks() {
        [block] => contents.front == front && are_marks(block.items(), expected),
        _ => false,
    }
}

/// Whether a reader sees these.
fn sees<D: Disk>(reader: &mut StoreReader<D>, seen: &Seen) -> bool {
    match reader.look() {
        Some(listing) => is_seen(listing.contents(), seen),
        None => false,
    }
}

/// The place of the first act behind which a reader sees another.
fn other_act<D: Disk, R: Wait>(
    rt: &R,
    alloc: Global,
    shelved: ShelvedStore<D>,
    reader: &mut StoreReader<D>,
    acts: &[(Act, Seen)],
) -> (ShelvedStore<D>, Option<usize>) {
    let mut shelved = shelved;
    let mut place = 0usize;
    for (act, seen) in acts {
        shelved = acted(rt, alloc, shelved, act);
        if !sees(reader, seen) {
            return (shelved, Some(place));
        }
        place = place.saturating_add(1);
    }
    (shelved, None)
}

/// The same of one reader, or 100 where none is there, and 101 where it still sees something once the board is gone.
fn other_seen<D: Disk, R: Wait>(
    rt: &R,
    alloc: Global,
    shelved: ShelvedStore<D>,
) -> (Store<D>, Option<usize>) {
    let mut shelved = shelved;
    let Ok(mut reader) = shelved.reader() else {
        return (shelved.into_store(rt), Some(100));
    };
    let (shelved, other) = other_act(rt, alloc, shelved, &mut reader, acts());
    let store = shelved.into_store(rt);
    let other = match reader.look() {
        Some(_) => Some(101),
        None => other,
    };
    (store, other)
}

/// The same of a store, or 102 where it isn't filled or has no shelf.
fn other_of<D: Disk, R: Wait>(rt: &R, alloc: Global, store: Store<D>) -> (Store<D>, Option<usize>) {
    let mut store = store;
    if other_step(alloc, &mut store, filled()).is_some() {
        return (store, Some(102));
    }
    match ShelvedStore::new(rt, alloc, store, 1) {
        Ok(shelved) => other_seen(rt, alloc, shelved),
        Err((store, _)) => (store, Some(102)),
    }
}

/// The same of a new archive, and its disk.
fn of_new<D: Disk, R: Wait>(rt: &R, alloc: Global, disk: D) -> (Option<usize>, D) {
    match created(alloc, disk) {
        Ok(store) => {
            let (store, other) = other_of(rt, alloc, store);
            (other, store.into_disk())
        }
        Err(disk) => (Some(102), disk),
    }
}

/// The same, and the disk is given up.
fn other_of_new<D: Disk + Drop, R: Wait>(rt: &R, alloc: Global, disk: D) -> Option<usize> {
    let (other, _disk) = of_new(rt, alloc, disk);
    other
}

#[test]
fn readers_see_what_is_published(rt: HostRuntime) -> Result<(), Fail> {
    none_other(other_of_new(&rt, rt.alloc(), MemDisk::new(rt.alloc())))
}
