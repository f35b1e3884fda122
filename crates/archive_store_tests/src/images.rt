// A disk that fails at any one of its calls, or at two in a row, leaves at each moment nothing but images that open to the archive from before or
// after the call of the store, whatever kind of crash it is.
use crate::parts::{InMemory, created, failing_at, none_other, opened};
use crate::steps::{becomes, holds, is_reopened};
use arch_disk::{Crash, Disk};
use archive_store::Store;
use std::alloc::Global;
use std::test::Fail;

/// The first packets. Each is a row of either table.
const FIRST: &[u64] = &[0, 1, 2, 3];

/// A function, so that they stand in no goal of its callers.
fn first() -> &'static [u64] {
    FIRST
}

/// The packets of so many rows: those of one packet come in one record, so the number is even.
fn packets_of(rows: u64) -> Option<&'static [u64]> {
    if rows % 2 == 0 {
        first().get(..(rows / 2) as usize)
    } else {
        None
    }
}

/// Each of them alone.
const EACH: &[&[u64]] = &[&[0], &[1], &[2], &[3]];

/// A function, as above.
fn each() -> &'static [&'static [u64]] {
    EACH
}

/// The packet behind so many rows, and none behind the last.
fn next(front: u64) -> &'static [u64] {
    match each().get((front / 2) as usize) {
        Some(packet) => packet,
        None => &[],
    }
}

/// The calls that are made of a new archive: `i` an ingest of the next packet and `r` a reopen.
const CALLS: &[u8] = b"iirri";

/// A function, as above.
fn calls() -> &'static [u8] {
    CALLS
}

/// Whether a store holds the first packets, in so many rows.
fn holds_first<D: Disk>(alloc: Global, store: &mut Store<D>, rows: u64) -> bool {
    match packets_of(rows) {
        Some(packets) => holds(alloc, store, rows, packets),
        None => false,
    }
}

/// Whether a store holds the first packets, in so many rows or with one packet more; where no number is given, no packet.
fn holds_either<D: Disk>(alloc: Global, store: &mut Store<D>, low: Option<u64>) -> bool {
    match low {
        None => holds_first(alloc, store, 0),
        Some(low) => {
            holds_first(alloc, store, low) || holds_first(alloc, store, low.saturating_add(2))
        }
    }
}

/// The same of the archive of a disk, which may hold none where no number is given; and the disk.
fn opened_as<D: Disk>(alloc: Global, image: D, low: Option<u64>) -> (bool, D) {
    match opened(alloc, image) {
        Ok(mut store) => {
            let holds = holds_either(alloc, &mut store, low);
            (holds, store.into_disk())
        }
        Err((image, refusal)) => (low.is_none() && refusal == "no archive", image),
    }
}

/// The same, and the disk is given up.
fn opens<D: Disk + Drop>(alloc: Global, image: D, low: Option<u64>) -> bool {
    let (is_so, _image) = opened_as(alloc, image, low);
    is_so
}

/// Whether the image that a crash leaves at a moment opens so.
fn opens_behind<D: InMemory>(
    alloc: Global,
    disk: &D,
    moment: usize,
    crash: Crash,
    low: Option<u64>,
) -> bool {
    match disk.image(moment, crash) {
        Some(image) => opens(alloc, image, low),
        None => false,
    }
}

/// The same of each kind of crash.
fn open_images<D: InMemory>(alloc: Global, disk: &D, moment: usize, low: Option<u64>) -> bool {
    for crash in Crash::ALL {
        if !opens_behind(alloc, disk, moment, crash, low) {
            return false;
        }
    }
    true
}

/// The same of each moment behind the first `from` kept calls.
fn open_since<D: InMemory>(alloc: Global, disk: &D, from: usize, low: Option<u64>) -> bool {
    for moment in from..disk.kept() {
        if !open_images(alloc, disk, moment + 1, low) {
            return false;
        }
    }
    true
}

/// Makes a call of a store.
fn make_call<D: Disk>(alloc: Global, store: &mut Store<D>, call: u8, front: u64) {
    if call == b'i' {
        becomes(alloc, store, &(9_000, next(front), &[0, 1]), &[]);
    } else {
        is_reopened(store);
    }
}

/// Makes a call of an archive, and says whether the images of it open as they should.
fn is_right_across<D: InMemory>(alloc: Global, store: &mut Store<D>, call: u8) -> bool {
    let from = store.disk().kept();
    let front = store.front();
    make_call(alloc, store, call, front);
    open_since(alloc, store.disk(), from, Some(front))
}

/// The same of calls in a row.
fn are_right_across<D: InMemory>(alloc: Global, store: &mut Store<D>, calls: &[u8]) -> bool {
    for call in calls {
        if !is_right_across(alloc, store, *call) {
            return false;
        }
    }
    true
}

/// Whether all images of a new archive open as they should.
fn is_right_for<D: InMemory>(alloc: Global, store: &mut Store<D>) -> bool {
    open_since(alloc, store.disk(), 0, None) && are_right_across(alloc, store, calls())
}

/// Whether all images open as they should, and the front that is reached where an archive was made.
type Reached = (bool, Option<u64>);

/// The same of a disk on which an archive is to be made, and the disk.
fn made_on<D: InMemory>(alloc: Global, disk: D) -> (Reached, D) {
    match created(alloc, disk) {
        Ok(mut store) => {
            let is_right = is_right_for(alloc, &mut store);
            let front = store.front();
            ((is_right, Some(front)), store.into_disk())
        }
        Err((disk, _)) => ((open_since(alloc, &disk, 0, None), None), disk),
    }
}

/// The same, and the disk is given up.
fn reached_on<D: InMemory>(alloc: Global, disk: D) -> Reached {
    let (reached, _disk) = made_on(alloc, disk);
    reached
}

/// The same of a disk whose calls of these numbers fail.
fn reached(alloc: Global, calls: &[u64]) -> Reached {
    match failing_at(alloc, calls) {
        Some(disk) => reached_on(alloc, disk),
        None => (false, None),
    }
}

/// Whether all images open as they should, at least one row is reached where an archive is made, and one is made by both disks or by none.
fn are_right(alone: Reached, followed: Reached) -> bool {
    let (is_right, front) = alone;
    let (is_right_too, other) = followed;
    is_right
        && is_right_too
        && front.unwrap_or(1) >= 1
        && other.unwrap_or(1) >= 1
        && front.is_none() == other.is_none()
}

/// Whether it is so where a call of the disk fails, alone and with the one that follows it.
fn are_right_at(alloc: Global, call: u64) -> bool {
    are_right(
        reached(alloc, &[call]),
        reached(alloc, &[call, call.saturating_add(1)]),
    )
}

/// The first of these calls at which it isn't so.
fn wrong_call(alloc: Global) -> Option<u64> {
    for call in 1..25u64 {
        if !are_right_at(alloc, call) {
            return Some(call);
        }
    }
    None
}

// Each call of the disk fails in turn: in the making of an archive, in ingests and in the reopens between.
#[test]
fn images_of_each_moment(rt: HostRuntime) -> Result<(), Fail> {
    none_other(wrong_call(rt.alloc()))
}
