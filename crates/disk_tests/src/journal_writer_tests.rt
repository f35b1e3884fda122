//! A journal that is written whole: which calls it makes, that each image of every moment has the other file as it was, and how it is read.
//! What calls the writer is generic in the disk, as in disk_journal_tests.

ghost use Rattle.std.specs.Prelude.{IsTrue, IfOk};
ghost use Rattle.disk_journal.specs.State.{IsOnDisk};

use crate::disk_journal_tests::{add, body_at, is_created, leave_records};
use crate::ends::{none_other, other};
use crate::watched::{Watched, failing, holds};
use arch_disk::{Crash, Disk};
use disk_journal::{Frame, Journal, JournalFault, JournalWriter, Opening};
use std::alloc::Global;
use std::test::Fail;

/// The file that is written; file 0 has a journal of one record.
const NEW: u32 = 1;

/// The octets of a file of three records.
const THREE: &[u8] = &[1, 0, 0, 0, 1, 104, 1, 0, 0, 0, 1, 0xAA, 1, 0, 0, 0, 0, 0];

/// The same, and a fourth one that was appended.
const FOUR: &[u8] = &[
    1, 0, 0, 0, 1, 104, 1, 0, 0, 0, 1, 0xAA, 1, 0, 0, 0, 0, 1, 0, 0, 0, 13, 97, 32, 108, 111, 110,
    103, 101, 114, 32, 98, 111, 100, 121, 0,
];

/// A longer file: three records of which the second is another, and two more.
const LONGER: &[u8] = &[
    1, 0, 0, 0, 1, 104, 1, 0, 0, 0, 1, 0xBB, 1, 0, 0, 0, 0, 1, 0, 0, 0, 1, 0xCC, 1, 0, 0, 0, 0, 0,
];

// They are functions, so that they stand in no goal of their callers.
fn longer() -> &'static [u8] {
    LONGER
}

fn three() -> &'static [u8] {
    THREE
}

fn four() -> &'static [u8] {
    FOUR
}

/// One record for each kind of crash.
fn one_each() -> &'static [u64] {
    &[1, 1, 1, 1, 1, 1, 1, 1]
}

/// Writes a journal of three records.
fn write_three<D: Disk>(alloc: Global, disk: &mut D) -> Result<Journal, JournalFault>
    ensures { IsTrue D.device.is_transparent → IfOk result (λ journal. IsOnDisk D.device journal disk.new) }
{
    let writer = JournalWriter::begin(alloc, disk, NEW)?;
    let writer = writer.add(disk, Frame::of(alloc, body_at(0))?)?;
    let writer = writer.add(disk, Frame::of(alloc, body_at(1))?)?;
    let writer = writer.add(disk, Frame::of(alloc, body_at(2))?)?;
    writer.finish(disk)
}

/// Whether they are written, and the file has just them.
fn are_written<D: Watched>(alloc: Global, disk: &mut D) -> bool {
    match write_three(alloc, disk) {
        Ok(journal) => journal.count() == 3 && disk.octets(NEW) == three(),
        Err(_) => false,
    }
}

/// Whether a write of the disk fails.
fn are_refused<D: Watched>(alloc: Global, disk: &mut D) -> bool {
    matches!(
        write_three(alloc, disk),
        Err(JournalFault::DiskFault { wrote: true })
    )
}

/// Whether file 0 has its record in each image of each moment behind so many kept calls.
fn keep_the_other<D: Watched>(alloc: Global, disk: &D, from: usize) -> bool {
    for moment in from..disk.kept() {
        if !leave_records(alloc, disk, moment + 1, one_each()) {
            return false;
        }
    }
    true
}

/// Whether each kind of crash now leaves the three records.
fn are_durable<D: Watched>(disk: &D) -> bool {
    for crash in Crash::ALL.iter() {
        if !holds(disk.image(disk.kept(), *crash), NEW, three()) {
            return false;
        }
    }
    true
}

/// Whether three records take eight calls, behind the eight of a `create`, and are durable then.
fn are_written_at_once<D: Watched>(alloc: Global, disk: &mut D) -> bool {
    let is_created = is_created(alloc, disk);
    let from = disk.kept();
    let are_written = are_written(alloc, disk);
    is_created
        && are_written
        && disk.calls() == 16
        && keep_the_other(alloc, disk, from)
        && are_durable(disk)
}

/// Whether they are written again into what a failed writing left.
fn are_written_again<D: Watched>(alloc: Global, disk: &mut D) -> bool {
    let is_created = is_created(alloc, disk);
    let from = disk.kept();
    let are_refused = are_refused(alloc, disk);
    let are_written = are_written(alloc, disk);
    is_created && are_refused && are_written && keep_the_other(alloc, disk, from)
}

/// Whether a fourth record is appended, which nothing was read for: four calls more.
fn go_on<D: Watched>(alloc: Global, disk: &mut D) -> bool {
    let Ok(mut journal) = write_three(alloc, disk) else {
        return false;
    };
    let is_fourth = matches!(add(alloc, &mut journal, disk, body_at(3)), Ok(3));
    is_fourth && disk.calls() == 12 && disk.octets(NEW) == four()
}

/// Whether they are written over a longer file, and none of that comes back.
fn are_written_over<D: Watched>(alloc: Global, disk: &mut D) -> bool {
    let is_longer = disk.write_at(NEW, 0, longer()).is_ok() && disk.sync(NEW).is_ok();
    is_longer && are_written(alloc, disk) && are_durable(disk)
}

/// Whether they are opened again, and a fourth record is appended then.
fn are_opened<D: Watched>(alloc: Global, disk: &mut D) -> bool {
    if !are_written(alloc, disk) {
        return false;
    }
    let Ok(mut journal) = Journal::open(alloc, disk, NEW) else {
        return false;
    };
    let are_three = journal.count() == 3;
    let is_fourth = matches!(add(alloc, &mut journal, disk, body_at(3)), Ok(3));
    are_three && is_fourth && disk.octets(NEW) == four()
}

/// Whether an opening without a sync makes two calls, and gives the first record by a third.
fn begins_with_first<D: Watched>(alloc: Global, disk: &mut D) -> bool {
    let made = disk.calls();
    let Ok(mut opening) = Opening::begin_synced(alloc, disk, NEW) else {
        return false;
    };
    let begun = disk.calls();
    let is_first = match opening.next(alloc, disk) {
        Ok(Some(body)) => body.as_slice() == body_at(0),
        _ => false,
    };
    is_first
        && opening.place() == 6
        && begun.saturating_sub(made) == 2
        && disk.calls().saturating_sub(made) == 3
}

/// Whether the first of these calls is a look, which fails, and it goes well when it is made again.
fn are_opened_unsynced<D: Watched>(alloc: Global, disk: &mut D) -> bool {
    let are_written = are_written(alloc, disk);
    let is_look = matches!(
        Opening::begin_synced(alloc, disk, NEW),
        Err(JournalFault::DiskFault { wrote: false })
    );
    are_written && is_look && begins_with_first(alloc, disk)
}

/// What is looked at on a new disk.
enum Look {
    AtOnce,
    Again,
    GoesOn,
    Over,
    Opened,
    Unsynced,
}

fn is_seen<D: Watched>(alloc: Global, disk: &mut D, look: &Look) -> bool {
    match look {
        Look::AtOnce => are_written_at_once(alloc, disk),
        Look::Again => are_written_again(alloc, disk),
        Look::GoesOn => go_on(alloc, disk),
        Look::Over => are_written_over(alloc, disk),
        Look::Opened => are_opened(alloc, disk),
        Look::Unsynced => are_opened_unsynced(alloc, disk),
    }
}

/// The same of a disk that is given up.
fn is_seen_on<D: Watched + Drop>(alloc: Global, disk: D, look: &Look) -> bool {
    let mut disk = disk;
    is_seen(alloc, &mut disk, look)
}

/// The same of a disk whose calls of these numbers fail.
fn is_so(alloc: Global, calls: &[u64], look: &Look) -> bool {
    match failing(alloc, calls) {
        Ok(disk) => is_seen_on(alloc, disk, look),
        Err(_) => false,
    }
}

/// The same with each of the eight calls failing in turn.
fn are_all_written_again(alloc: Global) -> bool {
    for fails in 9..17u64 {
        if !is_so(alloc, &[fails], &Look::Again) {
            return false;
        }
    }
    true
}

#[test]
fn journals_written_whole(rt: HostRuntime) -> Result<(), Fail> {
    none_other(other(&[
        ("at once", is_so(rt.alloc(), &[], &Look::AtOnce)),
        ("again", are_all_written_again(rt.alloc())),
        ("a record more", is_so(rt.alloc(), &[], &Look::GoesOn)),
        ("over a longer file", is_so(rt.alloc(), &[], &Look::Over)),
        ("opened again", is_so(rt.alloc(), &[], &Look::Opened)),
        (
            "opened without a sync",
            is_so(rt.alloc(), &[9], &Look::Unsynced),
        ),
    ]))
}
