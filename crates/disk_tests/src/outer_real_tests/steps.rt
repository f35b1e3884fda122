//! Calls of a disk over a folder, each with its answer.
//!
//! Two functions own a disk: what else is done with one is handed to them, since each exit with a disk costs seconds to prove.

use super::folders::{path_of, take_file_away, write_file};
use arch_disk::Disk;
use outer_real::{ArchiveLock, RealDisk};
use std::marker::Send;

/// A call of a disk, and what it answers.
pub(super) enum Step {
    /// The length of a file, or none where the call fails.
    Len(u32, Option<u64>),
    /// The two octets of a file from a place on, or none where the call fails.
    Read(u32, u64, Option<[u8; 2]>),
    /// Whether octets are written into a file at a place.
    Write(u32, u64, &'static [u8], bool),
    /// Whether a file is cut to a length.
    Cut(u32, u64, bool),
    /// Whether a file is synced.
    Sync(u32, bool),
    /// How many calls have failed.
    Faults(u64),
}

/// Whether a write is done.
fn writes(disk: &mut RealDisk<'_, HostRuntime>, file: u32, at: u64, octets: &[u8]) -> bool {
    disk.write_at(file, at, octets).is_ok()
}

/// Two octets that a read gives, or none where it fails.
fn read_two(disk: &mut RealDisk<'_, HostRuntime>, file: u32, at: u64) -> Option<[u8; 2]> {
    let mut octets = [0; 2];
    match disk.read_at(file, at, &mut octets) {
        Ok(()) => Some(octets),
        Err(_) => None,
    }
}

fn is_answered(disk: &mut RealDisk<'_, HostRuntime>, step: &Step) -> bool {
    match step {
        Step::Len(file, len) => disk.len(*file).ok() == *len,
        Step::Read(file, at, octets) => read_two(disk, *file, *at) == *octets,
        Step::Write(file, at, octets, is_done) => writes(disk, *file, *at, octets) == *is_done,
        Step::Cut(file, len, is_done) => disk.cut(*file, *len).is_ok() == *is_done,
        Step::Sync(file, is_done) => disk.sync(*file).is_ok() == *is_done,
        Step::Faults(count) => disk.faults() == *count,
    }
}

/// Whether these calls are answered so.
fn are_answered(disk: &mut RealDisk<'_, HostRuntime>, steps: &[Step]) -> bool {
    for step in steps {
        if !is_answered(disk, step) {
            return false;
        }
    }
    true
}

/// More files than stay open.
const MANY: u16 = 70;

/// How many files were written, each with its number, and synced where asked.
fn write_many(disk: &mut RealDisk<'_, HostRuntime>, are_synced: bool) -> u16 {
    let mut done: u16 = 0;
    for number in 0..MANY {
        let file = u32::from(number);
        if writes(disk, file, 0, &number.to_be_bytes())
            && (!are_synced || disk.sync(file).is_ok())
        {
            done = done.saturating_add(1);
        }
    }
    done
}

/// How many files hold their numbers.
fn read_many(disk: &mut RealDisk<'_, HostRuntime>) -> u16 {
    let mut same: u16 = 0;
    for number in 0..MANY {
        if read_two(disk, u32::from(number), 0) == Some(number.to_be_bytes()) {
            same = same.saturating_add(1);
        }
    }
    same
}

/// A disk may go to another thread.
fn carried<T: Send>(value: T) -> T {
    value
}

fn disk_in<'a>(rt: &'a HostRuntime, folder: &str) -> Option<RealDisk<'a, HostRuntime>> {
    match path_of(rt, folder) {
        Some(path) => Some(carried(RealDisk::new(rt.alloc(), rt, path, None))),
        None => None,
    }
}

/// Whether a new disk over a folder answers these calls so.
pub(super) fn answers(rt: &HostRuntime, folder: &str, steps: &[Step]) -> bool {
    match disk_in(rt, folder) {
        Some(mut disk) => are_answered(&mut disk, steps),
        None => false,
    }
}

/// What is done with a disk over a folder.
#[derive(Clone, Copy)]
pub(super) enum Task {
    /// Its calls are answered so, and while it stands those of a second disk, as another program would have it.
    Two(&'static [Step], &'static [Step]),
    /// Many files are written, and synced where asked, file 1 is synced, and all are read again.
    KeepMany(bool),
    /// Many files are written, and a second disk's calls are answered so.
    BesideMany(&'static [Step]),
    /// Many files are written, one that was closed then is taken away, and isn't opened again.
    LoseOne,
    /// File 0 isn't there, another program makes it, and it is left alone.
    LeaveAnothers,
}

fn keeps_many(disk: &mut RealDisk<'_, HostRuntime>, are_synced: bool) -> bool {
    write_many(disk, are_synced) == MANY && disk.sync(1).is_ok() && read_many(disk) == MANY
}

fn fails_without(rt: &HostRuntime, disk: &mut RealDisk<'_, HostRuntime>) -> bool {
    write_many(disk, false) == MANY
        && take_file_away(rt, "outer_real_gone/00000001")
        && disk.len(1).is_err()
}

fn leaves_anothers(rt: &HostRuntime, disk: &mut RealDisk<'_, HostRuntime>) -> bool {
    matches!(disk.len(0), Ok(0))
        && write_file(rt, "outer_real_other/00000000", b"other")
        && !writes(disk, 0, 0, b"ab")
}

fn is_done(
    rt: &HostRuntime,
    folder: &str,
    disk: &mut RealDisk<'_, HostRuntime>,
    task: &Task,
) -> bool {
    match task {
        Task::Two(first, second) => are_answered(disk, first) && answers(rt, folder, second),
        Task::KeepMany(are_synced) => keeps_many(disk, *are_synced),
        Task::BesideMany(steps) => write_many(disk, false) == MANY && answers(rt, folder, steps),
        Task::LoseOne => fails_without(rt, disk),
        Task::LeaveAnothers => leaves_anothers(rt, disk),
    }
}

/// Whether this is done with a new disk over a folder.
pub(super) fn does(rt: &HostRuntime, folder: &str, task: &Task) -> bool {
    match disk_in(rt, folder) {
        Some(mut disk) => is_done(rt, folder, &mut disk, task),
        None => false,
    }
}

/// Whether two octets are written to file 0 of a folder and its lock is given back, another program works there then, and the first one's calls
/// fail.
pub(super) fn gives_back(rt: &HostRuntime, folder: &str, others: &[Step]) -> bool {
    let Some(path) = path_of(rt, folder) else {
        return false;
    };
    let lock = ArchiveLock::new();
    let mut disk = RealDisk::new(rt.alloc(), rt, path, Some(&lock));
    let is_written = writes(&mut disk, 0, 0, b"ab");
    lock.give_back();
    is_written && answers(rt, folder, others) && disk.len(0).is_err() && disk.faults() == 1
}
