//! A disk that tells what was made of it. What looks at one is generic in it: over a `MemDisk` each clause speaks of its list of calls, and that costs
//! minutes to prove.

use arch_disk::{Crash, Disk, MemDisk};
use std::alloc::{AllocError, Global};

pub(crate) trait Watched: Disk {
    /// How many calls were made.
    fn calls(&self) -> u64;

    fn octets(&self, file: u32) -> &[u8];

    /// How many calls were kept.
    fn kept(&self) -> usize;

    /// What a crash leaves after so many of them. None where there is no such moment, or no memory.
    fn image(&self, moment: usize, crash: Crash) -> Option<MemDisk>;
}

impl Watched for MemDisk {
    fn calls(&self) -> u64 {
        self.made()
    }

    fn octets(&self, file: u32) -> &[u8] {
        self.content(file)
    }

    fn kept(&self) -> usize {
        self.moments()
    }

    fn image(&self, moment: usize, crash: Crash) -> Option<MemDisk> {
        if moment > self.moments() {
            return None;
        }
        self.crashed(moment, crash).ok()
    }
}

/// A disk whose calls of these numbers fail.
pub(crate) fn failing(alloc: Global, calls: &[u64]) -> Result<MemDisk, AllocError> {
    Ok(MemDisk::failing(alloc, Vec::from_slice(alloc, calls)?))
}

/// Whether there is a disk, and its file holds what is wanted.
pub(crate) fn holds<D: Watched + Drop>(disk: Option<D>, file: u32, want: &[u8]) -> bool {
    match disk {
        Some(disk) => disk.octets(file) == want,
        None => false,
    }
}

/// How many calls a disk made since it had made so many.
pub(crate) fn calls_since<D: Watched + Drop>(disk: D, made: u64) -> u64 {
    disk.calls().saturating_sub(made)
}
