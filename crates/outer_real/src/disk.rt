//! A folder of the system as a disk.

ghost use Rattle.std.specs.Prelude.{◌≡◌};

use crate::folder::Folder;
use crate::lock::ArchiveLock;
use arch_disk::{Disk, Failed, FaultCounts};
use std::alloc::Global;
use std::fs::File;
use std::io::{self, ErrorKind};
use std::rt::Files;

/// Files of a folder, named by eight decimal digits. The folder is made by the first write, and a file by the first write to it; where they aren't
/// there yet, a file has length 0. A read past the end of a file fails.
#[derive(Drop)]
pub struct RealDisk<'a, R> {
    folder: Folder<'a, R>,
    counts: FaultCounts,
    /// The call that failed last found a file locked.
    is_busy: bool,
}

impl<'a, R> RealDisk<'a, R> {
    /// The files in the folder of this path, whose lock may be given back before the disk is let go. It asks nothing of the system.
    pub fn new(alloc: Global, rt: &'a R, path: String, lock: Option<&'a ArchiveLock>) -> Self
        ensures { (result.counts.faults ≡ 0) × (result.counts.failed_writes ≡ 0) }
    {
        RealDisk {
            folder: Folder::new(alloc, rt, path, lock),
            counts: FaultCounts::NONE,
            is_busy: false,
        }
    }

    /// Whether the call that failed last did so since another program works on the archive.
    pub fn is_busy(&self) -> bool {
        self.is_busy
    }
}

/// Whether a call failed at a lock that another program has.
fn is_of_a_lock(error: &io::Error) -> bool {
    error.kind() == ErrorKind::WouldBlock
}

impl<'a, R: Files<File = File>> Disk for RealDisk<'a, R> {
    ghost use Rattle.std.specs.Prelude.{[], false};
    ghost use Rattle.arch_disk.specs.Laws.{from_opaque};

    ghost device = { record {
      is_transparent = false;
      reads = λ _ _. [];
      images = λ _ _. ⊥;
      moment = λ _. 0;
      images_since = λ _ _ _. ⊥;
      fault_count = λ disk. disk.counts.faults;
      failed_writes = λ disk. disk.counts.failed_writes;
      now_counts = λ _ _ _ _ left. left;
      only_now = λ _ _ left. left;
      reads_as_image = λ _ known. from_opaque known;
      lengths_fit = λ _ _ known. from_opaque known;
    } };

    fn len(&mut self, file: u32) -> Result<u64, Failed> {
        match self.folder.len(file) {
            Ok(len) => Ok(len),
            Err(error) => {
                self.is_busy = is_of_a_lock(&error);
                Err(self.counts.look_failed())
            }
        }
    }

    fn read_at(&mut self, file: u32, at: u64, into: &mut [u8]) -> Result<(), Failed> {
        match self.folder.read_at(file, at, into) {
            Ok(()) => Ok(()),
            Err(error) => {
                self.is_busy = is_of_a_lock(&error);
                Err(self.counts.look_failed())
            }
        }
    }

    fn write_at(&mut self, file: u32, at: u64, from: &[u8]) -> Result<(), Failed> {
        match self.folder.write_at(file, at, from) {
            Ok(()) => Ok(()),
            Err(error) => {
                self.is_busy = is_of_a_lock(&error);
                Err(self.counts.write_failed())
            }
        }
    }

    fn cut(&mut self, file: u32, len: u64) -> Result<(), Failed> {
        match self.folder.cut(file, len) {
            Ok(()) => Ok(()),
            Err(error) => {
                self.is_busy = is_of_a_lock(&error);
                Err(self.counts.write_failed())
            }
        }
    }

    fn sync(&mut self, file: u32) -> Result<(), Failed> {
        match self.folder.sync(file) {
            Ok(()) => Ok(()),
            Err(error) => {
                self.is_busy = is_of_a_lock(&error);
                Err(self.counts.write_failed())
            }
        }
    }

    fn faults(&self) -> u64 {
        self.counts.faults
    }
}
