//! The lock of an archive, which a command gives back once it prints.

use std::fs::File;
use std::sync::OnceLock;

/// The lock that a disk has of its file 0, by which other programs are kept off the archive. The output gives it back
/// before the first octet is printed: a command has made all its calls of the disk by then, so a reader that stands
/// still keeps no other program waiting.
#[derive(Drop)]
pub struct ArchiveLock {
    /// File 0 as the disk has it open: the handles of one opening share its lock.
    file: OnceLock<File>,
    given_back: OnceLock<()>,
}

impl ArchiveLock {
    /// Of no file yet.
    pub fn new() -> Self {
        ArchiveLock {
            file: OnceLock::new(),
            given_back: OnceLock::new(),
        }
    }

    /// Takes note of file 0, which was locked. Where the system has no handle more, its lock is kept with the disk.
    pub(crate) fn share(&self, file: &File) {
        if let Ok(shared) = file.try_clone() {
            let _ = self.file.try_set(shared);
        }
    }

    /// Gives the lock back, for good: the disk fails at each call from then on.
    pub fn give_back(&self) {
        if self.given_back.try_set(()).is_err() {
            return;
        }
        if let Some(file) = self.file.get() {
            let _ = file.unlock();
        }
    }

    pub(crate) fn is_given_back(&self) -> bool {
        self.given_back.get().is_some()
    }
}
