//! The open files of a folder.

ghost use Rattle.std.specs.Prelude.{◌≡◌, ◌<◌, ◌≤◌, IfSome, OnOk, IfOk, length, vec_len};

use std::alloc::Global;
use std::fs::File;
use std::io::{self, ErrorKind};

/// Files that are open at a time, at most: fewer than a process may have (D-52).
const MOST: usize = 32;

/// What a file was opened for.
#[derive(Clone, Copy)]
pub(crate) enum Access {
    Update,
    /// To be read alone.
    Read,
}

/// An open file of the folder.
#[derive(Drop)]
pub(crate) struct Handle {
    number: u32,
    pub(crate) file: File,
    access: Access,
    /// It was written or cut since it was opened or synced.
    is_changed: bool,
    /// The number of the use that was its last.
    used: u64,
}

impl Handle {
    /// Takes the file to the device. One that is read alone has nothing to be taken there by a call that its file system hasn't.
    fn sync(&self) -> io::Result<()> {
        match (self.file.sync_all(), self.access) {
            (Err(error), Access::Read) if has_no_sync(error.kind()) => Ok(()),
            (answer, _) => answer,
        }
    }
}

/// The files of a folder that are open, each once. To open one more than `MOST` the least recently used one is closed, and opened again when it
/// is asked for.
///
/// A file that was changed and not synced is synced before that. The system tells of a write that it could not bring to the device at a sync of
/// a file that was open at the time, and once: a handle that is opened later may hear nothing of it.
#[derive(Drop)]
pub(crate) struct Handles {
    pub(crate) files: Vec<Handle>,
    /// How often a file was used, up to the last value of the type.
    uses: u64,
    /// A sync that no caller asked for has failed. What it was to bring to the device may be lost, so no later sync is answered as done.
    has_lost: bool,
    ghost few: { vec_len files ≤ 32 },
}

impl Handles {
    pub(crate) fn new(alloc: Global) -> Self {
        Handles {
            files: Vec::new(alloc),
            uses: 0,
            has_lost: false,
        }
    }

    /// The place of a file that is open, which is used now.
    pub(crate) fn find(&mut self, number: u32) -> Option<usize>
        ensures { IfSome result (λ place. place < vec_len self.new.files) }
    {
        let place = position(&self.files, number)?;
        self.uses = self.uses.saturating_add(1);
        self.files[place].used = self.uses;
        Some(place)
    }

    /// Closes a file where as many are open as may be.
    pub(crate) fn make_room(&mut self) -> io::Result<()>
        ensures { OnOk result (vec_len self.new.files < 32) }
    {
        if self.files.len() < MOST {
            return Ok(());
        }
        let place = least_recent(&self.files);
        if self.files[place].is_changed {
            self.sync_unasked(place)?;
        }
        let _closed = self.files.swap_remove(place);
        Ok(())
    }

    /// Adds a file that was opened, and gives its place.
    pub(crate) fn add(&mut self, number: u32, file: File, access: Access) -> io::Result<usize>
        requires { vec_len self.old.files < 32 }
        ensures { IfOk result (λ place. place < vec_len self.new.files) }
    {
        self.uses = self.uses.saturating_add(1);
        self.files.push(Handle {
            number,
            file,
            access,
            is_changed: false,
            used: self.uses,
        })?;
        Ok(self.files.len() - 1)
    }

    /// A file that is to be changed.
    pub(crate) fn change(&mut self, place: usize) -> &File
        requires { place < vec_len self.old.files }
    {
        let handle = &mut self.files[place];
        handle.is_changed = true;
        &handle.file
    }

    /// Takes a file to the device, by `fsync` (D-56).
    pub(crate) fn sync(&mut self, place: usize) -> io::Result<()>
        requires { place < vec_len self.old.files }
        ensures { vec_len self.new.files ≡ vec_len self.old.files }
    {
        if self.has_lost {
            return Err(ErrorKind::Other.into());
        }
        match self.files[place].sync() {
            Ok(()) => {
                self.files[place].is_changed = false;
                Ok(())
            }
            Err(error) => Err(error),
        }
    }

    /// Takes a file to the device, which was not asked for.
    fn sync_unasked(&mut self, place: usize) -> io::Result<()>
        requires { place < vec_len self.old.files }
        ensures { vec_len self.new.files ≡ vec_len self.old.files }
    {
        let answer = self.sync(place);
        if answer.is_err() {
            self.has_lost = true;
        }
        answer
    }
}

/// Whether a sync failed since the file system has no such call: then it brings nothing to the device by one (D-53).
pub(crate) fn has_no_sync(kind: ErrorKind) -> bool {
    matches!(kind, ErrorKind::InvalidInput | ErrorKind::Unsupported)
}

fn position(handles: &[Handle], number: u32) -> Option<usize>
    ensures { IfSome result (λ place. place < length handles.now) }
{
    for (place, handle) in handles.iter().enumerate() {
        if handle.number == number {
            return Some(place);
        }
    }
    None
}

/// The place of the file that is to be closed first.
fn least_recent(handles: &[Handle]) -> usize
    requires { 0 < length handles.now }
    ensures { result < length handles.now }
{
    let mut least = 0;
    for (place, handle) in handles.iter().enumerate() {
        if closes_before(handle, &handles[least]) {
            least = place;
        }
    }
    least
}

/// Whether a file is closed before another: its last use was earlier. File 0 is closed behind all others, and so it stays open. Each program
/// looks at it first, so its lock keeps them off the files that are closed, too.
fn closes_before(handle: &Handle, other: &Handle) -> bool {
    handle.number != 0 && (other.number == 0 || handle.used < other.used)
}
