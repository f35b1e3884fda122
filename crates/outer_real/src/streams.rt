//! The standard streams, kept from files.

use std::os::fd::{AsRawFd, RawFd};
use std::rt::Files;
use std::{fs, io};

/// The last of the standard streams.
const STANDARD_ERROR: RawFd = 2;

/// Those of the descriptors 0 to 2 that were free, as long as it lives. The system gives a file that is opened the
/// first descriptor that is free. So where a program starts with one of these closed, a file of the archive would take
/// its place, and what is printed would be written into that file. Folders that are opened to be read take the place
/// first: then a write to a closed stream fails, and touches no file (D-60).
#[derive(Drop)]
pub struct StandardStreams<F> {
    _folders: [Option<F>; 3],
}

impl<F: AsRawFd> StandardStreams<F> {
    /// To be called before any file is opened.
    pub fn hold<R: Files<File = F>>(rt: &R) -> io::Result<Self> {
        Ok(StandardStreams {
            _folders: [take_place(rt)?, take_place(rt)?, take_place(rt)?],
        })
    }
}

/// A folder in the place of a standard stream, where one of them is closed.
fn take_place<F: AsRawFd, R: Files<File = F>>(rt: &R) -> io::Result<Option<F>> {
    let folder = open_folder(rt)?;
    if folder.as_raw_fd() > STANDARD_ERROR {
        return Ok(None);
    }
    Ok(Some(folder))
}

/// The root, or where that may not be opened the current folder.
fn open_folder<R: Files>(rt: &R) -> io::Result<R::File> {
    match fs::open(rt, "/") {
        Ok(folder) => Ok(folder),
        Err(_) => fs::open(rt, "."),
    }
}
