//! The calls of the system on the files of a folder.

ghost use Rattle.std.specs.Prelude.{◌<◌, ◌≤◌, IfSome, IfOk, length, vec_len};

use crate::handles::{Access, Handles, has_no_sync};
use crate::lock::ArchiveLock;
use std::alloc::Global;
use std::collections::BTreeMap;
use std::fs::{self, File, OpenOptions};
use std::io::{self, ErrorKind};
use std::os::unix::fs::FileExt;
use std::path::{Path, PathBuf};
use std::rt::Files;

/// What is known of a file's entry in the folder.
#[derive(Clone, Copy)]
enum DirectoryEntry {
    /// There was none at the first look. If another program has made one since, this one makes none.
    Absent,
    /// A crash may take it away: it may be new, or left so by a process that was killed.
    There,
    /// It was synced since the first look.
    Synced,
}

/// A folder and its files. The call that first looks at a file locks it, so that no other program works on it; the system takes the lock away
/// when the file is closed, or the process ends (D-59). A lock that another program has is an error.
#[derive(Drop)]
pub(crate) struct Folder<'a, R> {
    rt: &'a R,
    alloc: Global,
    path: String,
    /// Of the files that were looked at, whether a handle is open or not.
    entries: BTreeMap<u32, DirectoryEntry>,
    handles: Handles,
    /// Who gives the lock of file 0 back before the folder is let go.
    lock: Option<&'a ArchiveLock>,
}

impl<'a, R> Folder<'a, R> {
    pub(crate) fn new(
        alloc: Global,
        rt: &'a R,
        path: String,
        lock: Option<&'a ArchiveLock>,
    ) -> Self {
        Folder {
            rt,
            alloc,
            path,
            entries: BTreeMap::new(alloc),
            handles: Handles::new(alloc),
            lock,
        }
    }
}

impl<'a, R: Files<File = File>> Folder<'a, R> {
    /// The length of a file, 0 where there is none.
    pub(crate) fn len(&mut self, number: u32) -> io::Result<u64> {
        match self.find(number)? {
            Some(place) => Ok(self.handles.files[place].file.metadata()?.len()),
            None => Ok(0),
        }
    }

    /// Fills `into` whole, or fails.
    pub(crate) fn read_at(&mut self, number: u32, at: u64, into: &mut [u8]) -> io::Result<()> {
        match self.find(number)? {
            Some(place) => self.handles.files[place].file.read_exact_at(into, at),
            None if into.is_empty() => Ok(()),
            None => Err(ErrorKind::UnexpectedEof.into()),
        }
    }

    /// Writes all of `from`, or fails. The file and the folder are made where they aren't there.
    pub(crate) fn write_at(&mut self, number: u32, at: u64, from: &[u8]) -> io::Result<()> {
        let place = self.make(number)?;
        self.handles.change(place).write_all_at(from, at)
    }

    /// Cuts a file to a length; a shorter file stays as it is.
    pub(crate) fn cut(&mut self, number: u32, len: u64) -> io::Result<()> {
        let Some(place) = self.find(number)? else {
            return Ok(());
        };
        let file = self.handles.change(place);
        if len < file.metadata()?.len() {
            file.set_len(len)?;
        }
        Ok(())
    }

    /// Takes a file to the device, and its entry in the folder where that isn't known to be there.
    pub(crate) fn sync(&mut self, number: u32) -> io::Result<()> {
        let Some(place) = self.find(number)? else {
            return Ok(());
        };
        self.handles.sync(place)?;
        if !matches!(self.entries.get(&number), Some(DirectoryEntry::Synced)) {
            sync_folder(self.rt, self.path.as_str())?;
            self.entries.insert(number, DirectoryEntry::Synced)?;
        }
        Ok(())
    }

    /// The place of a file's handle, and none where there's no such file: a look makes nothing (D-54).
    fn find(&mut self, number: u32) -> io::Result<Option<usize>>
        ensures { IfOk result (λ found. IfSome found (λ place. place < vec_len self.new.handles.files)) }
    {
        if let Some(lock) = self.lock
            && lock.is_given_back()
        {
            return Err(ErrorKind::Other.into());
        }
        if let Some(place) = self.handles.find(number) {
            return Ok(Some(place));
        }
        match self.entries.get(&number) {
            Some(DirectoryEntry::Absent) => return Ok(None),
            Some(_) => {
                let (file, access) = self.open(number)?;
                return Ok(Some(self.keep(number, file, access)?));
            }
            None => {}
        }
        self.look(number)
    }

    /// The first look at a file.
    fn look(&mut self, number: u32) -> io::Result<Option<usize>>
        ensures { IfOk result (λ found. IfSome found (λ place. place < vec_len self.new.handles.files)) }
    {
        match self.open(number) {
            Ok((file, access)) => {
                self.entries.insert(number, DirectoryEntry::There)?;
                Ok(Some(self.keep(number, file, access)?))
            }
            Err(error) if error.kind() == ErrorKind::NotFound => {
                self.entries.insert(number, DirectoryEntry::Absent)?;
                Ok(None)
            }
            Err(error) => Err(error),
        }
    }

    /// The place of a file's handle. The file is made where it isn't there.
    fn make(&mut self, number: u32) -> io::Result<usize>
        ensures { IfOk result (λ place. place < vec_len self.new.handles.files) }
    {
        if let Some(place) = self.find(number)? {
            return Ok(place);
        }
        self.make_folders()?;
        let mut to_make = to_update();
        to_make.create_new(true);
        let file = self.open_by(&to_make, number)?;
        file.try_lock()?;
        self.entries.insert(number, DirectoryEntry::There)?;
        self.keep(number, file, Access::Update)
    }

    /// Makes the folder and those above it. A symbolic link has its target's entry in another folder than its own, so the entries are taken to the
    /// device along the folder's own path, too.
    fn make_folders(&self) -> io::Result<()> {
        make_folders(self.rt, self.path.as_str())?;
        match self.rt.canonicalize(self.alloc, self.path.as_str()) {
            Ok(own) => make_folders(self.rt, own.as_str()),
            // one that is no text, or too long
            Err(_) => Ok(()),
        }
    }

    /// Keeps a file that was opened and locked, and gives the place of its handle.
    fn keep(&mut self, number: u32, file: File, access: Access) -> io::Result<usize>
        ensures { IfOk result (λ place. place < vec_len self.new.handles.files) }
    {
        self.handles.make_room()?;
        let place = self.handles.add(number, file, access)?;
        if let Some(lock) = self.lock
            && number == 0
        {
            lock.share(&self.handles.files[place].file);
        }
        Ok(place)
    }

    /// Opens a file and locks it. Where it may be read and not written, a lock that readers share is enough, and a write of it fails later (D-53).
    fn open(&self, number: u32) -> io::Result<(File, Access)> {
        match self.open_by(&to_update(), number) {
            Ok(file) => {
                file.try_lock()?;
                Ok((file, Access::Update))
            }
            Err(error) if is_for_reading(error.kind()) => {
                let mut to_read = File::options();
                to_read.read(true);
                let file = self.open_by(&to_read, number)?;
                file.try_lock_shared()?;
                Ok((file, Access::Read))
            }
            Err(error) => Err(error),
        }
    }

    fn open_by(&self, options: &OpenOptions, number: u32) -> io::Result<File> {
        let name = format!(in self.alloc; "{number:08}")?;
        let path: PathBuf = Path::new(self.path.as_str()).join(self.alloc, name)?;
        options.open(self.rt, path)
    }
}

/// Whether a file that wasn't opened to update may still be read.
fn is_for_reading(kind: ErrorKind) -> bool {
    matches!(
        kind,
        ErrorKind::PermissionDenied | ErrorKind::ReadOnlyFilesystem
    )
}

/// To read and to write.
fn to_update() -> OpenOptions {
    let mut options = File::options();
    options.read(true).write(true);
    options
}

/// Takes the entries of a folder to the device, where its file system has a call for that.
fn sync_folder<R: Files<File = File>>(rt: &R, path: &str) -> io::Result<()> {
    let here = if path.is_empty() { "." } else { path };
    match fs::open(rt, here)?.sync_all() {
        Err(error) if has_no_sync(error.kind()) => Ok(()),
        answer => answer,
    }
}

/// Makes a folder and those above it, as far as they aren't there.
fn make_folders<R: Files<File = File>>(rt: &R, path: &str) -> io::Result<()> {
    for end in 1..path.len() {
        if let Some((above, rest)) = path.split_at_checked(end)
            && rest.starts_with('/')
        {
            make_folder(rt, above)?;
        }
    }
    make_folder(rt, path)
}

/// Makes a folder where there is none, and takes its entry to the device, or else takes it away again. The entry of one that is there may
/// have been left off the device by a program that was killed, so it is taken there too (D-55).
fn make_folder<R: Files<File = File>>(rt: &R, path: &str) -> io::Result<()> {
    if path.is_empty() {
        return Ok(());
    }
    let folder = Path::new(path);
    let above = match folder.parent() {
        Some(above) => above.to_string_lossy(),
        None => "",
    };
    if folder.is_dir(rt) {
        return sync_entry(rt, above);
    }
    fs::create_dir(rt, path)?;
    let answer = sync_folder(rt, above);
    if answer.is_err() {
        let _ = fs::remove_dir(rt, path);
    }
    answer
}

/// Takes the entries of a folder to the device. One that may not be read can't be asked to; it is passed over, so that an archive can be made
/// below it.
fn sync_entry<R: Files<File = File>>(rt: &R, path: &str) -> io::Result<()> {
    match sync_folder(rt, path) {
        Err(error) if is_for_reading(error.kind()) => Ok(()),
        answer => answer,
    }
}
