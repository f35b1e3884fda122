//! Folders and files of the tests, each by its name in the system's place for such: so no test owns a path. Each call answers whether it is done.

use std::alloc::AllocError;
use std::{env, fs};

fn joined(rt: &HostRuntime, top: &str, name: &str) -> Result<String, AllocError> {
    format!(in rt.alloc(); "{top}/{name}")
}

/// The path of a name, where the system has a place for such.
pub(super) fn path_of(rt: &HostRuntime, name: &str) -> Option<String> {
    match env::temp_dir(rt) {
        Ok(top) => joined(rt, top.as_str(), name).ok(),
        Err(_) => None,
    }
}

/// Takes away a folder that is there.
pub(super) fn take_away(rt: &HostRuntime, folder: &str) -> bool {
    match path_of(rt, folder) {
        Some(path) => fs::remove_dir_all(rt, path).is_ok(),
        None => false,
    }
}

/// Makes a folder.
pub(super) fn make(rt: &HostRuntime, folder: &str) -> bool {
    match path_of(rt, folder) {
        Some(path) => fs::create_dir(rt, path).is_ok(),
        None => false,
    }
}

/// Makes a folder in which nothing stands.
pub(super) fn make_anew(rt: &HostRuntime, folder: &str) -> bool {
    let _ = take_away(rt, folder);
    make(rt, folder)
}

/// Takes away a file that is there.
pub(super) fn take_file_away(rt: &HostRuntime, name: &str) -> bool {
    match path_of(rt, name) {
        Some(path) => fs::remove_file(rt, path).is_ok(),
        None => false,
    }
}

/// Makes a new file of these octets.
pub(super) fn write_file(rt: &HostRuntime, name: &str, octets: &[u8]) -> bool {
    match path_of(rt, name) {
        Some(path) => fs::write(rt, path, octets).is_ok(),
        None => false,
    }
}

fn are_octets(rt: &HostRuntime, path: String, want: &[u8]) -> bool {
    match fs::read(rt, path) {
        Ok(octets) => octets.as_slice() == want,
        Err(_) => false,
    }
}

/// Whether a file has these octets.
pub(super) fn has_octets(rt: &HostRuntime, name: &str, octets: &[u8]) -> bool {
    match path_of(rt, name) {
        Some(path) => are_octets(rt, path, octets),
        None => false,
    }
}

/// Whether nothing has a name.
pub(super) fn is_free(rt: &HostRuntime, name: &str) -> bool {
    match path_of(rt, name) {
        Some(path) => matches!(fs::exists(rt, path), Ok(false)),
        None => false,
    }
}
