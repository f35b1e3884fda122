//! Two programs on one folder: two disks, since a lock belongs to the handle that took it.

use super::files::{does_in, failures};
use super::folders::{has_octets, make_anew, path_of, take_away, write_file};
use super::steps::{Step, Task, answers, does, gives_back};
use crate::ends::{none_other, other};
use std::fs::{self, File, Permissions};
use std::os::unix::fs::PermissionsExt;
use std::test::Fail;

const TWO_OCTETS: &[Step] = &[Step::Len(0, Some(2))];

const WRITE: &[Step] = &[Step::Write(0, 0, b"ab", true)];

const LOCKED: &[Step] = &[Step::Len(0, None)];

/// They are functions, so that the tables stand in no goal of their callers.
fn two_octets() -> &'static [Step] {
    TWO_OCTETS
}

fn write() -> &'static [Step] {
    WRITE
}

fn locked() -> &'static [Step] {
    LOCKED
}

fn second_disk_fails_every_call(rt: &HostRuntime) -> bool {
    make_anew(rt, "outer_real_second")
        && write_file(rt, "outer_real_second/00000000", b"ab")
        && does(
            rt,
            "outer_real_second",
            &Task::Two(two_octets(), failures()),
        )
        && has_octets(rt, "outer_real_second/00000000", b"ab")
        && take_away(rt, "outer_real_second")
}

fn lock_goes_with_its_disk(rt: &HostRuntime) -> bool {
    make_anew(rt, "outer_real_free")
        && answers(rt, "outer_real_free", write())
        && answers(rt, "outer_real_free", two_octets())
        && take_away(rt, "outer_real_free")
}

fn file_made_by_another_is_not_written(rt: &HostRuntime) -> bool {
    make_anew(rt, "outer_real_other")
        && does(rt, "outer_real_other", &Task::LeaveAnothers)
        && has_octets(rt, "outer_real_other/00000000", b"other")
        && take_away(rt, "outer_real_other")
}

fn lock_is_given_back(rt: &HostRuntime) -> bool {
    make_anew(rt, "outer_real_back")
        && gives_back(rt, "outer_real_back", two_octets())
        && take_away(rt, "outer_real_back")
}

#[test]
fn locks(rt: HostRuntime) -> Result<(), Fail> {
    none_other(other(&[
        ("a second disk", second_disk_fails_every_call(&rt)),
        (
            "a new file",
            does_in(&rt, "outer_real_new", &Task::Two(write(), locked())),
        ),
        ("a disk that is gone", lock_goes_with_its_disk(&rt)),
        ("a lock that is given back", lock_is_given_back(&rt)),
        ("another's file", file_made_by_another_is_not_written(&rt)),
        (
            "file 0 beside many",
            does_in(&rt, "outer_real_zero", &Task::BesideMany(locked())),
        ),
    ]))
}

/// Gives what has a name these permissions.
fn permit(rt: &HostRuntime, name: &str, mode: u32) -> bool {
    match path_of(rt, name) {
        Some(path) => fs::set_permissions(rt, path, Permissions::from_mode(mode)).is_ok(),
        None => false,
    }
}

/// Whether this process may write a file.
fn may_write(rt: &HostRuntime, name: &str) -> bool {
    match path_of(rt, name) {
        Some(path) => {
            let mut to_write = File::options();
            to_write.write(true);
            to_write.open(rt, path).is_ok()
        }
        None => false,
    }
}

const READ: &[Step] = &[Step::Sync(0, true), Step::Read(0, 0, Some([b'a', b'b']))];

const REFUSED: &[Step] = &[Step::Write(0, 0, b"AB", false)];

const WRITTEN: &[Step] = &[Step::Write(0, 0, b"AB", true), Step::Cut(0, 1, true)];

fn read() -> &'static [Step] {
    READ
}

/// What a write is answered, by whether this process may write the file.
fn written_where(may_write: bool) -> &'static [Step] {
    if may_write { WRITTEN } else { REFUSED }
}

/// What a second disk is answered, by the same: one that may write locks the file for itself.
fn shared_where(may_write: bool) -> &'static [Step] {
    if may_write { LOCKED } else { TWO_OCTETS }
}

/// Makes a folder and a file 0 of two octets in it, which may both be read and not written.
fn make_read_only(rt: &HostRuntime) -> bool {
    make_anew(rt, "outer_real_read_only")
        && write_file(rt, "outer_real_read_only/00000000", b"ab")
        && permit(rt, "outer_real_read_only/00000000", 0o444)
        && permit(rt, "outer_real_read_only", 0o555)
}

fn take_read_only_away(rt: &HostRuntime) -> bool {
    permit(rt, "outer_real_read_only", 0o755) && take_away(rt, "outer_real_read_only")
}

/// Root may write it none the less.
fn may_write_read_only(rt: &HostRuntime) -> bool {
    may_write(rt, "outer_real_read_only/00000000")
}

fn is_read_and_synced(rt: &HostRuntime) -> bool {
    make_read_only(rt) && answers(rt, "outer_real_read_only", read()) && take_read_only_away(rt)
}

fn is_not_written(rt: &HostRuntime) -> bool {
    make_read_only(rt)
        && answers(
            rt,
            "outer_real_read_only",
            written_where(may_write_read_only(rt)),
        )
        && take_read_only_away(rt)
}

fn is_shared(rt: &HostRuntime) -> bool {
    let is_made = make_read_only(rt);
    let steps = shared_where(may_write_read_only(rt));
    is_made
        && does(rt, "outer_real_read_only", &Task::Two(two_octets(), steps))
        && take_read_only_away(rt)
}

#[test]
fn a_read_only_file(rt: HostRuntime) -> Result<(), Fail> {
    none_other(other(&[
        ("is read and synced", is_read_and_synced(&rt)),
        ("is not written", is_not_written(&rt)),
        ("is shared by readers", is_shared(&rt)),
    ]))
}
