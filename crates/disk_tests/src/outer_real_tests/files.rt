//! What the files of a disk hold, and the calls on them that fail.

use super::folders::{has_octets, is_free, make, make_anew, take_away, write_file};
use super::steps::{Step, Task, answers, does};
use crate::ends::{none_other, other};
use std::test::Fail;

const FIRST_WRITE: &[Step] = &[
    Step::Cut(0, 0, true),
    Step::Sync(0, true),
    Step::Write(12, 0, b"ab", true),
    Step::Sync(12, true),
];

const NO_WRITE: &[Step] = &[Step::Cut(0, 0, true), Step::Sync(0, true)];

/// They are functions, as those below, so that the tables stand in no goal of their callers.
fn first_write() -> &'static [Step] {
    FIRST_WRITE
}

fn no_write() -> &'static [Step] {
    NO_WRITE
}

fn makes_its_folders_at_the_first_write(rt: &HostRuntime) -> bool {
    let _ = take_away(rt, "outer_real_folders");
    answers(rt, "outer_real_folders/a/b", no_write())
        && is_free(rt, "outer_real_folders")
        && answers(rt, "outer_real_folders/a/b", first_write())
        && has_octets(rt, "outer_real_folders/a/b/00000012", b"ab")
        && take_away(rt, "outer_real_folders")
}

/// A file has no such place.
const TOO_FAR: u64 = 1 << 63;

const OVER_AND_BEHIND: &[Step] = &[
    Step::Write(1, 0, b"abcdef", true),
    Step::Write(1, 4, b"EFG", true),
    Step::Len(1, Some(7)),
];

/// Writes over what stands there, and past the end.
fn over_and_behind() -> &'static [Step] {
    OVER_AND_BEHIND
}

const CUTS: &[Step] = &[Step::Cut(1, 9, true), Step::Cut(1, 4, true)];

/// A cut never lengthens.
fn cuts() -> &'static [Step] {
    CUTS
}

const READ_WITHIN: &[Step] = &[Step::Read(1, 2, Some([b'c', b'd']))];

/// A read from a place.
fn read_within() -> &'static [Step] {
    READ_WITHIN
}

const READ_BEHIND: &[Step] = &[Step::Read(1, 1, None)];

/// A read past the end.
fn read_behind() -> &'static [Step] {
    READ_BEHIND
}

const WRITE_TOO_FAR: &[Step] = &[Step::Write(1, TOO_FAR, b"ab", false), Step::Faults(1)];

/// A write too far.
fn write_too_far() -> &'static [Step] {
    WRITE_TOO_FAR
}

/// Whether a new disk answers calls so, where file 1 holds these octets.
fn answers_with(rt: &HostRuntime, octets: &[u8], steps: &[Step]) -> bool {
    make_anew(rt, "outer_real_calls")
        && write_file(rt, "outer_real_calls/00000001", octets)
        && answers(rt, "outer_real_calls", steps)
}

/// The same where file 1 isn't there.
fn answers_without(rt: &HostRuntime, steps: &[Step]) -> bool {
    make_anew(rt, "outer_real_calls") && answers(rt, "outer_real_calls", steps)
}

fn writes_cuts_and_reads(rt: &HostRuntime) -> bool {
    answers_without(rt, over_and_behind())
        && has_octets(rt, "outer_real_calls/00000001", b"abcdEFG")
        && answers_with(rt, b"abcdef", cuts())
        && has_octets(rt, "outer_real_calls/00000001", b"abcd")
        && answers_with(rt, b"abcdef", read_within())
        && answers_with(rt, b"ab", read_behind())
        && answers_without(rt, write_too_far())
        && take_away(rt, "outer_real_calls")
}

const EMPTY: &[Step] = &[Step::Len(0, Some(0)), Step::Read(0, 0, None)];

fn empty() -> &'static [Step] {
    EMPTY
}

fn file_that_is_not_there_is_empty(rt: &HostRuntime) -> bool {
    let _ = take_away(rt, "outer_real_absent");
    answers(rt, "outer_real_absent", empty())
}

const FAILURES: &[Step] = &[
    Step::Len(0, None),
    Step::Read(0, 0, None),
    Step::Write(0, 0, b"a", false),
    Step::Cut(0, 0, false),
    Step::Sync(0, false),
    Step::Faults(5),
];

/// Every call on file 0 fails.
pub(super) fn failures() -> &'static [Step] {
    FAILURES
}

fn folder_in_a_files_place_fails_every_call(rt: &HostRuntime) -> bool {
    make_anew(rt, "outer_real_folder")
        && make(rt, "outer_real_folder/00000000")
        && answers(rt, "outer_real_folder", failures())
        && take_away(rt, "outer_real_folder")
}

fn file_in_the_folders_place_fails_every_call(rt: &HostRuntime) -> bool {
    make_anew(rt, "outer_real_file")
        && write_file(rt, "outer_real_file/file", b"ab")
        && answers(rt, "outer_real_file/file", failures())
        && has_octets(rt, "outer_real_file/file", b"ab")
        && take_away(rt, "outer_real_file")
}

/// Whether a task is done in a new folder, which is taken away behind it.
pub(super) fn does_in(rt: &HostRuntime, folder: &str, task: &Task) -> bool {
    make_anew(rt, folder) && does(rt, folder, task) && take_away(rt, folder)
}

#[test]
fn files_of_a_disk(rt: HostRuntime) -> Result<(), Fail> {
    none_other(other(&[
        ("folders", makes_its_folders_at_the_first_write(&rt)),
        ("writes, cuts, reads", writes_cuts_and_reads(&rt)),
        ("no file", file_that_is_not_there_is_empty(&rt)),
        ("a folder", folder_in_a_files_place_fails_every_call(&rt)),
        ("a file", file_in_the_folders_place_fails_every_call(&rt)),
    ]))
}

#[test]
fn many_files(rt: HostRuntime) -> Result<(), Fail> {
    none_other(other(&[
        (
            "in turn",
            does_in(&rt, "outer_real_many", &Task::KeepMany(true)),
        ),
        (
            "unsynced",
            does_in(&rt, "outer_real_unsynced", &Task::KeepMany(false)),
        ),
        (
            "a file that is gone",
            does_in(&rt, "outer_real_gone", &Task::LoseOne),
        ),
    ]))
}
