//! A day of commands on disks of which each call fails in turn, what a crash leaves at each moment of it, and commands of which each read fails in turn.

use crate::calls::{Outside, call, files_alone, none_other, text_of};
use crate::failing_tests::Crashing;
use crate::faults::failing;
use crate::files::files;
use crate::in_a_row::{CREATE, Call, other_call, other_on, overwritten};
use crate::late_tests::unfilled;
use arch_disk::{Crash, Disk, MemDisk};
use outer_traits::mem_inputs::FailingCall;
use std::alloc::Global;
use std::sync::Wait;
use std::test::Fail;
use std::thread::Threads;

/// Makes an archive of two tables.
const CREATE_TWO: &str = "create parameters calibrations containers copy";

const DAY: &[&str] = &[
    CREATE_TWO,
    "load --fillers 2 twice third",
    "load --ask asks later",
    "load --route routes later",
    "recover",
    "verify",
    "query --ask asks",
    "query --sql script",
];

/// A function, as each table below is, so that they stand in no goal of its callers.
fn day() -> &'static [&'static str] {
    DAY
}

/// What the archive of that day answers.
const EVENING: &[Call] = &[
    (
        "query --ask asks",
        (
            0,
            "ask 1 front 5\ncell 1500 140951552 8 8\nend 1\n",
            "",
            Some((5, 5)),
        ),
    ),
    (
        "verify",
        (0, "sound rows 5 intervals 2 late 0\n", "", Some((5, 5))),
    ),
];

fn evening() -> &'static [Call] {
    EVENING
}

/// The status of a command, how many rows the archive has afterwards, and the disk.
fn command<D: Disk + Send, R: Threads + Wait + Sync>(
    rt: &R,
    alloc: Global,
    line: &str,
    disk: D,
) -> (u8, u64, D) {
    let (outcome, disk) = call(rt, alloc, line, &files_alone(files()), disk);
    (outcome.status, outcome.after, disk)
}

/// Whether a command answers that it was done, or that the disk failed. It says the second exactly where a call of the disk failed, and is given once
/// more then: the archive of a `create` that failed may be there.
fn goes_on<D: Disk + Send, R: Threads + Wait + Sync>(
    rt: &R,
    alloc: Global,
    line: &str,
    disk: D,
) -> (bool, D) {
    let before = disk.faults();
    let (status, _, disk) = command(rt, alloc, line, disk);
    if disk.faults() == before {
        return (status == 0, disk);
    }
    let (again, _, disk) = command(rt, alloc, line, disk);
    let is_done = again == 0 || (again == 1 && line == CREATE_TWO);
    (status == 5 && is_done, disk)
}

/// Whether all commands of a day go on so, and the disk.
fn all_go_on<D: Disk + Send, R: Threads + Wait + Sync>(
    rt: &R,
    alloc: Global,
    lines: &[&'static str],
    disk: D,
) -> (bool, D) {
    let mut disk = disk;
    for line in lines {
        let (goes, left) = goes_on(rt, alloc, line, disk);
        disk = left;
        if !goes {
            return (false, disk);
        }
    }
    (true, disk)
}

/// What comes of a day on a disk.
#[derive(Clone, Copy, PartialEq, Eq)]
enum Came {
    /// No call of the disk failed.
    Unfailed,
    /// One did, which was told, and the archive answers as on a disk that works.
    Right,
    Wrong,
}

fn came_of<D: Disk + Send + Drop, R: Threads + Wait + Sync>(
    rt: &R,
    alloc: Global,
    disk: D,
) -> Came {
    let (goes, disk) = all_go_on(rt, alloc, day(), disk);
    if disk.faults() == 0 {
        return Came::Unfailed;
    }
    if goes && other_on(rt, alloc, disk, evening()).is_none() {
        Came::Right
    } else {
        Came::Wrong
    }
}

/// The first call of the disk of whose fault something else comes. A day makes some seventy, and how many goes by
/// which job of a load comes first: if these are few, it is call 0.
fn wrong_day<R: Threads + Wait + Sync>(rt: &R, alloc: Global) -> Option<u64> {
    for fails in 1..200u64 {
        match came_of(rt, alloc, failing(alloc, &[fails])) {
            Came::Right => {}
            Came::Unfailed => return if fails > 40 { None } else { Some(0) },
            Came::Wrong => return Some(fails),
        }
    }
    Some(0)
}

#[test]
fn each_call_of_the_disk_fails_in_turn(rt: HostRuntime) -> Result<(), Fail> {
    none_other(wrong_day(&rt, rt.alloc()))
}

/// A command, what `verify` may print of what a crash within it leaves, and how many rows the archive has behind it.
#[derive(Clone, Copy)]
struct Step {
    line: &'static str,
    /// Either of two links may be the first, and an interval be filled before the other link's rows come.
    images: &'static [&'static str],
    behind: u64,
}

/// Whether a text is one of some.
fn is_one_of(text: &[u8], wanted: &[&'static str]) -> bool {
    for want in wanted {
        if text == want.as_bytes() {
            return true;
        }
    }
    false
}

/// What a crash left: its archive, with rows and fills as a step may leave them, none, as before a `create`, or something else.
#[derive(Clone, Copy, PartialEq, Eq)]
enum Left {
    Archive,
    NoArchive,
    Wrong,
}

/// That, and the disk.
fn left_of<D: Disk + Send, R: Threads + Wait + Sync>(
    rt: &R,
    alloc: Global,
    image: D,
    step: &Step,
) -> (Left, D) {
    let (outcome, text, image) = text_of(rt, alloc, "verify", &files_alone(files()), image);
    let left = match outcome.status {
        0 if is_one_of(text.as_slice(), step.images) => Left::Archive,
        1 if step.line == CREATE_TWO => Left::NoArchive,
        _ => Left::Wrong,
    };
    (left, image)
}

/// Whether what a crash left is so, and opens; the step's command makes it whole then.
fn opens<D: Disk + Send + Drop, R: Threads + Wait + Sync>(
    rt: &R,
    alloc: Global,
    image: D,
    step: &Step,
) -> bool {
    let (left, image) = left_of(rt, alloc, image, step);
    let (status, _, image) = command(rt, alloc, "recover", image);
    let (again, whole, _image) = command(rt, alloc, step.line, image);
    let is_whole = (again == 0 && whole == step.behind) || (again == 1 && step.line == CREATE_TWO);
    match left {
        Left::Archive => status == 0 && is_whole,
        Left::NoArchive => status == 1 && again == 0,
        Left::Wrong => false,
    }
}

/// The same of each kind of crash at a moment.
fn all_open<D: Crashing, R: Threads + Wait + Sync>(
    rt: &R,
    alloc: Global,
    disk: &D,
    moment: usize,
    step: &Step,
) -> bool {
    for crash in Crash::ALL {
        let is_so = match disk.image_at(moment, crash) {
            Some(image) => opens(rt, alloc, image, step),
            None => false,
        };
        if !is_so {
            return false;
        }
    }
    true
}

/// The same of each moment behind the first calls.
fn all_open_since<D: Crashing, R: Threads + Wait + Sync>(
    rt: &R,
    alloc: Global,
    disk: &D,
    from: usize,
    step: &Step,
) -> bool {
    for moment in from..disk.kept() {
        if !all_open(rt, alloc, disk, moment.saturating_add(1), step) {
            return false;
        }
    }
    true
}

/// What `verify` prints once all of these have come.
const ALL_FILLED: &[&str] = &["sound rows 4 intervals 2 late 0\n"];

const STEPS: &[Step] = &[
    Step {
        line: CREATE_TWO,
        images: &["sound rows 0 intervals 0 late 0\n"],
        behind: 0,
    },
    Step {
        line: "load twice",
        images: &[
            "sound rows 0 intervals 0 late 0\n",
            "sound rows 2 intervals 1 late 1\n",
            "sound rows 2 intervals 1 late 0\n",
        ],
        behind: 2,
    },
    Step {
        line: "load --fillers 2 third later",
        images: &[
            "sound rows 2 intervals 1 late 0\n",
            "sound rows 3 intervals 1 late 1\n",
            "sound rows 3 intervals 1 late 0\n",
            "sound rows 3 intervals 2 late 1\n",
            "sound rows 3 intervals 2 late 0\n",
            "sound rows 4 intervals 2 late 2\n",
            "sound rows 4 intervals 2 late 1\n",
            "sound rows 4 intervals 2 late 0\n",
        ],
        behind: 4,
    },
    Step {
        line: "recover",
        images: ALL_FILLED,
        behind: 4,
    },
    Step {
        line: "verify",
        images: ALL_FILLED,
        behind: 4,
    },
    Step {
        line: "query --ask asks",
        images: ALL_FILLED,
        behind: 4,
    },
    Step {
        line: "query --sql script",
        images: ALL_FILLED,
        behind: 4,
    },
    Step {
        line: "load --route routes later",
        images: &[
            "sound rows 4 intervals 2 late 0\n",
            "sound rows 5 intervals 2 late 0\n",
        ],
        behind: 5,
    },
];

fn steps() -> &'static [Step] {
    STEPS
}

/// The fills of two intervals are wanting.
const FILLS: &[Step] = &[Step {
    line: "recover",
    images: &[
        "sound rows 3 intervals 2 late 2\n",
        "sound rows 3 intervals 2 late 1\n",
        "sound rows 3 intervals 2 late 0\n",
    ],
    behind: 3,
}];

fn fills() -> &'static [Step] {
    FILLS
}

/// Whether what crashes leave during a command opens so, and the disk.
fn is_right_across<D: Crashing, R: Threads + Wait + Sync>(
    rt: &R,
    alloc: Global,
    step: &Step,
    disk: D,
) -> (bool, D) {
    let from = disk.kept();
    let (status, rows, disk) = command(rt, alloc, step.line, disk);
    let are_open = all_open_since(rt, alloc, &disk, from, step);
    (status == 0 && rows == step.behind && are_open, disk)
}

/// The place of the first of these commands of which it isn't so.
fn wrong_step<D: Crashing, R: Threads + Wait + Sync>(
    rt: &R,
    alloc: Global,
    steps: &[Step],
    disk: D,
) -> Option<usize> {
    let mut disk = disk;
    let mut place = 0usize;
    for step in steps {
        let (is_right, left) = is_right_across(rt, alloc, step, disk);
        disk = left;
        if !is_right {
            return Some(place);
        }
        place = place.saturating_add(1);
    }
    None
}

/// The same of the recovery of an archive without fills.
fn wrong_fill<D: Crashing, R: Threads + Wait + Sync>(
    rt: &R,
    alloc: Global,
    disk: D,
) -> Option<usize> {
    let (_, disk) = overwritten(rt, alloc, disk, &unfilled());
    wrong_step(rt, alloc, fills(), disk)
}

#[test]
fn crashes_at_each_moment(rt: HostRuntime) -> Result<(), Fail> {
    let alloc = rt.alloc();
    none_other(wrong_step(&rt, alloc, steps(), MemDisk::new(alloc)))?;
    none_other(wrong_fill(&rt, alloc, MemDisk::new(alloc)))
}

/// A command, whether it is given to an archive, and how many inputs it opens.
type Reader = (&'static str, bool, u64);

const READERS: &[Reader] = &[
    ("scan twice", false, 1),
    (
        "values parameters calibrations containers twice v",
        false,
        4,
    ),
    ("create parameters calibrations containers copy", false, 4),
    ("load twice", true, 1),
    ("load --route all --ask asks twice third", true, 4),
    ("query --ask asks", true, 1),
    ("query --sql script", true, 1),
];

fn readers() -> &'static [Reader] {
    READERS
}

const MADE: &[Call] = &[(
    CREATE,
    (
        0,
        "created tables 1 parameters 2 containers 1\n",
        "",
        Some((0, 0)),
    ),
)];

fn made() -> &'static [Call] {
    MADE
}

const UNMADE: &[Call] = &[];

fn unmade() -> &'static [Call] {
    UNMADE
}

/// Whether a command tells that a read failed, and prints nothing.
fn is_told<D: Disk + Send + Drop, R: Threads + Wait + Sync>(
    rt: &R,
    alloc: Global,
    reader: &Reader,
    opening: u64,
    read: u64,
    disk: D,
) -> bool {
    let (line, has_archive, _) = *reader;
    let calls = if has_archive { made() } else { unmade() };
    let (_, disk) = other_call(rt, alloc, disk, calls);
    let outside = Outside {
        files: files(),
        reads: &[FailingCall { opening, read }],
        writes: &[],
    };
    let (outcome, _disk) = call(rt, alloc, line, &outside, disk);
    outcome.status == 3 && outcome.printed == 0
}

/// The same of each read of one input: that it is opened, its octets, and that there are no more.
fn all_told<R: Threads + Wait + Sync>(
    rt: &R,
    alloc: Global,
    reader: &Reader,
    opening: u64,
) -> bool {
    for read in 0..3u64 {
        if !is_told(rt, alloc, reader, opening, read, MemDisk::new(alloc)) {
            return false;
        }
    }
    true
}

/// Whether it is so of each input of a command.
fn is_told_of_each<R: Threads + Wait + Sync>(rt: &R, alloc: Global, reader: &Reader) -> bool {
    let (_, _, inputs) = *reader;
    for before in 0..inputs {
        if !all_told(rt, alloc, reader, before.saturating_add(1)) {
            return false;
        }
    }
    true
}

/// The place of the first of these commands of which it isn't.
fn untold<R: Threads + Wait + Sync>(rt: &R, alloc: Global, readers: &[Reader]) -> Option<usize> {
    let mut place = 0usize;
    for reader in readers {
        if !is_told_of_each(rt, alloc, reader) {
            return Some(place);
        }
        place = place.saturating_add(1);
    }
    None
}

#[test]
fn each_read_fails_in_turn(rt: HostRuntime) -> Result<(), Fail> {
    none_other(untold(&rt, rt.alloc(), readers()))
}
