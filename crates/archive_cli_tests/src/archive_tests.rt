//! The commands on an archive in memory: a day of them, what each refuses and in which order, over a disk, inputs and an output that fail too.
//!
//! A test lists calls and their endings as data. What owns a disk is generic in it, as `calls` says.

use crate::calls::{Outside, Wanted, called, files_alone, none_other, none_other_of};
use crate::faults::failing;
use crate::files::files;
use crate::in_a_row::{
    CREATE, CREATED, Call, Named, other_alone, other_call, other_on, other_over, other_run,
};
use crate::late_tests::late_packets;
use arch_disk::{Disk, MemDisk};
use outer_traits::mem_inputs::FailingCall;
use std::alloc::{AllocError, Global};
use std::sync::Wait;
use std::test::Fail;
use std::thread::Threads;

const USAGE: Wanted = (1, "", "usage", None);

const FIRST_LOAD: &str = "load packets 3 new 2 duplicates 1 idle 0 rows 2\n";

const LOAD_AGAIN: &str = "load packets 3 new 0 duplicates 3 idle 0 rows 2\n";

const A_DAY: &[Call] = &[
    ("recover", (1, "", "no archive", None)),
    ("verify", (1, "", "no archive", None)),
    ("query --ask asks", (1, "", "no archive", None)),
    ("query --sql bad", (1, "", "no archive", None)),
    ("query --sql x", (1, "", "no input x", None)),
    ("load --link 256 twice", (1, "", "no archive", None)),
    (CREATE, (0, CREATED, "", Some((0, 0)))),
    (
        "verify",
        (0, "sound rows 0 intervals 0 late 0\n", "", Some((0, 0))),
    ),
    (CREATE, (1, "", "archive exists", None)),
    (
        "query --ask asks",
        (0, "ask 1 front 0\nend 0\n", "", Some((0, 0))),
    ),
    ("query --sql script", (0, "select 0\n", "", Some((0, 0)))),
    (
        "load --link 256 twice",
        (2, "", "limit Links 255", Some((0, 0))),
    ),
    ("load x", (1, "", "no input x", None)),
    (
        "load twice",
        (
            0,
            "load packets 3 new 2 duplicates 1 idle 0 rows 2\n",
            "",
            Some((0, 2)),
        ),
    ),
    (
        "query --ask asks",
        (
            0,
            "ask 1 front 2\ncell 1500 140886016 7 7\nend 1\n",
            "",
            Some((2, 2)),
        ),
    ),
    (
        "load --link=255 twice",
        (
            0,
            "load packets 3 new 0 duplicates 3 idle 0 rows 2\n",
            "",
            Some((2, 2)),
        ),
    ),
    (
        "load broken",
        (2, "", "bad packet at 20: version", Some((2, 2))),
    ),
    (
        "query --ask=unknown",
        (1, "", "unknown parameter", Some((2, 2))),
    ),
    (
        "query --ask=backwards",
        (1, "", "bad range 2000 0", Some((2, 2))),
    ),
    (
        "query --ask=bad",
        (2, "", "bad sheet asks row 1 rule 1", Some((2, 2))),
    ),
    (
        "recover",
        (0, "recovered rows 2 filled 0\n", "", Some((2, 2))),
    ),
    (
        "verify",
        (0, "sound rows 2 intervals 1 late 0\n", "", Some((2, 2))),
    ),
];

fn a_day_of_calls() -> &'static [Call] {
    A_DAY
}

/// Calls that make an archive with a script, each on a disk of its own: what is made, and what refuses it, in the order of the refusals.
const CREATIONS: &[Call] = &[
    (
        "create parameters calibrations three copy",
        (
            0,
            "created tables 2 parameters 2 containers 3\n",
            "",
            Some((0, 0)),
        ),
    ),
    (
        "create parameters calibrations containers nothing",
        (0, CREATED, "", Some((0, 0))),
    ),
    (
        "create parameters calibrations containers fifteen",
        (
            0,
            "created tables 16 parameters 2 containers 1\n",
            "",
            Some((0, 0)),
        ),
    ),
    (
        "create x calibrations containers y",
        (1, "", "no input x", None),
    ),
    (
        "create parameters calibrations bad y",
        (1, "", "no input y", None),
    ),
    (
        "create parameters calibrations bad taken",
        (2, "", "bad sheet containers row 1 rule 1", None),
    ),
    (
        "create parameters calibrations containers named",
        (1, "", "bad sql at 0 rule 1", None),
    ),
    (
        "create parameters calibrations containers cut",
        (1, "", "bad sql at 19 rule 2", None),
    ),
    (
        "create parameters calibrations containers all",
        (1, "", "bad sql at 0 rule 3", None),
    ),
    (
        "create parameters calibrations containers taken",
        (1, "", "bad sql at 13 rule 5", None),
    ),
    (
        "create parameters calibrations containers again",
        (1, "", "bad sql at 37 rule 5", None),
    ),
    (
        "create parameters calibrations containers unlike",
        (1, "", "bad sql at 20 rule 7", None),
    ),
    (
        "create parameters calibrations containers sixteen",
        (2, "", "limit Tables 16", None),
    ),
    ("create parameters calibrations containers copy copy", USAGE),
];

fn creations() -> &'static [Call] {
    CREATIONS
}

#[test]
fn creates_tables(rt: HostRuntime) -> Result<(), Fail> {
    none_other(other_alone(&rt, rt.alloc(), creations()))
}

/// A script is looked at before the disk.
const ON_AN_ARCHIVE: &[Call] = &[
    (CREATE, (0, CREATED, "", Some((0, 0)))),
    (
        "create parameters calibrations containers taken",
        (1, "", "bad sql at 13 rule 5", None),
    ),
    (
        "create parameters calibrations containers copy",
        (1, "", "archive exists", None),
    ),
];

fn on_an_archive() -> &'static [Call] {
    ON_AN_ARCHIVE
}

const WITH_COPY: &str = "create parameters calibrations three copy";

const CREATED_COPY: &str = "created tables 2 parameters 2 containers 3\n";

/// Loads by a route: into two tables, into none, again, and without one.
const ROUTED: &[Call] = &[
    (WITH_COPY, (0, CREATED_COPY, "", Some((0, 0)))),
    (
        "load --route nothing named",
        (
            0,
            "load packets 2 new 0 duplicates 0 idle 0 rows 0\n",
            "",
            Some((0, 0)),
        ),
    ),
    (
        "load --route routes named",
        (
            0,
            "load packets 2 new 3 duplicates 0 idle 0 rows 3\n",
            "",
            Some((0, 3)),
        ),
    ),
    (
        "load named --route=routes",
        (
            0,
            "load packets 2 new 0 duplicates 3 idle 0 rows 3\n",
            "",
            Some((3, 3)),
        ),
    ),
    (
        "load named",
        (
            0,
            "load packets 2 new 0 duplicates 2 idle 0 rows 3\n",
            "",
            Some((3, 3)),
        ),
    ),
    (
        "query --ask both",
        (
            0,
            "ask 1 front 3\ncell 1500 140886016 7 7\nend 1\nask 2 front 3\npacket tm 1500 140886016 1 B 13\nend 1\n",
            "",
            Some((3, 3)),
        ),
    ),
    (
        "query --ask of_copy",
        (
            0,
            "ask 1 front 3\npacket copy 1500 140820480 1 A 14\nend 1\n",
            "",
            Some((3, 3)),
        ),
    ),
    (
        "query --sql merged",
        (
            0,
            "1970-01-01T00:00:01.500 140820480 A\n1970-01-01T00:00:01.500 140820480 A\n1970-01-01T00:00:01.500 140886016 B\nselect 3\n",
            "",
            Some((3, 3)),
        ),
    ),
    ("query --sql no_row", (0, "select 0\n", "", Some((3, 3)))),
    (
        "query --sql none_of_copy",
        (0, "select 0\n", "", Some((3, 3))),
    ),
    (
        "recover",
        (0, "recovered rows 3 filled 0\n", "", Some((3, 3))),
    ),
];

pub(crate) fn routed() -> &'static [Call] {
    ROUTED
}

/// A table that two INSERTs reach has a packet once, and one that none reaches hasn't.
const REACHED_TWICE: &[Call] = &[
    (WITH_COPY, (0, CREATED_COPY, "", Some((0, 0)))),
    (
        "load --route named_a named",
        (
            0,
            "load packets 2 new 1 duplicates 0 idle 0 rows 1\n",
            "",
            Some((0, 1)),
        ),
    ),
];

fn reached_twice() -> &'static [Call] {
    REACHED_TWICE
}

/// What refuses a load by a route, in the order of the refusals.
const ROUTES_REFUSED: &[Call] = &[
    ("load --ask x --route y z", (1, "", "no input y", None)),
    ("load --route taken --ask x z", (1, "", "no input x", None)),
    (
        "load --route taken --ask bad z",
        (1, "", "no input z", None),
    ),
    (
        "load --route taken --ask bad named",
        (1, "", "no archive", None),
    ),
    (CREATE, (0, CREATED, "", Some((0, 0)))),
    (
        "load --route taken --ask bad --link 256 named",
        (2, "", "limit Links 255", Some((0, 0))),
    ),
    (
        "load --route taken --ask bad named",
        (1, "", "bad sql at 0 rule 3", Some((0, 0))),
    ),
    (
        "load --route cut --ask bad named",
        (1, "", "bad sql at 19 rule 2", Some((0, 0))),
    ),
    (
        "load --route named --ask bad named",
        (1, "", "bad sql at 0 rule 1", Some((0, 0))),
    ),
    (
        "load --route other --ask bad broken",
        (1, "", "unknown table other", Some((0, 0))),
    ),
    (
        "load --route routes broken",
        (1, "", "unknown table copy", Some((0, 0))),
    ),
    (
        "load --route all --ask bad broken",
        (2, "", "bad sheet asks row 1 rule 1", Some((0, 0))),
    ),
    ("load named --route", USAGE),
    ("load --route all --route all named", USAGE),
];

fn routes_refused() -> &'static [Call] {
    ROUTES_REFUSED
}

const ANSWERED: &str =
    "ask 1 front 2\ncell 1500 140886016 7 7\nend 1\nload packets 3 new 0 duplicates 3 idle 0 rows 2\n";

const REPLAYED: &str =
    "ask 1 front 2\npacket tm 1500 140820480 7 HDR 13\npacket tm 1500 140886016 7 HDR 13\nend 2\nload packets 3 new 0 duplicates 3 idle 0 rows 2\n";

const LOADS_WITH_ASKS: &[Call] = &[
    ("load --ask bad twice", (1, "", "no archive", None)),
    (CREATE, (0, CREATED, "", Some((0, 0)))),
    ("load --ask x y", (1, "", "no input x", None)),
    ("load --ask bad y", (1, "", "no input y", None)),
    (
        "load --ask bad --link 256 twice",
        (2, "", "limit Links 255", Some((0, 0))),
    ),
    (
        "load --ask bad twice",
        (2, "", "bad sheet asks row 1 rule 1", Some((0, 0))),
    ),
    (
        "load twice --ask unknown",
        (1, "", "unknown parameter", Some((0, 0))),
    ),
    (
        "load --ask=backwards broken",
        (1, "", "bad range 2000 0", Some((0, 0))),
    ),
    // What a reader answers beside a dump with new rows may be over the history before them.
    ("load --link 7 twice", (0, FIRST_LOAD, "", Some((0, 2)))),
    (
        "load --ask asks --link 7 twice",
        (0, ANSWERED, "", Some((2, 2))),
    ),
    (
        "load --link 9 --ask replayed twice",
        (0, REPLAYED, "", Some((2, 2))),
    ),
    (
        "load --ask asks broken",
        (2, "", "bad packet at 20: version", Some((2, 2))),
    ),
    (
        "load --ask twice twice",
        (2, "", "bad sheet asks row 1 rule 1", Some((2, 2))),
    ),
    (
        "load --ask asks asks",
        (2, "", "bad packet at 0: version", Some((2, 2))),
    ),
    ("load --ask= twice", USAGE),
    ("load --ask asks --ask asks twice", USAGE),
    ("load twice --ask", USAGE),
];

fn calls_with_asks() -> &'static [Call] {
    LOADS_WITH_ASKS
}

const WORDS_OF_A_LOAD: &[Call] = &[
    (CREATE, (0, CREATED, "", Some((0, 0)))),
    ("load --link 7 twice", (0, FIRST_LOAD, "", Some((0, 2)))),
    ("load twice --link 255", (0, LOAD_AGAIN, "", Some((2, 2)))),
    ("load --link 007 twice", (0, LOAD_AGAIN, "", Some((2, 2)))),
    ("load --link 0 twice", USAGE),
    ("load --link 12345678901234567890 twice", USAGE),
    ("load --link 1 --link 1 twice", USAGE),
    ("load twice --link", USAGE),
    ("load --fillers 0 twice", USAGE),
    ("load --fillers 9 x", (2, "", "limit Fillers 8", None)),
    ("load", USAGE),
    ("recover x", USAGE),
    ("verify x", USAGE),
    ("query", USAGE),
    ("query --sql script --ask asks", USAGE),
    ("query --sql script --sql script", USAGE),
    ("query script", USAGE),
];

const MANY_DUMPS: &[Call] = &[
    (CREATE, (0, CREATED, "", Some((0, 0)))),
    ("load third x y", (1, "", "no input x", None)),
    (
        "load --link 255 third twice",
        (2, "", "limit Links 255", Some((0, 0))),
    ),
    // The first link is refused, and the second goes on to its end.
    (
        "load asks third",
        (2, "", "bad packet at 0: version", Some((0, 1))),
    ),
    (
        "load --fillers 2 third twice",
        (
            0,
            "load packets 4 new 2 duplicates 2 idle 0 rows 3\n",
            "",
            Some((1, 3)),
        ),
    ),
    (
        "load --fillers 8 --link 254 twice twice",
        (
            0,
            "load packets 6 new 0 duplicates 6 idle 0 rows 3\n",
            "",
            Some((3, 3)),
        ),
    ),
    (
        "load twice broken asks",
        (2, "", "bad packet at 20: version", Some((3, 3))),
    ),
    (
        "load twice twice twice twice twice twice twice twice twice twice twice twice twice twice twice twice x",
        (2, "", "limit Dumps 16", None),
    ),
    (
        "verify",
        (0, "sound rows 3 intervals 1 late 0\n", "", Some((3, 3))),
    ),
];

fn many_dumps() -> &'static [Call] {
    MANY_DUMPS
}

fn load_words() -> &'static [Call] {
    WORDS_OF_A_LOAD
}

/// Calls in a row, each run on a new disk. Each table is a function of its own: in one they cost much more to prove.
fn runs() -> [Named; 9] {
    [
        ("a day", a_day_of_calls()),
        ("a script where an archive is", on_an_archive()),
        ("loads by a route", routed()),
        ("a load by two inserts", reached_twice()),
        ("refused routes", routes_refused()),
        ("loads with asks", calls_with_asks()),
        ("words of a load", load_words()),
        ("loads of many dumps", many_dumps()),
        ("late packets", late_packets()),
    ]
}

#[test]
fn calls_in_a_row(rt: HostRuntime) -> Result<(), Fail> {
    none_other_of(other_run(&rt, rt.alloc(), &runs()))
}

/// Rows of a sheet, and how the query of the archive of two named packets has to end.
const REPLAYS: &[Call] = &[
    (
        "replay,tm,0,2000,,,B\n",
        (
            0,
            "ask 1 front 2\npacket tm 1500 140886016 1 B 13\nend 1\n",
            "",
            Some((2, 2)),
        ),
    ),
    (
        "replay,tm,0,2000,asc,,\n",
        (
            0,
            "ask 1 front 2\npacket tm 1500 140820480 1 A 14\npacket tm 1500 140886016 1 B 13\nend 2\n",
            "",
            Some((2, 2)),
        ),
    ),
    (
        "replay,tm,1500,1501,,1,\n",
        (
            0,
            "ask 1 front 2\npacket tm 1500 140820480 1 A 14\nend 1\n",
            "",
            Some((2, 2)),
        ),
    ),
    (
        "replay,tm,0,2000,,5,B;Z;B\n",
        (
            0,
            "ask 1 front 2\npacket tm 1500 140886016 1 B 13\nend 1\n",
            "",
            Some((2, 2)),
        ),
    ),
    (
        "replay,tm,0,1500,,,\n",
        (0, "ask 1 front 2\nend 0\n", "", Some((2, 2))),
    ),
    (
        "values,v,0,1500,,,\n",
        (0, "ask 1 front 2\nend 0\n", "", Some((2, 2))),
    ),
    (
        "replay,tm,1500,1500,,,\n",
        (0, "ask 1 front 2\nend 0\n", "", Some((2, 2))),
    ),
    (
        "replay,tm,1501,86400000,,,\n",
        (0, "ask 1 front 2\nend 0\n", "", Some((2, 2))),
    ),
    (
        "replay,tm,0,2000,,0,\n",
        (0, "ask 1 front 2\nend 0\n", "", Some((2, 2))),
    ),
    (
        "replay,tm,0,2000,,,HDR;Z\n",
        (0, "ask 1 front 2\nend 0\n", "", Some((2, 2))),
    ),
    (
        "values,v,0,2000,desc,1,\nreplay,tm,0,2000,,,B\n",
        (
            0,
            "ask 1 front 2\ncell 1500 140886016 7 7\nend 1\nask 2 front 2\npacket tm 1500 140886016 1 B 13\nend 1\n",
            "",
            Some((2, 2)),
        ),
    ),
    (
        "values,v,0,2000,,,\nreplay,copy,5,4,,,\n",
        (1, "", "unknown table copy", Some((2, 2))),
    ),
    (
        "replay,tm,0,2000,,,\nreplay,tm,5,4,,,\n",
        (1, "", "bad range 5 4", Some((2, 2))),
    ),
    (
        "replay,copy,5,4,,,\nvalues,zz,0,1,,,\n",
        (1, "", "unknown table copy", Some((2, 2))),
    ),
    (
        "values,zz,0,1,,,\nreplay,copy,5,4,,,\n",
        (1, "", "unknown parameter", Some((2, 2))),
    ),
    (
        "values,v,5,4,,,\nreplay,copy,0,1,,,\n",
        (1, "", "bad range 5 4", Some((2, 2))),
    ),
    (
        "replay,copy,0,1,,,\nreplay,tm,0,1,desc,,\n",
        (2, "", "bad sheet asks row 3 rule 32", Some((2, 2))),
    ),
    (
        "replay,tm,0,1,,,A;\n",
        (2, "", "bad sheet asks row 2 rule 34", Some((2, 2))),
    ),
];

fn replay_sheets() -> &'static [Call] {
    REPLAYS
}

const NAMED_LOAD: &[Call] = &[
    (
        "create parameters calibrations three",
        (
            0,
            "created tables 1 parameters 2 containers 3\n",
            "",
            Some((0, 0)),
        ),
    ),
    (
        "load named",
        (
            0,
            "load packets 2 new 2 duplicates 0 idle 0 rows 2\n",
            "",
            Some((0, 2)),
        ),
    ),
];

pub(crate) fn named_load() -> &'static [Call] {
    NAMED_LOAD
}

/// A sheet of asks with these rows.
fn sheet_of(alloc: Global, rows: &str) -> Result<Vec<u8>, AllocError> {
    let mut sheet = Vec::from_slice(alloc, b"kind,name,from,to,order,limit,names\n")?;
    sheet.extend_from_slice(rows.as_bytes())?;
    Ok(sheet)
}

/// Whether the query of a sheet with these rows ends so, and the disk.
fn is_answered<D: Disk + Send, R: Threads + Wait + Sync>(
    rt: &R,
    alloc: Global,
    disk: D,
    rows: &str,
    want: &Wanted,
) -> (bool, D) {
    match sheet_of(alloc, rows) {
        Ok(sheet) => {
            let files = [("sheet", sheet.as_slice())];
            called(
                rt,
                alloc,
                "query --ask sheet",
                &files_alone(&files),
                disk,
                want,
            )
        }
        Err(_) => (false, disk),
    }
}

/// The place of the first sheet whose query ends otherwise.
fn other_answer<D: Disk + Send + Drop, R: Threads + Wait + Sync>(
    rt: &R,
    alloc: Global,
    disk: D,
    sheets: &[Call],
) -> Option<usize> {
    let mut disk = disk;
    let mut place = 0usize;
    for (rows, want) in sheets {
        let (is_so, left) = is_answered(rt, alloc, disk, rows, want);
        disk = left;
        if !is_so {
            return Some(place);
        }
        place = place.saturating_add(1);
    }
    None
}

/// The same on the archive of two named packets.
fn other_replay<D: Disk + Send + Drop, R: Threads + Wait + Sync>(
    rt: &R,
    alloc: Global,
    disk: D,
    sheets: &[Call],
) -> Option<usize> {
    let (_, disk) = other_call(rt, alloc, disk, named_load());
    other_answer(rt, alloc, disk, sheets)
}

#[test]
fn replays(rt: HostRuntime) -> Result<(), Fail> {
    none_other(other_replay(&rt, rt.alloc(), MemDisk::new(rt.alloc()), replay_sheets()))
}

/// Calls whose first write fails.
const UNWRITTEN: &[Call] = &[
    (CREATE, (4, "", "write fault", Some((0, 0)))),
    ("load twice", (4, "", "write fault", Some((0, 2)))),
    ("query --ask asks", (4, "", "write fault", Some((2, 2)))),
    ("query --ask replayed", (4, "", "write fault", Some((2, 2)))),
    ("query --sql script", (4, "", "write fault", Some((2, 2)))),
    (
        "load --ask asks twice",
        (4, "", "write fault", Some((2, 2))),
    ),
    ("recover", (4, "", "write fault", Some((2, 2)))),
    ("verify", (4, "", "write fault", Some((2, 2)))),
];

fn unwritten() -> &'static [Call] {
    UNWRITTEN
}

/// The files of the calls, where the first write fails.
fn without_output() -> Outside<'static> {
    Outside {
        files: files(),
        reads: &[],
        writes: &[1],
    }
}

/// The place of the first of these calls that ends otherwise there.
fn other_unwritten<D: Disk + Send + Drop, R: Threads + Wait + Sync>(
    rt: &R,
    alloc: Global,
    disk: D,
    calls: &[Call],
) -> Option<usize> {
    let (other, _disk) = other_over(rt, alloc, disk, &without_output(), calls);
    other
}

#[test]
fn writes_that_fail(rt: HostRuntime) -> Result<(), Fail> {
    none_other(other_unwritten(&rt, rt.alloc(), MemDisk::new(rt.alloc()), unwritten()))
}

/// A line of words, the read of its first source that fails, or 0 for the opening, and how its call has to end.
type Unread = (&'static str, u64, Wanted);

const UNREAD: &[Unread] = &[
    (CREATE, 1, (3, "", "read fault", None)),
    ("load twice", 0, (3, "", "read fault", None)),
    ("load twice", 1, (1, "", "no archive", None)),
    ("query --ask asks", 1, (3, "", "read fault", None)),
    ("query --sql script", 0, (3, "", "read fault", None)),
    ("query --sql script", 1, (3, "", "read fault", None)),
    ("load --ask asks twice", 0, (3, "", "read fault", None)),
    ("load --ask asks twice", 1, (3, "", "read fault", None)),
    (CREATE, 9, (0, CREATED, "", Some((0, 0)))),
    ("load twice", 0, (3, "", "read fault", None)),
    ("load twice", 1, (3, "", "read fault", Some((0, 0)))),
    (
        "load --link 256 twice",
        1,
        (2, "", "limit Links 255", Some((0, 0))),
    ),
    ("query --ask bad", 1, (3, "", "read fault", None)),
    // The octets of the first read were taken.
    ("load twice", 2, (3, "", "read fault", Some((0, 2)))),
];

fn unread() -> &'static [Unread] {
    UNREAD
}

/// Whether a call ends so where this read of its first source fails, and the disk.
fn ends_unread<D: Disk + Send, R: Threads + Wait + Sync>(
    rt: &R,
    alloc: Global,
    disk: D,
    call: &Unread,
) -> (bool, D) {
    let (line, read, want) = *call;
    let outside = Outside {
        files: files(),
        reads: &[FailingCall { opening: 1, read }],
        writes: &[],
    };
    called(rt, alloc, line, &outside, disk, &want)
}

/// The place of the first of these calls that ends otherwise.
fn other_unread<D: Disk + Send + Drop, R: Threads + Wait + Sync>(
    rt: &R,
    alloc: Global,
    disk: D,
    calls: &[Unread],
) -> Option<usize> {
    let mut disk = disk;
    let mut place = 0usize;
    for call in calls {
        let (is_so, left) = ends_unread(rt, alloc, disk, call);
        disk = left;
        if !is_so {
            return Some(place);
        }
        place = place.saturating_add(1);
    }
    None
}

#[test]
fn reads_that_fail(rt: HostRuntime) -> Result<(), Fail> {
    none_other(other_unread(&rt, rt.alloc(), MemDisk::new(rt.alloc()), unread()))
}

const NO_ARCHIVE: &[Call] = &[
    ("recover", (1, "", "no archive", None)),
    ("load twice", (1, "", "no archive", None)),
    ("query --ask bad", (1, "", "no archive", None)),
    ("query --sql bad", (1, "", "no archive", None)),
];

const DAMAGED: &[Call] = &[
    ("recover", (6, "", "damaged file 0 at 0", None)),
    ("load twice", (6, "", "damaged file 0 at 0", None)),
    ("query --ask bad", (6, "", "damaged file 0 at 0", None)),
    ("query --sql bad", (6, "", "damaged file 0 at 0", None)),
];

const FAULTS: &[Call] = &[
    ("recover", (5, "", "disk fault", None)),
    ("verify", (5, "", "disk fault", None)),
    ("load twice", (5, "", "disk fault", None)),
    ("query --ask bad", (5, "", "disk fault", None)),
    ("query --sql bad", (5, "", "disk fault", None)),
];

/// Whether the first call of the disk fails, what file 0 holds, and calls, each on such a disk.
type Held = (&'static str, bool, &'static [u8], &'static [Call]);

fn no_archive() -> &'static [Call] {
    NO_ARCHIVE
}

fn damaged() -> &'static [Call] {
    DAMAGED
}

fn faults() -> &'static [Call] {
    FAULTS
}

fn held() -> [Held; 3] {
    [
        ("a gate alone", false, b"\x01", no_archive()),
        (
            "a record of no kind",
            false,
            b"\x01\x00\x00\x00\x09\x01\x00",
            damaged(),
        ),
        ("a disk that fails at once", true, b"", faults()),
    ]
}

/// Whether a call ends so on a disk on which octets are written first.
fn ends_over<D: Disk + Send + Drop, R: Threads + Wait + Sync>(
    rt: &R,
    alloc: Global,
    disk: D,
    octets: &[u8],
    call: &Call,
) -> bool {
    let mut disk = disk;
    if !octets.is_empty() {
        let _ = disk.write_at(0, 0, octets);
    }
    other_on(rt, alloc, disk, &[*call]).is_none()
}

/// The same on a new disk, or on one that fails.
fn ends_held<R: Threads + Wait + Sync>(
    rt: &R,
    alloc: Global,
    fails: bool,
    octets: &[u8],
    call: &Call,
) -> bool {
    let disk = if fails {
        failing(alloc, &[1])
    } else {
        MemDisk::new(alloc)
    };
    ends_over(rt, alloc, disk, octets, call)
}

/// The place of the first call of a row that ends otherwise.
fn other_held<R: Threads + Wait + Sync>(rt: &R, alloc: Global, row: &Held) -> Option<usize> {
    let (_, fails, octets, calls) = *row;
    let mut place = 0usize;
    for call in calls {
        if !ends_held(rt, alloc, fails, octets, call) {
            return Some(place);
        }
        place = place.saturating_add(1);
    }
    None
}

/// The first row with such a call.
fn other_row<R: Threads + Wait + Sync>(
    rt: &R,
    alloc: Global,
    rows: &[Held],
) -> Option<(&'static str, usize)> {
    for row in rows {
        if let Some(place) = other_held(rt, alloc, row) {
            return Some((row.0, place));
        }
    }
    None
}

#[test]
fn what_a_disk_may_hold(rt: HostRuntime) -> Result<(), Fail> {
    none_other_of(other_row(&rt, rt.alloc(), &held()))
}

const LOADED: &[Call] = &[
    (CREATE, (0, CREATED, "", Some((0, 0)))),
    ("load twice", (0, FIRST_LOAD, "", Some((0, 2)))),
];

pub(crate) fn loaded() -> &'static [Call] {
    LOADED
}
