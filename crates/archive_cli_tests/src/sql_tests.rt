//! Scripts that `query --sql` answers or refuses, over the archive of two named packets.

use crate::archive_tests::named_load;
use crate::calls::{Wanted, called, files_alone, none_other};
use crate::in_a_row::other_call;
use arch_disk::{Disk, MemDisk};
use std::alloc::{AllocError, Global};
use std::sync::Wait;
use std::test::Fail;
use std::thread::Threads;

/// A script, up to how many octets blanks stand behind it, and how its query has to end.
type Script = (&'static str, usize, Wanted);

const SCRIPTS: &[Script] = &[
    (
        "SELECT gentime, seqNum, pname FROM MERGE(tm, tm) LIMIT 3;",
        0,
        (
            0,
            "1970-01-01T00:00:01.500 140820480 A\n1970-01-01T00:00:01.500 140820480 A\n1970-01-01T00:00:01.500 140886016 B\nselect 3\n",
            "",
            Some((2, 2)),
        ),
    ),
    (
        "SHOW PARTITIONS tm; SHOW HISTOGRAM tm;",
        0,
        (
            0,
            "partition 1970/001 A 1\npartition 1970/001 B 1\nshow 2\nhistogram A 1500 1500 1\nhistogram B 1500 1500 1\nshow 2\n",
            "",
            Some((2, 2)),
        ),
    ),
    (
        "select * from tm where apid = 101 order desc -- the later one\n; select length from tm limit 1",
        0,
        (
            0,
            "1970-01-01T00:00:01.500 140886016 1970-01-01T00:00:09.000 1 B 101 13 0865c000000600000001800007\nselect 1\n14\nselect 1\n",
            "",
            Some((2, 2)),
        ),
    ),
    (
        "SELECT seqNum FROM tm WHERE gentime < '1970-01-01T00:00:01.500'; SELECT seqNum FROM tm LIMIT 0",
        0,
        (0, "select 0\nselect 0\n", "", Some((2, 2))),
    ),
    ("-- nothing", 0, (0, "", "", Some((2, 2)))),
    (
        "SELECT FROM tm;",
        0,
        (1, "", "bad sql at 7 rule 2", Some((2, 2))),
    ),
    (
        "SELECT # FROM tm;",
        0,
        (1, "", "bad sql at 7 rule 1", Some((2, 2))),
    ),
    (
        "SELECT * FROM nothing;",
        0,
        (1, "", "unknown table nothing", Some((2, 2))),
    ),
    (
        "SELECT seqNum FROM tm; INSERT INTO tm SELECT * FROM tm_in",
        0,
        (1, "", "bad sql at 23 rule 3", Some((2, 2))),
    ),
    (
        "SELECT * FROM tm WHERE link = 'x'; SHOW HISTOGRAM nothing",
        0,
        (1, "", "bad sql at 30 rule 4", Some((2, 2))),
    ),
    (
        "SHOW PARTITIONS nothing; SELECT * FROM tm WHERE link = 'x'",
        0,
        (1, "", "unknown table nothing", Some((2, 2))),
    ),
    (
        "SELECT * FROM x WHERE NOT NOT NOT NOT NOT NOT NOT NOT NOT NOT NOT NOT NOT NOT NOT NOT NOT NOT NOT NOT NOT NOT NOT NOT NOT NOT NOT NOT NOT NOT NOT NOT NOT apid = 1",
        0,
        (2, "", "limit SqlDepth 32", Some((2, 2))),
    ),
    (
        "SELECT seqNum FROM tm LIMIT 0",
        65_536,
        (0, "select 0\n", "", Some((2, 2))),
    ),
    (
        "SELECT FROM tm",
        65_537,
        (2, "", "limit ScriptOctets 65536", None),
    ),
];

fn scripts() -> &'static [Script] {
    SCRIPTS
}

/// A script with blanks behind it up to so many octets.
fn script_of(alloc: Global, text: &str, length: usize) -> Result<Vec<u8>, AllocError> {
    let mut script = Vec::from_slice(alloc, text.as_bytes())?;
    if script.len() < length {
        script.resize(length, b' ')?;
    }
    Ok(script)
}

/// Whether the query of a script ends so, and the disk.
fn is_answered<D: Disk + Send, R: Threads + Wait + Sync>(
    rt: &R,
    alloc: Global,
    disk: D,
    script: &Script,
) -> (bool, D) {
    let (text, length, want) = *script;
    match script_of(alloc, text, length) {
        Ok(script) => {
            let files = [("script", script.as_slice())];
            called(
                rt,
                alloc,
                "query --sql script",
                &files_alone(&files),
                disk,
                &want,
            )
        }
        Err(_) => (false, disk),
    }
}

/// The place of the first script whose query ends otherwise.
fn other_script<D: Disk + Send + Drop, R: Threads + Wait + Sync>(
    rt: &R,
    alloc: Global,
    disk: D,
    scripts: &[Script],
) -> Option<usize> {
    let mut disk = disk;
    let mut place = 0usize;
    for script in scripts {
        let (is_so, left) = is_answered(rt, alloc, disk, script);
        disk = left;
        if !is_so {
            return Some(place);
        }
        place = place.saturating_add(1);
    }
    None
}

/// The same on the archive of two named packets.
fn other_answer<D: Disk + Send + Drop, R: Threads + Wait + Sync>(
    rt: &R,
    alloc: Global,
    disk: D,
    scripts: &[Script],
) -> Option<usize> {
    let (_, disk) = other_call(rt, alloc, disk, named_load());
    other_script(rt, alloc, disk, scripts)
}

#[test]
fn scripts_are_answered(rt: HostRuntime) -> Result<(), Fail> {
    none_other(other_answer(&rt, rt.alloc(), MemDisk::new(rt.alloc()), scripts()))
}
