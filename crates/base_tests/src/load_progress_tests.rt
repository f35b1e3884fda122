//! What is shown of a load: the text, what a job has done at a pass of the gate, and the jobs of a line of words.

use crate::ends::{Check, none_other, other};
use load_progress::{Rate, Throughput, WatchedJobs, fills_behind, packets_behind, watched_jobs};
use std::alloc::{AllocError, Global};
use std::test::Fail;

/// Packets, fills where they are known, and milliseconds, and how they are shown.
type Shown = (u64, Option<u64>, u64, &'static str);

const SHOWN: &[Shown] = &[
    (
        40_000,
        Some(15),
        2_500,
        "packets 40000 (16000.0 a second), fills 15 (6.0 a second)",
    ),
    (
        1,
        Some(2),
        3_000,
        "packets 1 (0.3 a second), fills 2 (0.6 a second)",
    ),
    (64, None, 0, "packets 64 (64000.0 a second)"),
    (
        18_446_744_073_709_551_615,
        None,
        1_000,
        "packets 18446744073709551615 (18446744073709551615.0 a second)",
    ),
];

/// A function, so that they stand in no goal of its callers.
fn shown() -> &'static [Shown] {
    SHOWN
}

/// So many, where they are known.
fn rate_of(count: Option<u64>, millis: u64) -> Option<Rate> {
    match count {
        Some(count) => Some(Rate { count, millis }),
        None => None,
    }
}

/// Whether a line is shown so.
fn is_shown(alloc: Global, line: &Shown) -> bool {
    let (packets, fills, millis, want) = *line;
    let throughput = Throughput {
        packets: Rate {
            count: packets,
            millis,
        },
        fills: rate_of(fills, millis),
    };
    match format!(in alloc; "{throughput}") {
        Ok(text) => text.as_str() == want,
        Err(_) => false,
    }
}

fn other_line(alloc: Global, lines: &[Shown]) -> Option<&'static str> {
    for line in lines {
        if !is_shown(alloc, line) {
            return Some(line.3);
        }
    }
    None
}

#[test]
fn lines_of_loads(rt: HostRuntime) -> Result<(), Fail> {
    none_other(other_line(rt.alloc(), shown()))
}

/// Of two links the third job is none, and a filler where nothing is asked. It begins at odd turns.
fn counted() -> [Check; 8] {
    let filling = WatchedJobs {
        links: 2,
        asks_nothing: true,
    };
    let asking = WatchedJobs {
        links: 2,
        asks_nothing: false,
    };
    [
        ("first turn", packets_behind(asking, 2, 1) == 0),
        ("second turn", packets_behind(asking, 2, 2) == 64),
        ("no link", packets_behind(asking, 3, 2) == 0),
        ("first begin", fills_behind(filling, 3, 1) == 0),
        ("install", fills_behind(filling, 3, 2) == 0),
        ("second begin", fills_behind(filling, 3, 3) == 1),
        ("link", fills_behind(filling, 2, 3) == 0),
        ("reader", fills_behind(asking, 3, 3) == 0),
    ]
}

#[test]
fn what_is_counted(_rt: HostRuntime) -> Result<(), Fail> {
    none_other(other(&counted()))
}

/// The words of a line.
fn words_of(alloc: Global, line: &str) -> Result<Vec<String>, AllocError> {
    let mut words = Vec::new(alloc);
    for word in line.split(' ') {
        words.push(String::from_str(alloc, word)?)?;
    }
    Ok(words)
}

/// A line of words, and how many links its job has and whether it asks nothing; none where they are no job.
type Linked = (&'static str, Option<(u64, bool)>);

const LINKED: &[Linked] = &[
    ("load a b c", Some((3, true))),
    ("load --link 9 --ask asks --fillers 2 a", Some((1, false))),
    ("make 7", Some((2, true))),
    ("recover", Some((0, false))),
    ("load", None),
];

fn linked() -> &'static [Linked] {
    LINKED
}

fn has_links(alloc: Global, line: &Linked) -> bool {
    match words_of(alloc, line.0) {
        Ok(words) => match watched_jobs(alloc, words.as_slice()) {
            Ok(jobs) => line.1 == Some((jobs.links, jobs.asks_nothing)),
            Err(_) => line.1.is_none(),
        },
        Err(_) => false,
    }
}

fn other_linked(alloc: Global, lines: &[Linked]) -> Option<&'static str> {
    for line in lines {
        if !has_links(alloc, line) {
            return Some(line.0);
        }
    }
    None
}

#[test]
fn jobs_of_words(rt: HostRuntime) -> Result<(), Fail> {
    none_other(other_linked(rt.alloc(), linked()))
}
