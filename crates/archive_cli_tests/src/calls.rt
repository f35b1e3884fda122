//! What tests of the program hand to `run`, and how its calls end.
//!
//! `run` is called in one function, which is generic in all that stands outside: in each function over a `MemDisk` or a `MemInputs` its clauses cost
//! minutes to prove. Tests list their calls as data, and `called` says of one whether it ends so. Where memory is wanting for what a call needs
//! it ends otherwise, so that no function above has to hand on an error beside a disk.

use arch_disk::Disk;
use archive_cli::run::run;
use archive_cli::{Ended, Report};
use outer_traits::clock::FixedClock;
use outer_traits::gate::OpenGate;
use outer_traits::inputs::Inputs;
use outer_traits::mem_inputs::{FailingCall, File, MemInputs};
use outer_traits::mem_sink::MemSink;
use outer_traits::sink::Sink;
use refusals::FaultText;
use std::alloc::{AllocError, Global};
use std::fmt::Display;
use std::sync::Wait;
use std::test::Fail;
use std::thread::Threads;

/// A file's name and octets.
pub(crate) type NamedFile<'a> = (&'a str, &'a [u8]);

/// What a call finds outside.
#[derive(Clone, Copy)]
pub(crate) struct Outside<'a> {
    pub files: &'a [NamedFile<'a>],
    /// The reads that fail.
    pub reads: &'a [FailingCall],
    /// The numbers of the writes that fail, from 1.
    pub writes: &'a [u64],
}

/// Files whose calls all succeed.
pub(crate) fn files_alone<'a>(files: &'a [NamedFile<'a>]) -> Outside<'a> {
    Outside {
        files,
        reads: &[],
        writes: &[],
    }
}

fn add_word(alloc: Global, words: &mut Vec<String>, word: &str) -> Result<(), AllocError> {
    words.push(String::from_str(alloc, word)?)?;
    Ok(())
}

/// The words of a line, between its blanks; an empty line has none.
fn words_of(alloc: Global, line: &str) -> Result<Vec<String>, AllocError> {
    let mut words = Vec::new(alloc);
    if !line.is_empty() {
        for word in line.split(' ') {
            add_word(alloc, &mut words, word)?;
        }
    }
    Ok(words)
}

fn file_of(alloc: Global, named: &NamedFile<'_>) -> Result<File, AllocError> {
    let (name, octets) = *named;
    let name = String::from_str(alloc, name)?;
    let octets = Vec::from_slice(alloc, octets)?;
    Ok(File { name, octets })
}

fn files_of(alloc: Global, all: &[NamedFile<'_>]) -> Result<Vec<File>, AllocError> {
    let mut files = Vec::new(alloc);
    for named in all {
        files.push(file_of(alloc, named)?)?;
    }
    Ok(files)
}

fn inputs_of(alloc: Global, outside: &Outside<'_>) -> Result<MemInputs, AllocError> {
    let reads = Vec::from_slice(alloc, outside.reads)?;
    Ok(MemInputs::failing(files_of(alloc, outside.files)?, reads))
}

fn sink_of(alloc: Global, outside: &Outside<'_>) -> Result<MemSink, AllocError> {
    let writes = Vec::from_slice(alloc, outside.writes)?;
    Ok(MemSink::failing(alloc, writes))
}

/// What a call takes beside a disk.
type Taken = (Vec<String>, MemInputs, MemSink);

fn taken(alloc: Global, line: &str, outside: &Outside<'_>) -> Result<Taken, AllocError> {
    let sink = sink_of(alloc, outside)?;
    let words = words_of(alloc, line)?;
    let inputs = inputs_of(alloc, outside)?;
    Ok((words, inputs, sink))
}

/// A call of the program at 9 s.
fn ended<D: Disk + Send, I: Inputs, K: Sink, R: Threads + Wait + Sync>(
    rt: &R,
    alloc: Global,
    words: &[String],
    disk: D,
    inputs: &mut I,
    sink: &mut K,
) -> Ended<D>
where
    I::Source: Send,
{
    let mut clock = FixedClock::new(9000);
    run(rt, alloc, words, disk, inputs, sink, &mut clock, &OpenGate)
}

/// The same of what was taken, and what was printed.
fn printed<D: Disk + Send, R: Threads + Wait + Sync>(
    rt: &R,
    alloc: Global,
    taken: Taken,
    disk: D,
) -> (Ended<D>, Vec<u8>) {
    let (words, mut inputs, mut sink) = taken;
    let ended = ended(rt, alloc, words.as_slice(), disk, &mut inputs, &mut sink);
    (ended, sink.octets)
}

/// How a call has to end: its status, what it printed, its fault, and the lengths of the history before and after, where an archive was opened.
pub(crate) type Wanted = (u8, &'static str, &'static str, Option<(u64, u64)>);

/// Whether a report's refusal has this text.
fn is_fault(alloc: Global, report: &Report, fault: &str) -> bool {
    match &report.refusal {
        None => fault.is_empty(),
        Some(refusal) => match format!(in alloc; "{}", FaultText(refusal)) {
            Ok(text) => text.as_str() == fault,
            Err(_) => false,
        },
    }
}

/// Whether a report has these lengths.
fn has_lengths(report: &Report, lengths: Option<(u64, u64)>) -> bool {
    let (before, after) = lengths.unwrap_or((0, 0));
    report.opened == lengths.is_some() && report.before == before && report.after == after
}

fn is_wanted<D>(alloc: Global, ended: &Ended<D>, octets: &[u8], want: &Wanted) -> bool {
    let (status, text, fault, lengths) = *want;
    ended.status == status
        && octets == text.as_bytes()
        && has_lengths(&ended.report, lengths)
        && is_fault(alloc, &ended.report, fault)
}

/// Whether a call ends so, and its disk.
pub(crate) fn called<D: Disk + Send, R: Threads + Wait + Sync>(
    rt: &R,
    alloc: Global,
    line: &str,
    outside: &Outside<'_>,
    disk: D,
    want: &Wanted,
) -> (bool, D) {
    match taken(alloc, line, outside) {
        Ok(taken) => {
            let (ended, octets) = printed(rt, alloc, taken, disk);
            let is_so = is_wanted(alloc, &ended, octets.as_slice(), want);
            (is_so, ended.disk)
        }
        Err(_) => (false, disk),
    }
}

/// Whether a call on a disk with these files ends so. Generic, so that what a disk owns stands in no goal.
pub(crate) fn ends_so<D: Disk + Send + Drop, R: Threads + Wait + Sync>(
    rt: &R,
    alloc: Global,
    line: &str,
    files: &[NamedFile<'_>],
    disk: D,
    want: &Wanted,
) -> bool {
    let (is_so, _disk) = called(rt, alloc, line, &files_alone(files), disk, want);
    is_so
}

/// What a call has to report of a load's dumps: the link of the one that is refused, all packets, new rows, duplicates,
/// and idle packets.
pub(crate) type Reported = (Option<u16>, u64, u64, u64, u64);

fn is_reported(report: &Report, want: &Reported) -> bool {
    let (link, packets, new, duplicates, idle) = *want;
    report.link == link
        && report.packets == packets
        && report.new == new
        && report.duplicates == duplicates
        && report.idle == idle
}

/// Whether a call reports this, and its disk.
pub(crate) fn reports<D: Disk + Send, R: Threads + Wait + Sync>(
    rt: &R,
    alloc: Global,
    line: &str,
    outside: &Outside<'_>,
    disk: D,
    want: &Reported,
) -> (bool, D) {
    match taken(alloc, line, outside) {
        Ok(taken) => {
            let (ended, _octets) = printed(rt, alloc, taken, disk);
            let is_so = is_reported(&ended.report, want);
            (is_so, ended.disk)
        }
        Err(_) => (false, disk),
    }
}

/// What came of a call of which nothing is expected yet.
#[derive(Clone, Copy)]
pub(crate) struct Outcome {
    pub status: u8,
    /// The length of the history afterwards.
    pub after: u64,
    /// How many octets were printed.
    pub printed: usize,
}

/// Where memory is wanting for what a call needs, as the program says it.
const OUT_OF_MEMORY: Outcome = Outcome {
    status: 7,
    after: 0,
    printed: 0,
};

/// What came of a call, what it printed, and its disk.
pub(crate) fn text_of<D: Disk + Send, R: Threads + Wait + Sync>(
    rt: &R,
    alloc: Global,
    line: &str,
    outside: &Outside<'_>,
    disk: D,
) -> (Outcome, Vec<u8>, D) {
    match taken(alloc, line, outside) {
        Ok(taken) => {
            let (ended, octets) = printed(rt, alloc, taken, disk);
            let outcome = Outcome {
                status: ended.status,
                after: ended.report.after,
                printed: octets.len(),
            };
            (outcome, octets, ended.disk)
        }
        Err(_) => (OUT_OF_MEMORY, Vec::new(alloc), disk),
    }
}

/// What came of a call, and its disk.
pub(crate) fn call<D: Disk + Send, R: Threads + Wait + Sync>(
    rt: &R,
    alloc: Global,
    line: &str,
    outside: &Outside<'_>,
    disk: D,
) -> (Outcome, D) {
    let (outcome, _text, disk) = text_of(rt, alloc, line, outside, disk);
    (outcome, disk)
}

/// Ends a test: with a failure where a row of its table goes otherwise, or a call by its number. In place of an assertion, which costs seconds more to prove.
pub(crate) fn none_other<T: Display + Drop>(other: Option<T>) -> Result<(), Fail> {
    match other {
        None => Ok(()),
        Some(place) => Err(Fail::new(place)),
    }
}

/// The same of tables that have a name.
pub(crate) fn none_other_of(other: Option<(&'static str, usize)>) -> Result<(), Fail> {
    match other {
        None => Ok(()),
        Some((name, place)) => Err(Fail::new(format_args!("{name}: row {place} goes otherwise"))),
    }
}
