//! Calls of the program, and how they end.
//!
//! `run` is called in one function, which is generic in all that stands outside, so that its clauses are met once. A disk goes through each call and comes
//! back, so no function above owns what the call was given.

use arch_disk::Disk;
use archive_cli::run::run;
use archive_cli::{Ended, Report};
use outer_traits::clock::FixedClock;
use outer_traits::gate::Gate;
use outer_traits::inputs::Inputs;
use outer_traits::mem_inputs::{FailingCall, File, MemInputs};
use outer_traits::mem_sink::MemSink;
use outer_traits::sink::Sink;
use refusals::FaultText;
use std::alloc::{AllocError, Global};
use std::fmt::Display;
use std::sync::Wait;
use std::test::Fail;
use std::thread::Threads;

/// A file's name and octets.
pub(crate) type NamedFile<'a> = (&'a str, &'a [u8]);

/// What a call finds outside: files, and the reads that fail.
#[derive(Clone, Copy)]
pub(crate) struct Outside<'a> {
    pub(crate) files: &'a [NamedFile<'a>],
    pub(crate) reads: &'a [FailingCall],
}

fn add_word(alloc: Global, words: &mut Vec<String>, word: &str) -> Result<(), AllocError> {
    words.push(String::from_str(alloc, word)?)?;
    Ok(())
}

fn words_of(alloc: Global, line: &str) -> Result<Vec<String>, AllocError> {
    let mut words = Vec::new(alloc);
    for word in line.split(' ') {
        add_word(alloc, &mut words, word)?;
    }
    Ok(words)
}

fn file_of(alloc: Global, named: &NamedFile<'_>) -> Result<File, AllocError> {
    let (name, octets) = *named;
    let name = String::from_str(alloc, name)?;
    let octets = Vec::from_slice(alloc, octets)?;
    Ok(File { name, octets })
}

fn inputs_of(alloc: Global, outside: &Outside<'_>) -> Result<MemInputs, AllocError> {
    let mut files = Vec::new(alloc);
    for named in outside.files {
        files.push(file_of(alloc, named)?)?;
    }
    let reads = Vec::from_slice(alloc, outside.reads)?;
    Ok(MemInputs::failing(files, reads))
}

/// What a call takes beside a disk.
type Taken = (Vec<String>, MemInputs, MemSink);

fn taken(alloc: Global, line: &str, outside: &Outside<'_>) -> Result<Taken, AllocError> {
    let sink = MemSink::failing(alloc, Vec::new(alloc));
    let words = words_of(alloc, line)?;
    let inputs = inputs_of(alloc, outside)?;
    Ok((words, inputs, sink))
}

/// A call of the program at 9 s, whose jobs pass this gate.
fn ended<D: Disk + Send, I: Inputs, K: Sink, G: Gate + Sync, R: Threads + Wait + Sync>(
    rt: &R,
    alloc: Global,
    words: &[String],
    disk: D,
    inputs: &mut I,
    sink: &mut K,
    gate: &G,
) -> Ended<D>
where
    I::Source: Send,
{
    let mut clock = FixedClock::new(9000);
    run(rt, alloc, words, disk, inputs, sink, &mut clock, gate)
}

/// The same of what was taken, and what was printed.
fn printed<D: Disk + Send, G: Gate + Sync, R: Threads + Wait + Sync>(
    rt: &R,
    alloc: Global,
    taken: Taken,
    disk: D,
    gate: &G,
) -> (Ended<D>, Vec<u8>) {
    let (words, mut inputs, mut sink) = taken;
    let ended = ended(
        rt,
        alloc,
        words.as_slice(),
        disk,
        &mut inputs,
        &mut sink,
        gate,
    );
    (ended, sink.octets)
}

/// What came of a call.
#[derive(Drop)]
pub(crate) struct Outcome {
    pub(crate) status: u8,
    /// The lengths of the history before and afterwards, and the link that is named; 0 where there's none.
    pub(crate) before: u64,
    pub(crate) after: u64,
    pub(crate) link: u16,
    pub(crate) fault: String,
    pub(crate) text: Vec<u8>,
}

fn fault_text(alloc: Global, report: &Report) -> String {
    let text = match &report.refusal {
        None => return String::new(alloc),
        Some(refusal) => format!(in alloc; "{}", FaultText(refusal)),
    };
    match text {
        Ok(text) => text,
        Err(_) => String::new(alloc),
    }
}

/// Where memory is wanting for what a call needs, as the program says it.
fn no_memory(alloc: Global) -> Outcome {
    Outcome {
        status: 7,
        before: 0,
        after: 0,
        link: 0,
        fault: String::new(alloc),
        text: Vec::new(alloc),
    }
}

fn outcome_of<D>(alloc: Global, ended: &Ended<D>, text: Vec<u8>) -> Outcome {
    let report = &ended.report;
    Outcome {
        status: ended.status,
        before: report.before,
        after: report.after,
        link: report.link.unwrap_or(0),
        fault: fault_text(alloc, report),
        text,
    }
}

/// What comes of a call whose jobs pass a gate, and its disk.
pub(crate) fn call<D: Disk + Send, G: Gate + Sync, R: Threads + Wait + Sync>(
    rt: &R,
    alloc: Global,
    line: &str,
    outside: &Outside<'_>,
    disk: D,
    gate: &G,
) -> (Outcome, D) {
    match taken(alloc, line, outside) {
        Ok(taken) => {
            let (ended, text) = printed(rt, alloc, taken, disk, gate);
            let outcome = outcome_of(alloc, &ended, text);
            (outcome, ended.disk)
        }
        Err(_) => (no_memory(alloc), disk),
    }
}

/// What comes of a call over inputs of a test's own, and its disk.
pub(crate) fn call_over<D: Disk + Send, I: Inputs, G: Gate + Sync, R: Threads + Wait + Sync>(
    rt: &R,
    alloc: Global,
    line: &str,
    inputs: &mut I,
    disk: D,
    gate: &G,
) -> (Outcome, D)
where
    I::Source: Send,
{
    let Ok(words) = words_of(alloc, line) else {
        return (no_memory(alloc), disk);
    };
    let mut sink = MemSink::failing(alloc, Vec::new(alloc));
    let ended = ended(rt, alloc, words.as_slice(), disk, inputs, &mut sink, gate);
    let outcome = outcome_of(alloc, &ended, sink.octets);
    (outcome, ended.disk)
}

/// Ends a test: with a failure where a row of its table goes otherwise. In place of an assertion, which costs seconds more to prove.
pub(crate) fn none_other<T: Display + Drop>(other: Option<T>) -> Result<(), Fail> {
    match other {
        None => Ok(()),
        Some(place) => Err(Fail::new(place)),
    }
}
