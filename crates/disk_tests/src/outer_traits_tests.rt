//! Inputs, a sink and a clock in memory, and inputs that are read to their end. Where memory is wanting for what a row needs, it goes otherwise.

use crate::ends::{none_other, other};
use outer_traits::clock::{Clock, FixedClock};
use outer_traits::fault::{Failed, OpenFault};
use outer_traits::inputs::Inputs;
use outer_traits::mem_inputs::{FailingCall, File, MemInputs};
use outer_traits::mem_sink::MemSink;
use outer_traits::sink::Sink;
use outer_traits::source::Source;
use outer_traits::whole::{ReadFault, read_input, read_whole};
use std::alloc::{AllocError, Global};
use std::test::Fail;

/// A file `a` of three octets.
fn file(alloc: Global) -> Result<File, AllocError> {
    Ok(File {
        name: String::from_str(alloc, "a")?,
        octets: Vec::from_slice(alloc, &[1, 2, 3])?,
    })
}

fn files(alloc: Global) -> Result<Vec<File>, AllocError> {
    let mut files = Vec::new(alloc);
    files.push(file(alloc)?)?;
    Ok(files)
}

/// Inputs with that file, of which this call is to fail.
fn inputs_failing(alloc: Global, opening: u64, read: u64) -> Result<MemInputs, AllocError> {
    let calls = Vec::from_slice(alloc, &[FailingCall { opening, read }])?;
    Ok(MemInputs::failing(files(alloc)?, calls))
}

/// What is looked at in such inputs.
enum Look {
    /// An opening that fails, and one behind it.
    OpensAgain,
    ReadsOn,
    ReadsTheRest,
    /// A name that is read to its end, a limit, and how many octets are read.
    Reads(&'static str, usize, Result<usize, ReadFault>),
}

fn opens_again<I: Inputs>(alloc: Global, inputs: &mut I) -> bool {
    matches!(inputs.open(alloc, "a"), Err(OpenFault::Failed)) && inputs.open(alloc, "a").is_ok()
}

/// Whether four reads of two octets each answer so: the second fails.
fn are_four_reads<S: Source>(source: &mut S) -> bool {
    let mut into = [0; 2];
    matches!(source.read(&mut into), Ok(2))
        && matches!(source.read(&mut into), Err(Failed))
        && matches!(source.read(&mut into), Ok(1))
        && matches!(source.read(&mut into), Ok(0))
}

fn reads_on<I: Inputs>(alloc: Global, inputs: &mut I) -> bool {
    match inputs.open(alloc, "a") {
        Ok(mut source) => are_four_reads(&mut source),
        Err(_) => false,
    }
}

/// Whether the two octets behind the first are read to their end.
fn is_rest_read<S: Source>(alloc: Global, source: &mut S) -> bool {
    if source.read(&mut [0]).is_err() {
        return false;
    }
    match read_whole(alloc, source, 2) {
        Ok(octets) => octets.as_slice() == [2, 3].as_slice(),
        Err(_) => false,
    }
}

fn reads_the_rest<I: Inputs>(alloc: Global, inputs: &mut I) -> bool {
    match inputs.open(alloc, "a") {
        Ok(mut source) => is_rest_read(alloc, &mut source),
        Err(_) => false,
    }
}

/// How many octets of an input are read to its end.
fn count_read<I: Inputs>(
    alloc: Global,
    inputs: &mut I,
    name: &str,
    limit: usize,
) -> Result<usize, ReadFault> {
    match read_input(alloc, inputs, name, limit) {
        Ok(octets) => Ok(octets.len()),
        Err(fault) => Err(fault),
    }
}

fn is_seen<I: Inputs>(alloc: Global, inputs: &mut I, look: &Look) -> bool {
    match look {
        Look::OpensAgain => opens_again(alloc, inputs),
        Look::ReadsOn => reads_on(alloc, inputs),
        Look::ReadsTheRest => reads_the_rest(alloc, inputs),
        Look::Reads(name, limit, want) => count_read(alloc, inputs, name, *limit) == *want,
    }
}

/// The same of inputs that are given up.
fn is_seen_in<I: Inputs + Drop>(alloc: Global, inputs: I, look: &Look) -> bool {
    let mut inputs = inputs;
    is_seen(alloc, &mut inputs, look)
}

/// The opening that is to fail, or of which this read is, and what is looked at.
type Row = (u64, u64, Look);

fn is_so(alloc: Global, row: &Row) -> bool {
    let (opening, read, look) = row;
    match inputs_failing(alloc, *opening, *read) {
        Ok(inputs) => is_seen_in(alloc, inputs, look),
        Err(_) => false,
    }
}

const ROWS: &[Row] = &[
    (1, 0, Look::OpensAgain),
    (1, 2, Look::ReadsOn),
    (1, 9, Look::ReadsTheRest),
    (1, 9, Look::Reads("a", 3, Ok(3))),
    (1, 9, Look::Reads("a", 2, Err(ReadFault::TooLong))),
    (1, 9, Look::Reads("b", 3, Err(ReadFault::Missing))),
    (1, 0, Look::Reads("b", 3, Err(ReadFault::Missing))),
    (1, 0, Look::Reads("a", 3, Err(ReadFault::Failed))),
    (1, 1, Look::Reads("a", 3, Err(ReadFault::Failed))),
    (1, 2, Look::Reads("a", 3, Err(ReadFault::Failed))),
    (1, 2, Look::Reads("a", 2, Err(ReadFault::TooLong))),
];

/// A function, so that the table stands in no goal of its callers.
fn rows() -> &'static [Row] {
    ROWS
}

/// The place of the first of these rows that goes otherwise.
fn other_row(alloc: Global, rows: &[Row]) -> Option<usize> {
    let mut place = 0usize;
    for row in rows {
        if !is_so(alloc, row) {
            return Some(place);
        }
        place = place.saturating_add(1);
    }
    None
}

#[test]
fn inputs(rt: HostRuntime) -> Result<(), Fail> {
    none_other(other_row(rt.alloc(), rows()))
}

/// Whether the second of three writes fails.
fn are_three_writes<K: Sink>(sink: &mut K) -> bool {
    matches!(sink.write(&[7, 8]), Ok(2))
        && matches!(sink.write(&[9]), Err(Failed))
        && matches!(sink.write(&[]), Ok(0))
}

fn writes_on(alloc: Global) -> bool {
    let Ok(calls) = Vec::from_slice(alloc, &[2]) else {
        return false;
    };
    let mut sink = MemSink::failing(alloc, calls);
    are_three_writes(&mut sink) && sink.octets.as_slice() == [7, 8].as_slice()
}

#[test]
fn a_sink_and_a_clock(rt: HostRuntime) -> Result<(), Fail> {
    none_other(other(&[
        ("writes on after a failed write", writes_on(rt.alloc())),
        ("a clock stands", FixedClock::new(9000).now() == 9000),
    ]))
}
