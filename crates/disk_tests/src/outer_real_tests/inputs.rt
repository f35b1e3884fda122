//! Files as inputs, the clock, and the standard streams.

use super::folders::{make_anew, path_of, take_away, write_file};
use crate::ends::{none_other, other};
use outer_real::{RealClock, RealInputs, StandardStreams};
use outer_traits::clock::Clock;
use outer_traits::fault::OpenFault;
use outer_traits::inputs::Inputs;
use outer_traits::source::Source;
use std::marker::Send;
use std::test::Fail;

/// A source may go to another thread.
fn carried<T: Send>(value: T) -> T {
    value
}

/// How an input ends.
enum End {
    Missing,
    /// Its three octets are read, and no more.
    Read,
    /// It is opened, and both reads fail.
    Failed,
}

/// Whether two reads take `abc` and no more.
fn is_read<S: Source>(source: &mut S) -> bool {
    let mut octets = [0; 4];
    matches!(source.read(&mut octets), Ok(3))
        && matches!(source.read(&mut octets), Ok(0))
        && octets == *b"abc\0"
}

fn fails_twice<S: Source>(source: &mut S) -> bool {
    let mut octets = [0; 4];
    source.read(&mut octets).is_err() && source.read(&mut octets).is_err()
}

fn is_so<S: Source>(source: &mut S, end: &End) -> bool {
    match end {
        End::Missing => false,
        End::Read => is_read(source),
        End::Failed => fails_twice(source),
    }
}

/// Whether an input at a path ends so. It is closed again.
fn ends_at(rt: &HostRuntime, path: &str, end: &End) -> bool {
    let mut inputs = RealInputs::new(rt);
    match inputs.open(rt.alloc(), path) {
        Ok(opened) => {
            let mut source = carried(opened);
            let is_so = is_so(&mut source, end);
            inputs.close(source);
            is_so
        }
        Err(OpenFault::Missing) => matches!(end, End::Missing),
        Err(_) => false,
    }
}

/// The same of an input with a name.
fn ends(rt: &HostRuntime, name: &str, end: &End) -> bool {
    match path_of(rt, name) {
        Some(path) => ends_at(rt, path.as_str(), end),
        None => false,
    }
}

fn input_that_is_not_there_is_missing(rt: &HostRuntime) -> bool {
    make_anew(rt, "outer_real_missing")
        && write_file(rt, "outer_real_missing/file", b"abc")
        && ends(rt, "outer_real_missing/nothing", &End::Missing)
        && ends(rt, "outer_real_missing/file/below", &End::Missing)
        && take_away(rt, "outer_real_missing")
}

fn input_is_read_to_its_end(rt: &HostRuntime) -> bool {
    make_anew(rt, "outer_real_input")
        && write_file(rt, "outer_real_input/file", b"abc")
        && ends(rt, "outer_real_input/file", &End::Read)
        && take_away(rt, "outer_real_input")
}

fn folder_is_an_input_that_fails(rt: &HostRuntime) -> bool {
    make_anew(rt, "outer_real_no_input")
        && ends(rt, "outer_real_no_input", &End::Failed)
        && take_away(rt, "outer_real_no_input")
}

fn clock_stands_between_2024_and_9999(rt: &HostRuntime) -> bool {
    let moment = RealClock::new(rt).now();
    moment > 1_704_067_200_000 && moment < 253_402_300_800_000
}

#[test]
fn inputs_clock_and_streams(rt: HostRuntime) -> Result<(), Fail> {
    none_other(other(&[
        ("a missing input", input_that_is_not_there_is_missing(&rt)),
        ("an input", input_is_read_to_its_end(&rt)),
        ("a folder", folder_is_an_input_that_fails(&rt)),
        ("the clock", clock_stands_between_2024_and_9999(&rt)),
        ("the streams", StandardStreams::hold(&rt).is_ok()),
    ]))
}
