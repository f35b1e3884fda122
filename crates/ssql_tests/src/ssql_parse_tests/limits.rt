//! Scripts at their limits and beyond, and scripts of any octets.

use crate::ends::none_other;
use crate::forms::is_no_script;
use ssql_parse::{NotAScript, ScriptQuantity, parse};
use std::alloc::{AllocError, Global};
use std::test::Fail;

/// What becomes of a script.
enum Answer {
    Read,
    Wrong(u64, u8),
    Limit(ScriptQuantity),
}

/// What stands in front, what stands behind it and how many times, what ends the script, and the answer.
type Repeated = (&'static [u8], &'static [u8], usize, &'static [u8], Answer);

const SCRIPTS: &[Repeated] = &[
    (
        b"SELECT * FROM tm WHERE ",
        b"NOT ",
        32,
        b"apid = 1",
        Answer::Read,
    ),
    (
        b"SELECT * FROM tm WHERE ",
        b"NOT ",
        33,
        b"apid = 1",
        Answer::Limit(ScriptQuantity::Depth),
    ),
    (
        b"SELECT * FROM tm WHERE ",
        b"NOT apid = 1 AND ",
        40,
        b"apid = 1",
        Answer::Read,
    ),
    // A wrong token behind what nests too deep is told before the limit.
    (
        b"SELECT * FROM tm WHERE ",
        b"NOT ",
        33,
        b"apid = 1)",
        Answer::Wrong(163, 2),
    ),
    (
        b"SELECT * FROM tm WHERE ",
        b"(",
        65_000,
        b"apid",
        Answer::Wrong(65_027, 2),
    ),
    (b"", b"(", 65_536, b"", Answer::Wrong(0, 2)),
    (b"", b" ", 65_536, b"", Answer::Read),
    (
        b"",
        b" ",
        65_537,
        b"",
        Answer::Limit(ScriptQuantity::Octets),
    ),
    (
        b"",
        b"#",
        65_537,
        b"",
        Answer::Limit(ScriptQuantity::Octets),
    ),
    (b"", b"SHOW HISTOGRAM tm;", 256, b"", Answer::Read),
    (
        b"",
        b"SHOW HISTOGRAM tm;",
        257,
        b"",
        Answer::Limit(ScriptQuantity::Statements),
    ),
    // A string that never closes ends at its last doubled quote, and no token begins at the quote behind it.
    (b"'", b"a''", 20_000, b"", Answer::Wrong(60_000, 1)),
    (b"", b"'", 65_535, b"", Answer::Wrong(65_534, 1)),
    (b"", b"\xff", 65_536, b"", Answer::Wrong(0, 1)),
];

fn scripts() -> &'static [Repeated] {
    SCRIPTS
}

/// Adds a text, another one so many times, and a third.
fn add_repeated(
    text: &mut Vec<u8>,
    front: &[u8],
    piece: &[u8],
    times: usize,
    back: &[u8],
) -> Result<(), AllocError> {
    text.extend_from_slice(front)?;
    for _ in 0..times {
        text.extend_from_slice(piece)?;
    }
    text.extend_from_slice(back)
}

fn is_refused(fault: &NotAScript, want: &Answer) -> bool {
    match (fault, want) {
        (fault, Answer::Wrong(at, rule)) => is_no_script(fault, *at, *rule),
        (NotAScript::Limit(quantity), Answer::Limit(want)) => quantity == want,
        _ => false,
    }
}

fn is_answer(alloc: Global, text: &[u8], want: &Answer) -> bool {
    match parse(alloc, text) {
        Ok(_) => matches!(want, Answer::Read),
        Err(fault) => is_refused(&fault, want),
    }
}

/// Whether a script becomes what it has to.
fn is_so(alloc: Global, script: &Repeated) -> bool {
    let (front, piece, times, back, want) = script;
    let mut text = Vec::new(alloc);
    add_repeated(&mut text, front, piece, *times, back).is_ok()
        && is_answer(alloc, text.as_slice(), want)
}

/// The place of the first script that becomes something else.
fn other_script(alloc: Global, scripts: &[Repeated]) -> Option<usize> {
    let mut place = 0usize;
    for script in scripts {
        if !is_so(alloc, script) {
            return Some(place);
        }
        place = place.saturating_add(1);
    }
    None
}

#[test]
fn limits(rt: HostRuntime) -> Result<(), Fail> {
    none_other(other_script(rt.alloc(), scripts()))
}
