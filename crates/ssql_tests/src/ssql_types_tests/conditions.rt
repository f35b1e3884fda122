//! Conditions over rows, and their bounds.

use crate::ends::none_other;
use crate::forms::{last_select, row_of_a, row_of_b, typed_text};
use partitions::lists::PnameList;
use ssql_conditions::bounds::bounds;
use ssql_conditions::condition::Condition;
use ssql_conditions::truth::is_true;
use ssql_types::place::ScriptPlace;
use ssql_types::script::TypedScript;
use std::alloc::{AllocError, Global};
use std::test::Fail;

/// A condition, and whether it is true of the row of A at 1500 on link 1, and of that of B at 2500 on link 2. Both came at 9000.
type TruthCase = (&'static [u8], bool, bool);

/// Conditions of one predicate.
const PREDICATES: &[TruthCase] = &[
    (b"apid = 100", true, false),
    (b"apid <> 100", false, true),
    (b"apid != 100", false, true),
    (b"apid < 101", true, false),
    (b"apid <= 101", true, true),
    (b"apid > 100", false, true),
    (b"apid >= 100", true, true),
    (b"apid IN (1, 100, 7)", true, false),
    (b"apid IN (1)", false, false),
    (b"length = 13", false, true),
    (b"link = 1", true, false),
    (b"link > -1", true, true),
    (b"seqNum = 140820480", true, false),
    (b"gentime < '1970-01-01T00:00:02'", true, false),
    (b"gentime = 2500", false, true),
    (b"rectime = '9000'", true, true),
    (b"gentime IN (1500, '1970-01-01T00:00:02.5Z')", true, true),
    (b"pname = 'A'", true, false),
    (b"pname <> 'A'", false, true),
    (b"pname = 'a'", false, false),
    (b"pname != 'a'", true, true),
    (b"pname IN ('C', 'B')", false, true),
    (b"pname IN ('C')", false, false),
];

// They are functions, so that they stand in no goal of their callers.
fn predicates() -> &'static [TruthCase] {
    PREDICATES
}

/// Conditions of several, and of NOT and parentheses.
const PIECES: &[TruthCase] = &[
    (b"NOT apid = 100", false, true),
    (b"NOT NOT apid = 100", true, false),
    (b"NOT (apid = 100 OR apid = 101)", false, false),
    (b"link = 1 OR apid = 100 AND link = 2", true, false),
    (b"(apid = 101 OR apid = 100) AND link = 2", false, true),
    (b"apid = 100 AND link = 2 OR apid = 100", true, false),
    (b"apid = 100 AND (link = 2 OR apid = 100)", true, false),
    (b"NOT apid = 100 AND link = 2", false, true),
    (b"NOT (apid = 100 AND link = 2)", true, true),
    (b"NOT apid = 100 OR link = 1", true, true),
    (
        b"((NOT ((link = 1))) OR NOT (NOT (apid = 100)))",
        true,
        true,
    ),
];

fn conditions_of_pieces() -> &'static [TruthCase] {
    PIECES
}

/// A condition that bounds no names, and its times.
type TimesCase = (&'static [u8], i64, i64);

const TIMES: &[TimesCase] = &[
    (b"apid = 1", 0, 253_402_300_800_000),
    (b"rectime = 5", 0, 253_402_300_800_000),
    (b"gentime = 5", 5, 6),
    (b"gentime < 5", 0, 5),
    (b"gentime <= 5", 0, 6),
    (b"gentime > 5", 6, 253_402_300_800_000),
    (b"gentime >= 5", 5, 253_402_300_800_000),
    (b"gentime <> 5", 0, 253_402_300_800_000),
    (b"gentime != 5", 0, 253_402_300_800_000),
    (b"gentime < '1970-01-01T00:00:01.5'", 0, 1500),
    (b"gentime IN (9, 2, 5)", 2, 10),
    (b"gentime IN (-9, 5)", 0, 6),
    (b"gentime = -1", 0, 0),
    (b"gentime < 0", 0, 0),
    (b"gentime >= 9223372036854775807", 0, 0),
    (b"gentime <= 9223372036854775807", 0, 253_402_300_800_000),
    (b"gentime > 9223372036854775807", 0, 0),
    (b"gentime >= -9223372036854775808", 0, 253_402_300_800_000),
    (
        b"gentime = 253402300799999",
        253_402_300_799_999,
        253_402_300_800_000,
    ),
    (b"gentime = 253402300800000", 0, 0),
    (b"pname <> 'B'", 0, 253_402_300_800_000),
    (b"gentime = 5 OR pname = 'A'", 0, 253_402_300_800_000),
    (b"gentime = 5 AND NOT (gentime = 9 AND pname = 'C')", 5, 6),
];

fn bounds_of_times() -> &'static [TimesCase] {
    TIMES
}

/// A condition, its times and its packet names.
type NamesCase = (&'static [u8], i64, i64, &'static [u16]);

const NAMES: &[NamesCase] = &[
    (b"pname = 'B' AND gentime = 5", 5, 6, &[1]),
    (b"pname = 'B'", 0, 253_402_300_800_000, &[1]),
    (
        b"pname IN ('B', 'C', 'A', 'B')",
        0,
        253_402_300_800_000,
        &[1, 0, 1],
    ),
    (b"pname = 'C'", 0, 253_402_300_800_000, &[]),
    (b"gentime >= 5 AND gentime < 9 AND pname = 'A'", 5, 9, &[0]),
    (b"gentime = 5 AND gentime = 6 AND pname = 'A'", 0, 0, &[0]),
    (b"pname = 'A' AND pname = 'B'", 0, 253_402_300_800_000, &[]),
    (
        b"gentime = 5 AND pname = 'A' OR gentime = 9 AND pname = 'B'",
        5,
        10,
        &[0, 1],
    ),
    (
        b"gentime < 0 AND pname = 'A' OR gentime = 9 AND pname = 'B'",
        9,
        10,
        &[1],
    ),
    (
        b"gentime < 0 AND pname = 'A' OR gentime < 0 AND pname = 'B'",
        0,
        0,
        &[1],
    ),
];

fn bounds_of_names() -> &'static [NamesCase] {
    NAMES
}

/// Adds a query with this condition.
fn add_query(text: &mut Vec<u8>, condition: &[u8]) -> Result<(), AllocError> {
    text.extend_from_slice(b"SELECT * FROM tm WHERE ")?;
    text.extend_from_slice(condition)
}

/// What a query with this condition stands for.
fn typed_where(alloc: Global, condition: &[u8]) -> Option<TypedScript> {
    let mut text = Vec::new(alloc);
    if add_query(&mut text, condition).is_err() {
        return None;
    }
    match typed_text(alloc, ScriptPlace::Sql, text.as_slice()) {
        Ok(script) => Some(script),
        Err(_) => None,
    }
}

/// Whether a condition is so of the row of A.
fn is_so_of_a(alloc: Global, condition: &Condition, want: bool) -> bool {
    match row_of_a(alloc) {
        Some(row) => is_true(condition, &row) == want,
        None => false,
    }
}

/// The same of the row of B.
fn is_so_of_b(alloc: Global, condition: &Condition, want: bool) -> bool {
    match row_of_b(alloc) {
        Some(row) => is_true(condition, &row) == want,
        None => false,
    }
}

/// Whether the condition of a script's last query is so of the rows of A and B.
fn is_so(alloc: Global, script: &TypedScript, of_a: bool, of_b: bool) -> bool {
    match last_select(script) {
        Some(select) => {
            is_so_of_a(alloc, &select.condition, of_a) && is_so_of_b(alloc, &select.condition, of_b)
        }
        None => false,
    }
}

/// Whether a text is a condition that is so of the rows of A and B.
fn has_truths(alloc: Global, condition: &[u8], of_a: bool, of_b: bool) -> bool {
    match typed_where(alloc, condition) {
        Some(script) => is_so(alloc, &script, of_a, of_b),
        None => false,
    }
}

/// The place of the first condition that is otherwise.
fn other_truth(alloc: Global, cases: &[TruthCase]) -> Option<usize> {
    let mut place = 0usize;
    for (condition, of_a, of_b) in cases {
        if !has_truths(alloc, condition, *of_a, *of_b) {
            return Some(place);
        }
        place = place.saturating_add(1);
    }
    None
}

#[test]
fn truths_of_predicates(rt: HostRuntime) -> Result<(), Fail> {
    none_other(other_truth(rt.alloc(), predicates()))
}

#[test]
fn truths_of_pieces(rt: HostRuntime) -> Result<(), Fail> {
    none_other(other_truth(rt.alloc(), conditions_of_pieces()))
}

/// Whether the names of bounds are these.
fn are_names(found: &Option<PnameList>, names: Option<&[u16]>) -> bool {
    match (found, names) {
        (None, None) => true,
        (Some(found), Some(names)) => found.as_slice() == names,
        _ => false,
    }
}

/// Whether the bounds of a condition are these.
fn are_bounds(
    alloc: Global,
    condition: &Condition,
    from: i64,
    to: i64,
    names: Option<&[u16]>,
) -> bool {
    match bounds(alloc, condition) {
        Ok(found) => found.from == from && found.to == to && are_names(&found.names, names),
        Err(_) => false,
    }
}

/// Whether a text is a condition with these bounds.
fn has_bounds(alloc: Global, condition: &[u8], from: i64, to: i64, names: Option<&[u16]>) -> bool {
    match typed_where(alloc, condition) {
        Some(script) => match last_select(&script) {
            Some(select) => are_bounds(alloc, &select.condition, from, to, names),
            None => false,
        },
        None => false,
    }
}

/// The place of the first condition with other times or with names.
fn other_times(alloc: Global, cases: &[TimesCase]) -> Option<usize> {
    let mut place = 0usize;
    for (condition, from, to) in cases {
        if !has_bounds(alloc, condition, *from, *to, None) {
            return Some(place);
        }
        place = place.saturating_add(1);
    }
    None
}

/// The place of the first condition with other times or names.
fn other_names(alloc: Global, cases: &[NamesCase]) -> Option<usize> {
    let mut place = 0usize;
    for (condition, from, to, names) in cases {
        if !has_bounds(alloc, condition, *from, *to, Some(*names)) {
            return Some(place);
        }
        place = place.saturating_add(1);
    }
    None
}

#[test]
fn times_of_conditions(rt: HostRuntime) -> Result<(), Fail> {
    none_other(other_times(rt.alloc(), bounds_of_times()))
}

#[test]
fn names_of_conditions(rt: HostRuntime) -> Result<(), Fail> {
    none_other(other_names(rt.alloc(), bounds_of_names()))
}
