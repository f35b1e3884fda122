//! Wrong scripts as tables. The places were found by a reader of the rules that was written apart from the program.

use crate::ends::none_other;
use crate::forms::{Fault, is_fault, typed_text};
use ssql_types::not_typed::NotTyped;
use ssql_types::place::ScriptPlace;
use std::alloc::Global;
use std::test::Fail;

/// A script that breaks a rule, with the octet of the first fault and its rule: 3 a statement that may not stand there, 4 a type, 5 a name
/// that is taken, 6 an unknown stream, 7 a form, 8 a number.
type WrongScript = (&'static [u8], u64, u8);

/// Scripts of `create`.
const CREATES: &[WrongScript] = &[
    (b"SELECT * FROM tm", 0, 3),
    (b"SHOW HISTOGRAM tm;", 0, 3),
    (
        b"CREATE TABLE a LIKE tm; INSERT INTO a SELECT * FROM tm_in",
        24,
        3,
    ),
    (b"CREATE STREAM s AS SELECT * FROM tm_in", 0, 3),
    (b"CREATE TABLE tm LIKE tm", 13, 5),
    (b"CREATE TABLE tm_in LIKE tm", 13, 5),
    (b"CREATE TABLE a LIKE tm; CREATE TABLE a LIKE tm", 37, 5),
    (
        b"CREATE TABLE a LIKE tm;CREATE TABLE b LIKE tm ; -- again\nCREATE TABLE a LIKE tm;",
        70,
        5,
    ),
    (b"CREATE TABLE a LIKE b", 20, 7),
    (b"CREATE TABLE a LIKE a", 20, 7),
    (b"CREATE TABLE a LIKE TM", 20, 7),
    (b"CREATE TABLE b LIKE tm_in; CREATE TABLE b LIKE tm", 20, 7),
    (b"CREATE TABLE tm LIKE a", 13, 5),
    (b"CREATE TABLE b LIKE tm; CREATE TABLE b LIKE a", 37, 5),
    (b"SHOW PARTITIONS tm", 0, 3),
];

// The tables stand behind functions, so that they stand in no goal of their callers.
fn wrong_creates() -> &'static [WrongScript] {
    CREATES
}

/// Routes with a statement, a name or a stream that may not stand there.
const ROUTES: &[WrongScript] = &[
    (b"SELECT * FROM tm_in", 0, 3),
    (b"CREATE TABLE a LIKE tm", 0, 3),
    (b"SHOW PARTITIONS tm", 0, 3),
    (b"SHOW HISTOGRAM tm", 0, 3),
    (
        b"INSERT INTO tm SELECT * FROM tm_in; SELECT * FROM tm WHERE packet = 1",
        36,
        3,
    ),
    (b"CREATE STREAM tm_in AS SELECT * FROM tm_in", 14, 5),
    (b"CREATE STREAM copy AS SELECT * FROM tm_in", 14, 5),
    (
        b"CREATE STREAM s AS SELECT * FROM tm_in; CREATE STREAM s AS SELECT * FROM s",
        54,
        5,
    ),
    (b"CREATE STREAM tm AS SELECT apid FROM x", 14, 5),
    (b"CREATE STREAM s AS SELECT * FROM s", 33, 6),
    (b"CREATE STREAM s AS SELECT * FROM tm", 33, 6),
    (
        b"CREATE STREAM s AS SELECT * FROM later; CREATE STREAM later AS SELECT * FROM tm_in",
        33,
        6,
    ),
    (b"INSERT INTO tm SELECT * FROM MERGE(tm_in, s)", 42, 6),
    (b"INSERT INTO tm SELECT * FROM MERGE(s, tm_in, t)", 35, 6),
    (
        b"CREATE STREAM s AS SELECT * FROM tm_in; INSERT INTO tm SELECT * FROM MERGE(tm_in, s, tm)",
        85,
        6,
    ),
    (b"INSERT INTO tm SELECT * FROM TM_IN", 29, 6),
];

fn wrong_routes() -> &'static [WrongScript] {
    ROUTES
}

/// Routes with a query that may not stand there.
const FLOWS: &[WrongScript] = &[
    (b"INSERT INTO tm SELECT gentime FROM tm_in", 22, 7),
    (b"INSERT INTO tm SELECT apid, link FROM nowhere", 22, 7),
    (
        b"CREATE STREAM s AS SELECT packet FROM tm_in ORDER ASC",
        26,
        7,
    ),
    (b"INSERT INTO tm SELECT * FROM tm_in ORDER ASC", 35, 7),
    (b"INSERT INTO tm SELECT * FROM tm_in LIMIT 5", 35, 7),
    (
        b"INSERT INTO tm SELECT * FROM tm_in ORDER DESC LIMIT 5",
        35,
        7,
    ),
    (b"INSERT INTO tm SELECT * FROM tm_in LIMIT -1", 35, 7),
    (
        b"INSERT INTO tm SELECT * FROM tm_in WHERE apid = 'x' LIMIT 1",
        48,
        4,
    ),
    (
        b"INSERT INTO tm SELECT * FROM tm_in WHERE link = 1 ORDER ASC",
        50,
        7,
    ),
    (
        b"CREATE STREAM s AS SELECT * FROM tm_in WHERE packet = 1",
        45,
        4,
    ),
    (
        b"CREATE STREAM s AS SELECT * FROM tm_in WHERE pname > 'A'; SELECT * FROM tm",
        51,
        4,
    ),
];

fn wrong_flows() -> &'static [WrongScript] {
    FLOWS
}

/// Queries that break another rule than that of types.
const QUERIES: &[WrongScript] = &[
    (b"CREATE TABLE a LIKE tm", 0, 3),
    (b"CREATE STREAM s AS SELECT * FROM tm", 0, 3),
    (b"INSERT INTO nothing SELECT * FROM tm", 0, 3),
    (b"SELECT * FROM tm; INSERT INTO tm SELECT * FROM tm", 18, 3),
    (b"SELECT * FROM tm WHERE apid = 9223372036854775808", 30, 8),
    (b"SELECT * FROM tm WHERE apid = -9223372036854775809", 30, 8),
    (
        b"SELECT * FROM tm WHERE gentime >= 99999999999999999999",
        34,
        8,
    ),
    (
        b"SELECT * FROM tm WHERE link IN (1, 2, 9223372036854775808, 'x')",
        38,
        8,
    ),
    (
        b"SELECT * FROM tm WHERE length = 9223372036854775808 AND packet = 1",
        32,
        8,
    ),
    (b"SELECT * FROM tm LIMIT -1", 23, 8),
    (b"SELECT * FROM tm LIMIT 9223372036854775808", 23, 8),
    (b"SELECT * FROM tm ORDER DESC LIMIT -01", 34, 8),
];

fn wrong_queries() -> &'static [WrongScript] {
    QUERIES
}

/// Queries that compare with another type.
const TYPES: &[WrongScript] = &[
    (b"SELECT * FROM tm WHERE packet = 1", 23, 4),
    (b"SELECT packet FROM tm WHERE packet <> 'x'", 28, 4),
    (
        b"SELECT * FROM tm WHERE apid = 1 AND NOT (packet IN ('a', 1))",
        41,
        4,
    ),
    (b"SELECT * FROM tm WHERE pname < 'A'", 29, 4),
    (b"SELECT * FROM tm WHERE pname >= 5", 29, 4),
    (b"SELECT * FROM tm WHERE pname <= 'A' OR packet = 1", 29, 4),
    (b"SELECT * FROM tm WHERE pname = 5", 31, 4),
    (
        b"SELECT * FROM tm WHERE pname <> 99999999999999999999",
        32,
        4,
    ),
    (b"SELECT * FROM tm WHERE pname IN ('A', 5, 'B')", 38, 4),
    (b"SELECT * FROM tm WHERE pname IN (1)", 33, 4),
    (b"SELECT * FROM tm WHERE apid = 'A'", 30, 4),
    (b"SELECT * FROM tm WHERE apid = '5'", 30, 4),
    (b"SELECT * FROM tm WHERE length IN (7, '13')", 37, 4),
    (
        b"SELECT * FROM tm WHERE seqNum < '1970-01-01T00:00:01'",
        32,
        4,
    ),
    (b"SELECT * FROM tm WHERE link != ''", 31, 4),
    (b"SELECT * FROM tm WHERE gentime = ''", 33, 4),
    (
        b"SELECT * FROM tm WHERE gentime < '1970-02-30T00:00:00'",
        33,
        4,
    ),
    (b"SELECT * FROM tm WHERE rectime >= '1970-01-01'", 34, 4),
    (
        b"SELECT * FROM tm WHERE gentime IN ('0', '1970-01-01T00:00:60', 'x')",
        40,
        4,
    ),
    (
        b"SELECT * FROM tm WHERE rectime = '1234567890123456'",
        33,
        4,
    ),
    (
        b"SELECT * FROM tm WHERE apid = 1 OR apid = 'x' OR apid = 9223372036854775808",
        42,
        4,
    ),
    (b"SELECT * FROM tm WHERE apid = 'x' LIMIT -1", 30, 4),
    (
        b"SELECT * FROM tm; SELECT * FROM tm WHERE pname = 1; SELECT * FROM nothing",
        49,
        4,
    ),
];

fn wrong_types() -> &'static [WrongScript] {
    TYPES
}

/// A script whose first fault is a table that isn't there, with its name.
type UnknownTable = (&'static [u8], &'static [u8]);

const UNKNOWN_IN_QUERIES: &[UnknownTable] = &[
    (b"SELECT * FROM nothing", b"nothing"),
    (b"SELECT * FROM tm_in", b"tm_in"),
    (b"SELECT * FROM TM", b"TM"),
    (
        b"SELECT * FROM MERGE(tm, copy, nothing) WHERE packet = 1",
        b"nothing",
    ),
    (
        b"SELECT * FROM nothing WHERE packet = 1 LIMIT -1",
        b"nothing",
    ),
    (
        b"SELECT * FROM tm; SHOW HISTOGRAM none; SELECT * FROM nothing",
        b"none",
    ),
    (b"SHOW PARTITIONS nothing", b"nothing"),
    (
        b"SHOW HISTOGRAM tm; SHOW PARTITIONS Copy; CREATE TABLE a LIKE tm",
        b"Copy",
    ),
];

fn unknown_in_queries() -> &'static [UnknownTable] {
    UNKNOWN_IN_QUERIES
}

const UNKNOWN_IN_ROUTES: &[UnknownTable] = &[
    (b"INSERT INTO nothing SELECT * FROM tm_in", b"nothing"),
    (b"INSERT INTO tm_in SELECT apid FROM nowhere", b"tm_in"),
    (
        b"CREATE STREAM s AS SELECT * FROM tm_in; INSERT INTO s SELECT * FROM s",
        b"s",
    ),
    (
        b"INSERT INTO nothing SELECT * FROM nowhere ORDER ASC",
        b"nothing",
    ),
];

fn unknown_in_routes() -> &'static [UnknownTable] {
    UNKNOWN_IN_ROUTES
}

/// Whether a script breaks this rule first, there.
fn is_wrong(alloc: Global, place: ScriptPlace, text: &[u8], at: u64, rule: u8) -> bool {
    match typed_text(alloc, place, text) {
        Ok(_) => false,
        Err(fault) => is_fault(&fault, at, rule),
    }
}

/// The row of the first script with another fault.
fn other_fault(alloc: Global, place: ScriptPlace, scripts: &[WrongScript]) -> Option<usize> {
    let mut row = 0usize;
    for (text, at, rule) in scripts {
        if !is_wrong(alloc, place, text, *at, *rule) {
            return Some(row);
        }
        row = row.saturating_add(1);
    }
    None
}

#[test]
fn broken_rules_of_creates(rt: HostRuntime) -> Result<(), Fail> {
    none_other(other_fault(rt.alloc(), ScriptPlace::Create, wrong_creates()))
}

#[test]
fn broken_rules_of_routes(rt: HostRuntime) -> Result<(), Fail> {
    none_other(other_fault(rt.alloc(), ScriptPlace::Route, wrong_routes()))
}

#[test]
fn broken_rules_of_flows(rt: HostRuntime) -> Result<(), Fail> {
    none_other(other_fault(rt.alloc(), ScriptPlace::Route, wrong_flows()))
}

#[test]
fn broken_rules_of_queries(rt: HostRuntime) -> Result<(), Fail> {
    none_other(other_fault(rt.alloc(), ScriptPlace::Sql, wrong_queries()))
}

#[test]
fn broken_rules_of_types(rt: HostRuntime) -> Result<(), Fail> {
    none_other(other_fault(rt.alloc(), ScriptPlace::Sql, wrong_types()))
}

/// Whether a fault is that of a table of this name.
fn is_of_table(fault: &Fault, table: &[u8]) -> bool {
    match fault {
        Fault::Token(NotTyped::UnknownTable { name }) => name.as_slice() == table,
        _ => false,
    }
}

/// Whether a script is refused for a table of this name.
fn is_unknown(alloc: Global, place: ScriptPlace, text: &[u8], table: &[u8]) -> bool {
    match typed_text(alloc, place, text) {
        Ok(_) => false,
        Err(fault) => is_of_table(&fault, table),
    }
}

/// The row of the first script that isn't refused for its table.
fn other_table(alloc: Global, place: ScriptPlace, scripts: &[UnknownTable]) -> Option<usize> {
    let mut row = 0usize;
    for (text, table) in scripts {
        if !is_unknown(alloc, place, text, table) {
            return Some(row);
        }
        row = row.saturating_add(1);
    }
    None
}

#[test]
fn unknown_tables_of_queries(rt: HostRuntime) -> Result<(), Fail> {
    none_other(other_table(rt.alloc(), ScriptPlace::Sql, unknown_in_queries()))
}

#[test]
fn unknown_tables_of_routes(rt: HostRuntime) -> Result<(), Fail> {
    none_other(other_table(rt.alloc(), ScriptPlace::Route, unknown_in_routes()))
}
