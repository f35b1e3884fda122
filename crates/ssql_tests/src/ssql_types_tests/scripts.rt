//! What scripts stand for.

use crate::ends::none_other;
use crate::forms::typed_text;
use arch_types::direction::Direction;
use ssql_conditions::bounds::bounds;
use ssql_conditions::condition::Condition;
use ssql_tokens::Column;
use ssql_types::place::ScriptPlace;
use ssql_types::query::TypedSelect;
use ssql_types::sources::RouteSource;
use ssql_types::statement::TypedStatement;
use std::alloc::Global;
use std::test::Fail;

/// A script with how many statements it has.
type RightScript = (ScriptPlace, &'static [u8], usize);

const RIGHT: &[RightScript] = &[
    (ScriptPlace::Create, b"", 0),
    (ScriptPlace::Create, b"CREATE TABLE copy LIKE tm;", 1),
    (
        ScriptPlace::Create,
        b"CREATE TABLE a LIKE tm; CREATE TABLE A LIKE tm",
        2,
    ),
    (ScriptPlace::Route, b"-- nothing\n", 0),
    (
        ScriptPlace::Route,
        b"CREATE STREAM s AS SELECT * FROM tm_in; INSERT INTO tm SELECT * FROM MERGE(s, tm_in, s)",
        2,
    ),
    (
        ScriptPlace::Route,
        b"INSERT INTO copy SELECT * FROM tm_in; INSERT INTO copy SELECT * FROM tm_in;",
        2,
    ),
    (ScriptPlace::Sql, b"SELECT * FROM tm ORDER DESC LIMIT -0", 1),
    (
        ScriptPlace::Sql,
        b"SELECT * FROM tm WHERE apid = -9223372036854775808",
        1,
    ),
    (
        ScriptPlace::Sql,
        b"SELECT packet, packet FROM copy LIMIT 9223372036854775807",
        1,
    ),
    (
        ScriptPlace::Sql,
        b"SHOW HISTOGRAM tm; SHOW PARTITIONS copy; SELECT * FROM tm WHERE pname IN ('', 'B')",
        3,
    ),
    (
        ScriptPlace::Sql,
        b"SELECT * FROM tm WHERE apid = 00000000000000000100 LIMIT 00000000000000000003",
        1,
    ),
];

/// They are a function, so that they stand in no goal of its callers.
fn right() -> &'static [RightScript] {
    RIGHT
}

/// Whether a script is right and has so many statements.
fn is_right(alloc: Global, place: ScriptPlace, text: &[u8], statements: usize) -> bool {
    match typed_text(alloc, place, text) {
        Ok(script) => script.len() == statements,
        Err(_) => false,
    }
}

/// The row of the first script that is wrong or has others.
fn other_script(alloc: Global, scripts: &[RightScript]) -> Option<usize> {
    let mut row = 0usize;
    for (place, text, statements) in scripts {
        if !is_right(alloc, *place, text, *statements) {
            return Some(row);
        }
        row = row.saturating_add(1);
    }
    None
}

#[test]
fn right_scripts(rt: HostRuntime) -> Result<(), Fail> {
    none_other(other_script(rt.alloc(), right()))
}

/// What the last statement of a script is.
enum Last {
    /// A query of these columns and tables, with its direction and limit.
    Select(&'static [Column], &'static [u8], Direction, Option<u64>),
    /// An INSERT into this table of these sources.
    Insert(u8, &'static [RouteSource]),
    /// An INSERT of times from this one to before that one.
    Timed(i64, i64),
    /// The histogram of a table.
    Histogram(u8),
    /// The partitions of a table.
    Partitions(u8),
    /// A new table of this name.
    Table(&'static [u8]),
}

/// A script, and its last statement.
type LastCase = (ScriptPlace, &'static [u8], Last);

const LASTS: &[LastCase] = &[
    (
        ScriptPlace::Sql,
        b"SHOW HISTOGRAM tm; SELECT gentime, seqNum, pname FROM MERGE(tm, copy, tm) LIMIT 3",
        Last::Select(
            &[Column::Gentime, Column::SeqNum, Column::Pname],
            &[0, 1, 0],
            Direction::Ascending,
            Some(3),
        ),
    ),
    (
        ScriptPlace::Sql,
        b"select * from copy order desc",
        Last::Select(
            &[
                Column::Gentime,
                Column::SeqNum,
                Column::Rectime,
                Column::Link,
                Column::Pname,
                Column::Apid,
                Column::Length,
                Column::Packet,
            ],
            &[1],
            Direction::Descending,
            None,
        ),
    ),
    // streams have numbers
    (
        ScriptPlace::Route,
        b"CREATE STREAM a AS SELECT * FROM tm_in; INSERT INTO tm SELECT * FROM a; \
            CREATE STREAM b AS SELECT * FROM a; INSERT INTO copy SELECT * FROM MERGE(b, tm_in, a)",
        Last::Insert(
            1,
            &[
                RouteSource::Stream(1),
                RouteSource::Packets,
                RouteSource::Stream(0),
            ],
        ),
    ),
    (
        ScriptPlace::Route,
        b"INSERT INTO tm SELECT * FROM tm_in WHERE gentime = 5",
        Last::Timed(5, 6),
    ),
    (ScriptPlace::Sql, b"SHOW HISTOGRAM copy", Last::Histogram(1)),
    (
        ScriptPlace::Sql,
        b"SHOW PARTITIONS copy",
        Last::Partitions(1),
    ),
    (
        ScriptPlace::Create,
        b"CREATE TABLE b LIKE tm; CREATE TABLE a LIKE tm",
        Last::Table(b"a"),
    ),
];

fn lasts() -> &'static [LastCase] {
    LASTS
}

/// Whether the times of a condition's bounds are these.
fn has_times(alloc: Global, condition: &Condition, from: i64, to: i64) -> bool {
    match bounds(alloc, condition) {
        Ok(found) => found.from == from && found.to == to,
        Err(_) => false,
    }
}

/// Whether a query is of these columns and tables, with this direction and limit.
fn is_query(
    select: &TypedSelect,
    columns: &[Column],
    sources: &[u8],
    direction: Direction,
    limit: Option<u64>,
) -> bool {
    select.columns.as_slice() == columns
        && select.sources.as_slice() == sources
        && select.direction == direction
        && select.limit == limit
}

/// Whether a statement is this one.
fn is_statement(alloc: Global, statement: &TypedStatement, want: &Last) -> bool {
    match (statement, want) {
        (TypedStatement::Select(select), Last::Select(columns, sources, direction, limit)) => {
            is_query(select, columns, sources, *direction, *limit)
        }
        (TypedStatement::Insert { table, flow }, Last::Insert(number, sources)) => {
            table == number && flow.sources.as_slice() == *sources
        }
        (TypedStatement::Insert { flow, .. }, Last::Timed(from, to)) => {
            has_times(alloc, &flow.condition, *from, *to)
        }
        (TypedStatement::ShowHistogram(table), Last::Histogram(number)) => table == number,
        (TypedStatement::ShowPartitions(table), Last::Partitions(number)) => table == number,
        (TypedStatement::CreateTable(found), Last::Table(name)) => found.as_slice() == *name,
        _ => false,
    }
}

/// Whether a script ends with this statement.
fn ends_with(alloc: Global, place: ScriptPlace, text: &[u8], want: &Last) -> bool {
    match typed_text(alloc, place, text) {
        Ok(script) => match script.as_slice() {
            [.., last] => is_statement(alloc, last, want),
            _ => false,
        },
        Err(_) => false,
    }
}

/// The row of the first script that ends with another one.
fn other_last(alloc: Global, scripts: &[LastCase]) -> Option<usize> {
    let mut row = 0usize;
    for (place, text, want) in scripts {
        if !ends_with(alloc, *place, text, want) {
            return Some(row);
        }
        row = row.saturating_add(1);
    }
    None
}

#[test]
fn last_statements(rt: HostRuntime) -> Result<(), Fail> {
    none_other(other_last(rt.alloc(), lasts()))
}
