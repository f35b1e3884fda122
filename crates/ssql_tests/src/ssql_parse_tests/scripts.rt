//! Scripts as tables. The places were found by a reader of the grammar that was written apart from the program.

use crate::ends::none_other;
use crate::forms::is_no_script;
use ssql_parse::{Script, parse, print};
use std::alloc::Global;
use std::test::Fail;

/// A wrong script, with the octet of the first fault and its rule: 1 where no token begins, 2 where no statement goes on.
type Wrong = (&'static [u8], u64, u8);

/// Scripts that stop being tokens.
const NO_TOKENS: &[Wrong] = &[
    (b"SELECT # FROM tm", 7, 1),
    (b"SELECT * FROM tm WHERE apid ! 5", 28, 1),
    (b"SELECT * FROM tm WHERE apid = -", 30, 1),
    (b"SELECT * FROM tm WHERE apid - 5", 28, 1),
    (b"SELECT * FROM tm WHERE pname = 'A", 31, 1),
    (b"SELECT * FROM tm WHERE pname = 'A''B", 34, 1),
    (b"SELECT * FROM tm WHERE pname = 'A\tB'", 31, 1),
    (b"SELECT * FROM tm WHERE pname = \"A\"", 31, 1),
    (b"SELECT * FROM tm.copy", 16, 1),
    (b"SELECT FROM tm WHERE #", 21, 1),
    (b"SELECT\x0c* FROM tm", 6, 1),
    (b"'''", 2, 1),
    (b"SELECT * FROM tm\xe9", 16, 1),
];

fn no_tokens() -> &'static [Wrong] {
    NO_TOKENS
}

/// Statements that do not go on, but for queries.
const STATEMENTS: &[Wrong] = &[
    (b";", 0, 2),
    (b"SHOW HISTOGRAM tm;;", 18, 2),
    (b"SHOW HISTOGRAM tm;;SHOW PARTITIONS tm", 18, 2),
    (b"SHOW tm", 5, 2),
    (b"SHOW HISTOGRAM", 14, 2),
    (b"SHOW HISTOGRAM apid", 15, 2),
    (b"SHOW PARTITIONS tm x", 19, 2),
    (b"CREATE", 6, 2),
    (b"CREATE INDEX i", 7, 2),
    (b"CREATE TABLE copy tm", 18, 2),
    (b"CREATE TABLE copy LIKE", 22, 2),
    (b"CREATE TABLE table LIKE tm", 13, 2),
    (b"CREATE TABLE link LIKE tm", 13, 2),
    (b"CREATE STREAM s SELECT * FROM tm_in", 16, 2),
    (b"CREATE STREAM s AS", 18, 2),
    (b"CREATE STREAM s AS INSERT INTO tm SELECT * FROM s", 19, 2),
    (b"INSERT tm SELECT * FROM tm_in", 7, 2),
    (b"INSERT INTO tm FROM tm_in", 15, 2),
    (b"INSERT INTO 'tm' SELECT * FROM tm_in", 12, 2),
    (b"''''''''", 0, 2),
];

fn wrong_statements() -> &'static [Wrong] {
    STATEMENTS
}

/// Queries that do not go on.
const QUERIES: &[Wrong] = &[
    (b"SELECT FROM tm;", 7, 2),
    (b"SELECT * tm", 9, 2),
    (b"SELECT *, apid FROM tm", 8, 2),
    (b"SELECT apid, FROM tm", 13, 2),
    (b"SELECT apid gentime FROM tm", 12, 2),
    (b"SELECT temp FROM tm", 7, 2),
    (b"SELECT * FROM", 13, 2),
    (b"SELECT * FROM tm, copy", 16, 2),
    (b"SELECT * FROM MERGE tm", 20, 2),
    (b"SELECT * FROM MERGE()", 20, 2),
    (b"SELECT * FROM MERGE(tm,)", 23, 2),
    (b"SELECT * FROM MERGE(tm, copy", 28, 2),
    (b"SELECT * FROM MERGE(tm; copy)", 22, 2),
    (b"SELECT * FROM tm ORDER", 22, 2),
    (b"SELECT * FROM tm ORDER gentime", 23, 2),
    (b"SELECT * FROM tm ORDER DESC WHERE apid = 5", 28, 2),
    (b"SELECT * FROM tm LIMIT", 22, 2),
    (b"SELECT * FROM tm LIMIT '5'", 23, 2),
    (b"SELECT * FROM tm LIMIT 5 ORDER ASC", 25, 2),
    (b"SELECT * FROM tm LIMIT 123456789012345678901", 43, 2),
    (b"SELECT * FROM tm -- LIMIT\n LIMIT x", 33, 2),
    (
        b"SELECT * FROM aaaaaaaaaaaaaaaaaaaaaaaaaaaaaaaaaaaaaaaaaaaaaaaaaaaaaaaaaaaaaaaaa",
        78,
        2,
    ),
    (
        b"SELECT * FROM aaaaaaaaaaaaaaaaaaaaaaaaaaaaaaaaaaaaaaaaaaaaaaaaaaaaaaaaaaaaaaaaAND",
        78,
        2,
    ),
    (b"SELECT *\n-- x", 13, 2),
];

fn wrong_queries() -> &'static [Wrong] {
    QUERIES
}

/// Queries that do not go on in or behind their condition.
const CONDITIONS: &[Wrong] = &[
    (b"SELECT * FROM tm WHERE", 22, 2),
    (b"SELECT * FROM tm WHERE ORDER ASC", 23, 2),
    (b"SELECT * FROM tm WHERE apid", 27, 2),
    (b"SELECT * FROM tm WHERE apid 5", 28, 2),
    (b"SELECT * FROM tm WHERE apid = ", 30, 2),
    (b"SELECT * FROM tm WHERE apid = link", 30, 2),
    (b"SELECT * FROM tm WHERE apid == 5", 29, 2),
    (b"SELECT * FROM tm WHERE 5 = apid", 23, 2),
    (b"SELECT * FROM tm WHERE apid = 5 6", 32, 2),
    (b"SELECT * FROM tm WHERE apid = 5 AND", 35, 2),
    (b"SELECT * FROM tm WHERE apid = 5 AND OR link = 1", 36, 2),
    (b"SELECT * FROM tm WHERE apid = 5 OR", 34, 2),
    (b"SELECT * FROM tm WHERE NOT", 26, 2),
    (b"SELECT * FROM tm WHERE apid NOT = 5", 28, 2),
    (b"SELECT * FROM tm WHERE ()", 24, 2),
    (b"SELECT * FROM tm WHERE (apid = 5", 32, 2),
    (b"SELECT * FROM tm WHERE apid = 5)", 31, 2),
    (b"SELECT * FROM tm WHERE ((apid = 5) OR link = 1", 46, 2),
    (b"SELECT * FROM tm WHERE apid IN", 30, 2),
    (b"SELECT * FROM tm WHERE apid IN 5", 31, 2),
    (b"SELECT * FROM tm WHERE apid IN ()", 32, 2),
    (b"SELECT * FROM tm WHERE apid IN (5,)", 34, 2),
    (b"SELECT * FROM tm WHERE apid IN (5 6)", 34, 2),
    (b"SELECT * FROM tm WHERE apid IN (5; 6)", 33, 2),
    (b"SELECT * FROM tm WHERE (apid = 5 x)", 33, 2),
    (b"SELECT * FROM tm WHERE apid IN (1", 33, 2),
];

fn wrong_conditions() -> &'static [Wrong] {
    CONDITIONS
}

/// Whether a script is wrong there, against this rule.
fn is_wrong(alloc: Global, text: &[u8], at: u64, rule: u8) -> bool {
    match parse(alloc, text) {
        Ok(_) => false,
        Err(fault) => is_no_script(&fault, at, rule),
    }
}

/// The place of the first script that is answered otherwise.
fn other_wrong(alloc: Global, scripts: &[Wrong]) -> Option<usize> {
    let mut place = 0usize;
    for (text, at, rule) in scripts {
        if !is_wrong(alloc, text, *at, *rule) {
            return Some(place);
        }
        place = place.saturating_add(1);
    }
    None
}

#[test]
fn scripts_that_are_no_tokens(rt: HostRuntime) -> Result<(), Fail> {
    none_other(other_wrong(rt.alloc(), no_tokens()))
}

#[test]
fn statements_that_stop(rt: HostRuntime) -> Result<(), Fail> {
    none_other(other_wrong(rt.alloc(), wrong_statements()))
}

#[test]
fn queries_that_stop(rt: HostRuntime) -> Result<(), Fail> {
    none_other(other_wrong(rt.alloc(), wrong_queries()))
}

#[test]
fn conditions_that_stop(rt: HostRuntime) -> Result<(), Fail> {
    none_other(other_wrong(rt.alloc(), wrong_conditions()))
}

/// A script, with the number of its statements and of its tokens.
type Counted = (&'static [u8], usize, usize);

const READ: &[Counted] = &[
    (b"", 0, 0),
    (b" \t\r\n-- SELECT", 0, 0),
    (b"SELECT * FROM tm", 1, 4),
    (b"select * from tm;", 1, 5),
    (b"SeLeCt GENTIME , seqnum,Pname FROM tm;", 1, 9),
    (b"SELECT * FROM MERGE(tm, copy) ORDER DESC LIMIT 007", 1, 13),
    (b"SHOW HISTOGRAM tm; SHOW PARTITIONS tm", 2, 7),
    (b"CREATE TABLE copy LIKE tm;", 1, 6),
    (
        b"CREATE STREAM s AS SELECT * FROM tm_in WHERE pname = 'A'",
        1,
        12,
    ),
    (b"INSERT INTO tm SELECT * FROM s;", 1, 8),
    (
        b"SELECT * FROM tm WHERE apid=1AND link<-5OR NOT(length>=0)",
        1,
        19,
    ),
    (b"SELECT * FROM tm WHERE pname IN ('A', '''', 'B--')", 1, 14),
    (b"SELECT * FROM tm WHERE apid<--5\n5", 1, 8),
    (b"SELECT * FROM Tm WHERE apid <> 1 AND apid != 2", 1, 12),
    (b"SELECT * FROM _1 WHERE apid = 12345678901234567890", 1, 8),
    (
        b"SELECT * FROM aaaaaaaaaaaaaaaaaaaaaaaaaaaaaaaaaaaaaaaaaaaaaaaaaaaaaaaaaaaaaaaa",
        1,
        4,
    ),
    (b"SELECT * FROM tm LIMIT -1", 1, 6),
    (b"SELECT packet FROM tm WHERE packet = 1", 1, 8),
];

fn scripts_to_read() -> &'static [Counted] {
    READ
}

/// Whether a script has so many statements and tokens.
fn has_counts(alloc: Global, text: &[u8], statements: usize, tokens: usize) -> bool {
    match parse(alloc, text) {
        Ok(script) => script.statements().len() == statements && script.places().len() == tokens,
        Err(_) => false,
    }
}

/// The place of the first script that has others.
fn other_counts(alloc: Global, scripts: &[Counted]) -> Option<usize> {
    let mut place = 0usize;
    for (text, statements, tokens) in scripts {
        if !has_counts(alloc, text, *statements, *tokens) {
            return Some(place);
        }
        place = place.saturating_add(1);
    }
    None
}

#[test]
fn scripts_that_are_read(rt: HostRuntime) -> Result<(), Fail> {
    none_other(other_counts(rt.alloc(), scripts_to_read()))
}

/// A script, with what is printed of it.
type Printed = (&'static [u8], &'static str);

const PRINTED: &[Printed] = &[
    (b"-- nothing", ""),
    (
        b"select * from tm where not (apid=100)",
        "SELECT * FROM tm WHERE NOT (apid = 100);\n",
    ),
    (
        b"SELECT GENTIME,seqnum , Pname FROM MERGE(tm,copy)ORDER desc LIMIT 007;",
        "SELECT gentime, seqNum, pname FROM MERGE (tm, copy) ORDER DESC LIMIT 007;\n",
    ),
    (
        b"show histogram tm;show partitions tm;",
        "SHOW HISTOGRAM tm;\nSHOW PARTITIONS tm;\n",
    ),
    (b"create table copy like tm", "CREATE TABLE copy LIKE tm;\n"),
    (
        b"create stream s as select * from tm_in where pname='it''s'and link<>-5",
        "CREATE STREAM s AS SELECT * FROM tm_in WHERE pname = 'it''s' AND link <> -5;\n",
    ),
    (
        b"insert into tm select * from s",
        "INSERT INTO tm SELECT * FROM s;\n",
    ),
    (
        b"SELECT * FROM tm WHERE((apid in(1,2)or length>=3)and pname!='')order asc",
        "SELECT * FROM tm WHERE ((apid IN (1, 2) OR length >= 3) AND pname != '') ORDER ASC;\n",
    ),
];

fn scripts_to_print() -> &'static [Printed] {
    PRINTED
}

/// Whether this is printed of a script.
fn is_printed(alloc: Global, script: &Script, want: &[u8]) -> bool {
    match print(alloc, script) {
        Ok(text) => text.as_slice() == want,
        Err(_) => false,
    }
}

/// Whether a text is a script, and this is printed of it.
fn prints(alloc: Global, text: &[u8], want: &[u8]) -> bool {
    match parse(alloc, text) {
        Ok(script) => is_printed(alloc, &script, want),
        Err(_) => false,
    }
}

/// The first text of a script that isn't printed, or isn't printed again of itself.
fn other_printed(alloc: Global, scripts: &[Printed]) -> Option<&'static str> {
    for (text, want) in scripts {
        if !prints(alloc, text, want.as_bytes())
            || !prints(alloc, want.as_bytes(), want.as_bytes())
        {
            return Some(*want);
        }
    }
    None
}

#[test]
fn scripts_that_are_printed(rt: HostRuntime) -> Result<(), Fail> {
    none_other(other_printed(rt.alloc(), scripts_to_print()))
}
