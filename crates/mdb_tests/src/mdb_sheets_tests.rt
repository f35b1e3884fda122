//! Sheets as they are typed, and inputs that refuse.
//!
//! What reads is generic in the inputs: over those in memory the clauses of a reading cost much more to prove.

use crate::given::none_other;
use arch_types::direction::Direction;
use asks::{Ask, Asks, ReplayRequest, Request};
use mdb_model::{RawMdb, Sheet, SheetRecord};
use mdb_sheets::{read_asks, read_mdb};
use outer_traits::inputs::Inputs;
use outer_traits::mem_inputs::{FailingCall, File, MemInputs};
use refusals::{Refusal, SheetName, Which};
use std::alloc::{AllocError, Global};
use std::test::*;

fn file(alloc: Global, name: &str, octets: &[u8]) -> Result<File, AllocError> {
    let name = String::from_str(alloc, name)?;
    let octets = Vec::from_slice(alloc, octets)?;
    Ok(File { name, octets })
}

/// Files of these names and octets.
fn files_of(alloc: Global, all: &[(&str, &[u8])]) -> Result<Vec<File>, AllocError> {
    let mut files = Vec::new(alloc);
    for (name, octets) in all {
        files.push(file(alloc, name, octets)?)?;
    }
    Ok(files)
}

/// Files `p` and `k` of one field each, and `c` of these octets.
fn files(alloc: Global, octets: &[u8]) -> Result<Vec<File>, AllocError> {
    files_of(alloc, &[("p", b"p"), ("c", octets), ("k", b"k")])
}

/// Inputs of these files, whose calls all succeed.
fn inputs(alloc: Global, octets: &[u8]) -> Result<MemInputs, AllocError> {
    let files = files(alloc, octets)?;
    Ok(MemInputs::new(alloc, files))
}

/// Inputs of these files, of which a call fails.
fn inputs_failing(
    alloc: Global,
    octets: &[u8],
    call: FailingCall,
) -> Result<MemInputs, AllocError> {
    let calls = Vec::from_slice(alloc, &[call])?;
    let files = files(alloc, octets)?;
    Ok(MemInputs::failing(files, calls))
}

/// The names of three sheets, in the order in which they are read.
type SheetNames = (&'static str, &'static str, &'static str);

/// What is read of inputs, or why there are none.
fn sheets<I: Inputs + Drop>(
    alloc: Global,
    inputs: Result<I, AllocError>,
    names: SheetNames,
) -> Result<RawMdb, Refusal> {
    let mut inputs = inputs?;
    read_mdb(alloc, &mut inputs, names.0, names.1, names.2)
}

/// A record, each field in brackets, ended by a line feed.
fn put_record(text: &mut Vec<u8>, record: &SheetRecord<'_>) -> Result<(), AllocError> {
    for column in 0..record.len() {
        text.push(b'[')?;
        text.extend_from_slice(record.field(column))?;
        text.push(b']')?;
    }
    text.push(b'\n')?;
    Ok(())
}

/// The records of a sheet in words.
fn shown(alloc: Global, sheet: &Sheet) -> Result<Vec<u8>, AllocError> {
    let mut text = Vec::new(alloc);
    for place in 0..sheet.len() {
        put_record(&mut text, &sheet.record(place))?;
    }
    Ok(text)
}

/// Whether a sheet is shown so.
fn is_shown(alloc: Global, sheet: &Sheet, records: &str) -> bool {
    match shown(alloc, sheet) {
        Ok(text) => text.as_slice() == records.as_bytes(),
        Err(_) => false,
    }
}

/// Whether `p` and `k` are shown as they are, and `c` so.
fn are_shown(alloc: Global, raw: &RawMdb, records: &str) -> bool {
    is_shown(alloc, &raw.parameters, "[p]\n")
        && is_shown(alloc, &raw.calibrations, records)
        && is_shown(alloc, &raw.containers, "[k]\n")
}

/// Whether the three sheets are read so, where `c` has these octets.
fn are_read(alloc: Global, octets: &[u8], records: &str) -> bool {
    match &sheets(alloc, inputs(alloc, octets), ("p", "c", "k")) {
        Ok(raw) => are_shown(alloc, raw, records),
        Err(_) => false,
    }
}

/// A sheet, and its records as they are shown.
type Shown = (&'static str, &'static str);

const SHEETS: &[Shown] = &[
    ("", ""),
    ("name,kind,x,y", "[name][kind][x][y]\n"),
    ("a,b\r\nc\r\n", "[a][b]\n[c]\n"),
    ("a\rb", "[a]\n[b]\n"),
    ("\"a,\"\"b\"\"\",\"c\nd\"\n", "[a,\"b\"][c\nd]\n"),
    ("\u{FEFF}a\n", "[a]\n"),
    ("\n\na\n\r\n\n, ,\n", "[a]\n[][ ][]\n"),
];

/// A function, as for each table below, so that they stand in no goal of its callers.
fn sheets_shown() -> &'static [Shown] {
    SHEETS
}

/// The first sheet `c` whose records are others.
fn other_records(alloc: Global, all: &[Shown]) -> Option<&'static str> {
    for (sheet, records) in all {
        if !are_read(alloc, sheet.as_bytes(), records) {
            return Some(*sheet);
        }
    }
    None
}

#[test]
fn reads_records(rt: HostRuntime) -> Result<(), Fail> {
    none_other(other_records(rt.alloc(), sheets_shown()))
}

/// Why sheets aren't read, in words.
fn refusal_text(refusal: &Refusal) -> &'static str {
    match refusal {
        Refusal::Missing { name } => {
            if name.as_slice() == b"x".as_slice() {
                "missing x"
            } else {
                "missing"
            }
        }
        Refusal::ReadFault => "read fault",
        Refusal::Limit {
            which: Which::SheetOctets,
            number: 4_194_304,
        } => "limit",
        _ => "another",
    }
}

/// What came of a reading, in words.
fn said(read: &Result<RawMdb, Refusal>) -> &'static str {
    match read {
        Ok(_) => "read",
        Err(refusal) => refusal_text(refusal),
    }
}

/// What is read where `c` has so many octets and a call fails.
fn read_failing(
    alloc: Global,
    octets: usize,
    call: FailingCall,
    names: SheetNames,
) -> Result<RawMdb, Refusal> {
    let octets = Vec::from_elem(alloc, b'a', octets)?;
    sheets(alloc, inputs_failing(alloc, octets.as_slice(), call), names)
}

/// The octets of `c`, the opening and the read that fail, the names that are read, and what is said.
type Answer = (usize, u64, u64, SheetNames, &'static str);

const ANSWERS: &[Answer] = &[
    (4_194_304, 9, 0, ("p", "c", "k"), "read"),
    (4_194_305, 9, 0, ("p", "c", "x"), "limit"),
    (4_194_305, 9, 0, ("x", "c", "y"), "missing x"),
    (1, 9, 0, ("p", "", "x"), "missing"),
    (1, 1, 0, ("p", "x", "y"), "read fault"),
    (1, 1, 0, ("x", "c", "k"), "missing x"),
    (1, 2, 2, ("p", "c", "x"), "read fault"),
    (4_194_305, 2, 1, ("p", "c", "k"), "read fault"),
    (1, 3, 1, ("p", "c", "k"), "read fault"),
];

fn answers() -> &'static [Answer] {
    ANSWERS
}

fn is_answered(alloc: Global, answer: &Answer) -> bool {
    let (octets, opening, read, names, words) = *answer;
    let call = FailingCall { opening, read };
    said(&read_failing(alloc, octets, call, names)) == words
}

/// The place of the first of these of which something else is said.
fn other_answer(alloc: Global, all: &[Answer]) -> Option<usize> {
    let mut place = 0usize;
    for answer in all {
        if !is_answered(alloc, answer) {
            return Some(place);
        }
        place = place.saturating_add(1);
    }
    None
}

#[test]
fn refuses_at_the_first_sheet(rt: HostRuntime) -> Result<(), Fail> {
    none_other(other_answer(rt.alloc(), answers()))
}

/// What is read of a sheet of asks, or why there is no answer to it.
fn asks_in<I: Inputs + Drop>(
    alloc: Global,
    inputs: Result<I, AllocError>,
) -> Result<Result<Asks, Refusal>, Refusal> {
    let mut inputs = inputs?;
    read_asks(alloc, &mut inputs, "c")
}

/// The same of a sheet of these octets, where they are there.
fn asks(
    alloc: Global,
    sheet: Result<Vec<u8>, AllocError>,
) -> Result<Result<Asks, Refusal>, Refusal> {
    let sheet = sheet?;
    asks_in(alloc, inputs(alloc, sheet.as_slice()))
}

/// How many asks there are and 0, or the row and the rule that it breaks, or the limit and 255.
fn counted(answer: &Result<Asks, Refusal>) -> (u64, u8) {
    match answer {
        Ok(asks) => (asks.as_slice().len() as u64, 0),
        Err(
            Refusal::BadSheet {
                sheet: SheetName::Asks,
                row,
                rule,
            },
        ) => (*row, *rule),
        Err(
            Refusal::Limit {
                which: Which::Asks,
                number,
            },
        ) => (*number, 255),
        Err(_) => (0, 254),
    }
}

/// Whether this is counted of a sheet.
fn is_counted(alloc: Global, sheet: Result<Vec<u8>, AllocError>, count: (u64, u8)) -> bool {
    match &asks(alloc, sheet) {
        Ok(answer) => counted(answer) == count,
        Err(_) => false,
    }
}

const HEADER: &str = "kind,name,from,to,order,limit,names\n";

/// A function, as for each table below.
fn header() -> &'static str {
    HEADER
}

/// A sheet of a row so many times over, and of a last row.
fn sheet_of_rows(alloc: Global, row: &str, times: u32, last: &str) -> Result<Vec<u8>, AllocError> {
    let mut sheet = Vec::from_slice(alloc, header().as_bytes())?;
    for _ in 0..times {
        sheet.extend_from_slice(row.as_bytes())?;
    }
    sheet.extend_from_slice(last.as_bytes())?;
    Ok(sheet)
}

/// How often a row stands, the row, and what is counted.
type Counted = (u32, &'static str, (u64, u8));

const ROWS: &[Counted] = &[
    (1, "", (0, 0)),
    (2, "values,v,0,2000,desc,1,\n", (2, 0)),
    (1, "values,v,0,2000\n", (2, 2)),
    (1, "values,v,0,2000,,,,\n", (2, 2)),
    (1, "reply,v v,x,y,up,-1\n", (2, 2)),
    (1, "replay,tm,0,2000,,,B\n", (1, 0)),
    (1, "replays,t m,x,y,desc,-1,;\n", (2, 30)),
    (1, "replay,t m,x,y,desc,-1,;\n", (2, 3)),
    (1, "replay,tm,0,y,desc,-1,;\n", (2, 31)),
    (1, "replay,tm,0,1,desc,-1,;\n", (2, 32)),
    (1, "replay,tm,0,1,asc,-1,;\n", (2, 33)),
    (1, "replay,tm,0,1,,,A;;B\n", (2, 34)),
    (1, "replay,tm,0,1,,,A;\n", (2, 34)),
    (1, "replay,tm,0,1,,,A; B\n", (2, 34)),
    (1, "Values,v v,x,y,up,-1,B\n", (2, 30)),
    (1, "values,v v,x,y,up,-1,B\n", (2, 3)),
    (1, "values,v,x,y,up,-1,B\n", (2, 31)),
    (1, "values,v,1,1970-02-30T00:00:00,up,-1,B\n", (2, 31)),
    (1, "values,v,0,1,up,-1,B\n", (2, 32)),
    (1, "values,v,0,1,,1234567890123456789,B\n", (2, 33)),
    (1, "values,v,0,1,,123456789012345678,B\n", (2, 34)),
    (256, "values,v,0,1,,,\n", (256, 0)),
    (257, "values,v,0,1,,,\n", (256, 255)),
    (257, "values,v,0,1,up,,\n", (2, 32)),
];

fn rows_counted() -> &'static [Counted] {
    ROWS
}

/// The first row of which something else is counted.
fn other_count(alloc: Global, all: &[Counted]) -> Option<&'static str> {
    for (times, row, count) in all {
        if !is_counted(alloc, sheet_of_rows(alloc, row, *times, ""), *count) {
            return Some(*row);
        }
    }
    None
}

#[test]
fn counts_asks_or_tells_the_first_rule_broken(rt: HostRuntime) -> Result<(), Fail> {
    none_other(other_count(rt.alloc(), rows_counted()))
}

#[test]
fn tells_a_rule_before_the_limit(rt: HostRuntime) {
    let sheet = sheet_of_rows(rt.alloc(), "values,v,0,1,,,\n", 256, "values,v,0,1,,x,\n");
    assert!(rt; is_counted(rt.alloc(), sheet, (258, 33)));
}

/// Sheets without the header of asks.
const HEADLESS: &[&str] = &["", "values,v,0,1,,,\n", "kind,name,from,to,order,limit\n"];

fn headless() -> &'static [&'static str] {
    HEADLESS
}

/// The first of these sheets of which something else is counted.
fn other_headless(alloc: Global, all: &[&'static str]) -> Option<&'static str> {
    for sheet in all {
        if !is_counted(alloc, Vec::from_slice(alloc, sheet.as_bytes()), (1, 1)) {
            return Some(*sheet);
        }
    }
    None
}

#[test]
fn asks_have_a_header(rt: HostRuntime) -> Result<(), Fail> {
    none_other(other_headless(rt.alloc(), headless()))
}

/// The bounds, the order and the limit of an ask for values.
type Bounds = (i64, i64, Direction, Option<u64>);

fn has_bounds(request: &Request, bounds: Bounds) -> bool {
    let Request {
        from,
        to,
        direction,
        limit,
        ..
    } = request;
    (*from, *to, *direction, *limit) == bounds
}

/// The asks that were read; none, where they are refused.
fn asks_read(read: &Result<Result<Asks, Refusal>, Refusal>) -> &[Ask] {
    match read {
        Ok(Ok(asks)) => asks.as_slice(),
        _ => &[],
    }
}

/// Whether the second of two asks is for values with these bounds.
fn is_second(asks: &[Ask], bounds: Bounds) -> bool {
    match asks {
        [_, Ask::Values(request)] => has_bounds(request, bounds),
        _ => false,
    }
}

/// Whether the ask of a row has these bounds, behind another ask.
fn is_asked(alloc: Global, row: &str, bounds: Bounds) -> bool {
    let read = asks(alloc, sheet_of_rows(alloc, "values,w,0,1,,,\n", 1, row));
    is_second(asks_read(&read), bounds)
}

/// A row, and its bounds, its order and its limit.
type Read = (&'static str, Bounds);

const ASKS: &[Read] = &[
    (
        "values,v,-5,0002000,desc,07,\n",
        (-5, 2000, Direction::Descending, Some(7)),
    ),
    (
        "values,v,1970-01-01T00:00:01.5Z,1970-01-02T00:00:00,asc,,\n",
        (1500, 86_400_000, Direction::Ascending, None),
    ),
    ("values,v,5,4,,0,\n", (5, 4, Direction::Ascending, Some(0))),
];

fn rows_read() -> &'static [Read] {
    ASKS
}

/// The first of these rows that is read otherwise.
fn other_ask(alloc: Global, all: &[Read]) -> Option<&'static str> {
    for (row, bounds) in all {
        if !is_asked(alloc, row, *bounds) {
            return Some(*row);
        }
    }
    None
}

#[test]
fn reads_what_is_asked(rt: HostRuntime) -> Result<(), Fail> {
    none_other(other_ask(rt.alloc(), rows_read()))
}

/// A name, and a `;` behind it.
fn put_name(text: &mut Vec<u8>, name: &[u8]) -> Result<(), AllocError> {
    text.extend_from_slice(name)?;
    text.push(b';')?;
    Ok(())
}

/// A replay in words: its table, and its names where it has any.
fn shown_replay(alloc: Global, request: &ReplayRequest) -> Result<Vec<u8>, AllocError> {
    let mut text = Vec::new(alloc);
    put_name(&mut text, request.table.as_slice())?;
    if let Some(names) = &request.names {
        text.push(b':')?;
        for name in names.as_slice() {
            put_name(&mut text, name.as_slice())?;
        }
    }
    Ok(text)
}

/// A row, its replay in words, its bounds and its limit.
type Replayed = (&'static str, &'static str, (i64, i64, Option<u64>));

const REPLAYS: &[Replayed] = &[
    ("replay,tm,0,2000,,,\n", "tm;", (0, 2000, None)),
    (
        "replay,copy,-5,0002000,asc,07,B\n",
        "copy;:B;",
        (-5, 2000, Some(7)),
    ),
    (
        "replay,tm,1970-01-01T00:00:01.5Z,1970-01-02T00:00:00,,0,HK;A/1;HK\n",
        "tm;:HK;A/1;HK;",
        (1500, 86_400_000, Some(0)),
    ),
    ("replay,t-m,5,4,,,\"A;B\"\n", "t-m;:A;B;", (5, 4, None)),
];

fn replays() -> &'static [Replayed] {
    REPLAYS
}

/// Whether a replay is shown so.
fn is_shown_replay(alloc: Global, request: &ReplayRequest, words: &str) -> bool {
    match shown_replay(alloc, request) {
        Ok(text) => text.as_slice() == words.as_bytes(),
        Err(_) => false,
    }
}

/// Whether asks are one replay, with its table and names in words, its bounds and its limit.
fn is_replay(alloc: Global, asks: &[Ask], words: &str, numbers: (i64, i64, Option<u64>)) -> bool {
    match asks {
        [Ask::Replay(request)] => (request.from, request.to, request.limit) == numbers
            && is_shown_replay(alloc, request, words),
        _ => false,
    }
}

/// Whether the asks of a row are that.
fn is_replayed(alloc: Global, replayed: &Replayed) -> bool {
    let (row, words, numbers) = *replayed;
    let read = asks(alloc, sheet_of_rows(alloc, row, 1, ""));
    is_replay(alloc, asks_read(&read), words, numbers)
}

/// The first of these rows that is read otherwise.
fn other_replay(alloc: Global, all: &[Replayed]) -> Option<&'static str> {
    for replayed in all {
        if !is_replayed(alloc, replayed) {
            return Some(replayed.0);
        }
    }
    None
}

#[test]
fn reads_what_is_replayed(rt: HostRuntime) -> Result<(), Fail> {
    none_other(other_replay(rt.alloc(), replays()))
}
