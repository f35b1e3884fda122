//! Numbers of the table of refusals, names, and each list type once. Where memory is wanting for what a row needs, it goes otherwise.

use crate::ends::{none_other, other};
use arch_types::inserted::{Inserted, Outcomes};
use arch_types::key::Key;
use arch_types::name::{Name, Names};
use arch_types::octets::Octets;
use arch_types::row::{Row, Rows};
use intervals::{Exponent, Interval};
use refusals::{BadKind, Refusal, SheetName, Which};
use std::alloc::{AllocError, Global};
use std::test::Fail;
use text_forms::{is_clock_time, is_name};

fn has(refusal: Refusal, status: u8) -> bool {
    refusal.status() == status
}

fn statuses_of_words_and_files() -> bool {
    let packet = Refusal::BadPacket {
        at: 0,
        kind: BadKind::Version,
    };
    let sheet = Refusal::BadSheet {
        sheet: SheetName::Asks,
        row: 2,
        rule: 30,
    };
    let are_bad = has(packet, 2) && has(sheet, 2);
    are_bad
        && has(Refusal::Usage, 1)
        && has(Refusal::ReadFault, 3)
        && has(Refusal::WriteFault, 4)
        && has(Refusal::BadSql { at: 7, rule: 2 }, 1)
}

fn statuses_of_archives() -> bool {
    has(Refusal::NoArchive, 1)
        && has(Refusal::Exists, 1)
        && has(Refusal::Damaged { file: 0, at: 0 }, 6)
        && has(Refusal::DiskFault, 5)
        && has(Refusal::NeedsReopen { faults: 1 }, 5)
}

fn statuses_of_calls() -> bool {
    let which = Which::Dumps;
    has(Refusal::UnknownParameter, 1)
        && has(Refusal::BadRange { from: 5, to: 4 }, 1)
        && has(Refusal::Limit { which, number: 16 }, 2)
        && has(Refusal::OutOfMemory, 7)
}

#[test]
fn statuses() -> Result<(), Fail> {
    none_other(other(&[
        ("of words and files", statuses_of_words_and_files()),
        ("of archives", statuses_of_archives()),
        ("of calls", statuses_of_calls()),
    ]))
}

/// A number or a text, and what a call answers for it.
enum Answer {
    Limit(Which, u64),
    /// Whether the clock may tell a time: the years from 1970 to 9999.
    Clock(i64, bool),
    IntervalOf(i64, i64),
    /// Whether a text is a name.
    IsName(&'static [u8], bool),
}

const NUMBERS: &[Answer] = &[
    Answer::Limit(Which::DumpOctets, 268_435_456),
    Answer::Limit(Which::Dumps, 16),
    Answer::Limit(Which::Links, 255),
    Answer::Limit(Which::Asks, 256),
    Answer::Limit(Which::Statements, 256),
    Answer::Limit(Which::Tables, 16),
    Answer::Clock(-1, false),
    Answer::Clock(0, true),
    Answer::Clock(253_402_300_799_999, true),
    Answer::Clock(253_402_300_800_000, false),
    Answer::IntervalOf(4194303, 0),
    Answer::IntervalOf(4194304, 1),
    Answer::IntervalOf(0, 0),
    Answer::IntervalOf(-1, -1),
    Answer::IntervalOf(-4194304, -1),
];

/// A function, as those of the tables below, so that the table stands in no goal of its callers.
fn numbers() -> &'static [Answer] {
    NUMBERS
}

// The third and the fourth have 64 octets and 65.
const TEXTS: &[Answer] = &[
    Answer::IsName(b"tm", true),
    Answer::IsName(b"A-Z_0.9/x", true),
    Answer::IsName(
        b"aaaaaaaaaaaaaaaaaaaaaaaaaaaaaaaaaaaaaaaaaaaaaaaaaaaaaaaaaaaaaaaa",
        true,
    ),
    Answer::IsName(
        b"aaaaaaaaaaaaaaaaaaaaaaaaaaaaaaaaaaaaaaaaaaaaaaaaaaaaaaaaaaaaaaaaa",
        false,
    ),
    Answer::IsName(b"", false),
    Answer::IsName(b"a b", false),
    Answer::IsName(b"a:", false),
    Answer::IsName(b"@", false),
];

fn texts() -> &'static [Answer] {
    TEXTS
}

/// Whether both calls answer so for a text.
fn is_named(alloc: Global, text: &[u8], want: bool) -> bool {
    match Octets::from_slice(alloc, text) {
        Ok(octets) => Name::of(octets).is_some() == want && is_name(text) == want,
        Err(_) => false,
    }
}

fn is_answered(alloc: Global, answer: &Answer) -> bool {
    match answer {
        Answer::Limit(which, limit) => which.limit() == *limit,
        Answer::Clock(time, is) => is_clock_time(*time) == *is,
        Answer::IntervalOf(time, interval) => Interval::at(*time, Exponent::of_format_1()).0
            == *interval,
        Answer::IsName(text, is) => is_named(alloc, text, *is),
    }
}

/// The place of the first of these that is answered otherwise.
fn other_answer(alloc: Global, answers: &[Answer]) -> Option<usize> {
    let mut place = 0usize;
    for answer in answers {
        if !is_answered(alloc, answer) {
            return Some(place);
        }
        place = place.saturating_add(1);
    }
    None
}

#[test]
fn limits_times_and_intervals(rt: HostRuntime) -> Result<(), Fail> {
    none_other(other_answer(rt.alloc(), numbers()))
}

#[test]
fn names_by_their_text(rt: HostRuntime) -> Result<(), Fail> {
    none_other(other_answer(rt.alloc(), texts()))
}

fn slice_of(octets: &Octets, from: usize, to: usize) -> Option<Octets> {
    if to < from || octets.len() < to {
        return None;
    }
    octets.slice(from, to).ok()
}

/// Of the slice from 1 to 4 of the octets 0 to 4 the slice from 1 to 2.
fn slice_of_a_slice(alloc: Global) -> Option<Octets> {
    let block = Octets::from_slice(alloc, &[0, 1, 2, 3, 4]).ok()?;
    slice_of(&slice_of(&block, 1, 4)?, 1, 2)
}

/// Whether a copy of octets is this one.
fn is_copied(octets: &Octets, want: u8) -> bool {
    match octets.copy() {
        Ok(copy) => copy.as_slice() == [want].as_slice(),
        Err(_) => false,
    }
}

fn slices_of_slices(alloc: Global) -> bool {
    match slice_of_a_slice(alloc) {
        Some(slice) => is_copied(&slice, 2),
        None => false,
    }
}

fn row_of(packet: Octets) -> Row {
    Row {
        key: Key { time: 1, seq: 2 },
        rectime: 3,
        packet,
        link: 1,
        pname: 0,
        table: 0,
    }
}

/// A copy of the list of one row of this packet.
fn rows_of(alloc: Global, packet: &[u8]) -> Result<Rows, AllocError> {
    let row = row_of(Octets::from_slice(alloc, packet)?);
    let mut rows = Rows::new(alloc);
    rows.push(row)?;
    rows.copy(alloc)
}

fn copies_rows(alloc: Global) -> bool {
    match rows_of(alloc, &[2]) {
        Ok(rows) => match rows.as_slice() {
            [row] => row.packet.as_slice() == [2].as_slice(),
            _ => false,
        },
        Err(_) => false,
    }
}

fn outcomes_of(alloc: Global, inserted: Inserted) -> Result<Outcomes, AllocError> {
    let mut outcomes = Outcomes::new(alloc);
    outcomes.push(inserted)?;
    outcomes.copy(alloc)
}

fn copies_outcomes(alloc: Global) -> bool {
    match outcomes_of(alloc, Inserted::New(0)) {
        Ok(outcomes) => matches!(outcomes.as_slice(), [Inserted::New(0)]),
        Err(_) => false,
    }
}

fn push_copy(names: &mut Names, name: &Name) -> Result<(), AllocError> {
    names.push(name.copy()?)
}

/// Adds a copy of the name of these octets, if they are one.
fn push_name(alloc: Global, names: &mut Names, text: &[u8]) -> Result<(), AllocError> {
    match Name::of(Octets::from_slice(alloc, text)?) {
        Some(name) => push_copy(names, &name),
        None => Ok(()),
    }
}

/// A copy of the list of those of two texts that are names.
fn names_of(alloc: Global, first: &[u8], last: &[u8]) -> Result<Names, AllocError> {
    let mut names = Names::new(alloc);
    push_name(alloc, &mut names, first)?;
    push_name(alloc, &mut names, last)?;
    names.copy(alloc)
}

fn copies_names(alloc: Global) -> bool {
    match names_of(alloc, b"", b"tm") {
        Ok(names) => match names.as_slice() {
            [name] => name.as_slice() == b"tm".as_slice(),
            _ => false,
        },
        Err(_) => false,
    }
}

#[test]
fn copies(rt: HostRuntime) -> Result<(), Fail> {
    none_other(other(&[
        ("parts of parts", slices_of_slices(rt.alloc())),
        ("rows", copies_rows(rt.alloc())),
        ("outcomes", copies_outcomes(rt.alloc())),
        ("names", copies_names(rt.alloc())),
    ]))
}
