//! The text of each refusal.

use crate::ends::none_other;
use arch_types::key::Key;
use arch_types::name::Name;
use arch_types::octets::Octets;
use intervals::Interval;
use refusals::{BadKind, FaultText, Refusal, SheetName, Which};
use std::alloc::Global;
use std::test::Fail;

/// A refusal that tells nothing more, by its place in a list.
fn plain_refusal(place: usize) -> Refusal {
    match place {
        0 => Refusal::Usage,
        1 => Refusal::ReadFault,
        2 => Refusal::WriteFault,
        3 => Refusal::NoArchive,
        4 => Refusal::Exists,
        5 => Refusal::DiskFault,
        6 => Refusal::UnknownParameter,
        _ => Refusal::OutOfMemory,
    }
}

/// A refusal that tells numbers, by its place in a list.
fn numbered_refusal(place: usize) -> Refusal {
    match place {
        8 => Refusal::BadPacket {
            at: 7,
            kind: BadKind::Version,
        },
        9 => Refusal::BadSheet {
            sheet: SheetName::Asks,
            row: 2,
            rule: 34,
        },
        10 => Refusal::BadSql { at: 7, rule: 2 },
        11 => Refusal::Damaged { file: 3, at: 9 },
        12 => Refusal::NeedsReopen { faults: 1 },
        13 => Refusal::BadRange { from: 5, to: -4 },
        14 => Refusal::Late {
            interval: Interval(-2),
        },
        15 => limit(Which::DumpOctets),
        _ => limit(Which::SheetOctets),
    }
}

/// The refusal of what passes a limit.
fn limit(which: Which) -> Refusal {
    Refusal::Limit {
        which,
        number: which.limit(),
    }
}

/// The name of these octets, where they are one.
fn name(alloc: Global, octets: &[u8]) -> Option<Name> {
    Name::of(Octets::from_slice(alloc, octets).ok()?)
}

fn missing(alloc: Global) -> Option<Refusal> {
    let name = Octets::from_slice(alloc, "d\u{e9}p\u{f4}t".as_bytes()).ok()?;
    Some(Refusal::Missing { name })
}

fn unknown_table(alloc: Global) -> Option<Refusal> {
    let name = name(alloc, b"nothing")?;
    Some(Refusal::UnknownTable { name })
}

fn mismatch(alloc: Global) -> Option<Refusal> {
    Some(Refusal::Mismatch {
        interval: Interval(-2),
        parameter: name(alloc, b"v")?,
        key: Key { time: 0, seq: 0 },
        stored: Some(43),
        replayed: None,
    })
}

/// The refusal whose text stands at this place below.
fn refusal(alloc: Global, place: usize) -> Option<Refusal> {
    match place {
        17 => missing(alloc),
        18 => unknown_table(alloc),
        19 => mismatch(alloc),
        8..=16 => Some(numbered_refusal(place)),
        _ => Some(plain_refusal(place)),
    }
}

const TEXTS: &[&str] = &[
    "usage",
    "read fault",
    "write fault",
    "no archive",
    "archive exists",
    "disk fault",
    "unknown parameter",
    "out of memory",
    "bad packet at 7: version",
    "bad sheet asks row 2 rule 34",
    "bad sql at 7 rule 2",
    "damaged file 3 at 9",
    "reopen after 1 faults",
    "bad range 5 -4",
    "late interval -2",
    "limit DumpOctets 268435456",
    "limit SheetOctets 4194304",
    "no input d\u{e9}p\u{f4}t",
    "unknown table nothing",
    "mismatch in interval -2",
];

/// A function, so that they stand in no goal of its callers.
fn texts() -> &'static [&'static str] {
    TEXTS
}

/// Whether the text of a refusal is this one.
fn says(alloc: Global, refusal: &Refusal, want: &str) -> bool {
    match format!(in alloc; "{}", FaultText(refusal)) {
        Ok(text) => text.as_str() == want,
        Err(_) => false,
    }
}

/// The same of the refusal at a place.
fn says_at(alloc: Global, place: usize, want: &str) -> bool {
    match refusal(alloc, place) {
        Some(refusal) => says(alloc, &refusal, want),
        None => false,
    }
}

/// The first of these texts that is another.
fn other_text(alloc: Global, texts: &[&'static str]) -> Option<&'static str> {
    let mut place = 0usize;
    for text in texts {
        if !says_at(alloc, place, text) {
            return Some(*text);
        }
        place = place.saturating_add(1);
    }
    None
}

#[test]
fn names_refusals(rt: HostRuntime) -> Result<(), Fail> {
    none_other(other_text(rt.alloc(), texts()))
}
