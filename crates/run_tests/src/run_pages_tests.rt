//! A worked run octet by octet: its page, its index and its footer, and what of each is refused.

use arch_types::key::Key;
use arch_types::octets::Octets;
use run_pages::{Footer, PageEntry, is_index, read_footer, read_index, read_page};
use std::alloc::Global;
use std::test::*;

/// A row at position 0, of table 0, received at 9,000 ms by link 1 with packet name 2.
const PAGE: &[u8] = &[
    0, 1, // one row
    0, 0, 0, 0, 0, 0, 0, 0, // its position
    0, 0, 0, 0, 0, 0, 0, 0x23, 0x28, 1, 0, 2, // table, reception time, link, packet name
    0x08, 0x64, 0xC0, 0, 0, 7, 0, 0, 0, 1, 0x80, 0, 0x2A, 0xFE, // the packet
];

/// Its first key, the octet at which it begins, its length.
const INDEX: &[u8] = &[
    0, 0, 0, 0, 0, 0, 0x05, 0xDC, 0x08, 0x64, 0xC0, 0, // 1500 and 140820480
    0, 0, 0, 0, 0, 0, 0, 0, 0, 0, 0, 36,
];

/// The octet at which the index begins, one page, one row.
const FOOTER: &[u8] = &[0, 0, 0, 0, 0, 0, 0, 36, 0, 0, 0, 1, 0, 0, 0, 0, 0, 0, 0, 1];

/// A place of the worked page, the octet that is put there, and what is wrong then.
type Change = (usize, u8, &'static str);

const CHANGES: &[Change] = &[
    (1, 0, "no row"),
    (1, 2, "a row that isn't there"),
    (1, 65, "more than 64 rows"),
    (11, 0x80, "a reception time below 0"),
    (19, 0, "link 0"),
    (22, 0x28, "packet version number 1"),
    (27, 6, "an octet behind the last row"),
    (27, 8, "a packet that passes the end"),
];

/// The first key's time, the octet and the length of the pages of an index, the footer's octet and rows, and whether that is an index.
type Index = (&'static [(i64, u64, u32)], u64, u64, bool);

const INDEXES: &[Index] = &[
    (&[(1, 0, 36)], 36, 1, true),
    (&[(1, 0, 36)], 36, 64, true),
    (&[(1, 0, 36)], 36, 0, false), // no row
    (&[(1, 0, 36)], 36, 65, false), // more rows than places
    (&[(1, 0, 36)], 37, 1, false), // a gap before the index
    (&[(1, 1, 36)], 37, 1, false), // a gap before the first page
    (&[(1, 0, 0)], 0, 1, false), // an empty page
    (&[(1, 0, 36), (2, 36, 36)], 72, 65, true),
    (&[(1, 0, 36), (2, 36, 36)], 72, 64, false), // a page too many
    (&[(1, 0, 36), (1, 36, 36)], 72, 65, false), // first keys that don't rise
    (&[(1, 0, 36), (2, 35, 36)], 71, 65, false), // pages that overlap
    (&[(1, 0, u32::MAX), (2, u64::MAX, 36)], 35, 65, false), // a place past the last
];

fn page() -> &'static [u8] {
    PAGE
}

/// The octets of the worked run.
pub(crate) fn worked_run(alloc: Global) -> Option<Vec<u8>> {
    let mut octets = PAGE.to_vec(alloc).ok()?;
    octets.extend_from_slice(INDEX).ok()?;
    octets.extend_from_slice(FOOTER).ok()?;
    Some(octets)
}

fn changes() -> &'static [Change] {
    CHANGES
}

fn indexes() -> &'static [Index] {
    INDEXES
}

/// Whether octets are a page of one row at position 0 with the worked key.
fn is_worked(alloc: Global, octets: &[u8]) -> bool {
    let Ok(block) = Octets::from_slice(alloc, octets) else {
        return false;
    };
    let Ok(page) = read_page(alloc, &block) else {
        return false;
    };
    let (rows, positions) = (page.rows.as_slice(), page.positions.as_slice());
    rows.len() == 1
        && positions == [0].as_slice()
        && rows[0].key
            == Key {
                time: 1_500,
                seq: 140_820_480,
            }
}

#[test]
fn worked_page(rt: HostRuntime) {
    assert!(rt; is_worked(rt.alloc(), page()));
}

/// Whether the worked page is refused with another octet at a place.
fn is_refused_changed(alloc: Global, place: usize, octet: u8) -> bool {
    let Ok(mut changed) = page().to_vec(alloc) else {
        return false;
    };
    if place < changed.len() {
        changed[place] = octet;
    }
    match Octets::from_vec(alloc, changed) {
        Ok(block) => read_page(alloc, &block).is_err(),
        Err(_) => false,
    }
}

/// The first change with which a page is read.
fn read_change(alloc: Global, changes: &[Change]) -> Option<&'static str> {
    for (place, octet, wrong) in changes {
        if !is_refused_changed(alloc, *place, *octet) {
            return Some(*wrong);
        }
    }
    None
}

#[test]
fn refuses_other_pages(rt: HostRuntime) {
    assert_eq!(rt; read_change(rt.alloc(), changes()), None);
}

/// Whether an index is told rightly.
fn is_told(alloc: Global, index: &Index) -> bool {
    let (pages, at, rows, is) = *index;
    let mut entries = Vec::new(alloc);
    for (time, at, len) in pages {
        let first = Key {
            time: *time,
            seq: 0,
        };
        let entry = PageEntry {
            first,
            at: *at,
            len: *len,
        };
        if entries.push(entry).is_err() {
            return false;
        }
    }
    let Ok(pages) = u32::try_from(pages.len()) else {
        return false;
    };
    is_index(&entries, Footer { at, pages, rows }) == is
}

/// The first index that isn't told rightly.
fn other_index(alloc: Global, indexes: &[Index]) -> Option<usize> {
    for (place, index) in indexes.iter().enumerate() {
        if !is_told(alloc, index) {
            return Some(place);
        }
    }
    None
}

#[test]
fn tells_indexes(rt: HostRuntime) {
    assert_eq!(rt; other_index(rt.alloc(), indexes()), None);
}

#[test]
fn worked_end(rt: HostRuntime) {
    let footer = Footer {
        at: 36,
        pages: 1,
        rows: 1,
    };
    assert_eq!(rt; read_footer(FOOTER), Some(footer));
    assert_eq!(rt; read_footer(&FOOTER[1..]), None);
    let entries = read_index(rt.alloc(), INDEX, 1);
    assert!(rt; matches!(&entries, Ok(entries) if is_index(entries, footer)));
    assert!(rt; read_index(rt.alloc(), INDEX, 2).is_err());
}
