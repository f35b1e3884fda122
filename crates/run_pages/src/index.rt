//! The index of a run's pages as octets, both ways, and what an index says by itself.

ghost use Rattle.std.specs.Prelude.{◌≡◌, ◌++◌, None, length, OnOk};
ghost use Rattle.std.specs.List.{AllByRecursion};
ghost use Rattle.octet_fields.specs.declared.fault.DecodeError.TheVariants.{OutOfMemory};
ghost use Rattle.octet_fields.specs.Answers.{Gives, ReadsEach, ReadsOnly};
ghost use Rattle.octet_fields.specs.Reading.{times_at, whole};
ghost use Rattle.run_pages.specs.Index.{AreEntries, IsPageEntry, are_joined, page_entry_at, page_entry_octets, index_octets, is_above_last, is_index, is_page_number};

use crate::footer::Footer;
use arch_types::key::Key;
use octet_fields::{
    Decode, DecodeError, Encode, each_at, i64_at, put_each, put_i64, put_u32, put_u64, u32_at,
    u64_at,
};
use std::alloc::{AllocError, Global};

/// What the index says of a page: the key of its first row, the octet at which it begins, and its length.
#[derive(Clone, Copy, Debug, PartialEq, Eq)]
pub struct PageEntry {
    pub first: Key,
    pub at: u64,
    pub len: u32,
}

/// The octets of an entry.
pub const ENTRY_SIZE: u64 = 24;

/// How an entry is spelled.
struct PageEntryCodec;

impl Decode for PageEntryCodec {
    type Value = PageEntry;

    const LEAST_OCTETS: usize = 24;

    ghost read = { page_entry_at };

    #[tactic(auto, unfolding(crate::specs::Index::page_entry_at))]
    fn at(_alloc: Global, octets: &[u8]) -> Result<(PageEntry, &[u8]), DecodeError> {
        let (time, rest) = i64_at(octets)?;
        let (seq, rest) = u32_at(rest)?;
        let (at, rest) = u64_at(rest)?;
        let (len, rest) = u32_at(rest)?;
        let first = Key { time, seq };
        Ok((PageEntry { first, at, len }, rest))
    }
}

impl Encode for PageEntryCodec {
    type Value = PageEntry;

    ghost fits = { IsPageEntry };

    ghost spell = { page_entry_octets };

    #[tactic(auto, unfolding(crate::specs::Index::page_entry_octets))]
    fn put(out: &mut Vec<u8>, entry: &PageEntry) -> Result<(), AllocError> {
        put_i64(out, entry.first.time)?;
        put_u32(out, entry.first.seq)?;
        put_u64(out, entry.at)?;
        put_u32(out, entry.len)
    }
}

/// So many entries.
fn whole_index(alloc: Global, octets: &[u8], count: u32) -> Result<Vec<PageEntry>, DecodeError>
    ensures { Gives (λ v. v.items) result (whole (times_at page_entry_at count) octets.now) }
{
    let (entries, rest) = each_at::<PageEntryCodec>(alloc, count as usize, octets)?;
    if !rest.is_empty() {
        return Err(DecodeError::Malformed);
    }
    Ok(entries)
}

/// The entries of so many pages that octets spell. Room for 24 octets an entry is taken, of as many as the octets can spell.
pub fn read_index(alloc: Global, octets: &[u8], count: u32) -> Result<Vec<PageEntry>, DecodeError>
    // Ok: the octets are the one spelling of these entries.
    ensures spelled { ReadsOnly (AreEntries count) index_octets (λ v. v.items) octets.now result }

    // Octets that spell so many entries give them, unless memory is wanting.
    ensures each { ReadsEach (AreEntries count) index_octets (λ v. v.items) (λ e. e ≡ OutOfMemory) octets.now result }
{
    whole_index(alloc, octets, count)
}

/// Adds the one spelling of entries to a buffer.
pub fn put_index(out: &mut Vec<u8>, entries: &[PageEntry]) -> Result<(), AllocError>
    requires { AllByRecursion IsPageEntry entries.now }
    ensures { OnOk result (out.new.items ≡ out.old.items ++ index_octets entries.now) }
{
    put_each::<PageEntryCodec>(out, entries)
}

/// Whether a page's first key is above that of the page before, if there is one.
fn is_above_last(last: Option<Key>, key: Key) -> bool
    ensures { result ≡ is_above_last last key }
{
    match last {
        Some(last) => last < key,
        None => true,
    }
}

/// Whether pages stand one behind the other, none empty, up to an octet, and their first keys rise.
fn are_joined(entries: &[PageEntry], end: u64) -> bool
    ensures { result ≡ are_joined 0 end None entries.now }
{
    let mut at: u64 = 0;
    let mut last = None;
    for entry in entries {
        if entry.at != at || entry.len < 1 || !is_above_last(last, entry.first) {
            return false;
        }
        let Some(next) = at.checked_add(u64::from(entry.len)) else {
            return false;
        };
        at = next;
        last = Some(entry.first);
    }
    at == end
}

/// Whether that many pages hold that many rows, 64 each but the last.
fn is_page_number(pages: u32, rows: u64) -> bool
    ensures { result ≡ is_page_number pages rows }
{
    let places = u64::from(pages) * 64;
    rows >= 1 && rows <= places && places - rows <= 63
}

/// Whether entries are the index that a footer ends: as many pages as hold its rows, one behind the other up to the index.
pub fn is_index(entries: &[PageEntry], footer: Footer) -> bool
    ensures { result ≡ is_index entries.now footer }
{
    is_page_number(footer.pages, footer.rows) && are_joined(entries, footer.at)
}
