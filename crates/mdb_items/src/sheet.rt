//! The three sheets as records of octet fields.

ghost use Rattle.std.specs.Prelude.{◌≡◌, ◌<◌, ◌≤◌, ◌-◌, ◌+◌, ◌^◌, ◌∷◌, ◌++◌, [], Some, drop, length, map, slice_get, take, vec_capacity, vec_len, ℕ, IfOk, OnOk, OnErr};
ghost use Rattle.mdb_items.specs.Records.{AreEnds, parts_from, start_at};
ghost use Rattle.mdb_items.specs.Texts.{field};

use std::alloc::{AllocError, Global};
use std::marker::Model;

/// A record: the octets of its fields in their order, joined, and the place where each field ends. A reader of a sheet fills one
/// again for each row.
#[derive(Drop)]
pub struct Record {
    octets: Vec<u8>,
    ends: Vec<u32>,
}

impl Model for Record {
    ghost use Rattle.std.specs.Prelude.{List, ℕ, length};
    ghost use Rattle.mdb_items.specs.Records.{AreEnds, parts_from};

    ghost Value = { List (List ℕ) };

    ghost invariant = { λ a. AreEnds 0 a.ends.items (length a.octets.items) };

    ghost view = { λ a. parts_from 0 a.ends.items a.octets.items };
}

impl Record {
    /// A record without fields.
    pub fn new(alloc: Global) -> Record
        ensures { result ≡ [] }
    {
        Record {
            octets: Vec::new(alloc),
            ends: Vec::new(alloc),
        }
    }

    /// Takes all fields out, and keeps their memory for others.
    pub fn clear(&mut self)
        ensures { self.new ≡ [] }
    {
        self.octets.clear();
        self.ends.clear();
    }

    /// Adds a field at the end. Where there's no memory the record stays as it was; a record of 4 GiB has none.
    pub fn push(&mut self, field: &[u8]) -> Result<(), AllocError>
        ensures pushed { OnOk result (self.new ≡ self.old ++ field.now ∷ []) }
        ensures kept { OnErr result (self.new ≡ self.old) }
    {
        let end = end_after(self.octets.as_slice().len(), field.len())?;
        self.ends.reserve(1)?;
        self.octets.extend_from_slice(field)?;
        self.ends.push_reserved(end);
        Ok(())
    }
}

/// A sheet: its records in their order, the header among them. The octets of all fields are joined in one block.
#[derive(Drop)]
pub struct Sheet {
    octets: Vec<u8>,
    /// Where each field ends among the octets.
    field_ends: Vec<u32>,
    /// How many fields stand before the end of each record.
    record_ends: Vec<u32>,
}

impl Model for Sheet {
    ghost use Rattle.std.specs.Prelude.{List, ℕ, length};
    ghost use Rattle.mdb_items.specs.Records.{AreEnds, parts_from};

    ghost Value = { List (List (List ℕ)) };

    ghost invariant = { λ a. AreEnds 0 a.field_ends.items (length a.octets.items) ×
        AreEnds 0 a.record_ends.items (length a.field_ends.items) };

    ghost view = { λ a. parts_from 0 a.record_ends.items (parts_from 0 a.field_ends.items a.octets.items) };
}

impl Sheet {
    /// A sheet without records.
    pub fn new(alloc: Global) -> Sheet
        ensures { result ≡ [] }
    {
        Sheet {
            octets: Vec::new(alloc),
            field_ends: Vec::new(alloc),
            record_ends: Vec::new(alloc),
        }
    }

    /// Adds a copy of a record at the end. Where there's no memory the sheet stays as it was; a sheet of 4 GiB has none.
    pub fn push(&mut self, row: &Record) -> Result<(), AllocError>
        ensures pushed { OnOk result (self.new ≡ self.old ++ row.now ∷ []) }
        ensures kept { OnErr result (self.new ≡ self.old) }
    {
        let start = self.octets.as_slice().len();
        let octets = row.octets.as_slice();
        let ends = row.ends.as_slice();
        end_after(start, octets.len())?;
        let record_end = end_after(self.field_ends.as_slice().len(), ends.len())?;
        self.record_ends.reserve(1)?;
        self.field_ends.reserve(ends.len())?;
        self.octets.extend_from_slice(octets)?;
        push_ends(&mut self.field_ends, start as u32, ends);
        self.record_ends.push_reserved(record_end);
        Ok(())
    }

    /// The number of records.
    pub fn len(&self) -> usize
        ensures { result ≡ length self.now }
    {
        self.record_ends.as_slice().len()
    }

    /// The record at a place.
    pub fn record(&self, place: usize) -> SheetRecord<'_>
        requires { place < length self.now }
        ensures { slice_get self.now place ≡ Some result }
    {
        let record_ends = self.record_ends.as_slice();
        let field_ends = self.field_ends.as_slice();
        let first = start_of(0, record_ends, place) as usize;
        let last = record_ends[place] as usize;
        let end = start_of(0, field_ends, last) as usize;
        SheetRecord::new(
            slice(self.octets.as_slice(), 0, end),
            slice(field_ends, first, last),
            start_of(0, field_ends, first),
        )
    }
}

/// A record of a sheet.
#[derive(Drop)]
pub struct SheetRecord<'a> {
    /// The octets of the sheet up to the record's end.
    octets: &'a [u8],
    /// Where each field ends among the octets.
    ends: &'a [u32],
    /// Where the first field starts.
    start: u32,
}

impl<'a> Model for SheetRecord<'a> {
    ghost use Rattle.std.specs.Prelude.{List, ℕ, length};
    ghost use Rattle.mdb_items.specs.Records.{AreEnds, parts_from};

    ghost Value = { List (List ℕ) };

    ghost invariant = { λ a. AreEnds a.start a.ends.now (length a.octets.now) };

    ghost view = { λ a. parts_from a.start a.ends.now a.octets.now };
}

impl<'a> SheetRecord<'a> {
    fn new(octets: &'a [u8], ends: &'a [u32], start: u32) -> SheetRecord<'a>
        requires { AreEnds start ends.now (length octets.now) }
        ensures { result ≡ parts_from start ends.now octets.now }
    {
        SheetRecord {
            octets,
            ends,
            start,
        }
    }

    /// The number of fields.
    pub fn len(&self) -> usize
        ensures { result ≡ length self.now }
    {
        self.ends.len()
    }

    /// The octets of the field at a place, none where the record has no such field.
    pub fn field(&self, place: usize) -> &'a [u8]
        ensures { result.now ≡ field self.now place }
    {
        if place >= self.ends.len() {
            return b"".as_slice();
        }
        slice(
            self.octets,
            start_of(self.start, self.ends, place) as usize,
            self.ends[place] as usize,
        )
    }
}

/// Where items end of which so many stand before so many more. There's no memory for 2^32 of them.
fn end_after(before: usize, more: usize) -> Result<u32, AllocError>
    ensures { IfOk result (λ end. end ≡ before + more) }
{
    match u32::try_from(before.saturating_add(more)) {
        Ok(end) => Ok(end),
        Err(_) => Err(AllocError),
    }
}

/// Adds ends behind others, each so much later.
fn push_ends(ends: &mut Vec<u32>, start: u32, more: &[u32])
    requires room { vec_len ends.old + length more.now ≤ vec_capacity ends.old }
    requires small { (size : ℕ) × AreEnds 0 more.now size × (start + size < 2 ^ 32) }
    ensures { ends.new.items ≡ ends.old.items ++ map (λ end. start + end) more.now }
{
    for end in more {
        ends.push_reserved(start + *end);
    }
}

// Where a part starts: at the start of all, or where the one before it ends.
fn start_of(start: u32, ends: &[u32], place: usize) -> u32
    requires { place ≤ length ends.now }
    ensures { result ≡ start_at start ends.now place }
{
    if place == 0 { start } else { ends[place - 1] }
}

// The items from one place to another.
fn slice<T>(items: &[T], start: usize, end: usize) -> &[T]
    requires { (start ≤ end) × (end ≤ length items.now) }
    ensures { result.now ≡ take (end - start) (drop start items.now) }
{
    &items[start..end]
}

/// The three sheets of a mission database.
#[derive(Drop)]
pub struct RawMdb {
    pub parameters: Sheet,
    pub calibrations: Sheet,
    pub containers: Sheet,
}
