//! A table.

ghost use Rattle.std.specs.Prelude.{◌≡◌, ◌+◌, ◌<◌, ◌≤◌, [], max, false, IfOk, OnOk, OnErr, IfSome, IfNone, Some, length, slice_get};
ghost use Rattle.std.specs.List.{list_any};
ghost use Rattle.arch_types.specs.History.{has_key};
ghost use Rattle.yarch_table.specs.Index.{by_key};
ghost use Rattle.yarch_table.specs.Stored.{seen_at, seen_between, rows_of, IsInserted, IsKeptAt};

use crate::packed_key::PackedKey;
use crate::rows::{TableRows, Window};
use crate::stored_rows::StoredRows;
use arch_types::inserted::Inserted;
use arch_types::key::Key;
use arch_types::row::Row;
use block_map::growing_index::GrowingIndex;
use std::alloc::{AllocError, Global};
use std::marker::Model;

/// A row and its position in the history.
#[derive(Debug, Drop)]
pub struct Stored {
    pub row: Row,
    pub position: u64,
}

/// The rows of one table.
#[derive(Drop)]
pub struct Table {
    /// The rows in the order of their insertion.
    stored: Vec<Stored>,
    /// The place of each row in `stored`, by its key. An entry has 16 octets.
    index: GrowingIndex<PackedKey, u32>,
}

impl Model for Table {
    ghost use Rattle.yarch_table.specs.Stored.{TableView};
    ghost use Rattle.yarch_table.specs.Index.{IsIndexedTable};

    ghost Value = { TableView };

    ghost view = { λ t. record { stored = t.stored.items; room = t.index.room } };

    ghost invariant = { λ t. IsIndexedTable t.stored t.index };
}

impl Table {
    /// A table without rows or room. The one error is want of memory.
    pub fn new(alloc: Global) -> Result<Self, AllocError>
        ensures { IfOk result (λ t. t ≡ record { stored = []; room = 0 }) }
    {
        Ok(Table {
            stored: Vec::new(alloc),
            index: GrowingIndex::new(alloc),
        })
    }

    /// Makes room for at least so many more rows. The one error is want of memory, or of places of 32 bits, and then all is as before.
    pub fn reserve(&mut self, rows: u64) -> Result<(), AllocError>
        ensures ok { OnOk result (self.new ≡ record { stored = self.old.stored; room = max self.old.room rows }) }
        ensures err { OnErr result (self.new ≡ self.old) }
        ensures full { OnErr result (self.old.room < rows) }
    {
        let rows = rows as usize;
        if rows <= self.index.room() {
            return Ok(());
        }
        // Places have 32 bits.
        match self.stored.len().checked_add(rows) {
            Some(total) if total <= u32::MAX as usize => {}
            _ => return Err(AllocError),
        }
        self.stored.reserve(rows)?;
        self.index.reserve(rows)
    }

    /// Adds a row with its position in the history. Where a row of its key is there, that one stays, and the answer is its position.
    /// Takes no memory.
    pub fn insert(&mut self, row: Row, position: u64) -> Inserted
        requires { 0 < self.old.room }
        ensures inserted { IsInserted self.old self.new row position result }
        ensures left { self.old.room ≤ self.new.room + 1 }
    {
        let place = self.stored.len() as u32;
        match self.index.insert(PackedKey::of(row.key), place) {
            Some(i) => Inserted::Duplicate(self.stored[i as usize].position),
            None => {
                self.stored.push_reserved(Stored { row, position });
                Inserted::New(position)
            }
        }
    }

    /// The position of the row that has a key.
    pub fn position(&self, key: Key) -> Option<u64>
        ensures some { IfSome result (IsKeptAt self.now.stored key) }
        ensures none { IfNone result (list_any (has_key key) (rows_of self.now.stored) ≡ false) }
    {
        match self.index.get(PackedKey::of(key)) {
            Some(i) => Some(self.stored[i as usize].position),
            None => None,
        }
    }

    /// The rows with a position below the front and `from <= time < to`, in the order of their keys. Times are in milliseconds.
    pub fn range_at(&self, front: u64, from: i64, to: i64) -> TableRows<'_>
        ensures { result ≡ seen_between front from to self.now.stored }
    {
        let entries = self
            .index
            .from_key(PackedKey::of(Key { time: from, seq: 0 }));
        let window = Window {
            front,
            end: Some(to),
        };
        TableRows::new(self.stored.as_slice(), entries, window)
    }

    /// The rows with a position below the front, in the order of their keys.
    pub fn rows_at(&self, front: u64) -> TableRows<'_>
        ensures { result ≡ seen_at front self.now.stored }
    {
        let window = Window { front, end: None };
        TableRows::new(self.stored.as_slice(), self.index.iter(), window)
    }

    /// The rows in the order of their insertion, each with its position.
    pub fn stored(&self) -> &[Stored]
        ensures { result.now ≡ self.now.stored }
    {
        self.stored.as_slice()
    }

    /// The rows in the order of their keys, each with its position.
    pub fn stored_by_key(&self) -> StoredRows<'_>
        ensures { result ≡ by_key self.now.stored }
    {
        StoredRows::new(self.stored.as_slice(), self.index.iter())
    }

    /// The row at a place in the order of insertion, with its position.
    pub fn row_at(&self, place: usize) -> &Stored
        requires { place < length self.now.stored }
        ensures { slice_get self.now.stored place ≡ Some result.now }
    {
        &self.stored[place]
    }

    /// How many rows there are.
    pub fn len(&self) -> usize
        ensures { result ≡ length self.now.stored }
    {
        self.stored.len()
    }

    /// How many more rows go in without memory.
    pub fn room(&self) -> usize
        ensures { result ≡ self.now.room }
    {
        self.index.room()
    }
}
