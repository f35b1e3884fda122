//! Fill lists, with a place kept for the end of each flight.

ghost use Rattle.std.specs.Prelude.{◌≡◌, ◌<◌, ◌++◌, [], ◌∷◌, OnOk};
ghost use Rattle.history_items.specs.declared.fills.Fill.TheVariants as fills;
ghost use Rattle.history_items.specs.Fills.{reopened};

use crate::fills::{Addition, Fill, clear_failed_writes};
use intervals::Interval;
use std::alloc::{AllocError, Global};
use std::marker::Model;

/// What happened to fills and each fault of the disk, in the order in which it happened.
///
/// A flight's end is noted after the disk was written, and must not want memory then: so the list has a place for the
/// end of each flight, and a fault takes none of these.
#[derive(Debug, Drop)]
pub struct FillList {
    items: Vec<Fill>,
    /// The intervals in flight, in the order in which their flights began.
    flights: Vec<Interval>,
}

impl Model for FillList {
    ghost use Rattle.history_items.specs.FillList.{FillListView, fill_list_of, KeepsPlaces};

    ghost Value = { FillListView };

    ghost view = { λ f. fill_list_of f.items f.flights };

    ghost invariant = { λ f. KeepsPlaces f.items f.flights };
}

impl FillList {
    /// Nothing happened. Takes no memory.
    pub fn new(alloc: Global) -> Self
        ensures items { result.items ≡ [] }
    {
        FillList {
            items: Vec::new(alloc),
            flights: Vec::new(alloc),
        }
    }

    /// Takes memory for one item that is no flight's, beside the ends of the flights: a fault, or the closing. Refused, all
    /// but room is as it was.
    pub fn reserve_fault(&mut self) -> Result<(), AllocError>
        ensures room { OnOk result (0 < self.new.room) }
        ensures items { self.new.items ≡ self.old.items }
    {
        self.items.reserve(self.flights.len() + 1)
    }

    /// Notes that a call answered that the disk failed. Takes no memory.
    pub fn note_fault(&mut self, count: u64, wrote: bool, unacknowledged: Addition)
        requires room { 0 < self.old.room }
        ensures items { self.new.items ≡ self.old.items ++ fills.Fault count wrote unacknowledged ∷ [] }
    {
        self.items.push_reserved(Fill::Fault {
            count,
            wrote,
            unacknowledged,
        });
    }

    /// Notes that what is published of the archive was published for the last time. Takes no memory.
    pub fn note_closed(&mut self)
        requires room { 0 < self.old.room }
        ensures items { self.new.items ≡ self.old.items ++ fills.Closed ∷ [] }
    {
        self.items.push_reserved(Fill::Closed);
    }

    /// Notes that a reopen succeeded. Takes no memory.
    pub fn clear_failed_writes(&mut self)
        ensures items { self.new.items ≡ reopened self.old.items }
        ensures room { self.new.room ≡ self.old.room }
    {
        clear_failed_writes(self.items.as_mut_slice());
    }

    /// The items, in the order in which they were noted.
    pub fn as_slice(&self) -> &[Fill]
        ensures { result.now ≡ self.now.items }
    {
        self.items.as_slice()
    }
}
