//! The partitions of rows.

ghost use Rattle.std.specs.Prelude.{◌≡◌, ◌+◌, ◌^◌, ◌<◌, ◌≤◌, ◌≤ℤ◌, ◌↔◌, [], ◌∷◌, ◌++◌, length, true, max, IfOk, OnOk, OnErr, Contains};
ghost use Rattle.partitions.specs.Partition.{partition_of};
ghost use Rattle.partitions.specs.NameDay.{name_day};
ghost use Rattle.partitions.specs.Bounds.{MayHold};
ghost use Rattle.partitions.specs.NameDayFilter.{is_on, passes_filter};
ghost use Rattle.partitions.specs.Places.{places_in};
ghost use Rattle.partitions.specs.Partitions.{AreRising};

use crate::bounds::Bounds;
use crate::days::Days;
use crate::indexes::{of_names, on_days, put_last};
use crate::links::Link;
use crate::lists::{PartList, in_order};
use crate::name_day::NameDay;
use crate::name_day_filter::NameDayFilter;
use crate::partition::{Partition, partition_of};
use crate::places::Places;
use crate::sorted_names::SortedNames;
use block_map::growing_index::GrowingIndex;
use std::alloc::{AllocError, Global};
use std::marker::Model;

/// The partition of each row that was noted.
#[derive(Drop)]
pub struct Partitions {
    alloc: Global,
    /// The place of the last row of each partition that holds one.
    by_day: GrowingIndex<Partition, u32>,
    /// The same partitions, by packet name first.
    by_name: GrowingIndex<NameDay, ()>,
    /// Of each row noted, the row before it of its partition.
    links: Vec<Link>,
    /// How many more rows are noted without memory.
    room: usize,
}

impl Model for Partitions {
    ghost use Rattle.partitions.specs.Links.{noted_in};
    ghost use Rattle.partitions.specs.Partitions.{PartitionsView, AreNoted};

    ghost Value = { PartitionsView };

    ghost view = { λ o. record { noted = noted_in o.links.items; room = o.room } };

    ghost invariant = { λ o. AreNoted o.by_day o.by_name o.links o.room };
}

impl Partitions {
    /// No row, and no room. Takes no memory.
    pub fn new(alloc: Global) -> Self
        ensures { result ≡ record { noted = []; room = 0 } }
    {
        Partitions {
            alloc,
            by_day: GrowingIndex::new(alloc),
            by_name: GrowingIndex::new(alloc),
            links: Vec::new(alloc),
            room: 0,
        }
    }

    /// Makes the room at least `rows`. The one error is want of memory, or of places of 32 bits, and then all is as
    /// before.
    pub fn reserve(&mut self, rows: u64) -> Result<(), AllocError>
        ensures ok { OnOk result (self.new ≡ record { noted = self.old.noted; room = max self.old.room rows }) }
        ensures err { OnErr result (self.new ≡ self.old) }
        ensures full { OnErr result (self.old.room < rows) }
    {
        let rows = rows as usize;
        if rows <= self.room {
            return Ok(());
        }
        // Places have 32 bits, of which the greatest number stands for none.
        match self.links.len().checked_add(rows) {
            Some(total) if total <= u32::MAX as usize => {}
            _ => return Err(AllocError),
        }
        self.links.reserve(rows)?;
        self.by_day.reserve(rows)?;
        self.by_name.reserve(rows)?;
        self.room = rows;
        Ok(())
    }

    /// Notes a row of this time, in milliseconds since 1970, and packet name. Takes no memory.
    pub fn add(&mut self, time: i64, pname: u16)
        requires { 0 < self.old.room }
        ensures added { self.new.noted ≡ self.old.noted ++ partition_of time pname ∷ [] }
        ensures left { self.old.room ≤ self.new.room + 1 }
    {
        let partition = partition_of(time, pname);
        let place = self.links.len() as u32;
        let before = put_last(&mut self.by_day, &mut self.by_name, partition, place);
        self.links.push_reserved(Link::new(&partition, before));
        self.room -= 1;
    }

    /// The places of the rows that were noted in a partition, the last first. A place is how many rows were noted
    /// before.
    pub fn places_of(&self, partition: Partition) -> Places<'_>
        ensures { result ≡ places_in partition self.now.noted }
    {
        Places::new(self.links.as_slice(), self.by_day.get(partition))
    }

    /// Places have 32 bits. This does nothing but tell a proof so.
    fn has_places(&self)
        ensures { length self.now.noted < 2 ^ 32 }
    {
        let _ = &self.links;
    }

    /// How many rows were noted in a partition. They are counted along its chain.
    pub fn row_count(&self, partition: Partition) -> usize
        ensures { result ≡ length (places_in partition self.now.noted) }
    {
        self.has_places();
        let mut places = self.places_of(partition);
        let mut count = 0;
        while let Some(_) = places.next() {
            count += 1;
        }
        count
    }

    /// The partitions that hold a row and may hold one in the bounds, by day and then by the packet name's number.
    /// The one error is want of memory.
    pub fn pruned(&self, bounds: &Bounds) -> Result<PartList, AllocError>
        ensures exactly { IfOk result (λ parts. (p : Partition) → Contains parts p
            ↔ (Contains self.now.noted p × MayHold bounds.now p)) }
        ensures rising { IfOk result (λ parts. AreRising parts) }
    {
        if bounds.to <= bounds.from {
            return Ok(PartList::new(self.alloc));
        }
        let days = Days::of(bounds);
        match &bounds.names {
            Some(names) => {
                let names = SortedNames::of(self.alloc, names.as_slice())?;
                self.of_names(&NameDayFilter { days, names })
            }
            None => self.on_days(&days),
        }
    }

    /// The partitions that hold a row on some days.
    fn on_days(&self, days: &Days) -> Result<PartList, AllocError>
        ensures exactly { IfOk result (λ parts. (p : Partition) → Contains parts p
            ↔ (Contains self.now.noted p × (is_on days.now p.day ≡ true))) }
        ensures rising { IfOk result (λ parts. AreRising parts) }
    {
        on_days(self.alloc, &self.by_day, days)
    }

    /// The partitions that hold a row and are wanted.
    fn of_names(&self, name_day_filter: &NameDayFilter) -> Result<PartList, AllocError>
        requires { name_day_filter.now.days.first ≤ℤ name_day_filter.now.days.last }
        ensures exactly { IfOk result (λ parts. (p : Partition) → Contains parts p
            ↔ (Contains self.now.noted p × (passes_filter name_day_filter.now (name_day p) ≡ true))) }
        ensures rising { IfOk result (λ parts. AreRising parts) }
    {
        let parts = of_names(self.alloc, &self.by_name, name_day_filter)?;
        Ok(in_order(parts))
    }
}
