//! What the limits count: octets of packets, and rows in each interval.

ghost use Rattle.std.specs.Prelude.{◌≡◌, ◌+◌, ◌*◌, ◌<◌, ◌≤◌, ◌^◌, [], max, IfOk, OnOk, OnErr};
ghost use Rattle.std.specs.BTreeMap.{insert_entry};
ghost use Rattle.intervals.specs.declared.interval.Interval.{Interval as AnInterval};
ghost use Rattle.intervals.specs.Interval.{interval_cmp};
ghost use Rattle.archive_history.specs.LimitCounts.{IsMost, interval_row_count, one_at};

use block_map::growing_index::GrowingIndex;
use intervals::Interval;
use std::alloc::{AllocError, Global};
use std::marker::Model;

/// How many octets there are, and how many rows in each interval.
#[derive(Drop)]
pub struct LimitCounts {
    octets: u64,
    /// The number of rows of each interval that has any.
    rows: GrowingIndex<Interval, u64>,
    /// The number of rows of the interval that has most.
    most: u64,
}

impl Model for LimitCounts {
    ghost use Rattle.archive_history.specs.LimitCounts.{IsMost, LimitCountsView};

    ghost Value = { LimitCountsView };

    ghost view = { λ s. record { octets = s.octets; rows = s.rows.entries; room = s.rows.room } };

    ghost invariant = { λ s. IsMost s.most s.rows.entries };
}

impl LimitCounts {
    /// Nothing yet, and no room. The one error is want of memory.
    pub fn new(alloc: Global) -> Result<Self, AllocError>
        ensures { IfOk result (λ s. s ≡ record { octets = 0; rows = []; room = 0 }) }
    {
        Ok(LimitCounts {
            octets: 0,
            rows: GrowingIndex::new(alloc),
            most: 0,
        })
    }

    /// Makes room for at least so many more intervals. The one error is want of memory, and then all is as before.
    pub fn reserve(&mut self, intervals: usize) -> Result<(), AllocError>
        ensures ok { OnOk result (self.new ≡ record {
          octets = self.old.octets;
          rows = self.old.rows;
          room = max
              self.old.room intervals;
        }) }
        ensures err { OnErr result (self.new ≡ self.old) }
    {
        self.rows.reserve(intervals)
    }

    pub fn octets(&self) -> u64
        ensures { result ≡ self.now.octets }
    {
        self.octets
    }

    /// The number of rows of the interval that has most, so that none need be looked up where that many more pass no limit; 0
    /// where none has any.
    pub fn most_rows(&self) -> u64
        ensures { IsMost result self.now.rows }
    {
        self.most
    }

    /// How many rows an interval has.
    pub fn rows_of(&self, interval: Interval) -> u64
        ensures { result ≡ interval_row_count self.now.rows interval }
    {
        match self.rows.get(interval) {
            Some(rows) => rows,
            None => 0,
        }
    }

    pub fn add_octets(&mut self, octets: usize)
        requires { self.old.octets + octets < 2 ^ 64 }
        ensures { self.new ≡ record { octets = self.old.octets + octets; rows = self.old.rows; room = self.old.room } }
    {
        self.octets += octets as u64;
    }

    /// Counts one more row of an interval. Takes no memory.
    pub fn add_row(&mut self, interval: Interval)
        requires room { 0 < self.old.room }
        requires small { interval_row_count self.old.rows interval + 1 < 2 ^ 64 }
        ensures rows { (i : AnInterval) →
            interval_row_count self.new.rows i ≡ interval_row_count self.old.rows i + one_at interval i }
        ensures octets { self.new.octets ≡ self.old.octets }
        ensures room { self.old.room ≤ self.new.room + 1 }
    {
        let rows = self.rows.add_one(interval);
        self.most = self.most.max(rows);
    }

    /// Counts so many more rows of an interval, as so many calls of `add_row` do, but looks it up once. Takes no memory.
    pub fn add_rows(&mut self, interval: Interval, count: u64)
        requires room { 0 < self.old.room }
        requires small { interval_row_count self.old.rows interval + count < 2 ^ 64 }
        ensures rows { (i : AnInterval) →
            interval_row_count self.new.rows i ≡ interval_row_count self.old.rows i + one_at interval i * count }
        ensures octets { self.new.octets ≡ self.old.octets }
        ensures room { self.old.room ≤ self.new.room + 1 }
    {
        let rows = self.rows_of(interval) + count;
        put_count(&mut self.rows, interval, rows);
        self.most = self.most.max(rows);
    }
}

/// Gives an interval this count. Takes no memory.
fn put_count(counts: &mut GrowingIndex<Interval, u64>, interval: Interval, count: u64)
    requires { 0 < counts.old.room }
    ensures entries { counts.new.entries ≡ insert_entry interval_cmp counts.old.entries interval count }
    ensures room { counts.old.room ≤ counts.new.room + 1 }
{
    if counts.replace(interval, count).is_none() {
        counts.insert(interval, count);
    }
}
