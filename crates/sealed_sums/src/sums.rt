//! What the rows of all tables come to.

ghost use Rattle.std.specs.Prelude.{◌≡◌, ℕ, ◌+◌, ◌<◌, ◌≤◌, ◌^◌, List, [], ◌++◌, length, IfOk, OnOk};
ghost use Rattle.std.specs.List.{zip, AllByRecursion};
ghost use Rattle.arch_types.specs.declared.row.Row.{Row as ARow};
ghost use Rattle.intervals.specs.declared.interval.Interval.{Interval as AnInterval};
ghost use Rattle.archive_history.specs.LimitCounts.{interval_row_count};
ghost use Rattle.archive_history.specs.Limits.{interval_rows};
ghost use Rattle.fill_tracker.specs.Placed.{AreMarksOfPlaced};
ghost use Rattle.sealed_sums.specs.Stretch.{IsStretchOf};
ghost use Rattle.sealed_sums.specs.Sums.{AreSumsOf};
ghost use Rattle.sealed_sums.specs.TableSums.{AreTableSumsOf};

use crate::marking::mark_stretch;
use crate::stretch::{Stretch, first_stretch};
use crate::table_sums::TableSums;
use arch_types::row::Row;
use archive_history::history::TM;
use archive_history::limit_counts::LimitCounts;
use fill_tracker::FillTracker;
use intervals::Exponent;
use std::alloc::{AllocError, Global};
use std::marker::Model;

/// What rows come to that are in memory no longer. Of the rows themselves nothing is kept.
#[derive(Drop)]
pub struct SealedSums {
    /// Of the intervals.
    exponent: Exponent,
    /// How many rows.
    count: u64,
    limit_counts: LimitCounts,
    tables: Vec<TableSums>,
}

impl Model for SealedSums {
    ghost use Rattle.sealed_sums.specs.Sums.{HaveRows, SumsView, sums_view};

    ghost Value = { SumsView };

    ghost view = { λ s. sums_view s.exponent s.count s.limit_counts s.tables.items };

    ghost invariant = { λ s. HaveRows (sums_view s.exponent s.count s.limit_counts s.tables.items) };
}

/// So many tables without rows. The one error is want of memory.
fn empty_tables(alloc: Global, count: usize) -> Result<Vec<TableSums>, AllocError>
    ensures len { IfOk result (λ tables. length tables.items ≡ count) }
    ensures empty { IfOk result (λ tables. AllByRecursion (AreTableSumsOf []) tables.items) }
{
    let mut tables = Vec::with_capacity(alloc, count)?;
    for _ in 0..count {
        tables.push(TableSums::new(alloc))?;
    }
    Ok(tables)
}

/// Counts rows that go together. Takes no memory.
fn count_stretch(counts: &mut LimitCounts, stretch: &Stretch)
    requires room { 0 < counts.old.room }
    requires few { interval_row_count counts.old.rows stretch.now.interval + stretch.now.len < 2 ^ 64 }
    requires small { counts.old.octets + stretch.now.octets < 2 ^ 64 }
    ensures intervals { (exponent : ℕ) (rows : List ARow) → IsStretchOf exponent stretch.now rows → (i : AnInterval) →
        interval_row_count counts.new.rows i ≡ interval_row_count counts.old.rows i + interval_rows exponent i rows }
    ensures octets { counts.new.octets ≡ counts.old.octets + stretch.now.octets }
{
    counts.add_octets(stretch.octets as usize);
    if stretch.table == TM {
        counts.add_rows(stretch.interval, stretch.len as u64);
    }
}

impl SealedSums {
    /// No row, of so many tables, with intervals of this exponent. The one error is want of memory.
    pub fn new(alloc: Global, tables: usize, exponent: Exponent) -> Result<Self, AllocError>
        ensures none { IfOk result (λ sums. AreSumsOf [] sums) }
        ensures exponent { IfOk result (λ sums. sums.exponent ≡ exponent) }
        ensures tables { IfOk result (λ sums. length sums.tables ≡ tables) }
    {
        Ok(SealedSums {
            exponent,
            count: 0,
            limit_counts: LimitCounts::new(alloc)?,
            tables: empty_tables(alloc, tables)?,
        })
    }

    /// The exponent of the intervals.
    pub fn exponent(&self) -> Exponent
        ensures { result ≡ self.now.exponent }
    {
        self.exponent
    }

    /// How many rows there are.
    pub fn count(&self) -> u64
        ensures { result ≡ self.now.count }
    {
        self.count
    }

    /// What the limits count of them.
    pub fn limit_counts(&self) -> &LimitCounts
        ensures { result.now ≡ self.now.limit_counts }
    {
        &self.limit_counts
    }

    /// What the rows of each table come to.
    pub fn tables(&self) -> &[TableSums]
        ensures { result.now ≡ self.now.tables }
    {
        self.tables.as_slice()
    }

    /// Adds rows that go together, of a table that is there. Refused for want of memory, they may be told in part.
    fn add_to_table(&mut self, stretch: &Stretch) -> Result<(), AllocError>
        requires stretch { (rows : List ARow) × IsStretchOf self.old.exponent stretch.now rows }
        requires table { stretch.now.table < length self.old.tables }
        requires few { self.old.count + stretch.now.len < 2 ^ 32 }
        ensures sums { OnOk result ((before rows : List ARow) → IsStretchOf self.old.exponent stretch.now rows →
            AreSumsOf before self.old → AreSumsOf (before ++ rows) self.new) }
        ensures count { OnOk result (self.new.count ≡ self.old.count + stretch.now.len) }
        ensures exponent { self.new.exponent ≡ self.old.exponent }
        ensures tables { length self.new.tables ≡ length self.old.tables }
    {
        self.limit_counts.reserve(1)?;
        self.tables[stretch.table as usize].add_stretch(stretch)?;
        count_stretch(&mut self.limit_counts, stretch);
        self.count += stretch.len as u64;
        Ok(())
    }

    /// Counts rows that go together, of a table that isn't there: no table has sums of them. The one error is want of memory.
    fn count_alone(&mut self, stretch: &Stretch) -> Result<(), AllocError>
        requires stretch { (rows : List ARow) × IsStretchOf self.old.exponent stretch.now rows }
        requires table { length self.old.tables ≤ stretch.now.table }
        requires few { self.old.count + stretch.now.len < 2 ^ 32 }
        ensures sums { OnOk result ((before rows : List ARow) → IsStretchOf self.old.exponent stretch.now rows →
            AreSumsOf before self.old → AreSumsOf (before ++ rows) self.new) }
        ensures count { OnOk result (self.new.count ≡ self.old.count + stretch.now.len) }
        ensures exponent { self.new.exponent ≡ self.old.exponent }
        ensures tables { length self.new.tables ≡ length self.old.tables }
    {
        self.limit_counts.reserve(1)?;
        count_stretch(&mut self.limit_counts, stretch);
        self.count += stretch.len as u64;
        Ok(())
    }

    /// Adds rows that go together, of any table. Refused for want of memory, they may be told in part.
    fn add_stretch(&mut self, stretch: &Stretch) -> Result<(), AllocError>
        requires stretch { (rows : List ARow) × IsStretchOf self.old.exponent stretch.now rows }
        requires few { self.old.count + stretch.now.len < 2 ^ 32 }
        ensures sums { OnOk result ((before rows : List ARow) → IsStretchOf self.old.exponent stretch.now rows →
            AreSumsOf before self.old → AreSumsOf (before ++ rows) self.new) }
        ensures count { OnOk result (self.new.count ≡ self.old.count + stretch.now.len) }
        ensures exponent { self.new.exponent ≡ self.old.exponent }
        ensures tables { length self.new.tables ≡ length self.old.tables }
    {
        if (stretch.table as usize) < self.tables.len() {
            self.add_to_table(stretch)
        } else {
            self.count_alone(stretch)
        }
    }

    /// Adds rows, of which no mark is noted. Rows of a table that isn't there are counted, and no table has sums of them. Refused
    /// for want of memory, some of them are told, and the sums serve for nothing more.
    pub fn add_rows(&mut self, rows: &[Row]) -> Result<(), AllocError>
        requires few { self.old.count + length rows.now < 2 ^ 32 }
        ensures sums { OnOk result ((before : List ARow) → AreSumsOf before self.old →
            AreSumsOf (before ++ rows.now) self.new) }
        ensures exponent { self.new.exponent ≡ self.old.exponent }
        ensures same_tables { length self.new.tables ≡ length self.old.tables }
    {
        let mut rest = rows;
        while rest.len() > 0 {
            let stretch = first_stretch(rest, self.exponent);
            let (_, behind) = rest.split_at(stretch.len);
            self.add_stretch(&stretch)?;
            rest = behind;
        }
        Ok(())
    }

    /// Adds the rows of a page, each at the position that stands beside it, and notes them in the marks. Rows of a table that
    /// isn't there are counted, and no table has sums of them. Refused for want of memory, some of them are told, and the sums and the marks serve for nothing more.
    pub fn add_page(
        &mut self,
        tracker: &mut FillTracker,
        rows: &[Row],
        positions: &[u64],
    ) -> Result<(), AllocError>
        requires beside { length positions.now ≡ length rows.now }
        requires few { self.old.count + length rows.now < 2 ^ 32 }
        ensures sums { OnOk result ((before : List ARow) → AreSumsOf before self.old →
            AreSumsOf (before ++ rows.now) self.new) }
        ensures marks { OnOk result ((placed : List (ℕ × ARow)) →
            AreMarksOfPlaced self.old.exponent placed tracker.old.fills tracker.old.marks →
            AreMarksOfPlaced self.old.exponent (placed ++ zip positions.now rows.now) tracker.new.fills tracker.new.marks) }
        ensures fills { tracker.new.fills ≡ tracker.old.fills }
        ensures exponent { self.new.exponent ≡ self.old.exponent }
        ensures same_tables { length self.new.tables ≡ length self.old.tables }
    {
        let mut rest = rows;
        let mut places = positions;
        while rest.len() > 0 {
            let stretch = first_stretch(rest, self.exponent);
            let (these, places_behind) = places.split_at(stretch.len);
            let (_, behind) = rest.split_at(stretch.len);
            self.add_stretch(&stretch)?;
            mark_stretch(tracker, &stretch, these)?;
            rest = behind;
            places = places_behind;
        }
        Ok(())
    }
}
