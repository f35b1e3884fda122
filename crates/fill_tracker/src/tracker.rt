//! What happened to fills, and which intervals are late.

ghost use Rattle.std.specs.Prelude.{◌≡◌, ◌+◌, ◌<◌, ◌≤◌, ◌≤ℤ◌, ◌^◌, ◌↔◌, ℕ, true, OnOk, IfSome, IsSome, IsTrue};
ghost use Rattle.std.specs.Prelude.{List, [], ◌∷◌, ◌++◌, length, slice_get};
ghost use Rattle.std.specs.List.{AllAdjacentBelow};
ghost use Rattle.std.specs.Option.{is_some};
ghost use Rattle.intervals.specs.Interval.{interval_of};
ghost use Rattle.arch_types.specs.declared.row.Row.{Row as ARow};
ghost use Rattle.history_items.specs.declared.fills.Fill.{Fill as FillItem};
ghost use Rattle.history_items.specs.declared.fills.Fill.TheVariants as noted;
ghost use Rattle.history_items.specs.declared.items.Item.{Item};
ghost use Rattle.history_items.specs.Items.{items_of};
ghost use Rattle.history_items.specs.FillList.{flights_of};
ghost use Rattle.history_items.specs.Fills.{reopened};
ghost use Rattle.history_items.specs.Late.{IsLate, last_in};
ghost use Rattle.fill_tracker.specs.FillTracker.{AreMarksOf, AreOfOneInterval, KeepsMarks, are_of_one_interval};
ghost use Rattle.fill_tracker.specs.Placed.{AreMarksOfPlaced, ArePlacedIn, KeepsMarksOfPlaced, placed_from};
ghost use Rattle.interval_fills.specs.Steps.{IsNextToFill, all_freed, freed, state_of};
ghost use Rattle.late_marks.specs.Marks.{IsLeast, has_rows, is_late_free, late_of};

use crate::flights::{is_among, take_out};
use arch_types::row::Row;
use history_items::fills::{Addition, Fill, clear_failed_writes};
use intervals::{Exponent, Interval};
use late_marks::marks::LateMarks;
use std::alloc::{AllocError, Global};
use std::marker::Model;

/// The number of table `tm`.
const TM: u8 = 0;

/// What happened to fills, in its order, and the late marks that go with it.
#[derive(Drop)]
pub struct FillTracker {
    /// What happened. It has a place for the end of each flight.
    items: Vec<Fill>,
    marks: LateMarks,
    /// The intervals in flight, in the order in which their flights began.
    flights: Vec<Interval>,
}

impl Model for FillTracker {
    ghost use Rattle.history_items.specs.FillList.{KeepsPlaces};
    ghost use Rattle.fill_tracker.specs.FillTracker.{FillTrackerView, tracker_of};

    ghost Value = { FillTrackerView };

    ghost view = { λ t. tracker_of t.items t.marks t.flights };

    ghost invariant = { λ t. KeepsPlaces t.items t.flights };
}

impl FillTracker {
    /// Nothing happened. Takes no memory.
    pub fn new(alloc: Global) -> Self
        ensures fills { result.fills ≡ [] }
        ensures marks { (exponent : ℕ) → AreMarksOf exponent [] result.fills result.marks }
    {
        FillTracker {
            items: Vec::new(alloc),
            marks: LateMarks::new(alloc),
            flights: Vec::new(alloc),
        }
    }

    /// What happened, in its order.
    pub fn as_slice(&self) -> &[Fill]
        ensures { result.now ≡ self.now.fills }
    {
        self.items.as_slice()
    }

    /// Takes memory for one more item. Refused, all but room is as it was.
    pub fn reserve(&mut self) -> Result<(), AllocError>
        ensures room { OnOk result (1 ≤ self.new.room) }
        ensures same { (self.new.fills ≡ self.old.fills) × (self.new.marks ≡ self.old.marks) }
    {
        self.items.reserve(self.flights.len() + 1)
    }

    /// Takes memory for one more flight, its beginning and its end. Refused, all but room is as it was.
    pub fn reserve_flight(&mut self) -> Result<(), AllocError>
        ensures room { OnOk result ((2 ≤ self.new.room) × (1 ≤ self.new.flight_room)) }
        ensures same { (self.new.fills ≡ self.old.fills) × (self.new.marks ≡ self.old.marks) }
    {
        self.items.reserve(self.flights.len() + 2)?;
        self.flights.reserve(1)
    }

    /// Takes memory for so many more rows. Refused, all but room is as it was.
    pub fn reserve_rows(&mut self, rows: u64) -> Result<(), AllocError>
        ensures room { OnOk result (rows ≤ self.new.marks.room) }
        ensures fills { self.new.fills ≡ self.old.fills }
        ensures same { (self.new.room ≡ self.old.room) × (self.new.flight_room ≡ self.old.flight_room)
            × (self.new.marks.marks ≡ self.old.marks.marks) }
        ensures marks { KeepsMarks self.old self.new }
    {
        self.marks.reserve(rows)
    }

    /// The least interval that is late and not in flight.
    pub fn next(&self) -> Option<Interval>
        ensures next { (exponent : ℕ) (history : List Item) → AreMarksOf exponent history self.now.fills self.now.marks →
            IsNextToFill exponent (state_of history self.now.fills) result }
        ensures free { IfSome result (λ i. is_late_free self.now.marks i ≡ true) }
    {
        self.marks.least_late_free()
    }

    /// Whether an interval has a row, and a change that no fill has seen.
    pub fn is_late(&self, interval: Interval) -> bool
        ensures { (exponent : ℕ) (history : List Item) → AreMarksOf exponent history self.now.fills self.now.marks →
            IsTrue result ↔ IsLate exponent interval history self.now.fills }
    {
        self.marks.is_late(interval)
    }

    /// The position of what changed an interval last, where it has a row.
    pub fn last(&self, interval: Interval) -> Option<u64>
        ensures last { (exponent : ℕ) (history : List Item) → AreMarksOf exponent history self.now.fills self.now.marks →
            result ≡ last_in exponent interval history }
        ensures rows { is_some result ≡ has_rows self.now.marks interval }
    {
        self.marks.last(interval)
    }

    /// The least interval that has rows and isn't below this one.
    pub fn next_touched(&self, from: Interval) -> Option<Interval>
        ensures touched { (exponent : ℕ) (history : List Item) → AreMarksOf exponent history self.now.fills self.now.marks →
            IsLeast (λ i. (from.0 ≤ℤ i.0) × IsSome (last_in exponent i history)) result }
        ensures marks { IsLeast (λ i. (from.0 ≤ℤ i.0) × (has_rows self.now.marks i ≡ true)) result }
    {
        self.marks.next_touched(from)
    }

    /// How many intervals are late. Walks over all that have rows.
    pub fn late(&self) -> u64
        ensures { result ≡ late_of self.now.marks }
    {
        self.marks.late()
    }

    /// Notes that a fill of an interval began. Takes no memory.
    pub fn begin(&mut self, interval: Interval, base: u64)
        requires room { 2 ≤ self.old.room }
        requires flight_room { 1 ≤ self.old.flight_room }
        requires free { is_late_free self.old.marks interval ≡ true }
        ensures fills { self.new.fills ≡ self.old.fills ++ noted.Begun interval base ∷ [] }
        ensures marks { KeepsMarks self.old self.new }
    {
        self.items.push_reserved(Fill::Begun { interval, base });
        self.flights.push_reserved(interval);
        self.marks.take(interval);
    }

    /// Notes that a fill of an interval, which has rows, is there, and that its flight ended. Takes no memory.
    pub fn finish(&mut self, interval: Interval, base: u64)
        requires room { 1 ≤ self.old.room }
        requires rows { has_rows self.old.marks interval ≡ true }
        ensures fills { self.new.fills ≡ self.old.fills ++ noted.Done interval base ∷ [] }
        ensures marks { KeepsMarks self.old self.new }
        ensures placed { KeepsMarksOfPlaced self.old self.new }
    {
        self.items.push_reserved(Fill::Done { interval, base });
        take_out(&mut self.flights, interval);
        self.marks.filled(interval, base);
        self.marks.free(interval);
    }

    /// Notes that an interval's flight ended without a fill, where there is one. Takes no memory.
    pub fn free(&mut self, interval: Interval)
        ensures fills { self.new.fills ≡ freed interval self.old.fills }
        ensures room { self.old.room ≤ self.new.room }
        ensures marks { KeepsMarks self.old self.new }
    {
        if is_among(self.flights.as_slice(), interval) {
            self.items.push_reserved(Fill::Freed { interval });
            take_out(&mut self.flights, interval);
            self.marks.free(interval);
        }
    }

    /// Notes that each flight ended without a fill. Takes no memory.
    pub fn settle(&mut self)
        ensures fills { self.new.fills ≡ all_freed self.old.fills }
        ensures marks { KeepsMarks self.old self.new }
    {
        while let Some(interval) = self.first() {
            self.free(interval);
        }
    }

    /// The interval whose flight began first of those in flight.
    fn first(&self) -> Option<Interval>
        ensures { result ≡ slice_get (flights_of self.now.fills) 0 }
    {
        self.flights.first().copied()
    }

    /// Notes that a call answered that the disk failed. Takes no memory.
    pub fn note_fault(&mut self, count: u64, wrote: bool, unacknowledged: Addition)
        requires room { 1 ≤ self.old.room }
        ensures fills { self.new.fills ≡ self.old.fills ++ noted.Fault count wrote unacknowledged ∷ [] }
        ensures marks { KeepsMarks self.old self.new }
    {
        self.items.push_reserved(Fill::Fault {
            count,
            wrote,
            unacknowledged,
        });
    }

    /// Notes that what is published of the archive was published for the last time. Takes no memory.
    pub fn note_closed(&mut self)
        requires room { 1 ≤ self.old.room }
        ensures fills { self.new.fills ≡ self.old.fills ++ noted.Closed ∷ [] }
        ensures marks { KeepsMarks self.old self.new }
    {
        self.items.push_reserved(Fill::Closed);
    }

    /// Notes that a reopen succeeded. Takes no memory.
    pub fn clear_failed_writes(&mut self)
        ensures fills { self.new.fills ≡ reopened self.old.fills }
        ensures room { self.new.room ≡ self.old.room }
        ensures marks { KeepsMarks self.old self.new }
    {
        clear_failed_writes(self.items.as_mut_slice());
    }

    /// Notes that rows came to the history, the first of them at this position. Takes no memory.
    pub fn touch(&mut self, rows: &[Row], first: u64, exponent: Exponent)
        requires room { length rows.now ≤ self.old.marks.room }
        requires small { first + length rows.now < 2 ^ 64 }
        ensures fills { self.new.fills ≡ self.old.fills }
        ensures marks { (history : List Item) → length history ≡ first →
            AreMarksOf exponent history self.old.fills self.old.marks →
            AreMarksOf exponent (history ++ items_of rows.now) self.new.fills self.new.marks }
        ensures placed { (placed : List (ℕ × ARow)) → AreMarksOfPlaced exponent placed self.old.fills self.old.marks →
            AreMarksOfPlaced exponent (placed ++ placed_from first rows.now) self.new.fills self.new.marks }
    {
        touch_all(&mut self.marks, rows, first, exponent);
    }

    /// Notes that rows of an interval stand at positions of a history, of which this is the greatest. Takes no memory.
    pub fn touch_placed(&mut self, interval: Interval, last: u64)
        requires { 0 < self.old.marks.room }
        ensures fills { self.new.fills ≡ self.old.fills }
        ensures room { self.old.marks.room ≤ self.new.marks.room + 1 }
        ensures marks { (exponent : ℕ) (placed run : List (ℕ × ARow)) → ArePlacedIn exponent interval run last →
            AreMarksOfPlaced exponent placed self.old.fills self.old.marks →
            AreMarksOfPlaced exponent (placed ++ run) self.new.fills self.new.marks }
    {
        self.marks.touch(interval, last);
    }
}

/// Notes that rows came to a history, the first of them at this position: each run of rows of one interval at once.
fn touch_all(marks: &mut LateMarks, rows: &[Row], first: u64, exponent: Exponent)
    requires room { length rows.now ≤ marks.old.room }
    requires small { first + length rows.now < 2 ^ 64 }
    ensures marks { (fills : List FillItem) (history : List Item) → length history ≡ first →
        AreMarksOf exponent history fills marks.old →
        AreMarksOf exponent (history ++ items_of rows.now) fills marks.new }
    ensures placed { (fills : List FillItem) (placed : List (ℕ × ARow)) → AreMarksOfPlaced exponent placed fills marks.old →
        AreMarksOfPlaced exponent (placed ++ placed_from first rows.now) fills marks.new }
{
    let mut rest = rows;
    let mut position = first;
    while rest.len() > 0 {
        let (run, behind) = rest.split_at(run_len(rest, exponent));
        touch_run(marks, run, position, exponent);
        position += run.len() as u64;
        rest = behind;
    }
}

/// How many rows at the front are of one table and of one interval.
fn run_len(rows: &[Row], exponent: Exponent) -> usize
    requires { 0 < length rows.now }
    ensures some { (0 < result) × (result ≤ length rows.now) }
    ensures run { AllAdjacentBelow (λ row next. are_of_one_interval exponent row next ≡ true) rows.now result }
{
    for i in 1..rows.len() {
        if !are_of_one_interval(&rows[i - 1], &rows[i], exponent) {
            return i;
        }
    }
    rows.len()
}

/// Whether two rows are of one table and of one interval.
fn are_of_one_interval(row: &Row, other: &Row, exponent: Exponent) -> bool
    ensures { result ≡ are_of_one_interval exponent row.now other.now }
{
    row.table == other.table && interval_of_row(row, exponent) == interval_of_row(other, exponent)
}

/// The interval of a row's time.
fn interval_of_row(row: &Row, exponent: Exponent) -> Interval
    ensures { result.0 ≡ interval_of exponent row.now.key.time }
{
    Interval::at(row.key.time, exponent)
}

/// Notes that rows of one table and one interval came to a history, the first of them at this position.
fn touch_run(marks: &mut LateMarks, run: &[Row], first: u64, exponent: Exponent)
    requires room { 0 < marks.old.room }
    requires small { first + length run.now < 2 ^ 64 }
    requires run { AreOfOneInterval exponent run.now }
    ensures room { marks.old.room ≤ marks.new.room + 1 }
    ensures marks { (fills : List FillItem) (history : List Item) → length history ≡ first →
        AreMarksOf exponent history fills marks.old →
        AreMarksOf exponent (history ++ items_of run.now) fills marks.new }
    ensures placed { (fills : List FillItem) (placed : List (ℕ × ARow)) → AreMarksOfPlaced exponent placed fills marks.old →
        AreMarksOfPlaced exponent (placed ++ placed_from first run.now) fills marks.new }
{
    let Some(row) = run.first() else {
        return;
    };
    if row.table == TM {
        let last = first + (run.len() as u64 - 1);
        marks.touch(interval_of_row(row, exponent), last);
    }
}
