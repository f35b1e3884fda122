//! The late marks.

ghost use Rattle.std.specs.Prelude.{◌≡◌, ℕ, ◌+◌, ◌<◌, ◌≤◌, ◌≤ℤ◌, ◌↔◌, List, [], ◌∷◌, ◌++◌, max, true, false, Some, OnOk, OnErr, IfSome, Contains, IsTrue};
ghost use Rattle.intervals.specs.Interval.{interval_cmp};
ghost use Rattle.block_map.specs.Rising.{IsRising};
ghost use Rattle.late_marks.specs.Mark.{touched, touched_by, IsLast, StandAt, IsLateBy};
ghost use Rattle.late_marks.specs.Marks.{mark_of, has_rows, last_position, base_of, is_late, is_late_free, late_of, Marked, IsLeast};

use crate::late_free::update_late_free;
use crate::mark::Mark;
use block_map::entries::Entries;
use block_map::index::Index;
use intervals::Interval;
use std::alloc::{AllocError, Global};
use std::marker::Model;

/// The marks of the intervals that have rows.
#[derive(Drop)]
pub struct LateMarks {
    marks: Index<Interval, Mark>,
    /// The intervals that are late and that nobody has taken.
    late_free: Index<Interval, ()>,
}

impl Model for LateMarks {
    ghost use Rattle.late_marks.specs.Marks.{Marks};
    ghost use Rattle.late_marks.specs.MarkIndexes.{AreConsistent};

    ghost Value = { Marks };

    ghost view = { λ b. record { marks = b.marks.entries; room = b.marks.room } };

    ghost invariant = { λ b. AreConsistent b.marks b.late_free };
}

impl LateMarks {
    /// No interval has rows, and there is no room. Takes no memory.
    pub fn new(alloc: Global) -> Self
        ensures { result ≡ record { marks = []; room = 0 } }
    {
        LateMarks {
            marks: Index::new(alloc),
            late_free: Index::new(alloc),
        }
    }

    /// Makes room for at least so many more intervals. The one error is want of memory, and then all is as before.
    pub fn reserve(&mut self, intervals: u64) -> Result<(), AllocError>
        ensures ok { OnOk result (self.new ≡ record { marks = self.old.marks; room = max self.old.room intervals }) }
        ensures err { OnErr result (self.new ≡ self.old) }
        ensures full { OnErr result (self.old.room < intervals) }
    {
        let intervals = intervals as usize;
        if intervals <= self.marks.room() {
            return Ok(());
        }
        let Some(all) = self.marks.len().checked_add(intervals) else {
            return Err(AllocError);
        };
        self.late_free.reserve(all)?;
        self.marks.reserve(intervals)
    }

    /// Notes that a row of the interval stands at this position of the history. Takes no memory.
    pub fn touch(&mut self, interval: Interval, position: u64)
        requires { 0 < self.old.room }
        ensures marked { Marked self.old self.new interval (touched (mark_of self.old interval) position) }
        ensures rows { (positions : List ℕ) → StandAt (mark_of self.old interval) positions
            → StandAt (mark_of self.new interval) (positions ++ position ∷ []) }
        ensures known { has_rows self.old interval ≡ true → self.new.room ≡ self.old.room }
        ensures fresh { has_rows self.old interval ≡ false → self.new.room + 1 ≡ self.old.room }
    {
        let mark = self.marks.get(interval);
        match mark {
            Some(_) => self.change(interval, Mark::touched(mark, position)),
            None => self.add(interval, Mark::touched(mark, position)),
        }
    }

    /// Notes that rows of the interval stand at positions of the history of which this is the greatest: as so many calls of
    /// `touch`, in any order. Takes no memory.
    pub fn touch_placed(&mut self, interval: Interval, last: u64)
        requires { 0 < self.old.room }
        ensures marked { Marked self.old self.new interval (touched (mark_of self.old interval) last) }
        ensures each { (positions : List ℕ) → IsLast positions last
            → mark_of self.new interval ≡ touched_by (mark_of self.old interval) positions }
        ensures rows { (positions placed : List ℕ) → IsLast placed last → StandAt (mark_of self.old interval) positions
            → StandAt (mark_of self.new interval) (positions ++ placed) }
        ensures known { has_rows self.old interval ≡ true → self.new.room ≡ self.old.room }
        ensures fresh { has_rows self.old interval ≡ false → self.new.room + 1 ≡ self.old.room }
    {
        self.touch(interval, last);
    }

    /// Notes that the interval, which has rows, was filled from the history's first `base` rows on.
    pub fn filled(&mut self, interval: Interval, base: u64)
        requires { has_rows self.old interval ≡ true }
        ensures marked { IfSome (mark_of self.old interval)
            (λ m. Marked self.old self.new interval (record m { base = Some base })) }
        ensures fewer { is_late self.old interval ≡ true → is_late self.new interval ≡ false
            → late_of self.new + 1 ≡ late_of self.old }
        ensures room { self.new.room ≡ self.old.room }
    {
        if let Some(mark) = self.mark(interval) {
            self.change(
                interval,
                Mark {
                    base: Some(base),
                    ..mark
                },
            );
        }
    }

    /// Whether the interval has rows, and was never filled or has one at or after the base of its last fill.
    pub fn is_late(&self, interval: Interval) -> bool
        ensures mark { result ≡ is_late self.now interval }
        ensures rows { (positions : List ℕ) → StandAt (mark_of self.now interval) positions
            → IsTrue result ↔ IsLateBy positions (base_of self.now interval) }
    {
        match self.mark(interval) {
            Some(mark) => mark.is_late(),
            None => false,
        }
    }

    /// The greatest position of the interval's rows.
    pub fn last(&self, interval: Interval) -> Option<u64>
        ensures { result ≡ last_position self.now interval }
    {
        self.mark(interval).map(|mark| mark.last)
    }

    /// The base of the interval's last fill.
    pub fn base(&self, interval: Interval) -> Option<u64>
        ensures { result ≡ base_of self.now interval }
    {
        self.mark(interval)?.base
    }

    /// The least interval that is late and that nobody has taken.
    pub fn least_late_free(&self) -> Option<Interval>
        ensures { IsLeast (λ i. is_late_free self.now i ≡ true) result }
    {
        let (interval, ()) = self.late_free.first()?;
        Some(interval)
    }

    /// Takes an interval that is late and that nobody has taken.
    pub fn take(&mut self, interval: Interval)
        requires { is_late_free self.old interval ≡ true }
        ensures marked { IfSome (mark_of self.old interval)
            (λ m. Marked self.old self.new interval (record m { taken = true })) }
        ensures room { self.new.room ≡ self.old.room }
    {
        if let Some(mark) = self.mark(interval) {
            self.change(
                interval,
                Mark {
                    taken: true,
                    ..mark
                },
            );
        }
    }

    /// Gives an interval back, where somebody has taken it.
    pub fn free(&mut self, interval: Interval)
        ensures marked { IfSome (mark_of self.old interval)
            (λ m. Marked self.old self.new interval (record m { taken = false })) }
        ensures none { has_rows self.old interval ≡ false → self.new ≡ self.old }
        ensures room { self.new.room ≡ self.old.room }
    {
        if let Some(mark) = self.mark(interval) {
            self.change(
                interval,
                Mark {
                    taken: false,
                    ..mark
                },
            );
        }
    }

    /// The least interval that has rows and isn't below this one.
    pub fn next_touched(&self, from: Interval) -> Option<Interval>
        ensures { IsLeast (λ i. (from.0 ≤ℤ i.0) × (has_rows self.now i ≡ true)) result }
    {
        let (interval, _) = self.marks.from_key(from).next()?;
        Some(*interval)
    }

    /// The intervals that have rows and their marks, in the order of the intervals' numbers.
    pub fn iter(&self) -> Entries<'_, Interval, Mark>
        ensures marks { result ≡ self.now.marks }
        ensures rising { IsRising interval_cmp result }
        ensures each { (i : Interval) (m : Mark) → (mark_of self.now i ≡ Some m) ↔ Contains result (i, m) }
    {
        self.marks.iter()
    }

    /// How many intervals are late. Walks over all that have rows.
    pub fn late(&self) -> u64
        ensures { result ≡ late_of self.now }
    {
        let mut late = self.marks.len() as u64;
        for (_, mark) in self.marks.iter() {
            if !mark.is_late() {
                late -= 1;
            }
        }
        late
    }

    /// The mark of an interval that has rows.
    fn mark(&self, interval: Interval) -> Option<Mark>
        ensures { result ≡ mark_of self.now interval }
    {
        self.marks.get(interval)
    }

    /// Gives an interval that has rows another mark.
    fn change(&mut self, interval: Interval, mark: Mark)
        requires { has_rows self.old interval ≡ true }
        ensures marked { Marked self.old self.new interval mark }
        ensures room { self.new.room ≡ self.old.room }
    {
        if let Some(old) = self.marks.replace(interval, mark) {
            update_late_free(
                &mut self.late_free,
                interval,
                old.is_late_free(),
                mark.is_late_free(),
            );
        }
    }

    /// Gives an interval without rows its first mark.
    fn add(&mut self, interval: Interval, mark: Mark)
        requires fresh { has_rows self.old interval ≡ false }
        requires room { 0 < self.old.room }
        ensures marked { Marked self.old self.new interval mark }
        ensures room { self.new.room + 1 ≡ self.old.room }
    {
        self.marks.insert(interval, mark);
        update_late_free(&mut self.late_free, interval, false, mark.is_late_free());
    }
}
