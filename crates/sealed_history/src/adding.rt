//! Rows that come to the log.

ghost use Rattle.std.specs.Prelude.{◌≡◌, ◌↔◌, ◌<◌, ◌≤◌, ◌++◌, IsTrue, length, max, OnOk, OnErr};
ghost use Rattle.std.specs.List.{AllByRecursion};
ghost use mathlib.Core.List.{IsPrefix};
ghost use Rattle.archive_history.specs.Limits.{IsWithinOver};
ghost use Rattle.history_items.specs.Items.{after_rows, items_of};
ghost use Rattle.run_pages.specs.Placed.{rows_of_placed};
ghost use Rattle.sealed_history.specs.SealedHistory.{HasSameRuns};

use crate::history::SealedHistory;
use arch_types::row::Rows;
use std::alloc::AllocError;

impl SealedHistory {
    /// Makes the room at least `rows`. The one error is want of memory, and then all is as before.
    pub fn reserve(&mut self, rows: usize) -> Result<(), AllocError>
        ensures ok { OnOk result (self.new ≡ record self.old { room = max self.old.room rows }) }
        ensures err { OnErr result (self.new ≡ self.old) }
    {
        self.log.reserve(rows)
    }

    /// Adds rows behind the last, up to the first whose table has a row of its key in the log. Tells whether all were
    /// added. Of rows in runs it doesn't know. Takes no memory.
    pub fn add_all(&mut self, rows: Rows) -> bool
        requires room { length rows ≤ self.old.room }
        requires tables { AllByRecursion (λ row. row.table < self.old.tables) rows }
        requires within { IsWithinOver self.old.exponent self.old.base
            (rows_of_placed self.old.placed) (self.old.log ++ rows) }
        ensures all { IsTrue result
            ↔ (after_rows (items_of self.old.log) rows ≡ items_of self.old.log ++ items_of rows) }
        ensures log { IsTrue result → self.new.log ≡ self.old.log ++ rows }
        ensures items { IsTrue result → self.new.items ≡ self.old.items ++ items_of rows }
        ensures no_others { IsPrefix self.new.log (self.old.log ++ rows) }
        ensures same_runs { HasSameRuns self.old self.new }
    {
        self.log.add_all(rows)
    }
}
