//! Limits of all rows: those in runs, by their sums, and those of the log.

ghost use Rattle.std.specs.Prelude.{◌≡◌, ◌↔◌, ◌+◌, ◌<◌, ◌≤◌, ◌++◌, IsTrue, false, length, IfNone, IfSome};
ghost use Rattle.std.specs.List.{AllByRecursion};
ghost use Rattle.intervals.specs.declared.interval.Interval.{Interval as AnInterval};
ghost use Rattle.archive_history.specs.Limits.{octets_of, interval_rows, IsWithinOver, PassesFirstOver};
ghost use Rattle.archive_history.specs.RowLimits.{row_limit};
ghost use Rattle.archive_history.specs.declared.row_limit.RowLimit.TheVariants as limits;
ghost use Rattle.run_pages.specs.Placed.{rows_of_placed};
ghost use Rattle.sealed_history.specs.Inside.{IsAmongFew};
ghost use Rattle.sealed_history.specs.SealedHistory.{counted_rows};

use crate::history::SealedHistory;
use arch_types::row::Row;
use archive_history::history::{TM, interval_of_row, interval_rows_in, octets_in};
use archive_history::row_limit::RowLimit;
use intervals::Interval;

impl SealedHistory {
    /// Whether there would be too many rows with these.
    fn passes_rows(&self, rows: &[Row]) -> bool
        ensures { IsTrue result ↔ (row_limit limits.Rows < self.now.base + length (self.now.log ++ rows.now)) }
    {
        self.len().saturating_add(rows.len() as u64) > RowLimit::Rows.limit()
    }

    /// Whether their packets would have too many octets.
    fn passes_octets(&self, rows: &[Row]) -> bool
        requires { length rows.now ≤ row_limit limits.Rows }
        ensures { IsTrue result ↔ (row_limit limits.HistoryOctets < octets_of (counted_rows self.now ++ rows.now)) }
    {
        let in_runs = self.sums.limit_counts().octets();
        let octets = in_runs.saturating_add(self.log.limit_counts().octets());
        octets.saturating_add(octets_in(rows)) > RowLimit::HistoryOctets.limit()
    }

    /// Whether an interval would have too many rows with these.
    fn are_too_many(&self, interval: Interval, rows: &[Row]) -> bool
        requires { length rows.now ≤ row_limit limits.Rows }
        ensures { IsTrue result ↔ (row_limit limits.IntervalRows <
            interval_rows self.now.exponent interval (counted_rows self.now ++ rows.now)) }
    {
        let in_runs = self.sums.limit_counts().rows_of(interval);
        let known = in_runs.saturating_add(self.log.interval_len(interval));
        if known.saturating_add(rows.len() as u64) <= RowLimit::IntervalRows.limit() {
            return false;
        }
        let rows = interval_rows_in(rows, self.exponent(), interval);
        known.saturating_add(rows) > RowLimit::IntervalRows.limit()
    }

    /// Whether each interval has few enough rows with these, as may be told without looking at one.
    fn are_all_few(&self, rows: &[Row]) -> bool
        ensures { IsTrue result → (i : AnInterval) →
            interval_rows self.now.exponent i (counted_rows self.now ++ rows.now) ≤ row_limit limits.IntervalRows }
    {
        let in_runs = self.sums.limit_counts().most_rows();
        let most = in_runs.saturating_add(self.log.limit_counts().most_rows());
        most.saturating_add(rows.len() as u64) <= RowLimit::IntervalRows.limit()
    }

    /// Whether one of the intervals of rows would have too many rows with these.
    fn passes_one(&self, rows: &[Row]) -> bool
        requires { length rows.now ≤ row_limit limits.Rows }
        ensures yes { IsTrue result → (i : AnInterval) × (row_limit limits.IntervalRows <
            interval_rows self.now.exponent i (counted_rows self.now ++ rows.now)) }
        ensures no { result ≡ false →
            AllByRecursion (IsAmongFew self.now.exponent (counted_rows self.now ++ rows.now)) rows.now }
    {
        for row in rows {
            if row.table == TM {
                let interval = interval_of_row(row, self.exponent());
                if self.are_too_many(interval, rows) {
                    return true;
                }
            }
        }
        false
    }

    /// Whether an interval would have too many rows with these. Without them none has, but where one has in the runs alone.
    fn passes_interval(&self, rows: &[Row]) -> bool
        requires { length rows.now ≤ row_limit limits.Rows }
        ensures { IsTrue result ↔ ((i : AnInterval) × (row_limit limits.IntervalRows <
            interval_rows self.now.exponent i (counted_rows self.now ++ rows.now))) }
    {
        if self.are_all_few(rows) {
            return false;
        }
        if self.sums.limit_counts().most_rows() > RowLimit::IntervalRows.limit() {
            return true;
        }
        self.passes_one(rows)
    }

    /// The first limit that the rows of runs and log would pass with these behind them.
    pub fn limit_passed(&self, rows: &[Row]) -> Option<RowLimit>
        ensures none { IfNone result (IsWithinOver self.now.exponent self.now.base
            (rows_of_placed self.now.placed) (self.now.log ++ rows.now)) }
        ensures first { IfSome result (λ limit. PassesFirstOver self.now.exponent self.now.base limit
            (rows_of_placed self.now.placed) (self.now.log ++ rows.now)) }
    {
        if self.passes_rows(rows) {
            return Some(RowLimit::Rows);
        }
        if self.passes_octets(rows) {
            return Some(RowLimit::HistoryOctets);
        }
        if self.passes_interval(rows) {
            return Some(RowLimit::IntervalRows);
        }
        None
    }
}
