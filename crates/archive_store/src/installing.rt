//! Fills that are installed.

ghost use Rattle.std.specs.Prelude.{◌≡◌, ◌↔◌, ◌≤◌, ◌<◌, ◌⊎◌, IsSome, IsTrue, None, Some, OnOk, IfOk, IfErr, IfSome, IfNone};
ghost use Rattle.arch_disk.specs.Disk.{LeavesOnly};
ghost use Rattle.refusals.specs.declared.refusal.Which.TheVariants as limits;
ghost use Rattle.refusals.specs.Limits.{limit_of};
ghost use Rattle.disk_journal.specs.State.{HasRoom, IsSame};
ghost use Rattle.history_items.specs.Fills.{pending_fault_of};
ghost use Rattle.history_items.specs.Late.{last_in};
ghost use Rattle.interval_fills.specs.Intervals.{NoneSince};
ghost use Rattle.interval_fills.specs.Steps.{IsFillBase};

use crate::appending::{NewFill, append_entry};
use crate::store::Store;
use arch_disk::Disk;
use arch_types::inserted::Installed;
use disk_journal::Journal;
use fill_tracker::FillTracker;
use intervals::Interval;
use refusals::{Refusal, Which};
use std::alloc::AllocError;
use store_fills::{Filled, LastFills};

/// Takes all memory that a fill needs.
fn prepare_fill(
    journal: &mut Journal,
    tracker: &mut FillTracker,
    sets: &mut LastFills,
) -> Result<(), AllocError>
    ensures room { OnOk result (HasRoom journal.new × (1 ≤ tracker.new.room) × (1 ≤ sets.new.room)) }
    ensures journal { IsSame journal.old journal.new }
    ensures tracker { (tracker.new.fills ≡ tracker.old.fills) × (tracker.new.marks ≡ tracker.old.marks) }
    ensures sets { sets.new.filled ≡ sets.old.filled }
{
    tracker.reserve()?;
    sets.reserve()?;
    journal.reserve()
}

impl<D: Disk> Store<D> {
    ghost use Rattle.archive_store.specs.Installs.{FillIsAppended, IsFillRefusal, IsInstallRefusal, IsOwnFill, IsRightFor, IsStoreInstalled, filled_with};
    ghost use Rattle.archive_images.specs.Stands.{StandsFilled};
    ghost use Rattle.archive_store.specs.StoreView.{OnlyAppends, filled_of};
    ghost use Rattle.disk_journal.specs.Calls.{CountsNeverFall};

    /// The position of what changed an interval last, where that stands at or after a base.
    fn later_change(&self, interval: Interval, base: u64) -> Option<u64>
        ensures later { IfSome result (λ p.
            (base ≤ p) × (last_in self.now.exponent interval self.now.history ≡ Some p)) }
        ensures none { IfNone result (NoneSince self.now.exponent interval base self.now.history) }
    {
        let last = self.tracker.last(interval)?;
        if last < base {
            return None;
        }
        Some(last)
    }

    /// Whether no more record may come.
    fn is_full(&self) -> bool
        ensures { IsTrue result ↔ (limit_of limits.Records ≤ self.now.records) }
    {
        self.journal.count() >= Which::Records.limit()
    }

    /// Whether an interval has rows.
    fn has_row(&self, interval: Interval) -> bool
        ensures { IsTrue result ↔ IsSome (last_in self.now.exponent interval self.now.history) }
    {
        self.tracker.last(interval).is_some()
    }

    /// Whether a fill may stand in the archive, where nothing changed its interval since its base: the interval has a
    /// row, the base is at most the front, and the fill is of the database in force and of the store's exponent.
    fn may_stand(&self, done: &Filled) -> bool
        requires { NoneSince self.now.exponent done.now.interval done.now.base self.now.history }
        ensures { IsTrue result ↔
            (IsFillBase self.now.exponent done.now.interval done.now.base self.now.history
            × IsOwnFill self.now done.now) }
    {
        if !self.has_row(done.interval()) {
            return false;
        }
        let base = done.base();
        let front = self.front();
        if base > front {
            return false;
        }
        done.is_of(self.mdb(), self.exponent())
    }

    /// Appends a fill to the disk, and then it is the interval's. All memory is taken before the first device call. One
    /// that may not stand in the archive is refused like want of memory.
    fn append_fill(&mut self, done: Filled) -> Result<(), Refusal>
        requires healed { pending_fault_of self.old.fills ≡ None }
        requires records { self.old.records < limit_of limits.Records }
        requires right { IsTrue D.device.is_transparent → IsRightFor self.old done }
        requires none { NoneSince self.old.exponent done.interval done.base self.old.history }
        ensures appended { OnOk result (FillIsAppended D.device self.old self.new done) }
        ensures refused { IfErr result (IsFillRefusal D.device self.old self.new done) }
        ensures crash { IsTrue D.device.is_transparent → LeavesOnly D.device self.old.disk self.new.disk
            (λ c. StandsFilled c (filled_of self.old) ⊎ StandsFilled c (filled_with self.old done)) }
        ensures grows { OnlyAppends self.old self.new }
        ensures counts { CountsNeverFall D.device self.old.disk self.new.disk }
    {
        let interval = done.interval();
        let base = done.base();
        if !self.may_stand(&done) {
            return Err(Refusal::OutOfMemory);
        }
        let prepared = prepare_fill(&mut self.journal, &mut self.tracker, &mut self.sets);
        let Ok(()) = prepared else {
            return Err(Refusal::OutOfMemory);
        };
        let parts = done.into_parts();
        match append_entry(
            &mut self.disk,
            &mut self.journal,
            &mut self.tracker,
            &parts.0,
            NewFill { interval, base },
        ) {
            Ok(_) => {
                self.tracker.finish(interval, base);
                self.sets.put(interval, parts.1);
                Ok(())
            }
            Err(count) => {
                self.pending_fault = Some(count);
                Err(Refusal::DiskFault)
            }
        }
    }

    /// Installs a fill: its set is the interval's from now on. Where a row of the interval came at or after its base it
    /// is given up, and so it is where the call is refused. A disk that tells nothing asks nothing of the fill: one of
    /// an interval without rows, of a base above the front, or of another database or exponent is refused like want of
    /// memory.
    pub fn install(&mut self, done: Filled) -> Result<Installed, Refusal>
        // Where the disk tells what it holds, the fill is of the store's database, and right for the history.
        requires { IsTrue D.device.is_transparent → IsRightFor self.old done }

        // Ok: the fill stands in one record more; or it is stale, by what changed its interval last.
        ensures installed { IfOk result (IsStoreInstalled D.device self.old self.new done) }

        // NeedsReopen comes exactly where a failed write is pending, then Stale, then the limit of records, then want
        // of memory, before any call of the disk, and then a fault of the disk. The interval's flight ends.
        ensures refused { IfErr result (IsInstallRefusal D.device self.old self.new done) }

        // Power lost at any moment of the call leaves the archive from before it, or the one with the fill.
        ensures crash { pending_fault_of self.old.fills ≡ None → IsTrue D.device.is_transparent →
            LeavesOnly D.device self.old.disk self.new.disk
            (λ c. StandsFilled c (filled_of self.old) ⊎ StandsFilled c (filled_with self.old done)) }
        ensures grows { OnlyAppends self.old self.new }
        ensures counts { CountsNeverFall D.device self.old.disk self.new.disk }
    {
        let interval = done.interval();
        let base = done.base();
        match self.pending_fault {
            Some(faults) => {
                self.give_up(interval);
                return Err(Refusal::NeedsReopen { faults });
            }
            None => {}
        }
        if let Some(position) = self.later_change(interval, base) {
            self.give_up(interval);
            return Ok(Installed::Stale { position });
        }
        if self.is_full() {
            self.give_up(interval);
            return Err(Refusal::Limit {
                which: Which::Records,
                number: Which::Records.limit(),
            });
        }
        match self.append_fill(done) {
            Ok(()) => Ok(Installed::Done),
            Err(refusal) => {
                self.give_up(interval);
                Err(refusal)
            }
        }
    }
}
