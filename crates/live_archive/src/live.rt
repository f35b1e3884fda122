//! The archive in turns, and the calls that take none.

ghost use Rattle.std.specs.Prelude.{◌≡◌, ◌≤◌, ◌^◌, length, None, IfOk, IfErr};
ghost use mathlib.Core.List.{IsPrefix};
ghost use Rattle.intervals.specs.declared.interval.Interval.{Interval as AnInterval};
ghost use Rattle.history_items.specs.Fills.{in_flight};
ghost use Rattle.turn_cell.specs.Lists.{first_seen};
ghost use Rattle.turn_cell.specs.Pass.{IsFree, SameButFront, kept_half, given_half, both_passes};
ghost use Rattle.live_archive.specs.GoesOn.{GoesOn};
ghost use Rattle.live_archive.specs.Turns.{IsClosed};

use crate::held::{HeldStore, settled};
use arch_disk::Disk;
use archive_store::Store;
use std::alloc::{AllocError, Global};
use std::sync::Wait;
use turn_cell::{Growing, Pass, TurnCell};

/// An archive whose value is taken in turns. It is generic so that it may be shared between threads, and ends by
/// `close`.
pub struct LiveOver<T: Growing> {
    pub cell: TurnCell<T>,
}

/// An archive that many callers use at once, each with a pass.
pub type Live<D> = LiveOver<HeldStore<D>>;

/// What a caller uses it by.
pub type LivePass<D> = Pass<HeldStore<D>>;

impl<D: Disk> LiveOver<HeldStore<D>> {
    /// Takes a store in, and gives the pass that has the whole share. The one error is want of memory.
    pub fn new(
        alloc: Global,
        store: Store<D>,
    ) -> Result<(Live<D>, LivePass<D>), (Store<D>, AllocError)>
        ensures free { IfOk result (λ made. IsFree made.0.cell made.1) }
        ensures first { IfOk result (λ made. made.0.cell.first.store ≡ store) }
        ensures alone { IfOk result (λ made. made.0.cell.first.shelf ≡ None) }
        ensures lists { IfOk result (λ made.
            (made.1.history ≡ first_seen store.history) × (made.1.fills ≡ first_seen store.fills)) }
        ensures share { IfOk result (λ made. (made.1.share ≡ 2 ^ 63) × (made.1.turns ≡ 0)) }
        ensures back { IfErr result (λ refused. refused.0 ≡ store) }
    {
        let held = HeldStore {
            store,
            shelf: None,
            has_closing: false,
        };
        match TurnCell::new(alloc, held) {
            Ok((cell, pass)) => Ok((LiveOver { cell }, pass)),
            Err((held, fault)) => Err((held.into_alone(), fault)),
        }
    }

    /// How long the history is, or was a moment ago. It waits for nobody. The caller has then seen as much of it.
    pub fn front(&self, pass: &mut LivePass<D>) -> u64
        requires free { IsFree self.now.cell pass.old }
        ensures free { IsFree self.now.cell pass.new }
        ensures front { result ≡ length pass.new.history.seen }
        ensures begins { IsPrefix pass.old.history.seen pass.new.history.seen }
        ensures same { SameButFront pass.old pass.new }
    {
        self.cell.front(pass)
    }

    /// Rouses a caller that sleeps while it waits for its turn, if there is one. For who takes no turn for a while.
    pub fn rouse(&self) {
        self.cell.rouse();
    }

    /// Another pass, which has seen as much, and gets half of the share.
    pub fn split(&self, pass: &mut LivePass<D>) -> LivePass<D>
        requires free { IsFree self.now.cell pass.old }
        requires share { 2 ≤ pass.old.share }
        ensures free { IsFree self.now.cell pass.new × IsFree self.now.cell result }
        ensures kept { pass.new ≡ kept_half pass.old }
        ensures given { result ≡ given_half pass.old }
    {
        self.cell.split(pass)
    }

    /// Joins another pass to this one, which has then seen the longer lists.
    pub fn join(&self, pass: &mut LivePass<D>, other: LivePass<D>)
        requires free { IsFree self.now.cell pass.old × IsFree self.now.cell other }
        ensures free { IsFree self.now.cell pass.new }
        ensures both { pass.new ≡ both_passes pass.old other }
        ensures begins { IsPrefix pass.old.history.seen pass.new.history.seen
            × IsPrefix pass.old.fills.seen pass.new.fills.seen }
        ensures others_begin { IsPrefix other.history.seen pass.new.history.seen
            × IsPrefix other.fills.seen pass.new.fills.seen }
    {
        self.cell.join(pass, other);
    }

    /// Gives the store of an archive without readers back, and ends each flight without a fill. It waits for nobody. Who
    /// closes the archive has added each item of both lists.
    pub fn close(self, pass: LivePass<D>) -> Store<D>
        requires free { IsFree self.cell pass }
        requires share { pass.share ≡ 2 ^ 63 }
        requires alone { self.cell.first.shelf ≡ None }
        ensures value { GoesOn D.device self.cell.first.store result }
        ensures closed { IsClosed pass result }
        ensures idle { (interval : AnInterval) → in_flight interval result.fills ≡ None }
    {
        let LiveOver { cell } = self;
        let held = cell.close(pass);
        let store = held.into_alone();
        settled(store)
    }

    /// The same of any archive. What is shown is taken away from the readers, which waits until none reads; a glance has
    /// nothing to read from then on.
    pub fn close_with_glances<R: Wait>(self, rt: &R, pass: LivePass<D>) -> Store<D>
        requires free { IsFree self.cell pass }
        requires share { pass.share ≡ 2 ^ 63 }
        ensures value { GoesOn D.device self.cell.first.store result }
        ensures closed { IsClosed pass result }
        ensures idle { (interval : AnInterval) → in_flight interval result.fills ≡ None }
    {
        let LiveOver { cell } = self;
        let held = cell.close(pass);
        let store = held.into_unpublished(rt);
        settled(store)
    }
}
