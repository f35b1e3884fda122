//! Fills that begin and end, and what stands for an interval.

ghost use Rattle.std.specs.Prelude.{◌≡◌, ◌↔◌, IsTrue, IfOk, IfSome, option_map};
ghost use Rattle.std.specs.Arc.{arc_value};
ghost use Rattle.archive_store.specs.Installs.{IsRightFor};
ghost use Rattle.history_items.specs.Late.{IsLate};
ghost use Rattle.interval_fills.specs.Steps.{freed};
ghost use Rattle.store_fills.specs.Built.{IsTaskRows};
ghost use Rattle.turn_cell.specs.Pass.{IsFree};
ghost use Rattle.live_archive.specs.Answers.{SaysBegun, SaysInstalled, AreSegments};
ghost use Rattle.live_archive.specs.Turns.{TookTurn, as_seen};

use crate::held::HeldStore;
use crate::live::{LiveOver, LivePass};
use arch_disk::Disk;
use arch_types::inserted::Installed;
use intervals::Interval;
use param_segments::SegSet;
use refusals::Refusal;
use std::alloc::{AllocError, Global};
use std::sync::{Arc, Wait};
use store_fills::{FillTask, Filled};

impl<D: Disk> LiveOver<HeldStore<D>> {
    /// Begins a fill of the least interval that is late and not in flight.
    pub fn begin_fill<R: Wait>(
        &self,
        rt: &R,
        alloc: Global,
        pass: &mut LivePass<D>,
    ) -> Result<Option<FillTask>, Refusal>
        requires free { IsFree self.now.cell pass.old }
        ensures free { IsFree self.now.cell pass.new }
        ensures turn { TookTurn D.device self.now.cell.first.store pass.old pass.new (SaysBegun D.device result) }
        ensures in_order { IfOk result (λ begun. IfSome begun (λ task.
            IsTaskRows task.exponent task.interval task.rows)) }
    {
        let mut held = self.cell.enter(rt, pass);
        let result = held.store.begin(alloc);
        self.cell.leave(pass, held);
        self.cell.rouse();
        result
    }

    /// Installs a fill. Where the disk tells what it holds, the fill is of the database and right for the history that
    /// its caller has seen.
    pub fn install<R: Wait>(
        &self,
        rt: &R,
        alloc: Global,
        pass: &mut LivePass<D>,
        done: Filled,
    ) -> Result<Installed, Refusal>
        requires free { IsFree self.now.cell pass.old }
        requires right { IsTrue D.device.is_transparent → IsRightFor (as_seen self.now.cell.first.store pass.old) done }
        ensures free { IsFree self.now.cell pass.new }
        ensures turn { TookTurn D.device self.now.cell.first.store pass.old pass.new
            (SaysInstalled D.device done result) }
    {
        let mut held = self.cell.enter(rt, pass);
        let result = held.store.install(done);
        // What finds no memory is published with the next.
        let (held, _note) = held.published(rt, alloc);
        self.cell.leave(pass, held);
        self.cell.rouse();
        result
    }

    /// Gives a task up: the flight of its interval ends without a fill.
    pub fn abandon<R: Wait>(&self, rt: &R, pass: &mut LivePass<D>, task: FillTask)
        requires free { IsFree self.now.cell pass.old }
        ensures free { IsFree self.now.cell pass.new }
        ensures turn { TookTurn D.device self.now.cell.first.store pass.old pass.new
            (λ before after. after ≡ record before { fills = freed task.interval before.fills }) }
    {
        let mut held = self.cell.enter(rt, pass);
        held.store.abandon(task);
        self.cell.leave(pass, held);
    }

    /// Whether an interval has a row that its last fill lacks. It takes no memory.
    pub fn is_late<R: Wait>(&self, rt: &R, pass: &mut LivePass<D>, interval: Interval) -> bool
        requires free { IsFree self.now.cell pass.old }
        ensures free { IsFree self.now.cell pass.new }
        ensures turn { TookTurn D.device self.now.cell.first.store pass.old pass.new (λ before after.
            (after ≡ before) × (IsTrue result ↔ IsLate before.exponent interval before.history before.fills)) }
    {
        let held = self.cell.enter(rt, pass);
        let is_late = held.store.is_late(interval);
        self.cell.leave(pass, held);
        is_late
    }

    /// The set of an interval's last fill, where it has one and isn't late. The one error is want of memory.
    pub fn segments<R: Wait>(
        &self,
        rt: &R,
        pass: &mut LivePass<D>,
        interval: Interval,
    ) -> Result<Option<Arc<SegSet, Global>>, AllocError>
        requires free { IsFree self.now.cell pass.old }
        ensures free { IsFree self.now.cell pass.new }
        ensures turn { TookTurn D.device self.now.cell.first.store pass.old pass.new (λ before after.
            (after ≡ before) × IfOk result (λ set. AreSegments D.device before interval (option_map arc_value set))) }
    {
        let held = self.cell.enter(rt, pass);
        let found = held.store.segments(interval);
        self.cell.leave(pass, held);
        found
    }
}
