//! The job of a filler.

ghost use Rattle.std.specs.Prelude.{IfNone, IfSome};
ghost use Rattle.turn_cell.specs.Pass.{IsFree};
ghost use Rattle.live_fills.specs.Filler.{AreWorksDone, FillsAlone, IsLastRefused, IsRefusalOf};

use crate::live_target::LiveTarget;
use arch_disk::Disk;
use backfiller::{Patient, work_when_woken};
use crossbeam_channel::Receiver;
use jobs::Job;
use live_archive::{Live, LivePass};
use outer_traits::gate::Gate;
use refusals::Refusal;
use std::alloc::Global;
use std::sync::Wait;

/// A filler of a load. It is generic in the archive and the pass, so that it may go to another thread.
#[derive(Drop)]
pub struct Filler<'a, L, P, G> {
    pub alloc: Global,
    pub live: &'a L,
    pub pass: P,
    /// What the links wake it by.
    pub wakes: Receiver<()>,
    pub gate: &'a G,
    /// Its number among the jobs.
    pub number: u32,
}

/// A filler that has ended, and why it did before the links had.
#[derive(Drop)]
pub struct FillerDone<P> {
    pub pass: P,
    pub refusal: Option<Refusal>,
}

/// Fills what is late whenever a link wakes it, until no link is left.
fn fill_when_woken<D: Disk, G: Gate, R: Wait>(
    rt: &R,
    filler: Filler<'_, Live<D>, LivePass<D>, G>,
) -> FillerDone<LivePass<D>>
    requires free { IsFree filler.live.now.cell filler.pass }
    ensures free { IsFree filler.entry.live.now.cell result.pass }
    ensures alone { FillsAlone filler.entry.live.now.cell.first.store filler.entry.pass result.pass }

    // None: each of its works ended at a begin that gave none.
    ensures done { IfNone result.refusal (AreWorksDone D.device filler.entry.live.now.cell.first.store
        filler.entry.pass result.pass) }

    // Some: its last call was refused so, and why that was is seen in the lists.
    ensures last { IfSome result.refusal (IsLastRefused D.device filler.entry.live.now.cell.first.store
        filler.entry.pass result.pass) }
    ensures refused { IfSome result.refusal (IsRefusalOf D.device filler.entry.live.now.cell.first.store
        result.pass) }
{
    let Filler {
        alloc,
        live,
        pass,
        wakes,
        gate,
        number,
    } = filler;
    let mut patient = Patient::new(rt, LiveTarget::new(rt, alloc, live, pass), &wakes);
    let answer = work_when_woken(rt, &mut patient, &wakes, gate, number);
    let pass = patient.into_target().into_pass();
    FillerDone {
        pass,
        refusal: answer.err(),
    }
}

impl<'a, D: Disk + Send, G: Gate + Sync> Job for Filler<'a, Live<D>, LivePass<D>, G> {
    ghost use Rattle.turn_cell.specs.Pass.{IsFree};
    ghost use Rattle.live_fills.specs.Filler.{IsFillerRun};

    type Done = FillerDone<LivePass<D>>;

    ghost may = { λ filler. IsFree filler.live.now.cell filler.pass };

    ghost did = { λ filler done. IsFillerRun D.device filler.live.now.cell filler.pass done.pass done.refusal };

    fn run<R: Wait>(self, rt: &R) -> FillerDone<LivePass<D>> {
        fill_when_woken(rt, self)
    }
}
