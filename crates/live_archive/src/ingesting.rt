//! Batches that come in.

ghost use Rattle.archive_store.specs.Batches.{IsBatch, batch_rows};
ghost use Rattle.turn_cell.specs.Pass.{IsFree};
ghost use Rattle.live_archive.specs.Answers.{SaysIngested};
ghost use Rattle.live_archive.specs.Turns.{TookTurn};

use crate::held::HeldStore;
use crate::live::{LiveOver, LivePass};
use arch_disk::Disk;
use archive_store::{Batch, Ingested};
use refusals::Refusal;
use std::alloc::Global;
use std::sync::Wait;

impl<D: Disk> LiveOver<HeldStore<D>> {
    /// Ingests a batch, whose packet names are among those of the history that the caller has seen.
    pub fn ingest<R: Wait>(
        &self,
        rt: &R,
        alloc: Global,
        pass: &mut LivePass<D>,
        batch: &Batch,
    ) -> Result<Ingested, Refusal>
        requires free { IsFree self.now.cell pass.old }
        requires batch { IsBatch self.now.cell.first.store.head pass.old.history.seen batch.now }
        ensures free { IsFree self.now.cell pass.new }
        ensures turn { TookTurn D.device self.now.cell.first.store pass.old pass.new
            (SaysIngested D.device (batch_rows batch.now) result) }
    {
        let mut held = self.cell.enter(rt, pass);
        let front = held.store.front();
        let result = held.store.ingest(alloc, batch);
        // What finds no memory is published with the next.
        let (held, _note) = held.published_since(rt, alloc, front, batch.arrivals.as_slice());
        self.cell.leave(pass, held);
        result
    }
}
