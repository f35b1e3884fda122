//! A live archive that is filled.

ghost use Rattle.std.specs.Prelude.{◌≡◌};
ghost use Rattle.turn_cell.specs.Pass.{IsFree};

use arch_disk::Disk;
use arch_types::inserted::Installed;
use archive_store::{FillTask, Filled};
use backfiller::FillTarget;
use live_archive::{Live, LivePass};
use refusals::Refusal;
use std::alloc::Global;
use std::sync::{Arc, Wait};

/// A live archive, with the pass of the caller who fills it.
pub struct LiveTarget<'a, D: Disk, R: Wait> {
    rt: &'a R,
    alloc: Global,
    pub live: &'a Live<D>,
    pub pass: LivePass<D>,
    ghost free: { IsFree live.now.cell pass },
}

impl<'a, D: Disk, R: Wait> LiveTarget<'a, D, R> {
    pub fn new(rt: &'a R, alloc: Global, live: &'a Live<D>, pass: LivePass<D>) -> Self
        requires { IsFree live.now.cell pass }
        ensures { (result.live ≡ live.entry) × (result.pass ≡ pass) }
    {
        LiveTarget {
            rt,
            alloc,
            live,
            pass,
        }
    }

    /// The pass, which has no turn.
    pub fn into_pass(self) -> LivePass<D>
        ensures pass { result ≡ self.entry.pass }
        ensures free { IsFree self.entry.live.now.cell result }
    {
        let LiveTarget {
            rt: _,
            alloc: _,
            live: _,
            pass,
        } = self;
        pass
    }
}

impl<'a, D: Disk, R: Wait> FillTarget for LiveTarget<'a, D, R> {
    ghost use Rattle.std.specs.Prelude.{◌≡◌};
    ghost use Rattle.live_fills.specs.LiveTarget.{BeginsInTurn, InstallsInTurn, GivesUpInTurn, IsOwnTask};

    type Task = FillTask;

    ghost begins = { λ old answer new. (new.live ≡ old.live)
        × BeginsInTurn D.device old.live.now.cell.first.store old.pass answer new.pass };

    ghost installs = { λ old task answer new. (new.live ≡ old.live)
        × InstallsInTurn D.device old.live.now.cell.first.store old.pass task answer new.pass };

    ghost abandons = { λ old task new. (new.live ≡ old.live)
        × GivesUpInTurn D.device old.live.now.cell.first.store old.pass task new.pass };

    ghost owns = { λ target task. IsOwnTask D.device target.live.now.cell.first.store target.pass task };

    fn begin(&mut self) -> Result<Option<FillTask>, Refusal> {
        self.live.begin_fill(self.rt, self.alloc, &mut self.pass)
    }

    /// Builds outside the turn. Where memory is wanting for that, the task is given up.
    fn install(&mut self, task: FillTask) -> Result<Installed, Refusal> {
        let Ok(mdb) = Arc::try_clone(&task.mdb) else {
            self.live.abandon(self.rt, &mut self.pass, task);
            return Err(Refusal::OutOfMemory);
        };
        match Filled::of(self.alloc, task, &mdb) {
            Ok(done) => self.live.install(self.rt, self.alloc, &mut self.pass, done),
            Err((task, _)) => {
                self.live.abandon(self.rt, &mut self.pass, task);
                Err(Refusal::OutOfMemory)
            }
        }
    }

    fn abandon(&mut self, task: FillTask) {
        self.live.abandon(self.rt, &mut self.pass, task);
    }
}
