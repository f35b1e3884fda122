//! Retrievals.

ghost use Rattle.std.specs.Prelude.{◌≡◌, ◌≤◌, MatchResult, IfOk, IfErr};
ghost use Rattle.turn_cell.specs.Pass.{IsFree};
ghost use Rattle.archive_store.specs.Pages.{TellsRows};
ghost use Rattle.archive_store.specs.UnreadRows.{IsLeftByAnswer};
ghost use Rattle.live_archive.specs.Retrievals.{IsAnswerIn, IsNotAnswered, IsPlannedIn, steps_allowed};
ghost use Rattle.live_archive.specs.Turns.{TookTurn};

use crate::held::HeldStore;
use crate::live::{LiveOver, LivePass};
use arch_disk::Disk;
use arch_types::steps::Steps;
use archive_store::FoundRequest;
use asks::{Answer, Request};
use param_segments::Plan;
use part_answers::answer::answer;
use refusals::Refusal;
use std::alloc::Global;
use std::sync::Wait;
use std::sync::ledger::Ledger;

/// A request that was found, and what is read for it.
pub struct Planned {
    pub found: FoundRequest,
    pub plan: Plan,
}

impl<D: Disk> HeldStore<D> {
    /// Finds a request in the database in force, and plans what is read for it.
    pub(crate) fn planned(&mut self, alloc: Global, request: Request) -> Result<Planned, Refusal>
        ensures planned { IfOk result (IsPlannedIn D.device self.old.store request) }
        ensures refused { IfErr result (IsNotAnswered D.device self.old.store self.new.store request) }
        ensures same { IsLeftByAnswer D.device self.old.store self.new.store result }
        ensures shelf { self.new.shelf ≡ self.old.shelf }
        ensures closing { self.new.has_closing ≡ self.old.has_closing }
    {
        self.store.is_kept();
        let found = self.store.find(request)?;
        let plan = self.store.plan(alloc, &found)?;
        Ok(Planned { found, plan })
    }
}

impl<D: Disk> LiveOver<HeldStore<D>> {
    /// What a retrieval reads, shared or copied in one turn.
    fn planned<R: Wait>(
        &self,
        rt: &R,
        alloc: Global,
        pass: &mut LivePass<D>,
        request: Request,
    ) -> Result<Planned, Refusal>
        requires free { IsFree self.now.cell pass.old }
        ensures free { IsFree self.now.cell pass.new }
        ensures turn { TookTurn D.device self.now.cell.first.store pass.old pass.new (λ before after.
            IsLeftByAnswer D.device before after result
            × MatchResult result (IsPlannedIn D.device before request) (IsNotAnswered D.device before after request)) }
    {
        let mut held = self.cell.enter(rt, pass);
        let result = held.planned(alloc, request);
        self.cell.leave(pass, held);
        result
    }

    /// The answer to a request over the history that there is in its turn, made once others may have theirs.
    pub fn retrieve<R: Wait, L: Ledger>(
        &self,
        rt: &R,
        alloc: Global,
        pass: &mut LivePass<D>,
        request: Request,
        steps: &mut Steps<L>,
    ) -> Result<Answer, Refusal>
        requires free { IsFree self.now.cell pass.old }
        ensures free { IsFree self.now.cell pass.new }
        ensures turn { TookTurn D.device self.now.cell.first.store pass.old pass.new (λ before after.
            IsLeftByAnswer D.device before after result
            × MatchResult result (IsAnswerIn D.device before request) (IsNotAnswered D.device before after request)
            × (TellsRows D.device before → steps.new ≤ steps_allowed before request steps.old)) }
    {
        let planned = self.planned(rt, alloc, pass, request)?;
        let Planned { found, plan } = planned;
        match answer(alloc, plan, found.number, &found.request, steps) {
            Ok(answer) => Ok(answer),
            Err(_) => Err(Refusal::OutOfMemory),
        }
    }
}
