//! What readers that take no turns may be told.

ghost use Rattle.std.specs.Prelude.{◌≡◌, IfOk, MatchResult, false, true};
ghost use Rattle.turn_cell.specs.Pass.{IsFree};
ghost use Rattle.live_archive.specs.Shelving.{IsClosingNote, IsNoteIn, IsNoteOf, IsOfLog, MayClose};
ghost use Rattle.live_archive.specs.Turns.{TookTurn};

use crate::held::HeldStore;
use crate::live::{LiveOver, LivePass};
use arch_disk::Disk;
use std::alloc::{AllocError, Global};
use std::sync::Wait;
use store_shelf::StoreNote;

impl<D: Disk> LiveOver<HeldStore<D>> {
    /// Publishes what is missing, and gives a note of the lists that the caller has seen from then on; behind the last
    /// publication a note of that. Refused for want of memory, or where the archive has no readers without turns.
    pub fn note<R: Wait>(
        &self,
        rt: &R,
        alloc: Global,
        pass: &mut LivePass<D>,
    ) -> Result<StoreNote<D>, AllocError>
        requires free { IsFree self.now.cell pass.old }
        ensures free { IsFree self.now.cell pass.new }
        ensures turn { TookTurn D.device self.now.cell.first.store pass.old pass.new (λ before after.
            (after ≡ before) × IfOk result (IsNoteIn false self.now.cell.first before)) }
        ensures log { IfOk result (IsOfLog self.now.cell.first) }
        ensures note { IfOk result (IsNoteOf self.now.cell.first.store pass.new) }
    {
        let held = self.cell.enter(rt, pass);
        let (held, note) = held.published(rt, alloc);
        self.cell.leave(pass, held);
        note
    }

    /// Publishes what is missing for the last time, with the closing behind the fill list, and gives a note of that.
    /// Asked again it publishes and adds nothing, and gives the same. Refused for want of memory, or where the archive
    /// has no readers without turns, it is to be asked again.
    pub fn close_glances<R: Wait>(
        &self,
        rt: &R,
        alloc: Global,
        pass: &mut LivePass<D>,
    ) -> Result<StoreNote<D>, AllocError>
        requires free { IsFree self.now.cell pass.old }
        ensures free { IsFree self.now.cell pass.new }
        ensures turn { TookTurn D.device self.now.cell.first.store pass.old pass.new (λ before after.
            MatchResult result (IsClosingNote self.now.cell.first before after)
            (λ _. MayClose self.now.cell.first.store before after)) }
        ensures log { IfOk result (IsOfLog self.now.cell.first) }
        ensures last { IfOk result (λ note. note.closed ≡ true) }
        ensures note { IfOk result (IsNoteOf self.now.cell.first.store pass.new) }
    {
        let held = self.cell.enter(rt, pass);
        let (held, note) = held.published_last(rt, alloc);
        self.cell.leave(pass, held);
        note
    }
}
