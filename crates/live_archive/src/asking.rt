//! Replays.

ghost use Rattle.std.specs.Prelude.{◌≡◌, ◌≤◌, ◌<◌, ◌++◌, [], length, IfOk, IfErr, OnErr};
ghost use Rattle.std.specs.List.{AllByRecursion};
ghost use Rattle.replay_merge.specs.Cursor.{AsksTheSame, steps_at_most, EndsExactly, IsRowAsked, rest_of};
ghost use Rattle.archive_store.specs.Finding.{IsReplayFound};
ghost use Rattle.archive_store.specs.Pages.{TellsRows};
ghost use Rattle.archive_store.specs.UnreadRows.{IsLeftByRead, IsReadFault};
ghost use Rattle.archive_store.specs.Replays.{IsReplayOpened, rows_below};
ghost use Rattle.turn_cell.specs.Pass.{IsFree};
ghost use Rattle.live_archive.specs.Turns.{TookTurn};

use crate::held::HeldStore;
use crate::live::{LiveOver, LivePass};
use arch_disk::Disk;
use arch_types::row::Rows;
use arch_types::row_fault::RowFault;
use archive_store::FoundReplay;
use replay_merge::cursor::Cursor;
use std::alloc::{AllocError, Global};
use std::sync::Wait;

impl<D: Disk> LiveOver<HeldStore<D>> {
    /// Opens the replay of a request whose table was found: of the rows that there are in its turn, whatever comes
    /// later. The one error is want of memory.
    pub fn replay_open<R: Wait>(
        &self,
        rt: &R,
        alloc: Global,
        pass: &mut LivePass<D>,
        found: &FoundReplay,
    ) -> Result<Cursor, AllocError>
        requires free { IsFree self.now.cell pass.old }
        requires found { IsReplayFound self.now.cell.first.store.head.tables found.now }
        ensures free { IsFree self.now.cell pass.new }
        ensures turn { TookTurn D.device self.now.cell.first.store pass.old pass.new (λ before after.
            (after ≡ before) × IfOk result (IsReplayOpened before.head before.history found.now.request)) }
    {
        let mut held = self.cell.enter(rt, pass);
        let result = held.store.replay_open(alloc, found);
        self.cell.leave(pass, held);
        result
    }

    /// The next rows of a replay, at most `limit`, whose front the caller has seen. No row, for a limit above 0, is the
    /// end. Refused, it leaves the cursor as it was.
    pub fn replay_next<R: Wait>(
        &self,
        rt: &R,
        alloc: Global,
        pass: &mut LivePass<D>,
        cursor: &mut Cursor,
        limit: u64,
    ) -> Result<Rows, RowFault>
        requires free { IsFree self.now.cell pass.old }
        requires front { cursor.old.front ≤ length pass.old.history.seen }
        ensures free { IsFree self.now.cell pass.new }
        ensures turn { TookTurn D.device self.now.cell.first.store pass.old pass.new (λ before after.
            IsLeftByRead D.device before after result × IfErr result (IsReadFault D.device before after)) }

        // Where the store tells its rows, these are those of the history that the caller has seen, whatever came to it
        // since.
        ensures rows { TellsRows D.device self.now.cell.first.store → IfOk result (λ rows.
            rows ++ rest_of cursor.new (rows_below pass.old.history.seen)
            ≡ rest_of cursor.old (rows_below pass.old.history.seen)) }
        ensures end { IfOk result (EndsExactly limit cursor.old cursor.new) }
        ensures nearer { IfOk result (λ rows. (rows ≡ [] → ⊥) → steps_at_most cursor.new < steps_at_most cursor.old) }
        ensures few { IfOk result (λ rows. length rows ≤ limit) }
        ensures each { IfOk result (λ rows. AllByRecursion (IsRowAsked cursor.old) rows) }
        ensures asked { AsksTheSame cursor.old cursor.new }
        ensures unmoved { OnErr result (cursor.new ≡ cursor.old) }
    {
        let mut held = self.cell.enter(rt, pass);
        let result = held.store.replay_step(alloc, cursor, limit);
        self.cell.leave(pass, held);
        result
    }
}
