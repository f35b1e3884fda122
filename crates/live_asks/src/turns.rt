//! The turns that one ask takes.

ghost use Rattle.std.specs.Prelude.{◌≡◌, ◌≤◌, length, IfOk, IfErr, IfSome, OnOk};
ghost use Rattle.refusals.specs.declared.refusal.Refusal.TheVariants.{DiskFault};
ghost use Rattle.archive_store.specs.Finding.{IsReplayFound, IsRequestFound};
ghost use Rattle.history_items.specs.Databases.{database_in};
ghost use Rattle.archive_store.specs.Pages.{TellsRows};
ghost use Rattle.archive_store.specs.Replays.{rows_below};
ghost use Rattle.archive_store.specs.StoreView.{filled_of};
ghost use Rattle.replay_merge.specs.Cursor.{rest_of};
ghost use Rattle.retrieval.specs.FoundAsks.{IsAskFound};
ghost use Rattle.retrieval.specs.declared.found_asks.FoundAsk.TheVariants as looked_up;
ghost use Rattle.turn_cell.specs.Pass.{IsFree};
ghost use Rattle.live_archive.specs.Reads.{NotedRead};
ghost use Rattle.live_asks.specs.LiveAsks.{IsAnsweredInTurn, IsAsked, IsGlanceAt, IsUnanswered, LooksOn, OnlySees};
ghost use Rattle.live_asks.specs.LiveAsks.{disk_facts, reader_view};

use crate::answered::{AskAnswer, ReplayedRows};
use crate::glancing::{LiveGlance, glanced};
use arch_disk::Disk;
use arch_types::row::Rows;
use arch_types::steps::Steps;
use archive_store::{FoundReplay, FoundRequest};
use asks::Request;
use live_archive::{Live, LivePass};
use outer_traits::gate::Gate;
use refusals::Refusal;
use replay_merge::cursor::Cursor;
use retrieval::found_asks::FoundAsk;
use std::alloc::{AllocError, Global};
use std::sync::Wait;
use std::sync::ledger::Ledger;

/// The gate before a job's turns, which counts them.
#[derive(Drop)]
pub(crate) struct Gated<'a, G> {
    pub(crate) gate: &'a G,
    /// The job's number.
    pub(crate) number: u32,
    pub(crate) turn: u64,
}

impl<'a, G: Gate> Gated<'a, G> {
    pub(crate) fn pass(&mut self) {
        self.turn = self.turn.saturating_add(1);
        self.gate.pass(self.number, self.turn);
    }
}

/// Answers an ask that was found, over the history that there is in a turn, or that a glance sees. Refused for want of
/// memory, or where rows in runs aren't read; for nothing else, since turns bring no database.
pub(crate) fn answer_ask<D: Disk, G: Gate, R: Wait, L: Ledger>(
    rt: &R,
    alloc: Global,
    live: &Live<D>,
    pass: &mut LivePass<D>,
    gated: &mut Gated<'_, G>,
    glance: &mut Option<LiveGlance<D>>,
    ask: &FoundAsk,
    steps: &mut Steps<L>,
) -> Result<AskAnswer, Refusal>
    requires free { IsFree live.now.cell pass.old }
    requires glance { IfSome glance.old (IsGlanceAt live.now.cell.first) }
    requires found { IsAskFound live.now.cell.first.store.head live.now.cell.first.store.history ask.now }
    ensures free { IsFree live.now.cell pass.new }
    ensures sees { OnlySees live.now.cell.first.store.sealed pass.old pass.new }
    ensures later { LooksOn glance.old glance.new }
    ensures asked { IsAsked D.device live.now.cell.first.store glance.new (reader_view pass.old steps.old)
        (reader_view pass.new steps.new) ask.now result }
    ensures noted { IfErr result (λ refusal. refusal ≡ DiskFault → NotedRead pass.old.fills pass.new.fills) }
    ensures silent { OnOk result (pass.new.fills.places ≡ pass.old.fills.places) }
{
    match ask {
        FoundAsk::Values(found) => values(rt, alloc, live, pass, gated, glance, found, steps),
        FoundAsk::Replay(found) => replay(rt, alloc, live, pass, gated, found),
    }
}

/// The values that a request asks for: those that a glance sees, where it has an answer, and else those in a turn.
fn values<D: Disk, G: Gate, R: Wait, L: Ledger>(
    rt: &R,
    alloc: Global,
    live: &Live<D>,
    pass: &mut LivePass<D>,
    gated: &mut Gated<'_, G>,
    glance: &mut Option<LiveGlance<D>>,
    found: &FoundRequest,
    steps: &mut Steps<L>,
) -> Result<AskAnswer, Refusal>
    requires free { IsFree live.now.cell pass.old }
    requires glance { IfSome glance.old (IsGlanceAt live.now.cell.first) }
    requires found { IsRequestFound (database_in live.now.cell.first.store.head.mdb
        live.now.cell.first.store.history) found.now }
    ensures free { IsFree live.now.cell pass.new }
    ensures sees { OnlySees live.now.cell.first.store.sealed pass.old pass.new }
    ensures later { LooksOn glance.old glance.new }
    ensures asked { IsAsked D.device live.now.cell.first.store glance.new (reader_view pass.old steps.old)
        (reader_view pass.new steps.new) (looked_up.Values found.now) result }
    ensures noted { IfErr result (λ refusal. refusal ≡ DiskFault → NotedRead pass.old.fills pass.new.fills) }
    ensures silent { OnOk result (pass.new.fills.places ≡ pass.old.fills.places) }
{
    if let Some(answer) = glanced(alloc, gated, glance, &found.request) {
        return Ok(AskAnswer::Values(answer));
    }
    let request = copy_of(&found.request)?;
    gated.pass();
    let answer = live.retrieve(rt, alloc, pass, request, steps)?;
    Ok(AskAnswer::Values(answer))
}

/// An equal request.
fn copy_of(request: &Request) -> Result<Request, AllocError>
    ensures { IfOk result (λ copy. copy ≡ request.now) }
{
    let parameter = request.parameter.copy()?;
    Ok(Request {
        parameter,
        from: request.from,
        to: request.to,
        direction: request.direction,
        limit: request.limit,
    })
}

/// The replay of a request: of the history that there is in the turn of its opening, whatever comes behind it before
/// its last rows are taken.
fn replay<D: Disk, G: Gate, R: Wait>(
    rt: &R,
    alloc: Global,
    live: &Live<D>,
    pass: &mut LivePass<D>,
    gated: &mut Gated<'_, G>,
    found: &FoundReplay,
) -> Result<AskAnswer, Refusal>
    requires free { IsFree live.now.cell pass.old }
    requires found { IsReplayFound live.now.cell.first.store.head.tables found.now }
    ensures free { IsFree live.now.cell pass.new }
    ensures sees { OnlySees live.now.cell.first.store.sealed pass.old pass.new }
    ensures answered { IfOk result (IsAnsweredInTurn
        (disk_facts D.device live.now.cell.first.store.opened live.now.cell.first.store.sealed)
        (filled_of live.now.cell.first.store) pass.old.history.seen pass.new.history.seen (looked_up.Replay found.now)) }
    ensures refused { IfErr result (IsUnanswered
        (disk_facts D.device live.now.cell.first.store.opened live.now.cell.first.store.sealed)) }
    ensures noted { IfErr result (λ refusal. refusal ≡ DiskFault → NotedRead pass.old.fills pass.new.fills) }
    ensures silent { OnOk result (pass.new.fills.places ≡ pass.old.fills.places) }
{
    gated.pass();
    let cursor = live.replay_open(rt, alloc, pass, found)?;
    let front = cursor.front();
    let rows = rows_left(rt, alloc, live, pass, gated, cursor)?;
    Ok(AskAnswer::Replay(ReplayedRows { front, rows }))
}

/// The rows that are left of a replay, each day's in a turn of its own. Refused for want of memory, or where rows in
/// runs aren't read.
fn rows_left<D: Disk, G: Gate, R: Wait>(
    rt: &R,
    alloc: Global,
    live: &Live<D>,
    pass: &mut LivePass<D>,
    gated: &mut Gated<'_, G>,
    cursor: Cursor,
) -> Result<Rows, Refusal>
    requires free { IsFree live.now.cell pass.old }
    requires front { cursor.front ≤ length pass.old.history.seen }
    ensures free { IsFree live.now.cell pass.new }
    ensures sees { OnlySees live.now.cell.first.store.sealed pass.old pass.new }
    ensures rows { TellsRows D.device live.now.cell.first.store →
        IfOk result (λ rows. rows ≡ rest_of cursor (rows_below pass.new.history.seen)) }
    ensures refused { IfErr result (IsUnanswered
        (disk_facts D.device live.now.cell.first.store.opened live.now.cell.first.store.sealed)) }
    ensures noted { IfErr result (λ refusal. refusal ≡ DiskFault → NotedRead pass.old.fills pass.new.fills) }
    ensures silent { OnOk result (pass.new.fills.places ≡ pass.old.fills.places) }
{
    let mut cursor = cursor;
    let mut rows = Vec::new(alloc);
    'steps: loop {
        gated.pass();
        let piece = live.replay_next(rt, alloc, pass, &mut cursor, u64::MAX)?;
        if piece.len() == 0 {
            return Ok(Rows::from_vec(rows));
        }
        let mut more = piece.into_vec();
        rows.append(&mut more)?;
    }
}
