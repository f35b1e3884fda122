//! The packets of a dump, sent batch by batch as they are read.

ghost use Rattle.std.specs.Prelude.{◌≡◌, ◌+◌, ◌-◌, ◌*◌, ◌^◌, ◌≤◌, ◌<◌, ◌++◌, [], Err, length, vec_len, IfErr, IfOk, OnOk};
ghost use Rattle.refusals.specs.Limits.{limit_of};
ghost use Rattle.refusals.specs.declared.refusal.Which.TheVariants as limits;
ghost use Rattle.arch_types.specs.Dump.{BeginsWithNoPacket};
ghost use Rattle.archive_store.specs.Pages.{TellsRows};
ghost use Rattle.field_codec.specs.declared.entry.Entry.TheVariants as entries;
ghost use Rattle.field_codec.specs.Entries.{IsArchiveEntry};
ghost use Rattle.space_packet.specs.Rest.{why_of};
ghost use Rattle.text_forms.specs.ClockTime.{IsClockTime};
ghost use Rattle.turn_cell.specs.Pass.{IsFree};
ghost use Rattle.load_session.specs.Batches.{HasTakenWaiting};
ghost use Rattle.load_session.specs.Receiving.{receiving, IsRouteOver};
ghost use Rattle.load_jobs.specs.Reading.{is_version};
ghost use Rattle.load_jobs.specs.Underway.{AreAhead, CountsStay, EndsSending, IsInHand, IsWithinLimit, IsWithinLimitWith, RefusesAhead, RefusesBatch, SendsAhead, SendsBatch, SendsWaiting, StaysWithin, TakesAhead, summary_of};

use arch_disk::Disk;
use arch_types::octets::Octets;
use archive_store::Head;
use container_extract::Extractor;
use crossbeam_channel::Sender;
use live_archive::{Live, LivePass};
use load_session::{BATCH, DumpSummary, NextBatch, take_waiting};
use outer_traits::gate::Gate;
use refusals::Refusal;
use space_packet::dump::Why;
use space_packet::splitter::Splitter;
use std::alloc::{AllocError, Global};
use std::mem;
use std::sync::Wait;
use stream_graph::graph::Graph;

/// How many whole batches a link takes, at most, before it sends them in turns one behind the other: a turn that goes
/// from one link to another takes the archive's octets from processor to processor.
const AHEAD: usize = 32;

/// How packets are received.
#[derive(Clone, Copy)]
pub struct Reception<'a> {
    /// A copy of the archive's head: the archive itself has turns.
    pub head: &'a Head,
    /// The route by which packets come into the head's tables.
    pub graph: &'a Graph,
    pub link: u16,
    /// In milliseconds since 1970.
    pub moment: i64,
}

/// Where a link is in its dump.
#[derive(Drop)]
pub(crate) struct Progress {
    /// What was read of it, behind the packets that were taken.
    splitter: Splitter,
    extractor: Extractor,
    /// The batch in hand.
    taken: NextBatch,
    /// The packets that were sent, idle ones counted too.
    packets: u64,
    idle: u64,
    /// The rows that the others were.
    routed: u64,
    /// How many batches were sent.
    turn: u64,
}

impl Progress {
    /// That of a link that has read nothing.
    pub(crate) fn new(alloc: Global, moment: i64) -> Result<Self, AllocError>
        ensures waiting { IfOk result (λ p. p.splitter ≡ record { at = 0; octets = [] }) }
        ensures none { IfOk result (λ p. (p.taken.packets ≡ 0) × (p.taken.batch.arrivals ≡ [])
            × (p.taken.batch.rectime ≡ moment)) }
        ensures counts { IfOk result (λ p. (p.packets ≡ 0) × (p.idle ≡ 0) × (p.routed ≡ 0)) }
    {
        Ok(Progress {
            splitter: Splitter::new(alloc),
            extractor: Extractor::new(alloc)?,
            taken: NextBatch::empty(alloc, moment),
            packets: 0,
            idle: 0,
            routed: 0,
            turn: 0,
        })
    }

    /// Adds the next piece that was read, whose block is shared. There's no room for 2^64 octets or more.
    pub(crate) fn feed(&mut self, piece: &Octets) -> Result<(), AllocError>
        ensures fed { OnOk result (self.new.splitter ≡ record {
          at = self.old.splitter.at;
          octets = self.old.splitter.octets ++ piece.now;
        }) }
        ensures in_hand { self.new.taken ≡ self.old.taken }
        ensures counts { CountsStay self.old self.new }
    {
        self.splitter.feed(piece)
    }

    /// Whether another packet version number than 000 waits, so that no packet follows.
    pub(crate) fn is_at_version(&self) -> bool
        ensures { result ≡ is_version (why_of self.now.splitter.octets) }
    {
        matches!(self.splitter.end(), Why::Version)
    }

    /// Takes packets that wait in hand, until they are a batch, or none waits whole.
    fn take_in_hand(&mut self, alloc: Global, reception: &Reception<'_>) -> Result<(), AllocError>
        requires link { (1 ≤ reception.now.link) × (reception.now.link ≤ limit_of limits.Links) }
        requires moment { IsClockTime reception.now.moment }
        requires received { self.old.taken.batch.rectime ≡ reception.now.moment }
        requires head { IsArchiveEntry (entries.Head reception.now.head.now.tables reception.now.head.now.mdb) }
        requires route { IsRouteOver reception.now.head.now reception.now.graph.now }
        ensures taken { OnOk result (HasTakenWaiting (receiving reception.now.head.now [] reception.now.graph.now
            reception.now.link reception.now.moment) self.old.splitter self.new.splitter self.old.taken self.new.taken) }
        ensures last { OnOk result (self.new.taken.packets < 64 → BeginsWithNoPacket self.new.splitter.octets) }
        ensures received { self.new.taken.batch.rectime ≡ self.old.taken.batch.rectime }
        ensures counts { CountsStay self.old self.new }
    {
        take_waiting(
            alloc,
            reception.head,
            reception.graph,
            &mut self.splitter,
            &mut self.extractor,
            &mut self.taken,
            reception.link,
        )
    }

    /// Takes the whole batches that wait, `AHEAD` of them at most. Where they are fewer, fewer packets than a batch takes
    /// stay in hand, and none waits whole. The one error is want of memory.
    fn take_ahead(
        &mut self,
        alloc: Global,
        reception: &Reception<'_>,
    ) -> Result<Vec<NextBatch>, AllocError>
        requires link { (1 ≤ reception.now.link) × (reception.now.link ≤ limit_of limits.Links) }
        requires moment { IsClockTime reception.now.moment }
        requires received { self.old.taken.batch.rectime ≡ reception.now.moment }
        requires head { IsArchiveEntry (entries.Head reception.now.head.now.tables reception.now.head.now.mdb) }
        requires route { IsRouteOver reception.now.head.now reception.now.graph.now }
        ensures ahead { IfOk result (λ ahead. TakesAhead (receiving reception.now.head.now [] reception.now.graph.now
            reception.now.link reception.now.moment) self.old self.new ahead.items) }
        ensures last { IfOk result (λ ahead. vec_len ahead < 32 → BeginsWithNoPacket self.new.splitter.octets) }
        ensures counts { CountsStay self.old self.new }
    {
        let mut ahead = Vec::new(alloc);
        'batches: while ahead.len() < AHEAD {
            self.take_in_hand(alloc, reception)?;
            if self.taken.packets < BATCH {
                return Ok(ahead);
            }
            ahead.push(self.take_batch(alloc))?;
        }
        Ok(ahead)
    }

    /// Takes the batch in hand out of it, and begins the next one.
    fn take_batch(&mut self, alloc: Global) -> NextBatch
        ensures taken { result ≡ self.old.taken }
        ensures none { (self.new.taken.packets ≡ 0) × (self.new.taken.batch.arrivals ≡ [])
            × (self.new.taken.batch.rectime ≡ self.old.taken.batch.rectime) }
        ensures waiting { self.new.splitter ≡ self.old.splitter }
        ensures counts { CountsStay self.old self.new }
    {
        let next = NextBatch::empty(alloc, self.taken.batch.rectime);
        mem::replace(&mut self.taken, next)
    }

    /// Counts a batch as sent, whose packets came to so many rows.
    fn count_sent(&mut self, batch: &NextBatch, rows: usize)
        requires packets { self.old.packets + batch.now.packets < 2 ^ 64 }
        requires arrivals { length batch.now.batch.arrivals ≤ batch.now.packets }
        requires idle { self.old.idle ≤ self.old.packets }
        requires routed { self.old.routed + rows < 2 ^ 64 }
        ensures packets { self.new.packets ≡ self.old.packets + batch.now.packets }
        ensures idle { self.new.idle ≡ self.old.idle + (batch.now.packets - length batch.now.batch.arrivals) }
        ensures routed { self.new.routed ≡ self.old.routed + rows }
        ensures waiting { self.new.splitter ≡ self.old.splitter }
        ensures in_hand { self.new.taken ≡ self.old.taken }
    {
        self.packets += batch.packets;
        self.idle += batch.packets - batch.batch.arrivals.as_slice().len() as u64;
        self.routed += rows as u64;
    }

    /// What the dump had, where all packets of it were sent.
    fn summary(&self) -> DumpSummary
        ensures { result ≡ summary_of self.now }
    {
        DumpSummary {
            packets: self.packets,
            idle: self.idle,
            routed: self.routed,
            at: self.splitter.at(),
            why: self.splitter.end(),
        }
    }
}

/// Sends the packets that wait, in batches of 64, as many in turns one behind the other as are taken ahead. Fewer stay
/// in hand.
///
/// Refuses as `send_batch` does, or by `OutOfMemory`.
pub(crate) fn send_waiting<D: Disk, G: Gate, R: Wait>(
    rt: &R,
    alloc: Global,
    live: &Live<D>,
    pass: &mut LivePass<D>,
    reception: &Reception<'_>,
    progress: &mut Progress,
    wake: &Sender<()>,
    gate: &G,
    number: u32,
) -> Result<(), Refusal>
    requires free { IsFree live.now.cell pass.old }
    requires link { (1 ≤ reception.now.link) × (reception.now.link ≤ limit_of limits.Links) }
    requires moment { IsClockTime reception.now.moment }
    requires head { IsArchiveEntry (entries.Head reception.now.head.now.tables reception.now.head.now.mdb) }
    requires of_archive { reception.now.head.now ≡ live.now.cell.first.store.head }
    requires route { IsRouteOver reception.now.head.now reception.now.graph.now }
    requires in_hand { IsInHand (receiving reception.now.head.now [] reception.now.graph.now reception.now.link
        reception.now.moment) progress.old.taken }
    requires within { IsWithinLimit progress.old }
    ensures free { IsFree live.now.cell pass.new }
    ensures sent { OnOk result (SendsWaiting (TellsRows D.device live.now.cell.first.store) (receiving
        reception.now.head.now [] reception.now.graph.now reception.now.link reception.now.moment) pass.old
        pass.new progress.old progress.new) }
    ensures refused { IfErr result (λ refusal. EndsSending D.device live.now.cell.first.store (receiving
        reception.now.head.now [] reception.now.graph.now reception.now.link reception.now.moment) pass.old pass.new
        progress.old (Err refusal)) }
    ensures within { OnOk result (IsWithinLimit progress.new) }
    ensures level { OnOk result (progress.new.splitter.at + length progress.new.splitter.octets
        ≡ progress.old.splitter.at + length progress.old.splitter.octets) }
    ensures in_hand { OnOk result (IsInHand (receiving reception.now.head.now [] reception.now.graph.now
        reception.now.link reception.now.moment) progress.new.taken) }
{
    'rounds: loop {
        let ahead = progress.take_ahead(alloc, reception)?;
        let is_last = ahead.len() < AHEAD;
        send_ahead(
            rt, alloc, live, pass, reception, progress, ahead, wake, gate, number,
        )?;
        live.rouse();
        if is_last {
            return Ok(());
        }
    }
}

/// Sends what is left in hand of a dump of which no more is read.
pub(crate) fn send_rest<D: Disk, G: Gate, R: Wait>(
    rt: &R,
    alloc: Global,
    live: &Live<D>,
    pass: &mut LivePass<D>,
    reception: &Reception<'_>,
    progress: &mut Progress,
    wake: &Sender<()>,
    gate: &G,
    number: u32,
) -> Result<DumpSummary, Refusal>
    requires free { IsFree live.now.cell pass.old }
    requires link { (1 ≤ reception.now.link) × (reception.now.link ≤ limit_of limits.Links) }
    requires moment { IsClockTime reception.now.moment }
    requires head { IsArchiveEntry (entries.Head reception.now.head.now.tables reception.now.head.now.mdb) }
    requires of_archive { reception.now.head.now ≡ live.now.cell.first.store.head }
    requires route { IsRouteOver reception.now.head.now reception.now.graph.now }
    requires in_hand { IsInHand (receiving reception.now.head.now [] reception.now.graph.now reception.now.link
        reception.now.moment) progress.old.taken }
    requires within { IsWithinLimit progress.old }
    requires none_waits { BeginsWithNoPacket progress.old.splitter.octets }
    ensures free { IsFree live.now.cell pass.new }
    ensures sent { EndsSending D.device live.now.cell.first.store (receiving reception.now.head.now []
        reception.now.graph.now reception.now.link reception.now.moment) pass.old pass.new progress.old result }
    ensures why { IfOk result (λ summary. summary.why ≡ why_of progress.old.splitter.octets) }
{
    if progress.taken.packets == 0 {
        return Ok(progress.summary());
    }
    let batch = progress.take_batch(alloc);
    send_batch(
        rt, alloc, live, pass, reception, progress, batch, wake, gate, number,
    )?;
    Ok(progress.summary())
}

/// Sends batches that were taken ahead, in their order.
///
/// Refuses as `send_batch` does.
fn send_ahead<D: Disk, G: Gate, R: Wait>(
    rt: &R,
    alloc: Global,
    live: &Live<D>,
    pass: &mut LivePass<D>,
    reception: &Reception<'_>,
    progress: &mut Progress,
    ahead: Vec<NextBatch>,
    wake: &Sender<()>,
    gate: &G,
    number: u32,
) -> Result<(), Refusal>
    requires free { IsFree live.now.cell pass.old }
    requires link { (1 ≤ reception.now.link) × (reception.now.link ≤ limit_of limits.Links) }
    requires moment { IsClockTime reception.now.moment }
    requires head { IsArchiveEntry (entries.Head reception.now.head.now.tables reception.now.head.now.mdb) }
    requires of_archive { reception.now.head.now ≡ live.now.cell.first.store.head }
    requires route { IsRouteOver reception.now.head.now reception.now.graph.now }
    requires ahead { AreAhead (receiving reception.now.head.now [] reception.now.graph.now reception.now.link
        reception.now.moment) ahead.items }
    requires within { IsWithinLimitWith (64 * length ahead.items) progress.old }
    ensures free { IsFree live.now.cell pass.new }
    ensures sent { OnOk result (SendsAhead (TellsRows D.device live.now.cell.first.store) (receiving
        reception.now.head.now [] reception.now.graph.now reception.now.link reception.now.moment) ahead.items pass.old
        pass.new progress.old progress.new) }
    ensures refused { IfErr result (λ refusal. RefusesAhead D.device live.now.cell.first.store (receiving
        reception.now.head.now [] reception.now.graph.now reception.now.link reception.now.moment) ahead.items
        pass.old pass.new progress.old refusal) }
    ensures within { OnOk result (IsWithinLimit progress.new) }
    ensures waiting { progress.new.splitter ≡ progress.old.splitter }
    ensures in_hand { progress.new.taken ≡ progress.old.taken }
{
    'batches: for batch in ahead {
        send_batch(
            rt, alloc, live, pass, reception, progress, batch, wake, gate, number,
        )?;
    }
    Ok(())
}

/// Ingests a batch in a turn, and wakes a filler once it is acknowledged.
///
/// Refuses by a `Limit` of the history, by `NeedsReopen` where a write failed in the turn of another, by `DiskFault`
/// where the disk failed in its own, by `Damaged` where a page breaks its format, or by `OutOfMemory`.
fn send_batch<D: Disk, G: Gate, R: Wait>(
    rt: &R,
    alloc: Global,
    live: &Live<D>,
    pass: &mut LivePass<D>,
    reception: &Reception<'_>,
    progress: &mut Progress,
    batch: NextBatch,
    wake: &Sender<()>,
    gate: &G,
    number: u32,
) -> Result<(), Refusal>
    requires free { IsFree live.now.cell pass.old }
    requires link { (1 ≤ reception.now.link) × (reception.now.link ≤ limit_of limits.Links) }
    requires moment { IsClockTime reception.now.moment }
    requires head { IsArchiveEntry (entries.Head reception.now.head.now.tables reception.now.head.now.mdb) }
    requires of_archive { reception.now.head.now ≡ live.now.cell.first.store.head }
    requires route { IsRouteOver reception.now.head.now reception.now.graph.now }
    requires batch { IsInHand (receiving reception.now.head.now [] reception.now.graph.now reception.now.link
        reception.now.moment) batch }
    requires within { IsWithinLimitWith batch.packets progress.old }
    requires some { 0 < batch.packets }
    ensures free { IsFree live.now.cell pass.new }
    ensures sent { OnOk result (SendsBatch (TellsRows D.device live.now.cell.first.store) (receiving
        reception.now.head.now [] reception.now.graph.now reception.now.link reception.now.moment) batch pass.old
        pass.new progress.old progress.new) }
    ensures refused { IfErr result (λ refusal. RefusesBatch D.device live.now.cell.first.store (receiving
        reception.now.head.now [] reception.now.graph.now reception.now.link reception.now.moment) batch pass.old
        pass.new progress.old refusal) }
    ensures within { OnOk result (StaysWithin batch.packets progress.old progress.new) }
    ensures waiting { progress.new.splitter ≡ progress.old.splitter }
    ensures in_hand { progress.new.taken ≡ progress.old.taken }
{
    progress.turn = progress.turn.saturating_add(1);
    gate.pass(number, progress.turn);
    let ingested = live.ingest(rt, alloc, pass, &batch.batch)?;
    // A wake-up that is refused for memory is passed over: what is late is filled behind the jobs all the same.
    let _ = wake.try_send(rt, ());
    progress.count_sent(&batch, ingested.outcomes.as_slice().len());
    Ok(())
}
