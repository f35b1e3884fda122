//! A link of a load.

ghost use Rattle.std.specs.Prelude.{◌≤◌, IfErr, IfOk, MatchResult, OnOk};
ghost use Rattle.outer_traits.specs.Outside.{Stays};
ghost use Rattle.archive_store.specs.Pages.{TellsRows};
ghost use Rattle.turn_cell.specs.Pass.{IsFree};
ghost use Rattle.load_session.specs.Receiving.{receiving};
ghost use Rattle.load_jobs.specs.Ends.{IsLinkRun, IsReadCounted};
ghost use Rattle.load_jobs.specs.Links.{CanSend};
ghost use Rattle.load_jobs.specs.Reading.{IsReadingCounted};
ghost use Rattle.load_jobs.specs.Underway.{HasBegun, IsRefusedAt, IsSentUpTo, IsWithinLimit};

use crate::ending::LinkEnd;
use crate::reading::ReadingEnd;
use crate::sending::{Progress, Reception, send_rest, send_waiting};
use arch_disk::Disk;
use crossbeam_channel::Sender;
use dump_pieces::piece::{PIECE, read_piece};
use live_archive::{Live, LivePass};
use outer_traits::gate::Gate;
use outer_traits::source::Source;
use outer_traits::whole::ReadFault;
use refusals::{Refusal, Which};
use std::alloc::Global;
use std::sync::Wait;

/// A link of a load.
pub struct Link<'a, D: Disk, S, G> {
    pub alloc: Global,
    pub live: &'a Live<D>,
    pub pass: LivePass<D>,
    pub reception: Reception<'a>,
    /// Its dump, opened.
    pub source: S,
    /// By which it wakes a filler.
    pub wake: Sender<()>,
    pub gate: &'a G,
    /// Its number among the jobs.
    pub number: u32,
}

/// A link that has ended, with the source that is to be closed.
pub struct LinkDone<D: Disk, S> {
    pub pass: LivePass<D>,
    pub source: S,
    pub end: LinkEnd,
}

/// Reads the dump of a link piece by piece, and sends its packets as they come. Those before the octet where it stops
/// are sent, unless a batch is refused.
pub fn run_link<D: Disk, S: Source, G: Gate, R: Wait>(
    rt: &R,
    link: Link<'_, D, S, G>,
) -> LinkDone<D, S>
    requires free { IsFree link.live.now.cell link.pass }
    requires can { CanSend link.live.now.cell.first.store (receiving link.reception.head.now link.pass.history.seen
        link.reception.graph.now link.reception.link link.reception.moment) link.pass }
    ensures free { IsFree link.entry.live.now.cell result.pass }

    // What became of it, by its end: of the octets that its source had left and has left, and of its own pass.
    ensures run { IsLinkRun D.device link.entry.live.now.cell.first.store (receiving link.entry.reception.head.now
        link.entry.pass.history.seen link.entry.reception.graph.now link.entry.reception.link
        link.entry.reception.moment) (S.state link.entry.source).left (S.state result.source).left
        link.entry.pass result.pass result.end }

    // A read of its source failed exactly where its end says so.
    ensures counted { IsReadCounted result.end (S.state link.entry.source).faults (S.state result.source).faults }
    ensures later { (S.state link.entry.source).faults ≤ (S.state result.source).faults }
    ensures reliable { (S.state link.entry.source).never_fails →
        Stays (S.state link.entry.source).faults (S.state result.source).faults }
{
    let Link {
        alloc,
        live,
        mut pass,
        reception,
        mut source,
        wake,
        gate,
        number,
    } = link;
    let end = send_dump(
        rt,
        alloc,
        live,
        &mut pass,
        &reception,
        &mut source,
        &wake,
        gate,
        number,
    );
    LinkDone { pass, source, end }
}

/// Reads a dump to where its reading stops, and sends its packets before that octet.
fn send_dump<D: Disk, S: Source, G: Gate, R: Wait>(
    rt: &R,
    alloc: Global,
    live: &Live<D>,
    pass: &mut LivePass<D>,
    reception: &Reception<'_>,
    source: &mut S,
    wake: &Sender<()>,
    gate: &G,
    number: u32,
) -> LinkEnd
    requires free { IsFree live.now.cell pass.old }
    requires can { CanSend live.now.cell.first.store (receiving reception.now.head.now pass.old.history.seen
        reception.now.graph.now reception.now.link reception.now.moment) pass.old }
    ensures free { IsFree live.now.cell pass.new }
    ensures run { IsLinkRun D.device live.now.cell.first.store (receiving reception.now.head.now pass.old.history.seen
        reception.now.graph.now reception.now.link reception.now.moment) (S.state source.old).left
        (S.state source.new).left pass.old pass.new result }
    ensures counted { IsReadCounted result (S.state source.old).faults (S.state source.new).faults }
    ensures later { (S.state source.old).faults ≤ (S.state source.new).faults }
    ensures reliable { (S.state source.old).never_fails →
        Stays (S.state source.old).faults (S.state source.new).faults }
{
    let Ok(mut progress) = Progress::new(alloc, reception.moment) else {
        return LinkEnd::Refused(Refusal::OutOfMemory);
    };
    let read = send_read(
        rt,
        alloc,
        live,
        pass,
        reception,
        source,
        &mut progress,
        wake,
        gate,
        number,
    );
    let reading = match read {
        Ok(reading) => reading,
        Err(refusal) => return LinkEnd::Refused(refusal),
    };
    let sent = send_rest(
        rt,
        alloc,
        live,
        pass,
        reception,
        &mut progress,
        wake,
        gate,
        number,
    );
    LinkEnd::of_reading(reading, sent)
}

/// Reads a dump until no more of it is read, and sends what waits in whole batches behind each piece.
///
/// Refuses as the sending does, or by `OutOfMemory`. A fault of the reading is no refusal: what is in hand is to be
/// sent.
fn send_read<D: Disk, S: Source, G: Gate, R: Wait>(
    rt: &R,
    alloc: Global,
    live: &Live<D>,
    pass: &mut LivePass<D>,
    reception: &Reception<'_>,
    source: &mut S,
    progress: &mut Progress,
    wake: &Sender<()>,
    gate: &G,
    number: u32,
) -> Result<ReadingEnd, Refusal>
    requires can { CanSend live.now.cell.first.store (receiving reception.now.head.now pass.old.history.seen
        reception.now.graph.now reception.now.link reception.now.moment) pass.old }
    requires free { IsFree live.now.cell pass.old }
    requires begun { HasBegun reception.now.moment progress.old }
    ensures free { IsFree live.now.cell pass.new }

    // No more is read: what was read is sent but for fewer packets than a batch takes.
    ensures sent { IfOk result (IsSentUpTo (receiving reception.now.head.now pass.old.history.seen
        reception.now.graph.now reception.now.link reception.now.moment) (S.state source.old).left
        (TellsRows D.device live.now.cell.first.store) (S.state source.new).left pass.old pass.new progress.new) }
    ensures refused { IfErr result (IsRefusedAt (receiving reception.now.head.now pass.old.history.seen
        reception.now.graph.now reception.now.link reception.now.moment) (S.state source.old).left
        D.device live.now.cell.first.store pass.old pass.new) }
    ensures within { OnOk result (IsWithinLimit progress.new) }
    ensures counted { MatchResult result (λ end. IsReadingCounted end (S.state source.old).faults
        (S.state source.new).faults) (λ _. Stays (S.state source.old).faults (S.state source.new).faults) }
    ensures later { (S.state source.old).faults ≤ (S.state source.new).faults }
    ensures reliable { (S.state source.old).never_fails →
        Stays (S.state source.old).faults (S.state source.new).faults }
{
    let mut over = Vec::from_elem(alloc, 0, PIECE)?;
    let mut room = Which::DumpOctets.limit() as usize;
    'pieces: loop {
        let piece = match read_piece(alloc, source, over.as_mut_slice(), room) {
            Ok(piece) => piece,
            Err(ReadFault::Failed) => return Ok(ReadingEnd::Failed),
            Err(ReadFault::TooLong) => return Ok(ReadingEnd::TooLong),
            Err(ReadFault::OutOfMemory) => return Err(Refusal::OutOfMemory),
            // A source that is read is there.
            Err(ReadFault::Missing) => return Err(Refusal::OutOfMemory),
        };
        if piece.len() == 0 {
            return Ok(ReadingEnd::NoMore);
        }
        room -= piece.len();
        progress.feed(&piece)?;
        send_waiting(
            rt, alloc, live, pass, reception, progress, wake, gate, number,
        )?;
        if progress.is_at_version() {
            return Ok(ReadingEnd::NoMore);
        }
    }
}
