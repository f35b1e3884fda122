//! Batches of the packets of a dump.

ghost use Rattle.std.specs.Prelude.{◌≡◌, ◌+◌, ◌<◌, ◌≤◌, [], IfOk, OnOk};
ghost use Rattle.refusals.specs.Limits.{limit_of};
ghost use Rattle.refusals.specs.declared.refusal.Which.TheVariants as limits;
ghost use Rattle.arch_types.specs.Dump.{BeginsWithNoPacket};
ghost use Rattle.arch_types.specs.Packet.{IsPacket};
ghost use Rattle.text_forms.specs.ClockTime.{IsClockTime};
ghost use Rattle.field_codec.specs.declared.entry.Entry.TheVariants as entries;
ghost use Rattle.field_codec.specs.Entries.{IsArchiveEntry};
ghost use Rattle.mdb_items.specs.Database.{IsDatabase};
ghost use Rattle.load_session.specs.Batches.{arrival_from, arrivals_with, HasTakenWaiting};
ghost use Rattle.load_session.specs.Receiving.{receiving, IsRouteOver};

use arch_types::octets::Octets;
use archive_store::{Arrival, Arrivals, Batch, Head, received_row};
use container_extract::Extractor;
use space_packet::header::is_idle_packet;
use space_packet::splitter::{SplitFault, Splitter};
use std::alloc::{AllocError, Global};
use stream_graph::graph::Graph;

/// Successive packets that a batch takes, idle ones counted too.
pub const BATCH: u64 = 64;

/// Packets that were taken from a dump for a batch, from which idle ones are left out.
#[derive(Drop)]
pub struct NextBatch {
    pub batch: Batch,
    /// All packets, idle ones counted too.
    pub packets: u64,
}

/// Takes packets of a dump that wait, for a batch behind those that it has: until it is full, or none waits whole. Their
/// packet names are those of the head's database, as they are behind rows alone. The one error is want of memory.
pub fn take_waiting(
    alloc: Global,
    head: &Head,
    graph: &Graph,
    splitter: &mut Splitter,
    extractor: &mut Extractor,
    taken: &mut NextBatch,
    link: u16,
) -> Result<(), AllocError>
    requires link { (1 ≤ link) × (link ≤ limit_of limits.Links) }
    requires moment { IsClockTime taken.old.batch.rectime }
    requires head { IsArchiveEntry (entries.Head head.now.tables head.now.mdb) }
    requires route { IsRouteOver head.now graph.now }
    ensures taken { OnOk result (HasTakenWaiting (receiving head.now [] graph.now link taken.old.batch.rectime)
        splitter.old splitter.new taken.old taken.new) }
    ensures last { OnOk result (taken.new.packets < 64 → BeginsWithNoPacket splitter.new.octets) }
    ensures received { taken.new.batch.rectime ≡ taken.old.batch.rectime }
{
    while taken.packets < BATCH {
        match splitter.next_packet() {
            Ok(Some(packet)) => taken.add(alloc, head, graph, extractor, packet, link)?,
            Ok(None) | Err(SplitFault::Version { .. }) => return Ok(()),
            Err(SplitFault::OutOfMemory) => return Err(AllocError),
        }
    }
    Ok(())
}

impl NextBatch {
    /// None yet of a batch that is received at a moment. Takes no memory.
    pub fn empty(alloc: Global, moment: i64) -> Self
        ensures none { (result.packets ≡ 0) × (result.batch.arrivals ≡ []) }
        ensures received { result.batch.rectime ≡ moment }
    {
        NextBatch {
            batch: Batch {
                rectime: moment,
                arrivals: Arrivals::new(alloc),
            },
            packets: 0,
        }
    }

    /// Adds a packet of a link, and the tables of a route that it goes into.
    fn add(
        &mut self,
        alloc: Global,
        head: &Head,
        graph: &Graph,
        extractor: &mut Extractor,
        packet: Octets,
        link: u16,
    ) -> Result<(), AllocError>
        requires packet { IsPacket packet }
        requires database { IsDatabase head.now.mdb }
        requires few { self.old.packets < 64 }
        ensures packets { OnOk result (self.new.packets ≡ self.old.packets + 1) }
        ensures received { self.new.batch.rectime ≡ self.old.batch.rectime }
        ensures arrivals { OnOk result (self.new.batch.arrivals ≡ arrivals_with
            (receiving head.now [] graph.now link self.old.batch.rectime) self.old.batch.arrivals packet) }
    {
        self.packets += 1;
        if is_idle_packet(packet.as_slice()) {
            return Ok(());
        }
        let moment = self.batch.rectime;
        let arrival = arrival_of(alloc, head, graph, extractor, packet, link, moment)?;
        self.batch.arrivals.push(arrival)
    }
}

/// A packet of a link that is received at a moment, and the tables of a route that it goes into.
fn arrival_of(
    alloc: Global,
    head: &Head,
    graph: &Graph,
    extractor: &mut Extractor,
    packet: Octets,
    link: u16,
    moment: i64,
) -> Result<Arrival, AllocError>
    requires packet { IsPacket packet }
    requires database { IsDatabase head.now.mdb }
    ensures { IfOk result (λ arrival. arrival ≡ arrival_from (receiving head.now [] graph.now link moment) packet) }
{
    let pname = extractor.packet_name(&head.mdb, packet.as_slice());
    let row = received_row(packet, moment, link, pname);
    let tables = graph.route(alloc, &row)?;
    Ok(Arrival { row, tables })
}
