//! The keys of a dump's rows.

ghost use Rattle.std.specs.Prelude.{◌≡◌, ◌<◌, IfOk, OnOk};
ghost use Rattle.arch_types.specs.Packet.{IsPacket};
ghost use Rattle.dump_lines.specs.DumpIndex.{PutsKey};

use crate::counts::{Counts, PacketOutcome};
use crate::receiving::DumpRows;
use arch_types::key::Key;
use arch_types::octets::Octets;
use block_map::growing_index::GrowingIndex;
use space_packet::header::is_idle_packet;
use space_packet::key::key_of;
use std::alloc::{AllocError, Global};

/// The keys of a dump's rows in their order, each with the length of its packet, and what became of the packets.
#[derive(Drop)]
pub struct DumpIndex {
    /// An entry has 24 octets.
    pub lengths: GrowingIndex<Key, u32>,
    pub counts: Counts,
}

/// Keys that an index makes room for at a time (D-91).
const STEP: usize = 1024;

impl DumpRows for DumpIndex {
    ghost use Rattle.std.specs.Prelude.{◌≡◌, ℕ, ℤ, ◌<◌, ◌^◌, List, [], ◌∷◌, ◌++◌, length, IfOk, OnOk};
    ghost use Rattle.arch_types.specs.Packet.{IsPacket};
    ghost use Rattle.dump_lines.specs.DumpIndex.{IsIndexed};

    ghost keeps = { λ rows moment packets. IsIndexed packets moment rows.lengths.entries rows.counts };

    fn new(alloc: Global) -> Result<Self, AllocError> {
        Ok(DumpIndex {
            lengths: GrowingIndex::new(alloc),
            counts: Counts::default(),
        })
    }

    fn add(&mut self, packet: Octets, moment: i64) -> Result<(), AllocError> {
        let outcome = put_key(&mut self.lengths, &packet, moment)?;
        self.counts.add(outcome);
        Ok(())
    }
}

/// Puts the key of a packet that isn't idle into an index, where it isn't there yet.
fn put_key(
    lengths: &mut GrowingIndex<Key, u32>,
    packet: &Octets,
    moment: i64,
) -> Result<PacketOutcome, AllocError>
    requires { IsPacket packet.now }
    ensures { IfOk result (PutsKey lengths.old.entries lengths.new.entries moment packet.now) }
{
    if is_idle_packet(packet.as_slice()) {
        return Ok(PacketOutcome::Idle);
    }
    make_room(lengths)?;
    let key = key_of(packet.as_slice(), moment);
    match lengths.insert(key, packet.len() as u32) {
        None => Ok(PacketOutcome::New),
        Some(_) => Ok(PacketOutcome::Duplicate),
    }
}

/// Makes room in an index that has none, by small steps: blocks that stay empty take memory.
fn make_room(lengths: &mut GrowingIndex<Key, u32>) -> Result<(), AllocError>
    ensures room { OnOk result (0 < lengths.new.room) }
    ensures same { lengths.new.entries ≡ lengths.old.entries }
{
    if lengths.room() > 0 {
        return Ok(());
    }
    lengths.reserve(STEP)
}
