//! Splits a dump, whole or in pieces.

ghost use Rattle.std.specs.Prelude.{List, ℕ, IfOk, OnOk};
ghost use Rattle.std.specs.List.{concat};
ghost use Rattle.arch_types.specs.Dump.{BeginsWithNoPacket};
ghost use Rattle.space_packet.specs.Split.{IsSplit};
ghost use Rattle.space_packet.specs.Waiting.{IsSplitSoFar};

use crate::dump::DumpPackets;
use crate::packets::{Packets, Split};
use crate::splitter::{SplitFault, Splitter};
use arch_types::octets::Octets;
use std::alloc::{AllocError, Global};

/// The packets of a dump in order, which share its block, and its rest. The one error is want of memory.
pub fn split(alloc: Global, dump: &Octets) -> Result<Split, AllocError>
    ensures { IfOk result (IsSplit dump.now) }
{
    let mut packets = Packets::new(alloc);
    let mut places = DumpPackets::new(dump.as_slice());
    while let Some(range) = places.next_packet() {
        packets.push(dump.slice(range.start, range.end)?)?;
    }
    Ok(Split {
        packets,
        at: places.at(),
        why: places.why(),
    })
}

/// What `split` gives of the whole dump, wherever it is cut. The one error is want of memory.
pub fn split_pieces(alloc: Global, pieces: &[Octets]) -> Result<Split, AllocError>
    ensures { IfOk result (IsSplit (concat pieces.now)) }
{
    let mut packets = Packets::new(alloc);
    let mut splitter = Splitter::new(alloc);
    for piece in pieces {
        splitter.feed(piece)?;
        take_packets(&mut splitter, &mut packets)?;
    }
    Ok(Split {
        packets,
        at: splitter.at(),
        why: splitter.end(),
    })
}

/// Takes the packets that wait whole.
fn take_packets(splitter: &mut Splitter, packets: &mut Packets) -> Result<(), AllocError>
    ensures so_far { OnOk result ((fed : List ℕ) → IsSplitSoFar fed packets.old splitter.old
        → IsSplitSoFar fed packets.new splitter.new) }
    ensures none { OnOk result (BeginsWithNoPacket splitter.new.octets) }
{
    loop {
        match splitter.next_packet() {
            Ok(Some(packet)) => packets.push(packet)?,
            Ok(None) | Err(SplitFault::Version { .. }) => return Ok(()),
            Err(SplitFault::OutOfMemory) => return Err(AllocError),
        }
    }
}
