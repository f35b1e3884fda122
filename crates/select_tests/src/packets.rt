//! Sources of packets with APID 1.

use crate::mem_source::MemSource;
use std::alloc::{AllocError, Global};

/// Table, time of reception, packet name and count of a packet.
pub(crate) type Packet = (u8, i64, u16, u8);

/// Adds packets in the order in which they came.
fn add_packets(
    alloc: Global,
    source: &mut MemSource,
    packets: &[Packet],
) -> Result<(), AllocError> {
    for (table, time, pname, count) in packets {
        source.add(alloc, *table, *pname, *time, &[0, 1, 0xc0, *count, 0, 0, 0])?;
    }
    Ok(())
}

/// A source of these packets, where memory suffices.
pub(crate) fn source_of(alloc: Global, is_known: bool, packets: &[Packet]) -> Option<MemSource> {
    let mut source = MemSource::new(alloc, is_known);
    if add_packets(alloc, &mut source, packets).is_err() {
        return None;
    }
    Some(source)
}
