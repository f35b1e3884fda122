//! Made packets, octet for octet, and where the passes of links begin.

ghost use Rattle.std.specs.Prelude.{◌≤◌};

use crate::parts::none_other;
use crate::splitter_tests::pieces_of;
use arch_types::octets::Octets;
use dump_maker::dumps::make;
use space_packet::dump::Why;
use space_packet::split::split_pieces;
use std::alloc::{AllocError, Global};
use std::test::Fail;

/// A link's dump, a packet's place in it, and its octets.
type Made = (usize, usize, &'static [u8; 16]);

/// Of 20,000 packets for each of 2 links, from the seed 7.
const MADE: &[Made] = &[
    // the last link begins with the first packet, and the first one 10,800 packets later
    (1, 0, b"\x08\x01\xC0\0\0\x09\x65\x92\0\x80\0\0\0\0\0\x07"),
    (
        0,
        0,
        b"\x08\x01\xC1\x0E\0\x09\x65\x92\x54\xE0\0\0\x05\x19\x02\xD7",
    ),
    (
        1,
        10_800,
        b"\x08\x01\xC1\x0E\0\x09\x65\x92\x54\xE0\0\0\x05\x19\x02\xD7",
    ),
];

/// The last packet of the first link, from the greatest seed.
const LAST: &[Made] = &[(
    0,
    19_999,
    b"\x08\x28\xC3\x01\0\x09\x65\x92\xF1\x1E\0\0\x0E\x89\x93\xC0",
)];

/// Functions, so that they stand in no goal of their callers.
fn made() -> &'static [Made] {
    MADE
}

fn last() -> &'static [Made] {
    LAST
}

/// Whether these are the octets of a packet of a link.
fn is_packet_at(dumps: &[Octets], link: usize, place: usize, octets: &[u8]) -> bool {
    let Some(dump) = dumps.iter().nth(link) else {
        return false;
    };
    let Some(packet) = dump.as_slice().chunks(16).nth(place) else {
        return false;
    };
    packet == octets
}

/// The row whose packet has other octets.
fn other_packet(
    alloc: Global,
    seed: u32,
    want: &[Made],
) -> Result<Option<(&'static str, usize)>, AllocError> {
    let dumps = make(alloc, seed, 20_000, 2)?;
    let mut row = 0usize;
    for (link, place, octets) in want {
        let is_so = is_packet_at(dumps.as_slice(), *link, *place, octets.as_slice());
        if !is_so {
            return Ok(Some(("made packets", row)));
        }
        row = row.saturating_add(1);
    }
    Ok(None)
}

/// The number of links of which a dump isn't so many packets and nothing else.
fn other_count(alloc: Global) -> Result<Option<(&'static str, usize)>, AllocError> {
    for links in [1u8, 2, 16] {
        let dumps = make(alloc, 7, 5_000, links.min(16).max(1))?;
        if dumps.len() != links as usize || !all_whole(alloc, dumps.as_slice())? {
            return Ok(Some(("made dumps", links as usize)));
        }
    }
    Ok(None)
}

fn all_whole(alloc: Global, dumps: &[Octets]) -> Result<bool, AllocError> {
    for dump in dumps {
        let pieces = pieces_of(alloc, dump.as_slice(), 65_536)?;
        let whole = split_pieces(alloc, pieces.as_slice())?;
        if whole.packets.as_slice().len() != 5_000 || whole.at != 80_000 || whole.why != Why::End {
            return Ok(false);
        }
    }
    Ok(true)
}

#[test]
fn makes_these_packets(rt: HostRuntime) -> Result<(), Fail> {
    none_other(other_packet(rt.alloc(), 7, made())?)
}

#[test]
fn makes_these_packets_from_the_greatest_seed(rt: HostRuntime) -> Result<(), Fail> {
    none_other(other_packet(rt.alloc(), 4_294_967_295, last())?)
}

#[test]
fn makes_so_many_packets(rt: HostRuntime) -> Result<(), Fail> {
    none_other(other_count(rt.alloc())?)
}
