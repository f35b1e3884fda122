//! Dumps in pieces, cut at each octet and in the middle of headers.

ghost use Rattle.std.specs.Prelude.{◌<◌};

use crate::parts::none_other;
use crate::space_packet_tests::{dump, other_split};
use arch_types::octets::Octets;
use space_packet::dump::Why;
use space_packet::split::split_pieces;
use space_packet::splitter::{SplitFault, Splitter};
use std::alloc::{AllocError, Global};
use std::test::Fail;

/// Packets of 13 octets.
const FIRST: &[u8] = b"\x08\x64\xC0\0\0\x06\0\0\0\x01\x80\0\x2A";

const SECOND: &[u8] = b"\x08\x65\xC0\0\0\x06\0\0\0\x01\x80\0\x07";

/// Functions, so that they stand in no goal of their callers.
fn first() -> &'static [u8] {
    FIRST
}

fn second() -> &'static [u8] {
    SECOND
}

/// Both packets, and octets behind them.
fn both_before(alloc: Global, behind: &[u8]) -> Result<Vec<u8>, AllocError> {
    let mut octets = Vec::new(alloc);
    octets.extend_from_slice(first())?;
    octets.extend_from_slice(second())?;
    octets.extend_from_slice(behind)?;
    Ok(octets)
}

/// Octets in pieces of so many, the last the rest.
pub(crate) fn pieces_of(
    alloc: Global,
    octets: &[u8],
    size: usize,
) -> Result<Vec<Octets>, AllocError>
    requires { 0 < size }
{
    let mut pieces = Vec::new(alloc);
    for piece in octets.chunks(size) {
        pieces.push(Octets::from_slice(alloc, piece)?)?;
    }
    Ok(pieces)
}

/// A splitter that was fed octets in pieces of so many.
fn fed(alloc: Global, octets: &[u8], size: usize) -> Result<Splitter, AllocError>
    requires { 0 < size }
{
    let mut splitter = Splitter::new(alloc);
    for piece in &pieces_of(alloc, octets, size)? {
        splitter.feed(piece)?;
    }
    Ok(splitter)
}

/// Whether the next packet is there, and is these octets.
fn gives(splitter: &mut Splitter, octets: &[u8]) -> bool {
    match splitter.next_packet() {
        Ok(Some(packet)) => packet.as_slice() == octets,
        Ok(None) | Err(_) => false,
    }
}

/// Whether no packet waits whole, and the next may still come.
fn waits(splitter: &mut Splitter) -> bool {
    matches!(splitter.next_packet(), Ok(None))
}

/// Whether another packet version number stands at this octet, where a packet would begin.
fn ends_at(splitter: &mut Splitter, at: usize) -> bool {
    matches!(splitter.next_packet(), Err(SplitFault::Version { at: here }) if here == at)
}

/// Both packets.
fn gives_both(splitter: &mut Splitter) -> bool {
    gives(splitter, first()) && gives(splitter, second())
}

/// Both packets, then none, and the end.
fn ends(alloc: Global, size: usize) -> Result<bool, AllocError>
    requires { 0 < size }
{
    let mut splitter = fed(alloc, &both_before(alloc, b"")?, size)?;
    let both = gives_both(&mut splitter);
    Ok(both && waits(&mut splitter) && splitter.end() == Why::End && splitter.at() == 26)
}

/// Both packets, then the octet behind them as often as it is asked for, and whatever comes behind it.
fn ends_at_version(alloc: Global, size: usize) -> Result<bool, AllocError>
    requires { 0 < size }
{
    let mut splitter = fed(alloc, &both_before(alloc, b"\x28")?, size)?;
    let both = gives_both(&mut splitter);
    let told = ends_at(&mut splitter, 26) && splitter.end() == Why::Version;
    splitter.feed(&Octets::from_slice(alloc, first())?)?;
    Ok(both && told && ends_at(&mut splitter, 26))
}

fn other_of_two(alloc: Global) -> Result<Option<(&'static str, usize)>, AllocError> {
    for size in [1usize, 5, 12, 13, 26, 27] {
        if !ends(alloc, size.max(1))? {
            return Ok(Some(("two packets in pieces", size)));
        }
        if !ends_at_version(alloc, size.max(1))? {
            return Ok(Some(("another version behind two packets", size)));
        }
    }
    Ok(None)
}

/// The size of pieces in which a dump is split otherwise than whole.
fn other_in_pieces(alloc: Global) -> Result<Option<(&'static str, usize)>, AllocError> {
    for size in 1..101usize {
        let pieces = pieces_of(alloc, dump(), size)?;
        let whole = split_pieces(alloc, pieces.as_slice())?;
        if other_split(&whole).is_some() {
            return Ok(Some(("a dump in pieces", size)));
        }
    }
    Ok(None)
}

/// The longest packet there is, and the first octets of another.
fn longest(alloc: Global) -> Result<Vec<u8>, AllocError> {
    let mut octets = Vec::new(alloc);
    octets.extend_from_slice(b"\x08\x64\xC0\0\xFF\xFF")?;
    octets.resize(65_542, 0)?;
    octets.extend_from_slice(b"\x08\x64\xC0\0")?;
    Ok(octets)
}

/// The size of pieces in which that packet isn't found.
fn other_of_longest(alloc: Global) -> Result<Option<(&'static str, usize)>, AllocError> {
    let octets = longest(alloc)?;
    for size in [1_000usize, 30_000, 65_536, 65_541, 65_542, 65_543] {
        let pieces = pieces_of(alloc, &octets, size.max(1))?;
        let whole = split_pieces(alloc, pieces.as_slice())?;
        if whole.packets.as_slice().len() != 1
            || whole.at != 65_542
            || whole.why != Why::Truncated
        {
            return Ok(Some(("the longest packet in pieces", size)));
        }
    }
    Ok(None)
}

#[test]
fn splits_two_packets_in_pieces(rt: HostRuntime) -> Result<(), Fail> {
    none_other(other_of_two(rt.alloc())?)
}

#[test]
fn splits_a_dump_wherever_it_is_cut(rt: HostRuntime) -> Result<(), Fail> {
    none_other(other_in_pieces(rt.alloc())?)
}

#[test]
fn joins_the_longest_packet(rt: HostRuntime) -> Result<(), Fail> {
    none_other(other_of_longest(rt.alloc())?)
}
