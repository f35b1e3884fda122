//! Vectors from outside: headers, keys and dumps.

use crate::parts::none_other;
use arch_types::octets::Octets;
use space_packet::dump::{DumpPackets, Why, first_packet};
use space_packet::header::{Header, Version, is_idle_packet};
use space_packet::key::key_of;
use space_packet::packets::Split;
use space_packet::split::split;
use std::alloc::{AllocError, Global};
use std::test::Fail;

/// The octets of a primary header, and what is read.
type Read = ([u8; 6], Result<Header, Version>);

fn telecommand() -> Header {
    Header {
        telecommand: true,
        secondary: false,
        apid: 2047,
        flags: 1,
        count: 16383,
        length: 65542,
    }
}

fn telemetry() -> Header {
    Header {
        telecommand: false,
        secondary: true,
        apid: 100,
        flags: 3,
        count: 0,
        length: 13,
    }
}

fn headers() -> [Read; 3] {
    [
        ([8, 0x64, 0xC0, 0, 0, 6], Ok(telemetry())),
        ([0x17, 0xFF, 0x7F, 0xFF, 0xFF, 0xFF], Ok(telecommand())),
        ([0x28, 0x64, 0xC0, 0, 0, 6], Err(Version)),
    ]
}

fn other_header(headers: &[Read]) -> Option<(&'static str, usize)> {
    let mut place = 0usize;
    for (octets, want) in headers {
        if Header::read(octets) != *want {
            return Some(("headers", place));
        }
        place = place.saturating_add(1);
    }
    None
}

/// Octets, and the length of the packet that they begin with.
type Beginning = (&'static [u8], Result<usize, Why>);

const BEGINNINGS: &[Beginning] = &[
    // a packet with a secondary header and one octet of data, at 1.5 s
    (b"\x08\x64\xC0\0\0\x06\0\0\0\x01\x80\0\x2A", Ok(13)),
    (b"\x08\x64\xC0\0\0\x06\0\0\0\x01\x80\0", Err(Why::Truncated)),
    (b"\x08", Err(Why::Truncated)),
    (b"\x1F\x64\xC0\0\0\0\x07", Ok(7)),
    (b"\x28", Err(Why::Version)),
    (b"", Err(Why::End)),
];

/// A function, as those below are, so that they stand in no goal of its callers.
fn beginnings() -> &'static [Beginning] {
    BEGINNINGS
}

fn other_beginning(all: &[Beginning]) -> Option<(&'static str, usize)> {
    let mut place = 0usize;
    for (octets, want) in all {
        if first_packet(octets) != *want {
            return Some(("beginnings", place));
        }
        place = place.saturating_add(1);
    }
    None
}

/// That packet, an idle one, one without a secondary header, two at the ends of a millisecond, and one whose time is cut.
const DUMP: &[u8] = b"\x08\x64\xC0\0\0\x06\0\0\0\x01\x80\0\x2A\
    \x07\xFF\xC0\0\0\0\0\
    \0\x65\xC0\x01\0\x05\0\0\0\x01\x80\0\
    \x08\x64\xC0\0\0\x05\0\0\x10\x62\x4D\xD2\
    \x08\x64\xC0\0\0\x05\0\0\x10\x62\x4D\xD3\
    \x08\x64\xC0\0\0\x04\0\0\x10\x62\x4D";

pub(crate) fn dump() -> &'static [u8] {
    DUMP
}

/// A packet's length, whether it is idle, and its key where it was received at 9 s.
type Told = (usize, bool, i64, u32);

const PACKETS: &[Told] = &[
    (13, false, 1500, 140_820_480),
    (7, true, 9000, 134_201_344),
    (12, false, 9000, 6_668_289),
    (12, false, 4_194_303, 140_820_480),
    (12, false, 4_194_304, 140_820_480),
    (11, false, 9000, 140_820_480),
];

fn packets() -> &'static [Told] {
    PACKETS
}

/// What octets tell that are one packet.
fn told(octets: &[u8]) -> Option<Told> {
    let length = first_packet(octets).ok()?;
    let (packet, rest) = octets.split_at(length);
    if !rest.is_empty() {
        return None;
    }
    let key = key_of(packet, 9000);
    Some((length, is_idle_packet(packet), key.time, key.seq))
}

fn other_packet(packets: &[Octets], want: &[Told]) -> Option<usize> {
    let mut place = 0usize;
    for (packet, want) in packets.iter().zip(want) {
        if told(packet.as_slice()) != Some(*want) {
            return Some(place);
        }
        place = place.saturating_add(1);
    }
    None
}

pub(crate) fn other_split(whole: &Split) -> Option<(&'static str, usize)> {
    if whole.at != 67 || whole.why != Why::End {
        return Some(("a dump's rest", whole.at));
    }
    let all = whole.packets.as_slice();
    if all.len() != packets().len() {
        return Some(("a dump's packets", all.len()));
    }
    match other_packet(all, packets()) {
        Some(place) => Some(("packets", place)),
        None => None,
    }
}

/// What the first packet of a dump tells that is gone through in its place.
fn first_told(dump: &[u8]) -> Option<Told> {
    let mut places = DumpPackets::new(dump);
    let Some(range) = places.next_packet() else {
        return None;
    };
    told(places.octets(range))
}

/// The dump that many idle packets are.
fn long_dump(alloc: Global) -> Result<Octets, AllocError> {
    let mut dump = Vec::new(alloc);
    for _ in 0..100_000 {
        dump.extend_from_slice(b"\x07\xFF\xC0\0\0\0\0")?;
    }
    Octets::from_vec(alloc, dump)
}

/// How many packets it is split into, where these are others.
fn other_count(alloc: Global) -> Result<Option<(&'static str, usize)>, AllocError> {
    let whole = split(alloc, &long_dump(alloc)?)?;
    match whole.packets.as_slice().len() {
        100_000 => Ok(None),
        count => Ok(Some(("a long dump's packets", count))),
    }
}

fn other_of_dump(alloc: Global) -> Result<Option<(&'static str, usize)>, AllocError> {
    if first_told(dump()) != Some((13, false, 1500, 140_820_480)) {
        return Ok(Some(("the first packet", 0)));
    }
    let dump = Octets::from_slice(alloc, dump())?;
    let whole = split(alloc, &dump)?;
    Ok(other_split(&whole))
}

#[test]
fn reads_headers(rt: HostRuntime) -> Result<(), Fail> {
    none_other(other_header(&headers()))
}

#[test]
fn tells_what_octets_begin_with(rt: HostRuntime) -> Result<(), Fail> {
    none_other(other_beginning(beginnings()))
}

#[test]
fn splits_dumps(rt: HostRuntime) -> Result<(), Fail> {
    none_other(other_of_dump(rt.alloc())?)
}

#[test]
fn splits_a_long_dump(rt: HostRuntime) -> Result<(), Fail> {
    none_other(other_count(rt.alloc())?)
}
