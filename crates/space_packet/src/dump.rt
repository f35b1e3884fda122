//! The packets of a dump, one after the other, without memory.

ghost use Rattle.std.specs.Prelude.{◌≡◌, ◌≤◌, length, take, drop, slice_range, IfOk, OnErr, IfErr, IfSome, IfNone};
ghost use Rattle.arch_types.specs.Packet.{IsPacket};
ghost use Rattle.arch_types.specs.Dump.{BeginsWithNoPacket};
ghost use Rattle.space_packet.specs.Rest.{why_of};
ghost use Rattle.space_packet.specs.Cut.{IsPacketRange};

use crate::header::total_length;
use std::marker::Model;

/// What octets are that begin with no packet.
#[derive(Clone, Copy, Debug, PartialEq, Eq)]
pub enum Why {
    /// There are none: the dump ends behind a packet.
    End,
    /// They begin with another packet version number than 000.
    Version,
    /// They end inside a packet.
    Truncated,
}

/// The length of the packet that these octets begin with, or why they begin with none. Takes no memory.
pub fn first_packet(octets: &[u8]) -> Result<usize, Why>
    ensures packet { IfOk result (λ n. (n ≤ length octets.now) × IsPacket (take n octets.now)) }
    ensures none { OnErr result (BeginsWithNoPacket octets.now) }
    ensures why { IfErr result (λ why. why ≡ why_of octets.now) }
{
    if octets.len() >= 7 && octets[0] < 32 {
        let length = total_length(octets);
        if length <= octets.len() {
            return Ok(length);
        }
    }
    Err(why_none(octets))
}

/// What octets are, where they begin with no packet.
pub(crate) fn why_none(octets: &[u8]) -> Why
    ensures { result ≡ why_of octets.now }
{
    if octets.is_empty() {
        Why::End
    } else if octets[0] >= 32 {
        Why::Version
    } else {
        Why::Truncated
    }
}

/// The places of a packet in a dump: its first octet, and the octet behind its last.
#[derive(Clone, Copy, Debug, PartialEq, Eq)]
pub struct PacketRange {
    pub start: usize,
    pub end: usize,
}

/// The packets of a dump from a place on, which contracts see as the dump and that place.
#[derive(Debug, Drop)]
pub struct DumpPackets<'a> {
    dump: &'a [u8],
    at: usize,
}

impl<'a> Model for DumpPackets<'a> {
    ghost use Rattle.std.specs.Prelude.{◌≤◌, length};
    ghost use Rattle.space_packet.specs.Cut.{DumpPosition};

    ghost Value = { DumpPosition };

    ghost view = { λ p. record { dump = p.dump.now; at = p.at } };

    ghost invariant = { λ p. p.at ≤ length p.dump.now };
}

impl<'a> DumpPackets<'a> {
    /// All packets of a dump.
    pub fn new(dump: &'a [u8]) -> Self
        ensures { result ≡ record { dump = dump.now; at = 0 } }
    {
        DumpPackets { dump, at: 0 }
    }

    /// The places of the next packet, or `None` exactly where no packet begins, at the rest of the dump. Takes no memory.
    pub fn next_packet(&mut self) -> Option<PacketRange>
        ensures dump { self.new.dump ≡ self.old.dump }
        ensures packet { IfSome result (λ range. IsPacketRange self.old.dump range.start range.end) }
        ensures follows { IfSome result (λ range. (range.start ≡ self.old.at) × (range.end ≡ self.new.at)) }
        ensures none { IfNone result (BeginsWithNoPacket (drop self.old.at self.old.dump)) }
        ensures stays { IfNone result (self.new ≡ self.old) }
    {
        let start = self.at;
        let length = first_packet(self.dump.split_at(start).1).ok()?;
        self.at += length;
        Some(PacketRange {
            start,
            end: self.at,
        })
    }

    /// The octets of a packet of the dump.
    pub fn octets(&self, range: PacketRange) -> &'a [u8]
        requires { (range.start ≤ range.end) × (range.end ≤ length self.now.dump) }
        ensures { result.now ≡ slice_range self.now.dump range.start range.end }
    {
        &self.dump[range.start..range.end]
    }

    /// The octet where the next packet begins, and once there is none the rest.
    pub fn at(&self) -> usize
        ensures value { result ≡ self.now.at }
        ensures within { result ≤ length self.now.dump }
    {
        self.at
    }

    /// What the octets from the place on are, where no packet begins there.
    pub fn why(&self) -> Why
        ensures { result ≡ why_of (drop self.now.at self.now.dump) }
    {
        why_none(self.dump.split_at(self.at).1)
    }
}
