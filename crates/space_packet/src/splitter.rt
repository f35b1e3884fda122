//! The packets of a dump that comes in pieces.

ghost use Rattle.std.specs.Prelude.{◌≡◌, ◌+◌, ◌≤◌, ◌<◌, ◌++◌, ◌^◌, [], Err, length, take, drop, IfOk, IfErr, OnOk, OnErr, IfSome, IfNone};
ghost use Rattle.std.specs.List.{concat};
ghost use Rattle.space_packet.specs.Rest.{why_of};
ghost use Rattle.space_packet.specs.Pieces.{StartsInFirst};
ghost use Rattle.space_packet.specs.Waiting.{IsFirst, IsTaken, IsIncomplete, IsFaultOf};
ghost use Rattle.space_packet.specs.declared.dump.Why.TheVariants as rests;
ghost use Rattle.space_packet.specs.declared.splitter.SplitFault.TheVariants as faults;

use crate::dump::{Why, first_packet, why_none};
use crate::header::total_length;
use arch_types::octets::Octets;
use std::alloc::{AllocError, Global};
use std::collections::VecDeque;
use std::marker::Model;

/// The octets of the shortest packet: a header, and one octet of data.
const SHORTEST: usize = 7;

/// Why no packet is given.
#[derive(Clone, Copy, Debug, PartialEq, Eq)]
pub enum SplitFault {
    /// Where the next packet would begin, at this octet of the dump, stands another packet version number than 000.
    Version { at: usize },
    OutOfMemory,
}

impl From<AllocError> for SplitFault {
    ghost from_gives = { λ _ fault. fault ≡ faults.OutOfMemory };

    fn from(_e: AllocError) -> SplitFault {
        SplitFault::OutOfMemory
    }
}

/// Splits a dump whose pieces come one after the other. Contracts see the octets that wait, which are those fed behind
/// the packets given, and where in the dump they begin.
#[derive(Drop)]
pub struct Splitter {
    alloc: Global,
    /// The pieces in which octets wait.
    pieces: VecDeque<Octets>,
    /// The octet of the first of them where the waiting ones begin.
    start: usize,
    /// The octet of the dump where they begin.
    at: usize,
    /// How many octets were fed.
    fed: usize,
}

impl Model for Splitter {
    ghost use Rattle.std.specs.Prelude.{drop};
    ghost use Rattle.std.specs.List.{concat};
    ghost use Rattle.space_packet.specs.Pieces.{HoldsWaiting};
    ghost use Rattle.space_packet.specs.Waiting.{Waiting};

    ghost Value = { Waiting };

    ghost view = { λ s. record { at = s.at; octets = drop s.start (concat s.pieces.items) } };

    ghost invariant = { λ s. HoldsWaiting s.pieces.items s.start s.at s.fed };
}

impl Splitter {
    /// A splitter of a dump of which nothing was fed. Takes no memory.
    pub fn new(alloc: Global) -> Self
        ensures { result ≡ record { at = 0; octets = [] } }
    {
        Splitter {
            alloc,
            pieces: VecDeque::new(alloc),
            start: 0,
            at: 0,
            fed: 0,
        }
    }

    /// Adds the next piece of the dump, whose block is shared. There's no room for 2^64 octets or more.
    pub fn feed(&mut self, piece: &Octets) -> Result<(), AllocError>
        ensures ok { OnOk result (self.new ≡ record { at = self.old.at; octets = self.old.octets ++ piece.now }) }
        ensures err { OnErr result (self.new ≡ self.old) }
    {
        let Some(fed) = self.fed.checked_add(piece.len()) else {
            return Err(AllocError);
        };
        if piece.len() == 0 {
            return Ok(());
        }
        self.pieces.push_back(piece.copy()?)?;
        self.fed = fed;
        Ok(())
    }

    /// The next packet, or `None` where none waits whole. A packet that lies in one piece is a part of it; one that
    /// crosses pieces is copied. A version fault is the answer from then on, and takes no memory.
    pub fn next_packet(&mut self) -> Result<Option<Octets>, SplitFault>
        ensures packet { IfOk result (λ next. IfSome next (λ packet. IsTaken self.old packet self.new)) }
        ensures none { IfOk result (λ next. IfNone next (IsIncomplete self.old.octets)) }
        ensures fault { IfErr result (λ fault. IsFaultOf self.old fault) }
        ensures version { why_of self.old.octets ≡ rests.Version → result ≡ Err (faults.Version self.old.at) }
        ensures stays { IfOk result (λ next. IfNone next (self.new ≡ self.old)) }
        ensures err { OnErr result (self.new ≡ self.old) }
    {
        match self.end() {
            Why::End => return Ok(None),
            Why::Version => return Err(SplitFault::Version { at: self.at }),
            Why::Truncated => {}
        }
        let Some(packet) = self.front_packet()? else {
            return Ok(None);
        };
        self.pass_over(packet.len());
        Ok(Some(packet))
    }

    /// What the octets that wait are, where they begin with no packet.
    pub fn end(&self) -> Why
        ensures { result ≡ why_of self.now.octets }
    {
        match self.pieces.front() {
            None => Why::End,
            Some(piece) => why_none(piece.as_slice().split_at(self.start).1),
        }
    }

    /// The octet of the dump where those that wait begin.
    pub fn at(&self) -> usize
        ensures { result ≡ self.now.at }
    {
        self.at
    }

    /// The packet that waits first.
    fn front_packet(&self) -> Result<Option<Octets>, AllocError>
        requires { why_of self.now.octets ≡ rests.Truncated }
        ensures packet { IfOk result (λ first. IfSome first (λ packet. IsFirst packet self.now.octets)) }
        ensures none { IfOk result (λ first. IfNone first (IsIncomplete self.now.octets)) }
    {
        if let Some(piece) = self.pieces.front() {
            if let Ok(length) = first_packet(piece.as_slice().split_at(self.start).1) {
                return Ok(Some(piece.slice(self.start, self.start + length)?));
            }
        }
        self.joined_packet()
    }

    /// The packet that waits first, put together from the pieces that it crosses.
    fn joined_packet(&self) -> Result<Option<Octets>, AllocError>
        requires { why_of self.now.octets ≡ rests.Truncated }
        ensures packet { IfOk result (λ first. IfSome first (λ packet. IsFirst packet self.now.octets)) }
        ensures none { IfOk result (λ first. IfNone first (IsIncomplete self.now.octets)) }
    {
        let waiting = self.fed - self.at;
        if waiting < SHORTEST {
            return Ok(None);
        }
        let length = total_length(&first_octets(self.alloc, &self.pieces, self.start, SHORTEST)?);
        if waiting < length {
            return Ok(None);
        }
        let packet = first_octets(self.alloc, &self.pieces, self.start, length)?;
        Ok(Some(Octets::from_vec(self.alloc, packet)?))
    }

    /// Goes on behind the first of the waiting octets.
    fn pass_over(&mut self, count: usize)
        requires within { count ≤ length self.old.octets }
        requires short { count < 2 ^ 32 }
        ensures { self.new ≡ record { at = self.old.at + count; octets = drop count self.old.octets } }
    {
        self.at += count;
        self.start = drop_spent(&mut self.pieces, self.start + count);
    }
}

/// The first octets from a place on of pieces in a row, or all of them where they are fewer.
fn first_octets(
    alloc: Global,
    pieces: &VecDeque<Octets>,
    start: usize,
    count: usize,
) -> Result<Vec<u8>, AllocError>
    ensures { IfOk result (λ octets. octets.items ≡ take count (drop start (concat pieces.now.items))) }
{
    let mut octets = Vec::with_capacity(alloc, count)?;
    let mut before = start;
    for piece in pieces {
        if octets.len() == count {
            return Ok(octets);
        }
        let from = before.min(piece.len());
        let n = (piece.len() - from).min(count - octets.len());
        octets.extend_from_slice(&piece.as_slice()[from..from + n])?;
        before -= from;
    }
    Ok(octets)
}

/// Drops the pieces that end before a place, and answers where that place is in the first that is left.
fn drop_spent(pieces: &mut VecDeque<Octets>, start: usize) -> usize
    requires { start ≤ length (concat pieces.old.items) }
    ensures first { StartsInFirst pieces.new.items result }
    ensures short { result < 2 ^ 32 }
    ensures octets { drop result (concat pieces.new.items) ≡ drop start (concat pieces.old.items) }
{
    let mut place = start;
    while let Some(piece) = pieces.front() {
        let length = piece.len();
        if place < length {
            return place;
        }
        place -= length;
        let _spent = pieces.pop_front();
    }
    place
}
