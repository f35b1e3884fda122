//! The packets of a dump, as it is read.

ghost use Rattle.std.specs.Prelude.{◌≡◌, ◌<◌, ◌≤◌, length, OnErr, IfErr, IfNone, IfOk, IfSome};
ghost use Rattle.arch_types.specs.Dump.{BeginsWithNoPacket};
ghost use Rattle.arch_types.specs.Packet.{IsPacket};
ghost use Rattle.outer_traits.specs.Outside.{Stays};
ghost use Rattle.outer_traits.specs.Whole.{ReadingCounted};
ghost use Rattle.space_packet.specs.Rest.{why_of};
ghost use Rattle.dump_pieces.specs.Pieces.{IsNoPiece};
ghost use Rattle.dump_pieces.specs.Reading.{EndsDump, GivesPacket, IsNoPacket, IsPacketGiven, ReadsOn, octets_left, reading_of};

use crate::piece::{PIECE, read_piece};
use arch_types::octets::Octets;
use outer_traits::source::Source;
use outer_traits::whole::ReadFault;
use space_packet::dump::Why;
use space_packet::splitter::{SplitFault, Splitter};
use std::alloc::{AllocError, Global};
use std::marker::Model;

/// Where a dump's rest begins, and what it is.
#[derive(Clone, Copy, Debug, PartialEq, Eq)]
pub struct DumpEnd {
    pub at: usize,
    pub why: Why,
}

/// How far a dump was read, and which of its packets were given. Contracts see what waits, and how many octets more it
/// may have.
#[derive(Drop)]
pub struct DumpReading {
    alloc: Global,
    /// What is read over.
    over: Vec<u8>,
    splitter: Splitter,
    /// How many octets more the dump may have.
    room: usize,
}

impl Model for DumpReading {
    ghost use Rattle.std.specs.Prelude.{◌≤◌, vec_len};
    ghost use Rattle.dump_pieces.specs.Reading.{Reading};

    ghost Value = { Reading };

    ghost view = { λ r. record { waiting = r.splitter; room = r.room } };

    ghost invariant = { λ r. 1 ≤ vec_len r.over };
}

impl DumpReading {
    /// A reading of a dump that may have so many octets, before the first is read. The one error is want of memory.
    pub fn new(alloc: Global, limit: usize) -> Result<Self, AllocError>
        ensures { IfOk result (λ reading. reading ≡ reading_of limit) }
    {
        Ok(DumpReading {
            alloc,
            over: Vec::from_elem(alloc, 0, PIECE)?,
            splitter: Splitter::new(alloc),
            room: limit,
        })
    }

    /// The next packet of the dump that a source has left. There is none behind the last, and none from an octet on
    /// where another packet version number begins one; the dump is read to its end all the same.
    pub fn next_packet<S: Source>(&mut self, source: &mut S) -> Result<Option<Octets>, ReadFault>
        ensures packet { IfOk result (λ next. IfSome next IsPacket) }
        ensures fewer { IfOk result (λ next. IfSome next (λ _. octets_left self.new < octets_left self.old)) }

        // Whatever was read and given before, so it goes on, or ends, or is too long.
        ensures given { IfOk result (λ next. IfSome next
            (GivesPacket (S.state source.old).left (S.state source.new).left self.old self.new)) }
        ensures none { IfOk result (λ next. IfNone next (EndsDump (S.state source.old).left self.old self.new)) }
        ensures fault { IfErr result (IsNoPacket (S.state source.old).left self.old) }

        ensures counted { ReadingCounted result (S.state source.old).faults (S.state source.new).faults }
        ensures later { (S.state source.old).faults ≤ (S.state source.new).faults }
        ensures reliable { (S.state source.old).never_fails → (S.state source.new).never_fails ×
            Stays (S.state source.old).faults (S.state source.new).faults }
    {
        'pieces: loop {
            match self.waiting_packet()? {
                Some(packet) => return Ok(Some(packet)),
                None => {
                    if !self.read_on(source)? {
                        return Ok(None);
                    }
                }
            }
        }
    }

    /// Where the dump ends, as far as it was read.
    pub fn end(&self) -> DumpEnd
        ensures { result ≡ record { at = self.now.waiting.at; why = why_of self.now.waiting.octets } }
    {
        DumpEnd {
            at: self.splitter.at(),
            why: self.splitter.end(),
        }
    }

    /// The packet that waits first. There is none where none waits whole.
    fn waiting_packet(&mut self) -> Result<Option<Octets>, AllocError>
        ensures packet { IfOk result (λ next. IfSome next (λ packet. IsPacketGiven self.old packet self.new)) }
        ensures none { IfOk result (λ next. IfNone next (BeginsWithNoPacket self.old.waiting.octets)) }
        ensures stays { IfOk result (λ next. IfNone next (self.new ≡ self.old)) }
        ensures err { OnErr result (self.new ≡ self.old) }
    {
        match self.splitter.next_packet() {
            Ok(next) => Ok(next),
            Err(SplitFault::Version { .. }) => Ok(None),
            Err(SplitFault::OutOfMemory) => Err(AllocError),
        }
    }

    /// Reads a piece more, and answers whether there is one. It is dropped where another packet version number waits.
    fn read_on<S: Source>(&mut self, source: &mut S) -> Result<bool, ReadFault>
        ensures read { IfOk result (ReadsOn (S.state source.old).left (S.state source.new).left self.old self.new) }
        ensures fault { IfErr result (IsNoPiece (S.state source.old).left self.old.room) }
        ensures counted { ReadingCounted result (S.state source.old).faults (S.state source.new).faults }
        ensures later { (S.state source.old).faults ≤ (S.state source.new).faults }
        ensures reliable { (S.state source.old).never_fails → (S.state source.new).never_fails ×
            Stays (S.state source.old).faults (S.state source.new).faults }
    {
        let piece = read_piece(self.alloc, source, self.over.as_mut_slice(), self.room)?;
        if piece.len() == 0 {
            return Ok(false);
        }
        self.room -= piece.len();
        if !matches!(self.splitter.end(), Why::Version) {
            self.splitter.feed(&piece)?;
        }
        Ok(true)
    }
}
