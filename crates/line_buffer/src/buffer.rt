//! Text on its way to a sink, gathered into pieces of about 64 KiB.

ghost use Rattle.std.specs.Prelude.{◌≡◌, ◌+◌, ◌<◌, ◌≤◌, [], ◌∷◌, ◌++◌, length, IfOk, OnOk, OnErr, codes};
ghost use Rattle.line_buffer.specs.LineRoom.{HasRoomFor, longest_number};
ghost use Rattle.line_buffer.specs.Printed.{BuffersText, WritesText};

use crate::write::write_all;
use itoa::{Buffer, Integer};
use outer_traits::fault::Failed;
use outer_traits::sink::Sink;
use std::alloc::{AllocError, Global};
use std::marker::Model;

/// The octets from which on a piece is written.
const FULL: usize = 65_536;

/// The octets that the longest line may take (D-145).
const LINE: usize = 512;

/// Text that wasn't written yet. All memory that it takes is taken when it is made.
#[derive(Drop)]
pub struct LineBuffer {
    octets: Vec<u8>,
}

impl Model for LineBuffer {
    ghost use Rattle.std.specs.Prelude.{◌≤◌, List, ℕ, vec_capacity};
    ghost use Rattle.line_buffer.specs.LineRoom.{buffer_length};

    ghost Value = { List ℕ };

    ghost view = { λ p. p.octets.items };

    ghost invariant = { λ p. buffer_length ≤ vec_capacity p.octets };
}

impl LineBuffer {
    /// No text.
    pub fn new(alloc: Global) -> Result<Self, AllocError>
        ensures { IfOk result (λ line_buffer. line_buffer ≡ []) }
    {
        let octets = Vec::with_capacity(alloc, FULL + LINE)?;
        Ok(LineBuffer { octets })
    }

    /// Adds octets for which there's room.
    pub fn put(&mut self, octets: &[u8])
        requires { HasRoomFor (length octets.now) self.old }
        ensures { self.new ≡ self.old ++ octets.now }
    {
        let Ok(()) = self.octets.extend_from_slice(octets) else {
            unreachable!();
        };
    }

    /// Adds an octet for which there's room.
    pub fn put_octet(&mut self, octet: u8)
        requires { HasRoomFor 1 self.old }
        ensures { self.new ≡ self.old ++ octet ∷ [] }
    {
        self.octets.push_reserved(octet);
    }

    /// Adds the digits of a number, behind a minus where it is negative.
    pub fn put_digits<I: Integer>(&mut self, number: I)
        requires { HasRoomFor longest_number self.old }
        ensures text { self.new ≡ self.old ++ I.text number }
        ensures short { length self.new ≤ length self.old + longest_number }
    {
        self.put(Buffer::new().format(number).as_bytes());
    }

    /// Adds a label, and a number after it.
    pub fn put_number<I: Integer>(&mut self, label: &[u8], number: I)
        requires { HasRoomFor (length label.now + longest_number) self.old }
        ensures text { self.new ≡ self.old ++ label.now ++ I.text number }
        ensures short { length self.new ≤ length self.old + length label.now + longest_number }
    {
        self.put(label);
        self.put_digits(number);
    }

    /// Adds a space, and a number after it: a field of a line behind its first.
    pub fn put_field<I: Integer>(&mut self, number: I)
        requires { HasRoomFor (1 + longest_number) self.old }
        ensures text { self.new ≡ self.old ++ codes " " ++ I.text number }
        ensures short { length self.new ≤ length self.old + 1 + longest_number }
    {
        self.put_octet(b' ');
        self.put_digits(number);
    }

    /// Writes the text where it makes a piece.
    pub fn flush_if_full<K: Sink>(&mut self, sink: &mut K) -> Result<(), Failed>
        ensures { BuffersText result (K.state sink.old) (K.state sink.new) self.old self.new }
    {
        if self.octets.len() < FULL {
            return Ok(());
        }
        self.flush(sink)
    }

    /// Writes the text.
    pub fn flush<K: Sink>(&mut self, sink: &mut K) -> Result<(), Failed>
        ensures written { WritesText result (K.state sink.old) (K.state sink.new) self.old }
        ensures empty { OnOk result (self.new ≡ []) }
    {
        write_all(sink, self.octets.as_slice())?;
        self.octets.clear();
        Ok(())
    }

    /// Moves the text to the end of another. Refused for want of memory, it leaves both as they were.
    pub fn append_to(&mut self, text: &mut Vec<u8>) -> Result<(), AllocError>
        ensures all { OnOk result (text.new.items ≡ text.old.items ++ self.old) }
        ensures empty { OnOk result (self.new ≡ []) }
        ensures kept { OnErr result ((text.new.items ≡ text.old.items) × (self.new ≡ self.old)) }
    {
        text.extend_from_slice(self.octets.as_slice())?;
        self.octets.clear();
        Ok(())
    }

    /// Writes all of the text, where nothing more is printed.
    pub fn finish<K: Sink>(mut self, sink: &mut K) -> Result<(), Failed>
        ensures { WritesText result (K.state sink.old) (K.state sink.new) self }
    {
        self.flush(sink)
    }
}
