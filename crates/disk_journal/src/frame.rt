// A record ready to be written.
ghost use Rattle.std.specs.Prelude.{◌≡◌, ◌+◌, ◌^◌, ◌<◌, ◌++◌, [], ◌∷◌, List, ℕ, length, IfOk};
ghost use Rattle.std.specs.Int.{w32, to_be_bytes};
ghost use Rattle.disk_journal.specs.Format.{framed};
ghost use Rattle.disk_journal.specs.Frame.{body_in};

use std::alloc::{AllocError, Global};
use std::marker::Model;

/// The octets behind the gate of a record, and the next closed gate. Seen as the body.
#[derive(Drop)]
pub struct Frame {
    octets: Vec<u8>,
}

impl Model for Frame {
    ghost Value = { List ℕ };

    ghost view = { λ f. body_in f.octets.items };

    ghost invariant = { λ f. (f.octets.items ≡ framed (body_in f.octets.items) ++ 0 ∷ [])
        × (length (body_in f.octets.items) < 2 ^ 32) };
}

impl Frame {
    /// The front of a frame round a body of so many octets: its length, and room to put the body behind it.
    pub fn begin(alloc: Global, size: u32) -> Result<Vec<u8>, AllocError>
        ensures { IfOk result (λ front. front.items ≡ to_be_bytes w32 size) }
    {
        let mut front = Vec::new(alloc);
        front.reserve(size as usize + 5)?;
        front.extend_from_slice(&size.to_be_bytes())?;
        Ok(front)
    }

    /// The frame round the body that was put behind its front.
    pub fn finish(octets: Vec<u8>) -> Result<Frame, AllocError>
        requires { (body : List ℕ) × (octets.items ≡ framed body) × (length body < 2 ^ 32) }
        ensures { (body : List ℕ) → octets.items ≡ framed body → IfOk result (λ frame. frame ≡ body) }
    {
        let mut octets = octets;
        octets.push(0)?;
        Ok(Frame { octets })
    }

    /// A frame round a body shorter than 2^32 octets.
    pub fn of(alloc: Global, body: &[u8]) -> Result<Frame, AllocError>
        requires { length body.now < 2 ^ 32 }
        ensures { IfOk result (λ frame. frame ≡ body.now) }
    {
        let mut octets = Frame::begin(alloc, body.len() as u32)?;
        octets.extend_from_slice(body)?;
        Frame::finish(octets)
    }

    /// The length of the body in octets.
    pub fn len(&self) -> u32
        ensures { result ≡ length self.now }
    {
        (self.octets.len() - 5) as u32
    }

    // What stands behind the gate where another record follows: the body's length, the body, and the next gate, open.
    pub(crate) fn before_another(self) -> Vec<u8>
        ensures { result.items ≡ framed self ++ 1 ∷ [] }
    {
        let mut octets = self.octets;
        let gate = octets.len() - 1;
        octets[gate] = 1;
        octets
    }

    /// What stands behind the gate: the body's length, the body, and the next gate, closed.
    pub fn octets(&self) -> &[u8]
        ensures { result.now ≡ framed self.now ++ 0 ∷ [] }
    {
        &self.octets
    }
}
