//! Receives a dump.

ghost use Rattle.std.specs.Prelude.{ℕ, ℤ, ◌<◌, ◌≤◌, ◌^◌, List, [], ◌∷◌, ◌++◌, length, IfErr, IfOk, OnOk};
ghost use Rattle.arch_types.specs.Packet.{IsPacket};
ghost use Rattle.outer_traits.specs.Outside.{Stays};
ghost use Rattle.outer_traits.specs.Whole.{ReadingCounted};
ghost use Rattle.dump_lines.specs.Receiving.{HasReceived, IsNotReceived};

use arch_types::octets::Octets;
use dump_pieces::reading::{DumpEnd, DumpReading};
use outer_traits::source::Source;
use outer_traits::whole::ReadFault;
use std::alloc::{AllocError, Global};

/// What is kept of the rows of a dump's packets.
pub trait DumpRows: Sized + Drop {
    /// It is that of these packets, received at a moment.
    ghost keeps: { Self → ℤ → List (List ℕ) → Type 0 };

    /// That of no packets. The one error is want of memory.
    fn new(alloc: Global) -> Result<Self, AllocError>
        ensures { IfOk result (λ rows. (moment : ℤ) → keeps rows moment []) };

    /// Adds the row of a packet more, where it isn't idle and its key is new. The one error is want of memory.
    fn add(&mut self, packet: Octets, moment: i64) -> Result<(), AllocError>
        requires packet { IsPacket packet }
        requires few { (packets : List (List ℕ)) × keeps self.old moment packets × (length packets < 2 ^ 32) }
        ensures { OnOk result ((packets : List (List ℕ)) → keeps self.old moment packets →
            keeps self.new moment (packets ++ packet ∷ [])) };
}

/// A dump that was received: what is kept of its rows, and where it ends.
#[derive(Drop)]
pub struct Received<R> {
    pub rows: R,
    pub end: DumpEnd,
}

/// Receives the dump that a source has left, of which there may be so many octets. The count of faults rises exactly
/// where the answer is `Failed`.
pub fn receive<S: Source, R: DumpRows>(
    alloc: Global,
    source: &mut S,
    limit: usize,
    moment: i64,
) -> Result<Received<R>, ReadFault>
    requires { limit < 2 ^ 32 }
    ensures received { IfOk result (λ received. HasReceived limit (S.state source.old).left
        (R.keeps received.rows moment) received.end) }
    ensures fault { IfErr result (IsNotReceived limit (S.state source.old).left) }
    ensures counted { ReadingCounted result (S.state source.old).faults (S.state source.new).faults }
    ensures later { (S.state source.old).faults ≤ (S.state source.new).faults }
    ensures reliable { (S.state source.old).never_fails → (S.state source.new).never_fails ×
        Stays (S.state source.old).faults (S.state source.new).faults }
{
    let mut rows = R::new(alloc)?;
    let mut reading = DumpReading::new(alloc, limit)?;
    'packets: loop {
        match reading.next_packet(source)? {
            Some(packet) => rows.add(packet, moment)?,
            None => {
                let end = reading.end();
                return Ok(Received { rows, end });
            }
        }
    }
}
