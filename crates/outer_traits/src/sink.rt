//! A sink of octets.

ghost use Rattle.std.specs.Prelude.{◌≡◌, ◌≤◌, ◌<◌, length, IfOk, IsErr, Ok, OnOk, OnErr};
ghost use Rattle.outer_traits.specs.Outside.{HasRisen, Stays, Writes, WritesSome};
ghost use Rattle.outer_traits.specs.States.{OutputState};

use crate::fault::Failed;

/// Octets that are written one after the other.
pub trait Sink {
    /// What is known of it: the octets that were written, where it tells them, and how often it has failed.
    ghost state: { Self → OutputState };

    /// Appends a prefix of the piece, and answers its length. The count of faults rises exactly where the call fails, or answers zero for a
    /// piece that isn't empty. A call that fails may have appended some prefix.
    fn write(&mut self, piece: &[u8]) -> Result<usize, Failed>
        ensures count { IfOk result (λ n. n ≤ length piece.now) }
        ensures appended { IfOk result (λ n. Writes (state self.old).written (state self.new).written n piece.now) }
        ensures some { OnErr result (WritesSome (state self.old).written (state self.new).written piece.now) }
        ensures later { (state self.old).faults ≤ (state self.new).faults }
        ensures failed { IsErr result → HasRisen (state self.old).faults (state self.new).faults }
        ensures nothing { result ≡ Ok 0 → 0 < length piece.now →
            HasRisen (state self.old).faults (state self.new).faults }
        ensures no_fault { IfOk result (λ n. 0 < n → Stays (state self.old).faults (state self.new).faults) }
        ensures no_fault_empty { OnOk result (length piece.now ≡ 0 →
            Stays (state self.old).faults (state self.new).faults) };
}
