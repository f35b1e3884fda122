//! A source of octets.

ghost use Rattle.std.specs.Prelude.{◌≡◌, ◌≤◌, ◌<◌, [], length, IfOk, IsErr, OnErr, OnOk, IfSome, Ok};
ghost use Rattle.outer_traits.specs.Outside.{HasRisen, Reads, Stays};
ghost use Rattle.outer_traits.specs.States.{SourceState};

use crate::fault::Failed;

/// Octets that are read one after the other.
pub trait Source {
    /// What is known of it: the octets that are left, where it tells them, how often it has failed, and whether it never does.
    ghost state: { Self → SourceState };

    /// Takes some of the octets that are left into the front of `into`, and answers how many. Zero for an `into` that isn't empty is the
    /// end. A call that fails takes none. The count of faults rises exactly where it fails.
    fn read(&mut self, into: &mut [u8]) -> Result<usize, Failed>
        ensures count { IfOk result (λ n. n ≤ length into.old) }
        ensures taken { IfOk result (λ n. Reads (state self.old).left (state self.new).left n into.new) }
        ensures end { result ≡ Ok 0 → 0 < length into.old → IfSome (state self.old).left (λ octets. octets ≡ []) }
        ensures kept { OnErr result ((state self.new).left ≡ (state self.old).left) }
        ensures later { (state self.old).faults ≤ (state self.new).faults }
        ensures failed { IsErr result → HasRisen (state self.old).faults (state self.new).faults }
        ensures no_fault { OnOk result (Stays (state self.old).faults (state self.new).faults) }
        ensures reliable { (state self.old).never_fails → (state self.new).never_fails ×
            Stays (state self.old).faults (state self.new).faults };
}
