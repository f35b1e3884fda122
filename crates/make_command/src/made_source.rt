//! A dump in memory, as a source.

ghost use Rattle.std.specs.Prelude.{◌≡◌};

use arch_types::octets::Octets;
use outer_traits::fault::Failed;
use outer_traits::source::Source;
use std::marker::Model;

/// The octets of a dump that was made. No read of it fails.
#[derive(Drop)]
pub(crate) struct MadeSource {
    octets: Octets,
    /// Where the octets begin that are left.
    at: usize,
}

impl Model for MadeSource {
    ghost use Rattle.std.specs.Prelude.{List, ℕ, ◌≤◌, drop, length};

    ghost Value = { List ℕ };

    ghost view = { λ s. drop s.at s.octets };

    ghost invariant = { λ s. s.at ≤ length s.octets };
}

impl MadeSource {
    /// A source of which nothing was read.
    pub(crate) fn new(octets: Octets) -> Self
        ensures { result ≡ octets }
    {
        MadeSource { octets, at: 0 }
    }
}

impl Source for MadeSource {
    ghost use Rattle.make_command.specs.Made.{octets_state};

    ghost state = { octets_state };

    fn read(&mut self, into: &mut [u8]) -> Result<usize, Failed> {
        let n = into.len().min(self.octets.len() - self.at);
        let (_, left) = self.octets.as_slice().split_at(self.at);
        into[..n].copy_from_slice(&left[..n]);
        self.at += n;
        Ok(n)
    }
}
