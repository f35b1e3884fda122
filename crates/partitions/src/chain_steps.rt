//! The steps along the chains of some partitions.

ghost use Rattle.std.specs.Prelude.{◌≡◌, ◌+◌, true, false};
ghost use Rattle.partitions.specs.Places.{chain_steps};

use crate::partition::Partition;
use crate::partitions::Partitions;
use crate::places::Places;
use std::marker::Model;

/// How many steps are left along the chains of some partitions, one for each of them and one for each of their rows. They are
/// counted only as far as they are taken.
#[derive(Drop)]
pub struct ChainSteps<'a> {
    partitions: &'a Partitions,
    /// The partitions that are left.
    parts: &'a [Partition],
    /// What is left of the chain of the one before them.
    places: Places<'a>,
}

impl<'a> Model for ChainSteps<'a> {
    ghost use Rattle.std.specs.Prelude.{ℕ, ◌+◌, length};
    ghost use Rattle.partitions.specs.Places.{chain_steps};

    ghost Value = { ℕ };

    ghost view = { λ s. length s.places + chain_steps s.parts.now s.partitions.now.noted };
}

impl<'a> ChainSteps<'a> {
    /// Takes a step. Tells whether one was left.
    pub fn take_one(&mut self) -> bool
        ensures taken { result ≡ true → self.old ≡ self.new + 1 }
        ensures none { result ≡ false → self.old ≡ 0 }
    {
        if self.places.next().is_some() {
            return true;
        }
        let parts = self.parts;
        let Some((partition, rest)) = parts.split_first() else {
            return false;
        };
        self.places = self.partitions.places_of(*partition);
        self.parts = rest;
        true
    }
}

impl Partitions {
    /// The steps along the chains of some partitions.
    pub fn steps_of<'a>(&'a self, parts: &'a [Partition]) -> ChainSteps<'a>
        ensures { result ≡ chain_steps parts.now self.now.noted }
    {
        ChainSteps {
            partitions: self,
            parts,
            places: Places::none(),
        }
    }
}
