//! A dump that was split.

ghost use Rattle.std.specs.Prelude.{◌≡◌, OnOk, OnErr, ◌++◌, [], ◌∷◌};

use crate::dump::Why;
use arch_types::octets::Octets;
use std::alloc::{AllocError, Global};
use std::marker::Model;

/// Packets in some order.
#[derive(Debug, Drop)]
pub struct Packets {
    items: Vec<Octets>,
}

impl Model for Packets {
    ghost use Rattle.std.specs.Prelude.{List, ℕ};

    ghost Value = { List (List ℕ) };

    ghost view = { λ p. p.items.items };
}

impl Packets {
    /// No packet.
    pub fn new(alloc: Global) -> Self
        ensures { result ≡ [] }
    {
        Packets {
            items: Vec::new(alloc),
        }
    }

    pub fn as_slice(&self) -> &[Octets]
        ensures { result.now ≡ self.now }
    {
        self.items.as_slice()
    }

    /// Adds a packet at the end. Refused, it leaves the list as it was.
    pub fn push(&mut self, packet: Octets) -> Result<(), AllocError>
        ensures ok { OnOk result (self.new ≡ self.old ++ packet ∷ []) }
        ensures err { OnErr result (self.new ≡ self.old) }
    {
        self.items.push(packet)?;
        Ok(())
    }
}

/// The packets of a dump, the octet where its rest begins, and what the rest is.
#[derive(Debug, Drop)]
pub struct Split {
    pub packets: Packets,
    pub at: usize,
    pub why: Why,
}
