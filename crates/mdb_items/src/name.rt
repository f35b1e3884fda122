//! Texts of names and labels, which contracts see as their octets.

ghost use Rattle.std.specs.Prelude.{◌≡◌, OnOk, IfOk};

use std::alloc::{AllocError, Global};
use std::marker::Model;

/// The octets of a name or a label.
#[derive(Drop)]
pub struct MdbName {
    octets: Vec<u8>,
}

impl Model for MdbName {
    ghost use Rattle.std.specs.Prelude.{List, ℕ};

    ghost Value = { List ℕ };

    ghost view = { λ a. a.octets.items };
}

impl MdbName {
    /// A copy of octets.
    pub fn from_slice(alloc: Global, octets: &[u8]) -> Result<MdbName, AllocError>
        ensures { IfOk result (λ name. name ≡ octets.now) }
    {
        Ok(MdbName {
            octets: Vec::from_slice(alloc, octets)?,
        })
    }

    /// Takes a vector over.
    pub fn from_vec(octets: Vec<u8>) -> MdbName
        ensures { result ≡ octets.items }
    {
        MdbName { octets }
    }

    pub fn as_bytes(&self) -> &[u8]
        ensures { result.now ≡ self.now }
    {
        self.octets.as_slice()
    }
}
