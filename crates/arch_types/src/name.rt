//! Names of tables, parameters, calibrations and containers.

ghost use Rattle.std.specs.Prelude.{◌≡◌, ◌↔◌, length, true, IfOk, IsOk, OkIff, ◌≤◌, option_map, Some, None, if◌then◌else◌};
ghost use Rattle.text_forms.specs.Names.{is_name};

use crate::octets::Octets;
use item_list::{Items, TryClone};
use std::alloc::{AllocError, Global};
use std::marker::Model;
use text_forms::is_name;

/// 1 to 64 octets of letters, digits, `_`, `.`, `/` and `-`.
#[derive(Debug, Drop)]
pub struct Name {
    octets: Octets,
}

impl Model for Name {
    ghost use Rattle.std.specs.Prelude.{◌≡◌, List, ℕ, true};
    ghost use Rattle.text_forms.specs.Names.{is_name};

    ghost Value = { List ℕ };

    ghost view = { λ n. n.octets };

    ghost invariant = { λ n. is_name n.octets ≡ true };
}

impl Name {
    /// The name of these octets, or `None` where they are none.
    pub fn of(octets: Octets) -> Option<Name>
        ensures { option_map (λ name. name) result ≡ (if is_name octets then Some octets else None) }
    {
        if is_name(octets.as_slice()) {
            Some(Name { octets })
        } else {
            None
        }
    }

    /// The name of these octets, copied.
    pub fn copy_of(alloc: Global, octets: &[u8]) -> Result<Name, AllocError>
        requires { is_name octets.now ≡ true }
        ensures { IfOk result (λ name. name ≡ octets.now) }
    {
        let octets = Octets::from_slice(alloc, octets)?;
        Ok(Name { octets })
    }

    /// A name is a text.
    pub fn as_str(&self) -> &str
        ensures { result.now ≡ self.now }
    {
        match str::from_utf8(self.octets.as_slice()) {
            Ok(text) => text,
            Err(_) => unreachable!(),
        }
    }

    pub fn as_slice(&self) -> &[u8]
        ensures value { result.now ≡ self.now }
        ensures name { is_name result.now ≡ true }
    {
        self.octets.as_slice()
    }

    /// It is a name. This does nothing but tell a proof so.
    pub fn is_name(&self)
        ensures { is_name self.now ≡ true }
    {
        let _ = &self.octets;
    }

    /// An equal value.
    pub fn copy(&self) -> Result<Self, AllocError>
        ensures { IfOk result (λ copy. copy ≡ self.now) }
    {
        let octets = self.octets.copy()?;
        Ok(Name { octets })
    }
}

impl TryClone for Name {
    fn try_clone(&self) -> Result<Self, AllocError> {
        self.copy()
    }
}

/// Names in some order.
pub type Names = Items<Name>;
