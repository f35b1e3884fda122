//! Distinct names, found by their hashes.

ghost use Rattle.std.specs.Prelude.{◌≡◌, ◌∷◌, ◌++◌, [], OnOk, OnErr, None};
ghost use Rattle.mdb_items.specs.Texts.{place_of};

use indexmap::IndexSet;
use std::alloc::{AllocError, Global};
use std::marker::Model;

/// Distinct names, numbered in the order in which they were first seen, by a hash that doesn't outlive the sheets (D-67).
#[derive(Drop)]
pub struct NameIndex {
    set: IndexSet<Vec<u8>>,
}

impl Model for NameIndex {
    ghost use Rattle.std.specs.Prelude.{List, ℕ, map};

    ghost Value = { List (List ℕ) };

    ghost view = { λ a. map (λ k. k.items) a.set.keys };
}

impl NameIndex {
    pub fn new(alloc: Global) -> NameIndex
        ensures { result ≡ [] }
    {
        NameIndex {
            set: IndexSet::new(alloc),
        }
    }

    /// The number of a name.
    pub fn number(&self, name: &[u8]) -> Option<usize>
        ensures { result ≡ place_of name.now self.now }
    {
        self.set.get_index_of(name)
    }

    /// Adds a name that is not there. It goes last. Where there's no memory the names stay as they were.
    pub fn add(&mut self, name: Vec<u8>) -> Result<(), AllocError>
        requires { place_of name.items self.old ≡ None }
        ensures added { OnOk result (self.new ≡ self.old ++ name.items ∷ []) }
        ensures kept { OnErr result (self.new ≡ self.old) }
    {
        self.set.insert(name)?;
        Ok(())
    }
}
