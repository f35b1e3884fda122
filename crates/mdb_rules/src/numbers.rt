//! Distinct numbers, found by their order.

ghost use Rattle.std.specs.Prelude.{◌≡◌, ◌∷◌, ◌++◌, [], OnOk, OnErr, false};
ghost use Rattle.mdb_items.specs.Numbers.{has_number};

use std::alloc::{AllocError, Global};
use std::collections::BTreeSet;
use std::marker::Model;
use std::snapshot::Snapshot;

/// Distinct numbers in the order in which they were first seen. A tree finds them: who writes a sheet picks its numbers,
/// and could make a hash of them slow.
#[derive(Drop)]
pub struct Numbers {
    tree: BTreeSet<i128>,
    /// The numbers as they came, for contracts alone: a snapshot takes no memory.
    order: Vec<Snapshot<i128>>,
}

impl Model for Numbers {
    ghost use Rattle.std.specs.Prelude.{List, ℤ};
    ghost use Rattle.mdb_rules.specs.NotedNumbers.{HaveSameNumbers, noted_numbers};

    ghost Value = { List ℤ };

    ghost view = { λ n. noted_numbers n.order.items };

    ghost invariant = { λ n. HaveSameNumbers n.tree.keys (noted_numbers n.order.items) };
}

impl Numbers {
    pub fn new(alloc: Global) -> Numbers
        ensures { result ≡ [] }
    {
        Numbers {
            tree: BTreeSet::new(alloc),
            order: Vec::new(alloc),
        }
    }

    pub fn contains(&self, number: i128) -> bool
        ensures { result ≡ has_number number self.now }
    {
        self.tree.contains(&number)
    }

    /// Adds a number that is not there. It goes last. Where there's no memory the numbers stay as they were.
    pub fn add(&mut self, number: i128) -> Result<(), AllocError>
        requires { has_number number self.old ≡ false }
        ensures added { OnOk result (self.new ≡ self.old ++ number ∷ []) }
        ensures kept { OnErr result (self.new ≡ self.old) }
    {
        self.order.reserve(1)?;
        self.tree.insert(number)?;
        self.order.push_reserved(Snapshot::of(&number));
        Ok(())
    }
}
