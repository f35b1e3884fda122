//! Distinct lists of parameters, found by their order.

ghost use Rattle.std.specs.Prelude.{◌≡◌, ◌∷◌, ◌++◌, [], nat_eq, OnOk, OnErr, None};
ghost use Rattle.std.specs.List.{position};
ghost use lib.Pointwise.{pointwise};

use std::alloc::{AllocError, Global};
use std::collections::BTreeMap;
use std::marker::Model;
use std::snapshot::Snapshot;

/// Distinct lists of parameters, numbered in the order in which they were first seen. A tree finds them: who writes a
/// sheet, or a set that is read, picks its lists, and could make a hash of them slow.
#[derive(Drop)]
pub struct GroupNumbers {
    tree: BTreeMap<Vec<u16>, usize>,
    /// The lists as they came, for contracts alone: a snapshot takes no memory.
    order: Vec<Snapshot<Vec<u16>>>,
}

impl Model for GroupNumbers {
    ghost use Rattle.std.specs.Prelude.{List, ℕ};
    ghost use Rattle.param_segments.specs.NotedLists.{AreNumbered, noted_lists};

    ghost Value = { List (List ℕ) };

    ghost view = { λ g. noted_lists g.order.items };

    ghost invariant = { λ g. AreNumbered g.tree.entries (noted_lists g.order.items) };
}

impl GroupNumbers {
    /// No list.
    pub fn new(alloc: Global) -> GroupNumbers
        ensures { result ≡ [] }
    {
        GroupNumbers {
            tree: BTreeMap::new(alloc),
            order: Vec::new(alloc),
        }
    }

    /// The number of a list.
    // aside, so that the loop over rows keeps its registers: few rows come here
    #[inline(never)]
    pub fn number(&self, parameters: &[u16]) -> Option<usize>
        ensures { result ≡ position (pointwise nat_eq parameters.now) self.now }
    {
        self.tree.get(parameters).copied()
    }

    /// Adds a list that is not there. It goes last. Where there's no memory the lists stay as they were.
    pub fn add(&mut self, parameters: Vec<u16>) -> Result<(), AllocError>
        requires { position (pointwise nat_eq parameters.items) self.old ≡ None }
        ensures added { OnOk result (self.new ≡ self.old ++ parameters.items ∷ []) }
        ensures kept { OnErr result (self.new ≡ self.old) }
    {
        self.order.reserve(1)?;
        let number = self.order.len();
        let noted = Snapshot::of(&parameters);
        self.tree.insert(parameters, number)?;
        self.order.push_reserved(noted);
        Ok(())
    }
}
