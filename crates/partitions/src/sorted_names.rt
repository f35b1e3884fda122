//! Packet names in the order of their numbers.

ghost use Rattle.std.specs.Prelude.{◌≡◌, ◌+◌, ℕ, IfOk, nat_eq};
ghost use Rattle.std.specs.List.{list_any};
ghost use Rattle.std.specs.List.Sorted.{IsNonDecreasing};
ghost use Rattle.partitions.specs.SortedNames.{IsLeastFrom};

use std::alloc::{AllocError, Global};
use std::marker::Model;

/// Numbers of packet names, in rising order.
#[derive(Drop)]
pub(crate) struct SortedNames {
    items: Vec<u16>,
}

impl Model for SortedNames {
    ghost use Rattle.std.specs.Prelude.{List, ℕ};
    ghost use Rattle.std.specs.List.Sorted.{IsNonDecreasing};

    ghost Value = { List ℕ };

    ghost view = { λ n. n.items.items };

    ghost invariant = { λ n. IsNonDecreasing n.items.items };
}

impl SortedNames {
    /// The same names in their order. The one error is want of memory.
    pub(crate) fn of(alloc: Global, names: &[u16]) -> Result<Self, AllocError>
        ensures { IfOk result (λ sorted. (p : ℕ) → list_any (nat_eq p) sorted ≡ list_any (nat_eq p) names.now) }
    {
        let mut items = Vec::from_slice(alloc, names)?;
        items.sort_unstable();
        Ok(SortedNames { items })
    }

    /// The least of the names that is not below this number.
    pub(crate) fn first_from(&self, pname: u16) -> Option<u16>
        ensures { IsLeastFrom (λ p. list_any (nat_eq p) self.now) pname result }
    {
        match self.items.binary_search(&pname) {
            Ok(_) => Some(pname),
            Err(at) => self.items.get(at).copied(),
        }
    }

    /// The least of the names that is above this number.
    pub(crate) fn first_after(&self, pname: u16) -> Option<u16>
        ensures { IsLeastFrom (λ p. list_any (nat_eq p) self.now) (pname + 1) result }
    {
        first_above(self.items.as_slice(), pname)
    }
}

/// The first item above a number.
fn first_above(items: &[u16], pname: u16) -> Option<u16>
    requires { IsNonDecreasing items.now }
    ensures { IsLeastFrom (λ p. list_any (nat_eq p) items.now) (pname + 1) result }
{
    let at = items.partition_point(|item| *item <= pname);
    items.get(at).copied()
}
