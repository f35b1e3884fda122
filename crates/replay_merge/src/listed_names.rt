//! Packet names that are looked up.

ghost use Rattle.std.specs.Prelude.{◌≡◌, ℕ, nat_eq};
ghost use Rattle.std.specs.List.{list_any};
ghost use Rattle.replay_merge.specs.Replay.{is_listed_name};

use partitions::lists::PnameList;
use std::marker::Model;

/// Numbers of packet names, in rising order.
#[derive(Drop)]
pub(crate) struct ListedNames {
    items: Vec<u16>,
}

impl Model for ListedNames {
    ghost use Rattle.std.specs.Prelude.{List, ℕ};
    ghost use Rattle.std.specs.List.Sorted.{IsNonDecreasing};

    ghost Value = { List ℕ };

    ghost view = { λ n. n.items.items };

    ghost invariant = { λ n. IsNonDecreasing n.items.items };
}

impl ListedNames {
    /// The same names, put in order where they stand: no memory is taken.
    pub(crate) fn of(names: PnameList) -> Self
        ensures { (pname : ℕ) → list_any (nat_eq pname) result ≡ list_any (nat_eq pname) names }
    {
        let mut items = names.into_vec();
        items.sort_unstable();
        ListedNames { items }
    }

    /// Whether a packet name is one of them.
    pub(crate) fn has(&self, pname: u16) -> bool
        ensures { result ≡ list_any (nat_eq pname) self.now }
    {
        self.items.binary_search(&pname).is_ok()
    }
}

/// The same names, if there is a list. Takes no memory.
pub(crate) fn sorted_names(names: Option<PnameList>) -> Option<ListedNames>
    ensures { (pname : ℕ) → is_listed_name result pname ≡ is_listed_name names pname }
{
    match names {
        Some(names) => Some(ListedNames::of(names)),
        None => None,
    }
}
