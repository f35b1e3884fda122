//! The containers directly below each container.

ghost use Rattle.std.specs.Prelude.{◌≡◌, ◌<◌, ◌≤◌, ◌++◌, ℕ, List, length, slice_get, Some, OnOk, IfOk};
ghost use Rattle.mdb_lookups.specs.Children.{AreChildren, if_parent};
ghost use Rattle.mdb_items.specs.Paths.{AreEarlier};

use item_list::items::Items;
use mdb_items::container::Container;
use std::alloc::{AllocError, Global};

/// Puts a container behind the children of its parent.
fn adopt(
    children: &mut Vec<Items<u16>>,
    parent: Option<usize>,
    number: u16,
) -> Result<(), AllocError>
    requires { (p : ℕ) → parent ≡ Some p → p < length children.old.items }
    ensures count { OnOk result (length children.new.items ≡ length children.old.items) }
    ensures each { OnOk result ((n : ℕ) (xs : List ℕ) → slice_get children.old.items n ≡ Some xs →
        slice_get children.new.items n ≡ Some (xs ++ if_parent n parent number)) }
{
    match parent {
        None => Ok(()),
        Some(parent) => children[parent].push(number),
    }
}

/// For each container the numbers of those directly below it, in the order of the sheet.
pub(crate) fn children_of(
    alloc: Global,
    containers: &[Container],
) -> Result<Vec<Items<u16>>, AllocError>
    requires few { length containers.now ≤ 4096 }
    requires earlier { AreEarlier containers.now }
    ensures { IfOk result (λ lists. AreChildren containers.now lists.items) }
{
    let mut children = Vec::new(alloc);
    for (i, container) in containers.iter().enumerate() {
        children.push(Items::new(alloc))?;
        adopt(&mut children, container.parent, i as u16)?;
    }
    Ok(children)
}
