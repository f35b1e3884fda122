//! The numbers of named items in the order of their names.

ghost use Rattle.std.specs.Prelude.{◌≡◌, ◌<◌, ◌≤◌, length, map, IfOk, IfSome};
ghost use Rattle.mdb_lookups.specs.NameOrder.{AreNamesSorted, IsCountBelow, IsNameOrder, is_below, name_numbered};
ghost use Rattle.mdb_items.specs.Texts.{place_of};

use mdb_items::container::Container;
use mdb_items::parameter::Parameter;
use std::alloc::{AllocError, Global};

/// An item that has a name.
pub trait Named {
    ghost use Rattle.std.specs.Prelude.{◌≡◌, List, ℕ};

    ghost name_of: { Self → List ℕ };

    /// The octets of the name.
    fn name(&self) -> &[u8]
        ensures { result.now ≡ name_of self.now };
}

impl Named for Parameter {
    ghost name_of = { λ p. p.name };

    fn name(&self) -> &[u8] {
        self.name.as_bytes()
    }
}

impl Named for Container {
    ghost name_of = { λ c. c.name };

    fn name(&self) -> &[u8] {
        self.name.as_bytes()
    }
}

/// The name of the item with a number, without octets where there is none.
fn name_at<T: Named>(items: &[T], number: u16) -> &[u8]
    ensures { result.now ≡ name_numbered (map T.name_of items.now) number }
{
    match items.get(usize::from(number)) {
        Some(item) => item.name(),
        None => &[],
    }
}

/// The names of items, each with the number of its item, in their order.
fn sorted_names<T: Named>(alloc: Global, items: &[T]) -> Result<Vec<(&[u8], u16)>, AllocError>
    requires { length items.now ≤ 4096 }
    ensures { IfOk result (λ named. AreNamesSorted (map T.name_of items.now) (map (λ p. (p.0.now, p.1)) named.items)) }
{
    let mut named = Vec::new(alloc);
    for (number, item) in items.iter().enumerate() {
        named.push((item.name(), number as u16))?;
    }
    named.sort_unstable();
    Ok(named)
}

/// The numbers of items in the order of their names, octet by octet; items of one name stand by their numbers.
pub(crate) fn name_order<T: Named>(alloc: Global, items: &[T]) -> Result<Vec<u16>, AllocError>
    requires { length items.now ≤ 4096 }
    ensures { IfOk result (λ order. IsNameOrder (map T.name_of items.now) order.items) }
{
    let mut order = Vec::new(alloc);
    for (_, number) in &sorted_names(alloc, items)? {
        order.push(*number)?;
    }
    Ok(order)
}

/// The name of the item with a number comes before another.
fn is_below<T: Named>(items: &[T], number: u16, name: &[u8]) -> bool
    ensures { result ≡ is_below (map T.name_of items.now) name.now number }
{
    name_at(items, number).cmp(name).is_lt()
}

/// How many of the numbers have names that come before another.
fn count_below<T: Named>(items: &[T], order: &[u16], name: &[u8]) -> usize
    requires { IsNameOrder (map T.name_of items.now) order.now }
    ensures { IsCountBelow (map T.name_of items.now) order.now name.now result }
{
    let mut low = 0;
    let mut high = order.len();
    while low < high {
        let middle = low + (high - low) / 2;
        if is_below(items, order[middle], name) {
            low = middle + 1;
        } else {
            high = middle;
        }
    }
    low
}

/// The number of the first item that has a name, where there is one, found by halving in the order of the names
/// that `Lookups` has.
pub fn number_of<T: Named>(items: &[T], order: &[u16], name: &[u8]) -> Option<u16>
    requires { IsNameOrder (map T.name_of items.now) order.now }
    ensures value { result ≡ place_of name.now (map T.name_of items.now) }
    ensures within { IfSome result (λ n. n < length items.now) }
{
    let number = *order.get(count_below(items, order, name))?;
    if name_at(items, number) == name {
        Some(number)
    } else {
        None
    }
}
