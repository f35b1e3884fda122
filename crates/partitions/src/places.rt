//! The places of a partition's rows, one after the other.

ghost use Rattle.std.specs.Prelude.{◌≡◌, [], length};
ghost use Rattle.std.specs.Iterator.{at_most};
ghost use Rattle.std.specs.Map.Iter.{TakesFirst};
ghost use Rattle.partitions.specs.Links.{places_up_to, AreAt};

use crate::links::Link;
use std::marker::Model;

/// The places that are left of the rows noted in one partition, the last first. A place is how many rows were noted
/// before.
#[derive(Drop)]
pub struct Places<'a> {
    links: &'a [Link],
    /// The next place, if one is left.
    next: Option<u32>,
}

impl<'a> Model for Places<'a> {
    ghost use Rattle.std.specs.Prelude.{List, ℕ};
    ghost use Rattle.partitions.specs.Links.{places_up_to, AreAt};

    ghost Value = { List ℕ };

    ghost view = { λ p. places_up_to p.links.now p.next };

    ghost invariant = { λ p. AreAt p.links.now p.next };
}

impl<'a> Places<'a> {
    /// No place.
    pub(crate) fn none() -> Self
        ensures { result ≡ [] }
    {
        Places {
            links: &[],
            next: None,
        }
    }

    /// A place, if there is one, and those before it of its partition.
    pub(crate) fn new(links: &'a [Link], next: Option<u32>) -> Self
        requires { AreAt links.now next }
        ensures { result ≡ places_up_to links.now next }
    {
        Places { links, next }
    }
}

impl<'a> Iterator for Places<'a> {
    type Item = usize;

    ghost next_gives = { TakesFirst (λ place. place) };

    ghost remaining = { λ s. at_most (length s) };

    fn next(&mut self) -> Option<usize> {
        next_place(self.links, &mut self.next)
    }
}

/// The next place. Its link leads to the one after it.
fn next_place(links: &[Link], next: &mut Option<u32>) -> Option<usize>
    requires { AreAt links.now next.old }
    ensures at { AreAt links.now next.new }
    ensures taken { TakesFirst (λ place. place) (places_up_to links.now next.old) result
        (places_up_to links.now next.new) }
{
    let place = (*next)? as usize;
    *next = links[place].earlier();
    Some(place)
}
