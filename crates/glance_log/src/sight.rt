//! A publication that was seen.

ghost use Rattle.std.specs.Prelude.{◌≡◌, true, IfSome};
ghost use Rattle.glance_log.specs.Rules.{log_head};
ghost use Rattle.glance_log.specs.Sightings.{IsFollowedBy, MayFollow, sighting};

use crate::publication::{Adds, LogRule, Nothing, Publication};
use crate::tells::{Tells, Told};
use logbook::{Offer, Seen, Word};
use std::marker::Model;

/// No publication has a number above this one.
const LAST_NUMBER: u64 = 1 << 62;

/// A publication that was seen, by its number. Its lists stand in contracts alone.
#[derive(Drop)]
pub struct Sight<X> {
    pub(crate) number: u64,
    pub(crate) seen: Seen<Publication<X>, u64, LogRule>,
}

impl<X> Model for Sight<X> {
    ghost use Rattle.glance_log.specs.Sightings.{Sighting, sighting_of};
    ghost use Rattle.glance_log.specs.Rules.{IsSight};

    ghost Value = { Sighting X };

    ghost view = { λ s. sighting_of s.seen.book s.seen.log };

    ghost invariant = { λ s. IsSight s.number s.seen.log };
}

impl<X> Sight<X> {
    /// The same publication once more.
    pub fn again(&self) -> Sight<X>
        ensures { result ≡ self.now }
    {
        Sight {
            number: self.number,
            seen: self.seen.again(),
        }
    }

    /// Whether another publication of the same log is this one or one behind it.
    pub fn is_followed_by(&self, other: &Sight<X>) -> bool
        requires { other.now.book ≡ self.now.book }
        ensures { result ≡ true → IsFollowedBy self.now other.now }
    {
        let mut both = self.seen.again();
        both.learn(&other.seen);
        self.number <= other.number
    }

    /// Adds a publication behind this one. None where this isn't the last of the log, or no number is left.
    pub(crate) fn next<A, M: Tells<A, X>>(
        &self,
        head: &Word<Publication<X>, u64, LogRule>,
        about: &A,
    ) -> Option<Sight<X>>
        requires head { head.now ≡ log_head self.now.book }
        requires may { MayFollow self.now (M.publication about.now) }
        ensures { IfSome result (λ s. s ≡ sighting self.now.book (M.publication about.now)) }
    {
        let number = self.number;
        if number >= LAST_NUMBER {
            return None;
        }
        let mut seen = self.seen.again();
        let mut offer: Offer<Publication<X>, u64, LogRule, Nothing> = seen.plain::<
            Nothing,
            A,
            Told<M>,
        >(about);
        let mut pen = seen.no_pen();
        let found = head.compare_exchange::<Adds, Nothing>(
            number,
            number + 1,
            &mut seen,
            &mut offer,
            &mut pen,
        );
        if found == number {
            Some(Sight {
                number: number + 1,
                seen,
            })
        } else {
            None
        }
    }
}
