//! Who publishes.

ghost use Rattle.std.specs.Prelude.{◌≡◌, IfNone, IfSome};
ghost use Rattle.glance_log.specs.Sightings.{MayFollow, sighting};

use crate::publication::{LogRule, Publication};
use crate::sight::Sight;
use crate::tells::{Tells, Told};
use logbook::{Seen, Start, Word};
use std::marker::Model;

/// The one who publishes. Contracts see in it the last publication of its log.
#[derive(Drop)]
pub struct Publisher<X> {
    head: Word<Publication<X>, u64, LogRule>,
    last: Sight<X>,
}

impl<X> Model for Publisher<X> {
    ghost use Rattle.std.specs.Prelude.{◌≡◌};
    ghost use Rattle.glance_log.specs.Rules.{log_head};
    ghost use Rattle.glance_log.specs.Sightings.{Sighting};

    ghost Value = { Sighting X };

    ghost view = { λ p. p.last };

    ghost invariant = { λ p. p.head ≡ log_head p.last.book };
}

impl<X> Publisher<X> {
    /// Opens a log, with what a value tells as its first publication.
    pub fn open<A, M: Tells<A, X>>(about: &A) -> Publisher<X>
        ensures { result ≡ sighting result.book (M.publication about.now) }
    {
        let (seen, mut pens) = Seen::open_row::<A, Told<M>>(about, Start::alone(), 1);
        let mut pen = pens.take();
        Publisher {
            head: Word::tracked(0, &mut pen),
            last: Sight { number: 0, seen },
        }
    }

    /// The last publication.
    pub fn last(&self) -> Sight<X>
        ensures { result ≡ self.now }
    {
        self.last.again()
    }

    /// Publishes what a value tells, which has to go on from the last publication. None where the log has as many as it
    /// can have.
    pub fn publish<A, M: Tells<A, X>>(&mut self, about: &A) -> Option<Sight<X>>
        requires { MayFollow self.old (M.publication about.now) }
        ensures published { IfSome result (λ s. s ≡ sighting self.old.book (M.publication about.now)) }
        ensures last { IfSome result (λ s. self.new ≡ s) }
        ensures none { IfNone result (self.new ≡ self.old) }
    {
        let next = self.last.next::<A, M>(&self.head, about)?;
        self.last = next.again();
        Some(next)
    }
}
