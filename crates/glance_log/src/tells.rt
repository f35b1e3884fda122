//! How a value tells what is published of it.

use crate::publication::Publication;
use logbook::{Opening, Plain};
use std::marker::PhantomData;

/// How a value of `A` tells what is published of it. It is said of contracts' values, and no value is made of it.
pub trait Tells<A, X> {
    ghost use Rattle.glance_log.specs.declared.publication.Publication.{Publication};

    ghost publication: { A → Publication X };
}

/// The publication that a step adds: what a value tells.
pub(crate) struct Told<M> {
    by: PhantomData<M>,
}

impl<A, X, M: Tells<A, X>> Plain<A, Publication<X>, u64> for Told<M> {
    ghost use Rattle.std.specs.Prelude.{None};

    ghost ask = { M.publication };

    ghost state = { λ about. None };
}

impl<A, X, M: Tells<A, X>> Opening<A, Publication<X>> for Told<M> {
    ghost use Rattle.std.specs.Prelude.{[], ◌∷◌};

    ghost log = { λ count about. M.publication about ∷ [] };
}
