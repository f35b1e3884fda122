//! The rule of the board.

use crate::archived::Archived;
use crate::listing::Listing;
use atomic_table::{Join, Split};
use crossbeam_utils::rule::{Outcome, Protocol};
use glance_log::Sight;
use std::collections::LinkedList;

/// What one who looks at the board has seen: nothing, or one publication. No value of it is made.
pub struct Watched<X> {
    pub seen: LinkedList<Sight<X>>,
}

/// What is shown follows all that anybody has seen.
pub struct Following;

impl<X: Archived> Protocol<Listing<X>, Watched<X>> for Following {
    ghost use Rattle.std.specs.Prelude.{[]};
    ghost use Rattle.glance_board.specs.Rules.{Shows};

    ghost holds = { Shows };

    ghost first = { record { seen = [] } };
}

/// What is shown then is seen.
pub struct Sees;

impl<X: Archived> Outcome<Listing<X>, Watched<X>> for Sees {
    ghost use Rattle.glance_board.specs.Rules.{SeesNow};

    ghost then = { SeesNow };
}

/// The view of the writer, for two.
pub(crate) struct Copies;

impl<X> Split<Watched<X>> for Copies {
    ghost left = { λ v. v };

    ghost right = { λ v. v };
}

/// A new reader has seen what it is told.
pub(crate) struct Informs;

impl<X> Join<Watched<X>> for Informs {
    ghost use Rattle.std.specs.Prelude.{[]};

    ghost both = { λ own told. told };

    ghost spent = { record { seen = [] } };
}
