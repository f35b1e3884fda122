//! The rule of the cell, and its kinds of step, each with what it tells whoever takes it.

ghost use Rattle.turn_cell.specs.Turn.{Kept, first_view, kept_view, given_view, both_views, spent_view, Drawn, Looked, FrontFound, Wrote, Passed, Settled, FrontRead};

use crate::growing::Growing;
use crate::view::View;
use atomic_table::{Join, Play, Split, TableRule};
use std::snapshot::Snapshot;

/// The rule.
pub struct Turns;

impl<T: Growing> TableRule<Option<T>, View<T::Item, T::Fill, T>, Snapshot<T>> for Turns {
    ghost holds = { λ key. Kept T.history T.fills T.goes_on key.value };

    ghost first = { λ key. first_view T.history T.fills key.value };
}

/// Takes the next ticket.
pub struct Draw;

impl<T: Growing> Play<Option<T>, View<T::Item, T::Fill, T>> for Draw {
    ghost then = { Drawn };
}

/// Looks which ticket is served. Whoever finds its own there has the turn, and the slot.
pub struct Look;

impl<T: Growing> Play<Option<T>, View<T::Item, T::Fill, T>> for Look {
    ghost then = { Looked T.history T.fills T.goes_on };
}

/// Finds how long all know the history to be. Where it is as long, nothing has to be told.
pub struct FindFront;

impl<T: Growing> Play<Option<T>, View<T::Item, T::Fill, T>> for FindFront {
    ghost then = { FrontFound T.history T.fills };
}

/// Tells all how long the history is.
pub struct WriteFront;

impl<T: Growing> Play<Option<T>, View<T::Item, T::Fill, T>> for WriteFront {
    ghost then = { Wrote T.history T.fills };
}

/// Serves the next ticket, and gives the slot back.
pub struct PassOn;

impl<T: Growing> Play<Option<T>, View<T::Item, T::Fill, T>> for PassOn {
    ghost then = { Passed };
}

/// Reads how long the history is.
pub struct ReadFront;

impl<T: Growing> Play<Option<T>, View<T::Item, T::Fill, T>> for ReadFront {
    ghost then = { FrontRead };
}

/// Halves a share.
pub struct Halve;

impl<I, F, T> Split<View<I, F, T>> for Halve {
    ghost left = { kept_view };

    ghost right = { given_view };
}

/// Puts two passes together.
pub struct Unite;

impl<I, F, T> Join<View<I, F, T>> for Unite {
    ghost both = { both_views };

    ghost spent = { spent_view };
}

/// Looks once more after a join, since a join itself tells nothing of the rule.
pub struct Settle;

impl<T: Growing> Play<Option<T>, View<T::Item, T::Fill, T>> for Settle {
    ghost then = { Settled };
}
