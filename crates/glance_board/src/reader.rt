//! Who looks at the board.

ghost use Rattle.std.specs.Prelude.{◌≡◌, [], ◌∷◌, IfNone, IfSome, OnErr, OnOk};
ghost use Rattle.left_right.specs.Sides.{view};
ghost use Rattle.glance_log.specs.Sightings.{IsFollowedBy};
ghost use Rattle.glance_board.specs.Rules.{HasSeen, Moves};

use crate::archived::Archived;
use crate::listing::Listing;
use crate::rule::{Following, Sees, Watched};
use glance_log::Sight;
use left_right::reader::Reader;
use std::alloc::AllocError;
use std::marker::Model;

pub(crate) type Seat<X> = Reader<Listing<X>, Watched<X>, Following>;

/// A reader of the board. Contracts see in it the last publication that it has seen.
#[derive(Drop)]
pub struct BoardReader<X: Archived> {
    /// It is there but while the board is looked at.
    seat: Option<Seat<X>>,
    sight: Sight<X>,
}

impl<X: Archived> Model for BoardReader<X> {
    ghost use Rattle.std.specs.Prelude.{IfSome};
    ghost use Rattle.glance_log.specs.Sightings.{Sighting};
    ghost use Rattle.glance_board.specs.Rules.{HasSeen};

    ghost Value = { Sighting X };

    ghost view = { λ r. r.sight };

    ghost invariant = { λ r. IfSome r.seat (λ seat. HasSeen seat.place.me.0.client r.sight) };
}

/// The listing that is shown. None where the board is gone, or for want of memory.
fn listing_at<X: Archived>(seat: Seat<X>) -> (Seat<X>, Option<Listing<X>>)
    ensures moved { Moves (view seat.place) (view result.0.place) }
    ensures there { IfSome result.1 (λ l. (view result.0.place).seen ≡ l ∷ []) }
{
    match seat.enter_as::<Sees>() {
        Ok(reading) => {
            let copy = reading.get().copy();
            (reading.leave(), copy.ok())
        }
        Err(seat) => (seat, None),
    }
}

impl<X: Archived> BoardReader<X> {
    /// A reader that has seen a publication.
    pub(crate) fn of(seat: Seat<X>, sight: Sight<X>) -> BoardReader<X>
        requires { HasSeen (view seat.place) sight }
        ensures { result ≡ sight }
    {
        BoardReader {
            seat: Some(seat),
            sight,
        }
    }

    /// The listing that is shown, which has been seen from then on. None where the board is gone, or for want of memory.
    /// It waits for nobody.
    pub fn look(&mut self) -> Option<Listing<X>>
        ensures seen { IfSome result (λ l. self.new ≡ l) }
        ensures later { IsFollowedBy self.old self.new }
        ensures none { IfNone result (self.new ≡ self.old) }
    {
        let seat = self.seat.take()?;
        let (seat, found) = listing_at(seat);
        self.seat = Some(seat);
        let listing = found?;
        self.sight = listing.sight();
        Some(listing)
    }

    /// What it has seen last.
    pub fn sight(&self) -> Sight<X>
        ensures { result ≡ self.now }
    {
        self.sight.again()
    }

    /// From then on what it has seen isn't behind a publication of the same log. Refused where the board is gone, or
    /// for want of memory. It waits for nobody.
    pub fn learn(&mut self, note: &Sight<X>) -> Result<(), AllocError>
        requires { note.now.book ≡ self.old.book }
        ensures learned { OnOk result (IsFollowedBy note.now self.new) }
        ensures later { IsFollowedBy self.old self.new }
        ensures refused { OnErr result (self.new ≡ self.old) }
    {
        let before = self.sight.again();
        if self.look().is_none() {
            return Err(AllocError);
        }
        if !note.is_followed_by(&self.sight) {
            self.sight = before;
            return Err(AllocError);
        }
        Ok(())
    }
}
