//! What stands on the board.

ghost use Rattle.std.specs.Prelude.{◌≡◌, IfOk};
ghost use Rattle.std.specs.Arc.{arc_value};
ghost use Rattle.glance_board.specs.Listings.{IsListing};

use crate::archived::Archived;
use crate::contents::Contents;
use glance_log::Sight;
use left_right::Absorb;
use std::alloc::{AllocError, Global};
use std::marker::Model;
use std::sync::Arc;

/// A publication with its contents.
#[derive(Drop)]
pub struct Listing<X: Archived> {
    sight: Sight<X>,
    contents: Arc<Contents, Global>,
}

impl<X: Archived> Model for Listing<X> {
    ghost use Rattle.std.specs.Arc.{arc_value};
    ghost use Rattle.glance_log.specs.Sightings.{Sighting};
    ghost use Rattle.glance_board.specs.Listings.{IsListing};

    ghost Value = { Sighting X };

    ghost view = { λ l. l.sight };

    ghost invariant = { λ l. IsListing X.stays l.sight (arc_value l.contents) };
}

impl<X: Archived> Listing<X> {
    /// A publication with its contents.
    pub(crate) fn new(sight: Sight<X>, contents: Arc<Contents, Global>) -> Listing<X>
        requires { IsListing X.stays sight (arc_value contents) }
        ensures { result ≡ sight }
    {
        Listing { sight, contents }
    }

    /// The same once more, which shares the contents. The one error is want of memory.
    pub fn copy(&self) -> Result<Listing<X>, AllocError>
        ensures { IfOk result (λ l. l ≡ self.now) }
    {
        Ok(Listing {
            sight: self.sight.again(),
            contents: Arc::try_clone(&self.contents)?,
        })
    }

    /// The publication.
    pub fn sight(&self) -> Sight<X>
        ensures { result ≡ self.now }
    {
        self.sight.again()
    }

    /// What it holds.
    pub fn contents(&self) -> &Contents
        ensures { IsListing X.stays self.now result.now }
    {
        &self.contents
    }
}

impl<X: Archived> Absorb<Listing<X>> for Listing<X> {
    type State = Sight<X>;

    ghost state = { λ l. l };

    ghost applied = { λ shown next. next };

    fn absorb_first(
        &mut self,
        operation: &Listing<X>,
        _other: &Listing<X>,
    ) -> Result<(), AllocError> {
        *self = operation.copy()?;
        Ok(())
    }
}
