//! Readers, and what they may know of each other.

ghost use Rattle.std.specs.Prelude.{◌≡◌, [], ◌∷◌, ◌++◌, IfErr, IfOk, MatchOption, OnErr, OnOk};
ghost use Rattle.glance_log.specs.Sightings.{IsFollowedBy};
ghost use Rattle.glance.specs.Answers.{IsNowAnswer, IsNowRefusal};

use crate::answering::answered;
use asks::{Answer, Request};
use glance_board::{Archived, BoardReader};
use glance_log::Sight;
use refusals::Refusal;
use std::alloc::{AllocError, Global};
use std::marker::Model;

/// A publication of an archive, which any number of glances may learn.
pub type Note<X> = Sight<X>;

/// A reader. Contracts see in it the publication that it has seen last.
#[derive(Drop)]
pub struct Glance<X: Archived> {
    reader: BoardReader<X>,
}

impl<X: Archived> Model for Glance<X> {
    ghost use Rattle.glance_log.specs.Sightings.{Sighting};

    ghost Value = { Sighting X };

    ghost view = { λ g. g.reader };
}

impl<X: Archived> Glance<X> {
    /// A glance by a reader of the board.
    pub fn of(reader: BoardReader<X>) -> Glance<X>
        ensures { result ≡ reader }
    {
        Glance { reader }
    }

    /// The answer to a request over what is published. It waits for nobody.
    pub fn retrieve_now(&mut self, alloc: Global, request: &Request) -> Result<Answer, Refusal>
        // No interval is late that the range meets, and the cells are those of the history's rows.
        ensures answered { IfOk result (IsNowAnswer X.stays self.new request.now) }

        // UnknownParameter, then BadRange, then the least late interval that the range meets.
        ensures refused { IfErr result (IsNowRefusal X.stays self.new request.now) }
        ensures later { IsFollowedBy self.old self.new }
    {
        match self.reader.look() {
            Some(listing) => answered(alloc, &listing, request),
            None => Err(Refusal::OutOfMemory),
        }
    }

    /// A note of the publication that it has seen last.
    pub fn note(&self) -> Note<X>
        ensures { result ≡ self.now }
    {
        self.reader.sight()
    }

    /// From then on its publication is the note's or a later one. It waits for nobody.
    pub fn learn(&mut self, note: &Note<X>) -> Result<(), AllocError>
        requires { note.now.book ≡ self.old.book }
        ensures learned { OnOk result (IsFollowedBy note.now self.new) }
        ensures later { IsFollowedBy self.old self.new }
        ensures refused { OnErr result (self.new ≡ self.old) }
    {
        self.reader.learn(note)
    }
}

/// The glances of an archive that nobody has taken.
#[derive(Drop)]
pub struct Glances<X: Archived> {
    left: Vec<Glance<X>>,
}

impl<X: Archived> Model for Glances<X> {
    ghost use Rattle.std.specs.Prelude.{List};
    ghost use Rattle.glance_log.specs.Sightings.{Sighting};

    ghost Value = { List (Sighting X) };

    ghost view = { λ g. g.left.items };
}

impl<X: Archived> Glances<X> {
    /// None, to which glances are added.
    pub fn new(alloc: Global) -> Glances<X>
        ensures { result ≡ [] }
    {
        Glances {
            left: Vec::new(alloc),
        }
    }

    /// Adds one. The one error is want of memory.
    pub fn add(&mut self, glance: Glance<X>) -> Result<(), AllocError>
        ensures added { OnOk result (self.new ≡ self.old ++ glance ∷ []) }
        ensures refused { OnErr result (self.new ≡ self.old) }
    {
        self.left.push(glance)?;
        Ok(())
    }

    /// Takes one. None exactly where all have been taken.
    pub fn take(&mut self) -> Option<Glance<X>>
        ensures { MatchOption result
            ((self.old ≡ []) × (self.new ≡ []))
            (λ glance. self.old ≡ self.new ++ glance ∷ []) }
    {
        self.left.pop()
    }
}
