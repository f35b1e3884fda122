//! Who publishes, and the board on which it stands.

ghost use Rattle.std.specs.Prelude.{◌≡◌, ◌<◌, ◌^◌, ◌++◌, [], ◌∷◌, IfOk, MatchResult, OnErr, OnOk, Some, drop};
ghost use Rattle.std.specs.Option.{option_to_list};
ghost use Rattle.left_right.specs.Sides.{view};
ghost use Rattle.glance_log.specs.Sightings.{IsFollowedBy, MayFollow, sighting};
ghost use Rattle.glance_board.specs.Listings.{IsListing};

use crate::archived::Archived;
use crate::contents::Contents;
use crate::listing::Listing;
use crate::reader::BoardReader;
use crate::rule::{Copies, Following, Informs, Sees, Watched};
use glance_log::{Publisher, Sight, Tells};
use left_right::Absorb;
use left_right::writer::Writer;
use std::alloc::{AllocError, Global};
use std::marker::Model;
use std::sync::{Arc, Wait};

type Board<X> = Writer<Listing<X>, Listing<X>, Watched<X>, Following>;

/// What was published of an archive, and the board on which readers see it.
///
/// A field of a generic struct finds the impl of `Absorb` by a bound alone. The bound stands on the struct and its model and
/// nowhere else: where both fit it is the bound that counts, of which nothing is known.
pub struct Shelf<X: Archived>
where
    Listing<X>: Absorb<Listing<X>, State = Sight<X>>,
{
    publisher: Publisher<X>,
    /// What was made last.
    made: Listing<X>,
    board: Board<X>,
    /// The same, where the board doesn't have it yet.
    waiting: Option<Listing<X>>,
}

impl<X: Archived> Model for Shelf<X>
where
    Listing<X>: Absorb<Listing<X>, State = Sight<X>>,
{
    ghost use Rattle.std.specs.Prelude.{◌≡◌, drop};
    ghost use Rattle.glance_board.specs.Shelves.{IsShelf, ShelfView, shelf_view};

    ghost Value = { ShelfView X };

    ghost view = { λ s. shelf_view s.board.desk.shown.value s.publisher };

    ghost invariant = { λ s. IsShelf s.board.desk.place.me.0.client s.board.desk.shown.value
        (drop s.board.behind s.board.log.items) s.waiting s.publisher × (s.made ≡ s.publisher) };
}

/// Hands what waits to the board. It comes back where there is no memory.
fn append_waiting<X: Archived>(
    board: &mut Board<X>,
    waiting: Option<Listing<X>>,
) -> Result<(), Listing<X>>
    ensures desk { board.new.desk ≡ board.old.desk }
    ensures pending { MatchResult result
        (λ _. drop board.new.behind board.new.log.items ≡ drop board.old.behind board.old.log.items ++ option_to_list waiting)
        (λ back. (waiting ≡ Some back) ×
        (drop board.new.behind board.new.log.items ≡ drop board.old.behind board.old.log.items)) }
{
    match waiting {
        Some(listing) => board.append(listing),
        None => Ok(()),
    }
}

/// A board for so many readers at once, which shows a listing.
fn board_of<X: Archived, R: Wait>(
    rt: &R,
    alloc: Global,
    first: Listing<X>,
    readers: usize,
) -> Result<Board<X>, AllocError>
    requires { (0 < readers) × (readers < 2 ^ 32) }
    ensures shown { IfOk result (λ board. board.desk.shown.value ≡ first) }
    ensures seen { IfOk result (λ board. (view board.desk.place).seen ≡ first ∷ []) }
    ensures pending { IfOk result (λ board. drop board.behind board.log.items ≡ []) }
{
    let second = first.copy()?;
    let board: Board<X> = Writer::new(alloc, first, second, readers)?;
    // The writer sees what is shown, so that a reader can be told of it.
    let (board, shown) = board.publish_as::<Sees, R>(rt);
    match shown {
        Ok(()) => Ok(board),
        Err(error) => {
            drop(board.take(rt));
            Err(error)
        }
    }
}

impl<X: Archived> Shelf<X> {
    /// A shelf for so many readers at once, on which the last publication of a log is shown, with its contents.
    pub fn new<R: Wait>(
        rt: &R,
        alloc: Global,
        publisher: Publisher<X>,
        contents: Contents,
        readers: usize,
    ) -> Result<Shelf<X>, AllocError>
        requires readers { (0 < readers) × (readers < 2 ^ 32) }
        requires listing { IsListing X.stays publisher contents }
        ensures made { IfOk result (λ shelf. shelf.made ≡ publisher) }
        ensures shown { IfOk result (λ shelf. shelf.shown ≡ publisher) }
    {
        let contents = Arc::new(alloc, contents)?;
        let made = Listing::new(publisher.last(), contents);
        let board = board_of(rt, alloc, made.copy()?, readers)?;
        Ok(Shelf {
            publisher,
            made,
            board,
            waiting: None,
        })
    }

    /// A reader that has seen what is shown. Refused for want of memory, or where there are as many readers as may be.
    pub fn reader(&mut self) -> Result<BoardReader<X>, AllocError>
        ensures shown { IfOk result (λ reader. reader ≡ self.old.shown) }
        ensures same { self.new ≡ self.old }
    {
        let mut seat = self.board.factory().reader()?;
        seat.learn::<Informs>(self.board.tell::<Copies>());
        Ok(BoardReader::of(seat, self.board.published().sight()))
    }

    /// Makes a publication of what a value tells, which waits until `show` has found memory. Refused for want of memory,
    /// nothing is made.
    pub fn make<A, M: Tells<A, X>>(
        &mut self,
        alloc: Global,
        about: &A,
        contents: Contents,
    ) -> Result<(), AllocError>
        requires follows { MayFollow self.old.made (M.publication about.now) }
        requires listing { IsListing X.stays (sighting self.old.made.book (M.publication about.now)) contents }
        ensures made { OnOk result (self.new.made ≡ sighting self.old.made.book (M.publication about.now)) }
        ensures shown { self.new.shown ≡ self.old.shown }
        ensures refused { OnErr result (self.new ≡ self.old) }
    {
        let contents = Arc::new(alloc, contents)?;
        let shared = Arc::try_clone(&contents)?;
        let Some(sight) = self.publisher.publish::<A, M>(about) else {
            return Err(AllocError);
        };
        self.made = Listing::new(sight.again(), shared);
        self.waiting = Some(Listing::new(sight, contents));
        Ok(())
    }

    /// Shows what was made last. The one error is want of memory.
    pub fn show<R: Wait>(self, rt: &R) -> (Shelf<X>, Result<(), AllocError>)
        ensures shown { OnOk result.1 (result.0.shown ≡ result.0.made) }
        ensures made { result.0.made ≡ self.made }
        ensures later { IsFollowedBy self.shown result.0.shown }
    {
        let Shelf {
            publisher,
            made,
            mut board,
            waiting,
        } = self;
        match append_waiting(&mut board, waiting) {
            Ok(()) => {
                let (board, shown) = board.publish_as::<Sees, R>(rt);
                let shelf = Shelf {
                    publisher,
                    made,
                    board,
                    waiting: None,
                };
                (shelf, shown)
            }
            Err(listing) => {
                let shelf = Shelf {
                    publisher,
                    made,
                    board,
                    waiting: Some(listing),
                };
                (shelf, Err(AllocError))
            }
        }
    }

    /// What was made last.
    pub fn last(&self) -> Sight<X>
        ensures { result ≡ self.now.made }
    {
        self.publisher.last()
    }

    /// What was made last, with its contents.
    pub fn made(&self) -> &Listing<X>
        ensures { result.now ≡ self.now.made }
    {
        &self.made
    }

    /// Takes what is shown away from the readers, and waits until none reads.
    pub fn close<R: Wait>(self, rt: &R) {
        let Shelf {
            publisher: _publisher,
            made: _made,
            board,
            waiting: _waiting,
        } = self;
        drop(board.take(rt));
    }
}
