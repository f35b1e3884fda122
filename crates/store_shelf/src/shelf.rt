//! The shelf of a store.

ghost use Rattle.std.specs.Prelude.{◌≡◌, ◌<◌, ◌≤◌, IfOk, OnErr, OnOk, false, true};
ghost use Rattle.glance_log.specs.Sightings.{IsFollowedBy};
ghost use Rattle.store_shelf.specs.Publications.{BeginsStore, made_of, published_of};
ghost use Rattle.store_shelf.specs.Renewing.{CameBy};

use crate::contents::{contents_after, contents_of};
use crate::kept::{Kept, LastOfStore, OfStore};
use arch_disk::Disk;
use archive_store::{Arrival, Store};
use glance_board::{BoardReader, Shelf};
use glance_log::{Publisher, Sight};
use std::alloc::{AllocError, Global};
use std::marker::Model;
use std::sync::Wait;

/// A publication of a store that was seen.
pub type StoreNote<D> = Sight<Kept<D>>;

/// Who looks at what is published of a store.
pub type StoreReader<D> = BoardReader<Kept<D>>;

/// What was published of a store, and the board on which readers see it.
pub struct StoreShelf<D: Disk> {
    shelf: Shelf<Kept<D>>,
    /// The last publication was made.
    closed: bool,
}

impl<D: Disk> Model for StoreShelf<D> {
    ghost use Rattle.std.specs.Prelude.{◌≡◌};
    ghost use Rattle.glance_board.specs.Shelves.{ShelfView};
    ghost use Rattle.store_shelf.specs.declared.kept.Kept.{Kept};

    ghost Value = { ShelfView (Kept D) };

    ghost view = { λ s. s.shelf };

    ghost invariant = { λ s. s.shelf.made.closed ≡ s.closed };
}

impl<D: Disk> StoreShelf<D> {
    /// A shelf for so many readers at once, on which a store is shown. The one error is want of memory.
    pub(crate) fn open<R: Wait>(
        rt: &R,
        alloc: Global,
        store: &Store<D>,
        readers: u8,
    ) -> Result<StoreShelf<D>, AllocError>
        requires { (0 < readers) × (readers ≤ 16) }
        ensures made { IfOk result (λ shelf. shelf.made ≡ published_of shelf.made.book false store.now) }
        ensures shown { IfOk result (λ shelf. shelf.shown ≡ shelf.made) }
    {
        let contents = contents_of(alloc, store)?;
        let publisher = Publisher::open::<Store<D>, OfStore>(store);
        let shelf = Shelf::new(rt, alloc, publisher, contents, usize::from(readers))?;
        Ok(StoreShelf {
            shelf,
            closed: false,
        })
    }

    /// A reader that has seen what is shown. Refused for want of memory, or where there are as many readers as may be.
    pub(crate) fn reader(&mut self) -> Result<StoreReader<D>, AllocError>
        ensures shown { IfOk result (λ reader. reader ≡ self.old.shown) }
        ensures same { self.new ≡ self.old }
    {
        self.shelf.reader()
    }

    /// Makes a publication of a store, which then waits for the board, where only these packets came to the history behind
    /// a front. The one error is want of memory.
    pub(crate) fn make(
        &mut self,
        alloc: Global,
        store: &Store<D>,
        front: u64,
        arrivals: &[Arrival],
    ) -> Result<(), AllocError>
        requires begins { BeginsStore self.old.made store.now }
        requires came { CameBy store.now front arrivals.now }
        ensures made { OnOk result (self.new.made ≡ made_of false self.old.made store.now) }
        ensures shown { self.new.shown ≡ self.old.shown }
        ensures refused { OnErr result (self.new ≡ self.old) }
    {
        if self.closed {
            return Ok(());
        }
        let contents = contents_after(alloc, store, self.shelf.made(), front, arrivals)?;
        self.shelf.make::<Store<D>, OfStore>(alloc, store, contents)
    }

    /// Makes the last publication of a store, which then waits for the board. The one error is want of memory.
    pub(crate) fn make_last(&mut self, alloc: Global, store: &Store<D>) -> Result<(), AllocError>
        requires { BeginsStore self.old.made store.now }
        ensures made { OnOk result (self.new.made ≡ made_of true self.old.made store.now) }
        ensures shown { self.new.shown ≡ self.old.shown }
        ensures refused { OnErr result (self.new ≡ self.old) }
    {
        if self.closed {
            return Ok(());
        }
        let contents = contents_of(alloc, store)?;
        self.shelf
            .make::<Store<D>, LastOfStore>(alloc, store, contents)?;
        self.closed = true;
        Ok(())
    }

    /// Shows what was made last, and gives a note of it. The one error is want of memory.
    pub(crate) fn show<R: Wait>(self, rt: &R) -> (StoreShelf<D>, Result<StoreNote<D>, AllocError>)
        ensures note { IfOk result.1 (λ note. note ≡ result.0.made) }
        ensures shown { OnOk result.1 (result.0.shown ≡ result.0.made) }
        ensures made { result.0.made ≡ self.made }
        ensures later { IsFollowedBy self.shown result.0.shown }
    {
        let StoreShelf { shelf, closed } = self;
        let (shelf, shown) = shelf.show(rt);
        let note = shelf.last();
        let shelf = StoreShelf { shelf, closed };
        match shown {
            Ok(()) => (shelf, Ok(note)),
            Err(error) => (shelf, Err(error)),
        }
    }

    /// Takes what is shown away from the readers, and waits until none reads.
    pub(crate) fn close<R: Wait>(self, rt: &R) {
        let StoreShelf { shelf, closed: _ } = self;
        shelf.close(rt);
    }
}
