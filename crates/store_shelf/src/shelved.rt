//! A store with its shelf.

ghost use Rattle.std.specs.Prelude.{◌≡◌, ◌<◌, ◌≤◌, IfErr, IfOk, OnErr, OnOk, false, true};
ghost use Rattle.glance_log.specs.Sightings.{IsFollowedBy};
ghost use Rattle.store_shelf.specs.Publications.{BeginsStore, IsMadeOrLeft, made_of, published_of};
ghost use Rattle.store_shelf.specs.Renewing.{CameBy};

use crate::shelf::{StoreNote, StoreReader, StoreShelf};
use arch_disk::Disk;
use archive_store::{Arrival, Store};
use std::alloc::{AllocError, Global};
use std::marker::Model;
use std::sync::Wait;

/// A store with its shelf. What was made last begins the store's lists, and is of its archive.
pub struct ShelvedStore<D: Disk> {
    store: Store<D>,
    shelf: StoreShelf<D>,
}

impl<D: Disk> Model for ShelvedStore<D> {
    ghost use Rattle.store_shelf.specs.Publications.{BeginsStore, ShelvedView, published_view};

    ghost Value = { ShelvedView D };

    ghost view = { λ s. published_view s.store s.shelf };

    ghost invariant = { λ s. BeginsStore s.shelf.made s.store };
}

impl<D: Disk> ShelvedStore<D> {
    /// A store with a shelf for so many readers at once, on which all of it is shown. The one error is want of memory,
    /// and gives the store back.
    pub fn new<R: Wait>(
        rt: &R,
        alloc: Global,
        store: Store<D>,
        readers: u8,
    ) -> Result<ShelvedStore<D>, (Store<D>, AllocError)>
        requires { (0 < readers) × (readers ≤ 16) }
        ensures store { IfOk result (λ s. s.store ≡ store) }
        ensures made { IfOk result (λ s. s.shelf.made ≡ published_of s.shelf.made.book false store) }
        ensures shown { IfOk result (λ s. s.shelf.shown ≡ s.shelf.made) }
        ensures back { IfErr result (λ e. e.0 ≡ store) }
    {
        match StoreShelf::open(rt, alloc, &store, readers) {
            Ok(shelf) => Ok(ShelvedStore { store, shelf }),
            Err(error) => Err((store, error)),
        }
    }

    /// The store, to be looked at.
    pub fn store(&self) -> &Store<D>
        ensures { result.now ≡ self.now.store }
    {
        &self.store
    }

    /// A reader that has seen what is shown. Refused for want of memory, or where there are as many readers as may be.
    pub fn reader(&mut self) -> Result<StoreReader<D>, AllocError>
        ensures shown { IfOk result (λ reader. reader ≡ self.old.shelf.shown) }
        ensures same { self.new ≡ self.old }
    {
        self.shelf.reader()
    }

    /// Publishes the store as it is, unless its last publication was made, and gives a note of what is shown. Refused
    /// for want of memory, what is missing is published by the next call.
    pub fn publish<R: Wait>(
        self,
        rt: &R,
        alloc: Global,
    ) -> (ShelvedStore<D>, Result<StoreNote<D>, AllocError>)
        ensures store { result.0.store ≡ self.store }
        ensures made { OnOk result.1 (result.0.shelf.made ≡ made_of false self.shelf.made self.store) }
        ensures shown { OnOk result.1 (result.0.shelf.shown ≡ result.0.shelf.made) }
        ensures note { IfOk result.1 (λ note. note ≡ result.0.shelf.made) }
        ensures refused { OnErr result.1 (IsMadeOrLeft false self result.0) }
        ensures later { IsFollowedBy self.shelf.shown result.0.shelf.shown }
    {
        let front = self.store.front();
        self.publish_since(rt, alloc, front, &[])
    }

    /// The same, where only these packets came to the history behind a front. It costs by what changed, where what was made
    /// last has the history up to that front.
    pub fn publish_since<R: Wait>(
        self,
        rt: &R,
        alloc: Global,
        front: u64,
        arrivals: &[Arrival],
    ) -> (ShelvedStore<D>, Result<StoreNote<D>, AllocError>)
        requires { CameBy self.store front arrivals.now }
        ensures store { result.0.store ≡ self.store }
        ensures made { OnOk result.1 (result.0.shelf.made ≡ made_of false self.shelf.made self.store) }
        ensures shown { OnOk result.1 (result.0.shelf.shown ≡ result.0.shelf.made) }
        ensures note { IfOk result.1 (λ note. note ≡ result.0.shelf.made) }
        ensures refused { OnErr result.1 (IsMadeOrLeft false self result.0) }
        ensures later { IsFollowedBy self.shelf.shown result.0.shelf.shown }
    {
        let ShelvedStore { store, mut shelf } = self;
        if let Err(error) = shelf.make(alloc, &store, front, arrivals) {
            return (ShelvedStore { store, shelf }, Err(error));
        }
        let (shelf, note) = shelf.show(rt);
        (ShelvedStore { store, shelf }, note)
    }

    /// Publishes the store as it is for the last time, and gives a note of that. Asked again it publishes nothing more,
    /// and the note is the first one's. Refused for want of memory, it is to be asked again.
    pub fn publish_last<R: Wait>(
        self,
        rt: &R,
        alloc: Global,
    ) -> (ShelvedStore<D>, Result<StoreNote<D>, AllocError>)
        ensures store { result.0.store ≡ self.store }
        ensures made { OnOk result.1 (result.0.shelf.made ≡ made_of true self.shelf.made self.store) }
        ensures shown { OnOk result.1 (result.0.shelf.shown ≡ result.0.shelf.made) }
        ensures note { IfOk result.1 (λ note. note ≡ result.0.shelf.made) }
        ensures refused { OnErr result.1 (IsMadeOrLeft true self result.0) }
        ensures later { IsFollowedBy self.shelf.shown result.0.shelf.shown }
    {
        let ShelvedStore { store, mut shelf } = self;
        if let Err(error) = shelf.make_last(alloc, &store) {
            return (ShelvedStore { store, shelf }, Err(error));
        }
        let (shelf, note) = shelf.show(rt);
        (ShelvedStore { store, shelf }, note)
    }

    /// The store and its shelf by themselves, for calls of the store.
    pub fn into_parts(self) -> (Store<D>, StoreShelf<D>)
        ensures store { result.0 ≡ self.store }
        ensures shelf { result.1 ≡ self.shelf }
        ensures begins { BeginsStore result.1.made result.0 }
    {
        let ShelvedStore { store, shelf } = self;
        (store, shelf)
    }

    /// A store beside its shelf.
    pub fn beside(store: Store<D>, shelf: StoreShelf<D>) -> ShelvedStore<D>
        requires { BeginsStore shelf.made store }
        ensures store { result.store ≡ store }
        ensures shelf { result.shelf ≡ shelf }
    {
        ShelvedStore { store, shelf }
    }

    /// Takes what is shown away from the readers, waits until none reads, and gives the store back.
    pub fn into_store<R: Wait>(self, rt: &R) -> Store<D>
        ensures { result ≡ self.store }
    {
        let ShelvedStore { store, shelf } = self;
        shelf.close(rt);
        store
    }
}
