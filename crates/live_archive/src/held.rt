//! The store as the value of a cell, beside the shelf on which it is published.

ghost use Rattle.std.specs.Prelude.{◌≡◌, ◌⊎◌, IfOk, None, Some, OnErr, OnOk, false, true};
ghost use Rattle.interval_fills.specs.Steps.{all_freed};
ghost use Rattle.store_shelf.specs.Renewing.{CameBy};
ghost use Rattle.live_archive.specs.Shelving.{IsBeside, IsPublished, KeepsShelf, LastIsClosing, TakesClosing, TakesNoClosing, closed_once};

use arch_disk::Disk;
use archive_store::{Arrival, Store};
use history_items::fills::Fill;
use history_items::items::Item;
use std::alloc::{AllocError, Global};
use std::sync::Wait;
use store_shelf::{ShelvedStore, StoreNote, StoreShelf};
use turn_cell::Growing;

/// A store that is taken in turns.
pub struct HeldStore<D: Disk> {
    pub store: Store<D>,
    /// Where readers see what is published of it. None where each caller takes turns.
    pub shelf: Option<StoreShelf<D>>,
    /// The closing of these turns stands in the fill list.
    pub has_closing: bool,
}

impl<D: Disk> Growing for HeldStore<D> {
    ghost use Rattle.live_archive.specs.Shelving.{HeldGoesOn};

    type Item = Item;

    type Fill = Fill;

    ghost history = { λ held. held.store.history };

    ghost fills = { λ held. held.store.fills };

    ghost goes_on = { λ first now. HeldGoesOn D.device first now };

    fn len(&self) -> u64 {
        self.store.front()
    }

    fn fill_len(&self) -> u64 {
        self.store.fill_len()
    }
}

impl<D: Disk> HeldStore<D> {
    /// A store with its shelf.
    pub(crate) fn of(shelved: ShelvedStore<D>, has_closing: bool) -> HeldStore<D>
        ensures store { result.store ≡ shelved.store }
        ensures shelf { result.shelf ≡ Some shelved.shelf }
        ensures closing { result.has_closing ≡ has_closing }
        ensures beside { IsBeside result.shelf result.store }
    {
        let (store, shelf) = shelved.into_parts();
        HeldStore {
            store,
            shelf: Some(shelf),
            has_closing,
        }
    }

    /// Publishes what is missing, and gives a note of what is shown. Refused for want of memory, or where it has no shelf;
    /// the next call publishes what is missing still.
    pub(crate) fn published<R: Wait>(
        self,
        rt: &R,
        alloc: Global,
    ) -> (HeldStore<D>, Result<StoreNote<D>, AllocError>)
        requires beside { IsBeside self.shelf self.store }
        requires last { LastIsClosing self }
        ensures closing { TakesNoClosing self result.0 }
        ensures shelf { KeepsShelf self.shelf result.0.shelf self.store }
        ensures last { LastIsClosing result.0 }
        ensures note { IfOk result.1 (IsPublished false self result.0.shelf) }
    {
        let front = self.store.front();
        self.published_since(rt, alloc, front, &[])
    }

    /// The same, where only these packets came to the history behind a front.
    pub(crate) fn published_since<R: Wait>(
        self,
        rt: &R,
        alloc: Global,
        front: u64,
        arrivals: &[Arrival],
    ) -> (HeldStore<D>, Result<StoreNote<D>, AllocError>)
        requires beside { IsBeside self.shelf self.store }
        requires last { LastIsClosing self }
        requires came { CameBy self.store front arrivals.now }
        ensures closing { TakesNoClosing self result.0 }
        ensures shelf { KeepsShelf self.shelf result.0.shelf self.store }
        ensures last { LastIsClosing result.0 }
        ensures note { IfOk result.1 (IsPublished false self result.0.shelf) }
    {
        let HeldStore {
            store,
            shelf,
            has_closing,
        } = self;
        let Some(shelf) = shelf else {
            let shelf = None;
            return (
                HeldStore {
                    store,
                    shelf,
                    has_closing,
                },
                Err(AllocError),
            );
        };
        let (shelved, note) = ShelvedStore::beside(store, shelf).publish_since(
            rt, alloc, front, arrivals,
        );
        (HeldStore::of(shelved, has_closing), note)
    }

    /// Publishes what is missing for the last time, with the closing behind the fill list, which comes once, and gives
    /// a note of that. Refused for want of memory, the closing may have come all the same; without a shelf it doesn't.
    pub(crate) fn published_last<R: Wait>(
        self,
        rt: &R,
        alloc: Global,
    ) -> (HeldStore<D>, Result<StoreNote<D>, AllocError>)
        requires beside { IsBeside self.shelf self.store }
        requires last { LastIsClosing self }
        ensures closed { OnOk result.1 (TakesClosing self result.0) }
        ensures refused { OnErr result.1 (TakesClosing self result.0 ⊎ TakesNoClosing self result.0) }
        ensures shelf { KeepsShelf self.shelf result.0.shelf result.0.store }
        ensures last { LastIsClosing result.0 }
        ensures note { IfOk result.1 (IsPublished true (record self { store = result.0.store }) result.0.shelf) }
    {
        let HeldStore {
            mut store,
            shelf,
            has_closing,
        } = self;
        let Some(shelf) = shelf else {
            let shelf = None;
            return (
                HeldStore {
                    store,
                    shelf,
                    has_closing,
                },
                Err(AllocError),
            );
        };
        if let Err(error) = take_closing(&mut store, has_closing) {
            let shelf = Some(shelf);
            return (
                HeldStore {
                    store,
                    shelf,
                    has_closing,
                },
                Err(error),
            );
        }
        let (shelved, note) = ShelvedStore::beside(store, shelf).publish_last(rt, alloc);
        (HeldStore::of(shelved, true), note)
    }

    /// The store alone. What is shown is taken away from the readers, which waits until none reads.
    pub(crate) fn into_unpublished<R: Wait>(self, rt: &R) -> Store<D>
        requires beside { IsBeside self.shelf self.store }
        ensures { result ≡ self.store }
    {
        let HeldStore {
            store,
            shelf,
            has_closing: _,
        } = self;
        match shelf {
            None => store,
            Some(shelf) => ShelvedStore::beside(store, shelf).into_store(rt),
        }
    }

    /// The store of an archive without a shelf. It waits for nobody.
    pub(crate) fn into_alone(self) -> Store<D>
        requires alone { self.shelf ≡ None }
        ensures { result ≡ self.store }
    {
        let HeldStore {
            store,
            shelf,
            has_closing: _,
        } = self;
        let None = shelf else { unreachable!() };
        store
    }
}

/// Puts the closing of these turns behind the fill list, unless it stands there. Refused for want of memory, it leaves
/// the store as it was.
fn take_closing<D: Disk>(store: &mut Store<D>, has_closing: bool) -> Result<(), AllocError>
    ensures noted { OnOk result (store.new ≡ closed_once has_closing store.old) }
    ensures refused { OnErr result (store.new ≡ store.old) }
{
    if has_closing {
        return Ok(());
    }
    store.note_closed()
}

/// A store, with each flight ended without a fill.
pub(crate) fn settled<D: Disk>(store: Store<D>) -> Store<D>
    ensures { result ≡ record store { fills = all_freed store.fills } }
{
    let mut store = store;
    store.settle();
    store
}
