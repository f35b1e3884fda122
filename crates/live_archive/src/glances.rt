//! An archive with readers that take no turns.

ghost use Rattle.std.specs.Prelude.{◌≡◌, ◌<◌, ◌≤◌, ◌^◌, IfErr, IfOk, false, replicate};
ghost use Rattle.turn_cell.specs.Lists.{first_seen};
ghost use Rattle.turn_cell.specs.Pass.{IsFree};
ghost use Rattle.store_shelf.specs.Publications.{published_of};
ghost use Rattle.live_archive.specs.Shelving.{AreShownFirst};

use crate::held::HeldStore;
use crate::live::{Live, LiveOver, LivePass};
use arch_disk::Disk;
use archive_store::Store;
use glance::{Glance, Glances};
use std::alloc::{AllocError, Global};
use std::sync::Wait;
use store_shelf::{Kept, ShelvedStore};
use turn_cell::TurnCell;

/// The readers of an archive that nobody has taken.
pub type LiveGlances<D> = Glances<Kept<D>>;

/// So many glances at a store with its shelf.
fn glances_of<D: Disk>(
    alloc: Global,
    shelved: &mut ShelvedStore<D>,
    readers: u8,
) -> Result<LiveGlances<D>, AllocError>
    ensures seen { IfOk result (λ glances. glances ≡ replicate readers shelved.old.shelf.shown) }
    ensures same { shelved.new ≡ shelved.old }
{
    let mut glances = Glances::new(alloc);
    for _ in 0..readers {
        glances.add(Glance::of(shelved.reader()?))?;
    }
    Ok(glances)
}

/// A store with its shelf, on which all of it is shown, and so many glances at it.
fn shelved_with<D: Disk, R: Wait>(
    rt: &R,
    alloc: Global,
    store: Store<D>,
    readers: u8,
) -> Result<(ShelvedStore<D>, LiveGlances<D>), (Store<D>, AllocError)>
    requires readers { (0 < readers) × (readers ≤ 16) }
    ensures store { IfOk result (λ made. made.0.store ≡ store) }
    ensures made { IfOk result (λ made. made.0.shelf.made ≡ published_of made.0.shelf.made.book false store) }
    ensures shown { IfOk result (λ made. made.0.shelf.shown ≡ made.0.shelf.made) }
    ensures seen { IfOk result (λ made. made.1 ≡ replicate readers made.0.shelf.shown) }
    ensures back { IfErr result (λ refused. refused.0 ≡ store) }
{
    let mut shelved = ShelvedStore::new(rt, alloc, store, readers)?;
    match glances_of(alloc, &mut shelved, readers) {
        Ok(glances) => Ok((shelved, glances)),
        Err(error) => Err((shelved.into_store(rt), error)),
    }
}

impl<D: Disk> LiveOver<HeldStore<D>> {
    /// Takes a store in, of which all is shown to so many readers, and gives the pass that has the whole share. It takes no
    /// turn, and may wait. The one error is want of memory.
    pub fn with_glances<R: Wait>(
        rt: &R,
        alloc: Global,
        store: Store<D>,
        readers: u8,
    ) -> Result<(Live<D>, LivePass<D>, LiveGlances<D>), (Store<D>, AllocError)>
        requires readers { (0 < readers) × (readers ≤ 16) }
        ensures free { IfOk result (λ made. IsFree made.0.cell made.1) }
        ensures first { IfOk result (λ made. made.0.cell.first.store ≡ store) }
        ensures lists { IfOk result (λ made.
            (made.1.history ≡ first_seen store.history) × (made.1.fills ≡ first_seen store.fills)) }
        ensures share { IfOk result (λ made. (made.1.share ≡ 2 ^ 63) × (made.1.turns ≡ 0)) }

        // Each reader has seen the store's whole lists.
        ensures shown { IfOk result (λ made. AreShownFirst made.0.cell.first readers made.2) }
        ensures back { IfErr result (λ refused. refused.0 ≡ store) }
    {
        let (shelved, glances) = shelved_with(rt, alloc, store, readers)?;
        match TurnCell::new(alloc, HeldStore::of(shelved, false)) {
            Ok((cell, pass)) => Ok((LiveOver { cell }, pass, glances)),
            Err((held, error)) => Err((held.into_unpublished(rt), error)),
        }
    }
}
