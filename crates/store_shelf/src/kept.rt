//! What stays of a store's archive, and what is published of a store.

use arch_disk::Disk;
use archive_store::{Head, Store};
use glance_board::Archived;
use glance_log::Tells;
use intervals::Exponent;

/// What stays of the archive of a disk. No value of it is made.
pub struct Kept<D> {
    pub head: Head,
    pub exponent: Exponent,
    /// The disk as it was opened.
    pub opened: D,
}

impl<D: Disk> Archived for Kept<D> {
    ghost use Rattle.store_shelf.specs.Publications.{staying_by};

    ghost stays = { λ kept. staying_by D.device kept };
}

/// A store tells its publication.
pub struct OfStore;

impl<D: Disk> Tells<Store<D>, Kept<D>> for OfStore {
    ghost use Rattle.std.specs.Prelude.{false};
    ghost use Rattle.store_shelf.specs.Publications.{publication_of};

    ghost publication = { λ store. publication_of false store };
}

/// A store tells its last publication.
pub struct LastOfStore;

impl<D: Disk> Tells<Store<D>, Kept<D>> for LastOfStore {
    ghost use Rattle.std.specs.Prelude.{true};
    ghost use Rattle.store_shelf.specs.Publications.{publication_of};

    ghost publication = { λ store. publication_of true store };
}
