//! What the type of a store keeps, handed out by a call that does nothing.

ghost use Rattle.archive_store.specs.Keeping.{IsKept};

use crate::store::Store;
use arch_disk::Disk;

impl<D: Disk> Store<D> {
    /// The store keeps what it is to keep of its history, its fills and its disk. This only tells a proof so.
    pub fn is_kept(&self)
        ensures { IsKept D.device self.now }
    {
        self.history.is_kept();
        self.head.mdb.is_sound();
    }
}
