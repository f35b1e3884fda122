//! Laws of replays, stores and limits, carried by functions that do nothing, and those of images.

ghost use Rattle.archive_store.specs.Laws.{CalmStoresAreKept, HistoryLimitsAgree, ReplaysKeepTheirFront};

use crate::store::Store;
use arch_disk::Disk;
pub use archive_images::laws::{
    archived_rows_have_clock_times, archives_are_one, archives_are_whole, damage_is_one,
    exponents_are_of_format_1, file_damage_is_one, file_zero_is_all, files_are_one,
    files_are_whole, fills_are_one, none_is_none,
};
use std::marker::Send;

/// A replay gives no row that came to the history after its opening.
pub fn replays_keep_their_front()
    ensures { ReplaysKeepTheirFront }
{}

/// While no failed write is pending, a crash leaves the archive with its fills, and nothing else.
pub fn calm_stores_are_kept()
    ensures { CalmStoresAreKept }
{}

/// The limits of a history are those of the archive.
pub fn history_limits_agree()
    ensures { HistoryLimitsAgree }
{}

fn is_sendable<T: Send>() {}

/// A store may go to another thread where its disk may.
pub fn stores_are_sendable<D: Disk + Send>() {
    is_sendable::<Store<D>>()
}
