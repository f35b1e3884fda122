//! What the entries of an archive have made so far.

ghost use Rattle.std.specs.Prelude.{◌≡◌, [], Some, IfOk};
ghost use Rattle.store_fills.specs.Sound.{no_fillings};
ghost use Rattle.field_codec.specs.declared.entry.Entry.TheVariants as entries;
ghost use Rattle.field_codec.specs.Entries.{IsArchiveEntry};
ghost use Rattle.intervals.specs.Interval.{format_1_exponent};
ghost use Rattle.archive_images.specs.Entries.{filled_archive};
ghost use Rattle.archive_reading.specs.PartialArchive.{filled_made, HasMarks, IsReadHistory};

use archive_history::history::History;
use archive_images::Head;
use fill_tracker::FillTracker;
use intervals::Exponent;
use std::alloc::{AllocError, Global};
use store_fills::LastFills;

/// What the entries so far have made.
#[derive(Drop)]
pub struct PartialArchive {
    pub head: Head,
    pub history: History,
    /// What happened to fills, with the late marks of the history.
    pub tracker: FillTracker,
    /// The last fill of each interval.
    pub sets: LastFills,
}

/// What a head makes.
pub(crate) fn of_head(alloc: Global, head: Head) -> Result<PartialArchive, AllocError>
    requires { IsArchiveEntry (entries.Head head.tables head.mdb) }
    ensures made { IfOk result (λ made. filled_made made ≡ filled_archive head format_1_exponent [] no_fillings) }
    ensures tables { IfOk result (λ made. IsReadHistory (Some made)) }
    ensures marks { IfOk result (λ made. HasMarks (Some made)) }
    ensures fills { IfOk result (λ made. made.tracker.fills ≡ []) }
{
    let history = History::new(alloc, head.tables.as_slice().len(), Exponent::of_format_1())?;
    let tracker = FillTracker::new(alloc);
    let sets = LastFills::new(alloc);
    Ok(PartialArchive {
        head,
        history,
        tracker,
        sets,
    })
}
