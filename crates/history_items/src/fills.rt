//! What happened to fills, and the faults of the disk.

ghost use Rattle.std.specs.Prelude.{◌≡◌};
ghost use Rattle.history_items.specs.Fills.{reopened, cleared};

use arch_types::row::Rows;
use intervals::Interval;

/// What a call would have added to an archive.
#[derive(Debug, Drop)]
pub enum Addition {
    /// No entry: only files that no entry names yet, if any.
    Nothing,
    /// Rows of a batch, in one entry.
    Rows(Rows),
    /// A fill of the interval over the first `base` items of the history, in one entry.
    Fill { interval: Interval, base: u64 },
}

/// An item of a fill list.
#[derive(Debug, Drop)]
pub enum Fill {
    /// A fill of the interval began over the first `base` items of the history.
    Begun {
        interval: Interval,
        base: u64,
    },
    /// A fill of the interval over the first `base` items of the history was installed.
    Done {
        interval: Interval,
        base: u64,
    },
    /// The fill of the interval that was in flight was given up.
    Freed {
        interval: Interval,
    },
    /// A call answered that the disk failed.
    Fault {
        /// The disk's count of faults after the call.
        count: u64,
        /// Whether a write, cut or sync failed in the call, and no reopen has succeeded since.
        wrote: bool,
        /// What the call would have added.
        unacknowledged: Addition,
    },
    /// What is published of the archive for readers that take no turns was published for the last time.
    Closed,
}

/// Notes in an item that a reopen succeeded.
fn clear_failed_write(fill: &mut Fill)
    ensures { fill.new ≡ cleared fill.old }
{
    match fill {
        Fill::Fault { wrote, .. } => *wrote = false,
        Fill::Begun { .. } | Fill::Done { .. } | Fill::Freed { .. } | Fill::Closed => {}
    }
}

/// Notes in a fill list that a reopen succeeded. Takes no memory.
pub fn clear_failed_writes(fills: &mut [Fill])
    ensures { fills.new ≡ reopened fills.old }
{
    for i in 0..fills.len() {
        clear_failed_write(&mut fills[i]);
    }
}
