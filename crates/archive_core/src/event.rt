//! What callers do to an archive.

use arch_types::row::Rows;
use asks::{ReplayRequest, Request};
use intervals::Interval;

/// What one of many callers does.
#[derive(Debug, Drop)]
pub enum Event {
    /// Rows come in.
    Ingest {
        caller: u32,
        rows: Rows,
    },
    /// A task is asked for: an interval to fill.
    Begin {
        caller: u32,
    },
    /// The fill of an interval over the first `base` rows of the history is there.
    Install {
        caller: u32,
        interval: Interval,
        base: u64,
    },
    /// The task of an interval is given up.
    Abandon {
        caller: u32,
        interval: Interval,
    },
    /// The values of a parameter are asked for.
    Retrieve {
        caller: u32,
        request: Request,
    },
    /// The rows of a table are asked for.
    Replay {
        caller: u32,
        request: ReplayRequest,
    },
}
