//! What an archive gives back.

use arch_types::inserted::{Installed, Outcomes};
use arch_types::row::Rows;
use asks::{Answer, AskRefusal};
use intervals::Interval;
use item_list::Items;

/// The reply to an event.
#[derive(Debug, Drop)]
pub enum Reply {
    /// What became of each of the rows.
    Ingested(Outcomes),
    /// Each late interval is in flight.
    NoTask,
    /// The interval to fill, the length of the history, and the interval's rows in the order of their keys.
    Task {
        interval: Interval,
        base: u64,
        rows: Rows,
    },
    /// No fill could have that base. No store is asked so.
    Void,
    Installed(Installed),
    Abandoned,
    Answered(Answer),
    /// The rows of the first `front` rows of the history.
    Replayed {
        front: u64,
        rows: Rows,
    },
    /// Who asked has no answer.
    Refused(AskRefusal),
}

/// Replies in the order of their events.
pub type Replies = Items<Reply>;
