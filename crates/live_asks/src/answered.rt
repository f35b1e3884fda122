//! What a reader is answered.

ghost use Rattle.std.specs.Prelude.{◌≡◌};
ghost use Rattle.live_asks.specs.LiveAsks.{front_of};

use arch_types::row::Rows;
use asks::Answer;
use item_list::Items;

/// The rows of a replay of the first `front` items of a history.
#[derive(Drop)]
pub struct ReplayedRows {
    pub front: u64,
    pub rows: Rows,
}

/// The answer to an ask.
#[derive(Drop)]
pub enum AskAnswer {
    Values(Answer),
    Replay(ReplayedRows),
}

impl AskAnswer {
    /// How long the history is behind it.
    pub(crate) fn front(&self) -> u64
        ensures { result ≡ front_of self.now }
    {
        match self {
            AskAnswer::Values(answer) => answer.front,
            AskAnswer::Replay(replayed) => replayed.front,
        }
    }
}

/// Such answers, in the order of their asks.
pub type AskAnswers = Items<AskAnswer>;
