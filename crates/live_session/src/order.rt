//! What the jobs of a session are to do, and what came of them.

use archive_store::Head;
use crossbeam_channel::{Receiver, Sender};
use live_asks::AskAnswers;
use load_jobs::LinkEnd;
use refusals::Refusal;
use retrieval::found_asks::FoundAsk;
use stream_graph::graph::Graph;

/// What all jobs of a session have in common.
#[derive(Drop)]
pub struct Setting<'a, G> {
    /// A copy of the archive's head, since the archive is in turns.
    pub head: &'a Head,
    /// The route by which packets come into the head's tables.
    pub graph: &'a Graph,
    /// When they are received, in milliseconds since 1970.
    pub moment: i64,
    pub asks: &'a [FoundAsk],
    pub gate: &'a G,
}

/// What a job is to do.
#[derive(Drop)]
pub enum Order<S> {
    /// To read the dump of a link and send its packets, and to wake a filler behind each batch.
    Link {
        link: u16,
        source: S,
        wake: Sender<()>,
    },
    /// To answer every fourth ask, behind so many that others have.
    Reader {
        before: usize,
    },
    /// To fill what is late whenever it is woken, until no link is left.
    Filler {
        wakes: Receiver<()>,
    },
}

/// What came of a job.
#[derive(Drop)]
pub enum JobEnd<S> {
    /// The source is to be closed.
    Link {
        link: u16,
        source: S,
        end: LinkEnd,
    },
    Reader {
        answers: AskAnswers,
        refusal: Option<Refusal>,
    },
    Filler {
        refusal: Option<Refusal>,
    },
}
