// What a caller does in a thread of its own: it ingests a hundred packets, fills a hundred times, or reads as often. As a
// job each is generic in the archive and the pass, so that it may go to another thread.
ghost use Rattle.std.specs.Prelude.{◌≡◌};
ghost use Rattle.turn_cell.specs.Pass.{IsFree};
ghost use Rattle.live_tests.specs.Heads.{HasNames};

use crate::calls::{fill, ingested};
use crate::parts::packet_octets;
use arch_disk::Disk;
use arch_types::inserted::Inserted;
use intervals::Interval;
use jobs::Job;
use live_archive::{Live, LivePass};
use std::alloc::Global;
use std::sync::Wait;

/// What became of packets, one after the other.
#[derive(Clone, Copy)]
pub struct Tally {
    /// The place behind the last new one, while each stood behind the one before.
    pub next: Option<u64>,
    pub duplicates: u64,
}

/// With the outcome of one packet more.
fn tallied(tally: Tally, outcome: Option<Inserted>) -> Tally {
    let Tally { next, duplicates } = tally;
    match (outcome, next) {
        (Some(Inserted::New(place)), Some(low)) if place >= low => Tally {
            next: place.checked_add(1),
            duplicates,
        },
        (Some(Inserted::Duplicate(_)), _) => Tally {
            next,
            duplicates: duplicates.saturating_add(1),
        },
        _ => Tally {
            next: None,
            duplicates,
        },
    }
}

/// Ingests the packets of a hundred seconds, each in a batch of its own.
pub(crate) fn ingest_hundred<D: Disk, R: Wait>(
    rt: &R,
    alloc: Global,
    live: &Live<D>,
    mut pass: LivePass<D>,
    from: u64,
) -> (LivePass<D>, Tally)
    requires free { IsFree live.now.cell pass }
    requires names { HasNames live.now.cell.first.store.head }
    ensures free { IsFree live.now.cell result.0 }
    ensures share { result.0.share ≡ pass.share }
{
    let mut tally = Tally {
        next: Some(0),
        duplicates: 0,
    };
    for i in 0..100 {
        let outcome = ingested(
            rt,
            alloc,
            live,
            &mut pass,
            &packet_octets(from.wrapping_add(i)),
        );
        tally = tallied(tally, outcome);
    }
    (pass, tally)
}

/// Fills as often.
pub(crate) fn fill_hundred<D: Disk, R: Wait>(
    rt: &R,
    alloc: Global,
    live: &Live<D>,
    mut pass: LivePass<D>,
) -> LivePass<D>
    requires free { IsFree live.now.cell pass }
    ensures free { IsFree live.now.cell result }
    ensures share { result.share ≡ pass.share }
{
    'fills: for _ in 0..100 {
        let _ = fill(rt, alloc, live, &mut pass);
    }
    pass
}

/// Looks as often how long the history is, and whether the first interval is late. Whether it was never shorter than
/// before.
pub(crate) fn read_hundred<D: Disk, R: Wait>(
    rt: &R,
    live: &Live<D>,
    mut pass: LivePass<D>,
) -> (LivePass<D>, bool)
    requires free { IsFree live.now.cell pass }
    ensures free { IsFree live.now.cell result.0 }
    ensures share { result.0.share ≡ pass.share }
{
    let mut last = 0;
    let mut rises = true;
    'reads: for _ in 0..100 {
        let front = live.front(&mut pass);
        let _ = live.is_late(rt, &mut pass, Interval(0));
        rises = rises && last <= front;
        last = front;
    }
    (pass, rises)
}

/// A caller that has done its work.
pub(crate) struct Called<P> {
    pub(crate) pass: P,
    /// What became of a link's packets.
    pub(crate) tally: Tally,
    /// Whether a reader's history was never shorter than before.
    pub(crate) rises: bool,
}

/// What a caller says that isn't asked.
const NONE: Tally = Tally {
    next: None,
    duplicates: 0,
};

/// What a caller does.
#[derive(Clone, Copy)]
pub(crate) enum Work {
    /// It ingests the packets of a hundred seconds from a first one on.
    Ingests { from: u64 },
    Fills,
    Reads,
}

/// A caller, as a job.
pub(crate) struct Caller<'a, L, P> {
    pub(crate) alloc: Global,
    pub(crate) live: &'a L,
    pub(crate) pass: P,
    pub(crate) work: Work,
}

impl<'a, D: Disk + Send> Job for Caller<'a, Live<D>, LivePass<D>> {
    type Done = Called<LivePass<D>>;

    ghost may = { λ job. IsFree job.live.now.cell job.pass × HasNames job.live.now.cell.first.store.head };

    ghost did = { λ job done. IsFree job.live.now.cell done.pass × (done.pass.share ≡ job.pass.share) };

    fn run<R: Wait>(self, rt: &R) -> Called<LivePass<D>> {
        let Caller {
            alloc,
            live,
            pass,
            work,
        } = self;
        match work {
            Work::Ingests { from } => {
                let (pass, tally) = ingest_hundred(rt, alloc, live, pass, from);
                Called {
                    pass,
                    tally,
                    rises: true,
                }
            }
            Work::Fills => Called {
                pass: fill_hundred(rt, alloc, live, pass),
                tally: NONE,
                rises: true,
            },
            Work::Reads => {
                let (pass, rises) = read_hundred(rt, live, pass);
                Called {
                    pass,
                    tally: NONE,
                    rises,
                }
            }
        }
    }
}
