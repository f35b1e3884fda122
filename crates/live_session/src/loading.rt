//! The jobs of a load.

ghost use Rattle.std.specs.Prelude.{◌≡◌, ◌≤◌, ◌+◌, [], length, vec_len, vec_capacity, IfOk, None, Some};
ghost use Rattle.std.specs.List.{AllByRecursion, filter_map};
ghost use Rattle.refusals.specs.Limits.{limit_of};
ghost use Rattle.refusals.specs.declared.refusal.Refusal.TheVariants as refused;
ghost use Rattle.refusals.specs.declared.refusal.Which.TheVariants as limits;
ghost use Rattle.text_forms.specs.ClockTime.{IsClockTime};
ghost use Rattle.history_items.specs.Items.{databases_in};
ghost use Rattle.store_fills.specs.Faults.{IsDone};
ghost use Rattle.retrieval.specs.FoundAsks.{AreFound};
ghost use Rattle.load_session.specs.Receiving.{IsRouteOver};
ghost use Rattle.live_session.specs.Interleaving.{AreEveryFourth, HaveAnswersFor, answers_at};
ghost use Rattle.live_session.specs.Outcome.{HasFewCounts, IsLoadOutcome, counts_of, reported, reported_of};

use crate::interleaving::in_order_of;
use crate::order::Setting;
use crate::ordering::orders_of;
use crate::reported::{DumpCounts, ReportedRefusal, counts_of, reported_of};
use crate::results::{JobResults, sort_results, sources_back};
use crate::session::{NotBegun, SessionEnd, run_session};
use arch_disk::Disk;
use archive_store::{Head, Store};
use live_asks::{AskAnswer, AskAnswers, READERS};
use outer_traits::gate::Gate;
use outer_traits::source::Source;
use refusals::Refusal;
use retrieval::found_asks::FoundAsk;
use std::alloc::{AllocError, Global};
use std::sync::Wait;
use std::thread::Threads;
use stream_graph::graph::Graph;

/// What is to be loaded.
#[derive(Drop)]
pub struct LoadJob<S> {
    /// When the packets are received, in milliseconds since 1970.
    pub moment: i64,
    /// The link of the first dump. Each next one comes by the link of the next number.
    pub link: u16,
    /// The dumps, opened.
    pub sources: Vec<S>,
    /// The route by which packets come into the archive's tables.
    pub graph: Graph,
    pub fillers: usize,
}

/// What a load leaves.
pub struct Loaded<D: Disk, S> {
    pub store: Store<D>,
    /// In their order, to be closed.
    pub sources: Vec<S>,
    /// Why it was refused.
    pub reported: Option<ReportedRefusal>,
    pub counts: DumpCounts,
    /// The answers to the asks, in their order.
    pub answers: AskAnswers,
}

/// Sends the packets of dumps to an archive, each dump by a link of its own, answers asks, and fills what is late, all
/// beside each other. A write that failed stays pending.
///
/// Where jobs are refused, that of the first is reported: links come first, then readers, then fillers. Where there's
/// no memory for the jobs, none is run.
pub fn load<D: Disk + Send, S: Source + Send + Drop, G: Gate + Sync, R: Threads + Wait + Sync>(
    rt: &R,
    alloc: Global,
    store: Store<D>,
    job: LoadJob<S>,
    asks: &[FoundAsk],
    gate: &G,
) -> Loaded<D, S>
    requires links { (1 ≤ job.link) × (job.link + vec_len job.sources ≤ limit_of limits.Links + 1) }
    requires dumps { (1 ≤ vec_len job.sources) × (vec_len job.sources ≤ limit_of limits.Dumps) }
    requires fillers { job.fillers ≤ limit_of limits.Fillers }
    requires moment { IsClockTime job.moment }
    requires route { IsRouteOver store.head job.graph }
    requires found { AreFound store.head store.history asks.now }
    requires opened { AllByRecursion IsDone store.fills }
    ensures outcome { IsLoadOutcome D.device S.state store job asks.now result }
{
    let LoadJob {
        moment,
        link,
        sources,
        graph,
        fillers,
    } = job;
    let jobs = sources.len() + READERS + fillers;
    let Ok(room) = Room::new(alloc, store.head(), jobs, asks.len()) else {
        return not_run(alloc, store, sources);
    };
    let Room {
        head,
        results,
        answers,
    } = room;
    let orders = match orders_of(alloc, link, sources, asks.len(), fillers) {
        Ok(orders) => orders,
        Err(sources) => return not_run(alloc, store, sources),
    };
    let setting = Setting {
        head: &head,
        graph: &graph,
        moment,
        asks,
        gate,
    };
    match run_session(rt, alloc, store, &setting, orders) {
        Ok(end) => {
            let SessionEnd { store, ends } = end;
            store.is_kept();
            load_end(
                alloc,
                store,
                link,
                sort_results(ends, results),
                asks,
                answers,
            )
        }
        Err(back) => {
            let NotBegun { store, orders } = back;
            not_run(alloc, store, sources_back(orders, results.sources))
        }
    }
}

/// What is taken before the jobs are run.
#[derive(Drop)]
struct Room<S> {
    head: Head,
    results: JobResults<S>,
    answers: Vec<AskAnswer>,
}

impl<S: Drop> Room<S> {
    /// A copy of the head, and room for what comes of so many jobs and asks.
    fn new(alloc: Global, head: &Head, jobs: usize, asks: usize) -> Result<Room<S>, AllocError>
        ensures head { IfOk result (λ room. room.head ≡ head.now) }
        ensures none { IfOk result (λ room. (room.results.sources.items ≡ []) × (room.results.ends.items ≡ [])
            × (room.results.answers.items ≡ []) × (room.results.others.items ≡ []) × (room.answers.items ≡ [])) }
        ensures room { IfOk result (λ room. (vec_capacity room.results.sources ≡ jobs)
            × (vec_capacity room.results.ends ≡ jobs) × (vec_capacity room.results.answers ≡ jobs)
            × (vec_capacity room.results.others ≡ jobs) × (vec_capacity room.answers ≡ asks)) }
    {
        let head = Head {
            tables: head.tables.copy(alloc)?,
            mdb: head.mdb.copy()?,
        };
        Ok(Room {
            head,
            results: JobResults::new(alloc, jobs)?,
            answers: Vec::with_capacity(alloc, asks)?,
        })
    }
}

/// What a load leaves whose jobs weren't run.
fn not_run<D: Disk, S>(alloc: Global, store: Store<D>, sources: Vec<S>) -> Loaded<D, S>
    ensures same { (result.store ≡ store) × (result.sources.items ≡ sources.items) }
    ensures reported { result.reported ≡ Some (reported refused.OutOfMemory None) }
    ensures none { result.answers ≡ [] }
{
    Loaded {
        store,
        sources,
        reported: Some(ReportedRefusal {
            refusal: Refusal::OutOfMemory,
            link: None,
        }),
        counts: DumpCounts::default(),
        answers: AskAnswers::new(alloc),
    }
}

/// What a load leaves whose jobs had these results.
fn load_end<D: Disk, S: Drop>(
    alloc: Global,
    store: Store<D>,
    link: u16,
    results: JobResults<S>,
    asks: &[FoundAsk],
    room: Vec<AskAnswer>,
) -> Loaded<D, S>
    requires links { link + vec_len results.ends ≤ limit_of limits.Links + 1 }
    requires dumps { vec_len results.ends ≤ limit_of limits.Dumps }
    requires few { AllByRecursion HasFewCounts results.ends.items }
    requires readers { vec_len results.answers ≤ 4 }
    requires room { (room.items ≡ []) × (length asks.now ≤ vec_capacity room) }
    ensures same { (result.store ≡ store) × (result.sources.items ≡ results.sources.items) }
    ensures reported { result.reported ≡ reported_of link results.ends.items results.others.items }
    ensures counts { result.counts ≡ counts_of results.ends.items }
    ensures answers { HaveAnswersFor asks.now (answers_at 0 results.answers.items) (answers_at 1 results.answers.items)
        (answers_at 2 results.answers.items) (answers_at 3 results.answers.items)
        → AreEveryFourth result.answers (answers_at 0 results.answers.items) (answers_at 1 results.answers.items)
        (answers_at 2 results.answers.items) (answers_at 3 results.answers.items) }
{
    let JobResults {
        sources,
        ends,
        answers,
        others,
    } = results;
    let counts = counts_of(ends.as_slice());
    let reported = reported_of(link, ends, others);
    let answers = in_order_of(alloc, asks, answers, room);
    Loaded {
        store,
        sources,
        reported,
        counts,
        answers,
    }
}
