//! A job of a session.

ghost use Rattle.std.specs.Prelude.{◌≡◌, IfSome};
ghost use Rattle.turn_cell.specs.Pass.{IsFree};
ghost use Rattle.live_session.specs.declared.order.Order.TheVariants as Ordered;
ghost use Rattle.live_session.specs.Jobs.{IsOutcomeOf, MayDo, job_pass, job_setting};

use crate::order::{JobEnd, Order, Setting};
use arch_disk::Disk;
use crossbeam_channel::{Receiver, Sender};
use jobs::Job;
use live_archive::{Live, LivePass};
use live_asks::{LiveGlance, Reader, ReaderDone};
use live_fills::{Filler, FillerDone};
use load_jobs::{Link, LinkDone, Reception, run_link};
use outer_traits::gate::Gate;
use outer_traits::source::Source;
use std::alloc::Global;
use std::sync::Wait;

/// A job of a session, with its pass. It is generic in the archive, the pass and the glance, so that it may go to another
/// thread.
#[derive(Drop)]
pub(crate) struct SessionJob<'a, L, P, N, S, G> {
    pub(crate) alloc: Global,
    pub(crate) live: &'a L,
    pub(crate) pass: P,
    /// That of a reader which needs no turn for values.
    pub(crate) glance: Option<N>,
    pub(crate) setting: &'a Setting<'a, G>,
    pub(crate) order: Order<S>,
    /// Its number among the jobs, from 1.
    pub(crate) number: u32,
}

/// One that has ended.
#[derive(Drop)]
pub(crate) struct SessionJobDone<P, S> {
    pub(crate) pass: P,
    pub(crate) end: JobEnd<S>,
}

impl<'a, D: Disk + Send, S: Source + Send + Drop, G: Gate + Sync> Job
    for SessionJob<'a, Live<D>, LivePass<D>, LiveGlance<D>, S, G> {
    ghost use Rattle.std.specs.Prelude.{IfSome};
    ghost use Rattle.live_asks.specs.LiveAsks.{IsGlanceAt};

    type Done = SessionJobDone<LivePass<D>, S>;

    ghost may = { λ job. IsFree job.live.now.cell job.pass × IfSome job.glance (IsGlanceAt job.live.now.cell.first)
        × MayDo job.live.now.cell.first.store
        (job_setting job.setting.now.head.now job.setting.now.graph.now job.setting.now.moment job.setting.now.asks.now)
        job.pass job.order };

    ghost did = { λ job done. IsFree job.live.now.cell done.pass
        × IsOutcomeOf D.device S.state job.live.now.cell.first.store
        (job_setting job.setting.now.head.now job.setting.now.graph.now job.setting.now.moment job.setting.now.asks.now)
        (job_pass job.pass done.pass) job.order done.end };

    fn run<R: Wait>(self, rt: &R) -> SessionJobDone<LivePass<D>, S> {
        let SessionJob {
            alloc,
            live,
            pass,
            glance,
            setting,
            order,
            number,
        } = self;
        let worker = Worker {
            alloc,
            live,
            pass,
            setting,
            number,
        };
        match order {
            Order::Link { link, source, wake } => run_link_job(rt, worker, link, source, wake),
            Order::Reader { before } => {
                let done = worker.into_reader(glance, before).run(rt);
                SessionJobDone::of_reader(done)
            }
            Order::Filler { wakes } => {
                let done = worker.into_filler(wakes).run(rt);
                SessionJobDone::of_filler(done)
            }
        }
    }
}

impl<P, S> SessionJobDone<P, S> {
    ghost use Rattle.live_session.specs.declared.order.JobEnd.TheVariants as Ended;

    fn of_reader(done: ReaderDone<P>) -> SessionJobDone<P, S>
        ensures { (result.pass ≡ done.pass) × (result.end ≡ Ended.Reader done.answers done.refusal) }
    {
        let ReaderDone {
            pass,
            answers,
            refusal,
        } = done;
        let end = JobEnd::Reader { answers, refusal };
        SessionJobDone { pass, end }
    }

    fn of_filler(done: FillerDone<P>) -> SessionJobDone<P, S>
        ensures { (result.pass ≡ done.pass) × (result.end ≡ Ended.Filler done.refusal) }
    {
        let FillerDone { pass, refusal } = done;
        let end = JobEnd::Filler { refusal };
        SessionJobDone { pass, end }
    }
}

/// What does a job: all that the job has but its order.
#[derive(Drop)]
struct Worker<'a, L, P, G> {
    alloc: Global,
    live: &'a L,
    pass: P,
    setting: &'a Setting<'a, G>,
    number: u32,
}

impl<'a, L, P, G> Worker<'a, L, P, G> {
    fn into_reader<N>(self, glance: Option<N>, before: usize) -> Reader<'a, L, P, N, G>
        ensures own { (result.live.now ≡ self.entry.live.now) × (result.pass ≡ self.entry.pass) }
        ensures glance { result.glance ≡ glance }
        ensures asks { (result.asks.now ≡ self.entry.setting.now.asks.now) × (result.before ≡ before) }
    {
        let Worker {
            alloc,
            live,
            pass,
            setting,
            number,
        } = self;
        Reader {
            alloc,
            live,
            pass,
            glance,
            asks: setting.asks,
            before,
            gate: setting.gate,
            number,
        }
    }

    fn into_filler(self, wakes: Receiver<()>) -> Filler<'a, L, P, G>
        ensures { (result.live.now ≡ self.entry.live.now) × (result.pass ≡ self.entry.pass) }
    {
        let Worker {
            alloc,
            live,
            pass,
            setting,
            number,
        } = self;
        Filler {
            alloc,
            live,
            pass,
            wakes,
            gate: setting.gate,
            number,
        }
    }
}

/// Does the job of a link: reads its dump, and sends its packets.
fn run_link_job<D: Disk, S: Source, G: Gate, R: Wait>(
    rt: &R,
    worker: Worker<'_, Live<D>, LivePass<D>, G>,
    link: u16,
    source: S,
    wake: Sender<()>,
) -> SessionJobDone<LivePass<D>, S>
    requires free { IsFree worker.live.now.cell worker.pass }
    requires may { MayDo worker.live.now.cell.first.store
        (job_setting worker.setting.now.head.now worker.setting.now.graph.now worker.setting.now.moment
        worker.setting.now.asks.now) worker.pass (Ordered.Link link source wake) }
    ensures free { IsFree worker.entry.live.now.cell result.pass }
    ensures came { IsOutcomeOf D.device S.state worker.entry.live.now.cell.first.store
        (job_setting worker.entry.setting.now.head.now worker.entry.setting.now.graph.now
        worker.entry.setting.now.moment worker.entry.setting.now.asks.now) (job_pass worker.entry.pass result.pass)
        (Ordered.Link link source wake) result.end }
{
    let Worker {
        alloc,
        live,
        pass,
        setting,
        number,
    } = worker;
    let reception = Reception {
        head: setting.head,
        graph: setting.graph,
        link,
        moment: setting.moment,
    };
    let LinkDone { pass, source, end } = run_link(
        rt,
        Link {
            alloc,
            live,
            pass,
            reception,
            source,
            wake,
            gate: setting.gate,
            number,
        },
    );
    let end = JobEnd::Link { link, source, end };
    SessionJobDone { pass, end }
}
