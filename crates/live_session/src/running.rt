//! Jobs that are made, run beside each other, and joined.

ghost use Rattle.std.specs.Prelude.{◌≡◌, ◌≤◌, ◌+◌, ◌^◌, ◌∷◌, ◌++◌, [], length, map, vec_len, vec_capacity};
ghost use Rattle.std.specs.Prelude.{IfErr, IfOk, IfSome, MatchOption};
ghost use Rattle.std.specs.List.{AllByRecursion};
ghost use Rattle.turn_cell.specs.Pass.{IsFree};
ghost use Rattle.turn_passes.specs.Passes.{AreSplitOff};
ghost use Rattle.live_asks.specs.LiveAsks.{IsGlanceAt};
ghost use Rattle.live_session.specs.Jobs.{IsFit, IsNumbered, MayDo, job_pass, job_setting};
ghost use Rattle.live_session.specs.Session.{HaveRun};

use crate::job::{SessionJob, SessionJobDone};
use crate::order::{JobEnd, Order, Setting};
use arch_disk::Disk;
use jobs::run_all;
use live_archive::{Live, LiveGlances, LivePass};
use live_asks::LiveGlance;
use outer_traits::gate::Gate;
use outer_traits::source::Source;
use std::alloc::Global;
use std::sync::Wait;
use std::thread::Threads;
use turn_passes::join_all;

/// Runs jobs by these orders over a live archive, beside each other, with passes that are split off one and joined to
/// it at their ends, and readers with these glances. Where there's no memory for them the orders are given back, and no job was run.
pub(crate) fn run_jobs<
    'a,
    D: Disk + Send,
    S: Source + Send + Drop,
    G: Gate + Sync,
    R: Threads + Wait + Sync,
>(
    rt: &R,
    alloc: Global,
    live: &'a Live<D>,
    pass: &mut LivePass<D>,
    glances: LiveGlances<D>,
    setting: &'a Setting<'a, G>,
    orders: Vec<Order<S>>,
) -> Result<Vec<JobEnd<S>>, Vec<Order<S>>>
    requires free { IsFree live.now.cell pass.old }
    requires share { 2 ^ vec_len orders ≤ pass.old.share }
    requires seen { pass.old.history.seen ≡ live.now.cell.first.store.history }
    requires glances { AllByRecursion (IsGlanceAt live.now.cell.first) glances }
    requires fit { IsFit live.now.cell.first.store (job_setting setting.now.head.now setting.now.graph.now
        setting.now.moment setting.now.asks.now) }
    requires numbered { AllByRecursion IsNumbered orders.items }
    ensures free { IsFree live.now.cell pass.new }
    ensures ran { IfOk result (λ ends. HaveRun D.device S.state live.now.cell.first.store
        (job_setting setting.now.head.now setting.now.graph.now setting.now.moment setting.now.asks.now)
        (job_pass pass.old pass.new) orders.items ends.items) }
    ensures back { IfErr result (λ back. (back.items ≡ orders.items) × (pass.new ≡ pass.old)) }
{
    let count = orders.len();
    // What a pass is of need not be such that it may be dropped, so neither are lists of passes and jobs.
    let Ok(mut jobs) = Vec::with_capacity(alloc, count) else {
        return Err(orders);
    };
    let Ok(mut done) = Vec::with_capacity(alloc, count) else {
        jobs.destroy_empty();
        return Err(orders);
    };
    let Ok(mut passes) = Vec::with_capacity(alloc, count) else {
        jobs.destroy_empty();
        done.destroy_empty();
        return Err(orders);
    };
    let Ok(mut ends) = Vec::with_capacity(alloc, count) else {
        jobs.destroy_empty();
        done.destroy_empty();
        passes.destroy_empty();
        return Err(orders);
    };
    make_jobs(alloc, live, pass, glances, setting, orders, &mut jobs);
    run_all(rt, &mut jobs, &mut done);
    jobs.destroy_empty();
    take_apart(done, &mut passes, &mut ends);
    join_all(&live.cell, pass, passes);
    Ok(ends)
}

/// Makes the jobs, each with a pass that is split off, and readers with a glance while any is left. There's room for them,
/// and the share lasts.
fn make_jobs<'a, D: Disk, S: Drop, G>(
    alloc: Global,
    live: &'a Live<D>,
    pass: &mut LivePass<D>,
    mut glances: LiveGlances<D>,
    setting: &'a Setting<'a, G>,
    orders: Vec<Order<S>>,
    jobs: &mut Vec<SessionJob<'a, Live<D>, LivePass<D>, LiveGlance<D>, S, G>>,
)
    requires free { IsFree live.now.cell pass.old }
    requires none { jobs.old.items ≡ [] }
    requires room { vec_len jobs.old + vec_len orders ≤ vec_capacity jobs.old }
    requires share { 2 ^ vec_len orders ≤ pass.old.share }
    requires seen { pass.old.history.seen ≡ live.now.cell.first.store.history }
    requires glances { AllByRecursion (IsGlanceAt live.now.cell.first) glances }
    requires fit { IsFit live.now.cell.first.store (job_setting setting.now.head.now setting.now.graph.now
        setting.now.moment setting.now.asks.now) }
    requires numbered { AllByRecursion IsNumbered orders.items }
    ensures free { IsFree live.now.cell pass.new }

    // They are by the orders, in this setting, and may be run.
    ensures orders { map (λ job. job.order) jobs.new.items ≡ orders.items }
    ensures here { AllByRecursion (λ job. (job.live.now.cell ≡ live.now.cell)
        × (job_setting job.setting.now.head.now job.setting.now.graph.now job.setting.now.moment
        job.setting.now.asks.now ≡ job_setting setting.now.head.now setting.now.graph.now setting.now.moment
        setting.now.asks.now)) jobs.new.items }
    ensures may { AllByRecursion (λ job. IsFree job.live.now.cell job.pass
        × IfSome job.glance (IsGlanceAt job.live.now.cell.first) × MayDo job.live.now.cell.first.store
        (job_setting job.setting.now.head.now job.setting.now.graph.now job.setting.now.moment job.setting.now.asks.now)
        job.pass job.order) jobs.new.items }
    ensures split { AreSplitOff pass.old pass.new [] (map (λ job. job.pass) jobs.new.items) (length jobs.new.items) }
    ensures room { (vec_len jobs.new ≡ vec_len orders) × (vec_capacity jobs.new ≡ vec_capacity jobs.old) }
{
    let mut number: u32 = 0;
    for order in orders {
        number = number.saturating_add(1);
        let glance = glance_for(&order, &mut glances);
        let own = live.split(pass);
        jobs.push_reserved(SessionJob {
            alloc,
            live,
            pass: own,
            glance,
            setting,
            order,
            number,
        });
    }
}

/// The glance of a job: one of those that are left, where it is a reader's.
fn glance_for<D: Disk, S>(order: &Order<S>, glances: &mut LiveGlances<D>) -> Option<LiveGlance<D>>
    ensures { MatchOption result (glances.new ≡ glances.old) (λ glance. glances.old ≡ glances.new ++ glance ∷ []) }
{
    match order {
        Order::Reader { before: _ } => glances.take(),
        _ => None,
    }
}

/// The passes and the ends of jobs that have ended, in their order. There's room for them.
fn take_apart<P, S: Drop>(
    done: Vec<SessionJobDone<P, S>>,
    passes: &mut Vec<P>,
    ends: &mut Vec<JobEnd<S>>,
)
    requires room { (vec_len passes.old + vec_len done ≤ vec_capacity passes.old)
        × (vec_len ends.old + vec_len done ≤ vec_capacity ends.old) }
    ensures passes { passes.new.items ≡ passes.old.items ++ map (λ one. one.pass) done.items }
    ensures ends { ends.new.items ≡ ends.old.items ++ map (λ one. one.end) done.items }
{
    let mut left = done.into_iter();
    while let Some(one) = left.next() {
        let SessionJobDone { pass, end } = one;
        passes.push_reserved(pass);
        ends.push_reserved(end);
    }
    left.destroy_empty();
}
