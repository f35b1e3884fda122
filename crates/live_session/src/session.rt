//! A session over a store.

ghost use Rattle.std.specs.Prelude.{◌≡◌, ◌≤◌, ◌^◌, vec_len, IfOk, IfErr};
ghost use Rattle.std.specs.List.{AllByRecursion};
ghost use Rattle.turn_cell.specs.Lists.{first_seen};
ghost use Rattle.turn_cell.specs.Pass.{IsFree};
ghost use Rattle.live_asks.specs.LiveAsks.{IsGlanceAt};
ghost use Rattle.live_session.specs.Jobs.{IsFit, IsNumbered, job_setting};
ghost use Rattle.live_session.specs.Session.{IsSessionOver, NothingCame};

use crate::order::{JobEnd, Order, Setting};
use crate::running::run_jobs;
use arch_disk::Disk;
use archive_store::Store;
use live_archive::{Live, LiveGlances, LiveOver, LivePass};
use live_asks::READERS;
use outer_traits::gate::Gate;
use outer_traits::source::Source;
use std::alloc::{AllocError, Global};
use std::sync::Wait;
use std::thread::Threads;

/// What a session leaves: the store, and what came of each job.
pub struct SessionEnd<D: Disk, S> {
    pub store: Store<D>,
    pub ends: Vec<JobEnd<S>>,
}

/// A session for whose jobs there was no memory, with all that it was given.
pub struct NotBegun<D: Disk, S> {
    pub store: Store<D>,
    pub orders: Vec<Order<S>>,
}

/// Runs jobs by these orders over a store, beside each other, each on a thread of its own where one can be made, and
/// gives the store back once all have ended. Their results come back in the orders' order. A write that failed stays
/// pending.
pub fn run_session<
    D: Disk + Send,
    S: Source + Send + Drop,
    G: Gate + Sync,
    R: Threads + Wait + Sync,
>(
    rt: &R,
    alloc: Global,
    store: Store<D>,
    setting: &Setting<'_, G>,
    orders: Vec<Order<S>>,
) -> Result<SessionEnd<D, S>, NotBegun<D, S>>
    requires few { vec_len orders ≤ 63 }
    requires fit { IsFit store (job_setting setting.now.head.now setting.now.graph.now setting.now.moment
        setting.now.asks.now) }
    requires numbered { AllByRecursion IsNumbered orders.items }

    // What came of each job, and of the archive.
    ensures over { IfOk result (λ end. IsSessionOver D.device S.state store end.store (job_setting setting.now.head.now
        setting.now.graph.now setting.now.moment setting.now.asks.now) orders.items end.ends.items) }

    // No memory for the jobs: none was run, nothing came to the archive, and all is given back.
    ensures not_begun { IfErr result (λ back. (back.orders.items ≡ orders.items)
        × NothingCame D.device store back.store) }
{
    match live_for(rt, alloc, store, setting.asks.len().min(READERS)) {
        Ok((live, pass, glances)) => run_over(rt, alloc, live, pass, glances, setting, orders),
        Err((store, _)) => Err(NotBegun { store, orders }),
    }
}

/// A live archive, the pass that has the whole share, and glances for so many readers. Without any it publishes nothing.
fn live_for<D: Disk, R: Wait>(
    rt: &R,
    alloc: Global,
    store: Store<D>,
    readers: usize,
) -> Result<(Live<D>, LivePass<D>, LiveGlances<D>), (Store<D>, AllocError)>
    requires readers { readers ≤ 4 }
    ensures free { IfOk result (λ made. IsFree made.0.cell made.1) }
    ensures first { IfOk result (λ made. made.0.cell.first.store ≡ store) }
    ensures lists { IfOk result (λ made.
        (made.1.history ≡ first_seen store.history) × (made.1.fills ≡ first_seen store.fills)) }
    ensures whole { IfOk result (λ made. made.1.share ≡ 2 ^ 63) }
    ensures glances { IfOk result (λ made. AllByRecursion (IsGlanceAt made.0.cell.first) made.2) }
    ensures back { IfErr result (λ refused. refused.0 ≡ store) }
{
    if readers == 0 {
        let (live, pass) = LiveOver::new(alloc, store)?;
        return Ok((live, pass, LiveGlances::new(alloc)));
    }
    LiveOver::with_glances(rt, alloc, store, readers as u8)
}

/// Runs the jobs over a live archive by the pass that has the whole share, and closes it.
fn run_over<D: Disk + Send, S: Source + Send + Drop, G: Gate + Sync, R: Threads + Wait + Sync>(
    rt: &R,
    alloc: Global,
    live: Live<D>,
    mut pass: LivePass<D>,
    glances: LiveGlances<D>,
    setting: &Setting<'_, G>,
    orders: Vec<Order<S>>,
) -> Result<SessionEnd<D, S>, NotBegun<D, S>>
    requires free { IsFree live.cell pass }
    requires whole { pass.share ≡ 2 ^ 63 }
    requires lists { (pass.history ≡ first_seen live.cell.first.store.history)
        × (pass.fills ≡ first_seen live.cell.first.store.fills) }
    requires glances { AllByRecursion (IsGlanceAt live.cell.first) glances }
    requires few { vec_len orders ≤ 63 }
    requires fit { IsFit live.cell.first.store (job_setting setting.now.head.now setting.now.graph.now
        setting.now.moment setting.now.asks.now) }
    requires numbered { AllByRecursion IsNumbered orders.items }
    ensures over { IfOk result (λ end. IsSessionOver D.device S.state live.cell.first.store end.store
        (job_setting setting.now.head.now setting.now.graph.now setting.now.moment setting.now.asks.now) orders.items
        end.ends.items) }
    ensures not_begun { IfErr result (λ back. (back.orders.items ≡ orders.items)
        × NothingCame D.device live.cell.first.store back.store) }
{
    let result = run_jobs(rt, alloc, &live, &mut pass, glances, setting, orders);
    let store = live.close_with_glances(rt, pass);
    match result {
        Ok(ends) => Ok(SessionEnd { store, ends }),
        Err(orders) => Err(NotBegun { store, orders }),
    }
}
