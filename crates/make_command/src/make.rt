//! The command `make`: an archive of made packets, loaded, compared and summed up.

ghost use Rattle.std.specs.Prelude.{◌≡◌, ℤ, Option as AnOption, [], IsTrue};
ghost use Rattle.text_forms.specs.ClockTime.{IsClockTime};
ghost use Rattle.stream_graph.specs.Routes.{every_packet_route};
ghost use Rattle.archive_store.specs.Calls.{IsStoreCreated};
ghost use Rattle.archive_store.specs.Keeping.{IsKept};
ghost use Rattle.archive_store.specs.StoreView.{StoreView};
ghost use Rattle.command_plans.specs.Ledger.{UsedClock};
ghost use Rattle.command_plans.specs.Plan.{IsDue};
ghost use Rattle.command_runs.specs.Command.{Ran, effects_of};
ghost use Rattle.command_runs.specs.Healing.{TriesToHeal};
ghost use Rattle.command_runs.specs.Moment.{IsMomentOf};
ghost use Rattle.command_runs.specs.Report.{disk_of_work, report_of_work, status_at};
ghost use Rattle.make_command.specs.Made.{dumps_of_seed, made_head};
ghost use Rattle.make_command.specs.Make.{made_load_plan, make_plan};

use crate::made_source::MadeSource;
use crate::prepared::Prepared;
use crate::summary::sum_up;
use arch_disk::Disk;
use archive_store::Store;
use command_runs::healing::heal;
use command_runs::report::{Ended, Report};
use line_buffer::LineBuffer;
use live_session::{LoadJob, Loaded, load};
use load_command::reports::{reported_of_load, stopped};
use load_session::fill_late;
use outer_traits::clock::Clock;
use outer_traits::gate::Gate;
use outer_traits::sink::Sink;
use refusals::Refusal;
use retrieval::found_asks::FoundAsks;
use std::alloc::Global;
use std::sync::Wait;
use std::thread::Threads;
use stream_graph::graph::Graph;

/// How many fillers fill beside the links.
const FILLERS: usize = 2;

/// Makes an archive with the database of made packets on a disk that holds none, loads the packets of a seed into it by
/// two links beside two fillers, compares what is stored with what the rows give, and prints what the archive holds.
/// Packets, route and room for a line are taken before.
///
/// Refuses, in this order: by `DiskFault` or `Exists`; by that of the first job that is refused, by its number: of a
/// link by a `Limit` of the history, by `DiskFault` or `NeedsReopen`, of a filler by `Limit` Records, `DiskFault` or
/// `NeedsReopen`; behind the jobs fill by fill by `Limit` Records or by `DiskFault`; by `Mismatch`; by `WriteFault`.
/// `OutOfMemory` may come anywhere before the last line.
///
/// What was made and loaded before a refusal stays. Where a write failed, it is taken back before it ends, as far as
/// the disk lets it.
pub fn make<D: Disk + Send, K: Sink, C: Clock, G: Gate + Sync, R: Threads + Wait + Sync>(
    rt: &R,
    alloc: Global,
    seed: u32,
    disk: D,
    sink: &mut K,
    clock: &mut C,
    gate: &G,
) -> Ended<D>
    // It took a way through its plan: where that ends stands what was printed, what became of the disk, what is
    // reported, and which calls failed.
    ensures ran { Ran D.device (make_plan D.device disk (C.state clock.old).next seed) (effects_of disk result.disk
        (K.state sink.old) (K.state sink.new) result.report) }

    // Where the disk is transparent the answer that is due comes, or that of an interruption at its place.
    ensures due { IsTrue D.device.is_transparent →
        IsDue (make_plan D.device disk (C.state clock.old).next seed) result.report.refusal }

    // What is known of the clock stays known, and one that stands still goes on standing.
    ensures clock { UsedClock (C.state clock.old) (C.state clock.new) }

    // The number of the refusal, and 0 exactly where there's none.
    ensures status { result.status ≡ status_at result.report.refusal }
{
    let moment = clock.now();
    Ended::of_work(make_archive(rt, alloc, seed, moment, disk, sink, gate))
}

/// Makes the archive, loads the packets into it, takes back a write that failed, and gives the disk back.
fn make_archive<D: Disk + Send, K: Sink, G: Gate + Sync, R: Threads + Wait + Sync>(
    rt: &R,
    alloc: Global,
    seed: u32,
    moment: i64,
    disk: D,
    sink: &mut K,
    gate: &G,
) -> Result<(D, Report), (D, Refusal)>
    requires moment { IsClockTime moment }
    // Whichever clock told the moment.
    ensures { (next : AnOption ℤ) → IsMomentOf next moment → Ran D.device (make_plan D.device disk next seed)
        (effects_of disk (disk_of_work result) (K.state sink.old) (K.state sink.new) (report_of_work result)) }
{
    let Ok(prepared) = Prepared::of_seed(alloc, seed) else {
        return Err((disk, Refusal::OutOfMemory));
    };
    let Prepared {
        head,
        sources,
        graph,
        line_buffer,
    } = prepared;
    let store = Store::create(alloc, disk, head)?;
    store.is_kept();
    let packets = MadePackets {
        seed,
        moment,
        sources,
        graph,
    };
    let (mut store, report) = load_made(rt, alloc, packets, store, line_buffer, sink, gate);
    heal(&mut store);
    store.is_kept();
    Ok((store.into_disk(), report))
}

/// Packets that are loaded into an archive that was made for them.
#[derive(Drop)]
struct MadePackets {
    seed: u32,
    /// When they are received.
    moment: i64,
    /// Their dumps.
    sources: Vec<MadeSource>,
    /// The route of each into `tm`.
    graph: Graph,
}

/// Loads made packets into the archive that was made for them, fills what is late behind the jobs whatever they came
/// to, and sums up what there is, or tells why not. A write that failed stays pending.
fn load_made<D: Disk + Send, K: Sink, G: Gate + Sync, R: Threads + Wait + Sync>(
    rt: &R,
    alloc: Global,
    packets: MadePackets,
    store: Store<D>,
    line_buffer: LineBuffer,
    sink: &mut K,
    gate: &G,
) -> (Store<D>, Report)
    requires moment { IsClockTime packets.moment }
    requires dumps { packets.sources.items ≡ dumps_of_seed packets.seed }
    requires route { packets.graph ≡ every_packet_route }
    requires empty { line_buffer ≡ [] }
    requires created { (disk : D) × IsStoreCreated D.device disk made_head store }
    // Whichever clock told the moment, and whatever taking a failed write back leaves: it took a way through the plan
    // of the load, over the disk that the making left. What a store keeps is given.
    ensures { (next : AnOption ℤ) (healed : StoreView D) → IsMomentOf next packets.moment →
        TriesToHeal D.device result.0 healed → IsKept D.device healed →
        Ran D.device (made_load_plan D.device next packets.seed)
        (effects_of store.disk healed.disk (K.state sink.old) (K.state sink.new) result.1) }
{
    store.is_kept();
    let MadePackets {
        seed,
        moment,
        sources,
        graph,
    } = packets;
    let asks = FoundAsks::new(alloc);
    let job = LoadJob {
        moment,
        link: 1,
        sources,
        graph,
        fillers: FILLERS,
    };
    let Loaded {
        mut store,
        sources: _sources,
        reported,
        counts,
        answers: _answers,
    } = load(rt, alloc, store, job, asks.as_slice(), gate);
    let filled = fill_late(alloc, &mut store);
    match reported_of_load(reported, filled) {
        None => {
            store.is_kept();
            let report = sum_up(alloc, seed, counts, &mut store, line_buffer, sink);
            (store, report)
        }
        Some(reported) => {
            let report = stopped(0, store.front(), reported.link, reported.refusal);
            (store, report)
        }
    }
}
