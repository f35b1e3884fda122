//! The command `load`: what its words name is read and opened, and closed again behind the jobs.

ghost use Rattle.std.specs.Prelude.{◌≡◌, IsSome, IsTrue, None, option_map};
ghost use Rattle.command_plans.specs.Ledger.{UsedClock};
ghost use Rattle.command_plans.specs.Plan.{IsDue};
ghost use Rattle.command_words.specs.Job.{AreLoadWords};
ghost use Rattle.command_words.specs.JobView.{load_words_of};
ghost use Rattle.command_words.specs.LoadLimits.{load_limit_refusal};
ghost use Rattle.command_runs.specs.Command.{RanOver, effects_of};
ghost use Rattle.command_runs.specs.Report.{disk_of_work, report_of_work, status_at};
ghost use Rattle.load_command.specs.Load.{archive_load_plan, load_plan, read_load_plan, routed_load_plan};

use crate::opened::{Asked, load_opened};
use arch_disk::Disk;
use asks::Asks;
use command_plans::opening::{close_all, open_all};
use command_plans::read::read_limited;
use command_runs::report::{Ended, Report};
use command_words::job::LoadWords;
use mdb_sheets::read_asks;
use outer_traits::clock::Clock;
use outer_traits::gate::Gate;
use outer_traits::inputs::Inputs;
use outer_traits::sink::Sink;
use refusals::{Refusal, Which};
use std::alloc::Global;
use std::sync::Wait;
use std::thread::Threads;

/// Opens dumps and the archive of a disk, and runs the jobs of a load: each dump comes by a link of its own, whose
/// packets are ingested in batches of 64 into the tables that a route names, or where none is given into `tm`; fillers
/// fill what is late; readers answer the asks of a sheet, where one is given, each over the history of its turn. Behind
/// them it fills what is late still, and prints the answers and what became of the packets. Room for the line is taken
/// before.
///
/// Refuses, in this order: by `Limit` Dumps or Fillers; by `Missing`, `ReadFault` or `Limit` ScriptOctets of the route;
/// by `Missing`, `ReadFault` or `Limit` SheetOctets of the sheet; by `Missing` or `ReadFault` of the first dump that
/// isn't opened; by `DiskFault`, `NoArchive` or `Damaged`; by `Limit` Links; by `BadSql` of rule 1 or 2; by `Limit`
/// Statements or SqlDepth; at the first token with which something is wrong by `BadSql` or `UnknownTable`; by
/// `BadSheet`; by `Limit` Asks; each ask in turn by `UnknownParameter` or `UnknownTable`, then by `BadRange`; then by
/// that of the first job that is refused, by its number: of a link by `ReadFault` or `Limit` DumpOctets, by a `Limit`
/// of the history, by `DiskFault` or `NeedsReopen`, or by `BadPacket`; of a filler by `Limit` Records, `DiskFault` or
/// `NeedsReopen`; behind the jobs fill by fill by `Limit` Records or by `DiskFault`; by `WriteFault`. `OutOfMemory` may
/// come anywhere before the line.
///
/// A job that is refused leaves the others to go on to their ends, and what is late is filled behind them whatever was
/// refused; what is reported is that. Where a write failed, it is taken back before it ends, as far as the disk lets
/// it; until then nothing more is filled (`fill_late`).
pub fn load<D: Disk + Send, I: Inputs, K: Sink, C: Clock, G: Gate + Sync, R: Threads + Wait + Sync>(
    rt: &R,
    alloc: Global,
    words: &LoadWords<'_>,
    disk: D,
    inputs: &mut I,
    sink: &mut K,
    clock: &mut C,
    gate: &G,
) -> Ended<D>
where
    I::Source: Send,
    requires words { AreLoadWords (load_words_of words.now) }
    // It took a way through its plan: where that ends stands what was printed, what became of the disk, what is
    // reported, how many sources were given, and which calls failed.
    ensures ran { RanOver D.device
        (load_plan D.device disk (I.state inputs.old).files (C.state clock.old).next (load_words_of words.now))
        (effects_of disk result.disk (K.state sink.old) (K.state sink.new) result.report)
        (I.state inputs.old) (I.state inputs.new) }

    // Where disk and inputs are known the answer that is due comes, or that of an interruption at its place.
    ensures due { IsTrue D.device.is_transparent → IsSome (I.state inputs.old).files →
        IsDue (load_plan D.device disk (I.state inputs.old).files (C.state clock.old).next
        (load_words_of words.now)) result.report.refusal }

    // What is known of the clock stays known, and one that stands still goes on standing.
    ensures clock { UsedClock (C.state clock.old) (C.state clock.new) }

    // The number of the refusal, and 0 exactly where there's none.
    ensures status { result.status ≡ status_at result.report.refusal }
{
    match words.limit_refusal() {
        None => Ended::of_work(work(rt, alloc, words, disk, inputs, sink, clock, gate)),
        Some(refusal) => Ended::unopened(disk, Some(refusal)),
    }
}

/// Does the command whose words pass no limit: reads the script of a route, where one is given, and then loads the
/// dumps.
fn work<D: Disk + Send, I: Inputs, K: Sink, C: Clock, G: Gate + Sync, R: Threads + Wait + Sync>(
    rt: &R,
    alloc: Global,
    words: &LoadWords<'_>,
    disk: D,
    inputs: &mut I,
    sink: &mut K,
    clock: &mut C,
    gate: &G,
) -> Result<(D, Report), (D, Refusal)>
where
    I::Source: Send,
    requires words { AreLoadWords (load_words_of words.now) }
    requires few { load_limit_refusal (load_words_of words.now) ≡ None }
    ensures ran { RanOver D.device
        (read_load_plan D.device disk (I.state inputs.old).files (C.state clock.old).next (load_words_of words.now))
        (effects_of disk (disk_of_work result) (K.state sink.old) (K.state sink.new) (report_of_work result))
        (I.state inputs.old) (I.state inputs.new) }
    ensures clock { UsedClock (C.state clock.old) (C.state clock.new) }
{
    match words.route {
        None => load_routed(rt, alloc, None, words, disk, inputs, sink, clock, gate),
        Some(name) => match read_limited(alloc, inputs, name, Which::ScriptOctets) {
            Ok(text) => {
                let text = Some(text.as_slice());
                load_routed(rt, alloc, text, words, disk, inputs, sink, clock, gate)
            }
            Err(refusal) => Err((disk, refusal)),
        },
    }
}

/// Reads the sheet of asks, where one is given, and loads the dumps by the route of a text.
fn load_routed<
    D: Disk + Send,
    I: Inputs,
    K: Sink,
    C: Clock,
    G: Gate + Sync,
    R: Threads + Wait + Sync,
>(
    rt: &R,
    alloc: Global,
    text: Option<&[u8]>,
    words: &LoadWords<'_>,
    disk: D,
    inputs: &mut I,
    sink: &mut K,
    clock: &mut C,
    gate: &G,
) -> Result<(D, Report), (D, Refusal)>
where
    I::Source: Send,
    requires words { AreLoadWords (load_words_of words.now) }
    requires few { load_limit_refusal (load_words_of words.now) ≡ None }
    ensures ran { RanOver D.device
        (routed_load_plan D.device disk (I.state inputs.old).files (C.state clock.old).next (load_words_of words.now)
        (option_map (λ text. text.now) text.entry))
        (effects_of disk (disk_of_work result) (K.state sink.old) (K.state sink.new) (report_of_work result))
        (I.state inputs.old) (I.state inputs.new) }
    ensures clock { UsedClock (C.state clock.old) (C.state clock.new) }
{
    match words.asks {
        None => {
            let sheet = Ok(Asks::new(alloc));
            let asked = Asked { words, text, sheet };
            load_archive(rt, alloc, asked, disk, inputs, sink, clock, gate)
        }
        Some(name) => match read_asks(alloc, inputs, name) {
            Ok(sheet) => {
                let asked = Asked { words, text, sheet };
                load_archive(rt, alloc, asked, disk, inputs, sink, clock, gate)
            }
            Err(refusal) => Err((disk, refusal)),
        },
    }
}

/// Opens the dumps, loads them into the archive of a disk, and closes them.
fn load_archive<
    D: Disk + Send,
    I: Inputs,
    K: Sink,
    C: Clock,
    G: Gate + Sync,
    R: Threads + Wait + Sync,
>(
    rt: &R,
    alloc: Global,
    asked: Asked<'_>,
    disk: D,
    inputs: &mut I,
    sink: &mut K,
    clock: &mut C,
    gate: &G,
) -> Result<(D, Report), (D, Refusal)>
where
    I::Source: Send,
    requires words { AreLoadWords (load_words_of asked.words.now) }
    requires few { load_limit_refusal (load_words_of asked.words.now) ≡ None }
    ensures ran { RanOver D.device
        (archive_load_plan D.device disk (I.state inputs.old).files (C.state clock.old).next
        (load_words_of asked.entry.words.now) (option_map (λ text. text.now) asked.entry.text) asked.entry.sheet)
        (effects_of disk (disk_of_work result) (K.state sink.old) (K.state sink.new) (report_of_work result))
        (I.state inputs.old) (I.state inputs.new) }
    ensures clock { UsedClock (C.state clock.old) (C.state clock.new) }
{
    let sources = match open_all(alloc, inputs, asked.words.dumps.as_slice()) {
        Ok(sources) => sources,
        Err(refusal) => return Err((disk, refusal)),
    };
    let moment = clock.now();
    let (loaded, sources) = load_opened(rt, alloc, asked, moment, sources, disk, sink, gate);
    close_all(inputs, sources);
    loaded
}
