//! The jobs of a load, what is filled behind them, and what is printed.

ghost use Rattle.std.specs.Prelude.{◌≡◌, ◌<◌, ◌≤◌, ◌+◌, ◌-◌, ◌++◌, ℕ, ℤ, Option as AnOption, [], None, OnErr, Some, length};
ghost use Rattle.refusals.specs.Limits.{limit_of};
ghost use Rattle.outer_traits.specs.Outside.{Files};
ghost use Rattle.text_forms.specs.ClockTime.{IsClockTime};
ghost use Rattle.line_buffer.specs.LineRoom.{HasLineRoom};
ghost use Rattle.retrieval.specs.FoundAsks.{AreFound, asks_found};
ghost use Rattle.ask_answers.specs.Collected.{AreAnswersTo};
ghost use Rattle.command_words.specs.Job.{AreLoadWords};
ghost use Rattle.command_words.specs.JobView.{load_words_of};
ghost use Rattle.command_words.specs.LoadLimits.{links_refusal, load_limit_refusal};
ghost use Rattle.command_runs.specs.ArchiveWork.{RanWith};
ghost use Rattle.command_runs.specs.Command.{AllFilled, HasDiskOutcome, Ran, effects_of};
ghost use Rattle.command_runs.specs.Healing.{TriesToHeal};
ghost use Rattle.command_runs.specs.Moment.{IsMomentOf};
ghost use Rattle.command_runs.specs.Opened.{IsOpenedOn, WasOpened};
ghost use Rattle.archive_store.specs.Entries.{FilledArchive};
ghost use Rattle.archive_store.specs.Keeping.{IsKept};
ghost use Rattle.archive_store.specs.StoreView.{StoreView, archive_of, filled_of};
ghost use Rattle.live_asks.specs.LiveAsks.{disk_facts};
ghost use Rattle.live_session.specs.Outcome.{JobsOutcome, lefts_of};
ghost use Rattle.load_session.specs.Receiving.{IsRouteOver};
ghost use Rattle.load_command.specs.Load.{jobs_plan, load_printing_plan};
ghost use Rattle.load_command.specs.LoadLine.{load_line};
ghost use Rattle.load_command.specs.Loading.{HaveUsedSources, IsBehindJobs, dumps_of};

use crate::reports::{reported_of_load, stopped};
use arch_disk::Disk;
use archive_store::Store;
use ask_answers::collected::print_collected_answers;
use command_runs::finishing::finish;
use command_runs::report::{LoadCounts, Report};
use command_words::job::LoadWords;
use line_buffer::LineBuffer;
use live_asks::AskAnswer;
use live_session::{DumpCounts, LoadJob, Loaded, load};
use load_session::fill_late;
use outer_traits::gate::Gate;
use outer_traits::sink::Sink;
use outer_traits::source::Source;
use refusals::Refusal;
use retrieval::found_asks::{FoundAsk, FoundAsks};
use std::alloc::Global;
use std::sync::Wait;
use std::thread::Threads;
use stream_graph::graph::Graph;

/// Runs the jobs of a load over an archive, and fills what is late behind them whatever they came to. Then it prints
/// the answers to the asks and what became of the packets, or reports why not. A write that failed stays pending: what
/// comes behind takes it back.
pub(crate) fn run_jobs<
    D: Disk + Send,
    S: Source + Send + Drop,
    K: Sink,
    G: Gate + Sync,
    R: Threads + Wait + Sync,
>(
    rt: &R,
    alloc: Global,
    words: &LoadWords<'_>,
    graph: Graph,
    asks: FoundAsks,
    moment: i64,
    sources: Vec<S>,
    store: Store<D>,
    line_buffer: LineBuffer,
    sink: &mut K,
    gate: &G,
) -> (Store<D>, Vec<S>, Report)
    requires words { AreLoadWords (load_words_of words.now) }
    requires few { load_limit_refusal (load_words_of words.now) ≡ None }
    requires links { links_refusal (load_words_of words.now) ≡ None }
    requires dumps { length sources.items ≡ length (load_words_of words.now).dumps }
    requires moment { IsClockTime moment }
    requires found { AreFound store.head store.history asks }
    requires route { IsRouteOver store.head graph }
    requires empty { line_buffer ≡ [] }
    requires opened { WasOpened D.device store }

    // Whichever disk it was opened on, and whatever taking a failed write back leaves: it took a way through the plan
    // of the jobs, and did what is said where that ends. What a store keeps is given.
    ensures { (disk : D) (healed : StoreView D) (files : AnOption Files) (next : AnOption ℤ) →
        IsOpenedOn D.device disk store → TriesToHeal D.device result.0 healed → IsKept D.device healed →
        lefts_of S.state sources.items ≡ dumps_of files (load_words_of words.now).dumps → IsMomentOf next moment →
        RanWith D.device (jobs_plan (disk_facts D.device disk) files next (load_words_of words.now) (filled_of store)
        graph (asks_found asks)) (effects_of disk healed.disk (K.state sink.old) (K.state sink.new) result.2)
        (HaveUsedSources S.state sources.items result.1.items) }
{
    store.is_kept();
    let before = store.front();
    let job = LoadJob {
        moment,
        link: words.link as u16,
        sources,
        graph,
        fillers: words.fillers as usize,
    };
    let Loaded {
        mut store,
        sources,
        reported,
        counts,
        answers,
    } = load(rt, alloc, store, job, asks.as_slice(), gate);
    let filled = fill_late(alloc, &mut store);
    match reported_of_load(reported, filled) {
        None => {
            let report = print(
                alloc,
                &store,
                before,
                counts,
                asks.as_slice(),
                answers.as_slice(),
                line_buffer,
                sink,
            );
            (store, sources, report)
        }
        Some(reported) => {
            let report = stopped(before, store.front(), reported.link, reported.refusal);
            (store, sources, report)
        }
    }
}

/// Prints the answers that readers gave to asks, and what became of the packets of whole dumps.
fn print<D: Disk, K: Sink>(
    alloc: Global,
    store: &Store<D>,
    before: u64,
    dumps: DumpCounts,
    asks: &[FoundAsk],
    answers: &[AskAnswer],
    line_buffer: LineBuffer,
    sink: &mut K,
) -> Report
    requires found { AreFound store.now.head store.now.history asks.now }
    requires answered { AreAnswersTo (asks_found asks.now) answers.now }
    requires empty { line_buffer ≡ [] }
    requires grown { before ≤ length store.now.history }
    requires counts { length store.now.history ≤ before + dumps.routed }

    // Whichever archive was opened, whatever its jobs came to, and whichever disk is left: where the store stands behind
    // these jobs, it took a way through the plan of what is printed, and did what is said where that ends.
    ensures { (disk : D) (left : D) (sources : ℕ) (opened : FilledArchive) (outcome : JobsOutcome) →
        IsBehindJobs opened.plain outcome (archive_of store.now) dumps answers.now →
        before ≡ length opened.plain.history →
        HasDiskOutcome D.device disk left outcome.unread (AllFilled opened outcome.reached) →
        Ran D.device (load_printing_plan sources opened (asks_found asks.now) outcome)
        (effects_of disk left (K.state sink.old) (K.state sink.new) result) }
{
    let mut line_buffer = line_buffer;
    let after = store.front();
    let rows = store.row_count();
    let counts = LoadCounts {
        packets: dumps.packets,
        duplicates: dumps.routed - (after - before),
        idle: dumps.idle,
    };
    match print_collected_answers(alloc, asks, answers, store, &mut line_buffer, sink) {
        Ok(()) => {
            put_line(&mut line_buffer, counts, after - before, rows);
            match finish(line_buffer, sink) {
                None => Report::loaded(None, None, before, after, counts),
                Some(refusal) => stopped(before, after, None, refusal),
            }
        }
        Err(fault) => stopped(before, after, None, Refusal::from(fault)),
    }
}

/// Adds the last line.
fn put_line(line_buffer: &mut LineBuffer, counts: LoadCounts, new: u64, rows: u64)
    requires { HasLineRoom line_buffer.old }
    ensures { line_buffer.new ≡ line_buffer.old ++ load_line counts.packets new counts.duplicates counts.idle rows }
{
    line_buffer.put_number(b"load packets ", counts.packets);
    line_buffer.put_number(b" new ", new);
    line_buffer.put_number(b" duplicates ", counts.duplicates);
    line_buffer.put_number(b" idle ", counts.idle);
    line_buffer.put_number(b" rows ", rows);
    line_buffer.put(b"\n");
}
