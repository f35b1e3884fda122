//! Dumps that were opened, and the archive that they are loaded into.

ghost use Rattle.std.specs.Prelude.{◌≡◌, ℤ, Option as AnOption, [], IfOk, IfErr, None, Ok, Some, length, option_map};
ghost use Rattle.outer_traits.specs.Outside.{Files};
ghost use Rattle.text_forms.specs.ClockTime.{IsClockTime};
ghost use Rattle.retrieval.specs.FoundAsks.{AreFound, asks_found};
ghost use Rattle.command_words.specs.Job.{AreLoadWords};
ghost use Rattle.command_words.specs.JobView.{load_words_of};
ghost use Rattle.command_words.specs.LoadLimits.{links_refusal, load_limit_refusal};
ghost use Rattle.command_runs.specs.ArchiveWork.{RanWith, UsedByWork, opened_plan};
ghost use Rattle.command_runs.specs.Command.{effects_of};
ghost use Rattle.command_runs.specs.Healing.{TriesToHeal};
ghost use Rattle.command_runs.specs.Moment.{IsMomentOf};
ghost use Rattle.command_runs.specs.Opened.{IsOpenedOn, WasOpened};
ghost use Rattle.command_runs.specs.Report.{disk_of_work, report_of_work};
ghost use Rattle.archive_store.specs.Keeping.{IsKept};
ghost use Rattle.archive_store.specs.StoreView.{StoreView, archive_of, filled_of};
ghost use Rattle.live_asks.specs.LiveAsks.{disk_facts};
ghost use Rattle.live_session.specs.Outcome.{lefts_of};
ghost use Rattle.load_session.specs.Receiving.{IsRouteOver};
ghost use Rattle.script_answers.specs.Scripts.{OrNoMemory};
ghost use Rattle.load_command.specs.Load.{loading_plan};
ghost use Rattle.ask_answers.specs.Asks.{AreAnswerable};
ghost use Rattle.load_command.specs.Loading.{HaveUsedSources, IsReady, IsRouteAnswer, IsRouteOrSheetRefused, IsUnready, dumps_of, load_asked};

use crate::running::run_jobs;
use arch_disk::Disk;
use archive_store::Store;
use ask_answers::answers::check_asks;
use asks::Asks;
use command_runs::healing::heal;
use command_runs::report::Report;
use command_words::job::LoadWords;
use line_buffer::LineBuffer;
use outer_traits::gate::Gate;
use outer_traits::sink::Sink;
use outer_traits::source::Source;
use refusals::Refusal;
use retrieval::found_asks::FoundAsks;
use script_answers::scripts::typed_text;
use ssql_types::place::ScriptPlace;
use std::alloc::Global;
use std::sync::Wait;
use std::thread::Threads;
use stream_graph::graph::Graph;

/// What a load is asked.
#[derive(Drop)]
pub(crate) struct Asked<'a> {
    pub(crate) words: &'a LoadWords<'a>,
    /// That of the route, where one is given.
    pub(crate) text: Option<&'a [u8]>,
    pub(crate) sheet: Result<Asks, Refusal>,
}

/// Opens the archive of a disk, loads dumps into it that were opened, takes back a write that failed, and gives the
/// disk and the dumps back. Room for the line is taken before.
pub(crate) fn load_opened<
    D: Disk + Send,
    S: Source + Send + Drop,
    K: Sink,
    G: Gate + Sync,
    R: Threads + Wait + Sync,
>(
    rt: &R,
    alloc: Global,
    asked: Asked<'_>,
    moment: i64,
    sources: Vec<S>,
    disk: D,
    sink: &mut K,
    gate: &G,
) -> (Result<(D, Report), (D, Refusal)>, Vec<S>)
    requires words { AreLoadWords (load_words_of asked.words.now) }
    requires few { load_limit_refusal (load_words_of asked.words.now) ≡ None }
    requires opened { length sources.items ≡ length (load_words_of asked.words.now).dumps }
    requires moment { IsClockTime moment }
    // By whichever inputs gave the sources, and whichever clock told the moment.
    ensures { (files : AnOption Files) (next : AnOption ℤ) →
        lefts_of S.state sources.items ≡ dumps_of files (load_words_of asked.entry.words.now).dumps →
        IsMomentOf next moment →
        RanWith D.device (opened_plan (length sources.items) D.device disk (λ known.
        loading_plan (disk_facts D.device disk) files next (load_asked (load_words_of asked.entry.words.now)
        (option_map (λ text. text.now) asked.entry.text) asked.entry.sheet)))
        (effects_of disk (disk_of_work result.0) (K.state sink.old) (K.state sink.new) (report_of_work result.0))
        (UsedByWork (length sources.items) sources.items result.1.items
        (HaveUsedSources S.state sources.items result.1.items)) }
{
    let Ok(line_buffer) = LineBuffer::new(alloc) else {
        return (Err((disk, Refusal::OutOfMemory)), sources);
    };
    let store = match Store::open(alloc, disk) {
        Ok(store) => store,
        Err(refused) => return (Err(refused), sources),
    };
    let (mut store, sources, report) = load_into(
        rt,
        alloc,
        asked,
        moment,
        sources,
        store,
        line_buffer,
        sink,
        gate,
    );
    heal(&mut store);
    store.is_kept();
    (Ok((store.into_disk(), report)), sources)
}

/// Loads dumps that were opened into an archive that was, where there's a link for each, the text of the route is none
/// that is refused, and the asks of the sheet are found in the archive. A write that failed stays pending.
fn load_into<
    D: Disk + Send,
    S: Source + Send + Drop,
    K: Sink,
    G: Gate + Sync,
    R: Threads + Wait + Sync,
>(
    rt: &R,
    alloc: Global,
    asked: Asked<'_>,
    moment: i64,
    sources: Vec<S>,
    store: Store<D>,
    line_buffer: LineBuffer,
    sink: &mut K,
    gate: &G,
) -> (Store<D>, Vec<S>, Report)
    requires words { AreLoadWords (load_words_of asked.words.now) }
    requires few { load_limit_refusal (load_words_of asked.words.now) ≡ None }
    requires dumps { length sources.items ≡ length (load_words_of asked.words.now).dumps }
    requires moment { IsClockTime moment }
    requires empty { line_buffer ≡ [] }
    requires opened { WasOpened D.device store }

    // Whichever disk it was opened on, and whatever taking a failed write back leaves: it took a way through its plan,
    // and did what is said where that ends. What a store keeps is given.
    ensures { (disk : D) (healed : StoreView D) (files : AnOption Files) (next : AnOption ℤ) →
        IsOpenedOn D.device disk store → TriesToHeal D.device result.0 healed → IsKept D.device healed →
        lefts_of S.state sources.items ≡ dumps_of files (load_words_of asked.entry.words.now).dumps →
        IsMomentOf next moment →
        RanWith D.device (loading_plan (disk_facts D.device disk) files next (load_asked
        (load_words_of asked.entry.words.now) (option_map (λ text. text.now) asked.entry.text) asked.entry.sheet)
        (filled_of store))
        (effects_of disk healed.disk (K.state sink.old) (K.state sink.new) result.2)
        (HaveUsedSources S.state sources.items result.1.items) }
{
    let Asked { words, text, sheet } = asked;
    match made_ready(alloc, &store, words, text, sheet) {
        Ok(ready) => {
            let Ready { graph, asks } = ready;
            run_jobs(
                rt,
                alloc,
                words,
                graph,
                asks,
                moment,
                sources,
                store,
                line_buffer,
                sink,
                gate,
            )
        }
        Err(refusal) => {
            let report = Report::read_only(Some(refusal), store.front());
            (store, sources, report)
        }
    }
}

/// The route of packets, and the asks that are answered.
#[derive(Drop)]
struct Ready {
    graph: Graph,
    asks: FoundAsks,
}

/// The route and the asks of a load, where there's a link for each dump and neither is refused.
fn made_ready<D: Disk>(
    alloc: Global,
    store: &Store<D>,
    words: &LoadWords<'_>,
    text: Option<&[u8]>,
    sheet: Result<Asks, Refusal>,
) -> Result<Ready, Refusal>
    ensures ready { IfOk result (λ ready. IsReady (archive_of store.now)
        (load_asked (load_words_of words.now) (option_map (λ text. text.now) text.entry) sheet) ready.graph
        (asks_found ready.asks)) }
    ensures found { IfOk result (λ ready. AreFound store.now.head store.now.history ready.asks) }
    ensures route { IfOk result (λ ready. IsRouteOver store.now.head ready.graph) }
    ensures unready { IfErr result (IsUnready (archive_of store.now)
        (load_asked (load_words_of words.now) (option_map (λ text. text.now) text.entry) sheet)) }
{
    match words.links_refusal() {
        None => route_and_asks(alloc, store, text, sheet),
        Some(refusal) => Err(refusal),
    }
}

/// The route and the asks of a load, where neither is refused.
fn route_and_asks<D: Disk>(
    alloc: Global,
    store: &Store<D>,
    text: Option<&[u8]>,
    sheet: Result<Asks, Refusal>,
) -> Result<Ready, Refusal>
    ensures answered { IfOk result (λ ready. IsRouteAnswer (archive_of store.now)
        (option_map (λ text. text.now) text.entry) (Ok ready.graph)) }
    ensures answerable { IfOk result (λ ready. AreAnswerable (archive_of store.now) sheet (asks_found ready.asks)) }
    ensures found { IfOk result (λ ready. AreFound store.now.head store.now.history ready.asks) }
    ensures route { IfOk result (λ ready. IsRouteOver store.now.head ready.graph) }
    ensures refused { IfErr result (IsRouteOrSheetRefused (archive_of store.now)
        (option_map (λ text. text.now) text.entry) sheet) }
{
    let graph = route_of_load(alloc, store, text)?;
    let asks = check_asks(alloc, store, sheet)?;
    Ok(Ready { graph, asks })
}

/// The route of a load: that of a text, or where none is given the one of every packet into `tm`.
fn route_of_load<D: Disk>(
    alloc: Global,
    store: &Store<D>,
    text: Option<&[u8]>,
) -> Result<Graph, Refusal>
    ensures answer { OrNoMemory
        (IsRouteAnswer (archive_of store.now) (option_map (λ text. text.now) text.entry)) result }
    ensures over { IfOk result (IsRouteOver store.now.head) }
{
    match text {
        None => every_packet(alloc, store),
        Some(text) => scripted_route(alloc, store, text),
    }
}

/// The route of a load that is given none.
fn every_packet<D: Disk>(alloc: Global, store: &Store<D>) -> Result<Graph, Refusal>
    ensures answer { OrNoMemory (IsRouteAnswer (archive_of store.now) None) result }
    ensures over { IfOk result (IsRouteOver store.now.head) }
{
    store.is_kept();
    match Graph::every_packet(alloc) {
        Ok(graph) => Ok(graph),
        Err(_) => Err(Refusal::OutOfMemory),
    }
}

/// The route of a script's text over the tables and packet names of an archive.
fn scripted_route<D: Disk>(alloc: Global, store: &Store<D>, text: &[u8]) -> Result<Graph, Refusal>
    ensures answer { OrNoMemory (IsRouteAnswer (archive_of store.now) (Some text.now)) result }
    ensures over { IfOk result (IsRouteOver store.now.head) }
{
    let names = store.names(alloc)?;
    store.is_kept();
    let tables = &store.head().tables;
    let script = typed_text(alloc, text, ScriptPlace::Route, tables, &names)?;
    match Graph::of(alloc, &script) {
        Ok(graph) => Ok(graph),
        Err(_) => Err(Refusal::OutOfMemory),
    }
}
