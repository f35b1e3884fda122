//! The command `query --ask`: the answers of an archive to a sheet of asks.

ghost use Rattle.std.specs.Prelude.{◌≡◌, ◌<◌, [], IsSome, IsTrue, None};
ghost use Rattle.archive_store.specs.StoreView.{filled_of};
ghost use Rattle.retrieval.specs.FoundAsks.{AreFound, asks_found};
ghost use Rattle.command_plans.specs.Plan.{IsDue};
ghost use Rattle.ask_answers.specs.Asks.{archive_asks_text};
ghost use Rattle.command_runs.specs.Command.{RanOver, effects_of};
ghost use Rattle.command_runs.specs.Reading.{IsRowsText, WasRead};
ghost use Rattle.query_commands.specs.Query.{query_plan};
ghost use Rattle.query_commands.specs.QueryReplying.{IsSheetReply};
ghost use Rattle.command_runs.specs.Report.{disk_of_work, report_of_work, status_at};

use arch_disk::Disk;
use arch_types::steps::Steps;
use archive_store::Store;
use ask_answers::answers::{check_asks, print_asks};
use asks::Asks;
use command_runs::archive_work::{ArchiveWork, with_archive};
use command_runs::finishing::finish;
use command_runs::report::{Ended, Report};
use line_buffer::LineBuffer;
use mdb_sheets::read_asks;
use outer_traits::inputs::Inputs;
use outer_traits::sink::Sink;
use refusals::Refusal;
use retrieval::found_asks::FoundAsk;
use std::alloc::Global;
use std::marker::Brand;
use std::sync::ledger::{Blank, Ledger};

/// Answers the asks of a sheet over the whole history of a disk's archive.
///
/// Refuses, in this order: by `Missing`, `ReadFault` or `Limit` SheetOctets; by `DiskFault`, `NoArchive` or `Damaged`;
/// by `BadSheet`; by `Limit` Asks; each ask in turn by `UnknownParameter` or `UnknownTable`, then by `BadRange`; by
/// `DiskFault` where rows aren't read, or by `WriteFault`, also after some answers. `OutOfMemory` may come anywhere,
/// also after some answers.
pub fn query<D: Disk, I: Inputs, K: Sink>(
    alloc: Global,
    name: &str,
    disk: D,
    inputs: &mut I,
    sink: &mut K,
) -> Ended<D>
    // It took a way through its plan: where that ends stands what was printed, what became of the disk, what is reported, how many
    // sources were given, and which calls failed.
    ensures ran { RanOver D.device
        (query_plan D.device disk (I.state inputs.old).files name.now)
        (effects_of disk result.disk (K.state sink.old) (K.state sink.new) result.report)
        (I.state inputs.old) (I.state inputs.new) }

    // Where disk and inputs are known the answer that is due comes, or that of an interruption at its place.
    ensures due { IsTrue D.device.is_transparent → IsSome (I.state inputs.old).files →
        IsDue (query_plan D.device disk (I.state inputs.old).files name.now) result.report.refusal }

    // The number of the refusal, and 0 exactly where there's none.
    ensures status { result.status ≡ status_at result.report.refusal }
{
    Ended::of_work(work(alloc, name, disk, inputs, sink))
}

/// Does the command.
fn work<D: Disk, I: Inputs, K: Sink>(
    alloc: Global,
    name: &str,
    disk: D,
    inputs: &mut I,
    sink: &mut K,
) -> Result<(D, Report), (D, Refusal)>
    ensures { RanOver D.device (query_plan D.device disk (I.state inputs.old).files name.now)
        (effects_of disk (disk_of_work result) (K.state sink.old) (K.state sink.new) (report_of_work result))
        (I.state inputs.old) (I.state inputs.new) }
{
    match read_asks(alloc, inputs, name) {
        Ok(sheet) => with_archive(alloc, disk, sink, SheetAnswering { sheet }),
        Err(refusal) => Err((disk, refusal)),
    }
}

/// The answering of a sheet, as a work with an archive.
#[derive(Drop)]
struct SheetAnswering {
    sheet: Result<Asks, Refusal>,
}

impl ArchiveWork for SheetAnswering {
    ghost use Rattle.query_commands.specs.Query.{answering_plan};

    ghost plan = { λ work known found. answering_plan known.Tells work.sheet found };

    fn work<D: Disk, K: Sink>(
        self,
        alloc: Global,
        store: Store<D>,
        line_buffer: LineBuffer,
        sink: &mut K,
    ) -> (Store<D>, Report) {
        let mut store = store;
        let front = store.front();
        let refusal = answer_sheet(alloc, self.sheet, &mut store, line_buffer, sink);
        (store, Report::read_only(refusal, front))
    }
}

/// Prints the answers to a sheet, or says why it is refused.
fn answer_sheet<D: Disk, K: Sink>(
    alloc: Global,
    sheet: Result<Asks, Refusal>,
    store: &mut Store<D>,
    line_buffer: LineBuffer,
    sink: &mut K,
) -> Option<Refusal>
    requires { line_buffer ≡ [] }
    ensures { IsSheetReply D.device store.old store.new sheet result (K.state sink.old) (K.state sink.new) }
{
    match check_asks(alloc, store, sheet) {
        Ok(asks) => {
            let asks = asks.as_slice();
            answer_asks::<D, K, Brand>(alloc, Blank::new(1), asks, store, line_buffer, sink)
        }
        Err(refusal) => Some(refusal),
    }
}

/// Prints the answers to asks that were found, whose steps are counted in one book.
fn answer_asks<D: Disk, K: Sink, L: Ledger>(
    alloc: Global,
    blank: Blank,
    asks: &[FoundAsk],
    store: &mut Store<D>,
    line_buffer: LineBuffer,
    sink: &mut K,
) -> Option<Refusal>
    requires found { AreFound store.old.head store.old.history asks.now }
    requires empty { line_buffer ≡ [] }
    requires blank { (blank.name ≡ L.name) × (blank.parts ≡ L.parts) × (0 < blank.parts) }
    ensures printed { IsRowsText D.device store.old result (K.state sink.old) (K.state sink.new)
        (archive_asks_text (filled_of store.old) 1 (asks_found asks.now)) }
    ensures read { WasRead D.device store.old store.new result }
{
    let mut line_buffer = line_buffer;
    let (book, share) = blank.open::<L>();
    let mut steps = Steps::new(book, share);
    match print_asks(alloc, asks, store, &mut line_buffer, sink, &mut steps) {
        Ok(()) => finish(line_buffer, sink),
        Err(fault) => Some(Refusal::from(fault)),
    }
}
