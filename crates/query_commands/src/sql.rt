//! The command `query --sql`: the answers of an archive to a script.

ghost use Rattle.std.specs.Prelude.{◌≡◌, ◌<◌, [], length, IsSome, IsTrue};
ghost use Rattle.std.specs.List.{AllByRecursion};
ghost use Rattle.archive_store.specs.StoreView.{archive_of};
ghost use Rattle.command_plans.specs.Plan.{IsDue};
ghost use Rattle.ssql_types.specs.Laws.{NamesTables};
ghost use Rattle.command_runs.specs.Command.{RanOver, effects_of};
ghost use Rattle.command_runs.specs.Reading.{IsRowsText, WasRead};
ghost use Rattle.command_runs.specs.Report.{disk_of_work, report_of_work, status_at};
ghost use Rattle.query_commands.specs.SqlReplying.{IsTextReply};
ghost use Rattle.query_commands.specs.Sql.{sql_plan};
ghost use Rattle.script_answers.specs.Statements.{packet_names, statements_text};

use arch_disk::Disk;
use arch_types::name::Names;
use arch_types::steps::Steps;
use archive_store::Store;
use command_plans::read::read_limited;
use command_runs::archive_work::{ArchiveWork, with_archive};
use command_runs::finishing::finish;
use command_runs::report::{Ended, Report};
use line_buffer::LineBuffer;
use outer_traits::inputs::Inputs;
use outer_traits::sink::Sink;
use refusals::{Refusal, Which};
use script_answers::scripts::typed_text;
use script_answers::statements::answer_statements;
use ssql_types::place::ScriptPlace;
use ssql_types::statement::TypedStatement;
use std::alloc::Global;
use std::marker::Brand;
use std::sync::ledger::{Blank, Ledger};

/// Answers the statements of a script over the whole history of a disk's archive.
///
/// Refuses, in this order: by `Missing`, `ReadFault` or `Limit` ScriptOctets; by `DiskFault`, `NoArchive` or `Damaged`;
/// by `BadSql` of rule 1 or 2, `Limit` Statements or SqlDepth; at the first token with which something is wrong by
/// `BadSql` of another rule or `UnknownTable`; by `DiskFault` where rows aren't read, or by `WriteFault`, also after
/// some answers. `OutOfMemory` may come anywhere, also after some answers.
pub fn query_sql<D: Disk, I: Inputs, K: Sink>(
    alloc: Global,
    name: &str,
    disk: D,
    inputs: &mut I,
    sink: &mut K,
) -> Ended<D>
    // It took a way through its plan: where that ends stands what was printed, what became of the disk, what is reported, how many
    // sources were given, and which calls failed.
    ensures ran { RanOver D.device
        (sql_plan D.device disk (I.state inputs.old).files name.now)
        (effects_of disk result.disk (K.state sink.old) (K.state sink.new) result.report)
        (I.state inputs.old) (I.state inputs.new) }

    // Where disk and inputs are known the answer that is due comes, or that of an interruption at its place.
    ensures due { IsTrue D.device.is_transparent → IsSome (I.state inputs.old).files →
        IsDue (sql_plan D.device disk (I.state inputs.old).files name.now) result.report.refusal }

    // The number of the refusal, and 0 exactly where there's none.
    ensures status { result.status ≡ status_at result.report.refusal }
{
    Ended::of_work(work(alloc, name, disk, inputs, sink))
}

/// Does the command.
fn work<D: Disk, I: Inputs, K: Sink>(
    alloc: Global,
    name: &str,
    disk: D,
    inputs: &mut I,
    sink: &mut K,
) -> Result<(D, Report), (D, Refusal)>
    ensures { RanOver D.device (sql_plan D.device disk (I.state inputs.old).files name.now)
        (effects_of disk (disk_of_work result) (K.state sink.old) (K.state sink.new) (report_of_work result))
        (I.state inputs.old) (I.state inputs.new) }
{
    match read_limited(alloc, inputs, name, Which::ScriptOctets) {
        Ok(octets) => {
            let text = octets.as_slice();
            with_archive(alloc, disk, sink, TextAnswering { text })
        }
        Err(refusal) => Err((disk, refusal)),
    }
}

/// The answering of a text, as a work with an archive.
#[derive(Drop)]
struct TextAnswering<'a> {
    text: &'a [u8],
}

impl<'a> ArchiveWork for TextAnswering<'a> {
    ghost use Rattle.query_commands.specs.Sql.{text_plan};

    ghost plan = { λ work known found. text_plan known.Tells work.text.now found };

    fn work<D: Disk, K: Sink>(
        self,
        alloc: Global,
        store: Store<D>,
        line_buffer: LineBuffer,
        sink: &mut K,
    ) -> (Store<D>, Report) {
        let mut store = store;
        let front = store.front();
        let refusal = answer_text(alloc, self.text, &mut store, line_buffer, sink);
        (store, Report::read_only(refusal, front))
    }
}

/// Answers a text, or says why it is refused.
fn answer_text<D: Disk, K: Sink>(
    alloc: Global,
    text: &[u8],
    store: &mut Store<D>,
    line_buffer: LineBuffer,
    sink: &mut K,
) -> Option<Refusal>
    requires { line_buffer ≡ [] }
    ensures { IsTextReply D.device store.old store.new text.now result (K.state sink.old) (K.state sink.new) }
{
    match store.names(alloc) {
        Ok(names) => answer_over(alloc, text, &names, store, line_buffer, sink),
        Err(refusal) => Some(refusal),
    }
}

/// The same beside the packet names.
fn answer_over<D: Disk, K: Sink>(
    alloc: Global,
    text: &[u8],
    names: &Names,
    store: &mut Store<D>,
    line_buffer: LineBuffer,
    sink: &mut K,
) -> Option<Refusal>
    requires names { names.now ≡ packet_names store.old.head store.old.history }
    requires empty { line_buffer ≡ [] }
    ensures { IsTextReply D.device store.old store.new text.now result (K.state sink.old) (K.state sink.new) }
{
    store.is_kept();
    let head = store.head();
    match typed_text(alloc, text, ScriptPlace::Sql, &head.tables, names) {
        Ok(script) => {
            let script = script.as_slice();
            let blank = Blank::new(1);
            print_answers::<D, K, Brand>(alloc, blank, script, names, store, line_buffer, sink)
        }
        Err(refusal) => Some(refusal),
    }
}

/// Prints the answers to statements, whose steps are counted in one book, and what is still buffered.
fn print_answers<D: Disk, K: Sink, L: Ledger>(
    alloc: Global,
    blank: Blank,
    statements: &[TypedStatement],
    names: &Names,
    store: &mut Store<D>,
    line_buffer: LineBuffer,
    sink: &mut K,
) -> Option<Refusal>
    requires names { names.now ≡ packet_names store.old.head store.old.history }
    requires tables { AllByRecursion (NamesTables (length store.old.head.tables)) statements.now }
    requires empty { line_buffer ≡ [] }
    requires blank { (blank.name ≡ L.name) × (blank.parts ≡ L.parts) × (0 < blank.parts) }
    ensures printed { IsRowsText D.device store.old result (K.state sink.old) (K.state sink.new)
        (statements_text (archive_of store.old) statements.now) }
    ensures read { WasRead D.device store.old store.new result }
{
    let mut line_buffer = line_buffer;
    let (book, share) = blank.open::<L>();
    let mut steps = Steps::new(book, share);
    match answer_statements(
        alloc,
        statements,
        names,
        store,
        &mut line_buffer,
        sink,
        &mut steps,
    ) {
        Ok(()) => finish(line_buffer, sink),
        Err(fault) => Some(Refusal::from(fault)),
    }
}
