//! The command `create`: a new archive.

ghost use Rattle.std.specs.Prelude.{◌≡◌, ℕ, [], ◌∷◌, ◌++◌, IsSome, IsTrue, IfErr, IfOk, codes, option_map, true};
ghost use Rattle.std.specs.List.{AllByRecursion};
ghost use Rattle.text_forms.specs.Names.{is_name};
ghost use Rattle.command_plans.specs.Plan.{IsDue};
ghost use Rattle.command_plans.specs.Inputs.{AnsweredByPlan, WasRead};
ghost use Rattle.field_codec.specs.declared.entry.Entry.TheVariants as entries;
ghost use Rattle.field_codec.specs.Entries.{AreTables, IsArchiveEntry};
ghost use Rattle.command_words.specs.JobView.{create_words_of};
ghost use Rattle.ssql_types.specs.CreatedTables.{created_tables};
ghost use Rattle.command_runs.specs.Command.{Ran, RanOver, effects_of};
ghost use Rattle.archive_commands.specs.Create.{IsHeadAnswer, IsScriptUnread, IsTablesAnswer, create_plan, head_inputs, head_plan, named_inputs, named_script_plan, new_archive_plan};
ghost use Rattle.command_runs.specs.Creation.{create_line};
ghost use Rattle.command_runs.specs.Report.{disk_of_work, report_of_work, status_at};
ghost use Rattle.script_answers.specs.Scripts.{OrNoMemory};

use arch_disk::Disk;
use arch_types::name::{Name, Names};
use arch_types::octets::Octets;
use archive_store::{Head, Store};
use command_plans::read::read_limited;
use command_runs::finishing::finish;
use command_runs::report::{Ended, Report};
use command_words::job::CreateWords;
use line_buffer::LineBuffer;
use mdb_model::{Mdb, RawMdb};
use mdb_sheets::read_mdb;
use outer_traits::inputs::Inputs;
use outer_traits::sink::Sink;
use refusals::{Refusal, Which};
use retrieval::parameter::refusal_of_sheets;
use script_answers::scripts::typed_text;
use ssql_types::place::ScriptPlace;
use ssql_types::statement::TypedStatement;
use std::alloc::{AllocError, Global};

/// Makes an archive with table `tm`, the tables of a script, where one is given, and the database of three sheets, on a disk that holds none.
///
/// Refuses, in this order: each sheet in turn by `Missing`, `ReadFault` or `Limit` SheetOctets; the script by `Missing`, `ReadFault` or `Limit`
/// ScriptOctets; by `BadSheet`; by a `Limit` of the database; by `BadSql` of rule 1 or 2; by `Limit` Statements or SqlDepth; by `BadSql` of the first
/// token with which something is wrong; by `Limit` Tables; by `DiskFault` or `Exists`; by `WriteFault`. `OutOfMemory` may come anywhere before the disk's
/// first write.
pub fn create<D: Disk, I: Inputs, K: Sink>(
    alloc: Global,
    words: CreateWords<'_>,
    disk: D,
    inputs: &mut I,
    sink: &mut K,
) -> Ended<D>
    // It took a way through its plan: where that ends stands what was printed, what became of the disk, what is reported, how many
    // sources were given, and which calls failed.
    ensures ran { RanOver D.device
        (create_plan D.device disk (I.state inputs.old).files (create_words_of words.entry))
        (effects_of disk result.disk (K.state sink.old) (K.state sink.new) result.report)
        (I.state inputs.old) (I.state inputs.new) }

    // Where disk and inputs are known the answer that is due comes, or that of an interruption at its place.
    ensures due { IsTrue D.device.is_transparent → IsSome (I.state inputs.old).files →
        IsDue (create_plan D.device disk (I.state inputs.old).files (create_words_of words.entry))
        result.report.refusal }

    // The number of the refusal, and 0 exactly where there's none.
    ensures status { result.status ≡ status_at result.report.refusal }
{
    Ended::of_work(work(alloc, words, disk, inputs, sink))
}

/// Does the command.
fn work<D: Disk, I: Inputs, K: Sink>(
    alloc: Global,
    words: CreateWords<'_>,
    disk: D,
    inputs: &mut I,
    sink: &mut K,
) -> Result<(D, Report), (D, Refusal)>
    ensures { RanOver D.device (create_plan D.device disk (I.state inputs.old).files (create_words_of words.entry))
        (effects_of disk (disk_of_work result) (K.state sink.old) (K.state sink.new) (report_of_work result))
        (I.state inputs.old) (I.state inputs.new) }
{
    match read_head(alloc, words, inputs) {
        Ok(head) => make(alloc, disk, head, sink),
        Err(refusal) => Err((disk, refusal)),
    }
}

/// The head that three sheets give, and a script, where one is named.
fn read_head<I: Inputs>(
    alloc: Global,
    words: CreateWords<'_>,
    inputs: &mut I,
) -> Result<Head, Refusal>
    // It took a way through its plan, and used the inputs as far as that went.
    ensures read { AnsweredByPlan (head_inputs (create_words_of words.entry))
        (head_plan (I.state inputs.old).files (create_words_of words.entry)) result (I.state inputs.old)
        (I.state inputs.new) }
    ensures entry { IfOk result (λ head. IsArchiveEntry (entries.Head head.tables head.mdb)) }
{
    let sheets = read_mdb(
        alloc,
        inputs,
        words.parameters,
        words.calibrations,
        words.containers,
    )?;
    match read_named_script(alloc, inputs, words.script) {
        Ok(text) => head_of(alloc, &sheets, text.as_slice()),
        Err(refusal) => Err(refusal),
    }
}

/// The octets of a script that may be named; where none is, there is no octet.
fn read_named_script<I: Inputs>(
    alloc: Global,
    inputs: &mut I,
    script: Option<&str>,
) -> Result<Vec<u8>, Refusal>
    ensures read { IfOk result (λ text. WasRead
        (named_script_plan (I.state inputs.old).files (option_map (λ name. name.now) script.entry)) text.items
        (named_inputs (option_map (λ name. name.now) script.entry)) (I.state inputs.old) (I.state inputs.new)) }
    ensures unread { IfErr result (IsScriptUnread (I.state inputs.old).files (option_map (λ name. name.now) script.entry)
        (I.state inputs.old) (I.state inputs.new)) }
{
    match script {
        Some(name) => read_limited(alloc, inputs, name, Which::ScriptOctets),
        // no script is the empty script (D-258)
        None => Ok(Vec::new(alloc)),
    }
}

/// The head of three sheets and the text of a script, or the first refusal of these.
fn head_of(alloc: Global, sheets: &RawMdb, text: &[u8]) -> Result<Head, Refusal>
    ensures answer { OrNoMemory (IsHeadAnswer sheets.now text.now) result }
    ensures entry { IfOk result (λ head. IsArchiveEntry (entries.Head head.tables head.mdb)) }
{
    let mdb = match Mdb::check(alloc, sheets) {
        Ok(mdb) => mdb,
        Err(fault) => return Err(refusal_of_sheets(fault)),
    };
    mdb.is_sound();
    match tables_of(alloc, text) {
        Ok(tables) => Ok(Head { tables, mdb }),
        Err(refusal) => Err(refusal),
    }
}

/// The tables of a new archive: `tm`, and those that the text of a script creates.
fn tables_of(alloc: Global, text: &[u8]) -> Result<Names, Refusal>
    ensures answer { OrNoMemory (IsTablesAnswer text.now) result }
    ensures tables { IfOk result (λ tables. AreTables tables) }
{
    let tm = tm_alone(alloc)?;
    let script = typed_text(alloc, text, ScriptPlace::Create, &tm, &Names::new(alloc))?;
    let tables = with_created(tm, script.as_slice())?;
    if tables.len() as u64 > Which::Tables.limit() {
        return Err(Refusal::Limit {
            which: Which::Tables,
            number: Which::Tables.limit(),
        });
    }
    Ok(tables)
}

/// The table that each archive has.
fn tm_alone(alloc: Global) -> Result<Names, AllocError>
    ensures { IfOk result (λ tables. tables ≡ codes "tm" ∷ []) }
{
    let mut tables = Names::new(alloc);
    tables.push(Name::copy_of(alloc, b"tm")?)?;
    Ok(tables)
}

/// Tables, and behind them those that a script creates.
fn with_created(tables: Names, script: &[TypedStatement]) -> Result<Names, AllocError>
    requires { AllByRecursion (λ table. is_name table ≡ true) tables }
    ensures all { IfOk result (λ all. all ≡ tables ++ created_tables script.now) }
    ensures names { IfOk result (λ all. AllByRecursion (λ table. is_name table ≡ true) all) }
{
    let mut all = tables;
    for statement in script {
        if let TypedStatement::CreateTable(name) = statement {
            name.is_name();
            all.push(name.copy()?)?;
        }
    }
    Ok(all)
}

/// Makes the archive, and prints what it has. Room for the line is taken before, so that no archive is made for which there's none.
fn make<D: Disk, K: Sink>(
    alloc: Global,
    disk: D,
    head: Head,
    sink: &mut K,
) -> Result<(D, Report), (D, Refusal)>
    requires { IsArchiveEntry (entries.Head head.tables head.mdb) }
    // It took a way through its plan, after however many sources were given.
    ensures { (sources : ℕ) → Ran D.device (new_archive_plan sources D.device disk head)
        (effects_of disk (disk_of_work result) (K.state sink.old) (K.state sink.new) (report_of_work result)) }
{
    let Ok(mut line_buffer) = LineBuffer::new(alloc) else {
        return Err((disk, Refusal::OutOfMemory));
    };
    put_line(&mut line_buffer, &head);
    let store = Store::create(alloc, disk, head)?;
    let refusal = finish(line_buffer, sink);
    Ok((store.into_disk(), Report::read_only(refusal, 0)))
}

/// Adds the one line.
fn put_line(line_buffer: &mut LineBuffer, head: &Head)
    requires { line_buffer.old ≡ [] }
    ensures { line_buffer.new ≡ create_line head.now }
{
    line_buffer.put_number(b"created tables ", head.tables.len() as u64);
    line_buffer.put_number(b" parameters ", head.mdb.parameters());
    line_buffer.put_number(b" containers ", head.mdb.containers());
    line_buffer.put(b"\n");
}
