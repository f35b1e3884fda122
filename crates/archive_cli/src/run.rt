//! The top call.

ghost use Rattle.std.specs.Prelude.{◌≡◌, IsSome, IsTrue, map, string_bytes, Some, ◌<◌};
ghost use Rattle.command_plans.specs.Ledger.{UsedClock};
ghost use Rattle.command_plans.specs.Plan.{IsDue};
ghost use Rattle.command_words.specs.JobView.{job_view};
ghost use Rattle.command_words.specs.Job.{HasLoadWords, job_of};
ghost use Rattle.command_runs.specs.Command.{RanOver, effects_of};
ghost use Rattle.archive_cli.specs.Run.{job_plan, run_plan};
ghost use Rattle.command_runs.specs.Report.{status_at};

use arch_disk::Disk;
use archive_commands::create::create;
use archive_commands::recover::recover;
use archive_commands::verify::verify;
use command_runs::report::Ended;
use command_words::job::{Job, job_of};
use dump_commands::scan::scan;
use dump_commands::values::values;
use load_command::load::load;
use make_command::make::make;
use outer_traits::clock::Clock;
use outer_traits::gate::Gate;
use outer_traits::inputs::Inputs;
use outer_traits::sink::Sink;
use query_commands::query::query;
use query_commands::sql::query_sql;
use refusals::Refusal;
use std::alloc::Global;
use std::sync::Wait;
use std::thread::Threads;

/// Does what the words ask, and says how it ended. Of all commands `load` and `make` alone may wait: their jobs pass the gate before their turns.
pub fn run<D: Disk + Send, I: Inputs, K: Sink, C: Clock, G: Gate + Sync, R: Threads + Wait + Sync>(
    rt: &R,
    alloc: Global,
    words: &[String],
    disk: D,
    inputs: &mut I,
    sink: &mut K,
    clock: &mut C,
    gate: &G,
) -> Ended<D>
where
    I::Source: Send,
    // It took a way through its plan: where that ends stands what was printed, what became of the disk, what is reported, how many
    // sources were given, and which calls failed.
    ensures ran { RanOver D.device
        (run_plan D.device disk (I.state inputs.old).files (C.state clock.old).next
        (map (λ w. string_bytes w) words.now))
        (effects_of disk result.disk (K.state sink.old) (K.state sink.new) result.report)
        (I.state inputs.old) (I.state inputs.new) }

    // Where disk and inputs are known the answer that is due comes, or that of an interruption at its place.
    ensures due { IsTrue D.device.is_transparent → IsSome (I.state inputs.old).files →
        IsDue (run_plan D.device disk (I.state inputs.old).files (C.state clock.old).next
        (map (λ w. string_bytes w) words.now)) result.report.refusal }

    // What is known of the clock stays known, and one that stands still goes on standing.
    ensures clock { UsedClock (C.state clock.old) (C.state clock.new) }

    // The number of the refusal, and 0 exactly where there's none.
    ensures status { result.status ≡ status_at result.report.refusal }
{
    match job_of(alloc, words) {
        Ok(job) => run_job(rt, alloc, job, disk, inputs, sink, clock, gate),
        Err(refusal) => Ended::unopened(disk, Some(refusal)),
    }
}

/// Does a job.
fn run_job<D: Disk + Send, I: Inputs, K: Sink, C: Clock, G: Gate + Sync, R: Threads + Wait + Sync>(
    rt: &R,
    alloc: Global,
    job: Job<'_>,
    disk: D,
    inputs: &mut I,
    sink: &mut K,
    clock: &mut C,
    gate: &G,
) -> Ended<D>
where
    I::Source: Send,
    requires words { HasLoadWords (job_view job) }
    ensures ran { RanOver D.device
        (job_plan D.device disk (I.state inputs.old).files (C.state clock.old).next (job_view job.entry))
        (effects_of disk result.disk (K.state sink.old) (K.state sink.new) result.report)
        (I.state inputs.old) (I.state inputs.new) }
    ensures due { IsTrue D.device.is_transparent → IsSome (I.state inputs.old).files →
        IsDue (job_plan D.device disk (I.state inputs.old).files (C.state clock.old).next (job_view job.entry))
        result.report.refusal }
    ensures clock { UsedClock (C.state clock.old) (C.state clock.new) }
    ensures status { result.status ≡ status_at result.report.refusal }
{
    match job {
        Job::Scan { dump } => scan(alloc, dump, disk, inputs, sink, clock),
        Job::Values(words) => values(alloc, words, disk, inputs, sink, clock),
        Job::Create(words) => create(alloc, words, disk, inputs, sink),
        Job::Load(words) => load(rt, alloc, &words, disk, inputs, sink, clock, gate),
        Job::Query { asks } => query(alloc, asks, disk, inputs, sink),
        Job::Sql { script } => query_sql(alloc, script, disk, inputs, sink),
        Job::Recover => recover(alloc, disk, sink),
        Job::Verify => verify(alloc, disk, sink),
        Job::Make { seed } => make(rt, alloc, seed, disk, sink, clock, gate),
    }
}
