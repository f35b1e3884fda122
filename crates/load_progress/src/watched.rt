//! The jobs of a command that may be watched.

ghost use Rattle.std.specs.Prelude.{◌≡◌, map, option_map, string_bytes, Some, IfOk, IfErr};
ghost use Rattle.command_words.specs.Job.{IsNoJob, job_of};
ghost use Rattle.command_words.specs.JobView.{job_view};
ghost use Rattle.load_progress.specs.Watched.{jobs_watched};

use command_words::{Job, job_of};
use refusals::Refusal;
use std::alloc::Global;

/// The jobs of a load, as far as its words tell: by number links come first, then readers, and then fillers.
#[derive(Clone, Copy, Debug)]
pub struct WatchedJobs {
    pub links: u64,
    /// There are no readers, so that all jobs behind the links are fillers.
    pub asks_nothing: bool,
}

/// Those of the words behind the program's name: a load's, or what `make` loads. Another command has none. Refused
/// where they are no job, or memory is wanting.
pub fn watched_jobs(alloc: Global, words: &[String]) -> Result<WatchedJobs, Refusal>
    ensures jobs { IfOk result (λ jobs. option_map jobs_watched (job_of (map (λ w. string_bytes w) words.entry.now))
        ≡ Some jobs) }
    ensures none { IfErr result (IsNoJob (job_of (map (λ w. string_bytes w) words.entry.now))) }
{
    let job = job_of(alloc, words)?;
    Ok(jobs_watched(&job))
}

/// Those of a job.
fn jobs_watched(job: &Job<'_>) -> WatchedJobs
    ensures { result ≡ jobs_watched (job_view job.now) }
{
    match job {
        Job::Load(words) => WatchedJobs {
            links: words.dumps.len() as u64,
            asks_nothing: words.asks.is_none(),
        },
        Job::Make { .. } => WatchedJobs {
            links: 2,
            asks_nothing: true,
        },
        _ => WatchedJobs {
            links: 0,
            asks_nothing: false,
        },
    }
}
