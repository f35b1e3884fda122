//! What a job that passes the gate of a load has done since its last pass.

ghost use Rattle.std.specs.Prelude.{◌≡◌};
ghost use Rattle.load_progress.specs.Passes.{fills_behind, packets_behind};

use crate::watched::WatchedJobs;

/// How many packets a batch has that isn't the last of a dump.
const BATCH: u64 = 64;

/// How many packets it has sent.
pub fn packets_behind(jobs: WatchedJobs, job: u32, turn: u64) -> u64
    ensures { result ≡ packets_behind jobs job turn }
{
    if u64::from(job) <= jobs.links && turn > 1 {
        BATCH
    } else {
        0
    }
}

/// How many fills it has handed in, whether they were installed or were stale. Where readers may stand before the
/// fillers nothing is known of it.
pub fn fills_behind(jobs: WatchedJobs, job: u32, turn: u64) -> u64
    ensures { result ≡ fills_behind jobs job turn }
{
    if jobs.asks_nothing && u64::from(job) > jobs.links && turn > 1 {
        turn % 2
    } else {
        0
    }
}
