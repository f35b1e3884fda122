//! Jobs that are run beside each other.

ghost use Rattle.std.specs.Prelude.{◌≡◌, ◌≤◌, ◌+◌, [], IsSomeAnd, None, vec_len, vec_capacity};
ghost use Rattle.std.specs.List.{AllByRecursion};
ghost use Rattle.std.specs.Thread.{IsSync};
ghost use Rattle.jobs.specs.Ends.{Ends};

use crate::job::Job;
use std::sync::Wait;
use std::thread::{Threads, join_mut};

/// Runs the job that waits.
fn run_waiting<J: Job, R: Wait>(rt: &R, waiting: &mut Option<J>) -> J::Done
    requires { IsSomeAnd waiting.old J.may }
    ensures none { waiting.new ≡ None }
    ensures did { IsSomeAnd waiting.old (λ job. J.did job result) }
{
    let Some(job) = waiting.take() else {
        unreachable!()
    };
    job.run(rt)
}

/// Runs the job that waits beside the others.
#[cycle(running_all)]
fn run_beside<J: Job + Send, R: Threads + Wait + Sync>(
    rt: &R,
    waiting: &mut Option<J>,
    jobs: &mut Vec<J>,
    done: &mut Vec<J::Done>,
) -> J::Done
    requires waits { IsSomeAnd waiting.old J.may }
    requires room { vec_len done.old + vec_len jobs.old ≤ vec_capacity done.old }
    requires may { AllByRecursion J.may jobs.old.items }
    ensures ran { (waiting.new ≡ None) × IsSomeAnd waiting.old (λ job. J.did job result) }
    ensures none { jobs.new.items ≡ [] }
    ensures did { Ends J.did jobs.old.items done.old.items done.new.items }
    ensures room { (vec_len done.new ≡ vec_len done.old + vec_len jobs.old)
        × (vec_capacity done.new ≡ vec_capacity done.old) }
{
    let (end, ()) = join_mut(
        rt,
        &mut || -> J::Done
            requires { IsSync R.row × IsSomeAnd waiting.now J.may }
            ensures { (waiting.exit.now ≡ None) × IsSomeAnd waiting.entry.now (λ job. J.did job result) }
        { run_waiting(rt, waiting) },
        &mut || -> ()
            requires { IsSync R.row × (vec_len done.now + vec_len jobs.now ≤ vec_capacity done.now)
                × AllByRecursion J.may jobs.now.items }
            ensures { (jobs.exit.now.items ≡ [])
                × Ends J.did jobs.entry.now.items done.entry.now.items done.exit.now.items
                × (vec_len done.exit.now ≡ vec_len done.entry.now + vec_len jobs.entry.now)
                × (vec_capacity done.exit.now ≡ vec_capacity done.entry.now) }
        { run_all(rt, jobs, done) },
    );
    end
}

/// Runs the jobs beside each other, and puts what came of them behind what came of others, in their order. There's room
/// for that, so nothing is refused. Neither jobs nor what comes of them need be such that they may be dropped.
#[cycle(running_all)]
pub fn run_all<J: Job + Send, R: Threads + Wait + Sync>(
    rt: &R,
    jobs: &mut Vec<J>,
    done: &mut Vec<J::Done>,
)
    requires room { vec_len done.old + vec_len jobs.old ≤ vec_capacity done.old }
    requires may { AllByRecursion J.may jobs.old.items }
    ensures none { jobs.new.items ≡ [] }
    ensures did { Ends J.did jobs.old.items done.old.items done.new.items }
    ensures room { (vec_len done.new ≡ vec_len done.old + vec_len jobs.old)
        × (vec_capacity done.new ≡ vec_capacity done.old) }
{
    let Some(job) = jobs.pop() else {
        return;
    };
    let mut waiting = Some(job);
    let end = run_beside(rt, &mut waiting, jobs, done);
    let None = waiting else { unreachable!() };
    done.push_reserved(end);
}
