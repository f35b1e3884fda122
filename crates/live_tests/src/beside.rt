//! Jobs beside each other, generic in what is done: over an archive itself the proof of what threads take is too large.
//! They are lent to the threads, as `jobs::run_all` lends them, since a pass of an archive can't be dropped in a proof.

ghost use Rattle.std.specs.Prelude.{◌≡◌, IsSomeAnd, None};
ghost use Rattle.std.specs.Thread.{IsSync};

use jobs::Job;
use std::sync::Wait;
use std::thread::{Threads, join_mut};

/// Two jobs in threads.
pub(crate) fn both<J: Job + Send, R: Threads + Wait + Sync>(
    rt: &R,
    first: J,
    second: J,
) -> (J::Done, J::Done)
    requires may { J.may first × J.may second }
    ensures did { J.did first result.0 × J.did second result.1 }
{
    let mut first = Some(first);
    let mut second = Some(second);
    let done = both_waiting(rt, &mut first, &mut second);
    let None = first else { unreachable!() };
    let None = second else { unreachable!() };
    done
}

/// Three jobs in threads.
pub(crate) fn all_three<J: Job + Send, R: Threads + Wait + Sync>(
    rt: &R,
    first: J,
    second: J,
    third: J,
) -> (J::Done, (J::Done, J::Done))
    requires may { J.may first × J.may second × J.may third }
    ensures did { J.did first result.0 × J.did second result.1.0 × J.did third result.1.1 }
{
    let mut first = Some(first);
    let mut second = Some(second);
    let mut third = Some(third);
    let done = all_waiting(rt, &mut first, &mut second, &mut third);
    let None = first else { unreachable!() };
    let None = second else { unreachable!() };
    let None = third else { unreachable!() };
    done
}

/// Five jobs in threads.
pub(crate) fn all_five<J: Job + Send, R: Threads + Wait + Sync>(
    rt: &R,
    first: J,
    second: J,
    third: J,
    fourth: J,
    fifth: J,
) -> ((J::Done, J::Done), (J::Done, (J::Done, J::Done)))
    requires may { J.may first × J.may second × J.may third × J.may fourth × J.may fifth }
    ensures did { J.did first result.0.0 × J.did second result.0.1 × J.did third result.1.0
        × J.did fourth result.1.1.0 × J.did fifth result.1.1.1 }
{
    let mut first = Some(first);
    let mut second = Some(second);
    let mut third = Some(third);
    let mut fourth = Some(fourth);
    let mut fifth = Some(fifth);
    let done = five_waiting(
        rt,
        &mut first,
        &mut second,
        &mut third,
        &mut fourth,
        &mut fifth,
    );
    let None = first else { unreachable!() };
    let None = second else { unreachable!() };
    let None = third else { unreachable!() };
    let None = fourth else { unreachable!() };
    let None = fifth else { unreachable!() };
    done
}

/// The job that waits.
fn waiting<J: Job, R: Wait>(rt: &R, job: &mut Option<J>) -> J::Done
    requires { IsSomeAnd job.old J.may }
    ensures none { job.new ≡ None }
    ensures did { IsSomeAnd job.old (λ job. J.did job result) }
{
    let Some(job) = job.take() else {
        unreachable!()
    };
    job.run(rt)
}

/// Two that wait.
fn both_waiting<J: Job + Send, R: Threads + Wait + Sync>(
    rt: &R,
    first: &mut Option<J>,
    second: &mut Option<J>,
) -> (J::Done, J::Done)
    requires wait { IsSomeAnd first.old J.may × IsSomeAnd second.old J.may }
    ensures none { (first.new ≡ None) × (second.new ≡ None) }
    ensures did { IsSomeAnd first.old (λ job. J.did job result.0) × IsSomeAnd second.old (λ job. J.did job result.1) }
{
    join_mut(
        rt,
        &mut || -> J::Done
            requires { IsSync R.row × IsSomeAnd first.now J.may }
            ensures { (first.exit.now ≡ None) × IsSomeAnd first.entry.now (λ job. J.did job result) }
        { waiting(rt, first) },
        &mut || -> J::Done
            requires { IsSync R.row × IsSomeAnd second.now J.may }
            ensures { (second.exit.now ≡ None) × IsSomeAnd second.entry.now (λ job. J.did job result) }
        { waiting(rt, second) },
    )
}

/// Three that wait.
fn all_waiting<J: Job + Send, R: Threads + Wait + Sync>(
    rt: &R,
    first: &mut Option<J>,
    second: &mut Option<J>,
    third: &mut Option<J>,
) -> (J::Done, (J::Done, J::Done))
    requires wait { IsSomeAnd first.old J.may × IsSomeAnd second.old J.may × IsSomeAnd third.old J.may }
    ensures none { (first.new ≡ None) × (second.new ≡ None) × (third.new ≡ None) }
    ensures did { IsSomeAnd first.old (λ job. J.did job result.0)
        × IsSomeAnd second.old (λ job. J.did job result.1.0) × IsSomeAnd third.old (λ job. J.did job result.1.1) }
{
    join_mut(
        rt,
        &mut || -> J::Done
            requires { IsSync R.row × IsSomeAnd first.now J.may }
            ensures { (first.exit.now ≡ None) × IsSomeAnd first.entry.now (λ job. J.did job result) }
        { waiting(rt, first) },
        &mut || -> (J::Done, J::Done)
            requires { IsSync R.row × IsSomeAnd second.now J.may × IsSomeAnd third.now J.may }
            ensures { (second.exit.now ≡ None) × (third.exit.now ≡ None)
                × IsSomeAnd second.entry.now (λ job. J.did job result.0)
                × IsSomeAnd third.entry.now (λ job. J.did job result.1) }
        { both_waiting(rt, second, third) },
    )
}

/// Five that wait.
fn five_waiting<J: Job + Send, R: Threads + Wait + Sync>(
    rt: &R,
    first: &mut Option<J>,
    second: &mut Option<J>,
    third: &mut Option<J>,
    fourth: &mut Option<J>,
    fifth: &mut Option<J>,
) -> ((J::Done, J::Done), (J::Done, (J::Done, J::Done)))
    requires wait { IsSomeAnd first.old J.may × IsSomeAnd second.old J.may × IsSomeAnd third.old J.may
        × IsSomeAnd fourth.old J.may × IsSomeAnd fifth.old J.may }
    ensures none { (first.new ≡ None) × (second.new ≡ None) × (third.new ≡ None)
        × (fourth.new ≡ None) × (fifth.new ≡ None) }
    ensures did_two { IsSomeAnd first.old (λ job. J.did job result.0.0)
        × IsSomeAnd second.old (λ job. J.did job result.0.1) }
    ensures did_three { IsSomeAnd third.old (λ job. J.did job result.1.0)
        × IsSomeAnd fourth.old (λ job. J.did job result.1.1.0) × IsSomeAnd fifth.old (λ job. J.did job result.1.1.1) }
{
    join_mut(
        rt,
        &mut || -> (J::Done, J::Done)
            requires { IsSync R.row × IsSomeAnd first.now J.may × IsSomeAnd second.now J.may }
            ensures { (first.exit.now ≡ None) × (second.exit.now ≡ None)
                × IsSomeAnd first.entry.now (λ job. J.did job result.0)
                × IsSomeAnd second.entry.now (λ job. J.did job result.1) }
        { both_waiting(rt, first, second) },
        &mut || -> (J::Done, (J::Done, J::Done))
            requires { IsSync R.row × IsSomeAnd third.now J.may × IsSomeAnd fourth.now J.may
                × IsSomeAnd fifth.now J.may }
            ensures { (third.exit.now ≡ None) × (fourth.exit.now ≡ None) × (fifth.exit.now ≡ None)
                × IsSomeAnd third.entry.now (λ job. J.did job result.0)
                × IsSomeAnd fourth.entry.now (λ job. J.did job result.1.0)
                × IsSomeAnd fifth.entry.now (λ job. J.did job result.1.1) }
        { all_waiting(rt, third, fourth, fifth) },
    )
}
