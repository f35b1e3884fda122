//! Jobs beside each other.

ghost use Rattle.std.specs.Prelude.{◌≡◌};

use crate::ends::{none_other, other};
use jobs::{Job, run_all};
use std::alloc::{AllocError, Global};
use std::sync::Wait;
use std::sync::atomic::{AtomicU64, Ordering};
use std::test::Fail;
use std::thread::{self, Threads};

/// One of two jobs that wait for each other.
#[derive(Drop)]
struct Meeting<'a> {
    number: u64,
    here: &'a AtomicU64,
    there: &'a AtomicU64,
}

/// Whether the job saw the other.
#[derive(Clone, Copy)]
struct Met {
    number: u64,
    seen: bool,
}

impl<'a> Job for Meeting<'a> {
    ghost use Rattle.std.specs.Prelude.{◌≡◌};

    type Done = Met;

    ghost may = { λ job. Unit {0} };

    ghost did = { λ job met. met.number ≡ job.number };

    fn run<R: Wait>(self, _rt: &R) -> Met {
        let Meeting {
            number,
            here,
            there,
        } = self;
        here.store(1, Ordering::SeqCst);
        Met {
            number,
            seen: is_raised(there),
        }
    }
}

/// How often a job lets the other run. It is so often that a machine that is busy with other work doesn't end the wait.
const YIELDS: u32 = 100_000_000;

/// Waits for a flag, for some time.
fn is_raised(flag: &AtomicU64) -> bool {
    for _ in 0..YIELDS {
        if flag.load(Ordering::SeqCst) == 1 {
            return true;
        }
        thread::yield_now();
    }
    false
}

/// What comes of two jobs that wait for each other.
fn ends_of_two<R: Threads + Wait + Sync>(rt: &R, alloc: Global) -> Result<Vec<Met>, AllocError> {
    let first = AtomicU64::new(0);
    let second = AtomicU64::new(0);
    let mut jobs = Vec::new(alloc);
    let mut done = Vec::new(alloc);
    jobs.try_reserve(2)?;
    done.try_reserve(2)?;
    jobs.push_reserved(Meeting {
        number: 1,
        here: &first,
        there: &second,
    });
    jobs.push_reserved(Meeting {
        number: 2,
        here: &second,
        there: &first,
    });
    run_all(rt, &mut jobs, &mut done);
    Ok(done)
}

/// Each of two jobs goes on while the other waits for it, and they come back in their order.
#[test]
fn jobs_run_beside_each_other(rt: HostRuntime) -> Result<(), Fail> {
    let Ok(done) = ends_of_two(&rt, rt.alloc()) else {
        return Err(Fail::new("memory"));
    };
    let [first, second] = done.as_slice() else {
        return Err(Fail::new("two jobs end"));
    };
    none_other(other(&[
        ("in their order", first.number == 1 && second.number == 2),
        ("the first saw the second", first.seen),
        ("the second saw the first", second.seen),
    ]))
}
