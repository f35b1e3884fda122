//! The work of a filler.

use crate::ends::{none_other, other};
use crate::queue::{no_notes, queue_of};
use backfiller::{Patient, work, work_when_woken};
use crossbeam_channel::{Receiver, Sender, unbounded};
use outer_traits::gate::OpenGate;
use refusals::Refusal;
use std::alloc::Global;
use std::sync::Wait;
use std::sync::atomic::Ordering;
use std::test::Fail;

/// Three fills, the first after two stale ones: each is begun anew, and each call passes the gate by its number.
#[test]
fn stale_fills_are_begun_anew(rt: HostRuntime) -> Result<(), Fail> {
    let mut target = queue_of(3, 2);
    let gate = no_notes();
    let answer = work(&rt, &mut target, &gate, 7);
    none_other(other(&[
        ("three are installed", matches!(answer, Ok(3))),
        ("five were begun", target.begun == 5),
        ("each call passes", gate.passed.load(Ordering::SeqCst) == 11),
        ("by its number", gate.last.load(Ordering::SeqCst) == 11),
    ]))
}

/// A begin that is refused ends the work.
#[test]
fn a_refusal_ends_the_work(rt: HostRuntime) -> Result<(), Fail> {
    let mut target = queue_of(3, 0);
    target.refused = 2;
    let answer = work(&rt, &mut target, &OpenGate, 1);
    none_other(other(&[
        (
            "it is handed on",
            matches!(answer, Err(Refusal::OutOfMemory)),
        ),
        ("one was installed", target.installed == 1),
    ]))
}

/// A channel in which so many wake-ups wait, and nobody is left to send more.
fn woken<R: Wait>(rt: &R, alloc: Global, count: u64) -> Option<Receiver<()>> {
    let Ok((wake, wakes)) = unbounded::<(), Global>(alloc) else {
        return None;
    };
    send(rt, &wake, count);
    Some(wakes)
}

fn send<R: Wait>(rt: &R, wake: &Sender<()>, count: u64) {
    for _ in 0..count {
        let _ = wake.send(rt, ());
    }
}

/// Wake-ups that have gathered are one, and a filler ends where nobody is left to wake him.
#[test]
fn gathered_wakes_are_one(rt: HostRuntime) -> Result<(), Fail> {
    let Some(wakes) = woken(&rt, rt.alloc(), 5) else {
        return Err(Fail::new("memory"));
    };
    let mut target = queue_of(2, 0);
    let gate = no_notes();
    let answer = work_when_woken(&rt, &mut target, &wakes, &gate, 3);
    none_other(other(&[
        ("it ends", answer.is_ok()),
        ("all is installed", target.installed == 2),
        ("by one work", gate.passed.load(Ordering::SeqCst) == 5),
    ]))
}

/// After a stale fill a begin waits for wake-ups, and for none once nobody can send one.
#[test]
fn patience_ends_with_the_links(rt: HostRuntime) -> Result<(), Fail> {
    let Some(wakes) = woken(&rt, rt.alloc(), 100) else {
        return Err(Fail::new("memory"));
    };
    let mut target = Patient::new(&rt, queue_of(1, 10), &wakes);
    let answer = work(&rt, &mut target, &OpenGate, 1);
    let target = target.into_target();
    none_other(other(&[
        ("one is installed", matches!(answer, Ok(1))),
        ("it was begun eleven times", target.begun == 11),
        ("no wake-up is left", wakes.is_empty()),
    ]))
}
