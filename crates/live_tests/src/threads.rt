//! Callers in threads: two links, and a link beside a filler and a reader.

ghost use Rattle.std.specs.Prelude.{◌≡◌, ◌^◌, None};
ghost use Rattle.turn_cell.specs.Pass.{IsFree};
ghost use Rattle.live_tests.specs.Heads.{HasNames};

use crate::beside::{all_three, both};
use crate::callers::{Called, Caller, Tally, Work, ingest_hundred};
use crate::calls::fill;
use crate::ends::{none_other, other};
use crate::parts::in_turns;
use arch_disk::{Disk, MemDisk};
use archive_store::Store;
use intervals::Interval;
use live_archive::{Live, LivePass};
use std::alloc::Global;
use std::sync::Wait;
use std::test::Fail;
use std::thread::Threads;

/// Two links in threads.
fn links<D: Disk + Send, R: Threads + Wait + Sync>(
    rt: &R,
    alloc: Global,
    live: &Live<D>,
    mut pass: LivePass<D>,
) -> (LivePass<D>, Tally, Tally)
    requires free { IsFree live.now.cell pass }
    requires share { pass.share ≡ 2 ^ 63 }
    requires names { HasNames live.now.cell.first.store.head }
    ensures free { IsFree live.now.cell result.0 }
    ensures share { result.0.share ≡ pass.share }
{
    let other = live.split(&mut pass);
    let first = Caller {
        alloc,
        live,
        pass,
        work: Work::Ingests { from: 0 },
    };
    let second = Caller {
        alloc,
        live,
        pass: other,
        work: Work::Ingests { from: 1_000 },
    };
    let (first, second) = both(rt, first, second);
    let Called {
        mut pass,
        tally,
        rises: _,
    } = first;
    let Called {
        pass: other,
        tally: others,
        rises: _,
    } = second;
    live.join(&mut pass, other);
    (pass, tally, others)
}

/// A link, a filler and a reader in threads.
fn three<D: Disk + Send, R: Threads + Wait + Sync>(
    rt: &R,
    alloc: Global,
    live: &Live<D>,
    mut pass: LivePass<D>,
) -> (LivePass<D>, Tally, bool)
    requires free { IsFree live.now.cell pass }
    requires share { pass.share ≡ 2 ^ 63 }
    requires names { HasNames live.now.cell.first.store.head }
    ensures free { IsFree live.now.cell result.0 }
    ensures share { result.0.share ≡ pass.share }
{
    let filler = live.split(&mut pass);
    let reader = live.split(&mut pass);
    let link = Caller {
        alloc,
        live,
        pass,
        work: Work::Ingests { from: 2_000 },
    };
    let filler = Caller {
        alloc,
        live,
        pass: filler,
        work: Work::Fills,
    };
    let reader = Caller {
        alloc,
        live,
        pass: reader,
        work: Work::Reads,
    };
    let (link, (filler, reader)) = all_three(rt, link, filler, reader);
    let Called {
        mut pass,
        tally,
        rises: _,
    } = link;
    let Called {
        pass: filler,
        tally: _,
        rises: _,
    } = filler;
    let Called {
        pass: reader,
        tally: _,
        rises,
    } = reader;
    live.join(&mut pass, filler);
    live.join(&mut pass, reader);
    (pass, tally, rises)
}

/// What is otherwise than it has to be behind two links, and behind a link with a filler and a reader.
fn other_of_threads<D: Disk + Send, R: Threads + Wait + Sync>(
    rt: &R,
    alloc: Global,
    live: Live<D>,
    pass: LivePass<D>,
) -> (Option<&'static str>, Store<D>)
    requires free { IsFree live.cell pass }
    requires whole { pass.share ≡ 2 ^ 63 }
    requires alone { live.cell.first.shelf ≡ None }
    requires names { HasNames live.cell.first.store.head }
{
    let shared = &live;
    let (pass, first, second) = links(rt, alloc, shared, pass);
    let (pass, again) = ingest_hundred(rt, alloc, shared, pass, 0);
    let (pass, others_again) = ingest_hundred(rt, alloc, shared, pass, 1_000);
    let (mut pass, third, rises) = three(rt, alloc, shared, pass);
    let _ = fill(rt, alloc, shared, &mut pass);
    let late = shared.is_late(rt, &mut pass, Interval(0));
    let front = shared.front(&mut pass);
    let other = other(&[
        (
            "each link's packets are new, in order",
            first.next.is_some() && second.next.is_some(),
        ),
        ("each of the first link is there", again.duplicates == 100),
        (
            "each of the second link is there",
            others_again.duplicates == 100,
        ),
        (
            "those beside a filler are new, in order",
            third.next.is_some(),
        ),
        ("the front never falls", rises),
        ("all is filled at the end", !late),
        ("all are there at the end", front == 300),
    ]);
    (other, live.close(pass))
}

fn other_on<D: Disk + Drop + Send, R: Threads + Wait + Sync>(
    rt: &R,
    alloc: Global,
    disk: D,
) -> Option<&'static str> {
    let Ok((live, pass)) = in_turns(alloc, disk) else {
        return Some("an archive");
    };
    let (other, store) = other_of_threads(rt, alloc, live, pass);
    let _disk = store.into_disk();
    other
}

#[test]
fn callers_in_threads(rt: HostRuntime) -> Result<(), Fail> {
    none_other(other_on(&rt, rt.alloc(), MemDisk::new(rt.alloc())))
}
