//! Fills by one pass while another ingests, and two passes that fill one interval.

ghost use Rattle.std.specs.Prelude.{◌≡◌, ◌<◌, ◌^◌, None};
ghost use Rattle.turn_cell.specs.Pass.{IsFree};
ghost use Rattle.live_tests.specs.Heads.{HasNames};

use crate::calls::{answered, fill, fill_across, gives_up, ingested};
use crate::ends::{none_other, other};
use crate::parts::{in_turns, packet_octets};
use arch_disk::{Disk, MemDisk};
use arch_types::inserted::{Inserted, Installed};
use archive_store::Store;
use intervals::Interval;
use live_archive::{Live, LivePass};
use std::alloc::Global;
use std::sync::Wait;
use std::test::Fail;

/// A packet that comes by another pass makes a fill stale; the next one has both. `front` tells of it in no turn.
fn other_of_stale<D: Disk, R: Wait>(
    rt: &R,
    alloc: Global,
    live: &Live<D>,
    filler: &mut LivePass<D>,
    link: &mut LivePass<D>,
) -> Option<&'static str>
    requires free { IsFree live.now.cell filler.old × IsFree live.now.cell link.old }
    requires names { HasNames live.now.cell.first.store.head }
    ensures free { IsFree live.now.cell filler.new × IsFree live.now.cell link.new }
    ensures share { (filler.new.share ≡ filler.old.share) × (link.new.share ≡ link.old.share) }
{
    let first = ingested(rt, alloc, live, link, &packet_octets(42));
    let front = live.front(filler);
    let late = live.is_late(rt, filler, Interval(0));
    let (second, stale) = fill_across(rt, alloc, live, filler, link, &packet_octets(7));
    let next_front = live.front(filler);
    let done = fill(rt, alloc, live, filler);
    let late_still = live.is_late(rt, link, Interval(0));
    let answer = answered(rt, alloc, live, link);
    other(&[
        ("the first packet is new", first == Some(Inserted::New(0))),
        ("the filler's front tells of it", front == 1),
        ("its interval is late", late),
        ("the second packet is new", second == Some(Inserted::New(1))),
        (
            "the fill is stale",
            stale == Some(Installed::Stale { position: 1 }),
        ),
        ("the front tells of both", next_front == 2),
        ("the next fill is there", done == Some(Installed::Done)),
        ("the interval isn't late", !late_still),
        ("both values are answered", answer == Some((2, 2))),
    ])
}

/// Two passes give up, fill and install one interval.
fn other_of_one_interval<D: Disk, R: Wait>(
    rt: &R,
    alloc: Global,
    live: &Live<D>,
    first: &mut LivePass<D>,
    second: &mut LivePass<D>,
) -> Option<&'static str>
    requires free { IsFree live.now.cell first.old × IsFree live.now.cell second.old }
    requires names { HasNames live.now.cell.first.store.head }
    ensures free { IsFree live.now.cell first.new × IsFree live.now.cell second.new }
    ensures share { (first.new.share ≡ first.old.share) × (second.new.share ≡ second.old.share) }
{
    let outcome = ingested(rt, alloc, live, first, &packet_octets(9));
    let given_up = gives_up(rt, alloc, live, first);
    let again = gives_up(rt, alloc, live, second);
    let done = fill(rt, alloc, live, second);
    let none = fill(rt, alloc, live, first);
    other(&[
        ("a packet is new", outcome == Some(Inserted::New(2))),
        ("the first gives a fill up", given_up),
        ("the second begins it too", again),
        (
            "it is installed by the second",
            done == Some(Installed::Done),
        ),
        ("then there is none for the first", none.is_none()),
    ])
}

/// Both, and what the closed archive has.
fn other_of_two<D: Disk, R: Wait>(
    rt: &R,
    alloc: Global,
    live: Live<D>,
    mut pass: LivePass<D>,
) -> (Option<&'static str>, Store<D>)
    requires free { IsFree live.cell pass }
    requires whole { pass.share ≡ 2 ^ 63 }
    requires alone { live.cell.first.shelf ≡ None }
    requires names { HasNames live.cell.first.store.head }
{
    let shared = &live;
    let mut second = shared.split(&mut pass);
    let stale = other_of_stale(rt, alloc, shared, &mut pass, &mut second);
    let one = other_of_one_interval(rt, alloc, shared, &mut pass, &mut second);
    shared.join(&mut pass, second);
    (stale.or(one), live.close(pass))
}

fn other_on<D: Disk + Drop, R: Wait>(rt: &R, alloc: Global, disk: D) -> Option<&'static str> {
    let Ok((live, pass)) = in_turns(alloc, disk) else {
        return Some("an archive");
    };
    let (other, store) = other_of_two(rt, alloc, live, pass);
    let _disk = store.into_disk();
    other
}

#[test]
fn two_passes_fill(rt: HostRuntime) -> Result<(), Fail> {
    none_other(other_on(&rt, rt.alloc(), MemDisk::new(rt.alloc())))
}
