//! What a glance tells of an archive in turns, call by call, to the end.

ghost use Rattle.std.specs.Prelude.{◌≡◌, ◌<◌, ◌≤◌, ◌^◌};
ghost use Rattle.std.specs.List.{AllByRecursion};
ghost use Rattle.turn_cell.specs.Pass.{IsFree};
ghost use Rattle.live_archive.specs.Shelving.{IsOfLog};
ghost use Rattle.live_tests.specs.Heads.{HasNames};

use crate::calls::{fill, fill_across, ingested};
use crate::ends::none_other;
use crate::looks::{LiveGlance, Told, telling, tells};
use crate::parts::with_glances;
use arch_disk::{Disk, MemDisk};
use arch_types::inserted::{Inserted, Installed};
use archive_store::Store;
use history_items::fills::Fill;
use live_archive::{Live, LiveGlances, LivePass};
use std::alloc::Global;
use std::sync::Wait;
use std::test::Fail;

/// Two packets at 1500 ms, of which `v` is 42 and 7, and one second later another with 9.
const FIRST: &[u8] = b"\x08\x64\xC0\x00\x00\x07\x00\x00\x00\x01\x80\x00\x2A\xFE";

const SECOND: &[u8] = b"\x08\x65\xC0\x00\x00\x06\x00\x00\x00\x01\x80\x00\x07";

const THIRD: &[u8] = b"\x08\x65\xC0\x01\x00\x06\x00\x00\x00\x02\x80\x00\x09";

/// What is called.
enum Step {
    Nothing,
    Ingest(&'static [u8], Inserted),
    /// A packet comes while a fill is in flight.
    FillAcross(&'static [u8], Inserted, Installed),
    Fill(Installed),
    /// The glance learns a note of what a pass has seen.
    Learn,
    /// The last publication, twice.
    CloseGlances,
}

/// A call, and what the glance tells behind it.
struct Row {
    name: &'static str,
    step: Step,
    told: Told,
}

const ROWS: &[Row] = &[
    Row {
        name: "an archive without rows",
        step: Step::Nothing,
        told: Told::Values(0, &[]),
    },
    Row {
        name: "a packet",
        step: Step::Ingest(FIRST, Inserted::New(0)),
        told: Told::Late(0),
    },
    Row {
        name: "a packet that makes a fill stale",
        step: Step::FillAcross(SECOND, Inserted::New(1), Installed::Stale { position: 1 }),
        told: Told::Late(0),
    },
    Row {
        name: "a fill",
        step: Step::Fill(Installed::Done),
        told: Told::Values(2, &[42, 7]),
    },
    Row {
        name: "a note that is learnt",
        step: Step::Learn,
        told: Told::Values(2, &[42, 7]),
    },
    Row {
        name: "a packet once more",
        step: Step::Ingest(SECOND, Inserted::Duplicate(1)),
        told: Told::Values(2, &[42, 7]),
    },
    Row {
        name: "the last publication",
        step: Step::CloseGlances,
        told: Told::Values(2, &[42, 7]),
    },
    Row {
        name: "a packet behind the last publication",
        step: Step::Ingest(THIRD, Inserted::New(2)),
        told: Told::Values(2, &[42, 7]),
    },
    Row {
        name: "a fill behind it",
        step: Step::Fill(Installed::Done),
        told: Told::Values(2, &[42, 7]),
    },
    Row {
        name: "the last publication once more",
        step: Step::CloseGlances,
        told: Told::Values(2, &[42, 7]),
    },
    Row {
        name: "a note of it",
        step: Step::Learn,
        told: Told::Values(2, &[42, 7]),
    },
];

/// A function, so that they stand in no goal of its callers.
fn rows() -> &'static [Row] {
    ROWS
}

/// Whether there is a note, and a glance learns it.
fn learns<D: Disk, R: Wait>(
    rt: &R,
    alloc: Global,
    live: &Live<D>,
    pass: &mut LivePass<D>,
    glance: &mut LiveGlance<D>,
) -> bool
    requires free { IsFree live.now.cell pass.old }
    requires log { IsOfLog live.now.cell.first glance.old }
    ensures free { IsFree live.now.cell pass.new }
    ensures share { pass.new.share ≡ pass.old.share }
    ensures book { glance.new.book ≡ glance.old.book }
{
    match live.note(rt, alloc, pass) {
        Ok(note) => glance.learn(&note).is_ok(),
        Err(_) => false,
    }
}

/// Whether there is a last publication, and asked again the same.
fn closes<D: Disk, R: Wait>(rt: &R, alloc: Global, live: &Live<D>, pass: &mut LivePass<D>) -> bool
    requires free { IsFree live.now.cell pass.old }
    ensures free { IsFree live.now.cell pass.new }
    ensures share { pass.new.share ≡ pass.old.share }
{
    let Ok(first) = live.close_glances(rt, alloc, pass) else {
        return false;
    };
    let Ok(again) = live.close_glances(rt, alloc, pass) else {
        return false;
    };
    first.is_followed_by(&again) && again.is_followed_by(&first)
}

/// Whether a call goes as it has to.
fn goes<D: Disk, R: Wait>(
    rt: &R,
    alloc: Global,
    live: &Live<D>,
    filler: &mut LivePass<D>,
    link: &mut LivePass<D>,
    glance: &mut LiveGlance<D>,
    step: &Step,
) -> bool
    requires free { IsFree live.now.cell filler.old × IsFree live.now.cell link.old }
    requires names { HasNames live.now.cell.first.store.head }
    requires log { IsOfLog live.now.cell.first glance.old }
    ensures free { IsFree live.now.cell filler.new × IsFree live.now.cell link.new }
    ensures share { (filler.new.share ≡ filler.old.share) × (link.new.share ≡ link.old.share) }
    ensures book { glance.new.book ≡ glance.old.book }
{
    match step {
        Step::Nothing => true,
        Step::Ingest(octets, outcome) => {
            ingested(rt, alloc, live, link, octets) == Some(*outcome)
        }
        Step::FillAcross(octets, outcome, installed) => {
            fill_across(rt, alloc, live, filler, link, octets) == (Some(*outcome), Some(*installed))
        }
        Step::Fill(installed) => fill(rt, alloc, live, filler) == Some(*installed),
        Step::Learn => learns(rt, alloc, live, link, glance),
        Step::CloseGlances => closes(rt, alloc, live, link),
    }
}

/// The name of the first row that goes otherwise.
fn other_row<D: Disk, R: Wait>(
    rt: &R,
    alloc: Global,
    live: &Live<D>,
    filler: &mut LivePass<D>,
    link: &mut LivePass<D>,
    glance: &mut LiveGlance<D>,
    rows: &[Row],
) -> Option<&'static str>
    requires free { IsFree live.now.cell filler.old × IsFree live.now.cell link.old }
    requires names { HasNames live.now.cell.first.store.head }
    requires log { IsOfLog live.now.cell.first glance.old }
    ensures free { IsFree live.now.cell filler.new × IsFree live.now.cell link.new }
    ensures share { (filler.new.share ≡ filler.old.share) × (link.new.share ≡ link.old.share) }
{
    for row in rows {
        if !goes(rt, alloc, live, filler, link, glance, &row.step)
            || !tells(alloc, glance, &row.told)
        {
            return Some(row.name);
        }
    }
    None
}

/// The same by two passes of one, and how many of the other glances tell at the end what the first does.
fn other_of_rows<D: Disk, R: Wait>(
    rt: &R,
    alloc: Global,
    live: &Live<D>,
    pass: &mut LivePass<D>,
    glance: &mut LiveGlance<D>,
) -> Option<&'static str>
    requires free { IsFree live.now.cell pass.old }
    requires share { pass.old.share ≡ 2 ^ 63 }
    requires names { HasNames live.now.cell.first.store.head }
    requires log { IsOfLog live.now.cell.first glance.old }
    ensures free { IsFree live.now.cell pass.new }
    ensures share { pass.new.share ≡ pass.old.share }
{
    let mut link = live.split(pass);
    let other = other_row(rt, alloc, live, pass, &mut link, glance, rows());
    live.join(pass, link);
    other
}

/// Whether nothing is there to be read or learnt by a glance.
fn is_over<D: Disk>(alloc: Global, glance: &mut LiveGlance<D>) -> bool {
    let note = glance.note();
    tells(alloc, glance, &Told::Nothing) && glance.learn(&note).is_err()
}

/// How many of a fill list are closings.
fn closings(fills: &[Fill]) -> u64 {
    let mut count = 0u64;
    for fill in fills {
        if let Fill::Closed = fill {
            count = count.saturating_add(1);
        }
    }
    count
}

/// Whether an archive of a store that has a closing puts one of its own behind that.
fn closes_again<D: Disk, R: Wait>(rt: &R, alloc: Global, store: Store<D>) -> (bool, Store<D>) {
    match Live::with_glances(rt, alloc, store, 1) {
        Ok((live, mut pass, _glances)) => {
            let has_closed = closes(rt, alloc, &live, &mut pass);
            let store = live.close_with_glances(rt, pass);
            (has_closed && closings(store.fills()) == 2, store)
        }
        Err((store, _)) => (false, store),
    }
}

/// What goes otherwise with so many glances beside the first, to the end of the archive.
fn other_of<D: Disk, R: Wait>(
    rt: &R,
    alloc: Global,
    live: Live<D>,
    mut pass: LivePass<D>,
    mut glances: LiveGlances<D>,
    beside: u8,
) -> (Option<&'static str>, Store<D>)
    requires free { IsFree live.cell pass }
    requires whole { pass.share ≡ 2 ^ 63 }
    requires names { HasNames live.cell.first.store.head }
    requires glances { AllByRecursion (IsOfLog live.cell.first) glances }
{
    let Some(mut glance) = glances.take() else {
        return (Some("a glance"), live.close_with_glances(rt, pass));
    };
    let other = other_of_rows(rt, alloc, &live, &mut pass, &mut glance);
    if other.is_some() {
        return (other, live.close_with_glances(rt, pass));
    }
    let others = telling(alloc, &mut glances, &Told::Values(2, &[42, 7]));
    let store = live.close_with_glances(rt, pass);
    if others != beside || glances.take().is_some() {
        return (Some("the other glances"), store);
    }
    if !is_over(alloc, &mut glance) {
        return (Some("the end"), store);
    }
    if closings(store.fills()) != 1 {
        return (Some("the closing"), store);
    }
    match closes_again(rt, alloc, store) {
        (true, store) => (None, store),
        (false, store) => (Some("another closing"), store),
    }
}

/// The same of a new archive.
fn other_on<D: Disk + Drop, R: Wait>(
    rt: &R,
    alloc: Global,
    disk: D,
    beside: u8,
) -> Option<&'static str>
    requires { beside < 16 }
{
    let Ok((live, pass, glances)) = with_glances(rt, alloc, disk, beside + 1) else {
        return Some("an archive");
    };
    let (other, store) = other_of(rt, alloc, live, pass, glances, beside);
    let _disk = store.into_disk();
    other
}

#[test]
fn a_glance_alone(rt: HostRuntime) -> Result<(), Fail> {
    none_other(other_on(&rt, rt.alloc(), MemDisk::new(rt.alloc()), 0))
}

#[test]
fn a_glance_beside_others(rt: HostRuntime) -> Result<(), Fail> {
    none_other(other_on(&rt, rt.alloc(), MemDisk::new(rt.alloc()), 15))
}
