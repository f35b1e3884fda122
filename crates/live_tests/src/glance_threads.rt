//! Four glances in threads beside a link. They are jobs of one type, as callers are, each with a pass.

ghost use Rattle.std.specs.Prelude.{◌≡◌, ◌≤◌, ◌+◌, ◌^◌};
ghost use Rattle.turn_cell.specs.Pass.{IsFree, given_half, kept_half};
ghost use Rattle.live_tests.specs.Heads.{HasNames};

use crate::beside::all_five;
use crate::calls::{fill, ingested, request};
use crate::ends::none_other;
use crate::looks::LiveGlance;
use crate::parts::{packet_octets, with_glances};
use arch_disk::{Disk, MemDisk};
use archive_store::Store;
use asks::{Answer, Request};
use jobs::Job;
use live_archive::{Live, LiveGlances, LivePass};
use packed_cells::PackedCells;
use refusals::Refusal;
use std::alloc::Global;
use std::sync::Wait;
use std::test::Fail;
use std::thread::{Threads, yield_now};

/// How many packets the link ingests, ten seconds from each other, each in a batch of its own.
const BATCHES: u64 = 10_000;

/// How many of them a reader asks for.
const ASKED: u64 = 100;

/// How often a reader looks at most, until it sees the last packet.
const LOOKS: u64 = 100_000_000;

/// Ingests the packets, and fills behind every fiftieth the two intervals that may be late.
fn ingest_and_fill<D: Disk, R: Wait>(
    rt: &R,
    alloc: Global,
    live: &Live<D>,
    mut pass: LivePass<D>,
) -> LivePass<D>
    requires free { IsFree live.now.cell pass }
    requires names { HasNames live.now.cell.first.store.head }
    ensures free { IsFree live.now.cell result }
    ensures share { result.share ≡ pass.share }
{
    for i in 0..BATCHES {
        let _ = ingested(rt, alloc, live, &mut pass, &packet_octets(10 * i));
        if i % 50 == 49 {
            let _ = fill(rt, alloc, live, &mut pass);
            let _ = fill(rt, alloc, live, &mut pass);
        }
    }
    pass
}

/// Whether cells are those of the first packets, in their order.
fn are_first(cells: &PackedCells) -> bool {
    let mut octet = 0u8;
    for cell in cells.iter() {
        if cell.raw != octet as i128 {
            return false;
        }
        octet = octet.wrapping_add(10);
    }
    true
}

/// Whether an answer is that of its front.
fn is_of_front(answer: &Answer) -> bool {
    answer.cells.len() as u64 == answer.front.min(ASKED) && are_first(&answer.cells)
}

/// What a glance's next answer shows.
enum Look {
    /// It is that of a front.
    At(u64),
    Late,
    Other,
}

fn next_look<D: Disk>(alloc: Global, glance: &mut LiveGlance<D>, request: &Request) -> Look {
    match glance.retrieve_now(alloc, request) {
        Ok(answer) => {
            if is_of_front(&answer) {
                Look::At(answer.front)
            } else {
                Look::Other
            }
        }
        Err(Refusal::Late { .. }) => Look::Late,
        Err(_) => Look::Other,
    }
}

/// Whether each answer of a glance is that of its front, no front falls, and the last packet is seen.
fn reads_on<D: Disk>(alloc: Global, mut glance: LiveGlance<D>) -> bool {
    let Some(request) = request(alloc) else {
        return false;
    };
    let mut front = 0;
    for _ in 0..LOOKS {
        match next_look(alloc, &mut glance, &request) {
            Look::At(next) if next < front => return false,
            Look::At(next) if next == BATCHES => return true,
            Look::At(next) => front = next,
            Look::Late => yield_now(),
            Look::Other => return false,
        }
    }
    false
}

/// A link, or a reader that has a glance. It is generic in the archive, the pass and the glance, so that it may go to
/// another thread.
struct Watcher<'a, L, P, N> {
    alloc: Global,
    live: &'a L,
    pass: P,
    glance: Option<N>,
}

/// What came of it.
struct Watched<P> {
    pass: P,
    goes_well: bool,
}

impl<'a, D: Disk + Send> Job for Watcher<'a, Live<D>, LivePass<D>, LiveGlance<D>> {
    type Done = Watched<LivePass<D>>;

    ghost may = { λ job. IsFree job.live.now.cell job.pass × HasNames job.live.now.cell.first.store.head };

    ghost did = { λ job done. IsFree job.live.now.cell done.pass × (done.pass.share ≡ job.pass.share) };

    fn run<R: Wait>(self, rt: &R) -> Watched<LivePass<D>> {
        let Watcher {
            alloc,
            live,
            pass,
            glance,
        } = self;
        match glance {
            None => Watched {
                pass: ingest_and_fill(rt, alloc, live, pass),
                goes_well: true,
            },
            Some(glance) => Watched {
                pass,
                goes_well: reads_on(alloc, glance),
            },
        }
    }
}

/// A watcher with half of a pass.
fn with_half<'a, D: Disk>(
    alloc: Global,
    live: &'a Live<D>,
    pass: &mut LivePass<D>,
    glance: LiveGlance<D>,
) -> Watcher<'a, Live<D>, LivePass<D>, LiveGlance<D>>
    requires free { IsFree live.now.cell pass.old }
    requires share { 2 ≤ pass.old.share }
    ensures free { IsFree live.now.cell pass.new × IsFree live.now.cell result.pass }
    ensures kept { pass.new ≡ kept_half pass.old }
    ensures given { result.pass ≡ given_half pass.old }
    ensures live { result.live.now ≡ live.now }
{
    Watcher {
        alloc,
        live,
        pass: live.split(pass),
        glance: Some(glance),
    }
}

/// Joins what came of a watcher to a pass. Whether it goes well.
fn joined<D: Disk>(live: &Live<D>, pass: &mut LivePass<D>, watched: Watched<LivePass<D>>) -> bool
    requires free { IsFree live.now.cell pass.old × IsFree live.now.cell watched.pass }
    ensures free { IsFree live.now.cell pass.new }
    ensures share { pass.new.share ≡ pass.old.share + watched.pass.share }
{
    let Watched {
        pass: other,
        goes_well,
    } = watched;
    live.join(pass, other);
    goes_well
}

/// A link beside four glances. Whether all goes well.
fn link_and_readers<D: Disk + Send, R: Threads + Wait + Sync>(
    rt: &R,
    alloc: Global,
    live: &Live<D>,
    mut pass: LivePass<D>,
    glances: [LiveGlance<D>; 4],
) -> (LivePass<D>, bool)
    requires free { IsFree live.now.cell pass }
    requires share { pass.share ≡ 2 ^ 63 }
    requires names { HasNames live.now.cell.first.store.head }
    ensures free { IsFree live.now.cell result.0 }
    ensures share { result.0.share ≡ pass.share }
{
    let [first, second, third, fourth] = glances;
    let first = with_half(alloc, live, &mut pass, first);
    let second = with_half(alloc, live, &mut pass, second);
    let third = with_half(alloc, live, &mut pass, third);
    let fourth = with_half(alloc, live, &mut pass, fourth);
    let link = Watcher {
        alloc,
        live,
        pass,
        glance: None,
    };
    let ((link, first), (second, (third, fourth))) = all_five(
        rt, link, first, second, third, fourth,
    );
    let Watched {
        mut pass,
        goes_well,
    } = link;
    let first = joined(live, &mut pass, first);
    let second = joined(live, &mut pass, second);
    let third = joined(live, &mut pass, third);
    let fourth = joined(live, &mut pass, fourth);
    (pass, goes_well && first && second && third && fourth)
}

/// Four glances that nobody has taken.
fn four_of<D: Disk>(glances: &mut LiveGlances<D>) -> Option<[LiveGlance<D>; 4]> {
    Some([
        glances.take()?,
        glances.take()?,
        glances.take()?,
        glances.take()?,
    ])
}

/// What goes otherwise, and the store at the end.
fn other_of<D: Disk + Send, R: Threads + Wait + Sync>(
    rt: &R,
    alloc: Global,
    live: Live<D>,
    pass: LivePass<D>,
    mut glances: LiveGlances<D>,
) -> (Option<&'static str>, Store<D>)
    requires free { IsFree live.cell pass }
    requires whole { pass.share ≡ 2 ^ 63 }
    requires names { HasNames live.cell.first.store.head }
{
    let Some(readers) = four_of(&mut glances) else {
        return (Some("four glances"), live.close_with_glances(rt, pass));
    };
    let (pass, reads) = link_and_readers(rt, alloc, &live, pass, readers);
    let other = if reads { None } else { Some("a reader") };
    (other, live.close_with_glances(rt, pass))
}

fn other_on<D: Disk + Drop + Send, R: Threads + Wait + Sync>(
    rt: &R,
    alloc: Global,
    disk: D,
) -> Option<&'static str> {
    let Ok((live, pass, glances)) = with_glances(rt, alloc, disk, 4) else {
        return Some("an archive");
    };
    let (other, store) = other_of(rt, alloc, live, pass, glances);
    let _disk = store.into_disk();
    other
}

#[test]
fn glances_beside_a_link(rt: HostRuntime) -> Result<(), Fail> {
    none_other(other_on(&rt, rt.alloc(), MemDisk::new(rt.alloc())))
}
