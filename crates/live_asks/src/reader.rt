//! The job of a reader.

ghost use Rattle.std.specs.Prelude.{◌≡◌, ◌<◌, [], IfErr, IfSome, None, OnOk, Some};
ghost use Rattle.retrieval.specs.FoundAsks.{AreFound};
ghost use Rattle.std.specs.Result.{result_err};
ghost use Rattle.refusals.specs.declared.refusal.Refusal.TheVariants.{DiskFault};
ghost use Rattle.turn_cell.specs.Pass.{IsFree};
ghost use Rattle.live_archive.specs.Reads.{NotedRead};
ghost use Rattle.archive_store.specs.StoreView.{filled_of};
ghost use Rattle.live_asks.specs.LiveAsks.{AreAnswered, AreAsked, IsGlanceAt, LooksOn, OnlySees};
ghost use Rattle.live_asks.specs.LiveAsks.{disk_facts, every_fourth, reader_view};

use crate::answered::AskAnswers;
use crate::glancing::{LiveGlance, is_settled};
use crate::turns::{Gated, answer_ask};
use arch_disk::Disk;
use arch_types::steps::Steps;
use jobs::Job;
use live_archive::{Live, LivePass};
use outer_traits::gate::Gate;
use refusals::Refusal;
use retrieval::found_asks::FoundAsk;
use std::alloc::Global;
use std::marker::Brand;
use std::sync::Wait;
use std::sync::ledger::{Blank, Ledger};

/// How many readers there may be.
pub const READERS: usize = 4;

/// A reader of a load. It is generic in the archive, the pass and the glance, so that it may go to another thread.
#[derive(Drop)]
pub struct Reader<'a, L, P, N, G> {
    pub alloc: Global,
    pub live: &'a L,
    pub pass: P,
    /// What answers asks for values without a turn. None of an archive whose readers take turns.
    pub glance: Option<N>,
    /// All asks, of which it has every fourth.
    pub asks: &'a [FoundAsk],
    /// How many asks others have before its first.
    pub before: usize,
    pub gate: &'a G,
    /// Its number among the jobs.
    pub number: u32,
}

/// A reader that has ended: the answers to its asks, or to those before one that isn't answered, and why that isn't.
#[derive(Drop)]
pub struct ReaderDone<P> {
    pub pass: P,
    pub answers: AskAnswers,
    pub refusal: Option<Refusal>,
}

impl<'a, D: Disk + Send, G: Gate + Sync> Job
    for Reader<'a, Live<D>, LivePass<D>, LiveGlance<D>, G> {
    ghost use Rattle.std.specs.Prelude.{◌≡◌, IfSome, None, Some};
    ghost use Rattle.refusals.specs.declared.refusal.Refusal.TheVariants.{DiskFault};
    ghost use Rattle.live_archive.specs.Reads.{NotedRead};
    ghost use Rattle.retrieval.specs.FoundAsks.{AreFound};
    ghost use Rattle.turn_cell.specs.Pass.{IsFree};
    ghost use Rattle.archive_store.specs.StoreView.{filled_of};
    ghost use Rattle.live_asks.specs.LiveAsks.{AreAnswered, IsGlanceAt, OnlySees, disk_facts, every_fourth};

    type Done = ReaderDone<LivePass<D>>;

    ghost may = { λ reader. IsFree reader.live.now.cell reader.pass
        × (reader.pass.history.seen ≡ reader.live.now.cell.first.store.history)
        × IfSome reader.glance (IsGlanceAt reader.live.now.cell.first)
        × AreFound reader.live.now.cell.first.store.head reader.live.now.cell.first.store.history reader.asks.now };

    ghost did = { λ reader done. IsFree reader.live.now.cell done.pass
        × OnlySees reader.live.now.cell.first.store.sealed reader.pass done.pass
        × AreAnswered (disk_facts D.device reader.live.now.cell.first.store.opened
        reader.live.now.cell.first.store.sealed)
        (filled_of reader.live.now.cell.first.store) reader.pass.history.seen done.pass.history.seen
        (every_fourth reader.before reader.asks.now) done.answers done.refusal
        × (done.refusal ≡ Some DiskFault → NotedRead reader.pass.fills done.pass.fills)
        × (done.refusal ≡ None → done.pass.fills.places ≡ reader.pass.fills.places) };

    fn run<R: Wait>(self, rt: &R) -> ReaderDone<LivePass<D>> {
        run_counted::<D, G, R, Brand>(rt, Blank::new(1), self)
    }
}

/// Answers the asks of a reader, whose steps are counted in one book.
fn run_counted<D: Disk, G: Gate, R: Wait, L: Ledger>(
    rt: &R,
    blank: Blank,
    reader: Reader<'_, Live<D>, LivePass<D>, LiveGlance<D>, G>,
) -> ReaderDone<LivePass<D>>
    requires free { IsFree reader.live.now.cell reader.pass }
    requires seen { reader.pass.history.seen ≡ reader.live.now.cell.first.store.history }
    requires glance { IfSome reader.glance (IsGlanceAt reader.live.now.cell.first) }
    requires found { AreFound reader.live.now.cell.first.store.head reader.live.now.cell.first.store.history
        reader.asks.now }
    requires blank { (blank.name ≡ L.name) × (blank.parts ≡ L.parts) × (0 < blank.parts) }
    ensures free { IsFree reader.entry.live.now.cell result.pass }
    ensures sees { OnlySees reader.entry.live.now.cell.first.store.sealed reader.entry.pass result.pass }
    ensures answered { AreAnswered (disk_facts D.device reader.entry.live.now.cell.first.store.opened
        reader.entry.live.now.cell.first.store.sealed)
        (filled_of reader.entry.live.now.cell.first.store) reader.entry.pass.history.seen result.pass.history.seen
        (every_fourth reader.entry.before reader.entry.asks.now) result.answers result.refusal }
    ensures noted { result.refusal ≡ Some DiskFault → NotedRead reader.entry.pass.fills result.pass.fills }
    ensures silent { result.refusal ≡ None → result.pass.fills.places ≡ reader.entry.pass.fills.places }
{
    let Reader {
        alloc,
        live,
        mut pass,
        glance,
        asks,
        before,
        gate,
        number,
    } = reader;
    let mut gated = Gated {
        gate,
        number,
        turn: 0,
    };
    let (book, share) = blank.open::<L>();
    let mut steps = Steps::new(book, share);
    let (answers, refusal) = settled_answers(
        rt, alloc, live, &mut pass, &mut gated, glance, asks, before, &mut steps,
    );
    ReaderDone {
        pass,
        answers,
        refusal,
    }
}

/// The answers to every fourth ask, behind so many that others have before, up to the first that isn't answered, and why
/// that isn't. Those of which a glance gave some that no turn shows are given again in turns; where one wasn't answered
/// none is, so that no read fails untold.
fn settled_answers<D: Disk, G: Gate, R: Wait, L: Ledger>(
    rt: &R,
    alloc: Global,
    live: &Live<D>,
    pass: &mut LivePass<D>,
    gated: &mut Gated<'_, G>,
    glance: Option<LiveGlance<D>>,
    asks: &[FoundAsk],
    before: usize,
    steps: &mut Steps<L>,
) -> (AskAnswers, Option<Refusal>)
    requires free { IsFree live.now.cell pass.old }
    requires seen { pass.old.history.seen ≡ live.now.cell.first.store.history }
    requires glance { IfSome glance (IsGlanceAt live.now.cell.first) }
    requires found { AreFound live.now.cell.first.store.head live.now.cell.first.store.history asks.now }
    ensures free { IsFree live.now.cell pass.new }
    ensures sees { OnlySees live.now.cell.first.store.sealed pass.old pass.new }
    ensures answered { AreAnswered (disk_facts D.device live.now.cell.first.store.opened
        live.now.cell.first.store.sealed) (filled_of live.now.cell.first.store) pass.old.history.seen pass.new.history.seen
        (every_fourth before asks.now) result.0 result.1 }
    ensures noted { result.1 ≡ Some DiskFault → NotedRead pass.old.fills pass.new.fills }
    ensures silent { result.1 ≡ None → pass.new.fills.places ≡ pass.old.fills.places }
{
    let mut glance = glance;
    let (answers, refusal) = answers_by(
        rt,
        alloc,
        live,
        pass,
        gated,
        &mut glance,
        asks,
        before,
        steps,
    );
    if is_settled(rt, alloc, live, pass, gated, &glance, &answers) {
        return (answers, refusal);
    }
    match refusal {
        Some(refusal) => (AskAnswers::new(alloc), Some(refusal)),
        None => {
            let mut none = None;
            answers_by(rt, alloc, live, pass, gated, &mut none, asks, before, steps)
        }
    }
}

/// The same, by a glance where there is one.
fn answers_by<D: Disk, G: Gate, R: Wait, L: Ledger>(
    rt: &R,
    alloc: Global,
    live: &Live<D>,
    pass: &mut LivePass<D>,
    gated: &mut Gated<'_, G>,
    glance: &mut Option<LiveGlance<D>>,
    asks: &[FoundAsk],
    before: usize,
    steps: &mut Steps<L>,
) -> (AskAnswers, Option<Refusal>)
    requires free { IsFree live.now.cell pass.old }
    requires glance { IfSome glance.old (IsGlanceAt live.now.cell.first) }
    requires found { AreFound live.now.cell.first.store.head live.now.cell.first.store.history asks.now }
    ensures free { IsFree live.now.cell pass.new }
    ensures sees { OnlySees live.now.cell.first.store.sealed pass.old pass.new }
    ensures later { LooksOn glance.old glance.new }
    ensures asked { AreAsked D.device live.now.cell.first.store glance.new (reader_view pass.old steps.old)
        (reader_view pass.new steps.new) (every_fourth before asks.now) result.0 result.1 }
    ensures noted { result.1 ≡ Some DiskFault → NotedRead pass.old.fills pass.new.fills }
    ensures silent { result.1 ≡ None → pass.new.fills.places ≡ pass.old.fills.places }
{
    let mut answers = AskAnswers::new(alloc);
    let answer = answer_asks(
        rt,
        alloc,
        live,
        pass,
        gated,
        glance,
        asks,
        before,
        &mut answers,
        steps,
    );
    (answers, answer.err())
}

/// Answers every fourth ask, up to the first that isn't answered.
fn answer_asks<D: Disk, G: Gate, R: Wait, L: Ledger>(
    rt: &R,
    alloc: Global,
    live: &Live<D>,
    pass: &mut LivePass<D>,
    gated: &mut Gated<'_, G>,
    glance: &mut Option<LiveGlance<D>>,
    asks: &[FoundAsk],
    before: usize,
    answers: &mut AskAnswers,
    steps: &mut Steps<L>,
) -> Result<(), Refusal>
    requires free { IsFree live.now.cell pass.old }
    requires glance { IfSome glance.old (IsGlanceAt live.now.cell.first) }
    requires found { AreFound live.now.cell.first.store.head live.now.cell.first.store.history asks.now }
    requires none { answers.old ≡ [] }
    ensures free { IsFree live.now.cell pass.new }
    ensures sees { OnlySees live.now.cell.first.store.sealed pass.old pass.new }
    ensures later { LooksOn glance.old glance.new }
    ensures asked { AreAsked D.device live.now.cell.first.store glance.new (reader_view pass.old steps.old)
        (reader_view pass.new steps.new) (every_fourth before asks.now) answers.new (result_err result) }
    ensures noted { IfErr result (λ refusal. refusal ≡ DiskFault → NotedRead pass.old.fills pass.new.fills) }
    ensures silent { OnOk result (pass.new.fills.places ≡ pass.old.fills.places) }
{
    let mut skip = before;
    for ask in asks {
        if skip > 0 {
            skip -= 1;
            continue;
        }
        skip = READERS - 1;
        let answer = answer_ask(rt, alloc, live, pass, gated, glance, ask, steps)?;
        answers.push(answer)?;
    }
    Ok(())
}
