//! What a reader's glance answers, and whether that stands beside the answers of turns.

ghost use Rattle.std.specs.Prelude.{◌≡◌, true, IfSome, IsSomeAnd};
ghost use mathlib.Core.List.{IsPrefix};
ghost use Rattle.turn_cell.specs.Pass.{IsFree};
ghost use Rattle.glance.specs.Answers.{IsNowAnswer};
ghost use Rattle.store_shelf.specs.Publications.{staying_by};
ghost use Rattle.live_asks.specs.LiveAsks.{AreSettled, FrontsRise, IsGlanceAt, LooksOn, OnlySees};

use crate::answered::{AskAnswer, AskAnswers};
use crate::turns::Gated;
use arch_disk::Disk;
use asks::{Answer, Request};
use glance::Glance;
use live_archive::{Live, LivePass};
use outer_traits::gate::Gate;
use std::alloc::Global;
use std::sync::Wait;
use store_shelf::Kept;

/// A reader of what is published of a live archive.
pub type LiveGlance<D> = Glance<Kept<D>>;

/// What a glance answers to a request, where there is one and it has an answer. It waits for nobody.
pub(crate) fn glanced<D: Disk, G: Gate>(
    alloc: Global,
    gated: &mut Gated<'_, G>,
    glance: &mut Option<LiveGlance<D>>,
    request: &Request,
) -> Option<Answer>
    ensures answered { IfSome result (λ answer. IsSomeAnd glance.new (λ at.
        IsNowAnswer (staying_by D.device) at request.now answer)) }
    ensures later { LooksOn glance.old glance.new }
{
    match glance {
        Some(glance) => {
            gated.pass();
            glance.retrieve_now(alloc, request).ok()
        }
        None => None,
    }
}

/// Whether answers are over histories that go on from each other. Where there is a glance, a turn is taken to see that
/// all that it has seen begins what the caller has.
pub(crate) fn is_settled<D: Disk, G: Gate, R: Wait>(
    rt: &R,
    alloc: Global,
    live: &Live<D>,
    pass: &mut LivePass<D>,
    gated: &mut Gated<'_, G>,
    glance: &Option<LiveGlance<D>>,
    answers: &AskAnswers,
) -> bool
    requires free { IsFree live.now.cell pass.old }
    requires glance { IfSome glance.now (IsGlanceAt live.now.cell.first) }
    ensures free { IsFree live.now.cell pass.new }
    ensures sees { OnlySees live.now.cell.first.store.sealed pass.old pass.new }
    ensures silent { pass.new.fills.places ≡ pass.old.fills.places }
    ensures settled { result ≡ true → AreSettled glance.now pass.new answers.now }
{
    match glance {
        Some(glance) => {
            is_shown(rt, alloc, live, pass, gated, glance) && fronts_rise(answers.as_slice())
        }
        None => true,
    }
}

/// Whether all that a glance has seen begins what the caller has in a turn. Where memory is wanting it isn't told.
fn is_shown<D: Disk, G: Gate, R: Wait>(
    rt: &R,
    alloc: Global,
    live: &Live<D>,
    pass: &mut LivePass<D>,
    gated: &mut Gated<'_, G>,
    glance: &LiveGlance<D>,
) -> bool
    requires free { IsFree live.now.cell pass.old }
    requires glance { IsGlanceAt live.now.cell.first glance.now }
    ensures free { IsFree live.now.cell pass.new }
    ensures sees { OnlySees live.now.cell.first.store.sealed pass.old pass.new }
    ensures silent { pass.new.fills.places ≡ pass.old.fills.places }
    ensures shown { result ≡ true → IsPrefix glance.now.history pass.new.history.seen }
{
    gated.pass();
    match live.note(rt, alloc, pass) {
        Ok(note) => glance.note().is_followed_by(&note),
        Err(_) => false,
    }
}

/// Whether the fronts of answers don't fall.
fn fronts_rise(answers: &[AskAnswer]) -> bool
    ensures { result ≡ true → FrontsRise 0 answers.now }
{
    let mut front = 0;
    for answer in answers {
        if answer.front() < front {
            return false;
        }
        front = answer.front();
    }
    true
}
