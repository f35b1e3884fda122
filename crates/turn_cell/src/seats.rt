//! What a pass does with its seat, by the part of the cell that all share.

ghost use Rattle.std.specs.Prelude.{◌≡◌, ◌<◌, ◌^◌, ◌+◌, [], length};
ghost use mathlib.Core.List.{IsPrefix};
ghost use Rattle.turn_cell.specs.declared.view.Stage.TheVariants.{Waits};
ghost use Rattle.turn_cell.specs.Turn.{IsCell, IsSeatOf, IsAtRest, Served, HasGrown, FrontTold, both_views, seen_more};

use crate::growing::Growing;
use crate::steps::{Draw, FindFront, Look, ReadFront, Settle, Turns, Unite, WriteFront};
use crate::view::View;
use atomic_table::{Seat, Shared};
use crossbeam_utils::Backoff;
use std::snapshot::Snapshot;
use std::sync::Wait;
use std::time::Duration;

/// How many looks are close together, by backing off and then yielding the processor. Before each look behind them a
/// caller sleeps.
const CLOSE_LOOKS: u32 = 24;

/// How often a caller looks whether the turn is free before it draws a ticket all the same. Callers that draw at once
/// would hand the value, and with it each octet that a turn touches, from processor to processor at every turn, and who
/// takes many turns one behind the other would sleep between any two of them; one that never draws would wait as long as
/// others take turns.
const LOOKS: u32 = 54;

/// The least time of a sleep, in microseconds, unless the caller is roused.
const SLEEP: u64 = 50;

/// Passes the time to the next look, asleep behind close ones.
fn pass_time<T: Growing, R: Wait>(
    rt: &R,
    shared: &Shared<Option<T>, View<T::Item, T::Fill, T>, Snapshot<T>, Turns>,
    backoff: &Backoff,
    looks: u32,
    serving: u64,
)
    requires sized { IsCell shared.now.table_id }
{
    if looks < CLOSE_LOOKS {
        backoff.snooze();
        return;
    }
    let served = (serving & 0xffff_ffff) as u32;
    shared.park_timeout(rt, 1, served, Duration::from_micros(SLEEP));
}

/// Rouses a caller that sleeps before a look, if there is one.
pub(crate) fn rouse<T: Growing>(
    shared: &Shared<Option<T>, View<T::Item, T::Fill, T>, Snapshot<T>, Turns>,
)
    requires sized { IsCell shared.now.table_id }
{
    shared.wake_one(1);
}

/// Draws a ticket, once the turn is free or was looked for often enough. After the last ticket it goes on for ever.
/// It isn't inlined, nor is `wait`: beside their atomic steps the compiler would keep the zeros that it writes to a
/// place before a value is moved there.
#[inline(never)]
pub(crate) fn draw<T: Growing, R: Wait>(
    rt: &R,
    shared: &Shared<Option<T>, View<T::Item, T::Fill, T>, Snapshot<T>, Turns>,
    seat: &mut Seat<Option<T>, View<T::Item, T::Fill, T>>,
) -> u64
    requires sized { IsCell shared.now.table_id }
    requires own { (seat.old.table_id ≡ shared.now.table_id) × (0 < seat.old.me.0.share) }
    requires idle { IsAtRest seat.old.me }
    ensures same { (seat.new.table_id ≡ seat.old.table_id) × (seat.new.id ≡ seat.old.id) }
    ensures drawn { seat.new.me ≡ (record seat.old.me.0 { stage = Waits result }, []) }
    ensures next { result + 1 < 2 ^ 64 }
{
    let backoff = Backoff::new();
    let mut looks = 0;
    for _ in rt.forever() {
        let ticket = shared.peek(0);
        let serving = shared.peek(1);
        if ticket < u64::MAX && (serving == ticket || looks == LOOKS) {
            let found = shared.compare_exchange::<Draw>(seat, 0, ticket, ticket + 1);
            if found == ticket {
                return ticket;
            }
        }
        pass_time(rt, shared, &backoff, looks, serving);
        if looks < LOOKS {
            looks += 1;
        }
    }
    unreachable!()
}

/// Waits until the ticket is served.
#[inline(never)]
pub(crate) fn wait<T: Growing, R: Wait>(
    rt: &R,
    shared: &Shared<Option<T>, View<T::Item, T::Fill, T>, Snapshot<T>, Turns>,
    seat: &mut Seat<Option<T>, View<T::Item, T::Fill, T>>,
    ticket: u64,
)
    requires sized { IsCell shared.now.table_id }
    requires own { IsSeatOf shared.now.table_id shared.now.key.value seat.old.table_id seat.old.me }
    requires drawn { (seat.old.me.0.stage ≡ Waits ticket) × (seat.old.me.1 ≡ []) }
    ensures same { (seat.new.table_id ≡ seat.old.table_id) × (seat.new.id ≡ seat.old.id) }
    ensures served { Served T.history T.fills T.goes_on seat.old.me seat.new.me ticket }
{
    let backoff = Backoff::new();
    let mut looks = 0;
    for _ in rt.forever() {
        let serving = shared.load::<Look>(seat, 1);
        if serving == ticket {
            return;
        }
        pass_time(rt, shared, &backoff, looks, serving);
        looks = looks.saturating_add(1);
    }
    unreachable!()
}

/// Tells all how long the history of the value in the slot is. Who adds nothing writes nothing: the word stays where
/// those who read it have it.
pub(crate) fn tell_front<T: Growing>(
    shared: &Shared<Option<T>, View<T::Item, T::Fill, T>, Snapshot<T>, Turns>,
    seat: &mut Seat<Option<T>, View<T::Item, T::Fill, T>>,
    front: u64,
)
    requires sized { IsCell shared.now.table_id }
    requires own { IsSeatOf shared.now.table_id shared.now.key.value seat.old.table_id seat.old.me }
    requires grown { HasGrown T.history T.fills seat.old.me front }
    ensures same { (seat.new.table_id ≡ seat.old.table_id) × (seat.new.id ≡ seat.old.id) }
    ensures told { FrontTold T.history T.fills seat.old.me seat.new.me }
{
    if shared.load::<FindFront>(seat, 2) == front {
        return;
    }
    shared.store::<WriteFront>(seat, 2, front);
}

/// Reads how long the history is. The seat has then seen as much of it.
pub(crate) fn read_front<T: Growing>(
    shared: &Shared<Option<T>, View<T::Item, T::Fill, T>, Snapshot<T>, Turns>,
    seat: &mut Seat<Option<T>, View<T::Item, T::Fill, T>>,
) -> u64
    requires sized { IsCell shared.now.table_id }
    requires own { IsSeatOf shared.now.table_id shared.now.key.value seat.old.table_id seat.old.me }
    requires idle { IsAtRest seat.old.me }
    ensures same { (seat.new.table_id ≡ seat.old.table_id) × (seat.new.id ≡ seat.old.id) }
    ensures front { result ≡ length seat.new.me.0.history.list.seen }
    ensures begins { IsPrefix seat.old.me.0.history.list.seen seat.new.me.0.history.list.seen }
    ensures more { seat.new.me ≡ (seen_more seat.old.me.0 seat.new.me.0.history.list.seen, []) }
{
    shared.load::<ReadFront>(seat, 2)
}

/// Gives a seat up, and takes in what it knew.
pub(crate) fn unite<T: Growing>(
    shared: &Shared<Option<T>, View<T::Item, T::Fill, T>, Snapshot<T>, Turns>,
    seat: &mut Seat<Option<T>, View<T::Item, T::Fill, T>>,
    other: Seat<Option<T>, View<T::Item, T::Fill, T>>,
)
    requires sized { IsCell shared.now.table_id }
    requires own { IsSeatOf shared.now.table_id shared.now.key.value seat.old.table_id seat.old.me }
    requires idle { IsAtRest seat.old.me × IsAtRest other.me }
    requires theirs { other.table_id ≡ shared.now.table_id }
    ensures same { (seat.new.table_id ≡ seat.old.table_id) × (seat.new.id ≡ seat.old.id) }
    ensures both { seat.new.me ≡ (both_views seat.old.me.0 other.me.0, []) }
    ensures mine { IsPrefix seat.old.me.0.history.list.seen seat.new.me.0.history.list.seen
        × IsPrefix seat.old.me.0.fills.list.seen seat.new.me.0.fills.list.seen }
    ensures others { IsPrefix other.me.0.history.list.seen seat.new.me.0.history.list.seen
        × IsPrefix other.me.0.fills.list.seen seat.new.me.0.fills.list.seen }
{
    shared.join_seat::<Unite>(seat, other);
    shared.load::<Settle>(seat, 0);
}
