//! The cell and its passes.

ghost use Rattle.std.specs.Prelude.{ℕ, ◌≡◌, ◌<◌, ◌≤◌, ◌^◌, ◌+◌, length, Contains, IfOk, IfErr};
ghost use mathlib.Core.List.{IsPrefix};
ghost use Rattle.turn_cell.specs.Lists.{first_seen};
ghost use Rattle.turn_cell.specs.Pass.{IsFree, HasTurn, Found, Left, SameButFront, kept_half, given_half, both_passes};

use crate::growing::Growing;
use crate::seats::{draw, read_front, rouse, tell_front, unite, wait};
use crate::steps::{Halve, PassOn, Turns};
use crate::view::View;
use atomic_table::{Refused, Seat, Table};
use std::alloc::{AllocError, Global};
use std::marker::Model;
use std::snapshot::Snapshot;
use std::sync::Wait;

/// A value that callers take in turns.
#[derive(Drop)]
pub struct TurnCell<T: Growing> {
    table: Table<Option<T>, View<T::Item, T::Fill, T>, Snapshot<T>, Turns, Global>,
}

impl<T: Growing> Model for TurnCell<T> {
    ghost use Rattle.turn_cell.specs.Pass.{CellView};
    ghost use Rattle.turn_cell.specs.Turn.{IsCell};

    ghost Value = { CellView T };

    ghost view = { λ c. record { id = c.table.shared.table_id; first = c.table.shared.key.value } };

    ghost invariant = { λ c. IsCell c.table.shared.table_id };
}

/// What a caller takes turns by. One that is let go keeps its share, so that the cell can't be closed any more.
pub struct Pass<T: Growing> {
    seat: Seat<Option<T>, View<T::Item, T::Fill, T>>,
    /// That of the last turn.
    ticket: u64,
}

impl<T: Growing> Model for Pass<T> {
    ghost use Rattle.turn_cell.specs.Pass.{PassView, pass_of};

    ghost Value = { PassView T.Item T.Fill T };

    ghost view = { λ p. pass_of p.seat.table_id p.seat.me p.ticket };
}

impl<T: Growing> Drop for Pass<T> {
    fn drop(self) {
        let Self { seat: _, ticket: _ } = self;
    }
}

impl<T: Growing> Pass<T> {
    ghost use Rattle.turn_cell.specs.Pass.{pass_of};

    fn into_seat(self) -> Seat<Option<T>, View<T::Item, T::Fill, T>>
        ensures { self ≡ pass_of result.table_id result.me self.standing.ticket }
    {
        let Pass { seat, ticket: _ } = self;
        seat
    }
}

impl<T: Growing> TurnCell<T> {
    /// A cell of a value, and the pass that has the whole share. The one error is want of memory.
    pub fn new(alloc: Global, value: T) -> Result<(TurnCell<T>, Pass<T>), (T, AllocError)>
        requires start { T.goes_on value value }
        ensures free { IfOk result (λ made. IsFree made.0 made.1) }
        ensures first { IfOk result (λ made. made.0.first ≡ value) }
        ensures lists { IfOk result (λ made.
            (made.1.history ≡ first_seen (T.history value)) × (made.1.fills ≡ first_seen (T.fills value))) }
        ensures share { IfOk result (λ made. (made.1.share ≡ 2 ^ 63) × (made.1.turns ≡ 0)) }
        ensures back { IfErr result (λ refused. refused.0 ≡ value) }
    {
        let key = Snapshot::of(&value);
        let front = value.len();
        let mut slots = Vec::new(alloc);
        if let Err(refused) = slots.push(Some(value)) {
            let Some(value) = refused.value else {
                unreachable!()
            };
            slots.destroy_empty();
            return Err((value, AllocError));
        }
        match Table::new(alloc, &[0, 0, front], slots, &key) {
            Ok((table, seat)) => Ok((TurnCell { table }, Pass { seat, ticket: 0 })),
            Err(Refused { mut slots }) => {
                let Some(Some(value)) = slots.pop() else {
                    unreachable!()
                };
                slots.destroy_empty();
                Err((value, AllocError))
            }
        }
    }

    /// Waits for the caller's turn, and hands the value out.
    pub fn enter<R: Wait>(&self, rt: &R, pass: &mut Pass<T>) -> T
        requires free { IsFree self.now pass.old }
        ensures turn { HasTurn self.now pass.new }
        ensures found { Found pass.old pass.new (T.history result) (T.fills result) }
        ensures begins { IsPrefix pass.old.history.seen (T.history result) }
        ensures fills_begin { IsPrefix pass.old.fills.seen (T.fills result) }
        ensures value { T.goes_on self.now.first result }
    {
        let shared = &self.table.shared;
        let ticket = draw(rt, shared, &mut pass.seat);
        wait(rt, shared, &mut pass.seat, ticket);
        pass.ticket = ticket;
        pass.seat.slot_mut(shared, 0).take().unwrap()
    }

    /// Takes the value back, and passes the turn on.
    pub fn leave(&self, pass: &mut Pass<T>, value: T)
        requires turn { HasTurn self.now pass.old }
        requires begins { IsPrefix pass.old.history.seen (T.history value) }
        requires fills_begin { IsPrefix pass.old.fills.seen (T.fills value) }
        requires value { T.goes_on self.now.first value }
        ensures free { IsFree self.now pass.new }
        ensures left { Left pass.old pass.new (T.history value) (T.fills value) }
    {
        let front = value.len();
        let shared = &self.table.shared;
        let old = pass.seat.slot_mut(shared, 0).replace(value);
        let None = old else { unreachable!() };
        tell_front(shared, &mut pass.seat, front);
        shared.store::<PassOn>(&mut pass.seat, 1, pass.ticket + 1);
    }

    /// Rouses a caller that sleeps while it waits for its turn, if there is one. For who has left a turn and takes none
    /// for a while: a turn itself makes no call of the system, as the next may come at once.
    pub fn rouse(&self) {
        rouse(&self.table.shared);
    }

    /// How long the history is, or was a moment ago. It waits for nobody. The caller has then seen as much of it.
    pub fn front(&self, pass: &mut Pass<T>) -> u64
        requires free { IsFree self.now pass.old }
        ensures free { IsFree self.now pass.new }
        ensures front { result ≡ length pass.new.history.seen }
        ensures begins { IsPrefix pass.old.history.seen pass.new.history.seen }
        ensures same { SameButFront pass.old pass.new }
    {
        read_front(&self.table.shared, &mut pass.seat)
    }

    /// Another pass of the cell, which has seen as much, and gets half of the share.
    pub fn split(&self, pass: &mut Pass<T>) -> Pass<T>
        requires free { IsFree self.now pass.old }
        requires share { 2 ≤ pass.old.share }
        ensures free { IsFree self.now pass.new × IsFree self.now result }
        ensures kept { pass.new ≡ kept_half pass.old }
        ensures given { result ≡ given_half pass.old }
    {
        Pass {
            seat: self.table.shared.split_seat::<Halve>(&mut pass.seat),
            ticket: 0,
        }
    }

    /// Joins another pass of the cell to this one, which has then seen the longer lists.
    pub fn join(&self, pass: &mut Pass<T>, other: Pass<T>)
        requires free { IsFree self.now pass.old × IsFree self.now other }
        ensures free { IsFree self.now pass.new }
        ensures both { pass.new ≡ both_passes pass.old other }
        ensures begins { IsPrefix pass.old.history.seen pass.new.history.seen
            × IsPrefix pass.old.fills.seen pass.new.fills.seen }
        ensures others_begin { IsPrefix other.history.seen pass.new.history.seen
            × IsPrefix other.fills.seen pass.new.fills.seen }
    {
        let seat = other.into_seat();
        unite(&self.table.shared, &mut pass.seat, seat);
    }

    /// Takes the value out for good. Who closes the cell has added each item of both lists.
    pub fn close(self, pass: Pass<T>) -> T
        requires free { IsFree self pass }
        requires share { pass.share ≡ 2 ^ 63 }
        ensures value { T.goes_on self.first result }
        ensures begins { IsPrefix pass.history.seen (T.history result) × IsPrefix pass.fills.seen (T.fills result) }
        ensures added { (length (T.history result) ≡ pass.history.added)
            × (length (T.fills result) ≡ pass.fills.added) }
        ensures placed { (place : ℕ) → place < length (T.history result) → Contains pass.history.places place }
        ensures fills_placed { (place : ℕ) → place < length (T.fills result) → Contains pass.fills.places place }
    {
        let TurnCell { table } = self;
        let seat = pass.into_seat();
        let mut closed = table.close_with(seat);
        let slot = closed.take(0);
        closed.free();
        slot.unwrap()
    }
}
