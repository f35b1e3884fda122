//! A list of numbers that callers add to in turns.

ghost use Rattle.std.specs.Prelude.{◌≡◌, ◌+◌, [], length, List};
ghost use Rattle.turn_cell.specs.Pass.{IsFree};

use std::sync::Wait;
use turn_cell::{Growing, Pass, TurnCell};

/// Numbers, none of which is ever taken out.
#[derive(Drop)]
pub struct Tally {
    pub numbers: Vec<u64>,
}

impl Growing for Tally {
    type Item = u64;

    type Fill = u64;

    ghost history = { λ tally. tally.numbers.items };

    ghost fills = { λ tally. [] };

    ghost goes_on = { λ first now. Unit {0} };

    fn len(&self) -> u64 {
        self.numbers.len() as u64
    }

    fn fill_len(&self) -> u64 {
        0
    }
}

/// Adds a number in one turn, where there is memory for it.
pub fn add<R: Wait>(rt: &R, cell: &TurnCell<Tally>, pass: &mut Pass<Tally>, number: u64)
    requires free { IsFree cell.now pass.old }
    ensures free { IsFree cell.now pass.new }
    ensures share { pass.new.share ≡ pass.old.share }
    ensures turns { pass.new.turns ≡ pass.old.turns + 1 }
{
    let mut tally = cell.enter(rt, pass);
    let _ = tally.numbers.push(number);
    cell.leave(pass, tally);
}

/// Adds a hundred numbers, each in a turn of its own.
pub fn add_hundred<R: Wait>(
    rt: &R,
    cell: &TurnCell<Tally>,
    mut pass: Pass<Tally>,
    from: u64,
) -> Pass<Tally>
    requires free { IsFree cell.now pass }
    ensures free { IsFree cell.now result }
    ensures share { result.share ≡ pass.share }
{
    for i in 0..100 {
        add(rt, cell, &mut pass, from.wrapping_add(i));
    }
    pass
}
