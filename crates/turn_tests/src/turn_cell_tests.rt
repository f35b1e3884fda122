//! What no clause says: that each call succeeds while memory lasts, and that all ends where a caller keeps its pass.

ghost use Rattle.std.specs.Prelude.{◌≡◌, ◌^◌};
ghost use Rattle.std.specs.Thread.{IsSync};
ghost use Rattle.turn_cell.specs.Pass.{IsFree};

use crate::ends::{none_other, other};
use crate::tally::{Tally, add, add_hundred};
use std::alloc::Global;
use std::sync::Wait;
use std::test::Fail;
use std::thread::{Threads, join};
use turn_cell::{Growing, Pass, TurnCell};

/// What two callers in threads leave, and what a front read after them tells.
fn added_by_two<R: Threads + Wait + Sync>(
    rt: &R,
    cell: TurnCell<Tally>,
    mut pass: Pass<Tally>,
) -> (u64, Tally)
    requires free { IsFree cell pass }
    requires whole { pass.share ≡ 2 ^ 63 }
{
    let shared = &cell;
    let second = shared.split(&mut pass);
    let (mut first, second) = join(
        rt,
        || -> Pass<Tally>
            requires { IsSync R.row × IsFree shared.now pass }
            ensures { IsFree shared.entry.now result × (result.share ≡ pass.share) }
        { add_hundred(rt, shared, pass, 0) },
        || -> Pass<Tally>
            requires { IsSync R.row × IsFree shared.now second }
            ensures { IsFree shared.entry.now result × (result.share ≡ second.share) }
        { add_hundred(rt, shared, second, 1000) },
    );
    shared.join(&mut first, second);
    let front = shared.front(&mut first);
    (front, cell.close(first))
}

/// Whether those of the numbers that lie in a hundred from one on are all of these, in order.
fn has_hundred(numbers: &[u64], from: u64) -> bool {
    let mut next = from;
    for number in numbers {
        if *number == next {
            next = next.saturating_add(1);
        }
    }
    next == from.saturating_add(100)
}

fn empty(alloc: Global) -> Tally {
    Tally {
        numbers: Vec::new(alloc),
    }
}

#[test]
fn two_callers_add(rt: HostRuntime) -> Result<(), Fail> {
    let Ok((cell, pass)) = TurnCell::new(rt.alloc(), empty(rt.alloc())) else {
        return Err(Fail::new("memory"));
    };
    let (front, tally) = added_by_two(&rt, cell, pass);
    let numbers = tally.numbers.as_slice();
    none_other(other(&[
        ("as many as were added", numbers.len() == 200),
        ("the front tells of all", front == tally.len()),
        ("the first caller's, in order", has_hundred(numbers, 0)),
        ("the second caller's, in order", has_hundred(numbers, 1000)),
    ]))
}

/// A caller keeps its pass: the cell can't be closed, and is let go with its value.
#[test]
fn a_pass_is_kept(rt: HostRuntime) -> Result<(), Fail> {
    let Ok((cell, mut pass)) = TurnCell::new(rt.alloc(), empty(rt.alloc())) else {
        return Err(Fail::new("memory"));
    };
    let mut kept = cell.split(&mut pass);
    add(&rt, &cell, &mut pass, 7);
    let front = cell.front(&mut kept);
    none_other(other(&[("the other's number is told of", front == 1)]))
}
