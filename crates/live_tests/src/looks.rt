// What a glance tells.
ghost use Rattle.std.specs.Prelude.{◌≡◌};
ghost use Rattle.glance_log.specs.Sightings.{IsFollowedBy};

use crate::calls::request;
use arch_disk::Disk;
use asks::Answer;
use glance::Glance;
use live_archive::LiveGlances;
use packed_cells::PackedCells;
use refusals::Refusal;
use std::alloc::Global;
use store_shelf::Kept;

/// A reader that takes no turns.
pub(crate) type LiveGlance<D> = Glance<Kept<D>>;

/// What is to be told.
pub(crate) enum Told {
    /// Of a history of so many rows, the values in order.
    Values(u64, &'static [i128]),
    /// An interval is late.
    Late(i64),
    /// Nothing is published any more.
    Nothing,
}

/// Whether cells have these raw values.
fn are_values(cells: &PackedCells, values: &[i128]) -> bool {
    for (cell, value) in cells.iter().zip(values) {
        if cell.raw != *value {
            return false;
        }
    }
    cells.len() == values.len()
}

fn is_answer(answer: &Answer, front: u64, values: &[i128]) -> bool {
    answer.front == front && are_values(&answer.cells, values)
}

fn is_told(answer: Result<Answer, Refusal>, told: &Told) -> bool {
    match (answer, told) {
        (Ok(answer), Told::Values(front, values)) => is_answer(&answer, *front, values),
        (Err(Refusal::Late { interval }), Told::Late(number)) => interval.0 == *number,
        (Err(Refusal::OutOfMemory), Told::Nothing) => true,
        _ => false,
    }
}

/// Whether a glance tells this of `v`.
pub(crate) fn tells<D: Disk>(alloc: Global, glance: &mut LiveGlance<D>, told: &Told) -> bool
    ensures book { glance.new.book ≡ glance.old.book }
{
    let Some(request) = request(alloc) else {
        return false;
    };
    is_told(glance.retrieve_now(alloc, &request), told)
}

/// How many glances that nobody has taken tell this. They are taken.
pub(crate) fn telling<D: Disk>(alloc: Global, glances: &mut LiveGlances<D>, told: &Told) -> u8 {
    let mut count = 0u8;
    for _ in 0..16 {
        let Some(mut glance) = glances.take() else {
            return count;
        };
        if tells(alloc, &mut glance, told) {
            count = count.saturating_add(1);
        }
    }
    count
}
