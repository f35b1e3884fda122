//! What is guessed of groups: which may have a row, before its parameters are looked for, and how many rows one may have.

ghost use Rattle.std.specs.Prelude.{◌<◌};

use container_extract::values::RawValue;

/// How many marks there are.
const MARKS: usize = 16;

/// For each mark of a row the group that had the last row of this mark: where rows of some groups alternate, each finds
/// its own (D-212). A guess is no more than that: whoever takes one asks whether the parameters are the group's.
#[derive(Drop)]
pub struct GroupGuesses {
    numbers: [usize; MARKS],
    /// How many rows may come.
    rows: usize,
}

/// The mark of a row: by its last parameter, which most often is of the container that tells the row's group.
fn mark(values: &[RawValue]) -> usize
    ensures { result < 16 }
{
    match values.last() {
        None => 0,
        Some(value) => usize::from(value.parameter) % MARKS,
    }
}

impl GroupGuesses {
    /// The first group, for any of so many rows that may come.
    pub(crate) fn new(rows: usize) -> GroupGuesses {
        GroupGuesses {
            numbers: [0; MARKS],
            rows,
        }
    }

    /// How many rows a group may have, behind so many other groups.
    pub(crate) fn rows_of_group(&self, others: usize) -> usize {
        self.rows / others.max(1)
    }

    /// The number of the group that may have a row.
    pub(crate) fn guess(&self, values: &[RawValue]) -> usize {
        self.numbers[mark(values)]
    }

    /// Keeps the number of the group that has a row.
    pub(crate) fn keep(&mut self, values: &[RawValue], number: usize) {
        self.numbers[mark(values)] = number;
    }
}
