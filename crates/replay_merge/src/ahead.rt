//! Rows that were read and not given yet.

ghost use Rattle.std.specs.Prelude.{◌≡◌, ◌<◌, ◌^◌, [], length, take, drop, IfOk, OnOk, OnErr};
ghost use Rattle.replay_merge.specs.Cursor.{still_ahead};

use arch_types::row::{Row, Rows};
use std::alloc::{AllocError, Global};
use std::marker::Model;

/// Rows of which the first can be taken off.
#[derive(Drop)]
pub(crate) struct Ahead {
    /// The first of the rows stands last, so that taking it off moves no other.
    backwards: Vec<Row>,
}

impl Model for Ahead {
    ghost use Rattle.std.specs.Prelude.{List, reverse};
    ghost use Rattle.arch_types.specs.declared.row.Row.{Row};

    ghost Value = { List Row };

    ghost view = { λ a. reverse a.backwards.items };
}

impl Ahead {
    /// No row. Takes no memory.
    pub(crate) fn new(alloc: Global) -> Self
        ensures { result ≡ [] }
    {
        Ahead {
            backwards: Vec::new(alloc),
        }
    }

    /// These rows. Takes no memory.
    fn of(rows: Vec<Row>) -> Self
        ensures { result ≡ rows.items }
    {
        let mut backwards = rows;
        backwards.reverse();
        Ahead { backwards }
    }

    pub(crate) fn len(&self) -> usize
        ensures { result ≡ length self.now }
    {
        self.backwards.len()
    }

    /// Keeps no row once the limit is reached. Takes no memory.
    pub(crate) fn keep_within(&mut self, left: Option<u64>)
        ensures { self.new ≡ still_ahead left self.old }
    {
        if left == Some(0) {
            self.backwards = Vec::new(*self.backwards.allocator());
        }
    }

    /// Takes the first rows off, so many or all. The one error is want of memory, and then all is as before.
    pub(crate) fn take_first(&mut self, most: usize) -> Result<Rows, AllocError>
        ensures rows { IfOk result (λ rows. rows ≡ take most self.old) }
        ensures rest { OnOk result (self.new ≡ drop most self.old) }
        ensures err { OnErr result (self.new ≡ self.old) }
    {
        let at = self.backwards.len().saturating_sub(most);
        let mut rows = self.backwards.split_off(at)?;
        rows.reverse();
        Ok(Rows::from_vec(rows))
    }
}

/// The first of some rows, so many or all, and the others. The one error is want of memory.
pub(crate) fn split_first(
    alloc: Global,
    rows: Rows,
    most: usize,
) -> Result<(Rows, Ahead), AllocError>
    ensures first { IfOk result (λ parts. parts.0 ≡ take most rows) }
    ensures rest { IfOk result (λ parts. parts.1 ≡ drop most rows) }
    ensures short { length rows < 2 ^ 64 }
{
    if rows.len() <= most {
        return Ok((rows, Ahead::new(alloc)));
    }
    let mut ahead = Ahead::of(rows.into_vec());
    let first = ahead.take_first(most)?;
    Ok((first, ahead))
}
