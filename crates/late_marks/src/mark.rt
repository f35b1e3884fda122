//! The mark of an interval.

ghost use Rattle.std.specs.Prelude.{◌≡◌};
ghost use Rattle.late_marks.specs.Mark.{is_late_mark, is_late_free_mark, touched};

/// What is known of an interval that has rows.
#[derive(Clone, Copy, Debug, PartialEq, Eq)]
pub struct Mark {
    /// The greatest position of its rows in the history.
    pub last: u64,
    /// The base of its last fill.
    pub base: Option<u64>,
    /// Somebody is filling it.
    pub taken: bool,
}

impl Mark {
    /// The mark after one more row.
    pub(crate) fn touched(mark: Option<Mark>, position: u64) -> Mark
        ensures { result ≡ touched mark position }
    {
        match mark {
            Some(mark) => Mark {
                last: mark.last.max(position),
                ..mark
            },
            None => Mark {
                last: position,
                base: None,
                taken: false,
            },
        }
    }

    /// Whether a row stands at or after the base of the last fill, or there was none.
    pub(crate) fn is_late(&self) -> bool
        ensures { result ≡ is_late_mark self.now }
    {
        match self.base {
            Some(base) => base <= self.last,
            None => true,
        }
    }

    /// Whether the interval is late, and nobody has taken it.
    pub(crate) fn is_late_free(&self) -> bool
        ensures { result ≡ is_late_free_mark self.now }
    {
        self.is_late() && !self.taken
    }
}
