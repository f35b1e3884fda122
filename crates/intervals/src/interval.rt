//! The intervals of the parameter archive, and their length.

ghost use Rattle.std.specs.Prelude.{◌≡◌, ◌^◌, pos};
ghost use Rattle.intervals.specs.Interval.{format_1_exponent, interval_end, interval_of, interval_start, HasClockTime};

use std::marker::Model;

/// The exponent of an archive's intervals, which are 2^exponent milliseconds long: 18 to 26.
#[derive(Clone, Copy, Debug, PartialEq, Eq)]
pub struct Exponent {
    bits: u8,
}

impl Model for Exponent {
    ghost use Rattle.std.specs.Prelude.{ℕ, ◌≤◌};

    ghost Value = { ℕ };

    ghost view = { λ e. e.bits };

    ghost invariant = { λ e. (18 ≤ e.bits) × (e.bits ≤ 26) };

    ghost inverse = { λ n. record { bits = n } };
}

impl Exponent {
    /// That of each archive of format 1.
    pub fn of_format_1() -> Exponent
        ensures { result ≡ format_1_exponent }
    {
        Exponent { bits: 22 }
    }

    /// The length of an interval, in milliseconds.
    fn length(self) -> i64
        ensures { result ≡ pos (2 ^ self) }
    {
        1_i64 << self.bits
    }
}

/// The number of an interval, counted from 1970-01-01T00:00:00.
#[derive(Clone, Copy, Debug, PartialEq, Eq, PartialOrd, Ord)]
pub struct Interval(pub i64);

impl Interval {
    /// The interval of a time in milliseconds.
    pub fn at(time: i64, exponent: Exponent) -> Interval
        ensures { result.0 ≡ interval_of exponent time }
    {
        Interval(time.div_euclid(exponent.length()))
    }

    /// Its first time, in milliseconds.
    pub fn start_at(self, exponent: Exponent) -> i64
        requires { HasClockTime exponent self }
        ensures { result ≡ interval_start exponent self }
    {
        self.0 * exponent.length()
    }

    /// The first time after it, in milliseconds.
    pub fn end_at(self, exponent: Exponent) -> i64
        requires { HasClockTime exponent self }
        ensures { result ≡ interval_end exponent self }
    {
        (self.0 + 1) * exponent.length()
    }
}
