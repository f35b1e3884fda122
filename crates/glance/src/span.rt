//! The intervals that a range of times meets.

ghost use Rattle.std.specs.Prelude.{◌≡◌, ◌<ℤ◌, ◌-ℤ◌, pos};
ghost use Rattle.intervals.specs.declared.interval.Interval.{Interval as AnInterval};
ghost use Rattle.intervals.specs.Interval.{interval_of};
ghost use Rattle.glance.specs.Asked.{is_asked, is_within};

use asks::Request;
use intervals::{Exponent, Interval};

/// The intervals from a first to a last one, none where the last stands before the first.
#[derive(Clone, Copy)]
pub(crate) struct Span {
    pub(crate) first: Interval,
    pub(crate) last: Interval,
}

/// The interval of the last time before another.
fn interval_before(_from: i64, to: i64, exponent: Exponent) -> Interval
    requires { _from <ℤ to }
    ensures { result.0 ≡ interval_of exponent (to -ℤ pos 1) }
{
    Interval::at(to - 1, exponent)
}

impl Span {
    /// Those that the range of a request meets. An empty range meets none.
    pub(crate) fn met(request: &Request, exponent: Exponent) -> Span
        ensures { (interval : AnInterval) → is_within result interval ≡ is_asked exponent request.now interval }
    {
        if request.from >= request.to {
            return Span {
                first: Interval(1),
                last: Interval(0),
            };
        }
        Span {
            first: Interval::at(request.from, exponent),
            last: interval_before(request.from, request.to, exponent),
        }
    }

    /// Whether an interval is one of these.
    pub(crate) fn has(self, interval: Interval) -> bool
        ensures { result ≡ is_within self interval }
    {
        self.first.0 <= interval.0 && interval.0 <= self.last.0
    }
}
