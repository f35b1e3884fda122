//! A clock.

ghost use Rattle.std.specs.Prelude.{◌≡◌, IfSome};
ghost use Rattle.outer_traits.specs.Outside.{StaysKnown};
ghost use Rattle.outer_traits.specs.States.{ClockState};
ghost use Rattle.text_forms.specs.ClockTime.{IsClockTime};

use std::marker::Model;

/// The time of day, in milliseconds since 1970-01-01T00:00:00.
pub trait Clock {
    /// What is known of it: the moment that the next call answers, where it tells it, and whether it stands still.
    ghost state: { Self → ClockState };

    /// The moment, which lies before the year 10000.
    fn now(&mut self) -> i64
        ensures known { IfSome (state self.old).next (λ moment. result ≡ moment) }
        ensures range { IsClockTime result }
        ensures same { StaysKnown (state self.old).next (state self.new).next }
        ensures reliable { (state self.old).stands → (state self.new).stands ×
            ((state self.new).next ≡ (state self.old).next) };
}

/// A clock that stands still.
#[derive(Drop)]
pub struct FixedClock {
    moment: i64,
}

impl Model for FixedClock {
    ghost use Rattle.std.specs.Prelude.{ℤ};
    ghost use Rattle.text_forms.specs.ClockTime.{IsClockTime};

    ghost Value = { ℤ };

    ghost view = { λ c. c.moment };

    ghost invariant = { λ c. IsClockTime c.moment };
}

impl FixedClock {
    /// A clock that stands at this moment.
    pub fn new(moment: i64) -> Self
        requires { IsClockTime moment }
        ensures { result ≡ moment }
    {
        FixedClock { moment }
    }
}

impl Clock for FixedClock {
    ghost use Rattle.std.specs.Prelude.{Some, ⊤};

    ghost state = { λ clock. record { next = Some clock; stands = ⊤ } };

    fn now(&mut self) -> i64 {
        self.moment
    }
}
