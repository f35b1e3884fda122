//! The clock of the system.

use outer_traits::clock::Clock;
use std::rt::Clock as SystemClock;
use std::time::{SystemTime, UNIX_EPOCH};
use text_forms::LAST_CLOCK_TIME;

/// The system's clock, kept to the years 1970 to 9999. Where it can't be read it stands at the first moment.
#[derive(Drop)]
pub struct RealClock<'a, R> {
    rt: &'a R,
}

impl<'a, R> RealClock<'a, R> {
    pub fn new(rt: &'a R) -> Self {
        RealClock { rt }
    }
}

impl<'a, R: SystemClock> Clock for RealClock<'a, R> {
    ghost use Rattle.std.specs.Prelude.{None};

    ghost state = { λ _. record { next = None; stands = ⊥ } };

    fn now(&mut self) -> i64 {
        let Ok(now) = SystemTime::now(self.rt) else {
            return 0;
        };
        let Ok(since) = now.duration_since(UNIX_EPOCH) else {
            return 0;
        };
        since.as_millis().min(LAST_CLOCK_TIME as u128) as i64
    }
}
