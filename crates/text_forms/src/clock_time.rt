//! The range of a clock.

ghost use Rattle.std.specs.Prelude.{◌≡◌};
ghost use Rattle.text_forms.specs.ClockTime.{is_clock_time};

/// 9999-12-31T23:59:59.999 in milliseconds since 1970-01-01T00:00:00.
pub const LAST_CLOCK_TIME: i64 = 253_402_300_799_999;

/// Whether a time in milliseconds since 1970-01-01T00:00:00 lies in the years 1970 to 9999.
#[tactic(auto, unfolding(crate::specs::ClockTime::is_clock_time))]
pub fn is_clock_time(time: i64) -> bool
    ensures { result ≡ is_clock_time time }
{
    time >= 0 && time < LAST_CLOCK_TIME + 1
}
