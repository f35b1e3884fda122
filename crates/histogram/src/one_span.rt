//! Times that make one record, as they come one after the other.

ghost use Rattle.std.specs.Prelude.{◌≡◌, ℤ, ◌+◌, ◌^◌, ◌<◌, ◌⊎◌, List, [], ◌∷◌, ◌++◌, true, IfSome, IfNone};
ghost use Rattle.histogram.specs.Near.{is_apart, span_of_time};
ghost use Rattle.histogram.specs.Times.{AreOneSpan};

use crate::near::{is_apart, joined};
use arch_types::spans::Span;

/// The record of one time, in milliseconds.
pub fn span_of_time(time: i64) -> Span
    ensures span { result ≡ span_of_time time }
    ensures one { AreOneSpan result (time ∷ []) }
{
    Span {
        first: time,
        last: time,
        count: 1,
    }
}

/// The record of times that make one and of one more, where that is near them. None where it is more than a minute apart.
pub fn grown(span: Span, time: i64) -> Option<Span>
    requires { span.count + 1 < 2 ^ 64 }
    ensures near { IfSome result (λ more. (times : List ℤ) → AreOneSpan span times → AreOneSpan more (times ++ time ∷ [])) }
    ensures far { IfNone result ((is_apart span.last time ≡ true) ⊎ (is_apart time span.first ≡ true)) }
{
    if is_apart(span.last, time) || is_apart(time, span.first) {
        return None;
    }
    Some(joined(span_of_time(time), span))
}
