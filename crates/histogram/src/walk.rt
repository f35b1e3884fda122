//! One walk over the records of a packet name.

ghost use Rattle.std.specs.Prelude.{◌≡◌, [], IfSome, IfNone};
ghost use Rattle.histogram.specs.SpanEntries.{spans_in};
ghost use Rattle.histogram.specs.Walk.{AreAhead, IsNext};

use crate::histogram::NamedTime;
use crate::near::SpanStart;
use arch_types::spans::Span;
use block_map::entries::Entries;

/// The next record of a packet name. Past the last one there is none.
pub(crate) fn next_of(entries: &mut Entries<'_, NamedTime, SpanStart>, pname: u16) -> Option<Span>
    requires { AreAhead pname entries.old }
    ensures ahead { AreAhead pname entries.new }
    ensures next { IfSome result (λ span. IsNext pname entries.old entries.new span) }
    ensures none { IfNone result (spans_in pname entries.old ≡ []) }
{
    let (last, start) = entries.next()?;
    if last.pname == pname {
        Some(start.span(last.time))
    } else {
        None
    }
}
