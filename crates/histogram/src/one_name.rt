//! The records of one packet name alone, put one behind the other.

ghost use Rattle.std.specs.Prelude.{◌<◌, List, [], ◌∷◌, ◌++◌};
ghost use Rattle.arch_types.specs.declared.spans.Span.{Span as ASpan};
ghost use Rattle.histogram.specs.OneName.{AreRecordsOf, ComesAfter};

use crate::histogram::NamedTime;
use crate::near::SpanStart;
use arch_types::spans::Span;
use block_map::index::Index;

/// Puts a record behind those of its packet name. Takes no memory.
pub(crate) fn put_behind(index: &mut Index<NamedTime, SpanStart>, pname: u16, span: Span)
    requires { 0 < index.old.room }
    ensures { (spans : List ASpan) → AreRecordsOf pname spans index.old.entries → ComesAfter span spans →
        AreRecordsOf pname (spans ++ span ∷ []) index.new.entries }
{
    let last = NamedTime {
        pname,
        time: span.last,
    };
    let start = SpanStart {
        first: span.first,
        count: span.count,
    };
    index.insert(last, start);
}
