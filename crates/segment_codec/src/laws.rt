//! What holds of segments and their spellings, carried by functions that do nothing.

ghost use Rattle.std.specs.Prelude.{◌≡◌};
ghost use Rattle.segment_codec.specs.Laws.{SegmentsAreApart, WidthsAreEnough, WidthsAreLeast};
ghost use Rattle.segment_codec.specs.Segment.{most_rows};

use crate::segment::MOST_ROWS;

/// Octets begin with the spelling of one segment at most.
pub fn segments_are_apart()
    ensures { SegmentsAreApart }
{}

/// The width of a number is the least that the number fits in.
pub fn widths_are_least()
    ensures enough { WidthsAreEnough }
    ensures least { WidthsAreLeast }
{}

/// `MOST_ROWS` is the number of rows that `IsSegment` admits.
pub fn limit_of_rows() -> u16
    ensures { result ≡ most_rows }
{
    MOST_ROWS
}
