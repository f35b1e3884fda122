//! Asks what the octets of a set may hold of an interval and a database.

ghost use Rattle.std.specs.Prelude.{◌≡◌, ◌↔◌, length, map, IsTrue};
ghost use Rattle.std.specs.List.{AllByRecursion};
ghost use Rattle.std.specs.List.Sorted.{IsStrictlySortedBy};
ghost use Rattle.intervals.specs.Interval.{interval_of};
ghost use Rattle.arch_types.specs.Order.{key_cmp};
ghost use Rattle.container_extract.specs.Values.{IsRawValue};
ghost use Rattle.param_segments.specs.RowPlaces.{AreRangesOf, IsInside, IsRangeOf, IsSegmentOf, are_known_parameters, is_known_parameter, place_key};
ghost use Rattle.segment_codec.specs.Segment.{IsSegment};

use crate::key_place::KeyPlace;
use arch_types::key::Key;
use calibration::is_in_width;
use container_extract::values::RawValue;
use intervals::{Exponent, Interval};
use mdb_model::Mdb;
use segment_codec::{ColumnRange, SegmentOutline};

/// The parameter is one of the database.
fn is_known_parameter(mdb: &Mdb, parameter: u16) -> bool
    ensures { result ≡ is_known_parameter mdb.now parameter }
{
    parameter < mdb.parameters()
}

/// Each parameter is one of the database.
pub(crate) fn are_known_parameters(mdb: &Mdb, parameters: &[u16]) -> bool
    ensures { result ≡ are_known_parameters mdb.now parameters.now }
{
    parameters
        .iter()
        .all(|parameter| is_known_parameter(mdb, *parameter))
}

/// The value is that of a parameter of the database, its raw number of the parameter's width.
fn is_raw_value(mdb: &Mdb, value: RawValue) -> bool
    ensures { IsTrue result ↔ IsRawValue mdb.now value }
{
    let count = mdb.parameters();
    let parameter = value.parameter;
    if count <= parameter {
        return false;
    }
    mdb.is_sound();
    is_in_width(mdb.parameter(parameter), value.raw)
}

/// The least and the greatest raw number of a column are its parameter's.
fn is_range_of(mdb: &Mdb, parameter: u16, range: ColumnRange) -> bool
    ensures { IsTrue result ↔ IsRangeOf mdb.now parameter range }
{
    let ColumnRange { least, greatest } = range;
    is_raw_value(
        mdb,
        RawValue {
            parameter,
            raw: least,
        },
    ) && is_raw_value(
        mdb,
        RawValue {
            parameter,
            raw: greatest,
        },
    )
}

/// The ranges of columns are those of their parameters.
fn are_ranges_of(mdb: &Mdb, parameters: &[u16], ranges: &[ColumnRange]) -> bool
    requires { length ranges.now ≡ length parameters.now }
    ensures { IsTrue result ↔ AreRangesOf mdb.now parameters.now ranges.now }
{
    for i in 0..parameters.len() {
        if !is_range_of(mdb, parameters[i], ranges[i]) {
            return false;
        }
    }
    true
}

/// The segment has values of the database: whatever lies between two raw numbers of a parameter is one (D-272).
fn is_segment_of(mdb: &Mdb, segment: &SegmentOutline<'_>) -> bool
    requires { IsSegment segment.now }
    ensures { IsTrue result ↔ IsSegmentOf mdb.now segment.now }
{
    are_ranges_of(mdb, segment.parameters(), segment.ranges())
}

/// The segments have values of the database.
pub(crate) fn are_segments_of(mdb: &Mdb, segments: &[SegmentOutline<'_>]) -> bool
    requires { AllByRecursion IsSegment segments.now }
    ensures { IsTrue result ↔ AllByRecursion (IsSegmentOf mdb.now) segments.now }
{
    for segment in segments {
        if !is_segment_of(mdb, segment) {
            return false;
        }
    }
    true
}

/// The keys rise.
pub(crate) fn are_rising(places: &[KeyPlace]) -> bool
    ensures { IsTrue result ↔ IsStrictlySortedBy key_cmp (map place_key places.now) }
{
    for i in 1..places.len() {
        if places[i - 1].key() >= places[i].key() {
            return false;
        }
    }
    true
}

/// The time of a key lies in the interval.
fn is_time_inside(interval: Interval, exponent: Exponent, key: Key) -> bool
    ensures { IsTrue result ↔ (interval_of exponent key.time ≡ interval.0) }
{
    Interval::at(key.time, exponent) == interval
}

/// The times of a segment's rows lie in the interval: where those of its first row and its last do, as others between.
fn is_inside(interval: Interval, exponent: Exponent, segment: &SegmentOutline<'_>) -> bool
    requires { IsSegment segment.now }
    ensures { IsTrue result ↔ IsInside exponent interval.0 segment.now }
{
    is_time_inside(interval, exponent, segment.first())
        && is_time_inside(interval, exponent, segment.last())
}

/// The times lie in the interval.
pub(crate) fn are_inside(
    interval: Interval,
    exponent: Exponent,
    segments: &[SegmentOutline<'_>],
) -> bool
    requires { AllByRecursion IsSegment segments.now }
    ensures { IsTrue result ↔ AllByRecursion (IsInside exponent interval.0) segments.now }
{
    for segment in segments {
        if !is_inside(interval, exponent, segment) {
            return false;
        }
    }
    true
}
