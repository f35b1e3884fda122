//! Lines through points.

ghost use Rattle.std.specs.Prelude.{◌≡◌, ◌≤◌, length, slice_get, take, None, pos, option_copied};
ghost use Rattle.mdb_items.specs.Lists.{last_of};
ghost use Rattle.std.specs.List.{AllByRecursion};
ghost use Rattle.mdb_items.specs.Structure.{IsPoint, ArePointsRising};
ghost use Rattle.calibration.specs.Calibrated.{between_points, on_line, on_points};
ghost use Rattle.calibration.specs.Carried.{AreNeighbours, IsBetween};

use mdb_model::PointsRow;

/// The value on the line through two neighbouring points, in millionths, rounded down.
fn on_line(p: PointsRow, q: PointsRow, raw: i128) -> i64
    requires { IsBetween p q raw }
    ensures { result ≡ on_line p q raw }
{
    let rise = q.millionths as i128 - p.millionths as i128;
    let quotient = (rise * (raw - p.x)).div_euclid(q.x - p.x);
    (p.millionths as i128 + quotient) as i64
}

/// The value between the last point reached and the next one, in millionths; outside the points the nearer end's.
fn between(before: Option<&PointsRow>, after: Option<&PointsRow>, raw: i128) -> i64
    requires { AreNeighbours (option_copied before) (option_copied after) raw }
    ensures { result ≡ between_points (option_copied before.entry) (option_copied after.entry) raw }
{
    let Some(last) = before else {
        return first_value(after);
    };
    match after {
        None => last.millionths,
        Some(next) => on_line(*last, *next, raw),
    }
}

/// The value below the first point.
fn first_value(first: Option<&PointsRow>) -> i64
    ensures { result ≡ between_points None (option_copied first.entry) (pos 0) }
{
    match first {
        None => 0,
        Some(first) => first.millionths,
    }
}

/// The last of the first points of a list.
fn last_of(points: &[PointsRow], count: usize) -> Option<&PointsRow>
    requires { count ≤ length points.now }
    ensures { option_copied result ≡ last_of (take count points.now) }
{
    points[..count].last()
}

/// The point at a place.
fn point_at(points: &[PointsRow], place: usize) -> Option<&PointsRow>
    ensures { option_copied result ≡ slice_get points.now place }
{
    points.get(place)
}

/// The value at a raw number of the line through rising points, in millionths.
pub(crate) fn on_points(points: &[PointsRow], raw: i128) -> i64
    requires points { AllByRecursion IsPoint points.now }
    requires rising { ArePointsRising points.now }
    ensures { result ≡ on_points points.now raw }
{
    let reached = points.partition_point(|point| point.x <= raw);
    let before = last_of(points, reached);
    let after = point_at(points, reached);
    between(before, after, raw)
}
