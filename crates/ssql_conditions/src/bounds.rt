//! The times and packet names outside which no row with a time of the clock meets a condition, piece by piece.

ghost use Rattle.std.specs.Prelude.{◌≡◌, ◌+◌, ◌<◌, ◌^◌, ◌≤◌, ◌+ℤ◌, pos, fold, filter, flat_map, option_to_list, IfOk};
ghost use Rattle.std.specs.Int.{int_min, int_max};
ghost use Rattle.ssql_conditions.specs.ConditionBounds as spec;
ghost use Rattle.ssql_conditions.specs.Formulas.{groups_behind, pieces_meaning};

use crate::condition::{Condition, TypedPiece};
use crate::predicate::{NameTest, NumberColumn, NumberTest, TypedPredicate};
use partitions::bounds::Bounds;
use partitions::lists::PnameList;
use ssql_tokens::ComparisonOperator;
use std::alloc::{AllocError, Global};
use text_forms::LAST_CLOCK_TIME;

/// The end of the clock's range, in milliseconds since 1970.
const CLOCK_END: i64 = LAST_CLOCK_TIME + 1;

/// The bounds from one time to another, both in the clock's range.
fn range_bounds(from: i64, to: i64, names: Option<PnameList>) -> Bounds
    ensures { result ≡ spec.range_bounds from to names }
{
    if from < to {
        Bounds { from, to, names }
    } else {
        Bounds {
            from: 0,
            to: 0,
            names,
        }
    }
}

/// All times of the clock, and all names.
pub fn all_bounds() -> Bounds
    ensures { result ≡ spec.all_bounds }
{
    Bounds {
        from: 0,
        to: CLOCK_END,
        names: None,
    }
}

/// No time.
fn no_bounds() -> Bounds
    ensures { result ≡ spec.no_bounds }
{
    Bounds {
        from: 0,
        to: 0,
        names: None,
    }
}

/// What of a range lies in the clock's.
fn clock_bounds(from: i64, to: i64) -> Bounds
    ensures { result ≡ spec.clock_bounds from to }
{
    range_bounds(from.max(0), to.min(CLOCK_END), None)
}

/// The millisecond behind a time. Those behind the clock's range are alike.
fn next_time(time: i64) -> i64
    ensures { result ≡ int_min (time +ℤ pos 1) spec.clock_end }
{
    time.min(LAST_CLOCK_TIME) + 1
}

/// The bounds of a comparison of a generation time.
fn comparison_bounds(operator: ComparisonOperator, time: i64) -> Bounds
    ensures { result ≡ spec.comparison_bounds operator time }
{
    match operator {
        ComparisonOperator::Equal => clock_bounds(time, next_time(time)),
        ComparisonOperator::Less => clock_bounds(0, time),
        ComparisonOperator::LessOrEqual => clock_bounds(0, next_time(time)),
        ComparisonOperator::Greater => clock_bounds(next_time(time), CLOCK_END),
        ComparisonOperator::GreaterOrEqual => clock_bounds(time, CLOCK_END),
        ComparisonOperator::LessOrGreater | ComparisonOperator::NotEqual => all_bounds(),
    }
}

/// The earliest of some times.
fn earliest_time(first: i64, more: &[i64]) -> i64
    ensures { result ≡ fold int_min first more.now }
{
    let mut earliest = first;
    for time in more {
        earliest = earliest.min(*time);
    }
    earliest
}

/// The latest of some times.
fn latest_time(first: i64, more: &[i64]) -> i64
    ensures { result ≡ fold int_max first more.now }
{
    let mut latest = first;
    for time in more {
        latest = latest.max(*time);
    }
    latest
}

/// From the earliest of some times to the latest.
fn around_times(first: i64, more: &[i64]) -> Bounds
    ensures { result ≡ spec.clock_bounds (fold int_min first more.now) (fold int_max first more.now +ℤ pos 1) }
{
    clock_bounds(
        earliest_time(first, more),
        next_time(latest_time(first, more)),
    )
}

/// The bounds of a generation time that is one of some.
fn listed_bounds(times: &[i64]) -> Bounds
    ensures { result ≡ spec.gentime_bounds (NumberTest.In times.now) }
{
    match times {
        [] => no_bounds(),
        [first, more @ ..] => around_times(*first, more),
    }
}

/// The bounds of a generation time.
fn gentime_bounds(test: &NumberTest) -> Bounds
    ensures { result ≡ spec.gentime_bounds test.now }
{
    match test {
        NumberTest::Compare(operator, time) => comparison_bounds(*operator, *time),
        NumberTest::In(times) => listed_bounds(times.as_slice()),
    }
}

/// All times, and some packet names.
fn name_bounds(names: PnameList) -> Bounds
    ensures { result ≡ spec.name_bounds names }
{
    Bounds {
        from: 0,
        to: CLOCK_END,
        names: Some(names),
    }
}

/// The packet names that there are among some.
fn known_names(alloc: Global, numbers: &[Option<u16>]) -> Result<PnameList, AllocError>
    ensures { IfOk result (λ names. names ≡ flat_map option_to_list numbers.now) }
{
    let mut names = PnameList::new(alloc);
    for number in numbers {
        if let Some(pname) = number {
            names.push(*pname)?;
        }
    }
    Ok(names)
}

/// The bounds of a packet name.
fn pname_bounds(alloc: Global, test: &NameTest) -> Result<Bounds, AllocError>
    ensures { IfOk result (λ bounds. bounds ≡ spec.pname_bounds test.now) }
{
    match test {
        NameTest::Is(number) => {
            let names = known_names(alloc, &[*number])?;
            Ok(name_bounds(names))
        }
        NameTest::IsNot(_) => Ok(all_bounds()),
        NameTest::In(numbers) => {
            let names = known_names(alloc, numbers.as_slice())?;
            Ok(name_bounds(names))
        }
    }
}

/// The bounds of a predicate.
fn predicate_bounds(alloc: Global, predicate: &TypedPredicate) -> Result<Bounds, AllocError>
    ensures { IfOk result (λ bounds. bounds ≡ spec.predicate_bounds predicate.now) }
{
    match predicate {
        TypedPredicate::Number(NumberColumn::Gentime, test) => Ok(gentime_bounds(test)),
        TypedPredicate::Number(_, _) => Ok(all_bounds()),
        TypedPredicate::Pname(test) => pname_bounds(alloc, test),
    }
}

fn has_pname(names: &[u16], pname: u16) -> bool
    ensures { result ≡ spec.has_pname names.now pname }
{
    names.iter().any(|name| pname == *name)
}

/// Those of some names that others have.
fn common_names(names: PnameList, others: &[u16]) -> PnameList
    ensures { result ≡ filter (spec.has_pname others.now) names }
{
    let mut names = names.into_vec();
    names.retain(|pname| has_pname(others, *pname));
    PnameList::from_vec(names)
}

/// The names in both.
fn names_in_both(a: Option<PnameList>, b: Option<PnameList>) -> Option<PnameList>
    ensures { result ≡ spec.names_in_both a b }
{
    match (a, b) {
        (None, names) => names,
        (Some(names), None) => Some(names),
        (Some(names), Some(others)) => Some(common_names(names, others.as_slice())),
    }
}

/// The names in either.
fn names_in_either(
    a: Option<PnameList>,
    b: Option<PnameList>,
) -> Result<Option<PnameList>, AllocError>
    ensures { IfOk result (λ names. names ≡ spec.names_in_either a b) }
{
    match (a, b) {
        (Some(names), Some(others)) => {
            let mut names = names.into_vec();
            names.extend_from_slice(others.as_slice())?;
            Ok(Some(PnameList::from_vec(names)))
        }
        _ => Ok(None),
    }
}

/// What lies in both.
fn both_bounds(a: Bounds, b: Bounds) -> Bounds
    ensures { result ≡ spec.both_bounds a b }
{
    range_bounds(
        a.from.max(b.from),
        a.to.min(b.to),
        names_in_both(a.names, b.names),
    )
}

fn is_empty_range(bounds: &Bounds) -> bool
    ensures { result ≡ spec.is_empty_range bounds.now }
{
    bounds.from >= bounds.to
}

/// What covers both.
fn either_bounds(a: Bounds, b: Bounds) -> Result<Bounds, AllocError>
    ensures { IfOk result (λ bounds. bounds ≡ spec.either_bounds a b) }
{
    if is_empty_range(&a) {
        return Ok(b);
    }
    if is_empty_range(&b) {
        return Ok(a);
    }
    Ok(Bounds {
        from: a.from.min(b.from),
        to: a.to.max(b.to),
        names: names_in_either(a.names, b.names)?,
    })
}

/// What is known inside one parenthesis: the bounds of the conjunctions before the last OR, those of the terms since,
/// and how many NOT stand before the next term.
#[derive(Drop)]
struct BoundsGroup {
    any: Bounds,
    all: Bounds,
    nots: usize,
}

/// What so many NOT make of bounds: what stands behind NOT is bounded by nothing.
fn negated(nots: usize, bounds: Bounds) -> Bounds
    ensures { result ≡ spec.negated_bounds nots bounds }
{
    if nots == 0 { bounds } else { all_bounds() }
}

impl BoundsGroup {
    /// Nothing is known yet.
    fn new() -> Self
        ensures { result ≡ record { any = spec.no_bounds; all = spec.all_bounds; nots = 0 } }
    {
        BoundsGroup {
            any: no_bounds(),
            all: all_bounds(),
            nots: 0,
        }
    }

    /// Behind one more term.
    fn with_term(self, bounds: Bounds) -> Self
        ensures { result ≡ record { any = self.any; all = spec.both_bounds self.all (spec.negated_bounds self.nots bounds); nots = 0 } }
    {
        BoundsGroup {
            any: self.any,
            all: both_bounds(self.all, negated(self.nots, bounds)),
            nots: 0,
        }
    }

    /// The bounds of the parenthesis, if it ends here.
    fn bounds(self) -> Result<Bounds, AllocError>
        ensures { IfOk result (λ bounds. bounds ≡ spec.either_bounds self.any self.all) }
    {
        either_bounds(self.any, self.all)
    }
}

/// What is known behind a piece, inside the innermost parenthesis and in those around it.
fn behind(
    alloc: Global,
    piece: &TypedPiece,
    group: BoundsGroup,
    outer: &mut Vec<BoundsGroup>,
) -> Result<BoundsGroup, AllocError>
    requires { group.nots + 1 < 2 ^ 64 }
    ensures groups { IfOk result (λ inner. spec.bounds_groups inner outer.new.items ≡
        groups_behind spec.bounding piece.now (spec.bounds_groups group outer.old.items)) }
    ensures nots { IfOk result (λ inner. inner.nots ≤ group.nots + 1) }
{
    match piece {
        TypedPiece::Not => Ok(BoundsGroup {
            any: group.any,
            all: group.all,
            nots: group.nots + 1,
        }),
        TypedPiece::Open => {
            outer.push(group)?;
            Ok(BoundsGroup::new())
        }
        TypedPiece::Close => match outer.pop() {
            None => Ok(group),
            Some(around) => Ok(around.with_term(group.bounds()?)),
        },
        TypedPiece::And => Ok(group),
        TypedPiece::Or => Ok(BoundsGroup {
            any: group.bounds()?,
            all: all_bounds(),
            nots: 0,
        }),
        TypedPiece::Predicate(predicate) => {
            Ok(group.with_term(predicate_bounds(alloc, predicate)?))
        }
    }
}

fn pieces_bounds(alloc: Global, pieces: &[TypedPiece]) -> Result<Bounds, AllocError>
    ensures { IfOk result (λ bounds. bounds ≡ pieces_meaning spec.bounding pieces.now) }
{
    let mut outer = Vec::new(alloc);
    let mut group = BoundsGroup::new();
    for piece in pieces {
        group = behind(alloc, piece, group, &mut outer)?;
    }
    group.bounds()
}

/// The bounds of a condition: each row that meets it, and has its generation time in the clock's range, lies in them.
pub fn bounds(alloc: Global, condition: &Condition) -> Result<Bounds, AllocError>
    ensures { IfOk result (λ bounds. bounds ≡ spec.bounds_of condition.now) }
{
    pieces_bounds(alloc, condition.pieces())
}
