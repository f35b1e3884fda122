//! Whether segments stand as those of a set: the rows of each group in full segments but for the last, and groups in the
//! order of their first rows. Then the set of their rows is spelled as they are, and nothing has to be built again.

ghost use Rattle.std.specs.Prelude.{◌≡◌, ◌+◌, ◌<◌, ◌^◌, ◌↔◌, ◌++◌, ◌∷◌, [], List, length, map, nat_eq, if◌then◌else◌, ◌==◌, None, Some, false, true, IfOk, IfSome, IsTrue, OnOk};
ghost use Rattle.std.specs.List.{AllByRecursion, position};
ghost use Rattle.std.specs.List.Sorted.{IsPermutation, IsSortedBy};
ghost use Rattle.std.specs.Ordering.{is_lt};
ghost use lib.Pointwise.{pointwise};
ghost use Rattle.arch_types.specs.Order.{key_cmp};
ghost use Rattle.segment_codec.specs.Segment.{IsSegment, most_rows};
ghost use Rattle.segment_codec.specs.declared.segment.Segment.{Segment as ASegment};
ghost use Rattle.param_segments.specs.RowPlaces.{is_key_earlier};
ghost use Rattle.param_segments.specs.Runs.{AreRunsSoFar, IsLast, count_in_order, key_group};
ghost use Rattle.param_segments.specs.SetSegments.{AreSetSegments};

use crate::asking::are_rising;
use crate::decoding::keys_of;
use crate::group_numbers::GroupNumbers;
use crate::key_place::KeyPlace;
use arch_types::key::Key;
use segment_codec::{MOST_ROWS, SegmentOutline};
use std::alloc::{AllocError, Global};

/// The groups of segments, and where the last of these ends.
#[derive(Drop)]
pub struct Runs {
    /// The lists of parameters of the groups, in the groups' order.
    pub groups: GroupNumbers,
    /// How many groups there are.
    pub count: usize,
    /// For each segment the number of its group.
    pub numbers: Vec<usize>,
    /// How many rows the last segment has.
    pub rows: usize,
    /// The key of its last row.
    pub last: Key,
}

/// The key of a segment's last row.
fn last_key(segment: &SegmentOutline<'_>) -> Key
    requires { IsSegment segment.now }
    ensures { IsLast segment.now.keys result }
{
    segment.last()
}

/// The key of a segment's first row.
fn first_key(segment: &SegmentOutline<'_>) -> Key
    requires { IsSegment segment.now }
    ensures { (rest : List Key) × (segment.now.keys ≡ result ∷ rest) }
{
    segment.first()
}

/// A segment of the group with a number goes on with the last one: it's of the last group, behind a full segment, and
/// its first key is behind the last.
fn goes_on(runs: &Runs, number: usize, first: Key) -> bool
    ensures group { result ≡ true → number + 1 ≡ runs.now.count }
    ensures full { result ≡ true → runs.now.rows ≡ most_rows }
    ensures rising { result ≡ true → is_lt (key_cmp runs.now.last first) ≡ true }
    ensures each { number + 1 ≡ runs.now.count → runs.now.rows ≡ most_rows →
        is_lt (key_cmp runs.now.last first) ≡ true → result ≡ true }
{
    if number >= runs.count || runs.count - number != 1 {
        return false;
    }
    if runs.rows != usize::from(MOST_ROWS) {
        return false;
    }
    runs.last < first
}

impl Runs {
    /// No segment.
    fn none(alloc: Global) -> Runs
        ensures { AreRunsSoFar [] result }
    {
        Runs {
            groups: GroupNumbers::new(alloc),
            count: 0,
            numbers: Vec::new(alloc),
            rows: 0,
            last: Key { time: 0, seq: 0 },
        }
    }

    /// Takes a segment of the group with a number.
    fn take(&mut self, number: usize, segment: &SegmentOutline<'_>) -> Result<(), AllocError>
        requires { IsSegment segment.now }
        ensures groups { self.new.groups ≡ self.old.groups }
        ensures count { self.new.count ≡ self.old.count }
        ensures numbers { OnOk result (self.new.numbers.items ≡ self.old.numbers.items ++ number ∷ []) }
        ensures rows { OnOk result (self.new.rows ≡ length segment.now.keys) }
        ensures last { OnOk result (IsLast segment.now.keys self.new.last) }
    {
        self.numbers.push(number)?;
        self.rows = usize::from(segment.rows());
        self.last = last_key(segment);
        Ok(())
    }

    /// Takes the first segment of a group.
    fn take_first(&mut self, alloc: Global, segment: &SegmentOutline<'_>) -> Result<(), AllocError>
        requires segment { IsSegment segment.now }
        requires new { position (pointwise nat_eq segment.now.parameters) self.old.groups ≡ None }
        ensures { OnOk result ((before : List ASegment) → AreRunsSoFar before self.old →
            AreRunsSoFar (before ++ segment.now ∷ []) self.new) }
    {
        let number = self.count;
        let Some(count) = number.checked_add(1) else {
            return Err(AllocError);
        };
        let parameters = Vec::from_slice(alloc, segment.parameters())?;
        self.groups.add(parameters)?;
        self.count = count;
        self.take(number, segment)
    }

    /// Takes a segment behind the others, where it may stand there, and tells whether it may.
    fn take_next(&mut self, alloc: Global, segment: &SegmentOutline<'_>) -> Result<bool, AllocError>
        requires { IsSegment segment.now }
        ensures taken { IfOk result (λ taken. taken ≡ true → (before : List ASegment) → AreRunsSoFar before self.old →
            AreRunsSoFar (before ++ segment.now ∷ []) self.new) }
        ensures refused { IfOk result (λ taken. taken ≡ false → (before after : List ASegment) →
            AreRunsSoFar before self.old → AreSetSegments (before ++ segment.now ∷ after) → ⊥) }
    {
        match self.groups.number(segment.parameters()) {
            None => {
                self.take_first(alloc, segment)?;
                Ok(true)
            }
            Some(number) => {
                if !goes_on(self, number, first_key(segment)) {
                    return Ok(false);
                }
                self.take(number, segment)?;
                Ok(true)
            }
        }
    }
}

/// The groups of segments, where these stand group by group.
fn runs_of(alloc: Global, segments: &[SegmentOutline<'_>]) -> Result<Option<Runs>, AllocError>
    requires { AllByRecursion IsSegment segments.now }
    ensures found { IfOk result (λ found. IfSome found (λ runs. AreRunsSoFar segments.now runs)) }
    ensures none { IfOk result (λ found. found ≡ None → AreSetSegments segments.now → ⊥) }
{
    let mut runs = Runs::none(alloc);
    for segment in segments {
        if !runs.take_next(alloc, segment)? {
            return Ok(None);
        }
    }
    Ok(Some(runs))
}

/// How many groups came, with one that is no new one or the next.
fn seen_with(seen: usize, number: usize) -> usize
    requires { number < 18446744073709551615 }
    ensures { result ≡ (if number == seen then seen + 1 else seen) }
{
    if number == seen { seen + 1 } else { seen }
}

/// Whether so many groups come in the order of their numbers, where keys stand in segments.
fn come_in_order(numbers: &[usize], count: usize, places: &[KeyPlace]) -> bool
    requires placed { AllByRecursion (λ p. p.segment < length numbers.now) places.now }
    requires within { AllByRecursion (λ number. number < count) numbers.now }
    ensures { result ≡ true ↔ (count_in_order 0 (map (key_group numbers.now) places.now) ≡ Some count) }
{
    let mut seen = 0;
    for place in places {
        let number = numbers[place.segment as usize];
        if number > seen {
            return false;
        }
        seen = seen_with(seen, number);
    }
    seen == count
}

/// Puts keys in order. std's stable sort merges runs, as the keys of each segment are, in half the time, and takes a
/// buffer as long as the list: where each row was spelled in four octets or more that is little beside these.
fn put_in_order(places: &mut Vec<KeyPlace>, octets: usize) -> Result<(), AllocError>
    ensures permutation { IsPermutation places.old.items places.new.items }
    ensures sorted { OnOk result (IsSortedBy is_key_earlier places.new.items) }
{
    if places.len() <= octets / 4 {
        return places.sort();
    }
    places.sort_unstable();
    Ok(())
}

/// Whether segments, spelled in so many octets, are those of the set of their rows.
pub(crate) fn are_set_segments(
    alloc: Global,
    segments: &[SegmentOutline<'_>],
    octets: usize,
) -> Result<bool, AllocError>
    requires sound { AllByRecursion IsSegment segments.now }
    requires few { length segments.now < 2 ^ 32 }
    ensures { IfOk result (λ are. IsTrue are ↔ AreSetSegments segments.now) }
{
    let Some(runs) = runs_of(alloc, segments)? else {
        return Ok(false);
    };
    if runs.count == 1 {
        // the keys of one group rise from its first segment to its last
        return Ok(true);
    }
    let mut places = keys_of(alloc, segments)?;
    put_in_order(&mut places, octets)?;
    if !are_rising(&places) {
        return Ok(false);
    }
    Ok(come_in_order(&runs.numbers, runs.count, &places))
}
