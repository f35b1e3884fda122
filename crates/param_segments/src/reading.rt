//! Reads a set back: the segments that octets spell have to be those of the set of their rows. They are asked where
//! they stand, and nothing is built.

ghost use Rattle.std.specs.Prelude.{◌≡◌, ◌<◌, ◌^◌, List, length, true, IfErr, IfOk, MatchResult};
ghost use Rattle.std.specs.List.{AllByRecursion};
ghost use Rattle.std.specs.Int.{w32};
ghost use Rattle.octet_fields.specs.Answers.{ReadsEach, ReadsOnly};
ghost use Rattle.octet_fields.specs.Spelling.{counted};
ghost use Rattle.param_segments.specs.Extracted.{IsSetOf};
ghost use Rattle.param_segments.specs.Groups.{set_of};
ghost use Rattle.param_segments.specs.Octets.{rows_in_octets, set_octets, starts_from};
ghost use Rattle.param_segments.specs.Rows.{SetRow};
ghost use Rattle.param_segments.specs.Segments.{rows_of_segments};
ghost use Rattle.param_segments.specs.SetSegments.{AreSetSegments};
ghost use Rattle.segment_codec.specs.Segment.{IsSegment, segment_octets};
ghost use Rattle.octet_fields.specs.declared.fault.DecodeError.TheVariants.{OutOfMemory};

use crate::asking::{are_inside, are_segments_of};
use crate::decoding::{ReadSegments, counted_segments};
use crate::runs::are_set_segments;
use crate::set::SegSet;
use arch_types::octets::Octets;
use intervals::{Exponent, Interval};
use mdb_model::Mdb;
use segment_codec::NotASegment;
use std::alloc::Global;

/// The set over octets of the rows of the segments that were read: where segments are those of a set, and octets end
/// with them (D-164).
fn set_over(alloc: Global, octets: &Octets, read: ReadSegments<'_>) -> Result<SegSet, NotASegment>
    requires sound { AllByRecursion IsSegment read.segments.items }
    requires few { length read.segments.items < 2 ^ 32 }
    requires spelled { read.end ≡ length octets.now → octets.now ≡ counted w32 segment_octets read.segments.items }
    requires starts { read.starts.items ≡ starts_from 4 read.segments.items }
    ensures set { IfOk result (λ set. set ≡ rows_of_segments read.entry.segments.items) }
    ensures segments { IfOk result (λ _. AreSetSegments read.entry.segments.items) }
    ensures spelled { IfOk result (λ set. octets.now ≡ set_octets set) }
    ensures each { read.entry.end ≡ length octets.now → AreSetSegments read.entry.segments.items →
        IfErr result (λ e. e ≡ OutOfMemory) }
{
    let ReadSegments {
        segments,
        starts,
        end,
    } = read;
    if end != octets.len() {
        return Err(NotASegment::Malformed);
    }
    if !are_set_segments(alloc, &segments, end)? {
        return Err(NotASegment::Malformed);
    }
    let own = octets.copy()?;
    Ok(SegSet::of_spelling(own, starts))
}

/// The set of the rows of segments, where they're rows of a set of the interval and the database.
fn set_of_read(
    alloc: Global,
    interval: Interval,
    exponent: Exponent,
    octets: &Octets,
    read: ReadSegments<'_>,
    mdb: &Mdb,
) -> Result<SegSet, NotASegment>
    requires sound { AllByRecursion IsSegment read.segments.items }
    requires few { length read.segments.items < 2 ^ 32 }
    requires spelled { read.end ≡ length octets.now → octets.now ≡ counted w32 segment_octets read.segments.items }
    requires starts { read.starts.items ≡ starts_from 4 read.segments.items }
    ensures sound { IfOk result (IsSetOf mdb.now exponent interval.0) }
    ensures spelled { IfOk result (λ set. octets.now ≡ set_octets set) }
    ensures each { (rows : List SetRow) → IsSetOf mdb.now exponent interval.0 rows →
        read.entry.segments.items ≡ set_of rows → read.entry.end ≡ length octets.now →
        MatchResult result (λ set. set ≡ rows) (λ e. e ≡ OutOfMemory) }
{
    // by columns, along which the parameter and its width stay the same
    if !are_segments_of(mdb, &read.segments) {
        return Err(NotASegment::Malformed);
    }
    if !are_inside(interval, exponent, &read.segments) {
        return Err(NotASegment::Malformed);
    }
    set_over(alloc, octets, read)
}

/// A set may have these octets: the places where its segments begin are u32.
fn fits_u32(octets: &[u8]) -> bool
    ensures { result ≡ true → length octets.now < 2 ^ 32 }
{
    octets.len() <= u32::MAX as usize
}

/// The set that octets spell.
fn spelled_set(
    alloc: Global,
    interval: Interval,
    exponent: Exponent,
    octets: &Octets,
    mdb: &Mdb,
) -> Result<SegSet, NotASegment>
    ensures spelled { ReadsOnly (IsSetOf mdb.now exponent interval.0) set_octets (λ s. s) octets.now result }
    ensures each { ReadsEach (IsSetOf mdb.now exponent interval.0) set_octets (λ s. s) (λ e. e ≡ OutOfMemory)
        octets.now result }
{
    if !fits_u32(octets.as_slice()) {
        return Err(NotASegment::OutOfMemory);
    }
    let read = counted_segments(alloc, octets.as_slice(), mdb)?;
    let set = set_of_read(alloc, interval, exponent, octets, read, mdb)?;
    Ok(set)
}

impl SegSet {
    /// The set of an interval and a database that all of the octets spell.
    ///
    /// Any octets may be given: those of rows in the interval whose values are the database's are accepted, and no
    /// others. Room is made for 16 octets a row, and for two values a column; no value is kept. A set
    /// of 2^32 octets or more is OutOfMemory.
    pub fn from_bytes(
        alloc: Global,
        interval: Interval,
        exponent: Exponent,
        octets: &[u8],
        mdb: &Mdb,
    ) -> Result<SegSet, NotASegment>
        ensures spelled { ReadsOnly (IsSetOf mdb.now exponent interval.0) set_octets (λ s. s) octets.now result }
        ensures each { ReadsEach (IsSetOf mdb.now exponent interval.0) set_octets (λ s. s) (λ e. e ≡ OutOfMemory)
            octets.now result }
    {
        let block = Octets::from_slice(alloc, octets)?;
        spelled_set(alloc, interval, exponent, &block, mdb)
    }

    /// As `from_bytes`, of octets that the set then shares.
    pub fn from_octets(
        alloc: Global,
        interval: Interval,
        exponent: Exponent,
        octets: Octets,
        mdb: &Mdb,
    ) -> Result<SegSet, NotASegment>
        ensures spelled { ReadsOnly (IsSetOf mdb.now exponent interval.0) set_octets (λ s. s) octets result }
        ensures each { ReadsEach (IsSetOf mdb.now exponent interval.0) set_octets (λ s. s) (λ e. e ≡ OutOfMemory)
            octets result }
        ensures value { IfOk result (λ set. set ≡ rows_in_octets octets) }
    {
        let own = spelled_set(alloc, interval, exponent, &octets, mdb)?;
        Ok(own.over(octets))
    }
}
