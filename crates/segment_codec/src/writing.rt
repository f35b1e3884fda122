//! Writes a segment.

ghost use Rattle.std.specs.Prelude.{◌≡◌, ◌≤◌, ◌++◌, length, IfOk, OnErr, OnOk};
ghost use Rattle.std.specs.List.{AllByRecursion, flat_map};
ghost use Rattle.segment_codec.specs.RawColumn.{raw_column};
ghost use Rattle.segment_codec.specs.Segment.{IsSegment, segment_octets};

use crate::key_column::put_keys;
use crate::parameters::put_parameters;
use crate::raw_column::put_raw_column;
use crate::segment::{RawColumn, Segment};
use arch_types::octets::Octets;
use octet_fields::put_u16;
use std::alloc::{AllocError, Global};

/// Writes the raw columns.
fn put_columns(alloc: Global, out: &mut Vec<u8>, columns: &[RawColumn]) -> Result<(), AllocError>
    requires { AllByRecursion (λ column. 1 ≤ length column) columns.now }
    ensures { OnOk result (out.new.items ≡ out.old.items ++ flat_map raw_column columns.now) }
{
    for column in columns {
        put_raw_column(alloc, out, column.as_slice())?;
    }
    Ok(())
}

/// Room for the spelling of most segments: a key of eight octets, values of two. Where more is wanted, more is taken.
fn usual_room(segment: &Segment) -> usize {
    let keys = segment.keys.len();
    let columns = segment.columns.len();
    let row = columns.saturating_mul(2).saturating_add(8);
    let fronts = columns.saturating_mul(32);
    keys.saturating_mul(row).saturating_add(fronts)
}

/// The one spelling of a segment, in a buffer of its own.
#[tactic(auto, unfolding(crate::specs::Segment::segment_octets))]
fn spelled(alloc: Global, segment: &Segment) -> Result<Vec<u8>, AllocError>
    requires { IsSegment segment.now }
    ensures { IfOk result (λ octets. octets.items ≡ segment_octets segment.now) }
{
    let mut out = Vec::with_capacity(alloc, usual_room(segment))?;
    put_parameters(&mut out, segment.parameters.as_slice())?;
    put_u16(&mut out, segment.keys.len() as u16)?;
    put_keys(&mut out, segment.keys.as_slice())?;
    put_columns(alloc, &mut out, segment.columns.as_slice())?;
    Ok(out)
}

/// Adds the octets of a segment to a buffer. Refused for want of memory, it leaves the buffer as it was.
pub fn put_segment(alloc: Global, out: &mut Vec<u8>, segment: &Segment) -> Result<(), AllocError>
    requires { IsSegment segment.now }
    ensures ok { OnOk result (out.new.items ≡ out.old.items ++ segment_octets segment.now) }
    ensures err { OnErr result (out.new.items ≡ out.old.items) }
{
    // all of them are made before the first is added
    let octets = spelled(alloc, segment)?;
    out.extend_from_slice(&octets)
}

/// The one spelling of a segment.
pub fn write_segment(alloc: Global, segment: &Segment) -> Result<Octets, AllocError>
    requires { IsSegment segment.now }
    ensures { IfOk result (λ octets. octets ≡ segment_octets segment.now) }
{
    let out = spelled(alloc, segment)?;
    Octets::from_vec(alloc, out)
}
