//! Reads what stands before the values of a segment: enough to pass over it whole.

ghost use Rattle.std.specs.Prelude.{IfOk};
ghost use Rattle.octet_fields.specs.Answers.{Gives};
ghost use Rattle.segment_codec.specs.Segment.{HasSegmentAt};
ghost use Rattle.segment_codec.specs.SegmentHead.{IsHeadOf, head_of};
ghost use Rattle.segment_codec.specs.declared.segment.Segment.{Segment};

use crate::key_column::first_key_at;
use crate::parameters::counted_parameters_at;
use crate::reading::row_count_at;
use crate::segment::ParameterList;
use arch_types::key::Key;
use octet_fields::DecodeError;
use std::alloc::{AllocError, Global};

/// What stands before the values of a segment.
#[derive(Debug, Drop)]
pub struct SegmentHead {
    pub parameters: ParameterList,
    /// The key of its first row.
    pub first: Key,
}

/// The head of the segment that stands at the front.
#[tactic(auto, unfolding(crate::specs::SegmentHead::head_of))]
fn head_of(alloc: Global, octets: &[u8]) -> Result<SegmentHead, DecodeError>
    ensures { Gives (λ x. x) result (head_of octets.now) }
{
    let (parameters, rest) = counted_parameters_at(alloc, octets)?;
    let (_, rest) = row_count_at(rest)?;
    let (first, _) = first_key_at(rest)?;
    Ok(SegmentHead { parameters, first })
}

/// The head of the segment whose spelling stands in octets from a place on.
pub fn read_head(alloc: Global, octets: &[u8], at: usize) -> Result<SegmentHead, AllocError>
    requires { (s : Segment) × HasSegmentAt octets.now at s }
    ensures { (s : Segment) → HasSegmentAt octets.now at s → IfOk result (IsHeadOf s) }
{
    let (_, front) = octets.split_at(at);
    match head_of(alloc, front) {
        Ok(head) => Ok(head),
        // a segment stands there, so nothing but memory can have been wanting
        Err(_) => Err(AllocError),
    }
}
