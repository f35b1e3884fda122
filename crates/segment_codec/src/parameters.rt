//! The list of a segment's parameters, both ways.

ghost use Rattle.std.specs.Prelude.{◌≡◌, ◌<◌, ◌^◌, ◌++◌, length, IfOk, IfErr, OnOk};
ghost use Rattle.std.specs.Int.{w16};
ghost use Rattle.octet_fields.specs.Answers.{Gives};
ghost use Rattle.octet_fields.specs.Reading.{counted_at, number_at};
ghost use Rattle.octet_fields.specs.Spelling.{counted, number};
ghost use Rattle.segment_codec.specs.Segment.{HasSegmentAt, are_distinct, parameters_at};
ghost use Rattle.octet_fields.specs.declared.fault.DecodeError.TheVariants.{OutOfMemory};
ghost use Rattle.segment_codec.specs.declared.segment.Segment.{Segment};

use crate::fault::NotASegment;
use crate::segment::ParameterList;
use octet_fields::{Decode, DecodeError, Encode, each_at, put_each, put_u16, u16_at};
use std::alloc::{AllocError, Global};

/// How the number of a parameter is spelled.
struct NumberCodec;

impl Decode for NumberCodec {
    type Value = u16;

    const LEAST_OCTETS: usize = 2;

    ghost read = { number_at w16 };

    fn at(_alloc: Global, octets: &[u8]) -> Result<(u16, &[u8]), DecodeError> {
        let (number, rest) = u16_at(octets)?;
        Ok((number, rest))
    }
}

impl Encode for NumberCodec {
    type Value = u16;

    ghost fits = { λ _. Unit {0} };

    ghost spell = { number w16 };

    fn put(out: &mut Vec<u8>, parameter: &u16) -> Result<(), AllocError> {
        put_u16(out, *parameter)
    }
}

/// Whether no number comes twice. A sorted copy tells it, since octets may count 65,535 of them.
fn are_distinct(alloc: Global, numbers: &[u16]) -> Result<bool, AllocError>
    ensures { IfOk result (λ distinct. distinct ≡ are_distinct numbers.now) }
{
    let mut sorted = Vec::from_slice(alloc, numbers)?;
    sorted.sort_unstable();
    sorted.dedup();
    Ok(sorted.len() == numbers.len())
}

/// A count and so many parameters, and the octets after them.
#[tactic(auto, unfolding(octet_fields::specs::Reading::counted_at))]
pub(crate) fn counted_parameters_at(
    alloc: Global,
    octets: &[u8],
) -> Result<(ParameterList, &[u8]), DecodeError>
    ensures { Gives (λ x. (x.0, x.1.now)) result (counted_at w16 (number_at w16) octets.now) }
{
    let (count, rest) = u16_at(octets)?;
    let (parameters, rest) = each_at::<NumberCodec>(alloc, usize::from(count), rest)?;
    Ok((ParameterList::from_vec(parameters), rest))
}

/// The parameters, and the octets after them.
#[tactic(auto, unfolding(crate::specs::Segment::parameters_at))]
pub(crate) fn parameters_at(
    alloc: Global,
    octets: &[u8],
) -> Result<(ParameterList, &[u8]), DecodeError>
    ensures { Gives (λ x. (x.0, x.1.now)) result (parameters_at octets.now) }
{
    let (parameters, rest) = counted_parameters_at(alloc, octets)?;
    if parameters.len() < 1 || !are_distinct(alloc, parameters.as_slice())? {
        return Err(DecodeError::Malformed);
    }
    Ok((parameters, rest))
}

/// The parameters of the segment whose spelling stands in octets from a place on. Nothing else of it is asked, and no
/// room is made for more than they take: whoever knows which parameters there are can ask them before the columns.
///
/// Any octets may be given, and any place, also past their end.
pub fn read_parameters(
    alloc: Global,
    octets: &[u8],
    at: usize,
) -> Result<ParameterList, NotASegment>
    ensures same { (s : Segment) → HasSegmentAt octets.now at s → IfOk result (λ found. found ≡ s.parameters) }
    ensures memory { (s : Segment) → HasSegmentAt octets.now at s → IfErr result (λ e. e ≡ OutOfMemory) }
{
    if octets.len() < at {
        return Err(NotASegment::Malformed);
    }
    let (_, front) = octets.split_at(at);
    let (parameters, _) = counted_parameters_at(alloc, front)?;
    Ok(parameters)
}

/// Writes the count of the parameters, and each.
#[tactic(auto, unfolding(octet_fields::specs::Spelling::counted))]
pub(crate) fn put_parameters(out: &mut Vec<u8>, parameters: &[u16]) -> Result<(), AllocError>
    requires { length parameters.now < 2 ^ 16 }
    ensures { OnOk result (out.new.items ≡ out.old.items ++ counted w16 (number w16) parameters.now) }
{
    put_u16(out, parameters.len() as u16)?;
    put_each::<NumberCodec>(out, parameters)
}
