//! Values one after the other, whatever the octets of each are.
//!
//! A codec is a type that stands for a way to spell values. It isn't the type of the values, so a crate has
//! codecs of values that another crate declares.

ghost use Rattle.std.specs.Prelude.{◌≡◌, ◌++◌, ℕ, List, OnOk};
ghost use Rattle.std.specs.List.{AllByRecursion, flat_map};
ghost use Rattle.octet_fields.specs.Answers.{Gives};
ghost use Rattle.octet_fields.specs.Reading.{Reader, times_at};

use crate::fault::DecodeError;
use crate::reading::room_for;
use std::alloc::{AllocError, Global};

/// Spells values.
pub trait Encode {
    type Value;

    /// The values that have a spelling.
    ghost fits: { Self.Value → Type 0 };

    /// The octets of such a value.
    ghost spell: { Self.Value → List ℕ };

    /// Adds the octets of a value to a buffer.
    fn put(out: &mut Vec<u8>, value: &Self::Value) -> Result<(), AllocError>
        requires { fits value.now }
        ensures { OnOk result (out.new.items ≡ out.old.items ++ spell value.now) };
}

/// Reads values from the front of octets.
pub trait Decode {
    type Value: Drop;

    /// The fewest octets that a value is spelled in, at least 1. `each_at` makes room by it and claims nothing of it:
    /// one that is too low costs memory, one that is too high a second reservation.
    const LEAST_OCTETS: usize = 1;

    /// The value that stands at the front, and the octets after it.
    ghost read: { Reader Self.Value };

    /// The value at the front, and the octets after it.
    fn at(alloc: Global, octets: &[u8]) -> Result<(Self::Value, &[u8]), DecodeError>
        ensures { Gives (λ x. (x.0, x.1.now)) result (read octets.now) };
}

/// Adds the octets of each value to a buffer, in their order.
pub fn put_each<E: Encode>(out: &mut Vec<u8>, values: &[E::Value]) -> Result<(), AllocError>
    requires { AllByRecursion E.fits values.now }
    ensures { OnOk result (out.new.items ≡ out.old.items ++ flat_map E.spell values.now) }
{
    for value in values {
        E::put(out, value)?;
    }
    Ok(())
}

/// So many values, and the octets after them.
pub fn each_at<D: Decode>(
    alloc: Global,
    count: usize,
    octets: &[u8],
) -> Result<(Vec<D::Value>, &[u8]), DecodeError>
    ensures { Gives (λ x. (x.0.items, x.1.now)) result (times_at D.read count octets.now) }
{
    let room = room_for(count, octets, D::LEAST_OCTETS.max(1));
    let mut values = Vec::with_capacity(alloc, room)?;
    let mut rest = octets;
    for _ in 0..count {
        let (value, after) = D::at(alloc, rest)?;
        values.push(value)?;
        rest = after;
    }
    Ok((values, rest))
}
