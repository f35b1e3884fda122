//! Fields at the end of a buffer. Where memory runs out, what stood there stands there still.

ghost use Rattle.std.specs.Prelude.{◌≡◌, ◌<◌, ◌++◌, length, take, OnOk, OnErr};
ghost use Rattle.std.specs.Int.{w8, w16, w32, w64, w128};
ghost use Rattle.octet_fields.specs.Spelling.{name, number, signed};

use std::alloc::AllocError;

#[tactic(auto, unfolding(crate::specs::Spelling::number))]
pub fn put_u8(out: &mut Vec<u8>, value: u8) -> Result<(), AllocError>
    ensures ok { OnOk result (out.new.items ≡ out.old.items ++ number w8 value) }
    ensures err { OnErr result (out.new.items ≡ out.old.items) }
{
    out.push(value)?;
    Ok(())
}

#[tactic(auto, unfolding(crate::specs::Spelling::number))]
pub fn put_u16(out: &mut Vec<u8>, value: u16) -> Result<(), AllocError>
    ensures ok { OnOk result (out.new.items ≡ out.old.items ++ number w16 value) }
    ensures err { OnErr result (out.new.items ≡ out.old.items) }
{
    out.extend_from_slice(&value.to_be_bytes())
}

#[tactic(auto, unfolding(crate::specs::Spelling::number))]
pub fn put_u32(out: &mut Vec<u8>, value: u32) -> Result<(), AllocError>
    ensures ok { OnOk result (out.new.items ≡ out.old.items ++ number w32 value) }
    ensures err { OnErr result (out.new.items ≡ out.old.items) }
{
    out.extend_from_slice(&value.to_be_bytes())
}

#[tactic(auto, unfolding(crate::specs::Spelling::number))]
pub fn put_u64(out: &mut Vec<u8>, value: u64) -> Result<(), AllocError>
    ensures ok { OnOk result (out.new.items ≡ out.old.items ++ number w64 value) }
    ensures err { OnErr result (out.new.items ≡ out.old.items) }
{
    out.extend_from_slice(&value.to_be_bytes())
}

#[tactic(auto, unfolding(crate::specs::Spelling::number, crate::specs::Spelling::signed))]
pub fn put_i64(out: &mut Vec<u8>, value: i64) -> Result<(), AllocError>
    ensures ok { OnOk result (out.new.items ≡ out.old.items ++ signed w64 value) }
    ensures err { OnErr result (out.new.items ≡ out.old.items) }
{
    out.extend_from_slice(&value.to_be_bytes())
}

#[tactic(auto, unfolding(crate::specs::Spelling::number, crate::specs::Spelling::signed))]
pub fn put_i128(out: &mut Vec<u8>, value: i128) -> Result<(), AllocError>
    ensures ok { OnOk result (out.new.items ≡ out.old.items ++ signed w128 value) }
    ensures err { OnErr result (out.new.items ≡ out.old.items) }
{
    out.extend_from_slice(&value.to_be_bytes())
}

/// A name: its length, one octet, and its octets. Where memory runs out the length may stand there already.
#[tactic(auto, unfolding(crate::specs::Spelling::name))]
pub fn put_name(out: &mut Vec<u8>, octets: &[u8]) -> Result<(), AllocError>
    requires { length octets.now < 256 }
    ensures ok { OnOk result (out.new.items ≡ out.old.items ++ name octets.now) }
    ensures err { OnErr result (take (length out.old.items) out.new.items ≡ out.old.items) }
{
    put_u8(out, octets.len() as u8)?;
    out.extend_from_slice(octets)
}
