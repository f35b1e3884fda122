//! Seals and the heads of logs as octets behind their kinds, both ways.

ghost use Rattle.std.specs.Prelude.{◌≡◌, ◌<◌, ◌^◌, ◌++◌, length, IfOk};
ghost use Rattle.std.specs.Int.{w8, w64};
ghost use Rattle.octet_fields.specs.declared.fault.DecodeError.TheVariants.{OutOfMemory};
ghost use Rattle.octet_fields.specs.Answers.{Gives, ReadsEach, ReadsOnly};
ghost use Rattle.octet_fields.specs.Reading.{number_at, whole};
ghost use Rattle.octet_fields.specs.Spelling.{number};
ghost use Rattle.seal_codec.specs.Seals.{IsSeal, seal_octets};
ghost use Rattle.field_codec.specs.Entries.{IsRowCount};

use octet_fields::{DecodeError, put_u8, put_u64, u64_at};
use seal_codec::{Seal, put_seal};
use std::alloc::{AllocError, Global};

/// The number of rows that all of the octets are.
fn whole_log_head(octets: &[u8]) -> Result<u64, DecodeError>
    ensures { Gives (λ rows. rows) result (whole (number_at w64) octets.now) }
{
    let (rows, rest) = u64_at(octets)?;
    if !rest.is_empty() {
        return Err(DecodeError::Malformed);
    }
    Ok(rows)
}

/// The number of rows that all of the octets spell.
pub(crate) fn read_log_head(octets: &[u8]) -> Result<u64, DecodeError>
    ensures spelled { ReadsOnly IsRowCount (number w64) (λ rows. rows) octets.now result }
    ensures each { ReadsEach IsRowCount (number w64) (λ rows. rows) (λ e. e ≡ OutOfMemory) octets.now result }
{
    whole_log_head(octets)
}

/// The octets of an entry that is a seal.
pub(crate) fn write_seal(alloc: Global, seal: &Seal) -> Result<Vec<u8>, AllocError>
    requires { IsSeal seal.now }
    ensures octets { IfOk result (λ out. out.items ≡ number w8 4 ++ seal_octets seal.now) }
    ensures short { IfOk result (λ out. length out.items < 2 ^ 30) }
{
    let mut out = Vec::new(alloc);
    put_u8(&mut out, 4)?;
    put_seal(&mut out, seal)?;
    Ok(out)
}

/// The octets of an entry that is a log head.
pub(crate) fn write_log_head(alloc: Global, rows: u64) -> Result<Vec<u8>, AllocError>
    ensures octets { IfOk result (λ out. out.items ≡ number w8 5 ++ number w64 rows) }
    ensures short { IfOk result (λ out. length out.items < 2 ^ 30) }
{
    let mut out = Vec::new(alloc);
    put_u8(&mut out, 5)?;
    put_u64(&mut out, rows)?;
    Ok(out)
}
