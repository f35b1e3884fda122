//! Heads as octets, both ways.

ghost use Rattle.std.specs.Prelude.{◌≡◌, ◌<◌, ◌^◌, ◌++◌, length, IfOk};
ghost use Rattle.std.specs.Int.{w8};
ghost use Rattle.octet_fields.specs.Answers.{ReadsEach, ReadsOnly};
ghost use Rattle.octet_fields.specs.Spelling.{number};
ghost use Rattle.octet_fields.specs.declared.fault.DecodeError.TheVariants.{OutOfMemory};
ghost use Rattle.field_codec.specs.Spelling.{head_octets};
ghost use Rattle.field_codec.specs.Reading.{IsHead, head_of};

use crate::fault::NotAnEntry;
use crate::opening::{opening_at, opening_size, put_opening};
use arch_types::name::{Name, Names};
use mdb_model::Mdb;
use octet_fields::put_u8;
use std::alloc::{AllocError, Global};

/// The tables and the database that octets spell.
pub(crate) fn read_head(alloc: Global, octets: &[u8]) -> Result<(Names, Mdb), NotAnEntry>
    ensures spelled { ReadsOnly IsHead head_of (λ x. (x.0, x.1)) octets.now result }
    ensures each { ReadsEach IsHead head_of (λ x. (x.0, x.1)) (λ e. e ≡ OutOfMemory) octets.now result }
{
    let (tables, rest) = opening_at(alloc, octets)?;
    let mdb = Mdb::from_bytes(alloc, rest)?;
    Ok((tables, mdb))
}

/// The octets of an entry that is a head: its kind, the tables, and the database.
pub fn write_head(alloc: Global, tables: &[Name], mdb: &Mdb) -> Result<Vec<u8>, AllocError>
    requires { IsHead (tables.now, mdb.now) }
    ensures octets { IfOk result (λ out. out.items ≡ number w8 1 ++ head_octets tables.now mdb.now) }
    ensures short { IfOk result (λ out. length out.items < 2 ^ 30) }
{
    let database = mdb.to_bytes(alloc)?;
    let size = opening_size(tables).saturating_add(database.len());
    let mut out = Vec::with_capacity(alloc, size.saturating_add(1))?;
    put_u8(&mut out, 1)?;
    put_opening(&mut out, tables)?;
    out.extend_from_slice(&database)?;
    Ok(out)
}
