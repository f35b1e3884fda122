//! The raw values of entries.

ghost use Rattle.std.specs.Prelude.{◌≡◌, ◌+◌, ◌<◌, ◌≤◌, ◌++◌, length, map, true, vec_len, vec_capacity};
ghost use Rattle.std.specs.List.{All, list_all, take_while};
ghost use Rattle.container_extract.specs.Values.{fits, raw_value_of};

use crate::fields::bits;
use crate::values::RawValue;
use mdb_model::{Mdb, ParameterEntry};

/// The entry doesn't pass the packet's end.
fn fits(mdb: &Mdb, packet: &[u8], entry: ParameterEntry) -> bool
    requires { entry.parameter < length mdb.now.parameters }
    ensures { result ≡ fits mdb.now packet.now entry }
{
    let parameter = &mdb.parameter_list()[entry.parameter];
    let end = entry.at as usize + parameter.bits as usize;
    (end + 7) / 8 <= packet.len()
}

/// The raw value of an entry inside the packet.
fn raw_value_of(mdb: &Mdb, packet: &[u8], entry: ParameterEntry) -> RawValue
    requires known { entry.parameter < length mdb.now.parameters }
    requires inside { fits mdb.now packet.now entry ≡ true }
    ensures { result ≡ raw_value_of mdb.now packet.now entry }
{
    let parameter = &mdb.parameter_list()[entry.parameter];
    RawValue {
        parameter: entry.parameter as u16,
        raw: bits(packet, entry.at, parameter.bits, parameter.coding),
    }
}

/// Takes the raw values of entries up to the first that passes the packet's end, and tells whether none does.
pub(crate) fn take_entries(
    mdb: &Mdb,
    packet: &[u8],
    entries: &[ParameterEntry],
    values: &mut Vec<RawValue>,
) -> bool
    requires known { All (λ e. e.parameter < length mdb.now.parameters) entries.now }
    requires room { vec_len values.old + length entries.now ≤ vec_capacity values.old }
    ensures taken { values.new.items ≡ values.old.items ++ map (raw_value_of mdb.now packet.now)
        (take_while (fits mdb.now packet.now) entries.now) }
    ensures whole { result ≡ list_all (fits mdb.now packet.now) entries.now }
    ensures capacity { vec_capacity values.new ≡ vec_capacity values.old }
{
    for entry in entries {
        if !fits(mdb, packet, *entry) {
            return false;
        }
        values.push_reserved(raw_value_of(mdb, packet, *entry));
    }
    true
}
