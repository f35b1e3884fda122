//! The rows of a dump.

ghost use Rattle.std.specs.Prelude.{◌≡◌, ◌<◌, ◌^◌, OnOk};
ghost use Rattle.std.specs.List.{AllByRecursion};
ghost use Rattle.arch_types.specs.Packet.{IsPacket};
ghost use Rattle.dump_lines.specs.Counting.{scanned_row};
ghost use Rattle.dump_lines.specs.DumpTable.{IsPacketAdded, IsVisible};

use crate::counts::{Counts, PacketOutcome};
use crate::receiving::DumpRows;
use arch_types::inserted::Inserted;
use arch_types::octets::Octets;
use arch_types::row::Row;
use space_packet::header::is_idle_packet;
use space_packet::key::key_of;
use std::alloc::{AllocError, Global};
use yarch_table::table::Table;

/// The rows of a dump, whose packets are parts of the pieces that were read of it, and what became of the packets.
#[derive(Drop)]
pub struct DumpTable {
    pub table: Table,
    pub counts: Counts,
}

/// Rows that a table makes room for at a time (D-91).
const STEP: u64 = 1024;

impl DumpRows for DumpTable {
    ghost use Rattle.std.specs.Prelude.{◌≡◌, ℕ, ℤ, ◌<◌, ◌^◌, List, [], ◌∷◌, ◌++◌, length, IfOk, OnOk};
    ghost use Rattle.arch_types.specs.Packet.{IsPacket};
    ghost use Rattle.dump_lines.specs.DumpTable.{IsGathered};

    ghost keeps = { λ rows moment packets. IsGathered packets moment rows.table.stored rows.counts };

    fn new(alloc: Global) -> Result<Self, AllocError> {
        Ok(DumpTable {
            table: Table::new(alloc)?,
            counts: Counts::default(),
        })
    }

    fn add(&mut self, packet: Octets, moment: i64) -> Result<(), AllocError> {
        make_room(&mut self.table)?;
        let outcome = add_packet(&mut self.table, packet, moment, self.counts.rows);
        self.counts.add(outcome);
        Ok(())
    }
}

/// Makes room in a table that has none, by small steps: its rows grow by doubling, and blocks of its index that stay
/// empty take memory.
fn make_room(table: &mut Table) -> Result<(), AllocError>
    ensures room { OnOk result (0 < table.new.room) }
    ensures same { table.new.stored ≡ table.old.stored }
{
    if table.room() > 0 {
        return Ok(());
    }
    table.reserve(STEP)
}

/// Adds the row of a packet that isn't idle.
fn add_packet(table: &mut Table, packet: Octets, moment: i64, position: u64) -> PacketOutcome
    requires packet { IsPacket packet }
    requires position { position < 2 ^ 32 }
    requires shown { AllByRecursion IsVisible table.old.stored }
    requires room { 0 < table.old.room }
    ensures { IsPacketAdded table.old.stored table.new.stored moment packet result }
{
    if is_idle_packet(packet.as_slice()) {
        return PacketOutcome::Idle;
    }
    let row = row_of_packet(packet, moment);
    match table.insert(row, position) {
        Inserted::New(_) => PacketOutcome::New,
        Inserted::Duplicate(_) => PacketOutcome::Duplicate,
    }
}

/// The row of a packet.
fn row_of_packet(packet: Octets, moment: i64) -> Row
    requires { IsPacket packet }
    ensures { result ≡ scanned_row moment packet }
{
    Row {
        key: key_of(packet.as_slice(), moment),
        rectime: moment,
        packet,
        link: 1,
        pname: 0,
        table: 0,
    }
}
