//! What comes in at once.

ghost use Rattle.std.specs.Prelude.{◌≡◌, OnOk, OnErr, ◌++◌, [], ◌∷◌};
ghost use Rattle.arch_types.specs.Arrivals.{row_of};
ghost use Rattle.arch_types.specs.Packet.{IsPacket};

use arch_types::inserted::Outcomes;
use arch_types::octets::Octets;
use arch_types::row::Row;
use arch_types::tables::PacketTables;
use space_packet::key::key_of;
use std::alloc::{AllocError, Global};
use std::marker::Model;

/// A packet that was received, and the tables that it goes into.
#[derive(Debug, Drop)]
pub struct Arrival {
    /// Its row, from which that in any of its tables differs by the table alone.
    pub row: Row,
    pub tables: PacketTables,
}

/// The row in table `tm` of a packet that came by a link and was received at a time, in milliseconds since 1970, and
/// which the container of a number names.
pub fn received_row(packet: Octets, rectime: i64, link: u16, pname: u16) -> Row
    requires { IsPacket packet }
    ensures { result ≡ row_of link rectime (λ _. pname) packet 0 }
{
    Row {
        key: key_of(packet.as_slice(), rectime),
        rectime,
        packet,
        link,
        pname,
        table: 0,
    }
}

/// For how many arrivals there is room from the first one on, where memory lets: as many as a link sends at once.
const USUAL_ARRIVALS: usize = 64;

/// Arrivals in their order.
#[derive(Debug, Drop)]
pub struct Arrivals {
    items: Vec<Arrival>,
}

impl Model for Arrivals {
    ghost use Rattle.std.specs.Prelude.{List};
    ghost use Rattle.archive_store.specs.declared.batch.Arrival.{Arrival};

    ghost Value = { List Arrival };

    ghost view = { λ a. a.items.items };
}

impl Arrivals {
    /// No arrival.
    pub fn new(alloc: Global) -> Self
        ensures { result ≡ [] }
    {
        Arrivals {
            items: Vec::new(alloc),
        }
    }

    pub fn as_slice(&self) -> &[Arrival]
        ensures { result.now ≡ self.now }
    {
        self.items.as_slice()
    }

    /// Adds an arrival at the end. Refused, it leaves the list as it was.
    pub fn push(&mut self, arrival: Arrival) -> Result<(), AllocError>
        ensures ok { OnOk result (self.new ≡ self.old ++ arrival ∷ []) }
        ensures err { OnErr result (self.new ≡ self.old) }
    {
        self.items.push(arrival)?;
        if self.items.len() == 1 {
            // where there's no memory for that, the next arrivals ask for their own
            let _ = self.items.reserve(USUAL_ARRIVALS - 1);
        }
        Ok(())
    }
}

/// Packets that were received at one time, in milliseconds since 1970.
#[derive(Debug, Drop)]
pub struct Batch {
    pub rectime: i64,
    pub arrivals: Arrivals,
}

/// What became of a batch: one outcome for each arrival and table.
#[derive(Debug, Drop)]
pub struct Ingested {
    pub outcomes: Outcomes,
}
