//! The extraction of a packet.

ghost use Rattle.std.specs.Prelude.{◌≡◌, ◌+◌, IfOk};
ghost use Rattle.container_extract.specs.Chain.{IsChain, chain_of, packet_name_of};
ghost use Rattle.container_extract.specs.Extraction.{extraction};

use crate::chain::Chain;
use crate::engineering::calibrated_values;
use crate::raw_extraction::{Extractor, RawExtracted};
use crate::values::Values;
use arch_types::steps::Steps;
use mdb_model::Mdb;
use std::alloc::{AllocError, Global};
use std::sync::ledger::Ledger;

/// What a packet says.
#[derive(Debug, Drop)]
pub struct Extracted {
    /// The values of its entries, in the order of the chain's entries.
    pub values: Values,
    /// Its containers, from the root on.
    pub chain: Chain,
}

/// The chain and the values of a packet, in one step. The octets need not be a whole packet.
pub fn extract<L: Ledger>(
    alloc: Global,
    mdb: &Mdb,
    packet: &[u8],
    steps: &mut Steps<L>,
) -> Result<Extracted, AllocError>
    ensures step { steps.new ≡ steps.old + 1 }
    ensures chain { IfOk result (λ x. IsChain mdb.now packet.now x.chain) }
    ensures one { IfOk result (λ x. x.chain ≡ chain_of mdb.now packet.now) }
    ensures values { IfOk result (λ x. x.values ≡ extraction mdb.now packet.now) }
{
    steps.tick();
    let mut raw = RawExtracted::new(alloc)?;
    raw.walk(mdb, packet);
    mdb.is_sound();
    let values = calibrated_values(alloc, mdb, raw.values.as_slice())?;
    Ok(Extracted {
        values,
        chain: Chain::from_vec(raw.chain),
    })
}

/// The packet name: the number of the last container of the packet's chain with the archive flag, or else of the root.
pub fn packet_name(alloc: Global, mdb: &Mdb, packet: &[u8]) -> Result<u16, AllocError>
    ensures { IfOk result (λ name. name ≡ packet_name_of mdb.now packet.now) }
{
    Ok(Extractor::new(alloc)?.packet_name(mdb, packet))
}
