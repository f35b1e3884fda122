//! Raw extractions in buffers that are used again.

ghost use Rattle.std.specs.Prelude.{◌≡◌, ◌+◌, ◌≤◌, [], length, option_copied, vec_capacity, vec_len, IfNone, IfOk, IfSome};
ghost use Rattle.container_extract.specs.Chain.{chain_of, entries_at, packet_name_of};
ghost use Rattle.container_extract.specs.Extraction.{AreButLast, raw_extraction};
ghost use Rattle.container_extract.specs.Laws.{AreRawValues};
ghost use Rattle.container_extract.specs.Room.{HasPacketRoom};
ghost use Rattle.container_extract.specs.Values.{raw_among};

use crate::containers::{is_childless, name_along, next_of};
use crate::entries::take_entries;
use crate::values::RawValue;
use arch_types::steps::Steps;
use mdb_model::Mdb;
use std::alloc::{AllocError, Global};
use std::marker::Model;
use std::sync::ledger::Ledger;

/// The containers that a path has at most.
const MAX_CONTAINERS: usize = 32;

/// The entries that a path has at most.
const MAX_ENTRIES: usize = 256;

/// What a packet says in raw numbers.
#[derive(Debug, Drop)]
pub struct RawExtracted {
    /// The raw values of its entries, in the order of the chain's entries.
    pub values: Vec<RawValue>,
    /// The numbers of its containers, from the root on.
    pub chain: Vec<u16>,
}

/// Extracts one packet after the other, each in place of the one before. It takes memory when it is made, and none after that.
#[derive(Debug, Drop)]
pub struct Extractor {
    extracted: RawExtracted,
}

impl Model for Extractor {
    ghost use Rattle.container_extract.specs.Room.{HasPacketRoom};

    ghost Value = { Unit {0} };

    ghost view = { λ _. tt };

    ghost invariant = { λ e. HasPacketRoom e.extracted };
}

impl RawExtracted {
    /// Nothing, with room for any packet.
    pub(crate) fn new(alloc: Global) -> Result<RawExtracted, AllocError>
        ensures { IfOk result HasPacketRoom }
    {
        Ok(RawExtracted {
            values: Vec::with_capacity(alloc, MAX_ENTRIES)?,
            chain: Vec::with_capacity(alloc, MAX_CONTAINERS)?,
        })
    }

    /// The raw value of a parameter, where the packet has one.
    pub fn value(&self, parameter: u16) -> Option<&RawValue>
        ensures { option_copied result ≡ raw_among parameter self.now.values.items }
    {
        self.values
            .iter()
            .find(|value| value.parameter == parameter)
    }

    /// Forgets what was extracted.
    fn restart(&mut self)
        requires { HasPacketRoom self.old }
        ensures room { HasPacketRoom self.new }
        ensures values { self.new.values.items ≡ [] }
        ensures chain { self.new.chain.items ≡ [] }
    {
        self.values.clear();
        self.chain.clear();
    }

    /// Goes down from the root, in place of what was extracted before. Where the last container of the chain has no child,
    /// its number is given in place of the values of its entries, which nothing else asks for.
    fn descend(&mut self, mdb: &Mdb, packet: &[u8]) -> Option<u16>
        requires { HasPacketRoom self.old }
        ensures room { HasPacketRoom self.new }
        ensures chain { self.new.chain.items ≡ chain_of mdb.now packet.now }
        ensures whole { IfNone result (self.new.values.items ≡ raw_extraction mdb.now packet.now) }
        ensures but_last { IfSome result (AreButLast mdb.now packet.now self.new.values.items) }
        ensures last_room { IfSome result (λ number.
            vec_len self.new.values + length (entries_at mdb.now number) ≤ vec_capacity self.new.values) }
    {
        self.restart();
        let mut number = 0;
        mdb.is_sound();
        'down: loop {
            self.chain.push_reserved(number);
            if is_childless(mdb, number) {
                return Some(number);
            }
            match next_of(mdb, packet, number, &mut self.values) {
                None => return None,
                Some(child) => number = child,
            }
        }
    }

    /// Goes down from the root, in place of what was extracted before. The octets need not be a whole packet.
    pub(crate) fn walk(&mut self, mdb: &Mdb, packet: &[u8])
        requires { HasPacketRoom self.old }
        ensures room { HasPacketRoom self.new }
        ensures chain { self.new.chain.items ≡ chain_of mdb.now packet.now }
        ensures values { self.new.values.items ≡ raw_extraction mdb.now packet.now }
    {
        mdb.is_sound();
        if let Some(last) = self.descend(mdb, packet) {
            let entries = mdb.container(last).entries.as_slice();
            take_entries(mdb, packet, entries, &mut self.values);
        }
    }
}

impl Extractor {
    /// An extractor, with room for any packet.
    pub fn new(alloc: Global) -> Result<Extractor, AllocError> {
        Ok(Extractor {
            extracted: RawExtracted::new(alloc)?,
        })
    }

    /// The chain and the raw values of a packet, in one step. The octets need not be a whole packet.
    pub fn extract<L: Ledger>(
        &mut self,
        mdb: &Mdb,
        packet: &[u8],
        steps: &mut Steps<L>,
    ) -> &RawExtracted
        ensures step { steps.new ≡ steps.old + 1 }
        ensures chain { result.now.chain.items ≡ chain_of mdb.now packet.now }
        ensures values { result.now.values.items ≡ raw_extraction mdb.now packet.now }
        ensures rules { AreRawValues mdb.now result.now.values.items }
    {
        steps.tick();
        mdb.is_sound();
        self.extracted.walk(mdb, packet);
        &self.extracted
    }

    /// The packet name: the number of the last container of the packet's chain with the archive flag, or else of the root.
    pub fn packet_name(&mut self, mdb: &Mdb, packet: &[u8]) -> u16
        ensures { result ≡ packet_name_of mdb.now packet.now }
    {
        self.extracted.descend(mdb, packet);
        name_along(mdb.container_list(), self.extracted.chain.as_slice())
    }
}
