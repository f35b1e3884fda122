//! The dumps of links whose passes overlap.

ghost use Rattle.std.specs.Prelude.{◌≡◌, ◌+◌, ◌<◌, ◌≤◌, ◌++◌, IfOk, OnOk};
ghost use Rattle.std.specs.List.{concat};
ghost use Rattle.dump_maker.specs.Made.{made_packet, made_packets, made_dumps};

use arch_types::octets::Octets;
use item_list::Items;
use octet_fields::writing::{put_u16, put_u32};
use std::alloc::{AllocError, Global};

/// The dumps of links, in the order of the links.
pub type Dumps = Items<Octets>;

/// A packet has so many octets.
const PACKET_LENGTH: usize = 16;

/// Dumps of so many packets for each link, from a seed. The one error is want of memory.
pub fn make(alloc: Global, seed: u32, packets: u32, links: u8) -> Result<Dumps, AllocError>
    requires packets { (1 ≤ packets) × (packets ≤ 1000000) }
    requires links { (1 ≤ links) × (links ≤ 16) }
    ensures { IfOk result (λ dumps. dumps ≡ made_dumps seed packets links) }
{
    let mut dumps = Items::new(alloc);
    let shift = 27 * packets / 50;
    for link in 0..links {
        let behind = links - 1 - link;
        dumps.push(made_dump(alloc, seed, shift * u32::from(behind), packets)?)?;
    }
    Ok(dumps)
}

/// So many packets from a place on.
fn made_dump(alloc: Global, seed: u32, first: u32, packets: u32) -> Result<Octets, AllocError>
    requires { first + packets ≤ 16000000 }
    ensures { IfOk result (λ dump. dump ≡ concat (made_packets seed first packets)) }
{
    let mut octets = Vec::with_capacity(alloc, PACKET_LENGTH * packets as usize)?;
    for i in 0..packets {
        put_packet(&mut octets, seed, first + i)?;
    }
    Octets::from_vec(alloc, octets)
}

/// Puts the packet of a place at the end.
fn put_packet(out: &mut Vec<u8>, seed: u32, place: u32) -> Result<(), AllocError>
    requires { place < 16000000 }
    ensures { OnOk result (out.new.items ≡ out.old.items ++ made_packet seed place) }
{
    let apid = 1 + (place % 40) as u16;
    let count = (place / 40 % 16_384) as u16;
    let value = (u64::from(seed) + 7919 * u64::from(place)) % 4_294_967_296;
    put_u16(out, 2_048 + apid)?;
    put_u16(out, 49_152 + count)?;
    put_u16(out, 9)?;
    put_u32(out, 1_704_067_200 + 2 * place)?;
    put_u16(out, 0)?;
    put_u32(out, value as u32)
}
