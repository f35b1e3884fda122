// What the tests are made of: a head, packets, batches of one packet, and an archive in turns.
ghost use Rattle.std.specs.Prelude.{◌≡◌, ◌<◌, ◌≤◌, ◌^◌, List, None, false, length, IfOk, IfSome, pos};
ghost use Rattle.std.specs.List.{AllByRecursion};
ghost use Rattle.arch_types.specs.Packet.{IsPacket, is_idle};
ghost use Rattle.field_codec.specs.declared.entry.Entry.TheVariants as entries;
ghost use Rattle.field_codec.specs.Entries.{IsArchiveEntry};
ghost use Rattle.history_items.specs.declared.items.Item.{Item};
ghost use Rattle.archive_store.specs.Head.{Head as HeadOf};
ghost use Rattle.archive_store.specs.Batches.{IsArrival, IsBatch};
ghost use Rattle.turn_cell.specs.Pass.{IsFree};
ghost use Rattle.live_archive.specs.Shelving.{IsOfLog};
ghost use Rattle.live_tests.specs.Heads.{HasNames};

use arch_disk::Disk;
use arch_types::octets::Octets;
use arch_types::tables::PacketTables;
use archive_store::{Arrival, Arrivals, Batch, Head, Store, received_row};
use field_codec::{Entry, read_entry};
use live_archive::{Live, LiveGlances, LivePass};
use space_packet::dump::first_packet;
use space_packet::header::is_idle_packet;
use std::alloc::Global;
use std::sync::Wait;

/// The entry of the table `tm`, the parameters `apid` (uint of 11 bits) and `v` (uint of 8 bits), and the container
/// `HDR`, which has them at the bits 5 and 96.
const HEAD: &[u8] =
    b"\x01\x01\x16\x01\x02tm\x00\x02\x04apid\x00\x0B\x00\x00\x01v\x00\x08\x00\x00\x00\x00\x00\x01\x03HDR\x00\x00\x00\x00\x00\x02\x00\x00\x00\x00\x00\x05\x00\x01\x00\x00\x00\x60";

/// The octets of the entry. A function, so that they stand in no goal of its callers.
fn head_octets() -> &'static [u8] {
    HEAD
}

/// A head, where it has a table and a packet name.
fn with_names(head: Head) -> Option<Head>
    ensures same { IfSome result (λ given. given ≡ head) }
    ensures names { IfSome result HasNames }
{
    if head.tables.as_slice().len() == 0 || head.mdb.containers() == 0 {
        return None;
    }
    Some(head)
}

/// The head of these tests. Here and below there's none where memory is wanting.
fn head(alloc: Global) -> Option<Head>
    ensures entry { IfSome result (λ head. IsArchiveEntry (entries.Head head.tables head.mdb)) }
    ensures names { IfSome result HasNames }
{
    match read_entry(alloc, head_octets()) {
        Ok(Entry::Head { tables, mdb }) => with_names(Head { tables, mdb }),
        _ => None,
    }
}

/// A packet of APID 100 at so many seconds, of which `v` is the last octet.
pub(crate) fn packet_octets(second: u64) -> [u8; 13] {
    let octets = second.to_be_bytes();
    [
        8, 100, 0xC0, 0, 0, 6, octets[4], octets[5], octets[6], octets[7], 0, 0, octets[7],
    ]
}

/// The packet that octets begin with, which has data.
fn packet_of(alloc: Global, octets: &[u8]) -> Option<Octets>
    ensures packet { IfSome result IsPacket }
    ensures carries { IfSome result (λ packet. is_idle packet ≡ false) }
{
    let Ok(len) = first_packet(octets) else {
        return None;
    };
    let (packet, _) = octets.split_at(len);
    if is_idle_packet(packet) {
        return None;
    }
    match Octets::from_slice(alloc, packet) {
        Ok(octets) => Some(octets),
        Err(_) => None,
    }
}

/// The packet that octets begin with, of link 1, received at 9 s, which comes into the first table.
fn arrival(alloc: Global, octets: &[u8]) -> Option<Arrival>
    ensures { IfSome result (λ arrival. (head : HeadOf) (history : List Item) → HasNames head →
        IsArrival head history (pos 9000) arrival) }
{
    let packet = packet_of(alloc, octets)?;
    let mut tables = PacketTables::new();
    let row = received_row(packet, 9_000, 1, 0);
    match tables.push(0) {
        Ok(()) => Some(Arrival { row, tables }),
        Err(_) => None,
    }
}

/// The batch of that packet, behind any history.
pub(crate) fn batch(alloc: Global, octets: &[u8]) -> Option<Batch>
    ensures { IfSome result (λ batch. (head : HeadOf) (history : List Item) → HasNames head →
        IsBatch head history batch) }
{
    let arrival = arrival(alloc, octets)?;
    let mut arrivals = Arrivals::new(alloc);
    match arrivals.push(arrival) {
        Ok(()) => Some(Batch {
            rectime: 9_000,
            arrivals,
        }),
        Err(_) => None,
    }
}

/// An archive without packets, or the disk.
fn created<D: Disk>(alloc: Global, disk: D) -> Result<Store<D>, D>
    ensures { IfOk result (λ store. HasNames store.head) }
{
    let Some(head) = head(alloc) else {
        return Err(disk);
    };
    match Store::create(alloc, disk, head) {
        Ok(store) => Ok(store),
        Err((disk, _)) => Err(disk),
    }
}

/// One in turns, with the pass that has the whole share, or the disk.
pub(crate) fn in_turns<D: Disk>(alloc: Global, disk: D) -> Result<(Live<D>, LivePass<D>), D>
    ensures free { IfOk result (λ made. IsFree made.0.cell made.1) }
    ensures share { IfOk result (λ made. made.1.share ≡ 2 ^ 63) }
    ensures alone { IfOk result (λ made. made.0.cell.first.shelf ≡ None) }
    ensures names { IfOk result (λ made. HasNames made.0.cell.first.store.head) }
{
    let store = created(alloc, disk)?;
    match Live::new(alloc, store) {
        Ok(made) => Ok(made),
        Err((store, _)) => Err(store.into_disk()),
    }
}

/// One in turns with so many glances, and the pass that has the whole share, or the disk.
pub(crate) fn with_glances<D: Disk, R: Wait>(
    rt: &R,
    alloc: Global,
    disk: D,
    readers: u8,
) -> Result<(Live<D>, LivePass<D>, LiveGlances<D>), D>
    requires readers { (0 < readers) × (readers ≤ 16) }
    ensures free { IfOk result (λ made. IsFree made.0.cell made.1) }
    ensures share { IfOk result (λ made. made.1.share ≡ 2 ^ 63) }
    ensures names { IfOk result (λ made. HasNames made.0.cell.first.store.head) }
    ensures glances { IfOk result (λ made. AllByRecursion (IsOfLog made.0.cell.first) made.2) }
{
    let store = created(alloc, disk)?;
    match Live::with_glances(rt, alloc, store, readers) {
        Ok(made) => Ok(made),
        Err((store, _)) => Err(store.into_disk()),
    }
}
