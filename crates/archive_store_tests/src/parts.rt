// What the tests are made of: heads, packets, batches, disks in memory, the words for refusals, and how archives are made and opened. Where memory is
// wanting there's none of these.
ghost use Rattle.std.specs.Prelude.{◌≡◌, ◌<◌, ◌≤◌, List, [], false, length, IfOk, IfSome};
ghost use Rattle.std.specs.List.{AllByRecursion};
ghost use Rattle.arch_types.specs.Packet.{IsPacket, is_idle};
ghost use Rattle.field_codec.specs.declared.entry.Entry.TheVariants as entries;
ghost use Rattle.field_codec.specs.Entries.{IsArchiveEntry};
ghost use Rattle.history_items.specs.declared.items.Item.{Item};
ghost use Rattle.archive_store.specs.Batches.{IsArrival, IsBatch};

use arch_disk::{Crash, Disk, MemDisk};
use arch_types::name::Name;
use arch_types::octets::Octets;
use arch_types::tables::PacketTables;
use archive_store::{Arrival, Arrivals, Batch, Head, Store, received_row};
use field_codec::{Entry, read_entry};
use refusals::{Refusal, Which};
use space_packet::dump::first_packet;
use space_packet::header::is_idle_packet;
use std::alloc::Global;
use std::fmt::Display;
use std::test::Fail;

/// The entry of the tables `tm` and `hk`, the parameters `apid` (uint of 11 bits) and `v` (uint of 8 bits), and the container `HDR`, which has
/// them at the bits 5 and 96.
const HEAD: &[u8] =
    b"\x01\x01\x16\x02\x02tm\x02hk\x00\x02\x04apid\x00\x0B\x00\x00\x01v\x00\x08\x00\x00\x00\x00\x00\x01\x03HDR\x00\x00\x00\x00\x00\x02\x00\x00\x00\x00\x00\x05\x00\x01\x00\x00\x00\x60";

/// The octets of the entry. A function, so that they stand in no goal of its callers.
pub(crate) fn head_octets() -> &'static [u8] {
    HEAD
}

/// Those of them that spell the mission database.
pub(crate) fn mdb_octets() -> &'static [u8] {
    &HEAD[10..]
}

/// Packets of time 1,500 ms in the order of their keys, and one with the key of the first and a length of its own.
const TIMED: &[&[u8]] = &[
    b"\x08\x64\xC0\x00\x00\x06\x00\x00\x00\x01\x80\x00\x2A",
    b"\x08\x65\xC0\x00\x00\x06\x00\x00\x00\x01\x80\x00\x07",
    b"\x08\x66\xC0\x00\x00\x06\x00\x00\x00\x01\x80\x00\x08",
    b"\x08\x67\xC0\x00\x00\x06\x00\x00\x00\x01\x80\x00\x09",
    b"\x08\x64\xC0\x00\x00\x07\x00\x00\x00\x01\x80\x00\x2A\xFE",
];

/// A function, as above.
fn all_timed() -> &'static [&'static [u8]] {
    TIMED
}

/// One of these, and none where there is no such.
pub(crate) fn timed(number: u64) -> &'static [u8] {
    match all_timed().get(number as usize) {
        Some(octets) => octets,
        None => b"",
    }
}

/// A packet without a time of its own, so that the time of reception is its time, with its application process and count.
pub(crate) fn untimed(number: u64) -> [u8; 7] {
    let octets = number.to_be_bytes();
    let process = octets[5] << 2 | octets[6] >> 6;
    let flags = 0xC0 | octets[6] & 0x3F;
    [0, process, flags, octets[7], 0, 0, 7]
}

/// Whether octets are the packet of a number: those up to 4 have a time of their own.
pub(crate) fn is_packet(octets: &[u8], number: u64) -> bool {
    if number < 5 {
        octets == timed(number)
    } else {
        octets == untimed(number).as_slice()
    }
}

/// The head that an entry spells. It names what each entry holds, so that no mission database is dropped.
fn head_of(alloc: Global, octets: &[u8]) -> Option<Head>
    ensures { IfSome result (λ head. IsArchiveEntry (entries.Head head.tables head.mdb)) }
{
    match read_entry(alloc, octets) {
        Ok(Entry::Head { tables, mdb }) => Some(Head { tables, mdb }),
        Ok(Entry::Rows(_rows)) => None,
        Ok(
            Entry::Fill {
                interval: _,
                base: _,
                set: _set,
            },
        ) => None,
        Ok(Entry::Seal(_seal)) => None,
        Ok(Entry::LogHead { rows: _ }) => None,
        Err(_) => None,
    }
}

/// The packet that octets begin with, which has data.
fn first_of(alloc: Global, octets: &[u8]) -> Option<Octets>
    ensures packet { IfSome result IsPacket }
    ensures carries { IfSome result (λ packet. is_idle packet ≡ false) }
{
    let Ok(len) = first_packet(octets) else {
        return None;
    };
    let (packet, _) = octets.split_at(len);
    if is_idle_packet(packet) {
        return None;
    }
    match Octets::from_slice(alloc, packet) {
        Ok(octets) => Some(octets),
        Err(_) => None,
    }
}

/// The packet of a number.
fn packet(alloc: Global, number: u64) -> Option<Octets>
    ensures packet { IfSome result IsPacket }
    ensures carries { IfSome result (λ packet. is_idle packet ≡ false) }
{
    if number < 5 {
        first_of(alloc, timed(number))
    } else {
        first_of(alloc, &untimed(number))
    }
}

fn tables_of(alloc: Global, head: &Head, tables: &[u8]) -> Option<PacketTables>
    ensures few { IfSome result (λ list. length list ≤ 16) }
    ensures each { IfSome result (λ list. AllByRecursion (λ table. table < length head.now.tables) list) }
{
    let count = head.tables.as_slice().len();
    if tables.len() > 16 {
        return None;
    }
    let mut list = PacketTables::new();
    for table in tables {
        if *table as usize >= count {
            return None;
        }
        let Ok(()) = list.push(*table) else {
            return None;
        };
    }
    Some(list)
}

/// A packet of link 1 that is received at a time and comes into tables, behind any history.
fn arrival(alloc: Global, head: &Head, rectime: i64, number: u64, tables: &[u8]) -> Option<Arrival>
    ensures { IfSome result (λ arrival. (history : List Item) → IsArrival head.now history rectime arrival) }
{
    if head.mdb.containers() == 0 {
        return None;
    }
    let packet = packet(alloc, number)?;
    let tables = tables_of(alloc, head, tables)?;
    let row = received_row(packet, rectime, 1, 0);
    Some(Arrival { row, tables })
}

/// When packets were received, in milliseconds, which packets, and the tables that they go into.
pub type Incoming = (u32, &'static [u64], &'static [u8]);

/// The arrivals of packets that are received at a time and come into tables.
fn arrivals(
    alloc: Global,
    head: &Head,
    rectime: i64,
    numbers: &[u64],
    tables: &[u8],
) -> Option<Arrivals>
    requires { length numbers.now ≤ 64 }
    ensures few { IfSome result (λ arrivals. length arrivals ≤ 64) }
    ensures each { IfSome result (λ arrivals. (history : List Item) →
        AllByRecursion (IsArrival head.now history rectime) arrivals) }
{
    let mut arrivals = Arrivals::new(alloc);
    for number in numbers {
        let arrival = arrival(alloc, head, rectime, *number, tables)?;
        let Ok(()) = arrivals.push(arrival) else {
            return None;
        };
    }
    Some(arrivals)
}

/// The batch of at most 64 packets.
pub(crate) fn batch(alloc: Global, head: &Head, incoming: &Incoming) -> Option<Batch>
    ensures { IfSome result (λ batch. (history : List Item) → IsBatch head.now history batch) }
{
    let (rectime, numbers, tables) = *incoming;
    if numbers.len() > 64 {
        return None;
    }
    let rectime = rectime as i64;
    Some(Batch {
        rectime,
        arrivals: arrivals(alloc, head, rectime, numbers, tables)?,
    })
}

/// The name of these octets.
pub(crate) fn name(alloc: Global, octets: &[u8]) -> Option<Name> {
    match Octets::from_slice(alloc, octets) {
        Ok(octets) => Name::of(octets),
        Err(_) => None,
    }
}

/// The refusals that these tests meet.
pub(crate) fn text_of(refusal: &Refusal) -> &'static str {
    match refusal {
        Refusal::NoArchive => "no archive",
        Refusal::Exists => "exists",
        Refusal::Damaged { file: 0, at: 0 } => "damaged 0 0",
        Refusal::DiskFault => "disk fault",
        Refusal::NeedsReopen { faults: 1 } => "needs reopen 1",
        Refusal::Limit {
            which: Which::IntervalRows,
            number: 262_144,
        } => "limit IntervalRows 262144",
        Refusal::BadRange { from: 5, to: 4 } => "bad range 5 4",
        Refusal::UnknownTable { .. } => "unknown table",
        _ => "another",
    }
}

/// An archive without packets whose head these octets spell, or the disk and the refusal.
pub(crate) fn created_with<D: Disk>(
    alloc: Global,
    disk: D,
    octets: &[u8],
) -> Result<Store<D>, (D, &'static str)>
    ensures { IfOk result (λ store. store.fills ≡ []) }
{
    let Some(head) = head_of(alloc, octets) else {
        return Err((disk, "no head"));
    };
    match Store::create(alloc, disk, head) {
        Ok(store) => Ok(store),
        Err((disk, refusal)) => Err((disk, text_of(&refusal))),
    }
}

/// The same with the head of these tests.
pub(crate) fn created<D: Disk>(alloc: Global, disk: D) -> Result<Store<D>, (D, &'static str)>
    ensures { IfOk result (λ store. store.fills ≡ []) }
{
    created_with(alloc, disk, head_octets())
}

/// The archive of a disk, or the disk and the refusal.
pub(crate) fn opened<D: Disk>(alloc: Global, disk: D) -> Result<Store<D>, (D, &'static str)> {
    match Store::open(alloc, disk) {
        Ok(store) => Ok(store),
        Err((disk, refusal)) => Err((disk, text_of(&refusal))),
    }
}

/// A disk in memory, as functions see it that are generic in what a disk owns.
pub(crate) trait InMemory: Disk + Drop {
    /// How many calls were made.
    fn calls(&self) -> u64;

    /// How many of them were kept.
    fn kept(&self) -> usize;

    /// What a crash leaves after so many of these.
    fn image(&self, moment: usize, crash: Crash) -> Option<MemDisk>;
}

impl InMemory for MemDisk {
    fn calls(&self) -> u64 {
        self.made()
    }

    fn kept(&self) -> usize {
        self.moments()
    }

    fn image(&self, moment: usize, crash: Crash) -> Option<MemDisk> {
        if moment > self.moments() {
            return None;
        }
        match self.crashed(moment, crash) {
            Ok(image) => Some(image),
            Err(_) => None,
        }
    }
}

/// A disk whose calls of these numbers fail.
pub(crate) fn failing_at(alloc: Global, calls: &[u64]) -> Option<MemDisk> {
    match Vec::from_slice(alloc, calls) {
        Ok(calls) => Some(MemDisk::failing(alloc, calls)),
        Err(_) => None,
    }
}

/// Ends a test: with a failure where a row of its table goes otherwise.
pub(crate) fn none_other<T: Display + Drop>(other: Option<T>) -> Result<(), Fail> {
    match other {
        None => Ok(()),
        Some(other) => Err(Fail::new(other)),
    }
}
