//! What is taken before an archive of made packets is made.

ghost use Rattle.std.specs.Prelude.{◌≡◌, ◌≤◌, [], ◌∷◌, codes, IfOk};
ghost use Rattle.field_codec.specs.declared.entry.Entry.TheVariants as entries;
ghost use Rattle.field_codec.specs.Entries.{IsArchiveEntry};
ghost use Rattle.mdb_items.specs.Database.{IsDatabase};
ghost use Rattle.mdb_model.specs.Sheets.{sheets_database};
ghost use Rattle.dump_maker.specs.Sheets.{made_sheets};
ghost use Rattle.stream_graph.specs.Routes.{every_packet_route};
ghost use Rattle.make_command.specs.Made.{dumps_of_seed, made_head, two_dumps};

use crate::made_source::MadeSource;
use arch_types::name::{Name, Names};
use archive_store::Head;
use dump_maker::dumps::{Dumps, make};
use dump_maker::sheets::make_sheets;
use line_buffer::LineBuffer;
use mdb_model::{Mdb, MdbFault};
use std::alloc::{AllocError, Global};
use stream_graph::graph::Graph;

/// How many packets a dump has.
const PACKETS: u32 = 20_000;

/// How many links send them.
const LINKS: u8 = 2;

/// What is taken before the disk is asked: the head of the archive, the dumps as sources, the route of every packet
/// into `tm`, and room for a line.
#[derive(Drop)]
pub(crate) struct Prepared {
    pub(crate) head: Head,
    pub(crate) sources: Vec<MadeSource>,
    pub(crate) graph: Graph,
    pub(crate) line_buffer: LineBuffer,
}

impl Prepared {
    /// What an archive of the packets of a seed wants. The one error is want of memory.
    pub(crate) fn of_seed(alloc: Global, seed: u32) -> Result<Self, AllocError>
        ensures head { IfOk result (λ p. p.head ≡ made_head) }
        ensures fits { IfOk result (λ p. IsArchiveEntry (entries.Head p.head.tables p.head.mdb)) }
        ensures sources { IfOk result (λ p. p.sources.items ≡ dumps_of_seed seed) }
        ensures graph { IfOk result (λ p. p.graph ≡ every_packet_route) }
        ensures line { IfOk result (λ p. p.line_buffer ≡ []) }
    {
        Ok(Prepared {
            head: head(alloc)?,
            sources: sources(alloc, two_dumps(alloc, seed, PACKETS)?)?,
            graph: Graph::every_packet(alloc)?,
            line_buffer: LineBuffer::new(alloc)?,
        })
    }
}

/// The head: table `tm`, and the database of made packets.
fn head(alloc: Global) -> Result<Head, AllocError>
    ensures head { IfOk result (λ head. head ≡ made_head) }
    ensures fits { IfOk result (λ head. IsArchiveEntry (entries.Head head.tables head.mdb)) }
{
    let tables = tables(alloc)?;
    let mdb = database(alloc)?;
    Ok(Head { tables, mdb })
}

/// The one table.
fn tables(alloc: Global) -> Result<Names, AllocError>
    ensures { IfOk result (λ tables. tables ≡ codes "tm" ∷ []) }
{
    let mut tables = Names::new(alloc);
    tables.push(Name::copy_of(alloc, b"tm")?)?;
    Ok(tables)
}

/// The database of made packets.
fn database(alloc: Global) -> Result<Mdb, AllocError>
    ensures database { IfOk result (λ mdb. mdb ≡ sheets_database made_sheets) }
    ensures sound { IfOk result (λ mdb. IsDatabase mdb) }
{
    let sheets = make_sheets(alloc)?;
    match Mdb::check(alloc, &sheets) {
        Ok(mdb) => {
            mdb.is_sound();
            Ok(mdb)
        }
        Err(MdbFault::OutOfMemory) => Err(AllocError),
        // the sheets break no rule and pass no limit
        Err(MdbFault::Bad { .. }) => unreachable!(),
        Err(MdbFault::Limit { .. }) => unreachable!(),
    }
}

/// The dumps of both links, of so many packets each.
fn two_dumps(alloc: Global, seed: u32, packets: u32) -> Result<Dumps, AllocError>
    requires { (1 ≤ packets) × (packets ≤ 1000000) }
    ensures { IfOk result (λ dumps. dumps ≡ two_dumps seed packets) }
{
    make(alloc, seed, packets, LINKS)
}

/// Dumps as sources, in their order.
fn sources(alloc: Global, dumps: Dumps) -> Result<Vec<MadeSource>, AllocError>
    ensures { IfOk result (λ sources. sources.items ≡ dumps) }
{
    let mut sources = Vec::new(alloc);
    for dump in dumps.into_vec() {
        sources.push(MadeSource::new(dump))?;
    }
    Ok(sources)
}
