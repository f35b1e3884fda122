//! What an ask names, looked up once.

ghost use Rattle.std.specs.Prelude.{◌≡◌, IfOk, IfErr, Some};
ghost use Rattle.std.specs.Arc.{arc_value};
ghost use Rattle.asks.specs.Refusals.{replay_refusal, request_refusal};
ghost use Rattle.history_items.specs.Databases.{database_in};
ghost use Rattle.archive_store.specs.Finding.{IsNotFound, IsReplayFound, IsRequestFound, refusal_of_ask};

use crate::store::Store;
use arch_disk::Disk;
use asks::{AskRefusal, ReplayRequest, Request, range_refusal, table_number};
use mdb_model::Mdb;
use refusals::Refusal;
use std::alloc::Global;
use std::sync::Arc;

/// A request, with the parameter that it names.
#[derive(Drop)]
pub struct FoundRequest {
    pub request: Request,
    /// The database in which the parameter was found.
    pub mdb: Arc<Mdb, Global>,
    /// The parameter's number in it.
    pub number: u16,
}

/// A request for rows, with the table that it names.
#[derive(Drop)]
pub struct FoundReplay {
    pub request: ReplayRequest,
    /// The table's number.
    pub table: u8,
}

/// The refusal of an archive for that of an ask.
pub fn refusal_of_ask(refusal: AskRefusal) -> Refusal
    ensures { result ≡ refusal_of_ask refusal }
{
    match refusal {
        AskRefusal::UnknownParameter => Refusal::UnknownParameter,
        AskRefusal::BadRange { from, to } => Refusal::BadRange { from, to },
        AskRefusal::UnknownTable { name } => Refusal::UnknownTable { name },
    }
}

impl FoundRequest {
    /// Finds the parameter of a request in a database, and asks whether its range is one.
    pub fn of(mdb: &Arc<Mdb, Global>, request: Request) -> Result<FoundRequest, Refusal>
        ensures found { IfOk result (IsRequestFound (arc_value mdb.now)) }
        ensures asked { IfOk result (λ found. found.request ≡ request) }

        // Refused by UnknownParameter, or else by BadRange; for want of memory where it is neither.
        ensures refused { IfErr result (IsNotFound (request_refusal (arc_value mdb.now) request)) }
    {
        let Some(number) = mdb.parameter_number(request.parameter.as_str()) else {
            return Err(Refusal::UnknownParameter);
        };
        if let Some(refusal) = range_refusal(request.from, request.to) {
            return Err(refusal_of_ask(refusal));
        }
        let mdb = Arc::try_clone(mdb)?;
        Ok(FoundRequest {
            request,
            mdb,
            number,
        })
    }
}

impl<D: Disk> Store<D> {
    /// Finds the parameter of a request in the database in force, and asks whether its range is one.
    pub fn find(&self, request: Request) -> Result<FoundRequest, Refusal>
        ensures found { IfOk result (IsRequestFound (database_in self.now.head.mdb self.now.history)) }
        ensures asked { IfOk result (λ found. found.request ≡ request) }

        // Refused by UnknownParameter, or else by BadRange; for want of memory where it is neither.
        ensures refused { IfErr result (IsNotFound (request_refusal
            (database_in self.now.head.mdb self.now.history) request)) }
    {
        FoundRequest::of(&self.mdb, request)
    }

    /// Finds the table of a request for rows, and asks whether its range is one. It takes no memory.
    pub fn find_replay(&self, request: ReplayRequest) -> Result<FoundReplay, AskRefusal>
        ensures found { IfOk result (IsReplayFound self.now.head.tables) }
        ensures asked { IfOk result (λ found. found.request ≡ request) }

        // Refused by UnknownTable, or else by BadRange.
        ensures refused { IfErr result (λ refusal. replay_refusal self.now.head.tables request ≡ Some refusal) }
    {
        let Some(table) = table_number(&self.head.tables, &request.table) else {
            return Err(AskRefusal::UnknownTable {
                name: request.table,
            });
        };
        if let Some(refusal) = range_refusal(request.from, request.to) {
            return Err(refusal);
        }
        let table = table as u8;
        Ok(FoundReplay { request, table })
    }
}
