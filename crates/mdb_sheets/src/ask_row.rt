//! One row of the sheet of asks.

ghost use Rattle.std.specs.Prelude.{◌≡◌, IfOk, Some};
ghost use Rattle.mdb_sheets.specs.Asks.{IsAskResult, ask_kind, asked_names, direction_of, is_ascending, most_of, order_of};

use crate::name_list::listed_names;
use arch_types::direction::Direction;
use arch_types::name::{Name, Names};
use arch_types::octets::Octets;
use asks::{Ask, ReplayRequest, Request};
use mdb_model::SheetRecord;
use std::alloc::{AllocError, Global};
use text_forms::number_of;
use time_text::read_time_octets;

/// Why a row is no ask.
#[derive(Drop)]
pub(crate) enum AskFault {
    /// The first rule that it breaks.
    Broken(u8),
    OutOfMemory,
}

impl From<AllocError> for AskFault {
    ghost use Rattle.std.specs.Prelude.{◌≡◌};
    ghost use Rattle.mdb_sheets.specs.declared.ask_row.AskFault.TheVariants.{OutOfMemory};

    ghost from_gives = { λ _ fault. fault ≡ OutOfMemory };

    fn from(_error: AllocError) -> AskFault {
        AskFault::OutOfMemory
    }
}

/// What is asked for: the values of a parameter, or the rows of a table.
#[derive(Clone, Copy)]
pub(crate) enum AskKind {
    Values,
    Replay,
}

fn ask_kind(text: &[u8]) -> Option<AskKind>
    ensures { result ≡ ask_kind text.now }
{
    if text == b"values".as_slice() {
        Some(AskKind::Values)
    } else if text == b"replay".as_slice() {
        Some(AskKind::Replay)
    } else {
        None
    }
}

fn is_ascending(text: &[u8]) -> bool
    ensures { result ≡ is_ascending text.now }
{
    text.is_empty() || text == b"asc".as_slice()
}

fn direction_of(text: &[u8]) -> Option<Direction>
    ensures { result ≡ direction_of text.now }
{
    if is_ascending(text) {
        Some(Direction::Ascending)
    } else if text == b"desc".as_slice() {
        Some(Direction::Descending)
    } else {
        None
    }
}

/// The direction of an ask of a kind: a replay is ascending.
#[tactic(auto, unfolding(crate::specs::Asks::order_of))]
fn order_of(kind: AskKind, text: &[u8]) -> Option<Direction>
    ensures { result ≡ order_of (Some kind) text.now }
{
    match kind {
        AskKind::Values => direction_of(text),
        AskKind::Replay => {
            if is_ascending(text) {
                Some(Direction::Ascending)
            } else {
                None
            }
        }
    }
}

/// The limit of an ask, which may be empty.
fn most_of(text: &[u8]) -> Option<Option<u64>>
    ensures { result ≡ most_of text.now }
{
    if text.is_empty() {
        return Some(None);
    }
    match number_of(18, text) {
        None => None,
        Some(number) => Some(Some(number)),
    }
}

/// The names of an ask of a kind: all where the text is empty, as that of values is.
#[tactic(auto, unfolding(crate::specs::Asks::asked_names))]
fn asked_names(
    alloc: Global,
    kind: AskKind,
    text: &[u8],
) -> Result<Option<Option<Names>>, AllocError>
    ensures { IfOk result (λ names. names ≡ asked_names (Some kind) text.now) }
{
    if text.is_empty() {
        return Ok(Some(None));
    }
    match kind {
        AskKind::Values => Ok(None),
        AskKind::Replay => match listed_names(alloc, text)? {
            Some(names) => Ok(Some(Some(names))),
            None => Ok(None),
        },
    }
}

/// The ask of a row.
#[tactic(auto, unfolding(crate::specs::Asks::ask_checks, crate::specs::Asks::ask_of))]
pub(crate) fn read_ask(alloc: Global, row: &SheetRecord<'_>) -> Result<Ask, AskFault>
    ensures { IsAskResult row.now result }
{
    if row.len() != 7 {
        return Err(AskFault::Broken(2));
    }
    let Some(kind) = ask_kind(row.field(0)) else {
        return Err(AskFault::Broken(30));
    };
    let Some(name) = Name::of(Octets::from_slice(alloc, row.field(1))?) else {
        return Err(AskFault::Broken(3));
    };
    let Ok(from) = read_time_octets(row.field(2)) else {
        return Err(AskFault::Broken(31));
    };
    let Ok(to) = read_time_octets(row.field(3)) else {
        return Err(AskFault::Broken(31));
    };
    let Some(direction) = order_of(kind, row.field(4)) else {
        return Err(AskFault::Broken(32));
    };
    let Some(limit) = most_of(row.field(5)) else {
        return Err(AskFault::Broken(33));
    };
    let Some(names) = asked_names(alloc, kind, row.field(6))? else {
        return Err(AskFault::Broken(34));
    };
    match kind {
        AskKind::Values => Ok(values(name, from, to, direction, limit)),
        AskKind::Replay => Ok(replay(name, from, to, names, limit)),
    }
}

/// The ask for the values of a parameter.
fn values(parameter: Name, from: i64, to: i64, direction: Direction, limit: Option<u64>) -> Ask
    ensures { result ≡ Ask.Values (record {
      parameter = parameter;
      from = from;
      to = to;
      direction = direction;
      limit = limit;
    }) }
{
    Ask::Values(Request {
        parameter,
        from,
        to,
        direction,
        limit,
    })
}

/// The ask for the rows of a table.
fn replay(table: Name, from: i64, to: i64, names: Option<Names>, limit: Option<u64>) -> Ask
    ensures { result ≡ Ask.Replay (record {
      table = table;
      from = from;
      to = to;
      names = names;
      limit = limit;
    }) }
{
    Ask::Replay(ReplayRequest {
        table,
        from,
        to,
        names,
        limit,
    })
}
