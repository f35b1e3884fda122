//! The sheet of asks.

ghost use Rattle.std.specs.Prelude.{◌≡◌, ◌<◌, ◌^◌, drop};
ghost use Rattle.mdb_model.specs.Sheets.{are_texts};
ghost use Rattle.command_plans.specs.Inputs.{AnsweredByPlan};
ghost use Rattle.mdb_sheets.specs.Asks.{IsAsksResult, IsAskRowsResult, IsSheetAnswer, is_ask_header};
ghost use Rattle.mdb_sheets.specs.Plans.{ask_sheet_plan};
ghost use Rattle.mdb_sheets.specs.Sheets.{sheet_of};

use crate::ask_row::{AskFault, read_ask};
use crate::records::records;
use asks::Asks;
use command_plans::is_interruption;
use command_plans::read::refusal_of;
use mdb_model::{Sheet, SheetRecord};
use outer_traits::inputs::Inputs;
use outer_traits::whole::read_input;
use refusals::{Refusal, SheetName, Which};
use std::alloc::Global;

/// Two neighbouring fields are these texts.
fn are_texts(row: &SheetRecord<'_>, place: usize, first: &[u8], second: &[u8]) -> bool
    requires { place < 2 ^ 32 }
    ensures { result ≡ are_texts row.now place first.now second.now }
{
    row.field(place) == first && row.field(place + 1) == second
}

fn is_ask_header(row: &SheetRecord<'_>) -> bool
    ensures { result ≡ is_ask_header row.now }
{
    row.len() == 7
        && (are_texts(row, 0, b"kind", b"name")
            && (are_texts(row, 2, b"from", b"to")
                && (are_texts(row, 4, b"order", b"limit") && row.field(6) == b"names".as_slice())))
}

fn broken(row: usize, rule: u8) -> Refusal
    ensures { result ≡ Refusal.BadSheet SheetName.Asks row rule }
{
    Refusal::BadSheet {
        sheet: SheetName::Asks,
        row: row as u64,
        rule,
    }
}

/// The asks of the rows below the header.
fn asks_below(alloc: Global, sheet: &Sheet) -> Result<Asks, Refusal>
    ensures { IsAskRowsResult (drop 1 sheet.now) result }
{
    let mut asks = Asks::new(alloc);
    for place in 1..sheet.len() {
        match read_ask(alloc, &sheet.record(place)) {
            Ok(ask) => asks.push(ask)?,
            Err(AskFault::Broken(rule)) => return Err(broken(place + 1, rule)),
            Err(AskFault::OutOfMemory) => return Err(Refusal::OutOfMemory),
        }
    }
    Ok(asks)
}

/// The asks of a sheet.
pub(crate) fn asks_of(alloc: Global, sheet: &Sheet) -> Result<Asks, Refusal>
    ensures { IsAsksResult sheet.now result }
{
    if sheet.len() == 0 {
        return Err(broken(1, 1));
    }
    if !is_ask_header(&sheet.record(0)) {
        return Err(broken(1, 1));
    }
    let asks = asks_below(alloc, sheet)?;
    if asks.as_slice().len() as u64 > Which::Asks.limit() {
        return Err(Refusal::Limit {
            which: Which::Asks,
            number: Which::Asks.limit(),
        });
    }
    Ok(asks)
}

/// The asks of a sheet's octets.
fn asks_in(alloc: Global, octets: &[u8]) -> Result<Asks, Refusal>
    ensures { IsAsksResult (sheet_of octets.now) result }
{
    match records(alloc, octets) {
        Ok(sheet) => asks_of(alloc, &sheet),
        Err(_) => Err(Refusal::OutOfMemory),
    }
}

/// The asks of the named sheet, or why they are refused: `BadSheet` with the first rule broken, by rows and in a row from the left; then `Limit` of
/// `Asks` where there are more than 256. A sheet that isn't read is refused by `Missing`, by `ReadFault`, or by `Limit` of `SheetOctets` where it is
/// longer than 4,194,304 octets, whichever its reads meet first. It is opened once, and its source is closed whatever comes.
pub fn read_asks<I: Inputs>(
    alloc: Global,
    inputs: &mut I,
    name: &str,
) -> Result<Result<Asks, Refusal>, Refusal>
    // It took a way through its plan, and used the inputs as far as that went.
    ensures read { AnsweredByPlan 1 (ask_sheet_plan (I.state inputs.old).files name.now) result (I.state inputs.old)
        (I.state inputs.new) }
{
    match read_input(alloc, inputs, name, Which::SheetOctets.limit() as usize) {
        Ok(octets) => sheet_asks(asks_in(alloc, octets.as_slice())),
        Err(fault) => Err(refusal_of(alloc, fault, name, Which::SheetOctets)),
    }
}

/// The asks of a sheet or why they are refused, but for want of memory, which interrupts the reading.
fn sheet_asks(asks: Result<Asks, Refusal>) -> Result<Result<Asks, Refusal>, Refusal>
    ensures { IsSheetAnswer asks result }
{
    match asks {
        Ok(asks) => Ok(Ok(asks)),
        Err(refusal) => {
            if is_interruption(&refusal) {
                Err(refusal)
            } else {
                Ok(Err(refusal))
            }
        }
    }
}
