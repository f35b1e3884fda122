//! A sheet of asks: found in an archive's store, and answered over its history and its fills.

ghost use Rattle.std.specs.Prelude.{◌≡◌, ◌+◌, ◌<◌, ◌≤◌, [], OnErr, OnOk, IfOk, IfErr, length, sum_by};
ghost use Rattle.arch_disk.specs.Disk.{NoFault};
ghost use Rattle.history_items.specs.Databases.{database_in};
ghost use Rattle.asks.specs.declared.ask.Ask.TheVariants.{Values};
ghost use Rattle.archive_store.specs.Finding.{IsRequestFound};
ghost use Rattle.archive_store.specs.Pages.{TellsRows};
ghost use Rattle.archive_store.specs.PrintFaults.{IsPrintFault};
ghost use Rattle.archive_store.specs.StoreView.{archive_of, filled_of};
ghost use Rattle.archive_store.specs.UnreadRows.{IsReadOn};
ghost use Rattle.retrieval.specs.FoundAsks.{AreFound, IsAskFound, ask_found, asks_found};
ghost use Rattle.line_buffer.specs.Printed.{PrintsRows};
ghost use Rattle.ask_answers.specs.Asks.{AreAnswerable, AreRefused, archive_ask_text, archive_asks_text, steps_of_ask};
ghost use Rattle.line_buffer.specs.LineRoom.{HasLineRoom};

use arch_disk::Disk;
use arch_types::steps::Steps;
use archive_store::print_faults::print_fault_of;
use archive_store::{FoundRequest, Store};
use asks::Asks;
use line_buffer::LineBuffer;
use outer_traits::print_fault::PrintFault;
use outer_traits::sink::Sink;
use refusals::Refusal;
use retrieval::answer::answer_request;
use retrieval::answer_text::print_found;
use retrieval::found_asks::{FoundAsk, FoundAsks, find_asks};
use retrieval::replay::print_replay;
use std::alloc::Global;
use std::sync::ledger::Ledger;

/// The asks of a sheet, where neither it nor one of them is refused. Each is found once, before the first is answered.
pub fn check_asks<D: Disk>(
    alloc: Global,
    store: &Store<D>,
    sheet: Result<Asks, Refusal>,
) -> Result<FoundAsks, Refusal>
    ensures found { IfOk result (AreFound store.now.head store.now.history) }
    ensures answerable { IfOk result (λ asks.
        AreAnswerable (archive_of store.now) sheet (asks_found asks)) }
    ensures refused { IfErr result (AreRefused (archive_of store.now) sheet) }
{
    match sheet {
        Ok(asks) => find_asks(alloc, store, asks),
        Err(refusal) => Err(refusal),
    }
}

/// Prints the answers to asks, numbered from 1, of which the last may still be buffered. Where there's none it always
/// succeeds.
pub fn print_asks<D: Disk, K: Sink, L: Ledger>(
    alloc: Global,
    asks: &[FoundAsk],
    store: &mut Store<D>,
    line_buffer: &mut LineBuffer,
    sink: &mut K,
    steps: &mut Steps<L>,
) -> Result<(), PrintFault>
    requires found { AreFound store.old.head store.old.history asks.now }
    requires empty { line_buffer.old ≡ [] }
    ensures printed { PrintsRows (TellsRows D.device store.old) result (K.state sink.old) (K.state sink.new)
        [] (archive_asks_text (filled_of store.old) 1 (asks_found asks.now)) line_buffer.new }
    ensures asked { OnErr result (0 < length (asks_found asks.now)) }
    ensures refused { IfErr result (IsPrintFault D.device store.old store.new) }
    ensures no_fault { OnOk result (NoFault D.device store.old.disk store.new.disk) }
    ensures same { IsReadOn D.device store.old store.new }
    ensures steps { TellsRows D.device store.old →
        steps.new ≤ steps.old + sum_by (steps_of_ask store.old) asks.now }
{
    for (i, ask) in asks.iter().enumerate() {
        print_ask(alloc, i as u64 + 1, ask, store, line_buffer, sink, steps)?;
    }
    Ok(())
}

/// Prints the answer to the ask with number `k`, counted from 1. The answer's end may still be buffered.
fn print_ask<D: Disk, K: Sink, L: Ledger>(
    alloc: Global,
    k: u64,
    ask: &FoundAsk,
    store: &mut Store<D>,
    line_buffer: &mut LineBuffer,
    sink: &mut K,
    steps: &mut Steps<L>,
) -> Result<(), PrintFault>
    requires found { IsAskFound store.old.head store.old.history ask.now }
    requires room { HasLineRoom line_buffer.old }
    ensures printed { PrintsRows (TellsRows D.device store.old) result (K.state sink.old) (K.state sink.new)
        line_buffer.old (archive_ask_text (filled_of store.old) k (ask_found ask.now)) line_buffer.new }
    ensures refused { IfErr result (IsPrintFault D.device store.old store.new) }
    ensures no_fault { OnOk result (NoFault D.device store.old.disk store.new.disk) }
    ensures same { IsReadOn D.device store.old store.new }
    ensures steps { TellsRows D.device store.old → steps.new ≤ steps.old + steps_of_ask store.old ask.now }
{
    match ask {
        FoundAsk::Values(found) => print_values(alloc, k, found, store, line_buffer, sink, steps),
        FoundAsk::Replay(found) => print_replay(alloc, k, found, store, line_buffer, sink),
    }
}

/// Prints the answer to a request that was found, the ask with number `k`. The answer's end may still be buffered.
fn print_values<D: Disk, K: Sink, L: Ledger>(
    alloc: Global,
    k: u64,
    found: &FoundRequest,
    store: &mut Store<D>,
    line_buffer: &mut LineBuffer,
    sink: &mut K,
    steps: &mut Steps<L>,
) -> Result<(), PrintFault>
    requires found { IsRequestFound (database_in store.old.head.mdb store.old.history) found.now }
    requires room { HasLineRoom line_buffer.old }
    ensures printed { PrintsRows (TellsRows D.device store.old) result (K.state sink.old) (K.state sink.new)
        line_buffer.old (archive_ask_text (filled_of store.old) k (Values found.now.request)) line_buffer.new }
    ensures refused { IfErr result (IsPrintFault D.device store.old store.new) }
    ensures no_fault { OnOk result (NoFault D.device store.old.disk store.new.disk) }
    ensures same { IsReadOn D.device store.old store.new }
    ensures steps { TellsRows D.device store.old →
        steps.new ≤ steps.old + steps_of_ask store.old (FoundAsk.Values found.now) }
{
    match answer_request(alloc, store, found, steps) {
        Ok(answer) => Ok(print_found(k, found, &answer, line_buffer, sink)?),
        Err(fault) => Err(print_fault_of(fault)),
    }
}
