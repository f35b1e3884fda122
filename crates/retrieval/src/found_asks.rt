//! Asks, each of which is found before the first is answered.

ghost use Rattle.std.specs.Prelude.{◌≡◌, ◌⊎◌, IfOk, IfErr, None, Some};
ghost use Rattle.refusals.specs.declared.refusal.Refusal.TheVariants.{OutOfMemory};
ghost use Rattle.asks.specs.Refusals.{ask_refusal};
ghost use Rattle.history_items.specs.Databases.{database_in};
ghost use Rattle.archive_store.specs.Finding.{IsNotFound};
ghost use Rattle.retrieval.specs.AskText.{asks_refusal};
ghost use Rattle.retrieval.specs.FoundAsks.{AreFound, IsAskFound, ask_found, asks_found};

use arch_disk::Disk;
use archive_store::{FoundReplay, FoundRequest, Store, refusal_of_ask};
use asks::{Ask, Asks};
use item_list::Items;
use refusals::Refusal;
use std::alloc::Global;

/// An ask whose parameter or table was found.
#[derive(Drop)]
pub enum FoundAsk {
    Values(FoundRequest),
    Replay(FoundReplay),
}

/// Such asks in the order of their sheet.
pub type FoundAsks = Items<FoundAsk>;

/// Finds what asks name in a store, each once.
pub fn find_asks<D: Disk>(alloc: Global, store: &Store<D>, asks: Asks) -> Result<FoundAsks, Refusal>
    // Ok: each was found, and none is refused.
    ensures found { IfOk result (AreFound store.now.head store.now.history) }
    ensures asked { IfOk result (λ found. asks_found found ≡ asks) }
    ensures answerable { IfOk result (λ _. asks_refusal store.now.head store.now.history asks ≡ None) }

    // Refused by the first that is refused, or for want of memory.
    ensures refused { IfErr result (λ refusal.
        (asks_refusal store.now.head store.now.history asks ≡ Some refusal) ⊎ (refusal ≡ OutOfMemory)) }
{
    let mut found = FoundAsks::new(alloc);
    for ask in asks.into_vec() {
        let one = find_ask(store, ask)?;
        found.push(one)?;
    }
    Ok(found)
}

/// Finds what an ask names.
fn find_ask<D: Disk>(store: &Store<D>, ask: Ask) -> Result<FoundAsk, Refusal>
    ensures found { IfOk result (IsAskFound store.now.head store.now.history) }
    ensures asked { IfOk result (λ found. ask_found found ≡ ask) }
    ensures refused { IfErr result (IsNotFound (ask_refusal store.now.head.tables
        (database_in store.now.head.mdb store.now.history) ask)) }
{
    match ask {
        Ask::Values(request) => Ok(FoundAsk::Values(store.find(request)?)),
        Ask::Replay(request) => match store.find_replay(request) {
            Ok(found) => Ok(FoundAsk::Replay(found)),
            Err(refusal) => Err(refusal_of_ask(refusal)),
        },
    }
}
