//! Answers that readers gave while other jobs ran, printed once all have ended.

ghost use Rattle.std.specs.Prelude.{◌≡◌, ◌<◌, ◌++◌, [], OnErr, length};
ghost use Rattle.archive_store.specs.StoreView.{archive_of};
ghost use Rattle.retrieval.specs.FoundAsks.{AreFound, IsAskFound, ask_found, asks_found};
ghost use Rattle.line_buffer.specs.LineRoom.{HasLineRoom};
ghost use Rattle.line_buffer.specs.Printed.{PrintsText};
ghost use Rattle.ask_answers.specs.Collected.{AreAnswersTo, IsAnswerTo, collected_answer_text, collected_answers_text};

use arch_disk::Disk;
use archive_store::Store;
use line_buffer::LineBuffer;
use live_asks::AskAnswer;
use outer_traits::print_fault::PrintFault;
use outer_traits::sink::Sink;
use retrieval::answer_text::print_found;
use retrieval::found_asks::FoundAsk;
use retrieval::replay::print_replayed;
use std::alloc::Global;

/// Prints answers in the order of their asks, numbered from 1, of which the last may still be buffered. Where there's
/// none it always succeeds.
pub fn print_collected_answers<D: Disk, K: Sink>(
    alloc: Global,
    asks: &[FoundAsk],
    answers: &[AskAnswer],
    store: &Store<D>,
    line_buffer: &mut LineBuffer,
    sink: &mut K,
) -> Result<(), PrintFault>
    requires found { AreFound store.now.head store.now.history asks.now }
    requires answered { AreAnswersTo (asks_found asks.now) answers.now }
    requires empty { line_buffer.old ≡ [] }
    ensures printed { PrintsText result (K.state sink.old) (K.state sink.new)
        (collected_answers_text (archive_of store.now) 1 (asks_found asks.now) answers.now) line_buffer.new }
    ensures asked { OnErr result (0 < length (asks_found asks.now)) }
{
    for (i, ask) in asks.iter().enumerate() {
        print_collected_answer(
            alloc,
            i as u64 + 1,
            ask,
            &answers[i],
            store,
            line_buffer,
            sink,
        )?;
    }
    Ok(())
}

/// Prints the answer to the ask with number `k`, counted from 1. The answer's end may still be buffered.
fn print_collected_answer<D: Disk, K: Sink>(
    alloc: Global,
    k: u64,
    ask: &FoundAsk,
    answer: &AskAnswer,
    store: &Store<D>,
    line_buffer: &mut LineBuffer,
    sink: &mut K,
) -> Result<(), PrintFault>
    requires found { IsAskFound store.now.head store.now.history ask.now }
    requires answered { IsAnswerTo (ask_found ask.now) answer.now }
    requires room { HasLineRoom line_buffer.old }
    ensures { PrintsText result (K.state sink.old) (K.state sink.new)
        (line_buffer.old ++ collected_answer_text (archive_of store.now) k (ask_found ask.now) answer.now)
        line_buffer.new }
{
    match (ask, answer) {
        (FoundAsk::Values(found), AskAnswer::Values(answer)) => {
            print_found(k, found, answer, line_buffer, sink)?;
        }
        (FoundAsk::Replay(found), AskAnswer::Replay(replayed)) => {
            let Ok(names) = store.names(alloc) else {
                return Err(PrintFault::OutOfMemory);
            };
            let rows = replayed.rows.as_slice();
            let table = &found.request.table;
            print_replayed(k, replayed.front, &names, table, rows, line_buffer, sink)?;
        }
        _ => unreachable!(),
    }
    Ok(())
}
