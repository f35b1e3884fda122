//! The answer to a request over a store.

ghost use Rattle.std.specs.Prelude.{◌≡◌, ◌+◌, ◌≤◌, IfOk, IfErr, IsTrue, filter, length};
ghost use Rattle.arch_types.specs.Table.{is_in_time_range};
ghost use Rattle.history_items.specs.Databases.{database_in};
ghost use Rattle.history_items.specs.Items.{rows_in};
ghost use Rattle.store_fills.specs.LastFills.{fillings_in};
ghost use Rattle.archive_store.specs.Finding.{IsRequestFound};
ghost use Rattle.archive_store.specs.Pages.{TellsRows};
ghost use Rattle.archive_store.specs.Plans.{late_rows_of_range};
ghost use Rattle.archive_store.specs.UnreadRows.{IsLeftByRead, IsReadFault};
ghost use Rattle.archive_store.specs.Stands.{IsSoundImage};
ghost use Rattle.container_extract.specs.Answer.{answer_of};
ghost use Rattle.retrieval.specs.FilledAnswer.{IsFilledAnswer};

use arch_disk::Disk;
use arch_types::row_fault::RowFault;
use arch_types::steps::Steps;
use archive_store::{FoundRequest, Store};
use asks::Answer;
use part_answers::answer::answer;
use std::alloc::Global;
use std::sync::ledger::Ledger;

/// The answer over the whole history of a store to a request that was found in the database in force: over the sets of the
/// intervals that its range meets, and the rows of those that are late, in a step for each late row of the range at most.
pub fn answer_request<D: Disk, L: Ledger>(
    alloc: Global,
    store: &mut Store<D>,
    found: &FoundRequest,
    steps: &mut Steps<L>,
) -> Result<Answer, RowFault>
    requires found { IsRequestFound (database_in store.old.head.mdb store.old.history) found.now }
    ensures filled { TellsRows D.device store.old → IfOk result (IsFilledAnswer
        (database_in store.old.head.mdb store.old.history) store.old.exponent store.old.history
        (fillings_in store.old.filled) found.now.request) }

    // Where the fills of the disk were sound when it was opened, the cells are those that the range's rows give.
    ensures answered { IfOk result (λ answer.
        IsTrue D.device.is_transparent → IsSoundImage (D.device.reads store.old.opened) → answer.cells ≡
        answer_of (database_in store.old.head.mdb store.old.history) found.now.number found.now.request
        (rows_in store.old.history)) }
    ensures refused { IfErr result (IsReadFault D.device store.old store.new) }
    ensures same { IsLeftByRead D.device store.old store.new result }

    // No row of a filled interval takes one.
    ensures steps { TellsRows D.device store.old → steps.new ≤ steps.old + length (filter
        (is_in_time_range found.now.request.from found.now.request.to) (late_rows_of_range store.old.exponent
        store.old.history store.old.fills found.now.request.from found.now.request.to)) }
{
    store.is_kept();
    let plan = store.plan(alloc, found)?;
    Ok(answer(alloc, plan, found.number, &found.request, steps)?)
}
