//! Laws of the definitions, carried by functions that do nothing.

ghost use Rattle.archive_core.specs.Laws.{CellsAreOfRows, CellsAreThoseBelow, FilledCellsStay};
ghost use Rattle.archive_core.specs.Laws.{ReplyIsOne, RepliesAreOne, AlikeStatesReplyAlike, FaultsChangeNoReply};
ghost use Rattle.archive_core.specs.Laws.{StepsKeepMachine, StepsOnlyAdd, RunsKeepInvariant, SettlingIsAbandons, RunsInTurn};

/// An interval's cells are those of its rows.
pub fn cells_are_of_rows()
    ensures { CellsAreOfRows }
{}

/// Where no row of an interval stands at or after a front, its cells are those of the rows below the front.
pub fn cells_are_those_below()
    ensures { CellsAreThoseBelow }
{}

/// An interval that was filled and isn't late has the cells that its last fill had.
pub fn filled_cells_stay()
    ensures { FilledCellsStay }
{}

/// An event has one reply in a state, and one state comes next.
pub fn reply_is_one()
    ensures { ReplyIsOne }
{}

/// Events one after the other have one list of replies, and lead to one state.
pub fn replies_are_one()
    ensures { RepliesAreOne }
{}

/// What a state replies, one with the same history, bases and flights replies too.
pub fn alike_states_reply_alike()
    ensures { AlikeStatesReplyAlike }
{}

/// Neither a fault that is noted nor a reopen changes a reply.
pub fn faults_change_no_reply()
    ensures { FaultsChangeNoReply }
{}

/// A step keeps what holds of every state.
pub fn steps_keep_machine()
    ensures { StepsKeepMachine }
{}

/// A step only adds to the history and to the fill list.
pub fn steps_only_add()
    ensures { StepsOnlyAdd }
{}

/// Each state that a run from the first state leads to keeps the invariant.
pub fn runs_keep_invariant()
    ensures { RunsKeepInvariant }
{}

/// The end of all flights is a run in which each task in flight is given up.
pub fn settling_is_abandons()
    ensures { SettlingIsAbandons }
{}

/// A run over events and more events is one over each in turn.
pub fn runs_in_turn()
    ensures { RunsInTurn }
{}
