//! Laws of the definitions, carried by functions that do nothing.

ghost use Rattle.replay_merge.specs.Laws.{EndHasNoRest, ListedIsAmong, PrunedIsEnough, RestAtFront};

/// What is left of a replay is the same of all histories that are the same up to its front.
pub fn rest_at_front()
    ensures { RestAtFront }
{}

/// At the end nothing is left of a replay.
pub fn end_has_no_rest()
    ensures { EndHasNoRest }
{}

/// The test of packet names is whether a name is among those listed.
pub fn listed_is_among()
    ensures { ListedIsAmong }
{}

/// Partitions that were pruned to the bounds hold each row that is asked by the bounds.
pub fn pruned_is_enough()
    ensures { PrunedIsEnough }
{}
