//! Laws of the definitions, carried by functions that do nothing.

ghost use Rattle.retrieval.specs.Laws.{DatabaseLimitsAgree, FilledIsAnswered, PlannedIsAnswered};

/// What is answered over the parts of a store's plan is the answer over its whole history.
pub fn planned_is_answered()
    ensures { PlannedIsAnswered }
{}

/// Where the fills of a history are sound, what is answered over it with them is the answer over the history.
pub fn filled_is_answered()
    ensures { FilledIsAnswered }
{}

/// The limits of a database are those of the archive.
pub fn database_limits_agree()
    ensures { DatabaseLimitsAgree }
{}
