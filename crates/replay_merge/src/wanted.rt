//! Which rows a replay gives.

ghost use Rattle.std.specs.Prelude.{◌≡◌};
ghost use Rattle.replay_merge.specs.Replay.{is_listed_name};
ghost use Rattle.replay_merge.specs.Fetch.{IsAskedBy};

use crate::listed_names::{ListedNames, sorted_names};
use asks::ReplayRequest;
use partitions::lists::PnameList;

/// The rows of a table at a front, with `from <= time < to`, in milliseconds since 1970, and one of some packet names.
#[derive(Drop)]
pub(crate) struct Wanted {
    pub(crate) table: u8,
    /// Rows of positions below it.
    pub(crate) front: u64,
    pub(crate) from: i64,
    pub(crate) to: i64,
    /// All where it is `None`.
    pub(crate) names: Option<ListedNames>,
}

impl Wanted {
    /// What a request asks, where the numbers of a table and of packet names stand for their names. Takes no memory.
    pub(crate) fn by(
        request: &ReplayRequest,
        table: u8,
        front: u64,
        names: Option<PnameList>,
    ) -> Self
        ensures { IsAskedBy request.now table front names result }
    {
        Wanted {
            table,
            front,
            from: request.from,
            to: request.to,
            names: sorted_names(names),
        }
    }

    /// Whether rows of a packet name are wanted.
    pub(crate) fn has_name(&self, pname: u16) -> bool
        ensures { result ≡ is_listed_name self.now.names pname }
    {
        match &self.names {
            Some(names) => names.has(pname),
            None => true,
        }
    }
}
