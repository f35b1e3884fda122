//! The intervals in flight.

ghost use Rattle.std.specs.Prelude.{◌≡◌, vec_capacity};
ghost use Rattle.std.specs.List.{list_any};
ghost use Rattle.history_items.specs.Fills.{is_same};
ghost use Rattle.history_items.specs.FillList.{flights_without};

use intervals::Interval;

/// Whether an interval is among these.
#[tactic(auto, using(std::proofs::lemmas::List::Folds::list_any_more, std::proofs::lemmas::List::Folds::list_any_at))]
pub(crate) fn is_among(flights: &[Interval], interval: Interval) -> bool
    ensures { result ≡ list_any (is_same interval) flights.now }
{
    for flight in flights {
        if interval == *flight {
            return true;
        }
    }
    false
}

/// Takes an interval out, wherever it stands.
pub(crate) fn take_out(flights: &mut Vec<Interval>, interval: Interval)
    ensures items { flights.new.items ≡ flights_without interval flights.old.items }
    ensures capacity { vec_capacity flights.new ≡ vec_capacity flights.old }
{
    flights.retain(|flight| interval != *flight);
}
