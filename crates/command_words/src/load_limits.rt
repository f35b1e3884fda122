//! The limits that the words of a load may pass.

ghost use Rattle.std.specs.Prelude.{◌≡◌};
ghost use Rattle.command_words.specs.JobView.{load_words_of};
ghost use Rattle.command_words.specs.LoadLimits.{limit_refusal, links_refusal, load_limit_refusal};

use crate::job::LoadWords;
use refusals::{Refusal, Which};

impl LoadWords<'_> {
    /// Why they are refused before anything is opened: they name too many dumps, or else ask for too many fillers.
    pub fn limit_refusal(&self) -> Option<Refusal>
        ensures { result ≡ load_limit_refusal (load_words_of self.now) }
    {
        match limit_refusal(Which::Dumps, self.dumps.len() as u64) {
            Some(refusal) => Some(refusal),
            None => limit_refusal(Which::Fillers, self.fillers),
        }
    }

    /// Why there are no links of such numbers: that of the last dump's is too great.
    pub fn links_refusal(&self) -> Option<Refusal>
        ensures { result ≡ links_refusal (load_words_of self.now) }
    {
        let more = (self.dumps.len() as u64).saturating_sub(1);
        limit_refusal(Which::Links, self.link.saturating_add(more))
    }
}

/// The refusal of a quantity that passes its limit.
fn limit_refusal(which: Which, number: u64) -> Option<Refusal>
    ensures { result ≡ limit_refusal which number }
{
    if number <= which.limit() {
        return None;
    }
    Some(Refusal::Limit {
        which,
        number: which.limit(),
    })
}
