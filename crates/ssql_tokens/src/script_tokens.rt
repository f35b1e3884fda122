//! The tokens of a script.

ghost use Rattle.std.specs.Prelude.{◌≡◌, length, IfOk, IfErr};
ghost use Rattle.ssql_tokens.specs.Tokens.{AreTokens};
ghost use Rattle.ssql_tokens.specs.Tokenizing.{IsNotTokens};

use crate::blanks::next_at;
use crate::first_token::token_at;
use crate::token::Token;
use arch_types::octets::Octets;
use item_list::Items;
use std::alloc::{AllocError, Global};

/// The tokens of a script in their order, with the octets at which they begin.
#[derive(Debug, Drop)]
pub struct ScriptTokens {
    /// The tokens in their order.
    pub tokens: Items<Token>,
    /// The octet at which each token begins.
    pub places: Items<u32>,
}

/// Why a text isn't tokens.
#[derive(Clone, Copy, Debug, PartialEq, Eq)]
pub enum NotTokens {
    /// At this octet no token begins.
    NoToken(u32),
    /// There was no memory.
    OutOfMemory,
}

impl From<AllocError> for NotTokens {
    ghost use Rattle.ssql_tokens.specs.declared.script_tokens.NotTokens.TheVariants.{OutOfMemory};

    ghost from_gives = { λ _ fault. fault ≡ OutOfMemory };

    fn from(_error: AllocError) -> NotTokens {
        NotTokens::OutOfMemory
    }
}

/// The tokens that a script is, or the first octet at which none begins.
pub fn tokens_of(alloc: Global, script: &Octets) -> Result<ScriptTokens, NotTokens>
    ensures found { IfOk result (λ found. AreTokens script.now found.tokens found.places) }
    ensures placed { IfOk result (λ found. length found.places ≡ length found.tokens) }
    ensures refused { IfErr result (IsNotTokens script.now) }
{
    let mut tokens = Items::new(alloc);
    let mut places = Items::new(alloc);
    let mut at = next_at(script.as_slice(), 0);
    'tokens: while at < script.len() {
        let Some((token, len)) = token_at(alloc, script, at)? else {
            return Err(NotTokens::NoToken(at as u32));
        };
        tokens.push(token)?;
        places.push(at as u32)?;
        at = next_at(script.as_slice(), at + len);
    }
    Ok(ScriptTokens { tokens, places })
}
