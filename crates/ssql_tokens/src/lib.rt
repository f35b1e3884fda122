//! The tokens of a StreamSQL script, and the octets at which they begin.
//!
//! Stands for: which text is which token (`specs/Symbols.antt`, `specs/TokenTexts.antt`), which tokens a script is and where
//! it stops being tokens (`specs/Tokens.antt`), and how a token is written (`specs/Written.antt`). At each place the longest
//! text that is a token is taken; the first octet tells its kind, so that "longest" is asked inside one kind. Called by the
//! parser alone. A new keyword needs a variant of `Symbol`, its text and a line of `keywords`, in the sources and in
//! `specs/Symbols.antt` alike: a name that is spelled so is then none any more.
#![tactic(auto)]

mod blanks;
mod first_token;
pub mod laws;
mod lengths;
mod octet_kinds;
mod script_tokens;
mod strings;
mod symbols;
mod token;

pub use octet_kinds::QUOTE;
pub use script_tokens::{NotTokens, ScriptTokens, tokens_of};
pub use symbols::{Column, ComparisonOperator, Symbol};
pub use token::Token;
