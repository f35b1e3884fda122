//! The answers to a sheet of asks: each ask found before the first is answered, and printed one after the other.
//!
//! Stands for: the parts of a command's plan that read a sheet of asks, look whether each ask has an answer, and print
//! the answers (specs/Asks.antt); and the text of answers that readers gave while other jobs ran, each over the history
//! of its turn (specs/Collected.antt). Called by `query --ask` and `load --ask`. mdb_sheets reads the sheet; retrieval
//! finds what an ask names, extracts the cells of the store's plan or goes on with its replay, and prints them;
//! live_asks gives the answers that are collected. A further kind of ask is a case of `print_ask` and of
//! `print_collected_answer`, beside its text in retrieval.
//!
//! The one idea of the proofs: the text of the answers so far, and what is still buffered of it, are the text of the
//! asks so far (proofs/AskSheets.antt).
//!
//! Begin with `asks_check_plan` and `archive_asks_text`, and then `collected_answers_text`.
#![tactic(auto)]

pub mod answers;
pub mod collected;
