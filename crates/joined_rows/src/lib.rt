//! Two sources of rows as one: the rows that the second tells below a front stand behind those of the first.
//!
//! Stands for: `JoinedRows`, a `RowSource` over two others (`joined_state` of specs/Joined.antt): a store's sealed rows
//! and those of its log are read as one history by it, and a store without seals is the case of a first source without
//! rows. Both sources count the positions of the one history, so that each is asked at the front at which the whole is.
//! Called by nothing yet: an archive whose rows are sealed is to be read by it.
//!
//! The one idea of the proof: rows whose keys rise are told by what they contain (`same_rows` of proofs/SameRows.antt),
//! so that what two sources gave, put in order, is what is wanted of the whole wherever it has just those rows. That a
//! key stands in one of the sources alone is given once, when they are joined. To be changed together: a call of
//! `RowSource`, and the one here.
#![tactic(auto)]

pub mod joined;
pub mod rising;
