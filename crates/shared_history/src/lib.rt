//! A history to which several callers add at once: what each of them says of its own turns, and what follows for the
//! whole.
//!
//! Stands for: what the turns of a link put into it, at which places (`HasPut`); and what a link knows of the rows that
//! it has sent: what it put is some of the first of each table and key, and the table and key of each are in the
//! history (`HasSent`). A caller says these of the history that it has seen, and they stay true of each that goes on
//! from it, whatever others put between. So no caller has to know of another. Once each place is known to be some
//! link's (`ArePlaced`), the rows behind the old ones are those of the links, and what a link put is what the history
//! has of it; and where one link alone put rows, the history is the old one followed by its arrivals
//! (`OneLinkIngests`).
//!
//! The idea of the proofs: a history that has the keys of another takes of a batch some of what that one takes
//! (proofs/Sending.antt). Nothing here runs: `laws` carries the proofs. To be used by the sessions that load.
#![tactic(auto)]

pub mod laws;
