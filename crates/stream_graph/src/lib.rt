//! Routes: the tables that a row goes into, by the streams and INSERTs of a script.
//!
//! Stands for: which tables a row reaches by a route (`specs/Routes.antt`), and the list of them
//! (`specs/RouteTables.antt`). Called by whoever loads packets, for each packet that arrives.
//!
//! A graph keeps a route's statements in their order. `Graph::route` goes over them once: it notes of each stream
//! whether it passes the row on, by what is noted of the streams above it, and adds the table of each INSERT that does.
//! The one idea of its proof: what is noted of a stream is what is asked of its number among the streams above.
//!
//! To be changed together: what passes a row on, in `specs/RouteTables.antt` as a test and in `specs/Routes.antt` as a
//! path; `proofs/StreamPaths.antt` says that they agree.
#![tactic(auto)]

pub mod graph;
pub mod laws;
mod passing;
pub mod statement;
