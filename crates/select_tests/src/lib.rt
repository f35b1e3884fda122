// Tests of replay_merge and ssql_select: a source in memory, which shows that `RowSource` can be met, replays and selections over it.
#![tactic(auto)]

#[cfg(test)]
mod ends;
#[cfg(test)]
mod mem_source;
#[cfg(test)]
mod packets;
#[cfg(test)]
mod replay_merge_tests;
#[cfg(test)]
mod ssql_select_tests;
