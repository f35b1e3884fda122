// Tests of StreamSQL, in the order in which a script is read: its tokens, its statements, their types, and the routes that it makes.
#![tactic(auto)]

#[cfg(test)]
mod ends;
#[cfg(test)]
mod forms;
#[cfg(test)]
mod ssql_parse_tests;
#[cfg(test)]
mod ssql_tokens_tests;
#[cfg(test)]
mod ssql_types_tests;
#[cfg(test)]
mod stream_graph_tests;
