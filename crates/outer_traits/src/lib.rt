// What the archive asks of the outside: octets to read by name, a place to write to, the time, and a gate before the calls of jobs.
//
// Contracts see an object of the outside as one state (specs/States.antt): the octets that a source has left, the files of the inputs, what
// a sink has written, the moment of a clock. Forms in memory tell it, and real ones don't (specs/Outside.antt has what each call does with
// it; whether an object tells never changes). Beside it a state has a count of faults, which never falls, and rises exactly where a call fails
// (a write also where it takes nothing of a piece), unless it stands at the last value of its type. So a caller can say of each failure
// which object it came from, and that no failure was passed over. Inputs also count the sources that they have given and those that are
// open, so that a caller can promise to open each input once and to close each source, and can tell an opening that failed from a read.
// A source's count is its own, and no form in memory shares one with its inputs: a source may go to another thread and come back.
//
// `mem_inputs`, `mem_sink` and `FixedClock` are the forms in memory, whose calls can be told to fail: clauses of their own say which
// fail. They are for tests, and show that the contracts can be met. `whole` reads an input to its end, where it isn't longer than a limit.
//
// Every crate that reads or writes stands on this one, the program's adapters among them.
#![tactic(auto)]

pub mod clock;
pub mod fault;
pub mod gate;
pub mod inputs;
pub mod mem_inputs;
pub mod mem_sink;
pub mod print_fault;
pub mod sink;
pub mod source;
pub mod whole;
