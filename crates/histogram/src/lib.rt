// The histogram of a table: for each packet name, the spans of time without a gap of more than a minute.
//
// Contracts see a `Histogram` as the records of each packet name (`HistogramView`, specs/Times.antt). The records of times are the
// sorted times, cut between neighbours that differ by more than 60,000 ms, each piece as its first and last time and their number
// (`histogram_of`, specs/Spans.antt). A caller that knows which times it added keeps `IsHistogramOf` of them (specs/Times.antt): a new
// histogram is that of no time, and an addition makes that of any list of times that of the list with one more.
// `of_name` gives the records of one packet name as a histogram of their own, to which more times are added: those that are kept of
// rows that are no longer there, and then those of the rows that are.
// Callers: the history, which makes the histogram of a packet name where one is asked, of what it keeps and of a table's rows.
//
// Times that make one record are added at once (`add_span`), and one that grows is told by src/one_span.rt: what rows come to that
// are in memory no longer.
//
// Memory holds the records and not the times: an ordered index has each record under its name and its last time. An addition takes
// out the records that are near its times, joins them with it, and puts the one record in.
// Keyed by the last time, the records near times are the first from 60,000 ms before them on. The one idea of the proof: to put a time
// in and to put an earlier one before all records are free to swap (`behind`, proofs/Addition.antt), so additions in any order are
// those of the sorted times (`with_span`, specs/Near.antt; `one_more`, proofs/Addition.antt). Times that make one record are put in
// one by one in their order, and each makes that record longer (`run_added`, proofs/Runs.antt).
// To be changed together: `is_near` in specs/Spans.antt, `is_apart` in specs/Near.antt and `GAP` in src/near.rt.
#![tactic(auto)]

pub mod histogram;
pub mod laws;
mod near;
mod one_name;
pub mod one_span;
mod walk;
