// The sheets of a mission database as records of octet fields, and the sheet of asks.
//
// A sheet is an input of at most 4,194,304 octets, and its records are those that the crate `csv` gives of them in its default form (`sheet_of` in
// specs/Sheets.antt): a field may stand in double quotes, a record ends at a line feed or a carriage return, a record may have any number of
// fields, a byte order mark is dropped, and an empty line is no record. The header is a record as any other.
//
// `read_mdb` reads the three sheets one after the other, and opens each once. It refuses at the first that isn't there or can't be read, and
// every source that it opened is closed by then. The program calls it, and hands what it gives to `Mdb::check`: which records are right is
// for `mdb_model` to say.
//
// `read_asks` reads one sheet, and makes an ask of each row, for values or for a replay. Here the rules stand in this crate (`asks_of` in
// specs/Asks.antt): the header's, then by rows from the top and in a row from the left, and only where no rule is broken the limit on the number of
// asks. That a sheet is refused is what it gives, and no refusal of the reading: its caller answers it when it will. Which parameters, tables and
// packet names there are it doesn't know, so an ask may name one that isn't there.
//
// The idea of the proof: the octets that the reader of `csv` has left and the records that it gave make up the sheet, and each record takes
// at least one octet or the end of the text. Of the asks: the first rule broken below the header is that of the rows not yet read, as long as
// each row read breaks none.
#![tactic(auto)]

mod ask_row;
mod ask_sheet;
mod mdb;
mod name_list;
mod records;
mod sheet;

pub use ask_sheet::read_asks;
pub use mdb::read_mdb;
