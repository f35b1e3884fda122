//! A run of rows as octets, both ways: pages, an index of them, a footer.
//!
//! Stands for: rows of one table in the order of their keys, each at its position in the history, as the octets of one
//! file (`IsRunFile` of specs/Runs.antt), and the octet at which a file that is no run is damaged (`IsRunDamagedAt` of
//! specs/Damage.antt). A run is read page by page: the footer says where the index stands, the index where each page
//! does and which key it begins with. docs/FORMATS.md draws the octets. Called by what writes and opens run files; this
//! crate knows no disk.
//!
//! What the order of a page's rows is stands once (`are_ordered` of specs/Order.antt): the rows of a whole run are
//! ordered by the same definition, without a next page, so that pages of ordered rows are ordered and the other way.
//!
//! The one idea of the proof: page, index and footer are read exactly (octet_fields), so octets are of one list of rows,
//! and a file of one run. To touch together: a field of the index, `page_entry_octets`, `page_entry_at`, `PageEntry` and its codec;
//! a rule of the index, `is_index` here and in specs/Index.antt; a rule of a page, `IsPageOf` and `are_ordered`.
#![tactic(auto)]

mod footer;
mod index;
pub mod laws;
mod order;
mod page;
mod page_rows;

pub use footer::{FOOTER_SIZE, Footer, put_footer, read_footer};
pub use index::{ENTRY_SIZE, PageEntry, is_index, put_index, read_index};
pub use order::are_ordered;
pub use page::{PAGE_ROWS, page_len, put_page, read_page};
pub use page_rows::{PageRows, Positions};
