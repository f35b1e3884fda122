//! A run in memory.

use crate::run_index::RunIndex;
use arch_types::key::Key;

/// A file of sealed rows, known by the first key, the octet and the length of each page.
#[derive(Drop)]
pub struct Run {
    pub(crate) file: u32,
    pub(crate) table: u8,
    pub(crate) index: RunIndex,
    /// The key of the last row.
    pub(crate) last: Key,
}

impl Run {
    ghost use Rattle.std.specs.Prelude.{◌≡◌};
    ghost use Rattle.run_files.specs.Run.{page_count, run_file, run_last_key, run_table, sealed_row_count};

    /// The file that it stands in.
    pub fn file(&self) -> u32
        ensures { result ≡ run_file self.now }
    {
        self.file
    }

    /// The table of its rows.
    pub fn table(&self) -> u8
        ensures { result ≡ run_table self.now }
    {
        self.table
    }

    /// The number of its pages.
    pub fn page_count(&self) -> u32
        ensures { result ≡ page_count self.now }
    {
        self.index.footer.pages
    }

    /// The number of its rows.
    pub fn sealed_row_count(&self) -> u64
        ensures { result ≡ sealed_row_count self.now }
    {
        self.index.footer.rows
    }

    /// The key of its last row: no row stands above it.
    pub fn last(&self) -> Key
        ensures { result ≡ run_last_key self.now }
    {
        self.last
    }
}
