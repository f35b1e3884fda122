//! The index and the footer of a run in memory.

ghost use Rattle.std.specs.Prelude.{◌≡◌, ◌<◌, ◌^◌, length, true};
ghost use Rattle.run_pages.specs.Index.{is_index};

use run_pages::{Footer, PageEntry};

/// The first key, the octet and the length of each page, and what the footer counts: 32 octets a page.
#[derive(Drop)]
pub(crate) struct RunIndex {
    pub(crate) entries: Vec<PageEntry>,
    pub(crate) footer: Footer,
    ghost count: { length entries.items ≡ footer.pages },
    ghost few: { length entries.items < 2 ^ 32 },
    ghost index: { is_index entries.items footer ≡ true },
}
