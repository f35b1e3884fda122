//! The head of an archive.

use arch_types::name::Names;
use mdb_model::Mdb;

/// The names of an archive's tables, the first `tm`, and its mission database.
#[derive(Drop)]
pub struct Head {
    pub tables: Names,
    pub mdb: Mdb,
}
