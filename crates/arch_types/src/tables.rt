//! The tables that a row goes into.

ghost use Rattle.std.specs.Prelude.{◌≡◌, ◌↔◌, ◌<◌, ◌++◌, ◌∷◌, [], length, IsOk, OnOk, OnErr};

use arrayvec::ArrayVec;
use item_list::Items;
use std::alloc::AllocError;
use std::fmt;
use std::marker::Model;

/// Numbers of tables, 0 the table `tm`.
pub type TableList = Items<u8>;

/// The numbers of the tables that one packet goes into, in the order in which its route names them: at most 16, as many
/// as an archive has. They stand in the value itself, as each packet that is received has its own (D-335).
#[derive(Drop)]
pub struct PacketTables {
    numbers: ArrayVec<u8, 16>,
}

impl Model for PacketTables {
    ghost use Rattle.std.specs.Prelude.{List, ℕ};

    ghost Value = { List ℕ };

    ghost view = { λ tables. tables.numbers.items };
}

impl PacketTables {
    /// No table.
    pub fn new() -> Self
        ensures { result ≡ [] }
    {
        PacketTables {
            numbers: ArrayVec::new(),
        }
    }

    pub fn as_slice(&self) -> &[u8]
        ensures { result.now ≡ self.now }
    {
        self.numbers.as_slice()
    }

    /// Adds a table at the end: refused exactly where 16 are there, and then the list is as it was.
    pub fn push(&mut self, table: u8) -> Result<(), AllocError>
        ensures variant { IsOk result ↔ (length self.old < 16) }
        ensures ok { OnOk result (self.new ≡ self.old ++ table ∷ []) }
        ensures err { OnErr result (self.new ≡ self.old) }
    {
        match self.numbers.try_push(table) {
            Ok(()) => Ok(()),
            Err(_) => Err(AllocError),
        }
    }
}

impl fmt::Debug for PacketTables {
    fn fmt<W: fmt::Write>(&self, f: &mut fmt::Formatter<W>) -> fmt::Result {
        self.as_slice().fmt(f)
    }
}
