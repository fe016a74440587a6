// A table that was read.
ghost use Rattle.std.specs.Prelude.{◌≡◌};
ghost use Rattle.debug_tables.specs.Tables.{IsTable, TableParts};

use crate::declaration::{Declaration, TableError};
use scroll_layouts::ReadPart;
use std::marker::Model;

/// A table of abbreviations.
#[derive(Debug, Drop)]
pub struct Table<'a> {
    pub declarations: Vec<Declaration<'a>>,
    // The declarations as they were read, and the code of zero after them.
    pub(crate) bytes: &'a [u8],
}

impl<'a> Model for Table<'a> {
    ghost Value = { TableParts };

    ghost view = { λ t. record { declarations = t.declarations.items; bytes = t.bytes.now } };

    ghost invariant = { λ t. IsTable
        (⟦<Declaration<'static> as ReadPart<'static, (), TableError>>⟧.format tt) t.bytes.now };
}

impl<'a> Table<'a> {
    /// Returns the bytes of the table as it was read, with the code of zero after the declarations.
    pub fn bytes(&self) -> &'a [u8]
        ensures bytes { result.now ≡ self.now.bytes }
        ensures table { IsTable (⟦<Declaration<'a> as ReadPart<'a, (), TableError>>⟧.format tt)
            result.now }
    {
        self.bytes
    }
}
