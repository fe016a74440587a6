//! Tables of abbreviations, as in the section `.debug_abbrev` of an object file (DWARF 5, section
//! 7.5.3).
//!
//! A read keeps the value and the length of each number, and a declaration borrows the bytes of its
//! attributes. So a table is written back byte for byte, even if its numbers are padded.
#![tactic(auto)]

mod declaration;
mod table;
#[cfg(test)]
mod tests;

ghost use Rattle.std.specs.Prelude.{◌≡◌, List, ℕ, IfOk, IfErr, OnOk, OnErr};
ghost use Rattle.std.specs.List.{slice_range};
ghost use Rattle.scroll_formats.specs.Spans.{Puts, Stands};
ghost use Rattle.debug_tables.specs.Tables.{ReadsTable, ReadsTableBytes, RefusesTable, FailsPut};

pub use crate::declaration::{
    Attribute, Attributes, Children, Declaration, Declarations, TableError,
};
pub use crate::table::Table;
use scroll::{Error, LE, Result};
use scroll_formats::put_at;
use scroll_layouts::{ReadPart, append_until};
use std::alloc::Global;

/// Reads the table at the cursor `offset`, and advances the cursor past it. On an error the cursor
/// is unchanged.
///
/// A truncated table returns `Read` with a `TooBig`, a number that doesn't fit a `u64` or an `i64`
/// with a `BadInput`, and an offset past the end with a `BadOffset`. A byte for the children other
/// than 0 and 1 returns `BadChildren`.
pub fn read_table<'a>(
    alloc: Global,
    bytes: &'a [u8],
    offset: &mut usize,
) -> std::result::Result<Table<'a>, TableError>
    ensures read { IfOk result (ReadsTable
        (⟦<Declaration<'a> as ReadPart<'a, (), TableError>>⟧.format tt) bytes.now offset.old
        offset.new) }
    ensures refused { IfErr result (RefusesTable
        (⟦<Declaration<'a> as ReadPart<'a, (), TableError>>⟧.format tt) bytes.now offset.old) }
    ensures stays { OnErr result (offset.new ≡ offset.old) }
{
    let mut at = *offset;
    let mut declarations = Vec::new(alloc);
    match append_until::<Declarations>(&mut declarations, bytes, &mut at, LE) {
        Ok(list) => {
            *offset = at;
            Ok(Table {
                declarations,
                bytes: list.bytes,
            })
        }
        Err(located) => Err(located.error),
    }
}

/// Writes the bytes of a table at the cursor `offset`, and advances the cursor past them. So a table
/// that was read is written back byte for byte, and reads as a table again, whatever follows it.
/// `scroll_formats::write_many` writes other declarations.
///
/// Without room for the table, the error is a `TooBig` with its size, and with the cursor past the
/// end a `BadOffset`. Then nothing is written, and the cursor is unchanged.
pub fn write_table<'a>(target: &mut [u8], offset: &mut usize, table: &Table<'a>) -> Result<()>
    ensures wrote { OnOk result
        (Puts table.now.bytes target.old target.new offset.old offset.new) }
    ensures again { OnOk result (ReadsTableBytes
        (⟦<Declaration<'a> as ReadPart<'a, (), TableError>>⟧.format tt) target.new offset.old
        offset.new table.now.bytes) }
    ensures back { OnOk result ((source : List ℕ) (from to : ℕ)
        → Stands table.now.bytes source from to
        → slice_range target.new offset.old offset.new ≡ slice_range source from to) }
    ensures refused { IfErr result (FailsPut table.now.bytes target.old offset.old) }
    ensures stays { OnErr result (offset.new ≡ offset.old) }
    ensures unchanged { OnErr result (target.new ≡ target.old) }
{
    let at = *offset;
    if at > target.len() {
        return Err(Error::BadOffset(at));
    }
    match put_at(target, at, table.bytes, LE) {
        Ok(to) => {
            *offset = to;
            Ok(())
        }
        Err(size) => Err(Error::TooBig {
            size,
            len: target.len() - at,
        }),
    }
}
