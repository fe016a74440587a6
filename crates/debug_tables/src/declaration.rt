// Declarations and their attributes.
ghost use Rattle.std.specs.Prelude.{◌≡◌};
ghost use Rattle.debug_tables.specs.declared.declaration.TableError.TheVariants.{Read};

mod derived;

use scroll::Error;
use scroll_layouts::{Items, Sleb, Uleb};

/// Why reading a table failed.
#[derive(Debug, Drop)]
pub enum TableError {
    /// A number or a byte can't be read, the offset is past the end, or there is no memory.
    Read(Error),
    /// The byte that says whether there are children is neither 0 nor 1.
    BadChildren(u8),
}

impl From<Error> for TableError {
    ghost from_gives = { λ error e. e ≡ Read error };

    #[inline(always)]
    fn from(error: Error) -> TableError {
        TableError::Read(error)
    }
}

/// An attribute of a declaration: its name and the form of its value. The names of its numbers are
/// those of DWARF.
// #[derive(Pread, Pwrite)]
#[derive(Clone, Copy, Debug)]
// #[scroll(error = TableError::Read)]
pub struct Attribute {
    pub name: Uleb,
    pub form: Uleb,
    /// The value, if it is in the table itself.
    // #[scroll(if = form == 0x21)]
    pub constant: Option<Sleb>,
}

/// The list of a declaration's attributes, up to a pair of zeros.
// #[derive(Pread, Pwrite)]
#[derive(Debug, Drop)]
// #[scroll(items = Attribute, ends = TwoZeroUlebs)]
pub struct Attributes;

/// Whether the entries of a declaration have children.
// #[derive(Pread, Pwrite)]
#[derive(Clone, Copy, Debug, PartialEq)]
// #[scroll(tag = u8, error = TableError::Read, else = TableError::BadChildren)]
pub enum Children {
    // #[scroll(is = 0)]
    No,
    // #[scroll(is = 1)]
    Yes,
}

/// A declaration: the shape of the entries that name its code.
// #[derive(Pread, Pwrite)]
#[derive(Clone, Copy, Debug)]
// #[scroll(error = TableError::Read)]
pub struct Declaration<'a> {
    pub code: Uleb,
    pub tag: Uleb,
    pub children: Children,
    // #[scroll(ctx = ToMark)]
    pub attributes: Items<'a, Attributes>,
}

/// The list of a table's declarations, up to a code of zero.
// #[derive(Pread, Pwrite)]
#[derive(Drop)]
// #[scroll(items = Declaration, ends = ZeroUleb)]
pub struct Declarations;
