//! Values of any size by their formats: a format says the parts of a value, one after another, and
//! what follows from that is proved once, for every format.
//!
//! A type is written as a [`Part`] and read as a [`ReadPart`], each in a context, such as the
//! length of a slice. A struct names its parts by [`Shape`]; [`read_exact`] and [`write_whole`]
//! read and write it. That what was written reads back, and that what was read is written back byte
//! for byte, stands in what these two promise, so a caller cites no law. `src/tests/stored.rt`
//! describes a file behind its lengths so.
#![tactic(auto)]

ghost use Rattle.std.specs.Prelude.{◌≡◌, ◌≤◌, ◌+◌, ◌-◌, ◌^◌, ◌++◌, length, drop, min, IfOk, IfErr, OnOk, IfSome, IfNone};
ghost use Rattle.scroll_layouts.specs.Formats.{Format, len, bytes, EndsAt, RefusedAt, reads, refuses, agrees, differs};

mod append;
mod behind;
mod bits;
mod borrowed;
mod bytes;
mod c_strings;
mod choice;
mod closed;
mod each;
mod fills;
mod fixed;
mod head;
mod items;
mod leb128;
mod lists;
mod marked;
mod numerals;
mod optional;
mod ordered;
mod padding;
mod pairs;
mod pointer;
mod refusals;
mod run;
mod shape;
mod shifts;
mod std_c_strings;
mod steps;
mod tables;
#[cfg(test)]
mod tests;
mod texts;
mod variants;
mod vlq;
mod walk;
mod whole;
mod within;

pub use crate::append::{append_each, append_whole};
pub use crate::behind::Behind;
pub use crate::bits::{BitFields, Low, Packed, U24, Word};
pub use crate::borrowed::Borrowed;
pub use crate::choice::{Choice, Choose};
pub use crate::closed::{Closed, ToLast};
pub use crate::each::write_list;
pub use crate::fills::Filled;
pub use crate::fixed::{Field, FixedLayout, Number, SameLayout};
pub use crate::head::{Head, Headed, is};
pub use crate::items::{IsList, Items, ListOf, ListPart, Listed, Unmarked};
pub use crate::leb128::{Sleb, Uleb, Zigzag};
pub use crate::lists::Count;
pub use crate::marked::{
    EndMark, Marked, MarkedValues, NameEnd, ToMark, TwoZeroUlebs, ZeroUleb, append_until,
    begins_with,
};
pub use crate::numerals::{Decimal, Digits, Hexadecimal, Octal};
pub use crate::optional::When;
pub use crate::ordered::Ordered;
pub use crate::padding::Padded;
pub use crate::pointer::{Offset, Pointer};
pub use crate::run::Run;
pub use crate::shape::{Given, Shape, Split};
pub use crate::shifts::shifted;
pub use crate::texts::Ends;
pub use crate::vlq::Vlq;
pub use crate::walk::Values;
pub use crate::whole::{kept_exact, kept_whole, read_exact, read_whole, write_whole};
pub use crate::within::Within;
use scroll::Endian;
use std::result::Result;

/// A type whose values are written as bytes in a context, however many they are.
///
/// These are the parts, from which a struct is put together by [`Shape`]:
///
/// | type | context | what stands there |
/// |---|---|---|
/// | [`Run<P>`](Run) | `()` | a value of a fixed size: a number, or a tuple of such values |
/// | `Run<[T; N]>` | `()` | an array of numbers, or of such arrays |
/// | `Run<Field<R>>` | `()` | a [`Record`](scroll::ctx::Record) of fixed size, by [`Field`] |
/// | `&[u8]` | `usize` | as many bytes as the context says |
/// | [`Zeros`](scroll_formats::Zeros) | `usize` | as many zero bytes |
/// | `A` | [`Padded`] | a value, and zeros up to a multiple of a size |
/// | [`Uleb`], [`Sleb`] | `()` | a number in LEB128 |
/// | [`Zigzag`], [`Vlq`] | `()` | a signed number in zigzag; a number with its high groups first |
/// | [`Digits<BASE, N>`](Digits) | `()` | a number in digits in a field of `N` bytes |
/// | [`CStr`](scroll::cstr::CStr), of the crate or of std | `()` | a C string |
/// | `&[u8]` | [`Filled`] | a text in a field that others fill up |
/// | `&str` | `usize` | a text of as many bytes as the context says |
/// | `&str` | [`Ends`] | a text, and the byte that ends it |
/// | [`Items`] | `usize` | values of any size, in as many bytes as the context says |
/// | [`Items`] | [`Count`] | as many values of any size as the context says |
/// | [`Items`] | [`ToMark`] | values of any size, and the mark that ends them |
/// | [`Items`] | [`ToLast`] | values of any size, up to the one that says that it is the last |
/// | [`Table`](scroll_formats::Table) | `usize` | as many elements of one size |
/// | pairs of numbers | [`Packed`] | fields of bits of a [`Word`], the lower ones by [`Low`] |
/// | `(A, B)` | `(C, D)` | one after the other |
/// | `(A, B)` | [`Headed`] | a head with constants, which says the context of what follows |
/// | `A` | [`Within`] | a value that uses up as many bytes as the context says |
/// | `(A, B)` | [`Behind`] | a value, and what it leaves of as many bytes as the context says |
/// | `Option<A>` | `usize` | a value that uses up so many bytes, and is there if there are any |
/// | `A` | [`Ordered`] | a value in a byte order of its own |
/// | `Option<A>` | [`When`] | a value that is there if the context says so |
/// | [`Choice<A, B>`](Choice) | [`Choose`] | one of two values, as the context says |
/// | a struct | `()` | its parts |
/// | a struct or an enum | [`Given`] | its parts, by a value that comes before |
/// | `&A` | [`Borrowed`] | a value that is written where it is borrowed |
///
/// [`write_whole`] writes each of them over the start of a slice, [`write_list`] one and several of
/// one type behind it, [`append_whole`] one behind a vector, and [`append_each`] several.
///
/// The error `E` is any that an [`Error`](scroll::Error) is converted to.
pub trait Part<Ctx, E>: Drop {
    // What a value is as bytes.
    ghost format: { Ctx → Format E Self };

    /// Returns the error of the first count, constant, tag or condition that doesn't agree with the
    /// value.
    fn check(&self, order: Endian, ctx: &Ctx) -> Result<(), E>
        ensures agrees { OnOk result (agrees (format ctx.now) order self.now) }
        ensures differs { IfErr result (differs (format ctx.now) order self.now) };

    /// Returns how many bytes the value has, or the greatest `usize` if there are more.
    fn size(&self, order: Endian, ctx: &Ctx) -> usize
        requires { agrees (format ctx.now) order self.now }
        ensures size { result ≡ min (length (bytes (format ctx.now) order self.now)) (2 ^ 64 - 1) }
        ensures len { result ≡ min (len (format ctx.now) self.now) (2 ^ 64 - 1) };

    /// Writes the bytes to the start of `dst`, which has room for them. The bytes after them are
    /// unchanged.
    fn put(&self, dst: &mut [u8], order: Endian, ctx: &Ctx)
        requires agreed { agrees (format ctx.now) order self.now }
        requires room { length (bytes (format ctx.now) order self.now) ≤ length dst.old }
        ensures { dst.new ≡ bytes (format ctx.now) order self.now
            ++ drop (length (bytes (format ctx.now) order self.now)) dst.old };
}

/// A type whose values are read from bytes in a context, from which they may borrow.
pub trait ReadPart<'a, Ctx, E>: Drop {
    // What a value is as bytes.
    ghost format: { Ctx → Format E Self };

    /// Reads the value at an offset, and returns it with the offset after it. The caller ensures
    /// that the offset is at most the length of `from`.
    fn read_at(from: &'a [u8], offset: usize, order: Endian, ctx: &Ctx) -> Result<(Self, usize), E>
        requires { offset ≤ length from.now }
        ensures read { IfOk result (λ r. reads (format ctx.now) order from.now offset r.0) }
        ensures moves { IfOk result (λ r. r.1 ≡ offset + len (format ctx.now) r.0) }
        ensures inside { IfOk result (λ r. r.1 ≤ length from.now) }
        ensures refused { IfErr result (refuses (format ctx.now) order from.now offset) };

    /// Returns the offset after the value at an offset, or `None` where
    /// [`ReadPart::read_at`] returns an error. The caller ensures the same.
    fn end_at(from: &'a [u8], offset: usize, order: Endian, ctx: &Ctx) -> Option<usize>
        requires { offset ≤ length from.now }
        ensures ends { IfSome result (EndsAt (format ctx.now) order from.now offset) }
        ensures inside { IfSome result (λ end. end ≤ length from.now) }
        ensures none { IfNone result (RefusedAt (format ctx.now) order from.now offset) };
}
