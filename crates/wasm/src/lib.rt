//! WebAssembly modules (WebAssembly Core Specification 1.0, section 5.5): the preamble and the
//! sections, read and written. [`Section`] says what is in them.
//!
//! ```rust
//! let module = read_module(file)?;
//! let size = write_module(&mut target, module)?;
//! ```
#![tactic(auto)]

ghost use Rattle.std.specs.Prelude.{◌≡◌, ◌+◌, length, take, drop, IfOk, IfErr};
ghost use Rattle.std.proofs.Common.{rules};
ghost use Rattle.scroll.specs.Errors.{IsBadOffset};
ghost use Rattle.scroll.specs.Numbers.{number};
ghost use Rattle.scroll.specs.Reads.{ReadsSome, RefusesAt};
ghost use Rattle.scroll.specs.Writes.{WritesAt, RefusesWriteAt};
ghost use Rattle.scroll.specs.declared.endian.Endian.TheVariants.{Little};
ghost use Rattle.scroll.specs.lemmas.Frames.{WritesPrefix-keeps};
ghost use Rattle.scroll_layouts.specs.Formats.{refuses};
ghost use Rattle.scroll_layouts.specs.Wholes.{KeepsWhole, ReadsExact, WritesWhole};

mod module;
#[cfg(test)]
mod tests;

pub use crate::module::{
    Contents, Custom, Export, ExportList, Exports, FunctionType, FunctionTypes, Import, ImportList,
    Imported, Imports, IndexList, Indices, Limits, Module, Name, Section, Sections, TableType,
    Types,
};
use scroll::ctx::{TryFromCtx, TryIntoCtx};
use scroll::{Error, LE, Pread, Result, slice};
use scroll_layouts::{Given, Part, ReadPart, read_exact, write_whole};

impl<'a> TryFromCtx<'a, ()> for Module<'a> {
    type Error = Error;

    ghost reads = { λ _ s. ReadsExact
        (⟦<Module<'a> as ReadPart<'a, Given<usize>, Error>>⟧.format (record { 0 = length s })) Little s };

    ghost refuses = { λ _ s. refuses
        (⟦<Module<'a> as ReadPart<'a, Given<usize>, Error>>⟧.format (record { 0 = length s })) Little s 0 };

    ghost reads_bounded = { λ _ s x n h. Prim.search rules };

    fn try_from_ctx(from: &'a [u8], _ctx: ()) -> Result<(Module<'a>, usize)> {
        read_exact::<Given<usize>, Error, Module<'a>>(from, LE, &Given(from.len()))
    }
}

impl<'a> TryIntoCtx<()> for Module<'a> {
    type Error = Error;

    ghost writes = { λ _ x. WritesWhole (⟦<Module<'a> as Part<Given<usize>, Error>>⟧.format
        (record { 0 = length x.sections.bytes.now + 8 })) Little x };

    ghost refuses = { λ _ x. KeepsWhole (λ e d. d ≡ e)
        (⟦<Module<'a> as Part<Given<usize>, Error>>⟧.format
        (record { 0 = length x.sections.bytes.now + 8 })) Little x };

    ghost writes_bounded = { λ _ x old new n h. Prim.search rules };

    ghost writes_keeps = { λ _ x old new n h. WritesPrefix-keeps _ old new n h.wrote };

    fn try_into_ctx(self, dst: &mut [u8], _ctx: ()) -> Result<usize> {
        let len = self.sections.bytes.len() + 8;
        write_whole::<Given<usize>, Error, Module<'a>>(&self, dst, LE, &Given(len))
    }
}

/// Reads a whole module, and nothing but it. Its bytes are those by which it is written.
pub fn read_module<'a>(file: &'a [u8]) -> Result<Module<'a>>
    ensures read { IfOk result (ReadsSome (⟦<Module<'a> as TryFromCtx<'a, ()>>⟧.reads tt) file.now
        0) }
    ensures version { IfOk result (λ x. x.version ≡ number Little 4 (drop 4 file.now)) }
    ensures sections { IfOk result (λ x. x.sections.bytes.now
        ≡ take (length x.sections.bytes.now) (drop 8 file.now)) }
    ensures refused { IfErr result (RefusesAt (⟦<Module<'a> as TryFromCtx<'a, ()>>⟧.refuses tt)
        IsBadOffset file.now 0) }
{
    file.pread_with(0, ())
}

/// Writes a module to the start of `target`, and returns its size in bytes. It reads back. Sections
/// with lengths, counts or kinds that don't agree are refused, and a module that has no room; then
/// the target is unchanged.
pub fn write_module<'a>(target: &mut [u8], value: Module<'a>) -> Result<usize>
    ensures wrote { IfOk result (WritesAt
        (⟦<Module<'a> as TryIntoCtx<()>>⟧.writes tt value.entry) target.old 0 target.new) }
    ensures refused { IfErr result (RefusesWriteAt
        (⟦<Module<'a> as TryIntoCtx<()>>⟧.refuses tt value.entry) IsBadOffset target.old 0
        target.new) }
{
    slice::pwrite_with(target, value, 0, ())
}
