// The bytes of sections, and names.
ghost use Rattle.std.specs.Prelude.{IfOk, IfErr};
ghost use Rattle.scroll.specs.CStringTexts.{c_str_text};
ghost use Rattle.object_files.specs.Names.{
  HasBytes,
  RefusesBytes,
  IsNameTable,
  RefusesNameTable,
  IsName,
  RefusesName,
};

use crate::error::ElfError;
use crate::header::Header;
use crate::sections::{Section, Sections, Symbol};
use scroll::Pread;
use scroll::cstr::CStr;

/// Returns the bytes of a section. The error is [`ElfError::Refused`] if they are out of bounds.
///
/// Those of a section of kind [`SYMBOLS`](crate::SYMBOLS) are a `Table<Symbol>` of the library.
#[inline(always)]
pub fn section_bytes<'a>(file: &'a [u8], section: &Section) -> Result<&'a [u8], ElfError>
    ensures bytes { IfOk result (λ bytes. HasBytes file.now section.now bytes.now) }
    ensures refused { IfErr result (RefusesBytes file.now section.now) }
{
    let bytes: &'a [u8] = file.pread_with(section.offset as usize, section.size as usize)?;
    Ok(bytes)
}

/// Returns the table of names: the bytes of the section that the header names. The error is
/// [`ElfError::BadNames`] if there is no such section, and [`ElfError::Refused`] if its bytes are
/// out of bounds.
pub fn name_table<'a>(
    file: &'a [u8],
    header: &Header,
    sections: &Sections,
) -> Result<&'a [u8], ElfError>
    ensures table { IfOk result (λ names. IsNameTable file.now header.now sections.now names.now) }
    ensures refused { IfErr result (RefusesNameTable file.now header.now sections.now) }
{
    let Some(section) = sections.get(usize::from(header.names_index)) else {
        return Err(ElfError::BadNames(header.names_index));
    };
    section_bytes(file, &section)
}

/// Returns the name of a section, from the table of names. The error is [`ElfError::Refused`] if
/// the name is out of bounds or no zero ends it.
#[inline(always)]
pub fn section_name<'a>(names: &'a [u8], section: &Section) -> Result<CStr<'a>, ElfError>
    ensures name { IfOk result (λ name. IsName names.now section.now.name (c_str_text name)) }
    ensures refused { IfErr result (RefusesName names.now section.now.name) }
{
    name_at(names, section.name)
}

/// Returns the name of a symbol, from the bytes of the section that the table of symbols links to.
/// The error is [`ElfError::Refused`] if the name is out of bounds or no zero ends it.
#[inline(always)]
pub fn symbol_name<'a>(names: &'a [u8], symbol: &Symbol) -> Result<CStr<'a>, ElfError>
    ensures name { IfOk result (λ name. IsName names.now symbol.now.name (c_str_text name)) }
    ensures refused { IfErr result (RefusesName names.now symbol.now.name) }
{
    name_at(names, symbol.name)
}

// Returns the name at an offset.
#[inline(always)]
fn name_at<'a>(names: &'a [u8], offset: u32) -> Result<CStr<'a>, ElfError>
    ensures name { IfOk result (λ name. IsName names.now offset (c_str_text name)) }
    ensures refused { IfErr result (RefusesName names.now offset) }
{
    let name: CStr<'a> = names.pread_with(offset as usize, ())?;
    Ok(name)
}
