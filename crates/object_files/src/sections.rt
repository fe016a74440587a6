// The tables of sections and of symbols. A section of kind `SYMBOLS` is a table of symbols, read
// where it lies: its bytes are a `Table<Symbol>` of the library, in the order of the file.
ghost use Rattle.std.specs.Prelude.{◌≡◌, ◌<◌, ◌≤◌, ◌+◌, ◌*◌, length, IfOk, IfErr};
ghost use Rattle.object_files.specs.Sections.{Entries, IsTable, RefusesTable, section_get, section_of};

mod derived;

use crate::error::ElfError;
use crate::header::Header;
use scroll::{Cread, Endian, Pread};
use std::marker::Model;

/// An entry of the table of sections, with the format's name for each field.
// #[derive(Pread, Pwrite)]
#[derive(Clone, Copy, Debug)]
pub struct Section {
    /// `sh_name`, the offset of its name in the table of names.
    pub name: u32,
    /// `sh_type`.
    pub kind: u32,
    /// `sh_flags`.
    pub flags: u64,
    /// `sh_addr`.
    pub address: u64,
    /// `sh_offset`.
    pub offset: u64,
    /// `sh_size`.
    pub size: u64,
    /// `sh_link`.
    pub link: u32,
    /// `sh_info`.
    pub info: u32,
    /// `sh_addralign`.
    pub alignment: u64,
    /// `sh_entsize`.
    pub entry_size: u64,
}

const SIZE: usize = 64;

/// The table of sections. It borrows the file: each entry is read where it lies.
#[derive(Drop)]
pub struct Sections<'a> {
    file: &'a [u8],
    start: usize,
    count: usize,
    order: Endian,
}

impl<'a> Model for Sections<'a> {
    ghost Value = { Entries };

    ghost view = { λ s. record { file = s.file.now; start = s.start; count = s.count; order = s.order } };

    ghost invariant = { λ s. s.start + 64 * s.count ≤ length s.file.now };
}

impl<'a> Sections<'a> {
    /// Returns the number of entries.
    #[inline(always)]
    pub fn len(&self) -> usize
        ensures { result ≡ self.now.count }
    {
        self.count
    }

    /// Returns the entry with an index, or `None` if there are fewer.
    #[inline(always)]
    pub fn get(&self, index: usize) -> Option<Section>
        ensures { result ≡ section_get self.now index }
    {
        if index >= self.count {
            return None;
        }
        Some(section_at(&self.file[self.start + SIZE * index..], self.order))
    }
}

// Returns the entry at the start of some bytes. It is read field by field, so that a caller reads
// only those that it uses.
#[inline(always)]
fn section_at(bytes: &[u8], order: Endian) -> Section
    requires { 64 ≤ length bytes.now }
    ensures { result ≡ section_of order bytes.now }
{
    Section {
        name: bytes.cread_with(0, order),
        kind: bytes.cread_with(4, order),
        flags: bytes.cread_with(8, order),
        address: bytes.cread_with(16, order),
        offset: bytes.cread_with(24, order),
        size: bytes.cread_with(32, order),
        link: bytes.cread_with(40, order),
        info: bytes.cread_with(44, order),
        alignment: bytes.cread_with(48, order),
        entry_size: bytes.cread_with(56, order),
    }
}

/// Returns the table of sections.
pub fn read_sections<'a>(file: &'a [u8], header: &Header) -> Result<Sections<'a>, ElfError>
    ensures table { IfOk result (IsTable file.now header.now) }
    ensures refused { IfErr result (RefusesTable file.now header.now) }
{
    if header.section_count == 0 && header.sections_offset != 0 {
        return Err(ElfError::LongTable);
    }
    if header.section_count != 0 && usize::from(header.section_size) != SIZE {
        return Err(ElfError::BadEntrySize(header.section_size));
    }
    let count = usize::from(header.section_count);
    let start = header.sections_offset as usize;
    let _entries: &[u8] = file.pread_with(start, SIZE * count)?;
    Ok(Sections {
        file,
        start,
        count,
        order: header.order,
    })
}

/// The kind of a section that is the table of symbols, `SHT_SYMTAB`. Its `link` is the index of
/// the section with their names.
pub const SYMBOLS: u32 = 2;

/// A symbol, with the format's name for each field.
// #[derive(Pread, Pwrite)]
#[derive(Clone, Copy, Debug)]
pub struct Symbol {
    /// `st_name`, the offset of its name in the table of names.
    pub name: u32,
    /// `st_info`.
    pub info: u8,
    /// `st_other`.
    pub other: u8,
    /// `st_shndx`.
    pub section: u16,
    /// `st_value`.
    pub value: u64,
    /// `st_size`.
    pub size: u64,
}
