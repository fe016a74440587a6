// The sections of an ELF file, one at a time.
ghost use Rattle.std.specs.Prelude.{◌≡◌, ◌≤◌, ◌<◌, ◌+◌, ◌-◌, ◌*◌, ◌⊎◌, ◌<ℤ◌, ◌≤ℤ◌, ℕ, List, drop, pos, IfOk, IfErr, length};
ghost use Rattle.scroll_ffi.specs.Interface.{IsOpened, IsEntry, AreFields, HasLen, HasName, past};
ghost use Rattle.scroll_ffi.specs.Refusals.{RefusesOpen, RefusesEntryOf, RefusesPart, IsUnnamed, StopsNext, SkipsNext, RefusesLen, RefusesOrder};
ghost use Rattle.object_files.specs.Sections.{section_of};
ghost use Rattle.object_files.specs.Names.{IsName};
ghost use Rattle.object_files.specs.Headers.{IsOrder};

use crate::{
    SCROLL_BAD_ENTRY_SIZE, SCROLL_BAD_INPUT, SCROLL_BAD_NAMES, SCROLL_BAD_OFFSET, SCROLL_BAD_ORDER,
    SCROLL_LONG_TABLE, SCROLL_TRUNCATED, ScrollError, elf_fault, fault,
};
use object_files::{Header, Section};
use scroll::cstr::CStr;
use scroll::{BE, Cread, Endian, LE, Pread};

/// The sections of an ELF file that are still to be read. `scroll_elf_open` fills it, and
/// `scroll_elf_next` advances it. Its numbers are tested again at each call.
#[repr(C)]
#[derive(Clone, Copy)]
pub struct ScrollElfSections {
    /// The byte order: 1 for little-endian, 2 for big-endian.
    pub order: u32,
    /// How many sections are left.
    pub left: u32,
    /// The offset in the file of the next section's entry.
    pub next: u64,
    /// The offset in the file of the sections' names.
    pub names_offset: u64,
    /// The size of the names in bytes.
    pub names_size: u64,
}

/// A section: its name, and the fields of its entry, each with the format's name.
#[repr(C)]
#[derive(Clone, Copy)]
pub struct ScrollElfSection {
    /// The offset in the file of its name.
    pub name_offset: u64,
    /// The length of its name in bytes. A zero follows it.
    pub name_len: u64,
    /// `sh_name`, the offset of its name in the table of names.
    pub name: u32,
    /// `sh_type`.
    pub kind: u32,
    /// `sh_flags`.
    pub flags: u64,
    /// `sh_addr`.
    pub address: u64,
    /// `sh_offset`.
    pub offset: u64,
    /// `sh_size`.
    pub size: u64,
    /// `sh_link`.
    pub link: u32,
    /// `sh_info`.
    pub info: u32,
    /// `sh_addralign`.
    pub alignment: u64,
    /// `sh_entsize`.
    pub entry_size: u64,
}

/// Reads the header of an ELF file and stores its sections in `sections`, none of them read yet.
/// Returns 0, or an error, after which `sections` is unchanged.
#[unsafe(no_mangle)]
pub extern "C" fn scroll_elf_open(
    file: &[u8],
    sections: &mut ScrollElfSections,
    error: &mut ScrollError,
) -> i32
    ensures answer { (result ≡ pos 0) ⊎ (result <ℤ pos 0) }
    ensures opened { result ≡ pos 0 → IsOpened file.now sections.new }
    ensures refused { result <ℤ pos 0 → RefusesOpen file.now error.new }
    ensures code { result <ℤ pos 0 → result ≡ error.new.code }
    ensures stays { result <ℤ pos 0 → sections.new ≡ sections.old }
    ensures no_error { result ≡ pos 0 → error.new ≡ error.old }
{
    match open(file) {
        Ok(found) => {
            *sections = found;
            0
        }
        Err(why) => {
            *error = why;
            why.code
        }
    }
}

pub(crate) fn open(file: &[u8]) -> Result<ScrollElfSections, ScrollError>
    ensures opened { IfOk result (λ found. IsOpened file.now found) }
    ensures refused { IfErr result (RefusesOpen file.now) }
    ensures error { IfErr result (λ e. e.code <ℤ pos 0) }
{
    let header: Header = match file.pread_with(0, ()) {
        Ok(header) => header,
        Err(error) => return Err(elf_fault(&error, 0)),
    };
    let mut found = ScrollElfSections {
        order: order_number(header.order),
        left: u32::from(header.section_count),
        next: header.sections_offset,
        names_offset: 0,
        names_size: 0,
    };
    if header.section_count == 0 {
        if header.sections_offset != 0 {
            return Err(fault(SCROLL_LONG_TABLE, 60, 0));
        }
        return Ok(found);
    }
    if header.section_size != 64 {
        return Err(fault(SCROLL_BAD_ENTRY_SIZE, 58, u64::from(header.section_size)));
    }
    if header.names_index >= header.section_count {
        return Err(fault(SCROLL_BAD_NAMES, 62, u64::from(header.names_index)));
    }
    let entry = match read_entry(
        file,
        header.sections_offset,
        u64::from(header.names_index),
        header.order,
    ) {
        Ok(entry) => entry,
        Err(error) => return Err(error),
    };
    check_part(file, entry.offset, entry.size)?;
    found.names_offset = entry.offset;
    found.names_size = entry.size;
    Ok(found)
}

// Reads an entry of a table that starts at an offset.
fn read_entry(file: &[u8], table: u64, index: u64, order: Endian) -> Result<Section, ScrollError>
    requires { index < 65536 }
    ensures entry { IfOk result (λ entry.
        entry ≡ section_of order (drop (table + 64 * index) file.now)) }
    ensures refused { IfErr result (RefusesEntryOf file.now table index) }
    ensures error { IfErr result (λ e. e.code <ℤ pos 0) }
{
    let Some(offset) = table.checked_add(64 * index) else {
        return Err(fault(SCROLL_BAD_OFFSET, table, 0));
    };
    entry_at(file, offset, order)
}

// Reads the entry at an offset.
#[inline(always)]
fn entry_at(file: &[u8], offset: u64, order: Endian) -> Result<Section, ScrollError>
    ensures entry { IfOk result (λ entry. entry ≡ section_of order (drop offset file.now)) }
    ensures room { IfOk result (λ _. offset + 64 ≤ length file.now) }
    ensures refused { IfErr result (RefusesPart file.now offset 64) }
    ensures error { IfErr result (λ e. e.code <ℤ pos 0) }
{
    check_part(file, offset, 64)?;
    Ok(file.cread_with(offset as usize, order))
}

// Checks that a part of the file is there.
#[inline(always)]
fn check_part(file: &[u8], offset: u64, size: u64) -> Result<(), ScrollError>
    ensures room { IfOk result (λ _. offset + size ≤ length file.now) }
    ensures refused { IfErr result (RefusesPart file.now offset size) }
    ensures error { IfErr result (λ e. e.code <ℤ pos 0) }
{
    let len = file.len() as u64;
    if offset > len {
        return Err(fault(SCROLL_BAD_OFFSET, offset, 0));
    }
    if size > len - offset {
        return Err(fault(SCROLL_TRUNCATED, offset, 0));
    }
    Ok(())
}

/// Reads the next section and its name. Returns 1; or 0 after the last; or an error. After the
/// error of a name, whose offset is that of the names, the entry is stored with the name's offset and
/// length 0, and the next call goes on with the section after it; after any other error no section is
/// left, and `section` is unchanged.
#[unsafe(no_mangle)]
pub extern "C" fn scroll_elf_next(
    file: &[u8],
    sections: &mut ScrollElfSections,
    section: &mut ScrollElfSection,
    error: &mut ScrollError,
) -> i32
    ensures answer { (result ≡ pos 1) ⊎ ((result ≡ pos 0) ⊎ (result <ℤ pos 0)) }
    ensures entry { result ≡ pos 1 → IsEntry file.now sections.old section.new }
    ensures name { result ≡ pos 1 → HasName file.now sections.old section.new }
    ensures passes { result ≡ pos 1 → sections.new ≡ past 1 sections.old }
    ensures fewer { result ≡ pos 1 → sections.old.left ≡ sections.new.left + 1 }
    ensures end { result ≡ pos 0 → sections.old.left ≡ 0 }
    ensures stays { result ≡ pos 0 → (sections.new ≡ sections.old) × (section.new ≡ section.old) }
    ensures refused { result <ℤ pos 0
        → (StopsNext file.now sections.old sections.new error.new × (section.new ≡ section.old))
        ⊎ (SkipsNext file.now sections.old sections.new error.new
        × IsUnnamed file.now sections.old section.new) }
    ensures code { result <ℤ pos 0 → result ≡ error.new.code }
    ensures ends { result <ℤ pos 0 → sections.new.left < sections.old.left }
    ensures no_error { pos 0 ≤ℤ result → error.new ≡ error.old }
{
    if sections.left == 0 {
        return 0;
    }
    match next(file, sections, section) {
        Ok(_) => 1,
        Err(why) => {
            *error = why;
            why.code
        }
    }
}

#[inline(always)]
pub(crate) fn next(
    file: &[u8],
    sections: &mut ScrollElfSections,
    section: &mut ScrollElfSection,
) -> Result<(), ScrollError>
    requires { 0 < sections.old.left }
    ensures entry { IfOk result (λ _. IsEntry file.now sections.old section.new) }
    ensures name { IfOk result (λ _. HasName file.now sections.old section.new) }
    ensures passes { IfOk result (λ _. sections.new ≡ past 1 sections.old) }
    ensures fewer { IfOk result (λ _. sections.old.left ≡ sections.new.left + 1) }
    ensures refused { IfErr result (λ e.
        (StopsNext file.now sections.old sections.new e × (section.new ≡ section.old))
        ⊎ (SkipsNext file.now sections.old sections.new e
        × IsUnnamed file.now sections.old section.new)) }
    ensures ends { IfErr result (λ _. sections.new.left < sections.old.left) }
    ensures error { IfErr result (λ e. e.code <ℤ pos 0) }
{
    let left = sections.left;
    let offset = sections.next;
    sections.left = 0;
    let order = order_of(sections.order)?;
    let names_offset = sections.names_offset;
    let names_size = sections.names_size;
    check_part(file, names_offset, names_size)?;
    let names = &file[names_offset as usize..][..names_size as usize];
    check_part(file, offset, 64)?;
    sections.left = left - 1;
    sections.next = offset + 64;
    let entry = &file[offset as usize..];
    let name: u32 = file.cread_with(offset as usize, order);
    match name_len(names, name, names_offset) {
        Ok(len) => {
            *section = section_at(entry, order, names_offset + u64::from(name), len);
            Ok(())
        }
        Err(why) => {
            *section = section_at(entry, order, 0, 0);
            Err(why)
        }
    }
}

// Returns the length of the name at an offset of the names.
#[inline(always)]
pub(crate) fn name_len(names: &[u8], offset: u32, names_offset: u64) -> Result<u64, ScrollError>
    ensures name { IfOk result (λ len. HasLen names.now offset len) }
    ensures none { IfErr result (λ _. (text : List ℕ) → ¬ IsName names.now offset text) }
    ensures refused { IfErr result (RefusesLen names.now offset names_offset) }
    ensures error { IfErr result (λ e. e.code <ℤ pos 0) }
{
    if offset as usize > names.len() {
        return Err(fault(SCROLL_BAD_OFFSET, names_offset, 0));
    }
    match CStr::from_bytes_until_nul(&names[offset as usize..]) {
        Some(name) => Ok(name.to_bytes().len() as u64),
        None => Err(fault(SCROLL_BAD_INPUT, names_offset, 0)),
    }
}

// Returns the section of the entry at the start of some bytes, with this name.
#[inline(always)]
pub(crate) fn section_at(
    entry: &[u8],
    order: Endian,
    name_offset: u64,
    name_len: u64,
) -> ScrollElfSection
    requires { 64 ≤ length entry.now }
    ensures fields { AreFields order entry.now 0 result }
    ensures start { result.name_offset ≡ name_offset }
    ensures len { result.name_len ≡ name_len }
{
    ScrollElfSection {
        name_offset,
        name_len,
        name: entry.cread_with(0, order),
        kind: entry.cread_with(4, order),
        flags: entry.cread_with(8, order),
        address: entry.cread_with(16, order),
        offset: entry.cread_with(24, order),
        size: entry.cread_with(32, order),
        link: entry.cread_with(40, order),
        info: entry.cread_with(44, order),
        alignment: entry.cread_with(48, order),
        entry_size: entry.cread_with(56, order),
    }
}

// Returns the number of a byte order.
fn order_number(order: Endian) -> u32
    ensures { IsOrder order result }
{
    match order {
        Endian::Little => 1,
        Endian::Big => 2,
    }
}

// Returns the byte order of a number.
#[inline(always)]
fn order_of(order: u32) -> Result<Endian, ScrollError>
    ensures order { IfOk result (λ found. IsOrder found order) }
    ensures refused { IfErr result (RefusesOrder order) }
    ensures error { IfErr result (λ e. e.code <ℤ pos 0) }
{
    match order {
        1 => Ok(LE),
        2 => Ok(BE),
        other => Err(fault(SCROLL_BAD_ORDER, 0, u64::from(other))),
    }
}
