// Many sections of an ELF file in one call.
ghost use Rattle.std.specs.Prelude.{◌≡◌, ◌≤◌, ◌<◌, ◌+◌, ◌*◌, ◌<ℤ◌, ◌⊎◌, take, drop, pos, length, IfOk, IfErr, IfSome, IfNone};
ghost use Rattle.scroll_ffi.specs.Interface.{Fills, AreSections, IsSection, IsNoSection, past};
ghost use Rattle.scroll_ffi.specs.Refusals.{RefusesNext};
ghost use Rattle.object_files.specs.Headers.{IsOrder};

use crate::ScrollError;
use crate::elf::{ScrollElfSection, ScrollElfSections, name_len, next, section_at};
use scroll::{BE, Cread, Endian, LE};

/// Reads the next sections and their names into `filled`, as many as it has room for, and stores in
/// `count` how many: none after the last. It ends before a section that can't be read; if that is
/// the first, it stores no section, and returns the error, as `scroll_elf_next` does. Otherwise it
/// returns 0. It allocates nothing.
#[unsafe(no_mangle)]
pub extern "C" fn scroll_elf_fill(
    file: &[u8],
    sections: &mut ScrollElfSections,
    filled: &mut [ScrollElfSection],
    count: &mut usize,
    error: &mut ScrollError,
) -> i32
    ensures answer { (result ≡ pos 0) ⊎ (result <ℤ pos 0) }
    ensures filled { result ≡ pos 0
        → Fills file.now count.new sections.old sections.new filled.old filled.new }
    ensures refused { result <ℤ pos 0
        → RefusesNext file.now sections.old sections.new error.new }
    ensures code { result <ℤ pos 0 → result ≡ error.new.code }
    ensures none { result <ℤ pos 0 → count.new ≡ 0 }
    ensures stays { result <ℤ pos 0 → filled.new ≡ filled.old }
    ensures ends { result <ℤ pos 0 → sections.new.left < sections.old.left }
    ensures no_error { result ≡ pos 0 → error.new ≡ error.old }
{
    match fill(file, sections, filled) {
        Ok(found) => {
            *count = found;
            0
        }
        Err(why) => {
            *count = 0;
            *error = why;
            why.code
        }
    }
}

#[inline(always)]
pub(crate) fn fill(
    file: &[u8],
    sections: &mut ScrollElfSections,
    filled: &mut [ScrollElfSection],
) -> Result<usize, ScrollError>
    ensures filled { IfOk result (λ n.
        Fills file.now n sections.old sections.new filled.old filled.new) }
    ensures refused { IfErr result (RefusesNext file.now sections.old sections.new) }
    ensures stays { IfErr result (λ _. filled.new ≡ filled.old) }
    ensures ends { IfErr result (λ _. sections.new.left < sections.old.left) }
    ensures error { IfErr result (λ e. e.code <ℤ pos 0) }
{
    let found = fill_ready(file, *sections, filled);
    if found > 0 {
        sections.left -= found as u32;
        sections.next += 64 * found as u64;
        return Ok(found);
    }
    if filled.len() == 0 || sections.left == 0 {
        return Ok(0);
    }
    let mut section = filled[0];
    next(file, sections, &mut section)?;
    filled[0] = section;
    Ok(1)
}

// Reads sections into `filled`, and returns how many: it ends before one that can't be read.
#[inline(always)]
fn fill_ready(file: &[u8], from: ScrollElfSections, filled: &mut [ScrollElfSection]) -> usize
    ensures fits { result ≤ length filled.old }
    ensures left { result ≤ from.left }
    ensures inside { 0 < result → from.next + 64 * result ≤ length file.now }
    ensures each { AreSections file.now from result filled.new }
    ensures rest { drop result filled.new ≡ drop result filled.old }
    ensures most { result < length filled.old → result < from.left
        → IsNoSection file.now (past result from) }
{
    let len = file.len() as u64;
    if from.names_offset > len || from.names_size > len - from.names_offset || from.next > len {
        return 0;
    }
    let names = &file[from.names_offset as usize..][..from.names_size as usize];
    let count = count_ready(len - from.next, from.left, filled.len());
    match from.order {
        1 => fill_in_order(file, from, names, LE, count, filled),
        2 => fill_in_order(file, from, names, BE, count, filled),
        _ => 0,
    }
}

// Returns how many entries to read: as many as are left, as are in the file, and as there is room
// for.
#[inline(always)]
fn count_ready(size: u64, left: u32, room: usize) -> usize
    ensures left { result ≤ left }
    ensures room { result ≤ room }
    ensures inside { 64 * result ≤ size }
    ensures most { result < left → result < room → size < 64 * result + 64 }
{
    let there = (size / 64).min(u64::from(left)) as usize;
    there.min(room)
}

#[inline(always)]
fn fill_in_order(
    file: &[u8],
    from: ScrollElfSections,
    names: &[u8],
    order: Endian,
    count: usize,
    filled: &mut [ScrollElfSection],
) -> usize
    requires order { IsOrder order from.order }
    requires names { names.now ≡ take from.names_size (drop from.names_offset file.now) }
    requires inside { from.names_offset + from.names_size ≤ length file.now }
    requires room { from.next + 64 * count ≤ length file.now }
    requires fits { count ≤ length filled.old }
    requires most { count < length filled.old → count < from.left
        → length file.now < from.next + 64 * count + 64 }
    ensures count { result ≤ count }
    ensures each { AreSections file.now from result filled.new }
    ensures rest { drop result filled.new ≡ drop result filled.old }
    ensures most { result < length filled.old → result < from.left
        → IsNoSection file.now (past result from) }
{
    for i in 0..count {
        let Some(section) = section_after(file, from, names, order, i) else {
            return i;
        };
        filled[i] = section;
    }
    count
}

// Returns the section that comes so many after the next one, if its name can be read.
#[inline(always)]
fn section_after(
    file: &[u8],
    from: ScrollElfSections,
    names: &[u8],
    order: Endian,
    after: usize,
) -> Option<ScrollElfSection>
    requires order { IsOrder order from.order }
    requires names { names.now ≡ take from.names_size (drop from.names_offset file.now) }
    requires inside { from.names_offset + from.names_size ≤ length file.now }
    requires room { from.next + 64 * after + 64 ≤ length file.now }
    ensures section { IfSome result (IsSection file.now (past after from)) }
    ensures none { IfNone result (IsNoSection file.now (past after from)) }
{
    let offset = from.next as usize + 64 * after;
    let entry = &file[offset..];
    // (known already; so tested, the compiler leaves out the test of each read)
    if entry.len() < 64 {
        return None;
    }
    let name: u32 = file.cread_with(offset, order);
    match name_len(names, name, from.names_offset) {
        Ok(len) => Some(section_at(entry, order, from.names_offset + u64::from(name), len)),
        Err(_) => None,
    }
}
