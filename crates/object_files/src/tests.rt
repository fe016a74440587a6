// A small object file in both byte orders, what is read from it, and the errors for parts of it.
ghost use Rattle.std.specs.Prelude.{◌<◌};

use crate::{
    ElfError, Header, Section, Sections, Symbol, name_table, read_sections, section_bytes,
    section_name, symbol_name,
};
use scroll::cstr::CStr;
use scroll::{LE, Pread};
use scroll_formats::Table;
use std::alloc::Global;
use std::fmt::Debug;
use std::process::Abort;

// GNU `as` 2.40 made this file from the text `lea (%rdi,%rsi),%eax` and `ret`, and `strip -s -R
// .data -R .bss` left this: 64 bytes of header, 4 of code, 17 of names, 3 of padding to a multiple
// of 8, and 3 entries of 64.
static LITTLE: [u8; 280] = [
    0x7f, 0x45, 0x4c, 0x46, 0x02, 0x01, 0x01, 0, 0, 0, 0, 0, 0, 0, 0, 0, 0x01, 0, 0x3e, 0, 0x01, 0,
    0, 0, 0, 0, 0, 0, 0, 0, 0, 0, 0, 0, 0, 0, 0, 0, 0, 0, 0x58, 0, 0, 0, 0, 0, 0, 0, 0, 0, 0, 0,
    0x40, 0, 0, 0, 0, 0, 0x40, 0, 0x03, 0, 0x02, 0, 0x8d, 0x04, 0x37, 0xc3, 0, 0x2e, 0x73, 0x68,
    0x73, 0x74, 0x72, 0x74, 0x61, 0x62, 0, 0x2e, 0x74, 0x65, 0x78, 0x74, 0, 0, 0, 0, 0, 0, 0, 0, 0,
    0, 0, 0, 0, 0, 0, 0, 0, 0, 0, 0, 0, 0, 0, 0, 0, 0, 0, 0, 0, 0, 0, 0, 0, 0, 0, 0, 0, 0, 0, 0, 0,
    0, 0, 0, 0, 0, 0, 0, 0, 0, 0, 0, 0, 0, 0, 0, 0, 0, 0, 0, 0, 0, 0, 0, 0, 0, 0, 0, 0x0b, 0, 0, 0,
    0x01, 0, 0, 0, 0x06, 0, 0, 0, 0, 0, 0, 0, 0, 0, 0, 0, 0, 0, 0, 0, 0x40, 0, 0, 0, 0, 0, 0, 0,
    0x04, 0, 0, 0, 0, 0, 0, 0, 0, 0, 0, 0, 0, 0, 0, 0, 0x01, 0, 0, 0, 0, 0, 0, 0, 0, 0, 0, 0, 0, 0,
    0, 0, 0x01, 0, 0, 0, 0x03, 0, 0, 0, 0, 0, 0, 0, 0, 0, 0, 0, 0, 0, 0, 0, 0, 0, 0, 0, 0x44, 0, 0,
    0, 0, 0, 0, 0, 0x11, 0, 0, 0, 0, 0, 0, 0, 0, 0, 0, 0, 0, 0, 0, 0, 0x01, 0, 0, 0, 0, 0, 0, 0, 0,
    0, 0, 0, 0, 0, 0, 0,
];

// The same file with the bytes of each number reversed, and 2 for the byte order. `readelf -h -S
// -W` prints the same for it, except for the order.
static BIG: [u8; 280] = [
    0x7f, 0x45, 0x4c, 0x46, 0x02, 0x02, 0x01, 0, 0, 0, 0, 0, 0, 0, 0, 0, 0, 0x01, 0, 0x3e, 0, 0, 0,
    0x01, 0, 0, 0, 0, 0, 0, 0, 0, 0, 0, 0, 0, 0, 0, 0, 0, 0, 0, 0, 0, 0, 0, 0, 0x58, 0, 0, 0, 0, 0,
    0x40, 0, 0, 0, 0, 0, 0x40, 0, 0x03, 0, 0x02, 0x8d, 0x04, 0x37, 0xc3, 0, 0x2e, 0x73, 0x68, 0x73,
    0x74, 0x72, 0x74, 0x61, 0x62, 0, 0x2e, 0x74, 0x65, 0x78, 0x74, 0, 0, 0, 0, 0, 0, 0, 0, 0, 0, 0,
    0, 0, 0, 0, 0, 0, 0, 0, 0, 0, 0, 0, 0, 0, 0, 0, 0, 0, 0, 0, 0, 0, 0, 0, 0, 0, 0, 0, 0, 0, 0, 0,
    0, 0, 0, 0, 0, 0, 0, 0, 0, 0, 0, 0, 0, 0, 0, 0, 0, 0, 0, 0, 0, 0, 0, 0, 0, 0, 0, 0, 0x0b, 0, 0,
    0, 0x01, 0, 0, 0, 0, 0, 0, 0, 0x06, 0, 0, 0, 0, 0, 0, 0, 0, 0, 0, 0, 0, 0, 0, 0, 0x40, 0, 0, 0,
    0, 0, 0, 0, 0x04, 0, 0, 0, 0, 0, 0, 0, 0, 0, 0, 0, 0, 0, 0, 0, 0x01, 0, 0, 0, 0, 0, 0, 0, 0, 0,
    0, 0, 0x01, 0, 0, 0, 0x03, 0, 0, 0, 0, 0, 0, 0, 0, 0, 0, 0, 0, 0, 0, 0, 0, 0, 0, 0, 0, 0, 0, 0,
    0x44, 0, 0, 0, 0, 0, 0, 0, 0x11, 0, 0, 0, 0, 0, 0, 0, 0, 0, 0, 0, 0, 0, 0, 0, 0x01, 0, 0, 0, 0,
    0, 0, 0, 0,
];

// Returns the little-endian file with another byte at an offset.
fn with_byte(offset: usize, byte: u8) -> [u8; 280]
    requires { offset < 280 }
{
    let mut file = LITTLE;
    file[offset] = byte;
    file
}

// What is read from both files, as it is printed. The values are those that `readelf -h -S -W`
// prints, and the offsets of the names.
const LITTLE_HEADER: &str =
    "Header { order: Little, system: 0, kind: 1, machine: 62, version: 1, entry: 0, \
    segments_offset: 0, sections_offset: 88, flags: 0, header_size: 64, segment_size: 0, segment_count: 0, \
    section_size: 64, section_count: 3, names_index: 2 }";

const BIG_HEADER: &str =
    "Header { order: Big, system: 0, kind: 1, machine: 62, version: 1, entry: 0, \
    segments_offset: 0, sections_offset: 88, flags: 0, header_size: 64, segment_size: 0, segment_count: 0, \
    section_size: 64, section_count: 3, names_index: 2 }";

static SECTIONS: [(&str, &str); 3] = [
    (
        "",
        "Section { name: 0, kind: 0, flags: 0, address: 0, offset: 0, size: 0, link: 0, info: 0, \
         alignment: 0, entry_size: 0 }",
    ),
    (
        ".text",
        "Section { name: 11, kind: 1, flags: 6, address: 0, offset: 64, size: 4, link: 0, info: 0, \
         alignment: 1, entry_size: 0 }",
    ),
    (
        ".shstrtab",
        "Section { name: 1, kind: 3, flags: 0, address: 0, offset: 68, size: 17, link: 0, info: 0, \
         alignment: 1, entry_size: 0 }",
    ),
];

// Checks what a value prints.
fn check_printed<T: Debug + Drop>(rt: &impl Abort, alloc: Global, value: T, wanted: &str) {
    let printed = format!(in alloc; "{value:?}").expect(rt, "memory");
    assert!(rt;
        printed.as_str() == wanted,
        "expected {wanted}, got {printed}"
    );
}

// Checks a name that is read.
fn check_text(rt: &impl Abort, name: Result<CStr<'_>, ElfError>, wanted: &str) {
    let name = name.expect(rt, "a name");
    assert!(rt; name.to_bytes() == wanted.as_bytes(), "got {name:?}");
}

fn header_of(rt: &impl Abort, file: &[u8]) -> Header {
    file.pread_with(0, ()).expect(rt, "a header")
}

fn sections_of<'a>(rt: &impl Abort, file: &'a [u8]) -> Sections<'a> {
    read_sections(file, &header_of(rt, file)).expect(rt, "sections")
}

fn section_of(rt: &impl Abort, file: &[u8], index: usize) -> Section {
    let sections = sections_of(rt, file);
    sections.get(index).expect(rt, "a section")
}

fn names_of<'a>(rt: &impl Abort, file: &'a [u8]) -> &'a [u8] {
    let sections = sections_of(rt, file);
    name_table(file, &header_of(rt, file), &sections).expect(rt, "names")
}

// Checks the header, the sections and their names.
fn check_file(rt: &impl Abort, alloc: Global, file: &[u8], wanted_header: &str) {
    check_printed(rt, alloc, header_of(rt, file), wanted_header);
    check_printed(rt, alloc, sections_of(rt, file).len(), "3");
    for (i, (name, printed)) in SECTIONS.iter().enumerate() {
        let section = section_of(rt, file, i);
        check_text(rt, section_name(names_of(rt, file), &section), name);
        check_printed(rt, alloc, section, printed);
    }
}

// Checks what a read of a header at an offset returns.
fn check_header(rt: &impl Abort, alloc: Global, file: &[u8], offset: usize, wanted: &str) {
    let header: Result<Header, ElfError> = file.pread_with(offset, ());
    check_printed(rt, alloc, header, wanted);
}

// Checks the error of a read of the sections after the header.
fn check_table_refused(rt: &impl Abort, alloc: Global, file: &[u8], wanted: &str) {
    let error = read_sections(file, &header_of(rt, file)).err();
    check_printed(rt, alloc, error, wanted);
}

// Checks what a read of the names in a file returns, by the sections of the whole one.
fn check_names(rt: &impl Abort, alloc: Global, file: &[u8], whole: &[u8], wanted: &str) {
    let sections = sections_of(rt, whole);
    let names = name_table(file, &header_of(rt, whole), &sections);
    check_printed(rt, alloc, names, wanted);
}

// Checks what a read of the name `.text` in so many bytes of the names returns.
fn check_name(rt: &impl Abort, alloc: Global, len: usize, wanted: &str) {
    let names = names_of(rt, &LITTLE);
    let text = section_of(rt, &LITTLE, 1);
    let name = section_name(&names[..names.len().min(len)], &text);
    check_printed(rt, alloc, name, wanted);
}

#[test]
fn both_orders_are_read(rt: HostRuntime) {
    check_file(&rt, rt.alloc(), &LITTLE, LITTLE_HEADER);
    check_file(&rt, rt.alloc(), &BIG, BIG_HEADER);
}

// Other values of the first bytes, and the errors. (The first number is 0xff45_4c46.)
static REFUSED: [(usize, u8, &str); 11] = [
    (0, 0xff, "Err(BadMagic(4282731590))"),
    (1, 0x65, "Err(BadMagic(2137345094))"),
    (2, 0x6c, "Err(BadMagic(2135256134))"),
    (3, 0x47, "Err(BadMagic(2135247943))"),
    (4, 1, "Err(BadClass(1))"),
    (4, 3, "Err(BadClass(3))"),
    (5, 0, "Err(BadOrder(0))"),
    (5, 3, "Err(BadOrder(3))"),
    (6, 0, "Err(BadVersion(0))"),
    (6, 2, "Err(BadVersion(2))"),
    (6, 0xff, "Err(BadVersion(255))"),
];

#[test]
fn identifications_are_refused(rt: HostRuntime) {
    for (offset, byte, wanted) in REFUSED.iter() {
        if *offset < 280 {
            check_header(&rt, rt.alloc(), &with_byte(*offset, *byte), 0, wanted);
        }
    }
    // The system's byte is kept, and the others up to byte 16 may be anything.
    let mut file = LITTLE;
    file[8..16].fill(0xff);
    check_file(&rt, rt.alloc(), &file, LITTLE_HEADER);
}

#[test]
fn headers_are_refused(rt: HostRuntime) {
    let alloc = rt.alloc();
    let cut = "Err(Refused(TooBig { size: 64, len: 63 }))";
    check_header(&rt, alloc, &LITTLE[..63], 0, cut);
    check_header(&rt, alloc, &LITTLE, 281, "Err(Refused(BadOffset(281)))");
}

#[test]
fn tables_are_refused(rt: HostRuntime) {
    let alloc = rt.alloc();
    let cut = "Some(Refused(TooBig { size: 192, len: 191 }))";
    check_table_refused(&rt, alloc, &LITTLE[..279], cut);
    check_table_refused(
        &rt,
        alloc,
        &with_byte(41, 2),
        "Some(Refused(BadOffset(600)))",
    );
    check_table_refused(&rt, alloc, &with_byte(58, 63), "Some(BadEntrySize(63))");
    check_table_refused(&rt, alloc, &with_byte(60, 0), "Some(LongTable)");
}

#[test]
fn names_are_refused(rt: HostRuntime) {
    let alloc = rt.alloc();
    let file = with_byte(62, 3);
    check_names(&rt, alloc, &file, &file, "Err(BadNames(3))");
    let cut = "Err(Refused(TooBig { size: 17, len: 12 }))";
    check_names(&rt, alloc, &LITTLE[..80], &LITTLE, cut);
    let unended =
        "Err(Refused(BadInput { size: 0, msg: \"The input doesn't contain a null byte\" }))";
    check_name(&rt, alloc, 16, unended);
    check_name(&rt, alloc, 10, "Err(Refused(BadOffset(11)))");
}

// The sections `.symtab` and `.strtab` that GNU `as` 2.40 makes of a function `add` of 4 bytes, and
// what `readelf -s` prints of the second symbol.
static SYMBOLS: [u8; 48] = [
    0, 0, 0, 0, 0, 0, 0, 0, 0, 0, 0, 0, 0, 0, 0, 0, 0, 0, 0, 0, 0, 0, 0, 0, 0x01, 0, 0, 0, 0x12, 0,
    0x01, 0, 0, 0, 0, 0, 0, 0, 0, 0, 0x04, 0, 0, 0, 0, 0, 0, 0,
];

const ADD: &str = "Symbol { name: 1, info: 18, other: 0, section: 1, value: 0, size: 4 }";

#[test]
fn symbols_are_read(rt: HostRuntime) {
    let alloc = rt.alloc();
    let symbols: Table<Symbol> = Table::new(&SYMBOLS, LE);
    check_printed(&rt, alloc, symbols.len(), "2");
    let symbol = symbols.get(1).expect(&rt, "a symbol");
    check_text(&rt, symbol_name(b"\0add\0", &symbol), "add");
    check_printed(&rt, alloc, symbol, ADD);
}

#[test]
fn bytes_of_a_section_are_read(rt: HostRuntime) {
    let alloc = rt.alloc();
    let text = section_of(&rt, &LITTLE, 1);
    let code = section_bytes(&LITTLE, &text);
    check_printed(&rt, alloc, code, "Ok([141, 4, 55, 195])");
    let cut = section_bytes(&LITTLE[..66], &text);
    check_printed(&rt, alloc, cut, "Err(Refused(TooBig { size: 4, len: 2 }))");
}
