// Tables of object files, and tables that are padded, truncated or wrong.
ghost use Rattle.std.specs.Prelude.{◌≤◌};

use crate::{Attribute, Children, Declaration, Table, TableError, read_table, write_table};
use scroll::{BE, Endian, LE, Pread, Pwrite};
use scroll_formats::write_many;
use scroll_layouts::{Items, Uleb};
use std::alloc::Global;
use std::fmt::Debug;
use std::process::Abort;

// The section of `struct pair { int a; int b; } p;`, from
//     gcc -g -c pair.c
//     objcopy -O binary --only-section=.debug_abbrev --set-section-flags .debug_abbrev=alloc pair.o pair.bin
//     xxd -i pair.bin
// with gcc 12.2.0. The expected values are those that `readelf --debug-dump=abbrev pair.o` prints.
static PAIR: [u8; 82] = [
    0x01, 0x0d, 0x00, 0x03, 0x08, 0x3a, 0x21, 0x01, 0x3b, 0x21, 0x01, 0x39, 0x0b, 0x49, 0x13, 0x38,
    0x0b, 0x00, 0x00, 0x02, 0x11, 0x01, 0x25, 0x0e, 0x13, 0x0b, 0x03, 0x1f, 0x1b, 0x1f, 0x10, 0x17,
    0x00, 0x00, 0x03, 0x13, 0x01, 0x03, 0x0e, 0x0b, 0x0b, 0x3a, 0x0b, 0x3b, 0x0b, 0x39, 0x0b, 0x01,
    0x13, 0x00, 0x00, 0x04, 0x24, 0x00, 0x0b, 0x0b, 0x3e, 0x0b, 0x03, 0x08, 0x00, 0x00, 0x05, 0x34,
    0x00, 0x03, 0x08, 0x3a, 0x0b, 0x3b, 0x0b, 0x39, 0x0b, 0x49, 0x13, 0x3f, 0x19, 0x02, 0x18, 0x00,
    0x00, 0x00,
];

// The section of `int f(int a) { return a; }`, likewise, from `gcc -gdwarf-4 -c f.c`. The name of
// one attribute, DW_AT_GNU_all_call_sites, takes two bytes.
static CALL: [u8; 78] = [
    0x01, 0x11, 0x01, 0x25, 0x0e, 0x13, 0x0b, 0x03, 0x08, 0x1b, 0x0e, 0x11, 0x01, 0x12, 0x07, 0x10,
    0x17, 0x00, 0x00, 0x02, 0x2e, 0x01, 0x3f, 0x19, 0x03, 0x08, 0x3a, 0x0b, 0x3b, 0x0b, 0x39, 0x0b,
    0x27, 0x19, 0x49, 0x13, 0x11, 0x01, 0x12, 0x07, 0x40, 0x18, 0x97, 0x42, 0x19, 0x01, 0x13, 0x00,
    0x00, 0x03, 0x05, 0x00, 0x03, 0x08, 0x3a, 0x0b, 0x3b, 0x0b, 0x39, 0x0b, 0x49, 0x13, 0x02, 0x18,
    0x00, 0x00, 0x04, 0x24, 0x00, 0x0b, 0x0b, 0x3e, 0x0b, 0x03, 0x08, 0x00, 0x00, 0x00,
];

// A table made by hand, in which every number is padded: code 1, the tag of a compilation unit
// (0x11), with children; the name (3) as a string (8), and a constant (0x21) of -1 for the file
// (0x3a).
static PADDED: [u8; 23] = [
    0x81, 0x00, 0x91, 0x80, 0x00, 0x01, 0x83, 0x00, 0x88, 0x00, 0xba, 0x00, 0xa1, 0x00, 0xff, 0x7f,
    0x80, 0x00, 0x80, 0x80, 0x00, 0x80, 0x00,
];

// The name and the form of an attribute, and its constant.
type Numbers = (u64, u64, Option<i64>);

// The code of a declaration, its tag and the size of that, whether there are children, and the
// number of attributes.
type Shape = (u64, u64, usize, bool, usize);

// The declarations that are read from a table, with the first attributes of each.
static PAIR_SHAPES: [(Shape, &[Numbers]); 5] = [
    ((1, 0x0d, 1, false, 6), &MEMBERS),
    ((2, 0x11, 1, true, 5), &[]),
    ((3, 0x13, 1, true, 6), &[]),
    ((4, 0x24, 1, false, 3), &[]),
    ((5, 0x34, 1, false, 7), &[]),
];

const MEMBERS: [Numbers; 6] = [
    (0x03, 0x08, None),
    (0x3a, 0x21, Some(1)),
    (0x3b, 0x21, Some(1)),
    (0x39, 0x0b, None),
    (0x49, 0x13, None),
    (0x38, 0x0b, None),
];

static CALL_SHAPES: [(Shape, &[Numbers]); 4] = [
    ((1, 0x11, 1, true, 7), &[]),
    ((2, 0x2e, 1, true, 12), &CALL_NUMBERS),
    ((3, 0x05, 1, false, 6), &[]),
    ((4, 0x24, 1, false, 3), &[]),
];

const CALL_NUMBERS: [Numbers; 12] = [
    (0x3f, 0x19, None),
    (0x03, 0x08, None),
    (0x3a, 0x0b, None),
    (0x3b, 0x0b, None),
    (0x39, 0x0b, None),
    (0x27, 0x19, None),
    (0x49, 0x13, None),
    (0x11, 0x01, None),
    (0x12, 0x07, None),
    (0x40, 0x18, None),
    (0x2117, 0x19, None),
    (0x01, 0x13, None),
];

static PADDED_SHAPES: [(Shape, &[Numbers]); 1] = [(
    (1, 0x11, 3, true, 2),
    &[(0x03, 0x08, None), (0x3a, 0x21, Some(-1))],
)];

// Checks that a value is the expected one.
fn check_eq<T: PartialEq + Debug + Drop>(rt: &impl Abort, value: T, wanted: T) {
    assert!(rt; value == wanted, "expected {wanted:?}, got {value:?}");
}

// Checks what a value prints.
fn check_printed<T: Debug + Drop>(rt: &impl Abort, alloc: Global, value: T, wanted: &str) {
    let printed = format!(in alloc; "{value:?}").expect(rt, "memory");
    assert!(rt; printed.as_str() == wanted, "got {printed}");
}

// Returns the numbers of an attribute.
fn numbers_of(attribute: &Attribute) -> Numbers {
    let constant = match attribute.constant {
        Some(constant) => Some(constant.value),
        None => None,
    };
    (attribute.name.value, attribute.form.value, constant)
}

// Checks the first attributes of a declaration, and returns how many it has.
fn check_attributes(rt: &impl Abort, declaration: &Declaration, wanted: &[Numbers]) -> usize {
    let mut count: usize = 0;
    let mut values = declaration.attributes.values_to_mark();
    for _ in 0..declaration.attributes.bytes.len() {
        let Some(attribute) = values.next() else {
            break;
        };
        if let Some(numbers) = wanted.get(count) {
            check_eq(rt, numbers_of(&attribute), *numbers);
        }
        count = count.wrapping_add(1);
    }
    count
}

// Checks the shape of a declaration, and its first attributes.
fn check_declaration(rt: &impl Abort, declaration: &Declaration, wanted: &(Shape, &[Numbers])) {
    let shape = (
        declaration.code.value,
        declaration.tag.value,
        declaration.tag.count,
        declaration.children == Children::Yes,
        check_attributes(rt, declaration, wanted.1),
    );
    check_eq(rt, shape, wanted.0);
}

// Checks that a table is written as these bytes if there is just room for them.
fn check_written(rt: &impl Abort, table: &Table, bytes: &[u8]) {
    let mut target = [0xee; 82];
    let target = &mut target[..bytes.len().min(82)];
    let mut at = 0;
    write_table(target, &mut at, table).expect(rt, "room for the table");
    check_eq(rt, at, bytes.len());
    assert!(rt; *target == *bytes);
}

// Checks a table that is read and written back.
fn check_sample(rt: &impl Abort, alloc: Global, bytes: &[u8], wanted: &[(Shape, &[Numbers])]) {
    let mut offset = 0;
    let table = read_table(alloc, bytes, &mut offset).expect(rt, "a table");
    let read = (offset, table.declarations.len());
    check_eq(rt, read, (bytes.len(), wanted.len()));
    for (declaration, wanted) in table.declarations.iter().zip(wanted.iter()) {
        check_declaration(rt, declaration, wanted);
    }
    assert!(rt; *table.bytes() == *bytes);
    check_written(rt, &table, bytes);
}

// Checks the error of a read at an offset, and that the cursor stays there.
fn check_refused(rt: &impl Abort, alloc: Global, bytes: &[u8], offset: usize, wanted: &str) {
    let mut at = offset;
    check_printed(rt, alloc, read_table(alloc, bytes, &mut at), wanted);
    check_eq(rt, at, offset);
}

#[test]
fn tables_are_read_and_written_back(rt: HostRuntime) {
    let alloc = rt.alloc();
    check_sample(&rt, alloc, &PAIR, &PAIR_SHAPES);
    check_sample(&rt, alloc, &CALL, &CALL_SHAPES);
    check_sample(&rt, alloc, &PADDED, &PADDED_SHAPES);
}

#[test]
fn refused_tables(rt: HostRuntime) {
    let alloc = rt.alloc();
    let cut = "Err(Read(TooBig { size: 1, len: 0 }))";
    for len in 0..82 {
        check_refused(&rt, alloc, &PAIR[..len], 0, cut);
    }
    let other = "Err(BadChildren(2))";
    check_refused(&rt, alloc, &[1, 0x11, 2, 0, 0, 0], 0, other);
    let large = "Err(Read(BadInput { size: 11, msg: \"failed to parse\" }))";
    check_refused(&rt, alloc, &[0x80; 11], 0, large);
    check_refused(&rt, alloc, &PAIR, 83, "Err(Read(BadOffset(83)))");
}

// Attributes, and what a write of a declaration with them returns.
static LISTS: [(&[u8], &str); 13] = [
    (&[0, 0], "Ok(5)"),
    (&[3, 8, 0, 0], "Ok(7)"),
    (&[0x3a, 0x21, 1, 3, 8, 0, 0], "Ok(10)"),
    (&[3, 8, 0x80, 0, 0x80, 0x80, 0], "Ok(10)"),
    (&[], CUT),
    (&[0xff], CUT),
    (&[3, 8], CUT),
    (&[3, 8, 0], CUT),
    (&[3, 8, 0, 0x80], CUT),
    (&[0x3a, 0x21, 0, 0], CUT),
    (&[0, 0, 0], TWO),
    (&[0, 0, 0, 0], TWO),
    (&[3, 8, 0, 0, 3, 8, 0, 0], FOUR),
];

const CUT: &str = "Err(Read(TooBig { size: 1, len: 0 }))";

const TWO: &str = "Err(Read(BadInput { size: 2, msg: \"another length than its values\" }))";

const FOUR: &str = "Err(Read(BadInput { size: 4, msg: \"another length than its values\" }))";

const OTHER: &str = "Err(Read(BadInput { size: 4, msg: \"another byte order than its values\" }))";

const MANY: &str = "Some(At { offset: 5, error: Read(TooBig { size: 5, len: 3 }) })";

// Returns a declaration with these attributes.
fn declaration_of(attributes: &[u8], order: Endian) -> Result<Declaration<'_>, TableError> {
    Ok(Declaration {
        code: Uleb::shortest(1),
        tag: Uleb::shortest(0x11),
        children: Children::No,
        attributes: Items::to_mark(attributes, order)?,
    })
}

// Checks a write of a declaration: what it returns, and what reads back.
fn check_list(rt: &impl Abort, alloc: Global, attributes: &[u8], order: Endian, wanted: &str) {
    let mut target = [0xee; 16];
    let mut at = 1;
    let wrote = match declaration_of(attributes, order) {
        Ok(declaration) => target.gwrite_with(declaration, &mut at, order),
        Err(error) => Err(error),
    };
    check_printed(rt, alloc, wrote, wanted);
    check_eq(rt, target[0], 0xee);
    if at == 1 {
        check_eq(rt, target, [0xee; 16]);
        return;
    }
    let read: Result<Declaration, TableError> = target.pread_with(1, order);
    let read = read.expect(rt, "a declaration");
    assert!(rt; *read.attributes.bytes == *attributes, "got {read:?}");
}

// Checks the error of a write of two declarations, of which the second has no room.
fn check_many(rt: &impl Abort, alloc: Global) {
    let mut target = [0xee; 8];
    let mut at = 0;
    let declaration = declaration_of(&[0, 0], LE).expect(rt, "a declaration");
    let wrote = write_many(&mut target, &[declaration, declaration], &mut at, LE);
    check_printed(rt, alloc, wrote.err(), MANY);
    check_eq(rt, at, 5);
    check_eq(rt, target, [1, 0x11, 0, 0, 0, 0xee, 0xee, 0xee]);
}

// Checks the error of a write in another byte order than that of the read.
fn check_other(rt: &impl Abort, alloc: Global) {
    let declaration = declaration_of(&[3, 8, 0, 0], LE).expect(rt, "a declaration");
    let wrote = [0xee; 16].gwrite_with(declaration, &mut 1, BE);
    check_printed(rt, alloc, wrote, OTHER);
}

#[test]
fn lists_without_their_mark_are_refused(rt: HostRuntime) {
    for (attributes, wanted) in LISTS.iter() {
        check_list(&rt, rt.alloc(), attributes, LE, wanted);
        check_list(&rt, rt.alloc(), attributes, BE, wanted);
    }
    check_many(&rt, rt.alloc());
    check_other(&rt, rt.alloc());
}

#[test]
fn no_room(rt: HostRuntime) {
    let alloc = rt.alloc();
    let table = read_table(alloc, &PADDED, &mut 0).expect(&rt, "a table");
    let mut target = [0xee; 22];
    let at = &mut 0;
    let short = write_table(&mut target, at, &table);
    check_printed(&rt, alloc, short, "Err(TooBig { size: 23, len: 22 })");
    check_eq(&rt, (*at, target), (0, [0xee; 22]));
    *at = 23;
    let past = write_table(&mut target, at, &table);
    check_printed(&rt, alloc, past, "Err(BadOffset(23))");
}

// Tables of each number of declarations, and a longer one, in tests of equal times. An allocation
// failure ends a test.
fn check_counts(rt: &impl Abort, alloc: Global, from: usize, to: usize)
    requires { to ≤ 5000 }
{
    let mut bytes = [0u8; 25_001];
    for place in 0..5000 {
        bytes[5 * place] = 1;
        bytes[5 * place + 1] = 0x11;
    }
    for count in from..to {
        bytes[5 * count] = 0;
        check_count(rt, alloc, &bytes, count);
        bytes[5 * count] = 1;
    }
    check_count(rt, alloc, &bytes, 5000);
}

#[test]
fn tables_of_few_declarations(rt: HostRuntime) {
    check_counts(&rt, rt.alloc(), 0, 551);
}

#[test]
fn tables_of_some_declarations(rt: HostRuntime) {
    check_counts(&rt, rt.alloc(), 551, 779);
}

#[test]
fn tables_of_more_declarations(rt: HostRuntime) {
    check_counts(&rt, rt.alloc(), 779, 954);
}

#[test]
fn tables_of_many_declarations(rt: HostRuntime) {
    check_counts(&rt, rt.alloc(), 954, 1101);
}

// Checks that so many declarations are read.
fn check_count(rt: &impl Abort, alloc: Global, bytes: &[u8], count: usize) {
    let table = read_table(alloc, bytes, &mut 0).expect(rt, "a table");
    check_eq(rt, table.declarations.len(), count);
}
