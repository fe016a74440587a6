// `wat2wasm --debug-names` of a module with a function `add` and a memory.
use super::*;
use scroll::Pread;

static MODULE: [u8; 67] = [
    0x00, 0x61, 0x73, 0x6d, 0x01, 0x00, 0x00, 0x00, 0x01, 0x07, 0x01, 0x60, 0x02, 0x7f, 0x7f, 0x01,
    0x7f, 0x03, 0x02, 0x01, 0x00, 0x05, 0x03, 0x01, 0x00, 0x01, 0x07, 0x10, 0x02, 0x03, 0x61, 0x64,
    0x64, 0x00, 0x00, 0x06, 0x6d, 0x65, 0x6d, 0x6f, 0x72, 0x79, 0x02, 0x00, 0x0a, 0x09, 0x01, 0x07,
    0x00, 0x20, 0x00, 0x20, 0x01, 0x6a, 0x0b, 0x00, 0x0a, 0x04, 0x6e, 0x61, 0x6d, 0x65, 0x02, 0x03,
    0x01, 0x00, 0x00,
];

// Returns how many values the section with a number has, or how many bytes.
fn size_of(contents: &Contents) -> u64 {
    match contents {
        Contents::Custom(custom) => custom.bytes.len() as u64,
        Contents::Types(types) => types.count.value,
        Contents::Imports(imports) => imports.count.value,
        Contents::Functions(functions) => functions.count.value,
        Contents::Exports(exports) => exports.count.value,
        Contents::Other(bytes) => bytes.len() as u64,
    }
}

static SECTIONS: [(u8, u64); 6] = [(1, 1), (3, 1), (5, 3), (7, 2), (10, 9), (0, 5)];

#[test]
fn a_module_is_read_and_written(rt: HostRuntime) {
    let module = read_module(&MODULE).expect(&rt, "a module");
    let mut at = 0;
    for (id, size) in &SECTIONS {
        let section: Section = module
            .sections
            .bytes
            .gread_with(&mut at, LE)
            .expect(&rt, "a section");
        assert!(rt; section.id == *id && size_of(&section.contents) == *size);
    }
    let mut target = [0xff; 69];
    let size = write_module(&mut target, module).expect(&rt, "room");
    assert!(rt; size == 67 && target.starts_with(&MODULE) && target.ends_with(b"\xff\xff"));
}

#[test]
fn exports_are_walked(rt: HostRuntime) {
    let section: Section = MODULE.pread_with(26, LE).expect(&rt, "a section");
    let Contents::Exports(exports) = section.contents else {
        panic!(rt; "another section");
    };
    let mut found = exports.each.values();
    for (name, kind) in &[("add", 0), ("memory", 2)] {
        let export = found.next().expect(&rt, "another export");
        assert!(rt; export.name.text == *name && export.kind == *kind);
    }
}

// Bytes that are others, and the error of reading the module.
static WRONG: [(usize, u8, &str); 4] = [
    (4, 2, "bad input version is not 1 (2)"),
    (9, 8, "bad input fewer bytes than its part (7)"),
    (9, 6, "type is too big (1) for 0"),
    (42, 4, "bad input it is not so that kind <= 3 (4)"),
];

#[test]
fn what_is_refused(rt: HostRuntime) {
    for (at, byte, wanted) in &WRONG {
        let mut bytes = MODULE;
        if let Some(place) = bytes.get_mut(*at) {
            *place = *byte;
        }
        match read_module(&bytes) {
            Ok(_) => panic!(rt; "it is read"),
            Err(error) => {
                let printed = format!(in rt.alloc(); "{error}").expect(&rt, "memory");
                assert!(rt; printed.as_str() == *wanted, "got {printed}");
            }
        }
    }
}
