// The ClientHello of Python's `ssl` to `localhost`, without its record:
//
//     made = ssl.MemoryBIO(); context.wrap_bio(ssl.MemoryBIO(), made, server_hostname="localhost")
use super::*;
use scroll::Error;
use std::alloc::Global;
use std::process::Abort;

static HELLO: [u8; 149] = [
    0x01, 0x00, 0x00, 0x91, 0x03, 0x03, 0x72, 0x50, 0xbc, 0x98, 0x55, 0x27, 0x0c, 0x09, 0x8a, 0x94,
    0xbd, 0xa4, 0x20, 0x36, 0x23, 0xdc, 0x9c, 0xa6, 0x2f, 0xa5, 0x26, 0x2c, 0x3d, 0x0b, 0xe2, 0x93,
    0xd4, 0x3b, 0x53, 0x34, 0xda, 0x83, 0x00, 0x00, 0x04, 0xc0, 0x2b, 0x00, 0xff, 0x01, 0x00, 0x00,
    0x64, 0x00, 0x00, 0x00, 0x0e, 0x00, 0x0c, 0x00, 0x00, 0x09, 0x6c, 0x6f, 0x63, 0x61, 0x6c, 0x68,
    0x6f, 0x73, 0x74, 0x00, 0x0b, 0x00, 0x04, 0x03, 0x00, 0x01, 0x02, 0x00, 0x0a, 0x00, 0x0c, 0x00,
    0x0a, 0x00, 0x1d, 0x00, 0x17, 0x00, 0x1e, 0x00, 0x19, 0x00, 0x18, 0x00, 0x23, 0x00, 0x00, 0x00,
    0x16, 0x00, 0x00, 0x00, 0x17, 0x00, 0x00, 0x00, 0x0d, 0x00, 0x2a, 0x00, 0x28, 0x04, 0x03, 0x05,
    0x03, 0x06, 0x03, 0x08, 0x07, 0x08, 0x08, 0x08, 0x09, 0x08, 0x0a, 0x08, 0x0b, 0x08, 0x04, 0x08,
    0x05, 0x08, 0x06, 0x04, 0x01, 0x05, 0x01, 0x06, 0x01, 0x03, 0x03, 0x03, 0x01, 0x03, 0x02, 0x04,
    0x02, 0x05, 0x02, 0x06, 0x02,
];

#[test]
fn a_hello_is_read_and_written(rt: HostRuntime) {
    let message = read_hello(&HELLO).expect(&rt, "a hello");
    assert_eq!(rt;
        (message.len, message.hello.version, message.hello.suites_len),
        (145, 0x0303, 4)
    );
    assert!(rt; server_name(&message.hello) == Some("localhost"));
    let mut target = [0xff; 151];
    let size = write_hello(&mut target, message).expect(&rt, "room");
    assert!(rt; size == 149 && target.starts_with(&HELLO) && target.ends_with(b"\xff\xff"));
}

// Checks the error of reading a message whose byte at an offset is another one.
fn check_refused(rt: &impl Abort, alloc: Global, at: usize, byte: u8, wanted: &str) {
    let mut bytes = HELLO;
    if let Some(place) = bytes.get_mut(at) {
        *place = byte;
    }
    match read_hello(&bytes) {
        Ok(_) => panic!(rt; "it is read"),
        Err(error) => {
            let printed = format!(in alloc; "{error}").expect(rt, "memory");
            assert!(rt; printed.as_str() == wanted, "got {printed}");
        }
    }
}

#[test]
fn what_is_refused(rt: HostRuntime) {
    let alloc = rt.alloc();
    for (at, byte, wanted) in &WRONG {
        check_refused(&rt, alloc, *at, *byte, wanted);
    }
}

static WRONG: [(usize, u8, &str); 5] = [
    (0, 2, "bad input kind is not 1 (2)"),
    (3, 0x92, "type is too big (103) for 102"),
    (38, 33, "bad input it is not so that session_len <= 32 (33)"),
    (40, 3, "bad input suites_len is no multiple of 2 (3)"),
    (59, 0xff, "bad input invalid utf8 (9)"),
];

#[test]
fn extensions_are_walked(rt: HostRuntime) {
    let message = read_hello(&HELLO).expect(&rt, "a hello");
    let list = message.hello.extensions.expect(&rt, "extensions");
    let mut count: usize = 0;
    for _ in list.each.values() {
        count = count.saturating_add(1);
    }
    assert_eq!(rt; count, 7);
}

// An extension without bytes (RFC 7627), and the name of a server behind it.
static SECOND: [u8; 22] = [
    0x00, 0x17, 0x00, 0x00, 0x00, 0x00, 0x00, 0x0e, 0x00, 0x0c, 0x00, 0x00, 0x09, 0x6c, 0x6f, 0x63,
    0x61, 0x6c, 0x68, 0x6f, 0x73, 0x74,
];

#[test]
fn a_name_in_the_second_extension(rt: HostRuntime) {
    let list: Items<Extensions> = Items::new(&SECOND, BE).expect(&rt, "a list");
    assert!(rt; first_server(&list) == Some("localhost"));
    let others: Items<Extensions> = Items::new(&SECOND[..4], BE).expect(&rt, "a list");
    assert!(rt; first_server(&others).is_none());
}
