// Numbers over streams, each alone, and two as one type.
mod derived;

ghost use Rattle.std.specs.Prelude.{◌≡◌, ◌<◌, ◌^◌, ◌++◌, take, drop, IfOk, OnOk};
ghost use Rattle.scroll.specs.Numbers.{number, signed_number, number_bytes, signed_bytes};
ghost use Rattle.scroll.specs.declared.endian.Endian.TheVariants.{Big};

use crate::results::{check_eq, check_value};
use scroll::{BE, Endian, IOread, IOwrite, LE};
use std::io;

/// Reads the next measurement of a log: a station in 16 bits and a value in 32, both big-endian.
pub fn read_measurement(source: &mut &[u8]) -> io::Result<(u16, u32)>
    ensures station { IfOk result (λ m. m.0 ≡ number Big 2 (take 2 source.old.now)) }
    ensures value { IfOk result (λ m. m.1 ≡ number Big 4 (take 4 (drop 2 source.old.now))) }
    ensures rest { OnOk result (source.new.now ≡ drop 6 source.old.now) }
{
    let station = source.ioread_with(BE)?;
    let value = source.ioread_with(BE)?;
    Ok((station, value))
}

/// Appends a measurement to a log.
pub fn write_measurement(log: &mut Vec<u8>, station: u16, value: u32) -> io::Result<()>
    ensures { OnOk result (log.new.items ≡ log.old.items ++ (number_bytes Big 2 station ++ number_bytes Big 4 value)) }
{
    log.iowrite_with(station, BE)?;
    log.iowrite_with(value, BE)
}

#[test]
fn a_measurement_reads_back(rt: HostRuntime) {
    let rt = &rt;
    let mut log = Vec::new(rt.alloc());
    check_value(rt, write_measurement(&mut log, 3, 258), ());
    check_value(rt, write_measurement(&mut log, 4, 0xdeadbeef), ());
    let mut source = log.as_slice();
    check_value(rt, read_measurement(&mut source), (3, 258));
    check_value(rt, read_measurement(&mut source), (4, 3735928559));
    check_eq(rt, read_measurement(&mut source).is_err(), true);
}

// The example of the Rust crate's page: a number in 64 bits, and one in 32.
#[test]
fn numbers_of_two_widths(rt: HostRuntime) {
    let rt = &rt;
    let mut source: &[u8] = &[1, 0, 0, 0, 0, 0, 0, 0, 0xef, 0xbe, 0, 0];
    check_value(rt, source.ioread::<u64>(), 1);
    check_value(rt, source.ioread::<u32>(), 48879);
    check_eq(rt, source.is_empty(), true);
}

// #[derive(Pread, Pwrite)]
#[derive(Clone, Copy, Debug, PartialEq, Eq)]
struct Foo {
    foo: i64,
    bar: u32,
}

// Reads the next twelve bytes of a source.
fn read_foo(source: &mut &[u8], order: Endian) -> io::Result<Foo>
    ensures foo { IfOk result (λ x. x.foo ≡ signed_number order 8 (take 12 source.old.now)) }
    ensures bar { IfOk result (λ x. x.bar ≡ number order 4 (drop 8 (take 12 source.old.now))) }
    ensures rest { OnOk result (source.new.now ≡ drop 12 source.old.now) }
{
    source.ioread_with(order)
}

// Appends the twelve bytes of a value.
fn write_foo(target: &mut Vec<u8>, foo: Foo, order: Endian) -> io::Result<()>
    ensures { OnOk result (target.new.items ≡ target.old.items ++ (signed_bytes order 8 foo.foo ++ number_bytes order 4 foo.bar)) }
{
    target.iowrite_with(foo, order)
}

static BYTES: [u8; 12] = [0x0b, 0x0b, 0, 0, 0, 0, 0, 0, 0xef, 0xbe, 0, 0];

const LITTLE: Foo = Foo {
    foo: 2827,
    bar: 48879,
};

const BIG: Foo = Foo {
    foo: 0x0b0b_0000_0000_0000,
    bar: 0xefbe_0000,
};

#[test]
fn read_one_after_the_other_and_at_once(rt: HostRuntime) {
    let rt = &rt;
    let mut source: &[u8] = &BYTES;
    check_value(rt, source.ioread_with::<i64>(LE), 2827);
    check_value(rt, source.ioread_with::<u32>(LE), 48879);
    check_eq(rt, source.ioread_with::<u64>(LE).is_err(), true);
    let mut source: &[u8] = &BYTES;
    check_value(rt, read_foo(&mut source, LE), LITTLE);
    check_eq(rt, source, &[]);
    check_eq(rt, read_foo(&mut source, LE).is_err(), true);
    let mut source: &[u8] = &BYTES;
    check_value(rt, read_foo(&mut source, BE), BIG);
}

#[test]
fn written_as_it_reads(rt: HostRuntime) {
    for &(foo, order) in &[(LITTLE, LE), (BIG, BE)] {
        let mut target = Vec::new(rt.alloc());
        check_value(&rt, write_foo(&mut target, foo, order), ());
        check_eq(&rt, target.as_slice(), &BYTES);
    }
}

#[test]
fn written_where_it_fits(rt: HostRuntime) {
    let mut bytes = [7u8; 13];
    let mut room = &mut bytes[..];
    check_value(&rt, room.iowrite_with(LITTLE, LE), ());
    check_eq(&rt, room.iowrite_with(LITTLE, LE).is_err(), true);
    check_eq(
        &rt,
        bytes,
        [0x0b, 0x0b, 0, 0, 0, 0, 0, 0, 0xef, 0xbe, 0, 0, 0x0b],
    );
}
