// Values of a fixed size: through streams and through the calls without a test, and as fields of a
// struct of any size.
mod derived;

ghost use Rattle.std.specs.Prelude.{◌≡◌, ◌<◌, ◌≤◌, ◌+◌, ◌++◌, length, take, drop, IfOk, IfErr, OnOk};
ghost use Rattle.scroll.specs.Numbers.{number, signed_number, number_bytes, signed_bytes};
ghost use Rattle.scroll.specs.declared.error.Error.TheVariants.{TooBig};

use crate::Run;
use scroll::{Cread, Endian, IOread, IOwrite, Pread, Result, slice};
use std::io;

/// A number of 64 bits and one of 32.
pub type Foo = Run<(i64, u32)>;

/// Reads the next twelve bytes of a source.
pub fn read_foo(source: &mut &[u8], order: Endian) -> io::Result<Foo>
    ensures foo { IfOk result (λ x. x.0.0 ≡ signed_number order 8 (take 12 source.old.now)) }
    ensures bar { IfOk result (λ x. x.0.1 ≡ number order 4 (drop 8 (take 12 source.old.now))) }
    ensures rest { OnOk result (source.new.now ≡ drop 12 source.old.now) }
{
    source.ioread_with(order)
}

/// Appends the twelve bytes of a value.
pub fn write_foo(target: &mut Vec<u8>, foo: Foo, order: Endian) -> io::Result<()>
    ensures { OnOk result (target.new.items
        ≡ target.old.items ++ (signed_bytes order 8 foo.0.0 ++ number_bytes order 4 foo.0.1)) }
{
    target.iowrite_with(foo, order)
}

/// Reads the value at an offset, where it has its bytes.
pub fn foo_at(from: &[u8], at: usize, order: Endian) -> Foo
    requires { at + 12 ≤ length from.now }
    ensures foo { result.0.0 ≡ signed_number order 8 (drop at from.now) }
    ensures bar { result.0.1 ≡ number order 4 (drop 8 (drop at from.now)) }
{
    from.cread_with(at, order)
}

/// Writes a value at an offset, where it has room, and reads it there.
#[tactic(auto, unfolding(scroll::specs::Numbers::number, scroll::specs::Numbers::signed_number))]
pub fn foo_again(target: &mut [u8], foo: Foo, at: usize, order: Endian) -> Foo
    requires { at + 12 ≤ length target.old }
    ensures same { result.0 ≡ foo.0 }
    ensures before { take at target.new ≡ take at target.old }
{
    slice::cwrite_with(target, foo, at, order);
    (&*target).cread_with(at, order)
}

/// A point.
// #[derive(Pread, Pwrite)]
#[derive(Clone, Copy, Debug, PartialEq, Eq)]
pub struct Point {
    pub x: i16,
    pub y: u32,
}

/// A line between two points, with a label.
// #[derive(Pread, Pwrite)]
#[derive(Clone, Copy)]
pub struct Line<'a> {
    pub kind: u8,
    pub from: Point,
    pub to: Point,
    pub len: u16,
    // #[scroll(ctx = len as usize)]
    pub label: &'a [u8],
}

/// Reads a line: the fields of its points stand at their places.
pub fn read_line(from: &[u8], order: Endian) -> Result<Line>
    ensures first { IfOk result (λ line. line.from.x ≡ signed_number order 2 (drop 1 from.now)) }
    ensures second { IfOk result (λ line. line.to.y ≡ number order 4 (drop 9 from.now)) }
    ensures label { IfOk result (λ line. line.label.now ≡ take line.len (drop 15 from.now)) }
    ensures short { length from.now < 15 → IfErr result (λ e. e ≡ TooBig 15 (length from.now)) }
{
    from.pread_with(0, order)
}
