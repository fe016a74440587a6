// The first example of the README, with its results, the first examples in the documentation of the
// Rust crate, and two numbers that are read and written where the caller ensures that there is
// room.
ghost use Rattle.std.specs.Prelude.{◌≡◌, ◌++◌, drop};
ghost use Rattle.std.proofs.Common.{rules};
ghost use Rattle.scroll.specs.Numbers.{number, signed_number, number_bytes, signed_bytes};

use crate::results::{check_eq, check_error, check_too_big, check_value};
use scroll::ctx::{FromCtx, IntoCtx, SPACE, StrCtx};
use scroll::{BE, Cread, Cwrite, Endian, LE, Pread, Pwrite, slice};

#[test]
fn overview(rt: HostRuntime) {
    let rt = &rt;
    let mut bytes: [u8; 4] = [0xde, 0xad, 0xbe, 0xef];
    let source = &bytes[..];
    let offset = &mut 1;
    check_value(rt, source.pread_with::<u32>(0, BE), 3735928559);
    check_value(rt, source.pread_with::<u32>(0, LE), 4022250974);
    check_value(rt, source.gread_with::<u16>(offset, BE), 44478);
    check_eq(rt, *offset, 3);
    check_too_big(rt, source.gread_with::<u16>(offset, BE), 2, 1);
    check_eq(rt, *offset, 3);
    check_error(rt, source.pread_with::<i8>(5, LE), ("BadOffset", 5, 0));
    let line = &b"name: scroll"[..];
    check_value(rt, line.pread_with(6, StrCtx::Length(6)), "scroll");
    check_value(rt, line.pread_with(0, StrCtx::Delimiter(b':')), "name");
    let mut target = &mut bytes[..];
    check_value(rt, target.pwrite_with(-2i16, 1, BE), 2);
    check_eq(rt, bytes, [0xde, 0xff, 0xfe, 0xef]);
}

#[test]
fn numbers_by_default_and_in_an_order(rt: HostRuntime) {
    let rt = &rt;
    let source: &[u8] = &[0xde, 0xad, 0xbe, 0xef];
    check_value(rt, source.pread::<u32>(0), 4022250974);
    check_value(rt, source.pread::<u8>(0), 222);
    check_value(rt, source.pread::<u8>(2), 190);
    check_value(rt, source.pread_with::<u16>(1, BE), 44478);
    check_value(rt, source.pread_with::<u16>(2, BE), 48879);
    check_too_big(rt, source.pread::<i64>(0), 8, 4);
}

#[test]
fn texts_by_default_and_up_to_a_space(rt: HostRuntime) {
    let rt = &rt;
    let zero = StrCtx::default();
    let space = StrCtx::Delimiter(SPACE);
    let source: &[u8] = b"hello_world\0more words";
    check_value(rt, source.pread(0), "hello_world");
    check_value(rt, source.pread_with(0, zero), "hello_world");
    let source: &[u8] = b"hello world some junk";
    check_value(rt, source.pread_with(6, space), "world");
    let source: &[u8] = b"hello world\0more words";
    check_value(rt, source.pread_with(0, zero), "hello world");
    check_value(rt, source.pread_with(6, space), "world\0more");
}

#[test]
fn two_bytes_at_once(rt: HostRuntime) {
    let rt = &rt;
    let source: &[u8] = &[0x48, 0x49];
    let mut copy = [0u8; 2];
    let offset = &mut 0;
    check_value(rt, source.gread_inout(offset, &mut copy), ());
    check_eq(rt, (copy, *offset), ([0x48, 0x49], 2));
    let mut copy = [0u8; 2];
    let offset = &mut 0;
    check_value(rt, source.gread_inout_with(offset, &mut copy, LE), ());
    check_eq(rt, (copy, *offset), ([0x48, 0x49], 2));
}

#[derive(Clone, Copy)]
struct Bar {
    foo: i32,
    bar: u32,
}

impl FromCtx<Endian> for Bar {
    ghost need = { λ _. 8 };

    ghost makes = { λ order source x. (x.foo ≡ signed_number order 4 source) × (x.bar ≡ number order 4 (drop 4 source)) };

    fn from_ctx(this: &[u8], ctx: Endian) -> Bar {
        let foo = this.cread_with(0, ctx);
        let bar = this.cread_with(4, ctx);
        Bar { foo, bar }
    }
}

impl IntoCtx<Endian> for Bar {
    ghost need = { λ _. 8 };

    ghost overwrites = { λ order x old new. new ≡ (signed_bytes order 4 x.foo ++ number_bytes order 4 x.bar) ++ drop 8 old };

    ghost overwrites_keeps = { λ order x old new h. Prim.search rules };

    fn into_ctx(self, dst: &mut [u8], ctx: Endian) {
        slice::cwrite_with(dst, self.foo, 0, ctx);
        slice::cwrite_with(dst, self.bar, 4, ctx);
    }
}

#[test]
fn two_numbers_where_there_is_room(rt: HostRuntime) {
    let rt = &rt;
    let mut bytes = [0u8; 8];
    let mut target = &mut bytes[..];
    target.cwrite(-1i32, 0);
    target.cwrite(0xdeadbeefu32, 4);
    check_eq(rt, bytes, [0xff, 0xff, 0xff, 0xff, 0xef, 0xbe, 0xad, 0xde]);
    let source = &bytes[..];
    let bar: Bar = source.cread(0);
    check_eq(rt, (bar.foo, bar.bar), (-1, 0xdeadbeef));
    let bar: Bar = source.cread_with(0, LE);
    check_eq(rt, (bar.foo, bar.bar), (-1, 0xdeadbeef));
}

#[test]
fn written_where_there_is_room(rt: HostRuntime) {
    let rt = &rt;
    let bar = Bar {
        foo: -1,
        bar: 0xdeadbeef,
    };
    let mut bytes = [7u8; 9];
    let mut target = &mut bytes[..];
    target.cwrite_with(bar, 0, LE);
    check_eq(rt, &*target, b"\xff\xff\xff\xff\xef\xbe\xad\xde\x07");
    target.cwrite_with(bar, 0, BE);
    check_eq(rt, &*target, b"\xff\xff\xff\xff\xde\xad\xbe\xef\x07");
}
