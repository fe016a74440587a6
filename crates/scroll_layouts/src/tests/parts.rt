// Parts by themselves, on bytes that Python's `struct`, `zipfile` and `gzip` made.
mod derived;

ghost use Rattle.std.specs.Prelude.{◌≡◌, ◌<◌, ◌^◌, ◌/◌, ◌%◌, codes, nat_eq, IfErr, OnOk};
ghost use Rattle.std.proofs.Common.{refl, rules};
ghost use Rattle.scroll.specs.Numbers.{number};
ghost use Rattle.scroll_layouts.specs.Errors.{IsNot};

use crate::tests::fixed::Point;
use crate::tests::results::{check_eq, check_error};
use crate::{Field, Head, Headed, Low, Packed, Run, When, is, read_whole};
use scroll::cstr::CStr;
use scroll::{BE, Error, LE, Result};
use std::marker::PhantomData;
use std::result;
use std::test::Fail;

static WIDE: [u8; 49] = [
    8, 7, 6, 5, 4, 3, 2, 1, 5, 0, 0, 0, 0, 0, 0, 0, 0, 0, 0, 0, 0, 0, 0, 128, 253, 254, 255, 255,
    255, 255, 255, 255, 255, 0, 0, 0, 0, 0, 0, 0, 0, 0, 0, 0, 0, 240, 255, 255, 255,
];

#[test]
fn numbers_of_each_width(rt: HostRuntime) -> result::Result<(), Fail> {
    let (Run((first, second)), size) = read_whole::<(), Error, Run<((u64, u128), (i8, i64, i128))>>(
        &WIDE,
        LE,
        &(),
    )?;
    check_eq(
        &rt,
        first,
        (
            0x0102_0304_0506_0708,
            170141183460469231731687303715884105733,
        ),
    );
    check_eq(&rt, second, (-3, -2, -1267650600228229401496703205376));
    check_eq(&rt, size, 49);
    Ok(())
}

/// An array of arrays, which can be the element of an array in a struct.
// #[derive(Pread, Pwrite)]
#[derive(Clone, Copy)]
pub struct Plane {
    pub cells: [[u8; 2]; 2],
}

static GRID: [u8; 12] = [0, 1, 0, 2, 0, 3, 0, 4, 1, 244, 2, 88];

static POINTS: [u8; 12] = [255, 254, 0, 0, 0, 7, 0, 1, 0, 1, 0, 0];

static CUBE: [u8; 8] = [1, 2, 3, 4, 5, 6, 7, 8];

static FLOATS: [u8; 8] = [0, 0, 192, 63, 0, 0, 128, 190];

#[test]
fn arrays_of_each_kind(rt: HostRuntime) -> result::Result<(), Fail> {
    let (Run(grid), _) = read_whole::<(), Error, Run<[[u16; 2]; 3]>>(&GRID, BE, &())?;
    check_eq(&rt, grid, [[1, 2], [3, 4], [500, 600]]);
    let (Run(points), _) = read_whole::<(), Error, Run<[Field<Point>; 2]>>(&POINTS, BE, &())?;
    check_eq(&rt, (points[0].0.x, points[0].0.y), (-2, 7));
    check_eq(&rt, (points[1].0.x, points[1].0.y), (1, 65536));
    let (Run(planes), _) = read_whole::<(), Error, Run<[Field<Plane>; 2]>>(&CUBE, LE, &())?;
    check_eq(&rt, planes[1].0.cells, [[5, 6], [7, 8]]);
    let (Run(floats), _) = read_whole::<(), Error, Run<[f32; 2]>>(&FLOATS, LE, &())?;
    check_eq(&rt, floats, [1.5, -0.25]);
    Ok(())
}

// The time of a file that `zipfile` stored: hours, minutes and pairs of seconds.
static TIME: [u8; 2] = [92, 100];

static WORD: [u8; 4] = [120, 86, 52, 18];

static LONG_WORD: [u8; 8] = [171, 205, 239, 18, 52, 86, 120, 154];

type TimeCtx = Packed<u16, Low<u8, Low<u8, ()>>>;

type WordCtx = Packed<u32, Low<u8, Low<u16, ()>>>;

type LongWordCtx = Packed<u64, Low<u8, Low<u32, ()>>>;

#[test]
fn fields_of_bits_in_each_word(rt: HostRuntime) -> result::Result<(), Fail> {
    let ctx: TimeCtx = Packed(PhantomData, Low(31, Low(63, ())));
    let (time, _) = read_whole::<TimeCtx, Error, ((u16, u8), u8)>(&TIME, LE, &ctx)?;
    check_eq(&rt, time, ((12, 34), 28));
    let ctx: WordCtx = Packed(PhantomData, Low(255, Low(4095, ())));
    let (word, _) = read_whole::<WordCtx, Error, ((u32, u16), u8)>(&WORD, LE, &ctx)?;
    check_eq(&rt, word, ((0x123, 0x456), 0x78));
    let ctx: LongWordCtx = Packed(PhantomData, Low(255, Low(4294967295, ())));
    let (word, _) = read_whole::<LongWordCtx, Error, ((u64, u32), u8)>(&LONG_WORD, BE, &ctx)?;
    check_eq(&rt, word, ((0xabcdef, 0x12345678), 0x9a));
    Ok(())
}

// The first fields of a file in gzip's format (RFC 1952): its signature, its method, flags, a time,
// and two more.
type GzipHead = Run<((u16, u8, u8), (u32, u8, u8))>;

/// A file's name is there if a bit of the flags is set.
#[derive(Drop)]
struct GzipName;

impl Head<GzipHead, Error> for GzipName {
    type Next = When<()>;

    ghost holds = { λ _ h. h.0.0.0 ≡ 0x8b1f };

    ghost fails = { λ _ h e. IsNot 0x8b1f h.0.0.0 (codes "signature is not 0x8b1f") e };

    ghost next = { λ _ h. record { 0 = nat_eq (h.0.0.2 / 8 % 2) 1; 1 = tt } };

    fn obey(&self, head: &GzipHead) -> Result<()> {
        is(head.0.0.0 as usize, 0x8b1f, "signature is not 0x8b1f")
    }

    fn next(&self, head: &GzipHead) -> When<()> {
        When(head.0.0.2 / 8 % 2 == 1, ())
    }
}

type Gzip<'a> = (GzipHead, Option<CStr<'a>>);

fn read_gzip(from: &[u8]) -> Result<(Gzip, usize)> {
    read_whole::<Headed<(), When<()>, GzipName>, Error, Gzip>(
        from,
        LE,
        &Headed((), GzipName, PhantomData),
    )
}

static NAMED: [u8; 28] = [
    31, 139, 8, 8, 0, 241, 83, 101, 2, 255, 97, 46, 116, 120, 116, 0, 203, 200, 4, 0, 172, 42, 147,
    216, 2, 0, 0, 0,
];

static NAMELESS: [u8; 22] = [
    31, 139, 8, 0, 0, 241, 83, 101, 2, 255, 203, 200, 4, 0, 172, 42, 147, 216, 2, 0, 0, 0,
];

#[test]
fn heads_of_gzip(rt: HostRuntime) -> result::Result<(), Fail> {
    let ((head, name), size) = read_gzip(&NAMED)?;
    check_eq(&rt, head.0.1.0, 1700000000);
    check_eq(
        &rt,
        name.map(|name| name.to_bytes()),
        Some(b"a.txt".as_slice()),
    );
    check_eq(&rt, size, 16);
    let ((_, name), size) = read_gzip(&NAMELESS)?;
    check_eq(&rt, (name.is_none(), size), (true, 10));
    for n in 0..16 {
        check_eq(&rt, read_gzip(&NAMED[..n]).is_err(), true);
    }
    check_error(
        &rt,
        read_gzip(&NAMED[1..]),
        ("signature is not 0x8b1f", 0x88b, 0),
    );
    Ok(())
}
