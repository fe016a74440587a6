// Arrays, read and written; and a struct that says its fields once.
ghost use Rattle.std.specs.Prelude.{◌≡◌, ◌≤◌, ◌++◌, length, drop, refl, IfOk, OnOk};
ghost use Rattle.std.proofs.Common.{rules};
ghost use Rattle.scroll.specs.Numbers.{number, number_bytes, signed_number};

use crate::ctx::{Record, SizeWith, StrCtx, TryFromCtx, TryIntoCtx};
use crate::laws::fixed_size_is_kept;
use crate::tests::reads::{check_no_read, check_no_write, check_read, check_write};
use crate::tests::results::{check_eq, check_value};
use crate::{BE, Cread, Endian, Error, LE, Pread, Result};
use std::result;

#[test]
fn numbers_in_arrays_and_in_arrays_of_arrays(rt: HostRuntime) {
    let rt = &rt;
    let source: &[u8] = &[1, 0, 2, 0, 3, 0, 4, 0];
    check_read(rt, source, 2, BE, [0x200u16, 0x300, 0x400], 8);
    check_read(rt, source, 0, LE, [[1u16, 2], [3, 4]], 8);
    check_no_read::<[[u16; 2]; 2], _>(rt, &source[..6], 0, LE, ("TooBig", 2, 0));
}

#[test]
fn a_refused_write_leaves_its_first_elements(rt: HostRuntime) {
    let pairs: [[u16; 2]; 2] = [[1, 2], [3, 4]];
    let mut bytes = [0xffu8; 7];
    check_no_write(&rt, &mut bytes, pairs, 0, BE, ("TooBig", 2, 1));
    check_eq(&rt, bytes, [0, 1, 0, 2, 0, 3, 0xff]);
}

#[test]
fn a_bad_offset_counts_from_its_own_array(rt: HostRuntime) {
    let words = StrCtx::Delimiter(0);
    check_no_read::<[[&str; 2]; 2], _>(&rt, b"a\0b\0c", 0, words, ("BadOffset", 2, 0));
}

#[test]
fn sizes_of_arrays(rt: HostRuntime) {
    let sizes = [
        <[[u16; 3]; 2]>::size_with(&LE),
        <[u16; 0]>::size_with(&LE),
        <[u64; 3]>::size_with(&()),
    ];
    check_eq(&rt, sizes, [12, 0, 24]);
}

// Reads arrays of any length and type, through the bound.
fn values_of<
    'a,
    Ctx: Copy,
    E: From<Error>,
    T: TryFromCtx<'a, Ctx, Error = E> + Drop,
    const N: usize,
>(from: &'a [u8], ctx: Ctx) -> result::Result<([T; N], usize), E> {
    TryFromCtx::try_from_ctx(from, ctx)
}

// Writes arrays of any length and type, through the bound.
fn put_values<Ctx: Copy, T: TryIntoCtx<Ctx, Error = Error> + Drop, const N: usize>(
    values: [T; N],
    dst: &mut [u8],
    ctx: Ctx,
) -> Result<usize> {
    values.try_into_ctx(dst, ctx)
}

#[test]
fn through_the_bounds(rt: HostRuntime) {
    let rt = &rt;
    let pair: [u16; 2] = [0x102, 0x304];
    let read = values_of::<Endian, Error, u16, 2>(&[1, 2, 3, 4], BE);
    check_value(rt, read, (pair, 4));
    let mut out = [0u8; 4];
    check_value(rt, put_values(pair, &mut out, LE), 4);
    check_eq(rt, out, [2, 1, 4, 3]);
}

// How sound is stored.
#[derive(Clone, Copy, Debug, PartialEq)]
struct Format {
    tag: u16,
    gain: i16,
    rate: u32,
}

impl Record for Format {
    type Parts = (u16, i16, u32);

    ghost parts_of = { λ x. (x.tag, x.gain, x.rate) };

    ghost of_parts = { λ p. record { tag = p.0; gain = p.1; rate = p.2 } };

    ghost fields_in = { λ order s x.
        (x.tag ≡ number order 2 s)
        × (x.gain ≡ signed_number order 2 (drop 2 s))
        × (x.rate ≡ number order 4 (drop 4 s)) };

    ghost again = { λ x. refl };

    ghost there = { λ p. refl };

    ghost fields_of_parts = { λ order s x h. (h.0, h.1.0, h.1.1) };

    ghost parts_of_fields = { λ order s x h. (h.0, (h.1, h.2)) };

    ghost small = { Prim.search rules };

    fn parts(self) -> (u16, i16, u32) {
        (self.tag, self.gain, self.rate)
    }

    fn of_parts((tag, gain, rate): (u16, i16, u32)) -> Format {
        Format { tag, gain, rate }
    }
}

// Returns the format at an offset.
fn read_format(file: &[u8], offset: &mut usize, order: Endian) -> Result<Format>
    ensures tag { IfOk result (λ x. x.tag ≡ number order 2 (drop offset.old file.now)) }
    ensures gain { IfOk result (λ x. x.gain ≡ signed_number order 2 (drop 2 (drop offset.old file.now))) }
    ensures rate { IfOk result (λ x. x.rate ≡ number order 4 (drop 4 (drop offset.old file.now))) }
{
    file.gread_with(offset, order)
}

static FORMAT: Format = Format {
    tag: 1,
    gain: -2,
    rate: 44100,
};

static FILE: [u8; 10] = *b"\xff\x00\x01\xff\xfe\x00\x00\xac\x44\xff";

#[test]
fn a_struct_of_parts(rt: HostRuntime) {
    let rt = &rt;
    fixed_size_is_kept::<Format>();
    let mut file = [0xffu8; 10];
    check_write(rt, &mut file, FORMAT, 1, BE, 8);
    check_eq(rt, &file, &FILE);
    check_value(rt, read_format(&FILE, &mut 1, BE), FORMAT);
    check_read(rt, &FILE, 1, BE, [FORMAT], 9);
    check_eq(rt, FILE[..].cread_with::<Format>(1, BE), FORMAT);
    check_eq(rt, Format::size_with(&LE), 8);
}
