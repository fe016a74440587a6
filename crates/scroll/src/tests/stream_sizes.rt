// Types of each size that a stream call takes, and one whose size is more than it needs.
ghost use Rattle.std.specs.Prelude.{◌≡◌, ◌≤◌, ◌++◌, length, take, drop};
ghost use Rattle.scroll.specs.Numbers.{number, number_bytes};
ghost use Rattle.scroll.specs.lemmas.Frames.{drop-prefix, length-number_bytes};

use crate::ctx::{FromCtx, IntoCtx, SizeWith};
use crate::tests::results::{check_eq, check_value, expect_value};
use crate::{BE, Endian, IOread, IOwrite};
use std::io;
use std::io::{ErrorKind, Write};
use std::process::Abort;

// `N` bytes.
#[derive(Clone, Copy)]
struct Block<const N: usize>([u8; N]);

impl<const N: usize> FromCtx<()> for Block<N> {
    ghost need = { λ _. N };

    ghost makes = { λ _ source x. x.0 ≡ take N source };

    fn from_ctx(this: &[u8], _ctx: ()) -> Block<N> {
        let mut bytes = [0; N];
        bytes.copy_from_slice(&this[..N]);
        Block(bytes)
    }
}

impl<const N: usize> IntoCtx<()> for Block<N> {
    ghost need = { λ _. N };

    ghost overwrites = { λ _ x old new. (length x.0 ≡ N) × (new ≡ x.0 ++ drop N old) };

    ghost overwrites_keeps = { λ _ x old new h. drop-prefix N x.0 old new h.0 h.1 };

    fn into_ctx(self, dst: &mut [u8], _ctx: ()) {
        dst[..N].copy_from_slice(&self.0);
    }
}

impl<const N: usize> SizeWith<()> for Block<N> {
    ghost size = { λ _. N };

    fn size_with(_ctx: &()) -> usize {
        N
    }
}

// Reads a block from more bytes than it takes, and writes it to more bytes than it needs.
fn check_block<const N: usize>(rt: &impl Abort, bytes: &[u8; 257])
    requires { N ≤ 256 }
{
    let mut source: &[u8] = bytes;
    let block: Block<N> = expect_value(rt, source.ioread());
    check_eq(rt, Some((&block.0, source)), bytes.split_first_chunk());
    let (mut held, mut wanted) = ([0x77u8; 257], [0x77u8; 257]);
    let mut target: &mut [u8] = &mut held;
    check_value(rt, target.iowrite(block), ());
    wanted[..N].copy_from_slice(&bytes[..N]);
    check_eq(rt, held, wanted);
}

#[test]
fn blocks_of_each_size(rt: HostRuntime) {
    let rt = &rt;
    let mut bytes = [0u8; 257];
    for i in 0..255u8 {
        bytes[usize::from(i)] = i + 1;
    }
    check_block::<0>(rt, &bytes);
    check_block::<1>(rt, &bytes);
    check_block::<2>(rt, &bytes);
    check_block::<16>(rt, &bytes);
    check_block::<17>(rt, &bytes);
    check_block::<100>(rt, &bytes);
    check_block::<255>(rt, &bytes);
    check_block::<256>(rt, &bytes);
}

// A writer each of whose calls fails.
#[derive(Drop)]
struct Broken;

impl Write for Broken {
    fn write(&mut self, _buf: &[u8]) -> io::Result<usize> {
        Err(io::Error::from(ErrorKind::BrokenPipe))
    }

    fn flush(&mut self) -> io::Result<()> {
        Err(io::Error::from(ErrorKind::BrokenPipe))
    }
}

#[test]
fn no_bytes_call_no_writer(rt: HostRuntime) {
    check_value(&rt, Broken.iowrite(Block([0u8; 0])), ());
}

// A number of two bytes that occupies four.
#[derive(Clone, Copy)]
struct Wide {
    number: u16,
}

impl FromCtx<Endian> for Wide {
    ghost need = { λ _. 2 };

    ghost makes = { λ order source x. x.number ≡ number order 2 source };

    fn from_ctx(this: &[u8], ctx: Endian) -> Wide {
        Wide {
            number: u16::from_ctx(this, ctx),
        }
    }
}

impl IntoCtx<Endian> for Wide {
    ghost need = { λ _. 2 };

    ghost overwrites = { λ order x old new. new ≡ number_bytes order 2 x.number ++ drop 2 old };

    ghost overwrites_keeps = { λ order x old new h. drop-prefix 2 _ old new (length-number_bytes order 2 x.number) h };

    fn into_ctx(self, dst: &mut [u8], ctx: Endian) {
        self.number.into_ctx(dst, ctx)
    }
}

impl SizeWith<Endian> for Wide {
    ghost size = { λ _. 4 };

    fn size_with(_ctx: &Endian) -> usize {
        4
    }
}

#[test]
fn a_type_that_needs_less_than_its_size(rt: HostRuntime) {
    let rt = &rt;
    let mut source: &[u8] = &[1, 2, 0xff, 0xff, 9];
    let wide: Wide = expect_value(rt, source.ioread_with(BE));
    check_eq(rt, wide.number, 258);
    check_eq(rt, source, &[9]);
    let mut bytes = [7u8; 6];
    let mut target: &mut [u8] = &mut bytes;
    check_value(rt, target.iowrite_with(wide, BE), ());
    check_eq(rt, bytes, [1, 2, 0, 0, 7, 7]);
}
