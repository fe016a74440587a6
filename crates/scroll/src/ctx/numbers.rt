// Numbers: what their implementations of `Fixed` share.
ghost use Rattle.std.specs.Prelude.{◌≡◌, ◌≤◌, ◌+◌, ◌++◌, length, take, drop};
ghost use Rattle.std.specs.Int.{w64, to_le_bytes};
ghost use Rattle.scroll.specs.Numbers.{number_bytes};

use crate::endian::Endian;

mod floats;
mod signed;
mod unsigned;

// Returns the `N` bytes from `offset` on. The slice has `N` bytes whatever the source has, so that
// no test is left of `first_chunk`.
#[inline]
fn bytes_at<const N: usize>(from: &[u8], offset: usize) -> [u8; N]
    requires { offset + N ≤ length from.now }
    ensures { result ≡ take N (drop offset from.now) }
{
    *from[offset..offset + N].first_chunk().unwrap()
}

// Writes the bytes of a number to the start of a target.
#[inline]
fn put_prefix<const WIDTH: usize>(dst: &mut [u8], bytes: [u8; WIDTH])
    requires { WIDTH ≤ length dst.old }
    ensures { dst.new ≡ bytes.entry ++ drop WIDTH dst.old }
{
    dst[..WIDTH].copy_from_slice(&bytes);
}

// Writes the bytes of a number of sixteen bytes to the start of a target, in two halves. Writing
// all sixteen at once would gather them byte by byte, which takes ten times as long.
#[inline]
fn put_sixteen(dst: &mut [u8], number: u128, order: Endian)
    requires { 16 ≤ length dst.old }
    ensures { dst.new ≡ number_bytes order 16 number ++ drop 16 dst.old }
{
    let low = (number % 0x1_0000_0000_0000_0000) as u64;
    let high = (number / 0x1_0000_0000_0000_0000) as u64;
    match order {
        Endian::Little => put_halves(dst, low, high),
        Endian::Big => put_halves(dst, high.swap_bytes(), low.swap_bytes()),
    }
}

// Writes the bytes of two numbers to the start of a target, each little-endian.
#[inline]
fn put_halves(dst: &mut [u8], first: u64, second: u64)
    requires { 16 ≤ length dst.old }
    ensures { dst.new ≡ (to_le_bytes w64 first ++ to_le_bytes w64 second) ++ drop 16 dst.old }
{
    let (prefix, rest) = dst.split_at_mut(8);
    put_prefix(prefix, first.to_le_bytes());
    put_prefix(rest, second.to_le_bytes());
}
