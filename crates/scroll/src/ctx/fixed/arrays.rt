// Arrays of a type of a fixed size, as parts of a struct. (By themselves they have the
// implementations of every array.)
ghost use Rattle.std.specs.Prelude.{◌≡◌, ◌≤◌, ◌+◌, ◌*◌, ◌++◌, List, length, drop};
ghost use Rattle.std.specs.List.{All, flat_map};
ghost use Rattle.scroll.specs.Arrays.{MakesArray};
ghost use Rattle.scroll.specs.Fixed.{exactly};
ghost use Rattle.scroll.specs.lemmas.FixedLemmas.{length-exactly, array-back, array-fits, array-one, array-local, array-kept-at};

use crate::ctx::fixed::{Fixed, RoundTrip};
use crate::ctx::tuples::write_behind;
use crate::endian::Endian;
use std::array;

impl<T: Fixed, const N: usize> Fixed for [T; N] {
    ghost width = { T.width * N };

    ghost bytes = { λ order xs. exactly (T.width * N) (flat_map (T.bytes order) xs) };

    ghost makes = { λ order s at xs.
        MakesArray T.width (λ s x. T.makes order s 0 x) N (drop at s) xs };

    ghost fits = { λ xs. (length xs ≡ N) × All T.fits xs };

    ghost bytes_len = { λ order xs. length-exactly (T.width * N) (flat_map (T.bytes order) xs) };

    ghost back = { λ order xs prefix rest h.
        array-back T.width N (T.bytes order) (T.makes order) T.fits (T.bytes_len order)
        (T.back order)
        xs prefix rest h.0 h.1 };

    ghost made_fits = { λ order s at xs all h.
        array-fits T.width N (T.makes order) T.fits (T.made_fits order) s at xs all h };

    ghost one = { λ order s at.
        array-one T.width N (λ s x. T.makes order s 0 x) (drop at s)
        (λ i. T.one order (drop (T.width * i) (drop at s)) 0) };

    ghost local = { λ order s at t to xs same h.
        array-local T.width N (T.makes order) (T.local order) s at t to xs same h };

    fn width() -> usize {
        if N == 0 {
            return 0;
        }
        T::width() * N
    }

    #[inline(always)]
    fn read_at(from: &[u8], offset: usize, order: Endian) -> [T; N] {
        let source = &from[offset..];
        match T::as_values(source, N, order) {
            Some(values) => *values.first_chunk().unwrap(),
            None => elements(source, order),
        }
    }

    #[inline(always)]
    fn write_prefix(self, dst: &mut [u8], order: Endian) {
        match T::as_bytes(&self, order) {
            Some(bytes) => put_bytes(bytes, dst),
            None => put_elements(self, dst, order),
        }
    }
}

impl<T: RoundTrip, const N: usize> RoundTrip for [T; N] {
    ghost kept = { λ order s at xs all room h.
        array-kept-at T.width N (T.bytes order) (T.makes order) (T.bytes_len order) (T.kept order)
        s at xs all room h };
}

// Returns the elements at the start of `from`.
#[inline(always)]
fn elements<T: Fixed, const N: usize>(from: &[u8], order: Endian) -> [T; N]
    requires { T.width * N ≤ length from.now }
    ensures { MakesArray T.width (λ s x. T.makes order s 0 x) N from.now result }
{
    array::from_fn(
        |i| -> T
            requires { T.width * (i + 1) ≤ length from.now }
            ensures made { T.makes order (drop (T.width * i) from.entry.now) 0 result }
            ensures same { from.exit.now ≡ from.entry.now }
        { element(from, i, order) },
    )
}

// Returns the element at `index`.
#[inline(always)]
fn element<T: Fixed>(from: &[u8], index: usize, order: Endian) -> T
    requires { T.width * (index + 1) ≤ length from.now }
    ensures { T.makes order (drop (T.width * index) from.now) 0 result }
{
    T::read_at(from, T::width() * index, order)
}

// Writes the elements to the start of `dst`.
#[inline(always)]
fn put_elements<T: Fixed, const N: usize>(values: [T; N], dst: &mut [u8], order: Endian)
    requires { T.width * N ≤ length dst.old }
    ensures { dst.new ≡ flat_map (T.bytes order) values ++ drop (T.width * N) dst.old }
{
    for i in 0..N {
        write_behind(values[i], dst, T::width() * i, order);
    }
}

// Writes the bytes to the start of `dst`.
#[inline(always)]
fn put_bytes(bytes: &[u8], dst: &mut [u8])
    requires { length bytes.now ≤ length dst.old }
    ensures { dst.new ≡ bytes.now ++ drop (length bytes.now) dst.old }
{
    dst[..bytes.len()].copy_from_slice(bytes);
}
