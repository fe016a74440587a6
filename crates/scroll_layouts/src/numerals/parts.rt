// Numbers in digits as parts.
ghost use Rattle.std.specs.Prelude.{◌≡◌, ◌≤◌, ◌<◌, ◌+◌, ◌-◌, ◌^◌, ◌++◌, ◌⊎◌, length, take, drop, min, codes, IfErr, OnOk};
ghost use Rattle.scroll_layouts.specs.Formats.{leaf, shape};
ghost use Rattle.scroll_layouts.specs.Numerals.{IsNumeral, numeral};
ghost use Rattle.scroll_layouts.specs.Starts.{start};
ghost use Rattle.scroll_layouts.specs.lemmas.PromiseLemmas.{digits_numeral, digits-is};

use crate::numerals::numeral_value;
use crate::{Digits, Part, ReadPart};
use scroll::{Endian, Error, check_room};
use std::result::Result;

/// A number in digits. A shorter source is [`Error::TooBig`] with the size of the field and the
/// number of bytes there. A field that is no number is [`Error::BadInput`] with its size and the
/// message `the digits are no number`.
impl<E: From<Error>, const BASE: u64, const N: usize> Part<(), E> for Digits<BASE, N> {
    ghost format = { λ _. shape (leaf (start (numeral E.from_gives BASE N)))
        digits_numeral digits-is };

    fn check(&self, _order: Endian, _ctx: &()) -> Result<(), E> {
        let _number = *self;
        Ok(())
    }

    fn size(&self, _order: Endian, _ctx: &()) -> usize {
        N
    }

    #[inline(always)]
    fn put(&self, dst: &mut [u8], _order: Endian, _ctx: &()) {
        let number = *self;
        dst[..N].copy_from_slice(&number.bytes);
    }
}

impl<'a, E: From<Error> + Drop, const BASE: u64, const N: usize> ReadPart<'a, (), E>
    for Digits<BASE, N> {
    ghost format = { λ _. shape (leaf (start (numeral E.from_gives BASE N)))
        digits_numeral digits-is };

    #[inline(always)]
    fn read_at(
        from: &'a [u8],
        offset: usize,
        _order: Endian,
        _ctx: &(),
    ) -> Result<(Digits<BASE, N>, usize), E> {
        check_room(N, from.len() - offset)?;
        match Digits::new(field_at(from, offset)) {
            Some(number) => Ok((number, offset + N)),
            None => Err(E::from(Error::BadInput {
                size: N,
                msg: "the digits are no number",
            })),
        }
    }

    #[inline(always)]
    fn end_at(from: &'a [u8], offset: usize, _order: Endian, _ctx: &()) -> Option<usize> {
        let Ok(()) = check_field::<E>(&from[offset..], N, BASE) else {
            return None;
        };
        Some(offset + N)
    }
}

// Returns the field at an offset.
#[inline(always)]
fn field_at<const N: usize>(from: &[u8], offset: usize) -> [u8; N]
    requires { offset + N ≤ length from.now }
    ensures { result ≡ take N (drop offset from.now) }
{
    let mut field = [0; N];
    field.copy_from_slice(&from[offset..offset + N]);
    field
}

// Returns the error of bytes that don't begin with a number in a field of `size` bytes.
fn check_field<E: From<Error>>(from: &[u8], size: usize, base: u64) -> Result<(), E>
    ensures number { OnOk result ((size ≤ length from.now) × IsNumeral base (take size from.now)) }
    ensures refused { IfErr result ((numeral E.from_gives base size).start_refuses from.now) }
{
    check_room(size, from.len())?;
    match numeral_value(&from[..size], base) {
        Some(_value) => Ok(()),
        None => Err(E::from(Error::BadInput {
            size,
            msg: "the digits are no number",
        })),
    }
}
