// Fields of some bits in one number.
ghost use Rattle.std.specs.Prelude.{◌≡◌, ◌≤◌, ◌<◌, ◌+◌, ◌-◌, ◌^◌, ◌++◌, ◌⊎◌, ℕ, length, drop, min, codes, IfOk, IfErr, OnOk, IfSome, IfNone};
ghost use Rattle.std.specs.Bool.{OnTrue, OnFalse};
ghost use Rattle.scroll.specs.Numbers.{number, number_bytes};
ghost use Rattle.scroll_layouts.specs.Bits.{packed_in};
ghost use Rattle.scroll_layouts.specs.Errors.{GivesBadInput};
ghost use Rattle.scroll_layouts.specs.Fields.{Fields, packed, splits, small, highest, TooLarge};
ghost use Rattle.scroll_layouts.specs.Formats.{leaf};

mod fields;
mod three_bytes;
mod words;

use crate::{Part, ReadPart};
use scroll::{Endian, Error, check_room};
use std::marker::PhantomData;
use std::result::Result;

/// A number that fields of bits are packed in: `u8`, `u16`, [`U24`], `u32` or `u64`.
pub trait Word: Drop {
    // How many bytes it has.
    ghost size_of: { ℕ };

    /// Returns how many bytes it has, at most 8.
    fn size() -> usize
        ensures size { result ≡ size_of }
        ensures most { 256 ^ size_of ≤ 2 ^ 64 };

    /// Returns the number at `offset` of `from`, which has the bytes.
    fn load(from: &[u8], offset: usize, order: Endian) -> u64
        requires { offset + size_of ≤ length from.now }
        ensures is { result ≡ number order size_of (drop offset from.now) }
        ensures small { result < 256 ^ size_of };

    /// Returns whether a number has room in it.
    fn holds(number: u64) -> bool
        ensures yes { OnTrue result (number < 256 ^ size_of) }
        ensures no { OnFalse result (256 ^ size_of ≤ number) };

    /// Writes a number to the start of `dst`, which has room for it. The bytes after it are
    /// unchanged.
    fn store(number: u64, dst: &mut [u8], order: Endian)
        requires { (number < 256 ^ size_of) × (size_of ≤ length dst.old) }
        ensures { dst.new ≡ number_bytes order size_of number ++ drop size_of dst.old };
}

/// A number of three bytes, whose fields are those of a `u32`.
///
/// ```rust
/// let bytes: [u8; 3] = [1, 2, 3];
/// let (number, _) =
///     read_whole::<Packed<U24, ()>, Error, u32>(&bytes, BE, &Packed(std::marker::PhantomData, ()))?;
/// assert_eq!(rt; number, 0x01_02_03);
/// ```
#[derive(Drop)]
pub struct U24;

/// The fields of a number `W`, from its highest bits on: an unsigned number of the size of `W`, or
/// a pair of such fields and an unsigned number below them.
pub trait BitFields<W: Word, C>: Drop {
    // How a number is these fields.
    ghost fields: { C → Fields Self };

    /// Returns the error of the first field, from the highest on, that is above its mask.
    fn check_small<E: From<Error>>(&self, ctx: &C) -> Result<(), E>
        ensures small { OnOk result (small (fields ctx.now) self.now) }
        ensures large { IfErr result (TooLarge E.from_gives (fields ctx.now) self.now) };

    /// Returns the number that has these fields, or `None` if it has more than 64 bits.
    fn pack(&self, ctx: &C) -> Option<u64>
        ensures packed { IfSome result (λ n. n ≡ packed (fields ctx.now) self.now) }
        ensures none { IfNone result (2 ^ 64 ≤ packed (fields ctx.now) self.now) };

    /// Returns the highest field.
    fn high(&self, ctx: &C) -> u64
        ensures { result ≡ highest (fields ctx.now) self.now };

    /// Returns the fields of a number, which has room in `W`.
    fn unpack(number: u64, ctx: &C) -> Self
        requires { number < 256 ^ W.size_of }
        ensures { splits (fields ctx.now) number result };
}

/// The context of fields that are packed in a number `W`; then their own context.
///
/// ```rust
/// let nibbles: Packed<u8, Low<u8, ()>> = Packed(std::marker::PhantomData, Low(0x0f, ()));
/// let bytes: [u8; 1] = [0x45];
/// let ((version, words), _) =
///     read_whole::<Packed<u8, Low<u8, ()>>, Error, (u8, u8)>(&bytes, BE, &nibbles)?;
/// assert_eq!(rt; (version, words), (4, 5));
/// ```
#[derive(Drop)]
pub struct Packed<W, C>(pub PhantomData<W>, pub C);

/// The context of fields and one below them: the greatest value of that one, such as 0x0f for four
/// bits; then the context of the fields above it.
#[derive(Drop)]
pub struct Low<M, C>(pub M, pub C);

/// Fields of some bits in one number. A shorter source is [`Error::TooBig`] with the size of the
/// number and the number of bytes there. A write of a field that has more bits is
/// [`Error::BadInput`] with the field and the message `a field has more bits`.
impl<E: From<Error>, W: Word, C: Drop, A: BitFields<W, C>> Part<Packed<W, C>, E> for A {
    ghost format = { λ c. leaf (packed_in E.from_gives W.size_of (A.fields c.1)) };

    fn check(&self, _order: Endian, ctx: &Packed<W, C>) -> Result<(), E> {
        self.check_small::<E>(&ctx.1)?;
        let _size = W::size();
        match self.pack(&ctx.1) {
            Some(number) => {
                if !W::holds(number) {
                    return Err(more_bits(self.high(&ctx.1)));
                }
                Ok(())
            }
            None => Err(more_bits(self.high(&ctx.1))),
        }
    }

    #[tactic(auto, using(crate::specs::lemmas::BitLemmas::word_sizes))]
    fn size(&self, _order: Endian, _ctx: &Packed<W, C>) -> usize {
        W::size()
    }

    #[tactic(auto, using(crate::specs::lemmas::BitLemmas::word_sizes))]
    #[inline(always)]
    fn put(&self, dst: &mut [u8], order: Endian, ctx: &Packed<W, C>) {
        let _size = W::size();
        match self.pack(&ctx.1) {
            Some(number) => W::store(number, dst, order),
            None => unreachable!(),
        }
    }
}

impl<'a, E: From<Error> + Drop, W: Word, C: Drop, A: BitFields<W, C>> ReadPart<'a, Packed<W, C>, E>
    for A {
    ghost format = { λ c. leaf (packed_in E.from_gives W.size_of (A.fields c.1)) };

    #[inline(always)]
    fn read_at(
        from: &'a [u8],
        offset: usize,
        order: Endian,
        ctx: &Packed<W, C>,
    ) -> Result<(A, usize), E> {
        let size = W::size();
        check_room(size, from.len() - offset)?;
        let number = W::load(from, offset, order);
        Ok((A::unpack(number, &ctx.1), offset + size))
    }

    #[inline(always)]
    fn end_at(from: &'a [u8], offset: usize, order: Endian, ctx: &Packed<W, C>) -> Option<usize> {
        match <A as ReadPart<'a, Packed<W, C>, E>>::read_at(from, offset, order, ctx) {
            Ok((_value, end)) => Some(end),
            Err(_error) => None,
        }
    }
}

// Returns the error of a field that has no room.
fn more_bits<E: From<Error>>(field: u64) -> E
    ensures { GivesBadInput E.from_gives field (codes "a field has more bits") result }
{
    E::from(Error::BadInput {
        size: field as usize,
        msg: "a field has more bits",
    })
}
