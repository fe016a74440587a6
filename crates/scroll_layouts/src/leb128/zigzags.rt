// Signed numbers in zigzag as parts.
ghost use Rattle.std.specs.Prelude.{◌≡◌, ◌≤◌, ◌<◌, ◌+◌, ◌-◌, ◌^◌, ◌++◌, length, take, drop, min};
ghost use Rattle.scroll.specs.declared.error.Error.{Error};
ghost use Rattle.scroll_layouts.specs.Formats.{leaf, shape};
ghost use Rattle.scroll_layouts.specs.Starts.{start};
ghost use Rattle.scroll_layouts.specs.lemmas.PromiseLemmas.{zigzag-is};
ghost use Rattle.scroll_layouts.specs.VarintLeaves.{zigzags, zigzag_counted};
ghost use Rattle.scroll_layouts.specs.Varints.{zigzag};

use crate::{Part, ReadPart, Zigzag};
use scroll::ctx::TryFromCtx;
use scroll::{Endian, Error, LebNumber, Uleb128};
use std::result::Result;

// Returns the unsigned number that a signed one is in zigzag.
#[inline(always)]
pub(super) fn to_zigzag(value: i64) -> u64
    ensures { result ≡ zigzag value }
{
    if value < 0 {
        2 * ((-1 - value) as u64) + 1
    } else {
        2 * (value as u64)
    }
}

// Returns the signed number that an unsigned one is in zigzag.
#[inline(always)]
fn from_zigzag(number: u64) -> i64
    ensures { zigzag result ≡ number }
{
    let half = (number / 2) as i64;
    if number % 2 == 0 { half } else { -1 - half }
}

/// A signed number in zigzag. The errors are those of a read of [`Uleb128`].
impl<E: From<Error>> Part<(), E> for Zigzag {
    ghost format = { λ _. shape (leaf (start (zigzags E.from_gives))) zigzag_counted zigzag-is };

    fn check(&self, _order: Endian, _ctx: &()) -> Result<(), E> {
        let _number = *self;
        Ok(())
    }

    #[tactic(auto, using(crate::specs::lemmas::LeafLemmas::leb_sizes))]
    fn size(&self, _order: Endian, _ctx: &()) -> usize {
        self.count
    }

    #[tactic(auto, using(crate::specs::lemmas::LeafLemmas::leb_sizes))]
    #[inline(always)]
    fn put(&self, dst: &mut [u8], _order: Endian, _ctx: &()) {
        let number = *self;
        match to_zigzag(number.value).put(dst, number.count) {
            Ok(_size) => (),
            Err(_short) => unreachable!(),
        }
    }
}

impl<'a, E: From<Error> + Drop> ReadPart<'a, (), E> for Zigzag {
    ghost format = { λ _. shape (leaf (start (zigzags E.from_gives))) zigzag_counted zigzag-is };

    #[inline(always)]
    fn read_at(
        from: &'a [u8],
        offset: usize,
        _order: Endian,
        _ctx: &(),
    ) -> Result<(Zigzag, usize), E> {
        let (number, size) = Uleb128::try_from_ctx(&from[offset..], ())?;
        let value = Zigzag {
            value: from_zigzag(*number.as_ref()),
            count: number.size(),
        };
        Ok((value, offset + size))
    }

    #[inline(always)]
    fn end_at(from: &'a [u8], offset: usize, order: Endian, ctx: &()) -> Option<usize> {
        match <Zigzag as ReadPart<'a, (), E>>::read_at(from, offset, order, ctx) {
            Ok((_value, end)) => Some(end),
            Err(_error) => None,
        }
    }
}
