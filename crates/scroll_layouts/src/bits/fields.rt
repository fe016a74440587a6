// Fields of bits, from the highest on.
ghost use Rattle.std.specs.Prelude.{◌≡◌, ◌≤◌, ◌<◌, ◌+◌, ◌*◌, ◌/◌, ◌%◌, ◌^◌, codes, IfErr, OnOk, IfSome, IfNone};
ghost use Rattle.scroll_layouts.specs.Fields.{top, below, packed, splits, small, highest, TooLarge};

use crate::{BitFields, Low, Word};
use scroll::Error;
use std::result::Result;

impl BitFields<u8, ()> for u8 {
    ghost fields = { λ _. top };

    fn check_small<E: From<Error>>(&self, _ctx: &()) -> Result<(), E> {
        Ok(())
    }

    #[inline(always)]
    fn pack(&self, _ctx: &()) -> Option<u64> {
        Some(u64::from(*self))
    }

    #[inline(always)]
    fn high(&self, _ctx: &()) -> u64 {
        u64::from(*self)
    }

    #[inline(always)]
    fn unpack(number: u64, _ctx: &()) -> u8 {
        number as u8
    }
}

impl BitFields<u16, ()> for u16 {
    ghost fields = { λ _. top };

    fn check_small<E: From<Error>>(&self, _ctx: &()) -> Result<(), E> {
        Ok(())
    }

    #[inline(always)]
    fn pack(&self, _ctx: &()) -> Option<u64> {
        Some(u64::from(*self))
    }

    #[inline(always)]
    fn high(&self, _ctx: &()) -> u64 {
        u64::from(*self)
    }

    #[inline(always)]
    fn unpack(number: u64, _ctx: &()) -> u16 {
        number as u16
    }
}

impl BitFields<u32, ()> for u32 {
    ghost fields = { λ _. top };

    fn check_small<E: From<Error>>(&self, _ctx: &()) -> Result<(), E> {
        Ok(())
    }

    #[inline(always)]
    fn pack(&self, _ctx: &()) -> Option<u64> {
        Some(u64::from(*self))
    }

    #[inline(always)]
    fn high(&self, _ctx: &()) -> u64 {
        u64::from(*self)
    }

    #[inline(always)]
    fn unpack(number: u64, _ctx: &()) -> u32 {
        number as u32
    }
}

impl BitFields<u64, ()> for u64 {
    ghost fields = { λ _. top };

    fn check_small<E: From<Error>>(&self, _ctx: &()) -> Result<(), E> {
        Ok(())
    }

    #[inline(always)]
    fn pack(&self, _ctx: &()) -> Option<u64> {
        Some(*self)
    }

    #[inline(always)]
    fn high(&self, _ctx: &()) -> u64 {
        *self
    }

    #[inline(always)]
    fn unpack(number: u64, _ctx: &()) -> u64 {
        number
    }
}

impl<W: Word, C: Drop, A: BitFields<W, C>> BitFields<W, Low<u8, C>> for (A, u8) {
    ghost fields = { λ c. below (A.fields c.1) c.0 };

    fn check_small<E: From<Error>>(&self, ctx: &Low<u8, C>) -> Result<(), E> {
        self.0.check_small::<E>(&ctx.1)?;
        if self.1 > ctx.0 {
            return Err(E::from(Error::BadInput {
                size: self.1 as usize,
                msg: "a field has more bits",
            }));
        }
        Ok(())
    }

    #[inline(always)]
    fn pack(&self, ctx: &Low<u8, C>) -> Option<u64> {
        let above = self.0.pack(&ctx.1)?;
        push_field(above, u64::from(ctx.0), u64::from(self.1))
    }

    #[inline(always)]
    fn high(&self, ctx: &Low<u8, C>) -> u64 {
        self.0.high(&ctx.1)
    }

    #[inline(always)]
    fn unpack(number: u64, ctx: &Low<u8, C>) -> (A, u8) {
        let values = u64::from(ctx.0) + 1;
        (A::unpack(number / values, &ctx.1), (number % values) as u8)
    }
}

impl<W: Word, C: Drop, A: BitFields<W, C>> BitFields<W, Low<u16, C>> for (A, u16) {
    ghost fields = { λ c. below (A.fields c.1) c.0 };

    fn check_small<E: From<Error>>(&self, ctx: &Low<u16, C>) -> Result<(), E> {
        self.0.check_small::<E>(&ctx.1)?;
        if self.1 > ctx.0 {
            return Err(E::from(Error::BadInput {
                size: self.1 as usize,
                msg: "a field has more bits",
            }));
        }
        Ok(())
    }

    #[inline(always)]
    fn pack(&self, ctx: &Low<u16, C>) -> Option<u64> {
        let above = self.0.pack(&ctx.1)?;
        push_field(above, u64::from(ctx.0), u64::from(self.1))
    }

    #[inline(always)]
    fn high(&self, ctx: &Low<u16, C>) -> u64 {
        self.0.high(&ctx.1)
    }

    #[inline(always)]
    fn unpack(number: u64, ctx: &Low<u16, C>) -> (A, u16) {
        let values = u64::from(ctx.0) + 1;
        (A::unpack(number / values, &ctx.1), (number % values) as u16)
    }
}

impl<W: Word, C: Drop, A: BitFields<W, C>> BitFields<W, Low<u32, C>> for (A, u32) {
    ghost fields = { λ c. below (A.fields c.1) c.0 };

    fn check_small<E: From<Error>>(&self, ctx: &Low<u32, C>) -> Result<(), E> {
        self.0.check_small::<E>(&ctx.1)?;
        if self.1 > ctx.0 {
            return Err(E::from(Error::BadInput {
                size: self.1 as usize,
                msg: "a field has more bits",
            }));
        }
        Ok(())
    }

    #[inline(always)]
    fn pack(&self, ctx: &Low<u32, C>) -> Option<u64> {
        let above = self.0.pack(&ctx.1)?;
        push_field(above, u64::from(ctx.0), u64::from(self.1))
    }

    #[inline(always)]
    fn high(&self, ctx: &Low<u32, C>) -> u64 {
        self.0.high(&ctx.1)
    }

    #[inline(always)]
    fn unpack(number: u64, ctx: &Low<u32, C>) -> (A, u32) {
        let values = u64::from(ctx.0) + 1;
        (A::unpack(number / values, &ctx.1), (number % values) as u32)
    }
}

// Returns the number that has the fields of `above`, and below them the field `low`, which is at
// most `mask`; or `None` if it has more than 64 bits.
#[inline(always)]
fn push_field(above: u64, mask: u64, low: u64) -> Option<u64>
    requires { mask < 2 ^ 32 }
    ensures some { IfSome result (λ n. n ≡ above * (mask + 1) + low) }
    ensures none { IfNone result (2 ^ 64 ≤ above * (mask + 1) + low) }
{
    above.checked_mul(mask + 1)?.checked_add(low)
}
