// Writes to arrays and vectors, which are those to their slices.
ghost use Rattle.std.specs.Prelude.{◌≡◌, ⊤, vec_capacity};
ghost use Rattle.scroll.specs.Errors.{PastEnd};

use super::Pwrite;
use crate::ctx::TryIntoCtx;
use crate::error::Error;
use crate::slice;
use std::result::Result;

impl<Ctx: Copy, E: From<Error>> Pwrite<Ctx, E> for Vec<u8> {
    ghost target = { λ t. t.items };

    // The capacity is unchanged.
    ghost same_target = { λ old new. vec_capacity new ≡ vec_capacity old };

    ghost past_end = { PastEnd E.from_gives };

    #[inline(always)]
    fn gwrite_with<N: TryIntoCtx<Ctx, Error = E> + Drop>(
        &mut self,
        n: N,
        offset: &mut usize,
        ctx: Ctx,
    ) -> Result<usize, E> {
        slice::gwrite_with(self.as_mut_slice(), n, offset, ctx)
    }
}

impl<Ctx: Copy, E: From<Error>, const LEN: usize> Pwrite<Ctx, E> for [u8; LEN] {
    ghost target = { λ t. t };

    ghost same_target = { λ _ _. ⊤ };

    ghost past_end = { PastEnd E.from_gives };

    #[inline(always)]
    fn gwrite_with<N: TryIntoCtx<Ctx, Error = E> + Drop>(
        &mut self,
        n: N,
        offset: &mut usize,
        ctx: Ctx,
    ) -> Result<usize, E> {
        slice::gwrite_with(&mut self[..], n, offset, ctx)
    }
}
