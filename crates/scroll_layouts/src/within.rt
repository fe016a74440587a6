// A value that uses up as many bytes as a length says.
ghost use Rattle.std.specs.Prelude.{◌≡◌, ◌≢◌, ◌≤◌, ◌<◌, ◌+◌, ◌-◌, ◌^◌, ◌++◌, ◌⊎◌, length, take, drop, min, codes, IfErr, OnOk};
ghost use Rattle.scroll.specs.declared.error.Error.TheVariants.{TooBig};
ghost use Rattle.scroll_layouts.specs.Errors.{GivesBadInput};
ghost use Rattle.scroll_layouts.specs.Formats.{within, len, bytes, reads, refuses, agrees, differs};

use crate::{Part, ReadPart};
use scroll::{Endian, Error, check_room};
use std::result::Result;

/// The context of a value that uses up as many bytes as it says; then the value's own context.
///
/// ```rust
/// let bytes: [u8; 3] = [1, 2, 3];
/// let left = read_whole::<Within<usize>, Error, &[u8]>(&bytes, LE, &Within(3, 2));
/// assert!(rt;
///     matches!(
///         &left,
///         Err(Error::BadInput {
///             size: 2,
///             msg: "fewer bytes than its part"
///         })
///     )
/// );
/// ```
#[derive(Drop)]
pub struct Within<C>(pub usize, pub C);

/// A value that uses up as many bytes as the context says.
///
/// A shorter source is [`Error::TooBig`] with that number and the number of bytes there. The value
/// is read from these bytes alone, and so are its errors. One that has fewer is
/// [`Error::BadInput`] with its size and the message `fewer bytes than its part`; a write of a
/// value of another size is one with the number and the message `another length than its part`.
impl<E: From<Error>, C: Drop, A: Part<C, E>> Part<Within<C>, E> for A {
    ghost format = { λ c. within E.from_gives c.0 (A.format c.1) };

    fn check(&self, order: Endian, ctx: &Within<C>) -> Result<(), E> {
        self.check(order, &ctx.1)?;
        if ctx.0 == usize::MAX || self.size(order, &ctx.1) != ctx.0 {
            return Err(E::from(Error::BadInput {
                size: ctx.0,
                msg: "another length than its part",
            }));
        }
        Ok(())
    }

    fn size(&self, order: Endian, ctx: &Within<C>) -> usize {
        self.size(order, &ctx.1)
    }

    #[inline(always)]
    fn put(&self, dst: &mut [u8], order: Endian, ctx: &Within<C>) {
        self.put(dst, order, &ctx.1)
    }
}

impl<'a, E: From<Error> + Drop, C: Drop, A: ReadPart<'a, C, E>> ReadPart<'a, Within<C>, E> for A {
    ghost format = { λ c. within E.from_gives c.0 (A.format c.1) };

    #[inline(always)]
    fn read_at(
        from: &'a [u8],
        offset: usize,
        order: Endian,
        ctx: &Within<C>,
    ) -> Result<(A, usize), E> {
        check_there(ctx.0, from.len() - offset)?;
        let part = &from[offset..offset + ctx.0];
        let (value, end) = A::read_at(part, 0, order, &ctx.1)?;
        check_used(ctx.0, end)?;
        Ok((value, offset + ctx.0))
    }

    #[tactic(auto, using(crate::specs::lemmas::EndLemmas::part_ends))]
    #[inline(always)]
    fn end_at(from: &'a [u8], offset: usize, order: Endian, ctx: &Within<C>) -> Option<usize> {
        let Ok(()) = check_there::<E>(ctx.0, from.len() - offset) else {
            return None;
        };
        let end = A::end_at(&from[offset..offset + ctx.0], 0, order, &ctx.1)?;
        let Ok(()) = check_used::<E>(ctx.0, end) else {
            return None;
        };
        Some(offset + ctx.0)
    }
}

// Returns an error if there are fewer bytes than a part has.
#[inline(always)]
pub(crate) fn check_there<E: From<Error>>(count: usize, len: usize) -> Result<(), E>
    ensures there { OnOk result (count ≤ len) }
    ensures short { IfErr result (λ e. (len < count) × E.from_gives (TooBig count len) e) }
{
    check_room(count, len)?;
    Ok(())
}

// Returns an error if a value that ends there doesn't use its part up.
#[inline(always)]
fn check_used<E: From<Error>>(count: usize, end: usize) -> Result<(), E>
    ensures used { OnOk result (end ≡ count) }
    ensures fewer { IfErr result (λ e. (end ≢ count)
        × GivesBadInput E.from_gives end (codes "fewer bytes than its part") e) }
{
    if end != count {
        return Err(E::from(Error::BadInput {
            size: end,
            msg: "fewer bytes than its part",
        }));
    }
    Ok(())
}
