// What a value leaves of some bytes.
ghost use Rattle.std.specs.Prelude.{◌≡◌, ◌<◌, ◌≤◌, ◌+◌, ◌-◌, ◌^◌, ◌++◌, ◌⊎◌, length, drop, min, codes, nat_lt, IfOk, IfErr};
ghost use Rattle.scroll_layouts.specs.Errors.{GivesBadInput};
ghost use Rattle.scroll_layouts.specs.Formats.{behind, when, within, len, bytes, reads, refuses, agrees, differs};

use crate::pairs::put_behind;
use crate::{Part, ReadPart, When, Within};
use scroll::{Endian, Error};
use std::result::Result;

/// The context of a value and what it leaves of some bytes: how many they are; then the value's own
/// context. That of what is left is its number.
///
/// ```rust
/// let bytes: [u8; 4] = [2, b'a', 3, 4];
/// let ((text, rest), _) =
///     read_whole::<Behind<usize>, Error, (&str, &[u8])>(&bytes[1..], LE, &Behind(3, 1))?;
/// assert_eq!(rt; (text, rest.len()), ("a", 2));
/// ```
#[derive(Drop)]
pub struct Behind<C>(pub usize, pub C);

/// A value, and what it leaves of as many bytes as the context says.
///
/// A value that has more bytes is [`Error::BadInput`] with its size and the message
/// `more bytes than its part`; a write of it is one with the number of the context. The errors of
/// what is left come last.
impl<E: From<Error>, C: Drop, A: Part<C, E>, B: Part<usize, E>> Part<Behind<C>, E> for (A, B) {
    ghost format = { λ c. behind E.from_gives c.0 (A.format c.1) B.format };

    fn check(&self, order: Endian, ctx: &Behind<C>) -> Result<(), E> {
        self.0.check(order, &ctx.1)?;
        let size = self.0.size(order, &ctx.1);
        if ctx.0 == usize::MAX || size > ctx.0 {
            return Err(E::from(Error::BadInput {
                size: ctx.0,
                msg: "more bytes than its part",
            }));
        }
        self.1.check(order, &(ctx.0 - size))
    }

    fn size(&self, order: Endian, ctx: &Behind<C>) -> usize {
        let size = self.0.size(order, &ctx.1);
        size.saturating_add(self.1.size(order, &ctx.0.saturating_sub(size)))
    }

    #[inline(always)]
    fn put(&self, dst: &mut [u8], order: Endian, ctx: &Behind<C>) {
        let first = self.0.size(order, &ctx.1);
        self.0.put(dst, order, &ctx.1);
        put_behind::<E, usize, B>(&self.1, dst, first, order, &ctx.0.saturating_sub(first))
    }
}

impl<'a, E: From<Error> + Drop, C: Drop, A: ReadPart<'a, C, E>, B: ReadPart<'a, usize, E>> ReadPart<
    'a,
    Behind<C>,
    E,
> for (A, B) {
    ghost format = { λ c. behind E.from_gives c.0 (A.format c.1) B.format };

    #[inline(always)]
    fn read_at(
        from: &'a [u8],
        offset: usize,
        order: Endian,
        ctx: &Behind<C>,
    ) -> Result<((A, B), usize), E> {
        let (first, next) = A::read_at(from, offset, order, &ctx.1)?;
        let left = check_left(ctx.0, next - offset)?;
        let (rest, end) = B::read_at(from, next, order, &left)?;
        Ok(((first, rest), end))
    }

    #[tactic(auto, using(crate::specs::lemmas::EndLemmas::part_ends))]
    #[inline(always)]
    fn end_at(from: &'a [u8], offset: usize, order: Endian, ctx: &Behind<C>) -> Option<usize> {
        let next = A::end_at(from, offset, order, &ctx.1)?;
        let Ok(left) = check_left::<E>(ctx.0, next - offset) else {
            return None;
        };
        B::end_at(from, next, order, &left)
    }
}

/// A value that is there if any bytes are left, and then uses them up. The errors are those of a
/// value in [`When`] and [`Within`].
impl<E: From<Error>, A: Part<(), E>> Part<usize, E> for Option<A> {
    ghost format = { λ n. when E.from_gives (nat_lt 0 n) (within E.from_gives n (A.format tt)) };

    fn check(&self, order: Endian, ctx: &usize) -> Result<(), E> {
        Part::<When<Within<()>>, E>::check(self, order, &left(*ctx))
    }

    fn size(&self, order: Endian, ctx: &usize) -> usize {
        Part::<When<Within<()>>, E>::size(self, order, &left(*ctx))
    }

    #[inline(always)]
    fn put(&self, dst: &mut [u8], order: Endian, ctx: &usize) {
        Part::<When<Within<()>>, E>::put(self, dst, order, &left(*ctx))
    }
}

impl<'a, E: From<Error> + Drop, A: ReadPart<'a, (), E>> ReadPart<'a, usize, E> for Option<A> {
    ghost format = { λ n. when E.from_gives (nat_lt 0 n) (within E.from_gives n (A.format tt)) };

    #[inline(always)]
    fn read_at(
        from: &'a [u8],
        offset: usize,
        order: Endian,
        ctx: &usize,
    ) -> Result<(Option<A>, usize), E> {
        <Option<A> as ReadPart<'a, When<Within<()>>, E>>::read_at(from, offset, order, &left(*ctx))
    }

    #[inline(always)]
    fn end_at(from: &'a [u8], offset: usize, order: Endian, ctx: &usize) -> Option<usize> {
        <Option<A> as ReadPart<'a, When<Within<()>>, E>>::end_at(from, offset, order, &left(*ctx))
    }
}

// Returns the context of an optional value in so many bytes.
#[inline(always)]
fn left(size: usize) -> When<Within<()>>
    ensures { result ≡ record { 0 = nat_lt 0 size; 1 = record { 0 = size; 1 = tt } } }
{
    When(size > 0, Within(size, ()))
}

// Returns how many bytes of a part a value of some size leaves, or an error if it has more.
#[inline(always)]
fn check_left<E: From<Error>>(count: usize, size: usize) -> Result<usize, E>
    ensures left { IfOk result (λ left. (size ≤ count) × (left ≡ count - size)) }
    ensures more { IfErr result (λ e. (count < size)
        × GivesBadInput E.from_gives size (codes "more bytes than its part") e) }
{
    if size > count {
        return Err(E::from(Error::BadInput {
            size,
            msg: "more bytes than its part",
        }));
    }
    Ok(count - size)
}
