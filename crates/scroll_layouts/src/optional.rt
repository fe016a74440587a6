// Values that are there if something before them says so.
ghost use Rattle.std.specs.Prelude.{◌≡◌, ◌≤◌, ◌+◌, ◌-◌, ◌^◌, ◌++◌, length, drop, min, codes, option_map};
ghost use Rattle.scroll_layouts.specs.Formats.{when, len, bytes, reads, refuses, agrees, differs};

use crate::{Field, Part, ReadPart, Run};
use scroll::ctx::Record;
use scroll::{Endian, Error};
use std::result::Result;

/// The context of an optional value: whether it is there, and its own context.
///
/// ```rust
/// let bytes: [u8; 1] = [7];
/// let (there, _) = read_whole::<When<()>, Error, Option<Run<u8>>>(&bytes, LE, &When(true, ()))?;
/// let (none, size) =
///     read_whole::<When<()>, Error, Option<Run<u8>>>(&bytes, LE, &When(false, ()))?;
/// assert!(rt; matches!(&there, Some(Run(7))));
/// assert!(rt; none.is_none());
/// assert_eq!(rt; size, 0);
/// ```
#[derive(Drop)]
pub struct When<C>(pub bool, pub C);

/// A value that is there if the context says so. A write of a value that mustn't be there is
/// [`Error::BadInput`] with the size 0 and the message `an optional part is too many`; a write of
/// none that must be there is one with the size 1 and the message `an optional part is missing`.
impl<E: From<Error>, C: Drop, A: Part<C, E>> Part<When<C>, E> for Option<A> {
    ghost format = { λ c. when E.from_gives c.0 (A.format c.1) };

    fn check(&self, order: Endian, ctx: &When<C>) -> Result<(), E> {
        match self {
            Some(value) => {
                if !ctx.0 {
                    return Err(E::from(Error::BadInput {
                        size: 0,
                        msg: "an optional part is too many",
                    }));
                }
                value.check(order, &ctx.1)
            }
            None => {
                if ctx.0 {
                    return Err(E::from(Error::BadInput {
                        size: 1,
                        msg: "an optional part is missing",
                    }));
                }
                Ok(())
            }
        }
    }

    fn size(&self, order: Endian, ctx: &When<C>) -> usize {
        match self {
            Some(value) => value.size(order, &ctx.1),
            None => 0,
        }
    }

    #[inline(always)]
    fn put(&self, dst: &mut [u8], order: Endian, ctx: &When<C>) {
        match self {
            Some(value) => value.put(dst, order, &ctx.1),
            None => {}
        }
    }
}

impl<'a, E: From<Error>, C: Drop, A: ReadPart<'a, C, E>> ReadPart<'a, When<C>, E> for Option<A> {
    ghost format = { λ c. when E.from_gives c.0 (A.format c.1) };

    #[inline(always)]
    fn read_at(
        from: &'a [u8],
        offset: usize,
        order: Endian,
        ctx: &When<C>,
    ) -> Result<(Option<A>, usize), E> {
        if !ctx.0 {
            return Ok((None, offset));
        }
        let (value, end) = A::read_at(from, offset, order, &ctx.1)?;
        Ok((Some(value), end))
    }

    #[tactic(auto, using(crate::specs::lemmas::EndLemmas::part_ends))]
    #[inline(always)]
    fn end_at(from: &'a [u8], offset: usize, order: Endian, ctx: &When<C>) -> Option<usize> {
        if !ctx.0 {
            return Some(offset);
        }
        A::end_at(from, offset, order, &ctx.1)
    }
}

impl<P> Run<P> {
    /// Returns an optional value of a fixed size as an optional part.
    #[inline(always)]
    pub fn from_option(value: Option<P>) -> Option<Run<P>>
        ensures { result ≡ option_map (λ v. record { 0 = v }) value }
    {
        match value {
            Some(it) => Some(Run(it)),
            None => None,
        }
    }

    /// Returns the optional value that an optional part is.
    #[inline(always)]
    pub fn into_option(part: Option<Run<P>>) -> Option<P>
        ensures { option_map (λ v. record { 0 = v }) result ≡ part }
    {
        match part {
            Some(Run(it)) => Some(it),
            None => None,
        }
    }
}

impl<R: Record> Field<R> {
    /// Returns an optional struct of a fixed size as an optional part.
    #[inline(always)]
    pub fn from_option(value: Option<R>) -> Option<Run<Field<R>>>
        ensures { result ≡ option_map (λ v. record { 0 = record { 0 = v } }) value }
    {
        match value {
            Some(it) => Some(Run(Field(it))),
            None => None,
        }
    }

    /// Returns the optional struct that an optional part is.
    #[inline(always)]
    pub fn into_option(part: Option<Run<Field<R>>>) -> Option<R>
        ensures { option_map (λ v. record { 0 = record { 0 = v } }) result ≡ part }
    {
        match part {
            Some(Run(Field(it))) => Some(it),
            None => None,
        }
    }
}
