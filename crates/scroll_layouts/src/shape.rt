// Structs and enums that are their parts.
ghost use Rattle.std.specs.Prelude.{◌≡◌, ◌≤◌, ◌+◌, ◌-◌, ◌^◌, ◌++◌, length, drop, min};
ghost use Rattle.scroll_layouts.specs.Formats.{shape, len, bytes, reads, refuses, agrees, differs};
ghost use Rattle.scroll_layouts.specs.lemmas.EqualLemmas.{parts-unique};

use crate::{Part, ReadPart};
use scroll::Endian;
use std::result::Result;

/// A struct or an enum that is its parts in a context.
///
/// A struct that needs no context, `()`, is a [`Part`] and a [`ReadPart`] in it. An enum, whose tag
/// comes before it, is one in [`Given`] that tag; it is a [`Choice`](crate::Choice).
///
/// From `crates/scroll_layouts/src/tests/walk/derived.rt`, a field behind its length:
///
/// ```rust
/// impl<'a> Shape for MessageField<'a> {
///     type Ctx = ();
///
///     type Inner = MessageFieldCtx;
///
///     type Parts = MessageFieldParts<'a>;
///
///     ghost parts_of = { λ x. (record { 0 = x.number }, (x.len, x.«data»)) };
///
///     ghost of_parts = { λ p. record { number = p.0.0; len = p.1.0; «data» = p.1.1 } };
///
///     ghost again = { λ x. refl };
///
///     ghost there = { λ p. refl };
///
///     ghost inner_of = { λ _. (tt, record { 0 = tt; 1 = record {}; 2 = record {} }) };
///
///     fn split(&self) -> MessageFieldParts<'a> {
///         (Run(self.number), (self.len, self.data))
///     }
///
///     fn join(parts: MessageFieldParts<'a>) -> MessageField<'a> {
///         let (Run(number), (len, data)) = parts;
///         MessageField { number, len, data }
///     }
///
///     fn inner(_ctx: &()) -> MessageFieldCtx
///         ensures { result ≡ ⟦<MessageField<'a> as Shape>⟧.inner_of _ctx.now }
///     {
///         ((), Headed((), MessageFieldSays, PhantomData))
///     }
/// }
/// ```
pub trait Shape: Drop {
    /// The context of a value.
    type Ctx: Drop;

    /// The context of the parts.
    type Inner: Drop;

    /// The parts.
    type Parts: Drop;

    // The parts of a value.
    ghost parts_of: { Self → Self.Parts };

    // The value of some parts.
    ghost of_parts: { Self.Parts → Self };

    // The parts are all that a value has.
    ghost again: { (x : Self) → of_parts (parts_of x) ≡ x };

    // All parts are those of a value.
    ghost there: { (p : Self.Parts) → parts_of (of_parts p) ≡ p };

    // The context of the parts.
    ghost inner_of: { Self.Ctx → Self.Inner };

    /// Returns the parts.
    fn split(&self) -> Self::Parts
        ensures { result ≡ parts_of self.now };

    /// Returns the value that has these parts.
    fn join(parts: Self::Parts) -> Self
        ensures { parts_of result ≡ parts };

    /// Returns the context of the parts.
    fn inner(ctx: &Self::Ctx) -> Self::Inner
        ensures { result ≡ inner_of ctx.now };
}

/// An enum that begins with its own tag: its parts are the tag and what is behind it. (It is no
/// [`Shape`], since not all such parts are those of a value.)
pub trait Split: Drop {
    /// The parts.
    type Parts: Drop;

    // The parts of a value.
    ghost parts_of: { Self → Self.Parts };

    // The value of some parts.
    ghost of_parts: { Self.Parts → Self };

    // The parts are all that a value has.
    ghost again: { (x : Self) → of_parts (parts_of x) ≡ x };

    /// Returns the parts.
    fn split(&self) -> Self::Parts
        ensures { result ≡ parts_of self.now };
}

/// The context of a struct or an enum that is its parts in the context `C`.
#[derive(Drop)]
pub struct Given<C>(pub C);

/// A struct that is its parts. The errors are those of the parts.
impl<E, S: Shape<Ctx = ()>> Part<(), E> for S
where
    S::Parts: Part<S::Inner, E>,
{
    ghost format = { λ _.
        shape (S.Parts.format (S.inner_of tt)) S.parts_of
        (parts-unique S.parts_of S.of_parts S.again) };

    fn check(&self, order: Endian, ctx: &()) -> Result<(), E> {
        self.split().check(order, &S::inner(ctx))
    }

    fn size(&self, order: Endian, ctx: &()) -> usize {
        self.split().size(order, &S::inner(ctx))
    }

    #[inline(always)]
    fn put(&self, dst: &mut [u8], order: Endian, ctx: &()) {
        self.split().put(dst, order, &S::inner(ctx))
    }
}

impl<'a, E, S: Shape<Ctx = ()>> ReadPart<'a, (), E> for S
where
    S::Parts: ReadPart<'a, S::Inner, E>,
{
    ghost format = { λ _.
        shape (S.Parts.format (S.inner_of tt)) S.parts_of
        (parts-unique S.parts_of S.of_parts S.again) };

    #[inline(always)]
    fn read_at(from: &'a [u8], offset: usize, order: Endian, ctx: &()) -> Result<(S, usize), E> {
        let (parts, end) = S::Parts::read_at(from, offset, order, &S::inner(ctx))?;
        Ok((S::join(parts), end))
    }

    #[inline(always)]
    fn end_at(from: &'a [u8], offset: usize, order: Endian, ctx: &()) -> Option<usize> {
        S::Parts::end_at(from, offset, order, &S::inner(ctx))
    }
}

/// A struct or an enum that is its parts in the context that it is given. The errors are those of
/// the parts.
impl<E, S: Shape> Part<Given<S::Ctx>, E> for S
where
    S::Parts: Part<S::Inner, E>,
{
    ghost format = { λ c.
        shape (S.Parts.format (S.inner_of c.0)) S.parts_of
        (parts-unique S.parts_of S.of_parts S.again) };

    fn check(&self, order: Endian, ctx: &Given<S::Ctx>) -> Result<(), E> {
        self.split().check(order, &S::inner(&ctx.0))
    }

    fn size(&self, order: Endian, ctx: &Given<S::Ctx>) -> usize {
        self.split().size(order, &S::inner(&ctx.0))
    }

    #[inline(always)]
    fn put(&self, dst: &mut [u8], order: Endian, ctx: &Given<S::Ctx>) {
        self.split().put(dst, order, &S::inner(&ctx.0))
    }
}

impl<'a, E, S: Shape> ReadPart<'a, Given<S::Ctx>, E> for S
where
    S::Parts: ReadPart<'a, S::Inner, E>,
{
    ghost format = { λ c.
        shape (S.Parts.format (S.inner_of c.0)) S.parts_of
        (parts-unique S.parts_of S.of_parts S.again) };

    #[inline(always)]
    fn read_at(
        from: &'a [u8],
        offset: usize,
        order: Endian,
        ctx: &Given<S::Ctx>,
    ) -> Result<(S, usize), E> {
        let (parts, end) = S::Parts::read_at(from, offset, order, &S::inner(&ctx.0))?;
        Ok((S::join(parts), end))
    }

    #[inline(always)]
    fn end_at(from: &'a [u8], offset: usize, order: Endian, ctx: &Given<S::Ctx>) -> Option<usize> {
        S::Parts::end_at(from, offset, order, &S::inner(&ctx.0))
    }
}
