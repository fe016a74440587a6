// Printed by tools/derive from declaration.rt.
ghost use Rattle.std.specs.Prelude.{◌≡◌, ◌≢◌, ◌<◌, ◌^◌, ◌⊎◌, length, nat_eq};
ghost use Rattle.std.proofs.Common.{refl, rules};
ghost use Rattle.scroll.specs.lemmas.Frames.{WritesPrefix-keeps};
ghost use Rattle.scroll_layouts.specs.Formats.{refuses, shape};
ghost use Rattle.scroll_layouts.specs.Marks.{CountedMarked};
ghost use Rattle.scroll_layouts.specs.Wholes.{KeepsWhole, ReadsExact, WritesWhole};
ghost use Rattle.scroll_layouts.specs.lemmas.EqualLemmas.{parts-unique};
ghost use Rattle.scroll_layouts.specs.declared.choice.Choice.TheVariants.{First, Second};
ghost use Rattle.debug_tables.specs.declared.declaration.TableError.TheVariants as table_error_is;

use super::{Attribute, Attributes, Children, Declaration, Declarations, TableError};
use scroll::ctx::{TryFromCtx, TryIntoCtx};
use scroll::{Endian, Error};
use scroll_formats::Zeros;
use scroll_layouts::Choice::{First, Second};
use scroll_layouts::{
    Choice, Choose, EndMark, Head, Headed, IsList, Items, ListOf, ListPart, Listed, Marked, Part,
    ReadPart, Run, Shape, Sleb, Split, ToMark, TwoZeroUlebs, Uleb, When, ZeroUleb, read_exact,
    write_whole,
};
use std::marker::PhantomData;
use std::result::Result;

type AttributeHead = Uleb;

type AttributeNext = When<()>;

#[derive(Drop)]
pub struct AttributeSays;

impl Head<AttributeHead, TableError> for AttributeSays {
    type Next = AttributeNext;

    ghost holds = { λ _ h. Unit {0} };

    ghost fails = { λ _ h e. ⊥ };

    ghost next = { λ _ h. record { 0 = (nat_eq h.value 33); 1 = tt } };

    fn obey(&self, _head: &AttributeHead) -> Result<(), TableError> {
        Ok(())
    }

    fn next(&self, head: &AttributeHead) -> AttributeNext {
        When(head.value == 33, ())
    }
}

type AttributeRest = (AttributeHead, Option<Sleb>);

type AttributeParts = (Uleb, AttributeRest);

type AttributeCtx = ((), Headed<(), AttributeNext, AttributeSays>);

// error = TableError::Read
// field     offset        size           notes
// name      0             1 to 10
// form      after `name`  1 to 10
// constant  after `form`  1 to 10, or 0  if = form == 0x21
impl Shape for Attribute {
    type Ctx = ();

    type Inner = AttributeCtx;

    type Parts = AttributeParts;

    ghost parts_of = { λ x. (x.name, (x.form, x.constant)) };

    ghost of_parts = { λ p. record { name = p.0; form = p.1.0; constant = p.1.1 } };

    ghost again = { λ x. refl };

    ghost there = { λ p. refl };

    ghost inner_of = { λ _. (tt, record { 0 = tt; 1 = record {}; 2 = record {} }) };

    fn split(&self) -> AttributeParts {
        (self.name, (self.form, self.constant))
    }

    fn join(parts: AttributeParts) -> Attribute {
        let (name, (form, constant)) = parts;
        Attribute {
            name,
            form,
            constant,
        }
    }

    fn inner(_ctx: &()) -> AttributeCtx
        ensures { result ≡ ⟦<Attribute as Shape>⟧.inner_of _ctx.now }
    {
        ((), Headed((), AttributeSays, PhantomData))
    }
}

impl<'a> TryFromCtx<'a, Endian> for Attribute {
    type Error = TableError;

    ghost reads = { ReadsExact (⟦<Attribute as ReadPart<'a, (), TableError>>⟧.format tt) };

    ghost refuses = { λ order s.
        refuses (⟦<Attribute as ReadPart<'a, (), TableError>>⟧.format tt) order s 0 };

    ghost reads_bounded = { λ order s x n h. Prim.search rules };

    #[inline(always)]
    fn try_from_ctx(from: &'a [u8], ctx: Endian) -> Result<(Attribute, usize), TableError> {
        read_exact::<(), TableError, Attribute>(from, ctx, &())
    }
}

impl TryIntoCtx<Endian> for Attribute {
    type Error = TableError;

    ghost writes = { WritesWhole (⟦<Attribute as Part<(), TableError>>⟧.format tt) };

    ghost refuses = { KeepsWhole (λ error e. e ≡ table_error_is.Read error)
        (⟦<Attribute as Part<(), TableError>>⟧.format tt) };

    ghost writes_bounded = { λ order x old new n h. Prim.search rules };

    ghost writes_keeps = { λ order x old new n h. WritesPrefix-keeps _ old new n h.wrote };

    #[inline(always)]
    fn try_into_ctx(self, dst: &mut [u8], ctx: Endian) -> Result<usize, TableError> {
        write_whole::<(), TableError, Attribute>(&self, dst, ctx, &())
    }
}

impl IsList for Attributes {
    ghost is_list = { λ order s n. CountedMarked ⟦<TwoZeroUlebs as EndMark>⟧.mark
        (⟦<Attribute as ReadPart<'static, (), TableError>>⟧.format tt) order s (length s) n };
}

// values     end
// Attribute  the mark TwoZeroUlebs
impl<'a> Listed<'a> for Attributes {
    type Error = TableError;

    type Item = Attribute;

    ghost item = { ⟦<Attribute as ReadPart<'a, (), TableError>>⟧.format tt };

    #[inline(always)]
    fn read_item(
        from: &'a [u8],
        offset: usize,
        order: Endian,
    ) -> Result<(Attribute, usize), TableError> {
        <Attribute as ReadPart<'a, (), TableError>>::read_at(from, offset, order, &())
    }

    #[inline(always)]
    fn end_item(from: &'a [u8], offset: usize, order: Endian) -> Option<usize> {
        <Attribute as ReadPart<'a, (), TableError>>::end_at(from, offset, order, &())
    }
}

impl<'a> Marked<'a> for Attributes {
    type End = TwoZeroUlebs;

    ghost from_values = { λ order s n h. h };

    ghost into_values = { λ order s n h. h };
}

type ChildrenHead = Run<u8>;

type ChildrenNext = Choose<usize, usize>;

#[derive(Drop)]
pub struct ChildrenSays;

impl Head<ChildrenHead, TableError> for ChildrenSays {
    type Next = ChildrenNext;

    ghost holds = { λ _ h. ((h.0 ≡ 0) ⊎ (h.0 ≡ 1)) };

    ghost fails = { λ _ h e. ((h.0 ≢ 0) × (h.0 ≢ 1)) × (e ≡ table_error_is.BadChildren h.0) };

    ghost next = { λ _ h. record { 0 = (nat_eq h.0 0); 1 = 0; 2 = 0 } };

    fn obey(&self, head: &ChildrenHead) -> Result<(), TableError> {
        if head.0 != 0 && head.0 != 1 {
            return Err(TableError::BadChildren(head.0));
        }
        Ok(())
    }

    fn next(&self, head: &ChildrenHead) -> ChildrenNext {
        Choose(head.0 == 0, 0, 0)
    }
}

type ChildrenParts = (ChildrenHead, Choice<Zeros, Zeros>);

type ChildrenCtx = Headed<(), ChildrenNext, ChildrenSays>;

// tag = u8
// error = TableError::Read
// else = TableError::BadChildren
// variant  tag  values
// No       0    none
// Yes      1    none
impl Split for Children {
    ghost use Rattle.debug_tables.specs.declared.declaration.Children.TheVariants as children_is;

    type Parts = ChildrenParts;

    ghost parts_of = { elim [
      | children_is.No ↦ (record { 0 = 0 }, First (record {}))
      | children_is.Yes ↦ (record { 0 = 1 }, Second (record {}))
    ] };

    ghost of_parts = { λ p. elim p.1 [
      | First p ↦ children_is.No
      | Second p ↦ children_is.Yes
    ] };

    ghost again = { elim [
      | children_is.No ↦ refl
      | children_is.Yes ↦ refl
    ] };

    fn split(&self) -> ChildrenParts {
        match self {
            Children::No => (Run(0), First(Zeros)),
            Children::Yes => (Run(1), Second(Zeros)),
        }
    }
}

impl Part<(), TableError> for Children {
    ghost format = { λ _. shape (⟦<ChildrenParts as Part<ChildrenCtx, TableError>>⟧.format
        (record { 0 = tt; 1 = record {}; 2 = record {} })) ⟦<Children as Split>⟧.parts_of
        (parts-unique ⟦<Children as Split>⟧.parts_of
        ⟦<Children as Split>⟧.of_parts
        ⟦<Children as Split>⟧.again) };

    fn check(&self, order: Endian, _ctx: &()) -> Result<(), TableError> {
        let parts = self.split();
        let ctx = Headed((), ChildrenSays, PhantomData);
        Part::<ChildrenCtx, TableError>::check(&parts, order, &ctx)
    }

    fn size(&self, order: Endian, _ctx: &()) -> usize {
        let parts = self.split();
        let ctx = Headed((), ChildrenSays, PhantomData);
        Part::<ChildrenCtx, TableError>::size(&parts, order, &ctx)
    }

    #[inline(always)]
    fn put(&self, dst: &mut [u8], order: Endian, _ctx: &()) {
        let parts = self.split();
        let ctx = Headed((), ChildrenSays, PhantomData);
        Part::<ChildrenCtx, TableError>::put(&parts, dst, order, &ctx)
    }
}

impl<'a> ReadPart<'a, (), TableError> for Children {
    ghost format = { λ _. shape (⟦<ChildrenParts as ReadPart<'a, ChildrenCtx, TableError>>⟧.format
        (record { 0 = tt; 1 = record {}; 2 = record {} })) ⟦<Children as Split>⟧.parts_of
        (parts-unique ⟦<Children as Split>⟧.parts_of
        ⟦<Children as Split>⟧.of_parts
        ⟦<Children as Split>⟧.again) };

    #[inline(always)]
    fn read_at(
        from: &'a [u8],
        offset: usize,
        order: Endian,
        _ctx: &(),
    ) -> Result<(Children, usize), TableError> {
        let ctx = Headed((), ChildrenSays, PhantomData);
        let (read, end) = <ChildrenParts as ReadPart<'a, ChildrenCtx, TableError>>::read_at(
            from, offset, order, &ctx,
        )?;
        let (_tag, value) = read;
        let made = match value {
            First(_) => Children::No,
            Second(_) => Children::Yes,
        };
        Ok((made, end))
    }

    #[inline(always)]
    fn end_at(from: &'a [u8], offset: usize, order: Endian, ctx: &()) -> Option<usize> {
        match <Children as ReadPart<'a, (), TableError>>::read_at(from, offset, order, ctx) {
            Ok((_value, end)) => Some(end),
            Err(_error) => None,
        }
    }
}

impl<'a> TryFromCtx<'a, Endian> for Children {
    type Error = TableError;

    ghost reads = { ReadsExact (⟦<Children as ReadPart<'a, (), TableError>>⟧.format tt) };

    ghost refuses = { λ order s.
        refuses (⟦<Children as ReadPart<'a, (), TableError>>⟧.format tt) order s 0 };

    ghost reads_bounded = { λ order s x n h. Prim.search rules };

    #[inline(always)]
    fn try_from_ctx(from: &'a [u8], ctx: Endian) -> Result<(Children, usize), TableError> {
        read_exact::<(), TableError, Children>(from, ctx, &())
    }
}

impl TryIntoCtx<Endian> for Children {
    type Error = TableError;

    ghost writes = { WritesWhole (⟦<Children as Part<(), TableError>>⟧.format tt) };

    ghost refuses = { KeepsWhole (λ error e. e ≡ table_error_is.Read error)
        (⟦<Children as Part<(), TableError>>⟧.format tt) };

    ghost writes_bounded = { λ order x old new n h. Prim.search rules };

    ghost writes_keeps = { λ order x old new n h. WritesPrefix-keeps _ old new n h.wrote };

    #[inline(always)]
    fn try_into_ctx(self, dst: &mut [u8], ctx: Endian) -> Result<usize, TableError> {
        write_whole::<(), TableError, Children>(&self, dst, ctx, &())
    }
}

type DeclarationParts<'a> = (Uleb, (Uleb, (Children, ListOf<'a, AttributesPart<'a>>)));

type DeclarationCtx = ((), ((), ((), ToMark)));

// error = TableError::Read
// field       offset            size                notes
// code        0                 1 to 10
// tag         after `code`      1 to 10
// children    after `tag`       that of `Children`
// attributes  after `children`  up to its mark      ctx = ToMark
impl<'a> Shape for Declaration<'a> {
    type Ctx = ();

    type Inner = DeclarationCtx;

    type Parts = DeclarationParts<'a>;

    ghost parts_of = { λ x. (
      x.code,
      (x.tag, (x.children, record { 0 = record { 0 = x.attributes }; 1 = record {} })),
    ) };

    ghost of_parts = { λ p. record {
      code = p.0;
      tag = p.1.0;
      children = p.1.1.0;
      attributes = p.1.1.1.0.0;
    } };

    ghost again = { λ x. refl };

    ghost there = { λ p. refl };

    ghost inner_of = { λ _. (tt, (tt, (tt, record {}))) };

    fn split(&self) -> DeclarationParts<'a> {
        (
            self.code,
            (
                self.tag,
                (
                    self.children,
                    ListOf(AttributesPart(self.attributes), PhantomData),
                ),
            ),
        )
    }

    fn join(parts: DeclarationParts<'a>) -> Declaration<'a> {
        let (code, (tag, (children, ListOf(AttributesPart(attributes), _)))) = parts;
        Declaration {
            code,
            tag,
            children,
            attributes,
        }
    }

    fn inner(_ctx: &()) -> DeclarationCtx
        ensures { result ≡ ⟦<Declaration<'a> as Shape>⟧.inner_of _ctx.now }
    {
        ((), ((), ((), ToMark)))
    }
}

impl<'a> TryFromCtx<'a, Endian> for Declaration<'a> {
    type Error = TableError;

    ghost reads = { ReadsExact (⟦<Declaration<'a> as ReadPart<'a, (), TableError>>⟧.format tt) };

    ghost refuses = { λ order s.
        refuses (⟦<Declaration<'a> as ReadPart<'a, (), TableError>>⟧.format tt) order s 0 };

    ghost reads_bounded = { λ order s x n h. Prim.search rules };

    #[inline(always)]
    fn try_from_ctx(from: &'a [u8], ctx: Endian) -> Result<(Declaration<'a>, usize), TableError> {
        read_exact::<(), TableError, Declaration<'a>>(from, ctx, &())
    }
}

impl<'a> TryIntoCtx<Endian> for Declaration<'a> {
    type Error = TableError;

    ghost writes = { WritesWhole (⟦<Declaration<'a> as Part<(), TableError>>⟧.format tt) };

    ghost refuses = { KeepsWhole (λ error e. e ≡ table_error_is.Read error)
        (⟦<Declaration<'a> as Part<(), TableError>>⟧.format tt) };

    ghost writes_bounded = { λ order x old new n h. Prim.search rules };

    ghost writes_keeps = { λ order x old new n h. WritesPrefix-keeps _ old new n h.wrote };

    #[inline(always)]
    fn try_into_ctx(self, dst: &mut [u8], ctx: Endian) -> Result<usize, TableError> {
        write_whole::<(), TableError, Declaration<'a>>(&self, dst, ctx, &())
    }
}

#[derive(Drop)]
pub struct AttributesPart<'a>(pub Items<'a, Attributes>);

impl<'a> ListPart<'a> for AttributesPart<'a> {
    type Kind = Attributes;

    ghost seen = { λ x. record { bytes = x.0.bytes.now; order = x.0.order; count = x.0.count } };

    #[inline(always)]
    fn of(bytes: &'a [u8], order: Endian, count: usize) -> AttributesPart<'a> {
        AttributesPart(Items::of(bytes, order, count))
    }

    #[inline(always)]
    fn parts(&self) -> (&'a [u8], Endian, usize) {
        (self.0.bytes, self.0.order, self.0.count)
    }
}

impl IsList for Declarations {
    ghost is_list = { λ order s n. CountedMarked ⟦<ZeroUleb as EndMark>⟧.mark
        (⟦<Declaration<'static> as ReadPart<'static, (), TableError>>⟧.format tt) order s (length s) n };
}

// values       end
// Declaration  the mark ZeroUleb
impl<'a> Listed<'a> for Declarations {
    type Error = TableError;

    type Item = Declaration<'a>;

    ghost item = { ⟦<Declaration<'a> as ReadPart<'a, (), TableError>>⟧.format tt };

    #[inline(always)]
    fn read_item(
        from: &'a [u8],
        offset: usize,
        order: Endian,
    ) -> Result<(Declaration<'a>, usize), TableError> {
        <Declaration<'a> as ReadPart<'a, (), TableError>>::read_at(from, offset, order, &())
    }

    #[inline(always)]
    fn end_item(from: &'a [u8], offset: usize, order: Endian) -> Option<usize> {
        <Declaration<'a> as ReadPart<'a, (), TableError>>::end_at(from, offset, order, &())
    }
}

impl<'a> Marked<'a> for Declarations {
    type End = ZeroUleb;

    ghost from_values = { λ order s n h. h };

    ghost into_values = { λ order s n h. h };
}
