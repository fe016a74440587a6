// Printed by tools/derive from module.rt.
ghost use Rattle.std.specs.Prelude.{◌≡◌, ◌≢◌, ◌<◌, ◌≤◌, ◌^◌, ◌⊎◌, [], ◌∷◌, length, codes, nat_eq};
ghost use Rattle.std.proofs.Common.{refl, rules};
ghost use Rattle.scroll.specs.Errors.{IsBadInput};
ghost use Rattle.scroll.specs.lemmas.Frames.{WritesPrefix-keeps};
ghost use Rattle.scroll_layouts.specs.Errors.{IsNot};
ghost use Rattle.scroll_layouts.specs.Formats.{refuses, shape};
ghost use Rattle.scroll_layouts.specs.Lists.{CountedItems};
ghost use Rattle.scroll_layouts.specs.Wholes.{KeepsWhole, ReadsExact, WritesWhole};
ghost use Rattle.scroll_layouts.specs.lemmas.EqualLemmas.{parts-unique};
ghost use Rattle.scroll_layouts.specs.declared.choice.Choice.TheVariants.{First, Second};
ghost use Rattle.scroll.specs.declared.endian.Endian.TheVariants as endian_is;

use super::{
    Contents, Custom, Export, ExportList, Exports, FunctionType, FunctionTypes, Import, ImportList,
    Imported, Imports, IndexList, Indices, Limits, Module, Name, Section, Sections, TableType,
    Types,
};
use scroll::ctx::{TryFromCtx, TryIntoCtx};
use scroll::{Endian, Error, LE};
use scroll_formats::Zeros;
use scroll_layouts::Choice::{First, Second};
use scroll_layouts::{
    Behind, Choice, Choose, Count, Given, Head, Headed, IsList, Items, ListOf, ListPart, Listed,
    Ordered, Part, ReadPart, Run, Shape, Split, Uleb, Unmarked, When, Within, is, read_exact,
    write_whole,
};
use std::marker::PhantomData;
use std::result::Result;

type ModuleHead = Run<([u8; 4], u32)>;

type ModuleNext = usize;

#[derive(Drop)]
pub struct ModuleSays;

impl Head<ModuleHead, Error> for ModuleSays {
    type Next = ModuleNext;

    ghost holds = { λ _ h. (h.0.0 ≡ (0 ∷ 97 ∷ 115 ∷ 109 ∷ [])) × (h.0.1 ≡ 1) };

    ghost fails = { λ _ h e. ((h.0.0 ≢ (0 ∷ 97 ∷ 115 ∷ 109 ∷ [])) × IsBadInput e 0
        (codes "magic is not 0asm")) ⊎ ((h.0.0 ≡ (0 ∷ 97 ∷ 115 ∷ 109 ∷ [])) × (IsNot 1 h.0.1
        (codes "version is not 1") e)) };

    ghost next = { λ _ h. 0 };

    fn obey(&self, head: &ModuleHead) -> Result<(), Error> {
        if head.0.0 != [0, 97, 115, 109] {
            return Err(Error::BadInput {
                size: 0,
                msg: "magic is not 0asm",
            });
        }
        is(head.0.1 as usize, 1, "version is not 1")?;
        Ok(())
    }

    fn next(&self, _head: &ModuleHead) -> ModuleNext {
        0
    }
}

type ModuleBefore = (ModuleHead, Zeros);

type ModuleParts<'a> = (ModuleBefore, ListOf<'a, SectionsPart<'a>>);

type ModuleCtx = Ordered<Behind<Headed<(), ModuleNext, ModuleSays>>>;

// given = len: usize
// order = LE
// field     offset  size      notes
// magic     0       4         is = b"\0asm"
// version   4       4         is = 1
// sections  8       the rest  ctx = rest
impl<'a> Shape for Module<'a> {
    type Ctx = usize;

    type Inner = ModuleCtx;

    type Parts = ModuleParts<'a>;

    ghost parts_of = { λ x. (
      (record { 0 = (x.magic, x.version) }, record {}),
      record { 0 = record { 0 = x.sections }; 1 = record {} },
    ) };

    ghost of_parts = { λ p. record { magic = p.0.0.0.0; version = p.0.0.0.1; sections = p.1.0.0 } };

    ghost again = { λ x. refl };

    ghost there = { λ p. refl };

    ghost inner_of = { λ n. record {
      0 = endian_is.Little;
      1 = record { 0 = n; 1 = record { 0 = tt; 1 = record {}; 2 = record {} } };
    } };

    fn split(&self) -> ModuleParts<'a> {
        let numbers = (self.magic, self.version);
        (
            (Run(numbers), Zeros),
            ListOf(SectionsPart(self.sections), PhantomData),
        )
    }

    fn join(parts: ModuleParts<'a>) -> Module<'a> {
        let ((Run(numbers), _), ListOf(SectionsPart(sections), _)) = parts;
        let (magic, version) = numbers;
        Module {
            magic,
            version,
            sections,
        }
    }

    fn inner(ctx: &usize) -> ModuleCtx
        ensures { result ≡ ⟦<Module<'a> as Shape>⟧.inner_of ctx.now }
    {
        Ordered(LE, Behind((*ctx), Headed((), ModuleSays, PhantomData)))
    }
}

#[derive(Drop)]
pub struct SectionsPart<'a>(pub Items<'a, Sections>);

impl<'a> ListPart<'a> for SectionsPart<'a> {
    type Kind = Sections;

    ghost seen = { λ x. record { bytes = x.0.bytes.now; order = x.0.order; count = x.0.count } };

    #[inline(always)]
    fn of(bytes: &'a [u8], order: Endian, count: usize) -> SectionsPart<'a> {
        SectionsPart(Items::of(bytes, order, count))
    }

    #[inline(always)]
    fn parts(&self) -> (&'a [u8], Endian, usize) {
        (self.0.bytes, self.0.order, self.0.count)
    }
}

impl IsList for Sections {
    ghost is_list = { λ order s n. CountedItems
        (⟦<Section<'static> as ReadPart<'static, (), Error>>⟧.format tt) order s 0 (length s) n };
}

// values   end
// Section  as its field says
impl<'a> Listed<'a> for Sections {
    type Error = Error;

    type Item = Section<'a>;

    ghost item = { ⟦<Section<'a> as ReadPart<'a, (), Error>>⟧.format tt };

    #[inline(always)]
    fn read_item(
        from: &'a [u8],
        offset: usize,
        order: Endian,
    ) -> Result<(Section<'a>, usize), Error> {
        <Section<'a> as ReadPart<'a, (), Error>>::read_at(from, offset, order, &())
    }

    #[inline(always)]
    fn end_item(from: &'a [u8], offset: usize, order: Endian) -> Option<usize> {
        <Section<'a> as ReadPart<'a, (), Error>>::end_at(from, offset, order, &())
    }
}

impl<'a> Unmarked<'a> for Sections {
    ghost from_values = { λ order s n h. h };

    ghost into_values = { λ order s n h. h };
}

type SectionHead2 = Uleb;

type SectionNext2 = Given<(u8, usize)>;

#[derive(Drop)]
pub struct SectionSays2(pub u8);

impl Head<SectionHead2, Error> for SectionSays2 {
    type Next = SectionNext2;

    ghost holds = { λ c h. Unit {0} };

    ghost fails = { λ c h e. ⊥ };

    ghost next = { λ c h. record { 0 = (c.0, h.value) } };

    fn obey(&self, _head: &SectionHead2) -> Result<(), Error> {
        Ok(())
    }

    fn next(&self, head: &SectionHead2) -> SectionNext2 {
        Given((self.0, head.value as usize))
    }
}

type SectionRest2<'a> = (SectionHead2, Contents<'a>);

type SectionHead = Run<u8>;

type SectionNext = Headed<(), SectionNext2, SectionSays2>;

#[derive(Drop)]
pub struct SectionSays;

impl Head<SectionHead, Error> for SectionSays {
    type Next = SectionNext;

    ghost holds = { λ _ h. Unit {0} };

    ghost fails = { λ _ h e. ⊥ };

    ghost next = { λ _ h. record { 0 = tt; 1 = record { 0 = h.0 }; 2 = record {} } };

    fn obey(&self, _head: &SectionHead) -> Result<(), Error> {
        Ok(())
    }

    fn next(&self, head: &SectionHead) -> SectionNext {
        Headed((), SectionSays2(head.0), PhantomData)
    }
}

type SectionParts<'a> = (SectionHead, SectionRest2<'a>);

type SectionCtx = Headed<(), SectionNext, SectionSays>;

// field     offset        size                    notes
// id        0             1
// size      1             1 to 10
// contents  after `size`  that of `Contents<'a>`  ctx = (id, size as usize)
impl<'a> Shape for Section<'a> {
    type Ctx = ();

    type Inner = SectionCtx;

    type Parts = SectionParts<'a>;

    ghost parts_of = { λ x. (record { 0 = x.id }, (x.size, x.contents)) };

    ghost of_parts = { λ p. record { id = p.0.0; size = p.1.0; contents = p.1.1 } };

    ghost again = { λ x. refl };

    ghost there = { λ p. refl };

    ghost inner_of = { λ _. record { 0 = tt; 1 = record {}; 2 = record {} } };

    fn split(&self) -> SectionParts<'a> {
        (Run(self.id), (self.size, self.contents))
    }

    fn join(parts: SectionParts<'a>) -> Section<'a> {
        let (Run(id), (size, contents)) = parts;
        Section { id, size, contents }
    }

    fn inner(_ctx: &()) -> SectionCtx
        ensures { result ≡ ⟦<Section<'a> as Shape>⟧.inner_of _ctx.now }
    {
        Headed((), SectionSays, PhantomData)
    }
}

impl<'a> TryFromCtx<'a, Endian> for Section<'a> {
    type Error = Error;

    ghost reads = { ReadsExact (⟦<Section<'a> as ReadPart<'a, (), Error>>⟧.format tt) };

    ghost refuses = { λ order s.
        refuses (⟦<Section<'a> as ReadPart<'a, (), Error>>⟧.format tt) order s 0 };

    ghost reads_bounded = { λ order s x n h. Prim.search rules };

    #[inline(always)]
    fn try_from_ctx(from: &'a [u8], ctx: Endian) -> Result<(Section<'a>, usize), Error> {
        read_exact::<(), Error, Section<'a>>(from, ctx, &())
    }
}

impl<'a> TryIntoCtx<Endian> for Section<'a> {
    type Error = Error;

    ghost writes = { WritesWhole (⟦<Section<'a> as Part<(), Error>>⟧.format tt) };

    ghost refuses = { KeepsWhole (λ e d. d ≡ e)
        (⟦<Section<'a> as Part<(), Error>>⟧.format tt) };

    ghost writes_bounded = { λ order x old new n h. Prim.search rules };

    ghost writes_keeps = { λ order x old new n h. WritesPrefix-keeps _ old new n h.wrote };

    #[inline(always)]
    fn try_into_ctx(self, dst: &mut [u8], ctx: Endian) -> Result<usize, Error> {
        write_whole::<(), Error, Section<'a>>(&self, dst, ctx, &())
    }
}

type ContentsParts<'a> = Choice<
    Custom<'a>,
    Choice<Types<'a>, Choice<Imports<'a>, Choice<Indices<'a>, Choice<Exports<'a>, &'a [u8]>>>>,
>;

type ContentsCtx = Choose<
    Given<usize>,
    Choose<Within<()>, Choose<Within<()>, Choose<Within<()>, Choose<Within<()>, usize>>>>,
>;

// given = (id: u8, size: usize)
// variant    tag  values       notes
// Custom     0    Custom<'a>   ctx = size
// Types      1    Types<'a>    within = size
// Imports    2    Imports<'a>  within = size
// Functions  3    Indices<'a>  within = size
// Exports    7    Exports<'a>  within = size
// Other      _    &'a [u8]     ctx = size
impl<'a> Shape for Contents<'a> {
    ghost use Rattle.wasm.specs.declared.module.Contents.TheVariants as contents_is;

    type Ctx = (u8, usize);

    type Inner = ContentsCtx;

    type Parts = ContentsParts<'a>;

    ghost parts_of = { elim [
      | contents_is.Custom v0 ↦ First v0
      | contents_is.Types v0 ↦ Second (First v0)
      | contents_is.Imports v0 ↦ Second (Second (First v0))
      | contents_is.Functions v0 ↦ Second (Second (Second (First v0)))
      | contents_is.Exports v0 ↦ Second (Second (Second (Second (First v0))))
      | contents_is.Other v0 ↦ Second (Second (Second (Second (Second v0))))
    ] };

    ghost of_parts = { elim [
      | First p ↦ contents_is.Custom p
      | Second (First p) ↦ contents_is.Types p
      | Second (Second (First p)) ↦ contents_is.Imports p
      | Second (Second (Second (First p))) ↦ contents_is.Functions p
      | Second (Second (Second (Second (First p)))) ↦ contents_is.Exports p
      | Second (Second (Second (Second (Second p)))) ↦ contents_is.Other p
    ] };

    ghost again = { elim [
      | contents_is.Custom v0 ↦ refl
      | contents_is.Types v0 ↦ refl
      | contents_is.Imports v0 ↦ refl
      | contents_is.Functions v0 ↦ refl
      | contents_is.Exports v0 ↦ refl
      | contents_is.Other v0 ↦ refl
    ] };

    ghost there = { elim [
      | First p ↦ refl
      | Second (First p) ↦ refl
      | Second (Second (First p)) ↦ refl
      | Second (Second (Second (First p))) ↦ refl
      | Second (Second (Second (Second (First p)))) ↦ refl
      | Second (Second (Second (Second (Second p)))) ↦ refl
    ] };

    ghost inner_of = { λ t. record {
      0 = (nat_eq t.0 0);
      1 = record { 0 = t.1 };
      2 = record {
        0 = (nat_eq t.0 1);
        1 = record { 0 = t.1; 1 = tt };
        2 = record {
          0 = (nat_eq t.0 2);
          1 = record { 0 = t.1; 1 = tt };
          2 = record {
            0 = (nat_eq t.0 3);
            1 = record { 0 = t.1; 1 = tt };
            2 = record { 0 = (nat_eq t.0 7); 1 = record { 0 = t.1; 1 = tt }; 2 = t.1 };
          };
        };
      };
    } };

    fn split(&self) -> ContentsParts<'a> {
        match self {
            Contents::Custom(v0) => First(*v0),
            Contents::Types(v0) => Second(First(*v0)),
            Contents::Imports(v0) => Second(Second(First(*v0))),
            Contents::Functions(v0) => Second(Second(Second(First(*v0)))),
            Contents::Exports(v0) => Second(Second(Second(Second(First(*v0))))),
            Contents::Other(v0) => Second(Second(Second(Second(Second(*v0))))),
        }
    }

    fn join(parts: ContentsParts<'a>) -> Contents<'a> {
        match parts {
            First(v0) => Contents::Custom(v0),
            Second(First(v0)) => Contents::Types(v0),
            Second(Second(First(v0))) => Contents::Imports(v0),
            Second(Second(Second(First(v0)))) => Contents::Functions(v0),
            Second(Second(Second(Second(First(v0))))) => Contents::Exports(v0),
            Second(Second(Second(Second(Second(v0))))) => Contents::Other(v0),
        }
    }

    fn inner(ctx: &(u8, usize)) -> ContentsCtx
        ensures { result ≡ ⟦<Contents<'a> as Shape>⟧.inner_of ctx.now }
    {
        Choose(
            ctx.0 == 0,
            Given(ctx.1 as usize),
            Choose(
                ctx.0 == 1,
                Within(ctx.1 as usize, ()),
                Choose(
                    ctx.0 == 2,
                    Within(ctx.1 as usize, ()),
                    Choose(
                        ctx.0 == 3,
                        Within(ctx.1 as usize, ()),
                        Choose(ctx.0 == 7, Within(ctx.1 as usize, ()), ctx.1 as usize),
                    ),
                ),
            ),
        )
    }
}

type NameHead = Uleb;

type NameNext = usize;

#[derive(Drop)]
pub struct NameSays;

impl Head<NameHead, Error> for NameSays {
    type Next = NameNext;

    ghost holds = { λ _ h. Unit {0} };

    ghost fails = { λ _ h e. ⊥ };

    ghost next = { λ _ h. h.value };

    fn obey(&self, _head: &NameHead) -> Result<(), Error> {
        Ok(())
    }

    fn next(&self, head: &NameHead) -> NameNext {
        head.value as usize
    }
}

type NameParts<'a> = (NameHead, &'a str);

type NameCtx = Headed<(), NameNext, NameSays>;

// field  offset       size     notes
// len    0            1 to 10
// text   after `len`  len      ctx = StrCtx::Length(len as usize)
impl<'a> Shape for Name<'a> {
    type Ctx = ();

    type Inner = NameCtx;

    type Parts = NameParts<'a>;

    ghost parts_of = { λ x. (x.len, x.text) };

    ghost of_parts = { λ p. record { len = p.0; text = p.1 } };

    ghost again = { λ x. refl };

    ghost there = { λ p. refl };

    ghost inner_of = { λ _. record { 0 = tt; 1 = record {}; 2 = record {} } };

    fn split(&self) -> NameParts<'a> {
        (self.len, self.text)
    }

    fn join(parts: NameParts<'a>) -> Name<'a> {
        let (len, text) = parts;
        Name { len, text }
    }

    fn inner(_ctx: &()) -> NameCtx
        ensures { result ≡ ⟦<Name<'a> as Shape>⟧.inner_of _ctx.now }
    {
        Headed((), NameSays, PhantomData)
    }
}

type CustomBefore<'a> = Name<'a>;

type CustomParts<'a> = (CustomBefore<'a>, &'a [u8]);

type CustomCtx = Behind<()>;

// given = size: usize
// field  offset        size                notes
// name   0             that of `Name<'a>`
// bytes  after `name`  the rest            ctx = rest
impl<'a> Shape for Custom<'a> {
    type Ctx = usize;

    type Inner = CustomCtx;

    type Parts = CustomParts<'a>;

    ghost parts_of = { λ x. (x.name, x.bytes) };

    ghost of_parts = { λ p. record { name = p.0; bytes = p.1 } };

    ghost again = { λ x. refl };

    ghost there = { λ p. refl };

    ghost inner_of = { λ n. record { 0 = n; 1 = tt } };

    fn split(&self) -> CustomParts<'a> {
        (self.name, self.bytes)
    }

    fn join(parts: CustomParts<'a>) -> Custom<'a> {
        let (name, bytes) = parts;
        Custom { name, bytes }
    }

    fn inner(ctx: &usize) -> CustomCtx
        ensures { result ≡ ⟦<Custom<'a> as Shape>⟧.inner_of ctx.now }
    {
        Behind((*ctx), ())
    }
}

type TypesHead = Uleb;

type TypesNext = Count;

#[derive(Drop)]
pub struct TypesSays;

impl Head<TypesHead, Error> for TypesSays {
    type Next = TypesNext;

    ghost holds = { λ _ h. Unit {0} };

    ghost fails = { λ _ h e. ⊥ };

    ghost next = { λ _ h. record { 0 = h.value } };

    fn obey(&self, _head: &TypesHead) -> Result<(), Error> {
        Ok(())
    }

    fn next(&self, head: &TypesHead) -> TypesNext {
        Count(head.value as usize)
    }
}

type TypesParts<'a> = (TypesHead, ListOf<'a, FunctionTypesPart<'a>>);

type TypesCtx = Headed<(), TypesNext, TypesSays>;

// field  offset         size          notes
// count  0              1 to 10
// each   after `count`  count values  ctx = Count(count as usize)
impl<'a> Shape for Types<'a> {
    type Ctx = ();

    type Inner = TypesCtx;

    type Parts = TypesParts<'a>;

    ghost parts_of = { λ x. (x.count, record { 0 = record { 0 = x.each }; 1 = record {} }) };

    ghost of_parts = { λ p. record { count = p.0; each = p.1.0.0 } };

    ghost again = { λ x. refl };

    ghost there = { λ p. refl };

    ghost inner_of = { λ _. record { 0 = tt; 1 = record {}; 2 = record {} } };

    fn split(&self) -> TypesParts<'a> {
        (
            self.count,
            ListOf(FunctionTypesPart(self.each), PhantomData),
        )
    }

    fn join(parts: TypesParts<'a>) -> Types<'a> {
        let (count, ListOf(FunctionTypesPart(each), _)) = parts;
        Types { count, each }
    }

    fn inner(_ctx: &()) -> TypesCtx
        ensures { result ≡ ⟦<Types<'a> as Shape>⟧.inner_of _ctx.now }
    {
        Headed((), TypesSays, PhantomData)
    }
}

#[derive(Drop)]
pub struct FunctionTypesPart<'a>(pub Items<'a, FunctionTypes>);

impl<'a> ListPart<'a> for FunctionTypesPart<'a> {
    type Kind = FunctionTypes;

    ghost seen = { λ x. record { bytes = x.0.bytes.now; order = x.0.order; count = x.0.count } };

    #[inline(always)]
    fn of(bytes: &'a [u8], order: Endian, count: usize) -> FunctionTypesPart<'a> {
        FunctionTypesPart(Items::of(bytes, order, count))
    }

    #[inline(always)]
    fn parts(&self) -> (&'a [u8], Endian, usize) {
        (self.0.bytes, self.0.order, self.0.count)
    }
}

impl IsList for FunctionTypes {
    ghost is_list = { λ order s n. CountedItems
        (⟦<FunctionType<'static> as ReadPart<'static, (), Error>>⟧.format tt) order s 0 (length s) n };
}

// values        end
// FunctionType  as its field says
impl<'a> Listed<'a> for FunctionTypes {
    type Error = Error;

    type Item = FunctionType<'a>;

    ghost item = { ⟦<FunctionType<'a> as ReadPart<'a, (), Error>>⟧.format tt };

    #[inline(always)]
    fn read_item(
        from: &'a [u8],
        offset: usize,
        order: Endian,
    ) -> Result<(FunctionType<'a>, usize), Error> {
        <FunctionType<'a> as ReadPart<'a, (), Error>>::read_at(from, offset, order, &())
    }

    #[inline(always)]
    fn end_item(from: &'a [u8], offset: usize, order: Endian) -> Option<usize> {
        <FunctionType<'a> as ReadPart<'a, (), Error>>::end_at(from, offset, order, &())
    }
}

impl<'a> Unmarked<'a> for FunctionTypes {
    ghost from_values = { λ order s n h. h };

    ghost into_values = { λ order s n h. h };
}

type FunctionTypeHead3 = Uleb;

type FunctionTypeNext3 = usize;

#[derive(Drop)]
pub struct FunctionTypeSays3;

impl Head<FunctionTypeHead3, Error> for FunctionTypeSays3 {
    type Next = FunctionTypeNext3;

    ghost holds = { λ _ h. Unit {0} };

    ghost fails = { λ _ h e. ⊥ };

    ghost next = { λ _ h. h.value };

    fn obey(&self, _head: &FunctionTypeHead3) -> Result<(), Error> {
        Ok(())
    }

    fn next(&self, head: &FunctionTypeHead3) -> FunctionTypeNext3 {
        head.value as usize
    }
}

type FunctionTypeRest3<'a> = (FunctionTypeHead3, &'a [u8]);

type FunctionTypeHead2 = Uleb;

type FunctionTypeNext2 = (usize, Headed<(), FunctionTypeNext3, FunctionTypeSays3>);

#[derive(Drop)]
pub struct FunctionTypeSays2;

impl Head<FunctionTypeHead2, Error> for FunctionTypeSays2 {
    type Next = FunctionTypeNext2;

    ghost holds = { λ _ h. Unit {0} };

    ghost fails = { λ _ h e. ⊥ };

    ghost next = { λ _ h. (h.value, record { 0 = tt; 1 = record {}; 2 = record {} }) };

    fn obey(&self, _head: &FunctionTypeHead2) -> Result<(), Error> {
        Ok(())
    }

    fn next(&self, head: &FunctionTypeHead2) -> FunctionTypeNext2 {
        (
            head.value as usize,
            Headed((), FunctionTypeSays3, PhantomData),
        )
    }
}

type FunctionTypeRest2<'a> = (FunctionTypeHead2, (&'a [u8], FunctionTypeRest3<'a>));

type FunctionTypeHead = Run<u8>;

type FunctionTypeNext = Headed<(), FunctionTypeNext2, FunctionTypeSays2>;

#[derive(Drop)]
pub struct FunctionTypeSays;

impl Head<FunctionTypeHead, Error> for FunctionTypeSays {
    type Next = FunctionTypeNext;

    ghost holds = { λ _ h. (h.0 ≡ 96) };

    ghost fails = { λ _ h e. IsNot 96 h.0 (codes "form is not 0x60") e };

    ghost next = { λ _ h. record { 0 = tt; 1 = record {}; 2 = record {} } };

    fn obey(&self, head: &FunctionTypeHead) -> Result<(), Error> {
        is(head.0 as usize, 0x60, "form is not 0x60")?;
        Ok(())
    }

    fn next(&self, _head: &FunctionTypeHead) -> FunctionTypeNext {
        Headed((), FunctionTypeSays2, PhantomData)
    }
}

type FunctionTypeParts<'a> = (FunctionTypeHead, FunctionTypeRest2<'a>);

type FunctionTypeCtx = Headed<(), FunctionTypeNext, FunctionTypeSays>;

// field            offset                   size             notes
// form             0                        1                is = 0x60
// parameter_count  1                        1 to 10
// parameters       after `parameter_count`  parameter_count  ctx = parameter_count as usize
// result_count     after `parameters`       1 to 10
// results          after `result_count`     result_count     ctx = result_count as usize
impl<'a> Shape for FunctionType<'a> {
    type Ctx = ();

    type Inner = FunctionTypeCtx;

    type Parts = FunctionTypeParts<'a>;

    ghost parts_of = { λ x. (
      record { 0 = x.form },
      (x.parameter_count, (x.parameters, (x.result_count, x.results))),
    ) };

    ghost of_parts = { λ p. record {
      form = p.0.0;
      parameter_count = p.1.0;
      parameters = p.1.1.0;
      result_count = p.1.1.1.0;
      results = p.1.1.1.1;
    } };

    ghost again = { λ x. refl };

    ghost there = { λ p. refl };

    ghost inner_of = { λ _. record { 0 = tt; 1 = record {}; 2 = record {} } };

    fn split(&self) -> FunctionTypeParts<'a> {
        (
            Run(self.form),
            (
                self.parameter_count,
                (self.parameters, (self.result_count, self.results)),
            ),
        )
    }

    fn join(parts: FunctionTypeParts<'a>) -> FunctionType<'a> {
        let (Run(form), (parameter_count, (parameters, (result_count, results)))) = parts;
        FunctionType {
            form,
            parameter_count,
            parameters,
            result_count,
            results,
        }
    }

    fn inner(_ctx: &()) -> FunctionTypeCtx
        ensures { result ≡ ⟦<FunctionType<'a> as Shape>⟧.inner_of _ctx.now }
    {
        Headed((), FunctionTypeSays, PhantomData)
    }
}

type ImportsHead = Uleb;

type ImportsNext = Count;

#[derive(Drop)]
pub struct ImportsSays;

impl Head<ImportsHead, Error> for ImportsSays {
    type Next = ImportsNext;

    ghost holds = { λ _ h. Unit {0} };

    ghost fails = { λ _ h e. ⊥ };

    ghost next = { λ _ h. record { 0 = h.value } };

    fn obey(&self, _head: &ImportsHead) -> Result<(), Error> {
        Ok(())
    }

    fn next(&self, head: &ImportsHead) -> ImportsNext {
        Count(head.value as usize)
    }
}

type ImportsParts<'a> = (ImportsHead, ListOf<'a, ImportListPart<'a>>);

type ImportsCtx = Headed<(), ImportsNext, ImportsSays>;

// field  offset         size          notes
// count  0              1 to 10
// each   after `count`  count values  ctx = Count(count as usize)
impl<'a> Shape for Imports<'a> {
    type Ctx = ();

    type Inner = ImportsCtx;

    type Parts = ImportsParts<'a>;

    ghost parts_of = { λ x. (x.count, record { 0 = record { 0 = x.each }; 1 = record {} }) };

    ghost of_parts = { λ p. record { count = p.0; each = p.1.0.0 } };

    ghost again = { λ x. refl };

    ghost there = { λ p. refl };

    ghost inner_of = { λ _. record { 0 = tt; 1 = record {}; 2 = record {} } };

    fn split(&self) -> ImportsParts<'a> {
        (self.count, ListOf(ImportListPart(self.each), PhantomData))
    }

    fn join(parts: ImportsParts<'a>) -> Imports<'a> {
        let (count, ListOf(ImportListPart(each), _)) = parts;
        Imports { count, each }
    }

    fn inner(_ctx: &()) -> ImportsCtx
        ensures { result ≡ ⟦<Imports<'a> as Shape>⟧.inner_of _ctx.now }
    {
        Headed((), ImportsSays, PhantomData)
    }
}

#[derive(Drop)]
pub struct ImportListPart<'a>(pub Items<'a, ImportList>);

impl<'a> ListPart<'a> for ImportListPart<'a> {
    type Kind = ImportList;

    ghost seen = { λ x. record { bytes = x.0.bytes.now; order = x.0.order; count = x.0.count } };

    #[inline(always)]
    fn of(bytes: &'a [u8], order: Endian, count: usize) -> ImportListPart<'a> {
        ImportListPart(Items::of(bytes, order, count))
    }

    #[inline(always)]
    fn parts(&self) -> (&'a [u8], Endian, usize) {
        (self.0.bytes, self.0.order, self.0.count)
    }
}

impl IsList for ImportList {
    ghost is_list = { λ order s n. CountedItems
        (⟦<Import<'static> as ReadPart<'static, (), Error>>⟧.format tt) order s 0 (length s) n };
}

// values  end
// Import  as its field says
impl<'a> Listed<'a> for ImportList {
    type Error = Error;

    type Item = Import<'a>;

    ghost item = { ⟦<Import<'a> as ReadPart<'a, (), Error>>⟧.format tt };

    #[inline(always)]
    fn read_item(
        from: &'a [u8],
        offset: usize,
        order: Endian,
    ) -> Result<(Import<'a>, usize), Error> {
        <Import<'a> as ReadPart<'a, (), Error>>::read_at(from, offset, order, &())
    }

    #[inline(always)]
    fn end_item(from: &'a [u8], offset: usize, order: Endian) -> Option<usize> {
        <Import<'a> as ReadPart<'a, (), Error>>::end_at(from, offset, order, &())
    }
}

impl<'a> Unmarked<'a> for ImportList {
    ghost from_values = { λ order s n h. h };

    ghost into_values = { λ order s n h. h };
}

type ImportParts<'a> = (Name<'a>, (Name<'a>, Imported));

type ImportCtx = ((), ((), ()));

// field   offset          size
// module  0               that of `Name<'a>`
// name    after `module`  that of `Name<'a>`
// what    after `name`    that of `Imported`
impl<'a> Shape for Import<'a> {
    type Ctx = ();

    type Inner = ImportCtx;

    type Parts = ImportParts<'a>;

    ghost parts_of = { λ x. (x.«module», (x.name, x.what)) };

    ghost of_parts = { λ p. record { «module» = p.0; name = p.1.0; what = p.1.1 } };

    ghost again = { λ x. refl };

    ghost there = { λ p. refl };

    ghost inner_of = { λ _. (tt, (tt, tt)) };

    fn split(&self) -> ImportParts<'a> {
        (self.module, (self.name, self.what))
    }

    fn join(parts: ImportParts<'a>) -> Import<'a> {
        let (module, (name, what)) = parts;
        Import { module, name, what }
    }

    fn inner(_ctx: &()) -> ImportCtx
        ensures { result ≡ ⟦<Import<'a> as Shape>⟧.inner_of _ctx.now }
    {
        ((), ((), ()))
    }
}

type ImportedHead = Run<u8>;

type ImportedNext = Choose<(), Choose<(), Choose<(), ()>>>;

#[derive(Drop)]
pub struct ImportedSays;

impl Head<ImportedHead, Error> for ImportedSays {
    type Next = ImportedNext;

    ghost holds = { λ _ h. ((h.0 ≡ 0) ⊎ (h.0 ≡ 1) ⊎ (h.0 ≡ 2) ⊎ (h.0 ≡ 3)) };

    ghost fails = { λ _ h e. ((h.0 ≢ 0) × (h.0 ≢ 1) × (h.0 ≢ 2) × (h.0 ≢ 3)) × IsBadInput e h.0
        (codes "Imported has no such tag") };

    ghost next = { λ _ h. record {
      0 = (nat_eq h.0 0);
      1 = tt;
      2 = record { 0 = (nat_eq h.0 1); 1 = tt; 2 = record { 0 = (nat_eq h.0 2); 1 = tt; 2 = tt } };
    } };

    fn obey(&self, head: &ImportedHead) -> Result<(), Error> {
        if head.0 != 0 && head.0 != 1 && head.0 != 2 && head.0 != 3 {
            return Err(Error::BadInput {
                size: head.0 as usize,
                msg: "Imported has no such tag",
            });
        }
        Ok(())
    }

    fn next(&self, head: &ImportedHead) -> ImportedNext {
        Choose(
            head.0 == 0,
            (),
            Choose(head.0 == 1, (), Choose(head.0 == 2, (), ())),
        )
    }
}

type ImportedParts = (
    ImportedHead,
    Choice<Uleb, Choice<TableType, Choice<Limits, Run<(u8, u8)>>>>,
);

type ImportedCtx = Headed<(), ImportedNext, ImportedSays>;

// tag = u8
// variant   tag  values
// Function  0    Uleb
// Table     1    TableType
// Memory    2    Limits
// Global    3    u8, u8
impl Split for Imported {
    ghost use Rattle.wasm.specs.declared.module.Imported.TheVariants as imported_is;

    type Parts = ImportedParts;

    ghost parts_of = { elim [
      | imported_is.Function v0 ↦ (record { 0 = 0 }, First v0)
      | imported_is.Table v0 ↦ (record { 0 = 1 }, Second (First v0))
      | imported_is.Memory v0 ↦ (record { 0 = 2 }, Second (Second (First v0)))
      | imported_is.Global v0 v1 ↦ (record { 0 = 3 }, Second (Second (Second (record { 0 = (v0, v1) }))))
    ] };

    ghost of_parts = { λ p. elim p.1 [
      | First p ↦ imported_is.Function p
      | Second (First p) ↦ imported_is.Table p
      | Second (Second (First p)) ↦ imported_is.Memory p
      | Second (Second (Second p)) ↦ imported_is.Global p.0.0 p.0.1
    ] };

    ghost again = { elim [
      | imported_is.Function v0 ↦ refl
      | imported_is.Table v0 ↦ refl
      | imported_is.Memory v0 ↦ refl
      | imported_is.Global v0 v1 ↦ refl
    ] };

    fn split(&self) -> ImportedParts {
        match self {
            Imported::Function(v0) => (Run(0), First(*v0)),
            Imported::Table(v0) => (Run(1), Second(First(*v0))),
            Imported::Memory(v0) => (Run(2), Second(Second(First(*v0)))),
            Imported::Global(v0, v1) => (Run(3), Second(Second(Second(Run((*v0, *v1)))))),
        }
    }
}

impl Part<(), Error> for Imported {
    ghost format = { λ _. shape (⟦<ImportedParts as Part<ImportedCtx, Error>>⟧.format
        (record { 0 = tt; 1 = record {}; 2 = record {} })) ⟦<Imported as Split>⟧.parts_of
        (parts-unique ⟦<Imported as Split>⟧.parts_of
        ⟦<Imported as Split>⟧.of_parts
        ⟦<Imported as Split>⟧.again) };

    fn check(&self, order: Endian, _ctx: &()) -> Result<(), Error> {
        let parts = self.split();
        let ctx = Headed((), ImportedSays, PhantomData);
        Part::<ImportedCtx, Error>::check(&parts, order, &ctx)
    }

    fn size(&self, order: Endian, _ctx: &()) -> usize {
        let parts = self.split();
        let ctx = Headed((), ImportedSays, PhantomData);
        Part::<ImportedCtx, Error>::size(&parts, order, &ctx)
    }

    #[inline(always)]
    fn put(&self, dst: &mut [u8], order: Endian, _ctx: &()) {
        let parts = self.split();
        let ctx = Headed((), ImportedSays, PhantomData);
        Part::<ImportedCtx, Error>::put(&parts, dst, order, &ctx)
    }
}

impl<'a> ReadPart<'a, (), Error> for Imported {
    ghost format = { λ _. shape (⟦<ImportedParts as ReadPart<'a, ImportedCtx, Error>>⟧.format
        (record { 0 = tt; 1 = record {}; 2 = record {} })) ⟦<Imported as Split>⟧.parts_of
        (parts-unique ⟦<Imported as Split>⟧.parts_of
        ⟦<Imported as Split>⟧.of_parts
        ⟦<Imported as Split>⟧.again) };

    #[inline(always)]
    fn read_at(
        from: &'a [u8],
        offset: usize,
        order: Endian,
        _ctx: &(),
    ) -> Result<(Imported, usize), Error> {
        let ctx = Headed((), ImportedSays, PhantomData);
        let (read, end) = <ImportedParts as ReadPart<'a, ImportedCtx, Error>>::read_at(
            from, offset, order, &ctx,
        )?;
        let (_tag, value) = read;
        let made = match value {
            First(v0) => Imported::Function(v0),
            Second(First(v0)) => Imported::Table(v0),
            Second(Second(First(v0))) => Imported::Memory(v0),
            Second(Second(Second(Run((v0, v1))))) => Imported::Global(v0, v1),
        };
        Ok((made, end))
    }

    #[inline(always)]
    fn end_at(from: &'a [u8], offset: usize, order: Endian, ctx: &()) -> Option<usize> {
        match <Imported as ReadPart<'a, (), Error>>::read_at(from, offset, order, ctx) {
            Ok((_value, end)) => Some(end),
            Err(_error) => None,
        }
    }
}

type TableTypeParts = (Run<u8>, Limits);

type TableTypeCtx = ((), ());

// field    offset  size
// element  0       1
// limits   1       that of `Limits`
impl Shape for TableType {
    type Ctx = ();

    type Inner = TableTypeCtx;

    type Parts = TableTypeParts;

    ghost parts_of = { λ x. (record { 0 = x.element }, x.limits) };

    ghost of_parts = { λ p. record { element = p.0.0; limits = p.1 } };

    ghost again = { λ x. refl };

    ghost there = { λ p. refl };

    ghost inner_of = { λ _. (tt, tt) };

    fn split(&self) -> TableTypeParts {
        (Run(self.element), self.limits)
    }

    fn join(parts: TableTypeParts) -> TableType {
        let (Run(element), limits) = parts;
        TableType { element, limits }
    }

    fn inner(_ctx: &()) -> TableTypeCtx
        ensures { result ≡ ⟦<TableType as Shape>⟧.inner_of _ctx.now }
    {
        ((), ())
    }
}

type LimitsHead = Run<u8>;

type LimitsNext = ((), When<()>);

#[derive(Drop)]
pub struct LimitsSays;

impl Head<LimitsHead, Error> for LimitsSays {
    type Next = LimitsNext;

    ghost holds = { λ _ h. (h.0 ≤ 1) };

    ghost fails = { λ _ h e. (1 < h.0) × IsBadInput e h.0 (codes "it is not so that flags <= 1") };

    ghost next = { λ _ h. (tt, record { 0 = (nat_eq h.0 1); 1 = tt }) };

    fn obey(&self, head: &LimitsHead) -> Result<(), Error> {
        if head.0 > 1 {
            return Err(Error::BadInput {
                size: head.0 as usize,
                msg: "it is not so that flags <= 1",
            });
        }
        Ok(())
    }

    fn next(&self, head: &LimitsHead) -> LimitsNext {
        ((), When(head.0 == 1, ()))
    }
}

type LimitsParts = (LimitsHead, (Uleb, Option<Uleb>));

type LimitsCtx = Headed<(), LimitsNext, LimitsSays>;

// field  offset         size           notes
// flags  0              1              check = flags <= 1
// least  1              1 to 10
// most   after `least`  1 to 10, or 0  if = flags == 1
impl Shape for Limits {
    type Ctx = ();

    type Inner = LimitsCtx;

    type Parts = LimitsParts;

    ghost parts_of = { λ x. (record { 0 = x.flags }, (x.least, x.most)) };

    ghost of_parts = { λ p. record { flags = p.0.0; least = p.1.0; most = p.1.1 } };

    ghost again = { λ x. refl };

    ghost there = { λ p. refl };

    ghost inner_of = { λ _. record { 0 = tt; 1 = record {}; 2 = record {} } };

    fn split(&self) -> LimitsParts {
        (Run(self.flags), (self.least, self.most))
    }

    fn join(parts: LimitsParts) -> Limits {
        let (Run(flags), (least, most)) = parts;
        Limits { flags, least, most }
    }

    fn inner(_ctx: &()) -> LimitsCtx
        ensures { result ≡ ⟦<Limits as Shape>⟧.inner_of _ctx.now }
    {
        Headed((), LimitsSays, PhantomData)
    }
}

type IndicesHead = Uleb;

type IndicesNext = Count;

#[derive(Drop)]
pub struct IndicesSays;

impl Head<IndicesHead, Error> for IndicesSays {
    type Next = IndicesNext;

    ghost holds = { λ _ h. Unit {0} };

    ghost fails = { λ _ h e. ⊥ };

    ghost next = { λ _ h. record { 0 = h.value } };

    fn obey(&self, _head: &IndicesHead) -> Result<(), Error> {
        Ok(())
    }

    fn next(&self, head: &IndicesHead) -> IndicesNext {
        Count(head.value as usize)
    }
}

type IndicesParts<'a> = (IndicesHead, ListOf<'a, IndexListPart<'a>>);

type IndicesCtx = Headed<(), IndicesNext, IndicesSays>;

// field  offset         size          notes
// count  0              1 to 10
// each   after `count`  count values  ctx = Count(count as usize)
impl<'a> Shape for Indices<'a> {
    type Ctx = ();

    type Inner = IndicesCtx;

    type Parts = IndicesParts<'a>;

    ghost parts_of = { λ x. (x.count, record { 0 = record { 0 = x.each }; 1 = record {} }) };

    ghost of_parts = { λ p. record { count = p.0; each = p.1.0.0 } };

    ghost again = { λ x. refl };

    ghost there = { λ p. refl };

    ghost inner_of = { λ _. record { 0 = tt; 1 = record {}; 2 = record {} } };

    fn split(&self) -> IndicesParts<'a> {
        (self.count, ListOf(IndexListPart(self.each), PhantomData))
    }

    fn join(parts: IndicesParts<'a>) -> Indices<'a> {
        let (count, ListOf(IndexListPart(each), _)) = parts;
        Indices { count, each }
    }

    fn inner(_ctx: &()) -> IndicesCtx
        ensures { result ≡ ⟦<Indices<'a> as Shape>⟧.inner_of _ctx.now }
    {
        Headed((), IndicesSays, PhantomData)
    }
}

#[derive(Drop)]
pub struct IndexListPart<'a>(pub Items<'a, IndexList>);

impl<'a> ListPart<'a> for IndexListPart<'a> {
    type Kind = IndexList;

    ghost seen = { λ x. record { bytes = x.0.bytes.now; order = x.0.order; count = x.0.count } };

    #[inline(always)]
    fn of(bytes: &'a [u8], order: Endian, count: usize) -> IndexListPart<'a> {
        IndexListPart(Items::of(bytes, order, count))
    }

    #[inline(always)]
    fn parts(&self) -> (&'a [u8], Endian, usize) {
        (self.0.bytes, self.0.order, self.0.count)
    }
}

impl IsList for IndexList {
    ghost is_list = { λ order s n. CountedItems
        (⟦<Uleb as ReadPart<'static, (), Error>>⟧.format tt) order s 0 (length s) n };
}

// values  end
// Uleb    as its field says
impl<'a> Listed<'a> for IndexList {
    type Error = Error;

    type Item = Uleb;

    ghost item = { ⟦<Uleb as ReadPart<'a, (), Error>>⟧.format tt };

    #[inline(always)]
    fn read_item(from: &'a [u8], offset: usize, order: Endian) -> Result<(Uleb, usize), Error> {
        <Uleb as ReadPart<'a, (), Error>>::read_at(from, offset, order, &())
    }

    #[inline(always)]
    fn end_item(from: &'a [u8], offset: usize, order: Endian) -> Option<usize> {
        <Uleb as ReadPart<'a, (), Error>>::end_at(from, offset, order, &())
    }
}

impl<'a> Unmarked<'a> for IndexList {
    ghost from_values = { λ order s n h. h };

    ghost into_values = { λ order s n h. h };
}

type ExportsHead = Uleb;

type ExportsNext = Count;

#[derive(Drop)]
pub struct ExportsSays;

impl Head<ExportsHead, Error> for ExportsSays {
    type Next = ExportsNext;

    ghost holds = { λ _ h. Unit {0} };

    ghost fails = { λ _ h e. ⊥ };

    ghost next = { λ _ h. record { 0 = h.value } };

    fn obey(&self, _head: &ExportsHead) -> Result<(), Error> {
        Ok(())
    }

    fn next(&self, head: &ExportsHead) -> ExportsNext {
        Count(head.value as usize)
    }
}

type ExportsParts<'a> = (ExportsHead, ListOf<'a, ExportListPart<'a>>);

type ExportsCtx = Headed<(), ExportsNext, ExportsSays>;

// field  offset         size          notes
// count  0              1 to 10
// each   after `count`  count values  ctx = Count(count as usize)
impl<'a> Shape for Exports<'a> {
    type Ctx = ();

    type Inner = ExportsCtx;

    type Parts = ExportsParts<'a>;

    ghost parts_of = { λ x. (x.count, record { 0 = record { 0 = x.each }; 1 = record {} }) };

    ghost of_parts = { λ p. record { count = p.0; each = p.1.0.0 } };

    ghost again = { λ x. refl };

    ghost there = { λ p. refl };

    ghost inner_of = { λ _. record { 0 = tt; 1 = record {}; 2 = record {} } };

    fn split(&self) -> ExportsParts<'a> {
        (self.count, ListOf(ExportListPart(self.each), PhantomData))
    }

    fn join(parts: ExportsParts<'a>) -> Exports<'a> {
        let (count, ListOf(ExportListPart(each), _)) = parts;
        Exports { count, each }
    }

    fn inner(_ctx: &()) -> ExportsCtx
        ensures { result ≡ ⟦<Exports<'a> as Shape>⟧.inner_of _ctx.now }
    {
        Headed((), ExportsSays, PhantomData)
    }
}

#[derive(Drop)]
pub struct ExportListPart<'a>(pub Items<'a, ExportList>);

impl<'a> ListPart<'a> for ExportListPart<'a> {
    type Kind = ExportList;

    ghost seen = { λ x. record { bytes = x.0.bytes.now; order = x.0.order; count = x.0.count } };

    #[inline(always)]
    fn of(bytes: &'a [u8], order: Endian, count: usize) -> ExportListPart<'a> {
        ExportListPart(Items::of(bytes, order, count))
    }

    #[inline(always)]
    fn parts(&self) -> (&'a [u8], Endian, usize) {
        (self.0.bytes, self.0.order, self.0.count)
    }
}

impl IsList for ExportList {
    ghost is_list = { λ order s n. CountedItems
        (⟦<Export<'static> as ReadPart<'static, (), Error>>⟧.format tt) order s 0 (length s) n };
}

// values  end
// Export  as its field says
impl<'a> Listed<'a> for ExportList {
    type Error = Error;

    type Item = Export<'a>;

    ghost item = { ⟦<Export<'a> as ReadPart<'a, (), Error>>⟧.format tt };

    #[inline(always)]
    fn read_item(
        from: &'a [u8],
        offset: usize,
        order: Endian,
    ) -> Result<(Export<'a>, usize), Error> {
        <Export<'a> as ReadPart<'a, (), Error>>::read_at(from, offset, order, &())
    }

    #[inline(always)]
    fn end_item(from: &'a [u8], offset: usize, order: Endian) -> Option<usize> {
        <Export<'a> as ReadPart<'a, (), Error>>::end_at(from, offset, order, &())
    }
}

impl<'a> Unmarked<'a> for ExportList {
    ghost from_values = { λ order s n h. h };

    ghost into_values = { λ order s n h. h };
}

type ExportHead = Run<u8>;

type ExportNext = ();

#[derive(Drop)]
pub struct ExportSays;

impl Head<ExportHead, Error> for ExportSays {
    type Next = ExportNext;

    ghost holds = { λ _ h. (h.0 ≤ 3) };

    ghost fails = { λ _ h e. (3 < h.0) × IsBadInput e h.0 (codes "it is not so that kind <= 3") };

    ghost next = { λ _ h. tt };

    fn obey(&self, head: &ExportHead) -> Result<(), Error> {
        if head.0 > 3 {
            return Err(Error::BadInput {
                size: head.0 as usize,
                msg: "it is not so that kind <= 3",
            });
        }
        Ok(())
    }

    fn next(&self, _head: &ExportHead) -> ExportNext {
        ()
    }
}

type ExportRest = (ExportHead, Uleb);

type ExportParts<'a> = (Name<'a>, ExportRest);

type ExportCtx = ((), Headed<(), ExportNext, ExportSays>);

// field  offset        size                notes
// name   0             that of `Name<'a>`
// kind   after `name`  1                   check = kind <= 3
// index  after `kind`  1 to 10
impl<'a> Shape for Export<'a> {
    type Ctx = ();

    type Inner = ExportCtx;

    type Parts = ExportParts<'a>;

    ghost parts_of = { λ x. (x.name, (record { 0 = x.kind }, x.index)) };

    ghost of_parts = { λ p. record { name = p.0; kind = p.1.0.0; index = p.1.1 } };

    ghost again = { λ x. refl };

    ghost there = { λ p. refl };

    ghost inner_of = { λ _. (tt, record { 0 = tt; 1 = record {}; 2 = record {} }) };

    fn split(&self) -> ExportParts<'a> {
        (self.name, (Run(self.kind), self.index))
    }

    fn join(parts: ExportParts<'a>) -> Export<'a> {
        let (name, (Run(kind), index)) = parts;
        Export { name, kind, index }
    }

    fn inner(_ctx: &()) -> ExportCtx
        ensures { result ≡ ⟦<Export<'a> as Shape>⟧.inner_of _ctx.now }
    {
        ((), Headed((), ExportSays, PhantomData))
    }
}
