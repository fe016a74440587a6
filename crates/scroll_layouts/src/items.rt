// Lists that are borrowed as their bytes.
ghost use Rattle.std.specs.Prelude.{◌≡◌, ◌≤◌, ◌<◌, ◌+◌, ⊤, ℕ, List, length, IfOk, IfErr, IfSome, IfNone};
ghost use Rattle.scroll.specs.declared.endian.Endian.{Endian};
ghost use Rattle.scroll_layouts.specs.Formats.{Format, len, EndsAt, RefusedAt, reads, refuses};
ghost use Rattle.scroll_layouts.specs.Lists.{ListValue, SomeItems, CountedItems, RefusesItems};

use crate::steps::check_items;
use scroll::{Endian, Error};
use std::alloc::AllocError;
use std::marker::PhantomData;
use std::result::Result;

/// A marker that says which bytes are a list.
///
/// From `crates/scroll_layouts/src/tests/walk/derived.rt`, a list of fields:
///
/// ```rust
/// impl IsList for FieldKind {
///     ghost is_list = { λ order s n. CountedItems
///         (⟦<MessageField<'static> as ReadPart<'static, (), Error>>⟧.format tt) order s 0 (length s) n };
/// }
/// ```
pub trait IsList {
    // Whether bytes are a list of so many values in a byte order.
    ghost is_list: { Endian → List ℕ → ℕ → Type 0 };
}

/// A marker of lists of values of any size, which names their type and reads them.
///
/// From `crates/scroll_layouts/src/tests/walk/derived.rt`, a list of fields:
///
/// ```rust
/// impl<'a> Listed<'a> for FieldKind {
///     type Error = Error;
///
///     type Item = MessageField<'a>;
///
///     ghost item = { ⟦<MessageField<'a> as ReadPart<'a, (), Error>>⟧.format tt };
///
///     fn read_item(
///         from: &'a [u8],
///         offset: usize,
///         order: Endian,
///     ) -> Result<(MessageField<'a>, usize), Error> {
///         <MessageField<'a> as ReadPart<'a, (), Error>>::read_at(from, offset, order, &())
///     }
///
///     fn end_item(from: &'a [u8], offset: usize, order: Endian) -> Option<usize> {
///         <MessageField<'a> as ReadPart<'a, (), Error>>::end_at(from, offset, order, &())
///     }
/// }
/// ```
pub trait Listed<'a>: IsList {
    /// The error of a value that can't be read.
    type Error;

    /// The type of a value.
    type Item: Drop;

    // What a value is as bytes.
    ghost item: { Format Self.Error Self.Item };

    /// Reads the value at an offset, and returns it with the offset after it. The caller ensures
    /// that the offset is at most the length of `from`.
    fn read_item(
        from: &'a [u8],
        offset: usize,
        order: Endian,
    ) -> Result<(Self::Item, usize), Self::Error>
        requires { offset ≤ length from.now }
        ensures read { IfOk result (λ r. reads item order from.now offset r.0) }
        ensures moves { IfOk result (λ r. r.1 ≡ offset + len item r.0) }
        ensures inside { IfOk result (λ r. r.1 ≤ length from.now) }
        ensures refused { IfErr result (refuses item order from.now offset) };

    /// Returns the offset after the value at an offset, or `None` where
    /// [`Listed::read_item`] returns an error. The caller ensures the same.
    fn end_item(from: &'a [u8], offset: usize, order: Endian) -> Option<usize>
        requires { offset ≤ length from.now }
        ensures ends { IfSome result (EndsAt item order from.now offset) }
        ensures inside { IfSome result (λ end. end ≤ length from.now) }
        ensures none { IfNone result (RefusedAt item order from.now offset) };
}

/// A marker of lists of values, one after another.
pub trait Unmarked<'a>: Listed<'a> {
    // Values that stand one after another are a list.
    ghost from_values: { (order : Endian) (s : List ℕ) (n : ℕ)
        → CountedItems Self.item order s 0 (length s) n → Self.is_list order s n };

    // In a list values stand one after another.
    ghost into_values: { (order : Endian) (s : List ℕ) (n : ℕ) → Self.is_list order s n
        → CountedItems Self.item order s 0 (length s) n };
}

/// Values of any size in bytes that are borrowed: one after another, up to a mark, or up to the one
/// that says that it is the last.
///
/// They were read when the list was made, so its bytes are good ones: the list is walked where it
/// lies, without memory, and written by one copy.
#[derive(Debug)]
pub struct Items<'a, K: IsList> {
    /// The bytes of the values, and of the mark if there is one.
    pub bytes: &'a [u8],
    /// The byte order in which the values were read.
    pub order: Endian,
    /// How many values they are.
    pub count: usize,
    of: PhantomData<K>,
    ghost walked: { ∥ K.is_list order bytes.now count ∥₁ },
}

/// A list as a part of a struct, by a type around it. (The prover can't state yet that a type with
/// a bound, such as [`Items`], is a part.)
#[derive(Drop)]
pub struct ListOf<'a, L>(pub L, pub PhantomData<&'a [u8]>);

/// A type around an [`Items`].
///
/// From `crates/scroll_layouts/src/tests/walk/derived.rt`, around a list of fields:
///
/// ```rust
/// #[derive(Drop)]
/// pub struct FieldKindPart<'a>(pub Items<'a, FieldKind>);
///
/// impl<'a> ListPart<'a> for FieldKindPart<'a> {
///     type Kind = FieldKind;
///
///     ghost seen = { λ x. record { bytes = x.0.bytes.now; order = x.0.order; count = x.0.count } };
///
///     fn of(bytes: &'a [u8], order: Endian, count: usize) -> FieldKindPart<'a> {
///         FieldKindPart(Items::of(bytes, order, count))
///     }
///
///     fn parts(&self) -> (&'a [u8], Endian, usize) {
///         (self.0.bytes, self.0.order, self.0.count)
///     }
/// }
/// ```
pub trait ListPart<'a>: Drop {
    /// The marker of the list.
    type Kind: IsList;

    // The bytes of the list, the order in which its values were read, and their number.
    ghost seen: { Self → ListValue };

    /// Returns the list of bytes of which the caller ensures that they are one.
    fn of(bytes: &'a [u8], order: Endian, count: usize) -> Self
        requires { ∥ Self.Kind.is_list order bytes.now count ∥₁ }
        ensures bytes { (seen result).bytes ≡ bytes.now }
        ensures order { (seen result).order ≡ order }
        ensures count { (seen result).count ≡ count };

    /// Returns the bytes of the list, the order in which its values were read, and their number.
    fn parts(&self) -> (&'a [u8], Endian, usize)
        ensures bytes { result.0.now ≡ (seen self.now).bytes }
        ensures order { result.1 ≡ (seen self.now).order }
        ensures count { result.2 ≡ (seen self.now).count }
        ensures list { ∥ Self.Kind.is_list result.1 result.0.now result.2 ∥₁ };
}

impl<'a, K: IsList> Copy for Items<'a, K> {}

impl<'a, K: IsList> Clone for Items<'a, K> {
    ghost is_clone = { λ old new. new ≡ old };

    ghost is_infallible = { λ _. ⊤ };

    #[inline(always)]
    fn clone(&self) -> Result<Items<'a, K>, AllocError> {
        Ok(*self)
    }
}

impl<'a, K: IsList> Items<'a, K> {
    /// Returns the list of bytes of which the caller ensures that they are one.
    #[inline(always)]
    pub fn of(bytes: &'a [u8], order: Endian, count: usize) -> Items<'a, K>
        requires { ∥ K.is_list order bytes.now count ∥₁ }
        ensures bytes { result.bytes.now ≡ bytes.now }
        ensures order { result.order ≡ order }
        ensures count { result.count ≡ count }
    {
        Items {
            bytes,
            order,
            count,
            of: PhantomData,
        }
    }
}

impl<'a, K: Unmarked<'a>> Items<'a, K>
where
    K::Error: From<Error> + Drop,
{
    /// Reads values up to the end of their bytes, and returns their list.
    ///
    /// The errors are those of the values; a value without bytes is [`Error::BadInput`] with its
    /// offset and the message `a value has no bytes`.
    #[inline(always)]
    pub fn new(bytes: &'a [u8], order: Endian) -> Result<Items<'a, K>, K::Error>
        ensures bytes { IfOk result (λ list. list.bytes.now ≡ bytes.now) }
        ensures order { IfOk result (λ list. list.order ≡ order) }
        ensures list { IfOk result (λ list. CountedItems K.item order bytes.now 0
            (length bytes.now) list.count) }
        ensures refused { IfErr result
            (RefusesItems K.Error.from_gives K.item order bytes.now) }
    {
        let count = check_items::<K>(bytes, order)?;
        Ok(Items::of(bytes, order, count))
    }
}
