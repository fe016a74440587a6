// Texts as parts: of a counted length, or up to a byte.
ghost use Rattle.std.specs.Prelude.{◌≡◌, ◌≢◌, ◌≤◌, ◌<◌, ◌+◌, ◌-◌, ◌^◌, ◌++◌, ℕ, length, take, drop, min, codes, slice_index, IfSome, IfNone};
ghost use Rattle.scroll.specs.declared.error.Error.{Error};
ghost use Rattle.scroll_layouts.specs.Formats.{leaf, last};
ghost use Rattle.scroll_layouts.specs.Leaves.{text_of, text_until};
ghost use Rattle.scroll_layouts.specs.Starts.{start};

use crate::bytes::check_count;
use crate::{Part, ReadPart};
use scroll::ctx::{StrCtx, TryFromCtx};
use scroll::{Endian, Error};
use std::result::Result;

/// The context of a text that ends before a byte.
///
/// ```rust
/// let (line, size) = read_whole::<Ends, Error, &str>(b"one\ntwo", LE, &Ends(10))?;
/// assert_eq!(rt; line, "one");
/// assert_eq!(rt; size, 4);
/// ```
#[derive(Drop)]
pub struct Ends(pub u8);

/// A text of as many bytes as the context says. The errors of a read are those of a text with
/// [`StrCtx::Length`]. A write of a text of another length is [`Error::BadInput`] with its length
/// and the message `another length than its count`.
impl<'a, E: From<Error>> Part<usize, E> for &'a str {
    ghost format = { λ n. last (leaf (start (text_of E.from_gives n))) (λ x. x.now) };

    fn check(&self, _order: Endian, ctx: &usize) -> Result<(), E> {
        check_count(*ctx, self.as_bytes().len())
    }

    fn size(&self, _order: Endian, _ctx: &usize) -> usize {
        self.len()
    }

    #[inline(always)]
    fn put(&self, dst: &mut [u8], _order: Endian, _ctx: &usize) {
        dst[..self.len()].copy_from_slice(self.as_bytes());
    }
}

impl<'a, E: From<Error> + Drop> ReadPart<'a, usize, E> for &'a str {
    ghost format = { λ n. last (leaf (start (text_of E.from_gives n))) (λ x. x.now) };

    #[inline(always)]
    fn read_at(
        from: &'a [u8],
        offset: usize,
        _order: Endian,
        ctx: &usize,
    ) -> Result<(&'a str, usize), E> {
        let (value, size) = <&str as TryFromCtx<StrCtx>>::try_from_ctx(
            &from[offset..],
            StrCtx::Length(*ctx),
        )?;
        Ok((value, offset + size))
    }

    #[inline(always)]
    fn end_at(from: &'a [u8], offset: usize, order: Endian, ctx: &usize) -> Option<usize> {
        match <&'a str as ReadPart<'a, usize, E>>::read_at(from, offset, order, ctx) {
            Ok((_value, end)) => Some(end),
            Err(_error) => None,
        }
    }
}

/// A text without the byte that the context says, and that byte. The errors of a read are those of
/// a text with [`StrCtx::Required`]. A write of a text that has the byte is [`Error::BadInput`]
/// with the offset of the first one and the message `a text has its delimiter`.
impl<'a, E: From<Error>> Part<Ends, E> for &'a str {
    ghost format = { λ c. last (leaf (start (text_until E.from_gives c.0))) (λ x. x.now) };

    fn check(&self, _order: Endian, ctx: &Ends) -> Result<(), E> {
        match first_of(ctx.0, self.as_bytes()) {
            Some(size) => Err(E::from(Error::BadInput {
                size,
                msg: "a text has its delimiter",
            })),
            None => Ok(()),
        }
    }

    fn size(&self, _order: Endian, _ctx: &Ends) -> usize {
        self.len() + 1
    }

    #[inline(always)]
    fn put(&self, dst: &mut [u8], _order: Endian, ctx: &Ends) {
        let len = self.len();
        dst[..len].copy_from_slice(self.as_bytes());
        dst[len] = ctx.0;
    }
}

impl<'a, E: From<Error> + Drop> ReadPart<'a, Ends, E> for &'a str {
    ghost format = { λ c. last (leaf (start (text_until E.from_gives c.0))) (λ x. x.now) };

    #[inline(always)]
    fn read_at(
        from: &'a [u8],
        offset: usize,
        _order: Endian,
        ctx: &Ends,
    ) -> Result<(&'a str, usize), E> {
        let (value, size) = <&str as TryFromCtx<StrCtx>>::try_from_ctx(
            &from[offset..],
            StrCtx::Required(ctx.0),
        )?;
        Ok((value, offset + size))
    }

    #[inline(always)]
    fn end_at(from: &'a [u8], offset: usize, order: Endian, ctx: &Ends) -> Option<usize> {
        match <&'a str as ReadPart<'a, Ends, E>>::read_at(from, offset, order, ctx) {
            Ok((_value, end)) => Some(end),
            Err(_error) => None,
        }
    }
}

// Returns the offset of the first byte that is `delimiter`.
fn first_of(delimiter: u8, bytes: &[u8]) -> Option<usize>
    ensures found { IfSome result (λ offset. (offset < length bytes.now)
        × (slice_index bytes.now offset ≡ delimiter)
        × ((i : ℕ) → i < offset → slice_index bytes.now i ≢ delimiter)) }
    ensures none { IfNone result
        ((i : ℕ) → i < length bytes.now → slice_index bytes.now i ≢ delimiter) }
{
    // (most texts have none, which is told sooner)
    if !bytes.contains(&delimiter) {
        return None;
    }
    bytes.iter().position(|byte| *byte == delimiter)
}
