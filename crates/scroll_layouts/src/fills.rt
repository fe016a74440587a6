// Texts in fields of a fixed width.
ghost use Rattle.std.specs.Prelude.{◌≡◌, ◌≢◌, ◌≤◌, ◌<◌, ◌+◌, ◌-◌, ◌^◌, ◌++◌, ◌⊎◌, ℕ, length, take, drop, min, replicate, codes};
ghost use Rattle.scroll_layouts.specs.FillLeaves.{fill};
ghost use Rattle.scroll_layouts.specs.Fills.{filled, IsText};
ghost use Rattle.scroll_layouts.specs.Formats.{leaf, last};
ghost use Rattle.scroll_layouts.specs.Starts.{start};

use crate::{Part, ReadPart};
use scroll::{Endian, Error, check_room};
use std::result::Result;

/// The context of a text in a field: how many bytes that has, and the byte that fills it up behind
/// the text, such as a zero or a blank.
///
/// ```rust
/// let (name, _) = read_whole::<Filled, Error, &[u8]>(b"a.o/    ", LE, &Filled(8, b' '))?;
/// assert_eq!(rt; name.len(), 4);
/// ```
#[derive(Drop)]
pub struct Filled(pub usize, pub u8);

/// A text without the bytes that fill its field up behind it. A shorter source is [`Error::TooBig`]
/// with the size of the field and the number of bytes there. A write of a longer text is
/// [`Error::BadInput`] with its length and the message `more bytes than its field`, and one of a
/// text that ends with the byte that fills is one with the offset of that and the message
/// `a text ends with what fills its field`.
impl<'a, E: From<Error>> Part<Filled, E> for &'a [u8] {
    ghost format = { λ c. last (leaf (start (fill E.from_gives c.0 c.1))) (λ x. x.now) };

    fn check(&self, _order: Endian, ctx: &Filled) -> Result<(), E> {
        let text = *self;
        let len = text.len();
        if len > ctx.0 {
            return Err(E::from(Error::BadInput {
                size: len,
                msg: "more bytes than its field",
            }));
        }
        if len > 0 && text[len - 1] == ctx.1 {
            return Err(E::from(Error::BadInput {
                size: len - 1,
                msg: "a text ends with what fills its field",
            }));
        }
        Ok(())
    }

    #[tactic(auto, using(crate::specs::lemmas::FillLemmas::filled_sizes))]
    fn size(&self, _order: Endian, ctx: &Filled) -> usize {
        ctx.0
    }

    #[tactic(auto, using(crate::specs::lemmas::FillLemmas::filled_sizes))]
    #[inline(always)]
    fn put(&self, dst: &mut [u8], _order: Endian, ctx: &Filled) {
        let text = *self;
        let len = text.len();
        dst[..len].copy_from_slice(text);
        dst[len..ctx.0].fill(ctx.1);
    }
}

impl<'a, E: From<Error> + Drop> ReadPart<'a, Filled, E> for &'a [u8] {
    ghost format = { λ c. last (leaf (start (fill E.from_gives c.0 c.1))) (λ x. x.now) };

    #[inline(always)]
    fn read_at(
        from: &'a [u8],
        offset: usize,
        _order: Endian,
        ctx: &Filled,
    ) -> Result<(&'a [u8], usize), E> {
        check_room(ctx.0, from.len() - offset)?;
        let field = &from[offset..offset + ctx.0];
        let len = text_len(field, ctx.1);
        Ok((&field[..len], offset + ctx.0))
    }

    #[inline(always)]
    fn end_at(from: &'a [u8], offset: usize, order: Endian, ctx: &Filled) -> Option<usize> {
        match <&'a [u8] as ReadPart<'a, Filled, E>>::read_at(from, offset, order, ctx) {
            Ok((_value, end)) => Some(end),
            Err(_error) => None,
        }
    }
}

// Returns the length of the text in a field.
fn text_len(field: &[u8], fill: u8) -> usize
    ensures most { result ≤ length field.now }
    ensures is { field.now ≡ filled (length field.now) fill (take result field.now) }
    ensures text { IsText (length field.now) fill (take result field.now) }
{
    let mut end = field.len();
    while end > 0 && field[end - 1] == fill {
        end -= 1;
    }
    end
}
