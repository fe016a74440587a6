// Strings.
ghost use Rattle.std.specs.Str.{IsAscii};
ghost use Rattle.std.specs.Prelude.{◌≡◌, ℕ, ◌+◌, ◌≤◌, List, length, take, codes, ◌<◌, ◌⊎◌, IfOk, IfErr, OnOk, OnErr, IfSome, IfNone, IsUtf8};
ghost use Rattle.scroll.specs.Errors.{IsBadInput};
ghost use Rattle.std.proofs.Common.{rules};
ghost use Rattle.scroll.specs.Bytes.{RefusesShort, WritesPrefix, FailsShort};
ghost use Rattle.scroll.specs.Texts.{index_of, text_in, wanted_len, HasDelimiter, ReadsText, RefusesMissing, RefusesText};
ghost use Rattle.scroll.specs.lemmas.Frames.{ReadsText-bounded, WritesPrefix-keeps};

use crate::ctx::{StrCtx, TryFromCtx, TryIntoCtx};
use crate::error::{Error, Result, check_room};
use crate::search::{first_stop, near_index_of};
use crate::utf8::{is_dense, is_text};

/// Reads a string up to where the context ends it, zero-copy.
///
/// In a context with a delimiter the size is one byte more than the string has, even if no
/// delimiter follows, and even past the end of the source.
///
/// A limit or a length beyond the source returns [`Error::TooBig`], even if a delimiter comes
/// earlier. A source without the delimiter of `Required` returns [`Error::BadInput`] with the
/// message `missing delimiter`, and bytes that aren't UTF-8 one with `invalid utf8`; the `size` of
/// both is the length of the source.
///
/// ```rust
/// let source: &[u8] = b"ab";
/// let offset = &mut 0;
/// assert_eq!(rt; source.gread_with::<&str>(offset, StrCtx::Delimiter(NULL))?, "ab");
/// assert_eq!(rt; *offset, 3);
/// let source: &[u8] = b"abcd";
/// let offset = &mut 0;
/// assert_eq!(rt; source.gread_with::<&str>(offset, StrCtx::DelimiterUntil(NULL, 2))?, "ab");
/// assert_eq!(rt; *offset, 3);
/// let source: &[u8] = &[0xc3, 0xa9];
/// assert_eq!(rt; source.pread_with::<&str>(0, StrCtx::Length(2))?, "é");
///
/// let source: &[u8] = b"a\0c";
/// let limit = source.pread_with::<&str>(0, StrCtx::DelimiterUntil(NULL, 4));
/// assert!(rt; matches!(limit, Err(Error::TooBig { size: 4, len: 3 })));
/// let source: &[u8] = &[0xff, b'a', 0];
/// let bytes = source.pread_with::<&str>(0, StrCtx::Delimiter(NULL));
/// assert!(rt; matches!(bytes, Err(Error::BadInput { size: 3, msg: "invalid utf8" })));
/// let source: &[u8] = &[0xff, b'a'];
/// let missing = source.pread_with::<&str>(0, StrCtx::Required(NULL));
/// assert!(rt; matches!(missing, Err(Error::BadInput { size: 2, msg: "missing delimiter" })));
/// ```
impl<'a> TryFromCtx<'a, StrCtx> for &'a str {
    type Error = Error;

    ghost reads = { λ ctx source text. ReadsText ctx source text.now };

    ghost refuses = { RefusesText };

    ghost reads_bounded = { λ ctx source text. ReadsText-bounded ctx source text.now };

    #[inline(always)]
    fn try_from_ctx(from: &'a [u8], ctx: StrCtx) -> Result<(&'a str, usize)> {
        match text_in(from, ctx)? {
            Some(text) => Ok((text, text.len() + ctx.len())),
            None => Err(Error::BadInput {
                size: from.len(),
                msg: "invalid utf8",
            }),
        }
    }
}

// Returns the string, or `None` where the bytes aren't UTF-8. A limit and a length are checked
// before the search, and a missing delimiter is found before UTF-8 is checked.
#[inline(always)]
#[tactic(auto, using(crate::proofs::lemmas::TextLemmas::index_ofs))]
fn text_in(from: &[u8], ctx: StrCtx) -> Result<Option<&str>>
    ensures room { IfOk result (λ _. wanted_len ctx ≤ length from.now) }
    ensures text { IfOk result (λ found. IfSome found
        (λ text. text.now ≡ text_in ctx from.now)) }
    ensures none { IfOk result (λ found. IfNone found (¬ (IsUtf8 (text_in ctx from.now)))) }
    ensures there { OnOk result (HasDelimiter ctx from.now) }
    ensures refused { IfErr result (λ e. RefusesShort (wanted_len ctx) from.now e
        ⊎ RefusesMissing ctx from.now e) }
{
    match ctx {
        StrCtx::Delimiter(delimiter) => Ok(text_before(delimiter, from).1),
        StrCtx::DelimiterUntil(delimiter, limit) => {
            check_room(limit, from.len())?;
            Ok(text_before(delimiter, &from[..limit]).1)
        }
        StrCtx::Length(len) => {
            check_room(len, from.len())?;
            Ok(str::from_utf8(&from[..len]).ok())
        }
        StrCtx::Required(delimiter) => {
            let (index, text) = text_before(delimiter, from);
            if index == from.len() {
                return Err(Error::BadInput {
                    size: index,
                    msg: "missing delimiter",
                });
            }
            Ok(text)
        }
    }
}

// Returns the offset of the first delimiter, or the length of the source if there is none, and the
// string before it, or `None` where the bytes aren't UTF-8. The delimiter and the first byte that
// isn't ASCII are searched for at once.
#[inline(always)]
#[tactic(auto, using(crate::proofs::lemmas::TextLemmas::index_ofs))]
fn text_before(delimiter: u8, source: &[u8]) -> (usize, Option<&str>)
    ensures index { result.0 ≡ index_of delimiter source.now }
    ensures text { IfSome result.1 (λ text. text.now ≡ take result.0 source.now) }
    ensures none { IfNone result.1 (¬ (IsUtf8 (take result.0 source.now))) }
{
    let stop = first_stop(delimiter, source);
    if stop == source.len() || source[stop] == delimiter {
        return (stop, Some(text_of_ascii(&source[..stop])));
    }
    let index = stop + near_index_of(delimiter, &source[stop..]);
    (index, text_from(&source[..index], stop))
}

// Returns ASCII bytes as a string.
#[inline(always)]
#[tactic(auto, using(crate::proofs::lemmas::TextLemmas::ascii))]
fn text_of_ascii(bytes: &[u8]) -> &str
    requires { IsAscii bytes.now }
    ensures { result.now ≡ bytes.now }
{
    // ASCII is UTF-8: the premise of this call is proved for every call of `text_of_ascii`.
    unsafe { str::from_utf8_unchecked(bytes) }
}

// Returns bytes as a string, or `None` where they aren't UTF-8. The first `ascii` bytes are known
// to be ASCII.
#[inline(always)]
fn text_from(bytes: &[u8], ascii: usize) -> Option<&str>
    requires within { ascii ≤ length bytes.now }
    requires ascii { IsAscii (take ascii bytes.now) }
    ensures text { IfSome result (λ text. text.now ≡ bytes.now) }
    ensures none { IfNone result (¬ (IsUtf8 bytes.now)) }
{
    if !is_dense(&bytes[ascii..]) {
        return str::from_utf8(bytes).ok();
    }
    if !is_text(&bytes[ascii..]) {
        return None;
    }
    // ASCII and UTF-8 behind it are UTF-8: the premise of this call is proved.
    Some(unsafe { str::from_utf8_unchecked(bytes) })
}

/// Writes the bytes of the string alone. A shorter target returns [`Error::TooBig`] with the
/// lengths of both, and is unchanged.
impl<'t> TryIntoCtx<()> for &'t str {
    type Error = Error;

    ghost writes = { λ _ text. WritesPrefix (length text.now) text.now };

    ghost refuses = { λ _ text. FailsShort (length text.now) };

    ghost writes_bounded = { λ _ text old new n h. Prim.search rules };

    ghost writes_keeps = { λ _ text. WritesPrefix-keeps text.now };

    fn try_into_ctx(self, dst: &mut [u8], _ctx: ()) -> Result<usize> {
        self.as_bytes().try_into_ctx(dst, ())
    }
}
