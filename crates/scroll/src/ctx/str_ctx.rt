// Where a string ends.
ghost use Rattle.std.specs.Prelude.{◌≡◌, ◌↔◌, IsTrue};
ghost use Rattle.scroll.specs.Texts.{delimiter_len};
ghost use Rattle.scroll.specs.declared.ctx.str_ctx.StrCtx.TheVariants.{Delimiter};

/// The zero byte, which ends a string in C.
pub const NULL: u8 = 0;

/// A space.
pub const SPACE: u8 = 0x20;

/// A line feed.
pub const RET: u8 = 0x0a;

/// A tab.
pub const TAB: u8 = 0x09;

/// The context in which a string is read: where it ends. Writing doesn't use it.
///
/// The default is `Delimiter(NULL)`.
#[derive(Clone, Copy, Debug)]
pub enum StrCtx {
    /// Up to the first byte of this value, or to the end of the source if there is none.
    Delimiter(u8),
    /// Up to the first byte of this value within this many bytes, or else this many bytes.
    DelimiterUntil(u8, usize),
    /// This many bytes.
    Length(usize),
    /// Up to the first byte of this value, which the source must contain.
    Required(u8),
}

impl Default for StrCtx {
    ghost is_default = { λ ctx. ctx ≡ Delimiter 0 };

    fn default() -> StrCtx {
        StrCtx::Delimiter(NULL)
    }
}

impl StrCtx {
    /// Returns how many bytes the size of a string counts after the text: 1 for a delimiter, and 0
    /// for `Length`.
    pub fn len(&self) -> usize
        ensures { result ≡ delimiter_len self.now }
    {
        match self {
            StrCtx::Delimiter(_) | StrCtx::DelimiterUntil(_, _) | StrCtx::Required(_) => 1,
            StrCtx::Length(_) => 0,
        }
    }

    /// Returns whether the size of a string counts no byte after the text, which holds of `Length`
    /// alone.
    pub fn is_empty(&self) -> bool
        ensures { IsTrue result ↔ (delimiter_len self.now ≡ 0) }
    {
        matches!(self, StrCtx::Length(_))
    }
}
