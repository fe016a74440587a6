//! Contexts, and the traits of types that are read and written in one.
//!
//! A context says how the bytes of a value are interpreted: in which byte order, up to which
//! delimiter, or how many of them.
//!
//! From `crates/examples/src/sized_fields.rt`, a context of its own:
//!
//! ```rust
//! struct Context {
//!     fieldsize: FieldSize,
//!     endianess: Endian,
//! }
//!
//!     fn try_from_ctx(from: &'b [u8], ctx: Context) -> result::Result<(Data<'b>, usize), DataError> {
//!         let (fields, mut offset) = read_fields(from, ctx)?;
//!         let name = read_name(from, &mut offset, ctx.endianess)?;
//!         let value = read_value(from, &mut offset, ctx.endianess)?;
//!         let [field_a, field_b, field_c] = fields;
//!         if field_a >= field_b || field_b >= field_c {
//!             return Err(DataError::BadFieldMatchup);
//!         }
//!         let data = Data {
//!             field_a,
//!             field_b,
//!             field_c,
//!             name,
//!             value,
//!         };
//!         Ok((data, offset))
//!     }
//! ```
ghost use Rattle.std.specs.Prelude.{◌≡◌, ℕ, ◌+◌, ◌^◌, ◌≤◌, ◌<◌, ◌++◌, List, length, take, drop, IfOk, IfErr};
ghost use Rattle.scroll.specs.Reads.{IsBounded};

mod arrays;
mod bytes;
mod c_strings;
mod fixed;
mod measure;
mod memory;
mod numbers;
mod std_c_strings;
mod str_ctx;
mod text;
mod tuples;

pub use fixed::{Fixed, Plain, Record, RoundTrip, Written};
pub use memory::array_fits;
pub use str_ctx::{NULL, RET, SPACE, StrCtx, TAB};

/// A type that can be read from bytes in a context.
///
/// An implementation says by `reads` which values and sizes a read may return, and by `refuses`
/// which errors. A generic caller knows these two of a read, and that its size is at most one byte
/// more than the source has.
///
/// From `crates/examples/src/errors.rt`, with an error of its own:
///
/// ```rust
/// impl<'a> TryFromCtx<'a, Endian> for Foo {
///     type Error = ExternalError;
///
///     ghost reads = { λ order source x n. (2 < length source) × ReadsNumber 2 order source x.0 n };
///
///     ghost refuses = { λ _ source _. length source ≤ 2 };
///
///     ghost reads_bounded = { λ order source x n h. Prim.search rules };
///
///     fn try_from_ctx(from: &'a [u8], ctx: Endian) -> Result<(Foo, usize), ExternalError> {
///         check_room(3, from.len())?;
///         let mut offset = 0;
///         let n = from.gread_with(&mut offset, ctx)?;
///         Ok((Foo(n), offset))
///     }
/// }
/// ```
pub trait TryFromCtx<'a, Ctx: Copy>: Sized {
    /// The error of a read.
    type Error;

    // Holds of a context, a source, and each value and size that a read of them may return.
    ghost reads: { Ctx → List ℕ → Self → ℕ → Type 0 };

    // Holds of a context, a source, and each error that a read of them may return.
    ghost refuses: { Ctx → List ℕ → Self.Error → Type 0 };

    /// Reads a value at the start of `from`, and returns it with its size in bytes.
    ///
    /// Returns the type's error where `from` doesn't begin with a value.
    fn try_from_ctx(from: &'a [u8], ctx: Ctx) -> Result<(Self, usize), Self::Error>
        ensures read { IfOk result (λ read. reads ctx from.now read.0 read.1) }
        ensures refused { IfErr result (λ e. refuses ctx from.now e) };

    // The size is at most one more than the length of the source.
    ghost reads_bounded: { (ctx : Ctx) → IsBounded (reads ctx) };
}

/// A type that can be written to bytes in a context.
///
/// An implementation says by `writes` which target and size a write may leave, and by `refuses`
/// which target and error. A generic caller knows these two of a write, that its size is at most
/// the length of the target, and that the bytes after it are unchanged.
///
/// From `crates/examples/src/errors.rt`, whose error has a text:
///
/// ```rust
/// impl<'g> TryIntoCtx<(Endian, &'g Global)> for Number {
///     type Error = Error;
///
///     ghost writes = { λ ctx x old new n. WritesNumber 2 ctx.0 x.0 old new n };
///
///     ghost refuses = { λ _ _ old new e. (length old < 2) × (new ≡ old) × ((line_of e ≡ Some (codes "whatever")) ⊎ (e ≡ NoMemory)) };
///
///     ghost writes_bounded = { λ ctx x old new n h. Prim.search rules };
///
///     ghost writes_keeps = { λ ctx x old new n h. drop-written (length-number_bytes ctx.0 2 x.0) h };
///
///     fn try_into_ctx(self, dst: &mut [u8], ctx: (Endian, &'g Global)) -> Result<usize, Error> {
///         if dst.len() < 2 {
///             return Err(whatever(*ctx.1));
///         }
///         self.0.try_into_ctx(dst, ctx.0)
///     }
/// }
/// ```
pub trait TryIntoCtx<Ctx: Copy>: Sized {
    /// The error of a write.
    type Error;

    // Holds of a context, a value, a target before and after, and each size that a write may return
    // for them.
    ghost writes: { Ctx → Self → List ℕ → List ℕ → ℕ → Type 0 };

    // Holds of a context, a value, a target before and after, and each error that a write may
    // return for them.
    ghost refuses: { Ctx → Self → List ℕ → List ℕ → Self.Error → Type 0 };

    /// Writes the value to the start of `dst`, and returns its size in bytes.
    ///
    /// Returns the type's error where it can't be written whole; the type says what is then in
    /// `dst`.
    fn try_into_ctx(self, dst: &mut [u8], ctx: Ctx) -> Result<usize, Self::Error>
        ensures wrote { IfOk result (λ n. writes ctx self dst.old dst.new n) }
        ensures refused { IfErr result (λ e. refuses ctx self dst.old dst.new e) };

    // The size is at most the length of the target.
    ghost writes_bounded: { (ctx : Ctx) (x : Self) (old new : List ℕ) (n : ℕ)
        → writes ctx x old new n → n ≤ length old };

    // The bytes after those that were written are unchanged.
    ghost writes_keeps: { (ctx : Ctx) (x : Self) (old new : List ℕ) (n : ℕ) → writes ctx x old new n
        → drop n new ≡ drop n old };
}

/// A type that can be read infallibly from enough bytes in a context.
pub trait FromCtx<Ctx: Copy>: Sized {
    // The number of bytes that a source must have.
    ghost need: { Ctx → ℕ };

    // Holds of a context, a source of at least that many bytes, and each value that may be made of
    // it.
    ghost makes: { Ctx → List ℕ → Self → Type 0 };

    /// Returns the value at the start of `this`, which has the bytes that the type needs.
    fn from_ctx(this: &[u8], ctx: Ctx) -> Self
        requires { need ctx ≤ length this.now }
        ensures { makes ctx this.now result };
}

/// A type that can be written infallibly to enough bytes in a context.
pub trait IntoCtx<Ctx: Copy>: Sized {
    // The number of bytes that a target must have.
    ghost need: { Ctx → ℕ };

    // Holds of a context, a value, and a target of at least that many bytes before and after.
    ghost overwrites: { Ctx → Self → List ℕ → List ℕ → Type 0 };

    /// Writes the value to the start of `dst`, which has the bytes that the type needs; those after
    /// them are unchanged.
    fn into_ctx(self, dst: &mut [u8], ctx: Ctx)
        requires { need ctx ≤ length dst.old }
        ensures { overwrites ctx self dst.old dst.new };

    // The bytes after those that the type needs are unchanged.
    ghost overwrites_keeps: { (ctx : Ctx) (x : Self) (old new : List ℕ) → overwrites ctx x old new
        → drop (need ctx) new ≡ drop (need ctx) old };
}

/// A type whose size in a context is the same for all values.
pub trait SizeWith<Ctx> {
    // The size of a value in bytes.
    ghost size: { Ctx → ℕ };

    /// Returns the size of a value in bytes. The caller ensures that it fits into a `usize`.
    ///
    /// ```rust
    /// assert_eq!(rt; u64::size_with(&LE), 8);
    /// ```
    fn size_with(ctx: &Ctx) -> usize
        requires { size ctx.now < 2 ^ 64 }
        ensures { result ≡ size ctx.now };
}

/// A type whose values have a size in a context, which may differ from value to value.
///
/// ```rust
/// let bytes: [u8; 4] = [0xde, 0xad, 0xbe, 0xef];
/// assert_eq!(rt; bytes.measure_with(&LE), 4);
/// ```
pub trait MeasureWith<Ctx> {
    // The size of a value in bytes.
    ghost measure: { Ctx → Self → ℕ };

    /// Returns the size of the value in bytes in the context `ctx`.
    fn measure_with(&self, ctx: &Ctx) -> usize
        ensures { result ≡ measure ctx.now self.now };
}
