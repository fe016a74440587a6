// Values read from readers and written to writers.
ghost use Rattle.std.specs.Prelude.{◌≡◌, ℕ, ◌≤◌, length, replicate, IfOk, OnOk};
ghost use Rattle.std.specs.Io.KnownBytes.{Appends, Consumes};
ghost use Rattle.scroll.specs.Reads.{ByDefault};
ghost use Rattle.scroll.specs.Streams.{TakesValue, AppendsValue};

use crate::ctx::{FromCtx, IntoCtx, SizeWith};
use std::io;
use std::io::{ErrorKind, Read, Write};

// The scratch of a type of at most this size, as every number is, is this large; that of any other
// type has 256 bytes.
const SMALL: usize = 16;

/// Reads values of any type that implements [`FromCtx`] and [`SizeWith`] from a reader.
///
/// Every reader implements it. A read takes exactly as many bytes as the type's size, even if the
/// type needs fewer. The caller ensures that it needs no more, and that the size is at most 256;
/// both hold of every number.
///
/// An error is the reader's own, or one of kind `UnexpectedEof` where the reader ends too early;
/// how many bytes were then taken is not specified. An interrupted call is repeated.
///
/// From `crates/examples/src/stream.rt`, of a struct that is a [`Record`](crate::ctx::Record):
///
/// ```rust
/// // Reads the next twelve bytes of a source.
/// fn read_foo(source: &mut &[u8], order: Endian) -> io::Result<Foo>
///     ensures foo { IfOk result (λ x. x.foo ≡ signed_number order 8 (take 12 source.old.now)) }
///     ensures bar { IfOk result (λ x. x.bar ≡ number order 4 (drop 8 (take 12 source.old.now))) }
///     ensures rest { OnOk result (source.new.now ≡ drop 12 source.old.now) }
/// {
///     source.ioread_with(order)
/// }
/// ```
pub trait IOread<Ctx: Copy>: Read {
    /// Reads a value of type `N` in the default context, which for numbers is the machine's byte
    /// order.
    ///
    /// ```rust
    /// let mut source = [0xef, 0xbe].as_slice();
    /// assert_eq!(rt; source.ioread::<u16>()?, 48879);
    /// ```
    #[inline(always)]
    final fn ioread<N: FromCtx<Ctx> + SizeWith<Ctx>>(&mut self) -> io::Result<N>
    where
        Self: Sized,
        Ctx: Default,
        requires need { (ctx : Ctx) → Ctx.is_default ctx → N.need ctx ≤ N.size ctx }
        requires size { (ctx : Ctx) → Ctx.is_default ctx → N.size ctx ≤ 256 }
        ensures took { IfOk result (λ x.
            ByDefault Ctx.is_default (λ ctx. TakesValue (Self.remaining self.old)
            (Self.remaining self.new) (N.size ctx) (λ bytes. N.makes ctx bytes x))) }
    {
        self.ioread_with(Ctx::default())
    }

    /// Reads a value of type `N` in the context `ctx`.
    ///
    /// ```rust
    /// let mut source = [0xef, 0xbe, 0xb0, 0xb0, 0xfe, 0xed, 0xde, 0xad].as_slice();
    /// assert_eq!(rt; source.ioread_with::<u16>(LE)?, 48879);
    /// assert_eq!(rt; source.ioread::<u8>()?, 176);
    /// assert_eq!(rt; source.ioread::<u8>()?, 176);
    /// assert_eq!(rt; source.ioread_with::<u32>(BE)?, 4277001901);
    /// assert!(rt; source.ioread::<u8>().is_err());
    /// ```
    #[inline(always)]
    final fn ioread_with<N: FromCtx<Ctx> + SizeWith<Ctx>>(&mut self, ctx: Ctx) -> io::Result<N>
    where
        Self: Sized,
        requires need { N.need ctx ≤ N.size ctx }
        requires size { N.size ctx ≤ 256 }
        ensures took { IfOk result (λ x. TakesValue (Self.remaining self.old)
            (Self.remaining self.new) (N.size ctx) (λ bytes. N.makes ctx bytes x)) }
    {
        let size = N::size_with(&ctx);
        if size <= SMALL {
            let mut scratch = [0u8; SMALL];
            return read_value(self, &mut scratch[..size], ctx);
        }
        read_large(self, ctx)
    }
}

impl<Ctx: Copy, R: Read> IOread<Ctx> for R {}

// Reads a value of any size. Its room is its caller's only where the compiler inlines it, as it
// does into a loop. It asks for the size itself, which is then a constant.
fn read_large<R: Read, Ctx: Copy, N: FromCtx<Ctx> + SizeWith<Ctx>>(
    reader: &mut R,
    ctx: Ctx,
) -> io::Result<N>
    requires need { N.need ctx ≤ N.size ctx }
    requires size { N.size ctx ≤ 256 }
    ensures took { IfOk result (λ x. TakesValue (R.remaining reader.old)
        (R.remaining reader.new) (N.size ctx) (λ bytes. N.makes ctx bytes x)) }
{
    let size = N::size_with(&ctx);
    let mut scratch = [0u8; 256];
    read_value(reader, &mut scratch[..size], ctx)
}

// Reads as many bytes as `scratch` has, and makes a value of them.
#[inline(always)]
#[tactic(auto, using(crate::proofs::lemmas::StreamLemmas::taken))]
fn read_value<R: Read, Ctx: Copy, N: FromCtx<Ctx>>(
    reader: &mut R,
    scratch: &mut [u8],
    ctx: Ctx,
) -> io::Result<N>
    requires need { N.need ctx ≤ length scratch.old }
    ensures took { IfOk result (λ x. TakesValue (R.remaining reader.old)
        (R.remaining reader.new) (length scratch.old) (λ bytes. N.makes ctx bytes x)) }
{
    fill(reader, scratch)?;
    Ok(N::from_ctx(scratch, ctx))
}

// Does what `read_exact` does. Its first read is made here, since it mostly is the last.
#[inline(always)]
fn fill<R: Read>(reader: &mut R, bytes: &mut [u8]) -> io::Result<()>
    ensures bytes { OnOk result
        (Consumes (R.remaining reader.old) (R.remaining reader.new) bytes.new) }
{
    if bytes.is_empty() {
        return Ok(());
    }
    match reader.read(bytes) {
        Ok(count) if count == bytes.len() => Ok(()),
        // (the error of a reader without bytes)
        Ok(0) => [].as_slice().read_exact(bytes),
        Ok(count) => reader.read_exact(&mut bytes[count..]),
        Err(error) if error.kind() == ErrorKind::Interrupted => reader.read_exact(bytes),
        Err(error) => Err(error),
    }
}

/// Writes values of any type that implements [`IntoCtx`] and [`SizeWith`] to a writer.
///
/// Every writer implements it. A write appends exactly as many bytes as the type's size: what the
/// value leaves in that many zeros. The caller ensures the same as for [`IOread`].
///
/// An error is the writer's own, or one of kind `WriteZero` where the writer takes no more bytes;
/// how many were then appended is not specified. An interrupted call is repeated. The writer is not
/// flushed.
pub trait IOwrite<Ctx: Copy>: Write {
    /// Appends `n` in the default context, which for numbers is the machine's byte order.
    ///
    /// ```rust
    /// let mut target = Vec::new(rt.alloc());
    /// target.iowrite(0xdeadbeefu32)?;
    /// assert_eq!(rt; target.as_slice(), [0xef, 0xbe, 0xad, 0xde].as_slice());
    /// ```
    final fn iowrite<N: SizeWith<Ctx> + IntoCtx<Ctx>>(&mut self, n: N) -> io::Result<()>
    where
        Self: Sized,
        Ctx: Default,
        requires need { (ctx : Ctx) → Ctx.is_default ctx → N.need ctx ≤ N.size ctx }
        requires size { (ctx : Ctx) → Ctx.is_default ctx → N.size ctx ≤ 256 }
        ensures appended { OnOk result (ByDefault Ctx.is_default (λ ctx.
            AppendsValue (Self.contents self.old) (Self.contents self.new) (N.size ctx)
            (N.overwrites ctx n (replicate (N.size ctx) 0)))) }
    {
        self.iowrite_with(n, Ctx::default())
    }

    /// Appends `n` in the context `ctx`.
    ///
    /// ```rust
    /// let mut bytes = [0u8; 10];
    /// let mut target = &mut bytes[..];
    /// target.write_all(b"hello")?;
    /// target.iowrite_with(0xdeadbeefu32, BE)?;
    /// assert_eq!(rt; bytes, [0x68, 0x65, 0x6c, 0x6c, 0x6f, 0xde, 0xad, 0xbe, 0xef, 0]);
    /// ```
    final fn iowrite_with<N: SizeWith<Ctx> + IntoCtx<Ctx>>(
        &mut self,
        n: N,
        ctx: Ctx,
    ) -> io::Result<()>
    where
        Self: Sized,
        requires need { N.need ctx ≤ N.size ctx }
        requires size { N.size ctx ≤ 256 }
        ensures appended { OnOk result (AppendsValue (Self.contents self.old)
            (Self.contents self.new) (N.size ctx) (N.overwrites ctx n (replicate (N.size ctx) 0))) }
    {
        let size = N::size_with(&ctx);
        if size <= SMALL {
            let mut scratch = [0u8; SMALL];
            return write_value(self, n, &mut scratch[..size], ctx);
        }
        write_large(self, n, ctx)
    }
}

impl<Ctx: Copy, W: Write> IOwrite<Ctx> for W {}

// Appends a value of any size, with room as that of `read_large`.
fn write_large<W: Write, Ctx: Copy, N: SizeWith<Ctx> + IntoCtx<Ctx>>(
    writer: &mut W,
    n: N,
    ctx: Ctx,
) -> io::Result<()>
    requires need { N.need ctx ≤ N.size ctx }
    requires size { N.size ctx ≤ 256 }
    ensures appended { OnOk result (AppendsValue (W.contents writer.old)
        (W.contents writer.new) (N.size ctx) (N.overwrites ctx n (replicate (N.size ctx) 0))) }
{
    let size = N::size_with(&ctx);
    let mut scratch = [0u8; 256];
    write_value(writer, n, &mut scratch[..size], ctx)
}

// Writes the value over the zeros in `scratch`, and appends all bytes of `scratch`.
#[inline(always)]
fn write_value<W: Write, Ctx: Copy, N: IntoCtx<Ctx>>(
    writer: &mut W,
    n: N,
    scratch: &mut [u8],
    ctx: Ctx,
) -> io::Result<()>
    requires need { N.need ctx ≤ length scratch.old }
    ensures appended { OnOk result (AppendsValue (W.contents writer.old)
        (W.contents writer.new) (length scratch.old) (N.overwrites ctx n scratch.old)) }
{
    n.into_ctx(scratch, ctx);
    append(writer, scratch)
}

// Does what `write_all` does. Its first write is made here, since it mostly is the last.
#[inline(always)]
fn append<W: Write>(writer: &mut W, bytes: &[u8]) -> io::Result<()>
    ensures bytes { OnOk result
        (Appends (W.contents writer.old) (W.contents writer.new) bytes.now) }
{
    if bytes.is_empty() {
        return Ok(());
    }
    match writer.write(bytes) {
        Ok(count) if count == bytes.len() => Ok(()),
        Ok(0) => {
            // (the error of a writer without room, with its message; its contract doesn't say that
            // it fails)
            [].as_mut_slice().write_all(bytes)?;
            Err(io::Error::from(ErrorKind::WriteZero))
        }
        Ok(count) => writer.write_all(&bytes[count..]),
        Err(error) if error.kind() == ErrorKind::Interrupted => writer.write_all(bytes),
        Err(error) => Err(error),
    }
}
