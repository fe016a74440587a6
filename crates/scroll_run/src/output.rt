//! Writes of the output.
ghost use Rattle.std.specs.Prelude.{◌≡◌, ◌≢◌, OnOk, OnErr, IfErr};
ghost use Rattle.std.specs.Io.KnownBytes.{Appends, Keeps};
ghost use Rattle.std.specs.IoError.{error_kind};
ghost use Rattle.scroll_run.specs.Output.{AppendsPrefix};

use std::io;
use std::io::{ErrorKind, Write};

// The maximum number of calls of the writer beyond one per byte, and the maximum number of flushes.
const MORE_CALLS: usize = 131_072;

/// Writes all bytes, and flushes the writer.
///
/// An interrupted call of the writer is repeated. After too many calls, it returns an error of kind
/// `Other`.
pub fn write_output<W: Write>(output: &mut W, bytes: &[u8]) -> io::Result<()>
    ensures written { OnOk result (Appends (W.contents output.old)
        (W.contents output.new) bytes.now) }
    ensures prefix { AppendsPrefix (W.contents output.old) (W.contents output.new) bytes.now }
    ensures not_interrupted { IfErr result (λ e. error_kind e ≢ ErrorKind.Interrupted) }
{
    write_all(output, bytes)?;
    flush(output)
}

fn write_all<W: Write>(output: &mut W, bytes: &[u8]) -> io::Result<()>
    ensures written { OnOk result (Appends (W.contents output.old)
        (W.contents output.new) bytes.now) }
    ensures prefix { AppendsPrefix (W.contents output.old) (W.contents output.new) bytes.now }
    ensures not_interrupted { IfErr result (λ e. error_kind e ≢ ErrorKind.Interrupted) }
{
    let mut rest = bytes;
    for _ in 0..bytes.len().saturating_add(MORE_CALLS) {
        if rest.is_empty() {
            return Ok(());
        }
        match output.write(rest) {
            Ok(0) => return Err(io::Error::from(ErrorKind::WriteZero)),
            Ok(count) => rest = &rest[count..],
            Err(e) if e.kind() == ErrorKind::Interrupted => {}
            Err(e) => return Err(e),
        }
    }
    if rest.is_empty() {
        return Ok(());
    }
    Err(io::Error::from(ErrorKind::Other))
}

// Flushes the writer.
fn flush<W: Write>(output: &mut W) -> io::Result<()>
    ensures kept { Keeps (W.contents output.old) (W.contents output.new) }
    ensures not_interrupted { IfErr result (λ e. error_kind e ≢ ErrorKind.Interrupted) }
{
    for _ in 0..MORE_CALLS {
        match output.flush() {
            Ok(()) => return Ok(()),
            Err(e) if e.kind() == ErrorKind::Interrupted => {}
            Err(e) => return Err(e),
        }
    }
    Err(io::Error::from(ErrorKind::Other))
}
