//! Logs of records that begin with their lengths, in either byte order.
//!
//! A record is a length in two bytes, followed by that many bytes: a name, the zero that ends it,
//! and a body, such as an interface and a packet that came in there. The records follow one another
//! to the end of the log. A name whose zero isn't in the bytes of its own record is refused. The
//! error of a log, [`At`], says where the record starts that failed.
//!
//! ```rust
//! let records = read_records(rt.alloc(), &bytes, LE)?;
//! let size = write_records(&mut out, &records, BE)?;
//! let first: Record = bytes.pread_with(0, LE)?;
//! ```
ghost use Rattle.std.specs.Prelude.{◌≡◌, length, take, IfOk, IfErr};
ghost use Rattle.scroll.specs.Reads.{ReadsAll};
ghost use Rattle.packets.specs.Logs.{IsLog, ReadsRecord, RefusesLog, WritesLog, FailsLog, log_bytes};

mod derived;

use scroll::{Endian, Error};
use scroll_formats::{At, read_to_end, write_many_kept};
use scroll_layouts::ReadPart;
use std::alloc::Global;
use std::result::Result;

/// A record.
// #[derive(Pread, Pwrite, Kept)]
#[derive(Clone, Copy, Debug)]
pub struct Record<'a> {
    /// How many bytes follow.
    pub len: u16,
    // #[scroll(ctx = StrCtx::Required(0))]
    pub name: &'a str,
    // #[scroll(ctx = len as usize - name.len() - 1)]
    pub body: &'a [u8],
}

/// Reads the records of a whole log, in order.
#[tactic(auto, using(scroll_layouts::specs::lemmas::EachLemmas::list_written_back, scroll_layouts::specs::lemmas::EachLemmas::list_read_back))]
pub fn read_records<'a>(
    alloc: Global,
    log: &'a [u8],
    order: Endian,
) -> Result<Vec<Record<'a>>, At<Error>>
    ensures read { IfOk result (λ records. IsLog
        (⟦<Record<'a> as ReadPart<'a, (), Error>>⟧.format tt) order log.now records.items) }
    ensures fields { IfOk result (λ records. ReadsAll (ReadsRecord order) log.now 0 records.items
        (length log.now)) }
    ensures back { IfOk result (λ records. log_bytes
        (⟦<Record<'a> as ReadPart<'a, (), Error>>⟧.format tt) order records.items ≡ log.now) }
    ensures refused { IfErr result (RefusesLog (⟦<Record<'a> as ReadPart<'a, (), Error>>⟧.format tt)
        order log.now) }
{
    read_to_end(alloc, log, &mut 0, order)
}

/// Writes records one after another from the start of `target`, and returns their size in bytes. On
/// an error the records before the one that failed are written, and the bytes after them are
/// unchanged.
pub fn write_records<'a>(
    target: &mut [u8],
    records: &[Record<'a>],
    order: Endian,
) -> Result<usize, At<Error>>
    ensures wrote { IfOk result (WritesLog (⟦<Record<'a> as ReadPart<'a, (), Error>>⟧.format tt)
        order records.now target.old target.new) }
    ensures again { IfOk result (λ n. IsLog (⟦<Record<'a> as ReadPart<'a, (), Error>>⟧.format tt)
        order (take n target.new) records.now) }
    ensures refused { IfErr result (FailsLog (⟦<Record<'a> as ReadPart<'a, (), Error>>⟧.format tt)
        order records.now target.old target.new) }
{
    let mut offset = 0;
    write_many_kept(target, records, &mut offset, order)?;
    Ok(offset)
}
