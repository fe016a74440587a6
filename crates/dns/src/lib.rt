//! DNS messages ([RFC 1035](https://www.rfc-editor.org/rfc/rfc1035), section 4): the header with its
//! bits, questions, and records with their data by their kinds. A name that goes on elsewhere stays
//! as it stands: [`pointer`] says where.
//!
//! ```rust
//! let message = read_message(bytes)?;
//! let size = write_message(&mut target, message)?;
//! ```
#![tactic(auto)]

ghost use Rattle.std.specs.Prelude.{◌≡◌, ◌<◌, ◌+◌, length, take, drop, IfOk, IfErr, IfSome, IfNone};
ghost use Rattle.std.specs.List.{All};
ghost use Rattle.scroll.specs.Errors.{IsBadOffset};
ghost use Rattle.scroll.specs.Numbers.{number};
ghost use Rattle.scroll.specs.Reads.{ReadsSome, RefusesAt};
ghost use Rattle.scroll.specs.Writes.{WritesAt, RefusesWriteAt};
ghost use Rattle.scroll.specs.declared.endian.Endian.TheVariants.{Big};
ghost use Rattle.dns.specs.Messages.{PointsTo, EndsWithZero};

mod message;
#[cfg(test)]
mod tests;

pub use crate::message::{
    Address, Data, Header, Label, Labels, LongAddress, Mail, Message, Name, Question, Questions,
    Resource, Resources, Text, Texts,
};
use scroll::ctx::{TryFromCtx, TryIntoCtx};
use scroll::{BE, Cread, Endian, Error, Pread, Result, slice};
use scroll_layouts::ReadPart;

/// Reads the message at the start of some bytes. These are the bytes by which it is written; what
/// stands behind them is ignored.
pub fn read_message<'a>(bytes: &'a [u8]) -> Result<Message<'a>>
    ensures read { IfOk result (ReadsSome (⟦<Message<'a> as TryFromCtx<'a, Endian>>⟧.reads Big)
        bytes.now 0) }
    ensures id { IfOk result (λ x. x.header.id ≡ number Big 2 bytes.now) }
    ensures question_count { IfOk result (λ x. x.header.questions
        ≡ number Big 2 (drop 4 bytes.now)) }
    ensures answer_count { IfOk result (λ x. x.header.answers ≡ number Big 2 (drop 6 bytes.now)) }
    ensures questions { IfOk result (λ x. x.questions.bytes.now
        ≡ take (length x.questions.bytes.now) (drop 12 bytes.now)) }
    ensures records { IfOk result (λ x. x.records.bytes.now ≡ take (length x.records.bytes.now)
        (drop (12 + length x.questions.bytes.now) bytes.now)) }
    ensures refused { IfErr result (RefusesAt
        (⟦<Message<'a> as TryFromCtx<'a, Endian>>⟧.refuses Big) IsBadOffset bytes.now 0) }
{
    let message: Message<'a> = bytes.pread_with(0, BE)?;
    Ok(message)
}

/// Writes a message to the start of `target`, and returns its size in bytes. It reads back, whatever
/// stands behind it. A message whose counts, lengths or kinds don't agree is refused, and one that
/// has no room; then the target is unchanged.
pub fn write_message<'a>(target: &mut [u8], message: Message<'a>) -> Result<usize>
    ensures wrote { IfOk result (WritesAt
        (⟦<Message<'a> as TryIntoCtx<Endian>>⟧.writes Big message.entry) target.old 0 target.new) }
    ensures refused { IfErr result (RefusesWriteAt
        (⟦<Message<'a> as TryIntoCtx<Endian>>⟧.refuses Big message.entry) IsBadOffset target.old 0
        target.new) }
{
    let size = slice::pwrite_with(target, message, 0, BE)?;
    Ok(size)
}

/// Returns the offset in the message at which a name goes on if a pointer stands behind its labels,
/// or `None` if a zero byte does.
pub fn pointer<'a>(name: &Name<'a>) -> Option<u16>
    ensures some { IfSome result (PointsTo (⟦<Label<'a> as ReadPart<'a, (), Error>>⟧.format tt)
        name.now.labels.order name.now.labels.bytes.now) }
    ensures none { IfNone result (EndsWithZero (⟦<Label<'a> as ReadPart<'a, (), Error>>⟧.format tt)
        name.now.labels.order name.now.labels.bytes.now) }
{
    below(name.labels.bytes);
    let mut labels = name.labels.values_to_mark();
    while let Some(_label) = labels.next() {}
    if labels.bytes.len() < 2 {
        return None;
    }
    let mark: u16 = labels.bytes.cread_with(0, BE);
    Some(mark - 0xc000)
}

// Does nothing, and says that bytes are below 256.
fn below(bytes: &[u8])
    ensures { All (λ b. b < 256) bytes.now }
{}
