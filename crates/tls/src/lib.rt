//! The first message of a TLS client, the ClientHello (RFC 8446, section 4.1.2), as it stands in a
//! record of the handshake: read, written, and looked into. [`Handshake`] describes it.
//!
//! ```rust
//! let message = read_hello(bytes)?;
//! let name = server_name(&message.hello);
//! let size = write_hello(&mut target, message)?;
//! ```
#![tactic(auto)]

ghost use Rattle.std.specs.Prelude.{◌≡◌, ◌<◌, ◌+◌, take, drop, IfOk, IfErr, IfSome, IfNone};
ghost use Rattle.std.specs.List.{All};
ghost use Rattle.std.specs.Option.{IsSomeAnd};
ghost use Rattle.scroll.specs.Errors.{IsBadOffset};
ghost use Rattle.scroll.specs.Numbers.{number};
ghost use Rattle.scroll.specs.Reads.{ReadsSome, RefusesAt};
ghost use Rattle.scroll.specs.Writes.{WritesAt, RefusesWriteAt};
ghost use Rattle.scroll.specs.declared.endian.Endian.TheVariants.{Big};
ghost use Rattle.tls.specs.Hello.{HasServer, HasNoServer, FirstServer, NoServer};

mod hello;
#[cfg(test)]
mod tests;

pub use crate::hello::{
    ClientHello, Extension, ExtensionBody, ExtensionList, Extensions, Handshake, HostName,
    LongList, Protocol, ProtocolList, Protocols, ServerNames, ShortList,
};
use scroll::ctx::{TryFromCtx, TryIntoCtx};
use scroll::{BE, Endian, Error, Pread, Result, slice};
use scroll_layouts::{Items, ReadPart};

/// Reads the message at the start of some bytes. These are the bytes by which it is written; what
/// stands behind them is ignored.
pub fn read_hello<'a>(bytes: &'a [u8]) -> Result<Handshake<'a>>
    ensures read { IfOk result (ReadsSome (⟦<Handshake<'a> as TryFromCtx<'a, Endian>>⟧.reads Big)
        bytes.now 0) }
    ensures len { IfOk result (λ x. x.len ≡ number Big 3 (drop 1 bytes.now)) }
    ensures version { IfOk result (λ x. x.hello.version ≡ number Big 2 (drop 4 bytes.now)) }
    ensures session_len { IfOk result (λ x. x.hello.session_len ≡ number Big 1 (drop 38 bytes.now)) }
    ensures session { IfOk result (λ x. x.hello.session.now
        ≡ take x.hello.session_len (drop 39 bytes.now)) }
    ensures suites_len { IfOk result (λ x. x.hello.suites_len
        ≡ number Big 2 (drop (39 + x.hello.session_len) bytes.now)) }
    ensures refused { IfErr result (RefusesAt
        (⟦<Handshake<'a> as TryFromCtx<'a, Endian>>⟧.refuses Big) IsBadOffset bytes.now 0) }
{
    let message: Handshake<'a> = bytes.pread_with(0, BE)?;
    Ok(message)
}

/// Writes a message to the start of `target`, and returns its size in bytes. It reads back, whatever
/// stands behind it. A message whose lengths, constants or kinds don't agree is refused, and one that
/// has no room; then the target is unchanged.
pub fn write_hello<'a>(target: &mut [u8], message: Handshake<'a>) -> Result<usize>
    ensures wrote { IfOk result (WritesAt
        (⟦<Handshake<'a> as TryIntoCtx<Endian>>⟧.writes Big message.entry) target.old 0 target.new) }
    ensures refused { IfErr result (RefusesWriteAt
        (⟦<Handshake<'a> as TryIntoCtx<Endian>>⟧.refuses Big message.entry) IsBadOffset target.old 0
        target.new) }
{
    let size = slice::pwrite_with(target, message, 0, BE)?;
    Ok(size)
}

/// Returns the name of the server that a ClientHello asks for: the name in the first extension that
/// has one, or `None` if no extension has one.
pub fn server_name<'a>(hello: &ClientHello<'a>) -> Option<&'a str>
    ensures some { IfSome result (λ name. IsSomeAnd hello.now.extensions (λ list. FirstServer
        (⟦<Extension<'a> as ReadPart<'a, (), Error>>⟧.format tt) list.each.order
        list.each.bytes.now name.now)) }
    ensures none { IfNone result (IfSome hello.now.extensions (λ list. NoServer
        (⟦<Extension<'a> as ReadPart<'a, (), Error>>⟧.format tt) list.each.order
        list.each.bytes.now)) }
{
    match hello.extensions {
        Some(list) => first_server(&list.each),
        None => None,
    }
}

// Returns the name in the first extension that has one.
fn first_server<'a>(list: &Items<'a, Extensions>) -> Option<&'a str>
    ensures some { IfSome result (λ name. FirstServer
        (⟦<Extension<'a> as ReadPart<'a, (), Error>>⟧.format tt) list.now.order
        list.now.bytes.now name.now) }
    ensures none { IfNone result (NoServer
        (⟦<Extension<'a> as ReadPart<'a, (), Error>>⟧.format tt) list.now.order
        list.now.bytes.now) }
{
    below(list.bytes);
    let mut values = list.values();
    while let Some(extension) = values.next() {
        if let Some(name) = server_of(&extension) {
            return Some(name);
        }
    }
    None
}

// Does nothing, and says that bytes are below 256.
fn below(bytes: &[u8])
    ensures { All (λ b. b < 256) bytes.now }
{}

// Returns the name of a server, if an extension has it.
fn server_of<'a>(extension: &Extension<'a>) -> Option<&'a str>
    ensures some { IfSome result (λ name. HasServer extension.now name.now) }
    ensures none { IfNone result (HasNoServer extension.now) }
{
    match extension.body {
        ExtensionBody::Server(names) => Some(names.host.name),
        _ => None,
    }
}
