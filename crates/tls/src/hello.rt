// The message and what is in it, each as it stands in the standard.
mod derived;

use scroll_formats::Table;
use scroll_layouts::Items;

/// A handshake message that is a ClientHello (section 4). Its numbers are in network order.
// #[derive(Pread, Pwrite)]
// #[scroll(order = BE)]
#[derive(Clone, Copy)]
pub struct Handshake<'a> {
    // #[scroll(is = 1)]
    pub kind: u8,
    // #[scroll(bits = 24)]
    pub len: u32,
    // #[scroll(ctx = len as usize)]
    pub hello: ClientHello<'a>,
}

/// A ClientHello (section 4.1.2). One without extensions ends behind the compression methods.
// #[derive(Part)]
// #[scroll(given = len: usize)]
#[derive(Clone, Copy)]
pub struct ClientHello<'a> {
    /// 0x0303 since TLS 1.2; the versions of TLS 1.3 stand in an extension.
    pub version: u16,
    pub random: [u8; 32],
    // #[scroll(check = session_len <= 32)]
    pub session_len: u8,
    // #[scroll(ctx = session_len as usize)]
    pub session: &'a [u8],
    pub suites_len: u16,
    // #[scroll(ctx = suites_len as usize / 2)]
    pub suites: Table<'a, u16>,
    pub compressions_len: u8,
    // #[scroll(ctx = compressions_len as usize)]
    pub compressions: &'a [u8],
    // #[scroll(if = rest)]
    pub extensions: Option<ExtensionList<'a>>,
}

/// The extensions, within their length.
// #[derive(Part)]
#[derive(Clone, Copy)]
pub struct ExtensionList<'a> {
    pub len: u16,
    // #[scroll(ctx = len as usize)]
    pub each: Items<'a, Extensions>,
}

/// Names the list of extensions.
// #[derive(Pread, Pwrite)]
// #[scroll(items = Extension)]
#[derive(Clone, Copy)]
pub struct Extensions;

/// An extension (section 4.2).
// #[derive(Pread, Pwrite)]
#[derive(Clone, Copy)]
pub struct Extension<'a> {
    pub kind: u16,
    pub len: u16,
    // #[scroll(ctx = (kind, len as usize))]
    pub body: ExtensionBody<'a>,
}

/// What an extension says, by its kind.
// #[derive(Part)]
// #[scroll(given = (kind: u16, len: usize))]
#[derive(Clone, Copy)]
pub enum ExtensionBody<'a> {
    // #[scroll(is = 0, within = len)]
    Server(ServerNames<'a>),
    /// The groups for the exchange of keys.
    // #[scroll(is = 10, within = len)]
    Groups(LongList<'a>),
    // #[scroll(is = 16, within = len)]
    Protocols(ProtocolList<'a>),
    // #[scroll(is = 43, within = len)]
    Versions(ShortList<'a>),
    // #[scroll(is = _, ctx = len)]
    Other(&'a [u8]),
}

/// The names of the server (RFC 6066, section 3): a list of one name.
// #[derive(Part)]
#[derive(Clone, Copy)]
pub struct ServerNames<'a> {
    pub len: u16,
    // #[scroll(within = len as usize)]
    pub host: HostName<'a>,
}

/// The name of a host.
// #[derive(Part)]
#[derive(Clone, Copy)]
pub struct HostName<'a> {
    // #[scroll(is = 0)]
    pub kind: u8,
    pub len: u16,
    // #[scroll(ctx = StrCtx::Length(len as usize))]
    pub name: &'a str,
}

/// Numbers behind a length in two bytes (section 4.2.7).
// #[derive(Part)]
#[derive(Clone, Copy)]
pub struct LongList<'a> {
    pub len: u16,
    // #[scroll(ctx = len as usize / 2)]
    pub each: Table<'a, u16>,
}

/// Numbers behind a length in one byte (section 4.2.1).
// #[derive(Part)]
#[derive(Clone, Copy)]
pub struct ShortList<'a> {
    pub len: u8,
    // #[scroll(ctx = len as usize / 2)]
    pub each: Table<'a, u16>,
}

/// The protocols that the client speaks, by preference (RFC 7301, section 3.1).
// #[derive(Part)]
#[derive(Clone, Copy)]
pub struct ProtocolList<'a> {
    pub len: u16,
    // #[scroll(ctx = len as usize)]
    pub each: Items<'a, Protocols>,
}

/// Names the list of protocols.
// #[derive(Pread, Pwrite)]
// #[scroll(items = Protocol)]
#[derive(Clone, Copy)]
pub struct Protocols;

/// A protocol, such as `h2`.
// #[derive(Part)]
#[derive(Clone, Copy)]
pub struct Protocol<'a> {
    // #[scroll(check = len != 0)]
    pub len: u8,
    // #[scroll(ctx = len as usize)]
    pub name: &'a [u8],
}
