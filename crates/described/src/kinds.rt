// What is copied of each kind.
use dns::{read_message, write_message};
use gzip::{read_header as read_member, write_header as write_member};
use scroll::{BE, Error, LE};
use tar::{octal, read_header as read_entry, write_header as write_entry};
use tls::{read_hello, server_name, write_hello};
use wasm::{read_module, write_module};

/// A kind of values that stand one after another.
pub trait Copies {
    /// Reads the value at the start of `from`, and writes it to the start of `to`. Returns its size
    /// and a number of what was found in it, or `None` where it is refused.
    fn copy(from: &[u8], to: &mut [u8]) -> Option<(usize, u64)>;
}

/// Reads and writes all values of a kind, and returns a digest of what was found in them, or `None`
/// where one is refused.
pub fn copy_all<K: Copies>(from: &[u8], to: &mut [u8]) -> Option<u64> {
    let mut at: usize = 0;
    let mut digest: u64 = 0;
    for _ in 0..from.len() {
        let rest = from.get(at..)?;
        if rest.is_empty() {
            break;
        }
        let (size, found) = K::copy(rest, to.get_mut(at..)?)?;
        at = at.saturating_add(size);
        digest = digest.rotate_left(1) ^ found;
    }
    Some(digest)
}

/// First messages of TLS.
pub struct Hellos;

impl Copies for Hellos {
    fn copy(from: &[u8], to: &mut [u8]) -> Option<(usize, u64)> {
        let message = read_hello(from).ok()?;
        let name = server_name(&message.hello).unwrap_or("");
        let found = u64::from(message.hello.suites_len).wrapping_add(name.len() as u64);
        let size = write_hello(to, message).ok()?;
        Some((size, found))
    }
}

/// Messages of DNS.
pub struct Answers;

impl Copies for Answers {
    fn copy(from: &[u8], to: &mut [u8]) -> Option<(usize, u64)> {
        let message = read_message(from).ok()?;
        let mut found = u64::from(message.header.id);
        for record in message.records.values() {
            found = found.wrapping_add(u64::from(record.time));
        }
        let size = write_message(to, message).ok()?;
        Some((size, found))
    }
}

/// Modules of WebAssembly: one, since its sections end where the file does.
pub struct Modules;

impl Copies for Modules {
    fn copy(from: &[u8], to: &mut [u8]) -> Option<(usize, u64)> {
        let module = read_module(from).ok()?;
        let mut found: u64 = 0;
        for section in module.sections.values() {
            found = found.wrapping_add(section.size.value);
        }
        let size = write_module(to, module).ok()?;
        Some((size, found))
    }
}

/// Headers of gzip's members.
pub struct Members;

impl Copies for Members {
    fn copy(from: &[u8], to: &mut [u8]) -> Option<(usize, u64)> {
        let header = read_member(from, &mut 0).ok()?;
        let mut found = u64::from(header.flags);
        if let Some(name) = header.name {
            found = found.wrapping_add(name.to_bytes().len() as u64);
        }
        let size = write_member(to, &mut 0, header).ok()?;
        Some((size, found))
    }
}

/// Headers of tar's entries.
pub struct Entries;

impl Copies for Entries {
    fn copy(from: &[u8], to: &mut [u8]) -> Option<(usize, u64)> {
        let header = read_entry(from, &mut 0).ok()?;
        let found = octal(&header.size)?.wrapping_add(octal(&header.modified)?);
        let size = write_entry(to, &mut 0, header).ok()?;
        Some((size, found))
    }
}
