// The header of an index.
mod derived;

/// The header: the signature `DIRC`, the version and the number of entries.
// #[derive(Pread, Pwrite)]
#[derive(Clone, Copy, Debug)]
pub struct Header {
    pub signature: u32,
    pub version: u32,
    pub count: u32,
}
