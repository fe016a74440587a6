// Records of one's own, of a fixed size.
mod derived;

/// An entry of a list: five bytes.
// #[derive(Pread, Pwrite)]
#[derive(Clone, Copy, Debug)]
pub struct Entry {
    pub kind: u8,
    pub size: u32,
}

/// A slot of a table: twelve bytes.
// #[derive(Pread, Pwrite)]
#[derive(Clone, Copy, Debug)]
pub struct Slot {
    pub key: u16,
    pub flags: u16,
    pub value: u64,
}

/// A sample of a measurement: twenty bytes.
// #[derive(Pread, Pwrite)]
#[derive(Clone, Copy, Debug)]
pub struct Sample {
    pub time: u64,
    pub level: i32,
    pub low: u32,
    pub high: u32,
}
