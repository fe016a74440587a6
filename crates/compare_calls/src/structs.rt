// Structs of numbers and of bytes.
mod derived;

// Numbers of two widths, and an array of them.
// #[derive(Pread, Pwrite)]
#[derive(Clone, Copy)]
pub struct Entry {
    pub id: u32,
    pub time: i64,
    pub parts: [u16; 2],
}

// A number, and bytes.
// #[derive(Pread, Pwrite)]
#[derive(Clone, Copy)]
pub struct Label {
    pub id: u32,
    pub name: [u8; 5],
}

// Floats among other numbers.
// #[derive(Pread, Pwrite)]
#[derive(Clone, Copy)]
pub struct Sample {
    pub kind: u16,
    pub weight: f64,
    pub height: f32,
    pub balance: i128,
    pub count: u64,
    pub last: u8,
}

// A number of 128 bits between others.
// #[derive(Pread, Pwrite)]
#[derive(Clone, Copy)]
pub struct Wide {
    pub flag: i8,
    pub wide: u128,
    pub small: i16,
}
