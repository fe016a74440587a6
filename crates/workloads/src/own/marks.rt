// Texts with marks: four letters that are others in each round.
use crate::inputs::{Random, low8, push_letters};
use std::alloc::{AllocError, Global};

/// Bytes in the making, and the places of the marks in them.
#[derive(Drop)]
pub struct Marked {
    pub bytes: Vec<u8>,
    places: Vec<usize>,
}

impl Marked {
    /// Returns no bytes.
    pub fn new(alloc: Global) -> Marked {
        Marked {
            bytes: Vec::new(alloc),
            places: Vec::new(alloc),
        }
    }

    /// Appends a mark of `N` bytes.
    pub fn push_mark<const N: usize>(&mut self, mark: [u8; N]) -> Result<(), AllocError> {
        self.places.push(self.bytes.len())?;
        self.bytes.extend_from_slice(&mark)?;
        Ok(())
    }

    /// Appends so many ASCII letters, of which the last four are a mark.
    pub fn push_text(&mut self, random: &mut Random, letters: u64) -> Result<(), AllocError> {
        push_letters(&mut self.bytes, random, letters.saturating_sub(4))?;
        self.push_mark(ascii_mark(0))
    }

    /// Writes another mark over each.
    pub fn mark<const N: usize>(&mut self, mark: [u8; N]) {
        for place in &self.places {
            let behind = self.bytes.as_mut_slice().get_mut(*place..);
            if let Some(old) = behind.and_then(|behind| behind.first_chunk_mut()) {
                *old = mark;
            }
        }
    }
}

/// Returns the four digits of the number of a round, the lowest first. No two of 65,536 rounds have
/// the same.
pub fn digits(round: u64) -> [u8; 4] {
    [
        low8(round & 0xf),
        low8(round >> 4 & 0xf),
        low8(round >> 8 & 0xf),
        low8(round >> 12 & 0xf),
    ]
}

/// Returns the digits of the number of a round as ASCII letters.
pub fn ascii_mark(round: u64) -> [u8; 4] {
    let [first, second, third, fourth] = digits(round);
    [b'a' | first, b'a' | second, b'a' | third, b'a' | fourth]
}
