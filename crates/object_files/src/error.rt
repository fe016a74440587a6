// The errors of reads.
ghost use Rattle.std.specs.Prelude.{◌≡◌};
ghost use Rattle.object_files.specs.declared.error.ElfError.TheVariants.{Refused};

use scroll::Error;

/// Why reading a file failed.
#[derive(Debug, Drop)]
pub enum ElfError {
    /// The file doesn't begin with the bytes `7f 45 4c 46`; these are its first four, big-endian.
    BadMagic(u32),
    /// The class of the file, which isn't 64-bit.
    BadClass(u8),
    /// The byte that names the byte order, which is neither 1 nor 2.
    BadOrder(u8),
    /// The version of the identification, byte 6 of the file, which isn't 1.
    BadVersion(u8),
    /// The size of an entry in the table of sections, which isn't 64.
    BadEntrySize(u16),
    /// There is a table of sections, and the header doesn't say how many entries it has. That is so
    /// for more than 65,279.
    LongTable,
    /// The index of the section with the names, which is past the table.
    BadNames(u16),
    /// A read that failed, mostly because the file is truncated.
    Refused(Error),
}

impl From<Error> for ElfError {
    ghost from_gives = { λ error e. e ≡ Refused error };

    fn from(error: Error) -> ElfError {
        ElfError::Refused(error)
    }
}
