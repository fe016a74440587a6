// The header.
ghost use Rattle.std.specs.Prelude.{◌≡◌};
ghost use Rattle.std.proofs.Common.{rules};
ghost use Rattle.object_files.specs.Headers.{header_of, ReadsHeader, RefusesHeader};

use crate::error::ElfError;
use scroll::ctx::{FromCtx, TryFromCtx};
use scroll::{BE, Cread, Endian, LE, check_room};

/// The header of a file, with the format's name for each field.
#[derive(Clone, Copy, Debug)]
pub struct Header {
    /// The byte order of the file's numbers, `e_ident[EI_DATA]`.
    pub order: Endian,
    /// `e_ident[EI_OSABI]`.
    pub system: u8,
    /// `e_type`.
    pub kind: u16,
    /// `e_machine`.
    pub machine: u16,
    /// `e_version`.
    pub version: u32,
    /// `e_entry`.
    pub entry: u64,
    /// `e_phoff`.
    pub segments_offset: u64,
    /// `e_shoff`.
    pub sections_offset: u64,
    /// `e_flags`.
    pub flags: u32,
    /// `e_ehsize`.
    pub header_size: u16,
    /// `e_phentsize`.
    pub segment_size: u16,
    /// `e_phnum`.
    pub segment_count: u16,
    /// `e_shentsize`.
    pub section_size: u16,
    /// `e_shnum`.
    pub section_count: u16,
    /// `e_shstrndx`.
    pub names_index: u16,
}

const SIZE: usize = 64;

const MAGIC: u32 = 0x7f45_4c46;

const CLASS_64: u8 = 2;

const CURRENT: u8 = 1;

/// Reads the header of a file whose byte order is known.
impl FromCtx<Endian> for Header {
    ghost need = { λ _. 64 };

    ghost makes = { λ order file header. header ≡ header_of order file };

    fn from_ctx(this: &[u8], ctx: Endian) -> Header {
        Header {
            order: ctx,
            system: this.cread_with(7, ctx),
            kind: this.cread_with(16, ctx),
            machine: this.cread_with(18, ctx),
            version: this.cread_with(20, ctx),
            entry: this.cread_with(24, ctx),
            segments_offset: this.cread_with(32, ctx),
            sections_offset: this.cread_with(40, ctx),
            flags: this.cread_with(48, ctx),
            header_size: this.cread_with(52, ctx),
            segment_size: this.cread_with(54, ctx),
            segment_count: this.cread_with(56, ctx),
            section_size: this.cread_with(58, ctx),
            section_count: this.cread_with(60, ctx),
            names_index: this.cread_with(62, ctx),
        }
    }
}

/// Reads the header of a file, in the byte order that the file names.
///
/// The errors, in the order of the tests: [`ElfError::Refused`] with a `TooBig` for fewer than 64
/// bytes, [`ElfError::BadMagic`], [`ElfError::BadClass`], [`ElfError::BadOrder`] and
/// [`ElfError::BadVersion`]. No other byte of a header is tested.
impl<'a> TryFromCtx<'a, ()> for Header {
    type Error = ElfError;

    ghost reads = { λ _. ReadsHeader };

    ghost refuses = { λ _. RefusesHeader };

    ghost reads_bounded = { λ _ file header n h. Prim.search rules };

    #[tactic(auto, unfolding(scroll::specs::Numbers::number))]
    fn try_from_ctx(from: &'a [u8], _ctx: ()) -> Result<(Header, usize), ElfError> {
        check_room(SIZE, from.len())?;
        let magic: u32 = from.cread_with(0, BE);
        if magic != MAGIC {
            return Err(ElfError::BadMagic(magic));
        }
        if from[4] != CLASS_64 {
            return Err(ElfError::BadClass(from[4]));
        }
        let order = match from[5] {
            1 => LE,
            2 => BE,
            other => return Err(ElfError::BadOrder(other)),
        };
        if from[6] != CURRENT {
            return Err(ElfError::BadVersion(from[6]));
        }
        Ok((Header::from_ctx(from, order), SIZE))
    }
}
