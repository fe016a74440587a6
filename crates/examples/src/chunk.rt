// The header of a chunk, read and written. Nothing here needs a proof file.
ghost use Rattle.std.specs.Prelude.{◌≡◌, ◌+◌, ◌≤◌, ◌++◌, length, drop, IfOk, OnOk, IsOk};
ghost use Rattle.scroll.specs.Numbers.{number, number_bytes};
ghost use Rattle.scroll.specs.declared.endian.Endian.TheVariants.{Big};

use scroll::{BE, Pread, Result, slice};

/// Returns the length in a chunk's header, and advances the offset past the header, which is a kind
/// in 16 bits and a length in 32, both big-endian.
pub fn read_length(file: &[u8], offset: &mut usize) -> Result<u32>
    ensures value { IfOk result (λ len. len ≡ number Big 4 (drop (offset.old + 2) file.now)) }
    ensures moves { OnOk result (offset.new ≡ offset.old + 6) }
    ensures room { offset.old + 6 ≤ length file.now → IsOk result }
{
    let _kind: u16 = file.gread_with(offset, BE)?;
    file.gread_with(offset, BE)
}

/// Writes a chunk's header, and returns its size in bytes.
pub fn write_header(file: &mut [u8], kind: u16, len: u32) -> Result<usize>
    ensures header { OnOk result (file.new ≡ (number_bytes Big 2 kind ++ number_bytes Big 4 len) ++ drop 6 file.old) }
    ensures size { IfOk result (λ size. size ≡ 6) }
    ensures room { 6 ≤ length file.old → IsOk result }
{
    let mut offset = 0;
    slice::gwrite_with(file, kind, &mut offset, BE)?;
    slice::gwrite_with(file, len, &mut offset, BE)?;
    Ok(offset)
}

#[test]
fn a_header_reads_back(rt: HostRuntime) {
    use crate::results::{check_eq, check_too_big, check_value};
    let rt = &rt;
    let mut file = [0xffu8; 7];
    check_value(rt, write_header(&mut file, 3, 258), 6);
    check_eq(rt, file, [0, 3, 0, 0, 1, 2, 0xff]);
    let offset = &mut 0;
    check_value(rt, read_length(&file, offset), 258);
    check_eq(rt, *offset, 6);
    check_too_big(rt, read_length(&file, offset), 2, 1);
    check_eq(rt, *offset, 6);
}
