// A loop over values that follow one another.
ghost use Rattle.std.specs.Prelude.{ℕ, List};
ghost use Rattle.scroll.specs.Errors.{IsBadOffset};
ghost use Rattle.scroll.specs.Leb128.{Counted, ReadsCountedUleb, RefusesUleb};
ghost use Rattle.scroll.specs.Reads.{ReadsAll, RefusesAt};
ghost use Rattle.scroll.specs.declared.error.Error.{Error};

use crate::results::check_eq;
use scroll::{Pread, Uleb128};

/// Returns where the numbers in LEB128 end that a file begins with: the offset of the first that
/// can't be read.
pub fn end_of_numbers(file: &[u8]) -> usize
    ensures read { (numbers : List (Counted ℕ))
        × ReadsAll ReadsCountedUleb file.now 0 numbers result }
    ensures refused { (e : Error) × RefusesAt RefusesUleb IsBadOffset file.now result e }
{
    let mut offset = 0;
    while let Ok(_number) = file.gread_with::<Uleb128>(&mut offset, ()) {}
    offset
}

#[test]
fn numbers_up_to_one_that_is_cut_off(rt: HostRuntime) {
    check_eq(&rt, end_of_numbers(&[1, 0x80, 1, 0x80]), 3);
}
