// Whether values fit in memory.
ghost use Rattle.std.specs.Prelude.{IsTrue};
ghost use Rattle.std.specs.Mem.{FitsInMemory};
ghost use Rattle.scroll.specs.Arrays.{OptionFits, SlotsFit, ItemsFit, HoldersFit};

use arrayvec::ArrayVec;
use std::{array, mem};

// Whether a value of type `X` fits in memory, as every value that exists does.
pub(crate) fn fits<X>() -> bool
    ensures fits { IsTrue result → FitsInMemory X.row }
    ensures small { OptionFits X.row → IsTrue result }
    ensures only { IsTrue result → OptionFits X.row }
{
    let none: Option<X> = None;
    let small = mem::size_of_val(&none) <= isize::MAX as usize;
    match none {
        None => small,
        Some(_x) => unreachable!(),
    }
}

/// Returns whether an array of `N` values of type `T` fits in memory, together with the storage for
/// its elements while it is read or written. It does wherever such an array exists, and the
/// compiler knows the result.
///
/// The contracts of arrays state their errors under this condition: a caller that is generic over
/// `T` or `N` may test it, or require it of its own caller. For a concrete type the prover knows
/// that it holds.
pub fn array_fits<T, const N: usize>() -> bool
    ensures read { IsTrue result → SlotsFit T.row N.row }
    ensures written { IsTrue result → ItemsFit T.row N.row }
    ensures found { HoldersFit T.row N.row → IsTrue result }
{
    fits::<Option<ArrayVec<Option<T>, N>>>() && fits::<Option<array::IntoIter<T, N>>>()
}
