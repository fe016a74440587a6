// Two fields of a header, written in either order.
ghost use Rattle.std.specs.Prelude.{◌≡◌, ◌≤◌, ◌+◌};

use scroll::{LE, slice};

/// Writes an entry's size and its two names to two buffers that hold the same bytes: the size first
/// to one, and the names first to the other. A field without room is left out, or written in part;
/// both buffers then hold the same bytes again.
pub fn write_both_ways(
    first: &mut [u8],
    second: &mut [u8],
    size: u32,
    size_at: usize,
    names: [&str; 2],
    names_at: usize,
)
    requires same { first.old ≡ second.old }
    requires apart { size_at + 4 ≤ names_at }
    ensures same { first.new ≡ second.new }
{
    let _ = slice::pwrite_with(first, size, size_at, LE);
    let _ = slice::pwrite_with(first, names, names_at, ());
    let _ = slice::pwrite_with(second, names, names_at, ());
    let _ = slice::pwrite_with(second, size, size_at, LE);
}

#[test]
fn either_order_leaves_the_same_bytes(rt: HostRuntime) {
    use crate::results::check_eq;
    let rt = &rt;
    let mut first = [0xffu8; 8];
    let mut second = [0xffu8; 8];
    write_both_ways(&mut first, &mut second, 258, 0, ["ab", "cde"], 4);
    check_eq(rt, first, [2, 1, 0, 0, b'a', b'b', 0xff, 0xff]);
    check_eq(rt, second, first);
}
