// What a value leaves, byte orders, and numbers of three bytes, on bytes that Python's `struct` and
// `int.to_bytes` made.
use crate::tests::results::{check_eq, check_error};
use crate::{Behind, Ordered, Packed, Run, U24, read_whole, write_whole};
use scroll::{BE, Error, LE, Result};
use std::marker::PhantomData;
use std::result;
use std::test::Fail;

#[test]
fn what_a_value_leaves(rt: HostRuntime) -> result::Result<(), Fail> {
    let bytes: [u8; 6] = [1, 2, 3, 4, 5, 6];
    let ((Run(head), rest), size) = read_whole::<Behind<()>, Error, (Run<u16>, &[u8])>(
        &bytes,
        BE,
        &Behind(5, ()),
    )?;
    check_eq(&rt, (head, rest, size), (0x0102, &bytes[2..5], 5));
    let ((_, last), size) = read_whole::<Behind<()>, Error, (Run<u16>, Option<Run<u32>>)>(
        &bytes,
        BE,
        &Behind(6, ()),
    )?;
    check_eq(&rt, size, 6);
    check_eq(&rt, matches!(&last, Some(Run(0x0304_0506))), true);
    let ((_, last), size) = read_whole::<Behind<()>, Error, (Run<u16>, Option<Run<u32>>)>(
        &bytes,
        BE,
        &Behind(2, ()),
    )?;
    check_eq(&rt, size, 2);
    check_eq(&rt, last.is_none(), true);
    let long: Result<((Run<u16>, &[u8]), usize)> = read_whole(&bytes, BE, &Behind(1, ()));
    check_error(&rt, long, ("more bytes than its part", 2, 0));
    let fewer: Result<((Run<u16>, Option<Run<u32>>), usize)> = read_whole(
        &bytes,
        BE,
        &Behind(5, ()),
    );
    check_error(&rt, fewer, ("TooBig", 4, 3));
    let more: Result<((Run<u8>, Option<Run<u32>>), usize)> = read_whole(&bytes, BE, &Behind(6, ()));
    check_error(&rt, more, ("fewer bytes than its part", 4, 0));
    let mut target = [0; 6];
    let rest: &[u8] = &[7; 3];
    let wrote = write_whole::<Behind<()>, Error, _>(
        &(Run(0x0102u16), rest),
        &mut target,
        BE,
        &Behind(4, ()),
    );
    check_error(&rt, wrote, ("another length than its count", 3, 0));
    check_eq(&rt, target, [0; 6]);
    Ok(())
}

#[test]
fn a_byte_order_of_ones_own(rt: HostRuntime) -> result::Result<(), Fail> {
    let bytes: [u8; 4] = [1, 2, 1, 2];
    let ((Run(big), Run(other)), _) = read_whole::<(Ordered<()>, ()), Error, (Run<u16>, Run<u16>)>(
        &bytes,
        LE,
        &(Ordered(BE, ()), ()),
    )?;
    check_eq(&rt, (big, other), (0x0102, 0x0201));
    Ok(())
}

#[test]
fn numbers_of_three_bytes(rt: HostRuntime) -> result::Result<(), Fail> {
    for (order, wanted) in [(LE, 0x03_02_01), (BE, 0x01_02_03)] {
        let bytes: [u8; 3] = [1, 2, 3];
        let ctx = Packed::<U24, ()>(PhantomData, ());
        let (number, _) = read_whole::<Packed<U24, ()>, Error, u32>(&bytes, order, &ctx)?;
        check_eq(&rt, number, wanted);
        let mut target = [0; 3];
        write_whole::<Packed<U24, ()>, Error, u32>(&wanted, &mut target, order, &ctx)?;
        check_eq(&rt, target, bytes);
        let large = write_whole::<Packed<U24, ()>, Error, u32>(
            &(1 << 24),
            &mut target,
            order,
            &ctx,
        );
        check_error(&rt, large, ("a field has more bits", 16_777_216, 0));
    }
    Ok(())
}
