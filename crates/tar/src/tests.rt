// An entry of Python's `tarfile`, put together from the fields that aren't zero:
//
//     info = tarfile.TarInfo("a.txt"); info.size = 6; info.mtime = 10**9
//     tarfile.open(fileobj=made, mode="w", format=tarfile.USTAR_FORMAT).addfile(info, io.BytesIO(b"hello\n"))
use super::*;
use scroll::Error;

fn made() -> [u8; 1024] {
    let mut bytes = [0; 1024];
    bytes[..5].copy_from_slice(b"a.txt");
    bytes[100..108].copy_from_slice(b"0000644\0");
    bytes[108..116].copy_from_slice(b"0000000\0");
    bytes[116..124].copy_from_slice(b"0000000\0");
    bytes[124..136].copy_from_slice(b"00000000006\0");
    bytes[136..148].copy_from_slice(b"07346545000\0");
    bytes[148..157].copy_from_slice(b"006764\0 0");
    bytes[257..265].copy_from_slice(b"ustar\x0000");
    bytes[512..518].copy_from_slice(b"hello\n");
    bytes
}

#[test]
fn a_header_is_read_and_written(rt: HostRuntime) {
    let (bytes, mut offset) = (made(), 0);
    let header = read_header(&bytes, &mut offset).expect(&rt, "a header");
    assert!(rt; offset == 512 && header.kind == b'0' && octal(&header.size) == Some(6));
    assert!(rt; octal(&header.mode) == Some(0o644));
    assert!(rt; octal(&header.modified) == Some(1_000_000_000));
    let (mut target, mut at) = ([0xff; 513], 0);
    let size = write_header(&mut target, &mut at, header).expect(&rt, "room");
    assert!(rt; size == 512 && at == 512 && target[..512] == bytes[..512] && target[512] == 0xff);
}

#[test]
fn numbers_that_are_none(rt: HostRuntime) {
    for field in &[
        b"".as_slice(),
        b"\0",
        b" 7",
        b"8",
        b"+7",
        b"\x80\0\0\0\0\0\0\x07",
    ] {
        assert!(rt; octal(field).is_none());
    }
}

#[test]
fn what_is_refused(rt: HostRuntime) {
    let mut bytes = made();
    assert!(rt; matches!(read_header(b"ustar", &mut 0), Err(Error::TooBig { .. })));
    bytes[257] = b'U';
    assert!(rt; matches!(read_header(&bytes, &mut 0), Err(Error::BadInput { .. })));
    bytes[257] = b'u';
    let mut header = read_header(&bytes, &mut 0).expect(&rt, "a header");
    header.name = b"a.txt";
    let (mut target, mut at) = ([0xff; 512], 0);
    let written = write_header(&mut target, &mut at, header);
    assert!(rt;
        matches!(
            written,
            Err(Error::BadInput {
                size: 5,
                msg: "another length than its count"
            })
        )
    );
    assert!(rt; at == 0 && target == [0xff; 512]);
}
