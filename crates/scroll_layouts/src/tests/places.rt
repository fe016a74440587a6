// Values from outside at offsets, appended, and one after another.
use crate::tests::appends::{appended_contents, appended_name, first_contents};
use crate::tests::calls::{contents_again_at, read_file_at, read_two_files, write_file_at};
use crate::tests::fixed::{foo_again, foo_at, read_foo, read_line, write_foo};
use crate::tests::many::{StoredFiles, listed_contents, second_again};
use crate::tests::results::{check_eq, check_error, check_value};
use crate::tests::stored::{STORED, StoredFile, read_file};
use crate::{Run, Uleb, append_until};
use scroll::{BE, Error, LE};
use scroll_formats::{read_many, read_to_end};
use std::test::Fail;

#[test]
fn files_that_are_appended(rt: HostRuntime) -> Result<(), Fail> {
    let file = read_file(&STORED)?;
    let mut out = Vec::new(rt.alloc());
    check_eq(&rt, appended_contents(&mut out, &file)?, b"hi");
    check_eq(&rt, first_contents(&mut out, file, file)?, b"hi");
    let name = appended_name(&mut out, 9, Uleb::shortest(300), &file)?;
    check_eq(&rt, name, b"a.txt");
    let tag = out.as_slice().get(63..66);
    check_eq(&rt, tag, Some([9, 0xac, 2].as_slice()));
    check_eq(&rt, out.as_slice().get(66..), Some(STORED.as_slice()));
    let (second, third) = read_two_files(out.as_slice(), 21)?;
    check_eq(&rt, (second.name, third.contents), (b"a.txt", b"hi"));
    check_error(&rt, read_file_at(out.as_slice(), 88), ("BadOffset", 88, 0));
    check_error(&rt, read_file_at(out.as_slice(), 76), ("TooBig", 14, 11));
    Ok(())
}

#[test]
fn files_behind_their_number(rt: HostRuntime) -> Result<(), Fail> {
    let file = read_file(&STORED)?;
    let mut target = [7u8; 44];
    check_eq(&rt, listed_contents(&mut target, file, file)?, b"hi");
    let mut short = [7u8; 43];
    check_error(
        &rt,
        listed_contents(&mut short, file, file),
        ("TooBig", 44, 43),
    );
    Ok(())
}

#[test]
fn files_at_an_offset(rt: HostRuntime) -> Result<(), Fail> {
    let file = read_file(&STORED)?;
    let mut target = [7u8; 44];
    let mut at = 1;
    check_value(&rt, write_file_at(&mut target, file, &mut at), 21);
    check_eq(&rt, at, 22);
    check_eq(&rt, target[0], 7);
    check_eq(&rt, &target[1..22], &STORED);
    check_eq(&rt, contents_again_at(&mut target, file, 23)?, b"hi");
    check_error(
        &rt,
        write_file_at(&mut target, file, &mut 24),
        ("TooBig", 21, 20),
    );
    check_error(
        &rt,
        write_file_at(&mut target, file, &mut 45),
        ("BadOffset", 45, 0),
    );
    Ok(())
}

#[test]
fn many_files(rt: HostRuntime) -> Result<(), Fail> {
    let file = read_file(&STORED)?;
    let mut archive = [0u8; 43];
    check_eq(&rt, second_again(&mut archive, file, file)?, b"hi");
    let files: Vec<StoredFile> = read_many(rt.alloc(), &archive, &mut 0, 2, LE)?;
    check_eq(&rt, files.len(), 2);
    let mut offset = 21;
    let last: Vec<StoredFile> = read_to_end(rt.alloc(), &archive[..42], &mut offset, LE)?;
    check_eq(&rt, (last.len(), offset), (1, 42));
    let mut until: Vec<StoredFile> = Vec::new(rt.alloc());
    let list = append_until::<StoredFiles>(&mut until, &archive, &mut 0, LE)?;
    check_eq(&rt, (until.len(), list.bytes.len()), (2, 43));
    Ok(())
}

static FOO: [u8; 12] = [0x0b, 0x0b, 0, 0, 0, 0, 0, 0, 0, 0, 0xbe, 0xef];

static LINE: [u8; 17] = [3, 255, 254, 0, 0, 0, 7, 0, 1, 0, 1, 0, 0, 0, 2, b'h', b'i'];

#[test]
fn values_of_a_fixed_size(rt: HostRuntime) -> Result<(), Fail> {
    let mut source: &[u8] = &FOO;
    let wanted = (0x0b0b_0000_0000_0000, 48879);
    check_eq(&rt, read_foo(&mut source, BE)?.0, wanted);
    check_eq(&rt, source.is_empty(), true);
    check_eq(&rt, read_foo(&mut source, BE).is_err(), true);
    let mut out = Vec::new(rt.alloc());
    write_foo(&mut out, Run(wanted), BE)?;
    check_eq(&rt, out.as_slice(), &FOO);
    check_eq(&rt, foo_at(&FOO, 0, BE).0, wanted);
    let mut target = [7u8; 13];
    check_eq(&rt, foo_again(&mut target, Run(wanted), 1, BE).0, wanted);
    check_eq(&rt, target[0], 7);
    let line = read_line(&LINE, BE)?;
    check_eq(
        &rt,
        (line.from.x, line.from.y, line.to.x, line.to.y),
        (-2, 7, 1, 65536),
    );
    check_eq(&rt, line.label, b"hi");
    Ok(())
}
