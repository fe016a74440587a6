// What numbers print, and how many values a walk says that it has left.
use crate::tests::many::StoredFiles;
use crate::tests::walk::FieldKind;
use crate::{Items, Sleb, Uleb, Vlq, Zigzag};
use scroll::LE;
use std::alloc::Global;
use std::fmt::Debug;
use std::process::Abort;
use std::result::Result;
use std::test::Fail;

// Checks what a value prints.
fn check_printed<T: Debug + Drop>(rt: &impl Abort, alloc: Global, value: T, wanted: &str) {
    let printed = format!(in alloc; "{value:?}").expect(rt, "memory");
    assert!(rt; printed.as_str() == wanted, "got {printed}");
}

#[test]
fn numbers_are_printed_with_their_fields(rt: HostRuntime) {
    let rt = &rt;
    let alloc = rt.alloc();
    check_printed(
        rt,
        alloc,
        Uleb::shortest(300),
        "Uleb { value: 300, count: 2 }",
    );
    check_printed(
        rt,
        alloc,
        Sleb::shortest(-3),
        "Sleb { value: -3, count: 1 }",
    );
    check_printed(
        rt,
        alloc,
        Zigzag::shortest(-3),
        "Zigzag { value: -3, count: 1 }",
    );
    check_printed(
        rt,
        alloc,
        Vlq::shortest(300),
        "Vlq { value: 300, count: 2 }",
    );
}

// (two fields in 11 bytes; and no file before a mark)
#[test]
fn walks_say_no_number_of_values(rt: HostRuntime) -> Result<(), Fail> {
    let fields = Items::<FieldKind>::new(b"\x01\x07abcdefg\x02\0", LE)?;
    assert_eq!(rt; fields.values().size_hint(), (0, None));
    let files = Items::<StoredFiles>::to_mark(b"\0", LE)?;
    assert_eq!(rt; files.values_to_mark().size_hint(), (0, None));
    Ok(())
}
