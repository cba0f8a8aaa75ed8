// Small tables: cycles, what leads into them, and what leads nowhere.
use crate::least_of_cycles;
use std::alloc::{AllocError, Global};
use std::test::Fail;
use zw_base::Bytes;

fn text(alloc: Global, letters: &[u8]) -> Result<Bytes, AllocError> {
    Ok(Bytes::of(Vec::from_slice(alloc, letters)?))
}

/// A cycle of three places, a place that points at itself, ways that lead into them, and one that
/// ends.
#[test]
fn least_places(rt: HostRuntime) -> Result<(), Fail> {
    let alloc = rt.alloc();
    let next = [Some(1), Some(2), Some(0), Some(1), Some(4), Some(6), None];
    let texts = [
        text(alloc, b"b")?,
        text(alloc, b"ab")?,
        text(alloc, b"abc")?,
        text(alloc, b"a")?,
        text(alloc, b"z")?,
        text(alloc, b"")?,
        text(alloc, b"")?,
    ];
    let marks = least_of_cycles(alloc, &next, &texts)?;
    let wanted = [false, true, false, false, true, false, false];
    assert_eq!(rt; marks.as_slice(), &wanted[..]);
    Ok(())
}

/// The least text of a cycle stands there twice, and a pointer leads beyond the end.
#[test]
fn equal_texts(rt: HostRuntime) -> Result<(), Fail> {
    let alloc = rt.alloc();
    let next = [Some(1), Some(2), Some(0), Some(9)];
    let texts = [
        text(alloc, b"a")?,
        text(alloc, b"b")?,
        text(alloc, b"a")?,
        text(alloc, b"a")?,
    ];
    let marks = least_of_cycles(alloc, &next, &texts)?;
    let wanted = [true, false, true, false];
    assert_eq!(rt; marks.as_slice(), &wanted[..]);
    Ok(())
}

#[test]
fn no_place(rt: HostRuntime) -> Result<(), Fail> {
    let marks = least_of_cycles(rt.alloc(), &[], &[])?;
    assert_eq!(rt; marks.len(), 0);
    Ok(())
}
