// Numbers whose bytes are known from the DWARF and WebAssembly standards and from Python.
use crate::ByteBuf;
use std::test::Fail;

#[test]
fn writes_known_numbers(rt: HostRuntime) -> Result<(), Fail> {
    let alloc = rt.alloc();
    for (number, bytes) in [
        (0u32, b"\x00".as_slice()),
        (127, b"\x7f".as_slice()),
        (128, b"\x80\x01".as_slice()),
        (624_485, b"\xe5\x8e\x26".as_slice()),
        (u32::MAX, b"\xff\xff\xff\xff\x0f".as_slice()),
    ] {
        let mut buffer = ByteBuf::with_room(alloc, 5)?;
        buffer.put_u32(number);
        assert_eq!(rt; buffer.as_slice(), bytes, "at {number}");
    }
    for (number, bytes) in [
        (0i32, b"\x00".as_slice()),
        (63, b"\x3f".as_slice()),
        (64, b"\xc0\x00".as_slice()),
        (-1, b"\x7f".as_slice()),
        (-64, b"\x40".as_slice()),
        (-65, b"\xbf\x7f".as_slice()),
        (-123_456, b"\xc0\xbb\x78".as_slice()),
        (1_048_576, b"\x80\x80\xc0\x00".as_slice()),
        (i32::MIN, b"\x80\x80\x80\x80\x78".as_slice()),
    ] {
        let mut buffer = ByteBuf::with_room(alloc, 5)?;
        buffer.put_s32(number);
        assert_eq!(rt; buffer.as_slice(), bytes, "at {number}");
    }
    Ok(())
}

#[test]
fn writes_long_numbers(rt: HostRuntime) -> Result<(), Fail> {
    let alloc = rt.alloc();
    for (number, bytes) in [
        (
            i64::MIN,
            b"\x80\x80\x80\x80\x80\x80\x80\x80\x80\x7f".as_slice(),
        ),
        (
            i64::MAX,
            b"\xff\xff\xff\xff\xff\xff\xff\xff\xff\x00".as_slice(),
        ),
        (-1, b"\x7f".as_slice()),
    ] {
        let mut buffer = ByteBuf::with_room(alloc, 10)?;
        buffer.put_s64(number);
        assert_eq!(rt; buffer.as_slice(), bytes, "at {number}");
    }
    Ok(())
}

#[test]
fn writes_padded_numbers(rt: HostRuntime) -> Result<(), Fail> {
    let alloc = rt.alloc();
    for (number, bytes) in [
        (-2i32, b"\xfe\xff\xff\xff\x7f".as_slice()),
        (1_048_576, b"\x80\x80\xc0\x80\x00".as_slice()),
    ] {
        let mut buffer = ByteBuf::with_room(alloc, 5)?;
        buffer.put_s32_padded(number);
        assert_eq!(rt; buffer.as_slice(), bytes, "at {number}");
    }
    let mut buffer = ByteBuf::with_room(alloc, 5)?;
    buffer.put_u32_padded(3);
    assert_eq!(rt; buffer.as_slice(), b"\x83\x80\x80\x80\x00".as_slice());
    Ok(())
}

#[test]
fn takes_bytes(rt: HostRuntime) -> Result<(), Fail> {
    let mut buffer = ByteBuf::with_room(rt.alloc(), 0)?;
    buffer.put_slice(b"ab")?;
    buffer.reserve(11)?;
    buffer.put(b'c');
    buffer.put_len(300);
    assert_eq!(rt; buffer.into_vec().as_slice(), b"abc\xac\x02".as_slice());
    Ok(())
}
