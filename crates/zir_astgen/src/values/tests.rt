// Literals of the Zig Language Reference 0.14, "Integer Literals", "Escape Sequences", "String Literals
// and Unicode Code Point Literals" and "Multiline String Literals".
use crate::values::{char_value, int_value, multiline_value, string_value};
use std::test::Fail;

#[test]
fn integers(rt: HostRuntime) -> Result<(), Fail> {
    assert_eq!(rt; int_value(b"98222".as_slice()), 98222);
    assert_eq!(rt; int_value(b"0".as_slice()), 0);
    assert_eq!(rt; int_value(b"0xff".as_slice()), 255);
    assert_eq!(rt; int_value(b"0xFF".as_slice()), 255);
    assert_eq!(rt; int_value(b"0o17".as_slice()), 15);
    assert_eq!(rt; int_value(b"0b11110000".as_slice()), 240);
    assert_eq!(rt; int_value(b"1_000_000_000".as_slice()), 1000000000);
    assert_eq!(rt; int_value(b"0b1_1111_1111".as_slice()), 511);
    assert_eq!(rt; int_value(b"0o7_5_5".as_slice()), 493);
    assert_eq!(rt;
        int_value(b"0xFF80_0000_0000_0000".as_slice()),
        0xFF80000000000000
    );
    let largest = int_value(b"170141183460469231731687303715884105727".as_slice());
    assert_eq!(rt; largest, 0x7fffffffffffffffffffffffffffffff);
    Ok(())
}

#[test]
fn characters(rt: HostRuntime) -> Result<(), Fail> {
    assert_eq!(rt; char_value(b"'e'".as_slice()), 101);
    assert_eq!(rt; char_value(b"'\"'".as_slice()), 34);
    assert_eq!(rt; char_value(b"'\\n'".as_slice()), 10);
    assert_eq!(rt; char_value(b"'\\r'".as_slice()), 13);
    assert_eq!(rt; char_value(b"'\\t'".as_slice()), 9);
    assert_eq!(rt; char_value(b"'\\\\'".as_slice()), 92);
    assert_eq!(rt; char_value(b"'\\''".as_slice()), 39);
    assert_eq!(rt; char_value(b"'\\x41'".as_slice()), 65);
    assert_eq!(rt; char_value(b"'\\u{1f4a9}'".as_slice()), 128169);
    assert_eq!(rt; char_value(b"'\\u{1F600}'".as_slice()), 0x1F600);
    Ok(())
}

#[test]
fn strings(rt: HostRuntime) -> Result<(), Fail> {
    let alloc = rt.alloc();
    let tab = string_value(alloc, b"\"a\\tb\\\"\"".as_slice())?;
    assert_eq!(rt; tab.as_slice(), [b'a', 9, b'b', b'"'].as_slice());
    let hello = string_value(alloc, b"\"h\\x65llo\"".as_slice())?;
    assert_eq!(rt; hello.as_slice(), b"hello".as_slice());
    let hundred = string_value(alloc, b"\"\\u{1f4af}\"".as_slice())?;
    assert_eq!(rt; hundred.as_slice(), [0xF0, 0x9F, 0x92, 0xAF].as_slice());
    let nothing = string_value(alloc, b"\"\"".as_slice())?;
    assert_eq!(rt; nothing.len(), 0);
    Ok(())
}

#[test]
fn several_lines(rt: HostRuntime) -> Result<(), Fail> {
    let alloc = rt.alloc();
    let text = b"\\\\#include <stdio.h>\n    \\\\\n\t\\\\    printf(\"hello\\n\");\r\n\\\\}";
    let lines = multiline_value(alloc, text.as_slice())?;
    let wanted = b"#include <stdio.h>\n\n    printf(\"hello\\n\");\n}";
    assert_eq!(rt; lines.as_slice(), wanted.as_slice());
    let nothing = multiline_value(alloc, b"\\\\".as_slice())?;
    assert_eq!(rt; nothing.len(), 0);
    Ok(())
}
