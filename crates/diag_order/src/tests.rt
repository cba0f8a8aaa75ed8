// Lines and columns, and the order of diagnostics.
ghost use Rattle.std.specs.Prelude.{◌≡◌, All, IfOk};

use super::*;
use std::alloc::Global;
use std::test::Fail;
use zw_base::{Bytes, DiagCode, FilePath, FileTexts, Seq};

#[test]
fn places(rt: HostRuntime) {
    let text = b"a\n\nbc\r\nd";
    assert_eq!(rt; line_col(text, 0), (1, 1));
    assert_eq!(rt; line_col(text, 1), (1, 2));
    assert_eq!(rt; line_col(text, 2), (2, 1));
    assert_eq!(rt; line_col(text, 5), (3, 3));
    assert_eq!(rt; line_col(text, 7), (4, 1));
    assert_eq!(rt; line_col(text, 8), (4, 2));
    assert_eq!(rt; line_col(b"", 0), (1, 1));
}

type Row = (&'static str, DiagCode, &'static [u8]);

// Diagnostics at the first byte of their files.
fn at_start(alloc: Global, rows: &[Row]) -> Result<Vec<Diag>, Fail>
    ensures { IfOk result (λ list. All (λ diag. diag.offset ≡ 0) list.items) }
{
    let mut list = Vec::new(alloc);
    for (path, code, text) in rows {
        list.push(Diag {
            path: FilePath::of(alloc, path)?,
            offset: 0,
            code: *code,
            text: Bytes::of(Vec::from_slice(alloc, text)?),
        })?;
    }
    Ok(list)
}

#[test]
fn order(rt: HostRuntime) -> Result<(), Fail> {
    let alloc = rt.alloc();
    let text = Bytes::of(Vec::from_slice(alloc, b"one\ntwo")?);
    let texts: FileTexts = Seq::of(vec![in alloc; (FilePath::of(alloc, "a.zig")?, text)]?);
    let list = at_start(
        alloc,
        &[
            ("b.zig", DiagCode::NeverUsed, b""),
            ("a.zig", DiagCode::NotAFunction, b""),
            ("a.zig", DiagCode::CompileError, b"z"),
            ("a.zig", DiagCode::CompileError, b"y"),
            ("a.zig", DiagCode::NotAFunction, b""),
        ],
    )?;
    let wanted = [
        ("a.zig", "E318", b"".as_slice()),
        ("a.zig", "E326", b"y".as_slice()),
        ("a.zig", "E326", b"z".as_slice()),
        ("b.zig", "E203", b"".as_slice()),
    ];
    let lines = sorted(alloc, list, &texts)?;
    assert_eq!(rt; lines.len(), wanted.len());
    for (line, want) in lines.iter().zip(&wanted) {
        assert_eq!(rt; line.path.as_str(), want.0);
        assert_eq!(rt; line.line, 1);
        assert_eq!(rt; line.col, 1);
        assert_eq!(rt; line.code.name(), want.1);
        assert_eq!(rt; line.text.as_slice(), want.2);
    }
    Ok(())
}
