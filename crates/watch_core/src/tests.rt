// A session's files and answers.
use crate::{Session, SetFault, Update};
use std::alloc::Global;
use std::test::Fail;
use zw_base::{DiagCode, FilePath, Which};

fn session(alloc: Global) -> Result<Session, Fail> {
    Ok(Session::open(alloc, FilePath::of(alloc, "m.zig")?, 4, 16, 1_048_576)?)
}

#[test]
fn answers_for_the_files_as_they_stand(rt: HostRuntime) -> Result<(), Fail> {
    let alloc = rt.alloc();
    let mut session = session(alloc)?;
    let Update::Errors {
        lines,
        analysed,
        reused,
    } = session.update_sole(alloc)
    else {
        return Err(Fail::from("no diagnostics"));
    };
    assert_eq!(rt; (analysed, reused), (0, 0));
    assert_eq!(rt;
        lines.as_slice().first().map(|line| line.code),
        Some(DiagCode::RootMissing)
    );

    for (text, len, units) in [
        ("export fn f() u32 { return 0; }", 60, 3),
        ("export\tfn abcd ( ) u32 { // x\n return 128 ; }\n", 64, 3),
        ("const a = 7; export fn f() u8 { return a; }", 60, 4),
        ("const a = a;", 36, 0),
    ] {
        session.set_file(
            FilePath::of(alloc, "m.zig")?,
            Vec::from_slice(alloc, text.as_bytes())?,
        )?;
        let Update::Module {
            bytes,
            analysed,
            reused,
        } = session.update_sole(alloc)
        else {
            return Err(Fail::from("no module"));
        };
        assert_eq!(rt; (bytes.len(), analysed, reused), (len, units, 0), "{text}");
    }
    Ok(())
}

/// Texts with the code and the place of their one diagnostic: of the text, of its names, of a form that
/// is not built, or of a unit.
const ROWS: [(&str, DiagCode, u32, u32); 16] = [
    (
        "export fn f() u32 { return 07; }",
        DiagCode::BadNumber,
        1,
        28,
    ),
    (
        "export fn fn() u32 { return 7; }",
        DiagCode::UnexpectedToken,
        1,
        11,
    ),
    (
        "\n export fn f() u32 { return 7 }",
        DiagCode::UnexpectedToken,
        2,
        31,
    ),
    ("// x\nconst x = \"", DiagCode::OpenString, 2, 11),
    ("const a = b;", DiagCode::Undeclared, 1, 11),
    ("const E = enum { a, a };", DiagCode::NameUsed, 1, 21),
    ("fn f(x: u32) void {}", DiagCode::NeverUsed, 1, 6),
    (
        "fn f() u8 { var x: u8 = 1; return x; }",
        DiagCode::NeverChanged,
        1,
        17,
    ),
    ("fn f() void { break; }", DiagCode::NothingToLeave, 1, 15),
    (
        "export fn memory() u32 { return 1; }",
        DiagCode::NotBuilt,
        1,
        1,
    ),
    (
        "export fn f(a: u32) u32 { return a; }",
        DiagCode::NotBuilt,
        1,
        13,
    ),
    (
        "export fn f() u32 { return 4294967296; }",
        DiagCode::IntegerDoesNotFit,
        1,
        28,
    ),
    ("export fn f() u8 {}", DiagCode::EndsWithoutValue, 1, 11),
    (
        "export fn f() u8 { return a; } const a = b; const b = a;",
        DiagCode::DeclarationLoop,
        1,
        38,
    ),
    (
        "export fn f() bool { return 1; }",
        DiagCode::TypesDoNotFit,
        1,
        29,
    ),
    (
        "export fn f() void { 1; return; }",
        DiagCode::NotBuilt,
        1,
        22,
    ),
];

#[test]
fn tells_what_is_wrong_with_a_text(rt: HostRuntime) -> Result<(), Fail> {
    let alloc = rt.alloc();
    let mut session = session(alloc)?;
    for (text, code, line, col) in ROWS {
        session.set_file(
            FilePath::of(alloc, "m.zig")?,
            Vec::from_slice(alloc, text.as_bytes())?,
        )?;
        let Update::Errors { lines, .. } = session.update_sole(alloc) else {
            return Err(Fail::from(text));
        };
        assert_eq!(rt; lines.len(), 1, "{text}");
        let found = lines
            .as_slice()
            .first()
            .map(|found| (found.code, found.line, found.col));
        assert_eq!(rt; found, Some((code, line, col)), "{text}");
    }
    Ok(())
}

#[test]
fn keeps_its_limits(rt: HostRuntime) -> Result<(), Fail> {
    let alloc = rt.alloc();
    let mut session = session(alloc)?;
    let long = vec![in alloc; b' '; 1_048_577]?;
    let refused = session.set_file(FilePath::of(alloc, "a")?, long);
    assert_eq!(rt;
        refused,
        Err(SetFault::Limit {
            which: Which::FileBytes,
            number: 1_048_576
        })
    );
    for number in 0..64u32 {
        let path = format!(in alloc; "f{number}")?;
        session.set_file(
            FilePath::of(alloc, path.as_str())?,
            vec![in alloc; b' '; 1_048_576]?,
        )?;
    }
    let refused = session.set_file(FilePath::of(alloc, "a")?, vec![in alloc; b' ']?);
    assert_eq!(rt;
        refused,
        Err(SetFault::Limit {
            which: Which::TotalBytes,
            number: 67_108_864
        })
    );
    session.set_file(FilePath::of(alloc, "f0")?, Vec::new(alloc))?;
    session.set_file(FilePath::of(alloc, "a")?, vec![in alloc; b' ']?)?;
    Ok(())
}
