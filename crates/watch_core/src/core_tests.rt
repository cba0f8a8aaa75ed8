// The core trees of small files: which edits change the tree of a part, and which don't.
use std::alloc::Global;
use std::fmt::Write;
use std::test::Fail;
use zig_parse::parse;
use zig_token::tokens;
use zir_astgen::astgen;
use zir_form::{ContainerRef, Part, PartRef, Zir};
use zir_scope::resolve;
use zw_base::Bytes;

/// The core tree of a text.
fn zir_of(alloc: Global, text: &str) -> Result<Zir, Fail> {
    let text = text.as_bytes();
    if text.len() >= 1_000 {
        return Err(Fail::from("too long a text"));
    }
    let Ok(tokens) = tokens(alloc, text) else {
        return Err(Fail::from("no tokens"));
    };
    if tokens.len() > 1_000 {
        return Err(Fail::from("too many tokens"));
    }
    let Ok(tree) = parse(alloc, tokens.as_slice()) else {
        return Err(Fail::from("no sentence"));
    };
    let scopes = resolve(alloc, text, tokens.as_slice(), &tree)?;
    let generated = astgen(alloc, text, tokens.as_slice(), &tree, &scopes)?;
    Ok(generated.zir)
}

/// The whole text of a declaration of the file.
fn whole(alloc: Global, name: &str) -> Result<Part, Fail> {
    Ok(Part::Whole {
        container: ContainerRef(0),
        name: Bytes::of(Vec::from_slice(alloc, name.as_bytes())?),
    })
}

/// The lines of the first declaration of a text, up to that of its whole tree.
fn shown(alloc: Global, text: &str, name: &str) -> Result<String, Fail> {
    let zir = zir_of(alloc, text)?;
    let part = whole(alloc, name)?;
    let Some(PartRef { line, .. }) = zir.part(&part) else {
        return Err(Fail::from("no such part"));
    };
    let mut shown = String::new(alloc);
    for number in 2..=line {
        if let Some(form) = zir.lines().form(number) {
            write!(shown, "{form:?}\n")?;
        }
    }
    Ok(shown)
}

/// The function that is edited.
const SOURCE: &str = "fn f(a: u32) u32 { const b = a; return b; }";

#[test]
fn what_no_diagnostic_can_tell_changes_no_tree(rt: HostRuntime) -> Result<(), Fail> {
    let alloc = rt.alloc();
    let before = shown(alloc, SOURCE, "f")?;
    for text in [
        "// a comment\n\nfn f(a: u32) u32 { const b = a; return b; }",
        "fn f(x: u32) u32 { const y = x; return y; }",
        "pub fn f(a: u32) u32 { const b = a; return b; }",
        "fn f(a: u32) u32 { const b = a; return b; } // behind\nconst c = 1;",
    ] {
        assert_eq!(rt;
            shown(alloc, text, "f")?.as_str(),
            before.as_str(),
            "{text}"
        );
    }
    let container = shown(alloc, "const S = struct { a: u32 };", "S")?;
    let moved = shown(alloc, "const S = struct { a: u32 }\n  ;", "S")?;
    assert_eq!(rt; moved.as_str(), container.as_str());
    Ok(())
}

#[test]
fn what_a_diagnostic_can_tell_changes_the_tree(rt: HostRuntime) -> Result<(), Fail> {
    let alloc = rt.alloc();
    let before = shown(alloc, SOURCE, "f")?;
    for text in [
        "fn f(a: u32) u32 {  const b = a; return b; }",
        "fn f(a: u32) u32 { const b = a; return a; }",
        "fn f(a: u32) u32 { const b = 1; return b; }",
        "export fn f(a: u32) u32 { const b = a; return b; }",
        "fn f(a: u32) u32 { var b = a; return b; }",
    ] {
        assert_ne!(rt;
            shown(alloc, text, "f")?.as_str(),
            before.as_str(),
            "{text}"
        );
    }
    let captures = "fn f(a: u8, b: u8) void { _ = struct { x: [a]u8 = b }; }";
    let other = "fn f(a: u8, b: u8) void { _ = struct { x: [b]u8 = a }; }";
    assert_ne!(rt;
        shown(alloc, other, "f")?.as_str(),
        shown(alloc, captures, "f")?.as_str()
    );
    Ok(())
}

/// What runs at each exit of a function with a `defer` of a call and an `errdefer` of another.
const EXITS: &str = "fn f() !void { defer a(); errdefer b(); if (c) return; try d(); }
fn a() void {} fn b() void {} const c = true; fn d() !void {}";

#[test]
fn what_is_put_off_stands_at_each_exit(rt: HostRuntime) -> Result<(), Fail> {
    let found = shown(rt.alloc(), EXITS, "f")?;
    for wanted in [
        // Line 7 calls `a`, and 8 runs that alone; 12 calls `b`, and 14 runs that on an error, then `a`.
        "Ignored { place: 21, value: 6 }\nRuns { first: 7, then: 1 }\n",
        "Ignored { place: 35, value: 11 }\nOnError { capture: 1, body: 12 }\nRuns { first: 13, then: 9 }\n",
        "Return { place: 47, value: 1, leaves: Seq { inner: [8] } }\n",
        "Try { place: 55, operand: 21, leaves: Seq { inner: [14] } }\n",
        "Block { place: 13, statements: Seq { inner: [19, 23] }, leaves: 8 }\n",
    ] {
        assert_eq!(rt; found.contains(wanted), true, "{wanted}");
    }
    Ok(())
}
