// Commands and refusals where files are there already, and what a command leaves to be read.
ghost use Rattle.std.specs.Prelude.{◌≡◌, ◌≤◌, ◌+◌, IfOk};
ghost use Rattle.zw_base.specs.Limits.{AreWithin};

use super::{Command, Limits, Next, ScriptReader};
use crate::tests::{is_limit, is_refused, no_files, source};
use std::alloc::{AllocError, Global};
use std::test::Fail;
use zw_base::{FilePath, FileSizes, LIMITS, Reason, Seq, Which};

/// Limits that two small files reach.
const SMALL: Limits = Limits {
    commands: 9,
    files: 2,
    file_bytes: 10,
    total_bytes: 15,
    line: 300,
};

/// The files `a.zig` and `b.zig` with so many bytes.
fn two_files(alloc: Global, limits: Limits, a: u64, b: u64) -> Result<FileSizes, Fail>
    requires first { a ≤ limits.file_bytes }
    requires second { b ≤ limits.file_bytes }
    requires count { 2 ≤ limits.files }
    requires sum { a + b ≤ limits.total_bytes }
    ensures { IfOk result (λ have. AreWithin limits have) }
{
    let files = vec![in alloc;
        (FilePath::of(alloc, "a.zig")?, a),
        (FilePath::of(alloc, "b.zig")?, b),
    ]?;
    Ok(Seq::of(files))
}

/// The first answers for `a.zig` of 8 bytes and `b.zig` of 7, one byte a call and whole, where so many
/// commands may come.
fn answers(alloc: Global, commands: u32, script: &[u8]) -> Result<(Next, Next), Fail> {
    let limits = Limits { commands, ..SMALL };
    let have = two_files(alloc, limits, 8, 7)?;
    let mut cut = source(alloc, script, 1, 0)?;
    let mut whole = source(alloc, script, 1000, 0)?;
    let slow = ScriptReader::new(limits).next(alloc, &mut cut, &have);
    let fast = ScriptReader::new(limits).next(alloc, &mut whole, &have);
    Ok((slow, fast))
}

fn is_file(answer: &Next, wanted: &str, content: &[u8]) -> bool {
    match answer {
        Next::Command(Command::File { path, bytes }) => {
            path.as_str() == wanted && bytes.as_slice() == content
        }
        _ => false,
    }
}

fn is_drop(answer: &Next, wanted: &str) -> bool {
    match answer {
        Next::Command(Command::Drop { path }) => path.as_str() == wanted,
        _ => false,
    }
}

fn is_update(answer: &Next) -> bool {
    matches!(answer, Next::Command(Command::Update))
}

/// Whether a script's first command sets this file.
fn gives_file(alloc: Global, script: &[u8], path: &str, content: &[u8]) -> Result<bool, Fail> {
    let (slow, fast) = answers(alloc, 9, script)?;
    Ok(is_file(&slow, path, content) && is_file(&fast, path, content))
}

/// Whether a script's first command passes this limit.
fn passes(
    alloc: Global,
    commands: u32,
    script: &[u8],
    which: Which,
    number: u64,
) -> Result<bool, Fail> {
    let (slow, fast) = answers(alloc, commands, script)?;
    Ok(is_limit(&slow, which, number) && is_limit(&fast, which, number))
}

/// Whether a script's first command drops a file that is absent.
fn is_absent(alloc: Global, commands: u32, script: &[u8]) -> Result<bool, Fail> {
    let (slow, fast) = answers(alloc, commands, script)?;
    Ok(is_refused(&slow, 1, Reason::AbsentPath) && is_refused(&fast, 1, Reason::AbsentPath))
}

#[test]
fn files_that_are_there_are_replaced(rt: HostRuntime) -> Result<(), Fail> {
    let alloc = rt.alloc();
    assert!(rt; gives_file(alloc, b"file a.zig 8\n12345678\n", "a.zig", b"12345678")?);
    assert!(rt; gives_file(alloc, b"file a.zig 0\n\n", "a.zig", b"")?);
    assert!(rt; gives_file(alloc, b"file b.zig 2\n\n\n\n", "b.zig", b"\n\n")?);
    Ok(())
}

#[test]
fn a_file_that_is_there_is_dropped(rt: HostRuntime) -> Result<(), Fail> {
    let (slow, fast) = answers(rt.alloc(), 9, b"drop b.zig\n")?;
    assert!(rt; is_drop(&slow, "b.zig") && is_drop(&fast, "b.zig"));
    Ok(())
}

#[test]
fn absent_files_come_before_limits(rt: HostRuntime) -> Result<(), Fail> {
    assert!(rt; is_absent(rt.alloc(), 9, b"drop c.zig\n")?);
    assert!(rt; is_absent(rt.alloc(), 0, b"drop c.zig\n")?);
    Ok(())
}

#[test]
fn limits_in_their_order(rt: HostRuntime) -> Result<(), Fail> {
    let alloc = rt.alloc();
    assert!(rt; passes(alloc, 0, b"update\n", Which::Commands, 0)?);
    assert!(rt; passes(alloc, 0, b"drop a.zig\n", Which::Commands, 0)?);
    assert!(rt; passes(alloc, 0, b"file c.zig 11\n", Which::Commands, 0)?);
    assert!(rt; passes(alloc, 9, b"file c.zig 11\n", Which::FileBytes, 10)?);
    assert!(rt; passes(alloc, 9, b"file a.zig 9999999999\n", Which::FileBytes, 10)?);
    assert!(rt; passes(alloc, 9, b"file c.zig 10\n", Which::Files, 2)?);
    assert!(rt; passes(alloc, 9, b"file c.zig 0\n", Which::Files, 2)?);
    assert!(rt; passes(alloc, 9, b"file a.zig 9\n", Which::TotalBytes, 15)?);
    Ok(())
}

/// A script that is cut short behind its second command, in reads of at most `most` bytes.
fn reads_to_the_cut(alloc: Global, most: usize) -> Result<bool, Fail>
    requires { 1 ≤ most }
{
    let mut s = source(
        alloc,
        b"file n.zig 2\n\nx\nupdate\nfile m.zig 10\nabc",
        most,
        0,
    )?;
    let have = no_files(alloc);
    let mut reader = ScriptReader::new(LIMITS);
    let file = reader.next(alloc, &mut s, &have);
    let update = reader.next(alloc, &mut s, &have);
    let cut = reader.next(alloc, &mut s, &have);
    let again = reader.next(alloc, &mut s, &have);
    Ok(
        is_file(&file, "n.zig", b"\nx")
            && is_update(&update)
            && is_refused(&cut, 5, Reason::CutShort)
            && is_refused(&again, 5, Reason::CutShort),
    )
}

#[test]
fn the_line_is_counted_by_the_bytes_before(rt: HostRuntime) -> Result<(), Fail> {
    for most in 1..20usize {
        assert!(rt; reads_to_the_cut(rt.alloc(), most)?);
    }
    Ok(())
}

/// `file m.zig LEN`, LEN bytes, and `update`.
fn long_script(alloc: Global, head: &[u8], content: &[u8]) -> Result<Vec<u8>, AllocError> {
    let mut script = Vec::from_slice(alloc, head)?;
    script.extend_from_slice(content)?;
    script.extend_from_slice(b"\nupdate\n")?;
    Ok(script)
}

fn many(alloc: Global, len: usize) -> Result<Vec<u8>, AllocError> {
    Ok(vec![in alloc; b'('; len]?)
}

/// Whether the script gives the file, an update and its end.
fn gives_all(alloc: Global, script: &[u8], content: &[u8]) -> Result<bool, AllocError> {
    let mut s = source(alloc, script, 4096, 0)?;
    let have = no_files(alloc);
    let mut reader = ScriptReader::new(LIMITS);
    let file = reader.next(alloc, &mut s, &have);
    let update = reader.next(alloc, &mut s, &have);
    let end = reader.next(alloc, &mut s, &have);
    Ok(is_file(&file, "m.zig", content) && is_update(&update) && matches!(end, Next::End))
}

#[test]
fn a_file_of_the_most_bytes(rt: HostRuntime) -> Result<(), Fail> {
    let content = many(rt.alloc(), 1_048_576)?;
    let script = long_script(rt.alloc(), b"file m.zig 1048576\n", content.as_slice())?;
    assert!(rt; gives_all(rt.alloc(), script.as_slice(), content.as_slice())?);
    Ok(())
}
