// Refusals as the script's rules list them, whole and one byte a call, and the failing call at each number.
ghost use Rattle.std.specs.Prelude.{◌≡◌, ◌≤◌, [], IfOk};

use super::{Command, Limits, Next, ScriptReader};
use std::alloc::{AllocError, Global};
use std::test::Fail;
use zw_base::{Bytes, FileSizes, LIMITS, MemSource, Reason, Seq, Which};

pub fn no_files(alloc: Global) -> FileSizes
    ensures { result ≡ [] }
{
    Seq::of(Vec::new(alloc))
}

pub fn source(
    alloc: Global,
    script: &[u8],
    most: usize,
    failing: u64,
) -> Result<MemSource, AllocError>
    requires { 1 ≤ most }
{
    let mut calls = Vec::new(alloc);
    calls.push(failing)?;
    let bytes = Bytes::of(Vec::from_slice(alloc, script)?);
    Ok(MemSource::new(bytes, most, Seq::of(calls)))
}

pub fn is_refused(answer: &Next, line: u64, reason: Reason) -> bool {
    match answer {
        Next::BadScript {
            line: at,
            reason: why,
        } => *at == line && *why == reason,
        _ => false,
    }
}

pub fn is_limit(answer: &Next, which: Which, number: u64) -> bool {
    match answer {
        Next::Limit {
            which: w,
            number: n,
        } => *w == which && *n == number,
        _ => false,
    }
}

/// Whether the first command is refused so, and again, in reads of at most `most` bytes.
fn refuses(alloc: Global, script: &[u8], most: usize, reason: Reason) -> Result<bool, AllocError>
    requires { 1 ≤ most }
{
    let mut s = source(alloc, script, most, 0)?;
    let have = no_files(alloc);
    let mut reader = ScriptReader::new(LIMITS);
    let first = reader.next(alloc, &mut s, &have);
    let again = reader.next(alloc, &mut s, &have);
    Ok(is_refused(&first, 1, reason) && is_refused(&again, 1, reason))
}

#[test]
fn refusals_in_their_order(rt: HostRuntime) -> Result<(), Fail> {
    let long = vec![in rt.alloc(); b'a'; 301]?;
    let rows = [
        (&long[..], Reason::LineTooLong),
        (&long[..300], Reason::CutShort),
        (b"nothing\n".as_slice(), Reason::UnknownCommand),
        (b"\n".as_slice(), Reason::UnknownCommand),
        (b"update\r\n".as_slice(), Reason::UnknownCommand),
        (b" update\n".as_slice(), Reason::UnknownCommand),
        (b"update \n".as_slice(), Reason::BadWords),
        (b"drop \n".as_slice(), Reason::BadWords),
        (b"file a//b  01\n".as_slice(), Reason::BadWords),
        (b"file a//b 01\n".as_slice(), Reason::BadPath),
        (b"file a.zig 01\n".as_slice(), Reason::BadLength),
        (b"file a.zig 12345678901\n".as_slice(), Reason::BadLength),
        (b"drop a.zig\n".as_slice(), Reason::AbsentPath),
        (b"file a.zig 3\nabc".as_slice(), Reason::CutShort),
        (b"file a.zig 3\nabcX".as_slice(), Reason::MissingEnd),
    ];
    for (script, reason) in rows {
        assert!(rt; refuses(rt.alloc(), script, 1, reason)?);
        assert!(rt; refuses(rt.alloc(), script, 1000, reason)?);
    }
    Ok(())
}

#[test]
fn a_line_of_the_most_bytes_is_read(rt: HostRuntime) -> Result<(), Fail> {
    let mut line = vec![in rt.alloc(); b'a'; 300]?;
    line.push(b'\n')?;
    assert!(rt; refuses(rt.alloc(), line.as_slice(), 1, Reason::UnknownCommand)?);
    assert!(rt; refuses(rt.alloc(), line.as_slice(), 1000, Reason::UnknownCommand)?);
    Ok(())
}

#[test]
fn an_empty_script_ends(rt: HostRuntime) -> Result<(), Fail> {
    let mut s = source(rt.alloc(), b"".as_slice(), 1, 0)?;
    let mut reader = ScriptReader::new(LIMITS);
    for _ in 0..2u32 {
        let answer = reader.next(rt.alloc(), &mut s, &no_files(rt.alloc()));
        assert!(rt; matches!(answer, Next::End));
    }
    Ok(())
}

#[test]
fn limits_before_the_bytes(rt: HostRuntime) -> Result<(), Fail> {
    let mut s = source(rt.alloc(), b"file a.zig 1048577\n".as_slice(), 5, 0)?;
    let mut reader = ScriptReader::new(LIMITS);
    let answer = reader.next(rt.alloc(), &mut s, &no_files(rt.alloc()));
    assert!(rt; is_limit(&answer, Which::FileBytes, 1_048_576));
    Ok(())
}

/// How many commands a script gives before it stops, and whether it stops with a fault of reading and
/// stays so.
fn run(alloc: Global, script: &[u8], most: usize, failing: u64) -> Result<(u32, bool), AllocError>
    requires { 1 ≤ most }
{
    let mut s = source(alloc, script, most, failing)?;
    let have = no_files(alloc);
    let mut reader = ScriptReader::new(LIMITS);
    for commands in 0..10u32 {
        match reader.next(alloc, &mut s, &have) {
            Next::Command(Command::File { .. }) | Next::Command(Command::Update) => {}
            Next::ReadFault => {
                let again = reader.next(alloc, &mut s, &have);
                return Ok((commands, matches!(again, Next::ReadFault)));
            }
            _ => return Ok((commands, false)),
        }
    }
    Ok((10, false))
}

/// Whether a fault at each call comes before the first command up to the call `first`, before the second
/// up to `second`, and before the end up to `last`.
fn fails_at_each_call(
    alloc: Global,
    most: usize,
    first: u64,
    second: u64,
    last: u64,
) -> Result<bool, AllocError>
    requires { 1 ≤ most }
{
    for failing in 1..30u64 {
        let whole = if failing <= first {
            0
        } else if failing <= second {
            1
        } else {
            2
        };
        let answer = run(alloc, b"file a.zig 3\nabc\nupdate\n", most, failing)?;
        if answer.0 != whole || answer.1 != (failing <= last) {
            return Ok(false);
        }
    }
    Ok(true)
}

#[test]
fn a_fault_at_each_call(rt: HostRuntime) -> Result<(), Fail> {
    assert!(rt; fails_at_each_call(rt.alloc(), 1, 17, 24, 25)?);
    assert!(rt; fails_at_each_call(rt.alloc(), 1000, 15, 22, 23)?);
    Ok(())
}
