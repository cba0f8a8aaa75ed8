// What is read from a source: a byte, a line, and the bytes behind a line.
ghost use Rattle.std.specs.Prelude.{◌≡◌, ◌≤◌, ◌<◌, ◌+◌, ℕ, List, [], ◌++◌, length, take, IfOk, OnErr, IfSome, Ok, Err, None, vec_len, drop};
ghost use Rattle.std.specs.Option.{option_map};
ghost use Rattle.zw_base.specs.Outside.{Rose};
ghost use Rattle.zw_base.specs.Reading.{left_before};
ghost use Rattle.script_read.specs.Line.{line_at};
ghost use Rattle.script_read.specs.Script.{content_at};
ghost use Rattle.script_read.specs.Reads.{Reads, byte_before};

use crate::command::Refusal;
use std::alloc::Global;
use zw_base::{Failed, Reason, Source};

/// The next byte, or `None` at the end.
fn read_byte<S: Source>(s: &mut S) -> Result<Option<u8>, Failed>
    ensures left { S.left s.old ≡ byte_before (S.left s.new) result }
    ensures end { result ≡ Ok None → IfSome (S.left s.old) (λ bytes. bytes ≡ []) }
    ensures faults { S.faults s.old ≤ S.faults s.new }
    ensures failed { OnErr result (Rose (S.faults s.old) (S.faults s.new)) }
{
    let mut byte = [0u8; 1];
    let n = s.read(&mut byte)?;
    Ok(if n == 0 { None } else { Some(byte[0]) })
}

/// The next line without its LF, of at most `most` bytes.
pub fn read_line<S: Source>(alloc: Global, s: &mut S, most: u32) -> Result<Vec<u8>, Refusal>
    ensures told { Reads (λ v. v.items) (line_at most) (S.left s.old) (S.left s.new) result }
    ensures faults { S.faults s.old ≤ S.faults s.new }
    ensures failed { result ≡ Err Refusal.ReadFault → Rose (S.faults s.old) (S.faults s.new) }
{
    let mut line = Vec::new(alloc);
    for _ in 0..u64::from(most) + 1 {
        match read_byte(s)? {
            None if line.is_empty() => return Err(Refusal::End),
            None => return Err(Refusal::Bad(Reason::CutShort)),
            Some(b'\n') => return Ok(line),
            Some(byte) => line.push(byte)?,
        }
    }
    Err(Refusal::Bad(Reason::LineTooLong))
}

/// The `len` bytes behind a line, and the LF after them.
pub fn read_content<S: Source>(alloc: Global, s: &mut S, len: usize) -> Result<Vec<u8>, Refusal>
    ensures told { Reads (λ v. v.items) (content_at len) (S.left s.old) (S.left s.new) result }
    ensures faults { S.faults s.old ≤ S.faults s.new }
    ensures failed { result ≡ Err Refusal.ReadFault → Rose (S.faults s.old) (S.faults s.new) }
{
    let mut bytes = vec![in alloc; 0; len]?;
    let mut at = 0;
    while at < len {
        let n = read_some(s, &mut bytes, at)?;
        if n == 0 {
            return Err(Refusal::Bad(Reason::CutShort));
        }
        at += n;
    }
    match read_byte(s)? {
        None => Err(Refusal::Bad(Reason::CutShort)),
        Some(b'\n') => Ok(bytes),
        Some(_) => Err(Refusal::Bad(Reason::MissingEnd)),
    }
}

/// Reads into the buffer from the place `at`, and says how many bytes came.
fn read_some<S: Source>(s: &mut S, bytes: &mut Vec<u8>, at: usize) -> Result<usize, Failed>
    requires { at < vec_len bytes.old }
    ensures count { IfOk result (λ n. at + n ≤ vec_len bytes.old) }
    ensures len { vec_len bytes.new ≡ vec_len bytes.old }
    ensures front { take at bytes.new.items ≡ take at bytes.old.items }
    ensures left { S.left s.old ≡ left_before (S.left s.new) (drop at bytes.new.items) result }
    ensures end { result ≡ Ok 0 → IfSome (S.left s.old) (λ left. left ≡ []) }
    ensures faults { S.faults s.old ≤ S.faults s.new }
    ensures failed { OnErr result (Rose (S.faults s.old) (S.faults s.new)) }
{
    s.read(&mut bytes[at..])
}
