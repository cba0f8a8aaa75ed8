// The steps to a command: its line, what the line asks for, and the bytes behind it.
ghost use Rattle.std.specs.Prelude.{◌≡◌, ◌≢◌, ◌≤◌, ◌<◌, Err, IfOk, OnErr};
ghost use Rattle.zw_base.specs.Outside.{Rose};
ghost use Rattle.script_read.specs.Line.{line_ends};
ghost use Rattle.script_read.specs.Answers.{Gives};
ghost use Rattle.script_read.specs.Script.{next_of, completed, judged};
ghost use Rattle.zw_base.specs.Limits.{AreWithin};
ghost use Rattle.script_read.specs.Reads.{Reads, lines_of};

use crate::allow::allow;
use crate::command::{Command, Refusal, Request};
use crate::line::request_of;
use crate::reading::{read_content, read_line};
use std::alloc::Global;
use zw_base::{Bytes, FileSizes, Limits, Source};

/// The next command after `commands` others, for the files as they stand.
pub fn read_command<S: Source>(
    alloc: Global,
    s: &mut S,
    limits: Limits,
    commands: u32,
    have: &FileSizes,
) -> Result<Command, Refusal>
    requires { AreWithin limits have.now }
    ensures told { Reads (λ command. command) (next_of limits commands have.now) (S.left s.old) (S.left s.new) result }
    ensures room { IfOk result (λ _. commands < limits.commands) }
    ensures faults { S.faults s.old ≤ S.faults s.new }
    ensures failed { result ≡ Err Refusal.ReadFault → Rose (S.faults s.old) (S.faults s.new) }
{
    let line = read_line(alloc, s, limits.line)?;
    let asked = judge(alloc, limits, commands, have, line.as_slice())?;
    complete(alloc, s, asked)
}

/// What a whole line asks for, where it may be carried out.
fn judge(
    alloc: Global,
    limits: Limits,
    commands: u32,
    have: &FileSizes,
    line: &[u8],
) -> Result<Request, Refusal>
    requires { AreWithin limits have.now }
    ensures given { Gives result (judged limits commands have.now line.now) }
    ensures room { IfOk result (λ _. commands < limits.commands) }
    ensures sure { OnErr result (result ≢ Err Refusal.ReadFault) }
{
    let asked = request_of(alloc, line)?;
    allow(limits, commands, have, &asked)?;
    Ok(asked)
}

/// The command that a line asks for, with the bytes that it takes from behind the line.
fn complete<S: Source>(alloc: Global, s: &mut S, asked: Request) -> Result<Command, Refusal>
    ensures told { Reads (λ command. command) (completed asked) (S.left s.old) (S.left s.new) result }
    ensures faults { S.faults s.old ≤ S.faults s.new }
    ensures failed { result ≡ Err Refusal.ReadFault → Rose (S.faults s.old) (S.faults s.new) }
{
    match asked {
        Request::File { path, len } => {
            let bytes = read_content(alloc, s, len as usize)?;
            Ok(Command::File {
                path,
                bytes: Bytes::of(bytes),
            })
        }
        Request::Drop { path } => Ok(Command::Drop { path }),
        Request::Update => Ok(Command::Update),
    }
}

/// How many LF bytes a command's text has.
pub fn lines_of(command: &Command) -> u64
    ensures { result ≡ lines_of command.now }
{
    match command {
        Command::File { bytes, .. } => line_ends(bytes.as_slice()) + 2,
        Command::Drop { .. } | Command::Update => 1,
    }
}

fn line_ends(bytes: &[u8]) -> u64
    ensures { result ≡ line_ends bytes.now }
{
    bytes.iter().filter(|b| **b == b'\n').count() as u64
}
