// Whether a command may be carried out: its path is there, and no limit is passed.
ghost use Rattle.std.specs.Prelude.{◌≡◌, ◌≤◌, ◌<◌, ◌+◌, ◌^◌, nat_lt, length, if◌then◌else◌};
ghost use Rattle.std.specs.List.{list_any};
ghost use Rattle.zw_base.specs.Limits.{AreWithin, has_path, others, passed_beside, tally, total};
ghost use Rattle.script_read.specs.Sizes.{allowed, unless_over};

use crate::command::{Refusal, Request};
use zw_base::{FilePath, FileSizes, Limits, Reason, Tally, Which};

/// Whether a command may be carried out after `commands` others, for the files as it would leave them.
pub fn allow(
    limits: Limits,
    commands: u32,
    have: &FileSizes,
    asked: &Request,
) -> Result<(), Refusal>
    requires within { AreWithin limits have.now }
    ensures { result ≡ allowed limits commands have.now asked.now }
{
    match asked {
        Request::File { path, len } => {
            allow_command(limits, commands)?;
            allow_file(limits, have.as_slice(), path, *len)
        }
        Request::Drop { path } => {
            if !is_held(have.as_slice(), path) {
                return Err(Refusal::Bad(Reason::AbsentPath));
            }
            allow_command(limits, commands)
        }
        Request::Update => allow_command(limits, commands),
    }
}

/// One more command after `commands` others.
fn allow_command(limits: Limits, commands: u32) -> Result<(), Refusal>
    ensures { result ≡ (if nat_lt limits.commands (commands + 1) then Err (Refusal.Over Which.Commands) else Ok tt) }
{
    if commands >= limits.commands {
        Err(Refusal::Over(Which::Commands))
    } else {
        Ok(())
    }
}

/// A file of `len` bytes in place of the one with its path, or beside the others.
fn allow_file(
    limits: Limits,
    have: &[(FilePath, u64)],
    path: &FilePath,
    len: u64,
) -> Result<(), Refusal>
    requires { total have.now ≤ limits.total_bytes }
    ensures { result ≡ unless_over (passed_beside limits (tally (others path.now have.now)) len) }
{
    match limits.passed_beside(tally_others(have, path), len) {
        Some(which) => Err(Refusal::Over(which)),
        None => Ok(()),
    }
}

/// The files with other paths.
fn tally_others(have: &[(FilePath, u64)], path: &FilePath) -> Tally
    requires { total have.now < 2 ^ 32 }
    ensures { result ≡ tally (others path.now have.now) }
{
    let mut tally = Tally { files: 0, bytes: 0 };
    for (held, len) in have {
        if *held != *path {
            tally.files += 1;
            tally.bytes += *len;
        }
    }
    tally
}

/// Whether a file has this path.
fn is_held(have: &[(FilePath, u64)], path: &FilePath) -> bool
    ensures { result ≡ list_any (has_path path.now) have.now }
{
    have.iter().any(|(held, _)| *held == *path)
}
