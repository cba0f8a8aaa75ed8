// The commands of a script, and what a reader answers.
use std::alloc::{AllocError, AllocFailed};
use zw_base::{Bytes, Failed, FilePath, Reason, Which};

/// A command of a script.
#[derive(Debug, Drop)]
pub enum Command {
    /// `file PATH LEN`, LF, LEN bytes, LF: sets or replaces a file.
    File { path: FilePath, bytes: Bytes },
    /// `drop PATH`, LF: removes a file.
    Drop { path: FilePath },
    /// `update`, LF: asks for an answer.
    Update,
}

/// What a reader answers.
#[derive(Debug, Drop)]
pub enum Next {
    /// The next command.
    Command(Command),
    /// The input ended where a command would begin.
    End,
    /// A command is refused. `line` is 1 plus the number of LF bytes before the command's first byte.
    BadScript { line: u64, reason: Reason },
    /// A command would pass a limit; `number` is the limit.
    Limit { which: Which, number: u64 },
    /// The script could not be read.
    ReadFault,
    /// There was no memory.
    OutOfMemory,
}

/// What a command's line asks for.
#[derive(Debug, Drop)]
pub enum Request {
    File { path: FilePath, len: u64 },
    Drop { path: FilePath },
    Update,
}

/// Why there is no next command.
#[derive(Clone, Copy, Debug, PartialEq, Eq)]
pub enum Refusal {
    /// The input ended where a command would begin.
    End,
    /// The command is refused.
    Bad(Reason),
    /// The command would pass a limit.
    Over(Which),
    /// The script could not be read.
    ReadFault,
    /// There was no memory.
    OutOfMemory,
}

impl From<Failed> for Refusal {
    ghost use Rattle.std.specs.Prelude.{◌≡◌};
    ghost use Rattle.script_read.specs.declared.command.Refusal.TheVariants.{ReadFault};

    ghost from_gives = { λ _ e. e ≡ ReadFault };

    fn from(_e: Failed) -> Refusal {
        Refusal::ReadFault
    }
}

impl From<AllocError> for Refusal {
    ghost use Rattle.std.specs.Prelude.{◌≡◌};
    ghost use Rattle.script_read.specs.declared.command.Refusal.TheVariants.{OutOfMemory};

    ghost from_gives = { λ _ e. e ≡ OutOfMemory };

    fn from(_e: AllocError) -> Refusal {
        Refusal::OutOfMemory
    }
}

impl<T: Drop> From<AllocFailed<T>> for Refusal {
    ghost use Rattle.std.specs.Prelude.{◌≡◌};
    ghost use Rattle.script_read.specs.declared.command.Refusal.TheVariants.{OutOfMemory};

    ghost from_gives = { λ _ e. e ≡ OutOfMemory };

    fn from(_e: AllocFailed<T>) -> Refusal {
        Refusal::OutOfMemory
    }
}
