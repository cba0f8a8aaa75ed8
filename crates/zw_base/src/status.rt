// How a run of the program ends.
ghost use Rattle.std.specs.Prelude.{◌≡◌};
ghost use Rattle.zw_base.specs.Status.{status_code};

use crate::path::FilePath;
use crate::reason::Reason;
use std::fmt;

/// A limit on what the program takes.
#[derive(Clone, Copy, Debug, PartialEq, Eq)]
pub enum Which {
    /// Commands of a script.
    Commands,
    /// Bytes of one file.
    FileBytes,
    /// Files.
    Files,
    /// Bytes of all files.
    TotalBytes,
}

impl fmt::Display for Which {
    fn fmt<W: fmt::Write>(&self, f: &mut fmt::Formatter<W>) -> fmt::Result {
        match self {
            Which::Commands => write!(f, "Commands"),
            Which::FileBytes => write!(f, "FileBytes"),
            Which::Files => write!(f, "Files"),
            Which::TotalBytes => write!(f, "TotalBytes"),
        }
    }
}

/// How a run ended, in the order of the codes.
#[derive(Debug, Drop)]
pub enum Status {
    /// The last update wrote a module, or there was none.
    Module,
    /// The last update wrote diagnostics.
    Diagnostics,
    /// The words are none that the program serves.
    Usage,
    /// A command of the script is refused; `line` is that of the command, counted from 1.
    BadScript { line: u64, reason: Reason },
    /// The script could not be read.
    ReadFault,
    /// A file could not be read.
    FileFault,
    /// A file that the words name is absent.
    NoFile { path: FilePath },
    /// The output could not be written.
    WriteFault,
    /// There was no memory.
    Memory,
    /// A limit was passed; `number` is the limit.
    Limit { which: Which, number: u64 },
}

impl Status {
    /// The code with which the program ends.
    pub fn code(&self) -> u8
        ensures { result ≡ status_code self.now }
    {
        match self {
            Status::Module => 0,
            Status::Diagnostics => 1,
            Status::Usage => 2,
            Status::BadScript { .. } => 3,
            Status::ReadFault => 4,
            Status::FileFault => 5,
            Status::NoFile { .. } => 6,
            Status::WriteFault => 7,
            Status::Memory => 8,
            Status::Limit { .. } => 9,
        }
    }
}

/// What the program says of a status on standard error; nothing of the first two.
impl fmt::Display for Status {
    fn fmt<W: fmt::Write>(&self, f: &mut fmt::Formatter<W>) -> fmt::Result {
        match self {
            Status::Module | Status::Diagnostics => Ok(()),
            Status::Usage => write!(
                f,
                "usage: zwatch [--once] [--jobs N] [--shards N] --root PATH [PATH...] or --load N"
            ),
            Status::BadScript { line, reason } => write!(f, "script line {line}: {reason}"),
            Status::ReadFault => write!(f, "reading the script failed"),
            Status::FileFault => write!(f, "reading a file failed"),
            Status::NoFile { path } => {
                let path = path.as_str();
                write!(f, "no file {path}")
            }
            Status::WriteFault => write!(f, "writing failed"),
            Status::Memory => write!(f, "out of memory"),
            Status::Limit { which, number } => write!(f, "limit {which} {number}"),
        }
    }
}
