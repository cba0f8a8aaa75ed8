// The limits on files and on scripts (how much the program takes), and which of them is passed first.
ghost use Rattle.std.specs.Prelude.{◌≡◌, ◌≤◌};
ghost use Rattle.zw_base.specs.Limits as spec;
ghost use Rattle.zw_base.specs.Limits.{passed_beside};

use crate::status::Which;

/// The most commands of a script.
pub const COMMANDS: u64 = 1_000_000;

/// The most bytes of one file.
pub const FILE_BYTES: u64 = 1_048_576;

/// The most files.
pub const FILES: u64 = 1_024;

/// The most bytes of all files together.
pub const TOTAL_BYTES: u64 = 67_108_864;

/// The most bytes of a script's line before its LF.
pub const LINE_BYTES: u64 = 300;

/// The limits of a script and of the files that it changes.
#[derive(Clone, Copy, Debug, PartialEq, Eq)]
pub struct Limits {
    /// The most commands.
    pub commands: u32,
    /// The most files.
    pub files: u32,
    /// The most bytes of one file.
    pub file_bytes: u32,
    /// The most bytes of all files together.
    pub total_bytes: u32,
    /// The most bytes of a line before its LF.
    pub line: u32,
}

/// The limits of the program.
pub const LIMITS: Limits = Limits {
    commands: COMMANDS as u32,
    files: FILES as u32,
    file_bytes: FILE_BYTES as u32,
    total_bytes: TOTAL_BYTES as u32,
    line: LINE_BYTES as u32,
};

/// How many files there are, and how many bytes they have.
#[derive(Clone, Copy, Debug, PartialEq, Eq)]
pub struct Tally {
    pub files: u64,
    pub bytes: u64,
}

impl Limits {
    /// The limit by its name.
    pub fn number(self, which: Which) -> u32
        ensures { result ≡ spec.limit_of self which }
    {
        match which {
            Which::Commands => self.commands,
            Which::FileBytes => self.file_bytes,
            Which::Files => self.files,
            Which::TotalBytes => self.total_bytes,
        }
    }

    /// The first limit on files that one of `len` bytes passes beside others, which are within them.
    pub fn passed_beside(self, beside: Tally, len: u64) -> Option<Which>
        requires { beside.bytes ≤ self.total_bytes }
        ensures { result ≡ passed_beside self beside len }
    {
        if len > u64::from(self.file_bytes) {
            Some(Which::FileBytes)
        } else if beside.files >= u64::from(self.files) {
            Some(Which::Files)
        } else if beside.bytes + len > u64::from(self.total_bytes) {
            Some(Which::TotalBytes)
        } else {
            None
        }
    }
}
