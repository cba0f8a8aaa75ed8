// Why a script's command is refused.
use std::fmt;

/// Why a command of a script is refused.
#[derive(Clone, Copy, Debug, PartialEq, Eq)]
pub enum Reason {
    /// The line has more bytes than a line may have.
    LineTooLong,
    /// The input ends inside the line, or before the byte after a file's bytes.
    CutShort,
    /// The line's first word names no command.
    UnknownCommand,
    /// The line is not exactly its command's words, parted by single spaces.
    BadWords,
    /// A word is no path.
    BadPath,
    /// A word is no length.
    BadLength,
    /// The path is that of no file.
    AbsentPath,
    /// The byte after a file's bytes is no LF.
    MissingEnd,
}

/// The reason's name.
impl fmt::Display for Reason {
    fn fmt<W: fmt::Write>(&self, f: &mut fmt::Formatter<W>) -> fmt::Result {
        match self {
            Reason::LineTooLong => write!(f, "LineTooLong"),
            Reason::CutShort => write!(f, "CutShort"),
            Reason::UnknownCommand => write!(f, "UnknownCommand"),
            Reason::BadWords => write!(f, "BadWords"),
            Reason::BadPath => write!(f, "BadPath"),
            Reason::BadLength => write!(f, "BadLength"),
            Reason::AbsentPath => write!(f, "AbsentPath"),
            Reason::MissingEnd => write!(f, "MissingEnd"),
        }
    }
}
