// Paths of source files: texts that name a file below the folder in which the program runs.
ghost use Rattle.std.specs.Prelude.{◌≡◌, ◌<◌, length, IfOk, None};
ghost use Rattle.std.specs.List.{list_all, list_any};
ghost use Rattle.std.specs.Prelude.{◌==◌};
ghost use Rattle.std.proofs.Common.{rules};
ghost use Rattle.std.specs.Cmp.{partial_order_from_own_ties};
ghost use Rattle.std.specs.Cmp.Rules.{comparing};
ghost use Rattle.std.specs.Cmp.Lexicographic.{slice_cmp};
ghost use Rattle.std.specs.Ordering.{nat_cmp, as_partial_cmp};
ghost use lib.Pointwise.{pointwise};
ghost use Rattle.zw_base.specs.Path.{MeetsFault, path_fault, begins_badly, is_bad_part, is_path_byte, parts};

use crate::seq::{Bytes, Seq};
use std::alloc::Global;
use std::cmp::Ordering;
use std::marker::Model;
use thiserror::Error;

/// Why a text is no path. The causes are tried in this order.
#[derive(Clone, Copy, Debug, PartialEq, Eq, Error)]
pub enum PathFault {
    #[error("the path is empty")]
    Empty,
    #[error("the path is longer than 255 bytes")]
    TooLong,
    #[error("the path has a byte outside `A-Z a-z 0-9 _ . / -`")]
    BadByte,
    #[error("the path begins with `/` or `-`, or has a part that is empty, `.` or `..`")]
    BadPart,
    #[error("out of memory")]
    OutOfMemory,
}

/// The longest path, in bytes.
const MOST_BYTES: usize = 255;

/// A path of a source file, divided by `/`, relative to the folder in which the program runs.
#[derive(Clone, Debug, Drop)]
pub struct FilePath {
    text: String,
}

impl Model for FilePath {
    ghost use Rattle.std.specs.Prelude.{◌≡◌, List, ℕ, None};
    ghost use Rattle.std.specs.String.{string_bytes};
    ghost use Rattle.zw_base.specs.Path.{path_fault};

    ghost Value = { List ℕ };

    ghost view = { λ p. string_bytes p.text };

    ghost invariant = { λ p. path_fault (string_bytes p.text) ≡ None };
}

impl FilePath {
    /// The path that a text says. Judged by the bytes alone: no file is looked for.
    pub fn of(alloc: Global, text: &str) -> Result<FilePath, PathFault>
        ensures path { IfOk result (λ p. p ≡ text.now) }
        ensures fault { MeetsFault result (path_fault text.now) }
    {
        if let Some(fault) = fault_of(text.as_bytes()) {
            return Err(fault);
        }
        match String::from_str(alloc, text) {
            Ok(text) => Ok(FilePath { text }),
            Err(_) => Err(PathFault::OutOfMemory),
        }
    }

    /// The path's text. Takes no memory.
    pub fn as_str(&self) -> &str
        ensures text { result.now ≡ self.now }
        ensures valid { path_fault self.now ≡ None }
    {
        self.text.as_str()
    }
}

/// The first fault of a path's text.
fn fault_of(bytes: &[u8]) -> Option<PathFault>
    ensures { result ≡ path_fault bytes.now }
{
    if bytes.is_empty() {
        Some(PathFault::Empty)
    } else if bytes.len() > MOST_BYTES {
        Some(PathFault::TooLong)
    } else if !are_path_bytes(bytes) {
        Some(PathFault::BadByte)
    } else if begins_badly(bytes) || has_bad_part(bytes) {
        Some(PathFault::BadPart)
    } else {
        None
    }
}

fn are_path_bytes(bytes: &[u8]) -> bool
    ensures { result ≡ list_all is_path_byte bytes.now }
{
    bytes.iter().all(|b| is_path_byte(*b))
}

/// Whether the first byte is `/` or `-`.
fn begins_badly(bytes: &[u8]) -> bool
    requires { 0 < length bytes.now }
    ensures { result ≡ begins_badly bytes.now }
{
    bytes[0] == b'/' || bytes[0] == b'-'
}

/// `A-Z a-z 0-9 _ . / -`
fn is_path_byte(b: u8) -> bool
    ensures { result ≡ is_path_byte b }
{
    matches!(b, b'A'..=b'Z' | b'a'..=b'z' | b'0'..=b'9' | b'_' | b'.' | b'/' | b'-')
}

/// Whether a part between the slashes is empty, `.` or `..`.
fn has_bad_part(bytes: &[u8]) -> bool
    ensures { result ≡ list_any is_bad_part (parts bytes.now) }
{
    bytes.split(|b| *b == b'/').any(is_bad_part)
}

/// Nothing, `.` or `..`.
fn is_bad_part(part: &[u8]) -> bool
    ensures { result ≡ is_bad_part part.now }
{
    match part {
        [] => true,
        [only] => *only == b'.',
        [first, second] => *first == b'.' && *second == b'.',
        _ => false,
    }
}

impl PartialEq for FilePath {
    ghost eq = { pointwise ◌==◌ };

    ghost laws = { Prim.search (comparing, rules) };

    fn eq(&self, other: &FilePath) -> bool {
        self.text.as_str() == other.text.as_str()
    }
}

impl Eq for FilePath {
    ghost laws = { Prim.search (comparing, rules) };
}

/// Paths are ordered by their bytes.
impl Ord for FilePath {
    ghost cmp = { slice_cmp nat_cmp };

    ghost total = { Prim.search (comparing, rules) };

    ghost matches_partial_cmp = { Prim.search (comparing, rules) };

    ghost matches_eq = { Prim.search (comparing, rules) };

    fn cmp(&self, other: &FilePath) -> Ordering {
        self.text.as_str().cmp(other.text.as_str())
    }
}

impl PartialOrd for FilePath {
    ghost partial_cmp = { as_partial_cmp (slice_cmp nat_cmp) };

    ghost laws = { partial_order_from_own_ties (Prim.search (comparing, rules)) (Prim.search (comparing, rules)) };

    fn partial_cmp(&self, other: &FilePath) -> Option<Ordering> {
        Some(self.cmp(other))
    }
}

/// The texts of files, each beside its path.
pub type FileTexts = Seq<(FilePath, Bytes)>;

/// The lengths of files in bytes, each beside its path.
pub type FileSizes = Seq<(FilePath, u64)>;
