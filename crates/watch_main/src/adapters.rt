// The real outside: files of a folder, and standard output. Both tell nothing of content, and count
// their faults.
ghost use Rattle.std.specs.Prelude.{◌≡◌, ◌≤◌, ◌<◌, [], length, None, IfSome};
ghost use Rattle.zw_base.specs.Outside.{Rose, Leaves};

use std::io::{ErrorKind, Read, Write};
use std::{fs, rt};
use zw_base::{Failed, Fetched, FilePath, Files, Sink};

/// How many bytes are read at a time.
const PIECE: usize = 8_192;

/// Files below the folder in which the program runs.
#[derive(Drop)]
pub struct FolderFiles<'r, R> {
    rt: &'r R,
    faults: u64,
}

impl<'r, R: rt::Files> FolderFiles<'r, R> {
    pub fn new(rt: &'r R) -> FolderFiles<'r, R> {
        FolderFiles { rt, faults: 0 }
    }

    /// Counts a fault.
    fn failed(&mut self) -> Fetched
        ensures answer { result ≡ Fetched.Failed }
        ensures rose { Rose self.old.faults self.new.faults }
        ensures grows { self.old.faults ≤ self.new.faults }
    {
        self.faults = self.faults.saturating_add(1);
        Fetched::Failed
    }
}

impl<R: rt::Files> Files for FolderFiles<'_, R> {
    ghost holds = { λ _. None };

    ghost faults = { λ f. f.faults };

    fn read(&mut self, path: &FilePath, limit: usize, into: &mut Vec<u8>) -> Fetched {
        into.clear();
        let mut file = match fs::open(self.rt, path.as_str()) {
            Ok(file) => file,
            Err(e) if is_absence(e.kind()) => return Fetched::Absent,
            Err(_) => return self.failed(),
        };
        match read_whole(&mut file, limit, into) {
            Fetched::Failed => self.failed(),
            fetched => fetched,
        }
    }
}

/// Whether a file that could not be opened is not there. Below a file there are no others.
fn is_absence(kind: ErrorKind) -> bool {
    matches!(kind, ErrorKind::NotFound | ErrorKind::NotADirectory)
}

/// Reads to the end, or past the limit.
fn read_whole<F: Read>(file: &mut F, limit: usize, into: &mut Vec<u8>) -> Fetched
    requires { into.old.items ≡ [] }
    ensures { Leaves result limit into.new.items }
{
    let mut piece = [0u8; PIECE];
    for _ in 0..u64::MAX {
        let n = match file.read(&mut piece) {
            Ok(0) => return Fetched::Read,
            Ok(n) => n,
            Err(e) if e.kind() == ErrorKind::Interrupted => continue,
            Err(_) => break,
        };
        if n > limit - into.len() {
            into.clear();
            return Fetched::TooLong;
        }
        if into.extend_from_slice(&piece[..n]).is_err() {
            into.clear();
            return Fetched::NoMemory;
        }
    }
    into.clear();
    Fetched::Failed
}

/// Standard output.
#[derive(Drop)]
pub struct StdSink<W> {
    writer: W,
    faults: u64,
}

impl<W: Write> StdSink<W> {
    pub fn new(writer: W) -> StdSink<W> {
        StdSink { writer, faults: 0 }
    }
}

impl<W: Write> Sink for StdSink<W> {
    ghost taken = { λ _. None };

    ghost faults = { λ s. s.faults };

    fn write(&mut self, bytes: &[u8]) -> Result<usize, Failed> {
        if bytes.is_empty() {
            return Ok(0);
        }
        match write_some(&mut self.writer, bytes) {
            Some(n) => Ok(n),
            None => {
                self.faults = self.faults.saturating_add(1);
                Err(Failed)
            }
        }
    }
}

/// Writes at least one byte, where the writer takes any.
fn write_some<W: Write>(writer: &mut W, bytes: &[u8]) -> Option<usize>
    ensures { IfSome result (λ n. (1 ≤ n) × (n ≤ length bytes.now)) }
{
    for _ in 0..u64::MAX {
        match writer.write(bytes) {
            Ok(0) => return None,
            Ok(n) => return Some(n),
            Err(e) if e.kind() == ErrorKind::Interrupted => {}
            Err(_) => return None,
        }
    }
    None
}
