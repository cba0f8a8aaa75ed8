// Files that are read: the trait, and the objects in memory that meet it.
ghost use Rattle.std.specs.Prelude.{◌≡◌, ◌≢◌, ◌≤◌, ℕ, List, Option, Some, IfSome, if◌then◌else◌, IsTrue};
ghost use Rattle.std.specs.Option.{option_copied};
ghost use Rattle.zw_base.specs.Outside.{Rose, file_at, fetched_of, Agrees, Leaves};
ghost use Rattle.zw_base.specs.Plan.{fails_next, after_call};

use crate::path::{FilePath, FileTexts};
use crate::plan::FaultPlan;
use crate::seq::{Bytes, Seq};
use std::marker::Model;

/// The answer of [`Files::read`].
#[derive(Clone, Copy, Debug, PartialEq, Eq)]
pub enum Fetched {
    /// The buffer holds the whole file.
    Read,
    /// There is no such file.
    Absent,
    /// The file is longer than the limit.
    TooLong,
    /// The file could not be read.
    Failed,
    /// There was no memory for the file.
    NoMemory,
}

/// Files that are read by their paths.
pub trait Files {
    /// The files, as pairs of path and bytes, where that is told.
    ghost holds: { Self → Option (List (List ℕ × List ℕ)) };

    /// How often reading has failed. The number never falls.
    ghost faults: { Self → ℕ };

    /// Reads a file of at most `limit` bytes into the buffer, whose own allocator it uses. No call
    /// changes what the files hold, whatever it answers. The buffer is empty after any answer but `Read`.
    fn read(&mut self, path: &FilePath, limit: usize, into: &mut Vec<u8>) -> Fetched
        ensures same { holds self.new ≡ holds self.old }
        ensures told { IfSome (holds self.old) (λ files. Agrees result (file_at files path.now) limit into.new.items) }
        ensures leaves { Leaves result limit into.new.items }
        ensures faults { faults self.old ≤ faults self.new }
        ensures failed { result ≡ Fetched.Failed → Rose (faults self.old) (faults self.new) };
}

/// Files in memory, of which no call fails.
#[derive(Debug, Drop)]
pub struct SureFiles {
    files: FileTexts,
}

impl Model for SureFiles {
    ghost use Rattle.std.specs.Prelude.{List, ℕ};

    ghost Value = { List (List ℕ × List ℕ) };

    ghost view = { λ s. s.files };
}

impl SureFiles {
    pub fn new(files: FileTexts) -> SureFiles
        ensures { result ≡ files }
    {
        SureFiles { files }
    }
}

impl Files for SureFiles {
    ghost holds = { λ s. Some s };

    ghost faults = { λ _. 0 };

    fn read(&mut self, path: &FilePath, limit: usize, into: &mut Vec<u8>) -> Fetched
        ensures same { self.new ≡ self.old }
        ensures told { IfSome (Some self.old) (λ files. Agrees result (file_at files path.now) limit into.new.items) }
        ensures leaves { Leaves result limit into.new.items }
        ensures exact { result ≢ Fetched.NoMemory → result ≡ fetched_of (file_at self.old path.now) limit }
    {
        fetch(self.files.as_slice(), path, limit, into)
    }
}

/// Files in memory, of which the calls that a list of numbers names fail.
#[derive(Debug, Drop)]
pub struct MemFiles {
    files: FileTexts,
    plan: FaultPlan,
}

impl Model for MemFiles {
    ghost use Rattle.zw_base.specs.HeldFiles.{HeldFiles};

    ghost Value = { HeldFiles };

    ghost view = { λ m. record { files = m.files; plan = m.plan } };
}

impl MemFiles {
    /// Files of which the calls with these numbers, counted from 1, fail.
    pub fn new(files: FileTexts, failing: Seq<u64>) -> MemFiles
        ensures files { result.files ≡ files }
        ensures plan { result.plan ≡ record { failing = failing; calls = 0; faults = 0 } }
    {
        MemFiles {
            files,
            plan: FaultPlan::new(failing),
        }
    }
}

impl Files for MemFiles {
    ghost holds = { λ m. Some m.files };

    ghost faults = { λ m. m.plan.faults };

    fn read(&mut self, path: &FilePath, limit: usize, into: &mut Vec<u8>) -> Fetched
        ensures same { self.new.files ≡ self.old.files }
        ensures told { IfSome (Some self.old.files) (λ files. Agrees result (file_at files path.now) limit into.new.items) }
        ensures leaves { Leaves result limit into.new.items }
        ensures faults { self.old.plan.faults ≤ self.new.plan.faults }
        ensures failed { result ≡ Fetched.Failed → Rose self.old.plan.faults self.new.plan.faults }
        ensures exact { result ≢ Fetched.NoMemory → result ≡ (if fails_next self.old.plan then Fetched.Failed else fetched_of (file_at self.old.files path.now) limit) }
        ensures fails { IsTrue (fails_next self.old.plan) → result ≡ Fetched.Failed }
        ensures counted { self.new.plan ≡ after_call self.old.plan }
    {
        if self.plan.call() {
            into.clear();
            return Fetched::Failed;
        }
        fetch(self.files.as_slice(), path, limit, into)
    }
}

/// Reads a file that is held in memory.
fn fetch(files: &[(FilePath, Bytes)], path: &FilePath, limit: usize, into: &mut Vec<u8>) -> Fetched
    ensures told { Agrees result (file_at files.now path.now) limit into.new.items }
    ensures leaves { Leaves result limit into.new.items }
    ensures exact { result ≢ Fetched.NoMemory → result ≡ fetched_of (file_at files.now path.now) limit }
    ensures sure { result ≢ Fetched.Failed }
{
    into.clear();
    match find(files, path) {
        None => Fetched::Absent,
        Some(bytes) if bytes.len() > limit => Fetched::TooLong,
        Some(bytes) => match into.extend_from_slice(bytes.as_slice()) {
            Ok(()) => Fetched::Read,
            Err(_) => Fetched::NoMemory,
        },
    }
}

/// The bytes of the first file with this path.
fn find<'a>(files: &'a [(FilePath, Bytes)], path: &FilePath) -> Option<&'a Bytes>
    ensures { option_copied result ≡ file_at files.entry.now path.now }
{
    for (held, bytes) in files {
        if *held == *path {
            return Some(bytes);
        }
    }
    None
}
