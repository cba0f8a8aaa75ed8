// A session over files.
ghost use Rattle.std.specs.Prelude.{◌≡◌, ◌≢◌, ◌≤◌, ◌<◌, ◌+◌, ◌*◌, ◌↔◌, ℕ, List, [], length, IsTrue, IfOk, OnOk, OnErr};
ghost use Rattle.zw_base.specs.Limits.{AreWithin, sizes_of};
ghost use Rattle.zw_base.specs.declared.limits.TheConstants.{LIMITS};
ghost use Rattle.watch_core.specs.SessionState.{MeetsLimit, limit_passed, total_bytes, with_file};

use crate::compile::answer;
use crate::sources::{Sources, Texts, forget_other};
use diag_order::Line;
use std::alloc::{AllocError, Global};
use std::collections::BTreeMap;
use std::marker::Model;
use thiserror::Error;
use zw_base::limits::FILES;
use zw_base::{Bytes, FilePath, LIMITS, Seq, Tally, Which};

/// The answer of an update.
#[derive(Debug, Drop)]
pub enum Update {
    /// A module's bytes, and how many units were analysed and how many reused.
    Module {
        bytes: Bytes,
        analysed: u32,
        reused: u32,
    },
    /// Diagnostics, sorted and each once, and the same counts.
    Errors {
        lines: Seq<Line>,
        analysed: u32,
        reused: u32,
    },
    /// There was no memory.
    Memory,
}

/// Why a file is not taken.
#[derive(Clone, Copy, Debug, PartialEq, Eq, Error)]
pub enum SetFault {
    #[error("limit {which} {number}")]
    Limit { which: Which, number: u64 },
    #[error("out of memory")]
    OutOfMemory,
}

/// The files of a compilation, and its root.
#[derive(Drop)]
pub struct Session {
    root: FilePath,
    files: Texts,
    /// The bytes of all files.
    total: u64,
    /// The fronts of the files that were read, each as it stands.
    sources: Sources,
    jobs: u32,
    shards: u32,
    pool_words: usize,
}

impl Model for Session {
    ghost use Rattle.watch_core.specs.SessionState.{SessionState, IsKept};

    ghost Value = { SessionState };

    ghost view = { λ s. record { root = s.root; files = s.files.entries } };

    ghost invariant = { λ s. IsKept s.files.entries s.total s.sources.entries };
}

impl Session {
    ghost use Rattle.watch_core.specs.Compile.{compile};
    ghost use Rattle.watch_core.specs.Counts.{counts, update_of, Nothing};

    /// A session without files. `jobs` is the number of workers, `shards` that of the intern pool's
    /// shards and `pool_words` the pool's size at first.
    pub fn open(
        alloc: Global,
        root: FilePath,
        jobs: u32,
        shards: u32,
        pool_words: usize,
    ) -> Result<Session, AllocError>
        requires jobs { (1 ≤ jobs) × (jobs ≤ 64) }
        requires shards { (1 ≤ shards) × (shards ≤ 64) }
        requires words { 1024 * shards ≤ pool_words }
        ensures { IfOk result (λ s. s ≡ record { root = root; files = [] }) }
    {
        Ok(Session {
            root,
            files: BTreeMap::new(alloc),
            total: 0,
            sources: BTreeMap::new(alloc),
            jobs,
            shards,
            pool_words,
        })
    }

    /// Whether there are as many files as there may be. Takes no memory.
    pub fn is_full(&self) -> bool
        ensures { IsTrue result ↔ (FILES ≤ length self.now.files) }
    {
        self.files.len() as u64 >= FILES
    }

    /// Sets or replaces a file. The limits are judged in the order FileBytes, Files, TotalBytes, for
    /// the files as they would then stand. An `Err` changes nothing.
    pub fn set_file(&mut self, path: FilePath, bytes: Vec<u8>) -> Result<(), SetFault>
        ensures ok { OnOk result (self.new ≡ record self.old { files = with_file self.old.files path bytes.items }) }
        ensures limit { MeetsLimit result (limit_passed self.old.files path bytes.items) }
        ensures err { OnErr result (self.new ≡ self.old) }
    {
        let total = allowed(&self.files, self.total, &path, bytes.as_slice())?;
        forget_other(&self.files, &path, bytes.as_slice(), &mut self.sources);
        match self.files.insert(path, Bytes::of(bytes)) {
            Ok(_) => {
                self.total = total;
                Ok(())
            }
            Err(_) => Err(SetFault::OutOfMemory),
        }
    }

    /// Answers for the files as they stand, on the caller's thread alone. After `Memory` the files
    /// are as before.
    pub fn update_sole(&mut self, alloc: Global) -> Update
        ensures answer { result ≢ Update.Memory → result ≡ update_of (compile self.old.root self.old.files) (counts self.old.root self.old.files Nothing) }
        ensures files { self.new ≡ self.old }
        ensures within { AreWithin LIMITS (sizes_of self.old.files) }
    {
        match answer(alloc, &self.root, &self.files, &mut self.sources) {
            Ok(update) => update,
            Err(AllocError) => Update::Memory,
        }
    }
}

/// How many bytes there would be with one more file, or with another text for one, where no limit is
/// passed.
fn allowed(files: &Texts, total: u64, path: &FilePath, bytes: &[u8]) -> Result<u64, SetFault>
    requires within { AreWithin LIMITS (sizes_of files.now.entries) }
    requires total { total ≡ total_bytes files.now.entries }
    ensures total { IfOk result (λ total. total ≡ total_bytes (with_file files.now.entries path.now bytes.now)) }
    ensures limit { MeetsLimit result (limit_passed files.now.entries path.now bytes.now) }
{
    let others = beside(files, total, path);
    match LIMITS.passed_beside(others, bytes.len() as u64) {
        None => Ok(others.bytes + bytes.len() as u64),
        Some(which) => Err(SetFault::Limit {
            which,
            number: u64::from(LIMITS.number(which)),
        }),
    }
}

/// The files beside the one at a path.
fn beside(files: &Texts, total: u64, path: &FilePath) -> Tally
    requires { total ≡ total_bytes files.now.entries }
    ensures files { (bytes : List ℕ) → result.files + 1 ≡ length (with_file files.now.entries path.now bytes) }
    ensures bytes { (bytes : List ℕ) → result.bytes + length bytes ≡ total_bytes (with_file files.now.entries path.now bytes) }
    ensures within { result.bytes ≤ total }
{
    let count = files.len() as u64;
    match files.get(path) {
        None => Tally {
            files: count,
            bytes: total,
        },
        Some(old) => Tally {
            files: count - 1,
            bytes: total - old.len() as u64,
        },
    }
}
