// One run over the outside.
ghost use Rattle.std.specs.Prelude.{◌≡◌, ◌≢◌, ◌≤◌, ◌<◌, [], ◌∷◌, List, ℕ, IfSome, IfOk, IfErr, map, Some, None, Err};
ghost use Rattle.std.specs.String.{string_bytes};
ghost use Rattle.zw_base.specs.Outside.{Rose, file_at};
ghost use Rattle.watch_main.specs.Session.{read_words, with_text, with_word};
ghost use Rattle.watch_main.specs.RunOnce.{Follows, IsReady, IsAnswered, Refuses, files_asked};
ghost use Rattle.watch_main.specs.Steps.{IsReadRefusal, Opens, Reads, Writes};
ghost use Rattle.watch_main.specs.Words.{AreInRange, words_of};

use crate::answer::write_update;
use crate::words::{Words, words_of};
use std::alloc::Global;
use watch_core::{Session, SetFault};
use zw_base::limits::{FILE_BYTES, FILES};
use zw_base::{Fetched, FilePath, Files, Sink, Status, Which};

/// The intern pool's words at first.
const POOL_WORDS: usize = 1_048_576;

/// A session over the files that the words name.
pub fn opened<F: Files>(alloc: Global, words: &Words, files: &mut F) -> Result<Session, Status>
    requires { AreInRange words.now }
    ensures told { IfSome (F.holds files.old) (λ held. Opens result words.now.root (read_words held words.now.paths [])) }
    ensures refusal { IfErr result IsReadRefusal }
    ensures same { F.holds files.new ≡ F.holds files.old }
    ensures faults { F.faults files.old ≤ F.faults files.new }
    ensures rose { result ≡ Err Status.FileFault → Rose (F.faults files.old) (F.faults files.new) }
{
    let mut session = without_files(alloc, words)?;
    read_files(alloc, words.paths.as_slice(), files, &mut session)?;
    Ok(session)
}

/// A session that has no files yet.
fn without_files(alloc: Global, words: &Words) -> Result<Session, Status>
    requires { AreInRange words.now }
    ensures session { IfOk result (λ session. session ≡ record { root = words.now.root; files = [] }) }
    ensures memory { IfErr result (λ status. status ≡ Status.Memory) }
{
    let Ok(root) = words.root.clone() else {
        return Err(Status::Memory);
    };
    match Session::open(alloc, root, words.jobs, words.shards, POOL_WORDS) {
        Ok(session) => Ok(session),
        Err(_) => Err(Status::Memory),
    }
}

/// Reads the files at these paths into a session, in their order.
fn read_files<F: Files>(
    alloc: Global,
    paths: &[FilePath],
    files: &mut F,
    session: &mut Session,
) -> Result<(), Status>
    ensures told { IfSome (F.holds files.old) (λ held. Reads result session.new.files (read_words held paths.now session.old.files)) }
    ensures root { session.new.root ≡ session.old.root }
    ensures refusal { IfErr result IsReadRefusal }
    ensures same { F.holds files.new ≡ F.holds files.old }
    ensures faults { F.faults files.old ≤ F.faults files.new }
    ensures rose { result ≡ Err Status.FileFault → Rose (F.faults files.old) (F.faults files.new) }
{
    for path in paths {
        read_file(alloc, path, files, session)?;
    }
    Ok(())
}

/// Reads the file at a path into a session. The refusals are tried in this order: there are too many
/// files, the file can't be read, it is absent, it is too long, all files together are.
fn read_file<F: Files>(
    alloc: Global,
    path: &FilePath,
    files: &mut F,
    session: &mut Session,
) -> Result<(), Status>
    ensures told { IfSome (F.holds files.old) (λ held. Reads result session.new.files (with_word session.old.files path.now (file_at held path.now))) }
    ensures root { session.new.root ≡ session.old.root }
    ensures refusal { IfErr result IsReadRefusal }
    ensures same { F.holds files.new ≡ F.holds files.old }
    ensures faults { F.faults files.old ≤ F.faults files.new }
    ensures rose { result ≡ Err Status.FileFault → Rose (F.faults files.old) (F.faults files.new) }
{
    if session.is_full() {
        return Err(limit(Which::Files, FILES));
    }
    let Ok(path) = path.clone() else {
        return Err(Status::Memory);
    };
    let mut text = Vec::new(alloc);
    match files.read(&path, FILE_BYTES as usize, &mut text) {
        Fetched::Read => put_file(path, text, session),
        Fetched::Absent => Err(Status::NoFile { path }),
        Fetched::TooLong => Err(limit(Which::FileBytes, FILE_BYTES)),
        Fetched::Failed => Err(Status::FileFault),
        Fetched::NoMemory => Err(Status::Memory),
    }
}

/// Puts a file into a session.
fn put_file(path: FilePath, text: Vec<u8>, session: &mut Session) -> Result<(), Status>
    ensures reads { Reads result session.new.files (with_text session.old.files path (Some text.items)) }
    ensures root { session.new.root ≡ session.old.root }
    ensures refusal { IfErr result IsReadRefusal }
    ensures sure { result ≢ Err Status.FileFault }
{
    match session.set_file(path, text) {
        Ok(()) => Ok(()),
        Err(SetFault::Limit { which, number }) => Err(limit(which, number)),
        Err(SetFault::OutOfMemory) => Err(Status::Memory),
    }
}

/// That a limit was passed.
fn limit(which: Which, number: u64) -> Status
    ensures { result ≡ Status.Limit which number }
{
    Status::Limit { which, number }
}

/// Carries out words with `--once`: reads the files that they name, compiles, and writes the answer.
/// Other words are `Usage`. Waits for nothing, and always returns.
pub fn run_once<F: Files, K: Sink>(
    alloc: Global,
    words: &[String],
    files: &mut F,
    out: &mut K,
) -> Status
    // What was written, and the status, are those of the session, up to the cause that the status names.
    ensures session { IfSome (F.holds files.old) (λ held. Writes (K.taken out.old) (K.taken out.new)
        (λ written. Follows result written (map string_bytes words.now) held)) }

    // Usage comes exactly where the words are outside the table, whatever the outside tells; nothing is written then.
    ensures usage { result ≡ Status.Usage → words_of (map string_bytes words.now) ≡ None }
    ensures not_served { words_of (map string_bytes words.now) ≡ None → (result ≡ Status.Usage) × (K.taken out.new ≡ K.taken out.old) }

    // Words or files that are refused are so answered, unless a file could not be read or there was no memory;
    // nothing is written then.
    ensures refused { IfSome (F.holds files.old) (λ held. IfErr (files_asked (map string_bytes words.now) held)
        (λ why. Refuses result why × (K.taken out.new ≡ K.taken out.old))) }

    // A fault is answered only where the outside failed in this call.
    ensures file_fault { result ≡ Status.FileFault → Rose (F.faults files.old) (F.faults files.new) }
    ensures write_fault { result ≡ Status.WriteFault → Rose (K.faults out.old) (K.faults out.new) }
    ensures file_faults { F.faults files.old ≤ F.faults files.new }
    ensures write_faults { K.faults out.old ≤ K.faults out.new }
    ensures same { F.holds files.new ≡ F.holds files.old }

    // Words in the table, files that are there and within the limits, and no fault: an answer, or no memory.
    ensures complete { IfSome (F.holds files.old) (λ held. IsReady (map string_bytes words.now) held
        → (Rose (F.faults files.old) (F.faults files.new) → ⊥) → (Rose (K.faults out.old) (K.faults out.new) → ⊥)
        → IsAnswered result) }
{
    let words = match words_of(alloc, words) {
        Ok(words) => words,
        Err(status) => return status,
    };
    let mut session = match opened(alloc, &words, files) {
        Ok(session) => session,
        Err(status) => return status,
    };
    let update = session.update_sole(alloc);
    write_update(alloc, update, out)
}
