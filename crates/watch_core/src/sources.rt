// The files that were read, which stay from one update to the next.
ghost use Rattle.std.specs.Prelude.{◌≡◌, ◌≤◌, ◌<◌, [], length, unwrap_or, IfOk, OnOk, IsSome, None};
ghost use Rattle.std.specs.Option.{option_map};
ghost use Rattle.std.specs.Str.{bytes_eq};
ghost use Rattle.zw_base.specs.Outside.{file_at};
ghost use Rattle.diag_order.specs.Sorted.{text_in};
ghost use Rattle.watch_core.specs.SessionState.{total_bytes, with_file};
ghost use Rattle.watch_core.specs.Sources.{at_path, AreRead, IsRead};

use crate::front::front_of;
use std::alloc::{AllocError, Global};
use std::collections::BTreeMap;
use trace_log::Shared;
use zir_form::Front;
use zw_base::limits::TOTAL_BYTES;
use zw_base::{Bytes, FilePath};

/// Files under their paths.
pub type Texts = BTreeMap<FilePath, Bytes>;

/// The fronts of the files that were read, under their paths.
pub type Sources = BTreeMap<FilePath, Shared<Front>>;

/// The text of the file at a path, if it is there.
#[tactic(auto, using(crate::proofs::FilesLemmas::at_path_is))]
pub fn text_of<'a>(files: &'a Texts, path: &FilePath) -> Option<&'a [u8]>
    ensures { option_map (λ t. t.now) result ≡ file_at files.entry.now.entries path.now }
{
    match files.get(path) {
        Some(bytes) => Some(bytes.as_slice()),
        None => None,
    }
}

/// The text of the file at a path; one that is not there reads as an empty file.
#[tactic(auto, using(crate::proofs::FilesLemmas::text_there, crate::proofs::FilesLemmas::text_missing))]
pub fn text_in<'a>(files: &'a Texts, path: &FilePath) -> &'a [u8]
    ensures { result.now ≡ text_in files.entry.now.entries path.now }
{
    match text_of(files, path) {
        Some(text) => text,
        None => &[],
    }
}

/// Reads the file at a path, unless it was read as it stands.
pub fn read_source(
    alloc: Global,
    files: &Texts,
    path: &FilePath,
    sources: &mut Sources,
) -> Result<(), AllocError>
    requires total { total_bytes files.now.entries ≤ TOTAL_BYTES }
    requires read { AreRead sources.old.entries files.now.entries }
    ensures read { AreRead sources.new.entries files.now.entries }
    ensures there { OnOk result (IsSome (at_path sources.new.entries path.now)) }
{
    if sources.contains_key(path) {
        return Ok(());
    }
    let read = front_of(alloc, text_in(files, path))?;
    let front = Shared::new(alloc, read)?;
    sources.insert(path.clone()?, front)?;
    Ok(())
}

/// Forgets a file that is to have another text.
pub fn forget_other(files: &Texts, path: &FilePath, text: &[u8], sources: &mut Sources)
    requires { AreRead sources.old.entries files.now.entries }
    ensures stay { AreRead sources.new.entries files.now.entries }
    ensures change { AreRead sources.new.entries (with_file files.now.entries path.now text.now) }
{
    if has_text(files, path, text) {
        return;
    }
    sources.remove(path);
}

/// Whether the file at a path has this text.
fn has_text(files: &Texts, path: &FilePath, text: &[u8]) -> bool
    ensures { result ≡ bytes_eq (text_in files.now.entries path.now) text.now }
{
    *text_in(files, path) == *text
}

/// The front of the file at a path, which was read.
pub fn front_at<'a>(files: &Texts, sources: &'a Sources, path: &FilePath) -> &'a Shared<Front>
    requires read { AreRead sources.now.entries files.now.entries }
    requires there { IsSome (at_path sources.now.entries path.now) }
    ensures { IsRead (text_in files.now.entries path.now) result.now }
{
    sources.get(path).unwrap()
}
