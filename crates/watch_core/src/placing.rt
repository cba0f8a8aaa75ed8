// Diagnostics in their places.
ghost use Rattle.std.specs.Prelude.{◌≡◌, ◌≤◌, ◌<◌, ℕ, List, map, All, IfOk, OnOk, IsSome};
ghost use Rattle.watch_core.specs.Compile.{diag_of, placed};
ghost use Rattle.watch_core.specs.Placing.{AreTexts, Shows, within};
ghost use Rattle.watch_core.specs.Sources.{at_path};
ghost use Rattle.watch_core.specs.SessionState.{total_bytes};

use crate::sources::{Texts, text_in};
use diag_order::{Diag, Line, sorted};
use std::alloc::{AllocError, Global};
use std::collections::BTreeMap;
use zw_base::limits::TOTAL_BYTES;
use zw_base::{Bytes, FilePath, FileTexts, Found, Seq};

/// A diagnostic of the file at a path.
pub fn diag_of(alloc: Global, path: &FilePath, found: &Found) -> Result<Diag, AllocError>
    ensures { IfOk result (λ d. d ≡ diag_of path.now found.now) }
{
    Ok(Diag {
        path: path.clone()?,
        offset: found.span.start,
        code: found.code,
        text: Bytes::of(Vec::from_slice(alloc, found.text.as_slice())?),
    })
}

/// Diagnostics of the file at a path.
pub fn diags_of(alloc: Global, path: &FilePath, found: &[Found]) -> Result<Vec<Diag>, AllocError>
    ensures { IfOk result (λ v. v.items ≡ map (diag_of path.now) found.now) }
{
    let mut diags = Vec::new(alloc);
    for f in found {
        diags.push(diag_of(alloc, path, f)?)?;
    }
    Ok(diags)
}

/// Diagnostics in their places, sorted and each once. Only the texts of files with a diagnostic are
/// copied and searched for lines. A place behind a text is its end.
pub fn placed(alloc: Global, files: &Texts, diags: Vec<Diag>) -> Result<Seq<Line>, AllocError>
    requires { total_bytes files.now.entries ≤ TOTAL_BYTES }
    ensures { IfOk result (λ lines. lines ≡ placed files.now.entries diags.items) }
{
    let texts = texts_of(alloc, files, diags.as_slice())?;
    let diags = diags_within(alloc, files, diags)?;
    Ok(Seq::of(sorted(alloc, diags, &texts)?))
}

/// The texts of the files that have a diagnostic.
fn texts_of(alloc: Global, files: &Texts, diags: &[Diag]) -> Result<FileTexts, AllocError>
    ensures { IfOk result (λ texts. All (Shows files.now.entries texts) diags.now) }
{
    let mut texts = BTreeMap::new(alloc);
    for diag in diags {
        put_text(alloc, files, &diag.path, &mut texts)?;
    }
    listed(alloc, texts)
}

/// Texts as a list.
fn listed(alloc: Global, texts: Texts) -> Result<FileTexts, AllocError>
    ensures { IfOk result (λ list. list ≡ texts.entries) }
{
    Ok(Seq::of(texts.into_iter().collect(alloc)?))
}

/// Puts the text of the file at a path among others, unless it is there.
fn put_text(
    alloc: Global,
    files: &Texts,
    path: &FilePath,
    texts: &mut Texts,
) -> Result<(), AllocError>
    requires { AreTexts files.now.entries texts.old.entries }
    ensures texts { AreTexts files.now.entries texts.new.entries }
    ensures there { OnOk result (IsSome (at_path texts.new.entries path.now)) }
    ensures stay { (q : List ℕ) → IsSome (at_path texts.old.entries q) → IsSome (at_path texts.new.entries q) }
{
    if texts.contains_key(path) {
        return Ok(());
    }
    let text = Vec::from_slice(alloc, text_in(files, path))?;
    texts.insert(path.clone()?, Bytes::of(text))?;
    Ok(())
}

/// The diagnostics, each in its file's text or at its end.
fn diags_within(alloc: Global, files: &Texts, diags: Vec<Diag>) -> Result<Vec<Diag>, AllocError>
    ensures { IfOk result (λ v. v.items ≡ map (within files.now.entries) diags.items) }
{
    Ok(
        diags
            .into_iter()
            .map(|diag| within(files, diag))
            .collect(alloc)?,
    )
}

/// A diagnostic in its file's text or at its end.
fn within(files: &Texts, diag: Diag) -> Diag
    ensures { result ≡ within files.now.entries diag }
{
    let end = text_in(files, &diag.path).len();
    Diag {
        offset: (diag.offset as usize).min(end) as u32,
        ..diag
    }
}
