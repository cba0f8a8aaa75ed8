// Diagnostics in order.
ghost use Rattle.std.specs.Prelude.{◌≡◌, ◌≤◌, ◌<◌, ◌+◌, ◌^◌, ◌↔◌, ℕ, List, [], length, map, reverse, true, IfOk, All, Contains};
ghost use Rattle.std.specs.List.Sorted.{IsStrictlySortedBy};
ghost use Rattle.diag_order.specs.declared.line.Line.{Line};
ghost use Rattle.diag_order.specs.Order.{line_cmp};
ghost use Rattle.diag_order.specs.Sorted.{text_in, line_of, IsInFile};
ghost use Rattle.diag_order.specs.Last.{last_text, IsPlace};

use crate::line::{Diag, Line};
use crate::place::{Place, advance};
use std::alloc::{AllocError, Global};
use zw_base::{Bytes, FilePath, FileTexts};

/// The text of a file, and nothing where there is none.
fn text_in<'a>(texts: &'a [(FilePath, Bytes)], path: &FilePath) -> &'a [u8]
    ensures { result.now ≡ text_in texts.now path.now }
{
    for file in texts {
        if file.0 == *path {
            return file.1.as_slice();
        }
    }
    &[]
}

/// Whether the last line is in the file.
fn ends_in(lines: &[Line], path: &FilePath) -> bool
    ensures { result ≡ true → (texts : List (List ℕ × List ℕ)) → last_text texts lines.now ≡ text_in texts path.now }
{
    match lines.last() {
        None => false,
        Some(line) => line.path == *path,
    }
}

/// The text of a file and the place of a byte in it, from the last line's text and place.
fn place_in<'a>(
    texts: &'a FileTexts,
    lines: &[Line],
    last: (&'a [u8], Place),
    path: &FilePath,
    offset: u32,
) -> (&'a [u8], Place)
    requires file { last.0.now ≡ last_text texts.now lines.now }
    requires begun { IsPlace last.0.now last.1 }
    requires within { offset ≤ length (text_in texts.now path.now) }
    requires small { offset + 1 < 2 ^ 32 }
    ensures file { result.0.now ≡ text_in texts.now path.now }
    ensures offset { result.1.offset ≡ offset }
    ensures place { IsPlace result.0.now result.1 }
{
    let (text, place) = last;
    if ends_in(lines, path) && place.offset <= offset {
        return (text, advance(text, place, offset));
    }
    let text = text_in(texts.as_slice(), path);
    (text, advance(text, Place::START, offset))
}

/// The diagnostics in their places, from the last to the first. Those of one file whose bytes rise
/// cost one walk over its text.
fn placed(alloc: Global, mut list: Vec<Diag>, texts: &FileTexts) -> Result<Vec<Line>, AllocError>
    requires { All (IsInFile texts.now) list.items }
    ensures { IfOk result (λ lines. lines.items ≡ map (line_of texts.now) (reverse list.items)) }
{
    let mut lines: Vec<Line> = Vec::new(alloc);
    let mut last: (&[u8], Place) = (&[], Place::START);
    while let Some(diag) = list.pop() {
        last = place_in(texts, &lines, last, &diag.path, diag.offset);
        lines.push(line_at(diag, last.1))?;
    }
    Ok(lines)
}

fn line_at(diag: Diag, place: Place) -> Line
    ensures { result ≡ record { path = diag.path; line = place.line; col = place.col; code = diag.code; text = diag.text } }
{
    let Diag {
        path,
        offset: _,
        code,
        text,
    } = diag;
    Line {
        path,
        line: place.line,
        col: place.col,
        code,
        text,
    }
}

/// The diagnostics in their places: ordered by path, line, column, code and text, without repeats.
/// A path that `texts` lacks reads as an empty file.
pub fn sorted(
    alloc: Global,
    mut list: Vec<Diag>,
    texts: &FileTexts,
) -> Result<Vec<Line>, AllocError>
    requires { All (IsInFile texts.now) list.items }
    ensures each { IfOk result (λ lines. (line : Line) → Contains lines.items line ↔ Contains (map (line_of texts.now) list.items) line) }
    ensures order { IfOk result (λ lines. IsStrictlySortedBy line_cmp lines.items) }
{
    list.sort_unstable_by(|a, b| b.path.cmp(&a.path).then(b.offset.cmp(&a.offset)));
    let mut lines = placed(alloc, list, texts)?;
    lines.sort_unstable();
    lines.dedup();
    Ok(lines)
}
