//! The marks of one cycle.
ghost use Rattle.std.specs.Prelude.{◌≡◌, ℕ, ◌^◌, ◌<◌, suc, true, length, if◌then◌else◌, set};
ghost use Rattle.pointer_cycles.specs.Cycles.{is_before, text_of};
ghost use Rattle.pointer_cycles.specs.Walks.{Passed, after, times};

use crate::walks::{comes_before, place_after};
use zw_base::Bytes;

/// Marks a place, unless the text of `least` comes before its own.
fn mark_place(texts: &[Bytes], marks: &mut [bool], place: usize, least: usize)
    requires texts { length texts.now ≡ length marks.old }
    requires place { place < length marks.old }
    requires least { least < length marks.old }
    ensures { marks.new ≡ (if is_before (text_of texts.now least) (text_of texts.now place) then marks.old else set marks.old place true) }
{
    if !comes_before(texts, least, place) {
        marks[place] = true;
    }
}

/// Marks `start` and so many places behind it, but for those whose text that of `least` comes
/// before.
pub(crate) fn mark_behind(
    next: &[Option<u32>],
    texts: &[Bytes],
    marks: &mut [bool],
    start: usize,
    steps: u32,
    least: usize,
)
    requires texts { length texts.now ≡ length next.now }
    requires marks { length marks.old ≡ length next.now }
    requires few { length next.now < 2 ^ 32 }
    requires least { least < length next.now }
    requires within { (k : ℕ) → times (after next.now) k start < length next.now }
    ensures { Passed (after next.now) (text_of texts.now) (text_of texts.now least) marks.old start (suc steps) marks.new }
{
    let mut place = start;
    for _step in 0..steps {
        mark_place(texts, marks, place, least);
        place = place_after(next, place);
    }
    mark_place(texts, marks, place, least);
}
