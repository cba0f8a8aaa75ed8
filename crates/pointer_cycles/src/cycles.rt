//! The least places of each cycle of a table of pointers.
ghost use Rattle.std.specs.Prelude.{◌≡◌, ℕ, ◌^◌, ◌<◌, length, slice_index, IfOk};
ghost use Rattle.pointer_cycles.specs.Cycles.{MarksLeast, text_of};
ghost use Rattle.pointer_cycles.specs.Walks.{Settled, after};

use crate::marking::mark_behind;
use crate::walks::{least_behind, walk};
use std::alloc::{AllocError, Global};
use zw_base::Bytes;

/// Which places of a table of pointers lie on a cycle and have the least text of it in byte order:
/// a mark for each place. `next[i]` is where place `i` points; a pointer beyond the end counts as
/// none. `texts[i]` is the text of place `i`; where the least text of a cycle stands at several of
/// its places, each is marked. Refuses only for want of memory.
pub fn least_of_cycles(
    alloc: Global,
    next: &[Option<u32>],
    texts: &[Bytes],
) -> Result<Vec<bool>, AllocError>
    requires texts { length texts.now ≡ length next.now }
    requires few { length next.now < 2 ^ 32 }
    ensures { IfOk result (λ marks. MarksLeast next.now texts.now marks.items) }
{
    let mut visits = vec![in alloc; 0u32; next.len()]?;
    let mut marks = vec![in alloc; false; next.len()]?;
    mark_all(next, texts, visits.as_mut_slice(), marks.as_mut_slice());
    Ok(marks)
}

/// Marks the places of least text of each cycle, where no place was visited and none is marked.
fn mark_all(next: &[Option<u32>], texts: &[Bytes], visits: &mut [u32], marks: &mut [bool])
    requires texts { length texts.now ≡ length next.now }
    requires few { length next.now < 2 ^ 32 }
    requires settled { Settled (after next.now) (length next.now) (text_of texts.now) visits.old marks.old 0 }
    ensures { MarksLeast next.now texts.now marks.new }
{
    let mut count = 0;
    for start in 0..next.len() {
        count = mark_from(next, texts, visits, marks, count, start);
    }
}

/// Visits what one place leads to, marks the places of least text of a cycle that is new, and gives
/// the number of places visited.
fn mark_from(
    next: &[Option<u32>],
    texts: &[Bytes],
    visits: &mut [u32],
    marks: &mut [bool],
    count: u32,
    start: usize,
) -> u32
    requires texts { length texts.now ≡ length next.now }
    requires few { length next.now < 2 ^ 32 }
    requires within { start < length next.now }
    requires settled { Settled (after next.now) (length next.now) (text_of texts.now) visits.old marks.old count }
    ensures settled { Settled (after next.now) (length next.now) (text_of texts.now) visits.new marks.new result }
    ensures visited { 0 < slice_index visits.new start }
    ensures kept { (i : ℕ) → 0 < slice_index visits.old i → 0 < slice_index visits.new i }
{
    let (reached, stop) = walk(next, visits, count, start);
    if stop < next.len() && count < visits[stop] {
        let others = reached - visits[stop];
        let least = least_behind(next, texts, stop, others);
        mark_behind(next, texts, marks, stop, others, least);
    }
    reached
}
