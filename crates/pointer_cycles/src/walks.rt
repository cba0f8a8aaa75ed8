//! Walks along the pointers of a table.
ghost use Rattle.std.specs.Prelude.{◌≡◌, ℕ, ◌+◌, ◌^◌, ◌<◌, ◌≤◌, false, length, slice_index};
ghost use Rattle.std.specs.List.{sum_by};
ghost use Rattle.pointer_cycles.specs.Cycles.{is_before, text_of};
ghost use Rattle.pointer_cycles.specs.Walks.{Walked, after, times, unvisited};

use zw_base::Bytes;

/// The place behind a place, or the number of places where there is none.
pub(crate) fn place_after(next: &[Option<u32>], place: usize) -> usize
    requires { place < length next.now }
    ensures { result ≡ after next.now place }
{
    match next[place] {
        Some(behind) => (behind as usize).min(next.len()),
        None => next.len(),
    }
}

/// Follows the pointers from `start`, and numbers the places on the way from `count` + 1 on, up to
/// the end or to a place that has a number. The last number, and where the walk stops.
pub(crate) fn walk(
    next: &[Option<u32>],
    visits: &mut [u32],
    count: u32,
    start: usize,
) -> (u32, usize)
    requires sized { length visits.old ≡ length next.now }
    requires few { length next.now < 2 ^ 32 }
    requires room { count + sum_by unvisited visits.old ≡ length next.now }
    ensures walked { Walked (after next.now) (length next.now) visits.old count start visits.new result.0 result.1 }
    ensures stopped { result.1 < length next.now → 0 < slice_index visits.new result.1 }
{
    let mut reached = count;
    let mut place = start;
    while place < next.len() {
        if visits[place] != 0 {
            break;
        }
        reached += 1;
        visits[place] = reached;
        place = place_after(next, place);
    }
    (reached, place)
}

/// Whether the text of one place comes before that of another.
pub(crate) fn comes_before(texts: &[Bytes], one: usize, other: usize) -> bool
    requires one { one < length texts.now }
    requires other { other < length texts.now }
    ensures { result ≡ is_before (text_of texts.now one) (text_of texts.now other) }
{
    texts[one].as_slice().cmp(texts[other].as_slice()).is_lt()
}

/// A place of least text among `start` and so many places behind it.
pub(crate) fn least_behind(next: &[Option<u32>], texts: &[Bytes], start: usize, steps: u32) -> usize
    requires texts { length texts.now ≡ length next.now }
    requires few { length next.now < 2 ^ 32 }
    requires within { (k : ℕ) → times (after next.now) k start < length next.now }
    ensures among { (k : ℕ) × (times (after next.now) k start ≡ result) }
    ensures least { (k : ℕ) → k ≤ steps
        → is_before (text_of texts.now (times (after next.now) k start)) (text_of texts.now result) ≡ false }
{
    let mut place = start;
    let mut least = start;
    for _step in 0..steps {
        place = place_after(next, place);
        if comes_before(texts, place, least) {
            least = place;
        }
    }
    least
}
