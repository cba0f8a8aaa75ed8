// What the one writer of a shard does: to store a row, to find a free slot, and to fill the next
// level.
ghost use Rattle.std.specs.Prelude.{◌≡◌, ℕ, suc, ◌+◌, ◌<◌, ◌≤◌, [], ◌∷◌, ◌++◌, List, length, take, slice_index, slice_set};
ghost use Rattle.pool_words.specs.Rule.{In, HasRows, Same};
ghost use Rattle.pool_words.specs.Layout.{Row, hash_of, half, shard_of, base, start, rows_of, head, level, used, window, IsLayout};
ghost use Rattle.pool_words.specs.Views.{Moves};
ghost use Rattle.pool_shard.specs.Looks.{IsSeat, Keeps, IsSpot, Touches, Fills, IsReadyShard, IsNextRow};

use crate::find::base_of;
use crate::look::{look, slot_of, slots_of};
use pool_words::{Layout, WordSeat, Words, fill, move_head, store_private};

/// Where the rows begin in a shard.
pub(crate) fn start_of(layout: &Layout) -> usize
    requires { IsLayout layout.now }
    ensures start { result ≡ start layout.now }
    ensures room { result < layout.now.size }
{
    2 * slots_of(layout, layout.top) - 63
}

/// Stores a word behind the rows of a shard.
fn put(words: &Words, layout: &Layout, seat: &mut WordSeat, shard: usize, word: usize, value: u64)
    requires seat { IsSeat layout.now words.now.shared.table_id seat.old }
    requires ours { In shard seat.old.me.0.writes × (shard < layout.now.shards) }
    requires behind { base layout.now shard + (start layout.now + used (rows_of layout.now shard seat.old.me.0.log)) ≤ word }
    requires inside { word < base layout.now shard + layout.now.size }
    ensures seat { IsSeat layout.now words.now.shared.table_id seat.new }
    ensures keeps { Keeps seat.old.me.0 seat.new.me.0 }
    ensures slots { seat.new.me.1 ≡ seat.old.me.1 }
    ensures stored { Same layout.now shard (slice_set seat.old.me.0.words word value) seat.old.me.0.log seat.new.me.0.words seat.new.me.0.log }
{
    let _ = layout;
    let _ = shard;
    store_private(words, seat, word, value);
}

/// Stores a row behind the rows of its shard.
pub(crate) fn store_row(
    words: &Words,
    layout: &Layout,
    seat: &mut WordSeat,
    shard: usize,
    taken: usize,
    key: &[u64],
) -> usize
    requires seat { IsSeat layout.now words.now.shared.table_id seat.old }
    requires ours { In shard seat.old.me.0.writes × (shard < layout.now.shards) }
    requires taken { taken ≡ used (rows_of layout.now shard seat.old.me.0.log) }
    requires room { start layout.now + taken + (length key.now + 1) ≤ layout.now.size }
    ensures seat { IsSeat layout.now words.now.shared.table_id seat.new }
    ensures keeps { Keeps seat.old.me.0 seat.new.me.0 }
    ensures slots { seat.new.me.1 ≡ seat.old.me.1 }
    ensures place { result ≡ base layout.now shard + (start layout.now + taken) }
    ensures whole { window seat.new.me.0.words result (suc (length key.now)) ≡ length key.now ∷ key.now }
{
    let place = base_of(layout, shard) + (start_of(layout) + taken);
    put(words, layout, seat, shard, place, key.len() as u64);
    for i in 0..key.len() {
        put(words, layout, seat, shard, place + 1 + i, key[i]);
    }
    place
}

/// How far from a key's first slot the first free one of a level is, by the shard's writer.
pub(crate) fn free_spot(
    words: &Words,
    layout: &Layout,
    seat: &mut WordSeat,
    at: usize,
    hash: u64,
) -> usize
    requires seat { IsSeat layout.now words.now.shared.table_id seat.old }
    requires level { at ≤ layout.now.top }
    requires key { (key : List ℕ) × (hash ≡ hash_of key) }
    requires ours { (key : List ℕ) → hash ≡ hash_of key → In (shard_of layout.now key) seat.old.me.0.writes }
    ensures seat { IsSeat layout.now words.now.shared.table_id seat.new }
    ensures keeps { Keeps seat.old.me.0 seat.new.me.0 }
    ensures slots { seat.new.me.1 ≡ seat.old.me.1 }
    ensures spot { (key : List ℕ) → hash ≡ hash_of key → IsSpot (level layout.now seat.new.me.0.words (shard_of layout.now key) at) at key result }
{
    for far in 0..slots_of(layout, at) {
        let slot = slot_of(layout, at, hash, far);
        if look(words, layout, seat, slot) == 0 {
            return far;
        }
    }
    unreachable!()
}

/// The hash of the row at a place, and the length of its key.
pub(crate) fn hash_row(
    words: &Words,
    layout: &Layout,
    seat: &mut WordSeat,
    place: usize,
) -> (u64, usize)
    requires seat { IsSeat layout.now words.now.shared.table_id seat.old }
    requires row { (ws : List ℕ) × In (place, ws) seat.old.me.0.log }
    ensures seat { IsSeat layout.now words.now.shared.table_id seat.new }
    ensures keeps { Keeps seat.old.me.0 seat.new.me.0 }
    ensures slots { seat.new.me.1 ≡ seat.old.me.1 }
    ensures row { (ws : List ℕ) → In (place, ws) seat.old.me.0.log → (result.0 ≡ hash_of ws) × (result.1 ≡ length ws) }
{
    let count = look(words, layout, seat, place) as usize;
    let mut hash: u64 = 0xcbf2_9ce4_8422_2325;
    for i in 0..count {
        let word = look(words, layout, seat, place + 1 + i);
        hash = (hash ^ word).wrapping_mul(0x0000_0100_0000_01b3);
    }
    (hash ^ (hash >> 32), count)
}

/// Puts the next row of a shard into the level after the live one, and answers the place behind it.
fn fill_next(
    words: &Words,
    layout: &Layout,
    seat: &mut WordSeat,
    shard: usize,
    at: usize,
    place: usize,
) -> usize
    requires seat { IsSeat layout.now words.now.shared.table_id seat.old }
    requires ours { In shard seat.old.me.0.writes × (shard < layout.now.shards) }
    requires live { (head layout.now seat.old.me.0.words shard ≡ at) × (at < layout.now.top) }
    requires next { (n : ℕ) × (r : Row) × IsNextRow layout.now seat.old.me.0 shard at n r × (r.0 ≡ place) }
    ensures seat { IsSeat layout.now words.now.shared.table_id seat.new }
    ensures fills { Fills shard (suc at) seat.old.me.0 seat.new.me.0 }
    ensures slots { seat.new.me.1 ≡ seat.old.me.1 }
    ensures filled { (n : ℕ) (r : Row) → IsNextRow layout.now seat.old.me.0 shard at n r → r.0 ≡ place → HasRows (level layout.now seat.new.me.0.words shard (suc at)) (suc at) (take (suc n) (rows_of layout.now shard seat.new.me.0.log)) }
    ensures place { (n : ℕ) (r : Row) → IsNextRow layout.now seat.old.me.0 shard at n r → r.0 ≡ place → result ≡ place + (length r.1 + 1) }
{
    let _ = shard;
    let (hash, count) = hash_row(words, layout, seat, place);
    let far = free_spot(words, layout, seat, at + 1, hash);
    let slot = slot_of(layout, at + 1, hash, far);
    fill(words, seat, slot, place as u64 + 1);
    place + count + 1
}

/// Fills the level after the live one with every row of a shard, and moves the head to it.
pub(crate) fn grow(
    words: &Words,
    layout: &Layout,
    seat: &mut WordSeat,
    shard: usize,
    at: usize,
    count: usize,
)
    requires seat { IsSeat layout.now words.now.shared.table_id seat.old }
    requires ours { In shard seat.old.me.0.writes × (shard < layout.now.shards) }
    requires live { (head layout.now seat.old.me.0.words shard ≡ at) × (at < layout.now.top) }
    requires count { (count ≡ length (rows_of layout.now shard seat.old.me.0.log)) × (half at ≤ count) }
    requires empty { HasRows (level layout.now seat.old.me.0.words shard (suc at)) (suc at) [] }
    ensures seat { IsSeat layout.now words.now.shared.table_id seat.new }
    ensures touches { Touches shard seat.old.me.0 seat.new.me.0 }
    ensures slots { seat.new.me.1 ≡ seat.old.me.1 }
    ensures live { head layout.now seat.new.me.0.words shard ≡ suc at }
    ensures ready { IsReadyShard layout.now seat.new.me.0.words shard }
{
    let mut place = base_of(layout, shard) + start_of(layout);
    for n in 0..count {
        place = fill_next(words, layout, seat, shard, at, place);
    }
    move_head(words, seat, base_of(layout, shard), at as u64 + 1);
}
