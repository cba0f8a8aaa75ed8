// Loads, and the words of a row.
ghost use Rattle.std.specs.Prelude.{◌≡◌, ℕ, ◌+◌, ◌<◌, ◌≤◌, List, length, slice_index, MatchBool};
ghost use Rattle.pool_words.specs.Rule.{In};
ghost use Rattle.pool_words.specs.Layout.{width, hash_of, shard_of, base, level_at, spot, IsLayout};
ghost use Rattle.pool_shard.specs.Looks.{IsSeat, Keeps};

use pool_words::{Layout, WordSeat, Words, load};

/// A load.
pub(crate) fn look(words: &Words, layout: &Layout, seat: &mut WordSeat, word: usize) -> u64
    requires seat { IsSeat layout.now words.now.shared.table_id seat.old }
    requires inside { word < layout.now.words }
    ensures seat { IsSeat layout.now words.now.shared.table_id seat.new }
    ensures keeps { Keeps seat.old.me.0 seat.new.me.0 }
    ensures slots { seat.new.me.1 ≡ seat.old.me.1 }
    ensures found { result ≡ slice_index seat.new.me.0.words word }
{
    load(words, seat, word)
}

/// The slots of a level.
pub(crate) fn slots_of(layout: &Layout, level: usize) -> usize
    requires laid { IsLayout layout.now }
    requires level { level ≤ layout.now.top }
    ensures { result ≡ width level }
{
    64usize << level
}

/// The slot of a level that is so far from a key's first one, by the key's hash.
pub(crate) fn slot_of(layout: &Layout, at: usize, hash: u64, far: usize) -> usize
    requires laid { IsLayout layout.now }
    requires level { at ≤ layout.now.top }
    requires far { far < width at }
    ensures slot { (key : List ℕ) → hash ≡ hash_of key → result ≡ base layout.now (shard_of layout.now key) + (level_at at + spot key at far) }
    ensures inside { result < layout.now.words }
{
    let shard = (hash % layout.shards as u64) as usize;
    let slots = slots_of(layout, at);
    shard * layout.size + ((slots - 63) + ((hash >> 8) as usize + far) % slots)
}

/// Whether the row at a place has this key.
pub(crate) fn row_is(
    words: &Words,
    layout: &Layout,
    seat: &mut WordSeat,
    place: usize,
    key: &[u64],
) -> bool
    requires seat { IsSeat layout.now words.now.shared.table_id seat.old }
    requires row { (ws : List ℕ) × In (place, ws) seat.old.me.0.log }
    ensures seat { IsSeat layout.now words.now.shared.table_id seat.new }
    ensures keeps { Keeps seat.old.me.0 seat.new.me.0 }
    ensures slots { seat.new.me.1 ≡ seat.old.me.1 }
    ensures answer { (ws : List ℕ) → In (place, ws) seat.old.me.0.log → MatchBool result (ws ≡ key.now) (ws ≡ key.now → ⊥) }
{
    let count = look(words, layout, seat, place);
    if count != key.len() as u64 {
        return false;
    }
    for i in 0..key.len() {
        let word = look(words, layout, seat, place + 1 + i);
        if word != key[i] {
            return false;
        }
    }
    true
}
