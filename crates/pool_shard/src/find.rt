// The calls of every seat: to find a key, and to read one.
ghost use Rattle.std.specs.Prelude.{◌≡◌, ℕ, ◌+◌, ◌<◌, ◌≤◌, List, IfSome, IfNone};
ghost use Rattle.pool_words.specs.Rule.{In};
ghost use Rattle.pool_words.specs.Layout.{hash_of, shard_of, base, IsLayout};
ghost use Rattle.pool_shard.specs.Looks.{IsSeat, Keeps, HasNot};

use crate::hash::hash_key;
use crate::look::look;
use crate::probe::probe;
use pool_words::{Layout, WordSeat, Words};
use type_form::KeyBuf;

/// The shard of a key, by its hash.
pub(crate) fn shard_by(layout: &Layout, hash: u64) -> usize
    requires { IsLayout layout.now }
    ensures shard { (key : List ℕ) → hash ≡ hash_of key → result ≡ shard_of layout.now key }
    ensures inside { result < layout.now.shards }
{
    (hash % layout.shards as u64) as usize
}

/// The first word of a shard.
pub(crate) fn base_of(layout: &Layout, shard: usize) -> usize
    requires laid { IsLayout layout.now }
    requires inside { shard < layout.now.shards }
    ensures base { result ≡ base layout.now shard }
    ensures room { result + layout.now.size ≤ layout.now.words }
{
    shard * layout.size
}

/// The place of the key's row.
pub(crate) fn find_by(
    words: &Words,
    layout: &Layout,
    seat: &mut WordSeat,
    key: &[u64],
) -> Option<usize>
    requires { IsSeat layout.now words.now.shared.table_id seat.old }
    ensures seat { IsSeat layout.now words.now.shared.table_id seat.new }
    ensures keeps { Keeps seat.old.me.0 seat.new.me.0 }
    ensures slots { seat.new.me.1 ≡ seat.old.me.1 }
    ensures found { IfSome result (λ i. In (i, key.now) seat.new.me.0.log) }
    ensures absent { IfNone result (HasNot seat.old.me.0.log key.now) }
{
    let hash = hash_key(key);
    let shard = shard_by(layout, hash);
    let at = look(words, layout, seat, base_of(layout, shard));
    match probe(words, layout, seat, at as usize, hash, key) {
        Ok(place) => Some(place),
        Err(_) => None,
    }
}

/// The key of the row at a place.
pub(crate) fn read_row(
    words: &Words,
    layout: &Layout,
    seat: &mut WordSeat,
    place: usize,
    into: &mut KeyBuf,
)
    requires seat { IsSeat layout.now words.now.shared.table_id seat.old }
    requires row { (ws : List ℕ) × In (place, ws) seat.old.me.0.log }
    ensures seat { IsSeat layout.now words.now.shared.table_id seat.new }
    ensures keeps { Keeps seat.old.me.0 seat.new.me.0 }
    ensures slots { seat.new.me.1 ≡ seat.old.me.1 }
    ensures key { (ws : List ℕ) → In (place, ws) seat.old.me.0.log → into.new ≡ ws }
{
    let count = look(words, layout, seat, place) as usize;
    into.clear();
    for i in 0..count {
        into.push(look(words, layout, seat, place + 1 + i));
    }
}
