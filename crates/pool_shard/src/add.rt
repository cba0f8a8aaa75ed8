// A row more: a slot for it in the live level, and its publication.
ghost use Rattle.std.specs.Prelude.{◌≡◌, ℕ, suc, ◌+◌, ◌<◌, ◌≤◌, length, IfOk, OnOk, IfErr};
ghost use Rattle.pool_words.specs.Rule.{In};
ghost use Rattle.pool_words.specs.Layout.{hash_of, half, shard_of, base, start, rows_of, head, level, used, IsLayout};
ghost use Rattle.pool_shard.specs.Pairs.{IsAtNumbers};
ghost use Rattle.pool_shard.specs.Looks.{IsSeat, IsSpot, IsOpen, IsReadyShard, IsPart, Touches, Adds, HasNot};

use crate::look::{slot_of, slots_of};
use crate::rows::Full;
use crate::write::{free_spot, grow, start_of, store_row};
use pool_words::{Layout, WordSeat, Words, publish};

/// Half of the slots of a level.
fn half_of(layout: &Layout, level: usize) -> usize
    requires laid { IsLayout layout.now }
    requires level { level ≤ layout.now.top }
    ensures { result ≡ half level }
{
    slots_of(layout, level) / 2
}

/// The slot of a new row. A shard whose live level is half full grows first.
fn open_slot(
    words: &Words,
    layout: &Layout,
    seat: &mut WordSeat,
    shard: usize,
    at: usize,
    far: usize,
    hash: u64,
    key: &[u64],
    count: usize,
) -> usize
    requires seat { IsSeat layout.now words.now.shared.table_id seat.old }
    requires key { (hash ≡ hash_of key.now) × (shard ≡ shard_of layout.now key.now) }
    requires ours { In shard seat.old.me.0.writes × (shard < layout.now.shards) }
    requires live { head layout.now seat.old.me.0.words shard ≡ at }
    requires far { IsSpot (level layout.now seat.old.me.0.words shard at) at key.now far }
    requires count { (count ≡ length (rows_of layout.now shard seat.old.me.0.log)) × (count < half layout.now.top) }
    requires ready { IsReadyShard layout.now seat.old.me.0.words shard }
    ensures seat { IsSeat layout.now words.now.shared.table_id seat.new }
    ensures touches { Touches shard seat.old.me.0 seat.new.me.0 }
    ensures slots { seat.new.me.1 ≡ seat.old.me.1 }
    ensures slot { (live : ℕ) × (far : ℕ) × IsOpen layout.now seat.new.me.0 shard live far result key.now }
    ensures inside { result < layout.now.words }
{
    let _ = key;
    if count < half_of(layout, at) {
        return slot_of(layout, at, hash, far);
    }
    grow(words, layout, seat, shard, at, count);
    let far = free_spot(words, layout, seat, at + 1, hash);
    slot_of(layout, at + 1, hash, far)
}

/// Stores a row and publishes it in its slot.
fn add_row(
    words: &Words,
    layout: &Layout,
    seat: &mut WordSeat,
    shard: usize,
    slot: usize,
    taken: usize,
    key: &[u64],
) -> usize
    requires seat { IsSeat layout.now words.now.shared.table_id seat.old }
    requires key { (0 < length key.now) × (length key.now ≤ 64) × (shard ≡ shard_of layout.now key.now) }
    requires ours { In shard seat.old.me.0.writes × (shard < layout.now.shards) }
    requires slot { (live : ℕ) × (far : ℕ) × IsOpen layout.now seat.old.me.0 shard live far slot key.now }
    requires inside { slot < layout.now.words }
    requires taken { taken ≡ used (rows_of layout.now shard seat.old.me.0.log) }
    requires room { start layout.now + taken + (length key.now + 1) ≤ layout.now.size }
    requires new { HasNot (rows_of layout.now shard seat.old.me.0.log) key.now }
    ensures seat { IsSeat layout.now words.now.shared.table_id seat.new }
    ensures adds { Adds shard (result, key.now) seat.old.me.0 seat.new.me.0 }
    ensures slots { seat.new.me.1 ≡ seat.old.me.1 }
    ensures place { result < layout.now.words }
{
    let place = store_row(words, layout, seat, shard, taken, key);
    publish(words, seat, slot, place as u64 + 1);
    place
}

/// Adds a row for a key that has none, by the shard's writer, who knows how many rows the shard has
/// and how many words they take. Where it takes no more, nothing is written.
pub(crate) fn add_key(
    words: &Words,
    layout: &Layout,
    seat: &mut WordSeat,
    shard: usize,
    count: usize,
    taken: usize,
    at: usize,
    far: usize,
    hash: u64,
    key: &[u64],
) -> Result<usize, Full>
    requires seat { IsSeat layout.now words.now.shared.table_id seat.old }
    requires ours { In shard seat.old.me.0.writes × (shard < layout.now.shards) }
    requires part { IsPart layout.now seat.old.me.0 shard count taken }
    requires some { 0 < length key.now }
    requires few { length key.now ≤ 64 }
    requires hash { (hash ≡ hash_of key.now) × (shard ≡ shard_of layout.now key.now) }
    requires head { head layout.now seat.old.me.0.words shard ≡ at }
    requires far { IsSpot (level layout.now seat.old.me.0.words shard at) at key.now far }
    requires new { HasNot seat.old.me.0.log key.now }
    ensures seat { IsSeat layout.now words.now.shared.table_id seat.new }
    ensures slots { seat.new.me.1 ≡ seat.old.me.1 }
    ensures adds { IfOk result (λ i. Adds shard (i, key.now) seat.old.me.0 seat.new.me.0) }
    ensures fits { OnOk result ((count < half layout.now.top) × (start layout.now + taken + (length key.now + 1) ≤ layout.now.size)) }
    ensures place { IfOk result (λ i. i < layout.now.words) }
    ensures same { IfErr result (λ e. seat.new ≡ seat.old) }
    ensures absent { IfErr result (λ e. HasNot seat.new.me.0.log key.now) }
    ensures full { IfErr result (λ e. (e.shard ≡ shard) × IsAtNumbers layout.now seat.old.me.0.log shard (length key.now)) }
{
    let left = layout.size - start_of(layout) - taken;
    if count >= half_of(layout, layout.top) || left < key.len() + 1 {
        return Err(Full {
            shard: shard as u32,
        });
    }
    let slot = open_slot(words, layout, seat, shard, at, far, hash, key, count);
    Ok(add_row(words, layout, seat, shard, slot, taken, key))
}
