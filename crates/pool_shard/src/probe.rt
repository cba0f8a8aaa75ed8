// The search for a key in a level.
ghost use Rattle.std.specs.Prelude.{◌≡◌, IfOk, IfErr};
ghost use Rattle.pool_words.specs.Rule.{In};
ghost use Rattle.pool_words.specs.Layout.{hash_of, shard_of, head, level};
ghost use Rattle.pool_shard.specs.Looks.{IsSeat, Keeps, IsSpot, HasNot};

use crate::look::{look, row_is, slot_of, slots_of};
use pool_words::{Layout, WordSeat, Words};

/// Where the key's row is, or how far from its first slot the first free one of the level is.
pub(crate) fn probe(
    words: &Words,
    layout: &Layout,
    seat: &mut WordSeat,
    at: usize,
    hash: u64,
    key: &[u64],
) -> Result<usize, usize>
    requires seat { IsSeat layout.now words.now.shared.table_id seat.old }
    requires hash { hash ≡ hash_of key.now }
    requires head { head layout.now seat.old.me.0.words (shard_of layout.now key.now) ≡ at }
    ensures seat { IsSeat layout.now words.now.shared.table_id seat.new }
    ensures keeps { Keeps seat.old.me.0 seat.new.me.0 }
    ensures slots { seat.new.me.1 ≡ seat.old.me.1 }
    ensures found { IfOk result (λ i. In (i, key.now) seat.new.me.0.log) }
    ensures absent { IfErr result (λ far. HasNot seat.old.me.0.log key.now) }
    ensures free { IfErr result (λ far. IsSpot (level layout.now seat.new.me.0.words (shard_of layout.now key.now) at) at key.now far) }
{
    let slots = slots_of(layout, at);
    for far in 0..slots {
        let slot = slot_of(layout, at, hash, far);
        let value = look(words, layout, seat, slot);
        if value == 0 {
            return Err(far);
        }
        let place = value as usize - 1;
        if row_is(words, layout, seat, place, key) {
            return Ok(place);
        }
    }
    unreachable!()
}
