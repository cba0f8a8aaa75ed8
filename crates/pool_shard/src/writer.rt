// The writer of a shard, which lies behind the shard's lock.
ghost use Rattle.std.specs.Prelude.{◌≡◌, ℕ, ◌+◌, ◌<◌, ◌≤◌, [], length, IfOk, IfErr};
ghost use Rattle.pool_words.specs.Rule.{In, Extends};
ghost use Rattle.pool_words.specs.Layout.{hash_of, shard_of, head, level};
ghost use Rattle.pool_shard.specs.Pairs.{IsAtNumbers};
ghost use Rattle.pool_shard.specs.Looks.{IsSeat, IsSpot, HasNot, IsWriter};

use crate::add::add_key;
use crate::find::base_of;
use crate::look::look;
use crate::name::PoolName;
use crate::probe::probe;
use crate::rows::Full;
use crate::seat::{copy, tell};
use pool_words::{Layout, WordSeat, Words};
use std::marker::{Model, PhantomData};
use std::mem;

/// The seat of a shard's writer, with the shard's counts. Contracts see it as the shard's number.
#[derive(Drop)]
pub(crate) struct Writer<N: PoolName> {
    pub(crate) seat: WordSeat,
    pub(crate) shard: usize,
    /// The rows of the shard.
    pub(crate) count: usize,
    /// The words that they take.
    pub(crate) sum: usize,
    pub(crate) name: PhantomData<N>,
}

impl<N: PoolName> Model for Writer<N> {
    ghost use Rattle.std.specs.Prelude.{ℕ};
    ghost use Rattle.pool_shard.specs.Looks.{IsWriter};

    ghost Value = { ℕ };

    ghost view = { λ w. w.shard };

    ghost invariant = { λ w. IsWriter N.pool.layout N.pool.table w.seat w.shard w.count w.sum };
}

/// Adds a row for a key that has none, by the shard's writer.
fn add_own(
    words: &Words,
    layout: &Layout,
    seat: &mut WordSeat,
    shard: usize,
    count: &mut usize,
    sum: &mut usize,
    at: usize,
    far: usize,
    hash: u64,
    key: &[u64],
) -> Result<usize, Full>
    requires writer { IsWriter layout.now words.now.shared.table_id seat.old shard count.old sum.old }
    requires some { 0 < length key.now }
    requires few { length key.now ≤ 64 }
    requires hash { (hash ≡ hash_of key.now) × (shard ≡ shard_of layout.now key.now) }
    requires head { head layout.now seat.old.me.0.words shard ≡ at }
    requires far { IsSpot (level layout.now seat.old.me.0.words shard at) at key.now far }
    requires new { HasNot seat.old.me.0.log key.now }
    ensures writer { IsWriter layout.now words.now.shared.table_id seat.new shard count.new sum.new }
    ensures log { Extends seat.old.me.0.log seat.new.me.0.log }
    ensures place { IfOk result (λ i. In (i, key.now) seat.new.me.0.log) }
    ensures full { IfErr result (λ e. (e.shard ≡ shard) × IsAtNumbers layout.now seat.new.me.0.log shard (length key.now)) }
    ensures absent { IfErr result (λ e. HasNot seat.new.me.0.log key.now) }
{
    let answer = add_key(words, layout, seat, shard, *count, *sum, at, far, hash, key);
    let place = match answer {
        Ok(place) => place,
        Err(full) => return Err(full),
    };
    *count += 1;
    *sum += key.len() + 1;
    Ok(place)
}

/// The place of a key's row, which stands there from then on, by the shard's writer.
fn intern_own(
    words: &Words,
    layout: &Layout,
    seat: &mut WordSeat,
    shard: usize,
    count: &mut usize,
    sum: &mut usize,
    hash: u64,
    key: &[u64],
) -> Result<usize, Full>
    requires writer { IsWriter layout.now words.now.shared.table_id seat.old shard count.old sum.old }
    requires some { 0 < length key.now }
    requires few { length key.now ≤ 64 }
    requires hash { (hash ≡ hash_of key.now) × (shard ≡ shard_of layout.now key.now) }
    ensures writer { IsWriter layout.now words.now.shared.table_id seat.new shard count.new sum.new }
    ensures log { Extends seat.old.me.0.log seat.new.me.0.log }
    ensures place { IfOk result (λ i. In (i, key.now) seat.new.me.0.log) }
    ensures full { IfErr result (λ e. (e.shard ≡ shard) × IsAtNumbers layout.now seat.new.me.0.log shard (length key.now)) }
    ensures absent { IfErr result (λ e. HasNot seat.new.me.0.log key.now) }
{
    let at = look(words, layout, seat, base_of(layout, shard)) as usize;
    match probe(words, layout, seat, at, hash, key) {
        Ok(place) => Ok(place),
        Err(far) => add_own(words, layout, seat, shard, count, sum, at, far, hash, key),
    }
}

impl<N: PoolName> Writer<N> {
    /// Interns a key of the shard for another seat, which then knows all that both knew.
    pub(crate) fn intern(
        &mut self,
        words: &Words,
        layout: &Layout,
        seat: &mut WordSeat,
        hash: u64,
        key: &[u64],
    ) -> Result<usize, Full>
        requires named { (layout.now ≡ N.pool.layout) × (words.now.shared.table_id ≡ N.pool.table) }
        requires seat { IsSeat layout.now words.now.shared.table_id seat.old }
        requires reads { (seat.old.me.0.writes ≡ []) × (seat.old.me.1 ≡ []) }
        requires some { 0 < length key.now }
        requires few { length key.now ≤ 64 }
        requires hash { (hash ≡ hash_of key.now) × (self.old ≡ shard_of layout.now key.now) }
        ensures seat { IsSeat layout.now words.now.shared.table_id seat.new }
        ensures reads { (seat.new.me.0.writes ≡ []) × (seat.new.me.1 ≡ []) }
        ensures log { Extends seat.old.me.0.log seat.new.me.0.log }
        ensures place { IfOk result (λ i. In (i, key.now) seat.new.me.0.log) }
        ensures full { IfErr result (λ e. (e.shard ≡ shard_of layout.now key.now) × IsAtNumbers layout.now seat.new.me.0.log (shard_of layout.now key.now) (length key.now)) }
        ensures absent { IfErr result (λ e. HasNot seat.new.me.0.log key.now) }
    {
        let blank = copy(words, layout, &mut self.seat);
        let caller = mem::replace(seat, blank);
        tell(words, layout, &mut self.seat, caller);
        let answer = intern_own(
            words,
            layout,
            &mut self.seat,
            self.shard,
            &mut self.count,
            &mut self.sum,
            hash,
            key,
        );
        *seat = copy(words, layout, &mut self.seat);
        answer
    }
}
