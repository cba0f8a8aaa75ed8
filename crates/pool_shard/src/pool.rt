// The pool shared among seats in threads of their own, with a lock for each shard.
ghost use Rattle.std.specs.Prelude.{◌≡◌, ℕ, ◌+◌, ◌<◌, ◌≤◌, [], length, IsSome, IfSome, IfNone, IfOk, IfErr};
ghost use Rattle.type_form.specs.Known.{words_at, IsInjective};
ghost use Rattle.type_form.specs.Known.{Keeps as KeepsWords};
ghost use Rattle.type_form.specs.Means.{Grows};
ghost use Rattle.pool_words.specs.Layout.{hash_of, shard_of};
ghost use Rattle.pool_words.specs.Rule.{In, Extends};
ghost use Rattle.pool_words.specs.Views.{below};
ghost use Rattle.pool_shard.specs.Pairs.{known, pool_of, GoesOn, IsAtNumbers};
ghost use Rattle.pool_shard.specs.Looks.{IsSeat, HasNot, IsPart};
ghost use Rattle.pool_shard.specs.declared.pool.ShareFault.TheVariants.{OutOfMemory};

use crate::find::{find_by, read_row, shard_by};
use crate::gather::take_over;
use crate::hash::hash_key;
use crate::name::PoolName;
use crate::rows::{Full, PoolRows};
use crate::seat::{RawSeat, copy, tell};
use crate::writer::Writer;
use pool_words::{Layout, WordSeat, Words, hand_over};
use std::alloc::Global;
use std::marker::{Model, PhantomData};
use std::sync::{Mutex, Wait};
use type_form::{Index, KeyBuf};
use zw_base::Gate;

/// Why rows are not shared. They come back as they were.
#[derive(Drop)]
pub enum ShareFault {
    OutOfMemory { rows: PoolRows },
}

/// A pool that seats share. Behind each lock stands the writer of a shard. Contracts see it as its
/// table and layout, which are those that N names.
#[derive(Drop)]
pub struct Pool<N: PoolName> {
    words: Words,
    layout: Layout,
    /// Room for the counts of each shard, which its writer keeps while the pool is shared.
    counts: Vec<usize>,
    sums: Vec<usize>,
    locks: Vec<Mutex<Writer<N>>>,
}

impl<N: PoolName> Model for Pool<N> {
    ghost use Rattle.std.specs.Vec.{vec_len};
    ghost use Rattle.pool_shard.specs.Pairs.{PoolId};
    ghost use Rattle.pool_shard.specs.Looks.{IsPoolOf};

    ghost Value = { PoolId };

    ghost view = { λ p. record { table = p.words.shared.table_id; layout = p.layout } };

    ghost invariant = { λ p. IsPoolOf N.pool p.layout p.words.shared.table_id (vec_len p.counts) (vec_len p.sums) (vec_len p.locks) };
}

impl<N: PoolName> Pool<N> {
    /// Shares rows: each writer's part goes behind its shard's lock, and the seat that is left knows
    /// all that the rows knew.
    pub fn share(alloc: Global, rows: PoolRows) -> Result<(Pool<N>, RawSeat), ShareFault>
        requires named { pool_of rows ≡ N.pool }
        ensures rows { IfOk result (λ t. GoesOn rows t.1) }
        ensures known { IfOk result (λ t. known t.1 ≡ known rows) }
        ensures back { IfErr result (λ e. e ≡ OutOfMemory rows) }
    {
        let shards = rows.layout.shards;
        let Ok(mut locks) = Vec::with_capacity(alloc, shards) else {
            return Err(ShareFault::OutOfMemory { rows });
        };
        let PoolRows {
            words,
            mut seat,
            layout,
            counts,
            sums,
        } = rows;
        for done in 0..shards {
            // The part that goes is that of the last shard of those left.
            let shard = shards - 1 - done;
            let count = counts[shard];
            let sum = sums[shard];
            let writer = part(&words, &layout, &mut seat, shard, count, sum);
            locks.push_reserved(Mutex::new(writer));
        }
        locks.reverse();
        let pool = Pool {
            words,
            layout,
            counts,
            sums,
            locks,
        };
        Ok((pool, RawSeat { seat }))
    }

    /// The index of a key of 1 to 64 words, where it is known. Takes no memory and waits for no
    /// thread, whoever holds a lock.
    pub fn find(&self, seat: &mut RawSeat, key: &[u64]) -> Option<Index>
        requires of { pool_of seat.old ≡ N.pool }
        ensures rows { GoesOn seat.old seat.new }
        ensures grows { Grows (known seat.old) (known seat.new) }
        ensures agrees { IsInjective (known seat.new) }
        ensures found { IfSome result (λ i. words_at (known seat.new) i ≡ Some key.now) }
        ensures absent { IfNone result ((i : Index) → words_at (known seat.old) i ≡ Some key.now → ⊥) }
    {
        match find_by(&self.words, &self.layout, &mut seat.seat, key) {
            Some(place) => Some(Index(place as u64)),
            None => None,
        }
    }

    /// The key of a known index. Takes no memory and waits for no thread.
    pub fn key_into(&self, seat: &mut RawSeat, i: Index, into: &mut KeyBuf)
        requires of { pool_of seat.old ≡ N.pool }
        requires known { IsSome (words_at (known seat.old) i) }
        ensures rows { GoesOn seat.old seat.new }
        ensures grows { Grows (known seat.old) (known seat.new) }
        ensures agrees { IsInjective (known seat.new) }
        ensures words { words_at (known seat.old) i ≡ Some into.new }
    {
        read_row(
            &self.words,
            &self.layout,
            &mut seat.seat,
            i.0 as usize,
            into,
        );
    }

    /// The index of a key of 1 to 64 words, which is known from then on. Takes no memory, but may
    /// wait for the lock of the key's shard, and calls `at_publish` while it holds it.
    pub fn intern<R: Wait, G: Gate>(
        &self,
        rt: &R,
        seat: &mut RawSeat,
        gate: &G,
        key: &[u64],
    ) -> Result<Index, Full>
        requires of { pool_of seat.old ≡ N.pool }
        requires some { 0 < length key.now }
        requires few { length key.now ≤ 64 }
        ensures rows { GoesOn seat.old seat.new }
        ensures grows { Grows (known seat.old) (known seat.new) }
        ensures agrees { IsInjective (known seat.new) }
        ensures place { IfOk result (λ i. words_at (known seat.new) i ≡ Some key.now) }
        ensures full { IfErr result (λ e. (e.shard ≡ shard_of seat.new.view.layout key.now) × IsAtNumbers seat.new.view.layout seat.new.view.log e.shard (length key.now)) }
        ensures absent { IfErr result (λ e. (i : Index) → words_at (known seat.new) i ≡ Some key.now → ⊥) }
    {
        let hash = hash_key(key);
        let shard = shard_by(&self.layout, hash);
        match self.ask(rt, &mut seat.seat, gate, shard, hash, key) {
            Ok(place) => Ok(Index(place as u64)),
            Err(full) => Err(full),
        }
    }

    // Asks the writer of the key's shard. It stands behind the lock of this number, but no clause
    // ties a lock to a shard: so where it did not, the next locks would be tried.
    fn ask<R: Wait, G: Gate>(
        &self,
        rt: &R,
        seat: &mut WordSeat,
        gate: &G,
        shard: usize,
        hash: u64,
        key: &[u64],
    ) -> Result<usize, Full>
        requires hash { (hash ≡ hash_of key.now) × (shard ≡ shard_of self.now.layout key.now) }
        requires seat { IsSeat self.now.layout self.now.table seat.old }
        requires reads { (seat.old.me.0.writes ≡ []) × (seat.old.me.1 ≡ []) }
        requires some { 0 < length key.now }
        requires few { length key.now ≤ 64 }
        ensures seat { IsSeat self.now.layout self.now.table seat.new }
        ensures reads { (seat.new.me.0.writes ≡ []) × (seat.new.me.1 ≡ []) }
        ensures log { Extends seat.old.me.0.log seat.new.me.0.log }
        ensures place { IfOk result (λ i. In (i, key.now) seat.new.me.0.log) }
        ensures full { IfErr result (λ e. (e.shard ≡ shard_of self.now.layout key.now) × IsAtNumbers self.now.layout seat.new.me.0.log (shard_of self.now.layout key.now) (length key.now)) }
        ensures absent { IfErr result (λ e. HasNot seat.new.me.0.log key.now) }
    {
        let mut at = shard;
        for _ in rt.forever() {
            let mut writer = self.locks[at].lock(rt);
            if writer.shard == shard {
                let answer = writer.intern(&self.words, &self.layout, seat, hash, key);
                gate.at_publish(shard as u32);
                return answer;
            }
            at = if at + 1 < self.locks.len() { at + 1 } else { 0 };
        }
        unreachable!()
    }

    /// Splits a seat: the new one knows as much.
    pub fn split(&self, seat: &mut RawSeat) -> RawSeat
        requires of { pool_of seat.old ≡ N.pool }
        ensures same { seat.new ≡ seat.old }
        ensures of { pool_of result ≡ N.pool }
        ensures known { known result ≡ known seat.old }
    {
        RawSeat {
            seat: copy(&self.words, &self.layout, &mut seat.seat),
        }
    }

    /// Joins a seat: the first one then knows what both knew.
    pub fn join(&self, seat: &mut RawSeat, other: RawSeat)
        requires of { pool_of seat.old ≡ N.pool }
        requires other { pool_of other ≡ N.pool }
        ensures rows { GoesOn seat.old seat.new }
        ensures grows { Grows (known seat.old) (known seat.new) }
        ensures agrees { IsInjective (known seat.new) }
        ensures told { KeepsWords (known other) (known seat.new) }
    {
        let RawSeat { seat: other } = other;
        tell(&self.words, &self.layout, &mut seat.seat, other);
    }

    /// Ends the sharing. The rows know all that the seat knew, and their seat has the writer's part
    /// of each shard, whose rows it all knows. Takes no memory and waits for no thread.
    pub fn close(self, seat: RawSeat) -> PoolRows
        requires of { pool_of seat ≡ N.pool }
        ensures rows { GoesOn seat result }
        ensures grows { Grows (known seat) (known result) }
        ensures agrees { IsInjective (known result) }
        ensures whole { (s : ℕ) → s < result.view.layout.shards → In s result.view.writes }
    {
        let Pool {
            words,
            layout,
            mut counts,
            mut sums,
            mut locks,
        } = self;
        let RawSeat { mut seat } = seat;
        while let Some(lock) = locks.pop() {
            take_over(
                &words,
                &layout,
                &mut seat,
                lock.into_inner(),
                &mut counts,
                &mut sums,
            );
        }
        PoolRows {
            words,
            seat,
            layout,
            counts,
            sums,
        }
    }
}

/// Splits off the part of the first shard that the seat has.
fn part<N: PoolName>(
    words: &Words,
    layout: &Layout,
    seat: &mut WordSeat,
    shard: usize,
    count: usize,
    sum: usize,
) -> Writer<N>
    requires named { (layout.now ≡ N.pool.layout) × (words.now.shared.table_id ≡ N.pool.table) }
    requires seat { IsSeat layout.now words.now.shared.table_id seat.old }
    requires slots { seat.old.me.1 ≡ [] }
    requires first { seat.old.me.0.writes ≡ below (shard + 1) }
    requires part { (shard < layout.now.shards) × IsPart layout.now seat.old.me.0 shard count sum }
    ensures seat { IsSeat layout.now words.now.shared.table_id seat.new }
    ensures slots { seat.new.me.1 ≡ [] }
    ensures rest { seat.new.me.0.writes ≡ below shard }
    ensures same { (seat.new.me.0.words ≡ seat.old.me.0.words) × (seat.new.me.0.log ≡ seat.old.me.0.log) }
{
    let _layout = *layout;
    Writer {
        seat: hand_over(words, seat),
        shard,
        count,
        sum,
        name: PhantomData,
    }
}
