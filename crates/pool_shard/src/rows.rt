// The pool's rows with one seat, which has the writer's part of every shard.
ghost use Rattle.std.specs.Prelude.{◌≡◌, ℕ, ◌+◌, ◌*◌, ◌/◌, ◌<◌, ◌≤◌, ◌^◌, [], ◌∷◌, ◌++◌, length, replicate, IsSome, IfSome, IfNone, IfOk, IfErr, MatchBool};
ghost use Rattle.type_form.specs.Known.{words_at, IsInjective};
ghost use Rattle.type_form.specs.Known.{Keeps as KeepsWords};
ghost use Rattle.type_form.specs.Means.{Grows};
ghost use Rattle.pool_words.specs.Layout.{hash_of, shard_of, head, level, level_at, IsLayout};
ghost use Rattle.pool_words.specs.Rule.{In, Extends, IsPool};
ghost use Rattle.pool_shard.specs.Pairs.{known, pool_of, GoesOn, AddsAtMost, IsAtNumbers};
ghost use Rattle.pool_shard.specs.Looks.{IsSpot, HasNot};

use crate::add::add_key;
use crate::find::{base_of, find_by, read_row, shard_by};
use crate::hash::hash_key;
use crate::look::look;
use crate::probe::probe;
use crate::seat::{RawSeat, copy, tell};
use pool_words::{Layout, WordSeat, Words, open};
use std::alloc::{AllocError, Global};
use std::marker::Model;
use type_form::{Index, KeyBuf};

/// The shard takes no further row.
#[derive(Clone, Copy, Debug, PartialEq, Eq)]
pub struct Full {
    pub shard: u32,
}

/// A pool's rows. Contracts see them as the id of their table and what their seat knows.
#[derive(Drop)]
pub struct PoolRows {
    pub(crate) words: Words,
    pub(crate) seat: WordSeat,
    pub(crate) layout: Layout,
    /// The rows of each shard.
    pub(crate) counts: Vec<usize>,
    /// The words that the rows of each shard take.
    pub(crate) sums: Vec<usize>,
}

impl Model for PoolRows {
    ghost use Rattle.pool_shard.specs.Pairs.{Rows};
    ghost use Rattle.pool_shard.specs.Looks.{IsRows};

    ghost Value = { Rows };

    ghost view = { λ p. record { id = p.seat.table_id; view = p.seat.me.0 } };

    ghost invariant = { λ p. IsRows p.layout p.words.shared.table_id p.seat p.counts.items p.sums.items };
}

/// The layout of so many words in so many shards.
fn layout_of(shards: usize, words: usize) -> Layout
    requires some { 0 < shards }
    requires few { shards ≤ 64 }
    requires many { shards * 1024 ≤ words }
    requires small { words < 2 ^ 60 }
    ensures laid { IsLayout result }
    ensures counts { (result.shards ≡ shards) × (result.words ≡ words) }
{
    let size = words / shards;
    let mut top = 0;
    let mut next = 193;
    while next <= size / 4 {
        top += 1;
        next = 2 * next + 63;
    }
    Layout {
        shards,
        size,
        top,
        words,
    }
}

impl PoolRows {
    /// Empty rows in so many shards. All words of the pool are taken here.
    pub fn open(alloc: Global, shards: u32, words: usize) -> Result<PoolRows, AllocError>
        requires some { 0 < shards }
        requires few { shards ≤ 64 }
        requires many { shards * 1024 ≤ words }
        ensures empty { IfOk result (λ p. known p ≡ []) }
        ensures layout { IfOk result (λ p. IsLayout p.view.layout × (p.view.layout.shards ≡ shards) × (p.view.layout.words ≡ words)) }
    {
        if words >= 1 << 60 {
            return Err(AllocError);
        }
        let layout = layout_of(shards as usize, words);
        let zeros = vec![in alloc; 0u64; words]?;
        let counts = vec![in alloc; 0usize; layout.shards]?;
        let sums = vec![in alloc; 0usize; layout.shards]?;
        let (words, seat) = open(alloc, &layout, zeros.as_slice())?;
        Ok(PoolRows {
            words,
            seat,
            layout,
            counts,
            sums,
        })
    }

    /// The index of a key of 1 to 64 words, where it is known. Takes no memory and waits for no
    /// thread.
    pub fn find(&mut self, key: &[u64]) -> Option<Index>
        ensures rows { GoesOn self.old self.new }
        ensures grows { Grows (known self.old) (known self.new) }
        ensures agrees { IsInjective (known self.new) }
        ensures found { IfSome result (λ i. words_at (known self.new) i ≡ Some key.now) }
        ensures absent { IfNone result ((i : Index) → words_at (known self.old) i ≡ Some key.now → ⊥) }
        ensures same { self.new.view.log ≡ self.old.view.log }
    {
        match find_by(&self.words, &self.layout, &mut self.seat, key) {
            Some(place) => Some(Index(place as u64)),
            None => None,
        }
    }

    /// The key of a known index. Takes no memory and waits for no thread.
    pub fn key_into(&mut self, i: Index, into: &mut KeyBuf)
        requires { IsSome (words_at (known self.old) i) }
        ensures rows { GoesOn self.old self.new }
        ensures grows { Grows (known self.old) (known self.new) }
        ensures agrees { IsInjective (known self.new) }
        ensures words { words_at (known self.old) i ≡ Some into.new }
        ensures same { self.new.view.log ≡ self.old.view.log }
    {
        read_row(
            &self.words,
            &self.layout,
            &mut self.seat,
            i.0 as usize,
            into,
        );
    }

    /// The index of a key of 1 to 64 words, which is known from then on. Takes no memory.
    pub fn intern(&mut self, key: &[u64]) -> Result<Index, Full>
        requires some { 0 < length key.now }
        requires few { length key.now ≤ 64 }
        ensures rows { GoesOn self.old self.new }
        ensures grows { Grows (known self.old) (known self.new) }
        ensures agrees { IsInjective (known self.new) }
        ensures place { IfOk result (λ i. words_at (known self.new) i ≡ Some key.now) }
        ensures full { IfErr result (λ e. (e.shard ≡ shard_of self.new.view.layout key.now) × IsAtNumbers self.new.view.layout self.new.view.log e.shard (length key.now)) }
        ensures absent { IfErr result (λ e. (i : Index) → words_at (known self.new) i ≡ Some key.now → ⊥) }
        ensures added { IfOk result (λ i. AddsAtMost self.old.view.log (i.0, key.now) self.new.view.log) }
        ensures same { IfErr result (λ e. self.new.view.log ≡ self.old.view.log) }
    {
        let hash = hash_key(key);
        let shard = shard_by(&self.layout, hash);
        let base = base_of(&self.layout, shard);
        let at = look(&self.words, &self.layout, &mut self.seat, base) as usize;
        match probe(&self.words, &self.layout, &mut self.seat, at, hash, key) {
            Ok(place) => Ok(Index(place as u64)),
            Err(far) => self.add(key, hash, shard, at, far),
        }
    }

    /// Whether two known indices are one, which is whether their keys are.
    pub fn same_key(&self, i: Index, j: Index) -> bool
        requires first { IsSome (words_at (known self.now) i) }
        requires second { IsSome (words_at (known self.now) j) }
        ensures index { MatchBool result (i ≡ j) (i ≡ j → ⊥) }
        ensures key { MatchBool result (words_at (known self.now) i ≡ words_at (known self.now) j) (words_at (known self.now) i ≡ words_at (known self.now) j → ⊥) }
    {
        let _seat = &self.seat;
        i.0 == j.0
    }

    /// The number of shards.
    pub fn shards(&self) -> u32
        ensures value { result ≡ self.now.view.layout.shards }
        ensures range { (0 < result) × (result ≤ 64) }
    {
        self.layout.shards as u32
    }

    /// The number of all words. The place of each row is below it.
    pub fn words(&self) -> usize
        ensures value { result ≡ self.now.view.layout.words }
        ensures inside { (i : Index) → IsSome (words_at (known self.now) i) → i.0 < result }
    {
        self.layout.words
    }

    /// A seat that knows as much as the rows, and writes nothing.
    pub fn split(&mut self) -> RawSeat
        ensures same { self.new ≡ self.old }
        ensures of { pool_of result ≡ pool_of self.old }
        ensures known { known result ≡ known self.old }
    {
        RawSeat {
            seat: copy(&self.words, &self.layout, &mut self.seat),
        }
    }

    /// Joins a seat: the rows then know what both knew.
    pub fn join(&mut self, other: RawSeat)
        requires { pool_of other ≡ pool_of self.old }
        ensures rows { GoesOn self.old self.new }
        ensures grows { Grows (known self.old) (known self.new) }
        ensures agrees { IsInjective (known self.new) }
        ensures told { KeepsWords (known other) (known self.new) }
    {
        let RawSeat { seat: other } = other;
        tell(&self.words, &self.layout, &mut self.seat, other);
    }

    // Adds a row for a key that has none.
    fn add(
        &mut self,
        key: &[u64],
        hash: u64,
        shard: usize,
        at: usize,
        far: usize,
    ) -> Result<Index, Full>
        requires some { 0 < length key.now }
        requires few { length key.now ≤ 64 }
        requires hash { (hash ≡ hash_of key.now) × (shard ≡ shard_of self.old.view.layout key.now) }
        requires head { head self.old.view.layout self.old.view.words shard ≡ at }
        requires far { IsSpot (level self.old.view.layout self.old.view.words shard at) at key.now far }
        requires new { HasNot self.old.view.log key.now }
        ensures table { (self.new.id ≡ self.old.id) × (self.new.view.layout ≡ self.old.view.layout) }
        ensures grows { Extends self.old.view.log self.new.view.log × IsPool self.new.view.layout self.new.view.words self.new.view.log }
        ensures place { IfOk result (λ i. In (i.0, key.now) self.new.view.log) }
        ensures full { IfErr result (λ e. (e.shard ≡ shard) × IsAtNumbers self.new.view.layout self.new.view.log e.shard (length key.now)) }
        ensures absent { IfErr result (λ e. HasNot self.new.view.log key.now) }
        ensures added { IfOk result (λ i. self.new.view.log ≡ self.old.view.log ++ (i.0, key.now) ∷ []) }
        ensures same { IfErr result (λ e. self.new.view.log ≡ self.old.view.log) }
    {
        let count = self.counts[shard];
        let taken = self.sums[shard];
        let place = match add_key(
            &self.words,
            &self.layout,
            &mut self.seat,
            shard,
            count,
            taken,
            at,
            far,
            hash,
            key,
        ) {
            Ok(place) => place,
            Err(full) => return Err(full),
        };
        self.counts[shard] = count + 1;
        self.sums[shard] = taken + key.len() + 1;
        Ok(Index(place as u64))
    }
}
