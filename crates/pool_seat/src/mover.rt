// The rows that are reached, moved from one pool to another, each after those that it holds.
ghost use Rattle.std.specs.Prelude.{◌≡◌, ℕ, Bool, false, ◌<◌, ◌≤◌, List, [], ◌∷◌, length, slice_index, vec_len, IfOk, OnOk, IfErr, OnErr, IfSome, IfNone, IsSome, Some};
ghost use Rattle.type_form.specs.Known.{words_at};
ghost use Rattle.type_form.specs.Words.{index_of};
ghost use Rattle.type_form.specs.Denote.{denoted};
ghost use Rattle.pool_words.specs.Rule.{In};
ghost use Rattle.pool_shard.specs.Pairs.{known};
ghost use Rattle.pool_seat.specs.Reach.{Reached};
ghost use Rattle.pool_seat.specs.Moves.{IsMoved, Becomes, IsNewKey};
ghost use Rattle.pool_seat.specs.Order.{added, olds, places};
ghost use Rattle.pool_seat.specs.Movers.{Needs, WordNeeds, WordReached, WordBecomes, HasRow, IsChain, Later, SameNew, HasParts};
ghost use Rattle.pool_seat.specs.Movers.{MovesTree, WordMoved, MovesRow, MovesKey, MovesAll};
ghost use Rattle.pool_seat.specs.Movers.{IsStopInTree, IsStopInWord, IsStopInKey, IsStopInAll, IsStopAtKey, IsMover};
ghost use Rattle.pool_seat.specs.declared.mover.Stop.TheVariants.{OutOfMemory};

use pool_shard::PoolRows;
use std::alloc::Global;
use type_form::{Index, KeyBuf, Role, role_of};

/// Why no more rows are moved.
#[derive(Clone, Copy)]
pub(crate) enum Stop {
    Full { shard: u32 },
    OutOfMemory,
}

/// Rows that are moved, and where to.
#[derive(Drop)]
pub(crate) struct Mover<'a> {
    pub(crate) alloc: Global,
    /// What is to be moved, with all that it reaches.
    pub(crate) live: &'a [Index],
    pub(crate) from: PoolRows,
    pub(crate) to: PoolRows,
    /// At each old index that was moved its new one plus 1, and else 0.
    pub(crate) table: Vec<u64>,
    /// What was moved, in order.
    pub(crate) moved: Vec<(Index, Index)>,
}

impl<'a> Mover<'a> {
    // Reads the key at an index.
    fn read(&mut self, i: u64, into: &mut KeyBuf)
        requires mover { IsMover self.old }
        requires known { IsSome (words_at (known self.old.from) (index_of i)) }
        ensures mover { IsMover self.new }
        ensures later { Later self.old self.new }
        ensures same { SameNew self.old self.new }
        ensures words { words_at (known self.old.from) (index_of i) ≡ Some into.new }
    {
        self.from.key_into(Index(i), into);
    }

    // The new index of a key.
    fn intern(&mut self, key: &[u64]) -> Result<u64, Stop>
        requires mover { IsMover self.old }
        requires some { 0 < length key.now }
        requires few { length key.now ≤ 64 }
        requires new { (of_parts : Bool) × (i : ℕ) × Reached (known self.old.from) self.old.live.now of_parts i × IsNewKey (known self.old.from) (known self.old.to) self.old.moved.items of_parts i key.now }
        ensures mover { IsMover self.new }
        ensures later { Later self.old self.new }
        ensures same { self.new.moved.items ≡ self.old.moved.items }
        ensures place { IfOk result (λ j. words_at (known self.new.to) (index_of j) ≡ Some key.now) }
        ensures row { IfOk result (λ j. places self.new.to ≡ added (places self.old.to) j) }
        ensures stop { IfErr result (IsStopAtKey self.new key.now) }
        ensures rows { OnErr result (places self.new.to ≡ places self.old.to) }
    {
        match self.to.intern(key) {
            Ok(j) => Ok(j.0),
            Err(full) => Err(Stop::Full { shard: full.shard }),
        }
    }

    // What an index was moved to.
    fn find(&self, i: u64) -> Option<u64>
        requires mover { IsMover self.now }
        requires inside { i < length self.now.table.items }
        ensures some { IfSome result (IsMoved self.now.moved.items i) }
        ensures none { IfNone result (slice_index self.now.table.items i ≡ 0) }
    {
        let new = self.table[i as usize];
        if new == 0 { None } else { Some(new - 1) }
    }

    // Notes that an index was moved, where that is not noted yet.
    fn note(&mut self, i: u64, j: u64) -> Result<u64, Stop>
        requires mover { IsMover self.old }
        requires reached { Reached (known self.old.from) self.old.live.now false i }
        requires row { HasRow self.old false i j }
        requires parts { HasParts (known self.old.from) self.old.to self.old.moved.items false i }
        ensures mover { IsMover self.new }
        ensures later { Later self.old self.new }
        ensures moved { IfOk result (IsMoved self.new.moved.items i) }
        ensures to { self.new.to ≡ self.old.to }
        ensures adds { OnOk result (olds self.new.moved.items ≡ added (olds self.old.moved.items) i) }
        ensures stop { IfErr result (λ e. e ≡ OutOfMemory) }
    {
        if let Some(known) = self.find(i) {
            return Ok(known);
        }
        let Ok(()) = self.moved.push((Index(i), Index(j))) else {
            return Err(Stop::OutOfMemory);
        };
        // A row's place is below the number of words, so that 1 can be added to it.
        let _words = self.to.words();
        self.table[i as usize] = j + 1;
        Ok(j)
    }

    // The last part of a list, which has no rest, or what is no list. Those before it are put into
    // `chunks`.
    fn last_of(&mut self, i: u64, chunks: &mut Vec<u64>) -> Result<u64, Stop>
        requires mover { IsMover self.old }
        requires empty { chunks.old.items ≡ [] }
        requires known { IsSome (denoted (known self.old.from) (index_of i)) }
        ensures mover { IsMover self.new }
        ensures later { Later self.old self.new }
        ensures same { SameNew self.old self.new }
        ensures chain { IfOk result (IsChain (known self.old.from) i chunks.new.items) }
        ensures last { IfOk result (λ e. (x : ℕ) (ns : List ℕ) → words_at (known self.old.from) (index_of e) ≡ Some (37 ∷ x ∷ ns) → ⊥) }
        ensures stop { IfErr result (λ e. e ≡ OutOfMemory) }
    {
        let mut at = i;
        loop {
            let mut words = KeyBuf::new();
            self.read(at, &mut words);
            let words = words.as_slice();
            if words[0] != 37 {
                return Ok(at);
            }
            let Ok(()) = chunks.push(at) else {
                return Err(Stop::OutOfMemory);
            };
            at = words[1];
        }
    }

    /// Moves all that is to be moved.
    pub(crate) fn all(&mut self) -> Result<(), Stop>
        requires mover { IsMover self.old }
        requires needs { (i : Index) → In i self.old.live.now → IsSome (denoted (known self.old.from) i) }
        ensures mover { IsMover self.new }
        ensures later { Later self.old self.new }
        ensures live { OnOk result ((i : Index) → In i self.new.live.now → (j : ℕ) × IsMoved self.new.moved.items i.0 j) }
        ensures moves { OnOk result (MovesAll (known self.old.from) self.old.live.now self.old self.new) }
        ensures stop { IfErr result (IsStopInAll (known self.old.from) self.old.live.now self.old self.new) }
    {
        let live = self.live;
        for at in 0..live.len() {
            self.visit(live[at].0, false)?;
        }
        Ok(())
    }

    /// Moves what an index denotes, or the list of parts at it, after all that it holds, and answers
    /// its new index.
    #[cycle(walk)]
    pub(crate) fn visit(&mut self, i: u64, of_parts: bool) -> Result<u64, Stop>
        requires mover { IsMover self.old }
        requires needs { Needs (known self.old.from) of_parts i }
        requires reached { Reached (known self.old.from) self.old.live.now of_parts i }
        ensures mover { IsMover self.new }
        ensures later { Later self.old self.new }
        ensures moved { IfOk result (Becomes (known self.new.from) (known self.new.to) self.new.moved.items of_parts i) }
        ensures moves { OnOk result (MovesTree (known self.old.from) of_parts i self.old self.new) }
        ensures stop { IfErr result (IsStopInTree (known self.old.from) of_parts i self.old self.new) }
    {
        let mut chunks = Vec::new(self.alloc);
        let last = self.last_of(i, &mut chunks)?;
        let mut new = self.chunk(last, of_parts, 0)?;
        while let Some(chunk) = chunks.pop() {
            new = self.chunk(chunk, of_parts, new)?;
        }
        Ok(new)
    }

    // The same for one key, whose rest, if it has one, was moved.
    #[cycle(walk)]
    fn chunk(&mut self, i: u64, of_parts: bool, rest: u64) -> Result<u64, Stop>
        requires mover { IsMover self.old }
        requires needs { Needs (known self.old.from) of_parts i }
        requires reached { Reached (known self.old.from) self.old.live.now of_parts i }
        requires rest { (x : ℕ) (ns : List ℕ) → words_at (known self.old.from) (index_of i) ≡ Some (37 ∷ x ∷ ns) → Becomes (known self.old.from) (known self.old.to) self.old.moved.items of_parts x rest }
        ensures mover { IsMover self.new }
        ensures later { Later self.old self.new }
        ensures moved { IfOk result (Becomes (known self.new.from) (known self.new.to) self.new.moved.items of_parts i) }
        ensures moves { OnOk result (MovesKey (known self.old.from) of_parts i self.old self.new) }
        ensures stop { IfErr result (IsStopInKey (known self.old.from) of_parts i self.old self.new) }
    {
        let new = self.row(i, of_parts, rest)?;
        if of_parts { Ok(new) } else { self.note(i, new) }
    }

    // Interns the row of a key with its new words.
    #[cycle(walk)]
    fn row(&mut self, i: u64, of_parts: bool, rest: u64) -> Result<u64, Stop>
        requires mover { IsMover self.old }
        requires needs { Needs (known self.old.from) of_parts i }
        requires reached { Reached (known self.old.from) self.old.live.now of_parts i }
        requires rest { (x : ℕ) (ns : List ℕ) → words_at (known self.old.from) (index_of i) ≡ Some (37 ∷ x ∷ ns) → Becomes (known self.old.from) (known self.old.to) self.old.moved.items of_parts x rest }
        ensures mover { IsMover self.new }
        ensures later { Later self.old self.new }
        ensures moved { IfOk result (HasRow self.new of_parts i) }
        ensures moves { IfOk result (MovesRow (known self.old.from) of_parts i self.old self.new) }
        ensures stop { IfErr result (IsStopInKey (known self.old.from) of_parts i self.old self.new) }
    {
        let mut words = KeyBuf::new();
        self.read(i, &mut words);
        let words = words.as_slice();
        let kind = words[0];
        let mut into = KeyBuf::new();
        into.push(kind);
        for at in 1..words.len() {
            let new = self.word(role_of(kind, of_parts, at - 1), words[at], rest)?;
            into.push(new);
        }
        self.intern(into.as_slice())
    }

    // The new word for a word of a key.
    #[cycle(walk)]
    fn word(&mut self, role: Role, word: u64, rest: u64) -> Result<u64, Stop>
        requires mover { IsMover self.old }
        requires needs { WordNeeds (known self.old.from) role word }
        requires reached { WordReached (known self.old.from) self.old.live.now role word }
        ensures mover { IsMover self.new }
        ensures later { Later self.old self.new }
        ensures moved { IfOk result (WordBecomes self.new role rest word) }
        ensures moves { OnOk result (WordMoved (known self.old.from) role word self.old self.new) }
        ensures stop { IfErr result (IsStopInWord (known self.old.from) role word self.old self.new) }
    {
        match role {
            Role::Number => Ok(word),
            Role::Part => match self.find(word) {
                Some(new) => Ok(new),
                None => self.visit(word, false),
            },
            Role::List => self.visit(word, true),
            Role::Rest => Ok(rest),
        }
    }
}
