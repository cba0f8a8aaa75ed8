// A seat at a shared pool, for one of many threads.
ghost use Rattle.std.specs.Prelude.{◌≡◌, ℕ, ◌<◌, ◌≤◌, length, IsSome, IfSome, IfNone, IfOk, IfErr, MatchBool, Some};
ghost use Rattle.type_form.specs.Known.{words_at, IsInjective};
ghost use Rattle.type_form.specs.Known.{Keeps as KeepsWords};
ghost use Rattle.type_form.specs.Means.{Grows};
ghost use Rattle.type_form.specs.Pool.{Reads, Interns, is_full};
ghost use Rattle.pool_shard.specs.Pairs.{PoolId, known, pool_of, GoesOn};
ghost use Rattle.pool_seat.specs.Seats.{pairs, home, full_answers, IsFullFor};

use crate::note::Note;
use pool_shard::{Pool, PoolName, RawSeat};
use std::marker::Model;
use std::sync::Wait;
use type_form::{Index, InternFault, Interner, KeyBuf, Keys};
use zw_base::Gate;

/// An interner over a shared pool. Only `intern` may wait for another thread.
#[derive(Drop)]
pub struct PoolSeat<'p, R, N: PoolName, G> {
    rt: &'p R,
    pool: &'p Pool<N>,
    seat: RawSeat,
    gate: &'p G,
    fulls: u64,
}

impl<'p, R, N: PoolName, G> Model for PoolSeat<'p, R, N, G> {
    ghost use Rattle.pool_seat.specs.Seats.{Sole, IsSeatOf};

    ghost Value = { Sole };

    ghost view = { λ s. record { rows = s.seat; fulls = s.fulls } };

    ghost invariant = { λ s. IsSeatOf N.pool s.seat s.fulls };
}

impl<'p, R, N: PoolName, G> PoolSeat<'p, R, N, G> {
    /// A seat at the pool, which has answered no Full.
    pub fn new(rt: &'p R, pool: &'p Pool<N>, seat: RawSeat, gate: &'p G) -> PoolSeat<'p, R, N, G>
        requires of { pool_of seat ≡ N.pool }
        ensures rows { result.rows ≡ seat }
        ensures fulls { result.fulls ≡ 0 }
    {
        PoolSeat {
            rt,
            pool,
            seat,
            gate,
            fulls: 0,
        }
    }

    /// The seat, which knows all that this one knew.
    pub fn into_parts(self) -> RawSeat
        ensures seat { result ≡ self.entry.rows }
        ensures of { pool_of result ≡ N.pool }
    {
        let PoolSeat {
            rt: _,
            pool: _,
            seat,
            gate: _,
            fulls: _,
        } = self;
        seat
    }

    /// A copy of what the seat knows. Takes no memory and waits for no thread.
    pub fn note(&mut self) -> Note
        ensures same { self.new ≡ self.old }
        ensures known { known result ≡ pairs self.old }
        ensures of { pool_of result ≡ N.pool }
    {
        Note {
            seat: self.pool.split(&mut self.seat),
        }
    }

    /// Adds what another seat knew. Takes no memory and waits for no thread.
    pub fn meet(&mut self, note: Note)
        requires of { pool_of note ≡ N.pool }
        ensures grows { Grows (pairs self.old) (pairs self.new) }
        ensures agrees { IsInjective (pairs self.new) }
        ensures met { KeepsWords (known note) (pairs self.new) }
        ensures rows { GoesOn self.old.rows self.new.rows }
        ensures fulls { self.new.fulls ≡ self.old.fulls }
    {
        self.pool.join(&mut self.seat, note.into_seat());
    }

    /// Whether a key of this seat's is one of the note's: exactly where their indices are one.
    pub fn agree(&self, i: Index, note: &Note, j: Index) -> bool
        requires within { KeepsWords (known note.now) (pairs self.now) }
        requires here { IsSome (words_at (pairs self.now) i) }
        requires there { IsSome (words_at (known note.now) j) }
        ensures index { MatchBool result (i ≡ j) (i ≡ j → ⊥) }
        ensures key { MatchBool result (words_at (pairs self.now) i ≡ words_at (known note.now) j) (words_at (pairs self.now) i ≡ words_at (known note.now) j → ⊥) }
    {
        let _ = note;
        self.seat.same_key(i, j)
    }
}

impl<'p, R, N: PoolName, G> Keys for PoolSeat<'p, R, N, G> {
    ghost known = { pairs };

    ghost Home = { PoolId };

    ghost home = { home };

    ghost fulls = { full_answers };

    /// Goes on from the same rows, beside what every table of keys does.
    fn find(&mut self, key: &[u64]) -> Option<Index>
        ensures reads { Reads pairs home full_answers self.old self.new }
        ensures agrees { IsInjective (pairs self.new) }
        ensures found { IfSome result (λ i. words_at (pairs self.new) i ≡ Some key.now) }
        ensures absent { IfNone result ((i : Index) → words_at (pairs self.old) i ≡ Some key.now → ⊥) }
        ensures rows { GoesOn self.old.rows self.new.rows }
    {
        self.pool.find(&mut self.seat, key)
    }

    /// Goes on from the same rows, beside what every table of keys does.
    fn key_into(&mut self, i: Index, into: &mut KeyBuf)
        requires { IsSome (words_at (pairs self.old) i) }
        ensures reads { Reads pairs home full_answers self.old self.new }
        ensures agrees { IsInjective (pairs self.new) }
        ensures words { words_at (pairs self.old) i ≡ Some into.new }
        ensures rows { GoesOn self.old.rows self.new.rows }
    {
        self.pool.key_into(&mut self.seat, i, into);
    }
}

impl<'p, R: Wait, N: PoolName, G: Gate> Interner for PoolSeat<'p, R, N, G> {
    /// The answer Full comes exactly where the key's shard is at its numbers and the key is none of
    /// its rows.
    fn intern(&mut self, key: &[u64]) -> Result<Index, InternFault>
        requires some { 0 < length key.now }
        requires few { length key.now ≤ 64 }
        ensures interns { Interns pairs home full_answers self.old self.new (is_full result) }
        ensures agrees { IsInjective (pairs self.new) }
        ensures place { IfOk result (λ i. words_at (pairs self.new) i ≡ Some key.now) }
        ensures rows { GoesOn self.old.rows self.new.rows }
        ensures full { IfErr result (IsFullFor self.new.rows key.now) }
    {
        match self.pool.intern(self.rt, &mut self.seat, self.gate, key) {
            Ok(i) => Ok(i),
            Err(full) => {
                self.fulls = self.fulls.saturating_add(1);
                Err(InternFault::Full { shard: full.shard })
            }
        }
    }
}
