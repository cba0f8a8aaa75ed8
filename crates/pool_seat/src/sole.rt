// The seat that has a pool's rows alone, for one thread.
ghost use Rattle.std.specs.Prelude.{◌≡◌, ℕ, ◌<◌, ◌≤◌, length, IsSome, IfSome, IfNone, IfOk, IfErr, MatchBool, Some};
ghost use Rattle.type_form.specs.Known.{words_at, IsInjective};
ghost use Rattle.type_form.specs.Known.{Keeps as KeepsWords};
ghost use Rattle.type_form.specs.Means.{Grows};
ghost use Rattle.type_form.specs.Pool.{Reads, Interns, is_full};
ghost use Rattle.pool_shard.specs.Pairs.{PoolId, known, pool_of, GoesOn};
ghost use Rattle.pool_seat.specs.Seats.{pairs, home, full_answers, IsFullFor};

use crate::note::Note;
use pool_shard::PoolRows;
use std::marker::Model;
use type_form::{Index, InternFault, Interner, KeyBuf, Keys};

/// An interner over a pool's rows. It takes no lock and no memory, and waits for no thread.
#[derive(Drop)]
pub struct SoleSeat {
    rows: PoolRows,
    fulls: u64,
}

impl Model for SoleSeat {
    ghost use Rattle.pool_seat.specs.Seats.{Sole, KeepsFull};

    ghost Value = { Sole };

    ghost view = { λ s. record { rows = s.rows; fulls = s.fulls } };

    ghost invariant = { λ s. KeepsFull s.rows s.fulls };
}

impl SoleSeat {
    /// A seat at the rows, which has answered no Full.
    pub fn new(rows: PoolRows) -> SoleSeat
        ensures rows { result.rows ≡ rows }
        ensures fulls { result.fulls ≡ 0 }
    {
        SoleSeat { rows, fulls: 0 }
    }

    /// The rows, which know all that the seat knew.
    pub fn into_rows(self) -> PoolRows
        ensures { result ≡ self.rows }
    {
        let SoleSeat { rows, fulls: _ } = self;
        rows
    }

    /// A copy of what the seat knows. Takes no memory and waits for no thread.
    pub fn note(&mut self) -> Note
        ensures same { self.new ≡ self.old }
        ensures known { known result ≡ pairs self.old }
        ensures of { pool_of result ≡ pool_of self.old.rows }
    {
        Note {
            seat: self.rows.split(),
        }
    }

    /// Adds what another seat of the same pool knew. Takes no memory and waits for no thread.
    pub fn meet(&mut self, note: Note)
        requires of { pool_of note ≡ pool_of self.old.rows }
        ensures grows { Grows (pairs self.old) (pairs self.new) }
        ensures agrees { IsInjective (pairs self.new) }
        ensures met { KeepsWords (known note) (pairs self.new) }
        ensures rows { GoesOn self.old.rows self.new.rows }
        ensures fulls { self.new.fulls ≡ self.old.fulls }
    {
        self.rows.join(note.into_seat());
    }

    /// Whether a key of this seat's is one of the note's: exactly where their indices are one.
    pub fn agree(&self, i: Index, note: &Note, j: Index) -> bool
        requires within { KeepsWords (known note.now) (pairs self.now) }
        requires here { IsSome (words_at (pairs self.now) i) }
        requires there { IsSome (words_at (known note.now) j) }
        ensures index { MatchBool result (i ≡ j) (i ≡ j → ⊥) }
        ensures key { MatchBool result (words_at (pairs self.now) i ≡ words_at (known note.now) j) (words_at (pairs self.now) i ≡ words_at (known note.now) j → ⊥) }
    {
        let _ = note;
        self.rows.same_key(i, j)
    }
}

impl Keys for SoleSeat {
    ghost known = { pairs };

    ghost Home = { PoolId };

    ghost home = { home };

    ghost fulls = { full_answers };

    /// Goes on from the same rows, beside what every table of keys does.
    fn find(&mut self, key: &[u64]) -> Option<Index>
        ensures reads { Reads pairs home full_answers self.old self.new }
        ensures agrees { IsInjective (pairs self.new) }
        ensures found { IfSome result (λ i. words_at (pairs self.new) i ≡ Some key.now) }
        ensures absent { IfNone result ((i : Index) → words_at (pairs self.old) i ≡ Some key.now → ⊥) }
        ensures rows { GoesOn self.old.rows self.new.rows }
    {
        self.rows.find(key)
    }

    /// Goes on from the same rows, beside what every table of keys does.
    fn key_into(&mut self, i: Index, into: &mut KeyBuf)
        requires { IsSome (words_at (pairs self.old) i) }
        ensures reads { Reads pairs home full_answers self.old self.new }
        ensures agrees { IsInjective (pairs self.new) }
        ensures words { words_at (pairs self.old) i ≡ Some into.new }
        ensures rows { GoesOn self.old.rows self.new.rows }
    {
        self.rows.key_into(i, into);
    }
}

impl Interner for SoleSeat {
    /// The answer Full comes exactly where the key's shard is at its numbers and the key is none of
    /// its rows.
    fn intern(&mut self, key: &[u64]) -> Result<Index, InternFault>
        requires some { 0 < length key.now }
        requires few { length key.now ≤ 64 }
        ensures interns { Interns pairs home full_answers self.old self.new (is_full result) }
        ensures agrees { IsInjective (pairs self.new) }
        ensures place { IfOk result (λ i. words_at (pairs self.new) i ≡ Some key.now) }
        ensures rows { GoesOn self.old.rows self.new.rows }
        ensures full { IfErr result (IsFullFor self.new.rows key.now) }
    {
        match self.rows.intern(key) {
            Ok(i) => Ok(i),
            Err(full) => {
                self.fulls = self.fulls.saturating_add(1);
                Err(InternFault::Full { shard: full.shard })
            }
        }
    }
}
