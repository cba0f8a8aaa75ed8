// Who knows keys by indices: tables that are read, and tables that also take new keys.
ghost use Rattle.std.specs.Prelude.{◌≡◌, ℕ, ◌<◌, ◌≤◌, length, IsSome, IfSome, IfNone, IfOk};
ghost use Rattle.type_form.specs.Known.{Known, words_at, IsInjective};
ghost use Rattle.type_form.specs.Pool.{Reads, Interns, is_full};
ghost use Rattle.type_form.specs.declared.pool.InternFault.TheVariants.{OutOfMemory};

use crate::index::Index;
use crate::key::KeyBuf;
use std::alloc::{AllocError, AllocFailed};

/// Why a key has no index.
#[derive(Clone, Copy, Debug, PartialEq, Eq)]
pub enum InternFault {
    /// The shard of this number takes no more rows.
    Full { shard: u32 },
    OutOfMemory,
}

impl From<AllocError> for InternFault {
    ghost from_gives = { λ _ e. e ≡ OutOfMemory };

    fn from(_error: AllocError) -> InternFault {
        InternFault::OutOfMemory
    }
}

/// A table of keys that is read. Its list `known` of pairs of index and key only grows, and agrees
/// with itself: equal keys stand at one index.
pub trait Keys {
    /// The pairs of index and key that are known.
    ghost known: { Self → Known };

    /// What tells tables apart: two with one home are the same table, laid out in the same way.
    ghost Home: { Type 0 };

    /// The home of the table behind it.
    ghost home: { Self → Home };

    /// The number of its Full answers. A table that is only read has none.
    ghost fulls: { Self → ℕ } = { λ _. 0 };

    /// The index of a key of 1 to 64 words, where it is known. It may learn of keys that others
    /// put there. Takes no memory and waits for no thread.
    fn find(&mut self, key: &[u64]) -> Option<Index>
        requires some { 0 < length key.now }
        requires few { length key.now ≤ 64 }
        ensures reads { Reads known home fulls self.old self.new }
        ensures agrees { IsInjective (known self.new) }
        ensures found { IfSome result (λ i. words_at (known self.new) i ≡ Some key.now) }
        ensures absent { IfNone result ((i : Index) → words_at (known self.old) i ≡ Some key.now → ⊥) };

    /// The key of a known index. Takes no memory and waits for no thread.
    fn key_into(&mut self, i: Index, into: &mut KeyBuf)
        requires { IsSome (words_at (known self.old) i) }
        ensures reads { Reads known home fulls self.old self.new }
        ensures agrees { IsInjective (known self.new) }
        ensures words { words_at (known self.old) i ≡ Some into.new };
}

/// A table of keys that takes new ones.
pub trait Interner: Keys {
    /// The index of a key of 1 to 64 words, which is known from then on. The answer Full adds 1 to
    /// `fulls`, which stands still at 2^64 - 1, and no other answer changes it.
    fn intern(&mut self, key: &[u64]) -> Result<Index, InternFault>
        requires some { 0 < length key.now }
        requires few { length key.now ≤ 64 }
        ensures interns { Interns Self.known Self.home Self.fulls self.old self.new (is_full result) }
        ensures agrees { IsInjective (Self.known self.new) }
        ensures place { IfOk result (λ i. words_at (Self.known self.new) i ≡ Some key.now) };
}
