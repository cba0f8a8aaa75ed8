// Rows that are still in use, moved to another pool.
ghost use Rattle.std.specs.Prelude.{◌≡◌, ◌*◌, ◌≤◌, replicate, IfOk, IfErr, IsSome};
ghost use Rattle.type_form.specs.Denote.{denoted};
ghost use Rattle.pool_words.specs.Rule.{In};
ghost use Rattle.pool_shard.specs.Pairs.{known};
ghost use Rattle.pool_seat.specs.Moves.{IsRehomed, IsOpened};
ghost use Rattle.pool_seat.specs.Order.{IsInOrder};
ghost use Rattle.pool_seat.specs.Rehoming.{fault_of, GivesBack, IsFullAnswer};

use crate::mover::{Mover, Stop};
use pool_shard::PoolRows;
use std::alloc::{AllocError, Global};
use type_form::Index;
use zw_base::Seq;

/// Rows that were moved to another pool.
#[derive(Drop)]
pub struct Rehomed {
    pub rows: PoolRows,
    /// Each index that was moved with its new one, behind those that it holds.
    pub moved: Seq<(Index, Index)>,
}

/// Why rows were not moved. The old ones come back.
#[derive(Drop)]
pub enum RehomeFault {
    /// The rows that are needed don't fit the words: moved in their order, the first one that its
    /// shard doesn't take is one of this shard.
    Full { shard: u32, old: PoolRows },
    OutOfMemory { old: PoolRows },
}

/// So many numbers, all 0.
fn zeros(alloc: Global, count: usize) -> Result<Vec<u64>, AllocError>
    ensures { IfOk result (λ v. v.items ≡ replicate count 0) }
{
    let zeros = vec![in alloc; 0u64; count]?;
    Ok(zeros)
}

/// The answer where no more is moved.
fn fault_of(stop: Stop, old: PoolRows) -> RehomeFault
    ensures { result ≡ fault_of stop old }
{
    match stop {
        Stop::Full { shard } => RehomeFault::Full { shard, old },
        Stop::OutOfMemory => RehomeFault::OutOfMemory { old },
    }
}

/// Moves what the live indices denote, and all that they reach, to a new pool of as many shards and
/// so many words, and answers the pairs of old and new indices.
///
/// A list of numbers is moved as these numbers. The lists that keys hold of parts are made again
/// with the parts' new indices, and have no pair of their own. The pairs stand in the order of
/// `live`, each behind those of what its key holds, these from the left, and once.
pub fn rehome(
    alloc: Global,
    old: PoolRows,
    live: &[Index],
    words: usize,
) -> Result<Rehomed, RehomeFault>
    requires many { old.view.layout.shards * 1024 ≤ words }
    requires denote { (i : Index) → In i live.now → IsSome (denoted (known old) i) }
    ensures opened { IfOk result (λ r. IsOpened old.view.layout.shards words r.rows) }
    ensures moved { IfOk result (λ r. IsRehomed (known old) live.now r.rows r.moved) }
    ensures ordered { IfOk result (λ r. IsInOrder (known old) live.now r.rows r.moved) }
    ensures back { IfErr result (GivesBack old) }
    ensures full { IfErr result (IsFullAnswer old live.now words) }
{
    let Ok(to) = PoolRows::open(alloc, old.shards(), words) else {
        return Err(RehomeFault::OutOfMemory { old });
    };
    let Ok(table) = zeros(alloc, old.words()) else {
        return Err(RehomeFault::OutOfMemory { old });
    };
    let mut mover = Mover {
        alloc,
        live,
        from: old,
        to,
        table,
        moved: Vec::new(alloc),
    };
    let answer = mover.all();
    let Mover {
        alloc: _,
        live: _,
        from: old,
        to: rows,
        table: _,
        moved,
    } = mover;
    match answer {
        Ok(()) => Ok(Rehomed {
            rows,
            moved: Seq::of(moved),
        }),
        Err(stop) => Err(fault_of(stop, old)),
    }
}
