// The name of a shared pool.
ghost use Rattle.pool_shard.specs.Pairs.{PoolId, no_pool};

use std::marker::Brand;

/// Ties values to one pool, in contracts alone. A caller makes the rows, and passes `Brand` to a
/// function that is generic over the name, by which it picks the pool of these rows.
pub trait PoolName {
    /// The table of the pool and its layout.
    ghost pool: { PoolId };
}

impl PoolName for Brand {
    ghost pool = { no_pool };
}
