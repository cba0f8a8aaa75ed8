// The pool of a run: keys are interned by one seat, and then rounds of finds share it.
ghost use Rattle.std.specs.Prelude.{◌≡◌};
ghost use Rattle.pool_shard.specs.Pairs.{pool_of};

use crate::round::{Round, take_round};
use pool_seat::SoleSeat;
use pool_shard::{Pool, PoolName, PoolRows};
use std::alloc::Global;
use std::io;
use std::marker::Brand;
use std::thread::Threads;
use std::time::{Clock, CpuClock};
use type_form::Interner;

/// The words of the pool.
const WORDS: usize = 4_194_304;

/// Rounds of 1, 2 and 4 threads over a pool that a name names.
fn rounds<N: PoolName + Send + Sync, R: Threads + Clock + CpuClock + Sync>(
    rt: &R,
    alloc: Global,
    rows: PoolRows,
    keys: u64,
    finds: u64,
) -> io::Result<[Round; 3]>
    requires { pool_of rows ≡ N.pool }
{
    let Ok((pool, mut seat)) = Pool::<N>::share(alloc, rows) else {
        return Err(io::Error::from(io::ErrorKind::OutOfMemory));
    };
    let one = take_round(rt, &pool, &mut seat, 1, keys, finds)?;
    let two = take_round(rt, &pool, &mut seat, 2, keys, finds)?;
    let four = take_round(rt, &pool, &mut seat, 4, keys, finds)?;
    Ok([one, two, four])
}

/// A pool with so many keys of two words, in four shards.
fn rows_of(alloc: Global, keys: u64) -> io::Result<PoolRows> {
    let mut seat = SoleSeat::new(PoolRows::open(alloc, 4, WORDS)?);
    for key in 0..keys {
        // Where the pool is full, the further keys are not found.
        let _ = seat.intern(&[key, 7]);
    }
    Ok(seat.into_rows())
}

/// The rounds of one run.
pub fn rounds_of<R: Threads + Clock + CpuClock + Sync>(
    rt: &R,
    alloc: Global,
    keys: u64,
    finds: u64,
) -> io::Result<[Round; 3]> {
    let rows = rows_of(alloc, keys)?;
    rounds::<Brand, R>(rt, alloc, rows, keys, finds)
}
