// One round: the same finds in each of 1, 2 or 4 threads, and what they took.
ghost use Rattle.std.specs.Prelude.{◌≡◌};
ghost use Rattle.pool_shard.specs.Pairs.{pool_of};

use pool_seat::PoolSeat;
use pool_shard::{Pool, PoolName, RawSeat};
use std::io;
use std::thread::{Threads, join};
use std::time::{Clock, CpuClock, Duration, Instant};
use type_form::Keys;
use zw_base::NoGate;

/// What a round's threads found, by the clock and by the time of all processors.
#[derive(Drop)]
pub struct Round {
    pub threads: u32,
    pub found: u64,
    pub wall: Duration,
    pub busy: Duration,
}

/// Finds keys one after the other, from a number on and in a circle, and counts those that are
/// known.
fn found<N: PoolName, R>(
    rt: &R,
    pool: &Pool<N>,
    seat: RawSeat,
    from: u64,
    keys: u64,
    finds: u64,
) -> u64
    requires { pool_of seat ≡ N.pool }
{
    let mut seat = PoolSeat::new(rt, pool, seat, &NoGate);
    let mut key = from;
    let mut known: u64 = 0;
    for _ in 0..finds {
        if seat.find(&[key, 7]).is_some() {
            known = known.wrapping_add(1);
        }
        key = key.wrapping_add(1);
        if key >= keys {
            key = 0;
        }
    }
    known
}

/// The finds of two threads.
fn pair<N: PoolName + Send + Sync, R: Threads + Sync>(
    rt: &R,
    pool: &Pool<N>,
    a: RawSeat,
    b: RawSeat,
    from: u64,
    keys: u64,
    finds: u64,
) -> u64
    requires { (pool_of a ≡ N.pool) × (pool_of b ≡ N.pool) }
{
    let first = move || -> u64
        requires { pool_of a ≡ N.pool }
    { found(rt, pool, a, from, keys, finds) };
    let second = move || -> u64
        requires { pool_of b ≡ N.pool }
    { found(rt, pool, b, keys / 2, keys, finds) };
    let (one, two) = join(rt, first, second);
    one.wrapping_add(two)
}

/// The finds of four threads.
fn four<N: PoolName + Send + Sync, R: Threads + Sync>(
    rt: &R,
    pool: &Pool<N>,
    seat: &mut RawSeat,
    keys: u64,
    finds: u64,
) -> u64
    requires { pool_of seat.old ≡ N.pool }
    ensures { pool_of seat.new ≡ N.pool }
{
    let a = pool.split(seat);
    let b = pool.split(seat);
    let c = pool.split(seat);
    let d = pool.split(seat);
    let first = move || -> u64
        requires { (pool_of a ≡ N.pool) × (pool_of b ≡ N.pool) }
    { pair(rt, pool, a, b, 0, keys, finds) };
    let second = move || -> u64
        requires { (pool_of c ≡ N.pool) × (pool_of d ≡ N.pool) }
    { pair(rt, pool, c, d, keys / 4, keys, finds) };
    let (one, two) = join(rt, first, second);
    one.wrapping_add(two)
}

/// A round of 1, 2 or 4 threads.
pub fn take_round<N: PoolName + Send + Sync, R: Threads + Clock + CpuClock + Sync>(
    rt: &R,
    pool: &Pool<N>,
    seat: &mut RawSeat,
    threads: u32,
    keys: u64,
    finds: u64,
) -> io::Result<Round>
    requires { pool_of seat.old ≡ N.pool }
    ensures { pool_of seat.new ≡ N.pool }
{
    let start = Instant::now(rt)?;
    let before = rt.process_cpu_time()?;
    let found = match threads {
        1 => found(rt, pool, pool.split(seat), 0, keys, finds),
        2 => {
            let a = pool.split(seat);
            let b = pool.split(seat);
            pair(rt, pool, a, b, 0, keys, finds)
        }
        _ => four(rt, pool, seat, keys, finds),
    };
    let after = rt.process_cpu_time()?;
    let wall = start.elapsed(rt)?;
    Ok(Round {
        threads,
        found,
        wall,
        busy: after.saturating_sub(before),
    })
}
