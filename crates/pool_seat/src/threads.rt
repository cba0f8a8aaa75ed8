// Seats in threads of their own: their notes agree, and a find waits for no writer.
ghost use Rattle.std.specs.Prelude.{◌≡◌, IfSome};
ghost use Rattle.pool_shard.specs.Pairs.{pool_of};

use crate::{Note, PoolSeat, SoleSeat};
use pool_shard::{Pool, PoolName, PoolRows, RawSeat, hash_key};
use std::alloc::Global;
use std::marker::Brand;
use std::sync::Wait;
use std::sync::atomic::{AtomicU64, Ordering};
use std::test::Fail;
use std::thread;
use std::thread::{Threads, join};
use type_form::{Index, InternFault, Interner, Keys};
use zw_base::{Gate, NoGate};

/// As many keys of two words for each of four shards.
fn keys_of(alloc: Global, each: u64) -> Option<Vec<(u64, u64)>> {
    let mut keys = Vec::new(alloc);
    let mut counts = [0u64; 4];
    for n in 0..10_000u64 {
        let shard = (hash_key(&[n, 7]) % 4) as usize;
        if counts[shard] < each {
            counts[shard] += 1;
            keys.push((n, 7)).ok()?;
        }
    }
    Some(keys)
}

/// Interns all keys, and answers their places with a note.
fn work<N: PoolName, R: Wait, G: Gate>(
    rt: &R,
    alloc: Global,
    pool: &Pool<N>,
    seat: RawSeat,
    gate: &G,
    keys: &[(u64, u64)],
) -> Answer
    requires { pool_of seat ≡ N.pool }
    ensures { IfSome result (λ t. pool_of t.0 ≡ N.pool) }
{
    let mut seat = PoolSeat::new(rt, pool, seat, gate);
    let mut places = Vec::new(alloc);
    for key in keys {
        let Ok(place) = seat.intern(&[key.0, key.1]) else {
            return None;
        };
        places.push(place.0).ok()?;
    }
    Some((seat.note(), places))
}

/// Whether a seat finds each key at its place.
fn finds_all<I: Keys>(seat: &mut I, keys: &[(u64, u64)], places: &[u64]) -> bool {
    if keys.len() != places.len() {
        return false;
    }
    for i in 0..keys.len() {
        if seat.find(&[keys[i].0, keys[i].1]) != Some(Index(places[i])) {
            return false;
        }
    }
    true
}

/// What a thread answers: its note, and the places of its keys.
type Answer = Option<(Note, Vec<u64>)>;

/// Four threads intern the same keys.
fn work_of_four<N: PoolName + Send + Sync, R: Threads + Wait + Sync>(
    rt: &R,
    alloc: Global,
    pool: &Pool<N>,
    seat: &mut RawSeat,
    keys: &[(u64, u64)],
) -> ((Answer, Answer), (Answer, Answer))
    requires { pool_of seat.old ≡ N.pool }
    ensures seat { pool_of seat.new ≡ N.pool }
    ensures left { IfSome result.0.0 (λ t. pool_of t.0 ≡ N.pool) × IfSome result.0.1 (λ t. pool_of t.0 ≡ N.pool) }
    ensures right { IfSome result.1.0 (λ t. pool_of t.0 ≡ N.pool) × IfSome result.1.1 (λ t. pool_of t.0 ≡ N.pool) }
{
    let a = pool.split(seat);
    let b = pool.split(seat);
    let c = pool.split(seat);
    let d = pool.split(seat);
    let gate = &NoGate;
    let left = move || -> (Answer, Answer)
        requires { (pool_of a ≡ N.pool) × (pool_of b ≡ N.pool) }
        ensures { IfSome result.0 (λ t. pool_of t.0 ≡ N.pool) × IfSome result.1 (λ t. pool_of t.0 ≡ N.pool) }
    { two(rt, alloc, pool, a, b, gate, keys) };
    let right = move || -> (Answer, Answer)
        requires { (pool_of c ≡ N.pool) × (pool_of d ≡ N.pool) }
        ensures { IfSome result.0 (λ t. pool_of t.0 ≡ N.pool) × IfSome result.1 (λ t. pool_of t.0 ≡ N.pool) }
    { two(rt, alloc, pool, c, d, gate, keys) };
    join(rt, left, right)
}

/// Whether four threads agree, with a seat that met their notes and with the rows that come back.
fn four<N: PoolName + Send + Sync, R: Threads + Wait + Sync>(
    rt: &R,
    alloc: Global,
    rows: PoolRows,
    keys: &[(u64, u64)],
) -> Option<bool>
    requires { pool_of rows ≡ N.pool }
{
    let Ok((shared, mut seat)) = Pool::<N>::share(alloc, rows) else {
        return None;
    };
    let pool = &shared;
    let (first, second) = work_of_four(rt, alloc, pool, &mut seat, keys);
    let (first_note, first_places) = first.0?;
    let (second_note, second_places) = first.1?;
    let (third_note, third_places) = second.0?;
    let (fourth_note, fourth_places) = second.1?;
    let mut all = PoolSeat::new(rt, pool, seat, &NoGate);
    all.meet(first_note);
    all.meet(second_note);
    all.meet(third_note);
    all.meet(fourth_note);
    let agreed = finds_all(&mut all, keys, first_places.as_slice())
        && finds_all(&mut all, keys, second_places.as_slice())
        && finds_all(&mut all, keys, third_places.as_slice())
        && finds_all(&mut all, keys, fourth_places.as_slice());
    let seat = all.into_parts();
    let mut sole = SoleSeat::new(shared.close(seat));
    Some(agreed && finds_all(&mut sole, keys, first_places.as_slice()))
}

/// The work of two threads.
fn two<N: PoolName + Send + Sync, R: Threads + Wait + Sync, G: Gate + Sync>(
    rt: &R,
    alloc: Global,
    pool: &Pool<N>,
    a: RawSeat,
    b: RawSeat,
    gate: &G,
    keys: &[(u64, u64)],
) -> (Answer, Answer)
    requires { (pool_of a ≡ N.pool) × (pool_of b ≡ N.pool) }
    ensures { IfSome result.0 (λ t. pool_of t.0 ≡ N.pool) × IfSome result.1 (λ t. pool_of t.0 ≡ N.pool) }
{
    let first = move || -> Answer
        requires { pool_of a ≡ N.pool }
        ensures { IfSome result (λ t. pool_of t.0 ≡ N.pool) }
    { work(rt, alloc, pool, a, gate, keys) };
    let second = move || -> Answer
        requires { pool_of b ≡ N.pool }
        ensures { IfSome result (λ t. pool_of t.0 ≡ N.pool) }
    { work(rt, alloc, pool, b, gate, keys) };
    join(rt, first, second)
}

/// Interns in four threads, and answers whether all agree.
fn four_agree<R: Threads + Wait + Sync>(
    rt: &R,
    alloc: Global,
    rows: PoolRows,
    keys: &[(u64, u64)],
) -> Option<bool> {
    four::<Brand, R>(rt, alloc, rows, keys)
}

#[test]
fn four_threads_agree(rt: HostRuntime) -> Result<(), Fail> {
    let Some(keys) = keys_of(rt.alloc(), 65) else {
        panic!(rt; "no memory")
    };
    assert_eq!(rt; keys.len(), 260);
    let rows = PoolRows::open(rt.alloc(), 4, 8192)?;
    assert_eq!(rt;
        four_agree(&rt, rt.alloc(), rows, keys.as_slice()),
        Some(true)
    );
    Ok(())
}

/// Interns 64 keys in a shared pool, and answers what the next one gets and what the first one gets
/// again.
fn fill<N: PoolName, R: Wait>(
    rt: &R,
    alloc: Global,
    rows: PoolRows,
) -> Option<(Result<Index, InternFault>, Result<Index, InternFault>)>
    requires { pool_of rows ≡ N.pool }
{
    let Ok((shared, seat)) = Pool::<N>::share(alloc, rows) else {
        return None;
    };
    let mut seat = PoolSeat::new(rt, &shared, seat, &NoGate);
    for n in 0..64u64 {
        if seat.intern(&[n, 1]) != Ok(Index(193 + 3 * n)) {
            return None;
        }
    }
    let next = seat.intern(&[64, 1]);
    let again = seat.intern(&[0, 1]);
    Some((next, again))
}

/// The same, at a name that is picked.
fn fill_once<R: Wait>(
    rt: &R,
    alloc: Global,
    rows: PoolRows,
) -> Option<(Result<Index, InternFault>, Result<Index, InternFault>)> {
    fill::<Brand, R>(rt, alloc, rows)
}

#[test]
fn a_shared_shard_takes_64_keys_of_two_words(rt: HostRuntime) -> Result<(), Fail> {
    let rows = PoolRows::open(rt.alloc(), 1, 1024)?;
    let Some((next, again)) = fill_once(&rt, rt.alloc(), rows) else {
        panic!(rt; "a key has another place")
    };
    assert_eq!(rt; next, Err(InternFault::Full { shard: 0 }));
    assert_eq!(rt; again, Ok(Index(193)));
    Ok(())
}

/// Holds the first writer that comes by until it is let go.
#[derive(Drop)]
struct Hold {
    /// 1 once a writer is held.
    held: AtomicU64,
    /// 1 once it may go on.
    freed: AtomicU64,
    /// 1 where it went on by itself.
    tired: AtomicU64,
}

impl Gate for Hold {
    fn at_claim(&self, _worker: u32, _unit: u32) {}

    fn at_finish(&self, _worker: u32, _unit: u32) {}

    fn at_publish(&self, _shard: u32) {
        self.held.store(1, Ordering::SeqCst);
        for _ in 0..1_000_000_000u64 {
            if self.freed.load(Ordering::SeqCst) == 1 {
                return;
            }
            thread::yield_now();
        }
        self.tired.store(1, Ordering::SeqCst);
    }
}

/// What a seat finds of a key that it knows and of one that it may not know, while a writer of
/// their shard is held.
fn find_beside<N: PoolName, R>(
    rt: &R,
    pool: &Pool<N>,
    seat: RawSeat,
    gate: &Hold,
) -> (Option<Index>, Option<Index>)
    requires { pool_of seat ≡ N.pool }
{
    let mut seat = PoolSeat::new(rt, pool, seat, gate);
    for _ in 0..1_000_000_000u64 {
        if gate.held.load(Ordering::SeqCst) == 1 {
            break;
        }
        thread::yield_now();
    }
    let fresh = seat.find(&[2, 2]);
    let old = seat.find(&[1, 1]);
    gate.freed.store(1, Ordering::SeqCst);
    (old, fresh)
}

/// A writer that a gate holds, and a seat that finds keys meanwhile.
fn held<N: PoolName + Send + Sync, R: Threads + Wait + Sync>(
    rt: &R,
    alloc: Global,
    rows: PoolRows,
    gate: &Hold,
) -> Option<(Option<Index>, Option<Index>)>
    requires { pool_of rows ≡ N.pool }
{
    let Ok((shared, mut seat)) = Pool::<N>::share(alloc, rows) else {
        return None;
    };
    let pool = &shared;
    let a = pool.split(&mut seat);
    let writer = move || -> Answer
        requires { pool_of a ≡ N.pool }
    { work(rt, alloc, pool, a, gate, &[(2, 2)]) };
    let finder = move || -> (Option<Index>, Option<Index>)
        requires { pool_of seat ≡ N.pool }
    { find_beside(rt, pool, seat, gate) };
    Some(join(rt, writer, finder).1)
}

/// The same, at a name that is picked.
fn held_once<R: Threads + Wait + Sync>(
    rt: &R,
    alloc: Global,
    rows: PoolRows,
    gate: &Hold,
) -> Option<(Option<Index>, Option<Index>)> {
    held::<Brand, R>(rt, alloc, rows, gate)
}

#[test]
fn a_find_waits_for_no_writer(rt: HostRuntime) -> Result<(), Fail> {
    let mut sole = SoleSeat::new(PoolRows::open(rt.alloc(), 1, 1024)?);
    assert_eq!(rt; sole.intern(&[1, 1]), Ok(Index(193)));
    let gate = Hold {
        held: AtomicU64::new(0),
        freed: AtomicU64::new(0),
        tired: AtomicU64::new(0),
    };
    let Some((old, fresh)) = held_once(&rt, rt.alloc(), sole.into_rows(), &gate) else {
        panic!(rt; "no memory")
    };
    assert_eq!(rt; old, Some(Index(193)));
    assert!(rt; fresh.is_none() || fresh == Some(Index(196)));
    assert_eq!(rt; gate.tired.load(Ordering::SeqCst), 0);
    Ok(())
}
