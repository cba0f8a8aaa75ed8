// Rows moved to another pool: in which order, a list that is read both ways, and rows that don't fit.
ghost use Rattle.std.specs.Prelude.{◌≡◌, IfSome, IsSome};
ghost use Rattle.type_form.specs.Denote.{denoted};
ghost use Rattle.pool_words.specs.Rule.{In};
ghost use Rattle.pool_shard.specs.Pairs.{known};

use crate::{RehomeFault, rehome};
use pool_shard::{PoolRows, hash_key};
use std::alloc::{AllocError, Global};
use std::test::Fail;
use type_form::Index;

/// The type `?error{a}`, and the list of the set's names, which is also one of numbers.
fn optional_set(rows: &mut PoolRows) -> Option<(Index, Index)>
    ensures layout { rows.new.view.layout ≡ rows.old.view.layout }
    ensures denote { IfSome result (λ t. IsSome (denoted (known rows.new) t.0) × IsSome (denoted (known rows.new) t.1)) }
{
    let Ok(_unused) = rows.intern(&[36, 98]) else {
        return None;
    };
    let Ok(name) = rows.intern(&[36, 97]) else {
        return None;
    };
    let Ok(names) = rows.intern(&[36, name.0]) else {
        return None;
    };
    let Ok(set) = rows.intern(&[3, names.0]) else {
        return None;
    };
    let Ok(optional) = rows.intern(&[8, set.0]) else {
        return None;
    };
    Some((optional, names))
}

/// Whether the row at an index has this key.
fn has(rows: &mut PoolRows, i: u64, key: &[u64]) -> bool {
    let Some(found) = rows.find(key) else {
        return false;
    };
    found.0 == i
}

#[test]
fn moves_what_is_reached(rt: HostRuntime) -> Result<(), Fail> {
    let mut old = PoolRows::open(rt.alloc(), 1, 1024)?;
    let Some((optional, names)) = optional_set(&mut old) else {
        panic!(rt; "no room")
    };
    let Ok(home) = rehome(rt.alloc(), old, &[optional, names], 4096) else {
        panic!(rt; "no room")
    };
    let mut rows = home.rows;
    let moved = home.moved.as_slice();
    // Of a shard of 1,024 words the rows begin at 193, of one of 4,096 at 961. The key that is not
    // live takes the first 3 of the old ones.
    let wanted = [(196, 961), (202, 967), (205, 970), (199, 973)];
    assert_eq!(rt; moved.len(), 4);
    for n in 0..4 {
        assert_eq!(rt; moved[n].0.0, wanted[n].0);
        assert_eq!(rt; moved[n].1.0, wanted[n].1);
    }
    assert!(rt; has(&mut rows, 961, &[36, 97]));
    // The names of the set, and the same list as numbers.
    assert!(rt; has(&mut rows, 964, &[36, 961]));
    assert!(rt; has(&mut rows, 967, &[3, 964]));
    assert!(rt; has(&mut rows, 970, &[8, 967]));
    assert!(rt; has(&mut rows, 973, &[36, 196]));
    assert_eq!(rt; rows.find(&[36, 98]), None);
    Ok(())
}

/// A list of 62 numbers, in two keys.
fn long_list(rows: &mut PoolRows) -> Option<Index>
    ensures layout { rows.new.view.layout ≡ rows.old.view.layout }
    ensures denote { IfSome result (λ i. IsSome (denoted (known rows.new) i)) }
{
    let Ok(last) = rows.intern(&[36, 1, 2]) else {
        return None;
    };
    let mut key = [7u64; 62];
    key[0] = 37;
    key[1] = last.0;
    match rows.intern(&key) {
        Ok(list) => Some(list),
        Err(_) => None,
    }
}

#[test]
fn moves_a_list_from_its_end(rt: HostRuntime) -> Result<(), Fail> {
    let mut old = PoolRows::open(rt.alloc(), 1, 1024)?;
    let Some(list) = long_list(&mut old) else {
        panic!(rt; "no room")
    };
    let Ok(home) = rehome(rt.alloc(), old, &[list, list], 4096) else {
        panic!(rt; "no room")
    };
    let mut rows = home.rows;
    let moved = home.moved.as_slice();
    assert_eq!(rt; moved.len(), 2);
    assert_eq!(rt; moved[0].0.0, 193);
    assert_eq!(rt; moved[0].1.0, 961);
    assert_eq!(rt; moved[1].0.0, 197);
    assert_eq!(rt; moved[1].1.0, 965);
    let mut key = [7u64; 62];
    key[0] = 37;
    key[1] = 961;
    assert!(rt; has(&mut rows, 965, &key));
    assert!(rt; has(&mut rows, 961, &[36, 1, 2]));
    Ok(())
}

/// A list of each of some numbers alone.
fn lists(alloc: Global, rows: &mut PoolRows, numbers: &[u64]) -> Option<Vec<Index>>
    ensures layout { rows.new.view.layout ≡ rows.old.view.layout }
    ensures denote { IfSome result (λ v. (i : Index) → In i v.items → IsSome (denoted (known rows.new) i)) }
{
    let mut all = Vec::new(alloc);
    for n in numbers {
        let Ok(i) = rows.intern(&[36, *n]) else {
            return None;
        };
        let Ok(()) = all.push(i) else {
            return None;
        };
    }
    Some(all)
}

#[test]
fn rows_that_do_not_fit_come_back(rt: HostRuntime) -> Result<(), Fail> {
    let mut old = PoolRows::open(rt.alloc(), 1, 8192)?;
    let mut numbers = Vec::new(rt.alloc());
    for n in 0..300u64 {
        numbers.push(n)?;
    }
    let Some(live) = lists(rt.alloc(), &mut old, numbers.as_slice()) else {
        panic!(rt; "no room")
    };
    match rehome(rt.alloc(), old, live.as_slice(), 1024) {
        Err(RehomeFault::Full { shard, mut old }) => {
            assert_eq!(rt; shard, 0);
            assert_eq!(rt; live.len(), 300);
            for (n, i) in live.iter().enumerate() {
                assert_eq!(rt; old.find(&[36, n as u64]), Some(*i));
            }
            Ok(())
        }
        _ => panic!(rt; "they fit"),
    }
}

/// As many numbers whose lists are in a shard of two.
fn numbers_of(numbers: &mut Vec<u64>, shard: u64, count: u64) -> Result<(), AllocError> {
    let mut left = count;
    for n in 0..10_000u64 {
        if left > 0 && hash_key(&[36, n]) % 2 == shard {
            left -= 1;
            numbers.push(n)?;
        }
    }
    Ok(())
}

#[test]
fn the_shard_that_is_full_first_is_named(rt: HostRuntime) -> Result<(), Fail> {
    // A shard of 1,024 words takes 64 rows. Both shards are asked for one more, shard 1 first.
    let mut old = PoolRows::open(rt.alloc(), 2, 16384)?;
    let mut numbers = Vec::new(rt.alloc());
    numbers_of(&mut numbers, 1, 65)?;
    numbers_of(&mut numbers, 0, 65)?;
    assert_eq!(rt; numbers.len(), 130);
    let Some(live) = lists(rt.alloc(), &mut old, numbers.as_slice()) else {
        panic!(rt; "no room")
    };
    match rehome(rt.alloc(), old, live.as_slice(), 2048) {
        Err(RehomeFault::Full { shard, .. }) => {
            assert_eq!(rt; shard, 1);
            Ok(())
        }
        _ => panic!(rt; "they fit"),
    }
}
