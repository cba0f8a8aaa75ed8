// The worked numbers of a shard of 1,024 words, shards with room for more levels, and keys of every
// length.
use crate::{Full, PoolRows, hash_key};
use std::test::Fail;
use type_form::{Index, KeyBuf};

#[test]
fn a_shard_takes_64_keys_of_two_words(rt: HostRuntime) -> Result<(), Fail> {
    let mut rows = PoolRows::open(rt.alloc(), 1, 1024)?;
    assert_eq!(rt; rows.find(&[7, 7]), None);
    let first = rows.intern(&[0, 0]);
    // The head, the levels of 64 and 128 slots, and then the rows.
    assert_eq!(rt; first, Ok(Index(193)));
    for n in 1..64u64 {
        assert_eq!(rt; rows.intern(&[n, n * n]), Ok(Index(193 + 3 * n)));
    }
    assert_eq!(rt; rows.intern(&[64, 0]), Err(Full { shard: 0 }));
    assert_eq!(rt; rows.intern(&[63, 3969]), Ok(Index(382)));
    for n in 0..64u64 {
        assert_eq!(rt; rows.find(&[n, n * n]), Some(Index(193 + 3 * n)));
    }
    assert_eq!(rt; rows.find(&[64, 0]), None);
    Ok(())
}

#[test]
fn a_key_is_read_back(rt: HostRuntime) -> Result<(), Fail> {
    let mut rows = PoolRows::open(rt.alloc(), 4, 4096)?;
    let key = [u64::MAX; 64];
    let mut into = KeyBuf::new();
    let Ok(long) = rows.intern(&key) else {
        panic!(rt; "no room")
    };
    let Ok(short) = rows.intern(&[5]) else {
        panic!(rt; "no room")
    };
    rows.key_into(long, &mut into);
    assert_eq!(rt; into.as_slice(), key.as_slice());
    rows.key_into(short, &mut into);
    assert_eq!(rt; into.as_slice(), [5].as_slice());
    assert_eq!(rt; rows.find(&[5]), Some(short));
    Ok(())
}

#[test]
fn a_shard_has_its_part_of_all_words(rt: HostRuntime) -> Result<(), Fail> {
    // Two shards of 4,096 words each, and one over: there is room for levels up to that of 512 slots.
    let mut rows = PoolRows::open(rt.alloc(), 2, 8193)?;
    // The head, the levels of 64, 128, 256 and 512 slots, and then the rows.
    let mut next = [961u64, 4096 + 961];
    for n in 0..200u64 {
        let shard = (hash_key(&[n]) % 2) as usize;
        assert_eq!(rt; rows.intern(&[n]), Ok(Index(next[shard])));
        next[shard] = next[shard].wrapping_add(2);
    }
    // 64 rows are the most in a shard of 1,024 words.
    assert!(rt; next[0] > 961 + 2 * 64 && next[1] > 4096 + 961 + 2 * 64);
    Ok(())
}

#[test]
fn words_that_do_not_fit_are_refused(rt: HostRuntime) -> Result<(), Fail> {
    let mut rows = PoolRows::open(rt.alloc(), 1, 1024)?;
    // 831 words are left for rows: twelve of 65 words, and 51 words over.
    for n in 0..12u64 {
        assert_eq!(rt; rows.intern(&[n; 64]), Ok(Index(193 + 65 * n)));
    }
    assert_eq!(rt; rows.intern(&[12; 64]), Err(Full { shard: 0 }));
    assert_eq!(rt; rows.intern(&[12; 51]), Err(Full { shard: 0 }));
    assert_eq!(rt; rows.intern(&[12; 50]), Ok(Index(973)));
    Ok(())
}

#[test]
fn every_allocation_may_fail(rt: HostRuntime) -> Result<(), Fail> {
    assert!(rt; PoolRows::open(rt.alloc(), 1, 1 << 60).is_err());
    assert!(rt; PoolRows::open(rt.alloc(), 64, 65536).is_ok());
    Ok(())
}
