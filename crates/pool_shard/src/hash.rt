// The hash of a key.
ghost use Rattle.std.specs.Prelude.{◌≡◌};
ghost use Rattle.pool_words.specs.Layout.{hash_of};

/// The hash of a key, by which its shard and its first slot are found.
pub fn hash_key(key: &[u64]) -> u64
    ensures { result ≡ hash_of key.now }
{
    let mut hash: u64 = 0xcbf2_9ce4_8422_2325;
    for word in key {
        hash = (hash ^ *word).wrapping_mul(0x0000_0100_0000_01b3);
    }
    hash ^ (hash >> 32)
}
