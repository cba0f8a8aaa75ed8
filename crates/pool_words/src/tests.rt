// A pool of the fewest words, opened and read.
use crate::{Layout, load, open};
use std::test::Fail;

#[test]
fn opens_with_every_word_0(rt: HostRuntime) -> Result<(), Fail> {
    let layout = Layout {
        shards: 1,
        size: 1024,
        top: 1,
        words: 1024,
    };
    let zeros = vec![in rt.alloc(); 0u64; 1024]?;
    let (words, mut seat) = open(rt.alloc(), &layout, zeros.as_slice())?;
    assert_eq!(rt; load(&words, &mut seat, 0), 0);
    assert_eq!(rt; load(&words, &mut seat, 1023), 0);
    Ok(())
}
