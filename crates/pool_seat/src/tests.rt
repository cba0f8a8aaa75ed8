// A sole seat used as an interner, up to its Full answer.
ghost use Rattle.std.specs.Prelude.{◌<◌, ◌≤◌, length};
ghost use Rattle.type_form.specs.Pool.{Interns, is_full};

use crate::SoleSeat;
use pool_shard::PoolRows;
use std::test::Fail;
use type_form::{Index, InternFault, Interner, KeyBuf, Keys};

/// Interns a key through the trait alone.
fn twice<I: Interner>(key: &[u64], p: &mut I) -> Result<bool, InternFault>
    requires some { 0 < length key.now }
    requires few { length key.now ≤ 64 }
    ensures { Interns I.known I.home I.fulls p.old p.new (is_full result) }
{
    let first = p.intern(key)?;
    let again = p.intern(key)?;
    Ok(first == again)
}

#[test]
fn interns_until_it_is_full(rt: HostRuntime) -> Result<(), Fail> {
    let rows = PoolRows::open(rt.alloc(), 1, 1024)?;
    let mut seat = SoleSeat::new(rows);
    for n in 0..64u64 {
        assert_eq!(rt; twice(&[n, 1], &mut seat), Ok(true));
    }
    assert_eq!(rt; seat.intern(&[64, 1]), Err(InternFault::Full { shard: 0 }));
    let mut into = KeyBuf::new();
    let Some(place) = seat.find(&[63, 1]) else {
        panic!(rt; "a known key was not found")
    };
    assert_eq!(rt; place, Index(382));
    seat.key_into(place, &mut into);
    assert_eq!(rt; into.as_slice(), [63, 1].as_slice());
    let mut rows = seat.into_rows();
    assert_eq!(rt; rows.find(&[0, 1]), Some(Index(193)));
    Ok(())
}

#[test]
fn a_note_agrees_with_its_seat(rt: HostRuntime) -> Result<(), Fail> {
    let mut seat = SoleSeat::new(PoolRows::open(rt.alloc(), 1, 1024)?);
    let Ok(one) = seat.intern(&[1]) else {
        panic!(rt; "no room")
    };
    let note = seat.note();
    assert!(rt; seat.agree(one, &note, one));
    let Ok(two) = seat.intern(&[2]) else {
        panic!(rt; "no room")
    };
    assert!(rt; !seat.agree(two, &note, one));
    // A call that knows the seat as an interner alone leaves it at its pool.
    assert_eq!(rt; twice(&[3], &mut seat), Ok(true));
    seat.meet(note);
    assert_eq!(rt; seat.find(&[2]), Some(two));
    Ok(())
}
