// Bindings that hide one another and come to light again, and captures.
use crate::bindings::Bindings;
use crate::captures::captures_of;
use crate::{Capture, Event, Target};
use std::test::Fail;

#[test]
fn hides_and_shows_again(rt: HostRuntime) -> Result<(), Fail> {
    let mut bound = Bindings::new(rt.alloc(), 3)?;
    bound.push(2, 7)?;
    bound.push(0, 8)?;
    bound.push(2, 9)?;
    assert_eq!(rt; bound.find(2), Some(9));
    assert_eq!(rt; bound.find(0), Some(8));
    assert_eq!(rt; bound.find(1), None);
    assert_eq!(rt; bound.find(3), None);
    bound.truncate(1);
    assert_eq!(rt; bound.find(2), Some(7));
    assert_eq!(rt; bound.find(0), None);
    assert_eq!(rt; bound.len(), 1);
    bound.truncate(0);
    assert_eq!(rt; bound.find(2), None);
    Ok(())
}

#[test]
fn a_container_captures_a_local_once(rt: HostRuntime) -> Result<(), Fail> {
    let mentions = |token, local| Event::Mentions {
        token,
        target: Target::Local(local),
    };
    let events = [
        Event::Opens { token: 5 },
        mentions(7, 2),
        Event::Opens { token: 9 },
        mentions(11, 2),
        mentions(12, 6),
        mentions(13, 2),
        Event::Closes,
        Event::Closes,
        mentions(20, 2),
    ];
    let captured = [(5, 2), (9, 2), (9, 6)].map(|(container, local)| Capture { container, local });
    let captures = captures_of(rt.alloc(), &events)?;
    assert_eq!(rt; captures.as_slice(), captured.as_slice());
    Ok(())
}
