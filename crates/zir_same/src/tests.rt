// Trees that are exponential in their lines.
use crate::SameTrees;
use std::test::Fail;
use zir_form::{Form, Lines, PartRef};

/// Lines of a tree that doubles at each of 60 levels over one value, each level twice where `twice` is set.
fn doubled(rt: &HostRuntime, value: u128, twice: bool) -> Result<Lines, Fail> {
    let mut lines = Lines::new(rt.alloc());
    let mut first = lines.put(Form::Integer { place: 0, value })?;
    let mut then = first;
    for _ in 0..60 {
        let line = lines.put(Form::Runs { first, then })?;
        let other = if twice {
            lines.put(Form::Runs {
                first: then,
                then: first,
            })?
        } else {
            line
        };
        first = line;
        then = other;
    }
    Ok(lines)
}

#[test]
fn one_tree_in_two_files(rt: HostRuntime) -> Result<(), Fail> {
    let once = doubled(&rt, 7, false)?;
    let twice = doubled(&rt, 7, true)?;
    let same = SameTrees::of(rt.alloc(), &once, &twice)?;
    assert_eq!(rt; same.lines(60, 119), true);
    assert_eq!(rt; same.lines(60, 120), true);
    assert_eq!(rt; same.lines(59, 119), false);
    assert_eq!(rt; same.lines(61, 121), true);
    let part = |line| Some(PartRef { line });
    assert_eq!(rt; same.parts(part(60), part(119)), true);
    assert_eq!(rt; same.parts(part(60), None), false);
    assert_eq!(rt; same.parts(None, None), true);
    let other = SameTrees::of(rt.alloc(), &once, &doubled(&rt, 8, false)?)?;
    assert_eq!(rt; other.lines(60, 60), false);
    Ok(())
}
