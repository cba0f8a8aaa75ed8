// A body with a statement, built and read.
use crate::{AirBuilder, AirNode, AirRef};
use std::test::Fail;
use type_form::Index;

/// `if (a) return a;` behind which the program ends; the numbers of indices stand for themselves.
#[test]
fn a_body_is_built(rt: HostRuntime) -> Result<(), Fail> {
    let mut b = AirBuilder::new(rt.alloc());
    let number = b.add_slot(Index(7))?;
    let slot = b.push(AirNode::Slot { number })?;
    let condition = b.push(AirNode::Load { place: slot })?;
    let start = b.open_list();
    let leave = b.push(AirNode::Return {
        value: Some(condition),
    })?;
    b.add_statement(leave)?;
    let then = b.close_list(start)?;
    assert_eq!(rt; then.as_slice(), [AirRef(2)].as_slice());
    let otherwise = b.close_list(start)?;
    assert_eq!(rt; otherwise.len(), 0);
    let choice = b.push(AirNode::If {
        condition,
        then,
        otherwise,
    })?;
    b.add_statement(choice)?;
    assert_eq!(rt; b.len(), 4);
    assert_eq!(rt; b.add_label()?, 0);
    assert_eq!(rt; b.slots(), [Index(7)].as_slice());
    assert!(rt; matches!(b.node(slot), Some(AirNode::Slot { number: 0 })));
    let body = b.finish(1, Index(8), Index(9), Vec::new(rt.alloc()));
    assert_eq!(rt; body.params(), 1);
    assert_eq!(rt; body.result_ty(), Index(8));
    assert_eq!(rt; body.errors(), Index(9));
    assert_eq!(rt; body.slots(), [Index(7)].as_slice());
    assert_eq!(rt; body.refers().len(), 0);
    assert_eq!(rt; body.stmts(), [AirRef(3)].as_slice());
    assert!(rt; matches!(body.node(AirRef(3)), Some(AirNode::If { .. })));
    assert!(rt; body.node(AirRef(4)).is_none());
    Ok(())
}
