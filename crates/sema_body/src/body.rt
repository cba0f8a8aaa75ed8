// The typed body of a unit, as it is made.
ghost use Rattle.std.specs.Prelude.{◌≡◌, [], ◌∷◌, ◌++◌, length, take, OnOk, OnErr, IfOk};
ghost use Rattle.air_form.specs.Nodes.{AreBelow, refs_of};
ghost use Rattle.sema_body.specs.Bodies.{with_node, with_statements};

use crate::work::Work;
use air_form::{AirNode, AirRef};
use std::alloc::AllocError;

/// Puts a node behind the others.
pub(crate) fn put(s: &mut Work, node: AirNode) -> Result<AirRef, AllocError>
    requires { AreBelow (length s.old.body.nodes) (refs_of node) }
    ensures number { IfOk result (λ r. r.0 ≡ length s.old.body.nodes) }
    ensures lists { s.new.body.statements ≡ s.old.body.statements }
    ensures put { OnOk result (s.new ≡ with_node s.old node) }
    ensures unchanged { OnErr result (s.new ≡ s.old) }
{
    s.body.push(node)
}

/// Puts a statement at the end of the innermost list.
pub(crate) fn act(s: &mut Work, statement: AirRef) -> Result<(), AllocError>
    requires { AreBelow (length s.old.body.nodes) (statement ∷ []) }
    ensures put { OnOk result (s.new ≡ with_statements s.old (statement ∷ [])) }
    ensures unchanged { OnErr result (s.new ≡ s.old) }
{
    s.body.add_statement(statement)
}

/// Puts statements at the end of the innermost list. Where memory runs out, some may be there.
pub(crate) fn act_all(s: &mut Work, statements: &[AirRef]) -> Result<(), AllocError>
    requires { AreBelow (length s.old.body.nodes) statements.now }
    ensures put { OnOk result (s.new ≡ with_statements s.old statements.now) }
{
    for statement in statements {
        act(s, *statement)?;
    }
    Ok(())
}
