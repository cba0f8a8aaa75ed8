// Expressions whose value an instruction can hold.
ghost use Rattle.std.specs.Prelude.{◌≡◌, IfOk};
ghost use Rattle.type_form.specs.Known.{IsInjective};
ghost use Rattle.type_form.specs.Means.{IsValue, value_at};
ghost use Rattle.type_form.specs.Pool.{Reads};
ghost use Rattle.air_form.specs.Typed as typed;
ghost use Rattle.air_form.specs.Nodes.{IsNode};
ghost use Rattle.air_form.specs.Denote.{IsBody, Nodes, air_at, as_scalar, over_nodes, scalar_of};
ghost use Rattle.elab_form.specs.Code as plain;
ghost use Rattle.wasm_gen.specs.Pieces.{onto, so_far};

use crate::constant::constant_code;
use air_form::{AirNode, AirRef, Body};
use std::alloc::AllocError;
use type_form::{Index, Keys};
use wasm_form::Instr;

/// Puts a known value behind the code, and says whether it has a template.
fn push_constant<P: Keys>(
    value: Index,
    code: &mut Vec<Instr>,
    p: &mut P,
) -> Result<bool, AllocError>
    requires { IsValue (P.known p.old) value }
    ensures reads { Reads P.known P.home P.fulls p.old p.new }
    ensures agrees { IsInjective (P.known p.new) }
    ensures code { IfOk result (λ has. so_far has code.new.items ≡ onto code.old.items (plain.scalar_code (typed.constant (value_at (P.known p.old) value)))) }
{
    match constant_code(value, p) {
        Some(constant) => {
            code.push(constant)?;
            Ok(true)
        }
        None => Ok(false),
    }
}

/// Puts a node that is an expression behind the code, and says whether it has a template.
#[tactic(auto, unfolding(air_form::specs::Denote::over_nodes))]
fn push_scalar_node<P: Keys>(
    node: &AirNode,
    code: &mut Vec<Instr>,
    p: &mut P,
) -> Result<bool, AllocError>
    requires node { IsNode (P.known p.old) node.now }
    requires one { IsInjective (P.known p.old) }
    ensures reads { Reads P.known P.home P.fulls p.old p.new }
    ensures agrees { IsInjective (P.known p.new) }
    ensures code { (at : Nodes) → IfOk result (λ has. so_far has code.new.items ≡ onto code.old.items (plain.scalar_code (as_scalar (over_nodes (P.known p.old) at node.now)))) }
{
    match node {
        AirNode::Constant { value } => push_constant(*value, code, p),
        _ => Ok(false),
    }
}

/// Puts an expression behind the code, and says whether it has a template.
pub(crate) fn push_scalar<P: Keys>(
    body: &Body,
    at: AirRef,
    code: &mut Vec<Instr>,
    p: &mut P,
) -> Result<bool, AllocError>
    requires body { IsBody (P.known p.old) body.now }
    requires one { IsInjective (P.known p.old) }
    ensures reads { Reads P.known P.home P.fulls p.old p.new }
    ensures agrees { IsInjective (P.known p.new) }
    ensures code { IfOk result (λ has. so_far has code.new.items ≡ onto code.old.items (plain.scalar_code (scalar_of (air_at (P.known p.old) body.now.nodes) at))) }
{
    match body.node(at) {
        Some(node) => push_scalar_node(node, code, p),
        None => Ok(false),
    }
}
