// Statements.
ghost use Rattle.std.specs.Prelude.{◌≡◌, IfOk};
ghost use Rattle.type_form.specs.Known.{IsInjective};
ghost use Rattle.type_form.specs.Pool.{Reads};
ghost use Rattle.air_form.specs.Typed as typed;
ghost use Rattle.air_form.specs.Denote.{IsBody, air_at, as_statement, list_of, over_nodes, returned, scalar_of, statement_of};
ghost use Rattle.elab_form.specs.Code as plain;
ghost use Rattle.wasm_gen.specs.Pieces.{onto, so_far};

use crate::scalar::push_scalar;
use air_form::{AirNode, AirRef, Body};
use std::alloc::AllocError;
use type_form::Keys;
use wasm_form::Instr;

/// Puts `return` with a value behind the code, and says whether the value has a template.
fn push_return_value<P: Keys>(
    body: &Body,
    value: AirRef,
    code: &mut Vec<Instr>,
    p: &mut P,
) -> Result<bool, AllocError>
    requires body { IsBody (P.known p.old) body.now }
    requires one { IsInjective (P.known p.old) }
    ensures reads { Reads P.known P.home P.fulls p.old p.new }
    ensures agrees { IsInjective (P.known p.new) }
    ensures code { IfOk result (λ has. so_far has code.new.items ≡ onto code.old.items (plain.statement_code (typed.return_value (scalar_of (air_at (P.known p.old) body.now.nodes) value)))) }
{
    if push_scalar(body, value, code, p)? {
        code.push(Instr::Return)?;
        Ok(true)
    } else {
        Ok(false)
    }
}

/// Puts `return`, with a value or without one, behind the code, and says whether it has a template.
fn push_return<P: Keys>(
    body: &Body,
    value: Option<AirRef>,
    code: &mut Vec<Instr>,
    p: &mut P,
) -> Result<bool, AllocError>
    requires body { IsBody (P.known p.old) body.now }
    requires one { IsInjective (P.known p.old) }
    ensures reads { Reads P.known P.home P.fulls p.old p.new }
    ensures agrees { IsInjective (P.known p.new) }
    ensures code { IfOk result (λ has. so_far has code.new.items ≡ onto code.old.items (plain.statement_code (returned (air_at (P.known p.old) body.now.nodes) value))) }
{
    match value {
        Some(value) => push_return_value(body, value, code, p),
        None => {
            code.push(Instr::Return)?;
            Ok(true)
        }
    }
}

/// Puts a node that is a statement behind the code, and says whether it has a template.
#[tactic(auto, unfolding(air_form::specs::Denote::over_nodes))]
fn push_statement_node<P: Keys>(
    body: &Body,
    node: &AirNode,
    code: &mut Vec<Instr>,
    p: &mut P,
) -> Result<bool, AllocError>
    requires body { IsBody (P.known p.old) body.now }
    requires one { IsInjective (P.known p.old) }
    ensures reads { Reads P.known P.home P.fulls p.old p.new }
    ensures agrees { IsInjective (P.known p.new) }
    ensures code { IfOk result (λ has. so_far has code.new.items ≡ onto code.old.items (plain.statement_code (as_statement (over_nodes (P.known p.old) (air_at (P.known p.old) body.now.nodes) node.now)))) }
{
    match node {
        AirNode::Return { value } => push_return(body, *value, code, p),
        _ => Ok(false),
    }
}

/// Puts a statement behind the code, and says whether it has a template.
fn push_statement<P: Keys>(
    body: &Body,
    at: AirRef,
    code: &mut Vec<Instr>,
    p: &mut P,
) -> Result<bool, AllocError>
    requires body { IsBody (P.known p.old) body.now }
    requires one { IsInjective (P.known p.old) }
    ensures reads { Reads P.known P.home P.fulls p.old p.new }
    ensures agrees { IsInjective (P.known p.new) }
    ensures code { IfOk result (λ has. so_far has code.new.items ≡ onto code.old.items (plain.statement_code (statement_of (air_at (P.known p.old) body.now.nodes) at))) }
{
    match body.node(at) {
        Some(node) => push_statement_node(body, node, code, p),
        None => Ok(false),
    }
}

/// Puts a list of statements behind the code, and says whether each has a template.
pub(crate) fn push_list<P: Keys>(
    body: &Body,
    statements: &[AirRef],
    code: &mut Vec<Instr>,
    p: &mut P,
) -> Result<bool, AllocError>
    requires body { IsBody (P.known p.old) body.now }
    requires one { IsInjective (P.known p.old) }
    ensures reads { Reads P.known P.home P.fulls p.old p.new }
    ensures agrees { IsInjective (P.known p.new) }
    ensures code { IfOk result (λ has. so_far has code.new.items ≡ onto code.old.items (plain.statements_code (list_of (air_at (P.known p.old) body.now.nodes) statements.now))) }
{
    for statement in statements {
        if !push_statement(body, *statement, code, p)? {
            return Ok(false);
        }
    }
    Ok(true)
}
