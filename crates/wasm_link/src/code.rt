// Code with its operands filled in.
ghost use Rattle.std.specs.Prelude.{◌≡◌, ◌++◌, IfOk, slice_get, map};
ghost use Rattle.wasm_link.specs.Operands.{instr_filled, linked_body};
ghost use Rattle.wasm_link.specs.Link as spec;

use crate::named::Function;
use crate::operands::{Targets, with_operand};
use std::alloc::{AllocError, Global};
use wasm_form::{Code, FnCode, Instr, Locals, Reloc, ValType};
use zw_base::Seq;

/// Fills in the operand of the instruction at a place, where one stands there.
fn fill_instr(body: &mut Vec<Instr>, place: usize, n: u32)
    ensures { body.new.items ≡ instr_filled body.old.items place n (slice_get body.old.items place) }
{
    if let Some(instr) = body.get(place).copied() {
        body[place] = with_operand(n, instr);
    }
}

/// Fills in the operands of a body.
fn fill_body(targets: &Targets, body: &mut Vec<Instr>, relocs: &[Reloc])
    ensures { body.new.items ≡ linked_body targets.now relocs.now body.old.items }
{
    for reloc in relocs {
        fill_instr(body, reloc.place, targets.operand(&reloc.symbol));
    }
}

fn is_kind(a: ValType, b: ValType) -> bool
    ensures { result ≡ spec.is_kind a b }
{
    match (a, b) {
        (ValType::I32, ValType::I32) | (ValType::I64, ValType::I64) => true,
        (ValType::I32, ValType::I64) | (ValType::I64, ValType::I32) => false,
    }
}

/// The groups of neighbouring locals, the first of which is begun.
fn grouped_after(alloc: Global, first: Locals, kinds: &[ValType]) -> Result<Vec<Locals>, AllocError>
    ensures { IfOk result (λ v. v.items ≡ spec.grouped_after first kinds.now) }
{
    let mut groups = Vec::new(alloc);
    let mut group = first;
    for kind in kinds {
        if is_kind(group.kind, *kind) {
            group.count = group.count.wrapping_add(1);
        } else {
            groups.push(group)?;
            group = Locals {
                count: 1,
                kind: *kind,
            };
        }
    }
    groups.push(group)?;
    Ok(groups)
}

/// Locals in groups: equal neighbours are one group.
fn grouped(alloc: Global, kinds: &[ValType]) -> Result<Vec<Locals>, AllocError>
    ensures { IfOk result (λ v. v.items ≡ spec.grouped kinds.now) }
{
    match kinds {
        [] => Ok(Vec::new(alloc)),
        [kind, rest @ ..] => {
            let first = Locals {
                count: 1,
                kind: *kind,
            };
            grouped_after(alloc, first, rest)
        }
    }
}

/// The code of a function with its operands filled in.
fn linked_code(alloc: Global, targets: &Targets, code: FnCode) -> Result<Code, AllocError>
    ensures { IfOk result (λ c. c ≡ spec.linked_code targets.now code) }
{
    let locals = grouped(alloc, code.locals.as_slice())?;
    let mut body = code.body.into_vec();
    fill_body(targets, &mut body, code.relocs.as_slice());
    Ok(Code {
        locals: Seq::of(locals),
        body: Seq::of(body),
    })
}

/// The codes of functions in their order.
pub fn codes_of(
    alloc: Global,
    targets: &Targets,
    functions: Vec<Function>,
) -> Result<Vec<Code>, AllocError>
    ensures { IfOk result (λ v. v.items ≡ map (λ f. spec.linked_code targets.now f.code) functions.items) }
{
    let mut codes = Vec::new(alloc);
    for function in functions {
        codes.push(linked_code(alloc, targets, function.code)?)?;
    }
    Ok(codes)
}
