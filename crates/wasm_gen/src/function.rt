// Functions (WebAssembly Core 1.0, section 5.5.13).
ghost use Rattle.std.specs.Prelude.{◌≡◌, IfOk};
ghost use Rattle.std.specs.Option.{option_map};
ghost use Rattle.type_form.specs.Known.{IsInjective};
ghost use Rattle.type_form.specs.Means.{IsTy, ty_at};
ghost use Rattle.type_form.specs.Pool.{Reads};
ghost use Rattle.air_form.specs.Denote.{IsBody, air_at, body_at, list_of};
ghost use Rattle.elab_form.specs.Code as plain;

use crate::class::class_of;
use crate::statement::push_list;
use air_form::Body;
use std::alloc::{AllocError, Global};
use type_form::{Index, Keys};
use wasm_form::{FnCode, FnType, Instr};
use zw_base::Seq;

/// A function without parameters and locals, with its result type and its instructions.
fn function_code<P: Keys>(alloc: Global, ty: Index, body: Vec<Instr>, p: &mut P) -> FnCode
    requires { IsTy (P.known p.old) ty }
    ensures reads { Reads P.known P.home P.fulls p.old p.new }
    ensures agrees { IsInjective (P.known p.new) }
    ensures code { result ≡ plain.function_code (ty_at (P.known p.old) ty) body.items }
{
    let kind = FnType {
        params: Seq::of(Vec::new(alloc)),
        result: class_of(ty, p),
    };
    FnCode {
        kind,
        locals: Seq::of(Vec::new(alloc)),
        body: Seq::of(body),
        relocs: Seq::of(Vec::new(alloc)),
    }
}

/// The code of a body without slots, if each of its forms has a template.
fn slotless_code<P: Keys>(
    alloc: Global,
    body: &Body,
    p: &mut P,
) -> Result<Option<FnCode>, AllocError>
    requires body { IsBody (P.known p.old) body.now }
    requires one { IsInjective (P.known p.old) }
    ensures reads { Reads P.known P.home P.fulls p.old p.new }
    ensures agrees { IsInjective (P.known p.new) }
    ensures code { IfOk result (λ c. c ≡ option_map (plain.function_code (ty_at (P.known p.old) body.now.result)) (plain.statements_code (list_of (air_at (P.known p.old) body.now.nodes) body.now.stmts))) }
{
    let mut code = Vec::new(alloc);
    if push_list(body, body.stmts(), &mut code, p)? {
        Ok(Some(function_code(alloc, body.result_ty(), code, p)))
    } else {
        Ok(None)
    }
}

/// The code of a typed body, if each of its forms has a template.
#[tactic(auto, unfolding(elab_form::specs::Code::body_code, air_form::specs::Denote::body_at))]
pub fn emit<P: Keys>(alloc: Global, body: &Body, p: &mut P) -> Result<Option<FnCode>, AllocError>
    requires body { IsBody (P.known p.old) body.now }
    requires one { IsInjective (P.known p.old) }
    ensures reads { Reads P.known P.home P.fulls p.old p.new }
    ensures agrees { IsInjective (P.known p.new) }
    ensures code { IfOk result (λ c. c ≡ plain.body_code (body_at (P.known p.old) body.now)) }
{
    if body.slots().is_empty() {
        slotless_code(alloc, body, p)
    } else {
        Ok(None)
    }
}
