// Types of numbers that hold the values of types.
ghost use Rattle.std.specs.Prelude.{◌≡◌};
ghost use Rattle.type_form.specs.Known.{IsInjective};
ghost use Rattle.type_form.specs.Means.{IsTy, ty_at};
ghost use Rattle.type_form.specs.Pool.{Reads};
ghost use Rattle.elab_form.specs.Code as plain;

use type_form::{Index, Key, Keys, SimpleTy};
use type_keys::ty_key;
use wasm_form::ValType;

/// The type of numbers that holds the values of a type, if one does.
#[tactic(auto, unfolding(elab_form::specs::Code::class_of))]
pub(crate) fn class_of<P: Keys>(ty: Index, p: &mut P) -> Option<ValType>
    requires { IsTy (P.known p.old) ty }
    ensures reads { Reads P.known P.home P.fulls p.old p.new }
    ensures agrees { IsInjective (P.known p.new) }
    ensures class { result ≡ plain.class_of (ty_at (P.known p.old) ty) }
{
    match ty_key(ty, p) {
        Key::IntType { bits, .. } if bits <= 32 => Some(ValType::I32),
        Key::IntType { .. } => Some(ValType::I64),
        Key::SimpleType(SimpleTy::Usize | SimpleTy::Isize | SimpleTy::Bool) => {
            Some(ValType::I32)
        }
        _ => None,
    }
}
