// Known values (WebAssembly Core 1.0, section 5.4.5).
ghost use Rattle.std.specs.Prelude.{◌≡◌};
ghost use Rattle.std.specs.Int.{w32, w64, int_wrap};
ghost use Rattle.std.specs.Option.{option_map};
ghost use Rattle.type_form.specs.Known.{IsInjective};
ghost use Rattle.type_form.specs.Means.{IsTy, ty_at, IsValue, value_at};
ghost use Rattle.type_form.specs.Pool.{Reads};
ghost use Rattle.elab_form.specs.Code as plain;

use crate::class::class_of;
use type_form::{Index, Key, Keys, SimpleValue};
use type_keys::value_key;
use wasm_form::{Instr, ValType};

/// The low 32 bits of a number, as a signed number.
#[tactic(auto, using(crate::proofs::Numbers::wrapped_numbers))]
fn low_32(number: i128) -> i32
    ensures { result ≡ int_wrap w32 number }
{
    let low = number.rem_euclid(0x1_0000_0000);
    (low as u32).cast_signed()
}

/// The low 64 bits of a number, as a signed number.
#[tactic(auto, using(crate::proofs::Numbers::wrapped_numbers))]
fn low_64(number: i128) -> i64
    ensures { result ≡ int_wrap w64 number }
{
    let low = number.rem_euclid(0x1_0000_0000_0000_0000);
    (low as u64).cast_signed()
}

/// An integer as a constant of a type of numbers.
fn number_code(number: i128, class: ValType) -> Instr
    ensures { result ≡ plain.number_code number class }
{
    match class {
        ValType::I32 => Instr::I32Const(low_32(number)),
        ValType::I64 => Instr::I64Const(low_64(number)),
    }
}

/// An integer of a type, if a type of numbers holds it.
fn integer_code<P: Keys>(ty: Index, number: i128, p: &mut P) -> Option<Instr>
    requires { IsTy (P.known p.old) ty }
    ensures reads { Reads P.known P.home P.fulls p.old p.new }
    ensures agrees { IsInjective (P.known p.new) }
    ensures code { result ≡ option_map (plain.number_code number) (plain.class_of (ty_at (P.known p.old) ty)) }
{
    match class_of(ty, p) {
        Some(class) => Some(number_code(number, class)),
        None => None,
    }
}

/// A known value as a constant, if it has a template.
#[tactic(auto, unfolding(elab_form::specs::Code::constant_code))]
pub(crate) fn constant_code<P: Keys>(value: Index, p: &mut P) -> Option<Instr>
    requires { IsValue (P.known p.old) value }
    ensures reads { Reads P.known P.home P.fulls p.old p.new }
    ensures agrees { IsInjective (P.known p.new) }
    ensures code { result ≡ plain.constant_code (value_at (P.known p.old) value) }
{
    match value_key(value, p) {
        Key::IntValue { ty, number } => integer_code(ty, number, p),
        Key::SimpleValue {
            value: SimpleValue::True,
            ..
        } => Some(Instr::I32Const(1)),
        Key::SimpleValue {
            value: SimpleValue::False,
            ..
        } => Some(Instr::I32Const(0)),
        _ => None,
    }
}
