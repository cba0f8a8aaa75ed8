// Names of primitive types and values (Zig Language Reference 0.14, "Primitive Types", "Primitive Values").
ghost use Rattle.std.specs.Prelude.{◌≡◌, ◌==◌, ◌&&◌, true, false, IfOk, IfSome};
ghost use Rattle.std.specs.Option.{option_map};
ghost use Rattle.type_form.specs.declared.tree.Ty.TheVariants as ty;
ghost use Rattle.type_form.specs.declared.tree.Value.TheVariants as value;
ghost use Rattle.type_form.specs.declared.tree.Arg.TheViews.{out-Ty};
ghost use Rattle.type_form.specs.Known.{Known, IsInjective};
ghost use Rattle.type_form.specs.Means.{DenotesValue, IsTy, ty_at, IsValue, value_at};
ghost use Rattle.type_form.specs.Pool.{Interns, Reads, is_full};
ghost use Rattle.elab_form.specs.Coercion as coercion;
ghost use Rattle.elab_form.specs.Names as plain;
ghost use Rattle.trace_log.specs.Readings.{IsAnswer, LinesOf, answer_at};
ghost use Rattle.sema_body.specs.Meets.{Stands, Meets, MeetsOperand, IsFrame, IsOperand, frame_at, from, halts_full, operand_at};

use crate::asking::{ask, wrong};
use crate::frame::Frame;
use crate::halt::{Halt, Operand};
use crate::work::Work;
use trace_log::{Answer, Answers, Question, UnitIndex, UnitValue};
use type_form::{Index, InternFault, Interner, Key, Keys, SimpleTy, SimpleValue};
use type_keys::decls::named_decl;
use type_keys::types::{int_type, simple_type};
use type_keys::values::{simple_value, type_value};
use type_keys::{intern_bytes, ty_key};
use zir_form::Primitive;
use zw_base::DiagCode;

/// A type that is one word, as a value.
pub(crate) fn word_type<I: Interner>(word: SimpleTy, p: &mut I) -> Result<Index, InternFault>
    ensures interns { Interns I.known I.home I.fulls p.old p.new (is_full result) }
    ensures agrees { IsInjective (I.known p.new) }
    ensures value { IfOk result (λ i. DenotesValue (I.known p.new) i (value.OfType (ty.Simple word))) }
{
    let of = simple_type(word, p)?;
    type_value(of, p)
}

/// An integer type, as a value.
fn integer_type<I: Interner>(is_signed: bool, bits: u8, p: &mut I) -> Result<Index, InternFault>
    requires { coercion.is_width bits ≡ true }
    ensures interns { Interns I.known I.home I.fulls p.old p.new (is_full result) }
    ensures agrees { IsInjective (I.known p.new) }
    ensures value { IfOk result (λ i. DenotesValue (I.known p.new) i (value.OfType (ty.Int is_signed bits))) }
{
    let of = int_type(is_signed, u32::from(bits), p)?;
    type_value(of, p)
}

/// A value that is one word, of a type that is one.
pub(crate) fn word_value<I: Interner>(
    word: SimpleTy,
    of: SimpleValue,
    p: &mut I,
) -> Result<Index, InternFault>
    ensures interns { Interns I.known I.home I.fulls p.old p.new (is_full result) }
    ensures agrees { IsInjective (I.known p.new) }
    ensures value { IfOk result (λ i. DenotesValue (I.known p.new) i (value.Simple (ty.Simple word) of)) }
{
    let ty = simple_type(word, p)?;
    simple_value(ty, of, p)
}

/// A primitive type or value.
pub(crate) fn primitive_value<I: Interner>(
    primitive: Primitive,
    p: &mut I,
) -> Result<Index, InternFault>
    requires { plain.has_width primitive ≡ true }
    ensures interns { Interns I.known I.home I.fulls p.old p.new (is_full result) }
    ensures agrees { IsInjective (I.known p.new) }
    ensures value { IfOk result (λ i. DenotesValue (I.known p.new) i (plain.primitive_value primitive)) }
{
    match primitive {
        Primitive::Unsigned(bits) => integer_type(false, bits, p),
        Primitive::Signed(bits) => integer_type(true, bits, p),
        Primitive::Usize => word_type(SimpleTy::Usize, p),
        Primitive::Isize => word_type(SimpleTy::Isize, p),
        Primitive::Bool => word_type(SimpleTy::Bool, p),
        Primitive::Void => word_type(SimpleTy::Void, p),
        Primitive::Noreturn => word_type(SimpleTy::Noreturn, p),
        Primitive::Type => word_type(SimpleTy::Metatype, p),
        Primitive::ComptimeInt => word_type(SimpleTy::ComptimeInt, p),
        Primitive::AnyError => word_type(SimpleTy::AnyError, p),
        Primitive::True => word_value(SimpleTy::Bool, SimpleValue::True, p),
        Primitive::False => word_value(SimpleTy::Bool, SimpleValue::False, p),
        Primitive::Null => word_value(SimpleTy::NullLiteral, SimpleValue::Null, p),
        Primitive::Undefined => {
            word_value(SimpleTy::UndefinedLiteral, SimpleValue::Undefined, p)
        }
    }
}

/// Whether a primitive is no integer type, or one of a width that there is.
fn has_width(primitive: Primitive) -> bool
    ensures { result ≡ plain.has_width primitive }
{
    match primitive {
        Primitive::Unsigned(bits) | Primitive::Signed(bits) => 1 <= bits && bits <= 64,
        _ => true,
    }
}

/// A primitive type or value.
pub(crate) fn primitive_form<I: Interner>(
    cx: &Answers,
    f: &Frame,
    place: u32,
    primitive: Primitive,
    s: &Work,
    p: &mut I,
) -> Result<Operand, Halt>
    requires frame { IsFrame (I.known p.old) f.now }
    requires stands { Stands (I.known p.old) cx.now s.now }
    ensures interns { Interns I.known I.home I.fulls p.old p.new (halts_full result) }
    ensures meets { Meets (I.known p.new) cx.now s.now (IsOperand (I.known p.new) s.now) (operand_at (I.known p.new) s.now) result (from (I.known p.old) cx.now s.now (plain.primitive_form (frame_at (I.known p.old) f.now) place primitive)) }
{
    if has_width(primitive) {
        let value = primitive_value(primitive, p)?;
        Ok(Operand::Known(value))
    } else {
        Err(wrong(s.alloc, f, place, DiagCode::NotBuilt))
    }
}

/// Whether a type is that of a file.
fn is_file<P: Keys>(ty: Index, p: &mut P) -> bool
    requires { IsTy (P.known p.old) ty }
    ensures reads { Reads P.known P.home P.fulls p.old p.new }
    ensures agrees { IsInjective (P.known p.new) }
    ensures file { result ≡ plain.is_file (out-Ty (ty_at (P.known p.old) ty)) }
{
    match ty_key(ty, p) {
        Key::FileType { .. } => true,
        _ => false,
    }
}

/// Whether a container is a file, and the one of this depth around a part.
fn is_own_file<P: Keys>(depth: u32, container: Index, p: &mut P) -> bool
    requires { IsTy (P.known p.old) container }
    ensures reads { Reads P.known P.home P.fulls p.old p.new }
    ensures agrees { IsInjective (P.known p.new) }
    ensures file { result ≡ ((depth == 0) && plain.is_file (out-Ty (ty_at (P.known p.old) container))) }
{
    let is_a_file = is_file(container, p);
    depth == 0 && is_a_file
}

/// The value of a constant or a function, where the answer gives one.
fn constant_in(answer: &Answer) -> Option<Index>
    ensures value { (k : Known) (lines : LinesOf) → option_map (value_at k) result ≡ plain.constant_in (answer_at k lines answer.now) }
    ensures known { (k : Known) → IsAnswer k answer.now → IfSome result (IsValue k) }
{
    match answer {
        Answer::Given(value) => match value.get() {
            UnitValue::Constant(value) => Some(*value),
            _ => None,
        },
        _ => None,
    }
}

/// A name of a declaration in the container of the frame: the declaration's result is asked for.
fn declared_in<I: Interner>(
    cx: &Answers,
    f: &Frame,
    place: u32,
    name: &[u8],
    s: &mut Work,
    p: &mut I,
) -> Result<Operand, Halt>
    requires frame { IsFrame (I.known p.old) f.now }
    requires stands { Stands (I.known p.old) cx.now s.old }
    ensures interns { Interns I.known I.home I.fulls p.old p.new (halts_full result) }
    ensures body { s.new.body ≡ s.old.body }
    ensures meets { MeetsOperand (I.known p.new) cx.now s.new result (from (I.known p.old) cx.now s.old
        (plain.declared_in (frame_at (I.known p.old) f.now) place (ty_at (I.known p.old) f.now.container) name.now)) }
{
    let name = intern_bytes(name, p)?;
    let decl = named_decl(f.container, name, p)?;
    match ask(cx, Question::Result(UnitIndex::Decl(decl)), s, p) {
        Err(halt) => Err(halt),
        Ok(answer) => match constant_in(&answer) {
            Some(value) => Ok(Operand::Known(value)),
            None => Err(wrong(s.alloc, f, place, DiagCode::NotBuilt)),
        },
    }
}

/// A name of a declaration of a container around the part, by the container's depth.
pub(crate) fn declared_form<I: Interner>(
    cx: &Answers,
    f: &Frame,
    place: u32,
    depth: u32,
    name: &[u8],
    s: &mut Work,
    p: &mut I,
) -> Result<Operand, Halt>
    requires frame { IsFrame (I.known p.old) f.now }
    requires stands { Stands (I.known p.old) cx.now s.old }
    ensures interns { Interns I.known I.home I.fulls p.old p.new (halts_full result) }
    ensures body { s.new.body ≡ s.old.body }
    ensures meets { MeetsOperand (I.known p.new) cx.now s.new result (from (I.known p.old) cx.now s.old
        (plain.declared_form (frame_at (I.known p.old) f.now) place depth name.now)) }
{
    if is_own_file(depth, f.container, p) {
        declared_in(cx, f, place, name, s, p)
    } else {
        Err(wrong(s.alloc, f, place, DiagCode::NotBuilt))
    }
}
