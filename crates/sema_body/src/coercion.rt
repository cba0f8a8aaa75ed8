// Known values where a type is asked for (Zig Language Reference 0.14, "Type Coercion").
ghost use Rattle.std.specs.Prelude.{◌≡◌, ◌≤◌, ◌-◌, ◌^◌, pos, IfOk, IsTrue};
ghost use Rattle.std.specs.Option.{option_map};
ghost use Rattle.type_form.specs.Known.{Known, IsInjective};
ghost use Rattle.type_form.specs.Means.{IsTy, ty_at, IsValue, value_at};
ghost use Rattle.type_form.specs.declared.tree.Arg.TheViews.{out-Ty, out-Value};
ghost use Rattle.type_form.specs.Pool.{Interns, Reads, is_full};
ghost use Rattle.elab_form.specs.Coercion as plain;
ghost use Rattle.sema_body.specs.Meets.{Stands, Meets, IsFrame, IsOperand, IsWanted, frame_at, from, halts_full, operand_at};
ghost use Rattle.sema_body.specs.Readings.{IsTypeOf, IsFit, range_of};

use crate::asking::wrong;
use crate::frame::Frame;
use crate::halt::{Halt, Operand};
use crate::work::Work;
use int_ops::power_of_two;
use trace_log::Answers;
use type_form::{Index, InternFault, Interner, Key, Keys, SimpleTy, SimpleValue};
use type_keys::types::simple_type;
use type_keys::values::{int_value, simple_value};
use type_keys::{ty_key, value_key};
use zw_base::DiagCode;

/// What comes of a known value where a type is asked for.
#[derive(Clone, Copy, Debug, PartialEq, Eq)]
pub enum Fit {
    /// It is this value of the type.
    Fits(Index),
    /// No rule takes its type to the one that is asked for.
    NoCoercion,
    /// The type does not hold the integer.
    NoFit,
}

/// The least and the greatest value of an integer type.
#[derive(Clone, Copy, Debug, PartialEq, Eq)]
pub(crate) struct Range {
    least: i128,
    greatest: i128,
}

impl Range {
    /// Whether the range has a number.
    fn has(&self, number: i128) -> bool
        ensures { result ≡ plain.within (range_of self.now) number }
    {
        self.least <= number && number <= self.greatest
    }
}

/// The range of signed integers of this many bits.
fn signed_range(bits: u32) -> Range
    requires some { 1 ≤ bits }
    requires few { bits ≤ 64 }
    ensures { range_of result ≡ plain.signed_range bits }
{
    let bound = power_of_two(bits - 1);
    Range {
        least: -bound,
        greatest: bound - 1,
    }
}

/// The range of unsigned integers of this many bits.
fn unsigned_range(bits: u32) -> Range
    requires few { bits ≤ 64 }
    ensures { range_of result ≡ plain.unsigned_range bits }
{
    Range {
        least: 0,
        greatest: power_of_two(bits) - 1,
    }
}

/// The range of the integers of this many bits, from 1 to 64.
fn sized_range(is_signed: bool, bits: u32) -> Option<Range>
    ensures { option_map range_of result ≡ plain.sized_range is_signed bits }
{
    if 1 <= bits && bits <= 64 {
        if is_signed {
            Some(signed_range(bits))
        } else {
            Some(unsigned_range(bits))
        }
    } else {
        None
    }
}

/// The range of an integer type; other types have none.
#[tactic(auto, unfolding(elab_form::specs::Coercion::range_of))]
pub(crate) fn integer_range<P: Keys>(ty: Index, p: &mut P) -> Option<Range>
    requires { IsTy (P.known p.old) ty }
    ensures reads { Reads P.known P.home P.fulls p.old p.new }
    ensures agrees { IsInjective (P.known p.new) }
    ensures range { option_map range_of result ≡ plain.range_of (ty_at (P.known p.old) ty) }
{
    match ty_key(ty, p) {
        Key::IntType { is_signed, bits } => sized_range(is_signed, bits),
        Key::SimpleType(SimpleTy::Usize) => Some(unsigned_range(32)),
        Key::SimpleType(SimpleTy::Isize) => Some(signed_range(32)),
        Key::SimpleType(SimpleTy::ComptimeInt) => Some(Range {
            least: i128::MIN,
            greatest: i128::MAX,
        }),
        _ => None,
    }
}

/// The type of a value; a function as a value does not have its type with it.
#[tactic(auto, unfolding(elab_form::specs::Coercion::type_of))]
pub(crate) fn type_of<I: Interner>(value: Index, p: &mut I) -> Result<Option<Index>, InternFault>
    requires { IsValue (I.known p.old) value }
    ensures interns { Interns I.known I.home I.fulls p.old p.new (is_full result) }
    ensures agrees { IsInjective (I.known p.new) }
    ensures ty { IfOk result (λ t. IsTypeOf (I.known p.new) t (plain.type_of (value_at (I.known p.old) value))) }
{
    match value_key(value, p) {
        Key::SimpleValue { ty, .. } => Ok(Some(ty)),
        Key::IntValue { ty, .. } => Ok(Some(ty)),
        Key::TagValue { ty, .. } => Ok(Some(ty)),
        Key::ErrorValue { ty, .. } => Ok(Some(ty)),
        Key::SomeValue { ty, .. } => Ok(Some(ty)),
        Key::GoodValue { ty, .. } => Ok(Some(ty)),
        Key::ListValue { ty, .. } => Ok(Some(ty)),
        Key::TextValue { ty, .. } => Ok(Some(ty)),
        Key::TaggedValue { ty, .. } => Ok(Some(ty)),
        Key::AddressValue { ty, .. } => Ok(Some(ty)),
        Key::ConstantValue { ty, .. } => Ok(Some(ty)),
        Key::PlaceValue { ty, .. } => Ok(Some(ty)),
        Key::PartValue { ty, .. } => Ok(Some(ty)),
        Key::SliceValue { ty, .. } => Ok(Some(ty)),
        Key::TypeValue { .. } => {
            let metatype = simple_type(SimpleTy::Metatype, p)?;
            Ok(Some(metatype))
        }
        _ => Ok(None),
    }
}

/// A known integer where a type is asked for.
fn integer_fit<I: Interner>(ty: Index, number: i128, p: &mut I) -> Result<Fit, InternFault>
    requires { IsTy (I.known p.old) ty }
    ensures interns { Interns I.known I.home I.fulls p.old p.new (is_full result) }
    ensures agrees { IsInjective (I.known p.new) }
    ensures fit { IfOk result (λ r. IsFit (I.known p.new) r (plain.integer_fit (ty_at (I.known p.old) ty) number (plain.range_of (ty_at (I.known p.old) ty)))) }
{
    match integer_range(ty, p) {
        None => Ok(Fit::NoCoercion),
        Some(range) => {
            if range.has(number) {
                match int_value(ty, number, p) {
                    Ok(value) => Ok(Fit::Fits(value)),
                    Err(fault) => Err(fault),
                }
            } else {
                Ok(Fit::NoFit)
            }
        }
    }
}

/// A known value of another type where a type is asked for.
fn other_fit<I: Interner>(ty: Index, value: Index, p: &mut I) -> Result<Fit, InternFault>
    requires ty_known { IsTy (I.known p.old) ty }
    requires value_known { IsValue (I.known p.old) value }
    ensures interns { Interns I.known I.home I.fulls p.old p.new (is_full result) }
    ensures agrees { IsInjective (I.known p.new) }
    ensures fit { IfOk result (λ r. IsFit (I.known p.new) r (plain.other_fit (ty_at (I.known p.old) ty) (out-Value (value_at (I.known p.old) value)))) }
{
    match value_key(value, p) {
        Key::SimpleValue {
            value: SimpleValue::Undefined,
            ..
        } => match simple_value(ty, SimpleValue::Undefined, p) {
            Ok(undefined) => Ok(Fit::Fits(undefined)),
            Err(fault) => Err(fault),
        },
        Key::IntValue { number, .. } => integer_fit(ty, number, p),
        _ => Ok(Fit::NoCoercion),
    }
}

/// A known value where a type is asked for.
#[tactic(auto, unfolding(elab_form::specs::Coercion::fit), using(elab_form::proofs::Sameness::same_at))]
pub fn fit_value<I: Interner>(ty: Index, value: Index, p: &mut I) -> Result<Fit, InternFault>
    requires ty_known { IsTy (I.known p.old) ty }
    requires value_known { IsValue (I.known p.old) value }
    ensures interns { Interns I.known I.home I.fulls p.old p.new (is_full result) }
    ensures agrees { IsInjective (I.known p.new) }
    ensures fit { IfOk result (λ r. IsFit (I.known p.new) r (plain.fit (ty_at (I.known p.old) ty) (value_at (I.known p.old) value))) }
{
    match type_of(value, p) {
        Ok(Some(own)) if own == ty => Ok(Fit::Fits(value)),
        Ok(_) => other_fit(ty, value, p),
        Err(fault) => Err(fault),
    }
}

/// Whether a type is that of what never ends.
#[tactic(auto, unfolding(elab_form::specs::Coercion::is_noreturn))]
pub(crate) fn is_noreturn<P: Keys>(ty: Index, p: &mut P) -> bool
    requires { IsTy (P.known p.old) ty }
    ensures reads { Reads P.known P.home P.fulls p.old p.new }
    ensures agrees { IsInjective (P.known p.new) }
    ensures noreturn { result ≡ plain.is_noreturn (ty_at (P.known p.old) ty) }
{
    match ty_key(ty, p) {
        Key::SimpleType(SimpleTy::Noreturn) => true,
        _ => false,
    }
}

/// Whether a type is `void`.
pub(crate) fn is_void<P: Keys>(ty: Index, p: &mut P) -> bool
    requires { IsTy (P.known p.old) ty }
    ensures reads { Reads P.known P.home P.fulls p.old p.new }
    ensures agrees { IsInjective (P.known p.new) }
    ensures void { result ≡ plain.is_void (out-Ty (ty_at (P.known p.old) ty)) }
{
    match ty_key(ty, p) {
        Key::SimpleType(SimpleTy::Void) => true,
        _ => false,
    }
}

/// A known value that an expression at a place gave, where a type is asked for.
fn known_fit<I: Interner>(
    cx: &Answers,
    f: &Frame,
    place: u32,
    ty: Index,
    value: Index,
    s: &Work,
    p: &mut I,
) -> Result<Operand, Halt>
    requires frame { IsFrame (I.known p.old) f.now }
    requires ty { IsTy (I.known p.old) ty }
    requires value { IsValue (I.known p.old) value }
    requires stands { Stands (I.known p.old) cx.now s.now }
    ensures interns { Interns I.known I.home I.fulls p.old p.new (halts_full result) }
    ensures meets { Meets (I.known p.new) cx.now s.now (IsOperand (I.known p.new) s.now) (operand_at (I.known p.new) s.now) result (from (I.known p.old) cx.now s.now (plain.fit_at (frame_at (I.known p.old) f.now) place (plain.fit (ty_at (I.known p.old) ty) (value_at (I.known p.old) value)))) }
{
    match fit_value(ty, value, p)? {
        Fit::Fits(fitting) => Ok(Operand::Known(fitting)),
        Fit::NoCoercion => Err(wrong(s.alloc, f, place, DiagCode::TypesDoNotFit)),
        Fit::NoFit => Err(wrong(s.alloc, f, place, DiagCode::IntegerDoesNotFit)),
    }
}

/// What an expression at a place gave, where a type is asked for.
fn fitted_to<I: Interner>(
    cx: &Answers,
    f: &Frame,
    place: u32,
    ty: Index,
    o: Operand,
    s: &Work,
    p: &mut I,
) -> Result<Operand, Halt>
    requires frame { IsFrame (I.known p.old) f.now }
    requires ty { IsTy (I.known p.old) ty }
    requires operand { IsOperand (I.known p.old) s.now o }
    requires stands { Stands (I.known p.old) cx.now s.now }
    ensures interns { Interns I.known I.home I.fulls p.old p.new (halts_full result) }
    ensures meets { Meets (I.known p.new) cx.now s.now (IsOperand (I.known p.new) s.now) (operand_at (I.known p.new) s.now) result (from (I.known p.old) cx.now s.now (plain.fitted_to (frame_at (I.known p.old) f.now) place (ty_at (I.known p.old) ty) (operand_at (I.known p.old) s.now o))) }
{
    match o {
        Operand::Known(value) => known_fit(cx, f, place, ty, value, s, p),
        Operand::Run { ty: own, at } => {
            if is_noreturn(own, p) {
                Ok(Operand::Run { ty: own, at })
            } else {
                Err(wrong(s.alloc, f, place, DiagCode::NotBuilt))
            }
        }
    }
}

/// What an expression at a place gave, brought to its result type, where it has one.
pub(crate) fn fitted<I: Interner>(
    cx: &Answers,
    f: &Frame,
    place: u32,
    want: Option<Index>,
    o: Operand,
    s: &Work,
    p: &mut I,
) -> Result<Operand, Halt>
    requires frame { IsFrame (I.known p.old) f.now }
    requires want { IsWanted (I.known p.old) want }
    requires operand { IsOperand (I.known p.old) s.now o }
    requires stands { Stands (I.known p.old) cx.now s.now }
    ensures interns { Interns I.known I.home I.fulls p.old p.new (halts_full result) }
    ensures meets { Meets (I.known p.new) cx.now s.now (IsOperand (I.known p.new) s.now) (operand_at (I.known p.new) s.now) result (from (I.known p.old) cx.now s.now (plain.fitted (frame_at (I.known p.old) f.now) place (option_map (ty_at (I.known p.old)) want) (operand_at (I.known p.old) s.now o))) }
{
    match want {
        Some(ty) => fitted_to(cx, f, place, ty, o, s, p),
        None => Ok(o),
    }
}
