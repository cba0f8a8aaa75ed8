// Values and types that a unit's text has at comptime (Zig Language Reference 0.14, "comptime").
ghost use Rattle.std.specs.Prelude.{◌≡◌, Some, true, false};
ghost use Rattle.type_form.specs.declared.tree.Arg.TheViews.{out-Value};
ghost use Rattle.type_form.specs.Known.{IsInjective};
ghost use Rattle.type_form.specs.Means.{IsValue, value_at};
ghost use Rattle.type_form.specs.Pool.{Interns, Reads};
ghost use Rattle.elab_form.specs.Asking.{evaluated};
ghost use Rattle.elab_form.specs.Elab as elab;
ghost use Rattle.elab_form.specs.Places as places;
ghost use Rattle.elab_form.specs.Units as plain;
ghost use Rattle.sema_body.specs.Trees.{child_at};
ghost use Rattle.sema_body.specs.Meets.{Stands, MeetsOperand, IsFrame, IsOperand, IsWanted, frame_at, from, halts_full, operand_at, want_at};
ghost use Rattle.sema_body.specs.Readings.{IsTypeOf};
ghost use Rattle.sema_body.specs.Units.{MeetsType, MeetsValue, kept, type_in};

use crate::asking::wrong;
use crate::forms::expression;
use crate::frame::Frame;
use crate::halt::{Halt, Operand};
use crate::trees::child_place;
use crate::work::Work;
use std::alloc::Global;
use trace_log::{Answers, TreeRef};
use type_form::{Index, Interner, Key, Keys, SimpleTy};
use type_keys::types::simple_type;
use type_keys::value_key;
use zw_base::DiagCode;

/// The frame of what is evaluated at comptime.
fn at_comptime(f: &Frame) -> Frame
    ensures { result ≡ record f.now { is_comptime = true } }
{
    Frame {
        part: f.part,
        container: f.container,
        is_comptime: true,
        result: f.result,
    }
}

/// What an expression at a place gives that `return` may not leave.
fn kept(alloc: Global, f: &Frame, place: u32, given: Result<Operand, Halt>) -> Result<Operand, Halt>
    ensures { result ≡ kept f.now place given }
{
    match given {
        Err(Halt::Returns(_)) => Err(wrong(alloc, f, place, DiagCode::NotComptimeKnown)),
        other => other,
    }
}

/// A child of a tree as an expression that is evaluated at comptime.
fn evaluated_form<I: Interner>(
    cx: &Answers,
    f: &Frame,
    want: Option<Index>,
    parent: TreeRef,
    line: u32,
    s: &mut Work,
    p: &mut I,
) -> Result<Operand, Halt>
    requires frame { IsFrame (I.known p.old) f.now }
    requires want { IsWanted (I.known p.old) want }
    requires stands { Stands (I.known p.old) cx.now s.old }
    ensures interns { Interns I.known I.home I.fulls p.old p.new (halts_full result) }
    ensures meets { MeetsOperand (I.known p.new) cx.now s.new result (from (I.known p.old) cx.now s.old
        (evaluated (frame_at (I.known p.old) f.now) (places.place_of (child_at cx.now parent line))
        (elab.expression (record (frame_at (I.known p.old) f.now) { is_comptime = true }) (want_at (I.known p.old) want) (child_at cx.now parent line)))) }
{
    let place = child_place(cx, parent, line);
    let given = expression(cx, &at_comptime(f), want, parent, line, s, p);
    kept(s.alloc, f, place, given)
}

/// The value of an operand that is to be known.
fn known_value<P: Keys>(
    cx: &Answers,
    f: &Frame,
    place: u32,
    o: Operand,
    s: &Work,
    p: &P,
) -> Result<Index, Halt>
    requires frame { IsFrame (P.known p.now) f.now }
    requires operand { IsOperand (P.known p.now) s.now o }
    requires stands { Stands (P.known p.now) cx.now s.now }
    ensures meets { MeetsValue (P.known p.now) cx.now s.now result
        (from (P.known p.now) cx.now s.now (plain.known_at (frame_at (P.known p.now) f.now) place (operand_at (P.known p.now) s.now o))) }
    ensures room { halts_full result ≡ false }
{
    match o {
        Operand::Known(value) => Ok(value),
        Operand::Run { .. } => Err(wrong(s.alloc, f, place, DiagCode::NotComptimeKnown)),
    }
}

/// The known value of a child of a tree that is evaluated at comptime, with its result type where
/// it has one.
pub(crate) fn value_form<I: Interner>(
    cx: &Answers,
    f: &Frame,
    want: Option<Index>,
    parent: TreeRef,
    line: u32,
    s: &mut Work,
    p: &mut I,
) -> Result<Index, Halt>
    requires frame { IsFrame (I.known p.old) f.now }
    requires want { IsWanted (I.known p.old) want }
    requires stands { Stands (I.known p.old) cx.now s.old }
    ensures interns { Interns I.known I.home I.fulls p.old p.new (halts_full result) }
    ensures meets { MeetsValue (I.known p.new) cx.now s.new result (from (I.known p.old) cx.now s.old
        (plain.value_form (frame_at (I.known p.old) f.now) (want_at (I.known p.old) want) (child_at cx.now parent line))) }
{
    let place = child_place(cx, parent, line);
    match evaluated_form(cx, f, want, parent, line, s, p) {
        Ok(o) => known_value(cx, f, place, o, s, p),
        Err(halt) => Err(halt),
    }
}

/// The type that a value is, if it is one.
fn type_in<P: Keys>(value: Index, p: &mut P) -> Option<Index>
    requires { IsValue (P.known p.old) value }
    ensures reads { Reads P.known P.home P.fulls p.old p.new }
    ensures agrees { IsInjective (P.known p.new) }
    ensures ty { IsTypeOf (P.known p.old) result (type_in (out-Value (value_at (P.known p.old) value))) }
{
    match value_key(value, p) {
        Key::TypeValue { of } => Some(of),
        _ => None,
    }
}

/// The type that a known value at a place is.
fn type_by<P: Keys>(
    cx: &Answers,
    f: &Frame,
    place: u32,
    value: Index,
    s: &Work,
    p: &mut P,
) -> Result<Index, Halt>
    requires frame { IsFrame (P.known p.old) f.now }
    requires value { IsValue (P.known p.old) value }
    requires stands { Stands (P.known p.old) cx.now s.now }
    ensures reads { Reads P.known P.home P.fulls p.old p.new }
    ensures meets { MeetsType (P.known p.new) cx.now s.now result
        (from (P.known p.old) cx.now s.now (plain.type_by (frame_at (P.known p.old) f.now) place (out-Value (value_at (P.known p.old) value)))) }
    ensures room { halts_full result ≡ false }
{
    match type_in(value, p) {
        Some(ty) => Ok(ty),
        None => Err(wrong(s.alloc, f, place, DiagCode::UndefinedUsed)),
    }
}

/// The type that a child of a tree at a type position is.
pub(crate) fn type_form<I: Interner>(
    cx: &Answers,
    f: &Frame,
    parent: TreeRef,
    line: u32,
    s: &mut Work,
    p: &mut I,
) -> Result<Index, Halt>
    requires frame { IsFrame (I.known p.old) f.now }
    requires stands { Stands (I.known p.old) cx.now s.old }
    ensures interns { Interns I.known I.home I.fulls p.old p.new (halts_full result) }
    ensures meets { MeetsType (I.known p.new) cx.now s.new result (from (I.known p.old) cx.now s.old
        (plain.type_form (frame_at (I.known p.old) f.now) (child_at cx.now parent line))) }
{
    let metatype = simple_type(SimpleTy::Metatype, p)?;
    let place = child_place(cx, parent, line);
    match value_form(cx, f, Some(metatype), parent, line, s, p) {
        Ok(value) => type_by(cx, f, place, value, s, p),
        Err(halt) => Err(halt),
    }
}
