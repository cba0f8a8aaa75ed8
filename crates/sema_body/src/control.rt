// Blocks, and what leaves a function (Zig Language Reference 0.14, "Blocks", "Functions").
ghost use Rattle.std.specs.Prelude.{◌≡◌, ◌≤◌, [], ◌∷◌, ◌++◌, length, IfOk, OnOk};
ghost use Rattle.std.specs.Option.{option_map};
ghost use Rattle.type_form.specs.Known.{Known, IsInjective};
ghost use Rattle.type_form.specs.Means.{IsTy, ty_at, IsValue, value_at};
ghost use Rattle.type_form.specs.Pool.{Interns, Reads};
ghost use Rattle.air_form.specs.Nodes.{AreBelow};
ghost use Rattle.air_form.specs.Typed as typed;
ghost use Rattle.elab_form.specs.Asking.{acts, pure};
ghost use Rattle.elab_form.specs.Control as plain;
ghost use Rattle.sema_body.specs.Bodies.{statements_at, Writes};
ghost use Rattle.sema_body.specs.Readings.{holding_of};
ghost use Rattle.sema_body.specs.Meets.{Stands, Meets, IsFrame, IsOperand, frame_at, from, halts_full, operand_at};

use crate::asking::wrong;
use crate::body::{act, act_all, put};
use crate::coercion::is_noreturn;
use crate::frame::Frame;
use crate::halt::{Halt, Operand};
use crate::work::Work;
use air_form::{AirNode, AirRef};
use std::alloc::AllocError;
use trace_log::Answers;
use type_form::{Index, Interner, Key, Keys, SimpleTy};
use type_keys::ty_key;
use type_keys::types::simple_type;
use zw_base::{DiagCode, Seq};

/// How a body holds the values of a type.
#[derive(Clone, Copy, Debug, PartialEq, Eq)]
pub(crate) enum Holding {
    /// An instruction can hold one.
    Scalar,
    /// None is left at run time.
    Nothing,
    /// No rule yet.
    Later,
}

/// How a body holds the values of a type.
#[tactic(auto, unfolding(elab_form::specs::Control::holding))]
fn holding_at<P: Keys>(ty: Index, p: &mut P) -> Holding
    requires { IsTy (P.known p.old) ty }
    ensures reads { Reads P.known P.home P.fulls p.old p.new }
    ensures agrees { IsInjective (P.known p.new) }
    ensures holding { holding_of result ≡ plain.holding (ty_at (P.known p.old) ty) }
{
    match ty_key(ty, p) {
        Key::SimpleType(SimpleTy::Usize | SimpleTy::Isize | SimpleTy::Bool | SimpleTy::AnyError)
        | Key::IntType { .. }
        | Key::ErrorSetType { .. }
        | Key::PointerType { .. } => Holding::Scalar,
        Key::SimpleType(_) => Holding::Nothing,
        _ => Holding::Later,
    }
}

/// What never ends gives nothing: its statements are put already.
pub(crate) fn never<I: Interner>(cx: &Answers, s: &mut Work, p: &mut I) -> Result<Operand, Halt>
    requires stands { Stands (I.known p.old) cx.now s.old }
    ensures interns { Interns I.known I.home I.fulls p.old p.new (halts_full result) }
    ensures lists { OnOk result (length s.old.body.statements ≤ length s.new.body.statements) }
    ensures meets { Meets (I.known p.new) cx.now s.new (IsOperand (I.known p.new) s.new) (operand_at (I.known p.new) s.new) result (from (I.known p.old) cx.now s.old (pure plain.never)) }
{
    let ty = simple_type(SimpleTy::Noreturn, p)?;
    let statements = Seq::of(Vec::new(s.alloc));
    let at = put(s, AirNode::Never { statements })?;
    Ok(Operand::Run { ty, at })
}

/// A known value behind the statements that belong to it.
fn constant_behind(
    cx: &Answers,
    statements: Seq<AirRef>,
    value: Index,
    s: &mut Work,
) -> Result<AirRef, AllocError>
    requires { AreBelow (length s.old.body.nodes) statements }
    ensures lists { s.new.body.statements ≡ s.old.body.statements }
    ensures writes { IfOk result (λ r. (k : Known) → Stands k cx.now s.old → IsValue k value → Writes k cx.now s.old s.new r (plain.behind (statements_at k s.old statements) (typed.constant (value_at k value)))) }
{
    let constant = put(s, AirNode::Constant { value })?;
    if statements.is_empty() {
        Ok(constant)
    } else {
        let whole = put(
            s,
            AirNode::Sequence {
                statements,
                value: constant,
            },
        )?;
        Ok(whole)
    }
}

/// `return` with a known value that an instruction can hold, behind the statements that belong to it.
fn return_value<I: Interner>(
    cx: &Answers,
    statements: Seq<AirRef>,
    value: Index,
    s: &mut Work,
    p: &mut I,
) -> Result<Operand, Halt>
    requires below { AreBelow (length s.old.body.nodes) statements }
    requires value { IsValue (I.known p.old) value }
    requires stands { Stands (I.known p.old) cx.now s.old }
    ensures interns { Interns I.known I.home I.fulls p.old p.new (halts_full result) }
    ensures lists { OnOk result (length s.old.body.statements ≤ length s.new.body.statements) }
    ensures meets { Meets (I.known p.new) cx.now s.new (IsOperand (I.known p.new) s.new) (operand_at (I.known p.new) s.new) result (from (I.known p.old) cx.now s.old (plain.acts_for_good (typed.return_value (plain.behind (statements_at (I.known p.old) s.old statements) (typed.constant (value_at (I.known p.old) value))) ∷ []))) }
{
    let expression = constant_behind(cx, statements, value, s)?;
    let statement = put(
        s,
        AirNode::Return {
            value: Some(expression),
        },
    )?;
    act(s, statement)?;
    never(cx, s, p)
}

/// `return` without a value at run time, behind statements.
fn return_nothing<I: Interner>(
    cx: &Answers,
    statements: &[AirRef],
    s: &mut Work,
    p: &mut I,
) -> Result<Operand, Halt>
    requires below { AreBelow (length s.old.body.nodes) statements.now }
    requires stands { Stands (I.known p.old) cx.now s.old }
    ensures interns { Interns I.known I.home I.fulls p.old p.new (halts_full result) }
    ensures lists { OnOk result (length s.old.body.statements ≤ length s.new.body.statements) }
    ensures meets { Meets (I.known p.new) cx.now s.new (IsOperand (I.known p.new) s.new) (operand_at (I.known p.new) s.new) result (from (I.known p.old) cx.now s.old (plain.acts_for_good (statements_at (I.known p.old) s.old statements.now ++ typed.return ∷ []))) }
{
    act_all(s, statements)?;
    let statement = put(s, AirNode::Return { value: None })?;
    act(s, statement)?;
    never(cx, s, p)
}

/// Statements, the last of which never ends.
fn for_good<I: Interner>(
    cx: &Answers,
    statements: &[AirRef],
    s: &mut Work,
    p: &mut I,
) -> Result<Operand, Halt>
    requires below { AreBelow (length s.old.body.nodes) statements.now }
    requires stands { Stands (I.known p.old) cx.now s.old }
    ensures interns { Interns I.known I.home I.fulls p.old p.new (halts_full result) }
    ensures lists { OnOk result (length s.old.body.statements ≤ length s.new.body.statements) }
    ensures meets { Meets (I.known p.new) cx.now s.new (IsOperand (I.known p.new) s.new) (operand_at (I.known p.new) s.new) result (from (I.known p.old) cx.now s.old (plain.acts_for_good (statements_at (I.known p.old) s.old statements.now))) }
{
    act_all(s, statements)?;
    never(cx, s, p)
}

/// `return` with a known value of the function's result type.
fn return_known<I: Interner>(
    cx: &Answers,
    f: &Frame,
    place: u32,
    statements: Seq<AirRef>,
    value: Index,
    s: &mut Work,
    p: &mut I,
) -> Result<Operand, Halt>
    requires frame { IsFrame (I.known p.old) f.now }
    requires below { AreBelow (length s.old.body.nodes) statements }
    requires value { IsValue (I.known p.old) value }
    requires stands { Stands (I.known p.old) cx.now s.old }
    ensures interns { Interns I.known I.home I.fulls p.old p.new (halts_full result) }
    ensures lists { OnOk result (length s.old.body.statements ≤ length s.new.body.statements) }
    ensures meets { Meets (I.known p.new) cx.now s.new (IsOperand (I.known p.new) s.new) (operand_at (I.known p.new) s.new) result (from (I.known p.old) cx.now s.old (plain.return_held (frame_at (I.known p.old) f.now) place (statements_at (I.known p.old) s.old statements) (typed.constant (value_at (I.known p.old) value)) (plain.holding_of (option_map (ty_at (I.known p.old)) f.now.result)))) }
{
    match f.result {
        Some(ty) => match holding_at(ty, p) {
            Holding::Scalar => return_value(cx, statements, value, s, p),
            Holding::Nothing => return_nothing(cx, statements.as_slice(), s, p),
            Holding::Later => Err(wrong(s.alloc, f, place, DiagCode::NotBuilt)),
        },
        None => Err(wrong(s.alloc, f, place, DiagCode::NotBuilt)),
    }
}

/// `return` in a typed body: behind a value that never ends it is not reached.
fn return_run<I: Interner>(
    cx: &Answers,
    f: &Frame,
    place: u32,
    statements: Seq<AirRef>,
    o: Operand,
    s: &mut Work,
    p: &mut I,
) -> Result<Operand, Halt>
    requires frame { IsFrame (I.known p.old) f.now }
    requires below { AreBelow (length s.old.body.nodes) statements }
    requires operand { IsOperand (I.known p.old) s.old o }
    requires stands { Stands (I.known p.old) cx.now s.old }
    ensures interns { Interns I.known I.home I.fulls p.old p.new (halts_full result) }
    ensures lists { OnOk result (length s.old.body.statements ≤ length s.new.body.statements) }
    ensures meets { Meets (I.known p.new) cx.now s.new (IsOperand (I.known p.new) s.new) (operand_at (I.known p.new) s.new) result (from (I.known p.old) cx.now s.old (plain.return_run (frame_at (I.known p.old) f.now) place (statements_at (I.known p.old) s.old statements, operand_at (I.known p.old) s.old o))) }
{
    match o {
        Operand::Known(value) => return_known(cx, f, place, statements, value, s, p),
        Operand::Run { ty, at: _ } => {
            if is_noreturn(ty, p) {
                for_good(cx, statements.as_slice(), s, p)
            } else {
                Err(wrong(s.alloc, f, place, DiagCode::NotBuilt))
            }
        }
    }
}

/// `return` with a value and the statements that belong to it: at comptime it leaves the function.
pub(crate) fn return_with<I: Interner>(
    cx: &Answers,
    f: &Frame,
    place: u32,
    statements: Seq<AirRef>,
    o: Operand,
    s: &mut Work,
    p: &mut I,
) -> Result<Operand, Halt>
    requires frame { IsFrame (I.known p.old) f.now }
    requires below { AreBelow (length s.old.body.nodes) statements }
    requires operand { IsOperand (I.known p.old) s.old o }
    requires stands { Stands (I.known p.old) cx.now s.old }
    ensures interns { Interns I.known I.home I.fulls p.old p.new (halts_full result) }
    ensures lists { OnOk result (length s.old.body.statements ≤ length s.new.body.statements) }
    ensures meets { Meets (I.known p.new) cx.now s.new (IsOperand (I.known p.new) s.new) (operand_at (I.known p.new) s.new) result (from (I.known p.old) cx.now s.old (plain.return_with (frame_at (I.known p.old) f.now) place (statements_at (I.known p.old) s.old statements, operand_at (I.known p.old) s.old o))) }
{
    if f.is_comptime {
        Err(Halt::Returns(o))
    } else {
        return_run(cx, f, place, statements, o, s, p)
    }
}
