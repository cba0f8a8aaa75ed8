// The statements of blocks (Zig Language Reference 0.14, "Blocks").
ghost use Rattle.std.specs.Prelude.{◌≡◌};
ghost use Rattle.type_form.specs.Known.{IsInjective};
ghost use Rattle.type_form.specs.Means.{IsValue, value_at};
ghost use Rattle.type_form.specs.Pool.{Interns, Reads};
ghost use Rattle.elab_form.specs.Asking.{pure};
ghost use Rattle.elab_form.specs.Control as plain;
ghost use Rattle.elab_form.specs.State as plain_state;
ghost use Rattle.sema_body.specs.Trees.{child_at};
ghost use Rattle.sema_body.specs.Meets.{Stands, MeetsOperand, IsFrame, IsOperand, frame_at, from, halts_full, operand_at};

use crate::asking::wrong;
use crate::coercion::{is_noreturn, is_void};
use crate::frame::Frame;
use crate::halt::{Halt, Operand};
use crate::names::word_value;
use crate::trees::is_absent;
use crate::work::Work;
use trace_log::{Answers, TreeRef};
use type_form::{Index, Interner, Key, Keys, SimpleTy, SimpleValue};
use type_keys::value_key;
use zw_base::DiagCode;

/// Whether an operand never ends.
pub(crate) fn is_never<P: Keys>(o: Operand, s: &Work, p: &mut P) -> bool
    requires operand { IsOperand (P.known p.old) s.now o }
    requires agrees { IsInjective (P.known p.old) }
    ensures reads { Reads P.known P.home P.fulls p.old p.new }
    ensures agrees { IsInjective (P.known p.new) }
    ensures never { result ≡ plain.is_never (operand_at (P.known p.old) s.now o) }
{
    match o {
        Operand::Known(_) => false,
        Operand::Run { ty, .. } => is_noreturn(ty, p),
    }
}

/// Whether a known value is of type `void`, so that it says nothing.
#[tactic(auto, unfolding(elab_form::specs::Control::gives_nothing))]
fn gives_nothing<P: Keys>(value: Index, p: &mut P) -> bool
    requires { IsValue (P.known p.old) value }
    ensures reads { Reads P.known P.home P.fulls p.old p.new }
    ensures agrees { IsInjective (P.known p.new) }
    ensures nothing { result ≡ plain.gives_nothing (value_at (P.known p.old) value) }
{
    match value_key(value, p) {
        Key::SimpleValue { ty, .. } => is_void(ty, p),
        _ => false,
    }
}

/// Whether a statement may drop what its expression gave.
fn may_drop<P: Keys>(o: Operand, s: &Work, p: &mut P) -> bool
    requires operand { IsOperand (P.known p.old) s.now o }
    requires agrees { IsInjective (P.known p.old) }
    ensures reads { Reads P.known P.home P.fulls p.old p.new }
    ensures agrees { IsInjective (P.known p.new) }
    ensures drop { result ≡ plain.may_drop (operand_at (P.known p.old) s.now o) }
{
    match o {
        Operand::Known(value) => gives_nothing(value, p),
        Operand::Run { ty, .. } => is_noreturn(ty, p),
    }
}

/// What is told of an operand that a statement may not drop.
fn dropping_code<P: Keys>(o: Operand, s: &Work, p: &mut P) -> DiagCode
    requires operand { IsOperand (P.known p.old) s.now o }
    requires agrees { IsInjective (P.known p.old) }
    ensures reads { Reads P.known P.home P.fulls p.old p.new }
    ensures agrees { IsInjective (P.known p.new) }
    ensures code { result ≡ plain.dropping_code (operand_at (P.known p.old) s.now o) }
{
    match o {
        Operand::Known(_) => DiagCode::ValueIgnored,
        Operand::Run { ty, .. } => {
            if is_void(ty, p) {
                DiagCode::NotBuilt
            } else {
                DiagCode::ValueIgnored
            }
        }
    }
}

/// A statement that is an expression, which gave an operand.
pub(crate) fn dropped<I: Interner>(
    cx: &Answers,
    f: &Frame,
    place: u32,
    o: Operand,
    s: &Work,
    p: &mut I,
) -> Result<Operand, Halt>
    requires frame { IsFrame (I.known p.old) f.now }
    requires operand { IsOperand (I.known p.old) s.now o }
    requires stands { Stands (I.known p.old) cx.now s.now }
    ensures interns { Interns I.known I.home I.fulls p.old p.new (halts_full result) }
    ensures meets { MeetsOperand (I.known p.new) cx.now s.now result (from (I.known p.old) cx.now s.now
        (plain.dropped (frame_at (I.known p.old) f.now) place (operand_at (I.known p.old) s.now o))) }
{
    if may_drop(o, s, p) {
        Ok(o)
    } else {
        let code = dropping_code(o, s, p);
        Err(wrong(s.alloc, f, place, code))
    }
}

/// The value of `void`.
pub(crate) fn void_form<I: Interner>(cx: &Answers, s: &Work, p: &mut I) -> Result<Operand, Halt>
    requires stands { Stands (I.known p.old) cx.now s.now }
    ensures interns { Interns I.known I.home I.fulls p.old p.new (halts_full result) }
    ensures meets { MeetsOperand (I.known p.new) cx.now s.now result
        (from (I.known p.old) cx.now s.now (pure (plain_state.known plain.void_value))) }
{
    let value = word_value(SimpleTy::Void, SimpleValue::Void, p)?;
    Ok(Operand::Known(value))
}

/// The end of a block's statements, the last of which gave an operand.
pub(crate) fn block_end<I: Interner>(
    cx: &Answers,
    f: &Frame,
    place: u32,
    tree: TreeRef,
    leaves: u32,
    o: Operand,
    s: &Work,
    p: &mut I,
) -> Result<Operand, Halt>
    requires frame { IsFrame (I.known p.old) f.now }
    requires operand { IsOperand (I.known p.old) s.now o }
    requires stands { Stands (I.known p.old) cx.now s.now }
    ensures interns { Interns I.known I.home I.fulls p.old p.new (halts_full result) }
    ensures meets { MeetsOperand (I.known p.new) cx.now s.now result (from (I.known p.old) cx.now s.now
        (plain.block_end (frame_at (I.known p.old) f.now) place (child_at cx.now tree leaves) (operand_at (I.known p.old) s.now o))) }
{
    if is_never(o, s, p) {
        Ok(o)
    } else if is_absent(cx, tree, leaves) {
        void_form(cx, s, p)
    } else {
        Err(wrong(s.alloc, f, place, DiagCode::NotBuilt))
    }
}
