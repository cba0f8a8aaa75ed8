// Numbers (Zig Language Reference 0.14, "Integer Literals").
ghost use Rattle.std.specs.Prelude.{◌≡◌, ◌<◌, ◌^◌, pos, IfOk};
ghost use Rattle.type_form.specs.declared.tree.Ty.TheVariants as ty;
ghost use Rattle.type_form.specs.declared.tree.Value.TheVariants as value;
ghost use Rattle.type_form.specs.declared.tree.SimpleTy.TheVariants as simple;
ghost use Rattle.type_form.specs.Known.{Known, IsInjective};
ghost use Rattle.type_form.specs.Means.{DenotesValue};
ghost use Rattle.type_form.specs.Pool.{Interns, is_full};
ghost use Rattle.elab_form.specs.Numbers as plain;
ghost use Rattle.sema_body.specs.Meets.{Stands, Meets, IsFrame, IsOperand, frame_at, from, halts_full, operand_at};

use crate::asking::wrong;
use crate::frame::Frame;
use crate::halt::{Halt, Operand};
use crate::work::Work;
use trace_log::Answers;
use type_form::{Index, InternFault, Interner, SimpleTy};
use type_keys::types::simple_type;
use type_keys::values::int_value;
use zw_base::DiagCode;

/// A whole number as a known value.
fn known_integer<I: Interner>(number: i128, p: &mut I) -> Result<Index, InternFault>
    ensures interns { Interns I.known I.home I.fulls p.old p.new (is_full result) }
    ensures agrees { IsInjective (I.known p.new) }
    ensures value { IfOk result (λ i. DenotesValue (I.known p.new) i (value.Int (ty.Simple simple.ComptimeInt) number)) }
{
    let ty = simple_type(SimpleTy::ComptimeInt, p)?;
    int_value(ty, number, p)
}

/// A whole number.
pub(crate) fn integer_form<I: Interner>(
    cx: &Answers,
    f: &Frame,
    place: u32,
    number: u128,
    s: &Work,
    p: &mut I,
) -> Result<Operand, Halt>
    requires frame { IsFrame (I.known p.old) f.now }
    requires stands { Stands (I.known p.old) cx.now s.now }
    ensures interns { Interns I.known I.home I.fulls p.old p.new (halts_full result) }
    ensures meets { Meets (I.known p.new) cx.now s.now (IsOperand (I.known p.new) s.now) (operand_at (I.known p.new) s.now) result (from (I.known p.old) cx.now s.now (plain.integer_form (frame_at (I.known p.old) f.now) place number)) }
{
    if number < 1 << 127 {
        let value = known_integer(number as i128, p)?;
        Ok(Operand::Known(value))
    } else {
        Err(wrong(s.alloc, f, place, DiagCode::BadNumber))
    }
}
