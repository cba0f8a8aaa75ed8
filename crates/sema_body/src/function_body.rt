// Typed bodies of functions (Zig Language Reference 0.14, "Functions").
ghost use Rattle.std.specs.Prelude.{◌≡◌, Some, IfOk};
ghost use Rattle.type_form.specs.Known.{IsInjective};
ghost use Rattle.type_form.specs.Means.{IsDecl, decl_at, IsTy, ty_at, IsInstance, instance_at};
ghost use Rattle.type_form.specs.Pool.{Interns, Reads, is_full};
ghost use Rattle.air_form.specs.Nodes.{AirState, IsBuilt};
ghost use Rattle.elab_form.specs.Asking.{seq};
ghost use Rattle.elab_form.specs.Units as plain;
ghost use Rattle.trace_log.specs.Readings.{IsUnitValue, unit_value_at};
ghost use Rattle.sema_body.specs.Heads.{head_over};
ghost use Rattle.sema_body.specs.Trees.{tree_at, child_at};
ghost use Rattle.sema_body.specs.Meets.{IsState, Stands, IsFrame, IsOperand, frame_at, from, halts_full, operand_at};
ghost use Rattle.sema_body.specs.Units.{MeetsNothing, MeetsWritten, written_in};

use crate::asking::{ask, wrong};
use crate::blocks::is_never;
use crate::body::{act, put};
use crate::coercion::is_void;
use crate::declare::tree_in;
use crate::forms::expression;
use crate::frame::Frame;
use crate::halt::{Halt, Operand};
use crate::heads::{Head, Mark, child_head, child_mark, decl_frame, tree_function};
use crate::trees::line_at;
use crate::units::type_form;
use crate::work::Work;
use air_form::{AirBuilder, AirNode};
use std::alloc::Global;
use trace_log::{Answers, Question, TextPart, TreeRef, UnitValue};
use type_form::{Index, InternFault, Interner, Key, Keys};
use type_keys::intern_list;
use unit_trees::instance_decl;
use zw_base::DiagCode;

/// The end of a body: where it is reached, a function without a value returns, and others may not
/// come there.
fn body_end<I: Interner>(
    cx: &Answers,
    f: &Frame,
    place: u32,
    ty: Index,
    o: Operand,
    s: &mut Work,
    p: &mut I,
) -> Result<(), Halt>
    requires frame { IsFrame (I.known p.old) f.now }
    requires ty { IsTy (I.known p.old) ty }
    requires operand { IsOperand (I.known p.old) s.old o }
    requires stands { Stands (I.known p.old) cx.now s.old }
    ensures interns { Interns I.known I.home I.fulls p.old p.new (halts_full result) }
    ensures meets { MeetsNothing (I.known p.new) cx.now s.new result (from (I.known p.old) cx.now s.old
        (plain.body_end (frame_at (I.known p.old) f.now) place (ty_at (I.known p.old) ty) (operand_at (I.known p.old) s.old o))) }
{
    if is_never(o, s, p) {
        Ok(())
    } else if is_void(ty, p) {
        let statement = put(s, AirNode::Return { value: None })?;
        act(s, statement)?;
        Ok(())
    } else {
        Err(wrong(s.alloc, f, place, DiagCode::EndsWithoutValue))
    }
}

/// The end of a body with this result type, and then the typed body that was written.
fn ended_body<I: Interner>(
    cx: &Answers,
    f: &Frame,
    place: u32,
    ty: Index,
    o: Operand,
    s: &mut Work,
    p: &mut I,
) -> Result<Index, Halt>
    requires frame { IsFrame (I.known p.old) f.now }
    requires ty { IsTy (I.known p.old) ty }
    requires operand { IsOperand (I.known p.old) s.old o }
    requires stands { Stands (I.known p.old) cx.now s.old }
    ensures interns { Interns I.known I.home I.fulls p.old p.new (halts_full result) }
    ensures meets { MeetsWritten (I.known p.new) cx.now s.new result (from (I.known p.old) cx.now s.old
        (seq (plain.body_end (frame_at (I.known p.old) f.now) place (ty_at (I.known p.old) ty) (operand_at (I.known p.old) s.old o))
        (λ _. plain.written_body (ty_at (I.known p.old) ty)))) }
{
    match body_end(cx, f, place, ty, o, s, p) {
        Ok(()) => Ok(ty),
        Err(halt) => Err(halt),
    }
}

/// The frame of the statements of a function with this result type.
fn with_result(f: &Frame, ty: Index) -> Frame
    ensures { result ≡ record f.now { result = Some ty } }
{
    Frame {
        part: f.part,
        container: f.container,
        is_comptime: f.is_comptime,
        result: Some(ty),
    }
}

/// The statements of a function with this result type. It gives the type.
fn body_with<I: Interner>(
    cx: &Answers,
    f: &Frame,
    place: u32,
    tree: TreeRef,
    line: u32,
    ty: Index,
    s: &mut Work,
    p: &mut I,
) -> Result<Index, Halt>
    requires frame { IsFrame (I.known p.old) f.now }
    requires ty { IsTy (I.known p.old) ty }
    requires stands { Stands (I.known p.old) cx.now s.old }
    ensures interns { Interns I.known I.home I.fulls p.old p.new (halts_full result) }
    ensures meets { MeetsWritten (I.known p.new) cx.now s.new result (from (I.known p.old) cx.now s.old
        (plain.body_with (frame_at (I.known p.old) f.now) place (child_at cx.now tree line) (ty_at (I.known p.old) ty))) }
{
    let of = with_result(f, ty);
    match expression(cx, &of, None, tree, line, s, p) {
        Ok(o) => ended_body(cx, f, place, ty, o, s, p),
        Err(halt) => Err(halt),
    }
}

/// The types of a head, which are lines below it, and then the statements.
fn body_typed<I: Interner>(
    cx: &Answers,
    f: &Frame,
    tree: TreeRef,
    line: u32,
    below: TreeRef,
    head: Head,
    s: &mut Work,
    p: &mut I,
) -> Result<Index, Halt>
    requires frame { IsFrame (I.known p.old) f.now }
    requires stands { Stands (I.known p.old) cx.now s.old }
    ensures interns { Interns I.known I.home I.fulls p.old p.new (halts_full result) }
    ensures meets { MeetsWritten (I.known p.new) cx.now s.new result (from (I.known p.old) cx.now s.old
        (plain.body_typed (frame_at (I.known p.old) f.now) head.name_place (child_at cx.now below head.mark) (child_at cx.now below head.result)
        (child_at cx.now tree line))) }
{
    match child_mark(cx, below, head.mark) {
        Mark::Absent => match type_form(cx, f, below, head.result, s, p) {
            Ok(ty) => body_with(cx, f, head.name_place, tree, line, ty, s, p),
            Err(halt) => Err(halt),
        },
        Mark::Exported => Err(wrong(s.alloc, f, head.name_place, DiagCode::NotBuilt)),
        Mark::Inferred => Err(wrong(s.alloc, f, head.name_place, DiagCode::NotBuilt)),
        Mark::Other => Err(wrong(s.alloc, f, head.name_place, DiagCode::NotBuilt)),
    }
}

/// A function by its head and its statements, which are lines below it.
fn body_by<I: Interner>(
    cx: &Answers,
    f: &Frame,
    tree: TreeRef,
    head: u32,
    line: u32,
    s: &mut Work,
    p: &mut I,
) -> Result<Index, Halt>
    requires frame { IsFrame (I.known p.old) f.now }
    requires stands { Stands (I.known p.old) cx.now s.old }
    ensures interns { Interns I.known I.home I.fulls p.old p.new (halts_full result) }
    ensures meets { MeetsWritten (I.known p.new) cx.now s.new result (from (I.known p.old) cx.now s.old
        (plain.body_by (frame_at (I.known p.old) f.now) (child_at cx.now tree head) (child_at cx.now tree line))) }
{
    match child_head(cx, tree, head) {
        Some(parts) => {
            if parts.is_plain {
                body_typed(cx, f, tree, line, line_at(tree, head), parts, s, p)
            } else {
                Err(wrong(s.alloc, f, parts.name_place, DiagCode::NotBuilt))
            }
        }
        None => Err(wrong(s.alloc, f, 0, DiagCode::NotBuilt)),
    }
}

/// The typed body of the function that a tree is. It gives the result type.
fn body_form<I: Interner>(
    cx: &Answers,
    f: &Frame,
    tree: TreeRef,
    s: &mut Work,
    p: &mut I,
) -> Result<Index, Halt>
    requires frame { IsFrame (I.known p.old) f.now }
    requires stands { Stands (I.known p.old) cx.now s.old }
    ensures interns { Interns I.known I.home I.fulls p.old p.new (halts_full result) }
    ensures meets { MeetsWritten (I.known p.new) cx.now s.new result (from (I.known p.old) cx.now s.old
        (plain.body_form (frame_at (I.known p.old) f.now) (tree_at cx.now tree))) }
{
    match tree_function(cx, tree) {
        Some((head, line)) => body_by(cx, f, tree, head, line, s, p),
        None => Err(wrong(s.alloc, f, 0, DiagCode::NotBuilt)),
    }
}

/// The unit of a body: it asks for the whole text of its function, and writes the typed body. It
/// gives the result type.
pub(crate) fn body_of<I: Interner>(
    cx: &Answers,
    instance: Index,
    s: &mut Work,
    p: &mut I,
) -> Result<Index, Halt>
    requires instance { IsInstance (I.known p.old) instance }
    requires stands { Stands (I.known p.old) cx.now s.old }
    ensures interns { Interns I.known I.home I.fulls p.old p.new (halts_full result) }
    ensures meets { MeetsWritten (I.known p.new) cx.now s.new result (from (I.known p.old) cx.now s.old
        (plain.body_of (instance_at (I.known p.old) instance))) }
{
    let decl = instance_decl(instance, p);
    let f = decl_frame(TextPart::Whole(decl), decl, p)?;
    match ask(cx, Question::Text(TextPart::Whole(decl)), s, p) {
        Err(halt) => Err(halt),
        Ok(answer) => match tree_in(&answer) {
            Some(tree) => body_form(cx, &f, tree, s, p),
            None => Err(wrong(s.alloc, &f, 0, DiagCode::NotBuilt)),
        },
    }
}

/// The typed body that was written, of a function with this result type.
pub(crate) fn written_value<I: Interner>(
    alloc: Global,
    body: AirBuilder,
    ty: Index,
    p: &mut I,
) -> Result<UnitValue, InternFault>
    requires ty { IsTy (I.known p.old) ty }
    requires body { IsState (I.known p.old) body }
    ensures interns { Interns I.known I.home I.fulls p.old p.new (is_full result) }
    ensures agrees { IsInjective (I.known p.new) }
    ensures known { IfOk result (λ v. IsUnitValue (I.known p.new) v) }
    ensures value { IfOk result (λ v. unit_value_at (I.known p.new) v ≡ written_in (I.known p.old) body ty) }
{
    let errors = intern_list(&[], p)?;
    Ok(UnitValue::Body(body.finish(0, ty, errors, Vec::new(alloc))))
}
