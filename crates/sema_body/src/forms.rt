// Forms of the core tree, each with its parts in the order of the text.
ghost use Rattle.std.specs.Prelude.{◌≡◌, ◌≤◌, None, true, length, map, OnOk};
ghost use Rattle.zir_form.specs.Core.{cores_of};
ghost use Rattle.zir_form.specs.Core as core;
ghost use Rattle.zir_form.specs.Lines.{over_cores};
ghost use Rattle.type_form.specs.Pool.{Interns};
ghost use Rattle.elab_form.specs.Asking.{apart};
ghost use Rattle.elab_form.specs.Coercion.{fitting};
ghost use Rattle.elab_form.specs.Elab as plain;
ghost use Rattle.sema_body.specs.Trees.{tree_at, child_at, has_rule};
ghost use Rattle.sema_body.specs.Meets.{Stands, Meets, MeetsOperand, IsApart, apart_at, IsFrame, IsWanted, frame_at, from, halts_full, want_at};

use crate::asking::wrong;
use crate::blocks::{block_end, dropped, is_never, void_form};
use crate::coercion::fitted;
use crate::control::return_with;
use crate::frame::Frame;
use crate::halt::{Halt, Operand};
use crate::names::{declared_form, primitive_form};
use crate::numbers::integer_form;
use crate::trees::{child_place, form_of, line_at, place_behind, place_of};
use crate::work::Work;
use air_form::AirRef;
use trace_log::{Answers, TreeRef};
use type_form::{Index, Interner};
use zir_form::Form;
use zw_base::{DiagCode, Seq};

/// What an expression or a statement gives, before it is brought to its result type.
#[cycle(forms)]
pub(crate) fn form<I: Interner>(
    cx: &Answers,
    f: &Frame,
    want: Option<Index>,
    tree: TreeRef,
    s: &mut Work,
    p: &mut I,
) -> Result<Operand, Halt>
    requires frame { IsFrame (I.known p.old) f.now }
    requires want { IsWanted (I.known p.old) want }
    requires stands { Stands (I.known p.old) cx.now s.old }
    ensures interns { Interns I.known I.home I.fulls p.old p.new (halts_full result) }
    ensures lists { OnOk result (length s.old.body.statements ≤ length s.new.body.statements) }
    ensures meets { MeetsOperand (I.known p.new) cx.now s.new result (from (I.known p.old) cx.now s.old
        (plain.form_at plain.most_calls (frame_at (I.known p.old) f.now) (want_at (I.known p.old) want) (tree_at cx.now tree))) }
{
    match form_of(cx, tree) {
        Some(form) => {
            if has_rule(form) {
                by_rule(cx, f, want, tree, form, s, p)
            } else {
                Err(wrong(s.alloc, f, place_of(form), DiagCode::NotBuilt))
            }
        }
        None => Err(wrong(s.alloc, f, 0, DiagCode::NotBuilt)),
    }
}

/// Whether a form has a rule.
#[tactic(auto, unfolding(crate::specs::Trees::has_rule))]
fn has_rule(form: &Form) -> bool
    ensures { result ≡ has_rule form.now }
{
    match form {
        Form::Integer { .. }
        | Form::Primitive { .. }
        | Form::Declared { .. }
        | Form::Grouped { .. }
        | Form::Absent
        | Form::Return { .. }
        | Form::Block { .. }
        | Form::Ignored { .. } => true,
        _ => false,
    }
}

/// What a form of a tree gives that has a rule.
#[cycle(forms)]
fn by_rule<I: Interner>(
    cx: &Answers,
    f: &Frame,
    want: Option<Index>,
    tree: TreeRef,
    form: &Form,
    s: &mut Work,
    p: &mut I,
) -> Result<Operand, Halt>
    requires frame { IsFrame (I.known p.old) f.now }
    requires want { IsWanted (I.known p.old) want }
    requires stands { Stands (I.known p.old) cx.now s.old }
    requires rule { has_rule form.now ≡ true }
    ensures interns { Interns I.known I.home I.fulls p.old p.new (halts_full result) }
    ensures lists { OnOk result (length s.old.body.statements ≤ length s.new.body.statements) }
    ensures meets { MeetsOperand (I.known p.new) cx.now s.new result (from (I.known p.old) cx.now s.old
        (plain.form_at plain.most_calls (frame_at (I.known p.old) f.now) (want_at (I.known p.old) want) (over_cores (child_at cx.now tree) form.now))) }
{
    match form {
        Form::Integer { place, value } => integer_form(cx, f, *place, *value, s, p),
        Form::Primitive { place, primitive } => primitive_form(cx, f, *place, *primitive, s, p),
        Form::Declared { place, depth, name } => {
            declared_form(cx, f, *place, *depth, name.as_slice(), s, p)
        }
        Form::Grouped { place: _, inner } => child_form(cx, f, want, tree, *inner, s, p),
        Form::Absent => void_form(cx, s, p),
        Form::Return {
            place,
            value,
            leaves,
        } => return_form(cx, f, *place, tree, *value, leaves.as_slice(), s, p),
        Form::Block {
            place,
            statements,
            leaves,
        } => block_form(cx, f, *place, tree, statements.as_slice(), *leaves, s, p),
        Form::Ignored { place, value } => ignored_form(cx, f, *place, tree, *value, s, p),
        _ => Err(Halt::OutOfMemory),
    }
}

/// A child of a tree, before it is brought to its result type.
#[cycle(forms)]
fn child_form<I: Interner>(
    cx: &Answers,
    f: &Frame,
    want: Option<Index>,
    parent: TreeRef,
    line: u32,
    s: &mut Work,
    p: &mut I,
) -> Result<Operand, Halt>
    requires frame { IsFrame (I.known p.old) f.now }
    requires want { IsWanted (I.known p.old) want }
    requires stands { Stands (I.known p.old) cx.now s.old }
    ensures interns { Interns I.known I.home I.fulls p.old p.new (halts_full result) }
    ensures lists { OnOk result (length s.old.body.statements ≤ length s.new.body.statements) }
    ensures meets { MeetsOperand (I.known p.new) cx.now s.new result (from (I.known p.old) cx.now s.old
        (plain.form_at plain.most_calls (frame_at (I.known p.old) f.now) (want_at (I.known p.old) want) (child_at cx.now parent line))) }
{
    if line < parent.line {
        form(cx, f, want, line_at(parent, line), s, p)
    } else {
        Err(wrong(s.alloc, f, 0, DiagCode::NotBuilt))
    }
}

/// A child of a tree, brought to the type that is asked for at a place.
#[cycle(forms)]
fn fitting_child<I: Interner>(
    cx: &Answers,
    f: &Frame,
    place: u32,
    want: Option<Index>,
    parent: TreeRef,
    line: u32,
    s: &mut Work,
    p: &mut I,
) -> Result<Operand, Halt>
    requires frame { IsFrame (I.known p.old) f.now }
    requires want { IsWanted (I.known p.old) want }
    requires stands { Stands (I.known p.old) cx.now s.old }
    ensures interns { Interns I.known I.home I.fulls p.old p.new (halts_full result) }
    ensures lists { OnOk result (length s.old.body.statements ≤ length s.new.body.statements) }
    ensures meets { MeetsOperand (I.known p.new) cx.now s.new result (from (I.known p.old) cx.now s.old
        (fitting (frame_at (I.known p.old) f.now) place (want_at (I.known p.old) want)
        (plain.form_at plain.most_calls (frame_at (I.known p.old) f.now) (want_at (I.known p.old) want) (child_at cx.now parent line)))) }
{
    match child_form(cx, f, want, parent, line, s, p) {
        Err(halt) => Err(halt),
        Ok(o) => fitted(cx, f, place, want, o, s, p),
    }
}

/// A child of a tree, brought to the type that is asked for at a place, with its statements apart.
#[cycle(forms)]
fn child_apart<I: Interner>(
    cx: &Answers,
    f: &Frame,
    place: u32,
    want: Option<Index>,
    parent: TreeRef,
    line: u32,
    s: &mut Work,
    p: &mut I,
) -> Result<(Seq<AirRef>, Operand), Halt>
    requires frame { IsFrame (I.known p.old) f.now }
    requires want { IsWanted (I.known p.old) want }
    requires stands { Stands (I.known p.old) cx.now s.old }
    ensures interns { Interns I.known I.home I.fulls p.old p.new (halts_full result) }
    ensures lists { OnOk result (length s.old.body.statements ≤ length s.new.body.statements) }
    ensures meets { Meets (I.known p.new) cx.now s.new (IsApart (I.known p.new) s.new) (apart_at (I.known p.new) s.new) result
        (from (I.known p.old) cx.now s.old (apart (fitting (frame_at (I.known p.old) f.now) place (want_at (I.known p.old) want)
        (plain.form_at plain.most_calls (frame_at (I.known p.old) f.now) (want_at (I.known p.old) want) (child_at cx.now parent line))))) }
{
    let start = s.body.open_list();
    match fitting_child(cx, f, place, want, parent, line, s, p) {
        Err(halt) => Err(halt),
        Ok(o) => {
            let statements = s.body.close_list(start)?;
            Ok((statements, o))
        }
    }
}

/// `return`: the value is met first, with the type of the function's result.
#[cycle(forms)]
fn return_form<I: Interner>(
    cx: &Answers,
    f: &Frame,
    place: u32,
    tree: TreeRef,
    value: u32,
    leaves: &[u32],
    s: &mut Work,
    p: &mut I,
) -> Result<Operand, Halt>
    requires frame { IsFrame (I.known p.old) f.now }
    requires stands { Stands (I.known p.old) cx.now s.old }
    ensures interns { Interns I.known I.home I.fulls p.old p.new (halts_full result) }
    ensures lists { OnOk result (length s.old.body.statements ≤ length s.new.body.statements) }
    ensures meets { MeetsOperand (I.known p.new) cx.now s.new result (from (I.known p.old) cx.now s.old
        (plain.form_at plain.most_calls (frame_at (I.known p.old) f.now) None
        (core.return place (child_at cx.now tree value) (cores_of (map (child_at cx.now tree) leaves.now))))) }
{
    let at = place_behind(cx, tree, value, place);
    match child_apart(cx, f, at, f.result, tree, value, s, p) {
        Err(halt) => Err(halt),
        Ok((statements, o)) => {
            if leaves.is_empty() {
                return_with(cx, f, place, statements, o, s, p)
            } else {
                Err(wrong(s.alloc, f, place, DiagCode::NotBuilt))
            }
        }
    }
}

/// A block: its statements, and then its end where that is reached.
#[cycle(forms)]
fn block_form<I: Interner>(
    cx: &Answers,
    f: &Frame,
    place: u32,
    tree: TreeRef,
    statements: &[u32],
    leaves: u32,
    s: &mut Work,
    p: &mut I,
) -> Result<Operand, Halt>
    requires frame { IsFrame (I.known p.old) f.now }
    requires stands { Stands (I.known p.old) cx.now s.old }
    ensures interns { Interns I.known I.home I.fulls p.old p.new (halts_full result) }
    ensures lists { OnOk result (length s.old.body.statements ≤ length s.new.body.statements) }
    ensures meets { MeetsOperand (I.known p.new) cx.now s.new result (from (I.known p.old) cx.now s.old
        (plain.form_at plain.most_calls (frame_at (I.known p.old) f.now) None
        (core.block place (cores_of (map (child_at cx.now tree) statements.now)) (child_at cx.now tree leaves)))) }
{
    match all_forms(cx, f, tree, statements, s, p) {
        Err(halt) => Err(halt),
        Ok(o) => block_end(cx, f, place, tree, leaves, o, s, p),
    }
}

/// An expression as a statement, which has no result type.
#[cycle(forms)]
fn ignored_form<I: Interner>(
    cx: &Answers,
    f: &Frame,
    place: u32,
    tree: TreeRef,
    value: u32,
    s: &mut Work,
    p: &mut I,
) -> Result<Operand, Halt>
    requires frame { IsFrame (I.known p.old) f.now }
    requires stands { Stands (I.known p.old) cx.now s.old }
    ensures interns { Interns I.known I.home I.fulls p.old p.new (halts_full result) }
    ensures lists { OnOk result (length s.old.body.statements ≤ length s.new.body.statements) }
    ensures meets { MeetsOperand (I.known p.new) cx.now s.new result (from (I.known p.old) cx.now s.old
        (plain.form_at plain.most_calls (frame_at (I.known p.old) f.now) None (core.ignored place (child_at cx.now tree value)))) }
{
    match child_form(cx, f, None, tree, value, s, p) {
        Err(halt) => Err(halt),
        Ok(o) => dropped(cx, f, place, o, s, p),
    }
}

/// Statements in a row, up to one that never ends.
#[cycle(forms)]
fn all_forms<I: Interner>(
    cx: &Answers,
    f: &Frame,
    tree: TreeRef,
    statements: &[u32],
    s: &mut Work,
    p: &mut I,
) -> Result<Operand, Halt>
    requires frame { IsFrame (I.known p.old) f.now }
    requires stands { Stands (I.known p.old) cx.now s.old }
    ensures interns { Interns I.known I.home I.fulls p.old p.new (halts_full result) }
    ensures lists { OnOk result (length s.old.body.statements ≤ length s.new.body.statements) }
    ensures meets { MeetsOperand (I.known p.new) cx.now s.new result (from (I.known p.old) cx.now s.old
        (plain.forms (plain.inner_at plain.most_calls) (frame_at (I.known p.old) f.now) (cores_of (map (child_at cx.now tree) statements.now)))) }
{
    for line in statements {
        match child_form(cx, f, None, tree, *line, s, p) {
            Err(halt) => return Err(halt),
            Ok(o) => {
                if is_never(o, s, p) {
                    return Ok(o);
                }
            }
        }
    }
    void_form(cx, s, p)
}

/// A child of a tree as an expression in its frame, brought to its result type where it has one.
pub(crate) fn expression<I: Interner>(
    cx: &Answers,
    f: &Frame,
    want: Option<Index>,
    parent: TreeRef,
    line: u32,
    s: &mut Work,
    p: &mut I,
) -> Result<Operand, Halt>
    requires frame { IsFrame (I.known p.old) f.now }
    requires want { IsWanted (I.known p.old) want }
    requires stands { Stands (I.known p.old) cx.now s.old }
    ensures interns { Interns I.known I.home I.fulls p.old p.new (halts_full result) }
    ensures lists { OnOk result (length s.old.body.statements ≤ length s.new.body.statements) }
    ensures meets { MeetsOperand (I.known p.new) cx.now s.new result (from (I.known p.old) cx.now s.old
        (plain.expression (frame_at (I.known p.old) f.now) (want_at (I.known p.old) want) (child_at cx.now parent line))) }
{
    let place = child_place(cx, parent, line);
    fitting_child(cx, f, place, want, parent, line, s, p)
}
