// Declarations of constants and functions (Zig Language Reference 0.14, "Container Level Variables",
// "Functions").
ghost use Rattle.std.specs.Prelude.{◌≡◌, IfOk};
ghost use Rattle.type_form.specs.declared.tree.Arg.TheViews.{out-Ty};
ghost use Rattle.type_form.specs.Known.{IsInjective};
ghost use Rattle.type_form.specs.Means.{IsDecl, decl_at, IsTy, ty_at, DenotesInstance};
ghost use Rattle.type_form.specs.Pool.{Interns, Reads, is_full};
ghost use Rattle.elab_form.specs.Asking.{asking};
ghost use Rattle.elab_form.specs.Questions as questions;
ghost use Rattle.elab_form.specs.Units as plain;
ghost use Rattle.sema_body.specs.Heads.{exported_by, function_parts, head_over, tree_in};
ghost use Rattle.sema_body.specs.Trees.{tree_at, child_at};
ghost use Rattle.sema_body.specs.Meets.{Stands, IsFrame, frame_at, from, halts_full};
ghost use Rattle.sema_body.specs.Units.{MeetsUnitValue, MeetsValue};

use crate::asking::{ask, wrong};
use crate::frame::Frame;
use crate::halt::Halt;
use crate::heads::{Head, Mark, child_mark, decl_frame, tree_constant, tree_head};
use crate::spelled::has_export_name;
use crate::trees::{child_place, is_absent, tree_place};
use crate::units::{type_form, value_form};
use crate::work::Work;
use trace_log::{Answer, Answers, Question, TextPart, TreeRef, UnitIndex, UnitValue};
use type_form::{Index, InternFault, Interner, Key, Keys, SimpleTy};
use type_keys::decls::instance;
use type_keys::values::function_value;
use type_keys::{intern_list, ty_key};
use zw_base::DiagCode;

/// The tree that an answer gives.
pub(crate) fn tree_in(answer: &Answer) -> Option<TreeRef>
    ensures { result ≡ tree_in answer.now }
{
    match answer {
        Answer::Tree(tree) => *tree,
        _ => None,
    }
}

/// The value of a constant, with the declared type as its result type; a type that is left out is none.
fn initial_value<I: Interner>(
    cx: &Answers,
    f: &Frame,
    tree: TreeRef,
    ty: u32,
    value: u32,
    s: &mut Work,
    p: &mut I,
) -> Result<Index, Halt>
    requires frame { IsFrame (I.known p.old) f.now }
    requires stands { Stands (I.known p.old) cx.now s.old }
    ensures interns { Interns I.known I.home I.fulls p.old p.new (halts_full result) }
    ensures meets { MeetsValue (I.known p.new) cx.now s.new result (from (I.known p.old) cx.now s.old
        (plain.initial_value (frame_at (I.known p.old) f.now) (child_at cx.now tree ty) (child_at cx.now tree value))) }
{
    if is_absent(cx, tree, ty) {
        value_form(cx, f, None, tree, value, s, p)
    } else {
        match type_form(cx, f, tree, ty, s, p) {
            Ok(of) => value_form(cx, f, Some(of), tree, value, s, p),
            Err(halt) => Err(halt),
        }
    }
}

/// A constant by its type and its value.
fn constant_form<I: Interner>(
    cx: &Answers,
    f: &Frame,
    tree: TreeRef,
    ty: u32,
    value: u32,
    s: &mut Work,
    p: &mut I,
) -> Result<UnitValue, Halt>
    requires frame { IsFrame (I.known p.old) f.now }
    requires stands { Stands (I.known p.old) cx.now s.old }
    ensures interns { Interns I.known I.home I.fulls p.old p.new (halts_full result) }
    ensures meets { MeetsUnitValue (I.known p.new) cx.now s.new result (from (I.known p.old) cx.now s.old
        (plain.constant_form (frame_at (I.known p.old) f.now) (child_at cx.now tree ty) (child_at cx.now tree value))) }
{
    match initial_value(cx, f, tree, ty, value, s, p) {
        Ok(value) => Ok(UnitValue::Constant(value)),
        Err(halt) => Err(halt),
    }
}

/// The whole text of a declaration that is no function.
fn whole_form<I: Interner>(
    cx: &Answers,
    f: &Frame,
    tree: TreeRef,
    s: &mut Work,
    p: &mut I,
) -> Result<UnitValue, Halt>
    requires frame { IsFrame (I.known p.old) f.now }
    requires stands { Stands (I.known p.old) cx.now s.old }
    ensures interns { Interns I.known I.home I.fulls p.old p.new (halts_full result) }
    ensures meets { MeetsUnitValue (I.known p.new) cx.now s.new result (from (I.known p.old) cx.now s.old
        (plain.whole_form (frame_at (I.known p.old) f.now) (tree_at cx.now tree))) }
{
    match tree_constant(cx, tree) {
        Some((ty, value)) => constant_form(cx, f, tree, ty, value, s, p),
        None => Err(wrong(s.alloc, f, tree_place(cx, tree), DiagCode::NotBuilt)),
    }
}

/// A declaration that has no head: it asks for its whole text.
fn whole_declaration<I: Interner>(
    cx: &Answers,
    decl: Index,
    s: &mut Work,
    p: &mut I,
) -> Result<UnitValue, Halt>
    requires decl { IsDecl (I.known p.old) decl }
    requires stands { Stands (I.known p.old) cx.now s.old }
    ensures interns { Interns I.known I.home I.fulls p.old p.new (halts_full result) }
    ensures meets { MeetsUnitValue (I.known p.new) cx.now s.new result (from (I.known p.old) cx.now s.old
        (asking (questions.text (questions.whole (decl_at (I.known p.old) decl))) (plain.whole_answer (decl_at (I.known p.old) decl)))) }
{
    let f = decl_frame(TextPart::Whole(decl), decl, p)?;
    match ask(cx, Question::Text(TextPart::Whole(decl)), s, p) {
        Err(halt) => Err(halt),
        Ok(answer) => match tree_in(&answer) {
            Some(tree) => whole_form(cx, &f, tree, s, p),
            None => Err(wrong(s.alloc, &f, 0, DiagCode::NotBuilt)),
        },
    }
}

/// The instance of a function without parameters.
fn only_instance<I: Interner>(decl: Index, p: &mut I) -> Result<Index, InternFault>
    requires { IsDecl (I.known p.old) decl }
    ensures interns { Interns I.known I.home I.fulls p.old p.new (is_full result) }
    ensures agrees { IsInjective (I.known p.new) }
    ensures instance { IfOk result (λ i. DenotesInstance (I.known p.new) i (plain.only_instance (decl_at (I.known p.old) decl))) }
{
    let args = intern_list(&[], p)?;
    let made = instance(decl, args, p)?;
    Ok(made)
}

/// Whether a function that is exported may take or return values of a type.
fn is_exportable<P: Keys>(ty: Index, p: &mut P) -> bool
    requires { IsTy (P.known p.old) ty }
    ensures reads { Reads P.known P.home P.fulls p.old p.new }
    ensures agrees { IsInjective (P.known p.new) }
    ensures exportable { result ≡ plain.is_exportable (out-Ty (ty_at (P.known p.old) ty)) }
{
    match ty_key(ty, p) {
        Key::IntType { .. } | Key::PointerType { .. } => true,
        Key::SimpleType(SimpleTy::Usize | SimpleTy::Isize | SimpleTy::Bool | SimpleTy::Void) =>
            true,
        _ => false,
    }
}

/// An export by its result type: its code is referred to.
fn exported_result<I: Interner>(
    cx: &Answers,
    f: &Frame,
    decl: Index,
    place: u32,
    ty: Index,
    s: &mut Work,
    p: &mut I,
) -> Result<UnitValue, Halt>
    requires frame { IsFrame (I.known p.old) f.now }
    requires decl { IsDecl (I.known p.old) decl }
    requires ty { IsTy (I.known p.old) ty }
    requires stands { Stands (I.known p.old) cx.now s.old }
    ensures interns { Interns I.known I.home I.fulls p.old p.new (halts_full result) }
    ensures meets { MeetsUnitValue (I.known p.new) cx.now s.new result (from (I.known p.old) cx.now s.old
        (plain.exported_result (frame_at (I.known p.old) f.now) (decl_at (I.known p.old) decl) place (ty_at (I.known p.old) ty))) }
{
    if is_exportable(ty, p) {
        let value = function_value(decl, p)?;
        let code = only_instance(decl, p)?;
        s.trace.push_referred(UnitIndex::Code(code))?;
        Ok(UnitValue::Constant(value))
    } else {
        Err(wrong(s.alloc, f, place, DiagCode::TypeNotAllowed))
    }
}

/// An export by what stands before its result type, and that: it has no inferred error set.
fn exported_type<I: Interner>(
    cx: &Answers,
    f: &Frame,
    decl: Index,
    tree: TreeRef,
    mark: u32,
    result_ty: u32,
    s: &mut Work,
    p: &mut I,
) -> Result<UnitValue, Halt>
    requires frame { IsFrame (I.known p.old) f.now }
    requires decl { IsDecl (I.known p.old) decl }
    requires stands { Stands (I.known p.old) cx.now s.old }
    ensures interns { Interns I.known I.home I.fulls p.old p.new (halts_full result) }
    ensures meets { MeetsUnitValue (I.known p.new) cx.now s.new result (from (I.known p.old) cx.now s.old
        (plain.exported_type (frame_at (I.known p.old) f.now) (decl_at (I.known p.old) decl) (child_at cx.now tree mark) (child_at cx.now tree result_ty))) }
{
    let place = child_place(cx, tree, result_ty);
    match child_mark(cx, tree, mark) {
        Mark::Absent => match type_form(cx, f, tree, result_ty, s, p) {
            Ok(ty) => exported_result(cx, f, decl, place, ty, s, p),
            Err(halt) => Err(halt),
        },
        Mark::Inferred => {
            Err(wrong(
                s.alloc,
                f,
                child_place(cx, tree, mark),
                DiagCode::TypeNotAllowed,
            ))
        }
        Mark::Exported => Err(wrong(s.alloc, f, place, DiagCode::NotBuilt)),
        Mark::Other => Err(wrong(s.alloc, f, place, DiagCode::NotBuilt)),
    }
}

/// An export by its head.
fn exported_form<I: Interner>(
    cx: &Answers,
    f: &Frame,
    decl: Index,
    tree: TreeRef,
    head: Head,
    s: &mut Work,
    p: &mut I,
) -> Result<UnitValue, Halt>
    requires frame { IsFrame (I.known p.old) f.now }
    requires decl { IsDecl (I.known p.old) decl }
    requires stands { Stands (I.known p.old) cx.now s.old }
    ensures interns { Interns I.known I.home I.fulls p.old p.new (halts_full result) }
    ensures meets { MeetsUnitValue (I.known p.new) cx.now s.new result (from (I.known p.old) cx.now s.old
        (exported_by (frame_at (I.known p.old) f.now) (decl_at (I.known p.old) decl) (head_over (child_at cx.now tree) head))) }
{
    let is_named = has_export_name(s.alloc, decl, p)?;
    if is_named {
        if head.is_plain {
            exported_type(cx, f, decl, tree, head.mark, head.result, s, p)
        } else {
            Err(wrong(s.alloc, f, head.name_place, DiagCode::NotBuilt))
        }
    } else {
        Err(wrong(s.alloc, f, head.name_place, DiagCode::TypeNotAllowed))
    }
}

/// A function by the parts of its head: one that is exported judges its types.
fn function_form<I: Interner>(
    cx: &Answers,
    f: &Frame,
    decl: Index,
    tree: TreeRef,
    head: Head,
    s: &mut Work,
    p: &mut I,
) -> Result<UnitValue, Halt>
    requires frame { IsFrame (I.known p.old) f.now }
    requires decl { IsDecl (I.known p.old) decl }
    requires stands { Stands (I.known p.old) cx.now s.old }
    ensures interns { Interns I.known I.home I.fulls p.old p.new (halts_full result) }
    ensures meets { MeetsUnitValue (I.known p.new) cx.now s.new result (from (I.known p.old) cx.now s.old
        (function_parts (frame_at (I.known p.old) f.now) (decl_at (I.known p.old) decl) (head_over (child_at cx.now tree) head))) }
{
    match child_mark(cx, tree, head.linkage) {
        Mark::Absent => {
            let value = function_value(decl, p)?;
            Ok(UnitValue::Constant(value))
        }
        Mark::Exported => exported_form(cx, f, decl, tree, head, s, p),
        Mark::Inferred => Err(wrong(s.alloc, f, head.name_place, DiagCode::NotBuilt)),
        Mark::Other => Err(wrong(s.alloc, f, head.name_place, DiagCode::NotBuilt)),
    }
}

/// A function by its head.
fn head_form<I: Interner>(
    cx: &Answers,
    f: &Frame,
    decl: Index,
    tree: TreeRef,
    s: &mut Work,
    p: &mut I,
) -> Result<UnitValue, Halt>
    requires frame { IsFrame (I.known p.old) f.now }
    requires decl { IsDecl (I.known p.old) decl }
    requires stands { Stands (I.known p.old) cx.now s.old }
    ensures interns { Interns I.known I.home I.fulls p.old p.new (halts_full result) }
    ensures meets { MeetsUnitValue (I.known p.new) cx.now s.new result (from (I.known p.old) cx.now s.old
        (plain.head_form (frame_at (I.known p.old) f.now) (decl_at (I.known p.old) decl) (tree_at cx.now tree))) }
{
    match tree_head(cx, tree) {
        Some(head) => function_form(cx, f, decl, tree, head, s, p),
        None => Err(wrong(s.alloc, f, tree_place(cx, tree), DiagCode::NotBuilt)),
    }
}

/// The unit of a declaration: it asks for the head of a function, and where there is none for its
/// whole text.
pub(crate) fn declaration<I: Interner>(
    cx: &Answers,
    decl: Index,
    s: &mut Work,
    p: &mut I,
) -> Result<UnitValue, Halt>
    requires decl { IsDecl (I.known p.old) decl }
    requires stands { Stands (I.known p.old) cx.now s.old }
    ensures interns { Interns I.known I.home I.fulls p.old p.new (halts_full result) }
    ensures meets { MeetsUnitValue (I.known p.new) cx.now s.new result (from (I.known p.old) cx.now s.old
        (plain.declaration (decl_at (I.known p.old) decl))) }
{
    let f = decl_frame(TextPart::Head(decl), decl, p)?;
    match ask(cx, Question::Text(TextPart::Head(decl)), s, p) {
        Err(halt) => Err(halt),
        Ok(answer) => match tree_in(&answer) {
            Some(tree) => head_form(cx, &f, decl, tree, s, p),
            None => whole_declaration(cx, decl, s, p),
        },
    }
}
