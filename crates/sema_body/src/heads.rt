// The parts of functions and constants, as lines of a file.
ghost use Rattle.std.specs.Prelude.{◌≡◌, ℕ, IfOk, map};
ghost use Rattle.std.specs.Option.{option_map};
ghost use Rattle.zir_form.specs.Core.{Core, cores_of};
ghost use Rattle.elab_form.specs.Control.{is_none};
ghost use Rattle.zir_form.specs.Lines.{over_cores};
ghost use Rattle.type_form.specs.Known.{IsInjective};
ghost use Rattle.type_form.specs.Means.{IsDecl, decl_at, DenotesTy};
ghost use Rattle.type_form.specs.Pool.{Interns, is_full};
ghost use Rattle.elab_form.specs.Units as plain;
ghost use Rattle.trace_log.specs.Readings.{IsPart, part_at};
ghost use Rattle.sema_body.specs.Heads.{DenotesFrame, constant_in, function_in, head_in, head_over, mark_in, two_over};
ghost use Rattle.sema_body.specs.Trees.{tree_at, child_at};

use crate::frame::Frame;
use crate::trees::{child, form_of};
use trace_log::{Answers, TextPart, TreeRef};
use type_form::{Index, InternFault, Interner, Key};
use type_keys::decl_key;
use type_keys::types::file_type;
use zir_form::Form;

/// What a form says by standing at a place of a head.
#[derive(Clone, Copy, Debug, PartialEq, Eq)]
pub(crate) enum Mark {
    /// Nothing: it is left out.
    Absent,
    Exported,
    Inferred,
    /// Anything else.
    Other,
}

/// The head of a function: the place of its name, whether it has no parameters, and the lines of its
/// parts.
#[derive(Clone, Copy, Debug, PartialEq, Eq)]
pub(crate) struct Head {
    pub name_place: u32,
    pub linkage: u32,
    pub is_plain: bool,
    pub mark: u32,
    pub result: u32,
}

/// What a form says by standing at a place of a head.
#[tactic(auto, unfolding(zir_form::specs::Lines::over_cores))]
fn mark_of(form: &Form) -> Mark
    ensures { (at : ℕ → Core) → mark_in (over_cores at form.now) ≡ result }
{
    match form {
        Form::Absent => Mark::Absent,
        Form::Exported => Mark::Exported,
        Form::Inferred { .. } => Mark::Inferred,
        _ => Mark::Other,
    }
}

/// What a child of a tree says by standing at a place of a head.
#[tactic(auto, unfolding(zir_form::specs::Lines::over_cores))]
pub(crate) fn child_mark(cx: &Answers, parent: TreeRef, line: u32) -> Mark
    ensures { mark_in (child_at cx.now parent line) ≡ result }
{
    match child(cx, parent, line) {
        Some(form) => mark_of(form),
        None => Mark::Other,
    }
}

/// The type and the value of a constant.
#[tactic(auto, unfolding(zir_form::specs::Lines::over_cores))]
fn constant_of(form: &Form) -> Option<(u32, u32)>
    ensures { (at : ℕ → Core) → constant_in (over_cores at form.now) ≡ option_map (two_over at) result }
{
    match form {
        Form::Constant { ty, value, .. } => Some((*ty, *value)),
        _ => None,
    }
}

/// The type and the value of the constant that a tree is, if it is one.
pub(crate) fn tree_constant(cx: &Answers, tree: TreeRef) -> Option<(u32, u32)>
    ensures { constant_in (tree_at cx.now tree) ≡ option_map (two_over (child_at cx.now tree)) result }
{
    match form_of(cx, tree) {
        Some(form) => constant_of(form),
        None => None,
    }
}

/// The head and the body of a function.
#[tactic(auto, unfolding(zir_form::specs::Lines::over_cores))]
fn function_of(form: &Form) -> Option<(u32, u32)>
    ensures { (at : ℕ → Core) → function_in (over_cores at form.now) ≡ option_map (two_over at) result }
{
    match form {
        Form::Function { head, body } => Some((*head, *body)),
        _ => None,
    }
}

/// The head and the body of the function that a tree is, if it is one.
pub(crate) fn tree_function(cx: &Answers, tree: TreeRef) -> Option<(u32, u32)>
    ensures { function_in (tree_at cx.now tree) ≡ option_map (two_over (child_at cx.now tree)) result }
{
    match form_of(cx, tree) {
        Some(form) => function_of(form),
        None => None,
    }
}

/// Whether a list of lines is empty.
fn are_none(lines: &[u32]) -> bool
    ensures { (at : ℕ → Core) → is_none (cores_of (map at lines.now)) ≡ result }
{
    lines.is_empty()
}

/// The parts of a head.
#[tactic(auto, unfolding(zir_form::specs::Lines::over_cores))]
fn head_of(form: &Form) -> Option<Head>
    ensures { (at : ℕ → Core) → head_in (over_cores at form.now) ≡ option_map (head_over at) result }
{
    match form {
        Form::Head {
            name_place,
            linkage,
            parameters,
            inferred,
            result,
        } => Some(Head {
            name_place: *name_place,
            linkage: *linkage,
            is_plain: are_none(parameters.as_slice()),
            mark: *inferred,
            result: *result,
        }),
        _ => None,
    }
}

/// The parts of the head that a tree is, if it is one.
pub(crate) fn tree_head(cx: &Answers, tree: TreeRef) -> Option<Head>
    ensures { head_in (tree_at cx.now tree) ≡ option_map (head_over (child_at cx.now tree)) result }
{
    match form_of(cx, tree) {
        Some(form) => head_of(form),
        None => None,
    }
}

/// The parts of the head that a child of a tree is, if it is one.
pub(crate) fn child_head(cx: &Answers, parent: TreeRef, line: u32) -> Option<Head>
    ensures { head_in (child_at cx.now parent line) ≡ option_map (head_over (child_at cx.now (record { front = parent.front; line = line }))) result }
{
    match child(cx, parent, line) {
        Some(form) => head_of(form),
        None => None,
    }
}

/// The container or the file that a declaration is a member of.
#[tactic(auto, unfolding(elab_form::specs::Units::container_of))]
fn container_of<I: Interner>(decl: Index, p: &mut I) -> Result<Index, InternFault>
    requires { IsDecl (I.known p.old) decl }
    ensures interns { Interns I.known I.home I.fulls p.old p.new (is_full result) }
    ensures agrees { IsInjective (I.known p.new) }
    ensures container { IfOk result (λ i. DenotesTy (I.known p.new) i (plain.container_of (decl_at (I.known p.old) decl))) }
{
    match decl_key(decl, p) {
        Key::NamedDecl { container, .. } => Ok(container),
        Key::ComptimeDecl { file, .. } => {
            let file = file_type(file, p)?;
            Ok(file)
        }
        _ => unreachable!(),
    }
}

/// The frame of a part of a declaration.
pub(crate) fn decl_frame<I: Interner>(
    part: TextPart,
    decl: Index,
    p: &mut I,
) -> Result<Frame, InternFault>
    requires part { IsPart (I.known p.old) part }
    requires decl { IsDecl (I.known p.old) decl }
    ensures interns { Interns I.known I.home I.fulls p.old p.new (is_full result) }
    ensures agrees { IsInjective (I.known p.new) }
    ensures frame { IfOk result (λ f. DenotesFrame (I.known p.new) f (plain.frame (part_at (I.known p.old) part) (decl_at (I.known p.old) decl))) }
{
    let container = container_of(decl, p)?;
    Ok(Frame {
        part,
        container,
        is_comptime: false,
        result: None,
    })
}
