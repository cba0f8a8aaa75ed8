// Core trees, as lines of a file.
ghost use Rattle.std.specs.Prelude.{◌≡◌, ℕ};
ghost use Rattle.std.specs.Option.{option_copied};
ghost use Rattle.zir_form.specs.Core.{Core};
ghost use Rattle.zir_form.specs.Lines.{over_cores, form_tree};
ghost use Rattle.elab_form.specs.Places as plain;
ghost use Rattle.sema_body.specs.Trees.{tree_at, child_at};

use trace_log::{Answers, TreeRef};
use zir_form::Form;

/// Another line of the file.
pub(crate) fn line_at(tree: TreeRef, line: u32) -> TreeRef
    ensures { result ≡ record { front = tree.front; line = line } }
{
    TreeRef {
        front: tree.front,
        line,
    }
}

/// The form of a tree, if there is such a line.
#[tactic(auto, using(crate::proofs::TreeLemmas::of_line))]
pub(crate) fn form_of(cx: &Answers, tree: TreeRef) -> Option<&Form>
    ensures { tree_at cx.now tree ≡ form_tree (child_at cx.now tree) (option_copied result) }
{
    cx.form(tree)
}

/// The place of a tree.
#[tactic(auto, unfolding(zir_form::specs::Lines::over_cores))]
pub(crate) fn tree_place(cx: &Answers, tree: TreeRef) -> u32
    ensures { result ≡ plain.place_of (tree_at cx.now tree) }
{
    match form_of(cx, tree) {
        Some(form) => place_of(form),
        None => 0,
    }
}

/// The form of a child of a tree: a child that is no earlier line is missing.
#[tactic(auto, using(crate::proofs::TreeLemmas::earlier, crate::proofs::TreeLemmas::no_earlier))]
pub(crate) fn child(cx: &Answers, parent: TreeRef, line: u32) -> Option<&Form>
    ensures { child_at cx.now parent line ≡ form_tree (child_at cx.now (record { front = parent.front; line = line })) (option_copied result) }
{
    if line < parent.line {
        form_of(cx, line_at(parent, line))
    } else {
        None
    }
}

/// Whether a child is left out.
#[tactic(auto, unfolding(zir_form::specs::Lines::over_cores))]
pub(crate) fn is_absent(cx: &Answers, parent: TreeRef, line: u32) -> bool
    ensures { result ≡ plain.is_absent (child_at cx.now parent line) }
{
    match child(cx, parent, line) {
        Some(form) => is_absent_form(form),
        None => false,
    }
}

/// The place of a child.
#[tactic(auto, unfolding(zir_form::specs::Lines::over_cores))]
pub(crate) fn child_place(cx: &Answers, parent: TreeRef, line: u32) -> u32
    ensures { result ≡ plain.place_of (child_at cx.now parent line) }
{
    match child(cx, parent, line) {
        Some(form) => place_of(form),
        None => 0,
    }
}

/// The place of a child; where it is left out, that of what lacks it.
#[tactic(auto, unfolding(zir_form::specs::Lines::over_cores))]
pub(crate) fn place_behind(cx: &Answers, parent: TreeRef, line: u32, place: u32) -> u32
    ensures { result ≡ plain.value_place place (child_at cx.now parent line) }
{
    match child(cx, parent, line) {
        Some(form) => {
            if is_absent_form(form) {
                place
            } else {
                place_of(form)
            }
        }
        None => 0,
    }
}

/// Where a form stands: its first token, in bytes from that of the part.
#[tactic(auto, unfolding(zir_form::specs::Lines::over_cores))]
pub(crate) fn place_of(form: &Form) -> u32
    ensures { (at : ℕ → Core) → plain.place_of (over_cores at form.now) ≡ result }
{
    match form {
        Form::Missing
        | Form::Absent
        | Form::NoValues
        | Form::NamedValues { .. }
        | Form::NamedValue { .. }
        | Form::ListedValues { .. }
        | Form::Branches { .. }
        | Form::WhileHead { .. }
        | Form::ForHead { .. }
        | Form::Captures { .. }
        | Form::PointerCapture { .. }
        | Form::Prong { .. }
        | Form::Runs { .. }
        | Form::OnError { .. }
        | Form::Function { .. }
        | Form::Exported
        | Form::External { .. }
        | Form::Parameter { .. }
        | Form::OwnTag
        | Form::Fields { .. } => 0,
        Form::Local { place, .. }
        | Form::Captured { place, .. }
        | Form::Declared { place, .. }
        | Form::Primitive { place, .. }
        | Form::Integer { place, .. }
        | Form::Text { place, .. }
        | Form::Lines { place, .. }
        | Form::Unreachable { place }
        | Form::EnumLiteral { place, .. }
        | Form::ErrorValue { place, .. }
        | Form::ErrorSet { place, .. }
        | Form::Container { place, .. }
        | Form::Builtin { place, .. }
        | Form::Import { place, .. }
        | Form::Grouped { place, .. }
        | Form::Member { place, .. }
        | Form::Dereference { place, .. }
        | Form::Unwrap { place, .. }
        | Form::Index { place, .. }
        | Form::Slice { place, .. }
        | Form::Call { place, .. }
        | Form::Unary { place, .. }
        | Form::Address { place, .. }
        | Form::Try { place, .. }
        | Form::Binary { place, .. }
        | Form::And { place, .. }
        | Form::Or { place, .. }
        | Form::Orelse { place, .. }
        | Form::Catch { place, .. }
        | Form::Comptime { place, .. }
        | Form::Optional { place, .. }
        | Form::Pointer { place, .. }
        | Form::SliceType { place, .. }
        | Form::ArrayType { place, .. }
        | Form::ErrorUnion { place, .. }
        | Form::Initializer { place, .. }
        | Form::Block { place, .. }
        | Form::Labelled { place, .. }
        | Form::If { place, .. }
        | Form::Loop { place, .. }
        | Form::Range { place, .. }
        | Form::Capture { place, .. }
        | Form::Switch { place, .. }
        | Form::ElseProng { place, .. }
        | Form::Interval { place, .. }
        | Form::Break { place, .. }
        | Form::Continue { place, .. }
        | Form::Return { place, .. }
        | Form::Assign { place, .. }
        | Form::AssignWith { place, .. }
        | Form::Discard { place, .. }
        | Form::Ignored { place, .. }
        | Form::Constant {
            name_place: place,
            ..
        }
        | Form::Variable {
            name_place: place,
            ..
        }
        | Form::Head {
            name_place: place,
            ..
        }
        | Form::Inferred { place }
        | Form::Anytype { place }
        | Form::Struct { place, .. }
        | Form::Enum { place, .. }
        | Form::Union { place, .. }
        | Form::Field {
            name_place: place,
            ..
        } => *place,
    }
}

/// Whether a form is that of what is left out.
#[tactic(auto, unfolding(zir_form::specs::Lines::over_cores))]
fn is_absent_form(form: &Form) -> bool
    ensures { (at : ℕ → Core) → plain.is_absent (over_cores at form.now) ≡ result }
{
    match form {
        Form::Absent => true,
        _ => false,
    }
}
