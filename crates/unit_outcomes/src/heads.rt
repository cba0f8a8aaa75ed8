// Heads of functions that are exported, as lines of a file.
ghost use Rattle.std.specs.Prelude.{◌≡◌, ℕ, IfOk};
ghost use Rattle.std.specs.Option.{option_copied, option_map};
ghost use Rattle.zir_form.specs.Core.{Core};
ghost use Rattle.zir_form.specs.Lines.{over_cores, form_tree};
ghost use Rattle.type_form.specs.Known.{IsInjective};
ghost use Rattle.type_form.specs.Means.{IsDecl, decl_at};
ghost use Rattle.type_form.specs.Pool.{Reads};
ghost use Rattle.elab_form.specs.Questions.{head};
ghost use Rattle.trace_log.specs.Files.{text_in};
ghost use Rattle.trace_log.specs.Snapshots.{AreAnswers, files_at};
ghost use Rattle.unit_outcomes.specs.Heads as plain;

use std::alloc::{AllocError, Global};
use trace_log::{Answer, Answers, Question, TextPart, TreeRef};
use type_form::{Index, Keys};
use zir_form::Form;

/// The form of a tree, if there is such a line.
#[tactic(auto, using(crate::proofs::HeadLemmas::of_line))]
fn form_of(answers: &Answers, tree: TreeRef) -> Option<&Form>
    ensures { plain.tree_at answers.now tree
        ≡ form_tree (plain.child_at answers.now tree) (option_copied result) }
{
    answers.form(tree)
}

/// The form of a child of a tree: a child that is no earlier line is missing.
#[tactic(auto, using(crate::proofs::HeadLemmas::earlier, crate::proofs::HeadLemmas::no_earlier))]
fn child(answers: &Answers, parent: TreeRef, line: u32) -> Option<&Form>
    ensures { plain.child_at answers.now parent line
        ≡ form_tree (plain.child_at answers.now (record { front = parent.front; line = line }))
        (option_copied result) }
{
    if line < parent.line {
        form_of(
            answers,
            TreeRef {
                front: parent.front,
                line,
            },
        )
    } else {
        None
    }
}

/// Whether a form is the mark of an export.
#[tactic(auto, unfolding(zir_form::specs::Lines::over_cores))]
fn is_mark(form: &Form) -> bool
    ensures { (at : ℕ → Core) → plain.is_mark (over_cores at form.now) ≡ result }
{
    match form {
        Form::Exported => true,
        _ => false,
    }
}

/// Whether a child of a tree is the mark of an export.
#[tactic(auto, unfolding(zir_form::specs::Lines::over_cores))]
fn is_mark_at(answers: &Answers, parent: TreeRef, line: u32) -> bool
    ensures { plain.is_mark (plain.child_at answers.now parent line) ≡ result }
{
    match child(answers, parent, line) {
        Some(form) => is_mark(form),
        None => false,
    }
}

/// The linkage of the head that a form is, if it is one.
#[tactic(auto, unfolding(zir_form::specs::Lines::over_cores))]
fn linkage_of(form: &Form) -> Option<u32>
    ensures { (at : ℕ → Core) → plain.is_head (over_cores at form.now) ≡ plain.is_linked at result }
{
    match form {
        Form::Head { linkage, .. } => Some(*linkage),
        _ => None,
    }
}

/// The linkage of the head that a tree is, if it is one.
fn tree_linkage(answers: &Answers, tree: TreeRef) -> Option<u32>
    ensures { plain.is_head (plain.tree_at answers.now tree)
        ≡ plain.is_linked (plain.child_at answers.now tree) result }
{
    match form_of(answers, tree) {
        Some(form) => linkage_of(form),
        None => None,
    }
}

/// Whether a tree is the head of a function that is exported.
fn is_head(answers: &Answers, tree: TreeRef) -> bool
    ensures { plain.is_head (plain.tree_at answers.now tree) ≡ result }
{
    match tree_linkage(answers, tree) {
        Some(linkage) => is_mark_at(answers, tree, linkage),
        None => false,
    }
}

/// The tree that an answer gives.
fn tree_in(answer: Option<Answer>) -> Option<TreeRef>
    ensures { result ≡ plain.tree_in answer }
{
    match answer {
        Some(Answer::Tree(tree)) => tree,
        _ => None,
    }
}

/// Whether a tree is there and is the head of a function that is exported.
fn is_exported_tree(answers: &Answers, tree: Option<TreeRef>) -> bool
    ensures { result ≡ plain.is_exported (option_map (plain.tree_at answers.now) tree) }
{
    match tree {
        Some(tree) => is_head(answers, tree),
        None => false,
    }
}

/// Whether a declaration is that of a function that is exported.
#[tactic(auto, using(crate::proofs::HeadLemmas::text_told))]
pub(crate) fn is_exported<P: Keys>(
    alloc: Global,
    answers: &Answers,
    decl: Index,
    p: &mut P,
) -> Result<bool, AllocError>
    requires decl { IsDecl (P.known p.old) decl }
    requires one { IsInjective (P.known p.old) }
    requires answers { AreAnswers (P.known p.old) answers.now }
    ensures reads { Reads P.known P.home P.fulls p.old p.new }
    ensures agrees { IsInjective (P.known p.new) }
    ensures exported { IfOk result (λ b. b ≡ plain.is_exported
        (text_in (files_at (P.known p.old) answers.now) (head (decl_at (P.known p.old) decl)))) }
{
    let answer = answers.answer(alloc, Question::Text(TextPart::Head(decl)), p)?;
    Ok(is_exported_tree(answers, tree_in(answer)))
}
