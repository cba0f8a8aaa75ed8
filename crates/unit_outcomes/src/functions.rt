// The code of instances, as functions of the root.
ghost use Rattle.std.specs.Prelude.{◌≡◌, false, IfOk};
ghost use Rattle.type_form.specs.declared.unit.Unit.TheVariants as unit;
ghost use Rattle.type_form.specs.Known.{IsInjective};
ghost use Rattle.type_form.specs.Means.{IsDecl, decl_at, IsInstance, instance_at};
ghost use Rattle.type_form.specs.Pool.{Reads};
ghost use Rattle.elab_form.specs.Questions.{head};
ghost use Rattle.elab_form.specs.Units.{is_too_long, name_of};
ghost use Rattle.trace_log.specs.Files.{text_in};
ghost use Rattle.trace_log.specs.Snapshots.{AreAnswers, files_at};
ghost use Rattle.unit_outcomes.specs.Reports as plain;

use crate::copies::{copy_code, copy_path};
use crate::heads::is_exported;
use crate::places::spot_at;
use crate::spelled::{instance_bytes, name_of};
use std::alloc::{AllocError, Global};
use trace_log::{Answers, Spot};
use type_form::{Index, Keys};
use unit_trees::instance_decl;
use wasm_form::FnCode;
use wasm_link::{Function, Place};
use zw_base::{Bytes, FilePath};

/// The name under which a declaration is exported, if it is.
fn export_of<P: Keys>(
    alloc: Global,
    answers: &Answers,
    decl: Index,
    p: &mut P,
) -> Result<Option<Bytes>, AllocError>
    requires decl { IsDecl (P.known p.old) decl }
    requires one { IsInjective (P.known p.old) }
    requires answers { AreAnswers (P.known p.old) answers.now }
    ensures reads { Reads P.known P.home P.fulls p.old p.new }
    ensures agrees { IsInjective (P.known p.new) }
    ensures export { IfOk result (λ e. e ≡ plain.export_by (name_of (decl_at (P.known p.old) decl))
        (text_in (files_at (P.known p.old) answers.now) (head (decl_at (P.known p.old) decl)))) }
{
    let is_exported = is_exported(alloc, answers, decl, p)?;
    if is_exported {
        let name = name_of(alloc, decl, p)?;
        Ok(Some(name))
    } else {
        Ok(None)
    }
}

/// The code of an instance, as a function of the root.
pub(crate) fn function_of<P: Keys>(
    alloc: Global,
    root: &FilePath,
    answers: &Answers,
    instance: Index,
    code: &FnCode,
    p: &mut P,
) -> Result<Function, AllocError>
    requires instance { IsInstance (P.known p.old) instance }
    requires one { IsInjective (P.known p.old) }
    requires answers { AreAnswers (P.known p.old) answers.now }
    requires short { is_too_long (unit.Code (instance_at (P.known p.old) instance)) ≡ false }
    ensures reads { Reads P.known P.home P.fulls p.old p.new }
    ensures agrees { IsInjective (P.known p.new) }
    ensures function { IfOk result (λ f. f ≡ plain.function_of root.now
        (files_at (P.known p.old) answers.now) (instance_at (P.known p.old) instance) code.now) }
{
    let decl = instance_decl(instance, p);
    let spelling = instance_bytes(alloc, instance, p)?;
    let export = export_of(alloc, answers, decl, p)?;
    let offset = spot_at(alloc, answers, Spot::Named(decl), p)?;
    let path = copy_path(root)?;
    let code = copy_code(alloc, code)?;
    Ok(Function {
        spelling,
        export,
        place: Place { path, offset },
        code,
    })
}
