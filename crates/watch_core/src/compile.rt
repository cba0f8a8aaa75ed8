// The answer of an update, case by case.
ghost use Rattle.std.specs.Prelude.{◌≡◌, ◌≤◌, [], ◌∷◌, IfOk, IsSome};
ghost use Rattle.zw_base.specs.Outside.{file_at};
ghost use Rattle.zir_form.specs.Front.{front_in};
ghost use Rattle.wasm_link.specs.Link.{linked};
ghost use Rattle.unit_reports.specs.LinkAnswers.{link_answer};
ghost use Rattle.root_analysis.specs.Analysis.{analysis};
ghost use Rattle.root_analysis.specs.declared.analysis.RootAnalysis.TheVariants as analysed;
ghost use Rattle.watch_core.specs.Answers.{analysis_answer};
ghost use Rattle.watch_core.specs.Compile.{compile, compiled, diag_at_start, placed};
ghost use Rattle.watch_core.specs.Counts.{counts, update_of, Nothing};
ghost use Rattle.watch_core.specs.SessionState.{total_bytes};
ghost use Rattle.watch_core.specs.Sources.{AreRead};

use crate::front::found_at;
use crate::placing::{diag_of, diags_of, placed};
use crate::session::Update;
use crate::sources::{Sources, Texts, front_at, read_source, text_of};
use diag_order::Diag;
use root_analysis::{RootAnalysis, analyse_root};
use std::alloc::{AllocError, Global};
use trace_log::Shared;
use unit_reports::{LinkAnswer, link_told};
use wasm_link::Function;
use zir_form::Front;
use zw_base::limits::TOTAL_BYTES;
use zw_base::{DiagCode, FilePath, Found};

/// The answer for the files as they stand: the diagnostics of the first case that applies, or a module.
/// Only files that were not read as they stand are read.
pub fn answer(
    alloc: Global,
    root: &FilePath,
    files: &Texts,
    sources: &mut Sources,
) -> Result<Update, AllocError>
    requires total { total_bytes files.now.entries ≤ TOTAL_BYTES }
    requires read { AreRead sources.old.entries files.now.entries }
    ensures answer { IfOk result (λ u. u ≡ update_of (compile root.now files.now.entries) (counts root.now files.now.entries Nothing)) }
    ensures read { AreRead sources.new.entries files.now.entries }
{
    match text_of(files, root) {
        Some(_) => compiled(alloc, root, files, sources),
        None => {
            let absent = at_start(alloc, root, DiagCode::RootMissing)?;
            refused(alloc, files, absent, 0)
        }
    }
}

/// The answer where the root is there.
fn compiled(
    alloc: Global,
    root: &FilePath,
    files: &Texts,
    sources: &mut Sources,
) -> Result<Update, AllocError>
    requires there { IsSome (file_at files.now.entries root.now) }
    requires total { total_bytes files.now.entries ≤ TOTAL_BYTES }
    requires read { AreRead sources.old.entries files.now.entries }
    ensures answer { IfOk result (λ u. u ≡ update_of (compile root.now files.now.entries) (counts root.now files.now.entries Nothing)) }
    ensures read { AreRead sources.new.entries files.now.entries }
{
    read_source(alloc, files, root, sources)?;
    let front = front_at(files, sources, root);
    let found = front.get().found.as_slice();
    if !found.is_empty() {
        let diags = diags_of(alloc, root, found)?;
        return refused(alloc, files, diags, 0);
    }
    analysed(alloc, root, files, front)
}

/// The answer where nothing is wrong before any unit is analysed.
fn analysed(
    alloc: Global,
    root: &FilePath,
    files: &Texts,
    front: &Shared<Front>,
) -> Result<Update, AllocError>
    requires { total_bytes files.now.entries ≤ TOTAL_BYTES }
    ensures { IfOk result (λ u. u ≡ analysis_answer root.now files.now.entries (analysis root.now (front_in front.now))) }
{
    match analyse_root(alloc, root, front)? {
        RootAnalysis::TooMany => {
            let many = at_start(alloc, root, DiagCode::TooManyUnits)?;
            refused(alloc, files, many, 0)
        }
        RootAnalysis::Told {
            units,
            founds,
            functions,
        } => told(
            alloc,
            root,
            files,
            units,
            founds.into_vec(),
            functions.into_vec(),
        ),
    }
}

/// The answer of so many units: their diagnostics, or what the linker makes of the functions.
fn told(
    alloc: Global,
    root: &FilePath,
    files: &Texts,
    units: u32,
    founds: Vec<Found>,
    functions: Vec<Function>,
) -> Result<Update, AllocError>
    requires { total_bytes files.now.entries ≤ TOTAL_BYTES }
    ensures { IfOk result (λ u. u ≡ analysis_answer root.now files.now.entries (analysed.Told units founds.items functions.items)) }
{
    if founds.is_empty() {
        linked(alloc, root, files, units, functions)
    } else {
        let diags = diags_of(alloc, root, founds.as_slice())?;
        refused(alloc, files, diags, units)
    }
}

/// The linker's answer to the functions of so many units.
fn linked(
    alloc: Global,
    root: &FilePath,
    files: &Texts,
    units: u32,
    functions: Vec<Function>,
) -> Result<Update, AllocError>
    requires { total_bytes files.now.entries ≤ TOTAL_BYTES }
    ensures { IfOk result (λ u. u ≡ update_of
        (compiled files.now.entries [] (link_answer root.now (linked functions.items [] []))) (record { analysed = units; reused = 0 })) }
{
    match link_told(alloc, root, functions)? {
        LinkAnswer::Module(bytes) => Ok(Update::Module {
            bytes,
            analysed: units,
            reused: 0,
        }),
        LinkAnswer::Refused(diags) => refused(alloc, files, diags.into_vec(), units),
    }
}

/// Diagnostics in their places, as an answer.
fn refused(
    alloc: Global,
    files: &Texts,
    diags: Vec<Diag>,
    analysed: u32,
) -> Result<Update, AllocError>
    requires { total_bytes files.now.entries ≤ TOTAL_BYTES }
    ensures { IfOk result (λ u. u ≡ Update.Errors (placed files.now.entries diags.items) analysed 0) }
{
    Ok(Update::Errors {
        lines: placed(alloc, files, diags)?,
        analysed,
        reused: 0,
    })
}

/// A diagnostic at the start of a file.
fn at_start(alloc: Global, path: &FilePath, code: DiagCode) -> Result<Vec<Diag>, AllocError>
    ensures { IfOk result (λ v. v.items ≡ diag_at_start path.now code ∷ []) }
{
    let found = found_at(alloc, code, 0);
    Ok(vec![in alloc; diag_of(alloc, path, &found)?]?)
}
