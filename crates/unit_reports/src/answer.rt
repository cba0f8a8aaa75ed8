// The linker's answer, in diagnostics.
ghost use Rattle.std.specs.Prelude.{◌≡◌, IfOk, IsErr, [], map};
ghost use Rattle.wasm_link.specs.Link.{linked};
ghost use Rattle.unit_reports.specs.LinkAnswers.{diag_at, diag_at_start, fault_diags, link_answer};

use diag_order::Diag;
use std::alloc::{AllocError, Global};
use wasm_link::{Function, LinkFault, Place, link};
use zw_base::{Bytes, DiagCode, FilePath, Seq};

/// The linker's answer.
#[derive(Debug, Drop)]
pub enum LinkAnswer {
    /// The module's bytes.
    Module(Bytes),
    /// Why there is no module.
    Refused(Seq<Diag>),
}

/// Links functions, without data and error names. An export name that stands twice is told at each
/// function of that name; too much data and too large a module at the start of the root.
pub fn link_told(
    alloc: Global,
    root: &FilePath,
    functions: Vec<Function>,
) -> Result<LinkAnswer, AllocError>
    ensures { IfOk result (λ a. a ≡ link_answer root.now (linked functions.items [] [])) }
{
    match link(alloc, functions, Vec::new(alloc), &[]) {
        Ok(module) => Ok(LinkAnswer::Module(module)),
        Err(fault) => {
            let diags = fault_diags(alloc, root, fault)?;
            Ok(LinkAnswer::Refused(Seq::of(diags)))
        }
    }
}

/// Why there is no module. Want of memory is no answer, and is handed on.
fn fault_diags(alloc: Global, root: &FilePath, fault: LinkFault) -> Result<Vec<Diag>, AllocError>
    ensures told { IfOk result (λ diags. diags.items ≡ fault_diags root.now fault) }
    ensures memory { fault ≡ LinkFault.OutOfMemory → IsErr result }
{
    match fault {
        LinkFault::DuplicateExport { name, places } => {
            let _ = name;
            let diags = diags_at(alloc, DiagCode::ExportTwice, places.into_vec())?;
            Ok(diags)
        }
        LinkFault::DataTooLarge => {
            let diag = diag_at_start(alloc, DiagCode::DataTooLarge, root)?;
            let diags = vec![in alloc; diag]?;
            Ok(diags)
        }
        LinkFault::ModuleTooLarge => {
            let diag = diag_at_start(alloc, DiagCode::ModuleTooLarge, root)?;
            let diags = vec![in alloc; diag]?;
            Ok(diags)
        }
        LinkFault::OutOfMemory => Err(AllocError),
    }
}

/// The same diagnostic at places.
fn diags_at(alloc: Global, code: DiagCode, places: Vec<Place>) -> Result<Vec<Diag>, AllocError>
    ensures { IfOk result (λ diags. diags.items ≡ map (diag_at code) places.items) }
{
    let mut diags = Vec::new(alloc);
    for place in places {
        diags.push(diag_at(alloc, code, place))?;
    }
    Ok(diags)
}

/// A diagnostic at a place.
fn diag_at(alloc: Global, code: DiagCode, place: Place) -> Diag
    ensures { result ≡ diag_at code place }
{
    Diag {
        path: place.path,
        offset: place.offset,
        code,
        text: Bytes::of(Vec::new(alloc)),
    }
}

/// A diagnostic at the start of a file.
fn diag_at_start(alloc: Global, code: DiagCode, path: &FilePath) -> Result<Diag, AllocError>
    ensures { IfOk result (λ diag. diag ≡ diag_at_start code path.now) }
{
    let place = Place {
        path: path.clone()?,
        offset: 0,
    };
    Ok(diag_at(alloc, code, place))
}
