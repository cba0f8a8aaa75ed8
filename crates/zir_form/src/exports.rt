// What a file is to those that import it.
ghost use Rattle.std.specs.Prelude.{◌≡◌, IfOk};
ghost use Rattle.zir_form.specs.File.{exports_of};
ghost use Rattle.zir_form.specs.Tables.{exported_names, file_in};

use crate::table::DeclarationRow;
use crate::zir::Zir;
use std::alloc::{AllocError, Global};
use zw_base::{Bytes, Seq};

/// The answer to who imports a file.
#[derive(Debug, Drop)]
pub struct FileExports {
    /// The names of the functions that it exports at its top level, in the order of the text.
    pub functions: Seq<Bytes>,
    /// How many blocks it has at its top level that are evaluated at comptime.
    pub blocks: u64,
}

/// The names of the rows that are exported at the top level.
#[tactic(auto, unfolding(crate::specs::Tables::exported_names))]
fn exported_names(alloc: Global, rows: &[DeclarationRow]) -> Result<Vec<Bytes>, AllocError>
    ensures { IfOk result (λ names. names.items ≡ exported_names rows.now) }
{
    let mut names = Vec::new(alloc);
    let mut rest = rows;
    while let [row, more @ ..] = rest {
        if row.container == 0 && row.is_export {
            names.push(Bytes::of(Vec::from_slice(alloc, row.name.as_slice())?))?;
        }
        rest = more;
    }
    Ok(names)
}

/// What a file exports, and how many blocks it has.
#[tactic(auto, using(crate::proofs::FileLaws::exports_law))]
pub fn exports_of(alloc: Global, zir: &Zir) -> Result<FileExports, AllocError>
    ensures { IfOk result (λ e. e ≡ exports_of (file_in zir.now)) }
{
    let functions = exported_names(alloc, zir.declarations())?;
    Ok(FileExports {
        functions: Seq::of(functions),
        blocks: zir.blocks().len() as u64,
    })
}
