// The units that the analysis of a root file begins with, by their indices.
ghost use Rattle.std.specs.Prelude.{◌≡◌, ◌++◌, [], ◌∷◌, IfOk, OnOk, map};
ghost use Rattle.zir_form.specs.Front.{front_in};
ghost use Rattle.type_form.specs.Known.{IsInjective};
ghost use Rattle.type_form.specs.Means.{IsBytes, IsTy, bytes_at, ty_at};
ghost use Rattle.type_form.specs.Pool.{Interns, is_full};
ghost use Rattle.root_analysis.specs.Roots.{declared_in, exported_units, root_units};
ghost use Rattle.root_analysis.specs.Denoting.{DenoteUnits, DenotesUnit, block_indices};

use std::alloc::{AllocError, Global};
use trace_log::UnitIndex;
use type_form::{Index, InternFault, Interner};
use type_keys::decls::named_decl;
use type_keys::intern_bytes;
use type_keys::types::file_type;
use zir_form::{FileExports, Front};
use zw_base::Bytes;

/// One block more than there may be units.
const MOST_BLOCKS: u64 = 65_537;

/// The unit of a declaration in a file, by the index of the file's type.
fn declared_unit<I: Interner>(file: Index, name: &[u8], p: &mut I) -> Result<UnitIndex, InternFault>
    requires { IsTy (I.known p.old) file }
    ensures interns { Interns I.known I.home I.fulls p.old p.new (is_full result) }
    ensures agrees { IsInjective (I.known p.new) }
    ensures unit { IfOk result (λ u. DenotesUnit (I.known p.new) u
        (declared_in (ty_at (I.known p.old) file) name.now)) }
{
    let name = intern_bytes(name, p)?;
    let decl = named_decl(file, name, p)?;
    Ok(UnitIndex::Decl(decl))
}

/// Puts a unit behind others.
fn push_unit(units: &mut Vec<UnitIndex>, unit: UnitIndex) -> Result<(), AllocError>
    ensures { OnOk result (units.new.items ≡ units.old.items ++ unit ∷ []) }
{
    units.push(unit)?;
    Ok(())
}

/// The units of declarations in a file, by the index of the file's type.
fn declared_units<I: Interner>(
    alloc: Global,
    file: Index,
    names: &[Bytes],
    p: &mut I,
) -> Result<Vec<UnitIndex>, InternFault>
    requires file { IsTy (I.known p.old) file }
    requires agrees { IsInjective (I.known p.old) }
    ensures interns { Interns I.known I.home I.fulls p.old p.new (is_full result) }
    ensures agrees { IsInjective (I.known p.new) }
    ensures units { IfOk result (λ v. DenoteUnits (I.known p.new) v.items
        (map (declared_in (ty_at (I.known p.old) file)) names.now)) }
{
    let mut units = Vec::new(alloc);
    for name in names {
        let unit = declared_unit(file, name.as_slice(), p)?;
        push_unit(&mut units, unit)?;
    }
    Ok(units)
}

/// Puts the units of so many blocks of a file behind others.
fn push_blocks(path: Index, count: u32, units: &mut Vec<UnitIndex>) -> Result<(), AllocError>
    ensures { OnOk result (units.new.items ≡ units.old.items ++ block_indices path count) }
{
    for number in 0..count {
        units.push(UnitIndex::Comptime { file: path, number })?;
    }
    Ok(())
}

/// The units of what a file exports and of its blocks.
fn exported_units<I: Interner>(
    alloc: Global,
    path: Index,
    exports: FileExports,
    p: &mut I,
) -> Result<Vec<UnitIndex>, InternFault>
    requires path { IsBytes (I.known p.old) path }
    requires agrees { IsInjective (I.known p.old) }
    ensures interns { Interns I.known I.home I.fulls p.old p.new (is_full result) }
    ensures agrees { IsInjective (I.known p.new) }
    ensures units { IfOk result (λ v. DenoteUnits (I.known p.new) v.items
        (exported_units (bytes_at (I.known p.old) path) exports)) }
{
    let FileExports { functions, blocks } = exports;
    let file = file_type(path, p)?;
    let mut units = declared_units(alloc, file, functions.as_slice(), p)?;
    push_blocks(path, blocks.min(MOST_BLOCKS) as u32, &mut units)?;
    Ok(units)
}

/// The units that the analysis of the file with this path begins with.
pub(crate) fn root_units<I: Interner>(
    alloc: Global,
    path: Index,
    front: &Front,
    p: &mut I,
) -> Result<Vec<UnitIndex>, InternFault>
    requires path { IsBytes (I.known p.old) path }
    requires agrees { IsInjective (I.known p.old) }
    ensures interns { Interns I.known I.home I.fulls p.old p.new (is_full result) }
    ensures agrees { IsInjective (I.known p.new) }
    ensures units { IfOk result (λ v. DenoteUnits (I.known p.new) v.items
        (root_units (bytes_at (I.known p.old) path) (front_in front.now))) }
{
    match front.exports(alloc)? {
        Some(exports) => exported_units(alloc, path, exports, p),
        None => Ok(Vec::new(alloc)),
    }
}
