// Units as trees.
ghost use Rattle.std.specs.Prelude.{◌≡◌, IfOk};
ghost use Rattle.type_form.specs.Known.{IsInjective};
ghost use Rattle.type_form.specs.Pool.{Reads};
ghost use Rattle.trace_log.specs.Readings.{IsUnit, unit_at};

use std::alloc::{AllocError, Global};
use trace_log::UnitIndex;
use type_form::{Keys, Unit};
use type_trees::{read_bytes, read_decl, read_instance, read_ty};

/// The unit that indices denote.
pub fn read_unit<P: Keys>(alloc: Global, unit: UnitIndex, p: &mut P) -> Result<Unit, AllocError>
    requires known { IsUnit (P.known p.old) unit }
    requires one { IsInjective (P.known p.old) }
    ensures reads { Reads P.known P.home P.fulls p.old p.new }
    ensures agrees { IsInjective (P.known p.new) }
    ensures tree { IfOk result (λ u. u ≡ unit_at (P.known p.old) unit) }
{
    match unit {
        UnitIndex::Decl(decl) => {
            let tree = read_decl(alloc, decl, p)?;
            Ok(Unit::Decl(tree))
        }
        UnitIndex::Body(instance) => {
            let tree = read_instance(alloc, instance, p)?;
            Ok(Unit::Body(tree))
        }
        UnitIndex::ErrorSet(instance) => {
            let tree = read_instance(alloc, instance, p)?;
            Ok(Unit::ErrorSet(tree))
        }
        UnitIndex::Fields(ty) => {
            let tree = read_ty(alloc, ty, p)?;
            Ok(Unit::Fields(tree))
        }
        UnitIndex::Code(instance) => {
            let tree = read_instance(alloc, instance, p)?;
            Ok(Unit::Code(tree))
        }
        UnitIndex::Comptime { file, number } => {
            let file = read_bytes(alloc, file, p)?;
            Ok(Unit::Comptime { file, number })
        }
    }
}
