// The declarations that units belong to.
ghost use Rattle.std.specs.Prelude.{◌≡◌, IfOk};
ghost use Rattle.type_form.specs.declared.tree.Arg.TheViews.{out-Ty};
ghost use Rattle.type_form.specs.Known.{IsInjective};
ghost use Rattle.type_form.specs.Means.{IsDecl, decl_at, IsInstance, instance_at, IsTy, ty_at, DenotesDecl};
ghost use Rattle.type_form.specs.Pool.{Interns, Reads, is_full};
ghost use Rattle.elab_form.specs.Units as plain;
ghost use Rattle.trace_log.specs.Readings.{IsUnit, unit_at};

use trace_log::UnitIndex;
use type_form::{Index, InternFault, Interner, Key, Keys};
use type_keys::decls::comptime_decl;
use type_keys::{instance_key, intern_bytes, ty_key};

/// The declaration of an instance.
pub fn instance_decl<P: Keys>(instance: Index, p: &mut P) -> Index
    requires { IsInstance (P.known p.old) instance }
    ensures reads { Reads P.known P.home P.fulls p.old p.new }
    ensures agrees { IsInjective (P.known p.new) }
    ensures known { IsDecl (P.known p.old) result }
    ensures decl { decl_at (P.known p.old) result ≡ (instance_at (P.known p.old) instance).decl }
{
    match instance_key(instance, p) {
        Key::Instance { decl, .. } => decl,
        _ => unreachable!(),
    }
}

/// The declaration that a type belongs to.
fn decl_of_type<I: Interner>(ty: Index, p: &mut I) -> Result<Index, InternFault>
    requires { IsTy (I.known p.old) ty }
    ensures interns { Interns I.known I.home I.fulls p.old p.new (is_full result) }
    ensures agrees { IsInjective (I.known p.new) }
    ensures decl { IfOk result (λ i. DenotesDecl (I.known p.new) i
        (plain.decl_of_ty (out-Ty (ty_at (I.known p.old) ty)))) }
{
    match ty_key(ty, p) {
        Key::ContainerType { decl, .. } => Ok(decl),
        Key::FileType { path } => {
            let decl = comptime_decl(path, 0, p)?;
            Ok(decl)
        }
        _ => {
            let none = intern_bytes(&[], p)?;
            comptime_decl(none, 0, p)
        }
    }
}

/// The declaration that a unit belongs to.
#[tactic(auto, unfolding(elab_form::specs::Units::decl_of))]
pub fn decl_of<I: Interner>(unit: UnitIndex, p: &mut I) -> Result<Index, InternFault>
    requires unit { IsUnit (I.known p.old) unit }
    requires agrees { IsInjective (I.known p.old) }
    ensures interns { Interns I.known I.home I.fulls p.old p.new (is_full result) }
    ensures agrees { IsInjective (I.known p.new) }
    ensures decl { IfOk result (λ i. DenotesDecl (I.known p.new) i
        (plain.decl_of (unit_at (I.known p.old) unit))) }
{
    match unit {
        UnitIndex::Decl(decl) => Ok(decl),
        UnitIndex::Body(instance) | UnitIndex::ErrorSet(instance) | UnitIndex::Code(instance) => {
            Ok(instance_decl(instance, p))
        }
        UnitIndex::Fields(ty) => {
            let decl = decl_of_type(ty, p)?;
            Ok(decl)
        }
        UnitIndex::Comptime { file, number } => {
            let decl = comptime_decl(file, number, p)?;
            Ok(decl)
        }
    }
}
