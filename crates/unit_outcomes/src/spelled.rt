// Spellings of units and instances, and names of declarations.
ghost use Rattle.std.specs.Prelude.{◌≡◌, ◌≤◌, false, IfOk, drop, length};
ghost use Rattle.type_form.specs.declared.unit.Unit.TheVariants as unit;
ghost use Rattle.type_form.specs.Known.{IsInjective};
ghost use Rattle.type_form.specs.Means.{IsDecl, decl_at, IsInstance, instance_at};
ghost use Rattle.type_form.specs.Pool.{Reads};
ghost use Rattle.type_form.specs.Spelling.{instance_text, unit_text};
ghost use Rattle.elab_form.specs.Units as plain;
ghost use Rattle.trace_log.specs.Readings.{IsUnit, unit_at};

use std::alloc::{AllocError, Global};
use trace_log::UnitIndex;
use type_form::{Index, Key, Keys, SpellFault, Unit, spell_unit};
use type_keys::decl_key;
use type_trees::read_bytes;
use unit_trees::read_unit;
use zw_base::Bytes;
use zw_bytes::ByteBuf;

/// How many bytes stand before the spelling of an instance in that of its code: `code `.
const BEFORE_INSTANCE: usize = 5;

/// A unit that is not too long, as it is spelled.
fn spelled(alloc: Global, unit: &Unit) -> Result<Vec<u8>, AllocError>
    requires { plain.is_too_long unit.now ≡ false }
    ensures { IfOk result (λ bytes. bytes.items ≡ unit_text unit.now) }
{
    let mut out = ByteBuf::with_room(alloc, 0)?;
    match spell_unit(alloc, unit, &mut out) {
        Ok(()) => Ok(out.into_vec()),
        Err(SpellFault::TooLong) => unreachable!(),
        Err(SpellFault::OutOfMemory) => Err(AllocError),
    }
}

/// A unit that is not too long, as it is spelled, by its indices.
pub(crate) fn unit_bytes<P: Keys>(
    alloc: Global,
    unit: UnitIndex,
    p: &mut P,
) -> Result<Vec<u8>, AllocError>
    requires unit { IsUnit (P.known p.old) unit }
    requires one { IsInjective (P.known p.old) }
    requires short { plain.is_too_long (unit_at (P.known p.old) unit) ≡ false }
    ensures reads { Reads P.known P.home P.fulls p.old p.new }
    ensures agrees { IsInjective (P.known p.new) }
    ensures text { IfOk result (λ bytes. bytes.items ≡ unit_text (unit_at (P.known p.old) unit)) }
{
    let tree = read_unit(alloc, unit, p)?;
    spelled(alloc, &tree)
}

/// What stands in the spelling of a unit of code behind its first word.
fn behind_code(alloc: Global, text: &[u8]) -> Result<Bytes, AllocError>
    requires { 5 ≤ length text.now }
    ensures { IfOk result (λ bytes. bytes ≡ drop 5 text.now) }
{
    Ok(Bytes::of(Vec::from_slice(alloc, &text[BEFORE_INSTANCE..])?))
}

/// An instance as it is spelled, whose code is not too long.
pub(crate) fn instance_bytes<P: Keys>(
    alloc: Global,
    instance: Index,
    p: &mut P,
) -> Result<Bytes, AllocError>
    requires instance { IsInstance (P.known p.old) instance }
    requires one { IsInjective (P.known p.old) }
    requires short { plain.is_too_long (unit.Code (instance_at (P.known p.old) instance)) ≡ false }
    ensures reads { Reads P.known P.home P.fulls p.old p.new }
    ensures agrees { IsInjective (P.known p.new) }
    ensures text { IfOk result (λ bytes. bytes ≡ instance_text
        (instance_at (P.known p.old) instance)) }
{
    let whole = unit_bytes(alloc, UnitIndex::Code(instance), p)?;
    let text = behind_code(alloc, whole.as_slice())?;
    Ok(text)
}

/// The name of a declaration; a block has none.
#[tactic(auto, unfolding(elab_form::specs::Units::name_of))]
pub(crate) fn name_of<P: Keys>(alloc: Global, decl: Index, p: &mut P) -> Result<Bytes, AllocError>
    requires { IsDecl (P.known p.old) decl }
    ensures reads { Reads P.known P.home P.fulls p.old p.new }
    ensures agrees { IsInjective (P.known p.new) }
    ensures name { IfOk result (λ bytes. bytes ≡ plain.name_of (decl_at (P.known p.old) decl)) }
{
    match decl_key(decl, p) {
        Key::NamedDecl { name, .. } => {
            let bytes = read_bytes(alloc, name, p)?;
            Ok(bytes)
        }
        Key::ComptimeDecl { .. } => Ok(Bytes::of(Vec::new(alloc))),
        _ => unreachable!(),
    }
}
