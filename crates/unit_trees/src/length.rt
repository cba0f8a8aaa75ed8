// How long the spellings of units are.
ghost use Rattle.std.specs.Prelude.{◌≡◌, IfOk};
ghost use Rattle.type_form.specs.Known.{IsInjective};
ghost use Rattle.type_form.specs.Pool.{Reads};
ghost use Rattle.elab_form.specs.Units as plain;
ghost use Rattle.trace_log.specs.Readings.{IsUnit, unit_at};

use crate::read::read_unit;
use std::alloc::{AllocError, Global};
use trace_log::UnitIndex;
use type_form::{Keys, Unit, unit_len};

/// The most bytes of a unit's spelling.
const LONGEST: u32 = 4096;

/// Whether the spelling of a unit has more bytes than it may have.
#[tactic(auto, unfolding(elab_form::specs::Units::longest_spelling))]
fn is_long(unit: &Unit) -> bool
    ensures { result ≡ plain.is_too_long unit.now }
{
    unit_len(unit) > LONGEST
}

/// Whether the spelling of a unit has more than 4,096 bytes: such a unit asks nothing.
pub fn is_too_long<P: Keys>(alloc: Global, unit: UnitIndex, p: &mut P) -> Result<bool, AllocError>
    requires known { IsUnit (P.known p.old) unit }
    requires one { IsInjective (P.known p.old) }
    ensures reads { Reads P.known P.home P.fulls p.old p.new }
    ensures agrees { IsInjective (P.known p.new) }
    ensures long { IfOk result (λ b. b ≡ plain.is_too_long (unit_at (P.known p.old) unit)) }
{
    let tree = read_unit(alloc, unit, p)?;
    Ok(is_long(&tree))
}
