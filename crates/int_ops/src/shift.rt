// Shifts. The comptime type has no width, so there the amount may be any that is not negative.
ghost use Rattle.std.specs.Prelude.{◌≡◌, ◌≤ℤ◌, ◌*ℤ◌, ◌^◌, pos, unsigned_abs};
ghost use Rattle.int_ops.specs.Division.{floor_by};
ghost use Rattle.int_ops.specs.IntOut.{is_bad_shift, outcome};
ghost use Rattle.int_ops.specs.declared.types.Mode.{Mode};

use crate::types::{IntOut, IntType};

/// The amount is below 0, or not below the width of the type.
pub(crate) fn is_bad_shift(amount: i128, t: IntType) -> bool
    ensures { result ≡ is_bad_shift amount t }
{
    match t {
        IntType::Signed(width) | IntType::Unsigned(width) => {
            amount < 0 || width.bits as i128 <= amount
        }
        IntType::Comptime => amount < 0,
    }
}

/// a / 2^amount, rounded down.
pub(crate) fn halved(a: i128, amount: i128) -> i128
    requires { pos 0 ≤ℤ amount }
    ensures { result ≡ floor_by a (2 ^ unsigned_abs amount) }
{
    if amount < 127 {
        a >> amount as u32
    } else if a < 0 {
        -1
    } else {
        0
    }
}

/// The answer for a * 2^amount at the comptime type, where 2^amount is beyond 128 bits.
#[tactic(auto, unfolding(crate::specs::IntOut::outcome))]
pub(crate) fn doubled_far(a: i128, amount: i128) -> IntOut
    requires { pos 127 ≤ℤ amount }
    ensures { (mode : Mode) → result ≡ outcome (a *ℤ pos (2 ^ unsigned_abs amount)) IntType.Comptime mode }
{
    if a == 0 {
        IntOut::Value(0)
    } else if a == -1 && amount == 127 {
        IntOut::Value(i128::MIN)
    } else {
        IntOut::Overflow
    }
}
