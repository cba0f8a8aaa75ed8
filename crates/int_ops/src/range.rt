// The range of a type, and the answer for an exact result within or beyond it.
ghost use Rattle.std.specs.Prelude.{◌≡◌, ◌<◌, ◌^◌, ℤ, pos};
ghost use Rattle.int_ops.specs.IntType.{lowest_of, highest_of, wrapped, HasSameResidue};
ghost use Rattle.int_ops.specs.IntOut.{beyond, outcome};
ghost use Rattle.int_ops.specs.Exact.{StandsFor};

use crate::exact::Exact;
use crate::types::{IntOut, IntType, Mode};

/// 2 to the power of an exponent.
pub fn power_of_two(exponent: u32) -> i128
    requires { exponent < 127 }
    ensures { result ≡ pos (2 ^ exponent) }
{
    1i128 << exponent
}

fn lowest(t: IntType) -> i128
    ensures { result ≡ lowest_of t }
{
    match t {
        IntType::Signed(width) => -power_of_two(width.bits - 1),
        IntType::Unsigned(_) => 0,
        IntType::Comptime => i128::MIN,
    }
}

fn highest(t: IntType) -> i128
    ensures { result ≡ highest_of t }
{
    match t {
        IntType::Signed(width) => power_of_two(width.bits - 1) - 1,
        IntType::Unsigned(width) => power_of_two(width.bits) - 1,
        IntType::Comptime => i128::MAX,
    }
}

fn wrapped_into(t: IntType, left: i128) -> i128
    ensures value { result ≡ wrapped t left }
    ensures same_residue { HasSameResidue t result left }
{
    match t {
        IntType::Signed(width) => {
            let modulus = power_of_two(width.bits);
            let residue = left.rem_euclid(modulus);
            if residue < power_of_two(width.bits - 1) {
                residue
            } else {
                residue - modulus
            }
        }
        IntType::Unsigned(width) => left.rem_euclid(power_of_two(width.bits)),
        IntType::Comptime => left,
    }
}

/// The answer for an exact result beyond a bound of the type, of which `left` is left in 128 bits.
fn answer_beyond(left: i128, bound: i128, t: IntType, mode: Mode) -> IntOut
    ensures { result ≡ beyond left bound t mode }
{
    match (t, mode) {
        (IntType::Comptime, _) | (_, Mode::Checked) => IntOut::Overflow,
        (_, Mode::Wrap) => IntOut::Value(wrapped_into(t, left)),
        (_, Mode::Saturate) => IntOut::Value(bound),
    }
}

/// The answer of an operation with this exact result.
#[tactic(auto, unfolding(crate::specs::IntOut::outcome))]
pub(crate) fn answer(exact: Exact, t: IntType, mode: Mode) -> IntOut
    ensures { (z : ℤ) → StandsFor exact z → result ≡ outcome z t mode }
{
    match exact {
        Exact::Inside(value) if value < lowest(t) => answer_beyond(value, lowest(t), t, mode),
        Exact::Inside(value) if highest(t) < value => answer_beyond(value, highest(t), t, mode),
        Exact::Inside(value) => IntOut::Value(value),
        Exact::Above(left) => answer_beyond(left, highest(t), t, mode),
        Exact::Below(left) => answer_beyond(left, lowest(t), t, mode),
    }
}
