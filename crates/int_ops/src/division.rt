// Quotients and remainders. The least number over -1 is the one quotient beyond 128 bits.
ghost use Rattle.std.specs.Prelude.{◌≡◌, ◌≢◌, ◌<◌, ◌+ℤ◌, ◌*ℤ◌, pos, unsigned_abs, int_div, int_rem};
ghost use Rattle.int_ops.specs.Exact.{StandsFor};
ghost use Rattle.int_ops.specs.Division.{int_floor_div, int_modulo, has_other_sign, HasSignOf};

use crate::exact::{Exact, exact_difference};

/// The quotient rounded toward zero.
pub(crate) fn exact_quotient(a: i128, b: i128) -> Exact
    requires { b ≢ pos 0 }
    ensures { StandsFor result (int_div a b) }
{
    if b == -1 {
        exact_difference(0, a)
    } else {
        Exact::Inside(a / b)
    }
}

/// What the quotient rounded toward zero leaves, with the numerator's sign.
pub(crate) fn remainder(a: i128, b: i128) -> i128
    requires { b ≢ pos 0 }
    ensures value { result ≡ int_rem a b }
    ensures split { int_div a b *ℤ b +ℤ result ≡ a }
    ensures small { unsigned_abs result < unsigned_abs b }
    ensures sign { HasSignOf a result }
{
    a.wrapping_rem(b)
}

/// The remainder is not 0, and its sign is not that of b.
fn has_other_sign(remainder: i128, b: i128) -> bool
    ensures { result ≡ has_other_sign remainder b }
{
    remainder != 0 && (remainder < 0) != (b < 0)
}

/// The quotient rounded down.
pub(crate) fn exact_floor(a: i128, b: i128) -> Exact
    requires { b ≢ pos 0 }
    ensures { StandsFor result (int_floor_div a b) }
{
    if b == -1 {
        exact_difference(0, a)
    } else {
        let toward_zero = a / b;
        if has_other_sign(a % b, b) {
            Exact::Inside(toward_zero - 1)
        } else {
            Exact::Inside(toward_zero)
        }
    }
}

/// What the quotient rounded down leaves, with the denominator's sign.
pub(crate) fn floor_remainder(a: i128, b: i128) -> i128
    requires { b ≢ pos 0 }
    ensures value { result ≡ int_modulo a b }
    ensures split { int_floor_div a b *ℤ b +ℤ result ≡ a }
    ensures small { unsigned_abs result < unsigned_abs b }
    ensures sign { HasSignOf b result }
{
    let remainder = a.wrapping_rem(b);
    if has_other_sign(remainder, b) {
        remainder + b
    } else {
        remainder
    }
}
