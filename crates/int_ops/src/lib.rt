// Exact arithmetic on the integers of the language, as comptime evaluation, coercion and code
// templates use it.
//
// The model is an exact result over the integers, of operands that are any i128, and what its type
// and mode make of it: `outcome z t mode` of specs/IntOut.antt is z where it is a value of t, and
// else what the mode says. Nothing here takes memory.
//
// The calls are `add`, `sub`, `mul`, `div_trunc`, `div_floor`, `rem`, `modulo`, `shl`, `shr`,
// `bit_and`, `bit_or` and `bit_xor`, over `IntType`, `BitWidth` and `Mode`. Each answers an `IntOut`.
// The crate stands on std alone.
#![tactic(auto)]

ghost use Rattle.std.specs.Prelude.{◌≡◌, ◌≢◌, ◌↔◌, ◌+ℤ◌, ◌-ℤ◌, ◌*ℤ◌, ◌^◌, pos, unsigned_abs, int_div, int_rem};
ghost use Rattle.int_ops.specs.Division.{floor_by, int_floor_div, int_modulo};
ghost use Rattle.int_ops.specs.Bits.{int_and, int_or, int_xor};
ghost use Rattle.int_ops.specs.IntOut.{outcome, Overflows, unless_zero, unless_bad_shift, IsBadShift, IsAnswerIn};

mod bits;
mod division;
mod exact;
mod range;
mod shift;
mod types;
mod width;

use division::{exact_floor, exact_quotient, floor_remainder, remainder};
use exact::{Exact, exact_difference, exact_product, exact_sum};
use range::answer;
pub use range::power_of_two;
use shift::{doubled_far, halved, is_bad_shift};
pub use types::{IntOut, IntType, Mode};
pub use width::BitWidth;

/// a + b.
pub fn add(a: i128, b: i128, t: IntType, mode: Mode) -> IntOut
    ensures exact { result ≡ outcome (a +ℤ b) t mode }
    ensures in_range { IsAnswerIn t result }
    ensures overflow { (result ≡ IntOut.Overflow) ↔ Overflows (a +ℤ b) t mode }
{
    answer(exact_sum(a, b), t, mode)
}

/// a - b.
pub fn sub(a: i128, b: i128, t: IntType, mode: Mode) -> IntOut
    ensures exact { result ≡ outcome (a -ℤ b) t mode }
    ensures in_range { IsAnswerIn t result }
    ensures overflow { (result ≡ IntOut.Overflow) ↔ Overflows (a -ℤ b) t mode }
{
    answer(exact_difference(a, b), t, mode)
}

/// a * b.
pub fn mul(a: i128, b: i128, t: IntType, mode: Mode) -> IntOut
    ensures exact { result ≡ outcome (a *ℤ b) t mode }
    ensures in_range { IsAnswerIn t result }
    ensures overflow { (result ≡ IntOut.Overflow) ↔ Overflows (a *ℤ b) t mode }
{
    answer(exact_product(a, b), t, mode)
}

/// a / b, rounded toward zero.
pub fn div_trunc(a: i128, b: i128, t: IntType, mode: Mode) -> IntOut
    ensures exact { result ≡ unless_zero b (outcome (int_div a b) t mode) }
    ensures in_range { IsAnswerIn t result }
    ensures div_by_zero { (result ≡ IntOut.DivByZero) ↔ (b ≡ pos 0) }
    ensures overflow { (result ≡ IntOut.Overflow) ↔ ((b ≢ pos 0) × Overflows (int_div a b) t mode) }
{
    if b == 0 {
        IntOut::DivByZero
    } else {
        answer(exact_quotient(a, b), t, mode)
    }
}

/// a / b, rounded down.
pub fn div_floor(a: i128, b: i128, t: IntType, mode: Mode) -> IntOut
    ensures exact { result ≡ unless_zero b (outcome (int_floor_div a b) t mode) }
    ensures in_range { IsAnswerIn t result }
    ensures div_by_zero { (result ≡ IntOut.DivByZero) ↔ (b ≡ pos 0) }
    ensures overflow { (result ≡ IntOut.Overflow) ↔ ((b ≢ pos 0) × Overflows (int_floor_div a b) t mode) }
{
    if b == 0 {
        IntOut::DivByZero
    } else {
        answer(exact_floor(a, b), t, mode)
    }
}

/// What `div_trunc` leaves of a: 0, or a number with the sign of a.
pub fn rem(a: i128, b: i128, t: IntType, mode: Mode) -> IntOut
    ensures exact { result ≡ unless_zero b (outcome (int_rem a b) t mode) }
    ensures in_range { IsAnswerIn t result }
    ensures div_by_zero { (result ≡ IntOut.DivByZero) ↔ (b ≡ pos 0) }
    ensures overflow { (result ≡ IntOut.Overflow) ↔ ((b ≢ pos 0) × Overflows (int_rem a b) t mode) }
{
    if b == 0 {
        IntOut::DivByZero
    } else {
        answer(Exact::Inside(remainder(a, b)), t, mode)
    }
}

/// What `div_floor` leaves of a: 0, or a number with the sign of b, also where b is negative.
pub fn modulo(a: i128, b: i128, t: IntType, mode: Mode) -> IntOut
    ensures exact { result ≡ unless_zero b (outcome (int_modulo a b) t mode) }
    ensures in_range { IsAnswerIn t result }
    ensures div_by_zero { (result ≡ IntOut.DivByZero) ↔ (b ≡ pos 0) }
    ensures overflow { (result ≡ IntOut.Overflow) ↔ ((b ≢ pos 0) × Overflows (int_modulo a b) t mode) }
{
    if b == 0 {
        IntOut::DivByZero
    } else {
        answer(Exact::Inside(floor_remainder(a, b)), t, mode)
    }
}

/// a * 2^b. An amount that is not below the width is BadShift, also where the result would overflow.
pub fn shl(a: i128, b: i128, t: IntType, mode: Mode) -> IntOut
    ensures exact { result ≡ unless_bad_shift b t (outcome (a *ℤ pos (2 ^ unsigned_abs b)) t mode) }
    ensures in_range { IsAnswerIn t result }
    ensures bad_shift { (result ≡ IntOut.BadShift) ↔ IsBadShift b t }
    ensures overflow { (result ≡ IntOut.Overflow) ↔ ((¬ IsBadShift b t) × Overflows (a *ℤ pos (2 ^ unsigned_abs b)) t mode) }
{
    if is_bad_shift(b, t) {
        return IntOut::BadShift;
    }
    if b < 127 {
        answer(exact_product(a, power_of_two(b as u32)), t, mode)
    } else {
        doubled_far(a, b)
    }
}

/// a / 2^b, rounded down, so that the sign stays.
pub fn shr(a: i128, b: i128, t: IntType, mode: Mode) -> IntOut
    ensures exact { result ≡ unless_bad_shift b t (outcome (floor_by a (2 ^ unsigned_abs b)) t mode) }
    ensures in_range { IsAnswerIn t result }
    ensures bad_shift { (result ≡ IntOut.BadShift) ↔ IsBadShift b t }
    ensures overflow { (result ≡ IntOut.Overflow) ↔ ((¬ IsBadShift b t) × Overflows (floor_by a (2 ^ unsigned_abs b)) t mode) }
{
    if is_bad_shift(b, t) {
        IntOut::BadShift
    } else {
        answer(Exact::Inside(halved(a, b)), t, mode)
    }
}

/// The bits that are set in both.
pub fn bit_and(a: i128, b: i128, t: IntType, mode: Mode) -> IntOut
    ensures exact { result ≡ outcome (int_and a b) t mode }
    ensures in_range { IsAnswerIn t result }
    ensures overflow { (result ≡ IntOut.Overflow) ↔ Overflows (int_and a b) t mode }
{
    answer(Exact::Inside(bits::and(a, b)), t, mode)
}

/// The bits that are set in one or in both.
pub fn bit_or(a: i128, b: i128, t: IntType, mode: Mode) -> IntOut
    ensures exact { result ≡ outcome (int_or a b) t mode }
    ensures in_range { IsAnswerIn t result }
    ensures overflow { (result ≡ IntOut.Overflow) ↔ Overflows (int_or a b) t mode }
{
    answer(Exact::Inside(bits::or(a, b)), t, mode)
}

/// The bits that are set in just one.
pub fn bit_xor(a: i128, b: i128, t: IntType, mode: Mode) -> IntOut
    ensures exact { result ≡ outcome (int_xor a b) t mode }
    ensures in_range { IsAnswerIn t result }
    ensures overflow { (result ≡ IntOut.Overflow) ↔ Overflows (int_xor a b) t mode }
{
    answer(Exact::Inside(bits::xor(a, b)), t, mode)
}

#[cfg(test)]
mod tests;
