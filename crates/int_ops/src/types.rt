// The types of integers, and what a call is asked and answers.
use crate::width::BitWidth;

/// A type of integers.
#[derive(Clone, Copy, PartialEq, Eq, Debug)]
pub enum IntType {
    /// Two's complement of this many bits.
    Signed(BitWidth),
    /// The naturals of this many bits.
    Unsigned(BitWidth),
    /// The integers of compile time, from -2^127 to 2^127 - 1. They have no width.
    Comptime,
}

/// What becomes of an exact result that is no value of a type with a width.
#[derive(Clone, Copy, PartialEq, Eq, Debug)]
pub enum Mode {
    /// It is refused.
    Checked,
    /// The value of the type that differs from it by a multiple of 2^width.
    Wrap,
    /// The value of the type that is nearest to it.
    Saturate,
}

/// The answer of an operation.
#[derive(Clone, Copy, PartialEq, Eq, Debug)]
pub enum IntOut {
    /// The exact result, or what the mode makes of it. It is a value of the type.
    Value(i128),
    /// The exact result is out of range, and the mode is Checked or the type is the comptime one.
    Overflow,
    /// The divisor is 0.
    DivByZero,
    /// The amount of the shift is below 0, or not below the width of the type.
    BadShift,
}
