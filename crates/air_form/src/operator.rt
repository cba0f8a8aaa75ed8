// The operators of typed bodies, which code is made for one by one.

/// An operator on two integers of one type, with its overflow as its name says. Operators that are
/// one on every type of one signedness, as `/` on unsigned integers and `@divTrunc`, are one here
/// (Zig Language Reference 0.14, "Operators" and "Builtin Functions").
#[derive(Clone, Copy, Debug, PartialEq, Eq)]
pub enum BinOp {
    /// `+`, which traps on overflow.
    Add,
    /// `-`, which traps on overflow; also unary `-`, from 0.
    Subtract,
    /// `*`, which traps on overflow.
    Multiply,
    /// `+%`
    AddWrap,
    /// `-%`, also unary, from 0.
    SubtractWrap,
    /// `*%`
    MultiplyWrap,
    /// `+|`
    AddSaturate,
    /// `-|`
    SubtractSaturate,
    /// `*|`
    MultiplySaturate,
    /// `/` and `@divTrunc`: the quotient rounded toward zero.
    Divide,
    /// `@divFloor`: the quotient rounded down.
    DivideFloor,
    /// `%` and `@rem`: what is left has the sign of the numerator.
    Remainder,
    /// `@mod`: what is left has the sign of the denominator.
    Modulo,
    /// `&`
    BitAnd,
    /// `|`
    BitOr,
    /// `^`
    BitXor,
    /// `<<`; the amount is a `u32` or a `u64`, as wide as the left operand is held.
    ShiftLeft,
    /// `>>`; the amount is a `u32` or a `u64`, as wide as the left operand is held.
    ShiftRight,
    /// `@min`
    Min,
    /// `@max`
    Max,
}

/// An operator on one integer.
#[derive(Clone, Copy, Debug, PartialEq, Eq)]
pub enum UnOp {
    /// `~`
    Complement,
    /// `@clz`: how many zero bits stand above the highest one.
    LeadingZeros,
    /// `@ctz`: how many zero bits stand below the lowest one.
    TrailingZeros,
    /// `@popCount`: how many bits are one.
    CountOnes,
}

/// A comparison of two scalars of one type; only integers have an order.
#[derive(Clone, Copy, Debug, PartialEq, Eq)]
pub enum CmpOp {
    /// `==`
    Equal,
    /// `!=`
    NotEqual,
    /// `<`
    Less,
    /// `<=`
    LessOrEqual,
    /// `>`
    Greater,
    /// `>=`
    GreaterOrEqual,
}

/// A conversion from one integer type to another.
#[derive(Clone, Copy, Debug, PartialEq, Eq)]
pub enum Conversion {
    /// A coercion to at least as many bits of the same signedness.
    Widen,
    /// `@intCast`: traps where the value is lost.
    IntCast,
    /// `@truncate`: keeps the low bits.
    Truncate,
    /// `@bitCast`: the same bits in the other signedness.
    BitCast,
}
