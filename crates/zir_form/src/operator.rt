// Operators, by what they are written as.

/// An operator between two operands that are both met (Zig Language Reference 0.14, "Operators").
#[derive(Clone, Copy, Debug, PartialEq, Eq)]
pub enum BinaryOperator {
    /// `+`
    Add,
    /// `+%`
    AddWrap,
    /// `+|`
    AddSaturate,
    /// `-`
    Subtract,
    /// `-%`
    SubtractWrap,
    /// `-|`
    SubtractSaturate,
    /// `*`
    Multiply,
    /// `*%`
    MultiplyWrap,
    /// `*|`
    MultiplySaturate,
    /// `/`
    Divide,
    /// `%`
    Remainder,
    /// `++`
    Concatenate,
    /// `**`
    Repeat,
    /// `||`
    MergeErrors,
    /// `<<`
    ShiftLeft,
    /// `<<|`
    ShiftLeftSaturate,
    /// `>>`
    ShiftRight,
    /// `&`
    BitAnd,
    /// `^`
    BitXor,
    /// `|`
    BitOr,
    /// `==`
    Equal,
    /// `!=`
    NotEqual,
    /// `<`
    Less,
    /// `<=`
    LessOrEqual,
    /// `>`
    Greater,
    /// `>=`
    GreaterOrEqual,
}

/// An operator before its operand, but `&` and `try`.
#[derive(Clone, Copy, Debug, PartialEq, Eq)]
pub enum UnaryOperator {
    /// `!`
    Not,
    /// `-`
    Negate,
    /// `-%`
    NegateWrap,
    /// `~`
    Complement,
}
