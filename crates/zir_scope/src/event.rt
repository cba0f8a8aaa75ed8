// What scoping finds in a file, in the order of the text.

/// What a name stands for.
#[derive(Clone, Copy, Debug, PartialEq, Eq)]
pub enum Target {
    /// A local, a parameter or a capture, by the token that declares it.
    Local(u32),
    /// A declaration of the enclosing container whose members this token begins.
    Declared(u32),
    /// A primitive type or value.
    Primitive,
    /// Nothing.
    Unknown,
}

/// What a name that is declared owes.
#[derive(Clone, Copy, Debug, PartialEq, Eq)]
pub enum Sort {
    /// A parameter of a function without a body owes nothing.
    Given,
    /// A constant, a parameter or a capture is to be mentioned.
    Constant,
    /// A variable is to be mentioned and changed.
    Variable,
}

/// What stands at a token.
#[derive(Clone, Copy, Debug, PartialEq, Eq)]
pub enum Event {
    /// A name is mentioned.
    Mentions { token: u32, target: Target },
    /// The local that this token declares may be changed here.
    Changes { local: u32 },
    /// A local, a parameter or a capture is declared.
    Declares { token: u32, sort: Sort },
    /// A name is declared that is used already.
    Repeats { token: u32 },
    /// A `break`, `continue`, `return` or `try` has nothing to leave.
    Strays { token: u32 },
    /// A container begins, at its keyword.
    Opens { token: u32 },
    /// The innermost container ends.
    Closes,
}
