// What lies around a place of a part, and how the row that it lies in is read.

/// What a `break`, a `continue` or a `return` goes out of.
#[derive(Clone, Copy, Debug, PartialEq, Eq)]
pub enum Layer {
    /// A function, whose `return` ends here.
    Function,
    /// What a `defer` or `errdefer` puts off: nothing around it is left from within.
    Wall,
    /// A loop, with its label if it has one.
    Loop(Option<u32>),
    /// A block with a label.
    Labelled(u32),
    /// A block without one.
    Block,
}

/// How the next parts of a row are read.
#[derive(Clone, Copy, Debug, PartialEq, Eq)]
pub enum Stage {
    /// Parts in a row.
    Plain,
    /// A label may lead the row.
    Lead,
    /// The next part has this label.
    Label(u32),
    /// The operands of a loop with this label, up to the closing parenthesis.
    Head(Option<u32>),
    /// A part is to come that is the body of a loop.
    Bound(Option<u32>),
    /// What a `while` does after each turn.
    Turn(Option<u32>),
    /// What a `defer` or `errdefer` puts off is to come.
    Deferred,
    /// The body of a function is to come.
    Function,
}
