// What holds at a place of a file.

/// What the next parts of a row are to their scope.
#[derive(Clone, Copy, Debug, PartialEq, Eq)]
pub enum Reading {
    /// Parts in the same scope.
    Plain,
    /// An atom begins, so an identifier is a mention.
    Atom,
    /// A label may lead a part.
    Labelled,
    /// The operands of an `if` or a loop, up to the closing parenthesis.
    Head,
    /// A part in which what bars bind is in scope, and which a loop's `break` leaves.
    Bound,
    /// What a `while` does after each turn.
    Turn,
    /// A function, or a test, whose block is to come.
    Function,
    /// Parameters; they are to be mentioned where the function has a body.
    Parameters { must: bool },
    /// What a `defer` or `errdefer` puts off.
    Deferred,
}

/// What `break` and `continue` may leave.
#[derive(Clone, Copy, Debug, PartialEq, Eq)]
pub enum Exit {
    /// A function, a container or a `defer`, which they don't leave.
    Wall,
    Loop(Option<u32>),
    /// A block with its label.
    Block(u32),
}

/// How the next parts of a row are read: whether they lie in a function, the node whose names are bound
/// for what is to come, and what the next loop or block is to leave.
#[derive(Clone, Copy, Debug)]
pub struct Context {
    pub reading: Reading,
    pub in_function: bool,
    pub bound: Option<u32>,
    pub next_exit: Option<Exit>,
}
