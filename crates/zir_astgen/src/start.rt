// What stands before a part's first token.

/// What stands before a part's first token.
#[derive(Clone, Copy, Debug, PartialEq, Eq)]
pub enum Start {
    /// Nothing.
    Plain,
    /// The head of the function whose body the part is.
    Function,
}
