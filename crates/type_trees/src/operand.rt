// Operands of the forms of the language, over indices.
use type_form::Index;

/// What a form takes or gives.
#[derive(Clone, Copy, Debug, PartialEq, Eq)]
pub enum Operand {
    /// A value that is known at comptime.
    Known(Index),
    /// What the code computes: its type, and the node of the typed body, an expression or a place.
    Run { ty: Index, at: u64 },
}
