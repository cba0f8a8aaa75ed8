// What units of analysis give.
use crate::question::TextPart;
use crate::shared::Shared;
use air_form::Body;
use type_form::{Fields, Index};
use wasm_form::FnCode;
use zw_base::{Bytes, DiagCode};

/// What a diagnostic points at.
#[derive(Clone, Copy, Debug, PartialEq, Eq)]
pub enum Spot {
    /// A place in a part, in bytes from the part's first token.
    Within { part: TextPart, place: u32 },
    /// The name of the declaration with this index; of a block, the word `comptime`.
    Named(Index),
}

/// What is wrong with a unit. It names a part or a declaration, so that it stays as it is while
/// other text of the file moves.
#[derive(Debug, Drop)]
pub struct Diagnostic {
    pub spot: Spot,
    pub code: DiagCode,
    /// The text of `@compileError`, and else empty.
    pub text: Bytes,
}

/// What a unit gives that does not fail.
#[derive(Drop)]
pub enum UnitValue {
    /// Of the declaration of a constant or a function: the index of its value.
    Constant(Index),
    /// Of the declaration of a variable: the index of its initial value.
    Variable(Index),
    /// Of the body of an instance.
    Body(Body),
    /// Of the inferred error set of an instance: the index of the list of its names.
    ErrorSet(Index),
    /// Of the fields of a container.
    Fields(Fields),
    /// Of the code of an instance.
    Code(FnCode),
    /// Of a block that is evaluated at comptime.
    Nothing,
}

/// The result of a unit. What is good is shared with who asks for it.
#[derive(Drop)]
pub enum UnitResult {
    Good(Shared<UnitValue>),
    /// With a diagnostic, or without one where an answer failed it.
    Failed(Option<Diagnostic>),
}
