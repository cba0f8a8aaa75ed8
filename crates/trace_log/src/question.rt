// What units of analysis ask, by indices of an interner.
use type_form::Index;

/// A part of a file, whose text is asked for. Its places are counted from its first token.
#[derive(Clone, Copy, Debug, PartialEq, Eq)]
pub enum TextPart {
    /// The head of a function, by the index of its declaration.
    Head(Index),
    /// The whole text of a function, a constant or a variable, by the index of its declaration.
    Whole(Index),
    /// The fields of a container, by the index of its type.
    Fields(Index),
    /// The top-level `comptime` block of this number, from 0, in the file with this path, which is
    /// the index of a list of bytes.
    Block { file: Index, number: u32 },
}

/// A unit of analysis, by the indices of what it is a unit of.
#[derive(Clone, Copy, Debug, PartialEq, Eq)]
pub enum UnitIndex {
    /// A declaration.
    Decl(Index),
    /// The typed body of an instance.
    Body(Index),
    /// The inferred error set of an instance.
    ErrorSet(Index),
    /// The fields of a container or a file, by the index of its type.
    Fields(Index),
    /// The code of an instance.
    Code(Index),
    /// The top-level `comptime` block of this number, from 0, in the file with this path, which is
    /// the index of a list of bytes.
    Comptime { file: Index, number: u32 },
}

/// What a unit asks. Its answers alone say what it does next.
#[derive(Clone, Copy, Debug, PartialEq, Eq)]
pub enum Question {
    /// The core tree of a part.
    Text(TextPart),
    /// The declaration that a container or a file, by the index of its type, has by a name, which
    /// is the index of a list of bytes.
    Name { container: Index, name: Index },
    /// What the file with this path exports, and how many top-level blocks it has; the path is the
    /// index of a list of bytes.
    Import(Index),
    /// The result of a unit.
    Result(UnitIndex),
}
