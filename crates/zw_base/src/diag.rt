// Places in a file's text, and the diagnostics that name them.
ghost use Rattle.std.specs.Prelude.{◌≡◌};
ghost use Rattle.zw_base.specs.DiagCode.{code_name, code_text};

use crate::seq::Bytes;

/// A stretch of a file's text: from the byte `start` to before the byte `end`, counted from 0.
#[derive(Clone, Copy, Debug, PartialEq, Eq)]
pub struct Span {
    pub start: u32,
    pub end: u32,
}

/// What a diagnostic says, in the order of the codes.
#[derive(Clone, Copy, Debug, PartialEq, Eq, PartialOrd, Ord)]
pub enum DiagCode {
    /// E000: this form is not built yet.
    NotBuilt,
    /// E101: bad byte.
    BadByte,
    /// E102: bad escape.
    BadEscape,
    /// E103: string is not closed.
    OpenString,
    /// E104: bad number.
    BadNumber,
    /// E111: unexpected token.
    UnexpectedToken,
    /// E112: nested too deep.
    TooDeep,
    /// E121: root file is missing.
    RootMissing,
    /// E122: imported file is missing.
    ImportMissing,
    /// E123: the standard library is left out.
    StandardLibrary,
    /// E201: undeclared name.
    Undeclared,
    /// E202: name is already used.
    NameUsed,
    /// E203: name is never used.
    NeverUsed,
    /// E204: variable is never changed.
    NeverChanged,
    /// E205: nothing to leave here.
    NothingToLeave,
    /// E206: import needs a string literal.
    ImportNeedsString,
    /// E207: unknown builtin or wrong arguments.
    WrongBuiltin,
    /// E301: declarations depend on each other.
    DeclarationLoop,
    /// E302: too many units.
    TooManyUnits,
    /// E303: no such member.
    NoMember,
    /// E304: declaration is private.
    PrivateDeclaration,
    /// E305: types do not fit.
    TypesDoNotFit,
    /// E306: operator does not take these types.
    OperatorTypes,
    /// E307: value must be known at comptime.
    NotComptimeKnown,
    /// E308: integer does not fit its type.
    IntegerDoesNotFit,
    /// E309: comptime arithmetic overflows.
    ComptimeOverflow,
    /// E310: division by zero.
    DivisionByZero,
    /// E311: index is out of range.
    IndexOutOfRange,
    /// E312: comptime work is above the quota.
    AboveQuota,
    /// E313: comptime calls are too deep.
    CallsTooDeep,
    /// E314: switch is not exhaustive.
    NotExhaustive,
    /// E315: value stands twice.
    ValueTwice,
    /// E316: else is never reached.
    ElseUnreached,
    /// E317: wrong number of arguments.
    ArgumentCount,
    /// E318: not a function.
    NotAFunction,
    /// E319: fields do not fit.
    FieldsDoNotFit,
    /// E320: signed division needs a builtin.
    SignedDivision,
    /// E321: error is ignored.
    ErrorIgnored,
    /// E322: value is ignored.
    ValueIgnored,
    /// E323: function may end without a value.
    EndsWithoutValue,
    /// E324: assignment to a constant.
    AssignToConstant,
    /// E325: type is not allowed here.
    TypeNotAllowed,
    /// E326: the text that `@compileError` was given.
    CompileError,
    /// E327: name of a type is too long.
    NameTooLong,
    /// E328: too many elements.
    TooManyElements,
    /// E329: undefined value is used.
    UndefinedUsed,
    /// E331: a check fails at comptime.
    CheckFails,
    /// E332: result type is not known.
    ResultTypeUnknown,
    /// E333: type is too large.
    TypeTooLarge,
    /// E401: export name stands twice.
    ExportTwice,
    /// E402: data is too large.
    DataTooLarge,
    /// E403: module is too large.
    ModuleTooLarge,
    /// E404: function is too large.
    FunctionTooLarge,
}

impl DiagCode {
    /// The code as it is written, as `E101`.
    pub fn name(&self) -> &'static str
        ensures { result.now ≡ code_name self.now }
    {
        self.row().0
    }

    /// What the code says, in words. E326 has none of its own: its diagnostic carries the text.
    pub fn text(&self) -> &'static str
        ensures { result.now ≡ code_text self.now }
    {
        self.row().1
    }

    /// The row of the table of codes: the code as it is written, and what it says.
    fn row(&self) -> (&'static str, &'static str)
        ensures name { result.0.now ≡ code_name self.now }
        ensures text { result.1.now ≡ code_text self.now }
    {
        match self {
            DiagCode::NotBuilt => ("E000", "this form is not built yet"),
            DiagCode::BadByte => ("E101", "bad byte"),
            DiagCode::BadEscape => ("E102", "bad escape"),
            DiagCode::OpenString => ("E103", "string is not closed"),
            DiagCode::BadNumber => ("E104", "bad number"),
            DiagCode::UnexpectedToken => ("E111", "unexpected token"),
            DiagCode::TooDeep => ("E112", "nested too deep"),
            DiagCode::RootMissing => ("E121", "root file is missing"),
            DiagCode::ImportMissing => ("E122", "imported file is missing"),
            DiagCode::StandardLibrary => ("E123", "the standard library is left out"),
            DiagCode::Undeclared => ("E201", "undeclared name"),
            DiagCode::NameUsed => ("E202", "name is already used"),
            DiagCode::NeverUsed => ("E203", "name is never used"),
            DiagCode::NeverChanged => ("E204", "variable is never changed"),
            DiagCode::NothingToLeave => ("E205", "nothing to leave here"),
            DiagCode::ImportNeedsString => ("E206", "import needs a string literal"),
            DiagCode::WrongBuiltin => ("E207", "unknown builtin or wrong arguments"),
            DiagCode::DeclarationLoop => ("E301", "declarations depend on each other"),
            DiagCode::TooManyUnits => ("E302", "too many units"),
            DiagCode::NoMember => ("E303", "no such member"),
            DiagCode::PrivateDeclaration => ("E304", "declaration is private"),
            DiagCode::TypesDoNotFit => ("E305", "types do not fit"),
            DiagCode::OperatorTypes => ("E306", "operator does not take these types"),
            DiagCode::NotComptimeKnown => ("E307", "value must be known at comptime"),
            DiagCode::IntegerDoesNotFit => ("E308", "integer does not fit its type"),
            DiagCode::ComptimeOverflow => ("E309", "comptime arithmetic overflows"),
            DiagCode::DivisionByZero => ("E310", "division by zero"),
            DiagCode::IndexOutOfRange => ("E311", "index is out of range"),
            DiagCode::AboveQuota => ("E312", "comptime work is above the quota"),
            DiagCode::CallsTooDeep => ("E313", "comptime calls are too deep"),
            DiagCode::NotExhaustive => ("E314", "switch is not exhaustive"),
            DiagCode::ValueTwice => ("E315", "value stands twice"),
            DiagCode::ElseUnreached => ("E316", "else is never reached"),
            DiagCode::ArgumentCount => ("E317", "wrong number of arguments"),
            DiagCode::NotAFunction => ("E318", "not a function"),
            DiagCode::FieldsDoNotFit => ("E319", "fields do not fit"),
            DiagCode::SignedDivision => ("E320", "signed division needs a builtin"),
            DiagCode::ErrorIgnored => ("E321", "error is ignored"),
            DiagCode::ValueIgnored => ("E322", "value is ignored"),
            DiagCode::EndsWithoutValue => ("E323", "function may end without a value"),
            DiagCode::AssignToConstant => ("E324", "assignment to a constant"),
            DiagCode::TypeNotAllowed => ("E325", "type is not allowed here"),
            DiagCode::CompileError => ("E326", ""),
            DiagCode::NameTooLong => ("E327", "name of a type is too long"),
            DiagCode::TooManyElements => ("E328", "too many elements"),
            DiagCode::UndefinedUsed => ("E329", "undefined value is used"),
            DiagCode::CheckFails => ("E331", "a check fails at comptime"),
            DiagCode::ResultTypeUnknown => ("E332", "result type is not known"),
            DiagCode::TypeTooLarge => ("E333", "type is too large"),
            DiagCode::ExportTwice => ("E401", "export name stands twice"),
            DiagCode::DataTooLarge => ("E402", "data is too large"),
            DiagCode::ModuleTooLarge => ("E403", "module is too large"),
            DiagCode::FunctionTooLarge => ("E404", "function is too large"),
        }
    }
}

/// A diagnostic of one file, before its line and column are known.
#[derive(Debug, Drop)]
pub struct Found {
    pub code: DiagCode,
    pub span: Span,
    /// The text of E326, and else empty.
    pub text: Bytes,
}
