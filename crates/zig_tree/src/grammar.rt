// The grammar of Zig's text as data: its rules, each a list of alternatives that are parts in a row.
ghost use Rattle.std.specs.Prelude.{◌≡◌, map};
ghost use Rattle.zig_tree.specs.Grammar.{holds};
ghost use Rattle.zig_tree.specs.Kinds.{has_kind, is_class, is_group, is_kind, is_part, is_rule, number_of, number_of_class, number_of_group, number_of_rule};
ghost use Rattle.zig_tree.specs.Kinds as spec;

use crate::token::TokenKind;

/// A rule of the grammar, which makes a node of the tree (Zig Language Reference 0.14, "Grammar").
#[derive(Clone, Copy, Debug, PartialEq, Eq)]
pub enum Rule {
    /// The whole file.
    Root,
    /// A declaration, or a field with the comma after it.
    Member,
    /// A field of a container.
    Field,
    /// A declaration.
    Declaration,
    /// A constant or a variable.
    Variable,
    /// The head of a function.
    Prototype,
    /// A function with its body.
    Function,
    /// A parameter of a function.
    Parameter,
    /// Statements in braces.
    Block,
    /// A statement.
    Statement,
    /// A statement that declares nothing.
    Body,
    /// An `if` as a statement.
    IfStatement,
    /// A `while` as a statement.
    WhileStatement,
    /// A `for` as a statement.
    ForStatement,
    /// The parts of an `if`, `while` or `for` that is a statement.
    Rest,
    /// An operand of a `for`.
    ForArgument,
    /// The names that a `for` binds.
    Captures,
    /// A captured name in bars.
    Capture,
    /// A captured name.
    Name,
    /// An assignment, or an expression alone.
    Assignment,
    /// An expression, whose loosest operator is `or`.
    Or,
    /// Operands of `and`.
    And,
    /// A comparison.
    Compare,
    /// Operands of `&`, `^`, `|`, `orelse` and `catch`.
    Bit,
    /// Operands of shifts.
    Shift,
    /// Operands at the level of `+`.
    Add,
    /// Operands at the level of `*`.
    Multiply,
    /// An operand with the operators before it.
    Prefix,
    /// An operand.
    Primary,
    /// An `if` as an expression.
    IfExpression,
    /// A `while` as an expression.
    WhileExpression,
    /// A `for` as an expression.
    ForExpression,
    /// The parts of an `if`, `while` or `for` that is an expression.
    RestExpression,
    /// A type, or an operand that is no operator's.
    TypeExpression,
    /// An optional, a pointer, a slice or an array before its type.
    TypePrefix,
    /// An atom with what is asked of it.
    Suffix,
    /// An atom.
    Atom,
    /// The values of a container in braces.
    Initializer,
    /// A struct, an enum or a union.
    Container,
    /// Members in braces.
    ContainerBody,
    /// A switch.
    Switch,
    /// A prong of a switch.
    Prong,
    /// A value or a range of a prong.
    Item,
}

/// A piece of a rule that is repeated, left out or chosen, and makes no node.
#[derive(Clone, Copy, Debug, PartialEq, Eq)]
pub enum Group {
    /// Members of a file, which are declarations.
    RootMembers,
    /// Members of a container.
    Members,
    /// After a field stands a comma, or the brace that closes its container.
    FieldEnd,
    /// A declared type, where there is one.
    TypeOption,
    /// A value, where there is one.
    ValueOption,
    /// A string, where there is one.
    StringOption,
    /// `pub`, where it stands.
    PubOption,
    /// What a declaration declares.
    Declared,
    /// Parameters, parted by commas, with one at the end or not.
    Parameters,
    /// What follows a parameter.
    MoreParameters,
    /// `!`, where it stands.
    BangOption,
    /// `comptime`, where it stands.
    ComptimeOption,
    /// The type of a parameter.
    ParameterType,
    /// Statements of a block.
    Statements,
    /// What `comptime` leads in a statement.
    ComptimeStatement,
    /// What a label leads in a statement.
    LabelledStatement,
    /// What a `while` does after each turn, where it is given.
    ContinueOption,
    /// What follows an operand of a `for`.
    MoreForArguments,
    /// Further operands of a `for`.
    ForArguments,
    /// `else` after a block, where it stands.
    ElseOption,
    /// What ends a part that is no block.
    RestEnd,
    /// The end of a range, where there is one.
    RangeOption,
    /// An expression, where there is one.
    ExpressionOption,
    /// What follows a captured name.
    MoreCaptures,
    /// Further captured names.
    FurtherCaptures,
    /// `*` before a captured name, where it stands.
    PointerOption,
    /// A capture, where there is one.
    CaptureOption,
    /// The operator and the value of an assignment, where they stand.
    AssignTail,
    /// Further operands of `or`.
    OrTail,
    /// Further operands of `and`.
    AndTail,
    /// The other side of a comparison.
    CompareTail,
    /// Further operands at the level of `&`.
    BitTail,
    /// Further operands of shifts.
    ShiftTail,
    /// Further operands at the level of `+`.
    AddTail,
    /// Further operands at the level of `*`.
    MultiplyTail,
    /// Further operators before an operand.
    MorePrefixes,
    /// What a label leads in an expression.
    LabelledExpression,
    /// The label that is left or gone on with, where it is named.
    BreakLabel,
    /// The values of a container, where they stand after its type.
    InitializerOption,
    /// `else` in an expression, where it stands.
    ElseExpression,
    /// Further prefixes of a type.
    MoreTypePrefixes,
    /// The type of the value behind an error set, where it stands.
    BangTypeOption,
    /// `const`, where it stands.
    ConstOption,
    /// The rest of a prefix that begins with a bracket.
    BracketPrefix,
    /// What is asked of an atom.
    SuffixTail,
    /// Expressions, parted by commas, with one at the end or not.
    Arguments,
    /// What follows an expression of a list.
    MoreArguments,
    /// What follows the dot of an atom.
    DotAtom,
    /// What follows `error`.
    ErrorAtom,
    /// Names of errors, parted by commas, with one at the end or not.
    ErrorNames,
    /// What follows the name of an error.
    MoreErrorNames,
    /// The values of a container, with names or without.
    InitializerBody,
    /// What follows a value with a name.
    MoreFields,
    /// Further values with names.
    FurtherFields,
    /// The tag type of an enum, where it is given.
    TagOption,
    /// The tag of a union.
    UnionTag,
    /// Prongs of a switch, parted by commas, with one at the end or not.
    Prongs,
    /// What follows a prong.
    MoreProngs,
    /// The values that a prong takes.
    ProngHead,
    /// What follows a value of a prong.
    MoreItems,
    /// Further values of a prong.
    Items,
    /// The end of a range of a prong, where there is one.
    ItemRange,
    /// The names of an error set, in braces.
    ErrorBraces,
    /// The prongs of a switch, in braces.
    SwitchBraces,
}

/// A set of kinds of token.
#[derive(Clone, Copy, Debug, PartialEq, Eq)]
pub enum TokenClass {
    /// `const` or `var`.
    ConstOrVar,
    /// A name or the bare `_`.
    NameWord,
    /// `=` or a binary operator with `=`.
    AssignOperator,
    /// A comparison.
    CompareOperator,
    /// An operator of the level of `&`, but `catch`.
    BitOperator,
    /// A shift.
    ShiftOperator,
    /// An operator of the level of `+`.
    AddOperator,
    /// An operator of the level of `*`.
    MultiplyOperator,
    /// An operator before its operand.
    PrefixOperator,
    /// `*` or `**` before a type.
    PointerMark,
    /// A token that is an atom by itself.
    AtomWord,
    /// What begins a container.
    ContainerWord,
    /// What begins a captured name.
    CaptureStart,
    /// What begins a parameter.
    ParameterStart,
    /// What begins a prefix of a type.
    TypePrefixStart,
    /// A word, or the brace, that begins an operand.
    OperandWord,
    /// What begins a statement and no expression.
    StatementWord,
    /// What begins a type.
    TypeStart,
    /// What begins an expression.
    ExpressionStart,
    /// What begins a statement.
    StatementStart,
    /// What begins a prong of a switch.
    ProngStart,
    /// What begins a declaration.
    DeclarationStart,
    /// What begins a member of a container.
    MemberStart,
}

/// What stands in an alternative.
#[derive(Clone, Copy, Debug, PartialEq, Eq)]
pub enum Part {
    /// A token of this kind.
    Token(TokenKind),
    /// A token of a kind of this class.
    OneOf(TokenClass),
    /// Tokens that a rule derives.
    Rule(Rule),
    /// Tokens that a group derives.
    Group(Group),
}

/// The next tokens at which an alternative is taken.
#[derive(Clone, Copy, Debug, PartialEq, Eq)]
pub enum When {
    /// At any token.
    Always,
    /// At a token of this kind.
    Is(TokenKind),
    /// At a token of a kind of this class.
    In(TokenClass),
    /// At a name before a colon.
    Label,
    /// At a token of this kind, at which the next alternative that may be taken is tried as well.
    Both(TokenKind),
}

/// An alternative of a rule or a group.
#[derive(Clone, Copy, Debug)]
pub struct Production {
    /// The next tokens at which it is taken. Of a rule's alternatives the first such one is.
    pub when: When,
    /// What it consists of, in order.
    pub parts: &'static [Part],
}

/// Where a kind of token stands in the list of kinds, from 0.
#[tactic(auto, unfolding(crate::specs::Kinds::number_of))]
fn number(kind: TokenKind) -> u8
    ensures { result ≡ number_of kind }
{
    kind as u8
}

/// Whether two kinds of token are the same.
pub fn same_kind(a: TokenKind, b: TokenKind) -> bool
    ensures { result ≡ is_kind a b }
{
    number(a) == number(b)
}

/// Where a rule stands in the list of them, from 0.
#[tactic(auto, unfolding(crate::specs::Kinds::number_of_rule))]
fn rule_number(rule: Rule) -> u8
    ensures { result ≡ number_of_rule rule }
{
    rule as u8
}

/// Where a group stands in the list of them, from 0.
#[tactic(auto, unfolding(crate::specs::Kinds::number_of_group))]
fn group_number(group: Group) -> u8
    ensures { result ≡ number_of_group group }
{
    group as u8
}

/// Where a class stands in the list of them, from 0.
#[tactic(auto, unfolding(crate::specs::Kinds::number_of_class))]
fn class_number(class: TokenClass) -> u8
    ensures { result ≡ number_of_class class }
{
    class as u8
}

/// Whether two rules are the same.
pub fn same_rule(a: Rule, b: Rule) -> bool
    ensures { result ≡ is_rule a b }
{
    rule_number(a) == rule_number(b)
}

/// Whether two groups are the same.
fn same_group(a: Group, b: Group) -> bool
    ensures { result ≡ is_group a b }
{
    group_number(a) == group_number(b)
}

/// Whether two classes are the same.
fn same_class(a: TokenClass, b: TokenClass) -> bool
    ensures { result ≡ is_class a b }
{
    class_number(a) == class_number(b)
}

/// Whether two parts of alternatives are the same.
pub fn same_part(a: Part, b: Part) -> bool
    ensures { result ≡ is_part a b }
{
    match a {
        Part::Token(x) => match b {
            Part::Token(y) => same_kind(x, y),
            _ => false,
        },
        Part::OneOf(x) => match b {
            Part::OneOf(y) => same_class(x, y),
            _ => false,
        },
        Part::Rule(x) => match b {
            Part::Rule(y) => same_rule(x, y),
            _ => false,
        },
        Part::Group(x) => match b {
            Part::Group(y) => same_group(x, y),
            _ => false,
        },
    }
}

/// `const` or `var`.
#[tactic(auto, unfolding(crate::specs::Kinds::is_const_or_var))]
fn is_const_or_var(kind: TokenKind) -> bool
    ensures { result ≡ spec.is_const_or_var kind }
{
    matches!(kind, TokenKind::KeywordConst | TokenKind::KeywordVar)
}

/// A name or the bare `_`.
#[tactic(auto, unfolding(crate::specs::Kinds::is_name_word))]
fn is_name_word(kind: TokenKind) -> bool
    ensures { result ≡ spec.is_name_word kind }
{
    matches!(kind, TokenKind::Identifier | TokenKind::Underscore)
}

/// `=` or a binary operator with `=`.
#[tactic(auto, unfolding(crate::specs::Kinds::is_assign_operator))]
fn is_assign_operator(kind: TokenKind) -> bool
    ensures { result ≡ spec.is_assign_operator kind }
{
    matches!(
        kind,
        TokenKind::Equal
            | TokenKind::PlusEqual
            | TokenKind::PlusPercentEqual
            | TokenKind::PlusPipeEqual
            | TokenKind::MinusEqual
            | TokenKind::MinusPercentEqual
            | TokenKind::MinusPipeEqual
            | TokenKind::AsteriskEqual
            | TokenKind::AsteriskPercentEqual
            | TokenKind::AsteriskPipeEqual
            | TokenKind::SlashEqual
            | TokenKind::PercentEqual
            | TokenKind::AmpersandEqual
            | TokenKind::CaretEqual
            | TokenKind::PipeEqual
            | TokenKind::AngleLeftAngleLeftEqual
            | TokenKind::AngleLeftAngleLeftPipeEqual
            | TokenKind::AngleRightAngleRightEqual
    )
}

/// A comparison.
#[tactic(auto, unfolding(crate::specs::Kinds::is_compare_operator))]
fn is_compare_operator(kind: TokenKind) -> bool
    ensures { result ≡ spec.is_compare_operator kind }
{
    matches!(
        kind,
        TokenKind::EqualEqual
            | TokenKind::BangEqual
            | TokenKind::AngleLeft
            | TokenKind::AngleLeftEqual
            | TokenKind::AngleRight
            | TokenKind::AngleRightEqual
    )
}

/// An operator of the level of `&`, but `catch`.
#[tactic(auto, unfolding(crate::specs::Kinds::is_bit_operator))]
fn is_bit_operator(kind: TokenKind) -> bool
    ensures { result ≡ spec.is_bit_operator kind }
{
    matches!(
        kind,
        TokenKind::Ampersand | TokenKind::Caret | TokenKind::Pipe | TokenKind::KeywordOrelse
    )
}

/// A shift.
#[tactic(auto, unfolding(crate::specs::Kinds::is_shift_operator))]
fn is_shift_operator(kind: TokenKind) -> bool
    ensures { result ≡ spec.is_shift_operator kind }
{
    matches!(
        kind,
        TokenKind::AngleLeftAngleLeft
            | TokenKind::AngleRightAngleRight
            | TokenKind::AngleLeftAngleLeftPipe
    )
}

/// An operator of the level of `+`.
#[tactic(auto, unfolding(crate::specs::Kinds::is_add_operator))]
fn is_add_operator(kind: TokenKind) -> bool
    ensures { result ≡ spec.is_add_operator kind }
{
    matches!(
        kind,
        TokenKind::Plus
            | TokenKind::Minus
            | TokenKind::PlusPlus
            | TokenKind::PlusPercent
            | TokenKind::MinusPercent
            | TokenKind::PlusPipe
            | TokenKind::MinusPipe
    )
}

/// An operator of the level of `*`.
#[tactic(auto, unfolding(crate::specs::Kinds::is_multiply_operator))]
fn is_multiply_operator(kind: TokenKind) -> bool
    ensures { result ≡ spec.is_multiply_operator kind }
{
    matches!(
        kind,
        TokenKind::Asterisk
            | TokenKind::Slash
            | TokenKind::Percent
            | TokenKind::AsteriskAsterisk
            | TokenKind::AsteriskPercent
            | TokenKind::AsteriskPipe
            | TokenKind::PipePipe
    )
}

/// An operator before its operand.
#[tactic(auto, unfolding(crate::specs::Kinds::is_prefix_operator))]
fn is_prefix_operator(kind: TokenKind) -> bool
    ensures { result ≡ spec.is_prefix_operator kind }
{
    matches!(
        kind,
        TokenKind::Bang
            | TokenKind::Minus
            | TokenKind::MinusPercent
            | TokenKind::Tilde
            | TokenKind::Ampersand
            | TokenKind::KeywordTry
    )
}

/// `*` or `**` before a type.
#[tactic(auto, unfolding(crate::specs::Kinds::is_pointer_mark))]
fn is_pointer_mark(kind: TokenKind) -> bool
    ensures { result ≡ spec.is_pointer_mark kind }
{
    matches!(kind, TokenKind::Asterisk | TokenKind::AsteriskAsterisk)
}

/// A token that is an atom by itself.
#[tactic(auto, unfolding(crate::specs::Kinds::is_atom_word))]
fn is_atom_word(kind: TokenKind) -> bool
    ensures { result ≡ spec.is_atom_word kind }
{
    matches!(
        kind,
        TokenKind::Integer
            | TokenKind::Char
            | TokenKind::Str
            | TokenKind::MultilineStr
            | TokenKind::Identifier
            | TokenKind::KeywordUnreachable
    )
}

/// What begins a container.
#[tactic(auto, unfolding(crate::specs::Kinds::is_container_word))]
fn is_container_word(kind: TokenKind) -> bool
    ensures { result ≡ spec.is_container_word kind }
{
    matches!(
        kind,
        TokenKind::KeywordStruct | TokenKind::KeywordEnum | TokenKind::KeywordUnion
    )
}

/// What begins a captured name.
#[tactic(auto, unfolding(crate::specs::Kinds::is_capture_start))]
fn is_capture_start(kind: TokenKind) -> bool
    ensures { result ≡ spec.is_capture_start kind }
{
    matches!(
        kind,
        TokenKind::Asterisk | TokenKind::Identifier | TokenKind::Underscore
    )
}

/// What begins a parameter.
#[tactic(auto, unfolding(crate::specs::Kinds::is_parameter_start))]
fn is_parameter_start(kind: TokenKind) -> bool
    ensures { result ≡ spec.is_parameter_start kind }
{
    matches!(
        kind,
        TokenKind::KeywordComptime | TokenKind::Identifier | TokenKind::Underscore
    )
}

/// What begins a prefix of a type.
#[tactic(auto, unfolding(crate::specs::Kinds::is_type_prefix_start))]
fn is_type_prefix_start(kind: TokenKind) -> bool
    ensures { result ≡ spec.is_type_prefix_start kind }
{
    matches!(
        kind,
        TokenKind::QuestionMark
            | TokenKind::Asterisk
            | TokenKind::AsteriskAsterisk
            | TokenKind::LeftBracket
    )
}

/// A word, or the brace, that begins an operand.
#[tactic(auto, unfolding(crate::specs::Kinds::is_operand_word))]
fn is_operand_word(kind: TokenKind) -> bool
    ensures { result ≡ spec.is_operand_word kind }
{
    matches!(
        kind,
        TokenKind::KeywordIf
            | TokenKind::LeftBrace
            | TokenKind::KeywordWhile
            | TokenKind::KeywordFor
            | TokenKind::KeywordBreak
            | TokenKind::KeywordContinue
            | TokenKind::KeywordReturn
            | TokenKind::KeywordComptime
    )
}

/// What begins a statement and no expression.
#[tactic(auto, unfolding(crate::specs::Kinds::is_statement_word))]
fn is_statement_word(kind: TokenKind) -> bool
    ensures { result ≡ spec.is_statement_word kind }
{
    matches!(
        kind,
        TokenKind::KeywordConst
            | TokenKind::KeywordVar
            | TokenKind::KeywordDefer
            | TokenKind::KeywordErrdefer
            | TokenKind::Underscore
    )
}

/// What begins a type.
#[tactic(auto, unfolding(crate::specs::Kinds::is_type_start))]
fn is_type_start(kind: TokenKind) -> bool
    ensures { result ≡ spec.is_type_start kind }
{
    matches!(
        kind,
        TokenKind::QuestionMark
            | TokenKind::Asterisk
            | TokenKind::AsteriskAsterisk
            | TokenKind::LeftBracket
            | TokenKind::Integer
            | TokenKind::Char
            | TokenKind::Str
            | TokenKind::MultilineStr
            | TokenKind::Identifier
            | TokenKind::KeywordUnreachable
            | TokenKind::Period
            | TokenKind::KeywordError
            | TokenKind::Builtin
            | TokenKind::LeftParen
            | TokenKind::KeywordStruct
            | TokenKind::KeywordEnum
            | TokenKind::KeywordUnion
            | TokenKind::KeywordSwitch
    )
}

/// What begins an expression.
#[tactic(auto, unfolding(crate::specs::Kinds::is_expression_start))]
fn is_expression_start(kind: TokenKind) -> bool
    ensures { result ≡ spec.is_expression_start kind }
{
    is_prefix_operator(kind) || is_operand_word(kind) || is_type_start(kind)
}

/// What begins a statement.
#[tactic(auto, unfolding(crate::specs::Kinds::is_statement_start))]
fn is_statement_start(kind: TokenKind) -> bool
    ensures { result ≡ spec.is_statement_start kind }
{
    is_statement_word(kind) || is_expression_start(kind)
}

/// What begins a prong of a switch.
#[tactic(auto, unfolding(crate::specs::Kinds::is_prong_start))]
fn is_prong_start(kind: TokenKind) -> bool
    ensures { result ≡ spec.is_prong_start kind }
{
    same_kind(kind, TokenKind::KeywordElse) || is_expression_start(kind)
}

/// What begins a declaration.
#[tactic(auto, unfolding(crate::specs::Kinds::is_declaration_start))]
fn is_declaration_start(kind: TokenKind) -> bool
    ensures { result ≡ spec.is_declaration_start kind }
{
    matches!(
        kind,
        TokenKind::KeywordPub
            | TokenKind::KeywordConst
            | TokenKind::KeywordVar
            | TokenKind::KeywordExport
            | TokenKind::KeywordFn
            | TokenKind::KeywordExtern
            | TokenKind::KeywordComptime
            | TokenKind::KeywordTest
    )
}

/// What begins a member of a container.
#[tactic(auto, unfolding(crate::specs::Kinds::is_member_start))]
fn is_member_start(kind: TokenKind) -> bool
    ensures { result ≡ spec.is_member_start kind }
{
    same_kind(kind, TokenKind::Identifier) || is_declaration_start(kind)
}

impl TokenClass {
    /// Whether a kind of token is of the class.
    pub fn has(self, kind: TokenKind) -> bool
        ensures { result ≡ has_kind self kind }
    {
        match self {
            TokenClass::ConstOrVar => is_const_or_var(kind),
            TokenClass::NameWord => is_name_word(kind),
            TokenClass::AssignOperator => is_assign_operator(kind),
            TokenClass::CompareOperator => is_compare_operator(kind),
            TokenClass::BitOperator => is_bit_operator(kind),
            TokenClass::ShiftOperator => is_shift_operator(kind),
            TokenClass::AddOperator => is_add_operator(kind),
            TokenClass::MultiplyOperator => is_multiply_operator(kind),
            TokenClass::PrefixOperator => is_prefix_operator(kind),
            TokenClass::PointerMark => is_pointer_mark(kind),
            TokenClass::AtomWord => is_atom_word(kind),
            TokenClass::ContainerWord => is_container_word(kind),
            TokenClass::CaptureStart => is_capture_start(kind),
            TokenClass::ParameterStart => is_parameter_start(kind),
            TokenClass::TypePrefixStart => is_type_prefix_start(kind),
            TokenClass::OperandWord => is_operand_word(kind),
            TokenClass::StatementWord => is_statement_word(kind),
            TokenClass::TypeStart => is_type_start(kind),
            TokenClass::ExpressionStart => is_expression_start(kind),
            TokenClass::StatementStart => is_statement_start(kind),
            TokenClass::ProngStart => is_prong_start(kind),
            TokenClass::DeclarationStart => is_declaration_start(kind),
            TokenClass::MemberStart => is_member_start(kind),
        }
    }
}

impl When {
    /// Whether the alternative may be taken where the next tokens are of these two kinds.
    pub fn holds(self, kind: TokenKind, next: TokenKind) -> bool
        ensures { result ≡ holds kind next self }
    {
        match self {
            When::Always => true,
            When::Is(wanted) => same_kind(wanted, kind),
            When::In(class) => class.has(kind),
            When::Label => same_kind(kind, TokenKind::Identifier)
                && same_kind(next, TokenKind::Colon),
            When::Both(wanted) => same_kind(wanted, kind),
        }
    }
}
