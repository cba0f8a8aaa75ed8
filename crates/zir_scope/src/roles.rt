// What scoping sees of a rule and of a token.
ghost use Rattle.std.specs.Prelude.{◌≡◌};
ghost use Rattle.zir_scope.specs.Roles as spec;

use zig_tree::{Rule, TokenKind};

/// What a node is to the scopes.
#[derive(Clone, Copy, Debug, PartialEq, Eq)]
pub enum Role {
    /// Members of a file or of a container.
    Members,
    Member,
    Declaration,
    Field,
    Variable,
    Function,
    Prototype,
    Parameter,
    Statement,
    /// What a label may lead.
    Labelled,
    If,
    While,
    For,
    /// What an `if` or a loop does, and what it does else.
    Parts,
    /// An operand of a `for`.
    ForArgument,
    /// Names that bars bind.
    Captures,
    /// One of these names.
    Name,
    Block,
    Assignment,
    /// Operands of `catch`, among others.
    Bit,
    Prefix,
    Suffix,
    Atom,
    Container,
    Switch,
    Prong,
    /// Another part, in which the same names are in scope.
    Other,
}

/// What a token is to the scopes.
#[derive(Clone, Copy, Debug, PartialEq, Eq)]
pub enum Mark {
    Identifier,
    Builtin,
    Var,
    Comptime,
    /// `defer` or `errdefer`.
    Defer,
    Catch,
    Else,
    Test,
    Try,
    Return,
    Break,
    Continue,
    LeftParen,
    RightParen,
    LeftBracket,
    RightBracket,
    Colon,
    Period,
    /// `.*` or `.?`
    Follow,
    /// `..`
    Ellipsis,
    /// `=>`
    Arrow,
    Ampersand,
    Asterisk,
    Other,
}

/// The role of a rule.
#[tactic(auto, unfolding(crate::specs::Roles::role_of))]
pub fn role_of(rule: Rule) -> Role
    ensures { result ≡ spec.role_of rule }
{
    match rule {
        Rule::Root | Rule::ContainerBody => Role::Members,
        Rule::Member => Role::Member,
        Rule::Declaration => Role::Declaration,
        Rule::Field => Role::Field,
        Rule::Variable => Role::Variable,
        Rule::Function => Role::Function,
        Rule::Prototype => Role::Prototype,
        Rule::Parameter => Role::Parameter,
        Rule::Statement => Role::Statement,
        Rule::Body | Rule::Primary => Role::Labelled,
        Rule::IfStatement | Rule::IfExpression => Role::If,
        Rule::WhileStatement | Rule::WhileExpression => Role::While,
        Rule::ForStatement | Rule::ForExpression => Role::For,
        Rule::Rest | Rule::RestExpression => Role::Parts,
        Rule::ForArgument => Role::ForArgument,
        Rule::Capture | Rule::Captures => Role::Captures,
        Rule::Name => Role::Name,
        Rule::Block => Role::Block,
        Rule::Assignment => Role::Assignment,
        Rule::Bit => Role::Bit,
        Rule::Prefix => Role::Prefix,
        Rule::Suffix => Role::Suffix,
        Rule::Atom => Role::Atom,
        Rule::Container => Role::Container,
        Rule::Switch => Role::Switch,
        Rule::Prong => Role::Prong,
        _ => Role::Other,
    }
}

/// The mark of a kind of token.
#[tactic(auto, unfolding(crate::specs::Roles::mark_of))]
pub fn mark_of(kind: TokenKind) -> Mark
    ensures { result ≡ spec.mark_of kind }
{
    match kind {
        TokenKind::Identifier => Mark::Identifier,
        TokenKind::Builtin => Mark::Builtin,
        TokenKind::KeywordVar => Mark::Var,
        TokenKind::KeywordComptime => Mark::Comptime,
        TokenKind::KeywordDefer | TokenKind::KeywordErrdefer => Mark::Defer,
        TokenKind::KeywordCatch => Mark::Catch,
        TokenKind::KeywordElse => Mark::Else,
        TokenKind::KeywordTest => Mark::Test,
        TokenKind::KeywordTry => Mark::Try,
        TokenKind::KeywordReturn => Mark::Return,
        TokenKind::KeywordBreak => Mark::Break,
        TokenKind::KeywordContinue => Mark::Continue,
        TokenKind::LeftParen => Mark::LeftParen,
        TokenKind::RightParen => Mark::RightParen,
        TokenKind::LeftBracket => Mark::LeftBracket,
        TokenKind::RightBracket => Mark::RightBracket,
        TokenKind::Colon => Mark::Colon,
        TokenKind::Period => Mark::Period,
        TokenKind::PeriodAsterisk | TokenKind::PeriodQuestionMark => Mark::Follow,
        TokenKind::Ellipsis2 => Mark::Ellipsis,
        TokenKind::EqualAngleRight => Mark::Arrow,
        TokenKind::Ampersand => Mark::Ampersand,
        TokenKind::Asterisk => Mark::Asterisk,
        _ => Mark::Other,
    }
}
