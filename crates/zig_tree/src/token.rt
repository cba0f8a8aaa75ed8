// The tokens of a text. Their names are those of the Zig compiler's own tokenizer, in whole words.
use zw_base::Span;

/// What a token is: a class, a symbol or a keyword (Zig Language Reference 0.14, "Grammar").
#[derive(Clone, Copy, Debug, PartialEq, Eq)]
pub enum TokenKind {
    /// A name that is no keyword, or a quoted one.
    Identifier,
    /// The bare `_`, which discards.
    Underscore,
    /// `@` and a name.
    Builtin,
    /// A whole number.
    Integer,
    /// A character literal.
    Char,
    /// A string on one line.
    Str,
    /// Neighbouring lines that begin with `\\\\`.
    MultilineStr,
    /// The end of the file, at its length.
    End,
    /// `(`
    LeftParen,
    /// `)`
    RightParen,
    /// `[`
    LeftBracket,
    /// `]`
    RightBracket,
    /// `{`
    LeftBrace,
    /// `}`
    RightBrace,
    /// `,`
    Comma,
    /// `;`
    Semicolon,
    /// `:`
    Colon,
    /// `.`
    Period,
    /// `..`
    Ellipsis2,
    /// `...`
    Ellipsis3,
    /// `.*`
    PeriodAsterisk,
    /// `.?`
    PeriodQuestionMark,
    /// `=`
    Equal,
    /// `=>`
    EqualAngleRight,
    /// `==`
    EqualEqual,
    /// `!`
    Bang,
    /// `!=`
    BangEqual,
    /// `<`
    AngleLeft,
    /// `<=`
    AngleLeftEqual,
    /// `>`
    AngleRight,
    /// `>=`
    AngleRightEqual,
    /// `+`
    Plus,
    /// `++`
    PlusPlus,
    /// `+=`
    PlusEqual,
    /// `+%`
    PlusPercent,
    /// `+%=`
    PlusPercentEqual,
    /// `+|`
    PlusPipe,
    /// `+|=`
    PlusPipeEqual,
    /// `-`
    Minus,
    /// `-=`
    MinusEqual,
    /// `-%`
    MinusPercent,
    /// `-%=`
    MinusPercentEqual,
    /// `-|`
    MinusPipe,
    /// `-|=`
    MinusPipeEqual,
    /// `*`
    Asterisk,
    /// `**`
    AsteriskAsterisk,
    /// `*=`
    AsteriskEqual,
    /// `*%`
    AsteriskPercent,
    /// `*%=`
    AsteriskPercentEqual,
    /// `*|`
    AsteriskPipe,
    /// `*|=`
    AsteriskPipeEqual,
    /// `/`
    Slash,
    /// `/=`
    SlashEqual,
    /// `%`
    Percent,
    /// `%=`
    PercentEqual,
    /// `&`
    Ampersand,
    /// `&=`
    AmpersandEqual,
    /// `^`
    Caret,
    /// `^=`
    CaretEqual,
    /// `|`
    Pipe,
    /// `||`
    PipePipe,
    /// `|=`
    PipeEqual,
    /// `<<`
    AngleLeftAngleLeft,
    /// `<<=`
    AngleLeftAngleLeftEqual,
    /// `<<|`
    AngleLeftAngleLeftPipe,
    /// `<<|=`
    AngleLeftAngleLeftPipeEqual,
    /// `>>`
    AngleRightAngleRight,
    /// `>>=`
    AngleRightAngleRightEqual,
    /// `~`
    Tilde,
    /// `?`
    QuestionMark,
    /// `addrspace`
    KeywordAddrspace,
    /// `align`
    KeywordAlign,
    /// `allowzero`
    KeywordAllowzero,
    /// `and`
    KeywordAnd,
    /// `anyframe`
    KeywordAnyframe,
    /// `anytype`
    KeywordAnytype,
    /// `asm`
    KeywordAsm,
    /// `async`
    KeywordAsync,
    /// `await`
    KeywordAwait,
    /// `break`
    KeywordBreak,
    /// `callconv`
    KeywordCallconv,
    /// `catch`
    KeywordCatch,
    /// `comptime`
    KeywordComptime,
    /// `const`
    KeywordConst,
    /// `continue`
    KeywordContinue,
    /// `defer`
    KeywordDefer,
    /// `else`
    KeywordElse,
    /// `enum`
    KeywordEnum,
    /// `errdefer`
    KeywordErrdefer,
    /// `error`
    KeywordError,
    /// `export`
    KeywordExport,
    /// `extern`
    KeywordExtern,
    /// `fn`
    KeywordFn,
    /// `for`
    KeywordFor,
    /// `if`
    KeywordIf,
    /// `inline`
    KeywordInline,
    /// `linksection`
    KeywordLinksection,
    /// `noalias`
    KeywordNoalias,
    /// `noinline`
    KeywordNoinline,
    /// `nosuspend`
    KeywordNosuspend,
    /// `opaque`
    KeywordOpaque,
    /// `or`
    KeywordOr,
    /// `orelse`
    KeywordOrelse,
    /// `packed`
    KeywordPacked,
    /// `pub`
    KeywordPub,
    /// `resume`
    KeywordResume,
    /// `return`
    KeywordReturn,
    /// `struct`
    KeywordStruct,
    /// `suspend`
    KeywordSuspend,
    /// `switch`
    KeywordSwitch,
    /// `test`
    KeywordTest,
    /// `threadlocal`
    KeywordThreadlocal,
    /// `try`
    KeywordTry,
    /// `union`
    KeywordUnion,
    /// `unreachable`
    KeywordUnreachable,
    /// `usingnamespace`
    KeywordUsingnamespace,
    /// `var`
    KeywordVar,
    /// `volatile`
    KeywordVolatile,
    /// `while`
    KeywordWhile,
}

/// A token, and the bytes of the file that it is.
#[derive(Clone, Copy, Debug, PartialEq, Eq)]
pub struct Token {
    pub kind: TokenKind,
    pub span: Span,
}
