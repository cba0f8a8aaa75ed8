// The words and symbols of Zig's text, one a row (Zig Language Reference 0.14, "Grammar").

ghost use Rattle.std.specs.Prelude.{◌≡◌};
ghost use Rattle.zig_tree.specs.TokenTables.{is_keyword, keywords, symbols, kind_of_row, word_kind, row_at_front};
ghost use Rattle.zig_tree.specs.Written.{written};

use crate::token::TokenKind;

/// A row: what is written, and the kind of token that it is.
pub type Row = (&'static str, TokenKind);

/// The keywords.
pub const KEYWORDS: [Row; 49] = [
    ("addrspace", TokenKind::KeywordAddrspace),
    ("align", TokenKind::KeywordAlign),
    ("allowzero", TokenKind::KeywordAllowzero),
    ("and", TokenKind::KeywordAnd),
    ("anyframe", TokenKind::KeywordAnyframe),
    ("anytype", TokenKind::KeywordAnytype),
    ("asm", TokenKind::KeywordAsm),
    ("async", TokenKind::KeywordAsync),
    ("await", TokenKind::KeywordAwait),
    ("break", TokenKind::KeywordBreak),
    ("callconv", TokenKind::KeywordCallconv),
    ("catch", TokenKind::KeywordCatch),
    ("comptime", TokenKind::KeywordComptime),
    ("const", TokenKind::KeywordConst),
    ("continue", TokenKind::KeywordContinue),
    ("defer", TokenKind::KeywordDefer),
    ("else", TokenKind::KeywordElse),
    ("enum", TokenKind::KeywordEnum),
    ("errdefer", TokenKind::KeywordErrdefer),
    ("error", TokenKind::KeywordError),
    ("export", TokenKind::KeywordExport),
    ("extern", TokenKind::KeywordExtern),
    ("fn", TokenKind::KeywordFn),
    ("for", TokenKind::KeywordFor),
    ("if", TokenKind::KeywordIf),
    ("inline", TokenKind::KeywordInline),
    ("linksection", TokenKind::KeywordLinksection),
    ("noalias", TokenKind::KeywordNoalias),
    ("noinline", TokenKind::KeywordNoinline),
    ("nosuspend", TokenKind::KeywordNosuspend),
    ("opaque", TokenKind::KeywordOpaque),
    ("or", TokenKind::KeywordOr),
    ("orelse", TokenKind::KeywordOrelse),
    ("packed", TokenKind::KeywordPacked),
    ("pub", TokenKind::KeywordPub),
    ("resume", TokenKind::KeywordResume),
    ("return", TokenKind::KeywordReturn),
    ("struct", TokenKind::KeywordStruct),
    ("suspend", TokenKind::KeywordSuspend),
    ("switch", TokenKind::KeywordSwitch),
    ("test", TokenKind::KeywordTest),
    ("threadlocal", TokenKind::KeywordThreadlocal),
    ("try", TokenKind::KeywordTry),
    ("union", TokenKind::KeywordUnion),
    ("unreachable", TokenKind::KeywordUnreachable),
    ("usingnamespace", TokenKind::KeywordUsingnamespace),
    ("var", TokenKind::KeywordVar),
    ("volatile", TokenKind::KeywordVolatile),
    ("while", TokenKind::KeywordWhile),
];

/// The symbols; a longer one stands before what begins it.
pub const SYMBOLS: [Row; 62] = [
    ("(", TokenKind::LeftParen),
    (")", TokenKind::RightParen),
    ("[", TokenKind::LeftBracket),
    ("]", TokenKind::RightBracket),
    ("{", TokenKind::LeftBrace),
    ("}", TokenKind::RightBrace),
    (",", TokenKind::Comma),
    (";", TokenKind::Semicolon),
    (":", TokenKind::Colon),
    ("...", TokenKind::Ellipsis3),
    ("..", TokenKind::Ellipsis2),
    (".*", TokenKind::PeriodAsterisk),
    (".?", TokenKind::PeriodQuestionMark),
    (".", TokenKind::Period),
    ("=>", TokenKind::EqualAngleRight),
    ("==", TokenKind::EqualEqual),
    ("=", TokenKind::Equal),
    ("!=", TokenKind::BangEqual),
    ("!", TokenKind::Bang),
    ("<<|=", TokenKind::AngleLeftAngleLeftPipeEqual),
    ("<<=", TokenKind::AngleLeftAngleLeftEqual),
    ("<<|", TokenKind::AngleLeftAngleLeftPipe),
    ("<=", TokenKind::AngleLeftEqual),
    ("<<", TokenKind::AngleLeftAngleLeft),
    ("<", TokenKind::AngleLeft),
    (">>=", TokenKind::AngleRightAngleRightEqual),
    (">=", TokenKind::AngleRightEqual),
    (">>", TokenKind::AngleRightAngleRight),
    (">", TokenKind::AngleRight),
    ("+%=", TokenKind::PlusPercentEqual),
    ("+|=", TokenKind::PlusPipeEqual),
    ("++", TokenKind::PlusPlus),
    ("+=", TokenKind::PlusEqual),
    ("+%", TokenKind::PlusPercent),
    ("+|", TokenKind::PlusPipe),
    ("+", TokenKind::Plus),
    ("-%=", TokenKind::MinusPercentEqual),
    ("-|=", TokenKind::MinusPipeEqual),
    ("-=", TokenKind::MinusEqual),
    ("-%", TokenKind::MinusPercent),
    ("-|", TokenKind::MinusPipe),
    ("-", TokenKind::Minus),
    ("*%=", TokenKind::AsteriskPercentEqual),
    ("*|=", TokenKind::AsteriskPipeEqual),
    ("**", TokenKind::AsteriskAsterisk),
    ("*=", TokenKind::AsteriskEqual),
    ("*%", TokenKind::AsteriskPercent),
    ("*|", TokenKind::AsteriskPipe),
    ("*", TokenKind::Asterisk),
    ("/=", TokenKind::SlashEqual),
    ("/", TokenKind::Slash),
    ("%=", TokenKind::PercentEqual),
    ("%", TokenKind::Percent),
    ("&=", TokenKind::AmpersandEqual),
    ("&", TokenKind::Ampersand),
    ("^=", TokenKind::CaretEqual),
    ("^", TokenKind::Caret),
    ("||", TokenKind::PipePipe),
    ("|=", TokenKind::PipeEqual),
    ("|", TokenKind::Pipe),
    ("~", TokenKind::Tilde),
    ("?", TokenKind::QuestionMark),
];

#[tactic(auto, using(crate::proofs::Rows::kind_here, crate::proofs::Rows::kind_further, crate::proofs::Rows::kind_none))]
fn kind_of_row(rows: &[Row], word: &[u8]) -> Option<TokenKind>
    ensures { result ≡ kind_of_row (written rows.now) word.now }
{
    for (text, kind) in rows {
        if text.as_bytes() == word {
            return Some(*kind);
        }
    }
    None
}

/// The kind of the keyword that is spelled like a name, where there is one.
pub fn keyword_kind(name: &[u8]) -> Option<TokenKind>
    ensures { result ≡ kind_of_row keywords name.now }
{
    kind_of_row(&KEYWORDS, name)
}

/// Whether a name is spelled like a keyword, so that it is no identifier unless it is quoted.
#[tactic(auto, unfolding(crate::specs::TokenTables::is_keyword))]
pub fn is_keyword(name: &[u8]) -> bool
    ensures { result ≡ is_keyword name.now }
{
    keyword_kind(name).is_some()
}

/// What a name is that is no quoted one.
#[tactic(auto, unfolding(crate::specs::TokenTables::kind_of_row, crate::specs::TokenTables::word_kind))]
pub fn word_kind(word: &[u8]) -> TokenKind
    ensures { result ≡ word_kind word.now }
{
    if word == b"_".as_slice() {
        return TokenKind::Underscore;
    }
    keyword_kind(word).unwrap_or(TokenKind::Identifier)
}

#[tactic(auto, using(crate::proofs::Rows::front_here, crate::proofs::Rows::front_further, crate::proofs::Rows::front_none))]
fn row_at_front(rows: &[Row], bytes: &[u8]) -> Option<(usize, TokenKind)>
    ensures { result ≡ row_at_front (written rows.now) bytes.now }
{
    for (text, kind) in rows {
        if bytes.starts_with(text.as_bytes()) {
            return Some((text.len(), *kind));
        }
    }
    None
}

/// The longest symbol with which the bytes begin: its length and its kind.
pub fn symbol_at_front(bytes: &[u8]) -> Option<(usize, TokenKind)>
    ensures { result ≡ row_at_front symbols bytes.now }
{
    row_at_front(&SYMBOLS, bytes)
}
