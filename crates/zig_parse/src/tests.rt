// The parser on lists of tokens that are written as their words, parted by spaces.
use super::{SyntaxFault, parse};
use Wanted::{TooDeep, Tree, Unexpected};
use std::alloc::{AllocError, Global};
use std::process::Abort;
use std::test::Fail;
use zig_tree::{Token, TokenKind};
use zw_base::Span;

/// What the parser is to answer: a tree, or the number of the refused token.
#[derive(Clone, Copy, Debug, PartialEq, Eq)]
enum Wanted {
    Tree,
    Unexpected(u32),
    TooDeep(u32),
}

/// Declarations and containers.
fn declarations() -> &'static [(&'static str, Wanted)] {
    &[
        ("pub const a : u8 = 1 ;", Tree),
        ("var a = 1 , ;", Unexpected(4)),
        ("const a : T ;", Unexpected(4)),
        ("const = 1 ;", Unexpected(1)),
        ("export fn f ( ) void { }", Tree),
        ("export const a = 1 ;", Unexpected(1)),
        (
            "pub export fn f ( a : u8 , b : u8 ) u8 { return a ; }",
            Tree,
        ),
        ("extern fn f ( a : u8 ) void ;", Tree),
        ("extern \"m\" fn f ( ) void ;", Tree),
        ("extern \"m\" fn f ( ) void { }", Unexpected(7)),
        ("comptime { }", Tree),
        ("comptime a ;", Unexpected(1)),
        ("test { }", Tree),
        ("test \"t\" { }", Tree),
        ("test a { }", Unexpected(1)),
        ("pub test { }", Unexpected(1)),
        ("fn f ( a , b : u8 ) void { }", Unexpected(4)),
        ("fn f ( comptime a : type , ) void { }", Tree),
        ("fn f ( ) ! void { }", Tree),
        ("fn f ( ) { }", Unexpected(4)),
        ("fn f ( ) E ! void { }", Tree),
        (
            "const S = struct { a : u8 , b : u8 = 1 , pub fn f ( ) void { } } ;",
            Tree,
        ),
        ("const S = struct { a : u8 ; } ;", Unexpected(8)),
        ("const S = enum { a , b = 2 , c } ;", Tree),
        ("const S = enum ( u8 ) { a } ;", Tree),
        ("const S = union ( enum ) { a : u8 , b } ;", Tree),
        ("const S = union { a } ;", Unexpected(4)),
        ("const S = struct { a } ;", Tree),
        ("const e = error { A , B , } ;", Tree),
    ]
}

/// Operands and operators.
fn operands() -> &'static [(&'static str, Wanted)] {
    &[
        ("const e = error . A ;", Tree),
        ("const e = error ( A ) ;", Unexpected(4)),
        ("const e = error { 1 } ;", Unexpected(5)),
        (
            "const a = b . c .* .? [ 1 ] [ 1 .. ] [ 1 .. 2 ] ( 3 , 4 , ) ;",
            Tree,
        ),
        ("const a = b [ ] ;", Unexpected(5)),
        ("const a = b [ .. 2 ] ;", Unexpected(5)),
        ("const a = b . 1 ;", Unexpected(5)),
        ("const a = @b ( c , d ) ;", Tree),
        ("const a = @b ;", Unexpected(4)),
        ("const a : ? * const [ 3 ] u8 = b ;", Tree),
        ("const a : [ ] const u8 = b ;", Tree),
        ("const a : [ _ ] u8 = b ;", Tree),
        ("const a : [ const ] u8 = b ;", Unexpected(4)),
        ("const a : * * u8 = b ;", Tree),
        ("const a : ** u8 = b ;", Tree),
        ("const a : E ! ? u8 = b ;", Tree),
        ("const a = . { } ;", Tree),
        ("const a = . { 1 , 2 , } ;", Tree),
        ("const a = . { . b = 1 , . c = . d } ;", Tree),
        ("const a = . { . b , . c } ;", Tree),
        ("const a = T { . b = 1 , } ;", Tree),
        ("const a = [ _ ] u8 { 1 , 2 } ;", Tree),
        ("const a = . { , } ;", Unexpected(5)),
        ("const a = ! b and - c or ~ d ;", Tree),
        ("const a = b or c and d == e & f << g + h * i ;", Tree),
        ("const a = b < c < d ;", Unexpected(6)),
        ("const a = try b orelse c catch d ;", Tree),
        ("const a = b catch | e | c ;", Tree),
        ("const a = b catch | * * e | c ;", Unexpected(7)),
        ("const a = if ( b ) c else d ;", Tree),
        ("const a = if ( b ) | * c | d else | e | f ;", Tree),
        ("const a = if b ;", Unexpected(4)),
        ("const a = while ( b ) : ( c = d ) e else f ;", Tree),
    ]
}

/// Operators, and words that begin an operand.
fn operators() -> &'static [(&'static str, Wanted)] {
    &[
        ("const a = while ( b ) : c ;", Unexpected(8)),
        ("const a = for ( b , c ) | d , * e | f else g ;", Tree),
        ("const a = for ( b ) c ;", Unexpected(7)),
        ("const a = for ( ) | b | c ;", Unexpected(5)),
        ("const a = b : { break : b 1 ; } ;", Tree),
        ("const a = b : while ( c ) { continue : b ; } ;", Tree),
        (
            "const a = switch ( b ) { 1 => c , 2 , 3 ... 4 => | d | e , else => f } ;",
            Tree,
        ),
        ("const a = switch ( b ) { 1 : c } ;", Unexpected(9)),
        ("const a = switch ( b ) { } ;", Tree),
        ("const a = switch ( b ) { else , 1 => c } ;", Unexpected(9)),
        ("const a = switch ( b ) { 1 , => c } ;", Tree),
        ("const a = comptime b ;", Tree),
        ("const a = return ;", Tree),
        ("const a = unreachable ;", Tree),
        ("const a = \"s\" ++ \"t\" ** 2 ;", Tree),
        ("const a = 'c' ;", Tree),
        ("const a = b c ;", Unexpected(4)),
        ("const a = async b ;", Unexpected(3)),
        ("fn f ( ) void { const a = 1 ; var b : u8 = 2 ; }", Tree),
        ("fn f ( ) void { comptime var a = 1 ; }", Tree),
        ("fn f ( ) void { comptime { } }", Tree),
        (
            "fn f ( ) void { defer a ( ) ; errdefer | e | b ( ) ; errdefer { } }",
            Tree,
        ),
    ]
}

/// Statements.
fn statements() -> &'static [(&'static str, Wanted)] {
    &[
        (
            "fn f ( ) void { _ = a ; a = b ; a += b ; a <<|= b ; }",
            Tree,
        ),
        ("fn f ( ) void { a = b = c ; }", Unexpected(9)),
        (
            "fn f ( ) void { if ( a ) b ; if ( a ) b else c ; if ( a ) { } else { } }",
            Tree,
        ),
        ("fn f ( ) void { if ( a ) { } else }", Unexpected(13)),
        ("fn f ( ) void { if ( a ) if ( b ) c else d ; }", Tree),
        (
            "fn f ( ) void { if ( a ) b else if ( c ) d else e ; }",
            Tree,
        ),
        (
            "fn f ( ) void { while ( a ) | b | : ( c ) { } else | e | { } }",
            Tree,
        ),
        ("fn f ( ) void { for ( a , 0 .. 3 , ) | b , c | d ; }", Tree),
        ("fn f ( ) void { l : while ( a ) { break : l ; } }", Tree),
        ("fn f ( ) void { l : switch ( a ) { } }", Unexpected(8)),
        ("fn f ( ) void { { } { } switch ( a ) { } { } }", Tree),
        ("fn f ( ) void { { } ; }", Tree),
        ("fn f ( ) void { return }", Unexpected(7)),
        ("fn f ( ) void { break : a b ; continue ; return ; }", Tree),
        ("fn f ( ) void { switch ( a ) { } . b ; }", Tree),
        ("fn f ( ) void { switch ( a ) { } ! b ; }", Tree),
        ("fn f ( ) void { switch ( a ) { } { . b = c } ; }", Tree),
        ("fn f ( ) void { switch ( a ) { } { , } }", Unexpected(13)),
        ("fn f ( ) void { if ( a ) { } & b else c ; }", Tree),
        ("fn f ( ) void { { } & b else c ; }", Unexpected(10)),
        ("fn f ( ) void { { } ** a : { } ; }", Tree),
        ("fn f ( ) void ;", Unexpected(5)),
        ("}", Unexpected(0)),
        ("a", Unexpected(0)),
        ("a : u8 ,", Unexpected(0)),
        ("const a = ( b ;", Unexpected(5)),
    ]
}

/// Places at which two readings are open.
fn readings() -> &'static [(&'static str, Wanted)] {
    &[
        ("fn f ( ) void { if ( a ) { } - 1 ; }", Tree),
        ("fn f ( ) void { if ( a ) { } - 1 else 1 ; }", Tree),
        (
            "fn f ( ) void { if ( x ) { } else if ( a ) { } - 1 else 1 ; }",
            Tree,
        ),
        ("fn f ( ) void { { } * - 1 ; }", Tree),
        ("fn f ( ) void { { } -% 1 { } ; }", Tree),
        ("fn f ( ) void { l : { } + 1 ; }", Tree),
        ("fn f ( ) void { { } ; if ( a ) b else { } ; }", Tree),
        ("fn f ( ) void { if ( a ) { } else { } }", Tree),
        ("fn f ( ) void { if ( a ) b else c }", Unexpected(13)),
        ("fn f ( ) void { switch ( x ) { } ( ) ; }", Tree),
        ("fn f ( ) void { switch ( x ) { } { a } }", Unexpected(15)),
        ("fn f ( ) void { a : b ; }", Unexpected(8)),
        ("const x = a : 1 ;", Unexpected(5)),
        ("const S = struct { a : u8 b : u8 } ;", Unexpected(8)),
        ("const S = struct { const a = 1 ; b , } ;", Tree),
        ("const x = union ( enum ) { a } ;", Tree),
        ("const x = union ( enum { a } ) { a } ;", Tree),
        ("const x = . { . a = 1 , 1 } ;", Unexpected(10)),
        ("const x = . { 1 , . a = 1 } ;", Unexpected(9)),
        ("const f = fn ( ) void ;", Unexpected(3)),
        (
            "fn f ( _ : u8 , comptime T : type , x : anytype , ) ! T { }",
            Tree,
        ),
        ("fn f ( ) void { for ( a , 1 .. ) | x , i , | { } }", Tree),
        (
            "fn f ( ) void { while ( a ) : ( i += 1 ) { } else { } }",
            Tree,
        ),
        ("const x = a catch | e | b ;", Tree),
        ("const x = a orelse return ;", Tree),
        ("const x = a == b == c ;", Unexpected(6)),
        ("const x = _ ;", Unexpected(3)),
        ("_ = a ;", Unexpected(0)),
    ]
}

/// A beginning, what follows it, how often, and the answer.
fn nested() -> &'static [(&'static str, &'static str, u32, Wanted)] {
    &[
        ("const x =", "(", 197, TooDeep(199)),
        ("const x =", "(", 196, Unexpected(199)),
        ("const x =", "-", 3000, Unexpected(3003)),
        ("fn f ( ) void {", "{", 66, TooDeep(71)),
        ("const x =", "if ( a )", 300, TooDeep(785)),
        (
            "fn f ( ) void {",
            "switch ( x ) { } ( a )",
            300,
            Unexpected(15),
        ),
        ("const x = a", ". b", 3000, Unexpected(6004)),
        ("fn f ( ) void {", "{ { } -", 60, TooDeep(159)),
        ("fn f ( ) void {", "if ( a ) { } - {", 60, TooDeep(318)),
        ("fn f ( ) void {", "switch ( x ) { } {", 60, Unexpected(426)),
        (
            "fn f ( ) void {",
            "switch ( x ) { } { a : {",
            60,
            TooDeep(328),
        ),
        ("const x =", ". {", 120, TooDeep(200)),
    ]
}

/// How many blocks of a function, one in the other, stand around a statement, the statement, and the answer.
fn bottoms() -> &'static [(u32, &'static str, Wanted)] {
    &[
        (61, "( { switch ( x ) { } [ ( ( a ) ) ] ; } ) ;", Tree),
        (
            61,
            "( { switch ( x ) { } [ ( ( a ) ) ] . x ; } ) ;",
            TooDeep(82),
        ),
        (
            61,
            "( { switch ( x ) { } [ ( ( a ) ) ] . { } ; } ) ;",
            TooDeep(82),
        ),
        (60, "( { switch ( x ) { } [ ( ( a ) ) ] . x ; } ) ;", Tree),
        (60, "( { switch ( x ) { } [ ( ( a ) ) ] . { } ; } ) ;", Tree),
    ]
}

/// Words and symbols with their kinds.
const WORDS: [(&str, TokenKind); 112] = [
    ("addrspace", TokenKind::KeywordAddrspace),
    ("align", TokenKind::KeywordAlign),
    ("allowzero", TokenKind::KeywordAllowzero),
    ("and", TokenKind::KeywordAnd),
    ("anyframe", TokenKind::KeywordAnyframe),
    ("anytype", TokenKind::KeywordAnytype),
    ("asm", TokenKind::KeywordAsm),
    ("async", TokenKind::KeywordAsync),
    ("await", TokenKind::KeywordAwait),
    ("break", TokenKind::KeywordBreak),
    ("callconv", TokenKind::KeywordCallconv),
    ("catch", TokenKind::KeywordCatch),
    ("comptime", TokenKind::KeywordComptime),
    ("const", TokenKind::KeywordConst),
    ("continue", TokenKind::KeywordContinue),
    ("defer", TokenKind::KeywordDefer),
    ("else", TokenKind::KeywordElse),
    ("enum", TokenKind::KeywordEnum),
    ("errdefer", TokenKind::KeywordErrdefer),
    ("error", TokenKind::KeywordError),
    ("export", TokenKind::KeywordExport),
    ("extern", TokenKind::KeywordExtern),
    ("fn", TokenKind::KeywordFn),
    ("for", TokenKind::KeywordFor),
    ("if", TokenKind::KeywordIf),
    ("inline", TokenKind::KeywordInline),
    ("linksection", TokenKind::KeywordLinksection),
    ("noalias", TokenKind::KeywordNoalias),
    ("noinline", TokenKind::KeywordNoinline),
    ("nosuspend", TokenKind::KeywordNosuspend),
    ("opaque", TokenKind::KeywordOpaque),
    ("or", TokenKind::KeywordOr),
    ("orelse", TokenKind::KeywordOrelse),
    ("packed", TokenKind::KeywordPacked),
    ("pub", TokenKind::KeywordPub),
    ("resume", TokenKind::KeywordResume),
    ("return", TokenKind::KeywordReturn),
    ("struct", TokenKind::KeywordStruct),
    ("suspend", TokenKind::KeywordSuspend),
    ("switch", TokenKind::KeywordSwitch),
    ("test", TokenKind::KeywordTest),
    ("threadlocal", TokenKind::KeywordThreadlocal),
    ("try", TokenKind::KeywordTry),
    ("union", TokenKind::KeywordUnion),
    ("unreachable", TokenKind::KeywordUnreachable),
    ("usingnamespace", TokenKind::KeywordUsingnamespace),
    ("var", TokenKind::KeywordVar),
    ("volatile", TokenKind::KeywordVolatile),
    ("while", TokenKind::KeywordWhile),
    ("!", TokenKind::Bang),
    ("!=", TokenKind::BangEqual),
    ("%", TokenKind::Percent),
    ("%=", TokenKind::PercentEqual),
    ("&", TokenKind::Ampersand),
    ("&=", TokenKind::AmpersandEqual),
    ("(", TokenKind::LeftParen),
    (")", TokenKind::RightParen),
    ("*", TokenKind::Asterisk),
    ("*%", TokenKind::AsteriskPercent),
    ("*%=", TokenKind::AsteriskPercentEqual),
    ("**", TokenKind::AsteriskAsterisk),
    ("*=", TokenKind::AsteriskEqual),
    ("*|", TokenKind::AsteriskPipe),
    ("*|=", TokenKind::AsteriskPipeEqual),
    ("+", TokenKind::Plus),
    ("+%", TokenKind::PlusPercent),
    ("+%=", TokenKind::PlusPercentEqual),
    ("++", TokenKind::PlusPlus),
    ("+=", TokenKind::PlusEqual),
    ("+|", TokenKind::PlusPipe),
    ("+|=", TokenKind::PlusPipeEqual),
    (",", TokenKind::Comma),
    ("-", TokenKind::Minus),
    ("-%", TokenKind::MinusPercent),
    ("-%=", TokenKind::MinusPercentEqual),
    ("-=", TokenKind::MinusEqual),
    ("-|", TokenKind::MinusPipe),
    ("-|=", TokenKind::MinusPipeEqual),
    (".", TokenKind::Period),
    (".*", TokenKind::PeriodAsterisk),
    ("..", TokenKind::Ellipsis2),
    ("...", TokenKind::Ellipsis3),
    (".?", TokenKind::PeriodQuestionMark),
    ("/", TokenKind::Slash),
    ("/=", TokenKind::SlashEqual),
    (":", TokenKind::Colon),
    (";", TokenKind::Semicolon),
    ("<", TokenKind::AngleLeft),
    ("<<", TokenKind::AngleLeftAngleLeft),
    ("<<=", TokenKind::AngleLeftAngleLeftEqual),
    ("<<|", TokenKind::AngleLeftAngleLeftPipe),
    ("<<|=", TokenKind::AngleLeftAngleLeftPipeEqual),
    ("<=", TokenKind::AngleLeftEqual),
    ("=", TokenKind::Equal),
    ("==", TokenKind::EqualEqual),
    ("=>", TokenKind::EqualAngleRight),
    (">", TokenKind::AngleRight),
    (">=", TokenKind::AngleRightEqual),
    (">>", TokenKind::AngleRightAngleRight),
    (">>=", TokenKind::AngleRightAngleRightEqual),
    ("?", TokenKind::QuestionMark),
    ("[", TokenKind::LeftBracket),
    ("]", TokenKind::RightBracket),
    ("^", TokenKind::Caret),
    ("^=", TokenKind::CaretEqual),
    ("{", TokenKind::LeftBrace),
    ("|", TokenKind::Pipe),
    ("|=", TokenKind::PipeEqual),
    ("||", TokenKind::PipePipe),
    ("}", TokenKind::RightBrace),
    ("~", TokenKind::Tilde),
    ("_", TokenKind::Underscore),
];

/// The kind of a token that is written so.
fn kind_of(word: &str) -> TokenKind {
    for (written, kind) in &WORDS {
        if *written == word {
            return *kind;
        }
    }
    match word.as_bytes().first() {
        Some(b'0'..=b'9') => TokenKind::Integer,
        Some(b'"') => TokenKind::Str,
        Some(b'\'') => TokenKind::Char,
        Some(b'\\') => TokenKind::MultilineStr,
        Some(b'@') => TokenKind::Builtin,
        _ => TokenKind::Identifier,
    }
}

/// Puts the tokens of a text at the end of a list.
fn add(tokens: &mut Vec<Token>, text: &str) -> Result<(), AllocError> {
    for word in text.split(' ') {
        let kind = kind_of(word);
        tokens.push(Token {
            kind,
            span: Span { start: 0, end: 0 },
        })?;
    }
    Ok(())
}

/// Puts the token of the file's end there.
fn end(tokens: &mut Vec<Token>) -> Result<(), AllocError> {
    tokens.push(Token {
        kind: TokenKind::End,
        span: Span { start: 0, end: 0 },
    })?;
    Ok(())
}

/// What the parser answers, in the table's words.
fn answer(alloc: Global, tokens: &[Token]) -> Result<Wanted, AllocError> {
    match parse(alloc, tokens) {
        Ok(_) => Ok(Tree),
        Err(SyntaxFault::Unexpected { token: _, at }) => Ok(Unexpected(at)),
        Err(SyntaxFault::TooDeep { at }) => Ok(TooDeep(at)),
        Err(SyntaxFault::OutOfMemory) => Err(AllocError),
    }
}

/// Checks the answers to texts.
fn check(rt: &impl Abort, alloc: Global, cases: &[(&str, Wanted)]) -> Result<(), Fail> {
    for (text, wanted) in cases {
        let mut tokens = Vec::new(alloc);
        add(&mut tokens, text)?;
        end(&mut tokens)?;
        assert_eq!(rt; answer(alloc, tokens.as_slice())?, *wanted, "{text}");
    }
    Ok(())
}

#[test]
fn tables(rt: HostRuntime) -> Result<(), Fail> {
    check(&rt, rt.alloc(), declarations())?;
    check(&rt, rt.alloc(), operands())?;
    check(&rt, rt.alloc(), operators())?;
    check(&rt, rt.alloc(), statements())?;
    check(&rt, rt.alloc(), readings())
}

#[test]
fn nested_deep(rt: HostRuntime) -> Result<(), Fail> {
    for (text, again, times, wanted) in nested() {
        let mut tokens = Vec::new(rt.alloc());
        add(&mut tokens, text)?;
        for _ in 0..*times {
            add(&mut tokens, again)?;
        }
        end(&mut tokens)?;
        assert_eq!(rt;
            answer(rt.alloc(), tokens.as_slice())?,
            *wanted,
            "{text} {again} .."
        );
    }
    Ok(())
}

#[test]
fn at_the_bottom(rt: HostRuntime) -> Result<(), Fail> {
    for (blocks, text, wanted) in bottoms() {
        let mut tokens = Vec::new(rt.alloc());
        add(&mut tokens, "fn f ( ) void {")?;
        for _ in 0..*blocks {
            add(&mut tokens, "{")?;
        }
        add(&mut tokens, text)?;
        for _ in 0..*blocks {
            add(&mut tokens, "}")?;
        }
        add(&mut tokens, "}")?;
        end(&mut tokens)?;
        assert_eq!(rt;
            answer(rt.alloc(), tokens.as_slice())?,
            *wanted,
            "{blocks} {text}"
        );
    }
    Ok(())
}
