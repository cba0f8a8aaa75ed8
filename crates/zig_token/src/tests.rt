// Texts with their tokens or their fault.
use super::*;
use std::alloc::Global;
use std::process::Abort;
use zig_tree::TokenKind;

type Row = (TokenKind, u32, u32);

fn has_tokens(rt: &impl Abort, alloc: Global, text: &[u8], rows: &[Row]) {
    assert!(rt; text.len() < 1000);
    match tokens(alloc, text) {
        Err(_) => panic!(rt; "{text:?} has a fault"),
        Ok(list) => {
            assert_eq!(rt; list.len(), rows.len(), "{text:?}");
            for (token, (kind, start, end)) in list.iter().zip(rows) {
                assert_eq!(rt; token.kind, *kind, "{text:?}");
                assert_eq!(rt; token.span.start, *start, "{text:?}");
                assert_eq!(rt; token.span.end, *end, "{text:?}");
            }
        }
    }
}

fn has_fault(rt: &impl Abort, alloc: Global, text: &[u8], fault: LexFault) {
    assert!(rt; text.len() < 1000);
    match tokens(alloc, text) {
        Ok(_) => panic!(rt; "{text:?} has tokens"),
        Err(found) => assert_eq!(rt; found, fault, "{text:?}"),
    }
}

const KEYWORDS: (&[u8], &[Row]) = (
    b"addrspace align allowzero and anyframe anytype asm async await break callconv catch comptime const continue defer else enum errdefer error export extern fn for if inline linksection noalias noinline nosuspend opaque or orelse packed pub resume return struct suspend switch test threadlocal try union unreachable usingnamespace var volatile while",
    &[
        (TokenKind::KeywordAddrspace, 0, 9),
        (TokenKind::KeywordAlign, 10, 15),
        (TokenKind::KeywordAllowzero, 16, 25),
        (TokenKind::KeywordAnd, 26, 29),
        (TokenKind::KeywordAnyframe, 30, 38),
        (TokenKind::KeywordAnytype, 39, 46),
        (TokenKind::KeywordAsm, 47, 50),
        (TokenKind::KeywordAsync, 51, 56),
        (TokenKind::KeywordAwait, 57, 62),
        (TokenKind::KeywordBreak, 63, 68),
        (TokenKind::KeywordCallconv, 69, 77),
        (TokenKind::KeywordCatch, 78, 83),
        (TokenKind::KeywordComptime, 84, 92),
        (TokenKind::KeywordConst, 93, 98),
        (TokenKind::KeywordContinue, 99, 107),
        (TokenKind::KeywordDefer, 108, 113),
        (TokenKind::KeywordElse, 114, 118),
        (TokenKind::KeywordEnum, 119, 123),
        (TokenKind::KeywordErrdefer, 124, 132),
        (TokenKind::KeywordError, 133, 138),
        (TokenKind::KeywordExport, 139, 145),
        (TokenKind::KeywordExtern, 146, 152),
        (TokenKind::KeywordFn, 153, 155),
        (TokenKind::KeywordFor, 156, 159),
        (TokenKind::KeywordIf, 160, 162),
        (TokenKind::KeywordInline, 163, 169),
        (TokenKind::KeywordLinksection, 170, 181),
        (TokenKind::KeywordNoalias, 182, 189),
        (TokenKind::KeywordNoinline, 190, 198),
        (TokenKind::KeywordNosuspend, 199, 208),
        (TokenKind::KeywordOpaque, 209, 215),
        (TokenKind::KeywordOr, 216, 218),
        (TokenKind::KeywordOrelse, 219, 225),
        (TokenKind::KeywordPacked, 226, 232),
        (TokenKind::KeywordPub, 233, 236),
        (TokenKind::KeywordResume, 237, 243),
        (TokenKind::KeywordReturn, 244, 250),
        (TokenKind::KeywordStruct, 251, 257),
        (TokenKind::KeywordSuspend, 258, 265),
        (TokenKind::KeywordSwitch, 266, 272),
        (TokenKind::KeywordTest, 273, 277),
        (TokenKind::KeywordThreadlocal, 278, 289),
        (TokenKind::KeywordTry, 290, 293),
        (TokenKind::KeywordUnion, 294, 299),
        (TokenKind::KeywordUnreachable, 300, 311),
        (TokenKind::KeywordUsingnamespace, 312, 326),
        (TokenKind::KeywordVar, 327, 330),
        (TokenKind::KeywordVolatile, 331, 339),
        (TokenKind::KeywordWhile, 340, 345),
        (TokenKind::End, 345, 345),
    ],
);

const SYMBOLS: (&[u8], &[Row]) = (
    b"( ) [ ] { } , ; : . .. ... .* .? = => == ! != < <= > >= + ++ += +% +%= +| +|= - -= -% -%= -| -|= * ** *= *% *%= *| *|= / /= % %= & &= ^ ^= | || |= << <<= <<| <<|= >> >>= ~ ?",
    &[
        (TokenKind::LeftParen, 0, 1),
        (TokenKind::RightParen, 2, 3),
        (TokenKind::LeftBracket, 4, 5),
        (TokenKind::RightBracket, 6, 7),
        (TokenKind::LeftBrace, 8, 9),
        (TokenKind::RightBrace, 10, 11),
        (TokenKind::Comma, 12, 13),
        (TokenKind::Semicolon, 14, 15),
        (TokenKind::Colon, 16, 17),
        (TokenKind::Period, 18, 19),
        (TokenKind::Ellipsis2, 20, 22),
        (TokenKind::Ellipsis3, 23, 26),
        (TokenKind::PeriodAsterisk, 27, 29),
        (TokenKind::PeriodQuestionMark, 30, 32),
        (TokenKind::Equal, 33, 34),
        (TokenKind::EqualAngleRight, 35, 37),
        (TokenKind::EqualEqual, 38, 40),
        (TokenKind::Bang, 41, 42),
        (TokenKind::BangEqual, 43, 45),
        (TokenKind::AngleLeft, 46, 47),
        (TokenKind::AngleLeftEqual, 48, 50),
        (TokenKind::AngleRight, 51, 52),
        (TokenKind::AngleRightEqual, 53, 55),
        (TokenKind::Plus, 56, 57),
        (TokenKind::PlusPlus, 58, 60),
        (TokenKind::PlusEqual, 61, 63),
        (TokenKind::PlusPercent, 64, 66),
        (TokenKind::PlusPercentEqual, 67, 70),
        (TokenKind::PlusPipe, 71, 73),
        (TokenKind::PlusPipeEqual, 74, 77),
        (TokenKind::Minus, 78, 79),
        (TokenKind::MinusEqual, 80, 82),
        (TokenKind::MinusPercent, 83, 85),
        (TokenKind::MinusPercentEqual, 86, 89),
        (TokenKind::MinusPipe, 90, 92),
        (TokenKind::MinusPipeEqual, 93, 96),
        (TokenKind::Asterisk, 97, 98),
        (TokenKind::AsteriskAsterisk, 99, 101),
        (TokenKind::AsteriskEqual, 102, 104),
        (TokenKind::AsteriskPercent, 105, 107),
        (TokenKind::AsteriskPercentEqual, 108, 111),
        (TokenKind::AsteriskPipe, 112, 114),
        (TokenKind::AsteriskPipeEqual, 115, 118),
        (TokenKind::Slash, 119, 120),
        (TokenKind::SlashEqual, 121, 123),
        (TokenKind::Percent, 124, 125),
        (TokenKind::PercentEqual, 126, 128),
        (TokenKind::Ampersand, 129, 130),
        (TokenKind::AmpersandEqual, 131, 133),
        (TokenKind::Caret, 134, 135),
        (TokenKind::CaretEqual, 136, 138),
        (TokenKind::Pipe, 139, 140),
        (TokenKind::PipePipe, 141, 143),
        (TokenKind::PipeEqual, 144, 146),
        (TokenKind::AngleLeftAngleLeft, 147, 149),
        (TokenKind::AngleLeftAngleLeftEqual, 150, 153),
        (TokenKind::AngleLeftAngleLeftPipe, 154, 157),
        (TokenKind::AngleLeftAngleLeftPipeEqual, 158, 162),
        (TokenKind::AngleRightAngleRight, 163, 165),
        (TokenKind::AngleRightAngleRightEqual, 166, 169),
        (TokenKind::Tilde, 170, 171),
        (TokenKind::QuestionMark, 172, 173),
        (TokenKind::End, 173, 173),
    ],
);

const TEXTS: [(&[u8], &[Row]); 21] = [
    (b"", &[(TokenKind::End, 0, 0)]),
    (
        b"\xef\xbb\xbf_ a",
        &[
            (TokenKind::Underscore, 3, 4),
            (TokenKind::Identifier, 5, 6),
            (TokenKind::End, 6, 6),
        ],
    ),
    (
        b"__ @\"_\" @\"fn\" ",
        &[
            (TokenKind::Identifier, 0, 2),
            (TokenKind::Identifier, 3, 7),
            (TokenKind::Identifier, 8, 13),
            (TokenKind::End, 14, 14),
        ],
    ),
    (
        b"@\"\xc3\xa9\\x41\" @as @_",
        &[
            (TokenKind::Identifier, 0, 9),
            (TokenKind::Builtin, 10, 13),
            (TokenKind::Builtin, 14, 16),
            (TokenKind::End, 16, 16),
        ],
    ),
    (
        b"ifx If fn_1 _1",
        &[
            (TokenKind::Identifier, 0, 3),
            (TokenKind::Identifier, 4, 6),
            (TokenKind::Identifier, 7, 11),
            (TokenKind::Identifier, 12, 14),
            (TokenKind::End, 14, 14),
        ],
    ),
    (
        b"0 10 1_0 0xF_f 0o17 0b1_0",
        &[
            (TokenKind::Integer, 0, 1),
            (TokenKind::Integer, 2, 4),
            (TokenKind::Integer, 5, 8),
            (TokenKind::Integer, 9, 14),
            (TokenKind::Integer, 15, 19),
            (TokenKind::Integer, 20, 25),
            (TokenKind::End, 25, 25),
        ],
    ),
    (
        b"170141183460469231731687303715884105727",
        &[(TokenKind::Integer, 0, 39), (TokenKind::End, 39, 39)],
    ),
    (
        b"0x7fffffffffffffffffffffffffffffff",
        &[(TokenKind::Integer, 0, 34), (TokenKind::End, 34, 34)],
    ),
    (
        b"1..2",
        &[
            (TokenKind::Integer, 0, 1),
            (TokenKind::Ellipsis2, 1, 3),
            (TokenKind::Integer, 3, 4),
            (TokenKind::End, 4, 4),
        ],
    ),
    (
        b"1.x",
        &[
            (TokenKind::Integer, 0, 1),
            (TokenKind::Period, 1, 2),
            (TokenKind::Identifier, 2, 3),
            (TokenKind::End, 3, 3),
        ],
    ),
    (
        b"'a' ' ' '\"' '\\'' '\\u{1F600}' '\\x7f'",
        &[
            (TokenKind::Char, 0, 3),
            (TokenKind::Char, 4, 7),
            (TokenKind::Char, 8, 11),
            (TokenKind::Char, 12, 16),
            (TokenKind::Char, 17, 28),
            (TokenKind::Char, 29, 35),
            (TokenKind::End, 35, 35),
        ],
    ),
    (
        b"\"\" \"a\tb\" \"\\\"\" \"\\n\\r\\t\\\\\\'\"",
        &[
            (TokenKind::Str, 0, 2),
            (TokenKind::Str, 3, 8),
            (TokenKind::Str, 9, 13),
            (TokenKind::Str, 14, 26),
            (TokenKind::End, 26, 26),
        ],
    ),
    (
        b"\"\\u{0000010FFFF}\xf0\x90\x80\x80\xed\x9f\xbf\xef\xbf\xbd\xf4\x8f\xbf\xbf\"",
        &[(TokenKind::Str, 0, 31), (TokenKind::End, 31, 31)],
    ),
    (
        b"\"\xc2\x85\xe2\x80\xa8\xef\xbb\xbf\"",
        &[(TokenKind::Str, 0, 10), (TokenKind::End, 10, 10)],
    ),
    (
        b"// \t\xc3\xa9\r\na/b//",
        &[
            (TokenKind::Identifier, 8, 9),
            (TokenKind::Slash, 9, 10),
            (TokenKind::Identifier, 10, 11),
            (TokenKind::End, 13, 13),
        ],
    ),
    (
        b"///x\n//!y\na",
        &[(TokenKind::Identifier, 10, 11), (TokenKind::End, 11, 11)],
    ),
    (
        b"\\\\a\r\n \t\\\\b\"\\q\r\n;",
        &[
            (TokenKind::MultilineStr, 0, 13),
            (TokenKind::Semicolon, 15, 16),
            (TokenKind::End, 16, 16),
        ],
    ),
    (
        b"\\\\a\n\n\\\\b",
        &[
            (TokenKind::MultilineStr, 0, 3),
            (TokenKind::MultilineStr, 5, 8),
            (TokenKind::End, 8, 8),
        ],
    ),
    (
        b"\\\\a\n//\n\\\\",
        &[
            (TokenKind::MultilineStr, 0, 3),
            (TokenKind::MultilineStr, 7, 9),
            (TokenKind::End, 9, 9),
        ],
    ),
    (
        b"\\\\a\n  x",
        &[
            (TokenKind::MultilineStr, 0, 3),
            (TokenKind::Identifier, 6, 7),
            (TokenKind::End, 7, 7),
        ],
    ),
    (
        b"a.*.?...<<|=",
        &[
            (TokenKind::Identifier, 0, 1),
            (TokenKind::PeriodAsterisk, 1, 3),
            (TokenKind::PeriodQuestionMark, 3, 5),
            (TokenKind::Ellipsis3, 5, 8),
            (TokenKind::AngleLeftAngleLeftPipeEqual, 8, 12),
            (TokenKind::End, 12, 12),
        ],
    ),
];

const FAULTS: [(&[u8], LexFault); 87] = [
    (b"@", LexFault::BadByte { at: 0 }),
    (b"a @ b", LexFault::BadByte { at: 2 }),
    (b"@1", LexFault::BadByte { at: 0 }),
    (b"@\"\"", LexFault::BadByte { at: 0 }),
    (b"@\"", LexFault::OpenString { at: 1 }),
    (b"@\"a\n\"", LexFault::OpenString { at: 1 }),
    (b"0x", LexFault::BadNumber { at: 0 }),
    (b"1.0", LexFault::BadNumber { at: 0 }),
    (b"12a", LexFault::BadNumber { at: 0 }),
    (b"0b12", LexFault::BadNumber { at: 0 }),
    (b"012", LexFault::BadNumber { at: 0 }),
    (b"0_1", LexFault::BadNumber { at: 0 }),
    (b"1_", LexFault::BadNumber { at: 0 }),
    (b"1__0", LexFault::BadNumber { at: 0 }),
    (b"0x_1", LexFault::BadNumber { at: 0 }),
    (b"1e5", LexFault::BadNumber { at: 0 }),
    (b"0x1.5", LexFault::BadNumber { at: 0 }),
    (b"0o8", LexFault::BadNumber { at: 0 }),
    (b"0xg", LexFault::BadNumber { at: 0 }),
    (b"0X1", LexFault::BadNumber { at: 0 }),
    (
        b"170141183460469231731687303715884105728",
        LexFault::BadNumber { at: 0 },
    ),
    (
        b"0x80000000000000000000000000000000",
        LexFault::BadNumber { at: 0 },
    ),
    (
        b"999999999999999999999999999999999999999999",
        LexFault::BadNumber { at: 0 },
    ),
    (b"1\xc3\xa9", LexFault::BadByte { at: 1 }),
    (b"0x\x01", LexFault::BadNumber { at: 0 }),
    (b"'ab'", LexFault::BadByte { at: 2 }),
    (b"''", LexFault::BadByte { at: 1 }),
    (b"'", LexFault::OpenString { at: 0 }),
    (b"'a", LexFault::OpenString { at: 0 }),
    (b"'\t'", LexFault::BadByte { at: 1 }),
    (b"'\xc3\xa9'", LexFault::BadByte { at: 1 }),
    (b"'\\u{D800}'", LexFault::BadEscape { at: 1 }),
    (b"'\\n\t'", LexFault::BadByte { at: 3 }),
    (b"'\\x\t'", LexFault::BadByte { at: 3 }),
    (b"'\\x4'", LexFault::BadEscape { at: 1 }),
    (b"\"\\x0\"", LexFault::BadEscape { at: 1 }),
    (b"\"\\q\"", LexFault::BadEscape { at: 1 }),
    (b"\"\\u{}\"", LexFault::BadEscape { at: 1 }),
    (b"\"\\u{110000}\"", LexFault::BadEscape { at: 1 }),
    (b"\"\\u41\"", LexFault::BadEscape { at: 1 }),
    (b"\"\\u{4", LexFault::OpenString { at: 0 }),
    (b"\"\\x4\n", LexFault::OpenString { at: 0 }),
    (b"\"\\x4\x01", LexFault::BadByte { at: 4 }),
    (b"\"\\x4\xc3\xa9", LexFault::BadEscape { at: 1 }),
    (b"\"\\x4\xc3", LexFault::BadByte { at: 4 }),
    (b"\"\\u{110000\n", LexFault::BadEscape { at: 1 }),
    (b"\"\\", LexFault::OpenString { at: 0 }),
    (b"\"\\\r\n", LexFault::OpenString { at: 0 }),
    (b"\"\\\r\"", LexFault::BadByte { at: 2 }),
    (b"\"", LexFault::OpenString { at: 0 }),
    (b"\"a\n\"", LexFault::OpenString { at: 0 }),
    (b"\"a\r\n\"", LexFault::OpenString { at: 0 }),
    (b"\"a\r\"", LexFault::BadByte { at: 2 }),
    (b"\"\x7f\"", LexFault::BadByte { at: 1 }),
    (b"\"\x00\"", LexFault::BadByte { at: 1 }),
    (b"a\r", LexFault::BadByte { at: 1 }),
    (b"a\rb", LexFault::BadByte { at: 1 }),
    (b"\x7f", LexFault::BadByte { at: 0 }),
    (b"\x00", LexFault::BadByte { at: 0 }),
    (b"\x0b", LexFault::BadByte { at: 0 }),
    (b"#", LexFault::BadByte { at: 0 }),
    (b"$ `", LexFault::BadByte { at: 0 }),
    (b"\\a", LexFault::BadByte { at: 0 }),
    (b"\\", LexFault::BadByte { at: 0 }),
    (b"\xc3\xa9", LexFault::BadByte { at: 0 }),
    (b"a \xef\xbb\xbf", LexFault::BadByte { at: 2 }),
    (b"\xef\xbb", LexFault::BadByte { at: 0 }),
    (b"\"\xc0\x80\"", LexFault::BadByte { at: 1 }),
    (b"\"\xc1\xbf\"", LexFault::BadByte { at: 1 }),
    (b"\"\xe0\x80\x80\"", LexFault::BadByte { at: 1 }),
    (b"\"\xe0\x9f\xbf\"", LexFault::BadByte { at: 1 }),
    (b"\"\xed\xa0\x80\"", LexFault::BadByte { at: 1 }),
    (b"\"\xf0\x8f\xbf\xbf\"", LexFault::BadByte { at: 1 }),
    (b"\"\xf4\x90\x80\x80\"", LexFault::BadByte { at: 1 }),
    (b"\"\xf5\x80\x80\x80\"", LexFault::BadByte { at: 1 }),
    (b"\"\x80\"", LexFault::BadByte { at: 1 }),
    (b"\"\xe2\x82\"", LexFault::BadByte { at: 1 }),
    (b"// \xc3", LexFault::BadByte { at: 3 }),
    (b"// \x01", LexFault::BadByte { at: 3 }),
    (b"// a\r", LexFault::BadByte { at: 4 }),
    (b"// a\rb", LexFault::BadByte { at: 4 }),
    (b"\\\\a\r", LexFault::BadByte { at: 3 }),
    (b"\\\\a\n\\\\\x01", LexFault::BadByte { at: 6 }),
    (b"\"a\x01 '", LexFault::BadByte { at: 2 }),
    (b"1.0 \"", LexFault::BadNumber { at: 0 }),
    (b"' \"", LexFault::BadByte { at: 2 }),
    (b"__ @\"_\" @\"\" ", LexFault::BadByte { at: 8 }),
];

#[test]
fn texts(rt: HostRuntime) {
    has_tokens(&rt, rt.alloc(), KEYWORDS.0, KEYWORDS.1);
    has_tokens(&rt, rt.alloc(), SYMBOLS.0, SYMBOLS.1);
    for (text, rows) in &TEXTS {
        has_tokens(&rt, rt.alloc(), text, rows);
    }
    for (text, fault) in &FAULTS {
        has_fault(&rt, rt.alloc(), text, *fault);
    }
}
