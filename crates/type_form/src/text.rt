// The leaves of spellings: names, numbers and quoted bytes.
ghost use Rattle.std.specs.Prelude.{◌≡◌, ℕ, [], ◌∷◌, ◌++◌, ◌<◌, OnOk, length, if◌then◌else◌};
ghost use Rattle.std.specs.List.{list_all, list_any};
ghost use Rattle.std.specs.Str.{bytes_eq};
ghost use Rattle.type_form.specs.Spelling.{is_letter, is_word_byte, hex_digit, quoted_byte, quoted, is_keyword, is_plain, name_text, number_text, int_text};

use std::alloc::{AllocError, Global};

/// Appends bytes.
pub fn put(out: &mut Vec<u8>, bytes: &[u8]) -> Result<(), AllocError>
    ensures { OnOk result (out.new.items ≡ out.old.items ++ bytes.now) }
{
    out.extend_from_slice(bytes)
}

/// A letter or `_`.
fn is_letter(byte: u8) -> bool
    ensures { result ≡ is_letter byte }
{
    (65 <= byte && byte <= 90) || (97 <= byte && byte <= 122) || byte == 95
}

/// A letter, a digit or `_`.
pub fn is_word_byte(byte: u8) -> bool
    ensures { result ≡ is_word_byte byte }
{
    is_letter(byte) || (48 <= byte && byte <= 57)
}

/// A hexadecimal digit, in lower case.
fn hex_digit(n: u8) -> u8
    requires { n < 16 }
    ensures { result ≡ hex_digit n }
{
    if n < 10 { 48 + n } else { 87 + n }
}

/// Appends a byte in quotes: itself, or `\xNN`.
#[tactic(auto, unfolding(crate::specs::Spelling::quoted_byte))]
fn put_quoted_byte(out: &mut Vec<u8>, byte: u8) -> Result<(), AllocError>
    ensures { OnOk result (out.new.items ≡ out.old.items ++ quoted_byte byte) }
{
    if is_word_byte(byte) {
        put(out, &[byte])
    } else {
        put(out, &[92, 120, hex_digit(byte / 16), hex_digit(byte % 16)])
    }
}

/// Appends bytes as they stand in quotes.
#[tactic(auto, using(crate::proofs::TextLemmas::quoted_steps))]
pub fn put_quoted(out: &mut Vec<u8>, bytes: &[u8]) -> Result<(), AllocError>
    ensures { OnOk result (out.new.items ≡ out.old.items ++ quoted bytes.now) }
{
    for byte in bytes {
        put_quoted_byte(out, *byte)?;
    }
    Ok(())
}

/// Whether all bytes are letters, digits or `_`.
fn are_word_bytes(bytes: &[u8]) -> bool
    ensures { result ≡ list_all is_word_byte bytes.now }
{
    bytes.iter().all(|byte| is_word_byte(*byte))
}

/// The keywords, which are no identifiers (Zig Language Reference, Keyword Reference).
const KEYWORDS: [&[u8]; 49] = [
    b"addrspace",
    b"align",
    b"allowzero",
    b"and",
    b"anyframe",
    b"anytype",
    b"asm",
    b"async",
    b"await",
    b"break",
    b"callconv",
    b"catch",
    b"comptime",
    b"const",
    b"continue",
    b"defer",
    b"else",
    b"enum",
    b"errdefer",
    b"error",
    b"export",
    b"extern",
    b"fn",
    b"for",
    b"if",
    b"inline",
    b"linksection",
    b"noalias",
    b"noinline",
    b"nosuspend",
    b"opaque",
    b"or",
    b"orelse",
    b"packed",
    b"pub",
    b"resume",
    b"return",
    b"struct",
    b"suspend",
    b"switch",
    b"test",
    b"threadlocal",
    b"try",
    b"union",
    b"unreachable",
    b"usingnamespace",
    b"var",
    b"volatile",
    b"while",
];

/// Whether one of the texts is this one.
fn is_among(texts: &[&[u8]], name: &[u8]) -> bool
    ensures { result ≡ list_any (λ k. bytes_eq k.now name.now) texts.now }
{
    texts.iter().any(|text| *text == name)
}

/// Whether a name is spelled like a keyword.
fn is_keyword(name: &[u8]) -> bool
    ensures { result ≡ is_keyword name.now }
{
    is_among(&KEYWORDS, name)
}

/// Whether a name can be written as it is.
#[tactic(auto, unfolding(crate::specs::Spelling::is_plain))]
pub fn is_plain(name: &[u8]) -> bool
    ensures { result ≡ is_plain name.now }
{
    match name {
        [] => false,
        [first, rest @ ..] => is_letter(*first) && (are_word_bytes(rest) && !is_keyword(name)),
    }
}

/// Appends a name.
#[tactic(auto, unfolding(crate::specs::Spelling::name_text))]
pub fn put_name(out: &mut Vec<u8>, name: &[u8]) -> Result<(), AllocError>
    ensures { OnOk result (out.new.items ≡ out.old.items ++ name_text name.now) }
{
    if is_plain(name) {
        return put(out, name);
    }
    put(out, b"@\"")?;
    put_quoted(out, name)?;
    put(out, b"\"")
}

/// Appends a number in decimal digits.
#[tactic(auto, using(crate::proofs::TextLemmas::number_steps))]
pub fn put_number(out: &mut Vec<u8>, n: u128) -> Result<(), AllocError>
    ensures { OnOk result (out.new.items ≡ out.old.items ++ number_text n) }
{
    if n < 10 {
        return put(out, &[48 + n as u8]);
    }
    put_number(out, n / 10)?;
    put(out, &[48 + (n % 10) as u8])
}

/// An integer as its sign and its size.
#[tactic(auto, using(crate::proofs::TextLemmas::int_texts))]
pub fn sign_and_size(n: i128) -> (bool, u128)
    ensures { int_text n ≡ (if result.0 then 45 ∷ number_text result.1 else number_text result.1) }
{
    if n >= 0 {
        (false, n as u128)
    } else {
        (true, (-(n + 1)) as u128 + 1)
    }
}

/// Appends an integer in decimal digits, behind a minus sign where it is negative.
pub fn put_int(out: &mut Vec<u8>, n: i128) -> Result<(), AllocError>
    ensures { OnOk result (out.new.items ≡ out.old.items ++ int_text n) }
{
    let (is_negative, size) = sign_and_size(n);
    if is_negative {
        put(out, b"-")?;
    }
    put_number(out, size)
}
