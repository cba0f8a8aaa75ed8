// Keys as words, and words as keys.
ghost use Rattle.std.specs.Prelude.{◌≡◌, ℕ, ◌<◌, ◌≤◌, ◌%◌, ◌/◌, ◌^◌, [], ◌∷◌, ◌++◌, length, take, drop, slice_index, IfOk, OnErr};
ghost use Rattle.std.specs.Result.{result_ok};
ghost use Rattle.type_form.specs.Words.{words_of, Fits, key_of, guess, guess_type, guess_value, guess_other, word_of_bool, word_of_simple, simple_of_word, word_of_known, known_of_word, words_of_int, int_of_words, FitsInt};
ghost use Rattle.std.specs.Str.{bytes_eq};

use type_form::{Few, Index, Key, KeyBuf, SimpleTy, SimpleValue};

/// No key has these words.
#[derive(Clone, Copy, Debug, PartialEq, Eq)]
pub struct BadWords;

/// A simple type as a word.
fn simple_word(simple: SimpleTy) -> u64
    ensures { result ≡ word_of_simple simple }
{
    match simple {
        SimpleTy::Usize => 0,
        SimpleTy::Isize => 1,
        SimpleTy::Bool => 2,
        SimpleTy::Void => 3,
        SimpleTy::Noreturn => 4,
        SimpleTy::Metatype => 5,
        SimpleTy::ComptimeInt => 6,
        SimpleTy::AnyError => 7,
        SimpleTy::NullLiteral => 8,
        SimpleTy::UndefinedLiteral => 9,
        SimpleTy::EnumLiteral => 10,
        SimpleTy::GenericFunction => 11,
    }
}

/// The simple type of a word.
fn simple_of(word: u64) -> SimpleTy
    ensures { result ≡ simple_of_word word }
{
    match word {
        0 => SimpleTy::Usize,
        1 => SimpleTy::Isize,
        2 => SimpleTy::Bool,
        3 => SimpleTy::Void,
        4 => SimpleTy::Noreturn,
        5 => SimpleTy::Metatype,
        6 => SimpleTy::ComptimeInt,
        7 => SimpleTy::AnyError,
        8 => SimpleTy::NullLiteral,
        9 => SimpleTy::UndefinedLiteral,
        10 => SimpleTy::EnumLiteral,
        _ => SimpleTy::GenericFunction,
    }
}

/// A simple value as a word.
fn known_word(value: SimpleValue) -> u64
    ensures { result ≡ word_of_known value }
{
    match value {
        SimpleValue::True => 0,
        SimpleValue::False => 1,
        SimpleValue::Void => 2,
        SimpleValue::Null => 3,
        SimpleValue::Undefined => 4,
    }
}

/// The simple value of a word.
fn known_of(word: u64) -> SimpleValue
    ensures { result ≡ known_of_word word }
{
    match word {
        0 => SimpleValue::True,
        1 => SimpleValue::False,
        2 => SimpleValue::Void,
        3 => SimpleValue::Null,
        _ => SimpleValue::Undefined,
    }
}

/// A bool as a word.
fn bool_word(b: bool) -> u64
    ensures { result ≡ word_of_bool b }
{
    if b { 1 } else { 0 }
}

/// An integer as its sign and the two halves of its size, which for a negative one is counted
/// from -1.
fn int_words(number: i128) -> [u64; 3]
    ensures words { result ≡ words_of_int number }
    ensures fits { FitsInt number }
{
    if number >= 0 {
        let size = number as u128;
        [0, (size % (1u128 << 64)) as u64, (size >> 64) as u64]
    } else {
        let size = (-(number + 1)) as u128;
        [1, (size % (1u128 << 64)) as u64, (size >> 64) as u64]
    }
}

/// The integer of a sign and a size.
fn int_of(sign: u64, low: u64, high: u64) -> i128
    ensures { result ≡ int_of_words sign low high }
{
    let size = (low as u128 + ((high % (1u64 << 63)) as u128) * (1u128 << 64)) as i128;
    if sign == 1 { -size - 1 } else { size }
}

/// The word at a place, or 0 past the end.
fn word(words: &[u64], at: usize) -> u64
    ensures { result ≡ slice_index words.now at }
{
    if at < words.len() { words[at] } else { 0 }
}

/// The index in the word at a place.
fn index(words: &[u64], at: usize) -> Index
    ensures { result.0 ≡ slice_index words.now at }
{
    Index(word(words, at))
}

/// The lowest 32 bits of the word at a place.
fn low_half(words: &[u64], at: usize) -> u32
    ensures { result ≡ slice_index words.now at % 2 ^ 32 }
{
    (word(words, at) % (1u64 << 32)) as u32
}

/// The first 60 words.
#[tactic(auto, using(std::proofs::lemmas::List::take_all))]
fn first_words(words: &[u64]) -> Few
    ensures { result ≡ take 60 words.now }
{
    if words.len() < 60 {
        Few::of(words)
    } else {
        Few::of(&words[..60])
    }
}

/// Writes the words of a key: the number of its kind, and then what it holds. Takes no memory.
pub fn words_of(k: &Key, into: &mut KeyBuf)
    ensures words { into.new ≡ words_of k.now }
    ensures fits { Fits k.now }
    ensures some { 0 < length into.new }
    ensures few { length into.new ≤ 64 }
{
    match k {
        Key::SimpleType(simple) => into.set(&[1, simple_word(*simple)]),
        Key::IntType { is_signed, bits } => into.set(&[2, bool_word(*is_signed), u64::from(*bits)]),
        Key::ErrorSetType { names } => into.set(&[3, names.0]),
        Key::PointerType { is_const, child } => into.set(&[4, bool_word(*is_const), child.0]),
        Key::SliceType { is_const, child } => into.set(&[5, bool_word(*is_const), child.0]),
        Key::ArrayType { length, child } => into.set(&[6, *length, child.0]),
        Key::TerminatedType { length } => into.set(&[7, *length]),
        Key::OptionalType { child } => into.set(&[8, child.0]),
        Key::ErrorUnionType { set, payload } => into.set(&[9, set.0, payload.0]),
        Key::FileType { path } => into.set(&[10, path.0]),
        Key::ContainerType {
            decl,
            ordinal,
            captures,
        } => into.set(&[11, decl.0, u64::from(*ordinal), captures.0]),
        Key::FunctionType { params, result } => into.set(&[12, params.0, result.0]),
        Key::UnionTagType { union_ty } => into.set(&[13, union_ty.0]),
        Key::SimpleValue { ty, value } => into.set(&[14, ty.0, known_word(*value)]),
        Key::IntValue { ty, number } => {
            into.set(&[15, ty.0]);
            into.append(&int_words(*number));
        }
        Key::TagValue { ty, name } => into.set(&[16, ty.0, name.0]),
        Key::ErrorValue { ty, name } => into.set(&[17, ty.0, name.0]),
        Key::SomeValue { ty, payload } => into.set(&[18, ty.0, payload.0]),
        Key::GoodValue { ty, payload } => into.set(&[19, ty.0, payload.0]),
        Key::ListValue { ty, parts } => into.set(&[20, ty.0, parts.0]),
        Key::TextValue { ty, bytes } => into.set(&[21, ty.0, bytes.0]),
        Key::TaggedValue { ty, name, payload } => into.set(&[22, ty.0, name.0, payload.0]),
        Key::TypeValue { of } => into.set(&[23, of.0]),
        Key::FunctionValue { decl } => into.set(&[24, decl.0]),
        Key::AddressValue { ty, decl } => into.set(&[25, ty.0, decl.0]),
        Key::ConstantValue { ty, target } => into.set(&[26, ty.0, target.0]),
        Key::PlaceValue { ty, place } => into.set(&[27, ty.0, *place]),
        Key::PartValue {
            ty,
            whole,
            part,
            count,
        } => into.set(&[28, ty.0, whole.0, *part, *count]),
        Key::SliceValue {
            ty,
            pointer,
            low,
            high,
        } => into.set(&[29, ty.0, pointer.0, *low, *high]),
        Key::NamedDecl { container, name } => into.set(&[30, container.0, name.0]),
        Key::ComptimeDecl { file, number } => into.set(&[31, file.0, u64::from(*number)]),
        Key::KnownArg { value } => into.set(&[32, value.0]),
        Key::FunctionArg { ty, decl } => into.set(&[33, ty.0, decl.0]),
        Key::TypedArg { ty } => into.set(&[34, ty.0]),
        Key::Instance { decl, args } => into.set(&[35, decl.0, args.0]),
        Key::End(items) => {
            into.set(&[36]);
            into.append(items.as_slice());
        }
        Key::More { items, rest } => {
            into.set(&[37, rest.0]);
            into.append(items.as_slice());
        }
    }
}

/// The only key of the kinds of types that may have these words behind the number of its kind.
fn guess_type(kind: u64, words: &[u64]) -> Key
    ensures { result ≡ guess_type kind words.now }
{
    match kind {
        1 => Key::SimpleType(simple_of(word(words, 0))),
        2 => Key::IntType {
            is_signed: word(words, 0) == 1,
            bits: low_half(words, 1),
        },
        3 => Key::ErrorSetType {
            names: index(words, 0),
        },
        4 => Key::PointerType {
            is_const: word(words, 0) == 1,
            child: index(words, 1),
        },
        5 => Key::SliceType {
            is_const: word(words, 0) == 1,
            child: index(words, 1),
        },
        6 => Key::ArrayType {
            length: word(words, 0),
            child: index(words, 1),
        },
        7 => Key::TerminatedType {
            length: word(words, 0),
        },
        8 => Key::OptionalType {
            child: index(words, 0),
        },
        9 => Key::ErrorUnionType {
            set: index(words, 0),
            payload: index(words, 1),
        },
        10 => Key::FileType {
            path: index(words, 0),
        },
        11 => Key::ContainerType {
            decl: index(words, 0),
            ordinal: low_half(words, 1),
            captures: index(words, 2),
        },
        12 => Key::FunctionType {
            params: index(words, 0),
            result: index(words, 1),
        },
        _ => Key::UnionTagType {
            union_ty: index(words, 0),
        },
    }
}

/// The same of the kinds of values.
fn guess_value(kind: u64, words: &[u64]) -> Key
    ensures { result ≡ guess_value kind words.now }
{
    match kind {
        14 => Key::SimpleValue {
            ty: index(words, 0),
            value: known_of(word(words, 1)),
        },
        15 => Key::IntValue {
            ty: index(words, 0),
            number: int_of(word(words, 1), word(words, 2), word(words, 3)),
        },
        16 => Key::TagValue {
            ty: index(words, 0),
            name: index(words, 1),
        },
        17 => Key::ErrorValue {
            ty: index(words, 0),
            name: index(words, 1),
        },
        18 => Key::SomeValue {
            ty: index(words, 0),
            payload: index(words, 1),
        },
        19 => Key::GoodValue {
            ty: index(words, 0),
            payload: index(words, 1),
        },
        20 => Key::ListValue {
            ty: index(words, 0),
            parts: index(words, 1),
        },
        21 => Key::TextValue {
            ty: index(words, 0),
            bytes: index(words, 1),
        },
        22 => Key::TaggedValue {
            ty: index(words, 0),
            name: index(words, 1),
            payload: index(words, 2),
        },
        23 => Key::TypeValue {
            of: index(words, 0),
        },
        24 => Key::FunctionValue {
            decl: index(words, 0),
        },
        25 => Key::AddressValue {
            ty: index(words, 0),
            decl: index(words, 1),
        },
        26 => Key::ConstantValue {
            ty: index(words, 0),
            target: index(words, 1),
        },
        27 => Key::PlaceValue {
            ty: index(words, 0),
            place: word(words, 1),
        },
        28 => Key::PartValue {
            ty: index(words, 0),
            whole: index(words, 1),
            part: word(words, 2),
            count: word(words, 3),
        },
        _ => Key::SliceValue {
            ty: index(words, 0),
            pointer: index(words, 1),
            low: word(words, 2),
            high: word(words, 3),
        },
    }
}

/// The same of the other kinds.
fn guess_other(kind: u64, words: &[u64]) -> Key
    ensures { result ≡ guess_other kind words.now }
{
    match kind {
        30 => Key::NamedDecl {
            container: index(words, 0),
            name: index(words, 1),
        },
        31 => Key::ComptimeDecl {
            file: index(words, 0),
            number: low_half(words, 1),
        },
        32 => Key::KnownArg {
            value: index(words, 0),
        },
        33 => Key::FunctionArg {
            ty: index(words, 0),
            decl: index(words, 1),
        },
        34 => Key::TypedArg {
            ty: index(words, 0),
        },
        35 => Key::Instance {
            decl: index(words, 0),
            args: index(words, 1),
        },
        36 => Key::End(first_words(words)),
        _ => Key::More {
            items: first_words(from(words, 1)),
            rest: index(words, 0),
        },
    }
}

/// The words from a place on.
fn from(words: &[u64], at: usize) -> &[u64]
    ensures { result.now ≡ drop at words.now }
{
    if at < words.len() { &words[at..] } else { &[] }
}

/// The only key that may have these words.
fn guess(words: &[u64]) -> Key
    ensures { result ≡ guess words.now }
{
    let kind = word(words, 0);
    let rest = from(words, 1);
    if kind < 14 {
        guess_type(kind, rest)
    } else if kind < 30 {
        guess_value(kind, rest)
    } else {
        guess_other(kind, rest)
    }
}

/// Whether two lists of words are equal.
fn is_same(a: &[u64], b: &[u64]) -> bool
    ensures { result ≡ bytes_eq a.now b.now }
{
    a == b
}

/// The key with these words, or BadWords exactly where no key has them. Takes no memory.
pub fn key_of(words: &[u64]) -> Result<Key, BadWords>
    ensures key { result_ok result ≡ key_of words.now }
    ensures ok { IfOk result (λ k. words_of k ≡ words.now) }
    ensures bad { OnErr result ((k : Key) → Fits k → words_of k ≡ words.now → ⊥) }
{
    let found = guess(words);
    let mut again = KeyBuf::new();
    words_of(&found, &mut again);
    if is_same(again.as_slice(), words) {
        Ok(found)
    } else {
        Err(BadWords)
    }
}
