// Words that stand for what a form holds beside its children.
ghost use Rattle.std.specs.Prelude.{◌≡◌, ◌++◌, ◌%◌, ◌/◌, ◌^◌, OnOk};
ghost use Rattle.zir_same.specs.Labels as spec;

use std::alloc::AllocError;
use zir_form::{BinaryOperator, Builtin, Primitive, UnaryOperator};
use zw_base::Bytes;

/// Words behind others.
pub fn put_words(words: &mut Vec<u64>, more: &[u64]) -> Result<(), AllocError>
    ensures { OnOk result (words.new.items ≡ words.old.items ++ more.now) }
{
    words.extend_from_slice(more)
}

/// Bytes behind words.
pub fn put_bytes(words: &mut Vec<u64>, bytes: &[u8]) -> Result<(), AllocError>
    ensures { OnOk result (words.new.items ≡ words.old.items ++ bytes.now) }
{
    for byte in bytes {
        words.push(u64::from(*byte))?;
    }
    Ok(())
}

/// A name behind words: each byte as one more than it, and then 0.
#[tactic(auto, unfolding(crate::specs::Labels::name_words))]
pub fn put_name(words: &mut Vec<u64>, name: &[u8]) -> Result<(), AllocError>
    ensures { OnOk result (words.new.items ≡ words.old.items ++ spec.name_words name.now) }
{
    let mut rest = name;
    while let [byte, more @ ..] = rest {
        words.push(u64::from(*byte) + 1)?;
        rest = more;
    }
    words.push(0)?;
    Ok(())
}

/// Names behind words.
#[tactic(auto, unfolding(crate::specs::Labels::names_words))]
pub fn put_names(words: &mut Vec<u64>, names: &[Bytes]) -> Result<(), AllocError>
    ensures { OnOk result (words.new.items ≡ words.old.items ++ spec.names_words names.now) }
{
    let mut rest = names;
    while let [name, more @ ..] = rest {
        put_name(words, name.as_slice())?;
        rest = more;
    }
    Ok(())
}

/// Whether a number is there.
pub fn is_some_word(number: Option<u32>) -> u64
    ensures { result ≡ spec.is_some_word number }
{
    match number {
        Some(_) => 1,
        None => 0,
    }
}

/// The number, where it is there.
pub fn some_word(number: Option<u32>) -> u64
    ensures { result ≡ spec.some_word number }
{
    match number {
        Some(number) => u64::from(number),
        None => 0,
    }
}

/// The lower half of a value.
pub fn low(value: u128) -> u64
    ensures { result ≡ value % 2 ^ 64 }
{
    (value % (1u128 << 64)) as u64
}

/// The upper half of a value.
pub fn high(value: u128) -> u64
    ensures { result ≡ value / 2 ^ 64 }
{
    (value >> 64) as u64
}

/// Where a primitive stands in the list of them.
#[tactic(auto, unfolding(crate::specs::Labels::primitive_number))]
pub fn primitive_number(primitive: Primitive) -> u8
    ensures { result ≡ spec.primitive_number primitive }
{
    match primitive {
        Primitive::Unsigned(_) => 0,
        Primitive::Signed(_) => 1,
        Primitive::Usize => 2,
        Primitive::Isize => 3,
        Primitive::Bool => 4,
        Primitive::Void => 5,
        Primitive::Noreturn => 6,
        Primitive::Type => 7,
        Primitive::ComptimeInt => 8,
        Primitive::AnyError => 9,
        Primitive::True => 10,
        Primitive::False => 11,
        Primitive::Null => 12,
        Primitive::Undefined => 13,
    }
}

/// The width of a primitive; 0 of one without.
pub fn primitive_width(primitive: Primitive) -> u8
    ensures { result ≡ spec.primitive_width primitive }
{
    match primitive {
        Primitive::Unsigned(width) => width,
        Primitive::Signed(width) => width,
        _ => 0,
    }
}

/// Where an operator between two operands stands in the list of them.
#[tactic(auto, unfolding(crate::specs::Labels::binary_number))]
pub fn binary_number(operator: BinaryOperator) -> u8
    ensures { result ≡ spec.binary_number operator }
{
    operator as u8
}

/// Where an operator before its operand stands in the list of them.
#[tactic(auto, unfolding(crate::specs::Labels::unary_number))]
pub fn unary_number(operator: UnaryOperator) -> u8
    ensures { result ≡ spec.unary_number operator }
{
    operator as u8
}

/// Where a builtin stands in the list of them.
#[tactic(auto, unfolding(crate::specs::Labels::builtin_number))]
pub fn builtin_number(builtin: Builtin) -> u8
    ensures { result ≡ spec.builtin_number builtin }
{
    builtin as u8
}
