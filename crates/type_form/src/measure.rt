// Lengths of spellings, counted without memory up to one byte above the longest that is allowed.
ghost use Rattle.std.specs.Prelude.{◌≡◌, ◌+◌, ◌∷◌, [], ◌++◌, map, codes, min, length, ◌≤◌, nat_lt, if◌then◌else◌};
ghost use Rattle.type_form.specs.Spelling.{simple_text, known_text, name_text, number_text, int_text, quoted, quoted_byte, commas, in_parens, ty_text, place_text, mark_text, value_text, value_ty_text, decl_text, arg_text};

use crate::spell::{known_text, mark, simple_text};
use crate::text::{is_plain, is_word_byte, sign_and_size};
use crate::tree::{Arg, DeclPath, Ty, Value};
use zw_base::Bytes;

/// The sum of two lengths, where it is counted.
pub fn add(a: u32, b: u32) -> u32
    ensures { result ≡ min (a + b) 4097 }
{
    a.saturating_add(b).min(4097)
}

/// The length of a list so far and one more item, at the place `i`, behind a comma if it is not
/// the first.
fn after(sum: u32, i: usize, item: u32) -> u32
    requires { item ≤ 4097 }
    ensures { result ≡ (if nat_lt 0 i then min (sum + 1 + item) 4097 else item) }
{
    if i > 0 { add(add(sum, 1), item) } else { item }
}

/// The length of a text, where it is counted.
pub fn text_len(text: &[u8]) -> u32
    ensures { result ≡ min (length text.now) 4097 }
{
    if text.len() > 4097 {
        4097
    } else {
        text.len() as u32
    }
}

/// The length of a byte in quotes.
#[tactic(auto, unfolding(crate::specs::Spelling::quoted_byte))]
fn quoted_byte_len(byte: u8) -> u32
    ensures { result ≡ length (quoted_byte byte) }
{
    if is_word_byte(byte) { 1 } else { 4 }
}

/// The length of bytes as they stand in quotes.
#[tactic(auto, using(crate::proofs::LengthLemmas::quoted_lengths))]
fn quoted_len(bytes: &[u8]) -> u32
    ensures { result ≡ min (length (quoted bytes.now)) 4097 }
{
    let mut sum = 0;
    for byte in bytes {
        sum = add(sum, quoted_byte_len(*byte));
    }
    sum
}

/// The length of a name.
#[tactic(auto, using(crate::proofs::LengthLemmas::name_lengths))]
fn name_len(name: &[u8]) -> u32
    ensures { result ≡ min (length (name_text name.now)) 4097 }
{
    if is_plain(name) {
        text_len(name)
    } else {
        add(3, quoted_len(name))
    }
}

/// The length of a number in decimal digits.
#[tactic(auto, using(crate::proofs::LengthLemmas::number_lengths))]
pub fn number_len(n: u128) -> u32
    ensures { result ≡ min (length (number_text n)) 4097 }
{
    if n < 10 {
        return 1;
    }
    add(number_len(n / 10), 1)
}

/// The length of an integer in decimal digits.
fn int_len(n: i128) -> u32
    ensures { result ≡ min (length (int_text n)) 4097 }
{
    let (is_negative, size) = sign_and_size(n);
    if is_negative {
        add(1, number_len(size))
    } else {
        number_len(size)
    }
}

/// The length of names with commas between them.
#[tactic(auto, using(crate::proofs::LengthLemmas::names_lengths))]
fn names_len(names: &[Bytes]) -> u32
    ensures { result ≡ min (length (commas (map name_text names.now))) 4097 }
{
    let mut sum = 0;
    for (i, name) in names.iter().enumerate() {
        sum = after(sum, i, name_len(name.as_slice()));
    }
    sum
}

/// The length of a type's spelling. Takes no memory, and stops at 4,097.
#[cycle(measure)]
#[tactic(auto, using(crate::proofs::LengthLemmas::ty_lengths))]
pub fn spelled_len(t: &Ty) -> u32
    ensures { result ≡ min (length (ty_text t.now)) 4097 }
{
    match t {
        Ty::Simple(simple) => text_len(simple_text(*simple)),
        Ty::Int { bits, .. } => add(1, number_len(u128::from(*bits))),
        Ty::ErrorSet(names) => add(7, names_len(names.as_slice())),
        Ty::Pointer { is_const, child } => add(
            if *is_const { 7 } else { 1 },
            spelled_len(child.get()),
        ),
        Ty::Slice { is_const, child } => add(
            if *is_const { 8 } else { 2 },
            spelled_len(child.get()),
        ),
        Ty::Array { length, child } => {
            let bounds = add(2, number_len(u128::from(*length)));
            add(bounds, spelled_len(child.get()))
        }
        Ty::Terminated { length } => add(6, number_len(u128::from(*length))),
        Ty::Optional(child) => add(1, spelled_len(child.get())),
        Ty::ErrorUnion { set, payload } => {
            let front = add(spelled_len(set.get()), 1);
            add(front, spelled_len(payload.get()))
        }
        Ty::File(path) => add(2, text_len(path.as_slice())),
        Ty::Container {
            decl,
            ordinal,
            captures,
        } => {
            let front = add(decl_len(decl.get()), 1);
            let numbered = add(front, number_len(u128::from(*ordinal)));
            add(numbered, captures_len(captures.as_slice()))
        }
        Ty::Function { params, result } => {
            let front = add(4, tys_len(params.as_slice()));
            add(front, spelled_len(result.get()))
        }
        Ty::UnionTag(union_ty) => add(6, spelled_len(union_ty.get())),
    }
}

/// The length of types with commas between them.
#[cycle(measure)]
#[tactic(auto, using(crate::proofs::LengthLemmas::tys_lengths))]
fn tys_len(tys: &[Ty]) -> u32
    ensures { result ≡ min (length (commas (map ty_text tys.now))) 4097 }
{
    let mut sum = 0;
    for (i, ty) in tys.iter().enumerate() {
        sum = after(sum, i, spelled_len(ty));
    }
    sum
}

/// The length of a file or a container as a unit names it.
#[cycle(measure)]
#[tactic(auto, using(crate::proofs::SpellLemmas::places))]
pub fn place_len(container: &Ty) -> u32
    ensures { result ≡ min (length (place_text container.now)) 4097 }
{
    match container {
        Ty::File(path) => text_len(path.as_slice()),
        Ty::Simple(_) => spelled_len(container),
        Ty::Int { .. } => spelled_len(container),
        Ty::ErrorSet(_) => spelled_len(container),
        Ty::Pointer { .. } => spelled_len(container),
        Ty::Slice { .. } => spelled_len(container),
        Ty::Array { .. } => spelled_len(container),
        Ty::Terminated { .. } => spelled_len(container),
        Ty::Optional(_) => spelled_len(container),
        Ty::ErrorUnion { .. } => spelled_len(container),
        Ty::Container { .. } => spelled_len(container),
        Ty::Function { .. } => spelled_len(container),
        Ty::UnionTag(_) => spelled_len(container),
    }
}

/// The length of what a container captures, in parentheses where it captures anything.
#[cycle(measure)]
#[tactic(auto, using(crate::proofs::LengthLemmas::paren_lengths))]
fn captures_len(captures: &[Arg]) -> u32
    ensures { result ≡ min (length (in_parens (map arg_text captures.now))) 4097 }
{
    if captures.is_empty() {
        return 0;
    }
    add(2, args_len(captures))
}

/// The length of arguments with commas between them.
#[cycle(measure)]
#[tactic(auto, using(crate::proofs::LengthLemmas::args_lengths))]
pub fn args_len(args: &[Arg]) -> u32
    ensures { result ≡ min (length (commas (map arg_text args.now))) 4097 }
{
    let mut sum = 0;
    for (i, arg) in args.iter().enumerate() {
        sum = after(sum, i, arg_len(arg));
    }
    sum
}

/// The length of an argument.
#[cycle(measure)]
#[tactic(auto, using(crate::proofs::LengthLemmas::arg_lengths))]
pub fn arg_len(arg: &Arg) -> u32
    ensures { result ≡ min (length (arg_text arg.now)) 4097 }
{
    match arg {
        Arg::Known(value) => {
            let front = add(value_ty_len(value), 1);
            add(front, value_len(value))
        }
        Arg::Function { ty, decl } => {
            let front = add(spelled_len(ty), 1);
            add(front, decl_len(decl))
        }
        Arg::Typed(ty) => spelled_len(ty),
    }
}

/// The length of a declaration.
#[cycle(measure)]
#[tactic(auto, using(crate::proofs::LengthLemmas::decl_lengths))]
pub fn decl_len(decl: &DeclPath) -> u32
    ensures { result ≡ min (length (decl_text decl.now)) 4097 }
{
    match decl {
        DeclPath::Named { container, name } => {
            let front = add(place_len(container.get()), text_len(mark(container.get())));
            add(front, name_len(name.as_slice()))
        }
        DeclPath::Comptime { file, number } => {
            let front = add(text_len(file.as_slice()), 10);
            add(front, number_len(u128::from(*number)))
        }
    }
}

/// The length of a value's type.
#[cycle(measure)]
#[tactic(auto, using(crate::proofs::SpellLemmas::value_ty_texts))]
pub fn value_ty_len(value: &Value) -> u32
    ensures { result ≡ min (length (value_ty_text value.now)) 4097 }
{
    match value {
        Value::Simple { ty, .. } => spelled_len(ty),
        Value::Int { ty, .. } => spelled_len(ty),
        Value::Tag { ty, .. } => spelled_len(ty),
        Value::Error { ty, .. } => spelled_len(ty),
        Value::Some { ty, .. } => spelled_len(ty),
        Value::Good { ty, .. } => spelled_len(ty),
        Value::List { ty, .. } => spelled_len(ty),
        Value::Text { ty, .. } => spelled_len(ty),
        Value::Tagged { ty, .. } => spelled_len(ty),
        Value::OfType(_) => 4,
        Value::Function(_) => 9,
        Value::Address { ty, .. } => spelled_len(ty),
        Value::Constant { ty, .. } => spelled_len(ty),
        Value::Place { ty, .. } => spelled_len(ty),
        Value::Part { ty, .. } => spelled_len(ty),
        Value::Slice { ty, .. } => spelled_len(ty),
    }
}

/// The length of a value.
#[cycle(measure)]
#[tactic(auto, using(crate::proofs::LengthLemmas::value_lengths))]
pub fn value_len(value: &Value) -> u32
    ensures { result ≡ min (length (value_text value.now)) 4097 }
{
    match value {
        Value::Simple { value, .. } => text_len(known_text(*value)),
        Value::Int { number, .. } => int_len(*number),
        Value::Tag { name, .. } => add(1, name_len(name.as_slice())),
        Value::Error { name, .. } => add(6, name_len(name.as_slice())),
        Value::Some { payload, .. } => add(1, value_len(payload.get())),
        Value::Good { payload, .. } => add(1, value_len(payload.get())),
        Value::List { parts, .. } => add(2, values_len(parts.as_slice())),
        Value::Text { bytes, .. } => add(2, quoted_len(bytes.as_slice())),
        Value::Tagged { name, payload, .. } => {
            let front = add(3, name_len(name.as_slice()));
            add(front, value_len(payload.get()))
        }
        Value::OfType(ty) => spelled_len(ty),
        Value::Function(decl) => decl_len(decl),
        Value::Address { decl, .. } => add(1, decl_len(decl)),
        Value::Constant { target, .. } => {
            let front = add(4, value_ty_len(target.get()));
            add(front, value_len(target.get()))
        }
        Value::Place { place, .. } => add(10, number_len(u128::from(*place))),
        Value::Part { whole, part, .. } => {
            let front = add(value_len(whole.get()), 1);
            add(front, number_len(u128::from(*part)))
        }
        Value::Slice {
            pointer,
            low,
            high,
            ..
        } => {
            let low = add(4, number_len(u128::from(*low)));
            let range = add(low, number_len(u128::from(*high)));
            add(value_len(pointer.get()), range)
        }
    }
}

/// The length of values with commas between them.
#[cycle(measure)]
#[tactic(auto, using(crate::proofs::LengthLemmas::values_lengths))]
fn values_len(values: &[Value]) -> u32
    ensures { result ≡ min (length (commas (map value_text values.now))) 4097 }
{
    let mut sum = 0;
    for (i, value) in values.iter().enumerate() {
        sum = after(sum, i, value_len(value));
    }
    sum
}
