// Spellings of units, within the longest that is allowed.
ghost use Rattle.std.specs.Prelude.{◌≡◌, ◌+◌, ◌<◌, ◌≤◌, ◌↔◌, ◌++◌, min, length, OnOk, OnErr, IfOk, map, codes};
ghost use Rattle.type_form.specs.Spelling.{decl_text, arg_text, commas, place_text, number_text, instance_text, unit_text};
ghost use Rattle.type_form.specs.declared.spelling.SpellFault.TheVariants.{TooLong, OutOfMemory};

use crate::measure::{add, args_len, decl_len, number_len, place_len, text_len};
use crate::spell::{put_args, put_decl, put_place};
use crate::text::{put, put_number};
use crate::unit::{Instance, Unit};
use std::alloc::{AllocError, Global};
use zw_bytes::ByteBuf;

/// Why a unit is not spelled.
#[derive(Clone, Copy, Debug, PartialEq, Eq)]
pub enum SpellFault {
    /// The spelling has more than 4,096 bytes.
    TooLong,
    OutOfMemory,
}

impl From<AllocError> for SpellFault {
    ghost from_gives = { λ _ e. e ≡ OutOfMemory };

    fn from(_error: AllocError) -> SpellFault {
        SpellFault::OutOfMemory
    }
}

/// Appends an instance.
#[tactic(auto, unfolding(crate::specs::Spelling::instance_text))]
fn put_instance(out: &mut Vec<u8>, instance: &Instance) -> Result<(), AllocError>
    ensures { OnOk result (out.new.items ≡ out.old.items ++ instance_text instance.now) }
{
    put_decl(out, &instance.decl)?;
    put(out, b"(")?;
    put_args(out, instance.args.as_slice())?;
    put(out, b")")
}

/// Appends a unit.
#[tactic(auto, unfolding(crate::specs::Spelling::unit_text))]
fn put_unit(out: &mut Vec<u8>, unit: &Unit) -> Result<(), AllocError>
    ensures { OnOk result (out.new.items ≡ out.old.items ++ unit_text unit.now) }
{
    match unit {
        Unit::Decl(decl) => {
            put(out, b"decl ")?;
            put_decl(out, decl)
        }
        Unit::Body(instance) => {
            put(out, b"body ")?;
            put_instance(out, instance)
        }
        Unit::ErrorSet(instance) => {
            put(out, b"errset ")?;
            put_instance(out, instance)
        }
        Unit::Fields(container) => {
            put(out, b"fields ")?;
            put_place(out, container)
        }
        Unit::Code(instance) => {
            put(out, b"code ")?;
            put_instance(out, instance)
        }
        Unit::Comptime { file, number } => {
            put(out, b"comptime ")?;
            put(out, file.as_slice())?;
            put(out, b"#")?;
            put_number(out, u128::from(*number))
        }
    }
}

/// The length of an instance.
#[tactic(auto, using(crate::proofs::LengthLemmas::instance_lengths))]
fn instance_len(instance: &Instance) -> u32
    ensures { result ≡ min (length (instance_text instance.now)) 4097 }
{
    let front = add(decl_len(&instance.decl), 2);
    add(front, args_len(instance.args.as_slice()))
}

/// The length of a unit's spelling. Takes no memory, and stops at 4,097.
#[tactic(auto, using(crate::proofs::LengthLemmas::unit_lengths))]
pub fn unit_len(u: &Unit) -> u32
    ensures { result ≡ min (length (unit_text u.now)) 4097 }
{
    match u {
        Unit::Decl(decl) => add(5, decl_len(decl)),
        Unit::Body(instance) => add(5, instance_len(instance)),
        Unit::ErrorSet(instance) => add(7, instance_len(instance)),
        Unit::Fields(container) => add(7, place_len(container)),
        Unit::Code(instance) => add(5, instance_len(instance)),
        Unit::Comptime { file, number } => {
            let front = add(10, text_len(file.as_slice()));
            add(front, number_len(u128::from(*number)))
        }
    }
}

/// Appends bytes for which there is room.
fn append(into: &mut ByteBuf, bytes: &[u8])
    requires { length bytes.now ≤ into.old.spare }
    ensures { into.new.bytes ≡ into.old.bytes ++ bytes.now }
{
    for byte in bytes {
        into.put(*byte);
    }
}

/// The unit as text.
fn text_of(alloc: Global, u: &Unit) -> Result<Vec<u8>, AllocError>
    ensures { IfOk result (λ text. text.items ≡ unit_text u.now) }
{
    let mut text = Vec::new(alloc);
    put_unit(&mut text, u)?;
    Ok(text)
}

/// Appends the spelling of a unit to `into`. It is TooLong exactly where the spelling has more than
/// 4,096 bytes, which is found without memory. An Err leaves the bytes of `into` as they were.
pub fn spell_unit(alloc: Global, u: &Unit, into: &mut ByteBuf) -> Result<(), SpellFault>
    ensures ok { OnOk result (into.new.bytes ≡ into.old.bytes ++ unit_text u.now) }
    ensures short { OnOk result (length (unit_text u.now) ≤ 4096) }
    ensures too_long { (result ≡ Err SpellFault.TooLong) ↔ (4096 < length (unit_text u.now)) }
    ensures err { OnErr result (into.new.bytes ≡ into.old.bytes) }
{
    if unit_len(u) > 4096 {
        return Err(SpellFault::TooLong);
    }
    let text = text_of(alloc, u)?;
    into.reserve(text.len())?;
    append(into, text.as_slice());
    Ok(())
}
