// What stands in quotes, with its escapes resolved (Zig Language Reference 0.14, "Escape Sequences").
ghost use Rattle.std.specs.Prelude.{◌≡◌, ◌≤◌, ◌+◌, ◌++◌, length, IfOk, OnOk};
ghost use Rattle.zir_form.specs.Escapes.{letter_value, pair_value, code_value, escape_value, escape_length, value_from};

use crate::bytes::{behind, byte_at, digits_at_front, hex_value};
use std::alloc::{AllocError, Global};

/// What a letter stands for behind a backslash.
#[tactic(auto, unfolding(crate::specs::Escapes::letter_value))]
pub fn letter_value(byte: u8) -> u8
    ensures { result ≡ letter_value byte }
{
    if byte == b'n' {
        b'\n'
    } else if byte == b'r' {
        b'\r'
    } else if byte == b't' {
        b'\t'
    } else {
        byte
    }
}

/// Appends the byte that two hexadecimal digits make.
#[tactic(auto, unfolding(crate::specs::Escapes::pair_value))]
fn put_pair(high: u8, low: u8, out: &mut Vec<u8>) -> Result<(), AllocError>
    ensures { OnOk result (out.new.items ≡ out.old.items ++ pair_value high low) }
{
    match hex_value(high) {
        Some(sixteens) => match hex_value(low) {
            Some(ones) => {
                out.push(16 * sixteens + ones)?;
                Ok(())
            }
            None => Ok(()),
        },
        None => Ok(()),
    }
}

/// Appends the UTF-8 of a code point that is no surrogate.
#[tactic(auto, unfolding(crate::specs::Escapes::code_value))]
fn put_code(number: u32, out: &mut Vec<u8>) -> Result<(), AllocError>
    ensures { OnOk result (out.new.items ≡ out.old.items ++ code_value number) }
{
    match char::from_u32(number) {
        Some(c) => {
            let mut room = [0u8; 4];
            let encoded = c.encode_utf8(&mut room);
            out.extend_from_slice(encoded.as_bytes())
        }
        None => Ok(()),
    }
}

/// Appends what an escape stands for, from behind its backslash, and answers how many bytes it has
/// there.
#[tactic(auto, unfolding(crate::specs::Escapes::escape_value, crate::specs::Escapes::escape_length))]
fn put_escape(rest: &[u8], out: &mut Vec<u8>) -> Result<usize, AllocError>
    ensures value { OnOk result (out.new.items ≡ out.old.items ++ escape_value rest.now) }
    ensures length { IfOk result (λ n. n ≡ escape_length rest.now) }
    ensures small { IfOk result (λ n. n ≤ length rest.now + 3) }
{
    let letter = byte_at(rest, 0);
    if letter == b'x' {
        put_pair(byte_at(rest, 1), byte_at(rest, 2), out)?;
        Ok(3)
    } else if letter == b'u' {
        let digits = digits_at_front(behind(rest, 2));
        put_code(digits.number, out)?;
        Ok(digits.count + 3)
    } else {
        out.push(letter_value(letter))?;
        Ok(1)
    }
}

/// What stands up to the closing quote.
pub fn quoted_value(alloc: Global, quoted: &[u8]) -> Result<Vec<u8>, AllocError>
    ensures { IfOk result (λ v. v.items ≡ value_from 0 quoted.now) }
{
    let mut value = Vec::new(alloc);
    let mut at = 0;
    while at < quoted.len() {
        let byte = quoted[at];
        if byte == b'"' {
            return Ok(value);
        }
        if byte == b'\\' {
            let len = put_escape(behind(quoted, at + 1), &mut value)?;
            at += 1 + len;
        } else {
            value.push(byte)?;
            at += 1;
        }
    }
    Ok(value)
}
