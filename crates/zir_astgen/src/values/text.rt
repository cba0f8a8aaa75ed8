// String literals (Zig Language Reference 0.14, "Multiline String Literals").
ghost use Rattle.std.specs.Prelude.{◌≡◌, ◌<◌, ◌≤◌, ◌+◌, length, IfOk};
ghost use Rattle.zig_tree.specs.TokenBytes.{begins};
ghost use Rattle.zir_astgen.specs.Values.{string_value, margin, multiline_value};

use std::alloc::{AllocError, Global};
use zir_form::{behind, byte_at, quoted_value};
use zw_base::Bytes;

/// The bytes of a string on one line, from its opening quote.
#[tactic(auto, unfolding(crate::specs::Values::string_value))]
pub fn string_value(alloc: Global, bytes: &[u8]) -> Result<Bytes, AllocError>
    ensures { IfOk result (λ value. value ≡ string_value bytes.now) }
{
    let value = quoted_value(alloc, behind(bytes, 1))?;
    Ok(Bytes::of(value))
}

/// How many bytes stand at the front of a line up to behind its `\\`.
#[tactic(auto, unfolding(crate::specs::Values::margin))]
fn margin(line: &[u8]) -> usize
    ensures exact { result ≡ margin line.now }
    ensures within { result ≤ length line.now + 2 }
{
    let mut blanks = 0;
    let mut rest = line;
    while let [byte, more @ ..] = rest {
        if *byte != b' ' && *byte != b'\t' {
            return blanks + 2;
        }
        blanks += 1;
        rest = more;
    }
    blanks + 2
}

/// Whether CR and LF stand at a place.
#[tactic(auto, unfolding(zig_tree::specs::TokenBytes::begins))]
fn is_cr_lf(bytes: &[u8], at: usize) -> bool
    requires { at < length bytes.now }
    ensures { result ≡ begins bytes.now at 13 10 }
{
    byte_at(bytes, at) == b'\r' && byte_at(bytes, at + 1) == b'\n'
}

/// The bytes of a string of several lines, from its first `\\`.
#[tactic(auto, unfolding(crate::specs::Values::multiline_value))]
pub fn multiline_value(alloc: Global, bytes: &[u8]) -> Result<Bytes, AllocError>
    ensures { IfOk result (λ value. value ≡ multiline_value bytes.now) }
{
    let mut value = Vec::new(alloc);
    let mut at = 2;
    while at < bytes.len() {
        let byte = bytes[at];
        if byte == b'\n' {
            value.push(b'\n')?;
            at += 1 + margin(behind(bytes, at + 1));
        } else if is_cr_lf(bytes, at) {
            at += 1;
        } else {
            value.push(byte)?;
            at += 1;
        }
    }
    Ok(Bytes::of(value))
}
