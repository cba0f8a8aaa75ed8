// The name that an identifier stands for.
ghost use Rattle.std.specs.Prelude.{◌≡◌, IfOk, slice_range};
ghost use Rattle.zir_form.specs.Names.{name_in, name_of};

use crate::bytes::{behind, byte_at};
use crate::escape::quoted_value;
use std::alloc::{AllocError, Global};
use zig_tree::Token;
use zw_base::Bytes;

/// The bytes of a token; one that doesn't lie in the text has those of it that do.
pub fn token_bytes<'a>(text: &'a [u8], token: &Token) -> &'a [u8]
    ensures { result.now ≡ slice_range text.now token.now.span.start token.now.span.end }
{
    let end = (token.span.end as usize).min(text.len());
    let start = (token.span.start as usize).min(end);
    &text[start..end]
}

/// The name that is written so: the bytes themselves, or what stands in the quotes behind `@`.
#[tactic(auto, unfolding(crate::specs::Names::name_in, zig_tree::specs::TokenBytes::begins))]
fn name_in(alloc: Global, bytes: &[u8]) -> Result<Vec<u8>, AllocError>
    ensures { IfOk result (λ v. v.items ≡ name_in bytes.now) }
{
    if byte_at(bytes, 0) == b'@' && byte_at(bytes, 1) == b'"' {
        quoted_value(alloc, behind(bytes, 2))
    } else {
        Vec::from_slice(alloc, bytes)
    }
}

/// The name that an identifier stands for.
#[tactic(auto, unfolding(crate::specs::Names::name_of))]
pub fn name_of(alloc: Global, text: &[u8], token: &Token) -> Result<Bytes, AllocError>
    ensures { IfOk result (λ name. name ≡ name_of text.now token.now) }
{
    let name = name_in(alloc, token_bytes(text, token))?;
    Ok(Bytes::of(name))
}
